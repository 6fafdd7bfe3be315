//! The last errors about packets of a host, which it keeps until they are asked for.
ghost use Rattle.std.specs.Prelude.{◌≡◌, ◌==◌, [], length, None};
ghost use Rattle.std.specs.List.{position_or_len};
ghost use Rattle.iface_host.specs.LastErrors as spec;

use crate::errors::{ErrorCause, PacketError, error_in, may_tell};
use crate::host::IfaceHost;
use arrayvec::ArrayVec;
use ip_wire::{IpAddress, IpProtocol, Ipv4Address};
use sockets::IpEndpoint;
use std::marker::Model;

/// How many errors are kept.
pub const KEPT_ERRORS: usize = 4;

/// The last errors, in the order in which they came, four at most.
///
/// In contracts it is their list.
#[derive(Drop)]
pub struct LastErrors {
    kept: ArrayVec<PacketError, KEPT_ERRORS>,
}

impl Model for LastErrors {
    ghost use Rattle.std.specs.Prelude.{List};
    ghost use Rattle.iface_host.specs.declared.errors.PacketError.{PacketError};

    ghost Value = { List PacketError };

    ghost view = { λ e. e.kept.items };
}

impl LastErrors {
    /// No error.
    pub fn new() -> LastErrors
        ensures { result ≡ [] }
    {
        LastErrors {
            kept: ArrayVec::new(),
        }
    }

    /// Whether none is kept.
    #[inline(always)]
    pub fn is_empty(&self) -> bool
        ensures { result ≡ (length self.now == 0) }
    {
        self.kept.is_empty()
    }

    /// Keeps one more behind the others; where four are kept, the first one makes room.
    pub fn push(&mut self, error: PacketError)
        ensures { self.new ≡ spec.with_error error self.old }
    {
        if self.kept.is_full() {
            let _ = self.kept.remove(0);
        }
        self.kept.push(error);
    }

    /// Takes the first one about a packet of a protocol, and from a port, if one is given. The others stay in order.
    pub fn take(&mut self, protocol: IpProtocol, port: Option<u16>) -> Option<PacketError>
        ensures first { result ≡ spec.first_about protocol port self.old }
        ensures rest { self.new ≡ spec.without_first protocol port self.old }
    {
        let index = index_of(self.kept.as_slice(), protocol, port);
        if index < self.kept.len() {
            Some(self.kept.remove(index))
        } else {
            None
        }
    }
}

/// Where the first error stands that is about a packet of a protocol, and from a port, if one is given; or the length.
fn index_of(kept: &[PacketError], protocol: IpProtocol, port: Option<u16>) -> usize
    ensures { result ≡ position_or_len (spec.is_about protocol port) kept.now }
{
    for (i, error) in kept.iter().enumerate() {
        if is_about(error, protocol, port) {
            return i;
        }
    }
    kept.len()
}

/// Whether an error is about a packet of a protocol, and from a port, if one is given.
fn is_about(error: &PacketError, protocol: IpProtocol, port: Option<u16>) -> bool
    ensures { result ≡ spec.is_about protocol port error.now }
{
    protocol == error.protocol
        && match port {
            Some(port) => port == error.local.port,
            None => true,
        }
}

/// A soft error about nobody's packet, which stands where none is kept.
impl Default for PacketError {
    fn default() -> PacketError {
        let nobody = IpEndpoint {
            addr: IpAddress::Ipv4(Ipv4Address { bits: 0 }),
            port: 0,
        };
        PacketError {
            protocol: IpProtocol::Udp,
            local: nobody,
            remote: nobody,
            number: 0,
            cause: ErrorCause::Soft,
        }
    }
}

impl IfaceHost {
    /// Takes the first of the last four errors about packets of a protocol, and from a local port, if one is given. The others stay
    /// in order; where there is none nothing changes. An error is what a message of ICMP tells, which [`IfaceHost::receive`] took.
    ///
    /// Who forges one that counts has to know both ends of a packet, and of TCP a number. Four that name any ends push a true one
    /// out: then there is none, as where the network tells nothing, and time-outs do their work.
    #[inline(always)]
    pub fn take_packet_error(
        &mut self,
        protocol: IpProtocol,
        local_port: Option<u16>,
    ) -> Option<PacketError>
        ensures first { result ≡ spec.first_about protocol local_port self.old.errors }
        ensures rest { self.new ≡ record self.old { errors = spec.without_first protocol local_port self.old.errors } }
        ensures none { result ≡ None → self.new ≡ self.old }
    {
        if self.errors.is_empty() {
            return None;
        }
        self.errors.take(protocol, local_port)
    }

    /// Keeps what a frame says of a packet of this host, if it says that. Of most frames three octets tell that they don't.
    #[inline(always)]
    pub(crate) fn note_error(&mut self, frame: &[u8])
        ensures { self.new ≡ spec.after_error frame.now self.old }
    {
        if may_tell(frame, self.outbox.medium()) {
            self.note_icmp(frame);
        }
    }

    /// Keeps what a frame says of a packet of this host, if it says that.
    #[inline(never)]
    fn note_icmp(&mut self, frame: &[u8])
        ensures { self.new ≡ spec.after_error frame.now self.old }
    {
        let own = self.interface.ip_addrs();
        match error_in(frame, &self.outbox.capabilities(), own) {
            Some(error) => self.errors.push(error),
            None => {}
        }
    }
}
