//! Segments of TCP, which sockets hand in and out.
ghost use Rattle.std.specs.Prelude.{◌≡◌, ◌≢◌, IsSomeAnd, drop};
ghost use Rattle.std.specs.Prelude.{length as len};
ghost use Rattle.iface_c.specs.Calls.{Did};
ghost use Rattle.iface_c.specs.Handle.{host_in};
ghost use Rattle.iface_c.specs.Opening.{rooms_in};
ghost use Rattle.iface_c.specs.Segments.{PeeksTcp, ReceivesTcp, ack_for_c, ack_in, control_for_c, control_in};
ghost use Rattle.iface_c.specs.Segments.{ends_in, segment_for_c, segment_in};
ghost use Rattle.iface_c.specs.Status.{IsDueOrMemory, code_by, code_with};
ghost use Rattle.iface_host.specs.Segments as segments;
ghost use Rattle.iface_host.specs.Segments.{AbortsTcp, HoldsTcp, SendsTcp};
ghost use Rattle.iface_host.specs.Sockets.{Opens};

use crate::addresses::IfaceEndpoint;
use crate::handle::Iface;
use crate::opening::IfaceRooms;
use crate::status::{BAD_ARGUMENT, NO_HOST, OK, code};
use ip_wire::{TcpControl, TcpSeqNumber};
use sockets::tcp::Segment;
use sockets::{IpEndpoint, IpListenEndpoint};
use std::alloc::Global;

/// A segment of TCP without its payload.
#[repr(C)]
#[derive(Drop)]
pub struct IfaceSegment {
    /// Where it came from, or goes to.
    pub remote: IfaceEndpoint,
    /// Its sequence number.
    pub seq: u32,
    /// Its acknowledgement number, if it has one.
    pub ack: u32,
    /// Its window as in the header, not scaled.
    pub window: u16,
    /// What it does to its connection: 0 nothing, 1 PSH, 2 SYN, 3 FIN, 4 RST.
    pub control: u8,
    /// Whether it has an acknowledgement number: 0, or not.
    pub has_ack: u8,
}

impl IfaceSegment {
    /// The segment, if the version of its address is 4 or 6, and its control 0 to 4.
    fn segment(&self) -> Option<Segment>
        ensures { result ≡ segment_in self.now }
    {
        Some(Segment {
            remote: self.remote.end()?,
            control: control_of(self.control)?,
            seq: TcpSeqNumber { bits: self.seq },
            ack: self.ack_number(),
            window: self.window,
        })
    }

    /// Its acknowledgement number, if it has one.
    fn ack_number(&self) -> Option<TcpSeqNumber>
        ensures { result ≡ ack_in self.now }
    {
        if self.has_ack == 0 {
            None
        } else {
            Some(TcpSeqNumber { bits: self.ack })
        }
    }

    /// A segment as C reads it.
    fn of(segment: &Segment) -> IfaceSegment
        ensures { result ≡ segment_for_c segment.now }
    {
        let (ack, has_ack) = ack_and_flag(segment.ack);
        IfaceSegment {
            remote: IfaceEndpoint::of(&segment.remote),
            seq: segment.seq.bits,
            ack,
            window: segment.window,
            control: number_of(segment.control),
            has_ack,
        }
    }
}

/// An acknowledgement number, and 1; where there is none, 0 and 0.
fn ack_and_flag(ack: Option<TcpSeqNumber>) -> (u32, u8)
    ensures { result ≡ ack_for_c ack }
{
    match ack {
        Some(number) => (number.bits, 1),
        None => (0, 0),
    }
}

/// What a number says that a segment does, if it is 0 to 4.
fn control_of(number: u8) -> Option<TcpControl>
    ensures { result ≡ control_in number }
{
    match number {
        0 => Some(TcpControl::None),
        1 => Some(TcpControl::Psh),
        2 => Some(TcpControl::Syn),
        3 => Some(TcpControl::Fin),
        4 => Some(TcpControl::Rst),
        _ => None,
    }
}

/// The number of what a segment does.
fn number_of(control: TcpControl) -> u8
    ensures { result ≡ control_for_c control }
{
    match control {
        TcpControl::None => 0,
        TcpControl::Psh => 1,
        TcpControl::Syn => 2,
        TcpControl::Fin => 3,
        TcpControl::Rst => 4,
    }
}

/// The two ends of a socket: the own one, if it is one, and the remote one, which isn't given if its version is 0.
fn ends_of(
    local: &IfaceEndpoint,
    remote: &IfaceEndpoint,
) -> Option<(IpListenEndpoint, Option<IpEndpoint>)>
    ensures { result ≡ ends_in local.now remote.now }
{
    let local = local.listen_end()?;
    if remote.address.version == 0 {
        return Some((local, None));
    }
    Some((local, Some(remote.end()?)))
}

/// Opens a TCP socket, and writes its number.
#[unsafe(no_mangle)]
pub extern "C" fn iface_tcp_open(
    handle: &mut Iface,
    alloc: Global,
    local: &IfaceEndpoint,
    remote: &IfaceEndpoint,
    rooms: &IfaceRooms,
    socket: &mut u32,
) -> u32
    ensures done { Did result (λ old new. IsSomeAnd (ends_in local.now remote.now) (λ ends.
        Opens (segments.tcp ends.0 ends.1 (rooms_in rooms.now)) socket.new old new)) handle.old handle.new }
    ensures code { IsDueOrMemory (code_with (λ ends host. segments.tcp_opening_refusal host ends.0 ends.1)
        (ends_in local.now remote.now) (host_in handle.old)) result }
    ensures kept { result ≢ 0 → socket.new ≡ socket.old }
{
    let Some((local, remote)) = ends_of(local, remote) else {
        return BAD_ARGUMENT;
    };
    let Some(mut host) = handle.take(alloc) else {
        return NO_HOST;
    };
    let done = host.open_tcp(local, remote, rooms.rooms());
    handle.put(host);
    match done {
        Ok(number) => {
            *socket = number;
            OK
        },
        Err(refusal) => code(refusal),
    }
}

/// Queues a segment with its payload.
#[unsafe(no_mangle)]
pub extern "C" fn iface_tcp_send(
    handle: &mut Iface,
    alloc: Global,
    socket: u32,
    segment: &IfaceSegment,
    payload: &[u8],
) -> u32
    ensures done { Did result (λ old new. IsSomeAnd (segment_in segment.now)
        (λ s. SendsTcp socket s payload.now old new)) handle.old handle.new }
    ensures code { result ≡ code_with (λ s host. segments.tcp_unsent host socket s.remote (len payload.now))
        (segment_in segment.now) (host_in handle.old) }
{
    let Some(segment) = segment.segment() else {
        return BAD_ARGUMENT;
    };
    let Some(mut host) = handle.take(alloc) else {
        return NO_HOST;
    };
    let done = host.send_tcp(socket, segment, payload);
    handle.put(host);
    match done {
        Ok(()) => OK,
        Err(refusal) => code(refusal),
    }
}

/// Lets a TCP socket send nothing before a moment.
#[unsafe(no_mangle)]
pub extern "C" fn iface_tcp_hold(handle: &mut Iface, alloc: Global, socket: u32, until: i64) -> u32
    ensures done { Did result (λ old new. HoldsTcp socket until old new) handle.old handle.new }
    ensures code { result ≡ code_by (λ host. segments.hold_refusal host socket until) (host_in handle.old) }
{
    let Some(mut host) = handle.take(alloc) else {
        return NO_HOST;
    };
    let done = host.hold_tcp(socket, until);
    handle.put(host);
    match done {
        Ok(()) => OK,
        Err(refusal) => code(refusal),
    }
}

/// Lets a TCP socket get no segment from now on.
#[unsafe(no_mangle)]
pub extern "C" fn iface_tcp_abort(handle: &mut Iface, alloc: Global, socket: u32) -> u32
    ensures done { Did result (λ old new. AbortsTcp socket old new) handle.old handle.new }
    ensures code { result ≡ code_by (λ host. segments.abort_refusal host socket) (host_in handle.old) }
{
    let Some(mut host) = handle.take(alloc) else {
        return NO_HOST;
    };
    let done = host.abort_tcp(socket);
    handle.put(host);
    match done {
        Ok(()) => OK,
        Err(refusal) => code(refusal),
    }
}

/// Takes the first segment that came.
#[unsafe(no_mangle)]
pub extern "C" fn iface_tcp_receive(
    handle: &mut Iface,
    alloc: Global,
    socket: u32,
    segment: &mut IfaceSegment,
    out: &mut [u8],
    length: &mut usize,
) -> u32
    ensures done { Did result
        (λ old new. ReceivesTcp socket segment.new length.new out.new old new) handle.old handle.new }
    ensures code { result ≡ code_by (λ host. segments.tcp_unreceived host socket (len out.old)) (host_in handle.old) }
    ensures kept { result ≢ 0 → (segment.new ≡ segment.old) × (out.new ≡ out.old) × (length.new ≡ length.old) }
    ensures behind { result ≡ 0 → drop length.new out.new ≡ drop length.new out.old }
{
    let Some(mut host) = handle.take(alloc) else {
        return NO_HOST;
    };
    let done = host.receive_tcp(socket, out);
    handle.put(host);
    match done {
        Ok((first, len)) => {
            *segment = IfaceSegment::of(&first);
            *length = len;
            OK
        },
        Err(refusal) => code(refusal),
    }
}

/// Writes the first segment that came, which stays.
#[unsafe(no_mangle)]
pub extern "C" fn iface_tcp_peek(
    handle: &mut Iface,
    alloc: Global,
    socket: u32,
    segment: &mut IfaceSegment,
    out: &mut [u8],
    length: &mut usize,
) -> u32
    ensures done { Did result
        (λ old new. PeeksTcp socket segment.new length.new out.new old new) handle.old handle.new }
    ensures code { result ≡ code_by (λ host. segments.tcp_unreceived host socket (len out.old)) (host_in handle.old) }
    ensures kept { result ≢ 0 → (segment.new ≡ segment.old) × (out.new ≡ out.old) × (length.new ≡ length.old) }
    ensures behind { result ≡ 0 → drop length.new out.new ≡ drop length.new out.old }
{
    let Some(host) = handle.take(alloc) else {
        return NO_HOST;
    };
    let done = host.peek_tcp(socket, out);
    handle.put(host);
    match done {
        Ok((first, len)) => {
            *segment = IfaceSegment::of(&first);
            *length = len;
            OK
        },
        Err(refusal) => code(refusal),
    }
}
