//! What sockets send and receive.
ghost use Rattle.std.specs.Prelude.{◌≡◌, ◌≤◌, true, IfOk, OnOk, OnErr, Some, drop, length, take};
ghost use Rattle.std.specs.Option.{option_map};
ghost use Rattle.std.specs.Result.{result_err};
ghost use Rattle.iface_host.specs.Refusals as refusals;
ghost use Rattle.iface_host.specs.Sockets.{PeeksIcmp, PeeksRaw, PeeksUdp};
ghost use Rattle.iface_host.specs.Sockets.{ReceivesIcmp, ReceivesRaw, ReceivesUdp};
ghost use Rattle.iface_host.specs.Sockets.{SendsIcmp, SendsRaw, SendsUdp, lent_packet, with_packet};

use crate::host::IfaceHost;
use crate::outbox::write_front;
use crate::refusal::Refusal;
use ip_wire::{IpAddress, IpVersion};
use net_base::time::Instant;
use sockets::{IpEndpoint, icmp, raw, udp};

/// The longest packet of IPv4 that is sent: it goes in pieces, where the link's packets are shorter.
const MAX_CUT: usize = 4096;

/// The longest payload that a UDP, an ICMP or a TCP socket takes.
const MAX_PAYLOAD: usize = 65_495;

impl IfaceHost {
    /// Queues a datagram to an end. `BadPort` if its port is 0, `BadAddress` if its address is unspecified, `TooLong`
    /// if the packet would be longer than is sent, `NoRoute` if it is unicast, and no network of the host and no route has it,
    /// `NoSocket` if no UDP socket has this number, and else `QueueFull`.
    #[tactic(auto, using(crate::proofs::Places::udp_full, crate::proofs::Places::host_same))]
    pub fn send_udp(
        &mut self,
        number: u32,
        remote: IpEndpoint,
        payload: &[u8],
    ) -> Result<(), Refusal>
        ensures sent { OnOk result (SendsUdp number remote payload.now self.old self.new) }
        ensures why { result_err result ≡ refusals.udp_unsent self.old number remote (length payload.now) }
        ensures refused { OnErr result (self.new ≡ self.old) }
    {
        if remote.port == 0 {
            return Err(Refusal::BadPort);
        }
        if remote.addr.is_unspecified() {
            return Err(Refusal::BadAddress);
        }
        if !self.may_send(remote.addr.version(), 8, payload) {
            return Err(Refusal::TooLong);
        }
        if !self.is_reached(&remote.addr) {
            return Err(Refusal::NoRoute);
        }
        let Some(handle) = self.names.get(number) else {
            return Err(Refusal::NoSocket);
        };
        let Some(socket) = self.sockets.get_mut::<udp::Socket<'static>>(handle) else {
            return Err(Refusal::NoSocket);
        };
        if socket.endpoint().port == 0 {
            return Err(Refusal::BadPort);
        }
        if socket.send(remote, payload).is_err() {
            return Err(Refusal::QueueFull);
        }
        self.expect_packet(28 + payload.len());
        Ok(())
    }

    /// Queues a message of ICMP to an address. It fails as [`IfaceHost::send_udp`], where it has no port.
    #[tactic(auto, using(crate::proofs::Places::icmp_full))]
    pub fn send_icmp(
        &mut self,
        number: u32,
        remote: IpAddress,
        message: &[u8],
    ) -> Result<(), Refusal>
        ensures sent { OnOk result (SendsIcmp number remote message.now self.old self.new) }
        ensures why { result_err result ≡ refusals.icmp_unsent self.old number remote (length message.now) }
        ensures refused { OnErr result (self.new ≡ self.old) }
    {
        if remote.is_unspecified() {
            return Err(Refusal::BadAddress);
        }
        if !self.may_send(remote.version(), 0, message) {
            return Err(Refusal::TooLong);
        }
        if !self.is_reached(&remote) {
            return Err(Refusal::NoRoute);
        }
        let Some(handle) = self.names.get(number) else {
            return Err(Refusal::NoSocket);
        };
        let Some(socket) = self.sockets.get_mut::<icmp::Socket<'static>>(handle) else {
            return Err(Refusal::NoSocket);
        };
        if socket.send(remote, message).is_err() {
            return Err(Refusal::QueueFull);
        }
        self.expect_packet(20 + message.len());
        Ok(())
    }

    /// Queues a packet with its header. `NoSocket` if no raw socket has this number, else `QueueFull`.
    #[tactic(auto, using(crate::proofs::Places::raw_full))]
    pub fn send_raw(&mut self, number: u32, packet: &[u8]) -> Result<(), Refusal>
        ensures sent { OnOk result (SendsRaw number packet.now self.old self.new) }
        ensures why { result_err result ≡ refusals.raw_unsent self.old number (length packet.now) }
        ensures refused { OnErr result (self.new ≡ self.old) }
    {
        let Some(handle) = self.names.get(number) else {
            return Err(Refusal::NoSocket);
        };
        let Some(socket) = self.sockets.get_mut::<raw::Socket<'static>>(handle) else {
            return Err(Refusal::NoSocket);
        };
        if socket.send((), packet).is_err() {
            return Err(Refusal::QueueFull);
        }
        self.expect_packet(packet.len());
        Ok(())
    }

    /// Takes the first datagram that came: writes its payload to the front of a buffer, and tells where it came from
    /// and how long it is. `NoSocket` if no UDP socket has this number, `Empty` if none came, `NoRoom` if it is
    /// longer than the buffer; then it stays.
    #[tactic(auto, using(crate::proofs::Places::host_same))]
    pub fn receive_udp(
        &mut self,
        number: u32,
        out: &mut [u8],
    ) -> Result<(IpEndpoint, usize), Refusal>
        ensures received { IfOk result (λ r. ReceivesUdp number r.0 r.1 out.new self.old self.new) }
        ensures behind { IfOk result (λ r. drop r.1 out.new ≡ drop r.1 out.old) }
        ensures why { result_err result ≡ refusals.udp_unreceived self.old number (length out.old) }
        ensures refused { OnErr result (self.new ≡ self.old) }
        ensures out { OnErr result (out.new ≡ out.old) }
    {
        let Some(handle) = self.names.get(number) else {
            return Err(Refusal::NoSocket);
        };
        let Some(socket) = self.sockets.get_mut::<udp::Socket<'static>>(handle) else {
            return Err(Refusal::NoSocket);
        };
        let first = write_first(socket.recv(), out)?;
        socket.done();
        Ok(first)
    }

    /// The same of an ICMP socket: a message, and the address that it came from.
    #[tactic(auto, using(crate::proofs::Places::host_same))]
    pub fn receive_icmp(
        &mut self,
        number: u32,
        out: &mut [u8],
    ) -> Result<(IpAddress, usize), Refusal>
        ensures received { IfOk result (λ r. ReceivesIcmp number r.0 r.1 out.new self.old self.new) }
        ensures behind { IfOk result (λ r. drop r.1 out.new ≡ drop r.1 out.old) }
        ensures why { result_err result ≡ refusals.icmp_unreceived self.old number (length out.old) }
        ensures refused { OnErr result (self.new ≡ self.old) }
        ensures out { OnErr result (out.new ≡ out.old) }
    {
        let Some(handle) = self.names.get(number) else {
            return Err(Refusal::NoSocket);
        };
        let Some(socket) = self.sockets.get_mut::<icmp::Socket<'static>>(handle) else {
            return Err(Refusal::NoSocket);
        };
        let first = write_first(socket.recv(), out)?;
        socket.done();
        Ok(first)
    }

    /// The same of a raw socket: a packet with its header.
    #[tactic(auto, using(crate::proofs::Places::host_same))]
    pub fn receive_raw(&mut self, number: u32, out: &mut [u8]) -> Result<usize, Refusal>
        ensures received { IfOk result (λ n. ReceivesRaw number n out.new self.old self.new) }
        ensures behind { IfOk result (λ n. drop n out.new ≡ drop n out.old) }
        ensures why { result_err result ≡ refusals.raw_unreceived self.old number (length out.old) }
        ensures refused { OnErr result (self.new ≡ self.old) }
        ensures out { OnErr result (out.new ≡ out.old) }
    {
        let Some(handle) = self.names.get(number) else {
            return Err(Refusal::NoSocket);
        };
        let Some(socket) = self.sockets.get_mut::<raw::Socket<'static>>(handle) else {
            return Err(Refusal::NoSocket);
        };
        let (_, len) = write_first(socket.recv(), out)?;
        socket.done();
        Ok(len)
    }

    /// Writes the first datagram that came as [`IfaceHost::receive_udp`] does, and fails as it does. It stays.
    pub fn peek_udp(&self, number: u32, out: &mut [u8]) -> Result<(IpEndpoint, usize), Refusal>
        ensures peeked { IfOk result (λ r. PeeksUdp number r.0 r.1 out.new self.now) }
        ensures behind { IfOk result (λ r. drop r.1 out.new ≡ drop r.1 out.old) }
        ensures why { result_err result ≡ refusals.udp_unreceived self.now number (length out.old) }
        ensures out { OnErr result (out.new ≡ out.old) }
    {
        let Some(handle) = self.names.get(number) else {
            return Err(Refusal::NoSocket);
        };
        let Some(socket) = self.sockets.get::<udp::Socket<'static>>(handle) else {
            return Err(Refusal::NoSocket);
        };
        write_first(socket.recv(), out)
    }

    /// The same of an ICMP socket, as [`IfaceHost::receive_icmp`].
    pub fn peek_icmp(&self, number: u32, out: &mut [u8]) -> Result<(IpAddress, usize), Refusal>
        ensures peeked { IfOk result (λ r. PeeksIcmp number r.0 r.1 out.new self.now) }
        ensures behind { IfOk result (λ r. drop r.1 out.new ≡ drop r.1 out.old) }
        ensures why { result_err result ≡ refusals.icmp_unreceived self.now number (length out.old) }
        ensures out { OnErr result (out.new ≡ out.old) }
    {
        let Some(handle) = self.names.get(number) else {
            return Err(Refusal::NoSocket);
        };
        let Some(socket) = self.sockets.get::<icmp::Socket<'static>>(handle) else {
            return Err(Refusal::NoSocket);
        };
        write_first(socket.recv(), out)
    }

    /// The same of a raw socket, as [`IfaceHost::receive_raw`].
    pub fn peek_raw(&self, number: u32, out: &mut [u8]) -> Result<usize, Refusal>
        ensures peeked { IfOk result (λ n. PeeksRaw number n out.new self.now) }
        ensures behind { IfOk result (λ n. drop n out.new ≡ drop n out.old) }
        ensures why { result_err result ≡ refusals.raw_unreceived self.now number (length out.old) }
        ensures out { OnErr result (out.new ≡ out.old) }
    {
        let Some(handle) = self.names.get(number) else {
            return Err(Refusal::NoSocket);
        };
        let Some(socket) = self.sockets.get::<raw::Socket<'static>>(handle) else {
            return Err(Refusal::NoSocket);
        };
        let (_, len) = write_first(socket.recv(), out)?;
        Ok(len)
    }

    /// Tells the schedule of a packet of so many octets that is queued, if it may have to be cut.
    pub(crate) fn expect_packet(&mut self, len: usize)
        ensures { self.new ≡ with_packet len self.old }
    {
        if self.ip_mtu < len {
            self.schedule.expect_long_packet();
        }
    }

    /// Whether a network of the host or a route has a destination, or it needs none. A route whose end has passed counts too.
    fn is_reached(&self, remote: &IpAddress) -> bool
        ensures { result ≡ refusals.is_reached self.now remote.now }
    {
        !remote.is_unicast() || self.has_route(remote, Instant::ZERO)
    }

    /// Whether a payload after a header of so many octets, in a packet of this version, isn't too long to be sent.
    pub(crate) fn may_send(&self, version: IpVersion, header: usize, payload: &[u8]) -> bool
        requires { header ≤ 20 }
        ensures value { result ≡ refusals.may_send self.now.ip_mtu version header (length payload.now) }
        ensures short { result ≡ true → length payload.now ≤ 65495 }
    {
        if payload.len() > MAX_PAYLOAD {
            return false;
        }
        match version {
            IpVersion::Ipv4 => payload.len() + header + 20 <= self.ip_mtu.max(MAX_CUT),
            IpVersion::Ipv6 => payload.len() + header + 40 <= self.ip_mtu,
        }
    }
}

/// Writes the first packet that came to the front of a buffer, and returns what is kept with it, and its length. Behind
/// it the buffer stays. `Empty` if none came, `NoRoom` if it is longer than the buffer; then all of the buffer stays.
pub(crate) fn write_first<M: Copy>(
    first: Option<(&M, &[u8])>,
    out: &mut [u8],
) -> Result<(M, usize), Refusal>
    ensures written { IfOk result (λ r. option_map lent_packet first.entry ≡ Some (r.0, take r.1 out.new)) }
    ensures within { IfOk result (λ r. r.1 ≤ length out.new) }
    ensures behind { IfOk result (λ r. drop r.1 out.new ≡ drop r.1 out.old) }
    ensures why { result_err result
        ≡ refusals.of_packet (length out.old) (option_map lent_packet first.entry) }
    ensures out { OnErr result (out.new ≡ out.old) }
{
    let Some((from, packet)) = first else {
        return Err(Refusal::Empty);
    };
    if packet.len() > out.len() {
        return Err(Refusal::NoRoom);
    }
    let len = write_front(out, packet);
    Ok((*from, len))
}
