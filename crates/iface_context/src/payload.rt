//! Payloads of IP packets, of one kind or of any, with their octets borrowed from where they came from.
ghost use Rattle.std.specs.Prelude.{◌≡◌, ◌+◌, ◌<◌, ◌≤◌, ◌^◌, ◌++◌, ℕ, List, [], Some, drop, length};
ghost use Rattle.control_wire.specs.declared.icmpv4.Icmpv4Repr.TheVariants as icmpv4;
ghost use Rattle.control_wire.specs.declared.icmpv6.Icmpv6Repr.TheVariants as icmpv6;
ghost use Rattle.control_wire.specs.declared.ndisc.NdiscRepr.TheVariants as ndisc;
ghost use Rattle.host_machine.specs.Packet.Frame.{with_limited_window, mld_options, payload_text};
ghost use Rattle.host_machine.specs.Packet.Packet.{HasPorts, IsWritablePayload, payload_len, protocol_of};
ghost use Rattle.host_machine.specs.Packet.Packet as value;
ghost use Rattle.ip_wire.specs.HopByHop.{text_len};
ghost use Rattle.iface_context.specs.Details.PacketValues as value_of;

use arrayvec::ArrayVec;
use control_wire::icmpv4::{EchoRequest, Icmpv4DstUnreachable, Icmpv4Repr};
use control_wire::icmpv6::emit_parts;
use control_wire::ndisc_option::{NdiscOptionType, lladdr_option};
use control_wire::{
    Icmpv6DstUnreachable, Icmpv6Repr, IgmpRepr, MldRepr, NdiscNeighborFlags, NdiscRepr, echo,
};
use ip_wire::emit::FrameBuffer;
use ip_wire::ipv6_packet::address_octets;
use ip_wire::{
    EthernetAddress, IpProtocol, IpRepr, Ipv4Repr, Ipv6Address, Ipv6HopByHopRepr, Ipv6OptionRepr,
    Ipv6Repr, TcpRepr, UdpRepr,
};
use net_base::phy::DeviceCapabilities;

/// The payload of an IP packet. Where its kind is a type, the code that builds the packet's frame is compiled for that
/// kind.
pub trait Payload: Copy {
    ghost use Rattle.host_machine.specs.Packet.Packet.{IpPayload};

    /// The payload as a value.
    ghost carried: { Self → IpPayload };

    /// The octets after its protocol's header.
    ghost after: { Self → List ℕ };

    /// Its protocol.
    fn protocol(&self) -> IpProtocol
        ensures { result ≡ protocol_of (carried self.now) };

    /// The length including the protocol's header, in octets.
    fn len(&self) -> usize
        ensures value { result ≡ payload_len (carried self.now) }
        ensures short { result < 2 ^ 63 + 56 };

    /// The octets after its protocol's header.
    fn octets(&self) -> &[u8]
        ensures { result.now ≡ after self.now };

    /// Appends the payload to an IP header, up to the octets after the protocol's header. The checksum is computed if
    /// the device's capabilities ask for it.
    fn emit_header(&self, header: &IpRepr, capabilities: &DeviceCapabilities, out: &mut FrameBuffer)
        requires writable { IsWritablePayload (carried self.now) }
        requires short { payload_len (carried self.now) < 2 ^ 16 }
        requires room { length out.old + payload_len (carried self.now) ≤ 1514 + length (after self.now) }
        ensures items { out.new ++ after self.now
            ≡ out.old ++ payload_text capabilities.now header.now (carried self.now) }
        ensures len { length out.new + length (after self.now) ≡ length out.old + payload_len (carried self.now) }
        ensures ports { HasPorts (carried self.now) };

    /// The payload as one of any kind.
    fn as_ip_payload(&self) -> IpPayload<'_>
        ensures { value_of.payload result ≡ carried self.now };
}

/// A payload of any kind: a protocol's header with the octets after it, or raw octets.
#[derive(Clone, Copy)]
pub enum IpPayload<'p> {
    Icmpv4(Icmpv4Repr, &'p [u8]),
    Icmpv6(Icmpv6Repr, &'p [u8]),
    /// The reply to an ICMPv4 echo request.
    EchoReplyV4(EchoRequest<'p>),
    /// The reply to an ICMPv6 echo request.
    EchoReplyV6(echo::EchoRequest<'p>),
    Udp(UdpRepr, &'p [u8]),
    Tcp(TcpRepr, &'p [u8]),
    Raw(IpProtocol, &'p [u8]),
    Igmp(IgmpRepr),
    /// An MLD report: the number of its records, and their octets.
    Mld(u16, &'p [u8]),
}

/// The reply to an ICMPv4 echo request.
#[derive(Clone, Copy)]
pub struct EchoReplyV4<'p> {
    pub request: EchoRequest<'p>,
}

/// The reply to an ICMPv6 echo request.
#[derive(Clone, Copy)]
pub struct EchoReplyV6<'p> {
    pub request: echo::EchoRequest<'p>,
}

/// An ICMPv4 error for a packet that couldn't be delivered: the reason, the packet's header, and the octets of its
/// payload to quote.
#[derive(Clone, Copy)]
pub struct Unreachable<'p> {
    pub reason: Icmpv4DstUnreachable,
    pub header: Ipv4Repr,
    pub octets: &'p [u8],
}

/// An ICMPv6 error for a packet that couldn't be delivered: the reason, the packet's header, and the octets of its
/// payload to quote.
#[derive(Clone, Copy)]
pub struct UnreachableV6<'p> {
    pub reason: Icmpv6DstUnreachable,
    pub header: Ipv6Repr,
    pub octets: &'p [u8],
}

/// A neighbour advertisement (RFC 4861 4.4), with the hardware address.
#[derive(Clone, Copy)]
pub struct NeighborAdvert {
    pub flags: NdiscNeighborFlags,
    pub target_addr: Ipv6Address,
    pub lladdr: EthernetAddress,
}

/// A UDP datagram.
#[derive(Clone, Copy)]
pub struct Datagram<'p> {
    pub header: UdpRepr,
    pub octets: &'p [u8],
}

/// A TCP segment.
#[derive(Clone, Copy)]
pub struct Segment<'p> {
    pub header: TcpRepr,
    pub octets: &'p [u8],
}

impl Payload for IpPayload<'_> {
    ghost carried = { value_of.payload };

    ghost after = { value_of.octets_after };

    #[inline(always)]
    fn protocol(&self) -> IpProtocol {
        match self {
            IpPayload::Icmpv4(..) | IpPayload::EchoReplyV4(_) => IpProtocol::Icmp,
            IpPayload::Icmpv6(..) | IpPayload::EchoReplyV6(_) => IpProtocol::Icmpv6,
            IpPayload::Udp(..) => IpProtocol::Udp,
            IpPayload::Tcp(..) => IpProtocol::Tcp,
            IpPayload::Raw(protocol, _) => *protocol,
            IpPayload::Igmp(_) => IpProtocol::Igmp,
            IpPayload::Mld(..) => IpProtocol::HopByHop,
        }
    }

    #[inline(always)]
    fn len(&self) -> usize {
        match self {
            IpPayload::Icmpv4(message, octets) => message.header_len() + octets.len(),
            IpPayload::Icmpv6(message, octets) => message.header_len() + octets.len(),
            IpPayload::EchoReplyV4(request) => request.octets.len(),
            IpPayload::EchoReplyV6(request) => request.octets.len(),
            IpPayload::Udp(_, octets) => 8 + octets.len(),
            IpPayload::Tcp(_, octets) => 20 + octets.len(),
            IpPayload::Raw(_, octets) => octets.len(),
            IpPayload::Igmp(_) => control_wire::igmp::HEADER_LEN,
            IpPayload::Mld(_, records) => 16 + records.len(),
        }
    }

    #[inline(always)]
    fn octets(&self) -> &[u8] {
        match self {
            IpPayload::EchoReplyV4(request) => request.payload(),
            IpPayload::EchoReplyV6(request) => request.payload(),
            IpPayload::Icmpv4(_, octets)
            | IpPayload::Icmpv6(_, octets)
            | IpPayload::Udp(_, octets)
            | IpPayload::Tcp(_, octets)
            | IpPayload::Raw(_, octets)
            | IpPayload::Mld(_, octets) => octets,
            IpPayload::Igmp(_) => &[],
        }
    }

    #[inline(never)]
    fn emit_header(
        &self,
        header: &IpRepr,
        capabilities: &DeviceCapabilities,
        out: &mut FrameBuffer,
    ) {
        match self {
            IpPayload::Icmpv4(message, octets) => message.emit_header(
                octets,
                capabilities.checksum.icmpv4.tx(),
                capabilities.checksum.ipv4.tx(),
                out,
            ),
            IpPayload::EchoReplyV4(request) => {
                request.emit_reply_header(capabilities.checksum.icmpv4.tx(), out);
            }
            IpPayload::EchoReplyV6(request) => {
                let (src, dst) = (header.src_addr(), header.dst_addr());
                request.emit_reply_header(&src, &dst, capabilities.checksum.icmpv6.tx(), out);
            }
            IpPayload::Icmpv6(message, octets) => {
                let (src, dst) = (header.src_addr(), header.dst_addr());
                message.emit_header(&src, &dst, octets, capabilities.checksum.icmpv6.tx(), out);
            }
            IpPayload::Udp(ports, octets) => {
                have_bits(*ports);
                let (src, dst) = (header.src_addr(), header.dst_addr());
                ports.emit_header(&src, &dst, octets, capabilities.checksum.udp.tx(), out);
            }
            IpPayload::Tcp(segment, octets) => {
                emit_tcp_header(segment, octets, header, capabilities, out);
            }
            IpPayload::Raw(..) => {}
            IpPayload::Igmp(message) => out.append(&message.octets()),
            IpPayload::Mld(count, records) => {
                emit_mld_header(header, *count, records, capabilities, out);
            }
        }
    }

    #[inline(always)]
    fn as_ip_payload(&self) -> IpPayload<'_> {
        *self
    }
}

impl Payload for EchoReplyV4<'_> {
    ghost carried = { value_of.echo_reply_v4 };

    ghost after = { λ p. drop 8 p.request.octets.now };

    #[inline(always)]
    fn protocol(&self) -> IpProtocol {
        IpProtocol::Icmp
    }

    #[inline(always)]
    fn len(&self) -> usize {
        self.request.octets.len()
    }

    #[inline(always)]
    fn octets(&self) -> &[u8] {
        self.request.payload()
    }

    #[inline(always)]
    fn emit_header(
        &self,
        _header: &IpRepr,
        capabilities: &DeviceCapabilities,
        out: &mut FrameBuffer,
    ) {
        self.request
            .emit_reply_header(capabilities.checksum.icmpv4.tx(), out);
    }

    #[inline(always)]
    fn as_ip_payload(&self) -> IpPayload<'_> {
        IpPayload::EchoReplyV4(self.request)
    }
}

impl Payload for EchoReplyV6<'_> {
    ghost carried = { value_of.echo_reply_v6 };

    ghost after = { λ p. drop 8 p.request.octets.now };

    #[inline(always)]
    fn protocol(&self) -> IpProtocol {
        IpProtocol::Icmpv6
    }

    #[inline(always)]
    fn len(&self) -> usize {
        self.request.octets.len()
    }

    #[inline(always)]
    fn octets(&self) -> &[u8] {
        self.request.payload()
    }

    #[inline(always)]
    fn emit_header(
        &self,
        header: &IpRepr,
        capabilities: &DeviceCapabilities,
        out: &mut FrameBuffer,
    ) {
        let (src, dst) = (header.src_addr(), header.dst_addr());
        self.request
            .emit_reply_header(&src, &dst, capabilities.checksum.icmpv6.tx(), out);
    }

    #[inline(always)]
    fn as_ip_payload(&self) -> IpPayload<'_> {
        IpPayload::EchoReplyV6(self.request)
    }
}

impl Payload for Unreachable<'_> {
    ghost carried = { value_of.unreachable };

    ghost after = { λ p. p.octets.now };

    #[inline(always)]
    fn protocol(&self) -> IpProtocol {
        IpProtocol::Icmp
    }

    #[inline(always)]
    fn len(&self) -> usize {
        28 + self.octets.len()
    }

    #[inline(always)]
    fn octets(&self) -> &[u8] {
        self.octets
    }

    #[inline(always)]
    fn emit_header(
        &self,
        _header: &IpRepr,
        capabilities: &DeviceCapabilities,
        out: &mut FrameBuffer,
    ) {
        let summed = capabilities.checksum.icmpv4.tx();
        let quoted_summed = capabilities.checksum.ipv4.tx();
        self.message()
            .emit_header(self.octets, summed, quoted_summed, out);
    }

    #[inline(always)]
    fn as_ip_payload(&self) -> IpPayload<'_> {
        IpPayload::Icmpv4(self.message(), self.octets)
    }
}

impl Payload for UnreachableV6<'_> {
    ghost carried = { value_of.unreachable_v6 };

    ghost after = { λ p. p.octets.now };

    #[inline(always)]
    fn protocol(&self) -> IpProtocol {
        IpProtocol::Icmpv6
    }

    #[inline(always)]
    fn len(&self) -> usize {
        48 + self.octets.len()
    }

    #[inline(always)]
    fn octets(&self) -> &[u8] {
        self.octets
    }

    #[inline(always)]
    fn emit_header(
        &self,
        header: &IpRepr,
        capabilities: &DeviceCapabilities,
        out: &mut FrameBuffer,
    ) {
        let (src, dst) = (header.src_addr(), header.dst_addr());
        let summed = capabilities.checksum.icmpv6.tx();
        let quoted = self.header.octets();
        emit_parts(
            &self.message(),
            &quoted,
            &[],
            self.octets,
            &src,
            &dst,
            summed,
            out,
        );
    }

    #[inline(always)]
    fn as_ip_payload(&self) -> IpPayload<'_> {
        IpPayload::Icmpv6(self.message(), self.octets)
    }
}

impl Payload for NeighborAdvert {
    ghost carried = { value_of.neighbor_advert };

    ghost after = { λ p. [] };

    #[inline(always)]
    fn protocol(&self) -> IpProtocol {
        IpProtocol::Icmpv6
    }

    #[inline(always)]
    fn len(&self) -> usize {
        32
    }

    #[inline(always)]
    fn octets(&self) -> &[u8] {
        &[]
    }

    #[inline(always)]
    fn emit_header(
        &self,
        header: &IpRepr,
        capabilities: &DeviceCapabilities,
        out: &mut FrameBuffer,
    ) {
        let (src, dst) = (header.src_addr(), header.dst_addr());
        let summed = capabilities.checksum.icmpv6.tx();
        let target = address_octets(&self.target_addr);
        let option = lladdr_option(NdiscOptionType::TargetLinkLayerAddr, &self.lladdr);
        emit_parts(
            &self.message(),
            &target,
            &option,
            &[],
            &src,
            &dst,
            summed,
            out,
        );
    }

    #[inline(always)]
    fn as_ip_payload(&self) -> IpPayload<'_> {
        IpPayload::Icmpv6(self.message(), &[])
    }
}

impl Payload for Datagram<'_> {
    ghost carried = { value_of.datagram };

    ghost after = { λ p. p.octets.now };

    #[inline(always)]
    fn protocol(&self) -> IpProtocol {
        IpProtocol::Udp
    }

    #[inline(always)]
    fn len(&self) -> usize {
        8 + self.octets.len()
    }

    #[inline(always)]
    fn octets(&self) -> &[u8] {
        self.octets
    }

    #[inline(always)]
    fn emit_header(
        &self,
        header: &IpRepr,
        capabilities: &DeviceCapabilities,
        out: &mut FrameBuffer,
    ) {
        have_bits(self.header);
        let (src, dst) = (header.src_addr(), header.dst_addr());
        let summed = capabilities.checksum.udp.tx();
        self.header
            .emit_header(&src, &dst, self.octets, summed, out);
    }

    #[inline(always)]
    fn as_ip_payload(&self) -> IpPayload<'_> {
        IpPayload::Udp(self.header, self.octets)
    }
}

impl Payload for Segment<'_> {
    ghost carried = { value_of.segment };

    ghost after = { λ p. p.octets.now };

    #[inline(always)]
    fn protocol(&self) -> IpProtocol {
        IpProtocol::Tcp
    }

    #[inline(always)]
    fn len(&self) -> usize {
        20 + self.octets.len()
    }

    #[inline(always)]
    fn octets(&self) -> &[u8] {
        self.octets
    }

    #[inline(always)]
    fn emit_header(
        &self,
        header: &IpRepr,
        capabilities: &DeviceCapabilities,
        out: &mut FrameBuffer,
    ) {
        emit_tcp_header(&self.header, self.octets, header, capabilities, out);
    }

    #[inline(always)]
    fn as_ip_payload(&self) -> IpPayload<'_> {
        IpPayload::Tcp(self.header, self.octets)
    }
}

impl Unreachable<'_> {
    /// The ICMPv4 message of the error.
    #[inline(always)]
    fn message(&self) -> Icmpv4Repr
        ensures { result ≡ icmpv4.DstUnreachable self.now.reason self.now.header }
    {
        Icmpv4Repr::DstUnreachable {
            reason: self.reason,
            header: self.header,
        }
    }
}

impl UnreachableV6<'_> {
    /// The ICMPv6 message of the error.
    #[inline(always)]
    fn message(&self) -> Icmpv6Repr
        ensures { result ≡ icmpv6.DstUnreachable self.now.reason self.now.header }
    {
        Icmpv6Repr::DstUnreachable {
            reason: self.reason,
            header: self.header,
        }
    }
}

impl NeighborAdvert {
    /// The ICMPv6 message of the advertisement.
    #[inline(always)]
    fn message(&self) -> Icmpv6Repr
        ensures { result
            ≡ icmpv6.Ndisc (ndisc.NeighborAdvert self.now.flags self.now.target_addr (Some self.now.lladdr)) }
    {
        Icmpv6Repr::Ndisc(NdiscRepr::NeighborAdvert {
            flags: self.flags,
            target_addr: self.target_addr,
            lladdr: Some(self.lladdr),
        })
    }
}

/// A lemma: ports have 16 bits.
#[inline(always)]
fn have_bits(ports: UdpRepr)
    ensures { (ports.src_port < 2 ^ 16) × (ports.dst_port < 2 ^ 16) }
{}

/// Appends a TCP header, with its window limited by the device's burst size. The checksum is computed if the device's
/// capabilities ask for it.
#[inline(always)]
fn emit_tcp_header(
    segment: &TcpRepr,
    octets: &[u8],
    header: &IpRepr,
    capabilities: &DeviceCapabilities,
    out: &mut FrameBuffer,
)
    requires short { 20 + length octets.now < 2 ^ 16 }
    requires room { length out.old + 20 ≤ 1514 }
    ensures items { out.new ++ octets.now
        ≡ out.old ++ payload_text capabilities.now header.now (value.Tcp segment.now octets.now) }
    ensures len { length out.new ≡ length out.old + 20 }
{
    let (src, dst) = (header.src_addr(), header.dst_addr());
    let segment = with_limited_window(capabilities, header.header_len(), segment);
    segment.emit_header(&src, &dst, octets, capabilities.checksum.tcp.tx(), out);
}

/// Appends an MLD report up to its records: the Router Alert option, and the header (RFC 3810 5.2). The checksum is
/// computed if the device's capabilities ask for it.
#[inline(never)]
fn emit_mld_header(
    header: &IpRepr,
    count: u16,
    records: &[u8],
    capabilities: &DeviceCapabilities,
    out: &mut FrameBuffer,
)
    requires short { 16 + length records.now < 2 ^ 16 }
    requires room { length out.old + 16 ≤ 1514 }
    ensures items { out.new ++ records.now
        ≡ out.old ++ payload_text capabilities.now header.now (value.Mld count records.now) }
    ensures len { length out.new ≡ length out.old + 16 }
{
    router_alert().emit(out);
    let (src, dst) = (header.src_addr(), header.dst_addr());
    let report = Icmpv6Repr::Mld(MldRepr::Report {
        nr_mcast_addr_rcrds: count,
    });
    report.emit_header(&src, &dst, records, capabilities.checksum.icmpv6.tx(), out);
}

/// The hop-by-hop options of an MLD report: Router Alert (RFC 2711), padded to eight octets.
fn router_alert() -> Ipv6HopByHopRepr
    ensures value { result ≡ mld_options }
    ensures len { text_len result ≡ 8 }
{
    let mut options = ArrayVec::new();
    options.push(Ipv6OptionRepr::RouterAlert(0));
    options.push(Ipv6OptionRepr::PadN(0));
    Ipv6HopByHopRepr {
        next_header: IpProtocol::Icmpv6,
        options,
    }
}

/// A TCP header for use after an IP header of `ip_header_len` octets. Its window is at most what a device with a
/// limited burst can take: that many segments, each as long as the device's packets allow.
#[inline(always)]
fn with_limited_window(
    capabilities: &DeviceCapabilities,
    ip_header_len: usize,
    header: &TcpRepr,
) -> TcpRepr
    requires { ip_header_len ≤ 40 }
    ensures { result ≡ with_limited_window capabilities.now ip_header_len header.now }
{
    let Some(burst) = capabilities.max_burst_size else {
        return *header;
    };
    let mtu = capabilities.max_transmission_unit;
    let limit = burst.saturating_mul(mtu.saturating_sub(ip_header_len + 20));
    let window_len = if usize::from(header.window_len) <= limit {
        header.window_len
    } else {
        limit as u16
    };
    TcpRepr {
        window_len,
        ..*header
    }
}
