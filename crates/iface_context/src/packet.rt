//! Packets to send: their values, with their octets borrowed from where they came from, and their frames, which are
//! appended to a buffer.
ghost use Rattle.std.specs.Prelude.{◌≡◌, ◌+◌, ◌-◌, ◌*◌, ◌%◌, ◌<◌, ◌≤◌, ◌^◌, ◌++◌, [], length, min};
ghost use Rattle.host_machine.specs.Packet.Frame.{arp_frame, ethertype_of, link_header, packet_text};
ghost use Rattle.host_machine.specs.Packet.Packet.{IsFormed, IsWritable, total_len};
ghost use Rattle.host_machine.specs.Packet.Packet as value;
ghost use Rattle.host_machine.specs.Send.Dispatch.{destination_of};
ghost use Rattle.ip_wire.specs.declared.ip_packet.IpRepr.TheVariants as repr;
ghost use Rattle.iface_context.specs.Details.PacketValues as value_of;

use crate::payload::{IpPayload, Payload};
use ip_wire::emit::FrameBuffer;
use ip_wire::ipv4_packet::{Ipv4Fragment, Ipv4Repr};
use ip_wire::{
    ArpRepr, EthernetProtocol, EthernetRepr, HardwareAddress, IpAddress, IpRepr, Ipv4Address,
    Ipv6Address, Ipv6Repr,
};
use net_base::phy::DeviceCapabilities;

/// An IP packet of either family. Where family and kind of payload are types, the code that builds the frame is
/// compiled for them.
pub trait AnyPacket {
    ghost use Rattle.host_machine.specs.Packet.Packet.{Packet};

    /// The packet as a value.
    ghost stands_for: { Self → Packet };

    /// The destination address.
    fn dst_addr(&self) -> IpAddress
        ensures { result ≡ destination_of (stands_for self.now) };

    /// The EtherType of the frame that carries it.
    fn ethertype(&self) -> EthernetProtocol
        ensures { result ≡ ethertype_of (stands_for self.now) };

    /// The length including the IP header, in octets.
    fn total_len(&self) -> usize
        ensures { result ≡ total_len (stands_for self.now) };

    /// Appends the packet. Each checksum is computed if the device's capabilities ask for it.
    fn emit(&self, capabilities: &DeviceCapabilities, out: &mut FrameBuffer)
        requires writable { IsWritable (stands_for self.now) }
        requires room { length out.old + total_len (stands_for self.now) ≤ 1514 }
        ensures items { out.new ≡ out.old ++ packet_text capabilities.now (stands_for self.now) }
        ensures len { length out.new ≡ length out.old + total_len (stands_for self.now) }
        ensures formed { IsFormed (stands_for self.now) };

    /// The packet with a payload of any kind.
    fn as_packet(&self) -> Packet<'_>
        ensures { value_of.packet result ≡ stands_for self.now };
}

/// An IP packet.
#[derive(Clone, Copy)]
pub enum Packet<'p> {
    Ipv4(PacketV4<IpPayload<'p>>),
    Ipv6(PacketV6<IpPayload<'p>>),
}

/// An IPv4 packet; the other header fields follow from these.
#[derive(Clone, Copy)]
pub struct PacketV4<P> {
    pub src_addr: Ipv4Address,
    pub dst_addr: Ipv4Address,
    pub hop_limit: u8,
    pub payload: P,
}

/// An IPv6 packet; the other header fields follow from these.
#[derive(Clone, Copy)]
pub struct PacketV6<P> {
    pub src_addr: Ipv6Address,
    pub dst_addr: Ipv6Address,
    pub hop_limit: u8,
    pub payload: P,
}

impl<P: Payload> PacketV4<P> {
    /// A reply with this payload to a packet with this header, as [`Packet::back`] makes it.
    #[inline(always)]
    pub fn back(header: &Ipv4Repr, payload: P) -> PacketV4<P>
        ensures { value.Ipv4 (value_of.packet_v4 P.carried result)
            ≡ value.sent_back (repr.Ipv4 header.now) (P.carried payload) }
    {
        PacketV4 {
            src_addr: header.dst_addr,
            dst_addr: header.src_addr,
            hop_limit: 64,
            payload,
        }
    }

    /// The header's values. The packet must have at most 65,535 octets.
    #[inline(always)]
    pub fn header(&self) -> Ipv4Repr
        requires { 20 + value.payload_len (P.carried self.now.payload) < 2 ^ 16 }
        ensures { result ≡ value.header_v4 (value_of.packet_v4 P.carried self.now) }
    {
        Ipv4Repr {
            src_addr: self.src_addr,
            dst_addr: self.dst_addr,
            next_header: self.payload.protocol(),
            payload_len: self.payload.len() as u16,
            hop_limit: self.hop_limit,
        }
    }
}

impl<P: Payload> PacketV6<P> {
    /// A reply with this payload to a packet with this header, as [`Packet::back`] makes it.
    #[inline(always)]
    pub fn back(header: &Ipv6Repr, payload: P) -> PacketV6<P>
        ensures { value.Ipv6 (value_of.packet_v6 P.carried result)
            ≡ value.sent_back (repr.Ipv6 header.now) (P.carried payload) }
    {
        PacketV6 {
            src_addr: header.dst_addr,
            dst_addr: header.src_addr,
            hop_limit: 64,
            payload,
        }
    }

    /// The header's values. The payload must have at most 65,535 octets.
    #[inline(always)]
    pub fn header(&self) -> Ipv6Repr
        requires { value.payload_len (P.carried self.now.payload) < 2 ^ 16 }
        ensures { result ≡ value.header_v6 (value_of.packet_v6 P.carried self.now) }
    {
        Ipv6Repr {
            src_addr: self.src_addr,
            dst_addr: self.dst_addr,
            next_header: self.payload.protocol(),
            payload_len: self.payload.len() as u16,
            hop_limit: self.hop_limit,
        }
    }
}

impl<'p> Packet<'p> {
    /// A packet with the addresses and the hop limit of a header. Protocol and length are the payload's, whatever the
    /// header says.
    #[inline(always)]
    pub fn new(ip_repr: IpRepr, payload: IpPayload<'p>) -> Packet<'p>
        ensures { value_of.packet result ≡ value.packet_with ip_repr (value_of.payload payload.entry) }
    {
        match ip_repr {
            IpRepr::Ipv4(header) => Packet::new_ipv4(header, payload),
            IpRepr::Ipv6(header) => Packet::new_ipv6(header, payload),
        }
    }

    /// An IPv4 packet, as [`Packet::new`] makes it.
    #[inline(always)]
    pub fn new_ipv4(header: Ipv4Repr, payload: IpPayload<'p>) -> Packet<'p>
        ensures { value_of.packet result ≡ value.packet_with (repr.Ipv4 header) (value_of.payload payload.entry) }
    {
        Packet::Ipv4(PacketV4 {
            src_addr: header.src_addr,
            dst_addr: header.dst_addr,
            hop_limit: header.hop_limit,
            payload,
        })
    }

    /// An IPv6 packet, as [`Packet::new`] makes it.
    #[inline(always)]
    pub fn new_ipv6(header: Ipv6Repr, payload: IpPayload<'p>) -> Packet<'p>
        ensures { value_of.packet result ≡ value.packet_with (repr.Ipv6 header) (value_of.payload payload.entry) }
    {
        Packet::Ipv6(PacketV6 {
            src_addr: header.src_addr,
            dst_addr: header.dst_addr,
            hop_limit: header.hop_limit,
            payload,
        })
    }

    /// The header's values. A payload that is longer than a packet can carry has its length modulo 2^16 there, as in
    /// the field of 16 bits.
    pub fn ip_repr(&self) -> IpRepr
        ensures { result ≡ value_of.with_field_len (value.header_of (value_of.packet self.now)) }
    {
        match self {
            Packet::Ipv4(packet) => IpRepr::Ipv4(Ipv4Repr {
                src_addr: packet.src_addr,
                dst_addr: packet.dst_addr,
                next_header: packet.payload.protocol(),
                payload_len: field_len(packet.payload.len()),
                hop_limit: packet.hop_limit,
            }),
            Packet::Ipv6(packet) => IpRepr::Ipv6(Ipv6Repr {
                src_addr: packet.src_addr,
                dst_addr: packet.dst_addr,
                next_header: packet.payload.protocol(),
                payload_len: field_len(packet.payload.len()),
                hop_limit: packet.hop_limit,
            }),
        }
    }

    /// The payload.
    #[inline(always)]
    pub fn payload(&self) -> &IpPayload<'p>
        ensures { value_of.payload result.now ≡ value.payload_of (value_of.packet self.now) }
    {
        match self {
            Packet::Ipv4(packet) => &packet.payload,
            Packet::Ipv6(packet) => &packet.payload,
        }
    }

    /// A reply with this payload to a packet with this header: to its source, from its destination, with hop limit 64.
    #[inline(always)]
    pub fn back(header: &IpRepr, payload: IpPayload<'p>) -> Packet<'p>
        ensures { value_of.packet result ≡ value.sent_back header.now (value_of.payload payload.entry) }
    {
        match header {
            IpRepr::Ipv4(header) => Packet::Ipv4(PacketV4::back(header, payload)),
            IpRepr::Ipv6(header) => Packet::Ipv6(PacketV6::back(header, payload)),
        }
    }
}

impl<P: Payload> AnyPacket for PacketV4<P> {
    ghost stands_for = { λ p. value.Ipv4 (value_of.packet_v4 P.carried p) };

    #[inline(always)]
    fn dst_addr(&self) -> IpAddress {
        IpAddress::Ipv4(self.dst_addr)
    }

    #[inline(always)]
    fn ethertype(&self) -> EthernetProtocol {
        EthernetProtocol::Ipv4
    }

    #[inline(always)]
    fn total_len(&self) -> usize {
        20 + self.payload.len()
    }

    #[inline(always)]
    fn emit(&self, capabilities: &DeviceCapabilities, out: &mut FrameBuffer) {
        let header = self.header();
        header.emit(&Ipv4Fragment::WHOLE, capabilities.checksum.ipv4.tx(), out);
        self.payload
            .emit_header(&IpRepr::Ipv4(header), capabilities, out);
        out.append(self.payload.octets());
    }

    #[inline(always)]
    fn as_packet(&self) -> Packet<'_> {
        Packet::Ipv4(PacketV4 {
            src_addr: self.src_addr,
            dst_addr: self.dst_addr,
            hop_limit: self.hop_limit,
            payload: self.payload.as_ip_payload(),
        })
    }
}

impl<P: Payload> AnyPacket for PacketV6<P> {
    ghost stands_for = { λ p. value.Ipv6 (value_of.packet_v6 P.carried p) };

    #[inline(always)]
    fn dst_addr(&self) -> IpAddress {
        IpAddress::Ipv6(self.dst_addr)
    }

    #[inline(always)]
    fn ethertype(&self) -> EthernetProtocol {
        EthernetProtocol::Ipv6
    }

    #[inline(always)]
    fn total_len(&self) -> usize {
        40 + self.payload.len()
    }

    #[inline(always)]
    fn emit(&self, capabilities: &DeviceCapabilities, out: &mut FrameBuffer) {
        let header = self.header();
        header.emit(out);
        self.payload
            .emit_header(&IpRepr::Ipv6(header), capabilities, out);
        out.append(self.payload.octets());
    }

    #[inline(always)]
    fn as_packet(&self) -> Packet<'_> {
        Packet::Ipv6(PacketV6 {
            src_addr: self.src_addr,
            dst_addr: self.dst_addr,
            hop_limit: self.hop_limit,
            payload: self.payload.as_ip_payload(),
        })
    }
}

impl AnyPacket for Packet<'_> {
    ghost stands_for = { value_of.packet };

    #[inline(always)]
    fn dst_addr(&self) -> IpAddress {
        match self {
            Packet::Ipv4(packet) => packet.dst_addr(),
            Packet::Ipv6(packet) => packet.dst_addr(),
        }
    }

    #[inline(always)]
    fn ethertype(&self) -> EthernetProtocol {
        match self {
            Packet::Ipv4(packet) => packet.ethertype(),
            Packet::Ipv6(packet) => packet.ethertype(),
        }
    }

    #[inline(always)]
    fn total_len(&self) -> usize {
        match self {
            Packet::Ipv4(packet) => packet.total_len(),
            Packet::Ipv6(packet) => packet.total_len(),
        }
    }

    #[inline(always)]
    fn emit(&self, capabilities: &DeviceCapabilities, out: &mut FrameBuffer) {
        match self {
            Packet::Ipv4(packet) => packet.emit(capabilities, out),
            Packet::Ipv6(packet) => packet.emit(capabilities, out),
        }
    }

    #[inline(always)]
    fn as_packet(&self) -> Packet<'_> {
        *self
    }
}

/// A length as a field of 16 bits has it.
fn field_len(len: usize) -> u16
    ensures { result ≡ len % 2 ^ 16 }
{
    (len % (1 << 16)) as u16
}

/// How many octets of a payload of `len` octets an ICMP error quotes, so that the error is at most `mtu` octets long.
/// The error also has an IP header of `header_len` octets, the 8 octets of the message, and the quoted header; where
/// these don't leave room, none are quoted (RFC 1122 3.2.2, RFC 4443 2.4).
#[inline(always)]
pub fn icmp_reply_payload_len(len: usize, mtu: usize, header_len: usize) -> usize
    ensures { result ≡ min (mtu - (header_len * 2 + 8)) len }
{
    let most = mtu.saturating_sub(header_len.saturating_mul(2).saturating_add(8));
    if len < most { len } else { most }
}

/// Appends the link-layer header of a packet between two hardware addresses: an Ethernet header, or nothing on a medium
/// without hardware addresses.
#[inline(always)]
pub fn emit_link_header(
    source: &HardwareAddress,
    destination: &HardwareAddress,
    ethertype: EthernetProtocol,
    out: &mut FrameBuffer,
)
    requires { length out.old + 14 ≤ 1514 }
    ensures items { out.new ≡ out.old ++ link_header source.now destination.now ethertype }
    ensures len { length out.new ≤ length out.old + 14 }
{
    if let HardwareAddress::Ethernet(src_addr) = source {
        if let HardwareAddress::Ethernet(dst_addr) = destination {
            let header = EthernetRepr {
                src_addr: *src_addr,
                dst_addr: *dst_addr,
                ethertype,
            };
            header.emit(out);
        }
    }
}

/// Builds the frame of an ARP packet, in an empty buffer.
pub fn emit_arp(packet: &ArpRepr, out: &mut FrameBuffer)
    requires { out.old ≡ [] }
    ensures items { out.new ≡ arp_frame packet.now }
    ensures len { length out.new ≡ 42 }
{
    let header = EthernetRepr {
        src_addr: packet.source_hardware_addr,
        dst_addr: packet.target_hardware_addr,
        ethertype: EthernetProtocol::Arp,
    };
    header.emit(out);
    packet.emit(out);
}
