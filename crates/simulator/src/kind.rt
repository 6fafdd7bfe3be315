//! Kinds of frames, by their octets.

use simulation_streams::transmissions::Sight;
use std::fmt::{self, Display, Formatter};

/// What a frame carries.
#[derive(Clone, Copy, Debug, PartialEq, Eq)]
pub enum Kind {
    /// An ARP request (RFC 826).
    ArpRequest,
    /// Another ARP packet.
    ArpReply,
    /// A whole datagram of UDP over IPv4.
    UdpV4,
    /// A fragment of an IPv4 packet.
    Fragment,
    /// A message of ICMPv4.
    Icmpv4,
    /// A message of IGMP.
    Igmp,
    /// Another IPv4 packet.
    OtherIpv4,
    /// A datagram of UDP over IPv6.
    UdpV6,
    /// A segment of a stream over IPv4.
    TcpV4,
    /// A segment of a stream over IPv6.
    TcpV6,
    /// A router solicitation (RFC 4861 4.1).
    RouterSolicitation,
    /// A router advertisement (RFC 4861 4.2).
    RouterAdvertisement,
    /// A neighbour solicitation (RFC 4861 4.3).
    NeighborSolicitation,
    /// A neighbour advertisement (RFC 4861 4.4).
    NeighborAdvertisement,
    /// A query or a report of MLD (RFC 3810, RFC 2710).
    Mld,
    /// Another message of ICMPv6.
    OtherIcmpv6,
    /// Another IPv6 packet.
    OtherIpv6,
    /// Anything else.
    Other,
}

/// How many kinds there are.
pub const KINDS: usize = 18;

impl Kind {
    /// All kinds, by their numbers.
    pub const ALL: [Kind; KINDS] = [
        Kind::ArpRequest,
        Kind::ArpReply,
        Kind::UdpV4,
        Kind::TcpV4,
        Kind::Fragment,
        Kind::Icmpv4,
        Kind::Igmp,
        Kind::OtherIpv4,
        Kind::UdpV6,
        Kind::TcpV6,
        Kind::RouterSolicitation,
        Kind::RouterAdvertisement,
        Kind::NeighborSolicitation,
        Kind::NeighborAdvertisement,
        Kind::Mld,
        Kind::OtherIcmpv6,
        Kind::OtherIpv6,
        Kind::Other,
    ];

    /// The kind of a frame.
    pub fn of(frame: &[u8]) -> Kind {
        match (octet(frame, 12), octet(frame, 13)) {
            (0x08, 0x06) if octet(frame, 21) == 1 => Kind::ArpRequest,
            (0x08, 0x06) => Kind::ArpReply,
            (0x08, 0x00) => Kind::of_ipv4(frame),
            (0x86, 0xdd) => Kind::of_ipv6(frame),
            _ => Kind::Other,
        }
    }

    /// The kind of a frame with a segment of a stream, which is that of its version of IP.
    fn of_segment(frame: &[u8]) -> Kind {
        match octet(frame, 12) {
            0x08 => Kind::TcpV4,
            _ => Kind::TcpV6,
        }
    }

    /// The kind of a frame with an IPv4 packet (RFC 791 3.1).
    fn of_ipv4(frame: &[u8]) -> Kind {
        if octet(frame, 20) & 0x3f != 0 || octet(frame, 21) != 0 {
            return Kind::Fragment;
        }
        match octet(frame, 23) {
            1 => Kind::Icmpv4,
            2 => Kind::Igmp,
            17 => Kind::UdpV4,
            _ => Kind::OtherIpv4,
        }
    }

    /// The kind of a frame with an IPv6 packet (RFC 8200 3).
    fn of_ipv6(frame: &[u8]) -> Kind {
        match octet(frame, 20) {
            17 => Kind::UdpV6,
            58 => Kind::of_icmpv6(octet(frame, 54)),
            0 if octet(frame, 54) == 58 => Kind::of_icmpv6(octet(frame, 62)),
            _ => Kind::OtherIpv6,
        }
    }

    /// The kind of a message of ICMPv6, by its type.
    fn of_icmpv6(message: u8) -> Kind {
        match message {
            130 | 131 | 132 | 143 => Kind::Mld,
            133 => Kind::RouterSolicitation,
            134 => Kind::RouterAdvertisement,
            135 => Kind::NeighborSolicitation,
            136 => Kind::NeighborAdvertisement,
            _ => Kind::OtherIcmpv6,
        }
    }

    /// Its name.
    pub fn name(self) -> &'static str {
        match self {
            Kind::ArpRequest => "ARP request",
            Kind::ArpReply => "ARP reply",
            Kind::UdpV4 => "UDP over IPv4",
            Kind::Fragment => "IPv4 fragment",
            Kind::Icmpv4 => "ICMPv4",
            Kind::Igmp => "IGMP",
            Kind::OtherIpv4 => "other IPv4",
            Kind::UdpV6 => "UDP over IPv6",
            Kind::TcpV4 => "TCP over IPv4",
            Kind::TcpV6 => "TCP over IPv6",
            Kind::RouterSolicitation => "router solicitation",
            Kind::RouterAdvertisement => "router advertisement",
            Kind::NeighborSolicitation => "neighbour solicitation",
            Kind::NeighborAdvertisement => "neighbour advertisement",
            Kind::Mld => "MLD",
            Kind::OtherIcmpv6 => "other ICMPv6",
            Kind::OtherIpv6 => "other IPv6",
            Kind::Other => "other",
        }
    }

    /// Its number, less than [`KINDS`].
    pub fn number(self) -> usize {
        match self {
            Kind::ArpRequest => 0,
            Kind::ArpReply => 1,
            Kind::UdpV4 => 2,
            Kind::Fragment => 3,
            Kind::Icmpv4 => 4,
            Kind::Igmp => 5,
            Kind::OtherIpv4 => 6,
            Kind::UdpV6 => 7,
            Kind::RouterSolicitation => 8,
            Kind::RouterAdvertisement => 9,
            Kind::NeighborSolicitation => 10,
            Kind::NeighborAdvertisement => 11,
            Kind::Mld => 12,
            Kind::OtherIcmpv6 => 13,
            Kind::OtherIpv6 => 14,
            Kind::Other => 15,
            Kind::TcpV4 => 16,
            Kind::TcpV6 => 17,
        }
    }
}

/// What is said of a frame in a chart: its kind, of a fragment where its payload begins (RFC 791 3.1), and of a segment what it
/// says of its stream.
#[derive(Clone, Copy)]
pub struct Label {
    /// The kind of the frame.
    pub kind: Kind,
    // In octets.
    offset: u32,
    sight: Option<Sight>,
}

impl Label {
    /// The label of a frame.
    pub fn of(frame: &[u8]) -> Label {
        let high = u32::from(octet(frame, 20) & 0x1f);
        let low = u32::from(octet(frame, 21));
        Label {
            kind: Kind::of(frame),
            offset: (high * 256 + low) * 8,
            sight: None,
        }
    }

    /// The label of a frame with a segment of a stream.
    pub fn of_segment(frame: &[u8], sight: Sight) -> Label {
        Label {
            kind: Kind::of_segment(frame),
            offset: 0,
            sight: Some(sight),
        }
    }
}

impl Display for Label {
    fn fmt<W: fmt::Write>(&self, f: &mut Formatter<W>) -> fmt::Result {
        let (name, offset) = (self.kind.name(), self.offset);
        match self.kind {
            Kind::Fragment => write!(f, "{name} from octet {offset}"),
            _ => write!(f, "{name}"),
        }?;
        match &self.sight {
            Some(sight) => write_sight(sight, f),
            None => Ok(()),
        }
    }
}

/// Writes what a segment says of its stream.
fn write_sight<W: fmt::Write>(sight: &Sight, f: &mut Formatter<W>) -> fmt::Result {
    if sight.rst {
        write!(f, ", reset")?;
    }
    if sight.syn {
        return write!(f, ", SYN");
    }
    if let Some((first, last)) = sight.places {
        write!(f, ", octets {first} to {last}")?;
    }
    if sight.fin {
        write!(f, ", FIN")?;
    }
    match sight.acknowledged {
        Some(count) => write!(f, ", {count} acknowledged"),
        None => Ok(()),
    }
}

/// An octet of a frame; 0 after its end.
fn octet(frame: &[u8], place: usize) -> u8 {
    frame.get(place).copied().unwrap_or(0)
}
