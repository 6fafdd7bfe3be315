//! The errors that a gateway sends.

use crate::transit::Packet;
use ip_wire::checksum::sum_with;
use ip_wire::emit::FrameBuffer;
use ip_wire::{IpProtocol, Ipv4Address, Ipv4Fragment, Ipv4Repr};

/// How many octets of a packet an error has at most, so that it isn't longer than 576 (RFC 1812 4.3.2.3).
const QUOTED_LEN: usize = 548;

/// Why a packet isn't forwarded.
#[derive(Clone, Copy, Debug, PartialEq, Eq)]
pub enum GatewayError {
    /// There is no route (RFC 1812 5.2.7.1).
    NoRoute,
    /// The next hop doesn't answer (RFC 1812 5.2.7.1).
    NoNeighbor,
    /// Its hop limit is used up (RFC 1812 5.3.1).
    Expired,
}

impl GatewayError {
    /// Its type and code (RFC 792).
    fn numbers(self) -> [u8; 2] {
        match self {
            GatewayError::NoRoute => [3, 0],
            GatewayError::NoNeighbor => [3, 1],
            GatewayError::Expired => [11, 0],
        }
    }

    /// The packet by which an own address tells a packet's source of it.
    pub fn told_by(self, own: Ipv4Address, packet: &Packet<'_>) -> FrameBuffer {
        let len = packet.octets.len().min(QUOTED_LEN);
        let quoted = &packet.octets[..len];
        let [kind, code] = self.numbers();
        let start = u64::from(u16::from_be_bytes([kind, code]));
        let [high, low] = (0xffff - sum_with(start, quoted)).to_be_bytes();
        let header = Ipv4Repr {
            src_addr: own,
            dst_addr: packet.repr.src_addr,
            next_header: IpProtocol::Icmp,
            payload_len: 8 + len as u16,
            hop_limit: 64,
        };
        let mut text = FrameBuffer::new();
        header.emit(&Ipv4Fragment::WHOLE, true, &mut text);
        text.append(&[kind, code, high, low, 0, 0, 0, 0]);
        text.append(quoted);
        text
    }
}
