//! The Address Resolution Protocol (RFC 826), for IPv4 over Ethernet.
ghost use Rattle.std.specs.Prelude.{◌≡◌, ◌+◌, ◌≤◌, ◌++◌, length};
ghost use Rattle.std.specs.Option.{SomeIff};
ghost use Rattle.ip_wire.specs.Arp as spec;

use crate::emit::FrameBuffer;
use crate::ethernet::address_at;
use crate::octets::{u16_at, u32_at};
use ip_address::{EthernetAddress, Ipv4Address};

/// The operation of an ARP packet.
#[derive(Clone, Copy, Debug, PartialEq, Eq)]
pub enum ArpOperation {
    Request,
    Reply,
}

impl ArpOperation {
    /// The number of an operation.
    const fn number(self) -> u16
        ensures { result ≡ spec.number_of self }
    {
        match self {
            ArpOperation::Request => 1,
            ArpOperation::Reply => 2,
        }
    }
}

/// The values of an ARP packet.
#[derive(Clone, Copy, Debug, PartialEq, Eq)]
pub struct ArpRepr {
    pub operation: ArpOperation,
    pub source_hardware_addr: EthernetAddress,
    pub source_protocol_addr: Ipv4Address,
    pub target_hardware_addr: EthernetAddress,
    pub target_protocol_addr: Ipv4Address,
}

impl ArpRepr {
    /// Parses the packet that the octets begin with; octets after its 28 are ignored. `None` exactly if there are fewer
    /// octets, if the packet isn't for IPv4 over Ethernet, or if it is neither a request nor a reply.
    pub fn parse(packet: &[u8]) -> Option<ArpRepr>
        ensures { SomeIff result (spec.IsArp packet.now) (spec.arp_in packet.now) }
    {
        if packet.len() < 28
            || u16_at(packet, 0) != 1
            || u16_at(packet, 2) != 0x0800
            || packet[4] != 6
            || packet[5] != 4
        {
            return None;
        }
        let operation = match u16_at(packet, 6) {
            1 => ArpOperation::Request,
            2 => ArpOperation::Reply,
            _ => return None,
        };
        Some(ArpRepr {
            operation,
            source_hardware_addr: address_at(packet, 8),
            source_protocol_addr: Ipv4Address {
                bits: u32_at(packet, 14),
            },
            target_hardware_addr: address_at(packet, 18),
            target_protocol_addr: Ipv4Address {
                bits: u32_at(packet, 24),
            },
        })
    }

    /// Appends the packet, of 28 octets.
    pub fn emit(&self, out: &mut FrameBuffer)
        requires { length out.old + 28 ≤ 1514 }
        ensures items { out.new ≡ out.old ++ spec.text self.now }
        ensures len { length out.new ≡ length out.old + 28 }
    {
        let [o0, o1] = self.operation.number().to_be_bytes();
        let [s0, s1, s2, s3, s4, s5] = self.source_hardware_addr.0;
        let [p0, p1, p2, p3] = self.source_protocol_addr.octets();
        let [t0, t1, t2, t3, t4, t5] = self.target_hardware_addr.0;
        let [q0, q1, q2, q3] = self.target_protocol_addr.octets();
        out.append(&[
            0, 1, 8, 0, 6, 4, o0, o1, s0, s1, s2, s3, s4, s5, p0, p1, p2, p3, t0, t1, t2, t3, t4,
            t5, q0, q1, q2, q3,
        ]);
    }
}

/// A packet that is emitted is parsed back, whatever follows it.
pub fn read_again()
    ensures { spec.ReadAgain }
{}

/// A packet that is parsed is emitted again as the same 28 octets.
pub fn written_again()
    ensures { spec.WrittenAgain }
{}
