use crate::cases::{assert_each, changed};
use ip_wire::emit::FrameBuffer;
use ip_wire::{
    ArpOperation, ArpRepr, EthernetAddress, EthernetProtocol, EthernetRepr, Ipv4Address,
};

/// A host that asks for 192.168.69.1, and is 192.168.69.100.
const REQUEST: [u8; 42] = [
    0xff, 0xff, 0xff, 0xff, 0xff, 0xff, 0x02, 0x00, 0x00, 0x00, 0x00, 0x02, 0x08, 0x06, 0x00, 0x01,
    0x08, 0x00, 0x06, 0x04, 0x00, 0x01, 0x02, 0x00, 0x00, 0x00, 0x00, 0x02, 0xc0, 0xa8, 0x45, 0x64,
    0x00, 0x00, 0x00, 0x00, 0x00, 0x00, 0xc0, 0xa8, 0x45, 0x01,
];

/// What 192.168.69.1 answers it.
const REPLY: [u8; 42] = [
    0x02, 0x00, 0x00, 0x00, 0x00, 0x02, 0x02, 0x00, 0x00, 0x00, 0x00, 0x01, 0x08, 0x06, 0x00, 0x01,
    0x08, 0x00, 0x06, 0x04, 0x00, 0x02, 0x02, 0x00, 0x00, 0x00, 0x00, 0x01, 0xc0, 0xa8, 0x45, 0x01,
    0x02, 0x00, 0x00, 0x00, 0x00, 0x02, 0xc0, 0xa8, 0x45, 0x64,
];

const OWN: EthernetAddress = EthernetAddress([0x02, 0, 0, 0, 0, 0x01]);

const OTHER: EthernetAddress = EthernetAddress([0x02, 0, 0, 0, 0, 0x02]);

/// 192.168.69.1 and 192.168.69.100.
const OWN_IP: Ipv4Address = Ipv4Address { bits: 0xc0a8_4501 };

const OTHER_IP: Ipv4Address = Ipv4Address { bits: 0xc0a8_4564 };

/// The values of the request.
const REQUEST_HEADER: EthernetRepr = EthernetRepr {
    src_addr: OTHER,
    dst_addr: EthernetAddress([0xff; 6]),
    ethertype: EthernetProtocol::Arp,
};

const REQUEST_REPR: ArpRepr = ArpRepr {
    operation: ArpOperation::Request,
    source_hardware_addr: OTHER,
    source_protocol_addr: OTHER_IP,
    target_hardware_addr: EthernetAddress([0; 6]),
    target_protocol_addr: OWN_IP,
};

fn is_request(frame: &[u8]) -> bool {
    match EthernetRepr::parse(frame) {
        Some((header, payload)) => {
            header == REQUEST_HEADER
                && payload.len() == 28
                && ArpRepr::parse(payload) == Some(REQUEST_REPR)
        }
        None => false,
    }
}

/// Whether the first octets of the request have a header, and those behind it are no packet, at each length.
fn are_cut_short() -> bool {
    for len in 0..28 {
        if EthernetRepr::parse(&REQUEST[..len]).is_some() != (len >= 14)
            || ArpRepr::parse(&REQUEST[14..14 + len]).is_some()
        {
            return false;
        }
    }
    true
}

#[test]
fn a_request_is_read(rt: HostRuntime) {
    assert!(&rt; is_request(&REQUEST));
    assert!(rt; are_cut_short());
}

/// The values of the reply.
const REPLY_HEADER: EthernetRepr = EthernetRepr {
    src_addr: OWN,
    dst_addr: OTHER,
    ethertype: EthernetProtocol::Arp,
};

const REPLY_REPR: ArpRepr = ArpRepr {
    operation: ArpOperation::Reply,
    source_hardware_addr: OWN,
    source_protocol_addr: OWN_IP,
    target_hardware_addr: OTHER,
    target_protocol_addr: OTHER_IP,
};

fn is_reply_emitted() -> bool {
    let mut frame = FrameBuffer::new();
    REPLY_HEADER.emit(&mut frame);
    REPLY_REPR.emit(&mut frame);
    frame.as_slice() == REPLY.as_slice()
}

#[test]
fn a_reply_is_emitted(rt: HostRuntime) {
    assert!(rt; is_reply_emitted());
}

/// A place in the request, and another octet there: hardware type 6, protocol IPv6, longer addresses, operation 3 (RARP).
const OTHER_PACKETS: [(usize, u8); 6] = [(15, 6), (16, 0x86), (18, 8), (19, 16), (21, 3), (21, 0)];

fn is_refused(case: &(usize, u8)) -> bool {
    ArpRepr::parse(&changed(&REQUEST, case.0, case.1)[14..]).is_none()
}

#[test]
fn packets_for_others_are_refused(rt: HostRuntime) {
    assert_each(&rt, &OTHER_PACKETS, is_refused);
}
