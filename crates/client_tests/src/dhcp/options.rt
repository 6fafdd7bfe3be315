//! What a client asks for, tells and keeps; and messages to an address that it doesn't have yet.
use crate::dhcp::octets::{ACK, DISCOVER, DISCOVER_HEADERS, OFFER, message, packet};
use crate::dhcp::servers::{HARDWARE, SECOND, SERVER, ack, offer};
use dhcp_client::{DhcpClient, DhcpRepr, DhcpRoom, DhcpWishes, datagram_in, receive_datagram};
use ip_wire::emit::FrameBuffer;

/// The octets of a client's first message.
fn first_message(wishes: &DhcpWishes) -> DhcpRoom {
    let mut room = DhcpRoom::new();
    if let Some(discover) = DhcpClient::new(HARDWARE, None).next_message(0, 0x3903_f326) {
        room.build_message(&discover, wishes);
    }
    room
}

/// RFC 2132 9.8, 3.14: the codes 42 and 15 are asked for besides, and the host is called "fern".
fn is_wished() -> bool {
    let mut wishes = DhcpWishes::new();
    if !wishes.set_parameters(&[42, 15]) || !wishes.set_host_name(b"fern") {
        return false;
    }
    let wanted = [
        53, 1, 1, 61, 7, 1, 2, 0, 0, 0, 0, 1, 57, 2, 5, 192, 12, 4, 0x66, 0x65, 0x72, 0x6e, 55, 7,
        1, 121, 3, 6, 26, 42, 15, 255,
    ];
    first_message(&wishes).message.as_slice() == message(&DISCOVER.0, &wanted).as_slice()
}

#[test]
fn wishes_are_sent(rt: HostRuntime) {
    assert!(rt; is_wished());
}

/// Sixteen codes and 63 octets are most, and what is too long changes nothing.
fn are_bounded() -> bool {
    let mut wishes = DhcpWishes::new();
    wishes.set_parameters(&[7; 16])
        && wishes.set_host_name(&[97; 63])
        && !wishes.set_parameters(&[8; 17])
        && !wishes.set_host_name(&[98; 64])
        && wishes.parameters.as_slice() == [7u8; 16].as_slice()
        && wishes.host_name.as_slice() == [97u8; 63].as_slice()
        && wishes.set_host_name(&[])
        && wishes.host_name.is_empty()
}

#[test]
fn wishes_are_bounded(rt: HostRuntime) {
    assert!(rt; are_bounded());
}

/// RFC 2132 5.1: the longest packet has 68 octets at least.
fn mtu_after(octets: u16) -> Option<u16> {
    let mut client = DhcpClient::new(HARDWARE, None);
    let _ = client.next_message(0, 7);
    client.receive(&offer(7, SERVER));
    let _ = client.next_message(SECOND, 9);
    let mut agreement = ack(7, SERVER, 120);
    agreement.options.mtu = Some(octets);
    client.receive(&agreement);
    client.lease()?.mtu
}

#[test]
fn longest_packets(rt: HostRuntime) {
    assert!(rt;
        mtu_after(1400) == Some(1400) && mtu_after(68) == Some(68) && mtu_after(67).is_none()
    );
}

/// Whether a message of a server, with option 42 in two parts, gives its data put together.
fn are_kept() -> bool {
    let octets = message(
        &ACK.0,
        &[53, 1, 5, 42, 2, 10, 0, 12, 1, 97, 42, 2, 0, 5, 255],
    );
    let octets = octets.as_slice();
    octets.len() >= 240
        && DhcpRepr::option_in(octets, 42).as_slice() == [10u8, 0, 0, 5].as_slice()
        && DhcpRepr::option_in(octets, 12).as_slice() == [97u8].as_slice()
        && DhcpRepr::option_in(octets, 15).is_empty()
}

#[test]
fn options_are_read(rt: HostRuntime) {
    assert!(rt; are_kept());
}

/// The headers of IPv4, from 192.168.69.1 to 192.168.69.105, and of UDP, from port 67 to 68 without a checksum, in front of OFFER.
const OFFER_HEADERS: [u8; 28] = [
    0x45, 0x00, 0x01, 0x48, 0x00, 0x00, 0x40, 0x00, 0x40, 0x11, 0x2d, 0xea, 0xc0, 0xa8, 0x45, 0x01,
    0xc0, 0xa8, 0x45, 0x69, 0x00, 0x43, 0x00, 0x44, 0x01, 0x34, 0x00, 0x00,
];

/// The same with another octet.
fn headers_with(at: usize, octet: u8) -> [u8; 28] {
    let mut headers = OFFER_HEADERS;
    if let Some(there) = headers.get_mut(at) {
        *there = octet;
    }
    headers
}

/// Whether a client takes the offer in a packet.
fn takes(offer: &FrameBuffer) -> bool {
    let mut client = DhcpClient::new(HARDWARE, None);
    let _ = client.next_message(0, 0x3903_f326);
    if let Some((port, payload)) = datagram_in(offer.as_slice()) {
        receive_datagram(&mut client, port, payload);
    }
    client.asked.is_none()
}

/// An offer to the address that it offers is taken; not with a wrong checksum, to another port, or from another one.
fn are_to_the_client() -> bool {
    takes(&packet(&OFFER_HEADERS, &OFFER.0, &OFFER.1))
        && !takes(&packet(&headers_with(10, 0x2e), &OFFER.0, &OFFER.1))
        && !takes(&packet(&headers_with(27, 1), &OFFER.0, &OFFER.1))
        && !takes(&packet(&headers_with(23, 0x45), &OFFER.0, &OFFER.1))
        && !takes(&packet(&headers_with(21, 0x44), &OFFER.0, &OFFER.1))
        && datagram_in(packet(&DISCOVER_HEADERS, &DISCOVER.0, &DISCOVER.1).as_slice()).is_none()
}

#[test]
fn packets_to_an_address_to_be(rt: HostRuntime) {
    assert!(rt; are_to_the_client());
}
