use crate::dhcp::octets::{ACK, DISCOVER, NAK, OFFER, REBOOT, REQUEST, message};
use dhcp_client::{DhcpMessageType, DhcpOptions, DhcpRepr};
use ip_address::{EthernetAddress, Ipv4Address};
use ip_wire::emit::FrameBuffer;

const NOBODY: Ipv4Address = Ipv4Address { bits: 0 };

/// 192.168.69.1, 192.168.69.105, 255.255.255.0 and 8.8.8.8.
const SERVER: Ipv4Address = Ipv4Address { bits: 0xc0a8_4501 };

const CLIENT: Ipv4Address = Ipv4Address { bits: 0xc0a8_4569 };

const MASK: Ipv4Address = Ipv4Address { bits: 0xffff_ff00 };

const OTHER_DNS: Ipv4Address = Ipv4Address { bits: 0x0808_0808 };

const HARDWARE: EthernetAddress = EthernetAddress([2, 0, 0, 0, 0, 1]);

/// What a client asks for: mask, routes, router, servers of names, the longest packet.
const PARAMETERS: [u8; 5] = [1, 121, 3, 6, 26];

/// A message of this client, from a server if it gives an address.
fn repr(
    message_type: DhcpMessageType,
    transaction_id: u32,
    your_ip: Ipv4Address,
    server_ip: Ipv4Address,
    options: DhcpOptions,
) -> DhcpRepr {
    DhcpRepr {
        message_type,
        transaction_id,
        secs: 0,
        broadcast: true,
        client_ip: NOBODY,
        your_ip,
        server_ip,
        relay_agent_ip: NOBODY,
        client_hardware_address: HARDWARE,
        options,
    }
}

/// The options of the client's messages.
fn asked(requested_ip: Option<Ipv4Address>, server: Option<Ipv4Address>) -> DhcpOptions {
    let mut options = DhcpOptions::new();
    options.requested_ip = requested_ip;
    options.server_identifier = server;
    options.max_size = Some(1472);
    options.client_identifier = Some(HARDWARE);
    options
}

/// The options of what the server offers, and of what it agrees to.
fn offered() -> DhcpOptions {
    let mut options = DhcpOptions::new();
    options.subnet_mask = Some(MASK);
    options.router = Some(SERVER);
    options.dns_servers = [Some(SERVER), Some(OTHER_DNS), None];
    options.lease_duration = Some(120);
    options.server_identifier = Some(SERVER);
    options.renew_duration = Some(60);
    options.rebind_duration = Some(105);
    options
}

/// The options of a refusal.
fn refused() -> DhcpOptions {
    let mut options = DhcpOptions::new();
    options.server_identifier = Some(SERVER);
    options
}

/// Whether a server's message is parsed as these values.
fn is_parsed(octets: &FrameBuffer, values: &DhcpRepr) -> bool {
    DhcpRepr::parse(octets.as_slice()) == Some(*values)
}

fn is_offer_parsed() -> bool {
    let offer = repr(
        DhcpMessageType::Offer,
        0x3903_f326,
        CLIENT,
        SERVER,
        offered(),
    );
    is_parsed(&message(&OFFER.0, &OFFER.1), &offer)
}

fn is_ack_parsed() -> bool {
    let ack = repr(DhcpMessageType::Ack, 0x3903_f326, CLIENT, SERVER, offered());
    is_parsed(&message(&ACK.0, &ACK.1), &ack)
}

fn is_nak_parsed() -> bool {
    let nak = repr(DhcpMessageType::Nak, 0x3903_f327, NOBODY, NOBODY, refused());
    is_parsed(&message(&NAK.0, &NAK.1), &nak)
}

#[test]
fn servers_messages_are_parsed(rt: HostRuntime) {
    assert!(rt; is_offer_parsed() && is_ack_parsed() && is_nak_parsed());
}

/// Whether a message asks for the client's parameters.
fn is_asking(out: &FrameBuffer) -> bool {
    let message = out.as_slice();
    message.len() >= 240 && DhcpRepr::parameters_in(message).as_slice() == PARAMETERS.as_slice()
}

/// Whether a client's message is emitted so, and parsed again.
fn is_emitted(
    octets: &FrameBuffer,
    message_type: DhcpMessageType,
    number: u32,
    options: DhcpOptions,
) -> bool {
    let values = repr(message_type, number, NOBODY, NOBODY, options);
    let mut out = FrameBuffer::new();
    values.emit(&PARAMETERS, &[], &mut out);
    out.as_slice() == octets.as_slice()
        && DhcpRepr::parse(out.as_slice()) == Some(values)
        && is_asking(&out)
}

fn is_discover_emitted() -> bool {
    let octets = message(&DISCOVER.0, &DISCOVER.1);
    is_emitted(
        &octets,
        DhcpMessageType::Discover,
        0x3903_f326,
        asked(None, None),
    )
}

fn is_request_emitted() -> bool {
    let octets = message(&REQUEST.0, &REQUEST.1);
    let options = asked(Some(CLIENT), Some(SERVER));
    is_emitted(&octets, DhcpMessageType::Request, 0x3903_f326, options)
}

/// An address that the client had, and that belongs to another network.
const LOST: Ipv4Address = Ipv4Address { bits: 0x0a00_0007 };

fn is_reboot_emitted() -> bool {
    let octets = message(&REBOOT.0, &REBOOT.1);
    is_emitted(
        &octets,
        DhcpMessageType::Request,
        0x3903_f327,
        asked(Some(LOST), None),
    )
}

#[test]
fn clients_messages_are_emitted(rt: HostRuntime) {
    assert!(rt; is_discover_emitted() && is_request_emitted() && is_reboot_emitted());
}
