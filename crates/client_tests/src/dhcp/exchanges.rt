use crate::dhcp::servers::{
    ADDRESS, EVERYBODY, HARDWARE, MASK, NOBODY, OTHER, SECOND, SERVER, ack, answer, is_leased, nak,
    offer,
};
use dhcp_client::{DhcpClient, DhcpEvent, DhcpLease, DhcpMessage, DhcpMessageType, DhcpRepr};
use ip_address::{EthernetAddress, Ipv4Address};

/// The type of a message, where it goes, its number, the address that it asks for, and the server that it names.
type Values = (
    DhcpMessageType,
    Ipv4Address,
    u32,
    Option<Ipv4Address>,
    Option<Ipv4Address>,
);

fn values(message: Option<DhcpMessage>) -> Option<Values> {
    let message = message?;
    let options = message.repr.options;
    Some((
        message.repr.message_type,
        message.dst,
        message.repr.transaction_id,
        options.requested_ip,
        options.server_identifier,
    ))
}

const fn discover(id: u32) -> Option<Values> {
    Some((DhcpMessageType::Discover, EVERYBODY, id, None, None))
}

const fn request(id: u32, server: Option<Ipv4Address>) -> Option<Values> {
    Some((
        DhcpMessageType::Request,
        EVERYBODY,
        id,
        Some(ADDRESS),
        server,
    ))
}

/// Whether a client sends a DISCOVER then, with the random number for its own.
fn discovers(client: &mut DhcpClient, now: u64, random: u32) -> bool {
    values(client.next_message(now, random)) == discover(random)
}

/// Whether it sends a REQUEST with that number, for a server.
fn requests(
    client: &mut DhcpClient,
    now: u64,
    random: u32,
    id: u32,
    server: Option<Ipv4Address>,
) -> bool {
    values(client.next_message(now, random)) == request(id, server)
}

/// RFC 2131 3.1: DISCOVER, two offers, REQUEST of the first one.
fn asks_for_the_first_offer(client: &mut DhcpClient) -> bool {
    let is_begun = client.poll_at() == Some(0)
        && discovers(client, 10 * SECOND, 7)
        && client.lease().is_none();
    client.receive(&offer(7, SERVER));
    client.receive(&offer(7, OTHER));
    is_begun
        && client.poll_at() == Some(0)
        && requests(client, 11 * SECOND, 9, 7, Some(SERVER))
        && client.take_event().is_none()
}

/// Then ACK: by the defaults of RFC 2131 4.4.5, from the request on, 60 s, 105 s and 120 s.
fn is_leased_once(client: &mut DhcpClient) -> bool {
    client.receive(&ack(7, SERVER, 120));
    let lease = client.lease();
    is_leased(lease, SERVER, [71, 116, 131])
        && routes(lease) == Some((Some(MASK), Some(SERVER)))
        && client.take_event() == lease.map(DhcpEvent::Configured)
        && client.take_event().is_none()
        && client.poll_at() == Some(71 * SECOND)
        && client.next_message(71 * SECOND - 1, 5).is_none()
}

#[test]
fn a_lease(rt: HostRuntime) {
    let mut client = DhcpClient::new(HARDWARE, None);
    assert!(rt; asks_for_the_first_offer(&mut client) && is_leased_once(&mut client));
}

/// The subnet mask of a lease, and its router.
fn routes(lease: Option<DhcpLease>) -> Option<(Option<Ipv4Address>, Option<Ipv4Address>)> {
    let lease = lease?;
    Some((lease.subnet_mask, lease.router))
}

/// Whether a client stays as it was at a message.
fn stays_at(client: &mut DhcpClient, message: &DhcpRepr) -> bool {
    let before = *client;
    client.receive(message);
    *client == before
}

/// An offer to another client, and one that names no server.
fn offer_to_a_stranger() -> DhcpRepr {
    let mut stranger = offer(7, SERVER);
    stranger.client_hardware_address = EthernetAddress([2, 0, 0, 0, 0, 2]);
    stranger
}

fn offer_of_nobody() -> DhcpRepr {
    let mut unnamed = offer(7, SERVER);
    unnamed.options.server_identifier = None;
    unnamed
}

/// What isn't an offer to the client: another number, another client, no server, an address that is none, an agreement and
/// a refusal of an offer.
fn takes_no_other_offer(client: &mut DhcpClient) -> bool {
    let broadcast = answer(DhcpMessageType::Offer, 7, SERVER, EVERYBODY, Some(120));
    stays_at(client, &offer(8, SERVER))
        && stays_at(client, &offer_to_a_stranger())
        && stays_at(client, &offer_of_nobody())
        && stays_at(client, &broadcast)
        && stays_at(client, &ack(7, SERVER, 120))
        && stays_at(client, &nak(7, SERVER))
}

/// What isn't an agreement: the other server's, one for nobody, one without a duration, and an offer.
fn takes_no_other_agreement(client: &mut DhcpClient) -> bool {
    let for_nobody = answer(DhcpMessageType::Ack, 7, SERVER, NOBODY, Some(120));
    let endless = answer(DhcpMessageType::Ack, 7, SERVER, ADDRESS, None);
    stays_at(client, &ack(7, OTHER, 120))
        && stays_at(client, &nak(7, OTHER))
        && stays_at(client, &for_nobody)
        && stays_at(client, &endless)
        && stays_at(client, &offer(7, SERVER))
}

/// What isn't for the client, isn't for what it asked, or isn't from the server that it chose.
fn takes_no_others(client: &mut DhcpClient) -> bool {
    client.receive(&offer(0, SERVER));
    let is_asking = discovers(client, 0, 7) && takes_no_other_offer(client);
    client.receive(&offer(7, SERVER));
    client.receive(&ack(7, SERVER, 120));
    is_asking
        && client.lease().is_none()
        && requests(client, 1, 9, 7, Some(SERVER))
        && takes_no_other_agreement(client)
}

#[test]
fn other_answers(rt: HostRuntime) {
    assert!(rt; takes_no_others(&mut DhcpClient::new(HARDWARE, None)));
}

/// Whether a client asks, and requests what it is offered.
fn asks(client: &mut DhcpClient, now: u64, random: u32) -> bool {
    let is_begun = discovers(client, now, random);
    client.receive(&offer(random, SERVER));
    is_begun && requests(client, now, 8, random, Some(SERVER))
}

/// A refusal lets the client begin anew, three seconds after it last did.
fn begins_anew(client: &mut DhcpClient) -> bool {
    let is_asked = asks(client, 0, 7);
    client.receive(&nak(7, SERVER));
    is_asked
        && client.take_event().is_none()
        && client.next_message(1, 9).is_none()
        && client.poll_at() == Some(3 * SECOND)
        && asks(client, 3 * SECOND, 9)
}

#[test]
fn a_refusal(rt: HostRuntime) {
    assert!(rt; begins_anew(&mut DhcpClient::new(HARDWARE, None)));
}

/// RFC 2131 3.2: a client that knows an address asks for it, and any server may answer.
fn asks_for_its_address(client: &mut DhcpClient) -> bool {
    let is_asked = requests(client, 0, 7, 7, None);
    let mut other = *client;
    client.receive(&ack(7, OTHER, 120));
    other.receive(&nak(7, SERVER));
    is_asked && is_leased(client.lease(), OTHER, [60, 105, 120]) && discovers(&mut other, 1, 9)
}

#[test]
fn a_known_address(rt: HostRuntime) {
    assert!(rt; asks_for_its_address(&mut DhcpClient::new(HARDWARE, Some(ADDRESS))));
}
