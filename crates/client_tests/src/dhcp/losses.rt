use crate::dhcp::servers::{ADDRESS, HARDWARE, SECOND, SERVER, nak, offer};
use dhcp_client::{DhcpClient, DhcpMessage, DhcpMessageType};

/// Whether a message is of this type.
fn is_of(message: Option<DhcpMessage>, message_type: DhcpMessageType) -> bool {
    match message {
        Some(message) => message.repr.message_type == message_type,
        None => false,
    }
}

/// RFC 2131 4.1: 4, 8, 16, 32 and 64 seconds, each less a second for the lowest random number, and more by one for the
/// greatest part of two seconds.
const SILENCES: [(u32, u32); 7] = [
    (0, 3),
    (3, 10),
    (10, 25),
    (25, 56),
    (56, 119),
    (119, 182),
    (182, 245),
];

/// Whether a client asks at this second, and again at the next one alone.
fn asks_between(client: &mut DhcpClient, now: u32, next: u32) -> bool {
    let now = u64::from(now) * SECOND;
    let next = u64::from(next) * SECOND;
    is_of(client.next_message(now, 0), DhcpMessageType::Discover)
        && client.poll_at() == Some(next)
        && client.next_message(next.saturating_sub(1), 0).is_none()
}

/// The first second at which a client doesn't ask.
fn first_silence(client: &mut DhcpClient) -> Option<u32> {
    for (now, next) in &SILENCES {
        if !asks_between(client, *now, *next) {
            return Some(*now);
        }
    }
    None
}

fn asks_late(client: &mut DhcpClient) -> bool {
    is_of(client.next_message(0, 2_000_000), DhcpMessageType::Discover)
        && client.poll_at() == Some(5 * SECOND)
}

#[test]
fn nobody_answers(rt: HostRuntime) {
    let is_right = first_silence(&mut DhcpClient::new(HARDWARE, None)).is_none();
    assert!(rt; is_right && asks_late(&mut DhcpClient::new(HARDWARE, None)));
}

/// The seconds at which a request is sent: after 4, 8 and 16 of them again (RFC 2131 4.1).
const REQUESTS: [u32; 4] = [0, 4, 12, 28];

fn requests_at_all(client: &mut DhcpClient) -> bool {
    for time in &REQUESTS {
        let message = client.next_message(u64::from(*time) * SECOND, 1_000_000);
        if !is_of(message, DhcpMessageType::Request) {
            return false;
        }
    }
    true
}

/// The number of a DISCOVER, if a message is one.
fn discovered(message: Option<DhcpMessage>) -> Option<u32> {
    let message = message?;
    match message.repr.message_type {
        DhcpMessageType::Discover => Some(message.repr.transaction_id),
        _ => None,
    }
}

/// RFC 2131 3.1 (5): the request is sent four times, and a minute after the first one the client begins anew.
fn begins_anew(client: &mut DhcpClient) -> bool {
    requests_at_all(client)
        && client.poll_at() == Some(60 * SECOND)
        && client.next_message(60 * SECOND - 1, 77).is_none()
        && discovered(client.next_message(60 * SECOND, 77)) == Some(77)
}

/// A server that falls silent after its offer.
fn is_given_up(client: &mut DhcpClient) -> bool {
    let message = client.next_message(0, 1_000_000);
    client.receive(&offer(1_000_000, SERVER));
    is_of(message, DhcpMessageType::Discover) && begins_anew(client)
}

#[test]
fn the_request_is_lost(rt: HostRuntime) {
    assert!(rt; is_given_up(&mut DhcpClient::new(HARDWARE, None)));
}

/// RFC 2131 3.2 (3): nobody confirms the address that a client knows.
#[test]
fn nobody_confirms(rt: HostRuntime) {
    assert!(rt; begins_anew(&mut DhcpClient::new(HARDWARE, Some(ADDRESS))));
}

/// Refuses what a client sends at an instant, and returns how many messages that were.
fn refused_at(client: &mut DhcpClient, now: u64) -> u32 {
    let Some(message) = client.next_message(now, 5) else {
        return 0;
    };
    let refusal = match message.repr.message_type {
        DhcpMessageType::Discover => offer(5, SERVER),
        _ => nak(5, SERVER),
    };
    client.receive(&refusal);
    1
}

/// How many messages a client sends in thirty seconds, each of which is refused at once.
fn refused_in_thirty_seconds(client: &mut DhcpClient) -> u32 {
    let mut sent = 0u32;
    for tenth in 0..300u64 {
        sent = sent.saturating_add(refused_at(client, tenth * SECOND / 10));
    }
    sent
}

/// Refusals at once, one after another, don't make the client send more than two messages in three seconds: ten times in
/// thirty seconds a DISCOVER, and a REQUEST a tenth of a second later.
#[test]
fn refused_again_and_again(rt: HostRuntime) {
    assert!(rt; refused_in_thirty_seconds(&mut DhcpClient::new(HARDWARE, None)) == 20);
}
