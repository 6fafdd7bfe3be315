use crate::cases::assert_each;
use crate::dhcp::servers::{
    ADDRESS, EVERYBODY, HARDWARE, OTHER, SECOND, SERVER, ack, is_leased, nak, offer,
};
use dhcp_client::{DhcpClient, DhcpEvent, DhcpMessage, DhcpMessageType};
use ip_address::Ipv4Address;

/// A client with a lease of so many seconds from instant 0 on.
fn bound(seconds: u32) -> DhcpClient {
    let mut client = DhcpClient::new(HARDWARE, None);
    let _ = client.next_message(0, 7);
    client.receive(&offer(7, SERVER));
    let _ = client.next_message(0, 7);
    client.receive(&ack(7, SERVER, seconds));
    let _ = client.take_event();
    client
}

/// Whether a request goes there, from the address that the client has, and asks for that by itself alone.
fn is_renewal(message: Option<DhcpMessage>, dst: Ipv4Address) -> bool {
    match message {
        Some(message) => {
            message.dst == dst
                && message.repr.client_ip == ADDRESS
                && message.repr.message_type == DhcpMessageType::Request
                && message.repr.options.requested_ip.is_none()
                && message.repr.options.server_identifier.is_none()
        }
        None => false,
    }
}

/// RFC 2131 4.4.5: after half of the lease the server is asked, which agrees.
fn renews(client: &mut DhcpClient) -> bool {
    let has_lease = is_leased(client.lease(), SERVER, [500, 875, 1_000]);
    let asks = is_renewal(client.next_message(500 * SECOND, 9), SERVER);
    client.receive(&ack(9, OTHER, 1_000));
    let of_the_other = client.take_event();
    client.receive(&ack(9, SERVER, 1_000));
    has_lease && asks && of_the_other.is_none() && is_told(client, [1_000, 1_375, 1_500])
}

/// Whether a client has a lease with these times, and tells it.
fn is_told(client: &mut DhcpClient, seconds: [u128; 3]) -> bool {
    let lease = client.lease();
    is_leased(lease, SERVER, seconds) && client.take_event() == lease.map(DhcpEvent::Configured)
}

#[test]
fn renewed(rt: HostRuntime) {
    assert!(rt; renews(&mut bound(1_000)));
}

/// When a client asks, in milliseconds, and whom: at 500, 500 + 375 / 2 = 687.5, 687.5 + 187.5 / 2 = 781.25, a minute
/// later, and at 875.
const ASKED: [(u32, Ipv4Address); 5] = [
    (500_000, SERVER),
    (687_500, SERVER),
    (781_250, SERVER),
    (841_250, SERVER),
    (875_000, EVERYBODY),
];

/// The same where the lease has 100 seconds.
const ASKED_SOON: [(u32, Ipv4Address); 2] = [(50_000, SERVER), (87_500, EVERYBODY)];

/// The first time in milliseconds at which a client doesn't ask so.
fn first_silence(
    client: &mut DhcpClient,
    random: u32,
    asked: &[(u32, Ipv4Address)],
) -> Option<u32> {
    for (time, server) in asked {
        let now = u64::from(*time) * 1_000;
        let is_due = client.poll_at() == Some(now);
        if !is_due || !is_renewal(client.next_message(now, random), *server) {
            return Some(*time);
        }
    }
    None
}

/// The server is gone: it is asked again after half of what is left until any server is, and then another one agrees.
fn rebinds(client: &mut DhcpClient) -> bool {
    let are_asked = first_silence(client, 11, &ASKED).is_none();
    client.receive(&ack(11, OTHER, 100));
    are_asked && is_leased(client.lease(), OTHER, [925, 962, 975])
}

#[test]
fn rebound(rt: HostRuntime) {
    assert!(rt; rebinds(&mut bound(1_000)));
}

/// Nobody answers: the lease ends, and the client begins anew.
fn expires(client: &mut DhcpClient) -> bool {
    first_silence(client, 9, &ASKED_SOON).is_none()
        && client.poll_at() == Some(100 * SECOND)
        && client.next_message(100 * SECOND - 1, 9).is_none()
        && client.take_event().is_none()
        && is_discover(client.next_message(100 * SECOND, 11))
        && client.lease().is_none()
        && client.take_event() == Some(DhcpEvent::Deconfigured)
}

fn is_discover(message: Option<DhcpMessage>) -> bool {
    match message {
        Some(message) => message.repr.message_type == DhcpMessageType::Discover,
        None => false,
    }
}

#[test]
fn expired(rt: HostRuntime) {
    assert!(rt; expires(&mut bound(100)));
}

/// The event that a refusal brings.
fn event_of_refusal(
    client: &mut DhcpClient,
    number: u32,
    server: Ipv4Address,
) -> Option<DhcpEvent> {
    client.receive(&nak(number, server));
    client.take_event()
}

/// The server refuses the renewal: the lease is gone at once.
fn loses_the_lease(client: &mut DhcpClient) -> bool {
    event_of_refusal(client, 7, SERVER).is_none()
        && is_renewal(client.next_message(50 * SECOND, 9), SERVER)
        && event_of_refusal(client, 9, OTHER).is_none()
        && event_of_refusal(client, 9, SERVER) == Some(DhcpEvent::Deconfigured)
}

#[test]
fn refused(rt: HostRuntime) {
    assert!(rt; loses_the_lease(&mut bound(100)));
}

/// Whether a request asks all servers for the address that the client had (RFC 2131 4.3.2, table 4: INIT-REBOOT).
fn is_for_old(message: Option<DhcpMessage>) -> bool {
    match message {
        Some(message) => {
            message.dst == EVERYBODY
                && message.repr.message_type == DhcpMessageType::Request
                && message.repr.client_ip == Ipv4Address::UNSPECIFIED
                && message.repr.options.requested_ip == Some(ADDRESS)
                && message.repr.options.server_identifier.is_none()
        }
        None => false,
    }
}

/// RFC 2131 3.2: once a link came up the address is asked for again, and again if it came up once more. Any server may agree; one that
/// knows of another network refuses, and then the client asks for offers.
fn asks_again(client: &mut DhcpClient) -> bool {
    client.reset();
    let is_gone = client.lease().is_none() && client.take_event() == Some(DhcpEvent::Deconfigured);
    let first = client.next_message(10 * SECOND, 9);
    client.reset();
    let second = client.next_message(13 * SECOND, 11);
    client.receive(&ack(11, OTHER, 100));
    let by_other = is_leased(client.lease(), OTHER, [63, 100, 113]);
    client.reset();
    let third = client.next_message(20 * SECOND, 13);
    client.receive(&nak(13, SERVER));
    let anew = client.next_message(23 * SECOND, 15);
    is_gone
        && is_for_old(first)
        && is_for_old(second)
        && by_other
        && is_for_old(third)
        && anew.map(|message| message.repr.message_type) == Some(DhcpMessageType::Discover)
}

#[test]
fn reset(rt: HostRuntime) {
    assert!(rt; asks_again(&mut bound(100)));
}

/// RFC 2131 3.3: a lease without end, which the program gives up.
fn is_endless(client: &mut DhcpClient) -> bool {
    let is_endless = client.poll_at().is_none()
        && client.next_message(0x7fff_ffff_ffff_ffff, 9).is_none();
    client.reset();
    is_endless
        && client.take_event() == Some(DhcpEvent::Deconfigured)
        && client.poll_at() == Some(3 * SECOND)
}

/// RFC 2131 4.4.5, RFC 2132 9.11 and 9.12, for a lease of 100 seconds: T1 and T2 as the server says them, and as they count.
type Durations = (Option<u32>, Option<u32>, u128, u128);

const DURATIONS: [Durations; 10] = [
    (None, None, 50, 87),
    (Some(40), Some(60), 40, 60),
    // each alone
    (Some(40), None, 40, 87),
    (None, Some(60), 50, 60),
    // T1 behind T2, T2 behind the end, T1 behind the T2 that counts, and a T1 of no time
    (Some(70), Some(60), 50, 60),
    (Some(40), Some(100), 40, 87),
    (Some(90), None, 50, 87),
    (Some(0), Some(60), 50, 60),
    // a T2 that leaves no T1 before it
    (Some(60), Some(40), 50, 87),
    (None, Some(50), 50, 87),
];

fn count(case: &Durations) -> bool {
    let (renew, rebind, renew_at, rebind_at) = case;
    let mut client = DhcpClient::new(HARDWARE, Some(ADDRESS));
    let _ = client.next_message(0, 7);
    let mut agreement = ack(7, SERVER, 100);
    agreement.options.renew_duration = *renew;
    agreement.options.rebind_duration = *rebind;
    client.receive(&agreement);
    is_leased(client.lease(), SERVER, [*renew_at, *rebind_at, 100])
}

#[test]
fn durations(rt: HostRuntime) {
    assert!(&rt; is_endless(&mut bound(0xffff_ffff)));
    assert_each(&rt, &DURATIONS, count);
}
