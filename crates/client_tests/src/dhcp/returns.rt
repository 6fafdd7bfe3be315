ghost use Rattle.std.specs.Prelude.{◌≤◌, length};

use crate::dhcp::octets::message;
use crate::dhcp::servers::{ADDRESS, EVERYBODY, HARDWARE, NOBODY, SECOND, SERVER, ack, offer};
use dhcp_client::{DhcpClient, DhcpEvent, DhcpMessage, DhcpRoom, DhcpWishes, Probing};
use ip_address::Ipv4Address;

/// RFC 2131 table 5: no flag, no address of the client's; options 53, 61, 50 and 54 (RFC 2132 9.1, 9.6, 9.7, 9.14).
const DECLINE: ([u8; 34], [u8; 25]) = (
    [
        1, 1, 6, 0, 0, 0, 0, 9, 0, 0, 0, 0, 0, 0, 0, 0, 0, 0, 0, 0, 0, 0, 0, 0, 0, 0, 0, 0, 2, 0,
        0, 0, 0, 1,
    ],
    [
        53, 1, 4, 61, 7, 1, 2, 0, 0, 0, 0, 1, 50, 4, 192, 168, 69, 105, 54, 4, 192, 168, 69, 1, 255,
    ],
);

/// The same of a DHCPRELEASE, whose address is the client's.
const RELEASE: ([u8; 34], [u8; 19]) = (
    [
        1, 1, 6, 0, 0, 0, 0, 9, 0, 0, 0, 0, 192, 168, 69, 105, 0, 0, 0, 0, 0, 0, 0, 0, 0, 0, 0, 0,
        2, 0, 0, 0, 0, 1,
    ],
    [
        53, 1, 7, 61, 7, 1, 2, 0, 0, 0, 0, 1, 54, 4, 192, 168, 69, 1, 255,
    ],
);

/// Lets a client lease the address at an instant.
fn bind(client: &mut DhcpClient, now: u64) {
    let _ = client.next_message(now, 7);
    client.receive(&offer(7, SERVER));
    let _ = client.next_message(now, 7);
    client.receive(&ack(7, SERVER, 120));
    let _ = client.take_event();
}

/// Whether a message goes there in these octets, whatever its client asks servers for.
fn is_built(sent: Option<DhcpMessage>, dst: Ipv4Address, fields: &[u8; 34], options: &[u8]) -> bool
    requires { length options.now ≤ 512 }
{
    let Some(sent) = sent else {
        return false;
    };
    let mut wishes = DhcpWishes::new();
    let _ = wishes.set_parameters(&[42]);
    let _ = wishes.set_host_name(&[102]);
    let mut room = DhcpRoom::new();
    room.build_message(&sent, &wishes);
    sent.dst == dst && room.message.as_slice() == message(fields, options).as_slice()
}

/// It waits for ten seconds, whatever answers come, and then asks for offers.
fn waits(client: &mut DhcpClient) -> bool {
    client.receive(&ack(9, SERVER, 120));
    client.receive(&ack(7, SERVER, 120));
    client.reset();
    client.lease().is_none()
        && client.poll_at() == Some(11 * SECOND)
        && client.next_message(11 * SECOND - 1, 5).is_none()
        && client.next_message(11 * SECOND, 5).is_some()
}

/// RFC 2131 4.4.4, 3.1 (5).
fn declines(client: &mut DhcpClient) -> bool {
    let is_nothing = client.decline(0, 9).is_none();
    bind(client, 0);
    let sent = client.decline(SECOND, 9);
    is_nothing
        && is_built(sent, EVERYBODY, &DECLINE.0, &DECLINE.1)
        && client.take_event() == Some(DhcpEvent::Deconfigured)
        && client.declined == 1
        && waits(client)
}

#[test]
fn an_address_that_another_has(rt: HostRuntime) {
    assert!(rt; declines(&mut DhcpClient::new(HARDWARE, None)));
}

/// RFC 2131 4.4.6.
fn releases(client: &mut DhcpClient) -> bool {
    let is_nothing = client.release(9).is_none();
    bind(client, 0);
    let sent = client.release(9);
    is_nothing
        && is_built(sent, SERVER, &RELEASE.0, &RELEASE.1)
        && client.take_event() == Some(DhcpEvent::Deconfigured)
        && client.release(9).is_none()
}

#[test]
fn a_lease_that_is_not_needed(rt: HostRuntime) {
    assert!(rt; releases(&mut DhcpClient::new(HARDWARE, None)));
}

/// RFC 5227 2.1.1: after the tenth conflict no more than one address a minute.
fn pauses(client: &mut DhcpClient) -> bool {
    for _ in 0..9u8 {
        let at = client.poll_at().unwrap_or(0);
        bind(client, at);
        let _ = client.decline(at, 9);
        if client.poll_at() != Some(at.saturating_add(10 * SECOND)) {
            return false;
        }
    }
    let at = client.poll_at().unwrap_or(0);
    bind(client, at);
    let _ = client.decline(at, 9);
    client.poll_at() == Some(at.saturating_add(60 * SECOND))
}

#[test]
fn one_address_a_minute(rt: HostRuntime) {
    assert!(rt; pauses(&mut DhcpClient::new(HARDWARE, None)));
}

/// RFC 5227 1.1, 2.1.1, 2.3, with the longest pauses: probes after one, three and five seconds, announcements after seven and nine.
fn probes(probing: &mut Probing) -> bool {
    let longest = 1_000_000;
    let at = u128::from(SECOND);
    probing.due_at() == Some(at)
        && probing.next_request(SECOND - 1, longest).is_none()
        && probing.next_request(SECOND, longest) == Some(NOBODY)
        && probing.next_request(3 * SECOND, longest) == Some(NOBODY)
        && probing.next_request(5 * SECOND, longest) == Some(NOBODY)
        && !probing.is_tested()
        && probing.next_request(7 * SECOND - 1, longest).is_none()
        && probing.next_request(7 * SECOND, longest) == Some(ADDRESS)
        && probing.is_tested()
        && probing.next_request(9 * SECOND, longest) == Some(ADDRESS)
        && probing.due_at().is_none()
}

#[test]
fn an_address_is_probed_for(rt: HostRuntime) {
    assert!(rt; probes(&mut Probing::begin(ADDRESS, 0, 1_000_000)));
}
