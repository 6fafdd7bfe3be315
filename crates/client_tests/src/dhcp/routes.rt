//! Routes that a server tells, with the descriptors of RFC 3442.
use crate::cases::assert_each;
use crate::dhcp::octets::{ACK, message};
use dhcp_client::{DhcpRepr, DhcpRoute};
use ip_address::Ipv4Address;
use ip_wire::emit::FrameBuffer;

/// The client's own address, and its router.
const OWN: Ipv4Address = Ipv4Address { bits: 0x0a00_0009 };

const ROUTER: Ipv4Address = Ipv4Address { bits: 0x0a00_0001 };

/// 10.0.0.2, of option 3.
const LISTED: Ipv4Address = Ipv4Address { bits: 0x0a00_0002 };

/// What behind the message's type stands of option 3, and then of option 121; the router of the message, and how many other routes
/// the client can use.
type Told = (&'static [u8], Option<Ipv4Address>, usize);

const TOLD: [Told; 10] = [
    (&[3, 4, 10, 0, 0, 2, 255], Some(LISTED), 0),
    // the default route, and 10.229.0.128/25
    (
        &[
            3, 4, 10, 0, 0, 2, 121, 14, 0, 10, 0, 0, 1, 25, 10, 229, 0, 128, 10, 0, 0, 1, 255,
        ],
        Some(ROUTER),
        1,
    ),
    // 10.17.0.0/16 alone: option 3 is ignored all the same
    (
        &[3, 4, 10, 0, 0, 2, 121, 7, 16, 10, 17, 10, 0, 0, 1, 255],
        None,
        1,
    ),
    // cut between two options (RFC 3396)
    (
        &[
            121, 3, 16, 10, 17, 3, 4, 10, 0, 0, 2, 121, 4, 10, 0, 0, 1, 255,
        ],
        None,
        1,
    ),
    // malformed: a width of 33, and a router of three octets
    (
        &[
            3, 4, 10, 0, 0, 2, 121, 10, 33, 10, 17, 0, 0, 0, 10, 0, 0, 1, 255,
        ],
        Some(LISTED),
        0,
    ),
    (
        &[3, 4, 10, 0, 0, 2, 121, 6, 16, 10, 17, 10, 0, 0, 255],
        Some(LISTED),
        0,
    ),
    // a good one before one that is cut short
    (
        &[3, 4, 10, 0, 0, 2, 121, 8, 16, 10, 17, 10, 0, 0, 1, 24, 255],
        Some(LISTED),
        0,
    ),
    // by 0.0.0.0, by a group, and by the host itself
    (
        &[
            121, 21, 16, 10, 17, 0, 0, 0, 0, 16, 10, 18, 224, 0, 0, 1, 16, 10, 19, 10, 0, 0, 9, 255,
        ],
        None,
        0,
    ),
    // to one host
    (&[121, 9, 32, 10, 17, 0, 1, 10, 0, 0, 1, 255], None, 1),
    // no data
    (&[3, 4, 10, 0, 0, 2, 121, 0, 255], Some(LISTED), 0),
];

/// An agreement with these options besides.
fn agreement(octets: &[u8]) -> FrameBuffer {
    let mut out = message(&ACK.0, &[53, 1, 5]);
    if octets.len() <= 64 && out.len() <= 300 {
        out.append(octets);
    }
    out
}

fn is_told(case: &Told) -> bool {
    let (octets, router, count) = case;
    let ack = agreement(octets);
    match DhcpRepr::parse(ack.as_slice()) {
        Some(values) => values.options.router == *router && count_in(&ack) == *count,
        None => false,
    }
}

/// How many routes a message has that the client can use.
fn count_in(ack: &FrameBuffer) -> usize {
    if ack.len() < 240 {
        return 0;
    }
    DhcpRepr::routes_in(ack.as_slice(), &OWN).len()
}

#[test]
fn routes_that_are_told(rt: HostRuntime) {
    assert_each(&rt, &TOLD, is_told);
}

/// 10.27.129.0/24.
const TO_NETWORK: DhcpRoute = DhcpRoute {
    network: Ipv4Address { bits: 0x0a1b_8100 },
    prefix_len: 24,
    router: ROUTER,
};

/// Whether nine routes are read, of which eight are kept.
fn are_eight() -> bool {
    let mut ack = message(&ACK.0, &[53, 1, 5]);
    for _ in 0..9 {
        append(&mut ack, &[121, 8, 24, 10, 27, 129, 10, 0, 0, 1]);
    }
    append(&mut ack, &[255]);
    if ack.len() < 240 {
        return false;
    }
    let routes = DhcpRepr::routes_in(ack.as_slice(), &OWN);
    routes.len() == 8 && routes.as_slice().iter().all(|route| *route == TO_NETWORK)
}

/// Appends octets, if there is room.
fn append(out: &mut FrameBuffer, octets: &[u8]) {
    if out.len() <= 1000 && octets.len() <= 64 {
        out.append(octets);
    }
}

#[test]
fn eight_routes(rt: HostRuntime) {
    assert!(rt; are_eight());
}
