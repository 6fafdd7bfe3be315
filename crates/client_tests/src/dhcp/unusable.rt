//! What a client leaves of what servers say, since no host can use it (RFC 1122 3.2.1.3, RFC 3021).
use crate::cases::assert_each;
use crate::dhcp::servers::{ADDRESS, EVERYBODY, HARDWARE, MASK, NOBODY, OTHER, SERVER, answer};
use dhcp_client::{DhcpClient, DhcpLease, DhcpMessageType, DhcpRepr};
use ip_address::Ipv4Address;

/// 127.0.0.1, 224.0.0.1, 240.0.0.1 and 0.0.0.9.
const LOOPBACK: Ipv4Address = Ipv4Address { bits: 0x7f00_0001 };

const GROUP: Ipv4Address = Ipv4Address { bits: 0xe000_0001 };

const RESERVED: Ipv4Address = Ipv4Address { bits: 0xf000_0001 };

const THIS_NETWORK: Ipv4Address = Ipv4Address { bits: 0x0000_0009 };

/// The first and the last address of 192.168.69.0/24.
const FIRST: Ipv4Address = Ipv4Address { bits: 0xc0a8_4500 };

const LAST: Ipv4Address = Ipv4Address { bits: 0xc0a8_45ff };

/// Masks of 22, 23, 31 and 32 bits, and one that is none.
const MASK_22: Ipv4Address = Ipv4Address { bits: 0xffff_fc00 };

const MASK_23: Ipv4Address = Ipv4Address { bits: 0xffff_fe00 };

const MASK_31: Ipv4Address = Ipv4Address { bits: 0xffff_fffe };

const MASK_OF_GAPS: Ipv4Address = Ipv4Address { bits: 0xff00_ff00 };

/// An address, the mask of its network, the server, and whether a client takes that.
type Given = (Ipv4Address, Option<Ipv4Address>, Ipv4Address, bool);

const GIVEN: [Given; 24] = [
    (ADDRESS, Some(MASK), SERVER, true),
    // servers that are none
    (ADDRESS, Some(MASK), NOBODY, false),
    (ADDRESS, Some(MASK), EVERYBODY, false),
    (ADDRESS, Some(MASK), GROUP, false),
    (ADDRESS, Some(MASK), LOOPBACK, false),
    (ADDRESS, Some(MASK), RESERVED, false),
    // addresses that no host has
    (NOBODY, Some(MASK), SERVER, false),
    (EVERYBODY, Some(MASK), SERVER, false),
    (GROUP, Some(MASK), SERVER, false),
    (LOOPBACK, Some(MASK), SERVER, false),
    (RESERVED, Some(MASK), SERVER, false),
    (THIS_NETWORK, Some(MASK), SERVER, false),
    // the network's own address, and its broadcast address
    (FIRST, Some(MASK), SERVER, false),
    (LAST, Some(MASK), SERVER, false),
    (FIRST, Some(MASK_23), SERVER, true),
    (LAST, Some(MASK_23), SERVER, false),
    (FIRST, Some(MASK_22), SERVER, true),
    (LAST, Some(MASK_22), SERVER, true),
    // networks of two addresses and of one
    (LAST, Some(MASK_31), SERVER, true),
    (FIRST, Some(MASK_31), SERVER, true),
    (LAST, Some(EVERYBODY), SERVER, true),
    // masks that are none count as absent
    (LAST, None, SERVER, true),
    (LAST, Some(NOBODY), SERVER, true),
    (FIRST, Some(MASK_OF_GAPS), SERVER, true),
];

/// A message that gives this.
fn giving(message_type: DhcpMessageType, case: &Given) -> DhcpRepr {
    let mut given = answer(message_type, 7, case.2, case.0, Some(120));
    given.options.subnet_mask = case.1;
    given
}

/// Whether a client asks for what it is offered.
fn is_asked_for(case: &Given) -> bool {
    let mut client = DhcpClient::new(HARDWARE, None);
    let _ = client.next_message(0, 7);
    client.receive(&giving(DhcpMessageType::Offer, case));
    match client.next_message(1, 9) {
        Some(request) => request.repr.options.requested_ip == Some(case.0),
        None => false,
    }
}

/// The lease of a client that asks for an address which it had.
fn leased_by(agreement: &DhcpRepr) -> Option<DhcpLease> {
    let mut client = DhcpClient::new(HARDWARE, Some(ADDRESS));
    let _ = client.next_message(0, 7);
    client.receive(agreement);
    client.lease()
}

/// Whether a client takes what it is offered, and what a server agrees to.
fn is_right(case: &Given) -> bool {
    let is_leased = leased_by(&giving(DhcpMessageType::Ack, case)).is_some();
    is_asked_for(case) == case.3 && is_leased == case.3
}

#[test]
fn offers_and_agreements(rt: HostRuntime) {
    assert_each(&rt, &GIVEN, is_right);
}

/// What a server says of the mask, the router and the servers of names, and what the lease has of it.
type Told = ([Option<Ipv4Address>; 5], [Option<Ipv4Address>; 5]);

const TOLD: [Told; 5] = [
    (
        [Some(MASK), Some(OTHER), Some(OTHER), Some(SERVER), None],
        [Some(MASK), Some(OTHER), Some(OTHER), Some(SERVER), None],
    ),
    // nobody, and the client itself
    (
        [
            Some(NOBODY),
            Some(NOBODY),
            Some(NOBODY),
            Some(ADDRESS),
            Some(SERVER),
        ],
        [None, None, Some(SERVER), None, None],
    ),
    (
        [
            Some(MASK_OF_GAPS),
            Some(ADDRESS),
            Some(LOOPBACK),
            Some(SERVER),
            Some(OTHER),
        ],
        [None, None, Some(SERVER), Some(OTHER), None],
    ),
    (
        [
            Some(MASK_22),
            Some(GROUP),
            Some(OTHER),
            Some(GROUP),
            Some(SERVER),
        ],
        [Some(MASK_22), None, Some(OTHER), Some(SERVER), None],
    ),
    (
        [
            Some(EVERYBODY),
            Some(EVERYBODY),
            Some(RESERVED),
            Some(LOOPBACK),
            Some(THIS_NETWORK),
        ],
        [Some(EVERYBODY), None, None, None, None],
    ),
];

/// Whether a lease has this mask, router and servers of names.
fn is_told(case: &Told) -> bool {
    let [mask, router, first, second, third] = case.0;
    let mut agreement = answer(DhcpMessageType::Ack, 7, SERVER, ADDRESS, Some(120));
    let mut options = agreement.options;
    options.subnet_mask = mask;
    options.router = router;
    options.dns_servers = [first, second, third];
    agreement.options = options;
    match leased_by(&agreement) {
        Some(lease) => {
            let [first, second, third] = lease.dns_servers;
            [lease.subnet_mask, lease.router, first, second, third] == case.1
        }
        None => false,
    }
}

#[test]
fn of_the_network(rt: HostRuntime) {
    assert_each(&rt, &TOLD, is_told);
}
