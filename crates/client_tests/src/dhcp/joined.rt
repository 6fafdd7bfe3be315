//! Options that come several times (RFC 3396).
use crate::cases::assert_each;
use crate::dhcp::octets::{OFFER, message};
use dhcp_client::{DhcpOptions, DhcpRepr};
use ip_address::Ipv4Address;
use ip_wire::emit::FrameBuffer;

/// 10.0.0.1, 10.0.0.2 and 192.168.69.1.
const FIRST: Ipv4Address = Ipv4Address { bits: 0x0a00_0001 };

const SECOND: Ipv4Address = Ipv4Address { bits: 0x0a00_0002 };

const SERVER: Ipv4Address = Ipv4Address { bits: 0xc0a8_4501 };

/// Options of an offer, its servers of names, and its server.
type Options = (&'static [u8], [Option<Ipv4Address>; 2], Option<Ipv4Address>);

const OPTIONS: [Options; 6] = [
    (
        &[53, 1, 2, 6, 4, 10, 0, 0, 1, 255],
        [Some(FIRST), None],
        None,
    ),
    // an address in each of two options, and two addresses that are cut between them
    (
        &[
            53, 1, 2, 6, 4, 10, 0, 0, 1, 54, 4, 192, 168, 69, 1, 6, 4, 10, 0, 0, 2, 255,
        ],
        [Some(FIRST), Some(SECOND)],
        Some(SERVER),
    ),
    (
        &[6, 6, 10, 0, 0, 1, 10, 0, 53, 1, 2, 6, 2, 0, 2, 255],
        [Some(FIRST), Some(SECOND)],
        None,
    ),
    // an option without data in between, and one behind the end
    (
        &[
            6, 1, 10, 6, 0, 6, 3, 0, 0, 1, 53, 1, 2, 255, 6, 4, 10, 0, 0, 2,
        ],
        [Some(FIRST), None],
        None,
    ),
    // six octets are no list, and eight no address
    (
        &[53, 1, 2, 6, 4, 10, 0, 0, 1, 6, 2, 10, 0, 255],
        [None, None],
        None,
    ),
    (
        &[
            53, 1, 2, 54, 4, 192, 168, 69, 1, 54, 4, 192, 168, 69, 1, 255,
        ],
        [None, None],
        None,
    ),
];

/// The options of an offer.
fn options_of(offer: &FrameBuffer) -> Option<DhcpOptions> {
    let repr = DhcpRepr::parse(offer.as_slice())?;
    Some(repr.options)
}

fn are_joined(case: &Options) -> bool {
    let (octets, servers, server) = case;
    if octets.len() > 512 {
        return false;
    }
    match options_of(&message(&OFFER.0, octets)) {
        Some(options) => {
            options.dns_servers == [servers[0], servers[1], None]
                && options.server_identifier == *server
        }
        None => false,
    }
}

#[test]
fn options_of_one_code(rt: HostRuntime) {
    assert_each(&rt, &OPTIONS, are_joined);
}

/// An offer of a lease of 0x0001_0203 seconds, whose octets stand in the field for options, that of the file's name and that
/// of the server's name, in the order of RFC 3396 5.
fn spread() -> FrameBuffer {
    let mut out = FrameBuffer::new();
    out.append(&OFFER.0);
    out.append(&[0; 10]);
    out.append(&[51, 1, 3, 255]);
    out.append(&[0; 60]);
    out.append(&[51, 1, 2, 255]);
    out.append(&[0; 124]);
    out.append(&[99, 130, 83, 99]);
    out.append(&[53, 1, 2, 52, 1, 3, 51, 2, 0, 1, 255]);
    out
}

#[test]
fn options_in_all_fields(rt: HostRuntime) {
    let duration = match options_of(&spread()) {
        Some(options) => options.lease_duration,
        None => None,
    };
    assert!(rt; duration == Some(0x0001_0203));
}
