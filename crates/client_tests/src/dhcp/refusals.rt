ghost use Rattle.std.specs.Prelude.{◌≤◌, length};

use crate::cases::{assert_each, changed};
use crate::dhcp::octets::{OFFER, message};
use dhcp_client::DhcpRepr;
use ip_wire::emit::FrameBuffer;

/// Whether a message is parsed.
fn is_parsed(message: &FrameBuffer) -> bool {
    DhcpRepr::parse(message.as_slice()).is_some()
}

/// A place in the fields of an offer, another octet there, and whether that is a message.
type Change = (usize, u8, bool);

const CHANGES: [Change; 5] = [
    (0, 2, true),
    // BOOTREQUEST, and no operation at all
    (0, 1, false),
    (0, 3, false),
    // hardware other than Ethernet's, with other addresses
    (1, 6, false),
    (2, 8, false),
];

fn is_taken(case: &Change) -> bool {
    let (place, octet, is_message) = case;
    let fields = changed(&OFFER.0, *place, *octet);
    is_parsed(&message(&fields, &OFFER.1)) == *is_message
}

/// An offer with other octets in the place of DHCP's four, and these options.
fn offer_of(cookie: &[u8], options: &[u8]) -> FrameBuffer
    requires cookie { length cookie.now ≤ 4 }
    requires options { length options.now ≤ 60 }
{
    let mut out = FrameBuffer::new();
    out.append(&OFFER.0);
    out.append(&[0; 202]);
    out.append(cookie);
    out.append(options);
    out
}

/// Whether a message is refused with other four octets, cut off before the options, and without any.
fn are_refused() -> bool {
    !is_parsed(&offer_of(&[99, 130, 83, 98], &OFFER.1))
        && !is_parsed(&offer_of(&[99, 130, 83], &[]))
        && !is_parsed(&message(&OFFER.0, &[]))
}

#[test]
fn what_is_no_message(rt: HostRuntime) {
    assert_each(&rt, &CHANGES, is_taken);
    assert!(rt; are_refused());
}

/// Options, and whether an offer with them is a message.
type Options = (&'static [u8], bool);

const OPTIONS: [Options; 12] = [
    // a type alone, with padding, without an end, and with something behind the end
    (&[53, 1, 2, 255], true),
    (&[0, 0, 53, 1, 2, 0, 255], true),
    (&[53, 1, 2], true),
    (&[53, 1, 2, 255, 77, 9], true),
    // a code that isn't known
    (&[77, 3, 1, 2, 3, 53, 1, 2, 255], true),
    // lengths that run out, at the last octet and before it
    (&[53, 1, 2, 77, 3, 1, 2], false),
    (&[53, 1, 2, 77], false),
    (&[53, 1], false),
    // no type, types that there aren't, and a type of two octets
    (&[54, 4, 192, 168, 69, 1, 255], false),
    (&[53, 1, 0, 255], false),
    (&[53, 1, 9, 255], false),
    (&[53, 2, 2, 2, 255], false),
];

fn are_read(case: &Options) -> bool {
    let (options, is_message) = case;
    options.len() <= 512 && is_parsed(&message(&OFFER.0, options)) == *is_message
}

#[test]
fn options_of_all_kinds(rt: HostRuntime) {
    assert_each(&rt, &OPTIONS, are_read);
}

/// The field of the file's name with a message's type, and an end.
const FILE: [u8; 5] = [53, 1, 2, 255, 0];

/// The field of the server's name with a lease of 60 seconds alone, with an option of which 57 octets are said to follow,
/// though the field has 56, and with one of 56.
const NAME: [u8; 8] = [51, 4, 0, 0, 0, 60, 0, 0];

const LONGER_NAME: [u8; 8] = [51, 4, 0, 0, 0, 60, 77, 57];

const LONG_NAME: [u8; 8] = [51, 4, 0, 0, 0, 60, 77, 56];

/// An offer whose options stand in the field of the file's name, or in that of the server's name, as these flags say.
fn overloaded(name: &[u8; 8], flags: u8) -> FrameBuffer {
    let mut out = FrameBuffer::new();
    out.append(&OFFER.0);
    out.append(&[0; 10]);
    out.append(name);
    out.append(&[0; 56]);
    out.append(&FILE);
    out.append(&[0; 123]);
    out.append(&[99, 130, 83, 99]);
    out.append(&[52, 1, flags, 255]);
    out
}

/// The field of the server's name, the flags, and whether that is a message.
type Overload = ([u8; 8], u8, bool);

const OVERLOADS: [Overload; 6] = [
    // in the file's name alone, in both, in the server's name alone, and not at all
    (NAME, 1, true),
    (NAME, 3, true),
    (NAME, 2, false),
    (NAME, 0, false),
    (LONGER_NAME, 3, false),
    (LONG_NAME, 3, true),
];

fn is_overloaded(case: &Overload) -> bool {
    is_parsed(&overloaded(&case.0, case.1)) == case.2
}

/// The lease that a message offers.
fn lease_of(message: &FrameBuffer) -> Option<u32> {
    let repr = DhcpRepr::parse(message.as_slice())?;
    repr.options.lease_duration
}

#[test]
fn options_in_other_fields(rt: HostRuntime) {
    assert_each(&rt, &OVERLOADS, is_overloaded);
    assert!(rt; lease_of(&overloaded(&NAME, 3)) == Some(60));
}
