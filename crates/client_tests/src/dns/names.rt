use crate::cases::assert_each;
use dns_client::message::is_whole_name;
use dns_client::name::{is_same_name, name_end};

/// RFC 1035 4.1.4: F.ISI.ARPA at 20, FOO.F.ISI.ARPA at 40, ARPA at 64, and the root at 92.
const EXAMPLE: [u8; 93] = [
    0xff, 0xff, 0xff, 0xff, 0xff, 0xff, 0xff, 0xff, 0xff, 0xff, 0xff, 0xff, 0xff, 0xff, 0xff, 0xff,
    0xff, 0xff, 0xff, 0xff, 0x01, 0x46, 0x03, 0x49, 0x53, 0x49, 0x04, 0x41, 0x52, 0x50, 0x41, 0x00,
    0xff, 0xff, 0xff, 0xff, 0xff, 0xff, 0xff, 0xff, 0x03, 0x46, 0x4f, 0x4f, 0xc0, 0x14, 0xff, 0xff,
    0xff, 0xff, 0xff, 0xff, 0xff, 0xff, 0xff, 0xff, 0xff, 0xff, 0xff, 0xff, 0xff, 0xff, 0xff, 0xff,
    0xc0, 0x1a, 0xff, 0xff, 0xff, 0xff, 0xff, 0xff, 0xff, 0xff, 0xff, 0xff, 0xff, 0xff, 0xff, 0xff,
    0xff, 0xff, 0xff, 0xff, 0xff, 0xff, 0xff, 0xff, 0xff, 0xff, 0xff, 0xff, 0x00,
];

/// Where a name begins in the example, and where it ends.
const ENDS: [(usize, usize); 4] = [(20, 32), (40, 46), (64, 66), (92, 93)];

fn is_end(case: &(usize, usize)) -> bool {
    name_end(&EXAMPLE, case.0) == Some(case.1)
}

/// The names of the example alone, in small letters.
const FOO: &[u8] = b"\x03foo\x01f\x03isi\x04arpa\x00";

/// Where a name begins in the example, another name, where this one begins, and whether the two are the same.
type Pair = (usize, &'static [u8], usize, bool);

const PAIRS: [Pair; 9] = [
    (40, FOO, 0, true),
    (20, FOO, 4, true),
    (64, FOO, 10, true),
    (64, &EXAMPLE, 26, true),
    (92, FOO, 15, true),
    // other names, that one begins or ends with
    (40, FOO, 4, false),
    (40, b"\x03foo\x01f\x03isi\x00", 0, false),
    (40, b"\x03fop\x01f\x03isi\x04arpa\x00", 0, false),
    (92, b"", 0, false),
];

fn is_pair(case: &Pair) -> bool {
    let (at, name, start, is_same) = case;
    is_same_name(&EXAMPLE, *at, name, *start) == *is_same
}

#[test]
fn names_of_the_standard(rt: HostRuntime) {
    assert_each(&rt, &ENDS, is_end);
    assert_each(&rt, &PAIRS, is_pair);
}

/// Octets, where a name begins, and where it ends, if it is one.
type Name = (&'static [u8], usize, Option<usize>);

const NAMES: [Name; 14] = [
    // nothing, a label and a name that are cut off
    (b"", 0, None),
    (b"\x03ww", 0, None),
    (b"\x03www", 0, None),
    (b"\x03www\xc0", 0, None),
    // past the end
    (b"\x00", 1, None),
    (b"\x00", 9, None),
    // pointers to themselves, forwards, and to and fro
    (b"\xc0\x00", 0, None),
    (b"\xc0\x02\x00", 0, None),
    (b"\x01a\xc0\x00", 0, None),
    (b"\xc0\x02\xc0\x00", 2, None),
    // back to another name, and to a pointer
    (b"\x00\xc0\x00", 1, Some(3)),
    (b"\x00\xc0\x00\xc0\x01", 3, Some(5)),
    // the two other kinds of labels, which there aren't (RFC 6891 5)
    (b"\x41a\x00", 0, None),
    (b"\x81a\x00", 0, None),
];

fn ends(case: &Name) -> bool {
    name_end(case.0, case.1) == case.2
}

#[test]
fn what_is_no_name(rt: HostRuntime) {
    assert_each(&rt, &NAMES, ends);
}

/// A label of 63 octets, and one of 64 (RFC 1035 2.3.4).
fn are_labels_bounded() -> bool {
    let mut label = [b'a'; 66];
    label[0] = 63;
    label[64] = 0;
    let ends_at_65 = name_end(&label, 0) == Some(65);
    label[0] = 64;
    label[65] = 0;
    ends_at_65 && name_end(&label, 0).is_none()
}

/// A name of 255 octets, and one of 256.
fn are_names_bounded() -> bool {
    let mut name = [b'a'; 256];
    name[0] = 63;
    name[64] = 63;
    name[128] = 63;
    name[192] = 61;
    name[254] = 0;
    let ends_at_255 = name_end(&name, 0) == Some(255);
    let is_whole = is_whole_name(&name[..255]) && !is_whole_name(&name);
    name[192] = 62;
    name[254] = b'a';
    name[255] = 0;
    ends_at_255 && is_whole && name_end(&name, 0).is_none()
}

#[test]
fn lengths_of_names(rt: HostRuntime) {
    assert!(rt; are_labels_bounded() && are_names_bounded());
}
