//! Datagrams that are cut.
use fragmentation::Fragmenter;
use ip_wire::{EthernetAddress, HardwareAddress, IpProtocol, Ipv4Address, Ipv4Fragment, Ipv4Repr};

const LINK: HardwareAddress = HardwareAddress::Ethernet(EthernetAddress([2, 0, 0, 0, 0, 1]));

/// From 10.0.0.1 to 10.0.0.2.
const fn header(payload_len: u16) -> Ipv4Repr {
    Ipv4Repr {
        src_addr: Ipv4Address { bits: 0x0a00_0001 },
        dst_addr: Ipv4Address { bits: 0x0a00_0002 },
        next_header: IpProtocol::Udp,
        payload_len,
        hop_limit: 64,
    }
}

/// Whether the first piece that waits has these octets at this place, in units of eight. It is taken out.
fn sends(fragmenter: &mut Fragmenter, offset: u16, more_fragments: bool, octets: &[u8]) -> bool {
    let fragment = Ipv4Fragment {
        identification: 111,
        dont_fragment: false,
        more_fragments,
        offset,
    };
    let is_right = match fragmenter.peek() {
        Some(piece) => {
            piece.destination == LINK
                && piece.header == header(piece.header.payload_len)
                && usize::from(piece.header.payload_len) == octets.len()
                && piece.fragment == fragment
                && piece.octets == octets
        }
        None => false,
    };
    fragmenter.advance();
    is_right
}

/// RFC 791, appendix A, example 2: 452 octets of data, cut after the 256th.
fn cuts_in_two(fragmenter: &mut Fragmenter) -> bool {
    let was_empty = fragmenter.is_empty();
    fragmenter.fill(LINK, header(452), 111, 256, &[], &[9; 452]);
    was_empty
        && !fragmenter.is_empty()
        && sends(fragmenter, 0, true, &[9; 256])
        && sends(fragmenter, 32, false, &[9; 196])
        && fragmenter.is_empty()
        && fragmenter.peek().is_none()
}

#[test]
fn cuts_as_the_standard_does(rt: HostRuntime) {
    assert!(rt; cuts_in_two(&mut Fragmenter::new()));
}

/// A header of eight octets and 1,000 behind it, where packets have at most 576 octets.
fn is_first_piece(fragmenter: &Fragmenter) -> bool {
    match fragmenter.peek() {
        Some(piece) => {
            piece.octets.len() == 552
                && &piece.octets[..10] == b"01234567\x09\x09".as_slice()
                && piece.fragment.more_fragments
        }
        None => false,
    }
}

fn cuts_at_units(fragmenter: &mut Fragmenter) -> bool {
    fragmenter.fill(LINK, header(1008), 111, 552, b"01234567", &[9; 1000]);
    let is_first = is_first_piece(fragmenter);
    fragmenter.advance();
    let is_last = sends(fragmenter, 69, false, &[9; 456]) && fragmenter.is_empty();
    fragmenter.advance();
    is_first && is_last && fragmenter.is_empty()
}

#[test]
fn pieces_are_of_whole_units(rt: HostRuntime) {
    assert!(rt; cuts_at_units(&mut Fragmenter::new()));
}

/// A datagram takes the place of what waits; one without octets has no pieces.
fn replaces(fragmenter: &mut Fragmenter) -> bool {
    fragmenter.fill(LINK, header(16), 111, 8, b"01234567", b"89abcdef");
    fragmenter.fill(LINK, header(8), 111, 8, b"ABCD", b"EFGH");
    let is_replaced = sends(fragmenter, 0, false, b"ABCDEFGH") && fragmenter.is_empty();
    fragmenter.fill(LINK, header(0), 111, 8, b"", b"");
    is_replaced && fragmenter.is_empty()
}

#[test]
fn a_datagram_replaces_what_waits(rt: HostRuntime) {
    assert!(rt; replaces(&mut Fragmenter::new()));
}
