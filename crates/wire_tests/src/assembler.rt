use net_base::assembler::{Assembler, TooManyHolesError};

/// An offset, a length, whether the octets fit, and the length of the front then.
type Row = (u16, u16, bool, usize);

/// The place of the first row that is taken otherwise.
fn first_wrong(assembler: &mut Assembler, rows: &[Row]) -> Option<usize> {
    for (place, (offset, len, fits, front)) in rows.iter().enumerate() {
        let added = assembler.add(usize::from(*offset), usize::from(*len));
        let is_right = match added {
            Ok(()) => *fits,
            Err(TooManyHolesError) => !*fits,
        };
        if !is_right || assembler.peek_front() != *front {
            return Some(place);
        }
    }
    None
}

const GAPS: [Row; 8] = [
    (4, 4, true, 0),
    (0, 2, true, 2),
    (3, 1, true, 2),
    (2, 1, true, 8),
    (8, 8, true, 16),
    (0, 4, true, 16),
    (20, 0, true, 16),
    (0, 20, true, 20),
];

fn has_no_front_once_cleared(assembler: &mut Assembler) -> bool {
    assembler.clear();
    assembler.peek_front() == 0
}

#[test]
fn the_front_grows_as_gaps_close(rt: HostRuntime) {
    let mut assembler = Assembler::new();
    assert!(&rt; first_wrong(&mut assembler, &GAPS).is_none());
    assert!(rt; has_no_front_once_cleared(&mut assembler));
}

const RANGES: [Row; 12] = [
    (8, 8, true, 0),
    (24, 8, true, 0),
    (40, 8, true, 0),
    (56, 8, true, 0),
    (72, 8, false, 0),
    (0, 7, false, 0),
    (72, 0, true, 0),
    (64, 16, true, 0),
    (90, 1, false, 0),
    (16, 8, true, 0),
    (90, 1, true, 0),
    (0, 8, true, 32),
];

#[test]
fn a_fifth_range_is_refused(rt: HostRuntime) {
    assert!(rt; first_wrong(&mut Assembler::new(), &RANGES).is_none());
}
