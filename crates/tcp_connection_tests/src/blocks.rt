//! The third example of RFC 2018 7: of eight segments of 500 octets the second, the fourth, the sixth and the eighth are
//! lost, then the fourth arrives, and then the second.
use crate::ends::{MSS, SETTINGS, send_one};
use std::alloc::{AllocError, Global};
use tcp_connection::connection::Connection;
use tcp_connection::segment::Segment;
use tcp_machine::sack::SackBlock;

/// The number of what arrives, what is acknowledged then, and the blocks.
type Row = (u32, u32, [Option<SackBlock>; 3]);

/// Segments that have arrived beyond a gap.
const FROM_6000: Option<SackBlock> = Some(SackBlock {
    left: 6_000,
    right: 6_500,
});

const FROM_7000: Option<SackBlock> = Some(SackBlock {
    left: 7_000,
    right: 7_500,
});

const FROM_8000: Option<SackBlock> = Some(SackBlock {
    left: 8_000,
    right: 8_500,
});

/// The first two of those, and the one between them.
const THREE: Option<SackBlock> = Some(SackBlock {
    left: 6_000,
    right: 7_500,
});

const fn segment(number: u32, ack: Option<u32>, is_syn: bool) -> Segment {
    Segment {
        number,
        ack,
        window: 1_000,
        syn: is_syn,
        fin: false,
        rst: false,
        mss: None,
        scale: None,
        sack_permitted: is_syn,
        blocks: [None; 4],
    }
}

/// A connection to a peer that may send 5,000 octets, and begins with number 5,000.
fn opened(alloc: Global) -> Result<Connection, AllocError> {
    let mut connection = Connection::new(alloc, 1_000, 5_000, &SETTINGS)?;
    connection.accept(0, 99, 536, MSS, &SETTINGS, &segment(4_999, None, true));
    let _ = send_one(&mut connection, 0);
    connection.receive(0, 536, MSS, &segment(5_000, Some(100), false), &[]);
    Ok(connection)
}

/// Whether what arrives in a row is answered as it says.
fn is_answered(connection: &mut Connection, row: &Row) -> bool {
    let (number, wanted, wanted_blocks) = row;
    let arrived = segment(*number, Some(100), false);
    connection.receive(1, 536, MSS, &arrived, &[7; 500]);
    let Some(action) = connection.next_action(1) else {
        return false;
    };
    let ack = connection.header(&action).ack;
    let blocks = connection.blocks(&action);
    connection.sent(1, &action);
    ack == Some(*wanted) && blocks == *wanted_blocks
}

const ROWS: [Row; 6] = [
    (5_000, 5_500, [None, None, None]),
    (6_000, 5_500, [FROM_6000, None, None]),
    (7_000, 5_500, [FROM_7000, FROM_6000, None]),
    (8_000, 5_500, [FROM_8000, FROM_7000, FROM_6000]),
    (6_500, 5_500, [THREE, FROM_8000, None]),
    (5_500, 7_500, [FROM_8000, None, None]),
];

/// Whether all rows are answered, one after the other.
fn are_answered(alloc: Global, rows: &[Row]) -> bool {
    let Ok(mut connection) = opened(alloc) else {
        return false;
    };
    for row in rows {
        if !is_answered(&mut connection, row) {
            return false;
        }
    }
    true
}

#[test]
fn third_example(rt: HostRuntime) {
    assert!(rt; are_answered(rt.alloc(), &ROWS));
}

/// A block by its numbers.
type Numbers = (u32, u32);

/// Blocks that aren't true: of what wasn't sent, backwards, empty, across what is acknowledged, one over another, and less each time.
const LIES: [[Numbers; 4]; 6] = [
    [(300, 4_000), (700, 800), (0, 0), (99, 4_294_967_295)],
    [(300, 200), (200, 200), (100, 300), (50, 250)],
    [(200, 500), (250, 450), (300, 700), (101, 102)],
    [(150, 160), (170, 180), (190, 195), (110, 120)],
    [(699, 700), (600, 650), (0, 0), (0, 0)],
    [(101, 700), (0, 0), (0, 0), (0, 0)],
];

const fn block(numbers: Numbers) -> Option<SackBlock> {
    Some(SackBlock {
        left: numbers.0,
        right: numbers.1,
    })
}

/// An acknowledgement of nothing new that tells these.
const fn telling(lie: [Numbers; 4]) -> Segment {
    let [first, second, third, fourth] = lie;
    Segment {
        blocks: [block(first), block(second), block(third), block(fourth)],
        ..segment(5_000, Some(100), false)
    }
}

/// Whether all octets go again once the time ran out, whatever blocks told before, and an acknowledgement of all ends it.
fn is_unharmed(connection: &mut Connection) -> bool {
    connection.write(&[7; 600]);
    for _ in 0..10 {
        let _ = send_one(connection, 1);
    }
    for lie in LIES {
        connection.receive(2, 536, MSS, &telling(lie), &[]);
        let _ = send_one(connection, 2);
    }
    connection.expire(70_000_000);
    let first = send_one(connection, 70_000_000);
    connection.receive(70_000_000, 536, MSS, &segment(5_000, Some(700), false), &[]);
    first.is_some_and(|h| h.number == 100) && !connection.is_unacknowledged(699)
}

#[test]
fn blocks_that_are_not_true(rt: HostRuntime) {
    let is_whole = match opened(rt.alloc()) {
        Ok(mut connection) => is_unharmed(&mut connection),
        Err(_) => false,
    };
    assert!(rt; is_whole);
}
