//! How a run ends, and what it says then.
// The tests also hold where any one request for memory is refused.
ghost use Rattle.std.specs.Prelude.{◌≡◌};

use arrayvec::ArrayVec;
use interface::NewError;
use script::run::{Stop, run, tell};
use std::alloc::Global;
use std::io::{self, Read, Write};

/// A reader of these pieces, one after the other, that then ends or fails.
#[derive(Clone, Copy)]
struct Pieces<'a> {
    pieces: &'a [&'a [u8]],
    at: usize,
    fails: bool,
}

impl<'a> Pieces<'a> {
    // What is left of the piece that is read.
    fn rest(&self) -> &'a [u8] {
        let mut at = self.at;
        for piece in self.pieces {
            if at < piece.len() {
                return &piece[at..];
            }
            at -= piece.len();
        }
        &[]
    }
}

impl Read for Pieces<'_> {
    fn read(&mut self, buf: &mut [u8]) -> io::Result<usize> {
        let rest = self.rest();
        if rest.is_empty() && self.fails {
            return Err(io::ErrorKind::Other.into());
        }
        let count = rest.len().min(buf.len());
        buf[..count].copy_from_slice(&rest[..count]);
        self.at = self.at.saturating_add(count);
        Ok(count)
    }
}

/// A writer that takes so many octets and then fails. It counts how often it was flushed since it
/// took the last ones.
#[derive(Drop)]
struct Page {
    text: ArrayVec<u8, 512>,
    room: usize,
    flushes: usize,
    flush_fails: bool,
}

impl Page {
    fn new(room: usize, flush_fails: bool) -> Page {
        Page {
            text: ArrayVec::new(),
            room,
            flushes: 0,
            flush_fails,
        }
    }
}

impl Write for Page {
    fn write(&mut self, buf: &[u8]) -> io::Result<usize> {
        let count = buf.len().min(self.room);
        if count == 0 || self.text.try_extend_from_slice(&buf[..count]).is_err() {
            return Err(io::ErrorKind::Other.into());
        }
        self.room -= count;
        self.flushes = 0;
        Ok(count)
    }

    fn flush(&mut self) -> io::Result<()> {
        self.flushes = self.flushes.saturating_add(1);
        if self.flush_fails {
            return Err(io::ErrorKind::Other.into());
        }
        Ok(())
    }
}

/// What a script does where its streams take so many octets, and reading on at its end fails or not,
/// as does flushing the output, and the error stream.
#[derive(Clone, Copy)]
struct Case<'a> {
    read_fails: bool,
    flush_fails: bool,
    errors_flush_fails: bool,
    output_room: usize,
    errors_room: usize,
    output: &'a [u8],
    errors: &'a [u8],
    status: u8,
}

const fn ends<'a>(output: &'a [u8], errors: &'a [u8], status: u8) -> Case<'a> {
    Case {
        read_fails: false,
        flush_fails: false,
        errors_flush_fails: false,
        output_room: 512,
        errors_room: 512,
        output,
        errors,
        status,
    }
}

// Whether a script comes as it has to. Where memory is refused that is all it says, and the next run
// does what it has to.
fn comes<'a>(alloc: Global, pieces: &'a [&'a [u8]], case: Case<'_>) -> bool {
    for _ in 0..2 {
        let mut input = Pieces {
            pieces,
            at: 0,
            fails: case.read_fails,
        };
        let mut output = Page::new(case.output_room, case.flush_fails);
        let mut errors = Page::new(case.errors_room, case.errors_flush_fails);
        let status = run(alloc, &mut input, &mut output, &mut errors);
        if errors.text.as_slice() != b"out of memory\n".as_slice() {
            return output.flushes == 1
                && output.text.as_slice() == case.output
                && errors.text.as_slice() == case.errors
                && status == case.status;
        }
        let is_stuck = case.flush_fails || case.errors_flush_fails;
        let is_right = output.flushes == 1
            && status == if is_stuck { 4 } else { 3 }
            && case.output.starts_with(output.text.as_slice());
        if !is_right {
            return false;
        }
    }
    false
}

// Who has 192.168.69.1? Tell 192.168.69.100 at 02:00:00:00:00:02.
const REQUEST: &[u8] = b"addr c0a84501/24
rx ffffffffffff02000000000208060001080006040001020000000002c0a84564000000000000c0a84501
ingress
";

const REPLY: &[u8] = b"ok
ok
tx 02000000000202000000000108060001080006040002020000000001c0a84501020000000002c0a84564
SocketStateChanged
";

/// Scripts, and what they answer if reading on at their ends fails: what is read before the failure is run, apart from a line
/// that hasn't ended.
const BROKEN: [(&[u8], &[u8]); 4] = [
    (b"", b""),
    (b"ingress\n", b"None\n"),
    (b"ingress\ningress", b"None\n"),
    (REQUEST, REPLY),
];

fn end_broken(alloc: Global) -> bool {
    for (script, output) in &BROKEN {
        let broken = Case {
            read_fails: true,
            ..ends(output, b"", 4)
        };
        if !comes(alloc, &[*script], broken) {
            return false;
        }
    }
    true
}

/// Whether a request's answer ends where the output has no more room.
fn ends_without_room(alloc: Global) -> bool {
    for output_room in 0..REPLY.len() {
        let case = Case {
            output_room,
            ..ends(&REPLY[..output_room], b"", 4)
        };
        if !comes(alloc, &[REQUEST], case) {
            return false;
        }
    }
    let whole = Case {
        output_room: REPLY.len(),
        ..ends(REPLY, b"", 0)
    };
    comes(alloc, &[REQUEST], whole)
}

/// Whether what is said of a wrong line ends where the error stream has no more room.
fn ends_without_room_for_errors(alloc: Global) -> bool {
    for errors_room in 0..11 {
        let case = Case {
            errors_room,
            ..ends(b"", &b"bad line 1\n"[..errors_room], 4)
        };
        if !comes(alloc, &[b"pol 0"], case) {
            return false;
        }
    }
    true
}

#[test]
fn ends_where_a_stream_fails(rt: HostRuntime) {
    assert!(&rt; end_broken(rt.alloc()));
    assert!(&rt; ends_without_room(rt.alloc()));
    assert!(&rt; ends_without_room_for_errors(rt.alloc()));
}

/// A script, what it answers, what is said of it, and its status if the error stream isn't flushed: where nothing is said
/// there, it isn't flushed.
type Said = (&'static [u8], &'static [u8], &'static [u8], u8);

const STUCK: [Said; 3] = [
    (b"", b"", b"", 0),
    (REQUEST, REPLY, b"", 0),
    (b"ingress\npol 0\n", b"None\n", b"bad line 2\n", 4),
];

fn tells_that_it_is_stuck(alloc: Global) -> bool {
    for (script, output, errors, _) in &STUCK {
        let stuck = Case {
            flush_fails: true,
            ..ends(output, errors, 4)
        };
        if !comes(alloc, &[*script], stuck) {
            return false;
        }
    }
    true
}

#[test]
fn tells_that_the_output_is_not_flushed(rt: HostRuntime) {
    assert!(rt; tells_that_it_is_stuck(rt.alloc()));
}

fn tells_that_errors_are_stuck(alloc: Global) -> bool {
    for (script, output, errors, status) in &STUCK {
        let stuck = Case {
            errors_flush_fails: true,
            ..ends(output, errors, *status)
        };
        if !comes(alloc, &[*script], stuck) {
            return false;
        }
    }
    true
}

#[test]
fn tells_that_the_error_stream_is_not_flushed(rt: HostRuntime) {
    assert!(rt; tells_that_errors_are_stuck(rt.alloc()));
}

const LINE_FEEDS: [u8; 4096] = [b'\n'; 4096];

/// How many empty lines there are, a line behind them, and what is said of it. A zero octet is a line that is none, too.
const LINES: [(usize, &[u8], &[u8]); 7] = [
    (9, b"pol 0", b"bad line 10\n"),
    (98, b"pol 0", b"bad line 99\n"),
    (998, b"pol 0", b"bad line 999\n"),
    (999, b"pol 0", b"bad line 1000\n"),
    (1000, b"pol 0", b"bad line 1001\n"),
    (12_345, b"pol 0", b"bad line 12346\n"),
    (3, b"\0\ningress\n", b"bad line 4\n"),
];

/// Whether so many empty lines are counted before one that is wrong. They come 4,096 at a time.
fn counts(alloc: Global, count: usize, line: &[u8], errors: &[u8]) -> bool {
    let mut pieces: ArrayVec<&[u8], 5> = ArrayVec::new();
    for _ in 0..count / 4096 {
        let _ = pieces.try_push(&LINE_FEEDS);
    }
    let _ = pieces.try_push(&LINE_FEEDS[..count % 4096]);
    let _ = pieces.try_push(line);
    comes(alloc, pieces.as_slice(), ends(b"", errors, 2))
}

fn counts_all(alloc: Global) -> bool {
    for (count, line, errors) in &LINES {
        if !counts(alloc, *count, line, errors) {
            return false;
        }
    }
    true
}

#[test]
fn counts_lines(rt: HostRuntime) {
    assert!(rt; counts_all(rt.alloc()));
}

/// Whether the reason of an end is told so.
fn is_told(stop: Stop, text: &[u8]) -> bool {
    let mut errors = Page::new(512, false);
    let is_told = tell(Err(stop), &mut errors).is_ok();
    is_told && errors.text.as_slice() == text && errors.flushes == 1
}

#[test]
fn tells_why_it_ended(rt: HostRuntime) {
    let is_right = is_told(
        Stop::NoHost(NewError::MediumMismatch),
        b"no host: MediumMismatch\n",
    ) && is_told(
        Stop::NoHost(NewError::MtuTooLarge),
        b"no host: MtuTooLarge\n",
    ) && is_told(Stop::NoMemory, b"out of memory\n");
    assert!(rt; is_right);
}
