//! Lines of bounded length from a reader.
ghost use Rattle.std.specs.Prelude.{◌≤◌};

use arrayvec::ArrayVec;
use std::io::{self, Read};

/// The maximum length of a line, in octets, without its line feed.
pub const MAX_LINE: usize = 4096;

/// A line without its line feed.
pub type LineBuffer = ArrayVec<u8, MAX_LINE>;

/// The result of reading a line.
#[derive(Clone, Copy, Debug, PartialEq, Eq)]
pub enum LineRead {
    /// A line, which may be empty.
    Line,
    /// A line of more than 4,096 octets; the rest of it isn't read.
    TooLong,
    /// There was no further line.
    End,
}

/// A reader with the octets that were read ahead.
#[derive(Drop)]
pub struct Input<R> {
    reader: R,
    ahead: [u8; 512],
    start: usize,
    end: usize,
    ghost ordered: { start ≤ end },
    ghost within: { end ≤ 512 },
}

impl<R: Read + Drop> Input<R> {
    /// Creates an input with nothing read ahead.
    pub fn new(reader: R) -> Input<R> {
        Input {
            reader,
            ahead: [0; 512],
            start: 0,
            end: 0,
        }
    }

    /// Reads the next octet; `None` at the end.
    fn next_octet(&mut self) -> io::Result<Option<u8>> {
        if self.start == self.end {
            let count = self.reader.read(&mut self.ahead)?;
            self.start = 0;
            self.end = count;
            if count == 0 {
                return Ok(None);
            }
        }
        let octet = self.ahead[self.start];
        self.start += 1;
        Ok(Some(octet))
    }

    /// Reads a line, which replaces what the buffer held. The last line may lack its line feed.
    pub fn read_line(&mut self, line: &mut LineBuffer) -> io::Result<LineRead> {
        line.clear();
        for _ in 0..=MAX_LINE {
            match self.next_octet()? {
                None if line.is_empty() => return Ok(LineRead::End),
                None | Some(b'\n') => return Ok(LineRead::Line),
                Some(octet) => {
                    if line.try_push(octet).is_err() {
                        return Ok(LineRead::TooLong);
                    }
                }
            }
        }
        Ok(LineRead::TooLong)
    }
}
