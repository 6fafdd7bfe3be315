//! Sequence charts in text: a column for each host, and a line for each copy of a frame.

use crate::kind::Label;
use crate::link::Passage;
use crate::report::Time;
use anyhow::Result;
use simulation_script::script::{MAX_COLUMNS, Script, Section};
use std::alloc::Global;
use std::io::Write;

/// The width of a column.
const COLUMN: usize = 12;

/// The width of the margin at the left, from which frames from outside come.
const MARGIN: usize = 3;

/// What became of a copy.
#[derive(Clone, Copy, PartialEq, Eq)]
pub enum Outcome {
    /// It arrived.
    Arrived,
    /// It arrived, and is the second one.
    ArrivedAgain,
    /// It arrived, with a bit changed on the way.
    ArrivedChanged,
    /// It was lost.
    Lost,
    /// It was lost, as its sender or its receiver was cut off.
    CutOff,
    /// Its frame was dropped, as too many waited to leave the host.
    Dropped,
}

impl Outcome {
    /// What becomes of a copy that arrives.
    pub fn of(passage: &Passage) -> Outcome {
        if passage.changed.is_some() {
            Outcome::ArrivedChanged
        } else if passage.is_second {
            Outcome::ArrivedAgain
        } else {
            Outcome::Arrived
        }
    }

    /// What becomes of a copy that is lost, as a host is cut off or not.
    pub fn of_loss(is_cut_off: bool) -> Outcome {
        if is_cut_off {
            Outcome::CutOff
        } else {
            Outcome::Lost
        }
    }

    /// What stands for it before the receiver's column; the head of an arrow stands for a copy that simply arrived.
    fn mark(self, head: u8) -> u8 {
        match self {
            Outcome::Arrived => head,
            Outcome::ArrivedAgain => b'2',
            Outcome::ArrivedChanged => b'!',
            Outcome::Lost => b'x',
            Outcome::CutOff => b'/',
            Outcome::Dropped => b'q',
        }
    }
}

/// How many columns a chart has.
fn columns(script: &Script) -> usize {
    match script.section.hosts.len() {
        0 => script.hosts.len().min(MAX_COLUMNS),
        count => count,
    }
}

/// The column of a host, from 0; the number of columns, if it has none of its own.
fn column_of(script: &Script, host: usize) -> usize {
    let hosts = script.section.hosts.as_slice();
    if hosts.is_empty() {
        return host.min(MAX_COLUMNS);
    }
    hosts
        .iter()
        .position(|shown| *shown == host)
        .unwrap_or(hosts.len())
}

/// Whether a copy between two hosts, or from outside, is shown at a time.
pub fn shows(script: &Script, time: u64, from: Option<usize>, to: usize) -> bool {
    let section = &script.section;
    section.from <= time && time <= section.until && shows_one_of(section, from, to)
}

/// Whether copies to or from one of two hosts are shown.
fn shows_one_of(section: &Section, from: Option<usize>, to: usize) -> bool {
    match from {
        Some(from) => section.shows(to) || section.shows(from),
        None => section.shows(to),
    }
}

/// The place of a column.
fn place_of(column: usize) -> usize {
    column.saturating_mul(COLUMN).saturating_add(MARGIN)
}

/// Writes an octet at a place, if it is there.
fn put(row: &mut [u8], place: usize, octet: u8) {
    if let Some(old) = row.get_mut(place) {
        *old = octet;
    }
}

/// A row of a chart: an arrow from a host, or from outside, to a host.
pub fn row(
    alloc: Global,
    script: &Script,
    from: Option<usize>,
    to: usize,
    outcome: Outcome,
) -> Result<String> {
    let columns = columns(script);
    let last = script.hosts.len().min(columns.saturating_add(1));
    let mut row = vec![in alloc; b' '; place_of(last)]?;
    for column in 0..columns {
        put(&mut row, place_of(column), b'|');
    }
    let start = match from {
        Some(host) => place_of(column_of(script, host)),
        None => 0,
    };
    draw_arrow(&mut row, start, place_of(column_of(script, to)), outcome);
    Ok(String::from_utf8(row)?)
}

/// Draws an arrow from a place to another one, or that a frame was dropped.
fn draw_arrow(row: &mut [u8], start: usize, end: usize, outcome: Outcome) {
    for place in start.min(end)..start.max(end) {
        put(row, place, b'-');
    }
    put(row, start, b'*');
    if start < end {
        put(row, end, b'|');
        put(row, end.saturating_sub(1), outcome.mark(b'>'));
    } else if end < start {
        put(row, end, b'|');
        put(row, end.saturating_add(1), outcome.mark(b'<'));
    } else {
        put(row, start, outcome.mark(b'*'));
    }
}

/// Writes a row at a time, in microseconds, with what is said of its frame.
pub fn write_row<W: Write>(output: &mut W, time: u64, row: &str, label: &Label) -> Result<()> {
    let time = Time(time);
    writeln!(output, "{time}  {row}  {label}")?;
    Ok(())
}

/// Writes the names of the hosts above their columns.
pub fn write_names<W: Write>(alloc: Global, script: &Script, output: &mut W) -> Result<()> {
    let names = names(alloc, script)?;
    writeln!(output, "{}", names.trim_end())?;
    Ok(())
}

/// The names of the hosts above their columns.
fn names(alloc: Global, script: &Script) -> Result<String> {
    let mut names = String::from_str(alloc, "                ")?;
    for column in 0..columns(script) {
        let name = script.name_of(shown(script, column));
        names.push_str(&format!(in alloc; "{name:<12}")?)?;
    }
    Ok(names)
}

/// The number of the host that has a column.
fn shown(script: &Script, column: usize) -> usize {
    match script.section.hosts.get(column) {
        Some(host) => *host,
        None => column,
    }
}
