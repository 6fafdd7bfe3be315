//! Captures of frames in the classic format of pcap, with times in microseconds.

use anyhow::Result;
use std::io::Write;

/// The header of a capture: little endian, version 2.4, frames of at most 65,535 octets, of Ethernet.
const HEADER: [u8; 24] = [
    0xd4, 0xc3, 0xb2, 0xa1, 2, 0, 4, 0, 0, 0, 0, 0, 0, 0, 0, 0, 0xff, 0xff, 0, 0, 1, 0, 0, 0,
];

/// Writes the header of a capture.
pub fn write_header<W: Write>(output: &mut W) -> Result<()> {
    output.write_all(&HEADER)?;
    Ok(())
}

/// Writes a frame that was sent at a time, in microseconds.
pub fn write_frame<W: Write>(output: &mut W, time: u64, frame: &[u8]) -> Result<()> {
    let len = u32::try_from(frame.len()).unwrap_or(u32::MAX).to_le_bytes();
    let seconds = u32::try_from(time / 1_000_000).unwrap_or(u32::MAX);
    let micros = (time % 1_000_000) as u32;
    output.write_all(&seconds.to_le_bytes())?;
    output.write_all(&micros.to_le_bytes())?;
    output.write_all(&len)?;
    output.write_all(&len)?;
    output.write_all(frame)?;
    Ok(())
}
