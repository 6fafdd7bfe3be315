//! A script, line by line.
ghost use Rattle.std.specs.Prelude.{◌≡◌, ◌≤◌, length, Some, None, OnOk, MatchResult};
ghost use Rattle.std.specs.Io.KnownBytes.{Appends};
ghost use Rattle.script.specs.Commands.{IsTimelyLine};
ghost use Rattle.script.specs.Printed.{frame_line, ingress_text, multicast_text};
ghost use Rattle.script.specs.Printed.{next_text, poll_text, push_text, text_line, text_of};
ghost use Rattle.script.specs.declared.run.Stop.TheVariants as why;
ghost use Rattle.script.specs.Status as spec;

use crate::input::{Input, LineBuffer, LineRead};
use crate::line::{FRAME_ROOM, Line, parse};
use crate::script_host::ScriptHost;
use arrayvec::ArrayVec;
use iface_tables::route::RouteTableFull;
use interface::{
    AddrError, Answer, HardwareError, MulticastError, NewError, PollIngressSingleResult,
    PollResult, TimeoutError,
};
use net_base::PushError;
use net_base::phy::{Device, FRAME_BUFFER_SIZE};
use net_base::time::Instant;
use sockets::NoMemory;
use std::alloc::Global;
use std::io::{self, Read, Write};

/// Why a script ended early.
#[derive(Clone, Copy, Debug, PartialEq, Eq)]
pub enum Stop {
    /// The line of this number, counted from 1, is not a command.
    BadLine(u64),
    /// Memory was refused.
    NoMemory,
    /// The host's interface can't be created.
    NoHost(NewError),
    /// A standard stream failed.
    Failed,
}

impl From<NoMemory> for Stop {
    ghost use Rattle.script.specs.declared.run.Stop.TheVariants.{NoMemory};

    ghost from_gives = { λ _ stop. stop ≡ NoMemory };

    fn from(_: NoMemory) -> Stop {
        Stop::NoMemory
    }
}

impl From<NewError> for Stop {
    ghost use Rattle.script.specs.declared.run.Stop.TheVariants.{NoHost};

    ghost from_gives = { λ error stop. stop ≡ NoHost error };

    fn from(error: NewError) -> Stop {
        Stop::NoHost(error)
    }
}

impl From<io::Error> for Stop {
    ghost use Rattle.script.specs.declared.run.Stop.TheVariants.{Failed};

    ghost from_gives = { λ _ stop. stop ≡ Failed };

    fn from(_: io::Error) -> Stop {
        Stop::Failed
    }
}

/// Runs the script from the input, writes what the host sends and answers, and returns the exit status:
///
/// - 0 at the end of the script;
/// - 2 at a bad line, whose number is written to the error stream;
/// - 3 if memory is refused, which is written there;
/// - 4 if the host can't be created, with the reason written there, or if a stream fails.
///
/// The output is flushed at each end.
pub fn run<R: Read, W: Write, E: Write>(
    alloc: Global,
    input: &mut R,
    output: &mut W,
    errors: &mut E,
) -> u8 {
    let ended = run_lines(alloc, input, output);
    let flushed = output.flush();
    let told = tell(ended, errors);
    exit_status(ended, flushed, told)
}

/// The exit status, from how the lines ended, whether the output was flushed, and whether the reason was written.
fn exit_status(ended: Result<(), Stop>, flushed: io::Result<()>, told: io::Result<()>) -> u8
    ensures { result ≡ spec.exit_status ended flushed told }
{
    if flushed.is_err() || told.is_err() {
        return 4;
    }
    match ended {
        Ok(()) => 0,
        Err(Stop::BadLine(_)) => 2,
        Err(Stop::NoMemory) => 3,
        Err(Stop::NoHost(_) | Stop::Failed) => 4,
    }
}

/// Writes to the error stream why the lines ended early, unless a stream failed.
pub fn tell<E: Write>(ended: Result<(), Stop>, errors: &mut E) -> io::Result<()> {
    match ended {
        Ok(()) | Err(Stop::Failed) => return Ok(()),
        Err(Stop::BadLine(number)) => writeln!(errors, "bad line {number}")?,
        Err(Stop::NoMemory) => writeln!(errors, "out of memory")?,
        Err(Stop::NoHost(error)) => writeln!(errors, "no host: {error}")?,
    }
    errors.flush()
}

/// Runs the lines up to the end, or to the first that can't be run.
fn run_lines<R: Read, W: Write>(alloc: Global, input: &mut R, output: &mut W) -> Result<(), Stop> {
    let mut host = ScriptHost::new(alloc)?;
    let mut input = Input::new(input);
    let mut text = LineBuffer::new();
    let mut frame = [0; FRAME_ROOM];
    for number in 1..u64::MAX {
        match input.read_line(&mut text)? {
            LineRead::End => break,
            LineRead::TooLong => return Err(Stop::BadLine(number)),
            LineRead::Line if text.is_empty() => {}
            LineRead::Line => {
                let line = parse(&text, &mut frame).ok_or(Stop::BadLine(number))?;
                run_line(&mut host, line, &frame, output)?;
            }
        }
    }
    Ok(())
}

/// Runs one line, and writes the frames sent and then the answer.
fn run_line<W: Write>(
    host: &mut ScriptHost<'_>,
    line: Line,
    frame: &[u8; FRAME_ROOM],
    output: &mut W,
) -> Result<(), Stop>
    requires { IsTimelyLine line }
{
    let sent = host.device.sent().len();
    let refusals = host.device.refusals();
    let answer = match line {
        Line::Rx(len) => text(pushed(host.device.push(&frame[..len.min(FRAME_ROOM)]))?),
        Line::Udp(port) => {
            host.add_udp(port)?;
            text("ok")
        }
        Line::Asks(call) => answer_text(host.run(call)),
    };
    if host.device.refusals() != refusals {
        return Err(Stop::NoMemory);
    }
    for frame in host.device.sent().iter().skip(sent) {
        write_frame(frame, output)?;
    }
    write_line(&answer, output)
}

/// The text for a frame that arrived, or was too long.
fn pushed(outcome: Result<(), PushError>) -> Result<&'static str, Stop>
    ensures { MatchResult result (λ text. push_text outcome ≡ Some text.now)
        (λ stop. (stop ≡ why.NoMemory) × (push_text outcome ≡ None)) }
{
    match outcome {
        Ok(()) => Ok("ok"),
        Err(PushError::TooLong) => Ok("TooLong"),
        Err(PushError::NoMemory) => Err(Stop::NoMemory),
    }
}

/// Room for the longest text that an answer is written as.
const TEXT_ROOM: usize = 32;

/// Room for that text with its line feed.
const LINE_ROOM: usize = TEXT_ROOM + 1;

/// The text of a line, without its line feed.
type Text = ArrayVec<u8, TEXT_ROOM>;

/// The text of a name of at most [`TEXT_ROOM`] octets.
fn text(name: &str) -> Text
    ensures { length name.now ≤ TEXT_ROOM → result.items ≡ name.now }
{
    let mut text = ArrayVec::new();
    let _ = text.try_extend_from_slice(name.as_bytes());
    text
}

/// The text for an answer.
fn answer_text(answer: Answer) -> Text
    ensures { result.items ≡ text_of answer }
{
    match answer {
        Answer::PollAt(Some(instant)) => at_text(instant),
        Answer::PollAt(None) => text("at none"),
        Answer::UpdateIpAddrs(Ok(()))
        | Answer::UpdateRoutes
        | Answer::AddDefaultIpv4Route(Ok(_))
        | Answer::RemoveDefaultIpv4Route(_)
        | Answer::AddDefaultIpv6Route(Ok(_))
        | Answer::RemoveDefaultIpv6Route(_)
        | Answer::JoinMulticastGroup(Ok(()))
        | Answer::LeaveMulticastGroup(Ok(()))
        | Answer::SetAnyIp
        | Answer::SetHardwareAddr(Ok(()))
        | Answer::SetReassemblyTimeout(Ok(()))
        | Answer::PollMaintenance
        | Answer::PollDelay(_)
        | Answer::Owner => text("ok"),
        Answer::UpdateIpAddrs(Err(AddrError::NotUnicast))
        | Answer::SetHardwareAddr(Err(HardwareError::NotUnicast)) => text("NotUnicast"),
        Answer::SetHardwareAddr(Err(HardwareError::WrongMedium)) => text("WrongMedium"),
        Answer::AddDefaultIpv4Route(Err(RouteTableFull))
        | Answer::AddDefaultIpv6Route(Err(RouteTableFull)) => text("RouteTableFull"),
        Answer::JoinMulticastGroup(Err(error)) | Answer::LeaveMulticastGroup(Err(error)) => {
            text(multicast_name(error))
        }
        Answer::SetReassemblyTimeout(Err(TimeoutError::TimeoutTooLong)) => text("TimeoutTooLong"),
        Answer::PollIngressSingle(result) => text(ingress_name(result)),
        Answer::PollEgress(result) | Answer::Poll(result) => text(poll_name(result)),
    }
}

/// The name of a reason for which a group isn't joined or left.
fn multicast_name(error: MulticastError) -> &'static str
    ensures { result.now ≡ multicast_text error }
{
    match error {
        MulticastError::GroupTableFull => "GroupTableFull",
        MulticastError::Unaddressable => "Unaddressable",
    }
}

/// The name of the result of an ingress call.
fn ingress_name(answer: PollIngressSingleResult) -> &'static str
    ensures { result.now ≡ ingress_text answer }
{
    match answer {
        PollIngressSingleResult::None => "None",
        PollIngressSingleResult::PacketProcessed => "PacketProcessed",
        PollIngressSingleResult::SocketStateChanged => "SocketStateChanged",
    }
}

/// The name of the result of a poll or an egress call.
fn poll_name(answer: PollResult) -> &'static str
    ensures { result.now ≡ poll_text answer }
{
    match answer {
        PollResult::None => "None",
        PollResult::SocketStateChanged => "SocketStateChanged",
    }
}

/// The text for the instant of the next poll: `at`, and its microseconds.
fn at_text(instant: Instant) -> Text
    ensures { result.items ≡ next_text (Some instant) }
{
    let mut digits = itoa::Buffer::new();
    let mut text = ArrayVec::new();
    let _ = text.try_extend_from_slice(b"at ");
    let _ = text.try_extend_from_slice(digits.format(instant.total_micros()).as_bytes());
    text
}

/// Writes a text and a line feed.
fn write_line<W: Write>(text: &Text, output: &mut W) -> Result<(), Stop>
    ensures { OnOk result (Appends (W.contents output.old) (W.contents output.new) (text_line text.now.items)) }
{
    let mut line: ArrayVec<u8, LINE_ROOM> = ArrayVec::new();
    let _ = line.try_extend_from_slice(text.as_slice());
    let _ = line.try_push(b'\n');
    output.write_all(line.as_slice())?;
    Ok(())
}

/// The length of the longest line for a frame.
const FRAME_LINE: usize = 2 * FRAME_BUFFER_SIZE + 4;

/// Writes a frame of at most [`FRAME_BUFFER_SIZE`] octets, as every frame sent is: `tx`, and the octets in hex.
fn write_frame<W: Write>(frame: &[u8], output: &mut W) -> Result<(), Stop>
    ensures { length frame.now ≤ FRAME_BUFFER_SIZE →
        OnOk result (Appends (W.contents output.old) (W.contents output.new) (frame_line frame.now)) }
{
    let line = line_of(frame);
    output.write_all(line.as_slice())?;
    Ok(())
}

/// The line for a frame of at most [`FRAME_BUFFER_SIZE`] octets.
fn line_of(frame: &[u8]) -> ArrayVec<u8, FRAME_LINE>
    ensures { length frame.now ≤ FRAME_BUFFER_SIZE → result.items ≡ frame_line frame.now }
{
    let mut digits = [0; 2 * FRAME_BUFFER_SIZE];
    let count = 2 * frame.len().min(FRAME_BUFFER_SIZE);
    let digits = &mut digits[..count];
    let _ = hex::encode_to_slice(frame, digits);
    let mut line = ArrayVec::new();
    let _ = line.try_extend_from_slice(b"tx ");
    let _ = line.try_extend_from_slice(digits);
    let _ = line.try_push(b'\n');
    line
}
