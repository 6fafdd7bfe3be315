//! What a program does with connections of TCP.
ghost use Rattle.std.specs.Prelude.{◌≡◌, ◌≢◌, not, ◌==◌, IsSomeAnd};
ghost use Rattle.iface_c.specs.Options.{hop_limit_in};
ghost use Rattle.iface_c.specs.Streams as spec;
ghost use Rattle.iface_c.specs.StreamsHandle.{streams_in};
ghost use Rattle.iface_streams.specs.Calls as calls;
ghost use Rattle.iface_streams.specs.Calls.{call_refusal};

use crate::addresses::IfaceEndpoint;
use crate::status::{BAD_ARGUMENT, NO_STREAMS, OK, code};
use crate::streams::{IfaceStream, time_unless_0};
use crate::streams_handle::IfaceStreams;
use sockets::IpEndpoint;
use std::alloc::Global;
use tcp_host::iss::Endpoints;
use tcp_machine::state::State;
use tcp_machine::timers::Ending;

/// The number of a state, in the order of RFC 9293 3.3.2; 0 for a connection that is gone.
fn number_of_state(state: State) -> u32
    ensures { result ≡ spec.number_of_state state }
{
    match state {
        State::Closed => 0,
        State::Listen => 1,
        State::SynSent => 2,
        State::SynReceived => 3,
        State::Established => 4,
        State::FinWait1 => 5,
        State::FinWait2 => 6,
        State::CloseWait => 7,
        State::Closing => 8,
        State::LastAck => 9,
        State::TimeWait => 10,
    }
}

/// The number of why a connection ended; 0 if it didn't, or if both sides had closed.
fn number_of_ending(ending: Option<Ending>) -> u32
    ensures { result ≡ spec.number_of_ending ending }
{
    match ending {
        None => 0,
        Some(Ending::ByPeer) => 1,
        Some(Ending::Refused) => 2,
        Some(Ending::TimedOut) => 3,
        Some(Ending::Aborted) => 4,
        Some(Ending::Unreachable) => 5,
    }
}

/// Queues octets, as many as there is room for, and writes how many.
#[unsafe(no_mangle)]
pub extern "C" fn iface_stream_send(
    handle: &mut IfaceStreams,
    alloc: Global,
    stream: &IfaceStream,
    octets: &[u8],
    count: &mut usize,
) -> u32
    ensures done { spec.DidOne result (calls.Sends (spec.handle_in stream.now) octets.now count.new) handle.old handle.new }
    ensures code { result ≡ spec.code_of_one (call_refusal (spec.handle_in stream.now)) (streams_in handle.old) }
    ensures kept { result ≢ 0 → count.new ≡ count.old }
{
    let Some(mut streams) = handle.take(alloc) else {
        return NO_STREAMS;
    };
    let done = streams.send(stream.handle(), octets);
    handle.put(streams);
    match done {
        Ok(sent) => {
            *count = sent;
            OK
        }
        Err(refusal) => code(refusal),
    }
}

/// Takes octets that came, as many as there is room for, and writes how many.
#[unsafe(no_mangle)]
pub extern "C" fn iface_stream_receive(
    handle: &mut IfaceStreams,
    alloc: Global,
    stream: &IfaceStream,
    out: &mut [u8],
    count: &mut usize,
) -> u32
    ensures done { spec.DidOne result (calls.Receives (spec.handle_in stream.now) out.old out.new count.new) handle.old handle.new }
    ensures code { result ≡ spec.code_of_one (call_refusal (spec.handle_in stream.now)) (streams_in handle.old) }
    ensures kept { result ≢ 0 → (out.new ≡ out.old) × (count.new ≡ count.old) }
{
    let Some(mut streams) = handle.take(alloc) else {
        return NO_STREAMS;
    };
    let done = streams.receive(stream.handle(), out);
    handle.put(streams);
    match done {
        Ok(received) => {
            *count = received;
            OK
        }
        Err(refusal) => code(refusal),
    }
}

/// Writes octets that came, as many as there is room for, and how many. They stay.
#[unsafe(no_mangle)]
pub extern "C" fn iface_stream_peek(
    handle: &mut IfaceStreams,
    alloc: Global,
    stream: &IfaceStream,
    out: &mut [u8],
    count: &mut usize,
) -> u32
    ensures done { spec.DidOne result (spec.Peeks (spec.handle_in stream.now) out.old out.new count.new) handle.old handle.new }
    ensures code { result ≡ spec.code_of_one (call_refusal (spec.handle_in stream.now)) (streams_in handle.old) }
    ensures kept { result ≢ 0 → (out.new ≡ out.old) × (count.new ≡ count.old) }
{
    let Some(streams) = handle.take(alloc) else {
        return NO_STREAMS;
    };
    let done = streams.peek(stream.handle(), out);
    handle.put(streams);
    match done {
        Ok(there) => {
            *count = there;
            OK
        }
        Err(refusal) => code(refusal),
    }
}

/// Writes the state of a connection.
#[unsafe(no_mangle)]
pub extern "C" fn iface_stream_state(
    handle: &mut IfaceStreams,
    alloc: Global,
    stream: &IfaceStream,
    state: &mut u32,
) -> u32
    ensures done { spec.DidOne result (spec.ShowsState (spec.handle_in stream.now) state.new) handle.old handle.new }
    ensures code { result ≡ spec.code_of_one (call_refusal (spec.handle_in stream.now)) (streams_in handle.old) }
    ensures kept { result ≢ 0 → state.new ≡ state.old }
{
    let Some(streams) = handle.take(alloc) else {
        return NO_STREAMS;
    };
    let done = streams.state(stream.handle());
    handle.put(streams);
    match done {
        Ok(is) => {
            *state = number_of_state(is);
            OK
        }
        Err(refusal) => code(refusal),
    }
}

/// Writes why a connection ended before both sides had closed.
#[unsafe(no_mangle)]
pub extern "C" fn iface_stream_ending(
    handle: &mut IfaceStreams,
    alloc: Global,
    stream: &IfaceStream,
    ending: &mut u32,
) -> u32
    ensures done { spec.DidOne result (spec.ShowsEnding (spec.handle_in stream.now) ending.new) handle.old handle.new }
    ensures code { result ≡ spec.code_of_one (call_refusal (spec.handle_in stream.now)) (streams_in handle.old) }
    ensures kept { result ≢ 0 → ending.new ≡ ending.old }
{
    let Some(streams) = handle.take(alloc) else {
        return NO_STREAMS;
    };
    let done = streams.ending(stream.handle());
    handle.put(streams);
    match done {
        Ok(why) => {
            *ending = number_of_ending(why);
            OK
        }
        Err(refusal) => code(refusal),
    }
}

/// The end follows what was written.
#[unsafe(no_mangle)]
pub extern "C" fn iface_stream_close(
    handle: &mut IfaceStreams,
    alloc: Global,
    stream: &IfaceStream,
) -> u32
    ensures done { spec.DidOne result (calls.Finishes (spec.handle_in stream.now)) handle.old handle.new }
    ensures code { result ≡ spec.code_of_one (call_refusal (spec.handle_in stream.now)) (streams_in handle.old) }
{
    let Some(mut streams) = handle.take(alloc) else {
        return NO_STREAMS;
    };
    let done = streams.finish(stream.handle());
    handle.put(streams);
    match done {
        Ok(()) => OK,
        Err(refusal) => code(refusal),
    }
}

/// A connection is gone, and its peer gets a reset.
#[unsafe(no_mangle)]
pub extern "C" fn iface_stream_abort(
    handle: &mut IfaceStreams,
    alloc: Global,
    stream: &IfaceStream,
) -> u32
    ensures done { spec.DidOne result (calls.Aborts (spec.handle_in stream.now)) handle.old handle.new }
    ensures code { result ≡ spec.code_of_one (call_refusal (spec.handle_in stream.now)) (streams_in handle.old) }
{
    let Some(mut streams) = handle.take(alloc) else {
        return NO_STREAMS;
    };
    let done = streams.abort(stream.handle());
    handle.put(streams);
    match done {
        Ok(()) => OK,
        Err(refusal) => code(refusal),
    }
}

/// Lets go of a connection: its name names nothing from then on.
#[unsafe(no_mangle)]
pub extern "C" fn iface_stream_release(
    handle: &mut IfaceStreams,
    alloc: Global,
    stream: &IfaceStream,
) -> u32
    ensures done { spec.DidOne result (calls.Releases (spec.handle_in stream.now)) handle.old handle.new }
    ensures code { result ≡ spec.code_of_one (call_refusal (spec.handle_in stream.now)) (streams_in handle.old) }
{
    let Some(mut streams) = handle.take(alloc) else {
        return NO_STREAMS;
    };
    let done = streams.release(stream.handle());
    handle.put(streams);
    match done {
        Ok(()) => OK,
        Err(refusal) => code(refusal),
    }
}

/// Lets short segments wait while something is unacknowledged, or not.
#[unsafe(no_mangle)]
pub extern "C" fn iface_stream_set_nagle(
    handle: &mut IfaceStreams,
    alloc: Global,
    stream: &IfaceStream,
    on: u8,
) -> u32
    ensures done { spec.DidOne result (calls.Sets (spec.handle_in stream.now) (λ s. record s { nagle = not (on == 0) })) handle.old handle.new }
    ensures code { result ≡ spec.code_of_one (call_refusal (spec.handle_in stream.now)) (streams_in handle.old) }
{
    let Some(mut streams) = handle.take(alloc) else {
        return NO_STREAMS;
    };
    let done = streams.set_nagle(stream.handle(), on != 0);
    handle.put(streams);
    match done {
        Ok(()) => OK,
        Err(refusal) => code(refusal),
    }
}

/// Sets how long an acknowledgement of octets in order may wait.
#[unsafe(no_mangle)]
pub extern "C" fn iface_stream_set_ack_delay(
    handle: &mut IfaceStreams,
    alloc: Global,
    stream: &IfaceStream,
    micros: u64,
) -> u32
    ensures done { spec.DidOne result (calls.Sets (spec.handle_in stream.now) (λ s. record s { ack_delay = micros })) handle.old handle.new }
    ensures code { result ≡ spec.code_of_one (call_refusal (spec.handle_in stream.now)) (streams_in handle.old) }
{
    let Some(mut streams) = handle.take(alloc) else {
        return NO_STREAMS;
    };
    let done = streams.set_ack_delay(stream.handle(), micros);
    handle.put(streams);
    match done {
        Ok(()) => OK,
        Err(refusal) => code(refusal),
    }
}

/// Sets how long nothing arrives before the peer is probed.
#[unsafe(no_mangle)]
pub extern "C" fn iface_stream_set_keep_alive(
    handle: &mut IfaceStreams,
    alloc: Global,
    stream: &IfaceStream,
    micros: u64,
) -> u32
    ensures done { spec.DidOne result (calls.Sets (spec.handle_in stream.now) (λ s. record s { keep_alive = spec.time_in micros })) handle.old handle.new }
    ensures code { result ≡ spec.code_of_one (call_refusal (spec.handle_in stream.now)) (streams_in handle.old) }
{
    let Some(mut streams) = handle.take(alloc) else {
        return NO_STREAMS;
    };
    let done = streams.set_keep_alive(stream.handle(), time_unless_0(micros));
    handle.put(streams);
    match done {
        Ok(()) => OK,
        Err(refusal) => code(refusal),
    }
}

/// Sets how long what was sent may stay unacknowledged.
#[unsafe(no_mangle)]
pub extern "C" fn iface_stream_set_timeout(
    handle: &mut IfaceStreams,
    alloc: Global,
    stream: &IfaceStream,
    micros: u64,
) -> u32
    ensures done { spec.DidOne result (calls.Sets (spec.handle_in stream.now) (λ s. record s { timeout = spec.time_in micros })) handle.old handle.new }
    ensures code { result ≡ spec.code_of_one (call_refusal (spec.handle_in stream.now)) (streams_in handle.old) }
{
    let Some(mut streams) = handle.take(alloc) else {
        return NO_STREAMS;
    };
    let done = streams.set_timeout(stream.handle(), time_unless_0(micros));
    handle.put(streams);
    match done {
        Ok(()) => OK,
        Err(refusal) => code(refusal),
    }
}

/// Sets how many routers the packets of a connection may pass.
#[unsafe(no_mangle)]
pub extern "C" fn iface_stream_set_hop_limit(
    handle: &mut IfaceStreams,
    alloc: Global,
    stream: &IfaceStream,
    hop_limit: u8,
) -> u32
    ensures done { spec.DidOne result (λ old new. IsSomeAnd (hop_limit_in hop_limit)
        (λ limit. calls.SetsHopLimit (spec.handle_in stream.now) limit old new)) handle.old handle.new }
    ensures code { result ≡ spec.code_if_meant (hop_limit_in hop_limit)
        (spec.code_of_one (call_refusal (spec.handle_in stream.now)) (streams_in handle.old)) }
{
    if hop_limit == 0 {
        return BAD_ARGUMENT;
    }
    let Some(mut streams) = handle.take(alloc) else {
        return NO_STREAMS;
    };
    let done = streams.set_hop_limit(stream.handle(), hop_limit);
    handle.put(streams);
    match done {
        Ok(()) => OK,
        Err(refusal) => code(refusal),
    }
}

/// Writes the two ends of a connection.
#[unsafe(no_mangle)]
pub extern "C" fn iface_stream_ends(
    handle: &mut IfaceStreams,
    alloc: Global,
    stream: &IfaceStream,
    local: &mut IfaceEndpoint,
    remote: &mut IfaceEndpoint,
) -> u32
    ensures done { spec.DidOne result (spec.ShowsEnds (spec.handle_in stream.now) local.new remote.new) handle.old handle.new }
    ensures code { result ≡ spec.code_of_one (calls.ends_refusal (spec.handle_in stream.now)) (streams_in handle.old) }
    ensures kept { result ≢ 0 → (local.new ≡ local.old) × (remote.new ≡ remote.old) }
{
    let Some(streams) = handle.take(alloc) else {
        return NO_STREAMS;
    };
    let done = streams.ends(stream.handle());
    handle.put(streams);
    match done {
        Ok(ends) => {
            *local = IfaceEndpoint::of(&local_end(&ends));
            *remote = IfaceEndpoint::of(&remote_end(&ends));
            OK
        }
        Err(refusal) => code(refusal),
    }
}

/// The own end of a connection.
fn local_end(ends: &Endpoints) -> IpEndpoint
    ensures { result ≡ spec.local_end ends.now }
{
    IpEndpoint {
        addr: ends.local_addr,
        port: ends.local_port,
    }
}

/// The peer's end of a connection.
fn remote_end(ends: &Endpoints) -> IpEndpoint
    ensures { result ≡ spec.remote_end ends.now }
{
    IpEndpoint {
        addr: ends.remote_addr,
        port: ends.remote_port,
    }
}

/// Writes how many octets may be written now, and how many can be read.
#[unsafe(no_mangle)]
pub extern "C" fn iface_stream_rooms(
    handle: &mut IfaceStreams,
    alloc: Global,
    stream: &IfaceStream,
    writable: &mut usize,
    readable: &mut usize,
) -> u32
    ensures done { spec.DidOne result (spec.ShowsRooms (spec.handle_in stream.now) writable.new readable.new) handle.old handle.new }
    ensures code { result ≡ spec.code_of_one (call_refusal (spec.handle_in stream.now)) (streams_in handle.old) }
    ensures kept { result ≢ 0 → (writable.new ≡ writable.old) × (readable.new ≡ readable.old) }
{
    let Some(streams) = handle.take(alloc) else {
        return NO_STREAMS;
    };
    let done = streams.rooms(stream.handle());
    handle.put(streams);
    match done {
        Ok((may_write, may_read)) => {
            *writable = may_write;
            *readable = may_read;
            OK
        }
        Err(refusal) => code(refusal),
    }
}
