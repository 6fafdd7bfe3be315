//! Frames in, frames out, and when to come back.
ghost use Rattle.std.specs.Prelude.{◌≡◌, ◌≢◌, [], IfSome};
ghost use Rattle.std.specs.Prelude.{length as len};
ghost use Rattle.iface_c.specs.Calls.{Did};
ghost use Rattle.iface_c.specs.Handle.{host_in};
ghost use Rattle.iface_c.specs.Status.{IsDueOrMemory, code_by};
ghost use Rattle.iface_host.specs.Guarded.{NextIs, Receives};
ghost use Rattle.iface_host.specs.Refusals.{frame_refusal, moment_refusal};
ghost use Rattle.iface_c.specs.Packets.{IsDueAt, read_as};

use crate::handle::Iface;
use crate::status::{NO_HOST, OK, code};
use net_base::time::Instant;
use std::alloc::Global;

/// The instant that stands for none.
pub(crate) const NEVER: i64 = i64::MAX;

/// Takes a frame, and writes the one that is to be sent in response.
#[unsafe(no_mangle)]
pub extern "C" fn iface_receive(
    handle: &mut Iface,
    alloc: Global,
    now: i64,
    frame: &[u8],
    out: &mut [u8],
    length: &mut usize,
) -> u32
    ensures done { Did result
        (λ old new. Receives now frame.now length.new out.old out.new old new) handle.old handle.new }
    ensures code { result ≡ code_by (λ _. frame_refusal now (len out.old)) (host_in handle.old) }
    ensures kept { result ≢ 0 → (out.new ≡ out.old) × (length.new ≡ length.old) }
{
    let Some(mut host) = handle.take(alloc) else {
        return NO_HOST;
    };
    let done = host.receive(now, frame, out);
    handle.put(host);
    match done {
        Ok(len) => {
            *length = len;
            OK
        },
        Err(refusal) => code(refusal),
    }
}

/// Writes the next frame that is to be sent.
#[unsafe(no_mangle)]
pub extern "C" fn iface_next(
    handle: &mut Iface,
    alloc: Global,
    now: i64,
    out: &mut [u8],
    length: &mut usize,
) -> u32
    ensures done { Did result (λ old new. NextIs now length.new out.old out.new old new) handle.old handle.new }
    ensures code { IsDueOrMemory (code_by (λ _. frame_refusal now (len out.old)) (host_in handle.old)) result }
    ensures memory { result ≡ 4 → IfSome (host_in handle.old) (λ host. host.outbox.frames ≡ []) }
    ensures kept { result ≢ 0 → (out.new ≡ out.old) × (length.new ≡ length.old) }
{
    let Some(mut host) = handle.take(alloc) else {
        return NO_HOST;
    };
    let done = host.next(now, out);
    handle.put(host);
    match done {
        Ok(len) => {
            *length = len;
            OK
        },
        Err(refusal) => code(refusal),
    }
}

/// Writes the instant at which something is due.
#[unsafe(no_mangle)]
pub extern "C" fn iface_poll_at(handle: &mut Iface, alloc: Global, now: i64, at: &mut i64) -> u32
    ensures done { Did result (λ old new. IsDueAt now at.new old new) handle.old handle.new }
    ensures code { result ≡ code_by (λ _. moment_refusal now) (host_in handle.old) }
    ensures kept { result ≢ 0 → at.new ≡ at.old }
{
    let Some(mut host) = handle.take(alloc) else {
        return NO_HOST;
    };
    let done = host.poll_at(now);
    handle.put(host);
    match done {
        Ok(due) => {
            *at = micros_or_never(due);
            OK
        },
        Err(refusal) => code(refusal),
    }
}

/// The microseconds of an instant, or `NEVER` if there is none.
pub(crate) fn micros_or_never(due: Option<Instant>) -> i64
    ensures { result ≡ read_as due }
{
    due.map_or(NEVER, |instant| instant.total_micros())
}
