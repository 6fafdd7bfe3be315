//! What a host counts, and whether its sockets may have changed.
ghost use Rattle.std.specs.Prelude.{◌≡◌, ◌≢◌, None};
ghost use Rattle.iface_c.specs.Calls.{Did};
ghost use Rattle.iface_c.specs.Counters.{ShowsChanged, counters_shown};
ghost use Rattle.iface_c.specs.Handle.{host_in};
ghost use Rattle.iface_c.specs.Properties.{Shows};
ghost use Rattle.iface_c.specs.Status.{code_by};

use crate::handle::Iface;
use crate::properties::flag;
use crate::status::{NO_HOST, OK};
use std::alloc::Global;

/// What a host counts.
#[repr(C)]
#[derive(Drop)]
pub struct IfaceCounters {
    /// How many frames it took.
    pub frames_in: u64,
    /// How many frames it handed over.
    pub frames_out: u64,
    /// How many packets were given up.
    pub given_up: u64,
    /// How often memory for a frame was refused in the middle of a round.
    pub no_memory: u64,
}

/// Writes what a host counted since it was made.
#[unsafe(no_mangle)]
pub extern "C" fn iface_counters(
    handle: &mut Iface,
    alloc: Global,
    counters: &mut IfaceCounters,
) -> u32
    ensures done { Did result (λ old new. Shows counters_shown counters.new old new) handle.old handle.new }
    ensures code { result ≡ code_by (λ _. None) (host_in handle.old) }
    ensures kept { result ≢ 0 → counters.new ≡ counters.old }
{
    let Some(host) = handle.take(alloc) else {
        return NO_HOST;
    };
    let counted = host.counters();
    handle.put(host);
    *counters = IfaceCounters {
        frames_in: counted.frames.taken,
        frames_out: counted.frames.handed_over,
        given_up: counted.given_up,
        no_memory: counted.no_memory,
    };
    OK
}

/// Writes whether a socket may have changed since this was last asked.
#[unsafe(no_mangle)]
pub extern "C" fn iface_sockets_changed(handle: &mut Iface, alloc: Global, changed: &mut u8) -> u32
    ensures done { Did result (λ old new. ShowsChanged changed.new old new) handle.old handle.new }
    ensures code { result ≡ code_by (λ _. None) (host_in handle.old) }
    ensures kept { result ≢ 0 → changed.new ≡ changed.old }
{
    let Some(mut host) = handle.take(alloc) else {
        return NO_HOST;
    };
    *changed = flag(host.take_changed());
    handle.put(host);
    OK
}
