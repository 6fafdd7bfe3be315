//! Packets that wait for a neighbour, and those that were given up.
ghost use Rattle.std.specs.Prelude.{◌≡◌, ◌≢◌, None};
ghost use Rattle.iface_c.specs.Calls.{Did};
ghost use Rattle.iface_c.specs.Handle.{host_in};
ghost use Rattle.iface_c.specs.Status.{code_by};
ghost use Rattle.iface_host.specs.Waits.{given_up_refusal, waiting_refusal};
ghost use Rattle.iface_c.specs.Waits.{ShowsCount, ShowsGivenUp, ShowsWaiting};

use crate::addresses::IfaceAddress;
use crate::handle::Iface;
use crate::status::{NO_HOST, OK, code};
use std::alloc::Global;

/// Writes for whom the first packet of a socket waits, and since when.
#[unsafe(no_mangle)]
pub extern "C" fn iface_waiting(
    handle: &mut Iface,
    alloc: Global,
    socket: u32,
    remote: &mut IfaceAddress,
    since: &mut i64,
) -> u32
    ensures done { Did result (λ old new. ShowsWaiting socket remote.new since.new old new) handle.old handle.new }
    ensures code { result ≡ code_by (λ host. waiting_refusal host socket) (host_in handle.old) }
    ensures kept { result ≢ 0 → (remote.new ≡ remote.old) × (since.new ≡ since.old) }
{
    let Some(host) = handle.take(alloc) else {
        return NO_HOST;
    };
    let done = host.waiting(socket);
    handle.put(host);
    match done {
        Ok(waiting) => {
            *remote = IfaceAddress::of(&waiting.neighbor);
            *since = waiting.since.total_micros();
            OK
        }
        Err(refusal) => code(refusal),
    }
}

/// Writes the destination of the packet that a socket gave up last, once.
#[unsafe(no_mangle)]
pub extern "C" fn iface_given_up(
    handle: &mut Iface,
    alloc: Global,
    socket: u32,
    remote: &mut IfaceAddress,
) -> u32
    ensures done { Did result (λ old new. ShowsGivenUp socket remote.new old new) handle.old handle.new }
    ensures code { result ≡ code_by (λ host. given_up_refusal host socket) (host_in handle.old) }
    ensures kept { result ≢ 0 → remote.new ≡ remote.old }
{
    let Some(mut host) = handle.take(alloc) else {
        return NO_HOST;
    };
    let done = host.take_given_up(socket);
    handle.put(host);
    match done {
        Ok(given_up) => {
            *remote = IfaceAddress::of(&given_up);
            OK
        }
        Err(refusal) => code(refusal),
    }
}

/// Writes how many packets were given up.
#[unsafe(no_mangle)]
pub extern "C" fn iface_given_up_count(handle: &mut Iface, alloc: Global, count: &mut u64) -> u32
    ensures done { Did result (λ old new. ShowsCount count.new old new) handle.old handle.new }
    ensures code { result ≡ code_by (λ _. None) (host_in handle.old) }
    ensures kept { result ≢ 0 → count.new ≡ count.old }
{
    let Some(host) = handle.take(alloc) else {
        return NO_HOST;
    };
    *count = host.given_up();
    handle.put(host);
    OK
}
