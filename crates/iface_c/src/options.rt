//! What is set of a socket, and read.
ghost use Rattle.std.specs.Prelude.{◌≡◌, ◌≢◌, IsSomeAnd};
ghost use Rattle.iface_c.specs.Calls.{Did};
ghost use Rattle.iface_c.specs.Handle.{host_in};
ghost use Rattle.iface_c.specs.Options.{hop_limit_in};
ghost use Rattle.iface_c.specs.Properties.{ShowsIfAny};
ghost use Rattle.iface_c.specs.Status.{code_by, code_with};
ghost use Rattle.iface_host.specs.HopLimits.{SetsHopLimit, hop_limit_at, hop_limit_refusal};

use crate::handle::Iface;
use crate::status::{BAD_ARGUMENT, NO_HOST, NO_SOCKET, OK, code};
use std::alloc::Global;

/// Sets the hop limit of the packets of a UDP, an ICMP or a TCP socket.
#[unsafe(no_mangle)]
pub extern "C" fn iface_set_hop_limit(
    handle: &mut Iface,
    alloc: Global,
    socket: u32,
    hop_limit: u8,
) -> u32
    ensures done { Did result (λ old new. IsSomeAnd (hop_limit_in hop_limit)
        (λ limit. SetsHopLimit socket limit old new)) handle.old handle.new }
    ensures code { result ≡ code_with (λ _ host. hop_limit_refusal host socket)
        (hop_limit_in hop_limit) (host_in handle.old) }
{
    if hop_limit == 0 {
        return BAD_ARGUMENT;
    }
    let Some(mut host) = handle.take(alloc) else {
        return NO_HOST;
    };
    let done = host.set_hop_limit(socket, hop_limit);
    handle.put(host);
    match done {
        Ok(()) => OK,
        Err(refusal) => code(refusal),
    }
}

/// Writes the hop limit of the packets of a UDP, an ICMP or a TCP socket.
#[unsafe(no_mangle)]
pub extern "C" fn iface_hop_limit(
    handle: &mut Iface,
    alloc: Global,
    socket: u32,
    hop_limit: &mut u8,
) -> u32
    ensures done { Did result
        (λ old new. ShowsIfAny (λ host. hop_limit_at host socket) hop_limit.new old new) handle.old handle.new }
    ensures code { result ≡ code_by (λ host. hop_limit_refusal host socket) (host_in handle.old) }
    ensures kept { result ≢ 0 → hop_limit.new ≡ hop_limit.old }
{
    let Some(host) = handle.take(alloc) else {
        return NO_HOST;
    };
    let found = host.hop_limit(socket);
    handle.put(host);
    match found {
        Some(limit) => {
            *hop_limit = limit;
            OK
        }
        None => NO_SOCKET,
    }
}
