//! Routes: read, and added with an end. The own address that serves a destination.
ghost use Rattle.std.specs.Prelude.{◌≡◌, ◌≢◌, IsSomeAnd};
ghost use Rattle.std.specs.Option.{option_and_then};
ghost use Rattle.iface_c.specs.Addresses.{address_in, cidr_in};
ghost use Rattle.iface_c.specs.Calls.{Did, Ruled};
ghost use Rattle.iface_c.specs.Handle.{host_in};
ghost use Rattle.iface_c.specs.Properties.{ShowsIfAny};
ghost use Rattle.iface_c.specs.Routes.{ShowsRoute, end_in, source_shown};
ghost use Rattle.iface_c.specs.Status.{code_by, code_with};
ghost use Rattle.iface_host.specs.Calls.{AddsRoute};
ghost use Rattle.iface_host.specs.Stands.{Follows};
ghost use Rattle.iface_host.specs.TableRefusals as refusals;

use crate::addresses::IfaceAddress;
use crate::frames::{NEVER, micros_or_never};
use crate::handle::Iface;
use crate::status::{BAD_ARGUMENT, NO_HOST, NOT_THERE, OK, code};
use std::alloc::Global;

/// Writes the route at a place of their list.
#[unsafe(no_mangle)]
pub extern "C" fn iface_route_at(
    handle: &mut Iface,
    alloc: Global,
    place: u32,
    network: &mut IfaceAddress,
    prefix_len: &mut u8,
    router: &mut IfaceAddress,
    until: &mut i64,
) -> u32
    ensures shown { Did result (λ old new.
        ShowsRoute place network.new prefix_len.new router.new until.new old new) handle.old handle.new }
    ensures code { result ≡ code_by (λ host. refusals.route_place_refusal host place) (host_in handle.old) }
    ensures kept { result ≢ 0 → (network.new ≡ network.old) × (prefix_len.new ≡ prefix_len.old)
        × (router.new ≡ router.old) × (until.new ≡ until.old) }
{
    let Some(host) = handle.take(alloc) else {
        return NO_HOST;
    };
    let found = host.route_at(place as usize);
    handle.put(host);
    match found {
        Some(route) => {
            *network = IfaceAddress::of(&route.cidr.address());
            *prefix_len = route.cidr.prefix_len();
            *router = IfaceAddress::of(&route.via_router);
            *until = micros_or_never(route.expires_at);
            OK
        }
        None => NOT_THERE,
    }
}

/// Adds a route to a network by a router, with an end.
#[unsafe(no_mangle)]
pub extern "C" fn iface_add_route_until(
    handle: &mut Iface,
    alloc: Global,
    network: &IfaceAddress,
    prefix_len: u8,
    router: &IfaceAddress,
    until: i64,
) -> u32
    ensures done { Ruled result (λ old new. IsSomeAnd (cidr_in network.now prefix_len)
        (λ cidr. IsSomeAnd (address_in router.now) (λ via. Follows (AddsRoute cidr via (end_in until)) old new)))
        handle.old handle.new }
    ensures code { result ≡ code_with (λ _ host. refusals.route_refusal host (end_in until))
        (option_and_then (λ _. address_in router.now) (cidr_in network.now prefix_len)) (host_in handle.old) }
{
    let Some(cidr) = network.cidr(prefix_len) else {
        return BAD_ARGUMENT;
    };
    let Some(router) = router.ip() else {
        return BAD_ARGUMENT;
    };
    let end = end_of(until);
    let Some(mut host) = handle.take(alloc) else {
        return NO_HOST;
    };
    let done = host.add_route(cidr, router, end);
    handle.put(host);
    match done {
        Ok(()) => OK,
        Err(refusal) => code(refusal),
    }
}

/// Writes the own address that packets to a destination are sent from.
#[unsafe(no_mangle)]
pub extern "C" fn iface_source_for(
    handle: &mut Iface,
    alloc: Global,
    remote: &IfaceAddress,
    source: &mut IfaceAddress,
) -> u32
    ensures done { Did result (λ old new. IsSomeAnd (address_in remote.now)
        (λ address. ShowsIfAny (source_shown address) source.new old new)) handle.old handle.new }
    ensures code { result ≡ code_with (λ address host. refusals.source_refusal host address)
        (address_in remote.now) (host_in handle.old) }
    ensures kept { result ≢ 0 → source.new ≡ source.old }
{
    let Some(remote) = remote.ip() else {
        return BAD_ARGUMENT;
    };
    let Some(host) = handle.take(alloc) else {
        return NO_HOST;
    };
    let found = host.source_for(remote);
    handle.put(host);
    match found {
        Some(address) => {
            *source = IfaceAddress::of(&address);
            OK
        }
        None => NOT_THERE,
    }
}

/// The end that C wrote, if it is one.
fn end_of(until: i64) -> Option<i64>
    ensures { result ≡ end_in until }
{
    if until < NEVER { Some(until) } else { None }
}
