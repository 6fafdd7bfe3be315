//! What is set of a host while it runs, and what is read of it.
ghost use Rattle.std.specs.Prelude.{◌≡◌, ◌≢◌, IsSomeAnd, None};
ghost use Rattle.iface_c.specs.Addresses.{address_in};
ghost use Rattle.iface_c.specs.Calls.{Did, Ruled};
ghost use Rattle.iface_c.specs.Handle.{host_in};
ghost use Rattle.iface_c.specs.Properties.{Shows, ShowsIfAny, ethernet_of, flag_of, hardware_octets, holds_in, lack};
ghost use Rattle.iface_c.specs.Status.{code_by, code_with};
ghost use Rattle.iface_host.specs.Properties.{SetsAnyIp, SetsHardware, SetsTimeout, any_ip_of, hardware_refusal, is_in};
ghost use Rattle.iface_host.specs.Properties.{slaac_updated_at, timeout_of};
ghost use Rattle.iface_host.specs.Stands.{Follows};
ghost use Rattle.iface_host.specs.TableRefusals.{timeout_refusal};

use crate::addresses::IfaceAddress;
use crate::handle::Iface;
use crate::status::{BAD_ARGUMENT, NO_HOST, NOT_THERE, OK, code};
use ip_wire::EthernetAddress;
use net_base::time::Duration;
use std::alloc::Global;

/// Sets whether unicast addresses count as own that are routed to an own address.
#[unsafe(no_mangle)]
pub extern "C" fn iface_set_any_ip(handle: &mut Iface, alloc: Global, on: u8) -> u32
    ensures done { Ruled result (λ old new. Follows (SetsAnyIp (holds_in on)) old new) handle.old handle.new }
    ensures code { result ≡ code_by (λ _. None) (host_in handle.old) }
{
    let Some(mut host) = handle.take(alloc) else {
        return NO_HOST;
    };
    host.set_any_ip(on != 0);
    handle.put(host);
    OK
}

/// Writes whether unicast addresses count as own that are routed to an own address.
#[unsafe(no_mangle)]
pub extern "C" fn iface_any_ip(handle: &mut Iface, alloc: Global, on: &mut u8) -> u32
    ensures done { Did result
        (λ old new. Shows (λ host. flag_of (any_ip_of host)) on.new old new) handle.old handle.new }
    ensures code { result ≡ code_by (λ _. None) (host_in handle.old) }
    ensures kept { result ≢ 0 → on.new ≡ on.old }
{
    let Some(host) = handle.take(alloc) else {
        return NO_HOST;
    };
    *on = flag(host.any_ip());
    handle.put(host);
    OK
}

/// Sets how long fragments of a packet wait for the others.
#[unsafe(no_mangle)]
pub extern "C" fn iface_set_reassembly_timeout(
    handle: &mut Iface,
    alloc: Global,
    micros: u64,
) -> u32
    ensures done { Did result (λ old new. Follows (SetsTimeout micros) old new) handle.old handle.new }
    ensures code { result ≡ code_by (λ _. timeout_refusal micros) (host_in handle.old) }
{
    let Some(mut host) = handle.take(alloc) else {
        return NO_HOST;
    };
    let done = host.set_reassembly_timeout(Duration::from_micros(micros));
    handle.put(host);
    match done {
        Ok(()) => OK,
        Err(refusal) => code(refusal),
    }
}

/// Writes how long fragments of a packet wait for the others.
#[unsafe(no_mangle)]
pub extern "C" fn iface_reassembly_timeout(
    handle: &mut Iface,
    alloc: Global,
    micros: &mut u64,
) -> u32
    ensures done { Did result
        (λ old new. Shows (λ host. timeout_of host) micros.new old new) handle.old handle.new }
    ensures code { result ≡ code_by (λ _. None) (host_in handle.old) }
    ensures kept { result ≢ 0 → micros.new ≡ micros.old }
{
    let Some(host) = handle.take(alloc) else {
        return NO_HOST;
    };
    *micros = host.reassembly_timeout().total_micros();
    handle.put(host);
    OK
}

/// Gives a host another address on Ethernet.
#[unsafe(no_mangle)]
pub extern "C" fn iface_set_hardware_address(
    handle: &mut Iface,
    alloc: Global,
    address: &[u8; 6],
) -> u32
    ensures done { Ruled result
        (λ old new. Follows (SetsHardware (ethernet_of address.now)) old new) handle.old handle.new }
    ensures code { result ≡ code_by (λ host. hardware_refusal host (ethernet_of address.now)) (host_in handle.old) }
{
    let Some(mut host) = handle.take(alloc) else {
        return NO_HOST;
    };
    let done = host.set_hardware_address(EthernetAddress(*address));
    handle.put(host);
    match done {
        Ok(()) => OK,
        Err(refusal) => code(refusal),
    }
}

/// Writes the address of a host on Ethernet.
#[unsafe(no_mangle)]
pub extern "C" fn iface_hardware_address(
    handle: &mut Iface,
    alloc: Global,
    address: &mut [u8; 6],
) -> u32
    ensures done { Did result
        (λ old new. ShowsIfAny (λ host. hardware_octets host) address.new old new) handle.old handle.new }
    ensures code { result ≡ code_by (λ host. lack hardware_octets host) (host_in handle.old) }
    ensures kept { result ≢ 0 → address.new ≡ address.old }
{
    let Some(host) = handle.take(alloc) else {
        return NO_HOST;
    };
    let found = host.hardware_address();
    handle.put(host);
    match found {
        Some(hardware) => {
            let octets = hardware.0;
            *address = octets;
            OK
        }
        None => NOT_THERE,
    }
}

/// Writes the moment of the last change by what routers advertise.
#[unsafe(no_mangle)]
pub extern "C" fn iface_slaac_updated_at(handle: &mut Iface, alloc: Global, at: &mut i64) -> u32
    ensures done { Did result
        (λ old new. Shows (λ host. slaac_updated_at host) at.new old new) handle.old handle.new }
    ensures code { result ≡ code_by (λ _. None) (host_in handle.old) }
    ensures kept { result ≢ 0 → at.new ≡ at.old }
{
    let Some(host) = handle.take(alloc) else {
        return NO_HOST;
    };
    *at = host.slaac_updated_at().total_micros();
    handle.put(host);
    OK
}

/// Writes whether a host is in a group.
#[unsafe(no_mangle)]
pub extern "C" fn iface_has_group(
    handle: &mut Iface,
    alloc: Global,
    group: &IfaceAddress,
    is: &mut u8,
) -> u32
    ensures done { Did result (λ old new. IsSomeAnd (address_in group.now)
        (λ a. Shows (λ host. flag_of (is_in host a)) is.new old new)) handle.old handle.new }
    ensures code { result ≡ code_with (λ _ _. None) (address_in group.now) (host_in handle.old) }
    ensures kept { result ≢ 0 → is.new ≡ is.old }
{
    let Some(group) = group.ip() else {
        return BAD_ARGUMENT;
    };
    let Some(host) = handle.take(alloc) else {
        return NO_HOST;
    };
    *is = flag(host.has_group(group));
    handle.put(host);
    OK
}

/// 1 if something holds, else 0.
pub(crate) fn flag(holds: bool) -> u8
    ensures { result ≡ flag_of holds }
{
    if holds { 1 } else { 0 }
}
