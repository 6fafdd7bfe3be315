//! A client of DHCP, which gives a host its address.
ghost use Rattle.std.specs.Prelude.{◌≡◌, ◌≢◌, None, drop, take};
ghost use Rattle.std.specs.Prelude.{length as len};
ghost use Rattle.iface_dhcp.specs.Dhcp as dhcp;
ghost use Rattle.iface_c.specs.Dhcp as spec;
ghost use Rattle.iface_c.specs.DhcpHandle.{dhcp_in};
ghost use Rattle.iface_c.specs.Handle.{host_in};
ghost use Rattle.iface_c.specs.Status.{IsDueOrMemory};
ghost use Rattle.iface_dhcp.specs.Apply.{Applies, apply_refusal};
ghost use Rattle.iface_c.specs.Properties.{holds_in};
ghost use Rattle.iface_dhcp.specs.Poll.{poll_refusal};
ghost use Rattle.iface_dhcp.specs.Probe.{Releases, release_refusal, with_probes};

use crate::addresses::IfaceAddress;
use crate::dhcp_handle::IfaceDhcp;
use crate::handle::Iface;
use crate::status::{BAD_ARGUMENT, EMPTY, HAS_CLIENT, NO_CLIENT, NO_HOST, NO_ROOM, OK, code};
use dhcp_client::{DhcpEvent, DhcpLease};
use iface_dhcp::apply::prefix_len_of;
use iface_dhcp::{Dhcp, DhcpSettings};
use ip_wire::{IpAddress, Ipv4Address};
use std::alloc::Global;

/// Nothing has become of the lease.
pub const NOTHING: u32 = 0;

/// There is a lease now: a new one, or one that was renewed.
pub const CONFIGURED: u32 = 1;

/// There is no lease any more.
pub const DECONFIGURED: u32 = 2;

/// What a server leased.
#[repr(C)]
#[derive(Drop)]
pub struct IfaceLease {
    /// The address.
    pub address: IfaceAddress,
    /// The router, or version 0 without one.
    pub router: IfaceAddress,
    /// The server that leased it.
    pub server: IfaceAddress,
    /// Servers of names, from the first place on; version 0 in the others.
    pub dns_servers: [IfaceAddress; 3],
    /// How many bits of the address are the network's.
    pub prefix_len: u8,
    /// The longest packet of the network in octets, 0 if the server didn't tell it.
    pub mtu: u16,
    /// When it ends, in microseconds; the last number for never.
    pub expires_at: i64,
}

impl IfaceLease {
    /// A lease as C reads it.
    fn of(lease: &DhcpLease) -> IfaceLease
        ensures { result ≡ spec.lease_for_c lease.now }
    {
        let [first, second, third] = lease.dns_servers;
        IfaceLease {
            address: IfaceAddress::of(&IpAddress::Ipv4(lease.address)),
            router: address_of(&lease.router),
            server: IfaceAddress::of(&IpAddress::Ipv4(lease.server)),
            dns_servers: [address_of(&first), address_of(&second), address_of(&third)],
            prefix_len: prefix_len_of(&lease.subnet_mask),
            mtu: lease.mtu.unwrap_or(0),
            expires_at: end_of(lease),
        }
    }
}

/// An address as C reads it, if there is one.
fn address_of(address: &Option<Ipv4Address>) -> IfaceAddress
    ensures { result ≡ spec.address_for_c_if address.now }
{
    match address {
        Some(address) => IfaceAddress::of(&IpAddress::Ipv4(*address)),
        None => IfaceAddress {
            version: 0,
            octets: [0; 16],
        },
    }
}

/// When a lease ends; the last number for never.
fn end_of(lease: &DhcpLease) -> i64
    ensures { result ≡ spec.end_for_c lease.now }
{
    match lease.times {
        Some(times) => times.expires_at.min(0x7fff_ffff_ffff_ffff) as i64,
        None => i64::MAX,
    }
}

/// The number of what has become of a lease.
fn number_of(event: &Option<DhcpEvent>) -> u32
    ensures { result ≡ spec.number_of event.now }
{
    match event {
        None => NOTHING,
        Some(DhcpEvent::Configured(_)) => CONFIGURED,
        Some(DhcpEvent::Deconfigured) => DECONFIGURED,
    }
}

/// The settings of a client: a seed, and the address that it had before, unless its version is 0. `None` if the version is neither
/// 0 nor 4.
fn settings_of(seed: u64, known: &IfaceAddress) -> Option<DhcpSettings>
    ensures { result ≡ spec.settings_in seed known.now }
{
    if known.version == 0 {
        return Some(DhcpSettings {
            random_seed: seed,
            known: None,
        });
    }
    if known.version != 4 {
        return None;
    }
    let [a, b, c, d, ..] = known.octets;
    Some(DhcpSettings {
        random_seed: seed,
        known: Some(Ipv4Address::new(a, b, c, d)),
    })
}

/// Makes a client for a host, which its handle owns from then on.
#[unsafe(no_mangle)]
pub extern "C" fn iface_dhcp_new(
    client: &mut IfaceDhcp,
    handle: &mut Iface,
    alloc: Global,
    seed: u64,
    known: &IfaceAddress,
) -> u32
    ensures made { spec.Made result seed known.now client.old client.new handle.old handle.new }
    ensures code { IsDueOrMemory (spec.code_for_new (spec.settings_in seed known.now) (dhcp_in client.old)
        (host_in handle.old)) result }
{
    if client.is_made() {
        return HAS_CLIENT;
    }
    let Some(settings) = settings_of(seed, known) else {
        return BAD_ARGUMENT;
    };
    let Some(mut host) = handle.take(alloc) else {
        return NO_HOST;
    };
    let done = Dhcp::new(alloc, &mut host, &settings);
    handle.put(host);
    match done {
        Ok(made) => {
            client.put(made);
            OK
        }
        Err(refusal) => code(refusal),
    }
}

/// Lets a client do what is due at a moment, and writes what has become of its lease.
#[unsafe(no_mangle)]
pub extern "C" fn iface_dhcp_poll(
    client: &mut IfaceDhcp,
    handle: &mut Iface,
    alloc: Global,
    now: i64,
    event: &mut u32,
) -> u32
    ensures done { spec.DidBoth result (spec.ShowsEvent now event.new) client.old client.new handle.old handle.new }
    ensures code { result ≡ spec.code_of_both (λ d host. poll_refusal now d.socket host) (dhcp_in client.old) (host_in handle.old) }
    ensures kept { result ≢ 0 → event.new ≡ event.old }
{
    let Some(mut dhcp) = client.take(alloc) else {
        return NO_CLIENT;
    };
    let Some(mut host) = handle.take(alloc) else {
        client.put(dhcp);
        return NO_HOST;
    };
    let done = dhcp.poll(&mut host, now);
    handle.put(host);
    client.put(dhcp);
    match done {
        Ok(told) => {
            *event = number_of(&told);
            OK
        }
        Err(refusal) => code(refusal),
    }
}

/// Gives a host what was leased, in place of what the client gave it before.
#[unsafe(no_mangle)]
pub extern "C" fn iface_dhcp_apply(client: &mut IfaceDhcp, handle: &mut Iface, alloc: Global) -> u32
    ensures done { spec.RuledBoth result Applies client.old client.new handle.old handle.new }
    ensures code { result ≡ spec.code_of_both apply_refusal (dhcp_in client.old) (host_in handle.old) }
{
    let Some(mut dhcp) = client.take(alloc) else {
        return NO_CLIENT;
    };
    let Some(mut host) = handle.take(alloc) else {
        client.put(dhcp);
        return NO_HOST;
    };
    let done = dhcp.apply(&mut host);
    handle.put(host);
    client.put(dhcp);
    match done {
        Ok(()) => OK,
        Err(refusal) => code(refusal),
    }
}

/// Writes when a client does something next, the last number for never.
#[unsafe(no_mangle)]
pub extern "C" fn iface_dhcp_poll_at(client: &mut IfaceDhcp, alloc: Global, at: &mut i64) -> u32
    ensures done { spec.DidOne result (λ old new. spec.ShowsPollAt at.new old new) client.old client.new }
    ensures code { result ≡ spec.code_of_one (λ _. None) (dhcp_in client.old) }
    ensures kept { result ≢ 0 → at.new ≡ at.old }
{
    let Some(dhcp) = client.take(alloc) else {
        return NO_CLIENT;
    };
    let due = dhcp.poll_at();
    client.put(dhcp);
    *at = due.unwrap_or(i64::MAX);
    OK
}

/// Writes the lease that a client has.
#[unsafe(no_mangle)]
pub extern "C" fn iface_dhcp_lease(
    client: &mut IfaceDhcp,
    alloc: Global,
    lease: &mut IfaceLease,
) -> u32
    ensures done { spec.DidOne result (λ old new. spec.ShowsLease lease.new old new) client.old client.new }
    ensures code { result ≡ spec.code_of_one spec.lease_refusal (dhcp_in client.old) }
    ensures kept { result ≢ 0 → lease.new ≡ lease.old }
{
    let Some(dhcp) = client.take(alloc) else {
        return NO_CLIENT;
    };
    let there = dhcp.lease();
    client.put(dhcp);
    match there {
        Some(there) => {
            *lease = IfaceLease::of(&there);
            OK
        }
        None => EMPTY,
    }
}

/// Writes the code for which the message that was due last is lost, 0 if it isn't.
#[unsafe(no_mangle)]
pub extern "C" fn iface_dhcp_lost(client: &mut IfaceDhcp, alloc: Global, why: &mut u32) -> u32
    ensures done { spec.DidOne result (λ old new. spec.ShowsLost why.new old new) client.old client.new }
    ensures code { result ≡ spec.code_of_one (λ _. None) (dhcp_in client.old) }
    ensures kept { result ≢ 0 → why.new ≡ why.old }
{
    let Some(dhcp) = client.take(alloc) else {
        return NO_CLIENT;
    };
    let lost = dhcp.lost();
    client.put(dhcp);
    *why = match lost {
        Some(refusal) => code(refusal),
        None => OK,
    };
    OK
}

/// Sets the codes of the options that a client asks for beside those that it needs itself.
#[unsafe(no_mangle)]
pub extern "C" fn iface_dhcp_parameters(client: &mut IfaceDhcp, alloc: Global, codes: &[u8]) -> u32
    ensures done { spec.DidOne result (dhcp.SetsParameters codes.now) client.old client.new }
    ensures code { result ≡ spec.code_of_one (λ _. dhcp.long_refusal 16 codes.now) (dhcp_in client.old) }
{
    let Some(mut dhcp) = client.take(alloc) else {
        return NO_CLIENT;
    };
    let done = dhcp.set_parameters(codes);
    client.put(dhcp);
    match done {
        Ok(()) => OK,
        Err(refusal) => code(refusal),
    }
}

/// Sets the name of a client's host.
#[unsafe(no_mangle)]
pub extern "C" fn iface_dhcp_host_name(client: &mut IfaceDhcp, alloc: Global, name: &[u8]) -> u32
    ensures done { spec.DidOne result (dhcp.SetsHostName name.now) client.old client.new }
    ensures code { result ≡ spec.code_of_one (λ _. dhcp.long_refusal 63 name.now) (dhcp_in client.old) }
{
    let Some(mut dhcp) = client.take(alloc) else {
        return NO_CLIENT;
    };
    let done = dhcp.set_host_name(name);
    client.put(dhcp);
    match done {
        Ok(()) => OK,
        Err(refusal) => code(refusal),
    }
}

/// Writes the data of an option of a client's lease, and how many octets they are.
#[unsafe(no_mangle)]
pub extern "C" fn iface_dhcp_option(
    client: &mut IfaceDhcp,
    alloc: Global,
    option: u8,
    out: &mut [u8],
    length: &mut usize,
) -> u32
    ensures done { spec.DidOne result (λ old new. spec.ShowsOption option length.new out.new old new) client.old client.new }
    ensures code { result ≡ spec.code_of_one (spec.option_refusal option (len out.old)) (dhcp_in client.old) }
    ensures kept { result ≢ 0 → (out.new ≡ out.old) × (length.new ≡ length.old) }
    ensures behind { result ≡ 0 → drop length.new out.new ≡ drop length.new out.old }
{
    let Some(dhcp) = client.take(alloc) else {
        return NO_CLIENT;
    };
    let data = dhcp.option(option);
    client.put(dhcp);
    write_data(data.as_slice(), out, length)
}

/// Writes data to the front of a buffer, and how many octets they are, unless there are none or too many.
fn write_data(data: &[u8], out: &mut [u8], length: &mut usize) -> u32
    ensures code { result ≡ spec.code_of_data (len out.old) data.now }
    ensures written { result ≡ 0 → (take length.new out.new ≡ data.now) × (length.new ≡ len data.now) }
    ensures kept { result ≢ 0 → (out.new ≡ out.old) × (length.new ≡ length.old) }
    ensures behind { result ≡ 0 → drop length.new out.new ≡ drop length.new out.old }
{
    if data.is_empty() {
        return EMPTY;
    }
    if data.len() > out.len() {
        return NO_ROOM;
    }
    let end = data.len();
    out[..end].copy_from_slice(data);
    *length = end;
    OK
}

/// Lets the address of each lease be tested before it is used, and announced, or not.
#[unsafe(no_mangle)]
pub extern "C" fn iface_dhcp_set_probing(client: &mut IfaceDhcp, alloc: Global, on: u8) -> u32
    ensures done { spec.DidOne result (λ old new. new ≡ with_probes (holds_in on) old) client.old client.new }
    ensures code { result ≡ spec.code_of_one (λ _. None) (dhcp_in client.old) }
{
    let Some(mut dhcp) = client.take(alloc) else {
        return NO_CLIENT;
    };
    dhcp.set_probes(on != 0);
    client.put(dhcp);
    OK
}

/// Writes how many leases a client has declined, up to 255.
#[unsafe(no_mangle)]
pub extern "C" fn iface_dhcp_declined(client: &mut IfaceDhcp, alloc: Global, count: &mut u8) -> u32
    ensures done { spec.DidOne result (λ old new. spec.ShowsDeclined count.new old new) client.old client.new }
    ensures code { result ≡ spec.code_of_one (λ _. None) (dhcp_in client.old) }
    ensures kept { result ≢ 0 → count.new ≡ count.old }
{
    let Some(dhcp) = client.take(alloc) else {
        return NO_CLIENT;
    };
    let declined = dhcp.client.declined;
    client.put(dhcp);
    *count = declined;
    OK
}

/// Releases the lease of a client: its server is told.
#[unsafe(no_mangle)]
pub extern "C" fn iface_dhcp_release(
    client: &mut IfaceDhcp,
    handle: &mut Iface,
    alloc: Global,
) -> u32
    ensures done { spec.DidBoth result Releases client.old client.new handle.old handle.new }
    ensures code { result ≡ spec.code_of_both (λ d _. release_refusal d) (dhcp_in client.old) (host_in handle.old) }
{
    let Some(mut dhcp) = client.take(alloc) else {
        return NO_CLIENT;
    };
    let Some(mut host) = handle.take(alloc) else {
        client.put(dhcp);
        return NO_HOST;
    };
    let done = dhcp.release(&mut host);
    handle.put(host);
    client.put(dhcp);
    match done {
        Ok(()) => OK,
        Err(refusal) => code(refusal),
    }
}

/// Lets a client give up its lease, and ask for its address again.
#[unsafe(no_mangle)]
pub extern "C" fn iface_dhcp_reset(client: &mut IfaceDhcp, alloc: Global) -> u32
    ensures done { spec.DidOne result spec.Resets client.old client.new }
    ensures code { result ≡ spec.code_of_one (λ _. None) (dhcp_in client.old) }
{
    let Some(mut dhcp) = client.take(alloc) else {
        return NO_CLIENT;
    };
    dhcp.reset();
    client.put(dhcp);
    OK
}

/// Frees a client, and closes its sockets of a host, if there is one: its handle owns none from then on.
#[unsafe(no_mangle)]
pub extern "C" fn iface_dhcp_free(client: &mut IfaceDhcp, handle: &mut Iface, alloc: Global) -> u32
    ensures freed { dhcp_in client.new ≡ None }
    ensures host { spec.Frees (dhcp_in client.old) (host_in handle.old) (host_in handle.new) }
    ensures code { result ≡ spec.code_of_one (λ _. None) (dhcp_in client.old) }
{
    let Some(mut dhcp) = client.take(alloc) else {
        return NO_CLIENT;
    };
    if let Some(mut host) = handle.take(alloc) {
        dhcp.close(&mut host);
        handle.put(host);
    }
    drop(dhcp);
    OK
}
