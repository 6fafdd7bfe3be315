//! Hosts: how they are made, given addresses and routes, and freed.
ghost use Rattle.std.specs.Prelude.{◌≡◌, ◌≢◌, None, IsSomeAnd};
ghost use Rattle.std.specs.Option.{option_and_then};
ghost use Rattle.iface_c.specs.Addresses.{address_in, cidr_in};
ghost use Rattle.iface_c.specs.Calls.{Did, Made, Ruled};
ghost use Rattle.iface_c.specs.Config.{burst_in, capacities_in, checksums_in, directions_in, hardware_in, settings_in, usual};
ghost use Rattle.iface_c.specs.Handle.{host_in};
ghost use Rattle.iface_c.specs.Hosts.{ShowsAddress};
ghost use Rattle.iface_c.specs.Status.{IsDueOrMemory, code_by, code_for_new, code_for_version, code_with};
ghost use Rattle.iface_host.specs.Calls.{AddsAddress, AddsRoute, JoinsGroup, LeavesGroup};
ghost use Rattle.iface_host.specs.Calls.{RemovesAddress, RemovesRoute, SetsDefault};
ghost use Rattle.iface_host.specs.Stands.{Follows};
ghost use Rattle.iface_host.specs.TableRefusals as refusals;

use crate::addresses::IfaceAddress;
use crate::guarding::IfaceGuard;
use crate::handle::Iface;
use crate::status::{
    BAD_ARGUMENT, BAD_VERSION, HAS_HOST, NO_HOST, NO_MEMORY, NOT_THERE, OK, VERSION, code,
};
use iface_host::{Capacities, IfaceHost, Settings};
use ip_wire::{EthernetAddress, HardwareAddress};
use net_base::phy::{Checksum, ChecksumCapabilities};
use net_base::time::Duration;
use std::alloc::Global;

/// How a host is to be made.
#[repr(C)]
#[derive(Drop)]
pub struct IfaceConfig {
    /// The seed of its random words.
    pub seed: u64,
    /// How long a packet waits for its neighbour before it is given up, in microseconds; 0 is for ever.
    pub patience: u64,
    /// How long fragments of a packet wait for the others, in microseconds.
    pub reassembly_timeout: u64,
    /// The moment at which it begins, in microseconds.
    pub start: i64,
    /// The longest frame, in octets.
    pub frame_len: u32,
    /// How many sockets may be open at once.
    pub sockets: u32,
    /// How many neighbours it knows at once; 0 is four.
    pub neighbors: u32,
    /// For how many own addresses there is room; 16 at most.
    pub addresses: u32,
    /// For how many routes there is room; 0 is four, 32 at most.
    pub routes: u32,
    /// For how many groups there is room; 16 at most.
    pub groups: u32,
    /// How many prefixes of routers are kept; 8 at most.
    pub prefixes: u32,
    /// How many routers are kept; 8 at most.
    pub routers: u32,
    /// How many datagrams in fragments are put together at once; 0 is two.
    pub fragmented: u32,
    /// How many frames the link takes one after the other, for the window in a segment of TCP; 0 sets no bound.
    pub burst: u32,
    /// Its address on Ethernet.
    pub hardware_address: [u8; 6],
    /// 0 for Ethernet, 1 for packets without a header of the link.
    pub medium: u8,
    /// Whether it takes addresses from routers: 0, or not.
    pub slaac: u8,
    /// Which checksums it verifies and computes.
    pub checksums: IfaceChecksums,
    /// The guard in front of it.
    pub guard: IfaceGuard,
}

/// In which directions a host computes checksums, by protocol: 0 verified and computed, 1 verified alone, 2 computed
/// alone, 3 neither.
#[repr(C)]
#[derive(Drop)]
pub struct IfaceChecksums {
    /// Those of IPv4's headers.
    pub ipv4: u8,
    /// Those of UDP.
    pub udp: u8,
    /// Those of TCP.
    pub tcp: u8,
    /// Those of ICMP.
    pub icmpv4: u8,
    /// Those of ICMPv6.
    pub icmpv6: u8,
}

impl IfaceChecksums {
    /// The directions, if each is 0 to 3.
    fn capabilities(&self) -> Option<ChecksumCapabilities>
        ensures { result ≡ checksums_in self.now }
    {
        Some(ChecksumCapabilities {
            ipv4: directions_of(self.ipv4)?,
            udp: directions_of(self.udp)?,
            tcp: directions_of(self.tcp)?,
            icmpv4: directions_of(self.icmpv4)?,
            icmpv6: directions_of(self.icmpv6)?,
        })
    }
}

/// The directions of a number, if it is 0 to 3.
fn directions_of(number: u8) -> Option<Checksum>
    ensures { result ≡ directions_in number }
{
    match number {
        0 => Some(Checksum::Both),
        1 => Some(Checksum::Rx),
        2 => Some(Checksum::Tx),
        3 => Some(Checksum::None),
        _ => None,
    }
}

/// The bound of a number of frames, unless it is 0.
fn burst_of(number: u32) -> Option<usize>
    ensures { result ≡ burst_in number }
{
    if number == 0 {
        None
    } else {
        Some(number as usize)
    }
}

impl IfaceConfig {
    /// The address on its link, if the medium is 0 or 1.
    fn hardware(&self) -> Option<HardwareAddress>
        ensures { result ≡ hardware_in self.now }
    {
        match self.medium {
            0 => Some(HardwareAddress::Ethernet(EthernetAddress(self.hardware_address))),
            1 => Some(HardwareAddress::Ip),
            _ => None,
        }
    }

    /// For how many addresses, groups, prefixes and routers there is room.
    fn capacities(&self) -> Capacities
        ensures { result ≡ capacities_in self.now }
    {
        Capacities {
            addresses: self.addresses as usize,
            groups: self.groups as usize,
            prefixes: self.prefixes as usize,
            routers: self.routers as usize,
        }
    }

    /// The settings, if the medium is 0 or 1, and each of the checksums 0 to 3.
    fn settings(&self) -> Option<Settings>
        ensures { result ≡ settings_in self.now }
    {
        let hardware_addr = self.hardware()?;
        let checksum = self.checksums.capabilities()?;
        Some(Settings {
            random_seed: self.seed,
            hardware_addr,
            frame_len: self.frame_len as usize,
            slaac: self.slaac != 0,
            sockets: self.sockets as usize,
            neighbors: self.neighbors as usize,
            capacities: self.capacities(),
            routes: self.routes as usize,
            fragmented: self.fragmented as usize,
            burst: burst_of(self.burst),
            patience: Duration::from_micros(self.patience),
            reassembly_timeout: Duration::from_micros(self.reassembly_timeout),
            start: self.start,
            checksum,
            watch: self.guard.watch(),
        })
    }
}

/// Writes the configuration that most programs want.
#[unsafe(no_mangle)]
pub extern "C" fn iface_config_init(config: &mut IfaceConfig)
    ensures { config.new ≡ usual }
{
    *config = IfaceConfig {
        seed: 0,
        patience: 3_000_000,
        reassembly_timeout: 10_000_000,
        start: 0,
        frame_len: 1514,
        sockets: 8,
        neighbors: 128,
        addresses: 8,
        routes: 8,
        groups: 16,
        prefixes: 4,
        routers: 4,
        fragmented: 16,
        burst: 0,
        hardware_address: [0; 6],
        medium: 0,
        slaac: 0,
        checksums: IfaceChecksums {
            ipv4: 0,
            udp: 0,
            tcp: 0,
            icmpv4: 0,
            icmpv6: 0,
        },
        guard: IfaceGuard::usual(),
    };
}

/// Makes a host for a program with a header of this version, which its handle owns from then on.
#[unsafe(no_mangle)]
pub extern "C" fn iface_new_for(
    handle: &mut Iface,
    alloc: Global,
    config: &IfaceConfig,
    version: u32,
) -> u32
    ensures made { Made result config.now handle.old handle.new }
    ensures code { IsDueOrMemory (code_for_version version
        (code_for_new refusals.settings_refusal (settings_in config.now) (host_in handle.old))) result }
{
    if version != VERSION {
        return BAD_VERSION;
    }
    if handle.is_made() {
        return HAS_HOST;
    }
    let Some(settings) = config.settings() else {
        return BAD_ARGUMENT;
    };
    match IfaceHost::new(alloc, &settings) {
        Ok(host) => {
            handle.put(host);
            OK
        }
        Err(refusal) => code(refusal),
    }
}

/// Frees a host with all that it holds: its handle owns none from then on.
#[unsafe(no_mangle)]
pub extern "C" fn iface_free(handle: &mut Iface, alloc: Global) -> u32
    ensures freed { host_in handle.new ≡ None }
    ensures code { result ≡ code_by (λ _. None) (host_in handle.old) }
{
    match handle.take(alloc) {
        Some(host) => {
            drop(host);
            OK
        }
        None => NO_HOST,
    }
}

/// Adds an own address with its network.
#[unsafe(no_mangle)]
pub extern "C" fn iface_add_address(
    handle: &mut Iface,
    alloc: Global,
    address: &IfaceAddress,
    prefix_len: u8,
) -> u32
    ensures done { Ruled result (λ old new.
        IsSomeAnd (cidr_in address.now prefix_len) (λ cidr. Follows (AddsAddress cidr) old new)) handle.old handle.new }
    ensures code { result ≡ code_with (λ cidr host. refusals.address_refusal host cidr)
        (cidr_in address.now prefix_len) (host_in handle.old) }
{
    let Some(cidr) = address.cidr(prefix_len) else {
        return BAD_ARGUMENT;
    };
    let Some(mut host) = handle.take(alloc) else {
        return NO_HOST;
    };
    let done = host.add_address(cidr);
    handle.put(host);
    match done {
        Ok(()) => OK,
        Err(refusal) => code(refusal),
    }
}

/// Takes out an own address.
#[unsafe(no_mangle)]
pub extern "C" fn iface_remove_address(
    handle: &mut Iface,
    alloc: Global,
    address: &IfaceAddress,
    prefix_len: u8,
) -> u32
    ensures done { Ruled result (λ old new. IsSomeAnd (cidr_in address.now prefix_len)
        (λ cidr. Follows (RemovesAddress cidr) old new)) handle.old handle.new }
    ensures code { result ≡ code_with (λ cidr host. refusals.removal_refusal host cidr)
        (cidr_in address.now prefix_len) (host_in handle.old) }
{
    let Some(cidr) = address.cidr(prefix_len) else {
        return BAD_ARGUMENT;
    };
    let Some(mut host) = handle.take(alloc) else {
        return NO_HOST;
    };
    let done = host.remove_address(cidr);
    handle.put(host);
    match done {
        Ok(()) => OK,
        Err(refusal) => code(refusal),
    }
}

/// Sets the default route of a family.
#[unsafe(no_mangle)]
pub extern "C" fn iface_set_default_route(
    handle: &mut Iface,
    alloc: Global,
    gateway: &IfaceAddress,
) -> u32
    ensures done { Ruled result (λ old new. IsSomeAnd (address_in gateway.now)
        (λ via. Follows (SetsDefault via) old new)) handle.old handle.new }
    ensures code { result ≡ code_with (λ via host. refusals.default_route_refusal host via)
        (address_in gateway.now) (host_in handle.old) }
{
    let Some(gateway) = gateway.ip() else {
        return BAD_ARGUMENT;
    };
    let Some(mut host) = handle.take(alloc) else {
        return NO_HOST;
    };
    let done = host.set_default_route(gateway);
    handle.put(host);
    match done {
        Ok(()) => OK,
        Err(refusal) => code(refusal),
    }
}

/// Adds a route to a network by a router.
#[unsafe(no_mangle)]
pub extern "C" fn iface_add_route(
    handle: &mut Iface,
    alloc: Global,
    network: &IfaceAddress,
    prefix_len: u8,
    router: &IfaceAddress,
) -> u32
    ensures done { Ruled result (λ old new. IsSomeAnd (cidr_in network.now prefix_len) (λ cidr.
        IsSomeAnd (address_in router.now) (λ via. Follows (AddsRoute cidr via None) old new))) handle.old handle.new }
    ensures code { result ≡ code_with (λ _ host. refusals.route_refusal host None)
        (option_and_then (λ _. address_in router.now) (cidr_in network.now prefix_len)) (host_in handle.old) }
{
    let Some(cidr) = network.cidr(prefix_len) else {
        return BAD_ARGUMENT;
    };
    let Some(router) = router.ip() else {
        return BAD_ARGUMENT;
    };
    let Some(mut host) = handle.take(alloc) else {
        return NO_HOST;
    };
    let done = host.add_route(cidr, router, None);
    handle.put(host);
    match done {
        Ok(()) => OK,
        Err(refusal) => code(refusal),
    }
}

/// Takes out a route to a network.
#[unsafe(no_mangle)]
pub extern "C" fn iface_remove_route(
    handle: &mut Iface,
    alloc: Global,
    network: &IfaceAddress,
    prefix_len: u8,
) -> u32
    ensures done { Ruled result (λ old new. IsSomeAnd (cidr_in network.now prefix_len)
        (λ cidr. Follows (RemovesRoute cidr) old new)) handle.old handle.new }
    ensures code { result ≡ code_with (λ cidr host. refusals.route_removal_refusal host cidr)
        (cidr_in network.now prefix_len) (host_in handle.old) }
{
    let Some(cidr) = network.cidr(prefix_len) else {
        return BAD_ARGUMENT;
    };
    let Some(mut host) = handle.take(alloc) else {
        return NO_HOST;
    };
    let done = host.remove_route(cidr);
    handle.put(host);
    match done {
        Ok(()) => OK,
        Err(refusal) => code(refusal),
    }
}

/// Joins a group.
#[unsafe(no_mangle)]
pub extern "C" fn iface_join_group(handle: &mut Iface, alloc: Global, group: &IfaceAddress) -> u32
    ensures done { Ruled result (λ old new. IsSomeAnd (address_in group.now)
        (λ joined. Follows (JoinsGroup joined) old new)) handle.old handle.new }
    ensures code { result ≡ code_with (λ joined host. refusals.join_refusal host joined)
        (address_in group.now) (host_in handle.old) }
{
    let Some(group) = group.ip() else {
        return BAD_ARGUMENT;
    };
    let Some(mut host) = handle.take(alloc) else {
        return NO_HOST;
    };
    let done = host.join_group(group);
    handle.put(host);
    match done {
        Ok(()) => OK,
        Err(refusal) => code(refusal),
    }
}

/// Leaves a group.
#[unsafe(no_mangle)]
pub extern "C" fn iface_leave_group(handle: &mut Iface, alloc: Global, group: &IfaceAddress) -> u32
    ensures done { Ruled result (λ old new. IsSomeAnd (address_in group.now)
        (λ left. Follows (LeavesGroup left) old new)) handle.old handle.new }
    ensures code { result ≡ code_with (λ left _. refusals.leave_refusal left)
        (address_in group.now) (host_in handle.old) }
{
    let Some(group) = group.ip() else {
        return BAD_ARGUMENT;
    };
    let Some(mut host) = handle.take(alloc) else {
        return NO_HOST;
    };
    let done = host.leave_group(group);
    handle.put(host);
    match done {
        Ok(()) => OK,
        Err(refusal) => code(refusal),
    }
}

/// Writes the own address at a place of their list.
#[unsafe(no_mangle)]
pub extern "C" fn iface_address_at(
    handle: &mut Iface,
    alloc: Global,
    place: u32,
    address: &mut IfaceAddress,
    prefix_len: &mut u8,
) -> u32
    ensures shown { Did result
        (λ old new. ShowsAddress place address.new prefix_len.new old new) handle.old handle.new }
    ensures code { result ≡ code_by (λ host. refusals.place_refusal host place) (host_in handle.old) }
    ensures kept { result ≢ 0 → (address.new ≡ address.old) × (prefix_len.new ≡ prefix_len.old) }
{
    let Some(host) = handle.take(alloc) else {
        return NO_HOST;
    };
    let found = host.address_at(place as usize);
    handle.put(host);
    match found {
        Some(cidr) => {
            *address = IfaceAddress::of(&cidr.address());
            *prefix_len = cidr.prefix_len();
            OK
        }
        None => NOT_THERE,
    }
}
