//! The host, and how it is made.
ghost use Rattle.std.specs.Prelude.{◌≡◌, ◌<◌, ◌≤◌, IfOk, IfErr, OnOk, OnErr, None, Some, replicate, true};
ghost use Rattle.net_base.specs.Time.{IsMoment};
ghost use Rattle.std.specs.Result.{IsErrOf, result_err};
ghost use Rattle.net_base.specs.Checksum.{ip_mtu_of};
ghost use Rattle.ip_address.specs.Hardware.{IsOf, is_unicast};
ghost use Rattle.host_machine.specs.Context.Host as machine;
ghost use Rattle.iface_tables.specs.Neighbor.{room_over};
ghost use Rattle.fragmentation.specs.Slots.{slot_room_over};
ghost use Rattle.interface.specs.Stands.{Becomes};
ghost use Rattle.iface_host.specs.Stands.{IsFirst, capabilities_of, free_storage, nodes_for, route_room, with_room};
ghost use Rattle.iface_host.specs.TableRefusals.{settings_refusal, timeout_refusal};

use crate::claims::Watched;
use crate::counters::FrameCounts;
use crate::frames::moment;
use crate::guarded::watch_for;
use crate::last_errors::LastErrors;
use crate::names::Names;
use crate::outbox::Outbox;
use crate::refusal::Refusal;
use egress_schedule::Schedule;
use guard::Watch;
use interface::{Capacities, Config, Interface};
use ip_wire::HardwareAddress;
use net_base::phy::{ChecksumCapabilities, DeviceCapabilities};
use net_base::time::{Duration, Instant};
use socket_set::{SocketSet, SocketStorage, SocketStorageOf};
use std::alloc::{AllocError, Global};

/// The longest frame, in octets.
pub const FRAME_LEN: usize = 1514;

/// How many neighbours most hosts have room for.
pub const NEIGHBORS: usize = 128;

/// How many routes most hosts have room for.
pub const ROUTES: usize = 8;

/// How many datagrams most hosts reassemble at once.
pub const FRAGMENTED: usize = 16;

/// For how many addresses, groups, prefixes and routers most hosts have room.
pub const CAPACITIES: Capacities = Capacities {
    addresses: 8,
    groups: 16,
    prefixes: 4,
    routers: 4,
};

/// How a host is to be made.
#[derive(Clone, Copy, Debug, PartialEq, Eq)]
pub struct Settings {
    /// The seed of its random words, which need not be secret.
    pub random_seed: u64,
    /// Its address on its link, whose frames have a header of Ethernet exactly if it is one of Ethernet.
    pub hardware_addr: HardwareAddress,
    /// The longest frame of the link in octets, the link's header included: at least 590 over Ethernet and 576
    /// without hardware addresses, at most 1,514.
    pub frame_len: usize,
    /// Whether it takes IPv6 addresses from routers that advertise their prefixes.
    pub slaac: bool,
    /// How many sockets may be open at once.
    pub sockets: usize,
    /// How many neighbours it knows at once, of both families together: [`NEIGHBORS`] for most. 0 is four, for which no
    /// memory is taken.
    pub neighbors: usize,
    /// For how many addresses, groups, prefixes and routers it has room.
    pub capacities: Capacities,
    /// How many routes it has room for, 32 at most: [`ROUTES`] for most. 0 is four, for which no memory is taken.
    pub routes: usize,
    /// How many datagrams it reassembles at once: [`FRAGMENTED`] for most. 0 is two, for which no memory is taken.
    pub fragmented: usize,
    /// How many frames the link takes one after the other, if that is bounded: the window in a segment of TCP is at most
    /// what so many carry.
    pub burst: Option<usize>,
    /// How long a packet waits for its neighbour before it is given up; no time is for ever.
    pub patience: Duration,
    /// How long fragments of a packet wait for the others: some time, at most a day.
    pub reassembly_timeout: Duration,
    /// The moment at which it begins, in microseconds: from 0 to 2^62.
    pub start: i64,
    /// Which checksums it verifies and computes; its link does the others.
    pub checksum: ChecksumCapabilities,
    /// What is in front of it on Ethernet. On a link without hardware addresses it is off.
    pub watch: Watch,
}

/// A host: an interface, its sockets, the numbers that name these, and the frames that wait to be handed over. Besides,
/// whether its sockets may have changed since that was asked, how many frames it took and handed over, its guard, the
/// last errors about its packets, and the address that it watches. The interface has a box of its own, since it is large.
#[derive(Drop)]
pub struct IfaceHost {
    pub(crate) alloc: Global,
    pub(crate) ip_mtu: usize,
    pub(crate) interface: Box<Interface>,
    pub(crate) sockets: SocketSet<'static>,
    pub(crate) names: Names,
    pub(crate) outbox: Outbox,
    pub(crate) schedule: Schedule,
    pub(crate) changed: bool,
    pub(crate) frames: FrameCounts,
    pub(crate) watch: Watch,
    pub(crate) errors: LastErrors,
    pub(crate) watched: Option<Watched>,
}

impl IfaceHost {
    /// A host with no address, no route and no socket, at the moment at which it begins. The first error that applies is
    /// returned: `NotUnicast` if its address on Ethernet isn't unicast; `BadMtu` if its longest packet has less than 576
    /// octets, or its longest frame more than 1,514; `BadTimeout` if fragments are to wait no time, or longer than a day;
    /// `BadMoment` if it would begin below 0 or above 2^62; `NoMemory` if memory for its interface, its tables or the places
    /// of its sockets is refused.
    pub fn new(alloc: Global, settings: &Settings) -> Result<Box<IfaceHost>, Refusal>
        ensures made { IfOk result (λ host. IsFirst settings.now host.value) }
        ensures why { (e : Refusal) → settings_refusal settings.now ≡ Some e → IsErrOf result e }
        ensures memory { settings_refusal settings.now ≡ None → IfErr result (λ e. e ≡ Refusal.NoMemory) }
    {
        let capabilities = capabilities(settings);
        let start = check_settings(settings, capabilities.ip_mtu())?;
        let outbox = Outbox::new(alloc, capabilities);
        let config = Config {
            random_seed: settings.random_seed,
            hardware_addr: settings.hardware_addr,
            slaac: settings.slaac,
        };
        let Ok(mut interface) = Box::new(alloc, Interface::over(config, capabilities, start)) else {
            return Err(Refusal::NoMemory);
        };
        // By the settings this can't fail.
        let Ok(()) = let_fragments_wait(&mut interface, settings.reassembly_timeout) else {
            return Err(Refusal::NoMemory);
        };
        let Ok(()) = make_room(&mut interface, alloc, settings) else {
            return Err(Refusal::NoMemory);
        };
        let places = free_storages(alloc, settings.sockets)?;
        let names = Names::new(alloc, settings.sockets)?;
        let schedule = Schedule::new(alloc, settings.sockets, settings.patience)?;
        let host = Box::new(
            alloc,
            IfaceHost {
                alloc,
                ip_mtu: capabilities.ip_mtu(),
                interface,
                sockets: SocketSet::fixed(places),
                names,
                outbox,
                schedule,
                changed: false,
                frames: FrameCounts::NONE,
                watch: watch_for(settings),
                errors: LastErrors::new(),
                watched: None,
            },
        );
        match host {
            Ok(host) => Ok(host),
            Err(_) => Err(Refusal::NoMemory),
        }
    }
}

/// The moment at which a host begins, if one is made by these settings. `NotUnicast`, `BadMtu`, `BadTimeout` and
/// `BadMoment` as [`IfaceHost::new`] says.
fn check_settings(settings: &Settings, ip_mtu: usize) -> Result<Instant, Refusal>
    requires { ip_mtu ≡ ip_mtu_of (capabilities_of settings.now) }
    ensures why { result_err result ≡ settings_refusal settings.now }
    ensures start { IfOk result (λ t. (t ≡ settings.now.start) × IsMoment t) }
    ensures fits { OnOk result
        ((is_unicast settings.now.hardware_addr ≡ true) × (576 ≤ ip_mtu) × (settings.now.frame_len ≤ FRAME_LEN)) }
{
    if !settings.hardware_addr.is_unicast() {
        return Err(Refusal::NotUnicast);
    }
    if ip_mtu < 576 || settings.frame_len > FRAME_LEN {
        return Err(Refusal::BadMtu);
    }
    let timeout = settings.reassembly_timeout.total_micros();
    if timeout == 0 || timeout > 86_400_000_000 {
        return Err(Refusal::BadTimeout);
    }
    moment(settings.start)
}

/// What the link of a host can do.
fn capabilities(settings: &Settings) -> DeviceCapabilities
    ensures value { result ≡ capabilities_of settings.now }
    ensures own { IsOf result.medium settings.now.hardware_addr }
{
    DeviceCapabilities {
        medium: settings.hardware_addr.medium(),
        max_transmission_unit: settings.frame_len,
        max_burst_size: settings.burst,
        checksum: settings.checksum,
    }
}

/// Lets fragments of a packet wait so long for the others. `BadTimeout` if that is no time, or longer than a day.
pub(crate) fn let_fragments_wait(
    interface: &mut Interface,
    timeout: Duration,
) -> Result<(), Refusal>
    ensures within { OnOk result ((0 < timeout) × (timeout ≤ 86_400_000_000)) }
    ensures why { result_err result ≡ timeout_refusal timeout }
    ensures waits { OnOk result (Becomes interface.old interface.new (λ H. record H { reassembly_timeout = timeout })) }
    ensures refused { OnErr result (interface.new ≡ interface.old) }
{
    interface.stands_for_a_host();
    let micros = timeout.total_micros();
    if micros == 0 || micros > 86_400_000_000 {
        return Err(Refusal::BadTimeout);
    }
    match interface.set_reassembly_timeout(timeout) {
        Ok(()) => Ok(()),
        Err(_) => Err(Refusal::BadTimeout),
    }
}

/// Makes room in the tables of an interface, in which nothing is yet, as the settings say. It fails if memory for them is
/// refused.
fn make_room(
    interface: &mut Interface,
    alloc: Global,
    settings: &Settings,
) -> Result<(), AllocError>
    ensures { OnOk result (Becomes interface.old interface.new (with_room settings.now)) }
{
    interface.set_capacities(settings.capacities);
    make_neighbor_room(interface, alloc, settings.neighbors)?;
    make_route_room(interface, alloc, settings.routes)?;
    make_fragment_room(interface, alloc, settings.fragmented)?;
    Ok(())
}

/// Makes room for so many neighbours, none of which is known yet; for four if it is none.
fn make_neighbor_room(
    interface: &mut Interface,
    alloc: Global,
    neighbors: usize,
) -> Result<(), AllocError>
    ensures { OnOk result
        (Becomes interface.old interface.new (λ H. machine.with_neighbor_room H (room_over neighbors))) }
{
    let storage = Vec::with_capacity(alloc, neighbors)?;
    let hints = Vec::with_capacity(alloc, neighbors)?;
    interface.set_neighbor_storage(storage, hints);
    Ok(())
}

/// Makes room for so many routes, at most 32, none of which is there yet; for four if it is none.
fn make_route_room(
    interface: &mut Interface,
    alloc: Global,
    routes: usize,
) -> Result<(), AllocError>
    ensures { OnOk result (Becomes interface.old interface.new (λ H. machine.with_route_room H (route_room routes))) }
{
    let count = routes.min(32);
    let storage = Vec::with_capacity(alloc, count)?;
    let nodes = Vec::with_capacity(alloc, node_count(count))?;
    interface.set_route_storage(storage, nodes);
    Ok(())
}

/// How many nodes the trie of so many routes takes: none for none.
fn node_count(routes: usize) -> usize
    requires { routes ≤ 32 }
    ensures { result ≡ nodes_for routes }
{
    if routes == 0 { 0 } else { 128 * routes + 2 }
}

/// Makes room for so many datagrams in reassembly, none of which is there yet; for two if it is none.
fn make_fragment_room(
    interface: &mut Interface,
    alloc: Global,
    fragmented: usize,
) -> Result<(), AllocError>
    ensures { OnOk result
        (Becomes interface.old interface.new (λ H. machine.with_slot_room H (slot_room_over fragmented))) }
{
    let keys = Vec::with_capacity(alloc, fragmented)?;
    let slots = Vec::with_capacity(alloc, fragmented)?;
    interface.set_fragment_storage(keys, slots);
    Ok(())
}

/// So many free places.
fn free_storages(alloc: Global, count: usize) -> Result<Vec<SocketStorage<'static>>, AllocError>
    ensures { IfOk result (λ places. places.items ≡ replicate count free_storage) }
{
    let mut places = Vec::with_capacity(alloc, count)?;
    for _ in 0..count {
        places.push(SocketStorageOf::default())?;
    }
    Ok(places)
}
