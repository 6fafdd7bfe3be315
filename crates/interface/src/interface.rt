//! An interface over a device.
ghost use Rattle.std.specs.Prelude.{◌≡◌, ◌≤◌, None, false, true, not, length, take};
ghost use Rattle.fragmentation.specs.Details.Pending.{is_nil};
ghost use Rattle.ip_address.specs.Hardware.{IsOf, is_unicast};
ghost use Rattle.host_machine.specs.Interface.Config as config;
ghost use Rattle.host_machine.specs.Interface.Config.{same_medium, hardware_refusal_of};
ghost use Rattle.host_machine.specs.Context.Host.{SocketSet, are_assignable};
ghost use Rattle.host_machine.specs.Interface.Ingress.{Takes};
ghost use Rattle.net_base.specs.Device.{Frame};
ghost use Rattle.net_base.specs.Checksum.{ip_mtu_of};
ghost use Rattle.net_base.specs.Rand.{next};
ghost use Rattle.iface_context.specs.Refines.{HostRefinesReplying};
ghost use Rattle.iface_context.specs.Refines as processed;

use crate::polling::{poll_at, poll_result};
use arrayvec::ArrayVec;
use fragmentation::{FragKey, Holder, PacketAssembler, PacketAssemblerSet};
use host_machine::{
    AddrError, AddrListError, Capacities, HardwareError, MulticastError, NewError,
    PollIngressSingleResult, PollResult, TimeoutError,
};
use iface_context::autoconfiguration::{set_ra_update, sync_slaac};
use iface_context::context::IFACE_MAX_ADDR_COUNT;
use iface_context::multicast::{join_group, leave_group, set_igmp_report, set_mld_report};
use iface_context::neighbors::{limit_neighbor, set_silence};
use iface_context::settings::{
    routes_mut, set_any_ip, set_capacities, set_hardware_addr, set_ip_addrs, set_moment,
    set_neighbor_storage, set_reassembly_timeout, set_route_storage,
};
use iface_context::{Context, settings};
use iface_receive::emit::FrameBuffer;
use iface_receive::ethernet::process_frame;
use iface_receive::fragment_key::fragment_key;
use iface_receive::igmp::igmp_egress;
use iface_receive::joins::{joins_egress, leaves_egress};
use iface_receive::mld::mld_egress;
use iface_receive::router_solicitation::ndisc_rs_egress;
use iface_receive::turns::socket_egress;
use iface_receive::{HardwareAddress, IpAddress, IpCidr, Ipv4Address, Ipv6Address, SocketContext};
use iface_send::fragments::ipv4_egress;
use iface_send::hops::has_neighbor;
use iface_send::transmit::send_frame;
use iface_tables::neighbor::{Cache, Hints, Neighbor};
use iface_tables::route::{Route, Routes};
use iface_tables::route_trie::RouteNode;
use iface_tables::{IgmpReportState, MldReportState, Slaac};
use net_base::phy::{Device, DeviceCapabilities, FRAME_BUFFER_SIZE, Medium};
use net_base::rand::Rand;
use net_base::time::{Duration, Instant};
use socket_set::SocketSet;

/// The settings an interface is created with.
#[derive(Clone, Copy, Debug, PartialEq, Eq)]
pub struct Config {
    /// The seed of the interface's random words, which need not be secret. The first word gives the first
    /// identification of a packet.
    pub random_seed: u64,
    /// The hardware address of the interface. On Ethernet it must be unicast.
    pub hardware_addr: HardwareAddress,
    /// Whether the interface takes IPv6 addresses from router advertisements (SLAAC).
    pub slaac: bool,
}

impl Config {
    /// A configuration with seed 0 and without SLAAC.
    pub const fn new(hardware_addr: HardwareAddress) -> Config
        ensures { result ≡ record { random_seed = 0; hardware_addr = hardware_addr; slaac = false } }
    {
        Config {
            random_seed: 0,
            hardware_addr,
            slaac: false,
        }
    }
}

/// A network interface over a device.
#[derive(Drop)]
pub struct Interface {
    context: Context,
    fragments: PacketAssemblerSet<FragKey>,
    transmit_buffer: FrameBuffer,
    receive_buffer: [u8; FRAME_BUFFER_SIZE],
}

impl Interface {
    ghost use Rattle.std.specs.Prelude.{◌≡◌, ◌≤◌, List, [], Option, IfOk, IfSome, IsOk, MatchResult, length, min, take, vec_capacity};
    ghost use Rattle.iface_tables.specs.Neighbor.{after_limit, room_over};
    ghost use Rattle.iface_tables.specs.Route.{route_room_over};
    ghost use Rattle.host_machine.specs.Context.Settings.{with_capacities};
    ghost use Rattle.fragmentation.specs.Details.Holders.{holder_at, released_at, taken_of};
    ghost use Rattle.fragmentation.specs.Slots.{slot_of, slot_room_over, without_slot};
    ghost use Rattle.std.specs.Option.{option_copied, option_map};
    ghost use Rattle.std.specs.Io.BufRead.{Rests};
    ghost use Rattle.interface.specs.Details.Receives.{HostRefinesReceiving};
    ghost use Rattle.net_base.specs.Time.{IsMoment};
    ghost use Rattle.host_machine.specs.Context.Host.{Storage};
    ghost use Rattle.host_machine.specs.Context.Host as host;
    ghost use Rattle.host_machine.specs.Context.Addresses as addresses;
    ghost use Rattle.ip_address.specs.AddressSelection.Ipv6 as selection;
    ghost use Rattle.host_machine.specs.Interface.Config.{refusal_of, first_host};
    ghost use Rattle.host_machine.specs.Interface.Ingress.{Ingress};
    ghost use Rattle.std.specs.Prelude.{ℤ};
    ghost use Rattle.std.specs.Borrow.{Bor};
    ghost use Rattle.socket_set.specs.SocketSet.{Sockets};
    ghost use Rattle.host_machine.specs.Context.Real.{IsRegular};
    ghost use Rattle.host_machine.specs.Context.Host.{Host, at, without_expired};
    ghost use Rattle.host_machine.specs.Interface.Egress.{Egress};
    ghost use Rattle.host_machine.specs.Send.Hops.{HasNeighbor};
    ghost use Rattle.host_machine.specs.Multicast.Joins.{JoinsGroup, LeavesGroup};
    ghost use Rattle.host_machine.specs.Interface.Polling.{Polls, Receives, Sends, after_maintenance};
    ghost use Rattle.host_machine.specs.Interface.Due.{Due, IsLeast, IsRest};
    ghost use Rattle.host_machine.specs.Interface.Step.{UpdatesIpAddrs, SetsHardwareAddr, SetsIpAddrs, SetsReassemblyTimeout};
    ghost use Rattle.iface_context.specs.contracts.context.Context.{the_row as context_row};
    ghost use Rattle.iface_context.specs.Stands.{Addresses, host_of};
    ghost use Rattle.std.specs.Borrow.{sem, Lends};
    ghost use Rattle.iface_tables.specs.contracts.route.Routes.{the_row as routes_row};
    ghost use Rattle.interface.specs.contracts.interface.Interface.{the_row};
    ghost use Rattle.host_machine.specs.Context.Host.{no_sockets};
    ghost use Rattle.iface_receive.specs.FragmentKey.{CarriesFragment, IsFound};
    ghost use Rattle.interface.specs.Stands.{host_with, slots_in, with_slots_in, with_context, with_routes, StandsFor, Becomes, HostRefines, IsPaced};
    ghost use Rattle.interface.specs.Details.Refines.{HostRefinesTelling};

    /// Creates an interface over a device, of which only the capabilities are read. The errors are tested in the order
    /// in which [`NewError`] lists them, each under exactly the condition stated there. The interface starts without
    /// addresses, routes and neighbours.
    pub fn new<D: Device>(
        config: Config,
        device: &mut D,
        now: Instant,
    ) -> Result<Interface, NewError>
        requires { IsMoment now }
        ensures made { MatchResult result
            (λ interface. (refusal_of (D.capable device.old) config.hardware_addr ≡ None)
            × ((sockets : SocketSet) → StandsFor interface sockets
            (first_host (D.capable device.old) config.hardware_addr config.random_seed config.slaac now sockets)))
            (λ error. refusal_of (D.capable device.old) config.hardware_addr ≡ Some error) }
        ensures device { device.new ≡ device.old }
    {
        let capabilities = device.capabilities();
        if !is_same_medium(config.hardware_addr.medium(), capabilities.medium) {
            return Err(NewError::MediumMismatch);
        }
        if !config.hardware_addr.is_unicast() {
            return Err(NewError::NotUnicast);
        }
        if capabilities.ip_mtu() < 576 {
            return Err(NewError::MtuTooSmall);
        }
        if capabilities.max_transmission_unit > FRAME_BUFFER_SIZE {
            return Err(NewError::MtuTooLarge);
        }
        Ok(Interface::over(config, capabilities, now))
    }

    /// Creates an interface over a device with these capabilities, for which [`Interface::new`] has no error. A caller with
    /// a place for it, as a box, has it made there.
    #[inline(always)]
    pub fn over(config: Config, capabilities: DeviceCapabilities, now: Instant) -> Interface
        requires moment { IsMoment now }
        requires own { IsOf capabilities.medium config.hardware_addr }
        requires unicast { is_unicast config.hardware_addr ≡ true }
        requires long { 576 ≤ ip_mtu_of capabilities }
        requires short { capabilities.max_transmission_unit ≤ 1514 }
        ensures { (sockets : SocketSet) → StandsFor result sockets
            (first_host capabilities config.hardware_addr config.random_seed config.slaac now sockets) }
    {
        let mut rand = Rand::new(config.random_seed);
        let ipv4_id = first_id(&mut rand);
        Interface {
            context: settings::new(
                capabilities,
                config.hardware_addr,
                ipv4_id,
                rand,
                config.slaac,
                now,
            ),
            fragments: PacketAssemblerSet::new(),
            transmit_buffer: FrameBuffer::new(),
            receive_buffer: [0; FRAME_BUFFER_SIZE],
        }
    }

    /// What the interface knows, for sockets that need it.
    pub fn context(&mut self) -> &mut Context
        ensures* lends { sem 𝓛 (Lends the_row context_row self.entry result (λ w. with_context self.old w)) }
        ensures value { (sockets : SocketSet) → host_of result.now sockets ≡ host_with self.old sockets }
    {
        &mut self.context
    }

    /// The hardware address on Ethernet; `None` on an IP medium.
    pub fn hardware_addr(&self) -> Option<HardwareAddress>
        ensures { (sockets : SocketSet) → result ≡ config.if_ethernet (host_with self.now sockets).hardware_addr }
    {
        match self.context.hardware_addr() {
            HardwareAddress::Ethernet(address) => Some(HardwareAddress::Ethernet(address)),
            HardwareAddress::Ip => None,
        }
    }

    /// A lemma for proofs about an interface. Every host it stands for has the hardware addresses of its medium, of six
    /// octets on Ethernet (RFC 894), and carries IP packets of 576 octets (RFC 791). Its pending fragments are parts of
    /// packets, for such an address. It does nothing.
    pub fn is_on_its_medium(&self)
        ensures { (sockets : Sockets (Bor (Unit {0}))) (H : Host) → StandsFor self.now sockets H → IsRegular H }
    {}

    /// A lemma for proofs about an interface: with any sockets there is a host that it stands for. So a clause about
    /// every host that the interface stands for holds of at least one. It does nothing.
    pub fn stands_for_a_host(&self)
        ensures { (sockets : Sockets (Bor (Unit {0}))) → (H : Host) × StandsFor self.now sockets H }
    {
        self.fragments.stands_for_slots();
    }

    /// Changes the hardware address. The errors are tested in the order in which [`HardwareError`] lists them, each
    /// under exactly the condition stated there; on an error nothing changes.
    pub fn set_hardware_addr(&mut self, hardware_addr: HardwareAddress) -> Result<(), HardwareError>
        ensures { HostRefines self.old self.new (SetsHardwareAddr hardware_addr result) }
    {
        if let Some(error) = hardware_refusal(&self.context.capabilities(), &hardware_addr) {
            return Err(error);
        }
        set_hardware_addr(&mut self.context, hardware_addr);
        Ok(())
    }

    /// The addresses assigned to the interface, each with its prefix length, in the order given.
    pub fn ip_addrs(&self) -> &[IpCidr]
        ensures value { (sockets : SocketSet) → result.now ≡ (host_with self.now sockets).ip_addrs }
        ensures fits { (sockets : SocketSet) → length result.now ≤ (host_with self.now sockets).addr_room }
    {
        self.context.ip_addrs()
    }

    /// The first IPv4 address of the interface, if any.
    pub fn ipv4_addr(&self) -> Option<Ipv4Address>
        ensures { (sockets : SocketSet) → result ≡ addresses.ipv4_addr (host_with self.now sockets).ip_addrs }
    {
        self.context.ipv4_addr()
    }

    /// The source address for an IPv4 destination: the first address of the interface whose network contains the
    /// destination, otherwise the first IPv4 address.
    pub fn get_source_address_ipv4(&self, dst_addr: &Ipv4Address) -> Option<Ipv4Address>
        ensures { (sockets : SocketSet) →
            result ≡ addresses.source_v4 (host_with self.now sockets).ip_addrs dst_addr.now }
    {
        self.context.get_source_address_ipv4(dst_addr)
    }

    /// The first IPv6 address of the interface, if any.
    pub fn ipv6_addr(&self) -> Option<Ipv6Address>
        ensures { (sockets : SocketSet) → result ≡ selection.ipv6_addr (host_with self.now sockets).ip_addrs }
    {
        self.context.ipv6_addr()
    }

    /// The source address for an IPv6 destination: ::1 for the interface itself, otherwise the first of the best
    /// addresses of the interface. Of two addresses, the better one equals the destination; then has the smallest scope
    /// that reaches the destination's; then shares more leading bits with the destination, at most its prefix length
    /// (RFC 6724 5, rules 1, 2 and 8). For a link-local destination only link-local addresses are candidates. Without a
    /// candidate it is the first IPv6 address of the interface, and ::1 if there is none.
    pub fn get_source_address_ipv6(&self, dst_addr: &Ipv6Address) -> Ipv6Address
        ensures { (sockets : SocketSet) →
            result ≡ selection.source_v6 (host_with self.now sockets).ip_addrs dst_addr.now }
    {
        self.context.get_source_address_ipv6(dst_addr)
    }

    /// Whether an address is one of the interface's own: assigned to it or, with AnyIP ([`Interface::set_any_ip`]),
    /// routed to it.
    pub fn has_ip_addr(&self, address: &IpAddress) -> bool
        ensures { (sockets : SocketSet) → result ≡ host.has_ip_addr (host_with self.now sockets) address.now }
    {
        self.context.has_ip_addr(address)
    }

    /// The source address for a destination: [`Interface::get_source_address_ipv4`] or
    /// [`Interface::get_source_address_ipv6`], by its family.
    pub fn get_source_address(&self, dst_addr: &IpAddress) -> Option<IpAddress>
        ensures { (sockets : SocketSet) →
            result ≡ addresses.source_for (host_with self.now sockets).ip_addrs dst_addr.now }
    {
        self.context.get_source_address(dst_addr)
    }

    /// Whether the interface is a member of a multicast group. It is always a member of all-hosts (224.0.0.1, RFC
    /// 1112), of all-nodes (ff02::1, RFC 4291 2.8), and of the solicited-node groups of its addresses other than ::1.
    /// Besides, it is a member of the groups that it joined and hasn't left since.
    pub fn has_multicast_group(&self, address: &IpAddress) -> bool
        ensures { (sockets : SocketSet) →
            result ≡ addresses.has_multicast_group (host_with self.now sockets) address.now }
    {
        self.context.has_multicast_group(address)
    }

    /// Joins a multicast group. Packets to it are accepted from now on. The next call that sends reports the join to
    /// routers (RFC 2236 3, RFC 3810 6.1), unless they count the interface as a member already. Fails with
    /// `Unaddressable` exactly if the address is not multicast. Otherwise fails with `GroupTableFull` exactly if the
    /// interface is not in the group and eight other groups are in the table; groups whose leave is not reported yet
    /// count. On an error nothing changes.
    pub fn join_multicast_group(&mut self, group: IpAddress) -> Result<(), MulticastError>
        ensures { HostRefines self.old self.new (JoinsGroup group result) }
    {
        if !group.is_multicast() {
            return Err(MulticastError::Unaddressable);
        }
        match join_group(&mut self.context, group) {
            Ok(()) => Ok(()),
            Err(_) => Err(MulticastError::GroupTableFull),
        }
    }

    /// Leaves a multicast group. Packets to it are no longer accepted. The next call that sends reports the leave to
    /// routers, if the join was reported. Nothing changes if the interface isn't in the group. Fails with
    /// `Unaddressable` exactly if the address is not multicast; then nothing changes.
    pub fn leave_multicast_group(&mut self, group: IpAddress) -> Result<(), MulticastError>
        ensures { HostRefines self.old self.new (LeavesGroup group result) }
    {
        if !group.is_multicast() {
            return Err(MulticastError::Unaddressable);
        }
        leave_group(&mut self.context, &group);
        Ok(())
    }

    /// Whether the interface accepts addresses that are routed to it as its own (AnyIP).
    pub fn any_ip(&self) -> bool
        ensures { (sockets : SocketSet) → result ≡ (host_with self.now sockets).any_ip }
    {
        self.context.any_ip()
    }

    /// Turns AnyIP on or off. With AnyIP the interface also counts a unicast address as its own if the gateway of the
    /// best route to it (longest prefix, not expired) is an address assigned to the interface. To serve all addresses
    /// of a network, add a route to it via an assigned address.
    pub fn set_any_ip(&mut self, any_ip: bool)
        ensures { Becomes self.old self.new (λ H. record H { any_ip = any_ip }) }
    {
        set_any_ip(&mut self.context, any_ip);
    }

    /// When the addresses and routes were last synchronized with router advertisements; [`Instant::ZERO`] before the
    /// first time.
    pub fn slaac_updated_at(&self) -> Instant
        ensures { (sockets : SocketSet) → result ≡ (host_with self.now sockets).slaac_updated_at }
    {
        self.context.slaac_updated_at()
    }

    /// Whether fragments of a packet are waiting to be sent. The next packet that needs fragmentation replaces them.
    pub fn has_pending_fragment(&self) -> bool
        ensures { (sockets : SocketSet) → result ≡ not (is_nil (host_with self.now sockets).left) }
    {
        self.context.has_pending_fragment()
    }

    /// The reassembly timeout of slots that are taken from now on; 60 s by default (RFC 1122 3.3.2).
    pub fn reassembly_timeout(&self) -> Duration
        ensures { (sockets : SocketSet) → result ≡ (host_with self.now sockets).reassembly_timeout }
    {
        self.context.reassembly_timeout()
    }

    /// Sets the reassembly timeout of slots that are taken from now on. A slot in use keeps its expiry. Fails with
    /// `TimeoutTooLong` exactly if the timeout is longer than a day (86,400 s); then nothing changes.
    pub fn set_reassembly_timeout(&mut self, timeout: Duration) -> Result<(), TimeoutError>
        ensures { HostRefines self.old self.new (SetsReassemblyTimeout timeout result) }
    {
        if timeout.total_micros() > 86_400_000_000 {
            return Err(TimeoutError::TimeoutTooLong);
        }
        set_reassembly_timeout(&mut self.context, timeout);
        Ok(())
    }

    /// The routes.
    pub fn routes(&self) -> &Routes
        ensures items { (sockets : SocketSet) → result.now.items ≡ (host_with self.now sockets).routes }
        ensures room { (sockets : SocketSet) → result.now.room ≡ (host_with self.now sockets).route_room }
    {
        self.context.routes()
    }

    /// The neighbours: those whose hardware addresses were learnt and not forgotten since.
    pub fn neighbors(&self) -> &Cache
        ensures { (sockets : SocketSet) → result.now ≡ (host_with self.now sockets).neighbors }
    {
        self.context.neighbors()
    }

    /// Whether the next hop to an address is a neighbour whose hardware address is known at the interface's moment, so that
    /// a packet for it waits for nobody. The next hop is the address itself in a network of the interface, and otherwise
    /// the gateway of the best route. `false` for an address that isn't unicast, and on a medium without hardware
    /// addresses.
    pub fn has_neighbor(&self, address: &IpAddress) -> bool
        ensures { (sockets : SocketSet) → HasNeighbor (host_with self.now sockets) address.now result }
    {
        has_neighbor(&self.context, address)
    }

    /// Lets a neighbour's entry expire at an instant, if it would expire later. Otherwise nothing changes. So who is in front of
    /// the interface decides which neighbours give way to others.
    pub fn limit_neighbor(&mut self, address: IpAddress, expires_at: Instant)
        ensures { Becomes self.old self.new (λ H. host.with_neighbors H (after_limit H.neighbors address expires_at)) }
    {
        limit_neighbor(&mut self.context, address, expires_at);
    }

    /// Sets the instant until which no neighbour is asked for.
    pub fn set_silence(&mut self, until: Instant)
        ensures { Becomes self.old self.new (λ H. host.with_neighbors H (record H.neighbors { silent_until = until })) }
    {
        set_silence(&mut self.context, until);
    }

    /// The answer to a query of IGMP that waits, and when it is due.
    pub fn igmp_report(&self) -> IgmpReportState
        ensures value { (sockets : SocketSet) → result ≡ (host_with self.now sockets).igmp_report }
        ensures paced { IsPaced result }
    {
        self.context.igmp_report()
    }

    /// Sets which answer to a query of IGMP waits. Its reports must be less than an hour apart.
    pub fn set_igmp_report(&mut self, report: IgmpReportState)
        requires { IsPaced report }
        ensures { Becomes self.old self.new (λ H. host.with_igmp_report H report) }
    {
        set_igmp_report(&mut self.context, report);
    }

    /// The answer to a query of MLD that waits, and when it is due.
    pub fn mld_report(&self) -> MldReportState
        ensures { (sockets : SocketSet) → result ≡ (host_with self.now sockets).mld_report }
    {
        self.context.mld_report()
    }

    /// Sets which answer to a query of MLD waits.
    pub fn set_mld_report(&mut self, report: MldReportState)
        ensures { Becomes self.old self.new (λ H. host.with_mld_report H report) }
    {
        set_mld_report(&mut self.context, report);
    }

    /// What was learnt from routers.
    pub fn slaac(&self) -> &Slaac
        ensures { (sockets : SocketSet) → result.now ≡ (host_with self.now sockets).slaac }
    {
        self.context.slaac()
    }

    /// Sets whether what was learnt from routers counts as changed since addresses and routes were synchronized.
    pub fn set_ra_update(&mut self, changed: bool)
        ensures { Becomes self.old self.new (λ H. host.with_slaac H (record H.slaac { changed = changed })) }
    {
        set_ra_update(&mut self.context, changed);
    }

    /// Forgets all neighbours. From now on there is room for as many as the storage has capacity for, or for four in the
    /// interface itself if it has none. Entries in the storage are dropped; a silence of discovery stays. Without this
    /// call there is room for four. In a full table a new neighbour replaces the one with the earliest expiry.
    ///
    /// With hints a known neighbour is found at once, among however many. There should be capacity for as many as for
    /// neighbours, 8 octets each; without any each lookup goes over all.
    pub fn set_neighbor_storage(&mut self, storage: Vec<(IpAddress, Neighbor)>, hints: Vec<Hints>)
        ensures { Becomes self.old self.new (λ H. host.with_neighbor_room H (room_over (vec_capacity storage))) }
    {
        set_neighbor_storage(&mut self.context, storage, hints);
    }

    /// From now on as many datagrams are reassembled at a time as both vectors have capacity for, in this storage. If one
    /// of them has no capacity, it goes back to the two slots in the interface itself, which serve without this call.
    /// Fragments received so far are dropped, and so is what is in the vectors.
    pub fn set_fragment_storage(
        &mut self,
        keys: Vec<Option<FragKey>>,
        slots: Vec<PacketAssembler<FragKey>>,
    )
        ensures { Becomes self.old self.new (λ H.
            host.with_slot_room H (slot_room_over (min (vec_capacity keys) (vec_capacity slots)))) }
    {
        self.fragments.set_storage(keys, slots);
    }

    /// How many datagrams are reassembled at a time.
    pub fn fragment_room(&self) -> usize
        ensures value { result ≡ length (slots_in self.now) }
        ensures stands { (sockets : SocketSet) (H : Host) → StandsFor self.now sockets H → result ≡ H.slots.room }
    {
        self.fragments.room()
    }

    /// The key of the datagram to which a frame's fragment belongs, by the interface's own tests: the frame is for the interface, and
    /// carries a packet with a right header, that may come from its source and isn't whole. `None` for any other frame.
    #[inline(always)]
    pub fn fragment_key(&self, frame: &[u8]) -> Option<FragKey>
        ensures { IsFound (λ key. CarriesFragment key (host_with self.now no_sockets) frame.now) result }
    {
        fragment_key(&self.context, frame)
    }

    /// In how many slots a datagram is reassembled.
    #[inline(always)]
    pub fn fragments_taken(&self) -> usize
        ensures taken { result ≡ taken_of (slots_in self.now) }
        ensures few { result ≤ length (slots_in self.now) }
    {
        self.fragments.taken()
    }

    /// The key of the datagram that is reassembled in the slot at an index, and when its fragments expire. `None` if the slot is free,
    /// or there is none.
    pub fn fragment_holder(&self, index: usize) -> Option<Holder<FragKey>>
        ensures value { result ≡ holder_at index (slots_in self.now) }
        ensures stands { IfSome result (λ holder. (sockets : SocketSet) (H : Host) → StandsFor self.now sockets H →
            IfSome (slot_of H.slots holder.key) (λ slot. slot.ends ≡ holder.expires_at)) }
    {
        self.fragments.holds_slots();
        self.fragments.holder(index)
    }

    /// Drops the fragments in the slot at an index, which is free then. Nothing else changes. So who is in front of the interface
    /// decides which datagram gives way to others.
    pub fn release_fragments(&mut self, index: usize)
        ensures released { IfSome (holder_at index (slots_in self.old)) (λ holder.
            Becomes self.old self.new (λ H. host.with_slots H (without_slot H.slots holder.key))) }
        ensures slots { self.new ≡ with_slots_in self.old (released_at index (slots_in self.old)) }
    {
        self.fragments.release(index);
    }

    /// Forgets all routes. From now on there is room for as many as both vectors have capacity for, and for 32 at most, or
    /// for four in the interface itself if there is none. A route takes one place of the first vector and 128 nodes of the
    /// second, and two more nodes are for the roots. What is in the vectors is dropped.
    pub fn set_route_storage(&mut self, routes: Vec<Route>, nodes: Vec<RouteNode>)
        ensures { Becomes self.old self.new (λ H.
            host.with_route_room H (route_room_over (vec_capacity routes) (vec_capacity nodes))) }
    {
        set_route_storage(&mut self.context, routes, nodes);
    }

    /// Sets for how many addresses, groups, prefixes and routers there is room, as far as there can be: for 4 to 16
    /// addresses, and for at most 16 groups, 8 prefixes and 8 routers. What the interface has stays, also if that is more:
    /// then none is added.
    pub fn set_capacities(&mut self, capacities: Capacities)
        ensures { Becomes self.old self.new (λ H. with_capacities H capacities) }
    {
        set_capacities(&mut self.context, capacities);
    }

    /// Mutable access to the routes.
    pub fn routes_mut(&mut self) -> &mut Routes
        ensures* lends { sem 𝓛 (Lends the_row routes_row self.entry result (λ w. with_routes self.old w)) }
        ensures items { (sockets : SocketSet) → result.now.items ≡ (host_with self.old sockets).routes }
        ensures room { (sockets : SocketSet) → result.now.room ≡ (host_with self.old sockets).route_room }
    {
        routes_mut(&mut self.context)
    }

    /// Replaces the addresses by what a function makes of the first four, and forgets all neighbours, as smoltcp does. On
    /// Ethernet it leaves the solicited-node groups that no longer match an address, and joins those of the new addresses while there is room
    /// (RFC 4861 7.2.1). Fails with `NotUnicast` exactly if an address of the new list is neither unicast nor
    /// unspecified; then nothing changes, and no neighbour is forgotten.
    pub fn update_ip_addrs<F>(&mut self, f: F) -> Result<(), AddrError>
    where
        F: FnOnce(ArrayVec<IpCidr, IFACE_MAX_ADDR_COUNT>) -> ArrayVec<IpCidr, IFACE_MAX_ADDR_COUNT>,
        requires { (given : Addresses) →
            ((sockets : SocketSet) → given.items ≡ take 4 (host_with self.old sockets).ip_addrs) → F.pre f given }
        ensures { (given : Addresses) × (list : Addresses) × F.post f given list
            × ((sockets : SocketSet) → given.items ≡ take 4 (host_with self.old sockets).ip_addrs)
            × HostRefines self.old self.new (UpdatesIpAddrs list.items result) }
    {
        let list = f(first_four(self.context.ip_addrs()));
        if !are_assignable(list.as_slice()) {
            return Err(AddrError::NotUnicast);
        }
        set_ip_addrs(&mut self.context, list.as_slice());
        Ok(())
    }

    /// Replaces the addresses by a list, as [`Interface::update_ip_addrs`] does, of as many as there is room for. Fails
    /// with `TooMany` if there is no room for so many, and else with `NotUnicast` if an address is neither unicast nor
    /// unspecified; then nothing changes, and no neighbour is forgotten.
    pub fn set_ip_addrs(&mut self, list: &[IpCidr]) -> Result<(), AddrListError>
        ensures set { HostRefines self.old self.new (SetsIpAddrs list.now result) }
        ensures routes { (sockets : SocketSet) →
            ((host_with self.new sockets).routes ≡ (host_with self.old sockets).routes)
            × ((host_with self.new sockets).route_room ≡ (host_with self.old sockets).route_room) }
    {
        if list.len() > self.context.addr_room() {
            return Err(AddrListError::TooMany);
        }
        if !are_assignable(list) {
            return Err(AddrListError::NotUnicast);
        }
        set_ip_addrs(&mut self.context, list);
        Ok(())
    }

    /// For how many addresses there is room; it never has more.
    pub fn addr_room(&self) -> usize
        ensures value { (sockets : SocketSet) → result ≡ (host_with self.now sockets).addr_room }
        ensures most { result ≤ 16 }
    {
        self.context.addr_room()
    }

    /// Sets the moment, receives at most one frame from the device, and sends at most one frame: the reply or, if the
    /// reply's next hop is unknown, the request for its hardware address.
    pub fn poll_ingress_single<D: Device>(
        &mut self,
        timestamp: Instant,
        device: &mut D,
        sockets: &mut SocketSet<'_>,
    ) -> PollIngressSingleResult
        requires { IsMoment timestamp }
        ensures { HostRefinesTelling D.tells device.old device.new (Ingress timestamp result)
            (StandsFor self.old sockets.old) (StandsFor self.new sockets.new) }
    {
        self.expire_slots(timestamp);
        let Some((len, _)) = device.receive(timestamp, &mut self.receive_buffer) else {
            return PollIngressSingleResult::None;
        };
        let received = &self.receive_buffer[..len];
        take_frame(
            &mut self.context,
            sockets,
            &mut self.fragments,
            received,
            &mut self.transmit_buffer,
        );
        send_frame(device, &self.transmit_buffer);
        if len == 0 {
            PollIngressSingleResult::PacketProcessed
        } else {
            PollIngressSingleResult::SocketStateChanged
        }
    }

    /// Sets the moment, processes a frame of any octets, and returns the frame to send, if any: the reply or, if the
    /// reply's next hop is unknown, the request for its hardware address. It does what
    /// [`Interface::poll_ingress_single`] does over a device that delivers just this frame, for users who own their
    /// buffers. The returned frame has at most 1,514 octets and stays in the interface until the next call that sends.
    pub fn receive_frame(
        &mut self,
        timestamp: Instant,
        frame: &[u8],
        sockets: &mut SocketSet<'_>,
    ) -> Option<&[u8]>
        requires { IsMoment timestamp }
        ensures* received { sem 𝓛 (Rests the_row self.entry (λ new. HostRefinesReceiving timestamp frame.now
            (option_map (λ f. f.now) result) (StandsFor self.old sockets.old) (StandsFor new sockets.new))) }
        ensures short { IfSome result (λ f. length f.now ≤ 1514) }
    {
        self.expire_slots(timestamp);
        take_frame(
            &mut self.context,
            sockets,
            &mut self.fragments,
            frame,
            &mut self.transmit_buffer,
        );
        if self.transmit_buffer.is_empty() {
            None
        } else {
            Some(self.transmit_buffer.as_slice())
        }
    }

    /// Sets the moment, then sends in this order:
    ///
    /// - the next fragment of a packet, if one is waiting;
    /// - the router solicitation that is due, if any;
    /// - the reports of groups joined, then those of groups left;
    /// - the next report that answers an IGMP query, then the one that answers an MLD query, if they are due;
    /// - at most one packet of each socket, in order.
    ///
    /// If the device grants no transmit token, that ends the joins, the leaves or the sockets, each list by itself. An
    /// IGMP report then stays pending, and an MLD report is dropped. Returns whether a packet of a socket was sent or
    /// dropped.
    pub fn poll_egress<D: Device>(
        &mut self,
        timestamp: Instant,
        device: &mut D,
        sockets: &mut SocketSet<'_>,
    ) -> PollResult
        requires { IsMoment timestamp }
        ensures { HostRefinesTelling D.tells device.old device.new (Egress timestamp result) (StandsFor self.old sockets.old) (StandsFor self.new sockets.new) }
    {
        set_moment(&mut self.context, timestamp);
        let buffer = &mut self.transmit_buffer;
        ipv4_egress(&mut self.context, device, buffer);
        ndisc_rs_egress(&mut self.context, device, buffer);
        joins_egress(&mut self.context, device, buffer);
        leaves_egress(&mut self.context, device, buffer);
        igmp_egress(&mut self.context, device, buffer);
        mld_egress(&mut self.context, device, buffer);
        poll_result(socket_egress(&mut self.context, device, buffer, sockets))
    }

    /// Maintains what has to be, takes frames, and sends what the sockets have to send, all at one moment:
    /// [`Interface::poll_maintenance`], then [`Interface::poll_ingress_single`] until there is no frame, then
    /// [`Interface::poll_egress`] until there is nothing to send; each of the two at most `budget` times. Returns
    /// whether a socket may have changed.
    pub fn poll<D: Device>(
        &mut self,
        timestamp: Instant,
        device: &mut D,
        sockets: &mut SocketSet<'_>,
        budget: usize,
    ) -> PollResult
        requires { IsMoment timestamp }
        ensures { HostRefinesTelling D.tells device.old device.new (Polls timestamp budget result)
            (StandsFor self.old sockets.old) (StandsFor self.new sockets.new) }
    {
        self.poll_maintenance(timestamp);
        let received = self.receive_until(timestamp, device, sockets, budget);
        let went = self.send_until(timestamp, device, sockets, budget);
        poll_result(received | went)
    }

    /// Sets the moment, and drops the fragments whose reassembly timeout has passed. If something learnt from router
    /// advertisements is new, was withdrawn or has expired, it synchronizes the addresses and routes. Such a sync is a
    /// change of addresses: all neighbours are forgotten, and solicited-node groups are left and joined (RFC 4862
    /// 5.5.3, 5.5.4, RFC 4861 6.3.4).
    pub fn poll_maintenance(&mut self, timestamp: Instant)
        requires { IsMoment timestamp }
        ensures { Becomes self.old self.new (λ H. after_maintenance (at H timestamp)) }
    {
        self.expire_slots(timestamp);
        sync_slaac(&mut self.context);
    }

    // Sets the moment, and drops the slots that have expired.
    #[inline(always)]
    fn expire_slots(&mut self, timestamp: Instant)
        requires { IsMoment timestamp }
        ensures { Becomes self.old self.new (λ H. without_expired H timestamp) }
    {
        set_moment(&mut self.context, timestamp);
        self.fragments.remove_expired(timestamp);
    }

    // Receives frames until there is none or the budget is spent. Returns whether some socket may have changed.
    fn receive_until<D: Device>(
        &mut self,
        timestamp: Instant,
        device: &mut D,
        sockets: &mut SocketSet<'_>,
        budget: usize,
    ) -> bool
        requires { IsMoment timestamp }
        ensures { HostRefinesTelling D.tells device.old device.new (Receives timestamp budget result)
            (StandsFor self.old sockets.old) (StandsFor self.new sockets.new) }
    {
        let mut changed = false;
        for _ in 0..budget {
            match self.poll_ingress_single(timestamp, device, sockets) {
                PollIngressSingleResult::None => return changed,
                PollIngressSingleResult::PacketProcessed => {}
                PollIngressSingleResult::SocketStateChanged => changed = true,
            }
        }
        changed
    }

    // Sends until there is nothing to send or the budget is spent. Returns whether a socket changed.
    fn send_until<D: Device>(
        &mut self,
        timestamp: Instant,
        device: &mut D,
        sockets: &mut SocketSet<'_>,
        budget: usize,
    ) -> bool
        requires { IsMoment timestamp }
        ensures { HostRefinesTelling D.tells device.old device.new (Sends timestamp budget result)
            (StandsFor self.old sockets.old) (StandsFor self.new sockets.new) }
    {
        let mut changed = false;
        for _ in 0..budget {
            match self.poll_egress(timestamp, device, sockets) {
                PollResult::None => return changed,
                PollResult::SocketStateChanged => changed = true,
            }
        }
        changed
    }

    /// Sets the moment, and returns the earliest instant at which there is work, if any; work due immediately has
    /// instant 0. Until then polls send nothing and change no socket, unless a frame arrives, a route expires or
    /// something is changed.
    pub fn poll_at(&mut self, timestamp: Instant, sockets: &SocketSet<'_>) -> Option<Instant>
        requires { IsMoment timestamp }
        ensures least { (H : Host) → StandsFor self.old sockets.now H → IsLeast (Due (at H timestamp)) result }
        ensures moment { (H : Host) → StandsFor self.old sockets.now H →
            StandsFor self.new sockets.now (at H timestamp) }
    {
        set_moment(&mut self.context, timestamp);
        poll_at(&self.context, sockets)
    }

    /// Sets the moment, and returns the time left until the instant of [`Interface::poll_at`]; zero if it has passed.
    pub fn poll_delay(&mut self, timestamp: Instant, sockets: &SocketSet<'_>) -> Option<Duration>
        requires { IsMoment timestamp }
        ensures rest { (H : Host) → StandsFor self.old sockets.now H →
            (end : Option ℤ) × IsLeast (Due (at H timestamp)) end × IsRest timestamp end result }
        ensures moment { (H : Host) → StandsFor self.old sockets.now H →
            StandsFor self.new sockets.now (at H timestamp) }
    {
        let end = self.poll_at(timestamp, sockets)?;
        if end <= timestamp {
            return Some(Duration::ZERO);
        }
        Some(end - timestamp)
    }
}

/// Processes a frame, and builds the frame that answers it, if any. The buffer is cleared first. An empty frame changes
/// nothing.
#[inline(always)]
fn take_frame(
    context: &mut Context,
    sockets: &mut SocketSet<'_>,
    fragments: &mut PacketAssemblerSet<FragKey>,
    frame: &[u8],
    out: &mut FrameBuffer,
)
    ensures { HostRefinesReplying out.new (λ H. Takes H (Frame frame.now))
        (processed.StandsFor context.old fragments.old sockets.old)
        (processed.StandsFor context.new fragments.new sockets.new) }
{
    out.clear();
    if !frame.is_empty() {
        process_frame(context, sockets, fragments, frame, out);
    }
}

/// Returns a copy of the first four, or of all if there are no more.
fn first_four(list: &[IpCidr]) -> ArrayVec<IpCidr, IFACE_MAX_ADDR_COUNT>
    ensures { result.items ≡ take 4 list.now }
{
    let mut copy = ArrayVec::new();
    let len = list.len().min(IFACE_MAX_ADDR_COUNT);
    let _ = copy.try_extend_from_slice(&list[..len]);
    copy
}

/// Whether an interface may have these addresses: each must be unicast or unspecified.
fn are_assignable(list: &[IpCidr]) -> bool
    ensures { result ≡ are_assignable list.now }
{
    list.iter().all(|cidr| {
        let address = cidr.address();
        address.is_unicast() || address.is_unspecified()
    })
}

/// The first identification of a packet: a random word, with 1 in place of 0.
fn first_id(rand: &mut Rand) -> u16
    ensures value { result ≡ config.first_id rand.old }
    ensures drawn { rand.new ≡ next rand.old }
{
    let word = rand.rand_u16();
    if word == 0 { 1 } else { word }
}

/// Why a hardware address is refused, if it is.
fn hardware_refusal(
    capabilities: &DeviceCapabilities,
    hardware_addr: &HardwareAddress,
) -> Option<HardwareError>
    ensures value { result ≡ hardware_refusal_of capabilities.now hardware_addr.now }
    ensures of { result ≡ None → IsOf capabilities.now.medium hardware_addr.now }
{
    match hardware_addr {
        HardwareAddress::Ethernet(address) => {
            if !is_same_medium(hardware_addr.medium(), capabilities.medium) {
                Some(HardwareError::WrongMedium)
            } else if !address.is_unicast() {
                Some(HardwareError::NotUnicast)
            } else {
                None
            }
        }
        HardwareAddress::Ip => Some(HardwareError::WrongMedium),
    }
}

/// Whether two media are the same.
fn is_same_medium(a: Medium, b: Medium) -> bool
    ensures value { result ≡ same_medium a b }
    ensures same { result ≡ true → a ≡ b }
{
    match (a, b) {
        (Medium::Ethernet, Medium::Ethernet) | (Medium::Ip, Medium::Ip) => true,
        _ => false,
    }
}
