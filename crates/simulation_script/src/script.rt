//! What a script says.

use anyhow::Result;
use arrayvec::ArrayVec;
use ip_wire::{EthernetAddress, IpAddress, IpCidr, Ipv6Cidr};
use sockets::IpEndpoint;
use std::alloc::Global;

/// The maximum number of UDP sockets of a host.
pub const MAX_PORTS: usize = 8;

/// The maximum number of addresses of a host.
pub const MAX_ADDRESSES: usize = 4;

/// The maximum number of groups that a host joins.
pub const MAX_GROUPS: usize = 8;

/// How often a host may be cut off from the link.
pub const MAX_OUTAGES: usize = 8;

/// The most hosts that have a column of their own in a chart.
pub const MAX_COLUMNS: usize = 12;

/// The link of hosts of which none is said.
pub const FIRST_LINK: usize = 1;

/// The most streams of a script: each has a port of its own.
pub const MAX_STREAMS: usize = 16_384;

/// How the link treats each copy of a frame. Chances are per mille, times in microseconds.
#[derive(Clone, Copy)]
pub struct Treatment {
    /// The chance that a copy is lost.
    pub loss: u64,
    /// The chance that a copy is delivered twice.
    pub repeat: u64,
    /// The chance that a copy is held back.
    pub reorder: u64,
    /// The longest time for which it is held back.
    pub hold: u64,
    /// The shortest delay of a copy.
    pub least: u64,
    /// The longest delay of a copy that isn't held back.
    pub most: u64,
    /// The chance that one bit of a copy is changed.
    pub change: u64,
}

impl Treatment {
    /// Nothing is lost, repeated, reordered, delayed or changed.
    pub const NONE: Treatment = Treatment {
        loss: 0,
        repeat: 0,
        reorder: 0,
        hold: 0,
        least: 0,
        most: 0,
        change: 0,
    };
}

/// How fast frames leave a host.
#[derive(Clone, Copy)]
pub struct Rate {
    /// In 1,000 bits a second.
    pub kilobits: u64,
    /// How many frames may wait behind the one that leaves.
    pub frames: u64,
}

/// For how many of something a host has room.
#[derive(Clone, Copy, Debug, PartialEq, Eq)]
pub struct Rooms {
    /// How many neighbours it knows at once, of both families together.
    pub neighbors: usize,
    /// How many datagrams it reassembles at once.
    pub fragmented: usize,
}

impl Rooms {
    /// What most hosts have, as those of the libraries for C and cargo.
    pub const USUAL: Rooms = Rooms {
        neighbors: 128,
        fragmented: 16,
    };
}

/// A time for which a host is cut off from the link: frames that are sent then neither leave it nor come to it.
#[derive(Clone, Copy, Default)]
pub struct Outage {
    /// When it begins, in microseconds.
    pub from: u64,
    /// When it has ended.
    pub until: u64,
}

/// A host.
#[derive(Drop)]
pub struct HostLine {
    /// Its name.
    pub name: String,
    /// Its Ethernet address.
    pub hardware_addr: EthernetAddress,
    /// Whether it takes addresses from routers.
    pub slaac: bool,
    /// Its addresses.
    pub addresses: ArrayVec<IpCidr, MAX_ADDRESSES>,
    /// The routers of its default routes.
    pub gateways: ArrayVec<IpAddress, 2>,
    /// The groups that it joins.
    pub groups: ArrayVec<IpAddress, MAX_GROUPS>,
    /// The ports of its UDP sockets.
    pub ports: ArrayVec<u16, MAX_PORTS>,
    /// Those of them whose sockets send back what they receive.
    pub echoes: ArrayVec<u16, MAX_PORTS>,
    /// How copies of frames to it are treated, if not as those to other hosts.
    pub treatment: Option<Treatment>,
    /// How fast frames leave it, if not as others.
    pub rate: Option<Rate>,
    /// What it has room for, if not as others.
    pub rooms: Option<Rooms>,
    /// When it is cut off.
    pub outages: ArrayVec<Outage, MAX_OUTAGES>,
    /// The number of its link, from 1.
    pub link: usize,
    /// The number of the way through a router that begins at it, if it is one of a router's hosts.
    pub way: Option<usize>,
}

impl HostLine {
    /// The address from which it connects to another one: the first whose network has that, or else the first of its
    /// family. `None` if it has none of that family.
    pub fn address_for(&self, remote: &IpAddress) -> Option<IpAddress> {
        let mut found = None;
        for own in self.addresses.as_slice() {
            if own.contains_addr(remote) {
                return Some(own.address());
            }
            if found.is_none() && is_same_family(own, remote) {
                found = Some(own.address());
            }
        }
        found
    }

    /// Whether it has an address, or takes some from routers, of the family of another one.
    pub fn has_family_of(&self, remote: &IpAddress) -> bool {
        let is_ipv6 = matches!(remote, IpAddress::Ipv6(_));
        self.slaac && is_ipv6 || self.address_for(remote).is_some()
    }

    /// Whether it has this address.
    pub fn has_address(&self, address: &IpAddress) -> bool {
        for own in self.addresses.as_slice() {
            if own.address() == *address {
                return true;
            }
        }
        false
    }

    /// Whether it has a link-local address of IPv6 (RFC 4291 2.5.6).
    pub fn has_link_local(&self) -> bool {
        for own in self.addresses.as_slice() {
            if let IpCidr::Ipv6(own) = own
                && own.address.is_link_local()
            {
                return true;
            }
        }
        false
    }
}

/// Whether two addresses are of one family.
fn is_same_family(own: &IpCidr, remote: &IpAddress) -> bool {
    matches!(
        (own, remote),
        (IpCidr::Ipv4(_), IpAddress::Ipv4(_)) | (IpCidr::Ipv6(_), IpAddress::Ipv6(_))
    )
}

/// How many of something are sent, and when.
#[derive(Clone, Copy)]
pub struct Pace {
    /// How many.
    pub count: u64,
    /// When the first is sent, in microseconds.
    pub start: u64,
    /// The time from one to the next.
    pub every: u64,
    /// Whether each of these times is drawn, from none to twice as long.
    pub is_random: bool,
}

/// Datagrams from a socket to an endpoint.
#[derive(Clone, Copy)]
pub struct Flow {
    /// The number of the host that sends.
    pub host: usize,
    /// The port of its socket.
    pub port: u16,
    /// Where it sends.
    pub remote: IpEndpoint,
    /// The length of each payload, in octets.
    pub size: usize,
    /// How many datagrams it sends, and when.
    pub pace: Pace,
}

/// Echo requests to an address.
#[derive(Clone, Copy)]
pub struct Ping {
    /// The number of the host that sends.
    pub host: usize,
    /// Where it sends.
    pub remote: IpAddress,
    /// How many it sends, and when.
    pub pace: Pace,
}

/// A port at which a host accepts connections of TCP.
#[derive(Clone, Copy)]
pub struct Listener {
    /// The number of the host.
    pub host: usize,
    /// The port.
    pub port: u16,
}

/// A connection of TCP by which a host sends octets.
#[derive(Clone, Copy)]
pub struct Stream {
    /// The number of the host that connects.
    pub host: usize,
    /// The address from which it does.
    pub local: IpAddress,
    /// Where it connects to.
    pub remote: IpEndpoint,
    /// How many octets it sends.
    pub octets: u64,
    /// When it connects, in microseconds.
    pub start: u64,
}

/// A host that advertises a prefix as a router (RFC 4861 6.2).
#[derive(Clone, Copy)]
pub struct Router {
    /// The number of the host.
    pub host: usize,
    /// The prefix.
    pub prefix: Ipv6Cidr,
    /// The lifetime of the router and of addresses with the prefix, in seconds.
    pub lifetime: u16,
    /// The time from one advertisement to the next, in microseconds.
    pub every: u64,
}

/// A way through a router, of which two hosts are the interfaces: packets that come to the one are sent by the other (RFC 1812 5.2).
#[derive(Clone, Copy, Debug, PartialEq, Eq)]
pub struct Way {
    /// The number of the host to which packets come.
    pub from: usize,
    /// The number of the host that sends them on.
    pub to: usize,
}

/// What a chart shows.
#[derive(Drop)]
pub struct Section {
    /// From when on, in microseconds.
    pub from: u64,
    /// Until when.
    pub until: u64,
    /// The numbers of the hosts with columns, in their order. A copy between others isn't shown. None: the first hosts
    /// have columns, and all copies are shown.
    pub hosts: ArrayVec<usize, MAX_COLUMNS>,
}

impl Section {
    /// All copies, with columns for the first hosts.
    fn whole() -> Section {
        Section {
            from: 0,
            until: u64::MAX,
            hosts: ArrayVec::new(),
        }
    }

    /// Whether it shows copies to or from a host.
    pub fn shows(&self, host: usize) -> bool {
        self.hosts.is_empty() || self.hosts.as_slice().contains(&host)
    }
}

/// An IP packet that a raw socket sends.
#[derive(Drop)]
pub struct RawPacket {
    /// The number of the host that sends it.
    pub host: usize,
    /// When, in microseconds.
    pub at: u64,
    /// The packet.
    pub octets: Vec<u8>,
}

/// A frame that no host sent.
#[derive(Drop)]
pub struct OutsideFrame {
    /// When it arrives, in microseconds. `None` if it is sent for a router.
    pub at: Option<u64>,
    /// The number of the host in whose name it is sent, if it is a router's.
    pub from: Option<usize>,
    /// The frame.
    pub octets: Vec<u8>,
}

/// A host leaves a group.
#[derive(Clone, Copy)]
pub struct Leave {
    /// The number of the host.
    pub host: usize,
    /// When, in microseconds.
    pub at: u64,
    /// The group.
    pub group: IpAddress,
}

/// A script.
#[derive(Drop)]
pub struct Script {
    /// The seed of what the link draws.
    pub seed: u64,
    /// How the link treats frames.
    pub treatment: Treatment,
    /// How fast frames leave hosts; `None`: at once.
    pub rate: Option<Rate>,
    /// What hosts have room for.
    pub rooms: Rooms,
    /// How long a packet waits for its neighbour before its host gives it up, in microseconds; `None`: for ever.
    pub patience: Option<u64>,
    /// When it ends, in microseconds.
    pub until: u64,
    /// What its chart shows.
    pub section: Section,
    /// The hosts, numbered from 0.
    pub hosts: Vec<HostLine>,
    /// The traffic.
    pub flows: Vec<Flow>,
    /// The echo requests.
    pub pings: Vec<Ping>,
    /// The ports at which hosts accept connections.
    pub listeners: Vec<Listener>,
    /// The connections by which hosts send.
    pub streams: Vec<Stream>,
    /// The routers that advertise prefixes.
    pub routers: Vec<Router>,
    /// The ways through routers, two for each.
    pub ways: Vec<Way>,
    /// The packets of raw sockets.
    pub packets: Vec<RawPacket>,
    /// The frames from outside.
    pub frames: Vec<OutsideFrame>,
    /// Groups that are left.
    pub leaves: Vec<Leave>,
}

impl Script {
    /// A script without hosts, on a link that loses nothing and takes no time. It ends at ten seconds.
    pub fn new(alloc: Global) -> Script {
        Script {
            seed: 0,
            treatment: Treatment::NONE,
            rate: None,
            rooms: Rooms::USUAL,
            patience: None,
            until: 10_000_000,
            section: Section::whole(),
            hosts: Vec::new(alloc),
            flows: Vec::new(alloc),
            pings: Vec::new(alloc),
            listeners: Vec::new(alloc),
            streams: Vec::new(alloc),
            routers: Vec::new(alloc),
            ways: Vec::new(alloc),
            packets: Vec::new(alloc),
            frames: Vec::new(alloc),
            leaves: Vec::new(alloc),
        }
    }

    /// The number of the host with this name.
    pub fn host_named(&self, name: &str) -> Option<usize> {
        self.hosts
            .iter()
            .position(|host| host.name.as_str() == name)
    }

    /// The name of a host; empty if there is none of this number.
    pub fn name_of(&self, host: usize) -> &str {
        match self.hosts.get(host) {
            Some(line) => line.name.as_str(),
            None => "",
        }
    }

    /// How copies of frames to a host are treated; without a host, to those of which nothing else is said.
    pub fn treatment_of(&self, host: Option<usize>) -> Treatment {
        match self.line(host) {
            Some(line) => line.treatment.unwrap_or(self.treatment),
            None => self.treatment,
        }
    }

    /// How fast frames leave a host; `None`: at once.
    pub fn rate_of(&self, host: usize) -> Option<Rate> {
        match self.hosts.get(host) {
            Some(line) => line.rate.or(self.rate),
            None => self.rate,
        }
    }

    /// What a host has room for; without a host, those of which nothing else is said.
    pub fn rooms_of(&self, host: Option<usize>) -> Rooms {
        match self.line(host) {
            Some(line) => line.rooms.unwrap_or(self.rooms),
            None => self.rooms,
        }
    }

    /// The link of a host; of a frame from outside, which no host sends, the first one.
    pub fn link_of(&self, host: Option<usize>) -> usize {
        match self.line(host) {
            Some(line) => line.link,
            None => FIRST_LINK,
        }
    }

    /// The number of the way through a router that begins at a host, if there is one.
    pub fn way_from(&self, host: usize) -> Option<usize> {
        self.hosts.get(host)?.way
    }

    /// The number of the host with this Ethernet address.
    pub fn host_at(&self, hardware_addr: &EthernetAddress) -> Option<usize> {
        self.hosts
            .iter()
            .position(|host| host.hardware_addr == *hardware_addr)
    }

    /// The address from which a host connects to another one, if it has one of its family.
    pub fn address_for(&self, host: usize, remote: &IpAddress) -> Option<IpAddress> {
        self.hosts.get(host)?.address_for(remote)
    }

    /// Whether a host has a UDP socket at a port.
    pub fn has_socket(&self, host: usize, port: u16) -> bool {
        match self.hosts.get(host) {
            Some(line) => line.ports.as_slice().contains(&port),
            None => false,
        }
    }

    /// Whether a host accepts connections at a port.
    pub fn listens(&self, host: usize, port: u16) -> bool {
        for listener in self.listeners.as_slice() {
            if listener.host == host && listener.port == port {
                return true;
            }
        }
        false
    }

    /// Whether a stream goes to an address of a host, and to a port at which it accepts connections.
    fn comes_to(&self, host: usize, stream: &Stream) -> bool {
        match self.hosts.get(host) {
            Some(line) => {
                line.has_address(&stream.remote.addr) && self.listens(host, stream.remote.port)
            }
            None => false,
        }
    }

    /// How many streams a host sends, or may accept.
    pub fn count_streams(&self, host: usize) -> usize {
        let mut count = 0_usize;
        for stream in self.streams.as_slice() {
            if stream.host == host || self.comes_to(host, stream) {
                count = count.saturating_add(1);
            }
        }
        count
    }

    /// Whether a host listens at a port at least, or sends a stream.
    pub fn has_connections(&self, host: usize) -> bool {
        self.has_listener(host) || self.has_stream(host)
    }

    /// Whether a host listens at a port at least.
    fn has_listener(&self, host: usize) -> bool {
        for listener in self.listeners.as_slice() {
            if listener.host == host {
                return true;
            }
        }
        false
    }

    /// Whether a host sends a stream.
    fn has_stream(&self, host: usize) -> bool {
        for stream in self.streams.as_slice() {
            if stream.host == host {
                return true;
            }
        }
        false
    }

    /// Whether a host is cut off from the link at a time.
    pub fn is_cut_off(&self, host: usize, time: u64) -> bool {
        match self.hosts.get(host) {
            Some(line) => is_within(line.outages.as_slice(), time),
            None => false,
        }
    }

    /// The line of a host, if there is one.
    fn line(&self, host: Option<usize>) -> Option<&HostLine> {
        self.hosts.get(host?)
    }

    /// Adds a host. Fails if the memory is refused.
    pub(crate) fn add_host(&mut self, line: HostLine) -> Result<()> {
        self.hosts.push(line)?;
        Ok(())
    }

    /// Sets how copies to a host, or to all others, are treated.
    pub(crate) fn set_treatment(&mut self, host: Option<usize>, treatment: Treatment) {
        match host {
            None => self.treatment = treatment,
            Some(number) => {
                if let Some(line) = self.hosts.get_mut(number) {
                    line.treatment = Some(treatment);
                }
            }
        }
    }

    /// Sets how fast frames leave a host, or all others.
    pub(crate) fn set_rate(&mut self, host: Option<usize>, rate: Rate) {
        match host {
            None => self.rate = Some(rate),
            Some(number) => {
                if let Some(line) = self.hosts.get_mut(number) {
                    line.rate = Some(rate);
                }
            }
        }
    }

    /// Sets what a host, or all others, have room for.
    pub(crate) fn set_rooms(&mut self, host: Option<usize>, rooms: Rooms) {
        match host {
            None => self.rooms = rooms,
            Some(number) => {
                if let Some(line) = self.hosts.get_mut(number) {
                    line.rooms = Some(rooms);
                }
            }
        }
    }

    /// Puts a host on a link, if there is one of this number.
    pub(crate) fn set_link(&mut self, host: usize, link: usize) {
        if let Some(line) = self.hosts.get_mut(host) {
            line.link = link;
        }
    }

    /// Adds a way through a router.
    pub(crate) fn add_way(&mut self, way: Way) -> Result<()> {
        let number = self.ways.len();
        self.ways.push(way)?;
        if let Some(line) = self.hosts.get_mut(way.from) {
            line.way = Some(number);
        }
        Ok(())
    }

    /// Adds a time for which a host is cut off, and returns whether there was room for it.
    pub(crate) fn add_outage(&mut self, host: usize, outage: Outage) -> bool {
        match self.hosts.get_mut(host) {
            Some(line) => line.outages.try_push(outage).is_ok(),
            None => false,
        }
    }
}

/// Whether a time is within one of several outages.
fn is_within(outages: &[Outage], time: u64) -> bool {
    for outage in outages {
        if outage.from <= time && time < outage.until {
            return true;
        }
    }
    false
}
