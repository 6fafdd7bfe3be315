//! The client, and how it is made.
ghost use Rattle.std.specs.Prelude.{◌≡◌, IfOk, IfErr, OnOk, OnErr, None, Some};
ghost use Rattle.std.specs.Result.{IsErrOf, result_err};
ghost use Rattle.dhcp_client.specs.Client as client;
ghost use Rattle.iface_dhcp.specs.Dhcp as spec;
ghost use Rattle.iface_host.specs.declared.refusal.Refusal.{Refusal};

use crate::place::keep_place;
use dhcp_client::message::{CLIENT_PORT, HEADER_LEN};
use dhcp_client::{DhcpClient, DhcpLease, DhcpRepr, DhcpRoutes, DhcpWishes, OptionData, Probing};
use iface_host::{IfaceHost, Leased, Refusal, Room, Rooms};
use ip_wire::Ipv4Address;
use ip_wire::emit::FrameBuffer;
use net_base::rand::Rand;
use sockets::IpListenEndpoint;
use std::alloc::Global;

/// The most octets that wait at the client's socket: as many as two messages of the length that it asks for have.
pub const RECEIVED_LEN: usize = 2944;

/// What the client's socket holds: some messages that came, and one that goes to its server.
const ROOMS: Rooms = Rooms {
    received: Room {
        packets: 8,
        octets: RECEIVED_LEN,
    },
    to_send: Room {
        packets: 1,
        octets: 405,
    },
};

/// How a client is to be made.
#[derive(Clone, Copy, Debug, PartialEq, Eq)]
pub struct DhcpSettings {
    /// The seed of the numbers by which its messages are known, another one for each host and each start.
    pub random_seed: u64,
    /// An address that it had before, if there is one: it asks for that first (RFC 2131 3.2).
    pub known: Option<Ipv4Address>,
}

/// A client of DHCP for a host.
#[derive(Drop)]
pub struct Dhcp {
    /// What it knows, and what it does.
    pub client: DhcpClient,
    /// The number of its UDP socket of port 68.
    pub socket: u32,
    /// The number of its raw socket, which is open while a message to all servers waits there, and from the first one on as long as
    /// there is no lease.
    pub broadcast: Option<u32>,
    /// The number of the socket that keeps the place of the raw one, while that isn't open. Only where memory was refused there may
    /// be neither.
    pub kept: Option<u32>,
    /// Whether the address of a lease is tested before it is used, and announced.
    pub probes: bool,
    /// The address that is tested, or in use, and announced.
    pub probing: Option<Probing>,
    /// Why the message that was due last is lost, if it is.
    pub lost: Option<Refusal>,
    /// Where its random numbers come from.
    pub random: Rand,
    /// What it asks for beside what it needs itself, and the host's name.
    pub wishes: DhcpWishes,
    /// The octets of the message that gave the lease; none before the first lease.
    pub ack: FrameBuffer,
    /// What it has given the host.
    pub leased: Option<Leased>,
    /// Which routes it has given the host besides.
    pub routed: DhcpRoutes,
}

impl Dhcp {
    /// A client for a host, which gives it two places: one for a UDP socket of port 68, and one for the raw socket by which it asks
    /// all servers. `NotThere` if the host's link has no hardware addresses, else `TableFull` if no two numbers or no two places for
    /// sockets are left, else `NoMemory` if memory for it is refused; then the host stays unchanged.
    pub fn new(
        alloc: Global,
        host: &mut IfaceHost,
        settings: &DhcpSettings,
    ) -> Result<Box<Dhcp>, Refusal>
        ensures made { IfOk result (λ dhcp. spec.IsNew settings.now dhcp.value host.old host.new) }
        ensures why { (e : Refusal) → spec.new_refusal host.old ≡ Some e → IsErrOf result e }
        ensures memory { spec.new_refusal host.old ≡ None → IfErr result (λ e. e ≡ Refusal.NoMemory) }
        ensures refused { OnErr result (host.new ≡ host.old) }
    {
        let Some(hardware_addr) = host.hardware_address() else {
            return Err(Refusal::NotThere);
        };
        host.unused_number()?;
        if !host.has_room_for(2) {
            return Err(Refusal::TableFull);
        }
        let client = Dhcp {
            client: DhcpClient::new(hardware_addr, settings.known),
            socket: 0,
            broadcast: None,
            kept: None,
            probes: true,
            probing: None,
            lost: None,
            random: Rand::new(settings.random_seed),
            wishes: DhcpWishes::new(),
            ack: FrameBuffer::new(),
            leased: None,
            routed: DhcpRoutes::new(),
        };
        let Ok(mut dhcp) = Box::new(alloc, client) else {
            return Err(Refusal::NoMemory);
        };
        let port = IpListenEndpoint {
            addr: None,
            port: CLIENT_PORT,
        };
        dhcp.socket = host.open_udp(port, ROOMS)?;
        dhcp.kept = keep_place(host);
        Ok(dhcp)
    }

    /// The lease that it has, if it has one and its address was tested.
    pub const fn lease(&self) -> Option<DhcpLease>
        ensures { result ≡ spec.lease self.now }
    {
        if self.is_in_test() {
            return None;
        }
        self.client.lease()
    }

    /// Sets the codes of the options that servers are asked for beside those that the client needs itself, which are 1, 3, 6, 26 and
    /// 121 (RFC 2132 9.8). They are in all messages that are built from then on. `TooLong` if there are more than 16; then nothing
    /// changes.
    pub fn set_parameters(&mut self, codes: &[u8]) -> Result<(), Refusal>
        ensures set { OnOk result (spec.SetsParameters codes.now self.old self.new) }
        ensures why { result_err result ≡ spec.long_refusal 16 codes.now }
        ensures refused { OnErr result (self.new ≡ self.old) }
    {
        if self.wishes.set_parameters(codes) {
            Ok(())
        } else {
            Err(Refusal::TooLong)
        }
    }

    /// Sets the host's name, which is in all messages that are built from then on (RFC 2132 3.14); an empty one is none. `TooLong`
    /// if it has more than 63 octets; then nothing changes.
    pub fn set_host_name(&mut self, name: &[u8]) -> Result<(), Refusal>
        ensures set { OnOk result (spec.SetsHostName name.now self.old self.new) }
        ensures why { result_err result ≡ spec.long_refusal 63 name.now }
        ensures refused { OnErr result (self.new ≡ self.old) }
    {
        if self.wishes.set_host_name(name) {
            Ok(())
        } else {
            Err(Refusal::TooLong)
        }
    }

    /// The data of an option of the lease, put together (RFC 3396); of more than 256 octets the first ones. They are empty if there
    /// is no lease, or no such option.
    pub fn option(&self, code: u8) -> OptionData
        ensures { result.items ≡ spec.option code self.now }
    {
        if self.lease().is_none() || self.ack.len() < HEADER_LEN {
            return OptionData::new();
        }
        DhcpRepr::option_in(self.ack.as_slice(), code)
    }

    /// The first eight routes of the lease that the host can use, but for the default route, whose router the lease has (RFC 3442).
    /// A route by 0.0.0.0 says that its network is on the link, and is left out.
    pub fn routes(&self) -> DhcpRoutes
        ensures { result.items ≡ spec.routes self.now }
    {
        match self.lease() {
            Some(lease) if self.ack.len() >= HEADER_LEN => {
                DhcpRepr::routes_in(self.ack.as_slice(), &lease.address)
            }
            _ => DhcpRoutes::new(),
        }
    }

    /// Why the message that was due last is lost, if it is: `NoMemory` where memory for the raw socket is refused, `TableFull` where
    /// others have its place since, `QueueFull` while the message before waits for its neighbour.
    pub fn lost(&self) -> Option<Refusal>
        ensures { result ≡ self.now.lost }
    {
        self.lost
    }

    /// Gives up the lease, if there is one, and asks for its address again, as once a link came up (RFC 2131 3.2): where the link
    /// leads to another network the server refuses it, and the client asks for offers. Without a lease it begins anew. The next poll
    /// tells of a lease that is gone. What was given to the host stays until [`Dhcp::apply`].
    pub fn reset(&mut self)
        ensures { self.new ≡ record self.old { client = client.after_reset self.old.client } }
    {
        self.client.reset();
    }

    /// When [`Dhcp::poll`] does something if nothing came, in microseconds; before that it changes nothing of the client. `None`
    /// only for a lease without end whose address was announced.
    pub fn poll_at(&self) -> Option<i64>
        ensures { result ≡ spec.poll_at self.now }
    {
        let at = earlier(self.client.poll_at(), self.request_due())?;
        if at < 0x4000_0000_0000_0000 {
            Some(at as i64)
        } else {
            Some(0x4000_0000_0000_0000)
        }
    }

    /// Closes the client's sockets of a host, which watches no address any more.
    pub fn close(&mut self, host: &mut IfaceHost)
        ensures sockets { spec.Closes self.old host.old host.new }
        ensures dhcp { self.new ≡ record self.old { broadcast = None; kept = None; probing = None } }
    {
        close_one(host, self.socket);
        close_if(host, &self.broadcast);
        close_if(host, &self.kept);
        self.broadcast = None;
        self.kept = None;
        if self.probing.is_some() {
            host.watch_address(None);
        }
        self.probing = None;
    }

    /// When an ARP request is due.
    fn request_due(&self) -> Option<u128>
        ensures { result ≡ spec.request_due self.now.probing }
    {
        match self.probing {
            Some(probing) => probing.due_at(),
            None => None,
        }
    }
}

/// The earlier one of two instants, as far as there are two.
fn earlier(a: Option<u64>, b: Option<u128>) -> Option<u128>
    ensures { result ≡ spec.earlier a b }
{
    match (a, b) {
        (None, b) => b,
        (Some(a), None) => Some(u128::from(a)),
        (Some(a), Some(b)) => Some(b.min(u128::from(a))),
    }
}

/// Closes a socket of a host, if it is open.
pub(crate) fn close_one(host: &mut IfaceHost, number: u32)
    ensures { spec.ClosesOne number host.old host.new }
{
    let _ = host.close(number);
}

/// The same, if there is one.
pub(crate) fn close_if(host: &mut IfaceHost, number: &Option<u32>)
    ensures { spec.ClosesIf number.now host.old host.new }
{
    if let Some(number) = number {
        close_one(host, *number);
    }
}
