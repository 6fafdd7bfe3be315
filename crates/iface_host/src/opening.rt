//! Sockets: how they are opened and closed.
ghost use Rattle.std.specs.Prelude.{◌≡◌, ◌<◌, true, IfOk, IfErr, IsOk, OnOk, OnErr, None, Some, length};
ghost use Rattle.std.specs.Result.{IsErrOf, result_err};
ghost use Rattle.iface_host.specs.Names.{first_unused};
ghost use Rattle.iface_host.specs.Refusals.{close_refusal};
ghost use Rattle.iface_host.specs.Sockets.{Closes, Opens, icmp, queue_of, raw, udp};
ghost use Rattle.iface_host.specs.TableRefusals.{is_no_hosts, opening_refusal, udp_opening_refusal};
ghost use Rattle.socket_set.specs.SocketSet.{has_free};

use crate::host::IfaceHost;
use crate::refusal::Refusal;
use ip_wire::{IpAddress, IpProtocol, IpVersion};
use socket_set::{SocketSet, by_index};
use sockets::{AnySocketOf, IpListenEndpoint, Queue, icmp, raw, udp};
use std::alloc::Global;

/// How much a queue of a socket holds.
#[derive(Clone, Copy, Debug, PartialEq, Eq)]
pub struct Room {
    /// How many packets.
    pub packets: usize,
    /// How many octets of them, together.
    pub octets: usize,
}

/// How much each of the two queues of a socket holds.
#[derive(Clone, Copy, Debug, PartialEq, Eq)]
pub struct Rooms {
    /// The queue for what comes.
    pub received: Room,
    /// The queue for what is to be sent.
    pub to_send: Room,
}

impl IfaceHost {
    /// Opens a UDP socket that listens at an end, and names it. `BadPort` if its port is 0, else `BadAddress` if its
    /// address is a group's or 255.255.255.255, else `TableFull` if no number is left, else `NoMemory` if memory for its
    /// queues is refused.
    pub fn open_udp(&mut self, local: IpListenEndpoint, rooms: Rooms) -> Result<u32, Refusal>
        ensures opened { IfOk result (λ n. Opens (udp local rooms) n self.old self.new) }
        ensures why { (e : Refusal) → udp_opening_refusal self.old local ≡ Some e → IsErrOf result e }
        ensures memory { udp_opening_refusal self.old local ≡ None → IfErr result (λ e. e ≡ Refusal.NoMemory) }
        ensures refused { OnErr result (self.new ≡ self.old) }
    {
        if local.port == 0 {
            return Err(Refusal::BadPort);
        }
        if is_no_hosts(&local.addr) {
            return Err(Refusal::BadAddress);
        }
        let number = self.unused_number()?;
        let (rx, tx) = queues(self.alloc, rooms)?;
        let socket: udp::Socket<'static> = udp::SocketOf::new(local, rx, tx);
        self.add(number, socket)
    }

    /// Opens a raw socket for the packets of a version of IP and a protocol, and names it. It fails as
    /// [`IfaceHost::open_udp`] for room.
    pub fn open_raw(
        &mut self,
        version: IpVersion,
        protocol: IpProtocol,
        rooms: Rooms,
    ) -> Result<u32, Refusal>
        ensures opened { IfOk result (λ n. Opens (raw version protocol rooms) n self.old self.new) }
        ensures why { (e : Refusal) → opening_refusal self.old ≡ Some e → IsErrOf result e }
        ensures memory { opening_refusal self.old ≡ None → IfErr result (λ e. e ≡ Refusal.NoMemory) }
        ensures refused { OnErr result (self.new ≡ self.old) }
    {
        let number = self.unused_number()?;
        let (rx, tx) = queues(self.alloc, rooms)?;
        let socket: raw::Socket<'static> = raw::SocketOf::new(version, protocol, rx, tx);
        self.add(number, socket)
    }

    /// Opens an ICMP socket for an endpoint, and names it. It fails as [`IfaceHost::open_udp`] for room.
    pub fn open_icmp(&mut self, endpoint: icmp::Endpoint, rooms: Rooms) -> Result<u32, Refusal>
        ensures opened { IfOk result (λ n. Opens (icmp endpoint rooms) n self.old self.new) }
        ensures why { (e : Refusal) → opening_refusal self.old ≡ Some e → IsErrOf result e }
        ensures memory { opening_refusal self.old ≡ None → IfErr result (λ e. e ≡ Refusal.NoMemory) }
        ensures refused { OnErr result (self.new ≡ self.old) }
    {
        let number = self.unused_number()?;
        let (rx, tx) = queues(self.alloc, rooms)?;
        let socket: icmp::Socket<'static> = icmp::SocketOf::new(endpoint, rx, tx);
        self.add(number, socket)
    }

    /// Closes a socket, of whatever kind: what it holds is dropped, and its number names none from then on.
    /// `NoSocket` if the number names none.
    #[tactic(auto, using(crate::proofs::Places::there_below))]
    pub fn close(&mut self, number: u32) -> Result<(), Refusal>
        ensures closed { OnOk result (Closes number self.old self.new) }
        ensures why { result_err result ≡ close_refusal self.old number }
        ensures refused { OnErr result (self.new ≡ self.old) }
    {
        let Some(handle) = self.names.get(number) else {
            return Err(Refusal::NoSocket);
        };
        let Some(socket) = self.sockets.remove(handle) else {
            return Err(Refusal::NoSocket);
        };
        drop(socket);
        self.names.set(number as usize, None);
        Ok(())
    }

    /// The least number that names none. `TableFull` if no number is left, or no place for a socket.
    pub fn unused_number(&self) -> Result<u32, Refusal>
        ensures why { result_err result ≡ opening_refusal self.now }
        ensures unused { IfOk result (λ n. first_unused self.now.names ≡ Some n) }
        ensures within { IfOk result (λ n. n < length self.now.names) }
        ensures place { OnOk result (has_free self.now.sockets ≡ true) }
    {
        let Some(number) = self.names.unused() else {
            return Err(Refusal::TableFull);
        };
        if number > u32::MAX as usize {
            return Err(Refusal::TableFull);
        }
        if !has_free_place(&self.sockets) {
            return Err(Refusal::TableFull);
        }
        Ok(number as u32)
    }

    /// Adds a socket, named by the least number that names none.
    pub(crate) fn add<T: AnySocketOf<&'static ()>>(
        &mut self,
        number: u32,
        socket: T,
    ) -> Result<u32, Refusal>
        requires unused { first_unused self.old.names ≡ Some number }
        requires within { number < length self.old.names }
        requires place { has_free self.old.sockets ≡ true }
        ensures done { IsOk result }
        ensures opened { IfOk result (λ n. Opens (T.up socket) n self.old self.new) }
    {
        match self.sockets.add(socket) {
            Ok(handle) => {
                self.schedule.forget(handle);
                self.names.set(number as usize, Some(handle));
                Ok(number)
            }
            Err(_) => Err(Refusal::TableFull),
        }
    }
}

/// Whether no host has this address, if it is one: a group's, or 255.255.255.255.
pub(crate) fn is_no_hosts(address: &Option<IpAddress>) -> bool
    ensures { result ≡ is_no_hosts address.now }
{
    match address {
        Some(address) => address.is_multicast() || address.is_broadcast(),
        None => false,
    }
}

/// Whether a place of a set has no socket.
fn has_free_place(sockets: &SocketSet<'static>) -> bool
    ensures { result ≡ has_free sockets.now }
{
    for index in 0..by_index::places(sockets) {
        if by_index::socket(sockets, index).is_none() {
            return true;
        }
    }
    false
}

/// Two empty queues: for what comes, and for what is to be sent.
pub(crate) fn queues<M: Drop>(alloc: Global, rooms: Rooms) -> Result<(Queue<M>, Queue<M>), Refusal>
    ensures made { IfOk result (λ qs. (qs.0 ≡ queue_of rooms.received) × (qs.1 ≡ queue_of rooms.to_send)) }
    ensures memory { IfErr result (λ e. e ≡ Refusal.NoMemory) }
{
    let rx = queue(alloc, rooms.received)?;
    let tx = queue(alloc, rooms.to_send)?;
    Ok((rx, tx))
}

/// An empty queue.
fn queue<M: Drop>(alloc: Global, room: Room) -> Result<Queue<M>, Refusal>
    ensures made { IfOk result (λ q. q ≡ queue_of room) }
    ensures memory { IfErr result (λ e. e ≡ Refusal.NoMemory) }
{
    Queue::new(alloc, room.packets, room.octets).map_err(|_| Refusal::NoMemory)
}
