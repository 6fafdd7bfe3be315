//! How connections begin: a program listens and accepts, or connects (RFC 9293 3.10.1).
ghost use Rattle.std.specs.Prelude.{◌≡◌, ◌≢◌, ℕ, IfOk, IfErr, OnOk, OnErr, IsErr, None, Some, Ok, Err};
ghost use Rattle.std.specs.Result.{IsErrOf, result_err};
ghost use Rattle.iface_host.specs.declared.refusal.Refusal.{Refusal};
ghost use Rattle.iface_host.specs.declared.refusal.Refusal.TheVariants.{Empty, NoMemory, TableFull};
ghost use Rattle.iface_streams.specs.Connect as spec;
ghost use Rattle.iface_streams.specs.declared.connect.ConnectRefusal.TheVariants.{InUse, Refused};
ghost use Rattle.tcp_host.specs.Table.{IsPlaceOf};
ghost use Rattle.tcp_host.specs.Arrivals.{HasNoPlace};

use crate::streams::Streams;
use iface_host::streams::micros_of;
use iface_host::{IfaceHost, Refusal};
use ip_wire::IpAddress;
use net_base::time::Instant;
use sockets::{IpEndpoint, IpListenEndpoint};
use std::alloc::Global;
use tcp_host::calls::{ConnectError, Handle};
use tcp_host::iss::Endpoints;

/// Why a connection isn't opened.
#[derive(Clone, Copy, Debug, PartialEq, Eq)]
pub enum ConnectRefusal {
    /// For a reason that other calls have too.
    Refused(Refusal),
    /// A connection has these ends.
    InUse,
}

impl Streams {
    /// Listens at a port, of one local address or of each. At most `backlog` handshakes are under way, and as many connections
    /// wait for the program; 0 counts as 1. Returns the listener's number. `BadPort` if the port is 0, else `BadAddress` if the
    /// address isn't unicast, else `NoMemory` if memory is refused; then nothing changes.
    pub fn listen(
        &mut self,
        alloc: Global,
        local: IpListenEndpoint,
        backlog: usize,
    ) -> Result<usize, Refusal>
        ensures listens { IfOk result (λ number. spec.Listens local backlog number self.old self.new) }
        ensures why { (e : Refusal) → spec.listen_refusal local ≡ Some e → IsErrOf result e }
        ensures memory { spec.listen_refusal local ≡ None → IfErr result (λ e. e ≡ NoMemory) }
        ensures refused { OnErr result (self.new ≡ self.old) }
    {
        if local.port == 0 {
            return Err(Refusal::BadPort);
        }
        if !is_hosts(&local.addr) {
            return Err(Refusal::BadAddress);
        }
        Ok(
            self.connections
                .listen(alloc, local.port, local.addr, backlog)?,
        )
    }

    /// Takes the connection of a listener that waits longest, which is the program's from now on. `Empty` if none waits, or no
    /// listener has this number.
    pub fn accept(&mut self, listener: usize) -> Result<Handle, Refusal>
        ensures accepts { spec.Accepts listener result self.old self.new }
    {
        match self.connections.accept(listener) {
            Some(handle) => Ok(handle),
            None => Err(Refusal::Empty),
        }
    }

    /// Takes a connection of the program at which something changed, by segments and timers, since it was told of it last: octets
    /// became readable, room to write came back, or the state is another one, also where the connection ended. One that was accepted
    /// counts as changed. Each is told once until it changes again, and those that changed first come first. `Empty` if none has.
    pub fn changed(&mut self) -> Result<Handle, Refusal>
        ensures changes { spec.TellsOfChange result self.old self.new }
    {
        match self.connections.next_changed() {
            Some(handle) => Ok(handle),
            None => Err(Refusal::Empty),
        }
    }

    /// Closes a listener: no SYN begins a connection of it any more. A handshake that is under way ends in a reset once it is
    /// complete, and connections that wait can still be accepted (RFC 9293 3.10.4). Its number is given to no other listener.
    /// `NotThere` if no listener has this number; then nothing changes.
    pub fn close_listener(&mut self, listener: usize) -> Result<(), Refusal>
        ensures closes { OnOk result (spec.ClosesListener listener self.old self.new) }
        ensures why { result_err result ≡ spec.listener_refusal listener self.old }
        ensures refused { OnErr result (self.new ≡ self.old) }
    {
        if self.connections.close_listener(listener) {
            Ok(())
        } else {
            Err(Refusal::NotThere)
        }
    }

    /// Opens a connection at a moment, from a local port and from an own address of a host, or from the one that packets to the
    /// destination are sent from. The first that applies: `BadMoment` if the moment is out of range; `BadPort` if a port is 0;
    /// `NotThere` if the host has no own address for the destination; `BadAddress` if one of the two isn't unicast, or they are
    /// of two families; `NoRoute` if no network and no route of the host has the destination; `InUse` if a connection has these ends, also in TIME-WAIT; `TableFull` if each place has a connection
    /// that gives way to no other one: half-open ones do, and those in TIME-WAIT that were released. Then nothing changes.
    pub fn connect(
        &mut self,
        host: &IfaceHost,
        now: i64,
        local: IpListenEndpoint,
        remote: IpEndpoint,
    ) -> Result<Handle, ConnectRefusal>
        ensures connects { IfOk result (λ handle. spec.Connects now local remote host.now handle self.old self.new) }
        ensures why { (e : Refusal) → spec.connect_refusal now local remote host.now ≡ Some e → result ≡ Err (Refused e) }
        ensures in_use { result ≡ Err InUse → spec.IsInUse local remote host.now self.old }
        ensures full { (e : Refusal) → result ≡ Err (Refused e) → spec.connect_refusal now local remote host.now ≡ None →
            (e ≡ TableFull) × HasNoPlace self.old.connections }
        ensures refused { IsErr result → self.new ≡ self.old }
    {
        let (micros, ends) = match ends_at(host, now, local, remote) {
            Ok(ready) => ready,
            Err(refusal) => return Err(ConnectRefusal::Refused(refusal)),
        };
        if self.connections.find(&ends).is_some() {
            return Err(ConnectRefusal::InUse);
        }
        match self.connections.connect(micros, &ends) {
            Ok(handle) => Ok(handle),
            Err(ConnectError::InUse) => Err(ConnectRefusal::InUse),
            Err(ConnectError::NoPlace) => Err(ConnectRefusal::Refused(Refusal::TableFull)),
            Err(ConnectError::Unaddressable) => {
                Err(ConnectRefusal::Refused(Refusal::BadAddress))
            }
        }
    }
}

/// A moment in microseconds, and the ends of a connection that a program asks for then. It fails as [`Streams::connect`] says.
fn ends_at(
    host: &IfaceHost,
    now: i64,
    local: IpListenEndpoint,
    remote: IpEndpoint,
) -> Result<(u64, Endpoints), Refusal>
    ensures ends { IfOk result (λ ready. spec.AreEnds now local remote host.now ready.0 ready.1) }
    ensures why { result_err result ≡ spec.connect_refusal now local remote host.now }
{
    let micros = micros_of(now)?;
    if local.port == 0 || remote.port == 0 {
        return Err(Refusal::BadPort);
    }
    let Some(address) = source_of(host, &local.addr, remote.addr) else {
        return Err(Refusal::NotThere);
    };
    if !is_pair(&address, &remote.addr) {
        return Err(Refusal::BadAddress);
    }
    if !host.has_route(&remote.addr, Instant::from_micros(now)) {
        return Err(Refusal::NoRoute);
    }
    let ends = Endpoints {
        local_addr: address,
        local_port: local.port,
        remote_addr: remote.addr,
        remote_port: remote.port,
    };
    Ok((micros, ends))
}

/// The local address of a connection: the one that is asked for, or else that from which packets to the destination are sent.
fn source_of(host: &IfaceHost, local: &Option<IpAddress>, remote: IpAddress) -> Option<IpAddress>
    ensures { result ≡ spec.source_of host.now local.now remote }
{
    match local {
        Some(address) => Some(*address),
        None => host.source_for(remote),
    }
}

/// Whether two hosts of one family can have these addresses.
fn is_pair(local: &IpAddress, remote: &IpAddress) -> bool
    ensures { result ≡ spec.is_pair local.now remote.now }
{
    local.is_unicast() && remote.is_unicast() && are_of_one_family(local, remote)
}

/// Whether both are addresses of IPv4, or both of IPv6.
fn are_of_one_family(local: &IpAddress, remote: &IpAddress) -> bool
    ensures { result ≡ spec.are_of_one_family local.now remote.now }
{
    match (local, remote) {
        (IpAddress::Ipv4(_), IpAddress::Ipv4(_)) => true,
        (IpAddress::Ipv6(_), IpAddress::Ipv6(_)) => true,
        _ => false,
    }
}

/// Whether a host can have this address, if it is one.
fn is_hosts(address: &Option<IpAddress>) -> bool
    ensures { result ≡ spec.is_hosts address.now }
{
    match address {
        Some(address) => address.is_unicast(),
        None => true,
    }
}
