//! Connections, and how they are made and freed.
ghost use Rattle.std.specs.Prelude.{◌≡◌, ◌+◌, ◌≤◌, ℕ, true, IfOk, IfErr, IsOk, OnErr, None, Some};
ghost use Rattle.std.specs.Result.{IsErrOf};
ghost use Rattle.std.specs.Option.{option_map};
ghost use Rattle.iface_host.specs.Streams.{has_room_for};
ghost use Rattle.iface_host.specs.declared.refusal.Refusal.{Refusal};
ghost use Rattle.iface_streams.specs.Settings as setting;
ghost use Rattle.iface_streams.specs.Streams as spec;

use crate::settings::StreamSettings;
use iface_host::{IfaceHost, Refusal, StreamPair};
use ip_wire::IpVersion;
use net_base::phy::Checksum;
use sockets::raw;
use std::alloc::Global;
use tcp_host::host::TcpHost;
use tcp_sockets::{SocketPair, TcpSockets, far_socket, near_socket};

/// Connections of a host.
#[derive(Drop)]
pub struct Streams {
    /// The connections and listeners.
    pub connections: TcpHost,
    /// Their raw sockets, as a poll needs them.
    pub carrier: TcpSockets,
    /// The same of IPv4 by their numbers, if they go over it.
    pub v4: Option<StreamPair>,
    /// The same of IPv6.
    pub v6: Option<StreamPair>,
    /// How many packets the host had given up when that was asked last.
    pub given_up: u64,
}

/// The raw sockets of a family before they are opened.
#[derive(Drop)]
struct Made {
    near: raw::Socket<'static>,
    far: raw::Socket<'static>,
}

impl Streams {
    /// Connections for a host, which gives them two raw sockets for each family. `TableFull` if the host has no room for
    /// these, else `NoMemory` if memory is refused; then the host stays unchanged.
    #[tactic(auto, using(crate::proofs::Shares::first_share, crate::proofs::Shares::second_share))]
    pub fn new(
        alloc: Global,
        host: &mut IfaceHost,
        settings: &StreamSettings,
    ) -> Result<Box<Streams>, Refusal>
        requires { setting.is_proper settings.now ≡ true }
        ensures made { IfOk result (λ streams. spec.IsNew settings.now streams.value host.old host.new) }
        ensures why { (e : Refusal) → spec.new_refusal settings.now host.old ≡ Some e → IsErrOf result e }
        ensures memory { spec.new_refusal settings.now host.old ≡ None → IfErr result (λ e. e ≡ Refusal.NoMemory) }
        ensures refused { OnErr result (host.new ≡ host.old) }
    {
        if !host.has_room_for(settings.sockets()) {
            return Err(Refusal::TableFull);
        }
        let v4 = pair_for(alloc, IpVersion::Ipv4, settings.ipv4, settings)?;
        let v6 = pair_for(alloc, IpVersion::Ipv6, settings.ipv6, settings)?;
        let mut streams = unopened(alloc, host, settings)?;
        let checksum = host.tcp_checksum();
        streams.v4 = open(host, v4)?;
        streams.v6 = open(host, v6)?;
        streams.carry(checksum);
        Ok(streams)
    }

    /// Its raw sockets as a poll needs them are those that are open.
    #[inline(never)]
    fn carry(&mut self, checksum: Checksum)
        ensures { self.new ≡ record self.old { carrier = spec.carrier_of checksum self.old } }
    {
        self.carrier = TcpSockets::new(handles_of(&self.v4), handles_of(&self.v6), checksum);
    }

    /// Closes the raw sockets of a host.
    pub fn close(&mut self, host: &mut IfaceHost)
        ensures sockets { spec.Closes self.old host.old host.new }
        ensures streams { self.new ≡ record self.old { v4 = None; v6 = None } }
    {
        close_pair(&self.v4, host);
        close_pair(&self.v6, host);
        self.v4 = None;
        self.v6 = None;
    }
}

/// Connections without raw sockets. `NoMemory` if memory is refused.
#[inline(never)]
fn unopened(
    alloc: Global,
    host: &IfaceHost,
    settings: &StreamSettings,
) -> Result<Box<Streams>, Refusal>
    requires { setting.is_proper settings.now ≡ true }
    ensures made { IfOk result (λ streams. spec.AreFirst (setting.config_for settings.now host.now.ip_mtu)
        settings.now.places streams.value.connections) }
    ensures given_up { IfOk result (λ streams. streams.value.given_up ≡ 0) }
    ensures memory { IfErr result (λ e. e ≡ Refusal.NoMemory) }
{
    let config = settings.config(host.ip_mtu());
    let streams = Streams {
        connections: TcpHost::new(alloc, settings.places, &config)?,
        carrier: TcpSockets::new(None, None, host.tcp_checksum()),
        v4: None,
        v6: None,
        given_up: 0,
    };
    match Box::new(alloc, streams) {
        Ok(made) => Ok(made),
        Err(_) => Err(Refusal::NoMemory),
    }
}

/// The raw sockets of a family, if connections go over it. `NoMemory` if memory is refused.
#[inline(never)]
fn pair_for(
    alloc: Global,
    version: IpVersion,
    is_wanted: bool,
    settings: &StreamSettings,
) -> Result<Option<Made>, Refusal>
    ensures made { IfOk result (λ made. option_map spec.sockets_of made ≡ spec.pair_for version is_wanted settings.now) }
    ensures memory { IfErr result (λ e. e ≡ Refusal.NoMemory) }
{
    if !is_wanted {
        return Ok(None);
    }
    let room = settings.near;
    let Ok(near) = near_socket(alloc, version, room.packets, room.octets) else {
        return Err(Refusal::NoMemory);
    };
    let Ok(far) = far_socket(alloc, version, settings.far_octets) else {
        return Err(Refusal::NoMemory);
    };
    Ok(Some(Made { near, far }))
}

/// Opens the raw sockets of a family, if there are any. There has to be room for them.
fn open(host: &mut IfaceHost, made: Option<Made>) -> Result<Option<StreamPair>, Refusal>
    requires room { has_room_for (spec.count_of (option_map spec.sockets_of made)) host.old ≡ true }
    ensures done { IsOk result }
    ensures opened { IfOk result (λ pair. spec.OpensIf (option_map spec.sockets_of made) pair host.old host.new) }
    ensures left { (k : ℕ) → has_room_for (k + spec.count_of (option_map spec.sockets_of made)) host.old ≡ true →
        has_room_for k host.new ≡ true }
{
    match made {
        Some(Made { near, far }) => Ok(Some(host.open_pair(near, far)?)),
        None => Ok(None),
    }
}

/// The raw sockets of a family as a poll needs them.
fn handles_of(pair: &Option<StreamPair>) -> Option<SocketPair>
    ensures { result ≡ spec.handles_of pair.now }
{
    match pair {
        Some(pair) => Some(pair.handles),
        None => None,
    }
}

/// Closes the raw sockets of a family, if there are any.
fn close_pair(pair: &Option<StreamPair>, host: &mut IfaceHost)
    ensures { spec.ClosesPair pair.now host.old host.new }
{
    if let Some(pair) = pair {
        close_one(pair.near, host);
        close_one(pair.far, host);
    }
}

/// Closes a socket, if it is open.
fn close_one(number: u32, host: &mut IfaceHost)
    ensures { spec.ClosesOne number host.old host.new }
{
    let _ = host.close(number);
}
