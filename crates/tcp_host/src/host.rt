//! A host of connections.
ghost use Rattle.std.specs.Prelude.{◌≡◌, ◌≤◌, ◌<◌, ◌^◌, [], length, replicate, slice_set, Some, None, IfOk, IfSome, IsNone};
ghost use Rattle.tcp_host.specs.Host as spec;
ghost use Rattle.tcp_host.specs.Table.{IsNowhere, IsPlaceOf};
ghost use Rattle.tcp_host.specs.declared.iss.Endpoints.{Endpoints};

use crate::alarms::{Alarms, NEVER};
use crate::config::Config;
use crate::iss::Endpoints;
use crate::listener::Listener;
use crate::slot::{CHALLENGES, HOP_LIMIT, Owner, Slot};
use crate::table::Table;
use ip_address::IpAddress;
use net_base::bucket::Bucket;
use std::alloc::{AllocError, Global};
use std::marker::Model;
use tcp_connection::connection::Connection;
use tcp_machine::settings::Settings;

/// How many resets may be sent at once, and the interval in which one more may be, in microseconds (RFC 5961 7).
const RESETS: Bucket = Bucket {
    interval: 10_000,
    depth: 100,
    full_at: 0,
};

/// A host of connections, apart from the sockets that carry its segments.
///
/// It takes memory when it is made, and where a listener is added, and never later. Instants are in microseconds.
#[derive(Drop)]
pub struct TcpHost {
    pub(crate) slots: Vec<Slot>,
    pub(crate) table: Table,
    pub(crate) alarms: Alarms,
    pub(crate) taken: Alarms,
    pub(crate) news: Alarms,
    pub(crate) listeners: Vec<Listener>,
    pub(crate) resets: Bucket,
    pub(crate) config: Config,
    /// The place that got a segment last.
    pub(crate) recent: usize,
}

impl Model for TcpHost {
    ghost use Rattle.std.specs.Prelude.{◌≡◌, ◌≤◌, ◌^◌, length};
    ghost use Rattle.tcp_host.specs.Host as spec;

    ghost Value = { spec.Host };

    ghost view = { λ h. record {
      slots = h.slots.items;
      ends = h.table;
      alarms = h.alarms;
      taken = h.taken;
      news = h.news;
      listeners = h.listeners.items;
      resets = h.resets;
      config = h.config;
    } };

    ghost invariant = { λ h. (length h.table ≡ length h.slots.items) × (length h.alarms ≡ length h.slots.items)
        × (length h.taken ≡ length h.slots.items) × (length h.news ≡ length h.slots.items) × (1 ≤ length h.slots.items) × (h.config.settings.own_scale ≤ 14)
        × (h.config.send_room ≤ 2 ^ 30) × (h.config.receive_room ≤ 2 ^ 30) };
}

impl TcpHost {
    /// A host with so many places for connections, at most 2^30, all of them free. It fails exactly if the memory is refused.
    pub fn new(alloc: Global, places: usize, config: &Config) -> Result<TcpHost, AllocError>
        requires some { 1 ≤ places }
        requires few { places ≤ 2 ^ 30 }
        requires send { config.now.send_room ≤ 2 ^ 30 }
        requires receive { config.now.receive_room ≤ 2 ^ 30 }
        requires scale { config.now.settings.own_scale ≤ 14 }
        ensures ends { IfOk result (λ h. h.ends ≡ replicate places None) }
        ensures alarms { IfOk result (λ h. h.alarms ≡ replicate places spec.never) }
        ensures taken { IfOk result (λ h. h.taken ≡ replicate places 0) }
        ensures news { IfOk result (λ h. h.news ≡ replicate places spec.never) }
        ensures listeners { IfOk result (λ h. h.listeners ≡ []) }
        ensures config { IfOk result (λ h. h.config ≡ config.now) }
    {
        let mut slots = Vec::with_capacity(alloc, places)?;
        for _ in 0..places {
            slots.push_reserved(Slot {
                connection: Connection::new(
                    alloc,
                    config.send_room,
                    config.receive_room,
                    &config.settings,
                )?,
                owner: Owner::Nobody,
                generation: 0,
                challenges: CHALLENGES,
                hop_limit: HOP_LIMIT,
                reported: None,
            });
        }
        Ok(TcpHost {
            slots,
            table: Table::new(alloc, config.table_key, places)?,
            alarms: Alarms::new(alloc, places)?,
            taken: Alarms::filled(alloc, places, 0)?,
            news: Alarms::new(alloc, places)?,
            listeners: Vec::new(alloc),
            resets: RESETS,
            config: *config,
            recent: 0,
        })
    }

    /// The place whose connection has these ends. None, exactly if no connection has them.
    pub fn find(&self, endpoints: &Endpoints) -> Option<usize>
        ensures some { IfSome result (IsPlaceOf endpoints.now self.now.ends) }
        ensures none { IsNone result → IsNowhere endpoints.now self.now.ends }
    {
        self.table.find(endpoints)
    }

    /// What a connection to a peer of this address begins with.
    pub(crate) fn settings_for(&self, address: &IpAddress) -> Settings
        ensures value { result ≡ spec.settings_for self.now.config address.now }
        ensures scale { result.own_scale ≤ 14 }
    {
        Settings {
            own_mss: self.link_mss(address),
            ..self.config.settings
        }
    }

    /// What a connection begins with for which a peer of this address asks.
    pub(crate) fn accepted_settings_for(&self, address: &IpAddress) -> Settings
        ensures value { result ≡ spec.accepted_settings_for self.now.config address.now }
        ensures scale { result.own_scale ≤ 14 }
    {
        Settings {
            keep_alive: self.config.accepted_keep_alive,
            ..self.settings_for(address)
        }
    }

    /// The most octets of a segment to a peer of this address.
    pub(crate) fn link_mss(&self, address: &IpAddress) -> u16
        ensures { result ≡ spec.link_mss self.now.config address.now }
    {
        match address {
            IpAddress::Ipv4(_) => self.config.mss_v4,
            IpAddress::Ipv6(_) => self.config.mss_v6,
        }
    }

    /// The place that the next connection gets, where no half-open one gives its place: a free one, or else the one whose TIME-WAIT ends first.
    pub(crate) fn next_place(&self) -> Option<usize>
        ensures value { spec.IsNextPlace self.now result }
        ensures within { IfSome result (λ place. place < length self.now.slots) }
    {
        let place = self.taken.first();
        if self.taken.get(place) < NEVER {
            Some(place)
        } else {
            None
        }
    }

    /// A place has these ends, and something is due there at once.
    pub(crate) fn enroll(&mut self, place: usize, endpoints: &Endpoints)
        requires within { place < length self.old.slots }
        requires new { IsNowhere endpoints.now self.old.ends }
        ensures { self.new ≡ spec.enrolled place endpoints.now self.old }
    {
        self.table.remove(place);
        let _is_new = self.table.insert(place, endpoints);
        self.alarms.set(place, 0);
        self.taken.set(place, NEVER);
        self.news.set(place, NEVER);
    }

    /// A place is free again.
    pub(crate) fn vacate(&mut self, place: usize)
        requires { place < length self.old.slots }
        ensures value { self.new ≡ spec.vacated place self.old }
        ensures nowhere { (e : Endpoints) → IsNowhere e self.old.ends → IsNowhere e self.new.ends }
    {
        self.table.remove(place);
        self.alarms.set(place, NEVER);
        self.taken.set(place, 0);
        self.slots[place].owner = Owner::Nobody;
    }
}

/// The MSS of a peer of this address that tells none (RFC 9293 3.7.1).
pub(crate) fn default_mss(address: &IpAddress) -> u16
    ensures { result ≡ spec.default_mss address.now }
{
    match address {
        IpAddress::Ipv4(_) => 536,
        IpAddress::Ipv6(_) => 1_220,
    }
}
