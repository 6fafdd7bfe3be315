//! The guard in front of a host: how it is set, and what it tells.
ghost use Rattle.std.specs.Prelude.{◌≡◌, ◌≢◌, IsSomeAnd, None};
ghost use Rattle.iface_c.specs.Calls.{Did};
ghost use Rattle.iface_c.specs.Addresses.{address_in};
ghost use Rattle.iface_c.specs.Guarding.{ShowsConflict, bucket_in, conflict_of, drops_shown, pinned_conflict_of, usual_guard};
ghost use Rattle.iface_c.specs.Guarding.{watch_in};
ghost use Rattle.iface_host.specs.Guarded as guarded;
ghost use Rattle.iface_host.specs.Guarded.{after_unpin, pin_refusal, unpin_refusal};
ghost use Rattle.iface_c.specs.Handle.{host_in};
ghost use Rattle.iface_c.specs.Properties.{Shows, ethernet_of, lack};
ghost use Rattle.iface_c.specs.Status.{code_by, code_with};

use crate::addresses::IfaceAddress;
use crate::handle::Iface;
use crate::status::{BAD_ARGUMENT, NO_HOST, NOT_THERE, OK, code};
use guard::{Answers, Counts, Defence, Guard, Pins, Watch};
use ip_wire::EthernetAddress;
use net_base::bucket::Bucket;
use std::alloc::Global;

/// A rate: one in each interval, and so many at once.
#[repr(C)]
#[derive(Drop)]
pub struct IfaceRate {
    /// The interval in microseconds; 0 sets no bound.
    pub interval: u32,
    /// How many at once.
    pub at_once: u32,
}

impl IfaceRate {
    /// A bucket by this rate, that is full.
    fn bucket(&self) -> Bucket
        ensures { result ≡ bucket_in self.now }
    {
        Bucket::new(self.interval, self.at_once)
    }
}

/// The rules of a guard, each with its switch and its number.
#[repr(C)]
#[derive(Drop)]
pub struct IfaceGuard {
    /// Echo requests of either ICMP, and fragments of ICMP.
    pub echo_requests: IfaceRate,
    /// Errors of either ICMP; while a rate of these or of resets is used up, confirmed neighbours have as many.
    pub errors: IfaceRate,
    /// Resets, likewise.
    pub resets: IfaceRate,
    /// How long a neighbour is known that isn't confirmed, in microseconds; 0: as long as any other.
    pub strangers_stay: u32,
    /// Whether there is a guard at all: 0, or not.
    pub on: u8,
    /// Whether what claims an own address is dropped, or comes from one.
    pub own_addresses: u8,
    /// Whether datagrams are dropped that could go to and fro for ever.
    pub loops: u8,
    /// Whether fragments are dropped.
    pub fragments: u8,
    /// Whether sockets that wait for a neighbour and frames take turns in asking for one.
    pub turns: u8,
    /// Whether an answer to a query that waits stays where a later query would only put it off.
    pub reports: u8,
    /// Whether an advertisement of which nothing is learnt leaves the neighbours.
    pub routers: u8,
    /// Whether half of the slots for fragments are kept for neighbours that are known.
    pub slots: u8,
    /// How many times as long an error may be as what it answers; 0 sets no bound.
    pub longest_error: u32,
    /// How long after the announcement of an own address the next one may be sent, in microseconds; 0: none is.
    pub defend: u32,
}

impl IfaceGuard {
    /// What most programs want: the rules and rates of [`Watch::new`], which have no rate of echo requests.
    pub(crate) fn usual() -> IfaceGuard
        ensures { result ≡ usual_guard }
    {
        IfaceGuard {
            echo_requests: IfaceRate {
                interval: 0,
                at_once: 0,
            },
            errors: IfaceRate {
                interval: 10_000,
                at_once: 10,
            },
            resets: IfaceRate {
                interval: 10_000,
                at_once: 10,
            },
            strangers_stay: 20_000_000,
            on: 1,
            own_addresses: 1,
            loops: 1,
            fragments: 0,
            turns: 1,
            reports: 1,
            routers: 1,
            slots: 1,
            longest_error: 3,
            defend: 0,
        }
    }

    /// A guard by these rules, that has noted nothing.
    pub(crate) fn watch(&self) -> Watch
        ensures { result ≡ watch_in self.now }
    {
        Watch {
            is_on: self.on != 0,
            guard: Guard {
                keeps_own_addresses: self.own_addresses != 0,
                drops_fragments: self.fragments != 0,
                drops_loops: self.loops != 0,
                echo_requests: self.echo_requests.bucket(),
                strangers_stay: self.strangers_stay,
                takes_turns: self.turns != 0,
                keeps_reports: self.reports != 0,
                keeps_neighbors: self.routers != 0,
                keeps_slots: self.slots != 0,
                pins: Pins::new(),
                asked: None,
            },
            answers: Answers {
                errors: self.errors.bucket(),
                known_errors: self.errors.bucket(),
                resets: self.resets.bucket(),
                known_resets: self.resets.bucket(),
                longest_error: self.longest_error,
            },
            counts: Counts::NONE,
            conflict: None,
            pinned_conflict: None,
            defence: Defence {
                interval: u64::from(self.defend),
                last: None,
                owed: None,
            },
        }
    }
}

/// How many frames a guard dropped, by the reason, and how many answers it held back.
#[repr(C)]
#[derive(Drop)]
pub struct IfaceDrops {
    /// Messages that claim an own address.
    pub own_address: u64,
    /// Packets from an own address.
    pub own_source: u64,
    /// Messages that tell another hardware address of a pinned neighbour.
    pub pinned: u64,
    /// Fragments, and those of strangers for which no slot is left, as half are kept for known neighbours.
    pub fragment: u64,
    /// Datagrams that could go to and fro for ever.
    pub loops: u64,
    /// Echo requests, and fragments of ICMP, beyond their rate.
    pub echo_request: u64,
    /// Errors of either ICMP that were held back.
    pub error: u64,
    /// Resets that were held back.
    pub reset: u64,
}

/// Writes how many frames the guard dropped, by the reason, and how many answers it held back.
#[unsafe(no_mangle)]
pub extern "C" fn iface_guard_drops(
    handle: &mut Iface,
    alloc: Global,
    drops: &mut IfaceDrops,
) -> u32
    ensures done { Did result (λ old new. Shows drops_shown drops.new old new) handle.old handle.new }
    ensures code { result ≡ code_by (λ _. None) (host_in handle.old) }
    ensures kept { result ≢ 0 → drops.new ≡ drops.old }
{
    let Some(host) = handle.take(alloc) else {
        return NO_HOST;
    };
    let counts = host.drops();
    handle.put(host);
    *drops = IfaceDrops {
        own_address: counts.own_address,
        own_source: counts.own_source,
        pinned: counts.pinned,
        fragment: counts.fragment,
        loops: counts.loops,
        echo_request: counts.echo_request,
        error: counts.error,
        reset: counts.reset,
    };
    OK
}

/// Writes who claimed an own address last, and when.
#[unsafe(no_mangle)]
pub extern "C" fn iface_guard_conflict(
    handle: &mut Iface,
    alloc: Global,
    hardware_address: &mut [u8; 6],
    at: &mut i64,
) -> u32
    ensures done { Did result
        (λ old new. ShowsConflict conflict_of hardware_address.new at.new old new) handle.old handle.new }
    ensures code { result ≡ code_by (lack conflict_of) (host_in handle.old) }
    ensures kept { result ≢ 0 → (hardware_address.new ≡ hardware_address.old) × (at.new ≡ at.old) }
{
    let Some(host) = handle.take(alloc) else {
        return NO_HOST;
    };
    let last = host.conflict();
    handle.put(host);
    match last {
        Some(conflict) => {
            let octets = conflict.hardware.0;
            *hardware_address = octets;
            *at = conflict.at.total_micros();
            OK
        }
        None => NOT_THERE,
    }
}

/// Writes who claimed a pinned address last, and when.
#[unsafe(no_mangle)]
pub extern "C" fn iface_guard_pinned_conflict(
    handle: &mut Iface,
    alloc: Global,
    hardware_address: &mut [u8; 6],
    at: &mut i64,
) -> u32
    ensures done { Did result
        (λ old new. ShowsConflict pinned_conflict_of hardware_address.new at.new old new) handle.old handle.new }
    ensures code { result ≡ code_by (lack pinned_conflict_of) (host_in handle.old) }
    ensures kept { result ≢ 0 → (hardware_address.new ≡ hardware_address.old) × (at.new ≡ at.old) }
{
    let Some(host) = handle.take(alloc) else {
        return NO_HOST;
    };
    let last = host.pinned_conflict();
    handle.put(host);
    match last {
        Some(claim) => {
            let octets = claim.hardware.0;
            *hardware_address = octets;
            *at = claim.at.total_micros();
            OK
        }
        None => NOT_THERE,
    }
}

/// Pins a neighbour to a hardware address. An entry of it with another one expires at once.
#[unsafe(no_mangle)]
pub extern "C" fn iface_guard_pin(
    handle: &mut Iface,
    alloc: Global,
    address: &IfaceAddress,
    hardware_address: &[u8; 6],
) -> u32
    ensures done { Did result (λ old new. IsSomeAnd (address_in address.now)
        (λ pinned. guarded.Pins pinned (ethernet_of hardware_address.now) old new)) handle.old handle.new }
    ensures code { result ≡ code_with (λ pinned host. pin_refusal host pinned (ethernet_of hardware_address.now))
        (address_in address.now) (host_in handle.old) }
{
    let Some(address) = address.ip() else {
        return BAD_ARGUMENT;
    };
    let Some(mut host) = handle.take(alloc) else {
        return NO_HOST;
    };
    let done = host.pin(address, EthernetAddress(*hardware_address));
    handle.put(host);
    match done {
        Ok(()) => OK,
        Err(refusal) => code(refusal),
    }
}

/// Pins a neighbour no more.
#[unsafe(no_mangle)]
pub extern "C" fn iface_guard_unpin(
    handle: &mut Iface,
    alloc: Global,
    address: &IfaceAddress,
) -> u32
    ensures done { Did result (λ old new. IsSomeAnd (address_in address.now) (λ pinned. new ≡ after_unpin pinned old))
        handle.old handle.new }
    ensures code { result ≡ code_with (λ pinned host. unpin_refusal host pinned) (address_in address.now) (host_in handle.old) }
{
    let Some(address) = address.ip() else {
        return BAD_ARGUMENT;
    };
    let Some(mut host) = handle.take(alloc) else {
        return NO_HOST;
    };
    let done = host.unpin(address);
    handle.put(host);
    match done {
        Ok(()) => OK,
        Err(refusal) => code(refusal),
    }
}
