//! What a server leases to a client (RFC 2131 4.4.1, 4.4.5).
ghost use Rattle.std.specs.Prelude.{◌≡◌, ◌+◌, ◌*◌, ◌<◌, ◌≤◌, ◌^◌};
ghost use Rattle.dhcp_client.specs.Lease as spec;

use crate::addresses::{is_host_address, is_leasable, mask_of, other_in, others_in};
use crate::{DhcpOptions, DhcpRepr};
use ip_address::Ipv4Address;

/// The duration of a lease without end (RFC 2131 3.3).
const INFINITE: u32 = 0xffff_ffff;

/// When a lease is renewed, and when it ends, in microseconds.
#[derive(Clone, Copy, Debug, PartialEq, Eq)]
pub struct LeaseTimes {
    /// From when on the client asks the server that leased it, T1.
    pub renew_at: u128,
    /// From when on it asks any server, T2.
    pub rebind_at: u128,
    /// From when on it no longer has the address.
    pub expires_at: u128,
}

/// An address that a client has from a server, and what the server told of the network.
#[derive(Clone, Copy, Debug, PartialEq, Eq)]
pub struct DhcpLease {
    pub address: Ipv4Address,
    /// The mask of the network: ones, and then zeros. `None` if the server gave none.
    pub subnet_mask: Option<Ipv4Address>,
    /// The address of another host, as each of the servers of names.
    pub router: Option<Ipv4Address>,
    /// Up to three servers of names, from the first place on.
    pub dns_servers: [Option<Ipv4Address>; 3],
    /// The longest packet of the network, in octets, if the server told one of at least 68 (RFC 2132 5.1).
    pub mtu: Option<u16>,
    /// The server that leased it.
    pub server: Ipv4Address,
    /// `None` for a lease without end.
    pub times: Option<LeaseTimes>,
}

/// What a client's owner is told.
#[derive(Clone, Copy, Debug, PartialEq, Eq)]
pub enum DhcpEvent {
    /// The client has this lease now: a new one, or one that was renewed.
    Configured(DhcpLease),
    /// It no longer has a lease, so its address must not be used.
    Deconfigured,
}

impl DhcpLease {
    /// The lease that an agreement gives, for a request that was sent at an instant, in microseconds. `None` exactly if the
    /// agreement doesn't say how long it lasts, or by which server it is, or if it can't be used.
    pub(crate) fn of(sent_at: u64, ack: &DhcpRepr) -> Option<DhcpLease>
        ensures { result ≡ spec.lease_of sent_at ack.now }
    {
        let (Some(server), Some(duration)) = (
            ack.options.server_identifier,
            ack.options.lease_duration,
        ) else {
            return None;
        };
        if !is_usable(ack, &server) {
            return None;
        }
        let own = ack.your_ip;
        Some(DhcpLease {
            address: own,
            subnet_mask: mask_of(&ack.options.subnet_mask),
            router: other_in(&own, &ack.options.router),
            dns_servers: others_in(&own, &ack.options.dns_servers),
            mtu: mtu_of(ack.options.mtu),
            server,
            times: times_of(sent_at, duration, &ack.options),
        })
    }

    /// Whether a lease has ended at an instant, in microseconds.
    pub(crate) fn has_ended(&self, now: u64) -> bool
        ensures { result ≡ spec.has_ended now self.now }
    {
        match self.times {
            None => false,
            Some(times) => times.expires_at <= u128::from(now),
        }
    }
}

/// The longest packet, if it has at least 68 octets.
const fn mtu_of(mtu: Option<u16>) -> Option<u16>
    ensures { result ≡ spec.mtu_of mtu }
{
    match mtu {
        Some(octets) if 68 <= octets => Some(octets),
        _ => None,
    }
}

/// The times of a lease of so many seconds from an instant on. `None` if it has no end.
fn times_of(sent_at: u64, duration: u32, options: &DhcpOptions) -> Option<LeaseTimes>
    ensures { result ≡ spec.times_of sent_at duration options.now }
{
    if duration == INFINITE {
        return None;
    }
    let (renew, rebind) = spans_of(duration, options.renew_duration, options.rebind_duration);
    let sent_at = u128::from(sent_at);
    Some(LeaseTimes {
        renew_at: sent_at + u128::from(renew),
        rebind_at: sent_at + u128::from(rebind),
        expires_at: sent_at + u128::from(duration) * 1_000_000,
    })
}

/// Whether what a message gives can be used: an address that a host of its network can have, by a server at a host's address.
pub(crate) fn is_usable(message: &DhcpRepr, server: &Ipv4Address) -> bool
    ensures { result ≡ spec.is_usable message.now server.now }
{
    is_host_address(server) && is_leasable(&message.your_ip, &message.options.subnet_mask)
}

/// T1 and T2 of a lease of so many seconds, in microseconds: as the server gave them, as far as they are in order. Otherwise
/// half of the duration, and seven eighths.
fn spans_of(duration: u32, renew: Option<u32>, rebind: Option<u32>) -> (u64, u64)
    ensures { result ≡ spec.spans_of duration renew rebind }
{
    let rebind = rebind_span(duration, rebind);
    let renew = renew_span(duration, renew, rebind);
    if renew < rebind {
        (renew, rebind)
    } else {
        (u64::from(duration) * 500_000, u64::from(duration) * 875_000)
    }
}

/// T2 in microseconds: the server's, if that is before the end.
fn rebind_span(duration: u32, rebind: Option<u32>) -> u64
    ensures { result ≡ spec.rebind_span duration rebind }
{
    match rebind {
        Some(rebind) if rebind < duration => u64::from(rebind) * 1_000_000,
        _ => u64::from(duration) * 875_000,
    }
}

/// T1 in microseconds: the server's, if that is before T2 and isn't 0.
fn renew_span(duration: u32, renew: Option<u32>, rebind: u64) -> u64
    ensures { result ≡ spec.renew_span duration renew rebind }
{
    match renew {
        Some(renew) if 0 < renew && u64::from(renew) * 1_000_000 < rebind => {
            u64::from(renew) * 1_000_000
        }
        _ => u64::from(duration) * 500_000,
    }
}
