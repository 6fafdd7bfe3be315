//! Whether another host has an address, before it is used, and that it is used from then on (RFC 5227 2.1.1, 2.3).
ghost use Rattle.std.specs.Prelude.{◌≡◌};
ghost use Rattle.dhcp_client.specs.Probing as spec;

use ip_address::Ipv4Address;

/// How many probes are sent.
const PROBES: u8 = 3;

/// How many requests are sent: the probes, and two announcements.
const REQUESTS: u8 = 5;

/// A second, in microseconds.
const SECOND: u128 = 1_000_000;

/// An address that is probed for, and then announced. Instants are in microseconds.
#[derive(Clone, Copy, Debug, PartialEq, Eq)]
pub struct Probing {
    pub address: Ipv4Address,
    /// How many requests were sent: three probes, and then two announcements.
    pub sent: u8,
    /// When the next one is sent.
    pub next_at: u128,
}

impl Probing {
    /// Begins to probe for an address at an instant: the first request goes within a second, by a random number.
    pub fn begin(address: Ipv4Address, now: u64, random: u32) -> Probing
        ensures { result ≡ spec.begun address now random }
    {
        Probing {
            address,
            sent: 0,
            next_at: u128::from(now) + u128::from(random % 1_000_001),
        }
    }

    /// Whether the address is in use: two seconds have passed since the third probe, and the first announcement was sent.
    pub const fn is_tested(&self) -> bool
        ensures { result ≡ spec.is_tested self.now }
    {
        self.sent > PROBES
    }

    /// When [`Probing::next_request`] does something. `None` once both announcements were sent.
    pub const fn due_at(&self) -> Option<u128>
        ensures { result ≡ spec.due_at self.now }
    {
        if self.sent < REQUESTS {
            Some(self.next_at)
        } else {
            None
        }
    }

    /// The ARP request for the address that is to be sent at an instant, if one is, by the address of its sender: 0.0.0.0 for a probe,
    /// and the address itself for an announcement. The pause until the next probe is random. A request that can't be sent counts as
    /// sent.
    pub fn next_request(&mut self, now: u64, random: u32) -> Option<Ipv4Address>
        ensures sender { result ≡ spec.sender_at now self.old }
        ensures after { self.new ≡ spec.after_request now random self.old }
    {
        if self.sent >= REQUESTS || self.next_at > u128::from(now) {
            return None;
        }
        let sender = if self.sent < PROBES {
            Ipv4Address::UNSPECIFIED
        } else {
            self.address
        };
        self.next_at = u128::from(now) + pause(random, self.sent);
        self.sent += 1;
        Some(sender)
    }

    /// Announces an address that is in use once more, as another host probes for it: two seconds behind the announcement before at
    /// the earliest.
    pub fn announce_again(&mut self)
        ensures { self.new ≡ spec.announced_again self.old }
    {
        self.sent = self.sent.min(4);
    }
}

/// The pause behind a request, by how many were sent before it.
fn pause(random: u32, sent: u8) -> u128
    ensures { result ≡ spec.pause random sent }
{
    if sent < 2 {
        SECOND + u128::from(random % 1_000_001)
    } else {
        2 * SECOND
    }
}
