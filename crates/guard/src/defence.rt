//! The defence of an own IPv4 address (RFC 5227 2.4 c).
ghost use Rattle.std.specs.Prelude.{◌≡◌};
ghost use Rattle.guard.specs.Defence as spec;

use crate::guard::{is_ahead, micros};
use ip_address::{EthernetAddress, HardwareAddress, Ipv4Address};
use ip_wire::octets::{u16_at, u32_at};
use net_base::time::Instant;

/// Whether own addresses are defended, and what is owed: a claim of an own IPv4 address by ARP is answered by one announcement,
/// if none was owed for so long before. An announcement is a broadcast from the own hardware address, which others on the link
/// believe instead.
#[derive(Clone, Copy, Debug, PartialEq, Eq)]
pub struct Defence {
    /// How long after an announcement the next one may be owed, in microseconds; 0: none is ever owed. RFC 5227 has ten seconds.
    pub interval: u64,
    /// When the last one came to be owed, in microseconds.
    pub last: Option<u64>,
    /// The address that is to be announced.
    pub owed: Option<Ipv4Address>,
}

impl Defence {
    /// No address is defended.
    pub const NONE: Defence = Defence {
        interval: 0,
        last: None,
        owed: None,
    };

    /// Notes a frame that was dropped as it claims an own address. An announcement of that is owed from then on, if the frame is of
    /// ARP, and none came to be owed within the interval.
    pub(crate) fn note_claim(&mut self, now: Instant, frame: &[u8])
        ensures { self.new ≡ spec.after_claim now frame.now self.old }
    {
        if let Some(address) = claimed_in(frame) {
            if self.is_due(now) {
                self.last = Some(micros(now));
                self.owed = Some(address);
            }
        }
    }

    /// The address that is to be announced, if there is one. It is owed no more.
    pub(crate) fn take(&mut self) -> Option<Ipv4Address>
        ensures taken { result ≡ self.old.owed }
        ensures left { self.new ≡ spec.after_taking self.old }
    {
        let owed = self.owed;
        self.owed = None;
        owed
    }

    /// Whether a claim would be answered at an instant. What came to be owed more than a minute ahead doesn't count.
    fn is_due(&self, now: Instant) -> bool
        ensures { result ≡ spec.is_due now self.now }
    {
        if self.interval == 0 {
            return false;
        }
        match self.last {
            None => true,
            Some(last) => {
                let now = micros(now);
                last.saturating_add(self.interval) <= now || is_ahead(now, last)
            }
        }
    }
}

/// The address of the sender of an ARP packet (RFC 826), if a frame has one.
fn claimed_in(frame: &[u8]) -> Option<Ipv4Address>
    ensures { result ≡ spec.claimed_in frame.now }
{
    if frame.len() < 42 || u16_at(frame, 12) != 0x0806 {
        return None;
    }
    Some(Ipv4Address {
        bits: u32_at(frame, 28),
    })
}

/// The frame that announces what is owed, on Ethernet.
pub(crate) fn announced(
    hardware: Option<HardwareAddress>,
    owed: Option<Ipv4Address>,
) -> Option<[u8; 42]>
    ensures { result ≡ spec.announced hardware owed }
{
    let address = owed?;
    match hardware {
        Some(HardwareAddress::Ethernet(own)) => Some(announcement(own, address)),
        Some(HardwareAddress::Ip) | None => None,
    }
}

/// A frame that announces an address (RFC 5227 1.1): a broadcast ARP request from it and for it, whose sender has this hardware
/// address.
pub fn announcement(hardware: EthernetAddress, address: Ipv4Address) -> [u8; 42]
    ensures { result ≡ spec.announcement hardware address }
{
    announcement_of(&hardware.0, &address.octets())
}

/// Such a frame, by the octets of the two addresses.
fn announcement_of(h: &[u8; 6], a: &[u8; 4]) -> [u8; 42]
    ensures { result ≡ spec.announcement_of h.now a.now }
{
    [
        255, 255, 255, 255, 255, 255, h[0], h[1], h[2], h[3], h[4], h[5], 8, 6, 0, 1, 8, 0, 6, 4,
        0, 1, h[0], h[1], h[2], h[3], h[4], h[5], a[0], a[1], a[2], a[3], 0, 0, 0, 0, 0, 0, a[0],
        a[1], a[2], a[3],
    ]
}
