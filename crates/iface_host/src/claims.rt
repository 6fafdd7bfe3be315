//! Whether other hosts use an address of IPv4, or probe for it, and how this host probes and announces (RFC 5227).
ghost use Rattle.std.specs.Prelude.{◌≡◌, ◌≤◌, IfErr, OnOk, OnErr, None, Some, length};
ghost use Rattle.std.specs.Result.{IsErrOf};
ghost use Rattle.iface_host.specs.Claims as spec;
ghost use Rattle.iface_host.specs.Properties.{hardware_of};

use crate::host::IfaceHost;
use crate::refusal::Refusal;
use guard::claim::tells_only;
use ip_wire::octets::{u16_at, u32_at};
use ip_wire::{EthernetAddress, Ipv4Address};

/// An address that is watched, and what was seen of it.
#[derive(Clone, Copy, Debug, PartialEq, Eq)]
pub struct Watched {
    /// The address.
    pub address: Ipv4Address,
    /// Whether an ARP packet came from another host that has it.
    pub is_used: bool,
    /// Whether another host probed for it (RFC 5227 1.1): an ARP request without a sender's address.
    pub is_probed: bool,
}

impl IfaceHost {
    /// Watches an address from now on, in place of the one before; or none.
    pub fn watch_address(&mut self, address: Option<Ipv4Address>)
        ensures { self.new ≡ record self.old { watched = spec.watching_if address } }
    {
        self.watched = match address {
            Some(address) => Some(watching(address)),
            None => None,
        };
    }

    /// The address that is watched, and what was seen of it since the last call, if one is. Frames that the guard drops aren't seen.
    pub fn take_watched(&mut self) -> Option<Watched>
        ensures seen { result ≡ self.old.watched }
        ensures anew { self.new ≡ record self.old { watched = spec.watching_anew self.old.watched } }
    {
        let seen = self.watched?;
        self.watched = Some(watching(seen.address));
        Some(seen)
    }

    /// Queues an ARP request to all, of a sender for a target, behind the frames that wait: without a sender's address, 0.0.0.0, it is a
    /// probe, with the target's own an announcement (RFC 5227 1.1). `NotThere` if the link has no hardware addresses, else `NoMemory` if
    /// memory for the frame is refused; then nothing changes.
    pub fn send_arp_request(
        &mut self,
        sender: Ipv4Address,
        target: Ipv4Address,
    ) -> Result<(), Refusal>
        ensures sent { OnOk result (spec.SendsRequest sender target self.old self.new) }
        ensures why { (e : Refusal) → spec.request_refusal (hardware_of self.old) ≡ Some e → IsErrOf result e }
        ensures memory { spec.request_refusal (hardware_of self.old) ≡ None → IfErr result (λ e. e ≡ Refusal.NoMemory) }
        ensures refused { OnErr result (self.new ≡ self.old) }
    {
        let Some(hardware) = self.hardware_address() else {
            return Err(Refusal::NotThere);
        };
        if self.outbox.reserve().is_err() {
            return Err(Refusal::NoMemory);
        }
        self.outbox
            .keep(&request(&hardware.0, &sender.octets(), &target.octets()));
        Ok(())
    }

    /// Keeps what a frame says of the address that is watched, if one is.
    #[inline(always)]
    pub(crate) fn note_claim(&mut self, frame: &[u8])
        ensures { self.new ≡ spec.after_claim frame.now self.old }
    {
        if let Some(watched) = self.watched {
            self.watched = Some(self.watched_by(watched, frame));
        }
    }

    /// What is seen of an address, after a frame.
    #[inline(never)]
    fn watched_by(&self, watched: Watched, frame: &[u8]) -> Watched
        ensures { result ≡ spec.watched_by (hardware_of self.now) frame.now watched }
    {
        match self.hardware_address() {
            Some(own) => seen_if(&own, frame, watched),
            None => watched,
        }
    }
}

/// An address of which nothing was seen.
fn watching(address: Ipv4Address) -> Watched
    ensures { result ≡ spec.watching address }
{
    Watched {
        address,
        is_used: false,
        is_probed: false,
    }
}

/// What is seen of an address, after a frame.
fn seen_if(own: &EthernetAddress, frame: &[u8], watched: Watched) -> Watched
    ensures { result ≡ spec.seen_if own.now frame.now watched }
{
    if frame.len() < 42 || u16_at(frame, 12) != 0x0806 || tells_only(own, frame) {
        return watched;
    }
    let sender = u32_at(frame, 28);
    let address = watched.address;
    Watched {
        address,
        is_used: watched.is_used || sender == address.bits,
        is_probed: watched.is_probed
            || u16_at(frame, 20) == 1 && sender == 0 && u32_at(frame, 38) == address.bits,
    }
}

/// A request to all, by the octets of its sender's hardware address, and of the addresses of its sender and its target.
fn request(h: &[u8; 6], s: &[u8; 4], t: &[u8; 4]) -> [u8; 42]
    ensures { result ≡ spec.request_of h.now s.now t.now }
{
    [
        255, 255, 255, 255, 255, 255, h[0], h[1], h[2], h[3], h[4], h[5], 8, 6, 0, 1, 8, 0, 6, 4,
        0, 1, h[0], h[1], h[2], h[3], h[4], h[5], s[0], s[1], s[2], s[3], 0, 0, 0, 0, 0, 0, t[0],
        t[1], t[2], t[3],
    ]
}
