//! How the address of a lease is tested before it is used, and announced (RFC 2131 4.4.1, RFC 5227 2.1.1, 2.3); and how a lease is
//! given back.
ghost use Rattle.std.specs.Prelude.{◌≡◌, OnOk, OnErr, Some};
ghost use Rattle.std.specs.Result.{result_err};
ghost use Rattle.dhcp_client.specs.Client as client;
ghost use Rattle.iface_dhcp.specs.Apply.{is_same_router};
ghost use Rattle.iface_dhcp.specs.Dhcp.{is_in_test, word};
ghost use Rattle.iface_dhcp.specs.Poll as poll;
ghost use Rattle.iface_dhcp.specs.Probe as spec;

use crate::apply::is_same_router;
use crate::dhcp::Dhcp;
use dhcp_client::{DhcpEvent, Probing};
use iface_host::{IfaceHost, Refusal, Watched};
use ip_wire::Ipv4Address;

impl Dhcp {
    /// Lets the address of each lease be tested before it is used, and announced, or not. Then the host has it at once, and nobody
    /// is asked. It belongs before the first lease.
    pub fn set_probes(&mut self, on: bool)
        ensures { self.new ≡ spec.with_probes on self.old }
    {
        self.probes = on;
    }

    /// Releases the lease: tells its server, which doesn't answer, and gives it up. `Empty` if the client has none; then nothing
    /// changes. The message waits at the UDP socket until the host sends it, from the address of the lease. A client that is polled
    /// again asks for offers. [`Dhcp::lost`] tells why the message is lost, if it is.
    pub fn release(&mut self, host: &mut IfaceHost) -> Result<(), Refusal>
        ensures released { OnOk result (spec.Releases self.old self.new host.old host.new) }
        ensures why { result_err result ≡ spec.release_refusal self.old }
        ensures dhcp { OnErr result (self.new ≡ self.old) }
        ensures host { OnErr result (host.new ≡ host.old) }
    {
        let mut random = self.random;
        let Some(message) = self.client.release(random.rand_u32()) else {
            return Err(Refusal::Empty);
        };
        self.random = random;
        self.send(host, &message);
        Ok(())
    }

    /// Does what is due of the test of an address at an instant.
    #[inline(never)]
    pub(crate) fn test(&mut self, host: &mut IfaceHost, now: u64)
        ensures { spec.Tests now self.old self.new host.old host.new }
    {
        self.judge(host, now);
        self.follow(host, now);
        self.ask(host, now);
    }

    /// Declines the lease, if another host was seen to have its address before that is in use; then a probe is answered by an
    /// announcement.
    fn judge(&mut self, host: &mut IfaceHost, now: u64)
        ensures { spec.JudgesOf self.old.probing now self.old self.new host.old host.new }
    {
        let Some(mut probing) = self.probing else {
            return;
        };
        let seen = host.take_watched();
        if is_conflict(&probing, &seen) {
            self.decline(host, now);
            return;
        }
        if is_probed(&seen) {
            probing.announce_again();
        }
        self.probing = Some(probing);
    }

    /// Declines the lease at an instant.
    #[inline(never)]
    fn decline(&mut self, host: &mut IfaceHost, now: u64)
        ensures { spec.Declines now self.old self.new host.old host.new }
    {
        let word = self.random.rand_u32();
        if let Some(message) = self.client.decline(now, word) {
            self.send(host, &message);
        }
    }

    /// Begins to test the address of the lease at an instant, if another one or none is tested.
    fn follow(&mut self, host: &mut IfaceHost, now: u64)
        ensures { spec.Follows (spec.is_followed self.old) now self.old self.new host.old host.new }
    {
        let address = self.address_to_test();
        if is_same_router(&self.address_in_test(), &address) {
            return;
        }
        host.watch_address(address);
        self.probing = match address {
            Some(address) => Some(Probing::begin(address, now, self.random.rand_u32())),
            None => None,
        };
    }

    /// The address that is to be tested: that of the client's lease.
    fn address_to_test(&self) -> Option<Ipv4Address>
        ensures { result ≡ spec.address_to_test self.now }
    {
        if !self.probes {
            return None;
        }
        match self.client.lease() {
            Some(lease) => Some(lease.address),
            None => None,
        }
    }

    /// The address that is tested, or in use.
    fn address_in_test(&self) -> Option<Ipv4Address>
        ensures { result ≡ spec.address_in_test self.now.probing }
    {
        match self.probing {
            Some(probing) => Some(probing.address),
            None => None,
        }
    }

    /// Sends the ARP request that is due at an instant, if one is. One for which there is no memory counts as sent, and the reason is
    /// kept.
    fn ask(&mut self, host: &mut IfaceHost, now: u64)
        ensures { spec.AsksOf self.old.probing now self.old self.new host.old host.new }
    {
        let Some(mut probing) = self.probing else {
            return;
        };
        let mut random = self.random;
        let Some(sender) = probing.next_request(now, random.rand_u32()) else {
            return;
        };
        self.random = random;
        self.probing = Some(probing);
        self.lost = send_request(host, sender, probing.address);
    }

    /// Whether an address is tested that isn't in use yet.
    pub(crate) const fn is_in_test(&self) -> bool
        ensures { result ≡ is_in_test self.now.probing }
    {
        match self.probing {
            Some(probing) => !probing.is_tested(),
            None => false,
        }
    }

    /// What has become of the lease since the last call, once its address was tested. `None` if it hasn't changed.
    pub(crate) fn take_event(&mut self) -> Option<DhcpEvent>
        ensures told { result ≡ poll.told self.old }
        ensures after { self.new ≡ poll.after_telling_of self.old }
    {
        if self.is_in_test() {
            return None;
        }
        self.client.take_event()
    }
}

/// Queues an ARP request at a host, of a sender for a target, and returns why it is lost, if it is.
fn send_request(host: &mut IfaceHost, sender: Ipv4Address, target: Ipv4Address) -> Option<Refusal>
    ensures { spec.Requests sender target result host.old host.new }
{
    match host.send_arp_request(sender, target) {
        Ok(()) => None,
        Err(refusal) => Some(refusal),
    }
}

/// Whether another host has the address that is tested, and isn't in use yet.
fn is_conflict(probing: &Probing, seen: &Option<Watched>) -> bool
    ensures { result ≡ spec.is_conflict probing.now seen.now }
{
    !probing.is_tested() && is_seen(seen)
}

/// Whether another host uses the address that is watched, or probes for it.
fn is_seen(seen: &Option<Watched>) -> bool
    ensures { result ≡ spec.is_seen seen.now }
{
    match seen {
        Some(seen) => seen.is_used || seen.is_probed,
        None => false,
    }
}

/// Whether another host probes for the address that is watched.
fn is_probed(seen: &Option<Watched>) -> bool
    ensures { result ≡ spec.is_probed seen.now }
{
    match seen {
        Some(seen) => seen.is_probed,
        None => false,
    }
}
