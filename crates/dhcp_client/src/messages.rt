//! What a client sends (RFC 2131 4.1, 4.4, table 5).
ghost use Rattle.std.specs.Prelude.{◌≡◌, ◌+◌, ◌*◌, ◌<◌, ◌≤◌, ◌^◌, ◌%◌, min};
ghost use Rattle.dhcp_client.specs.Client.{after_giving_up};
ghost use Rattle.dhcp_client.specs.Messages as spec;

use crate::client::{Asked, DhcpClient, DhcpPhase, SILENCE};
use crate::lease::{DhcpLease, LeaseTimes};
use crate::{DhcpMessageType, DhcpOptions, DhcpRepr};
use ip_address::Ipv4Address;

/// The longest message that a client takes, in octets: 1,500 without the headers of IPv4 and UDP.
pub(crate) const MAX_SIZE: u16 = 1472;

/// The least time between two requests for a lease's renewal, in microseconds (RFC 2131 4.4.5).
const MIN_RENEWAL: u128 = 60_000_000;

/// A message that a client sends: from port 68 to port 67 of this address.
#[derive(Clone, Copy, Debug, PartialEq, Eq)]
pub struct DhcpMessage {
    pub repr: DhcpRepr,
    /// The server, or the broadcast address. It goes from the client's address if that has one, otherwise from 0.0.0.0.
    pub dst: Ipv4Address,
}

impl DhcpClient {
    /// Does what is due at an instant, in microseconds: gives up a lease that has ended or a request that wasn't answered,
    /// and returns the message that is to be sent now, if there is one. `random` is used once, for the number of a new
    /// exchange, and for how long an answer is waited for: the next instant is random by a second each way (RFC 2131 4.1).
    ///
    /// Nothing changes before [`DhcpClient::poll_at`]. A message that can't be sent counts as lost.
    pub fn next_message(&mut self, now: u64, random: u32) -> Option<DhcpMessage>
        ensures message { result ≡ spec.message_at now random self.old }
        ensures client { self.new ≡ spec.after_asking now random self.old }
    {
        self.give_up(now);
        if !self.is_to_send(now) {
            return None;
        }
        if self.begins_exchange() {
            self.transaction_id = random;
        }
        let message = self.message(now);
        self.note_sent(now, random);
        Some(message)
    }

    /// Whether the phase's next message has a number of its own.
    fn begins_exchange(&self) -> bool
        ensures { result ≡ spec.begins_exchange self.now }
    {
        match self.phase {
            DhcpPhase::Discovering => self.tries == 0,
            DhcpPhase::Requesting { .. } => false,
            DhcpPhase::Rebooting { .. } => self.tries == 0,
            DhcpPhase::Bound(_) => true,
        }
    }

    /// The phase's message.
    fn message(&self, now: u64) -> DhcpMessage
        ensures { result ≡ spec.message now self.now }
    {
        match self.phase {
            DhcpPhase::Discovering => self.broadcast(DhcpMessageType::Discover, None, None),
            DhcpPhase::Requesting { address, server } => {
                self.broadcast(DhcpMessageType::Request, Some(address), Some(server))
            }
            DhcpPhase::Rebooting { address } => {
                self.broadcast(DhcpMessageType::Request, Some(address), None)
            }
            DhcpPhase::Bound(lease) => self.renewal(&lease, is_rebinding(now, &lease)),
        }
    }

    /// A message of a client without an address, to all servers.
    fn broadcast(
        &self,
        message_type: DhcpMessageType,
        requested_ip: Option<Ipv4Address>,
        server: Option<Ipv4Address>,
    ) -> DhcpMessage
        ensures { result ≡ spec.broadcast message_type requested_ip server self.now }
    {
        DhcpMessage {
            repr: self.repr(
                message_type,
                true,
                Ipv4Address::UNSPECIFIED,
                self.options(requested_ip, server),
            ),
            dst: Ipv4Address::BROADCAST,
        }
    }

    /// A request for a lease that the client has: to its server, or to all.
    fn renewal(&self, lease: &DhcpLease, is_rebinding: bool) -> DhcpMessage
        ensures { result ≡ spec.renewal is_rebinding lease.now self.now }
    {
        DhcpMessage {
            repr: self.repr(
                DhcpMessageType::Request,
                false,
                lease.address,
                self.options(None, None),
            ),
            dst: if is_rebinding {
                Ipv4Address::BROADCAST
            } else {
                lease.server
            },
        }
    }

    /// A message of the client.
    pub(crate) const fn repr(
        &self,
        message_type: DhcpMessageType,
        broadcast: bool,
        client_ip: Ipv4Address,
        options: DhcpOptions,
    ) -> DhcpRepr
        ensures { result ≡ spec.repr message_type broadcast client_ip options self.now }
    {
        DhcpRepr {
            message_type,
            transaction_id: self.transaction_id,
            secs: 0,
            broadcast,
            client_ip,
            your_ip: Ipv4Address::UNSPECIFIED,
            server_ip: Ipv4Address::UNSPECIFIED,
            relay_agent_ip: Ipv4Address::UNSPECIFIED,
            client_hardware_address: self.hardware_addr,
            options,
        }
    }

    /// The options of the client's messages.
    const fn options(
        &self,
        requested_ip: Option<Ipv4Address>,
        server: Option<Ipv4Address>,
    ) -> DhcpOptions
        ensures { result ≡ spec.options requested_ip server self.now }
    {
        DhcpOptions {
            subnet_mask: None,
            router: None,
            dns_servers: [None, None, None],
            requested_ip,
            lease_duration: None,
            server_identifier: server,
            max_size: Some(MAX_SIZE),
            mtu: None,
            renew_duration: None,
            rebind_duration: None,
            client_identifier: Some(self.hardware_addr),
        }
    }

    /// Notes that the phase's message was sent.
    fn note_sent(&mut self, now: u64, random: u32)
        ensures { self.new ≡ spec.after_sending now random self.old }
    {
        let phase = self.phase;
        let sent_at = u128::from(now);
        self.asked = Some(Asked {
            at: now,
            server: asked_server(now, &phase),
        });
        self.next_at = next_at(now, random, self.tries, &phase);
        self.tries = self.tries.saturating_add(1);
        if let DhcpPhase::Discovering = phase {
            self.discover_after = sent_at + SILENCE;
        } else {
            self.request_after = sent_at + SILENCE;
        }
    }
}

/// Whether a lease's renewal is asked of any server.
fn is_rebinding(now: u64, lease: &DhcpLease) -> bool
    ensures { result ≡ spec.is_rebinding now lease.now }
{
    match lease.times {
        None => false,
        Some(times) => times.rebind_at <= u128::from(now),
    }
}

/// The server that a phase's message asks; `None` for any.
fn asked_server(now: u64, phase: &DhcpPhase) -> Option<Ipv4Address>
    ensures { result ≡ spec.asked_server now phase.now }
{
    match phase {
        DhcpPhase::Discovering => None,
        DhcpPhase::Requesting { server, .. } => Some(*server),
        DhcpPhase::Rebooting { .. } => None,
        DhcpPhase::Bound(lease) => {
            if is_rebinding(now, lease) {
                None
            } else {
                Some(lease.server)
            }
        }
    }
}

/// When a phase's message is sent again, if there is no answer.
fn next_at(now: u64, random: u32, tries: u8, phase: &DhcpPhase) -> u128
    ensures { result ≡ spec.next_at now random tries phase.now }
{
    match phase {
        DhcpPhase::Bound(lease) => match lease.times {
            None => u128::from(now),
            Some(times) => next_renewal(now, &times),
        },
        _ => u128::from(now) + u128::from(delay(random, tries)),
    }
}

/// How long an answer is waited for, in microseconds: 4 seconds at first, doubled up to 64, and random by a second each way
/// (RFC 2131 4.1).
fn delay(random: u32, tries: u8) -> u64
    ensures value { result ≡ spec.delay random tries }
    ensures least { 3000000 ≤ result }
    ensures most { result ≤ 65000000 }
{
    let seconds = match tries {
        0 => 4,
        1 => 8,
        2 => 16,
        3 => 32,
        _ => 64,
    };
    seconds * 1_000_000 - 1_000_000 + u64::from(random) % 2_000_001
}

/// When a lease's renewal is asked for again: after half of the time until any server is asked, or until the lease ends, but not
/// before a minute (RFC 2131 4.4.5); and when it is time to ask any server.
fn next_renewal(now: u64, times: &LeaseTimes) -> u128
    ensures { result ≡ spec.next_renewal now times.now }
{
    let now = u128::from(now);
    if times.rebind_at <= now {
        now + half_until(now, times.expires_at)
    } else {
        times.rebind_at.min(now + half_until(now, times.rebind_at))
    }
}

/// Half of the time until an instant, but a minute at least.
fn half_until(now: u128, end: u128) -> u128
    ensures value { result ≡ spec.half_until now end }
{
    (end.saturating_sub(now) / 2).max(MIN_RENEWAL)
}
