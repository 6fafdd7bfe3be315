//! The state of a client (RFC 2131 4.4), and when it does something.
ghost use Rattle.std.specs.Prelude.{◌≡◌, ◌+◌, ◌*◌, ◌<◌, ◌≤◌, ◌^◌, ◌%◌, min};
ghost use Rattle.dhcp_client.specs.Client as spec;

use crate::lease::{DhcpEvent, DhcpLease};
use ip_address::{EthernetAddress, Ipv4Address};

/// How long a message of a kind isn't repeated, in microseconds.
pub(crate) const SILENCE: u128 = 3_000_000;

/// How often a request is sent before the client begins anew. The waits of 4, 8, 16 and 32 seconds (RFC 2131 4.1) are a minute
/// together (RFC 2131 3.1 (5)).
const MAX_TRIES: u8 = 4;

/// What a client does (RFC 2131 4.4, figure 5).
#[derive(Clone, Copy, Debug, PartialEq, Eq)]
pub enum DhcpPhase {
    /// It has no lease, and asks for offers (INIT, SELECTING).
    Discovering,
    /// It asks a server for the address that this one offered (REQUESTING).
    Requesting {
        address: Ipv4Address,
        server: Ipv4Address,
    },
    /// It asks for the address that it had before (INIT-REBOOT, REBOOTING).
    Rebooting {
        address: Ipv4Address,
    },
    /// It has a lease (BOUND), and once it is time asks for another time (RENEWING, REBINDING).
    Bound(DhcpLease),
}

/// A message that may be answered.
#[derive(Clone, Copy, Debug, PartialEq, Eq)]
pub struct Asked {
    /// When it was sent, in microseconds.
    pub at: u64,
    /// The server that it asks; `None` for any.
    pub server: Option<Ipv4Address>,
}

/// A client of DHCP. Instants are in microseconds, since an origin of the caller's choice.
#[derive(Clone, Copy, Debug, PartialEq, Eq)]
pub struct DhcpClient {
    pub hardware_addr: EthernetAddress,
    pub phase: DhcpPhase,
    /// The number of the exchange (xid).
    pub transaction_id: u32,
    /// What was asked last, until the answer that counts.
    pub asked: Option<Asked>,
    /// How often the phase's message was sent.
    pub tries: u8,
    /// When it is sent next.
    pub next_at: u128,
    /// Before this instant no DISCOVER is sent.
    pub discover_after: u128,
    /// Before this instant no REQUEST is sent.
    pub request_after: u128,
    /// How many leases were declined, up to 255.
    pub declined: u8,
    /// Whether the lease has changed since the owner was told.
    pub has_changed: bool,
}

impl DhcpClient {
    /// A client with a hardware address. With an address that it had before it asks for that one first.
    pub const fn new(hardware_addr: EthernetAddress, known: Option<Ipv4Address>) -> DhcpClient
        ensures { result ≡ spec.new_client hardware_addr known }
    {
        let phase = match known {
            None => DhcpPhase::Discovering,
            Some(address) => DhcpPhase::Rebooting { address },
        };
        DhcpClient {
            hardware_addr,
            phase,
            transaction_id: 0,
            asked: None,
            tries: 0,
            next_at: 0,
            discover_after: 0,
            request_after: 0,
            declined: 0,
            has_changed: false,
        }
    }

    /// The lease that the client has, if it has one.
    pub const fn lease(&self) -> Option<DhcpLease>
        ensures { result ≡ spec.lease self.now }
    {
        match self.phase {
            DhcpPhase::Bound(lease) => Some(lease),
            _ => None,
        }
    }

    /// What has become of the lease since the last call. `None` if it hasn't changed.
    pub fn take_event(&mut self) -> Option<DhcpEvent>
        ensures event { result ≡ spec.event self.old }
        ensures client { self.new ≡ spec.after_telling self.old }
    {
        if !self.has_changed {
            return None;
        }
        self.has_changed = false;
        match self.phase {
            DhcpPhase::Bound(lease) => Some(DhcpEvent::Configured(lease)),
            _ => Some(DhcpEvent::Deconfigured),
        }
    }

    /// Gives up the lease, if there is one, and asks for its address again, as once a link came up (RFC 2131 3.2): a server that
    /// knows of another network refuses it, and then the client asks for offers. Without a lease it begins anew. The owner is told
    /// of a lease that is gone. What is sent next still keeps its distance from what was sent before.
    pub fn reset(&mut self)
        ensures { self.new ≡ spec.after_reset self.old }
    {
        let phase = match self.phase {
            DhcpPhase::Bound(lease) => DhcpPhase::Rebooting {
                address: lease.address,
            },
            DhcpPhase::Rebooting { address } => DhcpPhase::Rebooting { address },
            _ => DhcpPhase::Discovering,
        };
        self.begin(phase);
    }

    /// Asks for offers anew.
    pub(crate) fn restart(&mut self)
        ensures { self.new ≡ spec.after_restart self.old }
    {
        self.begin(DhcpPhase::Discovering);
    }

    /// Begins a phase, without a lease.
    fn begin(&mut self, next: DhcpPhase)
        ensures { self.new ≡ spec.beginning next self.old }
    {
        let phase = self.phase;
        if let DhcpPhase::Bound(_) = phase {
            self.has_changed = true;
        }
        self.phase = next;
        self.asked = None;
        self.tries = 0;
        self.next_at = 0;
    }

    /// Begins anew if the lease has ended, or if what the client asked for wasn't answered for long enough.
    pub(crate) fn give_up(&mut self, now: u64)
        ensures { self.new ≡ spec.after_giving_up now self.old }
    {
        if self.must_give_up(now) {
            self.restart();
        }
    }

    /// Whether the lease has ended, or what the client asked for wasn't answered for long enough.
    fn must_give_up(&self, now: u64) -> bool
        ensures { result ≡ spec.must_give_up now self.now }
    {
        match self.phase {
            DhcpPhase::Discovering => false,
            DhcpPhase::Requesting { .. } | DhcpPhase::Rebooting { .. } => {
                self.tries >= MAX_TRIES && self.next_at <= u128::from(now)
            }
            DhcpPhase::Bound(lease) => lease.has_ended(now),
        }
    }

    /// When the phase's message is sent next. `None` if there is none, for a lease without end.
    pub(crate) fn send_at(&self) -> Option<u128>
        ensures { result ≡ spec.send_at self.now }
    {
        match self.phase {
            DhcpPhase::Discovering => Some(self.next_at.max(self.discover_after)),
            DhcpPhase::Requesting { .. } | DhcpPhase::Rebooting { .. } => {
                Some(self.next_at.max(self.request_after))
            }
            DhcpPhase::Bound(lease) => match lease.times {
                None => None,
                Some(_) => Some(self.next_at.max(self.request_after)),
            },
        }
    }

    /// Whether the phase's message is sent at an instant.
    pub(crate) fn is_to_send(&self, now: u64) -> bool
        ensures { result ≡ spec.is_to_send now self.now }
    {
        match self.send_at() {
            None => false,
            Some(at) => at <= u128::from(now),
        }
    }

    /// When [`DhcpClient::next_message`] does something. Before that it does nothing. `None` only for a lease without end.
    pub fn poll_at(&self) -> Option<u64>
        ensures { result ≡ spec.poll_at self.now }
    {
        match self.due_at() {
            None => None,
            Some(at) => Some(at.min(0xffff_ffff_ffff_ffff) as u64),
        }
    }

    /// When something is due: the phase's message, the end of the lease, or the end of the patience for an answer.
    fn due_at(&self) -> Option<u128>
        ensures { result ≡ spec.due_at self.now }
    {
        match self.phase {
            DhcpPhase::Discovering => Some(self.next_at.max(self.discover_after)),
            DhcpPhase::Requesting { .. } | DhcpPhase::Rebooting { .. } => {
                if self.tries >= MAX_TRIES {
                    Some(self.next_at)
                } else {
                    Some(self.next_at.max(self.request_after))
                }
            }
            DhcpPhase::Bound(lease) => match lease.times {
                None => None,
                Some(times) => { Some(times.expires_at.min(self.next_at.max(self.request_after))) }
            },
        }
    }
}
