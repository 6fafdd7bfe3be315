//! What a client makes of the messages that it receives (RFC 2131 4.4.1 to 4.4.5).
ghost use Rattle.std.specs.Prelude.{◌≡◌, is_some};
ghost use Rattle.dhcp_client.specs.Answers as spec;

use crate::client::{DhcpClient, DhcpPhase};
use crate::lease::{DhcpLease, is_usable};
use crate::{DhcpMessageType, DhcpRepr};

impl DhcpClient {
    /// Receives a message. It counts only if it has the number of the exchange, the client's hardware address, a server's
    /// identifier, and, once a server was chosen, that of this server; otherwise nothing changes.
    ///
    /// The first offer is taken that can be used: it is by a server at a host's address, and of an address that a host of its
    /// network can have. An agreement (ACK) to a request gives the lease that it describes, if that can be used too, and it
    /// says how long that lasts; a refusal (NAK) lets the client begin anew, without its lease. Other messages change
    /// nothing. Returns whether the message gave a lease.
    pub fn receive(&mut self, message: &DhcpRepr) -> bool
        ensures client { self.new ≡ spec.after_receiving message.now self.old }
        ensures gave { result ≡ spec.gives_lease message.now self.old }
    {
        let asked = self.asked;
        let Some(asked) = asked else {
            return false;
        };
        if !self.is_answer(message) {
            return false;
        }
        self.take(asked.at, message)
    }

    /// Takes an answer to what was asked at an instant. Returns whether it gave a lease.
    fn take(&mut self, sent_at: u64, message: &DhcpRepr) -> bool
        ensures client { self.new ≡ spec.after_type message.now.message_type sent_at message.now self.old }
        ensures gave { result ≡ spec.is_lease message.now.message_type sent_at message.now self.old }
    {
        match message.message_type {
            DhcpMessageType::Offer => self.take_offer(message),
            DhcpMessageType::Ack => return self.take_ack(sent_at, message),
            DhcpMessageType::Nak => self.take_nak(),
            _ => {}
        }
        false
    }

    /// Whether a message answers what was asked.
    fn is_answer(&self, message: &DhcpRepr) -> bool
        ensures { result ≡ spec.is_answer message.now self.now }
    {
        message.transaction_id == self.transaction_id
            && message.client_hardware_address == self.hardware_addr
            && self.is_by_asked(message)
    }

    /// Whether a message is by a server that was asked.
    fn is_by_asked(&self, message: &DhcpRepr) -> bool
        ensures { result ≡ spec.is_by_asked message.now self.now }
    {
        match (self.asked, message.options.server_identifier) {
            (Some(asked), Some(by)) => match asked.server {
                None => true,
                Some(server) => server == by,
            },
            _ => false,
        }
    }

    /// Takes an offer, if the client asks for offers.
    fn take_offer(&mut self, offer: &DhcpRepr)
        ensures { self.new ≡ spec.after_offer offer.now self.old }
    {
        let phase = self.phase;
        let server = offer.options.server_identifier;
        if let (DhcpPhase::Discovering, Some(server)) = (phase, server) {
            if is_usable(offer, &server) {
                self.phase = DhcpPhase::Requesting {
                    address: offer.your_ip,
                    server,
                };
                self.asked = None;
                self.tries = 0;
                self.next_at = 0;
            }
        }
    }

    /// Takes a lease, if the client has asked for one by a request that was sent at an instant. Returns whether it took one.
    fn take_ack(&mut self, sent_at: u64, ack: &DhcpRepr) -> bool
        ensures client { self.new ≡ spec.after_ack sent_at ack.now self.old }
        ensures gave { result ≡ spec.is_agreed sent_at ack.now self.old }
    {
        if self.is_discovering() {
            return false;
        }
        let Some(lease) = DhcpLease::of(sent_at, ack) else {
            return false;
        };
        self.phase = DhcpPhase::Bound(lease);
        self.asked = None;
        self.tries = 0;
        self.next_at = match lease.times {
            None => 0,
            Some(times) => times.renew_at,
        };
        self.has_changed = true;
        true
    }

    /// Begins anew, if the client has asked for a lease.
    fn take_nak(&mut self)
        ensures { self.new ≡ spec.after_nak self.old }
    {
        if !self.is_discovering() {
            self.restart();
        }
    }

    /// Whether the client asks for offers.
    const fn is_discovering(&self) -> bool
        ensures { result ≡ spec.is_discovering self.now }
    {
        match self.phase {
            DhcpPhase::Discovering => true,
            _ => false,
        }
    }
}
