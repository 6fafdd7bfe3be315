//! How a client gives its lease back (RFC 2131 4.4.4, 4.4.6, table 5).
ghost use Rattle.std.specs.Prelude.{◌≡◌};
ghost use Rattle.dhcp_client.specs.Returns as spec;

use crate::client::DhcpClient;
use crate::lease::DhcpLease;
use crate::{DhcpMessage, DhcpMessageType, DhcpOptions};
use ip_address::Ipv4Address;

/// How long no DISCOVER follows a DECLINE, in microseconds (RFC 2131 3.1 (5)).
const PAUSE: u128 = 10_000_000;

/// The same from the tenth one on (RFC 5227 2.1.1, RATE_LIMIT_INTERVAL).
const LONG_PAUSE: u128 = 60_000_000;

impl DhcpClient {
    /// Declines the lease at an instant, in microseconds, as another host uses its address: returns the message that tells all
    /// servers, and asks for offers again after ten seconds, or after a minute from the tenth address on that is declined. Without a
    /// lease nothing happens. `random` is the message's number.
    pub fn decline(&mut self, now: u64, random: u32) -> Option<DhcpMessage>
        ensures message { result ≡ spec.decline_at random self.old }
        ensures client { self.new ≡ spec.after_decline now random self.old }
    {
        let lease = self.lease()?;
        self.transaction_id = random;
        let message = DhcpMessage {
            repr: self.repr(
                DhcpMessageType::Decline,
                false,
                Ipv4Address::UNSPECIFIED,
                self.options_back(Some(lease.address), &lease),
            ),
            dst: Ipv4Address::BROADCAST,
        };
        self.restart();
        self.declined = self.declined.saturating_add(1);
        self.discover_after = self
            .discover_after
            .max(u128::from(now) + pause(self.declined));
        Some(message)
    }

    /// Releases the lease, as its owner needs it no more: returns the message that tells its server, which isn't answered. The client
    /// begins anew, if it is asked for a message. Without a lease nothing happens. `random` is the message's number.
    pub fn release(&mut self, random: u32) -> Option<DhcpMessage>
        ensures message { result ≡ spec.release_at random self.old }
        ensures client { self.new ≡ spec.after_release random self.old }
    {
        let lease = self.lease()?;
        self.transaction_id = random;
        let message = DhcpMessage {
            repr: self.repr(
                DhcpMessageType::Release,
                false,
                lease.address,
                self.options_back(None, &lease),
            ),
            dst: lease.server,
        };
        self.restart();
        Some(message)
    }

    /// The options of a message that gives a lease back.
    const fn options_back(
        &self,
        requested_ip: Option<Ipv4Address>,
        lease: &DhcpLease,
    ) -> DhcpOptions
        ensures { result ≡ spec.options_back requested_ip lease.now self.now }
    {
        DhcpOptions {
            subnet_mask: None,
            router: None,
            dns_servers: [None, None, None],
            requested_ip,
            lease_duration: None,
            server_identifier: Some(lease.server),
            max_size: None,
            mtu: None,
            renew_duration: None,
            rebind_duration: None,
            client_identifier: Some(self.hardware_addr),
        }
    }
}

/// How long no DISCOVER follows, once so many addresses were declined.
const fn pause(declined: u8) -> u128
    ensures { result ≡ spec.pause declined }
{
    if declined < 10 { PAUSE } else { LONG_PAUSE }
}
