//! What connections hear of peers that can't be reached and of paths with a smaller MTU (RFC 9293 3.7.5, 3.9.2.2).
ghost use Rattle.std.specs.Prelude.{◌≡◌};
ghost use Rattle.iface_streams.specs.Reports as spec;

use crate::streams::Streams;
use iface_host::{ErrorCause, IfaceHost, PacketError, StreamPair};
use ip_wire::{IpAddress, IpProtocol};
use tcp_host::iss::Endpoints;
use tcp_host::reports::Report;

/// How many messages are heard in a poll: as many as a host keeps.
pub(crate) const MOST_REPORTS: usize = 4;

impl Streams {
    /// Hears the messages of ICMP about segments that the host keeps, in the order in which they came, so many at most.
    pub(crate) fn hear_reports(&mut self, host: &mut IfaceHost, now: u64, most: usize)
        ensures { spec.HearsAll now most self.old self.new host.old host.new }
    {
        if most == 0 {
            return;
        }
        if let Some(error) = host.take_packet_error(IpProtocol::Tcp, None) {
            self.hear_report(now, &error);
            self.hear_reports(host, now, most - 1);
        }
    }

    /// Hears a message about a segment.
    fn hear_report(&mut self, now: u64, error: &PacketError)
        ensures { spec.Hears now error.now self.old self.new }
    {
        let ends = Endpoints {
            local_addr: error.local.addr,
            local_port: error.local.port,
            remote_addr: error.remote.addr,
            remote_port: error.remote.port,
        };
        let report = report_by(&error.remote.addr, error.cause);
        self.connections.report(now, &ends, error.number, report);
    }

    /// Connections that are being opened to an address end which the host gave up since this was asked last.
    pub(crate) fn lose_absent(&mut self, host: &mut IfaceHost, now: u64)
        ensures { spec.Loses now self.old self.new host.old host.new }
    {
        let given_up = host.given_up();
        if given_up != self.given_up {
            self.lose_both(host, now, given_up);
        }
    }

    /// The same over each family, where the host gave up so many packets.
    #[inline(never)]
    fn lose_both(&mut self, host: &mut IfaceHost, now: u64, given_up: u64)
        requires { given_up ≡ host.old.schedule.given_up }
        ensures { spec.LosesBoth now self.old self.new host.old host.new }
    {
        self.given_up = given_up;
        let v4 = self.v4;
        self.lose_of(host, now, &v4);
        let v6 = self.v6;
        self.lose_of(host, now, &v6);
    }

    /// The same over one family.
    fn lose_of(&mut self, host: &mut IfaceHost, now: u64, pair: &Option<StreamPair>)
        ensures { spec.LosesOf now pair.now self.old self.new host.old host.new }
    {
        if let Some(pair) = pair {
            self.lose_from(host, now, pair.far);
        }
    }

    /// Connections that are being opened to the address end which the socket of a number gave up.
    fn lose_from(&mut self, host: &mut IfaceHost, now: u64, number: u32)
        ensures { spec.LosesFrom now number self.old self.new host.old host.new }
    {
        if let Ok(address) = host.take_given_up(number) {
            self.connections.lose(now, &address);
        }
    }
}

/// What a message says of a segment to an address.
fn report_by(address: &IpAddress, cause: ErrorCause) -> Report
    ensures { result ≡ spec.report_by address.now cause }
{
    match cause {
        ErrorCause::TooBig(mtu) => Report::TooLong(segment_in(address, mtu)),
        ErrorCause::Hard => Report::Hard,
        ErrorCause::Soft => Report::Soft,
    }
}

/// How many octets a segment to an address may have in packets of so many.
fn segment_in(address: &IpAddress, mtu: u32) -> u16
    ensures { result ≡ spec.segment_in address.now mtu }
{
    let headers = match address {
        IpAddress::Ipv4(_) => 40,
        IpAddress::Ipv6(_) => 60,
    };
    mtu.saturating_sub(headers).min(65_535) as u16
}
