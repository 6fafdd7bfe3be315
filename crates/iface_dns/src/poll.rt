//! What the client does whenever its owner calls it.
ghost use Rattle.std.specs.Prelude.{◌≡◌, length, IfOk, OnOk, OnErr};
ghost use Rattle.std.specs.Result.{result_err};
ghost use Rattle.iface_dns.specs.Poll as spec;
ghost use Rattle.iface_host.specs.Refusals.{moment_refusal};

use crate::dns::Dns;
use dns_client::DnsResult;
use dns_client::dns_resolver::{QueryHandle, Resolver};
use iface_host::streams::micros_of;
use iface_host::{IfaceHost, Refusal};

impl Dns {
    /// Does what is due at a moment, for one query after another: hands it what came to its socket, tells it that its server's port
    /// is closed, if a message of ICMP says so, queues the message that it sends now, if there is one, and closes its socket, if it
    /// doesn't wait any more. `BadMoment` if the moment is out of range; then
    /// nothing changes.
    ///
    /// A message that can't be queued counts as lost. A query whose socket the host doesn't have hears nothing, and times out.
    pub fn poll(&mut self, host: &mut IfaceHost, now: i64) -> Result<(), Refusal>
        ensures polled { OnOk result (spec.Polls now self.old self.new host.old host.new) }
        ensures why { result_err result ≡ moment_refusal now }
        ensures refused { OnErr result (self.new ≡ self.old) }
        ensures host { OnErr result (host.new ≡ host.old) }
    {
        let micros = micros_of(now)?;
        self.poll_each(host, micros);
        Ok(())
    }

    /// Does what is due at an instant for each query.
    fn poll_each(&mut self, host: &mut IfaceHost, now: u64)
        ensures { spec.PollsFrom now (length self.old.sockets) 0 self.old self.new host.old host.new }
    {
        let count = self.sockets.places();
        for place in 0..count {
            self.poll_at_place(host, now, place);
        }
    }

    /// Does what is due at an instant for the query of a place, if there is one.
    fn poll_at_place(&mut self, host: &mut IfaceHost, now: u64, place: usize)
        ensures { spec.PollsAt now place self.old self.new host.old host.new }
    {
        self.hear(host, place);
        self.hear_errors(host, place);
        self.ask(host, now, place);
        self.close_done(host, place);
    }

    /// Closes the socket of a place whose query doesn't wait.
    fn close_done(&mut self, host: &mut IfaceHost, place: usize)
        ensures { spec.ClosesDone place self.old self.new host.old host.new }
    {
        if !waits(&self.resolver, place) {
            self.close_at(host, place);
        }
    }
}

/// Whether a place has a query that waits for an answer.
fn waits(resolver: &Resolver, place: usize) -> bool
    ensures { result ≡ spec.waits_at resolver.now place }
{
    match resolver.result(QueryHandle { place }) {
        Ok(DnsResult::Pending) => true,
        _ => false,
    }
}
