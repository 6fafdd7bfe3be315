//! What queries make of errors about the messages that they sent.
ghost use Rattle.std.specs.Prelude.{◌≡◌};
ghost use Rattle.iface_dns.specs.Errors as spec;

use crate::dns::Dns;
use dns_client::dns_resolver::{QueryHandle, Resolver};
use dns_client::message::SERVER_PORT;
use dns_client::port_of;
use iface_host::last_errors::KEPT_ERRORS;
use iface_host::{ErrorCause, IfaceHost, PacketError};
use ip_wire::IpProtocol;

impl Dns {
    /// Takes the errors about messages of the query of a place. Where its server's port is closed it asks the next one, as where the
    /// server refuses.
    pub(crate) fn hear_errors(&mut self, host: &mut IfaceHost, place: usize)
        ensures { spec.HearsErrorsAt place self.old self.new host.old host.new }
    {
        let Some(port) = port_of(&self.resolver, QueryHandle { place }) else {
            return;
        };
        take_all(&mut self.resolver, host, port, place, KEPT_ERRORS);
    }
}

/// Takes so many errors about messages from a port, one after another, for the query of a place.
fn take_all(resolver: &mut Resolver, host: &mut IfaceHost, port: u16, place: usize, count: usize)
    ensures { spec.TakesErrors port place count resolver.old resolver.new host.old host.new }
{
    for _ in 0..count {
        take_first(resolver, host, port, place);
    }
}

/// Takes the first error about a message from a port, if there is one, and tells the query of a place which server's port is closed.
#[inline(never)]
fn take_first(resolver: &mut Resolver, host: &mut IfaceHost, port: u16, place: usize)
    ensures { spec.TakesError port place resolver.old resolver.new host.old host.new }
{
    if let Some(error) = host.take_packet_error(IpProtocol::Udp, Some(port)) {
        tell(resolver, place, &error);
    }
}

/// Tells the query of a place that a server's port is closed, if an error says so.
fn tell(resolver: &mut Resolver, place: usize, error: &PacketError)
    ensures { resolver.new ≡ spec.told place error.now resolver.old }
{
    if is_closed(error) {
        resolver.server_failed(QueryHandle { place }, error.remote.addr);
    }
}

/// Whether an error says that port 53 is closed.
fn is_closed(error: &PacketError) -> bool
    ensures { result ≡ spec.is_closed error.now }
{
    match error.cause {
        ErrorCause::Hard => error.remote.port == SERVER_PORT,
        ErrorCause::Soft | ErrorCause::TooBig(_) => false,
    }
}
