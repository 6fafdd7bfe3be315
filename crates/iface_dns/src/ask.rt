//! How queries are sent.
ghost use Rattle.std.specs.Prelude.{◌≡◌, length};
ghost use Rattle.iface_dns.specs.Ask as spec;

use crate::dns::{Dns, close_one};
use crate::start::ROOMS;
use dns_client::dns_resolver::{DnsMessage, QueryHandle};
use dns_client::message::SERVER_PORT;
use iface_host::IfaceHost;
use ip_wire::emit::FrameBuffer;
use sockets::{IpEndpoint, IpListenEndpoint};

impl Dns {
    /// Lets a query do what is due at an instant, and queues its message at its socket, if it sends one now. A question that waits
    /// there still, as its server's neighbour doesn't answer, gives way. A message for which there is no room counts as lost.
    #[inline(never)]
    pub(crate) fn ask(&mut self, host: &mut IfaceHost, now: u64, place: usize)
        ensures { spec.Asks now place self.old self.new host.old host.new }
    {
        let mut text = FrameBuffer::new();
        let asked = self
            .resolver
            .next_message(QueryHandle { place }, now, &mut text);
        if let Ok(message) = asked {
            self.send_if(host, place, &message, text.as_slice());
        }
    }

    /// Queues a message, if there is one, at the socket of a place, if it has one.
    fn send_if(
        &mut self,
        host: &mut IfaceHost,
        place: usize,
        message: &Option<DnsMessage>,
        text: &[u8],
    )
        ensures { spec.SendsMessageIf message.now text.now place self.old self.new host.old host.new }
    {
        if let Some(message) = message {
            self.make_room(host, place, message.source_port);
            self.send(host, place, message, text);
        }
    }

    /// Queues a message at the socket of a place, if it has one.
    fn send(&self, host: &mut IfaceHost, place: usize, message: &DnsMessage, text: &[u8])
        ensures { spec.SendsIf message.now (spec.socket_at self.now place) text.now host.old host.new }
    {
        if let Some(number) = self.sockets.get(place) {
            let _ = host.send_udp(number, server_of(message), text);
        }
    }

    /// Drops the question that waits at the socket of a place, if one does: another socket of the same port takes its place. Where
    /// memory for that is refused the query has none from then on, and times out.
    fn make_room(&mut self, host: &mut IfaceHost, place: usize, port: u16)
        ensures { spec.MakesRoom place port self.old self.new host.old host.new }
    {
        if let Some(number) = self.sockets.get(place) {
            if is_waiting(host, number) {
                close_one(host, number);
                let another = open_at(host, port);
                self.sockets.set(place, another);
            }
        }
    }
}

/// Whether a packet waits to be sent at a socket.
fn is_waiting(host: &IfaceHost, number: u32) -> bool
    ensures { result ≡ spec.is_waiting host.now number }
{
    match host.queues(number) {
        Some((_, to_send)) => to_send.packets > 0,
        None => false,
    }
}

/// Opens a socket for a query at a port. `None` without memory.
fn open_at(host: &mut IfaceHost, port: u16) -> Option<u32>
    ensures { spec.OpensAt port result host.old host.new }
{
    host.open_udp(IpListenEndpoint { addr: None, port }, ROOMS)
        .ok()
}

/// Port 53 of the server that a message goes to.
fn server_of(message: &DnsMessage) -> IpEndpoint
    ensures { result ≡ spec.server_of message.now }
{
    IpEndpoint {
        addr: message.server,
        port: SERVER_PORT,
    }
}
