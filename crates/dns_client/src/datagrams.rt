//! What a resolver's queries receive and send, by sockets.
ghost use Rattle.std.specs.Prelude.{◌≡◌, is_some, OnOk, OnErr};
ghost use Rattle.sockets.specs.Queue.{first_of};
ghost use Rattle.sockets.specs.Udp as udp_spec;
ghost use Rattle.dns_client.specs.Details.Datagrams as spec;

use crate::dns_resolver::{DnsMessage, QueryHandle, Resolver};
use crate::message::SERVER_PORT;
use sockets::{IpEndpoint, SendError, udp};

/// The port at which a query's socket is to be opened, of any address. `None` if the handle names no query.
pub fn port_of(resolver: &Resolver, handle: QueryHandle) -> Option<u16>
    ensures { result ≡ spec.port_at resolver.now handle.place }
{
    match resolver.query(handle) {
        Some(named) => Some(named.query().source_port),
        None => None,
    }
}

/// Hands the first datagram of a UDP socket to a query, as one that came to the socket's port, and drops it. Returns whether there
/// was a datagram. If the handle names no query it is just dropped.
pub fn receive<L: Drop>(
    resolver: &mut Resolver,
    handle: QueryHandle,
    socket: &mut udp::SocketOf<L>,
) -> bool
    ensures there { result ≡ is_some (first_of socket.old.rx.packets) }
    ensures resolver { resolver.new
        ≡ spec.after_receiving (first_of socket.old.rx.packets) handle.place socket.old.endpoint.port resolver.old }
    ensures socket { socket.new ≡ udp_spec.socket_after_done socket.old }
{
    let port = socket.endpoint().port;
    let is_there = match socket.recv() {
        None => false,
        Some((remote, payload)) => {
            let _ = resolver.receive(handle, remote.addr, remote.port, port, payload);
            true
        }
    };
    socket.done();
    is_there
}

/// Queues a query's message at its UDP socket, for port 53 of the server. Fails as [`udp::SocketOf::try_send`] does; then the
/// socket stays unchanged.
pub fn send<L: Drop>(
    message: &DnsMessage,
    text: &[u8],
    socket: &mut udp::SocketOf<L>,
) -> Result<(), SendError>
    ensures ok { OnOk result (socket.new
        ≡ udp_spec.socket_after_send (spec.server_of message.now) text.now socket.old) }
    ensures err { OnErr result (socket.new ≡ socket.old) }
{
    let remote = IpEndpoint {
        addr: message.server,
        port: SERVER_PORT,
    };
    socket.try_send(remote, text)
}
