//! What a client receives and sends, by sockets.
ghost use Rattle.std.specs.Prelude.{◌≡◌, ◌≤◌, is_ok, is_some, OnOk, OnErr, length, true};
ghost use Rattle.std.specs.Option.{SomeIff, option_map};
ghost use Rattle.sockets.specs.Queue.{first_of, is_room};
ghost use Rattle.sockets.specs.Udp as udp_spec;
ghost use Rattle.sockets.specs.Raw as raw_spec;
ghost use Rattle.dhcp_client.specs.Details.Packets.{message_text, packet_of};
ghost use Rattle.dhcp_client.specs.Details.Datagrams as spec;

use crate::message::{CLIENT_PORT, SERVER_PORT};
use crate::messages::MAX_SIZE;
use crate::packets::DhcpRoom;
use crate::wishes::DhcpWishes;
use crate::{DhcpClient, DhcpMessage, DhcpRepr};
use ip_wire::{IpAddress, Ipv4Repr, UdpRepr};
use sockets::{Full, IpEndpoint, SendError, raw, udp};

/// Hands the first datagram of a UDP socket to a client, and drops it. It counts as [`receive_datagram`] says. Returns whether
/// there was a datagram.
///
/// The socket listens at port 68, of any address.
pub fn receive<L: Drop>(client: &mut DhcpClient, socket: &mut udp::SocketOf<L>) -> bool
    ensures there { result ≡ is_some (first_of socket.old.rx.packets) }
    ensures client { spec.Receives (first_of socket.old.rx.packets) client.old client.new }
    ensures socket { socket.new ≡ udp_spec.socket_after_done socket.old }
{
    let is_there = match socket.recv() {
        None => false,
        Some((remote, payload)) => {
            receive_one(client, remote.port, payload);
            true
        }
    };
    socket.done();
    is_there
}

/// Hands a datagram from a port to a client.
fn receive_one(client: &mut DhcpClient, port: u16, payload: &[u8])
    ensures { spec.ReceivesOne port payload.now client.old client.new }
{
    receive_datagram(client, port, payload);
}

/// Hands a datagram from a port to a client. It counts only if the port is 67 and it is a message of DHCP, which is no longer than
/// the client's messages say: 1,472 octets. Returns whether it gave a lease.
pub fn receive_datagram(client: &mut DhcpClient, port: u16, payload: &[u8]) -> bool
    ensures received { spec.ReceivesDatagram port payload.now result client.old client.new }
    ensures short { result ≡ true → length payload.now ≤ 1472 }
{
    if port != SERVER_PORT || payload.len() > usize::from(MAX_SIZE) {
        return false;
    }
    match DhcpRepr::parse(payload) {
        Some(message) => client.receive(&message),
        None => false,
    }
}

/// The port that the datagram of a packet of IPv4 comes from, and its payload, if it goes to port 68. `None` exactly if it goes to
/// another port, or isn't whole, or one of its checksums is wrong. Whose address it goes to doesn't matter.
///
/// Some servers answer to the address that they offer, which the host hasn't yet, though they are asked to broadcast (RFC 2131 4.1):
/// a raw socket of IPv4 and UDP gets such packets.
pub fn datagram_in(packet: &[u8]) -> Option<(u16, &[u8])>
    ensures { SomeIff (option_map spec.parts result) (spec.IsToClient packet.now) (spec.datagram_in packet.now) }
{
    let (header, _, datagram) = Ipv4Repr::parse(packet, true)?;
    let src = IpAddress::Ipv4(header.src_addr);
    let dst = IpAddress::Ipv4(header.dst_addr);
    let (ports, payload) = UdpRepr::parse(datagram, &src, &dst, true)?;
    if ports.dst_port != CLIENT_PORT {
        return None;
    }
    Some((ports.src_port, payload))
}

/// Queues a message at a raw socket of IPv4 and UDP, as a packet from port 68 of the client's address, which is 0.0.0.0 as
/// long as it has none. Fails with `Full` exactly if it doesn't fit; then the socket stays unchanged.
///
/// For messages to all servers: these don't wait for a neighbour, and a host without an address can send them. The
/// socket needs no room to receive.
pub fn send_by_raw<L: Drop>(
    message: &DhcpMessage,
    wishes: &DhcpWishes,
    socket: &mut raw::SocketOf<L>,
    room: &mut DhcpRoom,
) -> Result<(), Full>
    ensures fits { is_ok result
        ≡ is_room socket.old.tx (length (packet_of wishes.now message.now)) }
    ensures socket { socket.new
        ≡ raw_spec.socket_after_send (packet_of wishes.now message.now) socket.old }
{
    room.build_packet(message, wishes);
    socket.send((), room.packet.as_slice())
}

/// Queues a message at the UDP socket of port 68, for port 67 of its destination. Fails as [`udp::SocketOf::try_send`] does;
/// then the socket stays unchanged.
///
/// For messages to one server: the host has an address then, which the interface takes as the source.
pub fn send_by_udp<L: Drop>(
    message: &DhcpMessage,
    wishes: &DhcpWishes,
    socket: &mut udp::SocketOf<L>,
    room: &mut DhcpRoom,
) -> Result<(), SendError>
    ensures ok { OnOk result (socket.new
        ≡ udp_spec.socket_after_send (spec.server_of message.now) (message_text wishes.now message.now) socket.old) }
    ensures err { OnErr result (socket.new ≡ socket.old) }
{
    room.build_message(message, wishes);
    socket.try_send(server_of(message), room.message.as_slice())
}

/// Port 67 of the address that a message goes to.
pub fn server_of(message: &DhcpMessage) -> IpEndpoint
    ensures { result ≡ spec.server_of message.now }
{
    IpEndpoint {
        addr: IpAddress::Ipv4(message.dst),
        port: SERVER_PORT,
    }
}
