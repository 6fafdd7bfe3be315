//! How the client's messages are queued.
ghost use Rattle.std.specs.Prelude.{◌≡◌, OnErr, IfOk, true};
ghost use Rattle.dhcp_client.specs.Details.Datagrams as datagrams;
ghost use Rattle.dhcp_client.specs.Details.Packets as packets;
ghost use Rattle.iface_dhcp.specs.Send as spec;
ghost use Rattle.ip_address.specs.Ipv4.{is_broadcast};

use crate::dhcp::{Dhcp, close_one};
use dhcp_client::{DhcpMessage, DhcpRoom, DhcpWishes, server_of};
use iface_host::{IfaceHost, Refusal, Room, Rooms};
use ip_wire::{IpAddress, IpProtocol, IpVersion, Ipv4Address};

/// The most octets that wait at the raw socket: as many as the longest packet of an Ethernet has.
pub const OVERHEARD_LEN: usize = 1500;

/// What the raw socket holds: one message with its headers, and some packets that came.
const ROOMS: Rooms = Rooms {
    received: Room {
        packets: 8,
        octets: OVERHEARD_LEN,
    },
    to_send: Room {
        packets: 1,
        octets: 433,
    },
};

impl Dhcp {
    /// Queues a message: at a raw socket, which is opened for it, if it goes to all servers, else at the client's UDP socket.
    /// One for which there is no room counts as lost, and the reason is kept.
    pub(crate) fn send(&mut self, host: &mut IfaceHost, message: &DhcpMessage)
        ensures { spec.Sends message.now self.old self.new host.old host.new }
    {
        self.lost = self.send_by(host, message);
    }

    /// Queues a message, and returns why it is lost, if it is.
    fn send_by(&mut self, host: &mut IfaceHost, message: &DhcpMessage) -> Option<Refusal>
        ensures { spec.SendsBy (is_broadcast message.now.dst) message.now result self.old self.new host.old host.new }
    {
        if message.dst.is_broadcast() {
            self.send_to_all(host, message)
        } else {
            send_to_server(host, self.socket, message, &self.wishes)
        }
    }

    /// Queues a message at the raw socket, which is opened if it isn't open, and returns why it is lost, if it is.
    fn send_to_all(&mut self, host: &mut IfaceHost, message: &DhcpMessage) -> Option<Refusal>
        ensures { spec.SendsToAll message.now result self.old self.new host.old host.new }
    {
        if let Some(number) = self.broadcast {
            return send_packet(host, number, message, &self.wishes);
        }
        self.leave_place(host);
        match host.open_raw(IpVersion::Ipv4, IpProtocol::Udp, ROOMS) {
            Ok(number) => {
                self.broadcast = Some(number);
                send_packet(host, number, message, &self.wishes)
            }
            Err(refusal) => {
                self.keep_place(host);
                Some(refusal)
            }
        }
    }

    /// Closes the raw socket, if it is open and of no use any more, and keeps its place.
    pub(crate) fn close_sent(&mut self, host: &mut IfaceHost)
        ensures { spec.ClosesSent self.old self.new host.old host.new }
    {
        let Some(number) = self.broadcast else {
            self.keep_place(host);
            return;
        };
        if self.needs_raw(host, number) {
            return;
        }
        close_one(host, number);
        self.broadcast = None;
        self.keep_place(host);
    }

    /// Whether the raw socket is still of use: a packet waits to be sent there, or the client has no lease, and the host no address.
    fn needs_raw(&self, host: &IfaceHost, number: u32) -> bool
        ensures { result ≡ spec.needs_raw number self.now host.now }
    {
        self.is_nowhere(host) || is_waiting(host, number)
    }

    /// Whether the client has no lease, and the host no address of IPv4.
    fn is_nowhere(&self, host: &IfaceHost) -> bool
        ensures { result ≡ spec.is_nowhere self.now host.now }
    {
        let everybody = IpAddress::Ipv4(Ipv4Address::BROADCAST);
        self.client.lease().is_none() && host.source_for(everybody).is_none()
    }
}

/// Whether a packet waits to be sent at a socket.
fn is_waiting(host: &IfaceHost, number: u32) -> bool
    ensures { result ≡ spec.is_waiting host.now number }
{
    match host.queues(number) {
        Some((_, to_send)) => to_send.packets > 0,
        None => false,
    }
}

/// Queues a message at a UDP socket, for port 67 of its destination, and returns why it is lost, if it is.
#[inline(never)]
fn send_to_server(
    host: &mut IfaceHost,
    socket: u32,
    message: &DhcpMessage,
    wishes: &DhcpWishes,
) -> Option<Refusal>
    ensures { spec.SendsToServer socket wishes.now message.now result host.old host.new }
{
    let mut room = DhcpRoom::new();
    room.build_message(message, wishes);
    host.send_udp(socket, server_of(message), room.message.as_slice())
        .err()
}

/// Queues a message at a raw socket, as a packet, and returns why it is lost, if it is.
#[inline(never)]
fn send_packet(
    host: &mut IfaceHost,
    number: u32,
    message: &DhcpMessage,
    wishes: &DhcpWishes,
) -> Option<Refusal>
    ensures { spec.SendsPacket number wishes.now message.now result host.old host.new }
{
    let mut room = DhcpRoom::new();
    room.build_packet(message, wishes);
    host.send_raw(number, room.packet.as_slice()).err()
}
