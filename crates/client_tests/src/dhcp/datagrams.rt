use crate::dhcp::octets::{DISCOVER, DISCOVER_HEADERS, OFFER, message, packet};
use dhcp_client::{
    DhcpClient, DhcpMessageType, DhcpRoom, DhcpWishes, receive, send_by_raw, send_by_udp,
};
use ip_wire::{EthernetAddress, IpAddress, IpProtocol, IpVersion, Ipv4Address};
use sockets::{IpEndpoint, Queue, raw, udp};

const HARDWARE: EthernetAddress = EthernetAddress([2, 0, 0, 0, 0, 1]);

const SERVER: IpAddress = IpAddress::Ipv4(Ipv4Address { bits: 0xc0a8_4501 });

/// Whether a DISCOVER goes as this packet into a socket with room for one, and a second one doesn't.
fn discovers(client: &mut DhcpClient, socket: &mut raw::Socket<'_>) -> bool {
    let Some(discover) = client.next_message(0, 0x3903_f326) else {
        return false;
    };
    let wishes = DhcpWishes::new();
    let mut room = DhcpRoom::new();
    let wanted = packet(&DISCOVER_HEADERS, &DISCOVER.0, &DISCOVER.1);
    send_by_raw(&discover, &wishes, socket, &mut room).is_ok()
        && room.packet.as_slice() == wanted.as_slice()
        && socket.tx().len() == 1
        && send_by_raw(&discover, &wishes, socket, &mut room).is_err()
}

/// What goes to all servers, from a host without an address.
#[test]
fn to_all_servers(rt: HostRuntime) {
    let rx = Queue::new(rt.alloc(), 0, 0).expect(&rt, "room");
    let tx = Queue::new(rt.alloc(), 1, 1500).expect(&rt, "room");
    let mut socket = raw::Socket::new(IpVersion::Ipv4, IpProtocol::Udp, rx, tx);
    assert!(rt; discovers(&mut DhcpClient::new(HARDWARE, None), &mut socket));
}

/// An offer comes from the server, from this port, and is taken.
fn hears(client: &mut DhcpClient, socket: &mut udp::Socket<'_>, port: u16) -> bool {
    let server = IpEndpoint { addr: SERVER, port };
    socket.process(server, message(&OFFER.0, &OFFER.1).as_slice());
    receive(client, socket)
}

/// Whether a client asks for what it was offered.
fn requests(client: &mut DhcpClient, socket: &mut udp::Socket<'_>, room: &mut DhcpRoom) -> bool {
    match client.next_message(1, 5) {
        Some(request) => {
            request.repr.message_type == DhcpMessageType::Request
                && send_by_udp(&request, &DhcpWishes::new(), socket, room).is_ok()
        }
        None => false,
    }
}

/// Whether an offer is taken from the server's port alone, and answered.
fn takes_an_offer(client: &mut DhcpClient, socket: &mut udp::Socket<'_>) -> bool {
    let mut room = DhcpRoom::new();
    let _ = client.next_message(0, 0x3903_f326);
    let asking = *client;
    let is_nothing = hears(client, socket, 1067) && *client == asking;
    is_nothing
        && hears(client, socket, 67)
        && !receive(client, socket)
        && requests(client, socket, &mut room)
        && socket.tx().len() == 1
}

/// What a server sent, from its port and from another one.
#[test]
fn from_a_server(rt: HostRuntime) {
    let rx = Queue::new(rt.alloc(), 2, 1472).expect(&rt, "room");
    let tx = Queue::new(rt.alloc(), 1, 1472).expect(&rt, "room");
    let mut socket = udp::Socket::new(68.into(), rx, tx);
    assert!(rt; takes_an_offer(&mut DhcpClient::new(HARDWARE, None), &mut socket));
}
