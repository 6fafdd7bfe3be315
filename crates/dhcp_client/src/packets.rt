//! A client's messages as octets (RFC 2131 4.1).
ghost use Rattle.std.specs.Prelude.{◌≡◌, ◌≤◌, ◌<◌, ◌+◌, ◌^◌, ◌++◌, [], length};
ghost use Rattle.dhcp_client.specs.Details.Packets as spec;

use crate::message::{CLIENT_PORT, SERVER_PORT};
use crate::wishes::DhcpWishes;
use crate::{DhcpMessage, DhcpMessageType};
use ip_wire::emit::FrameBuffer;
use ip_wire::{IpAddress, IpProtocol, Ipv4Address, Ipv4Fragment, Ipv4Repr, UdpRepr};

/// The hop limit of packets to all servers.
const HOP_LIMIT: u8 = 64;

/// The room in which messages are built: some three thousand octets, taken once.
#[derive(Drop)]
pub struct DhcpRoom {
    pub message: FrameBuffer,
    pub packet: FrameBuffer,
}

impl DhcpRoom {
    /// Empty room.
    pub fn new() -> DhcpRoom
        ensures { result ≡ record { message = []; packet = [] } }
    {
        DhcpRoom {
            message: FrameBuffer::new(),
            packet: FrameBuffer::new(),
        }
    }

    /// Builds a message of a client with these wishes as the payload of a datagram, in place of the message before.
    pub fn build_message(&mut self, message: &DhcpMessage, wishes: &DhcpWishes)
        ensures room { self.new ≡ record self.old { message = spec.message_text wishes.now message.now } }
        ensures len { length self.new.message ≤ 405 }
    {
        build_message(message, wishes, &mut self.message);
    }

    /// Builds a message as a packet from port 68 of the client's address, which is 0.0.0.0 as long as it has none. Both
    /// checksums are computed.
    pub fn build_packet(&mut self, message: &DhcpMessage, wishes: &DhcpWishes)
        ensures { self.new
            ≡ record { message = spec.message_text wishes.now message.now; packet = spec.packet_of wishes.now message.now } }
    {
        build_message(message, wishes, &mut self.message);
        let src = message.repr.client_ip;
        build_packet(src, message.dst, self.message.as_slice(), &mut self.packet);
    }
}

/// Builds a message, in place of what the buffer has.
fn build_message(message: &DhcpMessage, wishes: &DhcpWishes, out: &mut FrameBuffer)
    ensures items { out.new ≡ spec.message_text wishes.now message.now }
    ensures len { length out.new ≤ 405 }
{
    out.clear();
    if !asks(&message.repr.message_type) {
        message.repr.emit(&[], &[], out);
        return;
    }
    let parameters = wishes.all_parameters();
    message
        .repr
        .emit(parameters.as_slice(), wishes.host_name.as_slice(), out);
}

/// Whether a message of a type asks for options, and tells the host's name (RFC 2131 table 5).
const fn asks(message_type: &DhcpMessageType) -> bool
    ensures { result ≡ spec.asks message_type.now }
{
    match message_type {
        DhcpMessageType::Decline | DhcpMessageType::Release => false,
        _ => true,
    }
}

/// Builds a packet with these octets as its payload, from port 68 of an address to port 67 of another one, in place of what
/// the buffer has. Both checksums are computed.
fn build_packet(src: Ipv4Address, dst: Ipv4Address, payload: &[u8], out: &mut FrameBuffer)
    requires { length payload.now ≤ 405 }
    ensures { out.new ≡ spec.packet_text src dst payload.now }
{
    let header = Ipv4Repr {
        src_addr: src,
        dst_addr: dst,
        next_header: IpProtocol::Udp,
        payload_len: 8 + payload.len() as u16,
        hop_limit: HOP_LIMIT,
    };
    let ports = UdpRepr {
        src_port: CLIENT_PORT,
        dst_port: SERVER_PORT,
    };
    let src = IpAddress::Ipv4(src);
    let dst = IpAddress::Ipv4(dst);
    out.clear();
    header.emit(&Ipv4Fragment::WHOLE, true, out);
    ports.emit(&src, &dst, payload, true, out);
}
