//! What the client makes of what came to its sockets.
ghost use Rattle.std.specs.Prelude.{◌≡◌, ◌≢◌, Some};
ghost use Rattle.iface_dhcp.specs.Hear as spec;

use crate::dhcp::{Dhcp, RECEIVED_LEN};
use crate::send::OVERHEARD_LEN;
use dhcp_client::{datagram_in, receive_datagram};
use iface_host::IfaceHost;

impl Dhcp {
    /// Takes the first so many datagrams of the UDP socket, one after another.
    pub(crate) fn hear(&mut self, host: &mut IfaceHost, count: usize)
        ensures { spec.HearsAll spec.Hears count self.old self.new host.old host.new }
    {
        for _ in 0..count {
            self.hear_first(host);
        }
    }

    /// Takes the first datagram of the UDP socket, if it isn't longer than that has room for.
    #[inline(never)]
    fn hear_first(&mut self, host: &mut IfaceHost)
        ensures { spec.Hears self.old self.new host.old host.new }
    {
        let mut octets = [0u8; RECEIVED_LEN];
        if let Ok((from, len)) = host.receive_udp(self.socket, &mut octets) {
            self.receive(from.port, &octets[..len]);
        }
    }

    /// Takes what came to the raw socket, if that is open: messages to an address that the host hasn't yet.
    pub(crate) fn overhear(&mut self, host: &mut IfaceHost)
        ensures { spec.Overhears self.old.broadcast self.old self.new host.old host.new }
    {
        if let Some(number) = self.broadcast {
            self.overhear_all(host, number, packets_at(host, number));
        }
    }

    /// Takes the first so many packets of a raw socket, one after another.
    fn overhear_all(&mut self, host: &mut IfaceHost, number: u32, count: usize)
        ensures { spec.HearsAll (spec.HearsRaw number) count self.old self.new host.old host.new }
    {
        for _ in 0..count {
            self.overhear_first(host, number);
        }
    }

    /// Takes the first packet of a raw socket, if it isn't longer than that has room for.
    #[inline(never)]
    fn overhear_first(&mut self, host: &mut IfaceHost, number: u32)
        ensures { spec.HearsRaw number self.old self.new host.old host.new }
    {
        let mut octets = [0u8; OVERHEARD_LEN];
        if let Ok(len) = host.receive_raw(number, &mut octets) {
            self.receive_packet(&octets[..len]);
        }
    }

    /// Receives the datagram of a packet, if there is one for port 68, whatever address it goes to.
    fn receive_packet(&mut self, packet: &[u8])
        ensures { spec.ReceivesPacket packet.now self.old self.new }
    {
        if let Some((port, payload)) = datagram_in(packet) {
            self.receive(port, payload);
        }
    }

    /// Receives a datagram from a port. One that gives a lease is kept.
    fn receive(&mut self, port: u16, payload: &[u8])
        ensures { spec.ReceivesAt port payload.now self.old self.new }
    {
        if receive_datagram(&mut self.client, port, payload) {
            self.ack.clear();
            self.ack.append(payload);
        }
    }
}

/// How many packets wait at a socket to be taken.
fn packets_at(host: &IfaceHost, number: u32) -> usize
    ensures { result ≡ spec.packets_at host.now number }
{
    match host.queues(number) {
        Some((received, _)) => received.packets,
        None => 0,
    }
}
