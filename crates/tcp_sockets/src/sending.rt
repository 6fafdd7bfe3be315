//! Segments that are sent by raw sockets.
ghost use Rattle.std.specs.Prelude.{◌≡◌, is_ok};
ghost use Rattle.tcp_sockets.specs.Packets.{value_of};
ghost use Rattle.tcp_sockets.specs.Sending as spec;

use crate::arrivals::is_own;
use crate::destinations::Destinations;
use crate::packets::{MOST_OCTETS, write_headers};
use ip_wire::emit::FrameBuffer;
use ip_wire::{IpAddress, IpCidr, IpVersion};
use sockets::queue::Full;
use sockets::raw;
use tcp_host::iss::Endpoints;
use tcp_host::turns::Outgoing;

/// The version of IP by which a host sends segments between two ends. `None`, if it sends none: the local end isn't one of
/// its addresses, or the ends aren't of one family.
pub fn version_between(endpoints: &Endpoints, own: &[IpCidr]) -> Option<IpVersion>
    ensures { result ≡ spec.version_between endpoints.now own.now }
{
    if !is_own(&endpoints.local_addr, own) {
        return None;
    }
    match (&endpoints.local_addr, &endpoints.remote_addr) {
        (IpAddress::Ipv4(_), IpAddress::Ipv4(_)) => Some(IpVersion::Ipv4),
        (IpAddress::Ipv6(_), IpAddress::Ipv6(_)) => Some(IpVersion::Ipv6),
        _ => None,
    }
}

/// Queues a segment at a raw socket, as a packet. Fails with `Full` exactly if that doesn't fit; then the socket stays
/// unchanged.
///
/// Its octets are copied once, to the socket's queue.
pub fn send<L: Drop>(
    segment: &Outgoing<'_>,
    summed: bool,
    socket: &mut raw::SocketOf<L>,
    room: &mut FrameBuffer,
) -> Result<(), Full>
    ensures fits { is_ok result ≡ spec.fits summed (value_of segment.now) socket.old }
    ensures socket { socket.new ≡ spec.socket_after summed (value_of segment.now) socket.old }
{
    if segment.octets.len() > MOST_OCTETS || !write_headers(segment, summed, room) {
        return Err(Full);
    }
    socket.send_parts(room.as_slice(), segment.octets)
}

/// The same at a socket for peers that haven't answered, of whose packets the destinations are known: a second packet of one
/// destination doesn't fit.
pub fn send_far<L: Drop>(
    segment: &Outgoing<'_>,
    summed: bool,
    socket: &mut raw::SocketOf<L>,
    waiting: &mut Destinations,
    room: &mut FrameBuffer,
) -> Result<(), Full>
    ensures fits { is_ok result ≡ spec.fits_far summed (value_of segment.now) socket.old waiting.old }
    ensures socket { socket.new ≡ spec.socket_after_far summed (value_of segment.now) waiting.old socket.old }
    ensures waiting { waiting.new ≡ spec.waiting_after summed (value_of segment.now) socket.old waiting.old }
{
    waiting.keep_last(socket.tx().len());
    if !waiting.takes(&segment.endpoints.remote_addr) {
        return Err(Full);
    }
    send(segment, summed, socket, room)?;
    waiting.add(&segment.endpoints.remote_addr);
    Ok(())
}
