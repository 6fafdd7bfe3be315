//! What sockets need from their surroundings.
ghost use Rattle.std.specs.Prelude.{◌≡◌};
ghost use Rattle.sockets.specs.Source as spec;

use ip_wire::IpAddress;
use net_base::time::Instant;

/// The surroundings of sockets: the moment, and the addresses of the host.
pub trait SocketContext {
    ghost use Rattle.std.specs.Prelude.{ℤ, Bool, Option};
    ghost use Rattle.ip_address.specs.declared.ip.IpAddress.{IpAddress};

    /// The moment at which the socket is asked, in microseconds since the origin of its clock.
    ghost moment: { Self → ℤ };

    /// The source address for a destination, `None` if there is none.
    ghost source_for: { Self → IpAddress → Option IpAddress };

    /// Whether an address is the limited broadcast address, or the broadcast address of one of the host's networks.
    ghost is_broadcast_in: { Self → IpAddress → Bool };

    /// The moment at which the socket is asked.
    fn now(&self) -> Instant
        ensures { result ≡ moment self.now };

    /// The source address for a destination, if there is one.
    fn get_source_address(&self, dst_addr: &IpAddress) -> Option<IpAddress>
        ensures { result ≡ source_for self.now dst_addr.now };

    /// Whether an address is the limited broadcast address, or the broadcast address of one of the host's networks.
    fn is_broadcast(&self, address: &IpAddress) -> bool
        ensures { result ≡ is_broadcast_in self.now address.now };
}

/// The source address for a peer: the given address, otherwise the one that the context chooses. `None` unless it is of
/// the peer's family.
pub fn source_address<C: SocketContext>(
    context: &C,
    given: Option<IpAddress>,
    peer: &IpAddress,
) -> Option<IpAddress>
    ensures { result ≡ spec.source_of (C.source_for context.now) given peer.now }
{
    let source = match given {
        Some(address) => address,
        None => context.get_source_address(peer)?,
    };
    match (source, peer) {
        (IpAddress::Ipv4(_), IpAddress::Ipv4(_)) | (IpAddress::Ipv6(_), IpAddress::Ipv6(_)) => {
            Some(source)
        }
        _ => None,
    }
}
