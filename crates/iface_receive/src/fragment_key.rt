//! The key under which an interface adds a frame's fragment to others (RFC 791 3.2).
ghost use Rattle.std.specs.Prelude.{◌≡◌, ◌+◌, ◌<◌, ◌^◌};
ghost use Rattle.iface_context.specs.Stands.{host_of};
ghost use Rattle.iface_receive.specs.FragmentKey.{CarriesFragment, IsFound, IsFragmentOf, IsFramed, may_be_framed, may_be_part};
ghost use Rattle.host_machine.specs.Context.Host.{no_sockets};

use crate::ethernet::is_for;
use crate::ipv4::may_be_source;
use fragmentation::FragKey;
use iface_context::Context;
use ip_wire::octets::u16_at;
use ip_wire::{EthernetAddress, EthernetProtocol, EthernetRepr, HardwareAddress, Ipv4Repr};

/// The key of the datagram to which a frame's fragment belongs, by the interface's own tests: the frame is for the interface, and
/// carries a packet with a right header, that may come from its source and isn't whole. `None` for any other frame.
#[inline(always)]
pub fn fragment_key(context: &Context, frame: &[u8]) -> Option<FragKey>
    ensures { IsFound (λ key. CarriesFragment key (host_of context.now no_sockets) frame.now) result }
{
    match context.hardware_addr() {
        HardwareAddress::Ethernet(own) => {
            if !may_be_framed(frame) {
                return None;
            }
            framed_key(context, &own, frame)
        }
        HardwareAddress::Ip => {
            if !may_be_part(0, frame) {
                return None;
            }
            packet_key(context, frame)
        }
    }
}

/// Whether octets from one on may begin with a fragment. So most frames aren't parsed for their keys.
#[inline(always)]
fn may_be_part(at: usize, frame: &[u8]) -> bool
    requires { at + 20 < 2 ^ 16 }
    ensures { result ≡ may_be_part at frame.now }
{
    at + 20 <= frame.len() && u16_at(frame, at + 6) % 0x4000 != 0
}

/// Whether a frame of Ethernet may carry a fragment.
#[inline(always)]
fn may_be_framed(frame: &[u8]) -> bool
    ensures { result ≡ may_be_framed frame.now }
{
    may_be_part(14, frame) && u16_at(frame, 12) == 0x0800
}

/// The key in a frame of Ethernet, for an interface with this address.
#[inline(never)]
fn framed_key(context: &Context, own: &EthernetAddress, frame: &[u8]) -> Option<FragKey>
    ensures { IsFound (λ key. IsFramed own.now key (host_of context.now no_sockets) frame.now) result }
{
    let Some((header, payload)) = EthernetRepr::parse(frame) else {
        return None;
    };
    if !is_for(own, &header.dst_addr) {
        return None;
    }
    match header.ethertype {
        EthernetProtocol::Ipv4 => packet_key(context, payload),
        _ => None,
    }
}

/// The key in a packet.
fn packet_key(context: &Context, octets: &[u8]) -> Option<FragKey>
    ensures { IsFound (λ key. IsFragmentOf key (host_of context.now no_sockets) octets.now) result }
{
    let checked = context.capabilities().checksum.ipv4.rx();
    let Some((header, fragment, _)) = Ipv4Repr::parse(octets, checked) else {
        return None;
    };
    if !fragment.is_fragment() || !may_be_source(context, &header.src_addr) {
        return None;
    }
    Some(FragKey::new(&header, fragment.identification))
}
