//! Who a frame comes from on its link, and which hardware address it tells.
ghost use Rattle.std.specs.Prelude.{◌≡◌, ◌+◌, ◌≤◌, length};
ghost use Rattle.guard.specs.Claim as spec;

use crate::kind::{message_of, octet_at};
use ip_address::{EthernetAddress, HardwareAddress};
use ip_wire::octets::u16_at;

/// The hardware address in six octets at an offset.
pub(crate) fn hardware_at(frame: &[u8], at: usize) -> EthernetAddress
    requires { at ≤ 4096 }
    ensures { result ≡ spec.hardware_at frame.now at }
{
    EthernetAddress([
        octet_at(frame, at),
        octet_at(frame, at + 1),
        octet_at(frame, at + 2),
        octet_at(frame, at + 3),
        octet_at(frame, at + 4),
        octet_at(frame, at + 5),
    ])
}

/// Whether a hardware address is the source of a frame (RFC 894).
fn is_from(hardware: &EthernetAddress, frame: &[u8]) -> bool
    ensures { result ≡ spec.is_from hardware.now frame.now }
{
    hardware_at(frame, 6) == *hardware
}

/// Whether what a frame tells is no other hardware address than this one: an ARP packet tells that of its sender (RFC 826). A
/// neighbour message without options tells none; one with a single option of eight octets has it there (RFC 4861 4.6.1). One with
/// more may tell another one.
pub fn tells_only(hardware: &EthernetAddress, frame: &[u8]) -> bool
    ensures { result ≡ spec.tells_only hardware.now frame.now }
{
    if frame.len() < 42 {
        return true;
    }
    if u16_at(frame, 12) == 0x0806 {
        return hardware_at(frame, 22) == *hardware;
    }
    match message_of(frame) {
        None => true,
        Some(message) => {
            frame.len() <= message + 24
                || frame.len() <= message + 32 && hardware_at(frame, message + 26) == *hardware
        }
    }
}

/// Whether a frame comes from the own hardware address, if there is one.
pub(crate) fn comes_back(hardware: Option<HardwareAddress>, frame: &[u8]) -> bool
    ensures { result ≡ spec.comes_back hardware frame.now }
{
    match hardware {
        Some(HardwareAddress::Ethernet(own)) => is_from(&own, frame),
        _ => false,
    }
}

/// Whether a frame comes from the own hardware address, if there is one, and tells no other one.
pub(crate) fn is_from_host(hardware: Option<HardwareAddress>, frame: &[u8]) -> bool
    ensures { result ≡ spec.is_from_host hardware frame.now }
{
    match hardware {
        Some(HardwareAddress::Ethernet(own)) => is_from(&own, frame) && tells_only(&own, frame),
        _ => false,
    }
}
