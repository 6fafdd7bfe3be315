//! Which addresses a client takes (RFC 1122 3.2.1.3, RFC 3021).
ghost use Rattle.std.specs.Prelude.{◌≡◌, ◌≤◌, ◌<◌, ◌+◌, ◌-◌, ◌^◌};
ghost use Rattle.dhcp_client.specs.Addresses as spec;

use ip_address::Ipv4Address;

/// Whether a host can have an address: it is neither of 0/8, which is this network, nor of 127/8 (loopback), 224/4 (multicast)
/// or 240/4 (reserved).
pub(crate) fn is_host_address(address: &Ipv4Address) -> bool
    ensures { result ≡ spec.is_host_address address.now }
{
    let first_octet = address.bits >> 24;
    0 < first_octet && first_octet < 224 && first_octet != 127
}

/// Whether a host of a network with this mask can have an address: it is a host's, and neither the network's own nor its
/// broadcast address. A mask that is none doesn't count.
pub(crate) fn is_leasable(address: &Ipv4Address, mask: &Option<Ipv4Address>) -> bool
    ensures { result ≡ spec.is_leasable address.now mask.now }
{
    is_host_address(address) && !is_networks(address, &mask_of(mask))
}

/// A mask, if it is one.
pub(crate) fn mask_of(mask: &Option<Ipv4Address>) -> Option<Ipv4Address>
    ensures { result ≡ spec.mask_of mask.now }
{
    match mask {
        Some(mask) if is_mask(mask) => Some(*mask),
        _ => None,
    }
}

/// Whether a mask is ones and then zeros, but not zeros alone.
fn is_mask(mask: &Ipv4Address) -> bool
    ensures { result ≡ spec.is_mask mask.now }
{
    mask.bits != 0 && 0x1_0000_0000 % addresses_of(mask) == 0
}

/// How many addresses the network of a mask has.
fn addresses_of(mask: &Ipv4Address) -> u64
    ensures value { result ≡ spec.addresses_of mask.now }
    ensures some { 1 ≤ result }
{
    0x1_0000_0000 - u64::from(mask.bits)
}

/// Whether an address is the network's own, or its broadcast address. A network of one or two addresses has neither.
fn is_networks(address: &Ipv4Address, mask: &Option<Ipv4Address>) -> bool
    ensures { result ≡ spec.is_networks address.now mask.now }
{
    let Some(mask) = mask else {
        return false;
    };
    let count = addresses_of(mask);
    if count <= 2 {
        return false;
    }
    let place = u64::from(address.bits) % count;
    place == 0 || place + 1 == count
}

/// An address, if it is another host's.
pub(crate) fn other_in(own: &Ipv4Address, address: &Option<Ipv4Address>) -> Option<Ipv4Address>
    ensures { result ≡ spec.other_in own.now address.now }
{
    match address {
        Some(address) if is_other(own, address) => Some(*address),
        _ => None,
    }
}

/// Whether an address is another host's.
pub(crate) fn is_other(own: &Ipv4Address, address: &Ipv4Address) -> bool
    ensures { result ≡ spec.is_other own.now address.now }
{
    is_host_address(address) && address.bits != own.bits
}

/// The addresses of other hosts in three places, from the first place on.
pub(crate) fn others_in(
    own: &Ipv4Address,
    list: &[Option<Ipv4Address>; 3],
) -> [Option<Ipv4Address>; 3]
    ensures { result ≡ spec.others_in own.now list.now }
{
    without_gaps(
        other_in(own, &list[0]),
        other_in(own, &list[1]),
        other_in(own, &list[2]),
    )
}

/// Three places without gaps, in the same order.
const fn without_gaps(
    first: Option<Ipv4Address>,
    second: Option<Ipv4Address>,
    third: Option<Ipv4Address>,
) -> [Option<Ipv4Address>; 3]
    ensures { result ≡ spec.without_gaps first second third }
{
    match (first, second) {
        (Some(_), Some(_)) => [first, second, third],
        (Some(_), None) => [first, third, None],
        (None, Some(_)) => [second, third, None],
        (None, None) => [third, None, None],
    }
}
