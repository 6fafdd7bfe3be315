//! The pseudo-header that the checksums of UDP and TCP cover (RFC 768, RFC 9293 3.1, RFC 8200 8.1).
ghost use Rattle.std.specs.Prelude.{◌≡◌, ◌+◌, ◌<◌, ◌^◌, ℕ};
ghost use Rattle.ip_wire.specs.Checksum.{folded_sum, word_sum};
ghost use Rattle.ip_wire.specs.Pseudo as spec;

use crate::checksum::sum_with;
use ip_address::IpAddress;

/// A number that folds as the sum of the words of a pseudo-header does, in any sum: source, destination, the protocol's
/// number, and the length of what follows, in octets.
#[inline(always)]
#[tactic(auto, using(crate::proofs::Pseudos::sums))]
pub fn pseudo_sum(src: &IpAddress, dst: &IpAddress, protocol: u8, len: u16) -> u64
    ensures folds { (sum : ℕ) →
        folded_sum (sum + result) ≡ folded_sum (sum + word_sum (spec.pseudo src.now dst.now protocol len)) }
    ensures small { result < 2 ^ 40 }
{
    if let (IpAddress::Ipv4(src), IpAddress::Ipv4(dst)) = (src, dst) {
        return u64::from(src.bits) + u64::from(dst.bits) + u64::from(protocol) + u64::from(len);
    }
    if let (IpAddress::Ipv6(src), IpAddress::Ipv6(dst)) = (src, dst) {
        return quarters(src.bits) + quarters(dst.bits) + u64::from(protocol) + u64::from(len);
    }
    mixed_sum(src, dst, protocol, len)
}

/// The same, for addresses of any two families, by their octets. No packet has addresses of two families, so this is a
/// call.
#[inline(never)]
#[tactic(auto, using(crate::proofs::Pseudos::sums))]
fn mixed_sum(src: &IpAddress, dst: &IpAddress, protocol: u8, len: u16) -> u64
    ensures folds { (sum : ℕ) →
        folded_sum (sum + result) ≡ folded_sum (sum + word_sum (spec.pseudo src.now dst.now protocol len)) }
    ensures small { result < 2 ^ 40 }
{
    let addresses = address_sum(address_sum(0, src), dst);
    u64::from(ending_sum(addresses, dst, protocol, len))
}

/// The sum of the four 32-bit quarters of an IPv6 address. It folds as the sum of its words does.
#[inline(always)]
fn quarters(bits: u128) -> u64
    ensures value { result ≡ spec.quarters bits }
    ensures small { result < 2 ^ 34 }
{
    let first = (bits / (1 << 96)) as u64;
    let second = (bits / (1 << 64) % (1 << 32)) as u64;
    let third = (bits / (1 << 32) % (1 << 32)) as u64;
    let fourth = (bits % (1 << 32)) as u64;
    first + second + third + fourth
}

/// The folded sum of `start` and the words of an address.
fn address_sum(start: u16, address: &IpAddress) -> u16
    ensures { result ≡ folded_sum (start + word_sum (spec.address_octets address.now)) }
{
    match address {
        IpAddress::Ipv4(address) => sum_with(u64::from(start), &address.octets()),
        IpAddress::Ipv6(address) => sum_with(u64::from(start), &address.bits.to_be_bytes()),
    }
}

/// The folded sum of `start` and the words of protocol and length.
fn ending_sum(start: u16, dst: &IpAddress, protocol: u8, len: u16) -> u16
    ensures { result ≡ folded_sum (start + word_sum (spec.ending dst.now protocol len)) }
{
    match dst {
        IpAddress::Ipv4(_) => {
            let [l0, l1] = len.to_be_bytes();
            sum_with(u64::from(start), &[0, protocol, l0, l1])
        }
        IpAddress::Ipv6(_) => {
            let [l0, l1, l2, l3] = u32::from(len).to_be_bytes();
            sum_with(u64::from(start), &[l0, l1, l2, l3, 0, 0, 0, protocol])
        }
    }
}
