//! The source address of a packet to an IPv6 destination (RFC 6724 5).
ghost use Rattle.std.specs.Prelude.{◌≡◌, List, IsTrue, IsSome};
ghost use Rattle.ip_address.specs.declared.cidr.IpCidr.{IpCidr};
ghost use Rattle.ip_address.specs.declared.ipv6.Ipv6Address.{Ipv6Address};
ghost use Rattle.std.specs.List.{list_any};
ghost use Rattle.ip_address.specs.AddressSelection.Ipv6 as spec;
ghost use Rattle.ip_address.specs.AddressSelection.Ipv6.{is_candidate_of};

use crate::{IpCidr, Ipv6Address, Ipv6Cidr};

/// The source address for a destination, chosen from a host's own addresses: ::1 for the host itself, otherwise the
/// first of the best addresses. Of two addresses, the better one equals the destination; then has the smallest scope
/// that reaches the destination's; then shares more leading bits with the destination, at most its prefix length (RFC
/// 6724 5, rules 1, 2 and 8). For a link-local destination only link-local addresses are candidates. Without a
/// candidate it is the host's first IPv6 address, and ::1 if there is none.
pub fn get_source_address_ipv6(own: &[IpCidr], dst_addr: &Ipv6Address) -> Ipv6Address
    ensures { result ≡ spec.source_v6 own.now dst_addr.now }
{
    if dst_addr.is_loopback() {
        return Ipv6Address::LOCALHOST;
    }
    match first_best(own, dst_addr) {
        Some(best) => best,
        None => match ipv6_addr(own) {
            Some(first) => first,
            None => Ipv6Address::LOCALHOST,
        },
    }
}

/// A lemma for proofs about sources: if one of a host's own addresses is a candidate for a destination, one of them is
/// best, that is, no candidate is preferred to it. It does nothing.
pub fn a_best_source_is_there()
    ensures { (own : List IpCidr) (d : Ipv6Address) →
        IsTrue (list_any (is_candidate_of d) own) → IsSome (spec.first_best own d own) }
{}

/// The first IPv6 address in a list.
pub fn ipv6_addr(own: &[IpCidr]) -> Option<Ipv6Address>
    ensures { result ≡ spec.ipv6_addr own.now }
{
    for cidr in own {
        if let IpCidr::Ipv6(cidr) = cidr {
            return Some(cidr.address);
        }
    }
    None
}

/// The first candidate to which none is preferred.
fn first_best(own: &[IpCidr], dst_addr: &Ipv6Address) -> Option<Ipv6Address>
    ensures { result ≡ spec.first_best own.now dst_addr.now own.now }
{
    for cidr in own {
        if let IpCidr::Ipv6(cidr) = cidr {
            if is_best(own, cidr, dst_addr) {
                return Some(cidr.address);
            }
        }
    }
    None
}

/// Whether an address is a candidate to which none is preferred.
fn is_best(own: &[IpCidr], cidr: &Ipv6Cidr, dst_addr: &Ipv6Address) -> bool
    ensures { result ≡ spec.is_best own.now dst_addr.now cidr.now }
{
    is_candidate(cidr, dst_addr) && !is_beaten(own, cidr, dst_addr)
}

/// Whether a candidate is preferred to an address.
fn is_beaten(own: &[IpCidr], cidr: &Ipv6Cidr, dst_addr: &Ipv6Address) -> bool
    ensures { result ≡ list_any (spec.beats dst_addr.now cidr.now) own.now }
{
    own.iter().any(|other| beats(other, cidr, dst_addr))
}

/// Whether this is a candidate that is preferred to an address.
fn beats(other: &IpCidr, cidr: &Ipv6Cidr, dst_addr: &Ipv6Address) -> bool
    ensures { result ≡ spec.beats dst_addr.now cidr.now other.now }
{
    match other {
        IpCidr::Ipv4(_) => false,
        IpCidr::Ipv6(other) => is_candidate(other, dst_addr) && is_preferred(other, cidr, dst_addr),
    }
}

/// Whether an address of the host may be the source.
fn is_candidate(cidr: &Ipv6Cidr, dst_addr: &Ipv6Address) -> bool
    ensures { result ≡ spec.is_candidate dst_addr.now cidr.now }
{
    !cidr.address.is_unspecified() && (!dst_addr.is_link_local() || cidr.address.is_link_local())
}

/// Whether an address of the host is preferred to another one.
fn is_preferred(a: &Ipv6Cidr, b: &Ipv6Cidr, dst_addr: &Ipv6Address) -> bool
    ensures { result ≡ spec.is_preferred a.now b.now dst_addr.now }
{
    let a_is_same = a.address == *dst_addr;
    let b_is_same = b.address == *dst_addr;
    if a_is_same != b_is_same {
        return a_is_same;
    }
    let (scope_a, scope_b) = (a.address.scope(), b.address.scope());
    let scope = dst_addr.scope();
    if scope_a < scope_b {
        return scope_a >= scope;
    }
    if scope_b < scope_a {
        return scope_b < scope;
    }
    common_prefix_len(b, dst_addr) < common_prefix_len(a, dst_addr)
}

/// The number of leading bits that an address of the host shares with a destination, at most its prefix length.
fn common_prefix_len(cidr: &Ipv6Cidr, dst_addr: &Ipv6Address) -> u8
    ensures { result ≡ spec.common_prefix_len cidr.now dst_addr.now }
{
    cidr.address.common_prefix_len(dst_addr, cidr.prefix_len)
}
