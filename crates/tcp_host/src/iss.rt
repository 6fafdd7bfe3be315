//! Initial numbers of connections (RFC 6528).
ghost use Rattle.std.specs.Prelude.{◌≡◌, ◌++◌};
ghost use Rattle.ip_address.specs.Ip.{address_key};
ghost use Rattle.sha2.specs.Sha256.{sha256};
ghost use Rattle.tcp_host.specs.Iss as spec;

use ip_address::IpAddress;
use sha2::{Digest, Sha256};

/// The two ends of a connection: addresses and ports.
#[derive(Clone, Copy, Debug, PartialEq, Eq)]
pub struct Endpoints {
    pub local_addr: IpAddress,
    pub local_port: u16,
    pub remote_addr: IpAddress,
    pub remote_port: u16,
}

/// The initial number of a connection that begins at an instant, in microseconds: a clock that counts each four of them,
/// plus a hash of the ends and of a secret key (RFC 6528 3).
pub fn iss(key: &[u8; 32], now: u64, endpoints: &Endpoints) -> u32
    ensures { result ≡ spec.iss key.now endpoints.now now }
{
    let clock = ((now / 4) % (1 << 32)) as u32;
    clock.wrapping_add(hash(key, endpoints))
}

/// F of RFC 6528 3: the first four octets of the digest.
fn hash(key: &[u8; 32], endpoints: &Endpoints) -> u32
    ensures { result ≡ spec.hash key.now endpoints.now }
{
    let [a, b, c, d, ..] = digest(key, endpoints);
    u32::from_be_bytes([a, b, c, d])
}

/// The digest of the ends and the key.
fn digest(key: &[u8; 32], endpoints: &Endpoints) -> [u8; 32]
    ensures { result ≡ sha256 (spec.text key.now endpoints.now) }
{
    let local = end_text(&endpoints.local_addr, endpoints.local_port);
    let remote = end_text(&endpoints.remote_addr, endpoints.remote_port);
    digest_of(&local, &remote, key)
}

/// The digest of three pieces taken as one message.
fn digest_of(first: &[u8], second: &[u8], third: &[u8]) -> [u8; 32]
    ensures { result ≡ sha256 (first.now ++ second.now ++ third.now) }
{
    let mut hasher = Sha256::new();
    hasher.update(first);
    hasher.update(second);
    hasher.update(third);
    hasher.finalize()
}

/// An end in octets.
fn end_text(address: &IpAddress, port: u16) -> [u8; 19]
    ensures { result ≡ spec.end_text address.now port }
{
    let (family, bits) = key_of(address);
    let [a, b, c, d, e, f, g, h, i, j, k, l, m, n, o, p] = bits.to_be_bytes();
    let [q, r] = port.to_be_bytes();
    [family, a, b, c, d, e, f, g, h, i, j, k, l, m, n, o, p, q, r]
}

/// The family and the number of an address.
pub(crate) fn key_of(address: &IpAddress) -> (u8, u128)
    ensures family { result.0 ≡ (address_key address.now).0 }
    ensures number { result.1 ≡ (address_key address.now).1 }
{
    match address {
        IpAddress::Ipv4(address) => (0, u128::from(address.bits)),
        IpAddress::Ipv6(address) => (1, address.bits),
    }
}

/// The numbers of connections between the same ends advance with the clock.
pub fn numbers_advance()
    ensures { spec.NumbersAdvance }
{}
