//! Numbers at an offset of a slice, big-endian unless stated otherwise.
ghost use Rattle.std.specs.Prelude.{◌≡◌, ◌+◌, ◌≤◌, length};
ghost use Rattle.ip_wire.specs.Octets as spec;

/// The number in two octets at an offset.
#[inline(always)]
pub fn u16_at(octets: &[u8], at: usize) -> u16
    requires { at + 2 ≤ length octets.now }
    ensures { result ≡ spec.u16_at octets.now at }
{
    u16::from_be_bytes([octets[at], octets[at + 1]])
}

/// The number in four octets at an offset.
#[inline(always)]
pub fn u32_at(octets: &[u8], at: usize) -> u32
    requires { at + 4 ≤ length octets.now }
    ensures { result ≡ spec.u32_at octets.now at }
{
    u32::from_be_bytes([octets[at], octets[at + 1], octets[at + 2], octets[at + 3]])
}

/// The number in four octets at an offset, little-endian.
#[inline(always)]
pub fn u32_le_at(octets: &[u8], at: usize) -> u32
    requires { at + 4 ≤ length octets.now }
    ensures { result ≡ spec.u32_le_at octets.now at }
{
    u32::from_le_bytes([octets[at], octets[at + 1], octets[at + 2], octets[at + 3]])
}

/// The number in eight octets at an offset, little-endian.
#[inline(always)]
pub fn u64_le_at(octets: &[u8], at: usize) -> u64
    requires { at + 8 ≤ length octets.now }
    ensures { result ≡ spec.u64_le_at octets.now at }
{
    u64::from(u32_le_at(octets, at)) + 0x1_0000_0000 * u64::from(u32_le_at(octets, at + 4))
}
