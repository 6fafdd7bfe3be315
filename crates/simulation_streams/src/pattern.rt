//! The octets of a stream: each follows from its place, so that what arrives can be compared.
ghost use Rattle.std.specs.Prelude.{◌≡◌, length, MatchOption};
ghost use Rattle.simulation_streams.specs.Pattern as spec;

/// What spreads the places of a stream over the values of an octet: 2^64 over the golden ratio.
const FACTOR: u64 = 0x9e37_79b9_7f4a_7c15;

/// The octet at a place, from 0, of a stream from a port.
pub fn octet_at(port: u16, place: u64) -> u8
    ensures { result ≡ spec.octet_at port place }
{
    let begin = u64::from(port) << 32;
    let mixed = begin.wrapping_add(place).wrapping_mul(FACTOR);
    (mixed >> 56) as u8
}

/// Writes the octets of a stream from a place on.
pub fn fill(port: u16, first: u64, octets: &mut [u8])
    ensures count { length octets.new ≡ length octets.old }
    ensures octets { spec.AreFrom port first (length octets.old) octets.new }
{
    for i in 0..octets.len() {
        octets[i] = octet_at(port, first.wrapping_add(i as u64));
    }
}

/// The index of the first octet that isn't the stream's, where the others follow each other from a place on. `None` if all are.
pub fn first_wrong(port: u16, first: u64, octets: &[u8]) -> Option<usize>
    ensures { MatchOption result (spec.AreFrom port first (length octets.now) octets.now) (spec.IsFirstWrong port first octets.now) }
{
    for i in 0..octets.len() {
        if octets[i] != octet_at(port, first.wrapping_add(i as u64)) {
            return Some(i);
        }
    }
    None
}
