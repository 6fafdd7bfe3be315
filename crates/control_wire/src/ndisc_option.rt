//! The options of neighbour and router discovery messages (RFC 4861 4.6).
ghost use Rattle.std.specs.Prelude.{◌≡◌, ◌≤◌, length};
ghost use Rattle.std.specs.Option.{SomeIff, option_map};
ghost use Rattle.control_wire.specs.NdiscOption as spec;

use ip_address::EthernetAddress;

/// Whose link-layer address an option carries.
#[derive(Clone, Copy, Debug, PartialEq, Eq)]
pub enum NdiscOptionType {
    /// The link-layer address of the message's sender.
    SourceLinkLayerAddr,
    /// The link-layer address of the message's target.
    TargetLinkLayerAddr,
}

impl NdiscOptionType {
    /// The number of a type.
    pub const fn number(self) -> u8
        ensures { result ≡ spec.number_of self }
    {
        match self {
            NdiscOptionType::SourceLinkLayerAddr => 1,
            NdiscOptionType::TargetLinkLayerAddr => 2,
        }
    }
}

/// The link-layer address in the last option of a type, if there is one. The octets are all options of a message.
///
/// `None` exactly if one of the options, of any type, has no length, is cut off, or has a wrong length. An option with
/// a link-layer address (types 1 and 2) must be 8 octets long, and one with a prefix (type 3) 32.
pub fn parse_lladdr(octets: &[u8], option_type: NdiscOptionType) -> Option<Option<EthernetAddress>>
    ensures { SomeIff result (spec.AreOptions octets.now) (spec.lladdr_in (spec.number_of option_type) octets.now) }
{
    let mut rest = octets;
    let mut found = None;
    while !rest.is_empty() {
        let after = after_option(rest)?;
        if rest[0] == option_type.number() {
            found = Some(address_in(rest));
        }
        rest = after;
    }
    Some(found)
}

/// The octets after the option that they begin with.
#[inline(always)]
#[tactic(auto, using(std::proofs::lemmas::List::take_rest))]
pub(crate) fn after_option(octets: &[u8]) -> Option<&[u8]>
    ensures { SomeIff (option_map spec.octets_of result) (spec.IsOption octets.now) (spec.after_option octets.now) }
{
    if octets.len() < 2 {
        return None;
    }
    let len = usize::from(octets[1]) * 8;
    if len == 0 || octets.len() < len || !has_length(octets[0], octets[1]) {
        return None;
    }
    Some(&octets[len..])
}

/// Whether an option of a type may have this length, in units of eight octets.
#[inline(always)]
const fn has_length(option_type: u8, length: u8) -> bool
    ensures { result ≡ spec.has_length option_type length }
{
    match option_type {
        1 | 2 => length == 1,
        3 => length == 4,
        _ => true,
    }
}

/// The link-layer address in the option that the octets begin with.
#[inline(always)]
fn address_in(octets: &[u8]) -> EthernetAddress
    requires { 8 ≤ length octets.now }
    ensures { result ≡ spec.address_in octets.now }
{
    let mut address = [0; 6];
    address.copy_from_slice(&octets[2..8]);
    EthernetAddress(address)
}

/// The eight octets of an option with a link-layer address.
#[inline(always)]
#[tactic(auto, unfolding(crate::specs::NdiscOption::lladdr_text))]
pub fn lladdr_option(option_type: NdiscOptionType, address: &EthernetAddress) -> [u8; 8]
    ensures { result ≡ spec.lladdr_text (spec.number_of option_type) address.now }
{
    let [a0, a1, a2, a3, a4, a5] = address.0;
    [option_type.number(), 1, a0, a1, a2, a3, a4, a5]
}
