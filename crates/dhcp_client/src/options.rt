//! The options of DHCP messages (RFC 2131 3, RFC 2132).
ghost use Rattle.std.specs.Prelude.{◌≡◌, ◌+◌, ◌<◌, ◌≤◌, ◌++◌, length, slice_index, IsTrue, [], min};
ghost use Rattle.std.specs.Option.{SomeIff};
ghost use Rattle.dhcp_client.specs.Options as spec;

use arrayvec::ArrayVec;
use ip_address::{EthernetAddress, Ipv4Address};
use ip_wire::emit::FrameBuffer;
use ip_wire::octets::{u16_at, u32_at};

/// The option without a length, which fills up (RFC 2132 3.1).
const PAD: u8 = 0;

/// The option that ends the options (RFC 2132 3.2).
const END: u8 = 255;

/// The values of a message's options that a client reads or writes. Its type, and the list of parameters that it asks
/// for, stand apart.
#[derive(Clone, Copy, Debug, PartialEq, Eq)]
pub struct DhcpOptions {
    /// The mask of the client's network (RFC 2132 3.3).
    pub subnet_mask: Option<Ipv4Address>,
    /// The first of the network's routers, which is the preferred one (RFC 2132 3.5). Where the server tells routes, this is the
    /// router of the default route among them, and no other one (RFC 3442).
    pub router: Option<Ipv4Address>,
    /// The first three servers of names, from the first place on (RFC 2132 3.8).
    pub dns_servers: [Option<Ipv4Address>; 3],
    /// The address that a client asks for (RFC 2132 9.1).
    pub requested_ip: Option<Ipv4Address>,
    /// How long the lease is, in seconds; 0xffff_ffff is without end (RFC 2132 9.2, RFC 2131 3.3).
    pub lease_duration: Option<u32>,
    /// By which address the server is known, and where it takes messages (RFC 2132 9.7).
    pub server_identifier: Option<Ipv4Address>,
    /// The longest message that the sender takes, in octets (RFC 2132 9.10).
    pub max_size: Option<u16>,
    /// The longest packet of the network, in octets (RFC 2132 5.1).
    pub mtu: Option<u16>,
    /// After how many seconds the client renews its lease, T1 (RFC 2132 9.11).
    pub renew_duration: Option<u32>,
    /// After how many seconds it asks any server, T2 (RFC 2132 9.12).
    pub rebind_duration: Option<u32>,
    /// By which Ethernet address the client is known (RFC 2132 9.14).
    pub client_identifier: Option<EthernetAddress>,
}

impl DhcpOptions {
    /// The values of a message without options.
    pub const fn new() -> DhcpOptions
        ensures { result ≡ spec.no_options }
    {
        DhcpOptions {
            subnet_mask: None,
            router: None,
            dns_servers: [None, None, None],
            requested_ip: None,
            lease_duration: None,
            server_identifier: None,
            max_size: None,
            mtu: None,
            renew_duration: None,
            rebind_duration: None,
            client_identifier: None,
        }
    }
}

/// The length of the option that the octets begin with. `None` if none begins there.
#[inline(always)]
fn option_len(octets: &[u8]) -> Option<usize>
    ensures { SomeIff result (IsTrue (spec.begins_option octets.now)) (spec.option_len octets.now) }
{
    let code = *octets.first()?;
    if code == PAD {
        return Some(1);
    }
    let len = 2 + usize::from(*octets.get(1)?);
    if code == END || octets.len() < len {
        return None;
    }
    Some(len)
}

/// Whether the octets are options, up to one that ends them or to the last octet.
pub(crate) fn are_whole(octets: &[u8]) -> bool
    ensures { result ≡ spec.are_whole 0 octets.now }
{
    let mut rest = octets;
    while let Some(len) = option_len(rest) {
        rest = &rest[len..];
    }
    rest.is_empty() || rest[0] == END
}

/// The data of all options of a code, one after another (RFC 3396); of more than 256 octets the first ones.
pub type OptionData = ArrayVec<u8, 256>;

/// Appends the data of the options of a code, as far as there is room.
pub(crate) fn join(octets: &[u8], code: u8, found: &mut OptionData)
    requires { length found.old.items ≤ 256 }
    ensures items { found.new.items ≡ spec.in_room (found.old.items ++ spec.joined code (spec.options_after 0 octets.now)) }
    ensures len { length found.new.items ≤ 256 }
{
    let mut rest = octets;
    while let Some(len) = option_len(rest) {
        join_if(&rest[..len], code, found);
        rest = &rest[len..];
    }
}

/// Appends the data of an option, if it has this code, as far as there is room.
#[inline(always)]
fn join_if(option: &[u8], code: u8, found: &mut OptionData)
    requires option { 1 ≤ length option.now }
    requires room { length found.old.items ≤ 256 }
    ensures items { found.new.items ≡ spec.in_room (found.old.items ++ spec.data_if code option.now) }
    ensures len { length found.new.items ≤ 256 }
{
    if option[0] == code && option.len() > 2 {
        append_data(&option[2..], found);
    }
}

/// Appends octets, as far as there is room.
fn append_data(octets: &[u8], found: &mut OptionData)
    requires { length found.old.items ≤ 256 }
    ensures items { found.new.items ≡ spec.in_room (found.old.items ++ octets.now) }
    ensures len { length found.new.items ≤ 256 }
{
    let len = octets.len().min(found.remaining_capacity());
    append_all(&octets[..len], found);
}

/// Appends octets, for which there is room.
pub(crate) fn append_all(octets: &[u8], found: &mut OptionData)
    requires { length found.old.items + length octets.now ≤ 256 }
    ensures { found.new.items ≡ found.old.items ++ octets.now }
{
    let _ = found.try_extend_from_slice(octets);
}

/// The address that is all of the data.
pub(crate) fn address_in(octets: &[u8]) -> Option<Ipv4Address>
    ensures { result ≡ spec.address_in octets.now }
{
    if octets.len() != 4 {
        return None;
    }
    Some(Ipv4Address {
        bits: u32_at(octets, 0),
    })
}

/// The number of four octets that is all of the data.
pub(crate) fn seconds_in(octets: &[u8]) -> Option<u32>
    ensures { result ≡ spec.seconds_in octets.now }
{
    if octets.len() != 4 {
        return None;
    }
    Some(u32_at(octets, 0))
}

/// The number of two octets that is all of the data.
pub(crate) fn size_in(octets: &[u8]) -> Option<u16>
    ensures { result ≡ spec.size_in octets.now }
{
    if octets.len() != 2 {
        return None;
    }
    Some(u16_at(octets, 0))
}

/// The number of one octet that is all of the data; 0 for other octets.
pub(crate) fn octet_in(octets: &[u8]) -> u8
    ensures { result ≡ spec.octet_in octets.now }
{
    if octets.len() == 1 { octets[0] } else { 0 }
}

/// The Ethernet address that is all of the data, behind its hardware type.
pub(crate) fn identifier_in(octets: &[u8]) -> Option<EthernetAddress>
    ensures { result ≡ spec.identifier_in octets.now }
{
    if octets.len() != 7 || octets[0] != 1 {
        return None;
    }
    Some(hardware_address_at(octets, 1))
}

/// The Ethernet address in six octets at an offset.
#[inline(always)]
pub(crate) fn hardware_address_at(octets: &[u8], at: usize) -> EthernetAddress
    requires { at + 6 ≤ length octets.now }
    ensures { result ≡ spec.hardware_address_at octets.now at }
{
    let mut address = [0; 6];
    address.copy_from_slice(&octets[at..at + 6]);
    EthernetAddress(address)
}

/// The address in four octets of a list of addresses. `None` if the list ends before, or if it isn't one.
pub(crate) fn listed_at(octets: &[u8], at: usize) -> Option<Ipv4Address>
    requires { at ≤ 8 }
    ensures { result ≡ spec.listed_at octets.now at }
{
    if octets.len() % 4 != 0 || octets.len() < at + 4 {
        return None;
    }
    Some(Ipv4Address {
        bits: u32_at(octets, at),
    })
}

/// Appends an option with these data, unless there are none.
#[inline(always)]
#[tactic(auto, unfolding(crate::specs::Options::option_text))]
pub(crate) fn append_option(code: u8, octets: &[u8], out: &mut FrameBuffer)
    requires short { length octets.now ≤ 255 }
    requires room { length out.old + 2 + length octets.now ≤ 1514 }
    ensures items { out.new ≡ out.old ++ spec.option_text code octets.now }
    ensures len { length out.new ≤ length out.old + 2 + length octets.now }
{
    if !octets.is_empty() {
        out.append(&[code, octets.len() as u8]);
        out.append(octets);
    }
}

/// Appends an option that is an address, if there is one.
#[inline(always)]
#[tactic(auto, unfolding(crate::specs::Options::address_data))]
pub(crate) fn append_address(code: u8, address: Option<Ipv4Address>, out: &mut FrameBuffer)
    requires { length out.old + 6 ≤ 1514 }
    ensures items { out.new ≡ out.old ++ spec.option_text code (spec.address_data address) }
    ensures len { length out.new ≤ length out.old + 6 }
{
    match address {
        Some(address) => append_option(code, &address.octets(), out),
        None => append_option(code, &[], out),
    }
}

/// Appends an option that is a number of seconds, if there is one.
#[inline(always)]
#[tactic(auto, unfolding(crate::specs::Options::seconds_data))]
pub(crate) fn append_seconds(code: u8, seconds: Option<u32>, out: &mut FrameBuffer)
    requires { length out.old + 6 ≤ 1514 }
    ensures items { out.new ≡ out.old ++ spec.option_text code (spec.seconds_data seconds) }
    ensures len { length out.new ≤ length out.old + 6 }
{
    match seconds {
        Some(seconds) => append_option(code, &seconds.to_be_bytes(), out),
        None => append_option(code, &[], out),
    }
}

/// Appends an option that is a number of octets, if there is one.
#[inline(always)]
#[tactic(auto, unfolding(crate::specs::Options::size_data))]
pub(crate) fn append_size(code: u8, size: Option<u16>, out: &mut FrameBuffer)
    requires { length out.old + 4 ≤ 1514 }
    ensures items { out.new ≡ out.old ++ spec.option_text code (spec.size_data size) }
    ensures len { length out.new ≤ length out.old + 4 }
{
    match size {
        Some(size) => append_option(code, &size.to_be_bytes(), out),
        None => append_option(code, &[], out),
    }
}

/// Appends an option that is a hardware type and an Ethernet address, if there is one.
#[inline(always)]
#[tactic(auto, unfolding(crate::specs::Options::identifier_data))]
pub(crate) fn append_identifier(
    code: u8,
    identifier: Option<EthernetAddress>,
    out: &mut FrameBuffer,
)
    requires { length out.old + 9 ≤ 1514 }
    ensures items { out.new ≡ out.old ++ spec.option_text code (spec.identifier_data identifier) }
    ensures len { length out.new ≤ length out.old + 9 }
{
    match identifier {
        Some(identifier) => {
            let [a0, a1, a2, a3, a4, a5] = identifier.0;
            append_option(code, &[1, a0, a1, a2, a3, a4, a5], out);
        }
        None => append_option(code, &[], out),
    }
}

/// Appends an option that is a list of at most three addresses, if there is one.
#[inline(always)]
pub(crate) fn append_list(code: u8, list: &[Option<Ipv4Address>; 3], out: &mut FrameBuffer)
    requires { length out.old + 14 ≤ 1514 }
    ensures items { out.new ≡ out.old ++ spec.option_text code (spec.list_data list.now) }
    ensures len { length out.new ≤ length out.old + 14 }
{
    let len = octets_of(list[0]) + octets_of(list[1]) + octets_of(list[2]);
    if len > 0 {
        out.append(&[code, len]);
        append_octets(list[0], out);
        append_octets(list[1], out);
        append_octets(list[2], out);
    }
}

/// How many octets an address has, if there is one.
#[inline(always)]
#[tactic(auto, unfolding(crate::specs::Options::address_data))]
const fn octets_of(address: Option<Ipv4Address>) -> u8
    ensures value { result ≡ length (spec.address_data address) }
    ensures small { result ≤ 4 }
{
    match address {
        Some(_) => 4,
        None => 0,
    }
}

/// Appends the octets of an address, if there is one.
#[inline(always)]
#[tactic(auto, unfolding(crate::specs::Options::address_data))]
fn append_octets(address: Option<Ipv4Address>, out: &mut FrameBuffer)
    requires { length out.old + 4 ≤ 1514 }
    ensures items { out.new ≡ out.old ++ spec.address_data address }
    ensures len { length out.new ≤ length out.old + 4 }
{
    if let Some(address) = address {
        out.append(&address.octets());
    }
}
