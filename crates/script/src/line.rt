//! The meaning of a line.
ghost use Rattle.std.specs.Prelude.{◌≡◌, ◌<◌, ◌≤◌, ◌*◌, ◌==◌, ◌↔◌, length, take, None};
ghost use Rattle.std.specs.Prelude.{Ok, Some, IfNone, IfSome, IsSome, MatchOption};
ghost use Rattle.std.specs.List.{before_first, after_first, position_or_len};
ghost use Rattle.hex.specs.Hex.{decode_of};
ghost use Rattle.net_base.specs.Time.{IsMoment};
ghost use Rattle.host_machine.specs.Interface.Step.{IsTimely};
ghost use Rattle.script.specs.Commands.{IsTimelyLine};
ghost use Rattle.script.specs.Commands as commands;
ghost use Rattle.script.specs.Hex.{IsHexUpTo};
ghost use Rattle.script.specs.Text.{Say, SpellNetworks, SpellNoNetworks, SpellNoPoll, SpellPoll, address_in, budget_in};
ghost use Rattle.script.specs.Text.{ipv4_in, ipv6_in, is_space, moment_in, network_in, number_up_to, parts_of, port_in};

use arrayvec::ArrayVec;
use interface::Command;
use ip_wire::ipv6_packet::address_at;
use ip_wire::{IpAddress, IpCidr, Ipv4Address, Ipv4Cidr, Ipv6Address, Ipv6Cidr};
use net_base::time::Instant;

/// Room for the longest frame that fits in a line.
pub const FRAME_ROOM: usize = 2048;

/// A command with its values.
#[derive(Drop)]
pub enum Line {
    /// A frame of this many octets, in the front of the buffer, arrives.
    Rx(usize),
    /// A UDP socket listens at this port.
    Udp(u16),
    /// A call of the host's interface.
    Asks(Call),
}

/// A call of the host's interface. Moments are in microseconds, from 0 to 2^62.
#[derive(Drop)]
pub enum Call {
    /// The host's addresses.
    Addr(ArrayVec<IpCidr, 4>),
    /// The gateway of the host's default route of its family.
    Gw(IpAddress),
    /// The host joins this group.
    Join(IpAddress),
    /// The host leaves this group.
    Leave(IpAddress),
    /// The host receives one frame, at the moment last given.
    Ingress,
    /// The host sends what its sockets have queued, at the moment last given.
    Egress,
    /// The host is polled at this moment, with this budget.
    Poll(Instant, usize),
    /// The host returns when to poll again, as of this moment.
    At(Instant),
}

impl Call {
    ghost use Rattle.std.specs.Prelude.{◌≡◌};
    ghost use Rattle.net_base.specs.Time.{IsMoment};
    ghost use Rattle.host_machine.specs.Interface.Step.{IsTimely};
    ghost use Rattle.script.specs.Commands.{IsTimelyCall, command_of, moment_after};

    /// The moment last given after the call: its own, if it gives one, otherwise the one before.
    pub fn moment(&self, last: Instant) -> Instant
        requires call { IsTimelyCall self.now }
        requires last { IsMoment last }
        ensures moment { result ≡ moment_after last self.now }
        ensures timely { IsMoment result }
    {
        match self {
            Call::Poll(moment, _) | Call::At(moment) => *moment,
            Call::Addr(_)
            | Call::Gw(_)
            | Call::Join(_)
            | Call::Leave(_)
            | Call::Ingress
            | Call::Egress => last,
        }
    }

    /// The call as a command of the host machine, where `last` is the moment last given.
    pub fn command(self, last: Instant) -> Command
        requires call { IsTimelyCall self }
        requires last { IsMoment last }
        ensures command { result ≡ command_of last self }
        ensures timely { IsTimely result }
    {
        match self {
            Call::Addr(networks) => Command::UpdateIpAddrs(networks),
            Call::Gw(router) => default_route_by(router),
            Call::Join(group) => Command::JoinMulticastGroup(group),
            Call::Leave(group) => Command::LeaveMulticastGroup(group),
            Call::Ingress => Command::PollIngressSingle(last),
            Call::Egress => Command::PollEgress(last),
            Call::Poll(moment, budget) => Command::Poll(moment, budget),
            Call::At(moment) => Command::PollAt(moment),
        }
    }
}

/// The command that sets the gateway of the default route of its family.
fn default_route_by(router: IpAddress) -> Command
    ensures command { result ≡ commands.default_route_by router }
    ensures timely { IsTimely result }
{
    match router {
        IpAddress::Ipv4(router) => Command::AddDefaultIpv4Route(router),
        IpAddress::Ipv6(router) => Command::AddDefaultIpv6Route(router),
    }
}

/// Parses a line; `None` if it isn't a command. The frame of `rx` is written to the front of the buffer.
pub fn parse(text: &[u8], buffer: &mut [u8; FRAME_ROOM]) -> Option<Line>
    ensures said { IfSome result (Say (before_first is_space text.now) (after_first is_space text.now) buffer.new) }
    ensures timely { IfSome result IsTimelyLine }
{
    match split_at(text, b' ') {
        (b"rx", Some(digits)) => Some(Line::Rx(parse_hex(digits, buffer)?)),
        (b"addr", Some(words)) => Some(Line::Asks(Call::Addr(parse_addrs(words)?))),
        (b"gw", Some(digits)) => Some(Line::Asks(Call::Gw(parse_address(digits)?))),
        (b"join", Some(digits)) => Some(Line::Asks(Call::Join(parse_address(digits)?))),
        (b"leave", Some(digits)) => Some(Line::Asks(Call::Leave(parse_address(digits)?))),
        (b"udp", Some(digits)) => Some(Line::Udp(parse_port(digits)?)),
        (b"ingress", None) => Some(Line::Asks(Call::Ingress)),
        (b"egress", None) => Some(Line::Asks(Call::Egress)),
        (b"poll", Some(words)) => {
            let (moment, budget) = parse_poll(words)?;
            Some(Line::Asks(Call::Poll(moment, budget)))
        }
        (b"at", Some(digits)) => Some(Line::Asks(Call::At(parse_moment(digits)?))),
        _ => None,
    }
}

/// The text before the first separator, and the text after it, if there is one.
fn split_at(text: &[u8], separator: u8) -> (&[u8], Option<&[u8]>)
    ensures before { result.0.now ≡ before_first (λ octet. octet == separator) text.now }
    ensures after { MatchOption result.1 (position_or_len (λ octet. octet == separator) text.now ≡ length text.now)
        (λ rest. (position_or_len (λ octet. octet == separator) text.now < length text.now)
        × (rest.now ≡ after_first (λ octet. octet == separator) text.now)) }
{
    match text.iter().position(|octet| *octet == separator) {
        Some(at) => (&text[..at], Some(&text[at + 1..])),
        None => (text, None),
    }
}

/// Decodes hex digits into octets, and returns the number of octets. `None` exactly if it isn't an even number of hex
/// digits, at least two, or the buffer is too short.
fn parse_hex(digits: &[u8], octets: &mut [u8]) -> Option<usize>
    ensures count { IfSome result (λ n. length digits.now ≡ 2 * n) }
    ensures octets { IfSome result (λ n. decode_of digits.now ≡ Ok (take n octets.new)) }
    ensures found { IsSome result ↔ IsHexUpTo (length octets.old) digits.now }
{
    let count = digits.len() / 2;
    if count == 0 || count > octets.len() {
        return None;
    }
    hex::decode_to_slice(digits, &mut octets[..count]).ok()?;
    Some(count)
}

/// Parses one to four networks, separated by one space.
fn parse_addrs(words: &[u8]) -> Option<ArrayVec<IpCidr, 4>>
    ensures said { IfSome result (λ list. SpellNetworks words.now list.items) }
    ensures none { IfNone result (SpellNoNetworks words.now) }
{
    let mut list = ArrayVec::new();
    let mut left = words;
    for _ in 0..4usize {
        let (word, rest) = split_at(left, b' ');
        list.try_push(parse_cidr(word)?).ok()?;
        match rest {
            Some(rest) => left = rest,
            None => return Some(list),
        }
    }
    None
}

/// Parses an address: IPv4 in eight hex digits, or IPv6 in thirty-two.
fn parse_address(digits: &[u8]) -> Option<IpAddress>
    ensures { result ≡ address_in digits.now }
{
    if digits.len() == 8 {
        Some(IpAddress::Ipv4(parse_ipv4(digits)?))
    } else {
        Some(IpAddress::Ipv6(parse_ipv6(digits)?))
    }
}

/// Parses an IPv4 address in eight hex digits.
fn parse_ipv4(digits: &[u8]) -> Option<Ipv4Address>
    ensures { result ≡ ipv4_in digits.now }
{
    let mut octets = [0; 4];
    hex::decode_to_slice(digits, &mut octets).ok()?;
    let [a, b, c, d] = octets;
    Some(Ipv4Address::new(a, b, c, d))
}

/// Parses an IPv6 address in thirty-two hex digits.
fn parse_ipv6(digits: &[u8]) -> Option<Ipv6Address>
    ensures { result ≡ ipv6_in digits.now }
{
    let mut octets = [0; 16];
    hex::decode_to_slice(digits, &mut octets).ok()?;
    Some(address_at(&octets, 0))
}

/// Parses a network: an address, `/` and the prefix length, at most 32, or 128 for IPv6.
fn parse_cidr(word: &[u8]) -> Option<IpCidr>
    ensures network { IfSome result (λ network. network_in word.now ≡ parts_of network) }
    ensures none { IfNone result (network_in word.now ≡ None) }
{
    let (digits, prefix_len) = split_at(word, b'/');
    match parse_address(digits)? {
        IpAddress::Ipv4(address) => {
            let prefix_len = parse_number(prefix_len?, 32)?;
            Some(IpCidr::Ipv4(Ipv4Cidr::new(address, prefix_len as u8)))
        }
        IpAddress::Ipv6(address) => {
            let prefix_len = parse_number(prefix_len?, 128)?;
            Some(IpCidr::Ipv6(Ipv6Cidr::new(address, prefix_len as u8)))
        }
    }
}

/// Parses a moment and a budget, separated by one space.
fn parse_poll(words: &[u8]) -> Option<(Instant, usize)>
    ensures said { IfSome result (λ poll. SpellPoll words.now poll.0 poll.1) }
    ensures none { IfNone result (SpellNoPoll words.now) }
    ensures timely { IfSome result (λ poll. IsMoment poll.0) }
{
    let (moment, budget) = split_at(words, b' ');
    Some((parse_moment(moment)?, parse_budget(budget?)?))
}

/// Parses a moment: at most 2^62 microseconds.
fn parse_moment(digits: &[u8]) -> Option<Instant>
    ensures moment { result ≡ moment_in digits.now }
    ensures timely { IfSome result IsMoment }
{
    let micros = parse_number(digits, 1 << 62)?;
    Some(Instant::from_micros(micros as i64))
}

/// Parses a budget: at most 2^32 - 1 calls.
fn parse_budget(digits: &[u8]) -> Option<usize>
    ensures { result ≡ budget_in digits.now }
{
    Some(parse_number(digits, u64::from(u32::MAX))? as usize)
}

/// Parses a port other than 0.
fn parse_port(digits: &[u8]) -> Option<u16>
    ensures { result ≡ port_in digits.now }
{
    let port = parse_number(digits, u64::from(u16::MAX))?;
    if port == 0 {
        return None;
    }
    Some(port as u16)
}

/// Parses a number of one or more decimal digits, at most `most`.
fn parse_number(digits: &[u8], most: u64) -> Option<u64>
    ensures number { result ≡ number_up_to most digits.now }
    ensures bound { IfSome result (λ number. number ≤ most) }
{
    if digits.is_empty() {
        return None;
    }
    let mut number = 0u128;
    for digit in digits {
        if !digit.is_ascii_digit() {
            return None;
        }
        number = number * 10 + u128::from(*digit - b'0');
        if number > u128::from(most) {
            return None;
        }
    }
    Some(number as u64)
}
