//! A binary trie of prefixes (RFC 4632 5.1): the prefixes of an address are found bit by bit, the longest last.
//!
//! It has a root for each family and, for each stored prefix, a node for each of its beginnings that no earlier prefix
//! has. A node links to the two beginnings that are one bit longer. It has a mask of the indices of the prefixes that
//! equal it; the lowest bit is index 0.
ghost use Rattle.std.specs.Prelude.{◌≡◌, ℕ, ◌+◌, ◌-◌, ◌*◌, ◌/◌, ◌%◌, ◌^◌, ◌<◌, ◌≤◌, ◌==◌, cond};
ghost use Rattle.std.specs.Prelude.{List, [], length, slice_get, slice_index, slice_index_or};
ghost use Rattle.std.specs.Int.RustNames.{bit_and};
ghost use Rattle.std.specs.Bool.{OnFalse, OnTrue};
ghost use Rattle.ip_address.specs.declared.cidr.IpCidr.{IpCidr};
ghost use Rattle.ip_address.specs.declared.ip.IpAddress.{IpAddress};
ghost use Rattle.iface_tables.specs.declared.route_trie.RouteNode.{RouteNode};
ghost use Rattle.iface_tables.specs.Route.{cidrs};
ghost use Rattle.iface_tables.specs.RouteTrie as spec;
ghost use Rattle.iface_tables.specs.RouteTrie.{AreNextBits, HasNodes, IsAt, IsBestPlace, IsLastOf};
ghost use Rattle.iface_tables.specs.RouteTrie.{IsLongest, IsNodeOf, IsTrieOf, begins, has_place, is_marked};
ghost use Rattle.iface_tables.specs.RouteTrie.{is_whole, longer_of, number, index_of, root_of, start_of};

use crate::route::Route;
use ip_wire::{IpAddress, IpCidr};
use std::marker::Model;

/// The maximum number of prefixes in a trie: a mask of their indices has 32 bits.
pub const ROUTE_TRIE_PLACE_COUNT: usize = 32;

/// How many nodes a table has in itself, for four routes.
pub const ROUTE_TRIE_NODE_COUNT: usize = 514;

// A walk reads a root and a node for each bit of an address.
const READ_COUNT: usize = 129;

/// How many nodes a walk read.
#[derive(Clone, Copy, Debug, PartialEq, Eq)]
pub struct Steps {
    count: usize,
}

impl Model for Steps {
    ghost use Rattle.std.specs.Prelude.{ℕ};

    ghost Value = { ℕ };

    ghost view = { λ s. s.count };

    ghost inverse = { λ n. record { count = n } };
}

impl Steps {
    /// The number.
    pub const fn get(&self) -> usize
        ensures { result ≡ self.now }
    {
        self.count
    }
}

/// A node of the trie of a table's routes. Storage for nodes is handed over beside that for routes, by
/// [`Routes::set_storage`](crate::route::Routes::set_storage): 128 nodes for each route, and two more for the roots.
// The numbers of the two nodes that are one bit longer, first the one for bit 0, where number 0 means none; and the mask
// of the prefixes that equal it.
#[derive(Clone, Copy)]
pub struct RouteNode {
    next: [u16; 2],
    places: u32,
}

impl Default for RouteNode {
    fn default() -> RouteNode {
        RouteNode {
            next: [0; 2],
            places: 0,
        }
    }
}

// The state of a walk: the node that it read last, the one of the longest live prefix so far, or else the root, and
// whether no node follows.
#[derive(Clone, Copy)]
struct Walk<'t> {
    node: &'t RouteNode,
    best: &'t RouteNode,
    is_over: bool,
}

// The leading bits of an address of `width` bits, as a number.
#[derive(Clone, Copy)]
struct Beginning {
    width: u8,
    len: u8,
    leading: u128,
}

// A network by its numbers.
#[derive(Clone, Copy)]
struct Network {
    width: u8,
    bits: u128,
    len: u8,
}

// As many nodes as a table has in itself, of a trie without prefixes.
#[inline(always)]
pub(crate) fn empty_nodes() -> [RouteNode; ROUTE_TRIE_NODE_COUNT]
    ensures { IsTrieOf result [] }
{
    [RouteNode {
        next: [0; 2],
        places: 0,
    }; ROUTE_TRIE_NODE_COUNT]
}

// Rebuilds the trie of these routes' prefixes, in the same order.
pub(crate) fn build(nodes: &mut [RouteNode], routes: &[Route])
    requires few { length routes.now ≤ ROUTE_TRIE_PLACE_COUNT }
    requires fits { 2 + 128 * length routes.now ≤ length nodes.old }
    ensures trie { IsTrieOf nodes.new (cidrs routes.now) }
    ensures count { length nodes.new ≡ length nodes.old }
{
    nodes[0] = node_of(routes, &root_of(32));
    nodes[1] = node_of(routes, &root_of(128));
    for place in 0..routes.len() {
        fill(nodes, routes, place);
    }
}

// Looks up the best prefix for an address. Returns its index, and how many nodes were read. Among the prefixes that
// contain the address and are in the mask of live ones, it is the longest, and of equal ones the last. The walk reads the
// root, and a node for each further bit that a prefix shares with the address.
pub(crate) fn best_place(
    nodes: &[RouteNode],
    address: &IpAddress,
    live: u32,
) -> (Option<usize>, Steps)
    requires { (cidrs : List IpCidr) × IsTrieOf nodes.now cidrs }
    ensures best { (cidrs : List IpCidr) →
        IsTrieOf nodes.now cidrs → IsBestPlace cidrs address.now live result.0 }
    ensures count { (cidrs : List IpCidr) →
        IsTrieOf nodes.now cidrs → (n : ℕ) × IsLongest cidrs address.now n × (result.1 ≡ 1 + n) }
{
    let mut steps = Steps { count: 0 };
    let end = end_of(nodes, address, live, &mut steps);
    (last_marked(end.best.places & live), steps)
}

// Follows an address to its last bit, or to where no node follows.
#[inline(always)]
fn end_of<'t>(nodes: &'t [RouteNode], address: &IpAddress, live: u32, steps: &mut Steps) -> Walk<'t>
    requires trie { (cidrs : List IpCidr) × IsTrieOf nodes.now cidrs }
    requires first { steps.old ≡ 0 }
    ensures { (cidrs : List IpCidr) → IsTrieOf nodes.now cidrs
        → (n : ℕ) × IsAt cidrs address.now live n result.node.now (bit_and result.best.now.places live) steps.new
        × IsLongest cidrs address.now n }
{
    match address {
        IpAddress::Ipv4(address) => {
            let root = start(nodes, 0, steps);
            walk_on(nodes, root, u64::from(address.bits) << 32, 32, live, steps)
        }
        IpAddress::Ipv6(address) => {
            let root = start(nodes, 1, steps);
            let middle = walk_on(nodes, root, first_half(address.bits), 64, live, steps);
            if middle.is_over {
                return middle;
            }
            walk_on(nodes, middle, second_half(address.bits), 64, live, steps)
        }
    }
}

// Reads a root, where the walk starts.
#[inline(always)]
fn start<'t>(nodes: &'t [RouteNode], root: u16, steps: &mut Steps) -> Walk<'t>
    requires within { root < length nodes.now }
    requires few { steps.old < READ_COUNT }
    ensures node { result.node.now ≡ slice_index_or nodes.now root result.node.now }
    ensures best { result.best.now ≡ result.node.now }
    ensures counted { steps.new ≡ steps.old + 1 }
{
    let node = visit(nodes, root, steps);
    Walk {
        node,
        best: node,
        is_over: false,
    }
}

// Follows `count` bits, the top ones of a number, or to where no node follows.
#[inline(always)]
fn walk_on<'t>(
    nodes: &'t [RouteNode],
    from: Walk<'t>,
    leading: u64,
    count: u8,
    live: u32,
    steps: &mut Steps,
) -> Walk<'t>
    requires at { (cidrs : List IpCidr) × (a : IpAddress) × (i : ℕ) × IsTrieOf nodes.now cidrs
        × IsAt cidrs a live i from.node.now (bit_and from.best.now.places live) steps.old
        × AreNextBits a i count leading }
    ensures { (cidrs : List IpCidr) (a : IpAddress) (i : ℕ) → IsTrieOf nodes.now cidrs
        → IsAt cidrs a live i from.entry.node.now (bit_and from.entry.best.now.places live) steps.old
        → AreNextBits a i count leading
        → (n : ℕ) × IsAt cidrs a live n result.node.now (bit_and result.best.now.places live) steps.new
        × OnTrue result.is_over (IsLongest cidrs a n) × OnFalse result.is_over (n ≡ i + count) }
{
    let mut node = from.node;
    let mut best = from.best;
    let mut bits = leading;
    for i in 0..count {
        let child = child_of(node, bits);
        if child == 0 {
            return Walk {
                node,
                best,
                is_over: true,
            };
        }
        node = visit(nodes, child, steps);
        best = better(node, best, live);
        bits <<= 1;
    }
    Walk {
        node,
        best,
        is_over: false,
    }
}

// Reads a node, and counts it.
#[inline(always)]
fn visit<'t>(nodes: &'t [RouteNode], number: u16, steps: &mut Steps) -> &'t RouteNode
    requires within { number < length nodes.now }
    requires few { steps.old < READ_COUNT }
    ensures node { result.now ≡ slice_index_or nodes.now number result.now }
    ensures counted { steps.new ≡ steps.old + 1 }
{
    steps.count += 1;
    &nodes[usize::from(number)]
}

// The first 64 bits of an address.
#[inline(always)]
fn first_half(bits: u128) -> u64
    ensures { result ≡ bits / 2 ^ 64 }
{
    (bits >> 64) as u64
}

// The last 64 bits of an address.
#[inline(always)]
fn second_half(bits: u128) -> u64
    ensures { result ≡ bits % 2 ^ 64 }
{
    (bits % 0x1_0000_0000_0000_0000) as u64
}

// The number of the node after this one by the top bit of a 64-bit number, or 0.
#[inline(always)]
fn child_of(node: &RouteNode, bits: u64) -> u16
    ensures { result ≡ slice_index node.now.next (bits / 2 ^ 63) }
{
    node.next[(bits >> 63) as usize]
}

// The node of a longer prefix, or, if none of its prefixes is live, that of a shorter one.
#[inline(always)]
fn better<'t>(longer: &'t RouteNode, shorter: &'t RouteNode, live: u32) -> &'t RouteNode
    ensures { bit_and result.now.places live ≡ cond (bit_and longer.now.places live == 0)
        (bit_and shorter.now.places live) (bit_and longer.now.places live) }
{
    if longer.places & live == 0 {
        shorter
    } else {
        longer
    }
}

// The beginning without bits.
fn root_of(width: u8) -> Beginning
    ensures { result ≡ root_of width }
{
    Beginning {
        width,
        len: 0,
        leading: 0,
    }
}

// A network by its numbers.
fn network_of(cidr: &IpCidr) -> Network
    ensures value { result ≡ spec.network_of cidr.now }
    ensures wide { result.width ≤ 128 }
    ensures within { result.len ≤ result.width }
    ensures fits { result.bits < 2 ^ result.width }
{
    match cidr {
        IpCidr::Ipv4(cidr) => Network {
            width: 32,
            bits: u128::from(cidr.address.bits),
            len: cidr.prefix_len,
        },
        IpCidr::Ipv6(cidr) => wide_network(cidr.address.bits, cidr.prefix_len),
    }
}

// An IPv6 network by its numbers.
#[inline(always)]
fn wide_network(bits: u128, len: u8) -> Network
    ensures value { result ≡ record { width = 128; bits = bits; len = len } }
    ensures fits { bits < 2 ^ 128 }
{
    Network {
        width: 128,
        bits,
        len,
    }
}

// The first bits of a network's prefix.
fn start_of(network: &Network, len: u8) -> Beginning
    requires some { 0 < len }
    requires within { len ≤ network.now.width }
    requires wide { network.now.width ≤ 128 }
    ensures { result ≡ start_of network.now len }
{
    Beginning {
        width: network.width,
        len,
        leading: network.bits >> (network.width - len),
    }
}

// Whether a network's prefix has this beginning, followed by a bit.
fn goes_on(network: &Network, beginning: &Beginning, bit: u128) -> bool
    requires wide { network.now.width ≤ 128 }
    requires within { network.now.len ≤ network.now.width }
    requires bit { bit < 2 }
    ensures { result ≡ begins (longer_of beginning.now bit) network.now }
{
    if network.width != beginning.width || network.len <= beginning.len {
        return false;
    }
    let next = network.bits >> (network.width - 1 - beginning.len);
    next / 2 == beginning.leading && next % 2 == bit
}

// Whether a network's prefix equals this beginning.
fn is_whole(network: &Network, beginning: &Beginning) -> bool
    requires wide { network.now.width ≤ 128 }
    requires within { network.now.len ≤ network.now.width }
    requires fits { network.now.bits < 2 ^ network.now.width }
    requires root { beginning.now.len ≡ 0 → beginning.now.leading ≡ 0 }
    ensures { result ≡ is_whole beginning.now network.now }
{
    if network.width != beginning.width || network.len != beginning.len {
        return false;
    }
    network.len == 0 || network.bits >> (network.width - network.len) == beginning.leading
}

// The first index of a prefix with this beginning, followed by a bit, or the length.
fn index_of(routes: &[Route], beginning: &Beginning, bit: u128) -> usize
    requires { bit < 2 }
    ensures { result ≡ index_of (cidrs routes.now) (longer_of beginning.now bit) }
{
    for (place, route) in routes.iter().enumerate() {
        if goes_on(&network_of(&route.cidr), beginning, bit) {
            return place;
        }
    }
    routes.len()
}

// The number of the node that is one bit longer, or 0 if there is none.
fn number_of(routes: &[Route], beginning: &Beginning, bit: u128) -> u16
    requires few { length routes.now ≤ ROUTE_TRIE_PLACE_COUNT }
    requires short { beginning.now.len ≤ 128 }
    requires bit { bit < 2 }
    ensures { result ≡ number (cidrs routes.now) (longer_of beginning.now bit) }
{
    let place = index_of(routes, beginning, bit);
    if place >= routes.len() {
        return 0;
    }
    2 + 128 * (place as u16) + u16::from(beginning.len)
}

// The mask of the prefixes that equal this beginning.
fn marks_of(routes: &[Route], beginning: &Beginning) -> u32
    requires few { length routes.now ≤ ROUTE_TRIE_PLACE_COUNT }
    requires root { beginning.now.len ≡ 0 → beginning.now.leading ≡ 0 }
    ensures { (k : ℕ) → has_place result k ≡ is_marked beginning.now (slice_get (cidrs routes.now) k) }
{
    let mut places = 0;
    for (place, route) in routes.iter().enumerate() {
        if is_whole(&network_of(&route.cidr), beginning) {
            places |= 1 << place;
        }
    }
    places
}

// The node of a beginning.
fn node_of(routes: &[Route], beginning: &Beginning) -> RouteNode
    requires few { length routes.now ≤ ROUTE_TRIE_PLACE_COUNT }
    requires short { beginning.now.len ≤ 128 }
    requires root { beginning.now.len ≡ 0 → beginning.now.leading ≡ 0 }
    ensures { IsNodeOf (cidrs routes.now) beginning.now result }
{
    RouteNode {
        next: [
            number_of(routes, beginning, 0),
            number_of(routes, beginning, 1),
        ],
        places: marks_of(routes, beginning),
    }
}

// Writes the nodes of a prefix: one for each of its beginnings.
fn fill(nodes: &mut [RouteNode], routes: &[Route], place: usize)
    requires few { length routes.now ≤ ROUTE_TRIE_PLACE_COUNT }
    requires fits { 2 + 128 * length routes.now ≤ length nodes.old }
    requires within { place < length routes.now }
    ensures count { length nodes.new ≡ length nodes.old }
    ensures filled { HasNodes nodes.new (cidrs routes.now) place }
    ensures kept { (k : ℕ) (d : RouteNode) →
        k ≤ 1 + 128 * place → slice_index_or nodes.new k d ≡ slice_index_or nodes.old k d }
{
    let network = network_of(&routes[place].cidr);
    for i in 0..network.len {
        let beginning = start_of(&network, i + 1);
        nodes[2 + 128 * place + usize::from(i)] = node_of(routes, &beginning);
    }
}

// The last index in a mask, if there is one.
#[inline(always)]
fn last_marked(mask: u32) -> Option<usize>
    ensures { IsLastOf mask result }
{
    if mask == 0 {
        return None;
    }
    Some(31 - mask.leading_zeros() as usize)
}
