//! The nodes of a table's trie: in the table itself, or in storage that was handed over.
ghost use Rattle.std.specs.Prelude.{◌≡◌, ◌+◌, ◌*◌, ◌<◌, ◌≤◌, [], length, vec_capacity};
ghost use Rattle.iface_tables.specs.Route.{cidrs};
ghost use Rattle.iface_tables.specs.Details.RouteNodes.{nodes_at};
ghost use Rattle.iface_tables.specs.RouteTrie.{IsTrieOf};

use crate::route::{IFACE_MAX_ROUTE_COUNT, Route};
use crate::route_trie::{
    ROUTE_TRIE_NODE_COUNT, ROUTE_TRIE_PLACE_COUNT, RouteNode, build, empty_nodes,
};

// Where nodes lie.
#[derive(Drop)]
pub(crate) enum RouteNodes {
    Own([RouteNode; ROUTE_TRIE_NODE_COUNT]),
    Lent(Vec<RouteNode>),
}

impl RouteNodes {
    // Those in the table itself, of a trie without prefixes.
    pub(crate) fn new() -> RouteNodes
        ensures trie { IsTrieOf (nodes_at result) [] }
        ensures count { length (nodes_at result) ≡ ROUTE_TRIE_NODE_COUNT }
    {
        RouteNodes::Own(empty_nodes())
    }

    // From now on they are those of a trie without prefixes for so many routes: in storage or, if there are enough, in the
    // table itself. What the storage has is dropped.
    pub(crate) fn set_storage(&mut self, storage: Vec<RouteNode>, routes: usize)
        requires most { routes ≤ ROUTE_TRIE_PLACE_COUNT }
        requires fits { IFACE_MAX_ROUTE_COUNT < routes → 2 + 128 * routes ≤ vec_capacity storage }
        ensures trie { IsTrieOf (nodes_at self.new) [] }
        ensures fits { 2 + 128 * routes ≤ length (nodes_at self.new) }
        ensures fits_four { ROUTE_TRIE_NODE_COUNT ≤ length (nodes_at self.new) }
    {
        if routes <= IFACE_MAX_ROUTE_COUNT {
            *self = RouteNodes::new();
            return;
        }
        let mut nodes = filled(storage, 2 + 128 * routes);
        build(nodes.as_mut_slice(), &[]);
        *self = RouteNodes::Lent(nodes);
    }

    // The nodes.
    #[inline(always)]
    pub(crate) fn as_slice(&self) -> &[RouteNode]
        ensures { result.now ≡ nodes_at self.now }
    {
        match self {
            RouteNodes::Own(own) => own.as_slice(),
            RouteNodes::Lent(lent) => lent.as_slice(),
        }
    }

    // Rebuilds the trie of these routes' prefixes, in the same order.
    pub(crate) fn build(&mut self, routes: &[Route])
        requires few { length routes.now ≤ ROUTE_TRIE_PLACE_COUNT }
        requires fits { 2 + 128 * length routes.now ≤ length (nodes_at self.old) }
        ensures trie { IsTrieOf (nodes_at self.new) (cidrs routes.now) }
        ensures count { length (nodes_at self.new) ≡ length (nodes_at self.old) }
    {
        match self {
            RouteNodes::Own(own) => build(own.as_mut_slice(), routes),
            RouteNodes::Lent(lent) => build(lent.as_mut_slice(), routes),
        }
    }
}

// So many nodes in storage, in place of what it has.
fn filled(mut storage: Vec<RouteNode>, count: usize) -> Vec<RouteNode>
    requires { count ≤ vec_capacity storage }
    ensures { length result.items ≡ count }
{
    storage.clear();
    while storage.len() < count {
        storage.push_reserved(RouteNode::default());
    }
    storage
}
