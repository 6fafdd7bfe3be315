//! For how many entries of its small tables a host has room.
ghost use Rattle.std.specs.Prelude.{◌≡◌};

/// For how many addresses, groups, prefixes and routers a host has room. `Default` is what an interface has at first.
#[derive(Clone, Copy, Debug, PartialEq, Eq)]
pub struct Capacities {
    /// Addresses: four at least, and those that it has; sixteen at most.
    pub addresses: usize,
    /// Multicast groups, with the solicited-node groups of its addresses: sixteen at most.
    pub groups: usize,
    /// Prefixes that routers advertised: eight at most.
    pub prefixes: usize,
    /// Routers that advertised themselves: eight at most.
    pub routers: usize,
}

impl Default for Capacities {
    /// Four addresses, eight groups, two prefixes and four routers.
    fn default() -> Capacities
        ensures { result ≡ record { addresses = 4; groups = 8; prefixes = 2; routers = 4 } }
    {
        Capacities {
            addresses: 4,
            groups: 8,
            prefixes: 2,
            routers: 4,
        }
    }
}
