//! How the host gets what was leased.
ghost use Rattle.std.specs.Prelude.{◌≡◌, ◌≤◌, OnOk, OnErr, IfSome};
ghost use Rattle.std.specs.Result.{result_err};
ghost use Rattle.iface_dhcp.specs.Apply as spec;
ghost use Rattle.iface_host.specs.Stands.{Stays};

use crate::dhcp::Dhcp;
use dhcp_client::{DhcpLease, DhcpRoute};
use iface_host::{IfaceHost, Leased, Refusal};
use ip_wire::{IpAddress, IpCidr, Ipv4Address, Ipv4Cidr};

impl Dhcp {
    /// Gives a host the address, the default route and the other routes of the lease, in place of those that the client gave it
    /// before; none, if there is no lease that can be used. Where the address and the default route are the same the neighbours stay. It
    /// fails as [`IfaceHost::replace_leased`] does; then nothing changes. Other routes, of [`Dhcp::routes`], are left out where there
    /// is no room for them.
    pub fn apply(&mut self, host: &mut IfaceHost) -> Result<(), Refusal>
        ensures applied { OnOk result (spec.Applies self.old self.new host.old host.new) }
        ensures why { result_err result ≡ spec.apply_refusal self.old host.old }
        ensures dhcp { OnErr result (self.new ≡ self.old) }
        ensures host { OnErr result (Stays host.old host.new) }
    {
        self.apply_lease(host)?;
        self.apply_routes(host);
        Ok(())
    }

    /// Gives a host the address and the default route of the client's lease, in place of those that the client gave it before.
    fn apply_lease(&mut self, host: &mut IfaceHost) -> Result<(), Refusal>
        ensures applied { OnOk result (spec.AppliesLease self.old self.new host.old host.new) }
        ensures why { result_err result ≡ spec.apply_refusal self.old host.old }
        ensures dhcp { OnErr result (self.new ≡ self.old) }
        ensures host { OnErr result (Stays host.old host.new) }
    {
        let leased = leased_of(&self.lease());
        if is_same(&self.leased, &leased) {
            return Ok(());
        }
        host.replace_leased(&self.leased, &leased)?;
        self.leased = leased;
        Ok(())
    }

    /// Gives a host the other routes of the client's lease, in place of those that the client gave it before.
    fn apply_routes(&mut self, host: &mut IfaceHost)
        ensures { spec.AppliesRoutes self.old self.new host.old host.new }
    {
        let routes = self.routes();
        take_routes(host, self.routed.as_slice());
        put_routes(host, routes.as_slice());
        self.routed = routes;
    }
}

/// Takes routes out of a host, one after another, as far as they are there.
fn take_routes(host: &mut IfaceHost, routes: &[DhcpRoute])
    ensures { spec.GoesOver spec.TakesRoute routes.now host.old host.new }
{
    let mut rest = routes;
    while let Some((route, others)) = rest.split_first() {
        take_route(host, route);
        rest = others;
    }
}

/// Takes the first route of a host to a network by a router out, if it is there.
fn take_route(host: &mut IfaceHost, route: &DhcpRoute)
    ensures { spec.TakesRoute route.now host.old host.new }
{
    let _ = host.remove_route_by(network_of(route), route.router);
}

/// Puts routes after all others of a host, one after another, as far as there is room.
fn put_routes(host: &mut IfaceHost, routes: &[DhcpRoute])
    ensures { spec.GoesOver spec.PutsRoute routes.now host.old host.new }
{
    let mut rest = routes;
    while let Some((route, others)) = rest.split_first() {
        put_route(host, route);
        rest = others;
    }
}

/// Puts a route after all others of a host, if there is room for it.
fn put_route(host: &mut IfaceHost, route: &DhcpRoute)
    ensures { spec.PutsRoute route.now host.old host.new }
{
    let network = IpCidr::Ipv4(network_of(route));
    let _ = host.add_route(network, IpAddress::Ipv4(route.router), None);
}

/// The network of a route.
fn network_of(route: &DhcpRoute) -> Ipv4Cidr
    ensures { result ≡ spec.network_of route.now }
{
    let prefix_len = width_of(route);
    Ipv4Cidr {
        address: route.network,
        prefix_len,
    }
}

/// How many bits of a route's network count: 32 at most.
fn width_of(route: &DhcpRoute) -> u8
    ensures value { result ≡ spec.width_of route.now }
    ensures within { result ≤ 32 }
{
    route.prefix_len.min(32)
}

/// What a lease gives a host. The mask tells the prefix: as many bits of it as are ones from the first on; without a mask it is
/// the whole address.
pub fn leased_of(lease: &Option<DhcpLease>) -> Option<Leased>
    ensures { result ≡ spec.leased_of lease.now }
{
    match lease {
        Some(lease) => Some(leased_by(lease)),
        None => None,
    }
}

/// What a lease gives a host.
fn leased_by(lease: &DhcpLease) -> Leased
    ensures { result ≡ spec.leased_by lease.now }
{
    let prefix_len = prefix_len_of(&lease.subnet_mask);
    Leased {
        network: Ipv4Cidr {
            address: lease.address,
            prefix_len,
        },
        router: lease.router,
    }
}

/// The length of the prefix that a mask tells.
pub fn prefix_len_of(mask: &Option<Ipv4Address>) -> u8
    ensures value { result ≡ spec.prefix_len_of mask.now }
    ensures within { result ≤ 32 }
{
    match mask {
        Some(mask) => mask.common_prefix_len(&Ipv4Address::BROADCAST, 32),
        None => 32,
    }
}

/// Whether the same is leased.
fn is_same(old: &Option<Leased>, new: &Option<Leased>) -> bool
    ensures { result ≡ spec.is_same old.now new.now }
{
    match (old, new) {
        (None, None) => true,
        (Some(old), Some(new)) => {
            old.network.address.bits == new.network.address.bits
                && old.network.prefix_len == new.network.prefix_len
                && is_same_router(&old.router, &new.router)
        }
        _ => false,
    }
}

/// Whether the router is the same.
pub(crate) fn is_same_router(old: &Option<Ipv4Address>, new: &Option<Ipv4Address>) -> bool
    ensures { result ≡ spec.is_same_router old.now new.now }
{
    match (old, new) {
        (None, None) => true,
        (Some(old), Some(new)) => old.bits == new.bits,
        _ => false,
    }
}
