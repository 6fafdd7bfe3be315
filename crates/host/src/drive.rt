//! Runs lists of calls, and proves that they are runs of the host machine.
ghost use Rattle.std.specs.Prelude.{◌≡◌, List, length, All};
ghost use Rattle.host_machine.specs.Context.Host.{Host, SocketSet};
ghost use Rattle.host_machine.specs.Interface.Step.{IsTimely, UpdatesIpAddrs};
ghost use Rattle.iface_tables.specs.Route.{first, ipv4_gateway, ipv6_gateway, is_ipv4_gateway};
ghost use Rattle.iface_tables.specs.Route.{is_ipv6_gateway, old_or_full, with_default, without_first};
ghost use Rattle.interface.specs.Stands.{StandsFor, Becomes, HostRefines, host_with};
ghost use Rattle.host.specs.Driven.{Driven};
ghost use Rattle.host.specs.Joined.{DrivesJoin};
ghost use Rattle.host.specs.Devices.{DevicesAreSentTheSame};
ghost use Rattle.host.specs.Commands.{HostRefinesCommand};

use arrayvec::ArrayVec;
use host_machine::{AddrError, Answer, Command};
use iface_tables::route::{Route, RouteTableFull};
use interface::Interface;
use ip_wire::{IpCidr, Ipv4Address, Ipv6Address};
use net_base::phy::Device;
pub use net_base::{MemoryDevice, PushError};
use socket_set::SocketSet;

/// The user of a host's sockets: it acts on them where a list of commands gives it a turn.
pub trait Owner {
    ghost use Rattle.std.specs.Prelude.{ℕ};
    ghost use Rattle.host_machine.specs.Context.Host.{SocketSet};

    /// What it may do in a turn: from one state of its own to another, by the number of the turn, with the sockets
    /// before and after.
    ghost did: { Self → ℕ → SocketSet → SocketSet → Self → Type 0 };

    /// Acts on the sockets.
    fn act(&mut self, number: usize, sockets: &mut SocketSet<'_>)
        ensures { did self.old number sockets.old sockets.new self.new };
}

/// Replaces the addresses with a list.
fn put_ip_addrs(interface: &mut Interface, list: &ArrayVec<IpCidr, 4>) -> Result<(), AddrError>
    ensures { HostRefines interface.old interface.new (UpdatesIpAddrs list.now.items result) }
{
    take_ip_addrs(interface, copied(list))
}

/// Replaces the addresses with a list that is handed over.
fn take_ip_addrs(interface: &mut Interface, list: ArrayVec<IpCidr, 4>) -> Result<(), AddrError>
    ensures { HostRefines interface.old interface.new (UpdatesIpAddrs list.items result) }
{
    interface.update_ip_addrs(move |_| list)
}

/// Replaces the routes with a list.
fn put_routes(interface: &mut Interface, list: &ArrayVec<Route, 4>)
    ensures { Becomes interface.old interface.new (λ H. record H { routes = list.now.items }) }
{
    take_routes(interface, copied(list));
}

/// Replaces the routes with a list that is handed over.
fn take_routes(interface: &mut Interface, list: ArrayVec<Route, 4>)
    ensures { Becomes interface.old interface.new (λ H. record H { routes = list.items }) }
{
    interface.routes_mut().update(move |_| list);
}

/// A list with the same items.
fn copied<T: Copy + Default>(list: &ArrayVec<T, 4>) -> ArrayVec<T, 4>
    ensures { result.items ≡ list.now.items }
{
    let mut items = ArrayVec::new();
    let _ = items.try_extend_from_slice(list.as_slice());
    items
}

/// Adds an IPv4 default route.
fn add_default_ipv4_route(
    interface: &mut Interface,
    gateway: Ipv4Address,
) -> Result<Option<Route>, RouteTableFull>
    ensures answer { (sockets : SocketSet) →
        result ≡ old_or_full (host_with interface.old sockets).route_room is_ipv4_gateway
        (host_with interface.old sockets).routes }
    ensures table { Becomes interface.old interface.new
        (λ H. record H { routes = with_default H.route_room is_ipv4_gateway H.routes (ipv4_gateway gateway) }) }
{
    interface.routes_mut().add_default_ipv4_route(gateway)
}

/// Removes the IPv4 default route.
fn remove_default_ipv4_route(interface: &mut Interface) -> Option<Route>
    ensures answer { (sockets : SocketSet) → result ≡ first is_ipv4_gateway (host_with interface.old sockets).routes }
    ensures table { Becomes interface.old interface.new
        (λ H. record H { routes = without_first is_ipv4_gateway H.routes }) }
{
    interface.routes_mut().remove_default_ipv4_route()
}

/// Adds an IPv6 default route.
fn add_default_ipv6_route(
    interface: &mut Interface,
    gateway: Ipv6Address,
) -> Result<Option<Route>, RouteTableFull>
    ensures answer { (sockets : SocketSet) →
        result ≡ old_or_full (host_with interface.old sockets).route_room is_ipv6_gateway
        (host_with interface.old sockets).routes }
    ensures table { Becomes interface.old interface.new
        (λ H. record H { routes = with_default H.route_room is_ipv6_gateway H.routes (ipv6_gateway gateway) }) }
{
    interface.routes_mut().add_default_ipv6_route(gateway)
}

/// Removes the IPv6 default route.
fn remove_default_ipv6_route(interface: &mut Interface) -> Option<Route>
    ensures answer { (sockets : SocketSet) → result ≡ first is_ipv6_gateway (host_with interface.old sockets).routes }
    ensures table { Becomes interface.old interface.new
        (λ H. record H { routes = without_first is_ipv6_gateway H.routes }) }
{
    interface.routes_mut().remove_default_ipv6_route()
}

/// Runs one command.
pub(crate) fn step<D: Device, O: Owner>(
    interface: &mut Interface,
    device: &mut D,
    sockets: &mut SocketSet<'_>,
    owner: &mut O,
    command: &Command,
) -> Answer
    requires { IsTimely command.now }
    ensures { HostRefinesCommand D.tells O.did device.old device.new owner.old owner.new command.now result
        (StandsFor interface.old sockets.old) (StandsFor interface.new sockets.new) }
{
    match command {
        Command::UpdateIpAddrs(list) => Answer::UpdateIpAddrs(put_ip_addrs(interface, list)),
        Command::PollIngressSingle(timestamp) => {
            Answer::PollIngressSingle(interface.poll_ingress_single(*timestamp, device, sockets))
        }
        Command::PollEgress(timestamp) => {
            Answer::PollEgress(interface.poll_egress(*timestamp, device, sockets))
        }
        Command::Poll(timestamp, budget) => {
            Answer::Poll(interface.poll(*timestamp, device, sockets, *budget))
        }
        Command::PollMaintenance(timestamp) => {
            interface.poll_maintenance(*timestamp);
            Answer::PollMaintenance
        }
        Command::PollAt(timestamp) => Answer::PollAt(interface.poll_at(*timestamp, sockets)),
        Command::PollDelay(timestamp) => {
            Answer::PollDelay(interface.poll_delay(*timestamp, sockets))
        }
        Command::UpdateRoutes(list) => {
            put_routes(interface, list);
            Answer::UpdateRoutes
        }
        Command::AddDefaultIpv4Route(gateway) => {
            Answer::AddDefaultIpv4Route(add_default_ipv4_route(interface, *gateway))
        }
        Command::RemoveDefaultIpv4Route => {
            Answer::RemoveDefaultIpv4Route(remove_default_ipv4_route(interface))
        }
        Command::AddDefaultIpv6Route(gateway) => {
            Answer::AddDefaultIpv6Route(add_default_ipv6_route(interface, *gateway))
        }
        Command::RemoveDefaultIpv6Route => {
            Answer::RemoveDefaultIpv6Route(remove_default_ipv6_route(interface))
        }
        Command::JoinMulticastGroup(group) => {
            Answer::JoinMulticastGroup(interface.join_multicast_group(*group))
        }
        Command::LeaveMulticastGroup(group) => {
            Answer::LeaveMulticastGroup(interface.leave_multicast_group(*group))
        }
        Command::SetAnyIp(any_ip) => {
            interface.set_any_ip(*any_ip);
            Answer::SetAnyIp
        }
        Command::SetReassemblyTimeout(timeout) => {
            Answer::SetReassemblyTimeout(interface.set_reassembly_timeout(*timeout))
        }
        Command::SetHardwareAddr(hardware_addr) => {
            Answer::SetHardwareAddr(interface.set_hardware_addr(*hardware_addr))
        }
        Command::Owner(number) => {
            owner.act(*number, sockets);
            Answer::Owner
        }
    }
}

/// Runs the commands in order, and writes each answer to its index. That is a run of the host machine, from each state
/// that the interface and its sockets stand for. There must be as many answers as commands. It allocates nothing, apart
/// from what its device and its owner allocate.
pub fn drive<D: Device, O: Owner>(
    interface: &mut Interface,
    device: &mut D,
    sockets: &mut SocketSet<'_>,
    owner: &mut O,
    commands: &[Command],
    answers: &mut [Answer],
)
    requires room { length answers.old ≡ length commands.now }
    requires timely { All IsTimely commands.now }
    ensures { (H : Host) → StandsFor interface.old sockets.old H →
        Driven D.tells O.did device.old device.new owner.old owner.new commands.now answers.new H
        (StandsFor interface.new sockets.new) }
{
    interface.is_on_its_medium();
    sockets.has_a_wait_for_each();
    for i in 0..commands.len() {
        answers[i] = step(interface, device, sockets, owner, &commands[i]);
    }
}

/// Calls of [`drive`] one after another are one run.
pub fn drives_join<D: Device, O: Owner>()
    ensures { DrivesJoin D.tells O.did }
{}

/// What is sent doesn't depend on the kind of device. The same commands over two devices that deliver the same frames
/// and grant the same transmit tokens send the same frames and return the same answers, except for which of several
/// neighbours with the earliest expiry makes room for a new one. So what is seen of a traced device is true of a bare
/// one.
pub fn devices_are_sent_the_same<D: Device, E: Device, O: Owner>()
    ensures { DevicesAreSentTheSame D.tells E.tells O.did }
{}
