//! What a client can conclude about an interface that it borrows, whichever it is.
//!
//! The contracts of an [`Interface`] speak of each host that the interface stands for. That there is one, with any
//! sockets, is the law [`Interface::stands_for_a_host`], which a client calls to conclude what its interface is after a
//! call.
#![tactic(auto)]

pub mod traced;

ghost use Rattle.std.specs.Prelude.{◌≡◌, false, true, Err};
ghost use Rattle.host_machine.specs.Context.Host.{SocketSet, are_assignable};
ghost use Rattle.ip_address.specs.Ip.{is_multicast};
ghost use Rattle.host_machine.specs.declared.results.AddrError.TheVariants as addr_error;
ghost use Rattle.host_machine.specs.declared.results.MulticastError.TheVariants as multicast_error;
ghost use Rattle.host_machine.specs.Interface.Step.{UpdatesIpAddrs};
ghost use Rattle.interface.specs.Stands.{host_with, HostRefines};

use arrayvec::ArrayVec;
use interface::{AddrError, Interface, MulticastError};
use ip_address::{IpAddress, IpCidr};

/// Turns AnyIP on, and returns whether it is on.
pub fn takes_any(interface: &mut Interface) -> bool
    ensures told { result ≡ true }
    ensures any { (sockets : SocketSet) → (host_with interface.new sockets).any_ip ≡ true }
{
    interface.stands_for_a_host();
    interface.set_any_ip(true);
    interface.any_ip()
}

/// Gives the interface a list of addresses that it can't have: it refuses them, and keeps its addresses.
pub fn keeps_its_addresses(
    interface: &mut Interface,
    list: &ArrayVec<IpCidr, 4>,
) -> Result<(), AddrError>
    requires { are_assignable list.now.items ≡ false }
    ensures refused { result ≡ Err addr_error.NotUnicast }
    ensures kept { (sockets : SocketSet) →
        (host_with interface.new sockets).ip_addrs ≡ (host_with interface.old sockets).ip_addrs }
{
    interface.stands_for_a_host();
    put_ip_addrs(interface, list)
}

/// Joins an address that is not multicast: the interface refuses it, and its groups stay unchanged.
pub fn joins_no_other_address(
    interface: &mut Interface,
    address: IpAddress,
) -> Result<(), MulticastError>
    requires { is_multicast address ≡ false }
    ensures refused { result ≡ Err multicast_error.Unaddressable }
    ensures kept { (sockets : SocketSet) →
        (host_with interface.new sockets).groups ≡ (host_with interface.old sockets).groups }
{
    interface.stands_for_a_host();
    interface.join_multicast_group(address)
}

// Replaces the addresses by a list.
fn put_ip_addrs(interface: &mut Interface, list: &ArrayVec<IpCidr, 4>) -> Result<(), AddrError>
    ensures { HostRefines interface.old interface.new (UpdatesIpAddrs list.now.items result) }
{
    let mut addrs = ArrayVec::new();
    let _ = addrs.try_extend_from_slice(list.as_slice());
    interface.update_ip_addrs(move |_| addrs)
}
