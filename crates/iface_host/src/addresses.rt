//! The addresses of a host, and the groups that it joins.
ghost use Rattle.std.specs.Prelude.{◌≡◌, ◌≤◌, OnOk, OnErr, length, slice_get};
ghost use Rattle.std.specs.Result.{result_err};
ghost use Rattle.host_machine.specs.Interface.Step.{UpdatesIpAddrs};
ghost use Rattle.interface.specs.Stands as stands;
ghost use Rattle.std.specs.List.{position_or_len};
ghost use Rattle.host_machine.specs.Context.Host.{no_sockets};
ghost use Rattle.iface_host.specs.Calls.{is_same, AddsAddress, JoinsGroup, LeavesGroup, RemovesAddress};
ghost use Rattle.iface_host.specs.Calls.{SetsAddresses, addresses_of, source_for};
ghost use Rattle.iface_host.specs.Stands.{Follows, Stays};
ghost use Rattle.iface_host.specs.TableRefusals.{address_refusal, addresses_refusal, join_refusal};
ghost use Rattle.iface_host.specs.TableRefusals.{leave_refusal, removal_refusal};

use crate::host::IfaceHost;
use crate::refusal::Refusal;
use arrayvec::ArrayVec;
use host_machine::{AddrError, MulticastError};
use interface::Interface;
use ip_wire::{IpAddress, IpCidr};

/// The most addresses that a host can have.
pub(crate) const MOST_ADDRESSES: usize = 16;

impl IfaceHost {
    /// Adds an own address with its network, after the others, and forgets all neighbours. `TableFull` if there is no
    /// room for another, else `NotUnicast` if one of them all is neither unicast nor unspecified.
    pub fn add_address(&mut self, cidr: IpCidr) -> Result<(), Refusal>
        ensures added { OnOk result (Follows (AddsAddress cidr) self.old self.new) }
        ensures why { result_err result ≡ address_refusal self.old cidr }
        ensures refused { OnErr result (Stays self.old self.new) }
    {
        let own = self.interface.ip_addrs();
        let room = self.interface.addr_room();
        if own.len() >= room {
            return Err(Refusal::TableFull);
        }
        let mut list = copied(own, room);
        list.push(cidr);
        self.interface.stands_for_a_host();
        match put_addresses(&mut self.interface, list.as_slice()) {
            Ok(()) => Ok(()),
            Err(_) => Err(Refusal::NotUnicast),
        }
    }

    /// Makes a list its own addresses, with their networks, and forgets all neighbours. `TableFull` if there is no room for
    /// so many, else `NotUnicast` if one of them is neither unicast nor unspecified.
    pub fn set_addresses(&mut self, addresses: &[IpCidr]) -> Result<(), Refusal>
        ensures set { OnOk result (Follows (SetsAddresses addresses.now) self.old self.new) }
        ensures why { result_err result ≡ addresses_refusal self.old addresses.now }
        ensures refused { OnErr result (Stays self.old self.new) }
    {
        if addresses.len() > self.interface.addr_room() {
            return Err(Refusal::TableFull);
        }
        self.interface.stands_for_a_host();
        match put_addresses(&mut self.interface, addresses) {
            Ok(()) => Ok(()),
            Err(_) => Err(Refusal::NotUnicast),
        }
    }

    /// Takes out the first own address with this network, and forgets all neighbours. `NotThere` if there is
    /// none, else `NotUnicast` if one of those that are left is neither unicast nor unspecified.
    pub fn remove_address(&mut self, cidr: IpCidr) -> Result<(), Refusal>
        ensures removed { OnOk result (Follows (RemovesAddress cidr) self.old self.new) }
        ensures why { result_err result ≡ removal_refusal self.old cidr }
        ensures refused { OnErr result (Stays self.old self.new) }
    {
        let own = self.interface.ip_addrs();
        let index = index_of(own, &cidr);
        if index >= own.len() {
            return Err(Refusal::NotThere);
        }
        let mut list = copied(own, self.interface.addr_room());
        let _ = list.remove(index);
        self.interface.stands_for_a_host();
        match put_addresses(&mut self.interface, list.as_slice()) {
            Ok(()) => Ok(()),
            Err(_) => Err(Refusal::NotUnicast),
        }
    }

    /// The own address at a place of their list, if there is one: as many stand there as there is room for at most, those
    /// that came from routers too.
    pub fn address_at(&self, index: usize) -> Option<IpCidr>
        ensures { result ≡ slice_get (addresses_of self.now) index }
    {
        cidr_at(self.interface.ip_addrs(), index)
    }

    /// The own address that packets to a destination are sent from, where their socket names none: over IPv4 the first
    /// one whose network has the destination, or else the first one; over IPv6 the best one (RFC 6724 5), and ::1 where
    /// the host has none. `None` if it has no address of IPv4.
    pub fn source_for(&self, remote: IpAddress) -> Option<IpAddress>
        ensures { result ≡ source_for self.now remote }
    {
        self.interface.get_source_address(&remote)
    }

    /// Joins a group. `BadAddress` if it is no group's address, else `TableFull` if the host isn't in it and there is no
    /// room for another.
    pub fn join_group(&mut self, group: IpAddress) -> Result<(), Refusal>
        ensures joined { OnOk result (Follows (JoinsGroup group) self.old self.new) }
        ensures why { result_err result ≡ join_refusal self.old group }
        ensures refused { OnErr result (Stays self.old self.new) }
    {
        self.interface.stands_for_a_host();
        match self.interface.join_multicast_group(group) {
            Ok(()) => Ok(()),
            Err(MulticastError::Unaddressable) => Err(Refusal::BadAddress),
            Err(MulticastError::GroupTableFull) => Err(Refusal::TableFull),
        }
    }

    /// Leaves a group, if the host is in it. `BadAddress` if it is no group's address.
    pub fn leave_group(&mut self, group: IpAddress) -> Result<(), Refusal>
        ensures left { OnOk result (Follows (LeavesGroup group) self.old self.new) }
        ensures why { result_err result ≡ leave_refusal group }
        ensures refused { OnErr result (Stays self.old self.new) }
    {
        self.interface.stands_for_a_host();
        match self.interface.leave_multicast_group(group) {
            Ok(()) => Ok(()),
            Err(_) => Err(Refusal::BadAddress),
        }
    }
}

/// Whether two networks are one: the same address, and a prefix of the same length.
pub(crate) fn is_same_cidr(a: &IpCidr, b: &IpCidr) -> bool
    ensures { result ≡ is_same a.now b.now }
{
    match (a, b) {
        (IpCidr::Ipv4(a), IpCidr::Ipv4(b)) => a.address.bits == b.address.bits
            && a.prefix_len == b.prefix_len,
        (IpCidr::Ipv6(a), IpCidr::Ipv6(b)) => a.address.bits == b.address.bits
            && a.prefix_len == b.prefix_len,
        _ => false,
    }
}

/// The address at a place, if there is one.
fn cidr_at(list: &[IpCidr], index: usize) -> Option<IpCidr>
    ensures { result ≡ slice_get list.now index }
{
    list.get(index).copied()
}

/// Where the first address with this network stands, or the length.
pub(crate) fn index_of(list: &[IpCidr], cidr: &IpCidr) -> usize
    ensures { result ≡ position_or_len (is_same cidr.now) list.now }
{
    for (i, other) in list.iter().enumerate() {
        if is_same_cidr(cidr, other) {
            return i;
        }
    }
    list.len()
}

/// The same list, of no more than there is room for.
#[inline(always)]
pub(crate) fn copied(list: &[IpCidr], _room: usize) -> ArrayVec<IpCidr, MOST_ADDRESSES>
    requires few { length list.now ≤ _room }
    requires most { _room ≤ MOST_ADDRESSES }
    ensures { result.items ≡ list.now }
{
    let mut copy = ArrayVec::new();
    let _ = copy.try_extend_from_slice(list);
    copy
}

/// Replaces the addresses of an interface by a list that there is room for.
pub(crate) fn put_addresses(interface: &mut Interface, list: &[IpCidr]) -> Result<(), AddrError>
    requires { length list.now ≤ (stands.host_with interface.old no_sockets).addr_room }
    ensures set { stands.HostRefines interface.old interface.new (UpdatesIpAddrs list.now result) }
    ensures routes { (stands.host_with interface.new no_sockets).routes
        ≡ (stands.host_with interface.old no_sockets).routes }
    ensures route_room { (stands.host_with interface.new no_sockets).route_room
        ≡ (stands.host_with interface.old no_sockets).route_room }
{
    match interface.set_ip_addrs(list) {
        Ok(()) => Ok(()),
        Err(_) => Err(AddrError::NotUnicast),
    }
}
