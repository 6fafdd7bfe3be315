//! The table of multicast groups.
use iface_tables::groups::{GroupState, GroupTableFull, Groups};
use ip_address::{IpAddress, Ipv4Address, Ipv6Address};
use std::test::Fail;

/// 224.0.1.0 and those behind it.
fn group(host: u8) -> Ipv4Address {
    Ipv4Address {
        bits: 0xe000_0100 + u32::from(host),
    }
}

fn address(host: u8) -> IpAddress {
    IpAddress::Ipv4(group(host))
}

/// ff02::5.
const SIXTH: Ipv6Address = Ipv6Address {
    bits: 0xff02_0000_0000_0000_0000_0000_0000_0005,
};

/// Joins that many IPv4 groups, and reports each.
fn joined(count: u8) -> Groups {
    let mut groups = Groups::new();
    for host in 0..count {
        let _ = groups.join(address(host), 8);
        groups.join_reported(&address(host));
    }
    groups
}

fn moves_the_last(groups: &mut Groups) -> bool {
    groups.leave(&address(0));
    groups.leave_reported(&address(0));
    let walk = [groups.nth_ipv4(0), groups.nth_ipv4(1), groups.nth_ipv4(2)];
    walk == [Some(group(2)), Some(group(1)), None]
}

#[test]
fn the_last_moves_into_the_gap(rt: HostRuntime) {
    assert!(rt; moves_the_last(&mut joined(3)));
}

/// Whether these are the IPv4 groups, in this order.
fn are_walked(groups: &Groups, hosts: [u8; 8]) -> bool {
    for n in 0..8 {
        if groups.nth_ipv4(n) != Some(group(hosts[n])) {
            return false;
        }
    }
    true
}

fn waits_for_room(groups: &mut Groups) -> bool {
    groups.leave(&address(3));
    let is_refused = groups.join(address(8), 8) == Err(GroupTableFull)
        && groups.ipv4_count() == 8
        && groups.first_in(GroupState::Leaving) == Some(address(3));
    groups.leave_reported(&address(3));
    is_refused
        && groups.join(address(8), 8) == Ok(())
        && are_walked(groups, [0, 1, 2, 7, 4, 5, 6, 8])
}

#[test]
fn a_ninth_group_waits_for_room(rt: HostRuntime) {
    assert!(rt; waits_for_room(&mut joined(8)));
}

fn has_room_for_sixteen(groups: &mut Groups) -> bool {
    let was_empty = groups.join(address(0), 0) == Err(GroupTableFull) && groups.is_empty();
    for host in 0..16 {
        let _ = groups.join(address(host), 16);
    }
    was_empty
        && groups.join(address(16), 16) == Err(GroupTableFull)
        && groups.len() == 16
        && groups.join(address(15), 1) == Ok(())
}

#[test]
fn there_are_as_many_groups_as_there_is_room_for(rt: HostRuntime) {
    assert!(rt; has_room_for_sixteen(&mut Groups::new()));
}

fn has_its_own_place(groups: &mut Groups, sixth: &IpAddress) -> bool {
    let _ = groups.join(*sixth, 8);
    let is_there = groups.len() == 2
        && groups.ipv4_count() == 1
        && groups.ipv6_count() == 1
        && groups.nth_ipv6(0) == Some(SIXTH)
        && groups.is_member(sixth);
    groups.leave(sixth);
    is_there && !groups.is_member(sixth) && !groups.is_empty()
}

#[test]
fn a_group_of_ipv6_has_its_own_place(rt: HostRuntime) {
    assert!(rt; has_its_own_place(&mut joined(1), &IpAddress::Ipv6(SIXTH)));
}

#[test]
fn a_full_table_says_so(rt: HostRuntime) -> Result<(), Fail> {
    let text = match format!(in rt.alloc(); "{GroupTableFull}") {
        Ok(text) => text,
        Err(_) => format!(in rt.alloc(); "{GroupTableFull}")?,
    };
    assert_eq!(rt; text.as_str(), "GroupTableFull");
    Ok(())
}
