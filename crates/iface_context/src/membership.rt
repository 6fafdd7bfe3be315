//! Multicast membership of an interface, and the solicited-node groups of its addresses (RFC 4861 7.2.1).
ghost use Rattle.std.specs.Prelude.{◌≡◌, ◌<◌, ◌≤◌, [], filter, length, map};
ghost use Rattle.iface_tables.specs.declared.groups.Group.{Group};
ghost use Rattle.iface_tables.specs.declared.report.IgmpReportState.TheVariants as igmp;
ghost use Rattle.iface_tables.specs.declared.report.MldReportState.TheVariants as mld;
ghost use Rattle.host_machine.specs.Context.Membership as spec;
ghost use Rattle.iface_context.specs.Multicast.{interval_of};

use crate::addresses::has_solicited_node;
use arrayvec::ArrayVec;
use iface_tables::{
    Group, Groups, IFACE_MAX_MULTICAST_GROUP_COUNT, IgmpReportState, MAX_GROUP_COUNT,
    MldReportState,
};
use ip_wire::{HardwareAddress, IpAddress, IpCidr, Ipv6Address};

/// The groups of an interface, for how many there is room, and the reports that answer queries of routers.
#[derive(Drop)]
pub struct Membership {
    pub(crate) groups: Groups,
    pub(crate) room: usize,
    pub(crate) igmp_report: IgmpReportState,
    pub(crate) mld_report: MldReportState,
    pub ghost few: { room ≤ 16 },
    pub ghost paced: { interval_of igmp_report < 3600000000 },
}

impl Membership {
    /// No group, room for eight, and no report pending.
    pub(crate) fn new() -> Membership
        ensures groups { result.groups ≡ [] }
        ensures room { result.room ≡ 8 }
        ensures igmp { result.igmp_report ≡ igmp.Inactive }
        ensures mld { result.mld_report ≡ mld.Inactive }
    {
        Membership {
            groups: Groups::new(),
            room: IFACE_MAX_MULTICAST_GROUP_COUNT,
            igmp_report: IgmpReportState::Inactive,
            mld_report: MldReportState::Inactive,
        }
    }
}

/// Leaves the solicited-node groups that match no address of the interface, in the order of the table. Then joins those
/// of its addresses, while there is room. Only on a medium with hardware addresses.
pub(crate) fn update_solicited_node_groups(
    hardware_addr: &HardwareAddress,
    own: &[IpCidr],
    room: usize,
    groups: &mut Groups,
)
    requires { room ≤ 16 }
    ensures { groups.new ≡ spec.groups_for hardware_addr.now own.now room groups.old }
{
    match hardware_addr {
        HardwareAddress::Ethernet(_) => {
            let idle = idle_groups(own, groups.as_slice());
            leave_all(groups, idle.as_slice());
            join_solicited(groups, room, own);
        }
        HardwareAddress::Ip => {}
    }
}

/// The solicited-node groups in the table that match no address of the interface.
fn idle_groups(own: &[IpCidr], groups: &[Group]) -> ArrayVec<IpAddress, MAX_GROUP_COUNT>
    requires { length groups.now ≤ 16 }
    ensures { result.items ≡ filter (spec.is_unneeded_group own.now) (map (λ (g : Group). g.addr) groups.now) }
{
    let mut idle = ArrayVec::new();
    for group in groups {
        if is_unneeded_group(own, &group.addr) {
            idle.push(group.addr);
        }
    }
    idle
}

/// Whether an address is a solicited-node group that matches no address of the interface.
fn is_unneeded_group(own: &[IpCidr], group: &IpAddress) -> bool
    ensures { result ≡ spec.is_unneeded_group own.now group.now }
{
    match group {
        IpAddress::Ipv4(_) => false,
        IpAddress::Ipv6(group) => is_solicited_node(group) && !has_solicited_node(own, group),
    }
}

/// Whether an address is a solicited-node group, of whatever address: in ff02::1:ff00:0/104 (RFC 4291 2.7.1).
fn is_solicited_node(group: &Ipv6Address) -> bool
    ensures { result ≡ spec.is_solicited_node_v6 group.now }
{
    group.bits / (1 << 24) == 0xff02_0000_0000_0000_0000_0001_ff
}

/// Leaves groups, one after another.
fn leave_all(groups: &mut Groups, addresses: &[IpAddress])
    ensures { groups.new ≡ spec.groups_after_leaves groups.old addresses.now }
{
    for address in addresses {
        groups.leave(address);
    }
}

/// Joins the solicited-node group of each IPv6 address, while there is room.
fn join_solicited(groups: &mut Groups, room: usize, own: &[IpCidr])
    requires { room ≤ 16 }
    ensures { groups.new ≡ spec.groups_after_joins room groups.old own.now }
{
    for cidr in own {
        match cidr {
            IpCidr::Ipv4(_) => {}
            IpCidr::Ipv6(cidr) => {
                let _ = groups.join(IpAddress::Ipv6(cidr.address.solicited_node()), room);
            }
        }
    }
}
