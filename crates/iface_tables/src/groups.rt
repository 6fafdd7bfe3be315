//! The multicast groups of an interface (RFC 1112 7.1, RFC 2236 6, RFC 3810 4.2): each with what is still to be
//! reported of it, in the order in which they are walked.
ghost use Rattle.std.specs.Prelude.{◌≡◌, ◌+◌, ◌<◌, ◌≤◌, [], length, slice_get, option_map, Some, None, IsSome, OnErr};
ghost use Rattle.ip_address.specs.Ip as ip;
ghost use Rattle.iface_tables.specs.declared.groups.Group.{Group};
ghost use Rattle.iface_tables.specs.declared.groups.GroupState.TheVariants.{Joining, Leaving};
ghost use Rattle.iface_tables.specs.Groups as spec;
ghost use Rattle.iface_tables.specs.Groups.{AreDistinct, done_or_full, ipv4_groups, ipv6_groups, join_reported};
ghost use Rattle.iface_tables.specs.Groups.{groups_after_join, leave_reported, groups_after_leave, new_group};
ghost use Rattle.iface_tables.specs.Groups.{index_of, state_of, taken_out, with_state, JoinReportsEnd};
ghost use Rattle.iface_tables.specs.Groups.{JoinsMember, LastGoesAlone, LastMovesIntoGap, LeaveReportsEnd};
ghost use Rattle.iface_tables.specs.Groups.{LeavesNoMember, NoneLeft, OthersStay, StayDistinct};

use arrayvec::ArrayVec;
use ip_address::{IpAddress, Ipv4Address, Ipv6Address};
use std::marker::Model;
use thiserror::Error;

/// How many groups a host is in at most, unless it is told otherwise.
pub const IFACE_MAX_MULTICAST_GROUP_COUNT: usize = 8;

/// The maximum number of groups in a table.
pub const MAX_GROUP_COUNT: usize = 16;

/// The table is full, and the group isn't in it.
#[derive(Clone, Copy, Debug, PartialEq, Eq, Error)]
#[error("GroupTableFull")]
pub struct GroupTableFull;

/// What is still to be reported of a group.
#[derive(Clone, Copy, Debug, PartialEq, Eq)]
pub enum GroupState {
    /// The group was joined, and that isn't reported yet.
    Joining,
    /// The group was joined, and that is reported.
    Joined,
    /// The group was left, and that isn't reported yet.
    Leaving,
}

/// A group: its address, and what is still to be reported of it.
#[derive(Clone, Copy, Debug, PartialEq, Eq)]
pub struct Group {
    pub addr: IpAddress,
    pub state: GroupState,
}

impl Group {
    // A group that was just joined.
    fn new(addr: IpAddress) -> Group
        ensures { result ≡ new_group addr }
    {
        Group {
            addr,
            state: GroupState::Joining,
        }
    }
}

impl Default for Group {
    fn default() -> Group
        ensures { result ≡ new_group ip.unspecified_address }
    {
        Group::new(IpAddress::default())
    }
}

/// A table of at most sixteen groups, in which no address occurs twice.
///
/// In contracts it is the list of groups, in the order in which they are walked.
#[derive(Drop)]
pub struct Groups {
    entries: ArrayVec<Group, MAX_GROUP_COUNT>,
}

impl Model for Groups {
    ghost use Rattle.std.specs.Prelude.{List};
    ghost use Rattle.iface_tables.specs.declared.groups.Group.{Group};
    ghost use Rattle.iface_tables.specs.Groups.{AreDistinct};

    ghost Value = { List Group };

    ghost view = { λ g. g.entries.items };

    ghost invariant = { λ g. AreDistinct g.entries.items };
}

impl Groups {
    /// An empty table.
    pub fn new() -> Groups
        ensures { result ≡ [] }
    {
        Groups {
            entries: ArrayVec::new(),
        }
    }

    /// The number of groups, in any state.
    pub fn len(&self) -> usize
        ensures value { result ≡ length self.now }
        ensures fits { result ≤ MAX_GROUP_COUNT }
    {
        self.entries.len()
    }

    /// Whether there is no group.
    pub fn is_empty(&self) -> bool
        ensures { result ≡ spec.is_empty self.now }
    {
        self.entries.is_empty()
    }

    /// Whether the interface is a member of a group: it is in the table, and isn't being left.
    pub fn is_member(&self, group: &IpAddress) -> bool
        ensures { result ≡ spec.is_member self.now group.now }
    {
        let (_, state) = find(self.entries.as_slice(), group);
        match state {
            Some(GroupState::Joining | GroupState::Joined) => true,
            Some(GroupState::Leaving) | None => false,
        }
    }

    /// All groups, in the order in which they are walked.
    pub fn as_slice(&self) -> &[Group]
        ensures value { result.now ≡ self.now }
        ensures fits { length result.now ≤ MAX_GROUP_COUNT }
    {
        self.entries.as_slice()
    }

    /// A lemma: no address occurs twice.
    pub fn are_distinct(&self)
        ensures { AreDistinct self.now }
    {
        let _ = &self.entries;
    }

    /// Joins a group, where there is room for so many, at most sixteen. A new group is appended, with its join still to
    /// be reported. A group that was being left is joined again, with nothing to report. Fails with `GroupTableFull`
    /// exactly if the group isn't in the table and there is no room for another; then nothing changes.
    pub fn join(&mut self, group: IpAddress, room: usize) -> Result<(), GroupTableFull>
        requires { room ≤ MAX_GROUP_COUNT }
        ensures answer { result ≡ done_or_full room self.old group }
        ensures groups { self.new ≡ groups_after_join room self.old group }
        ensures unchanged { OnErr result (self.new ≡ self.old) }
    {
        join_in(&mut self.entries, group, room)
    }

    /// Leaves a group. If its join isn't reported yet, the group is removed, and the last group moves into the gap; if
    /// the join is reported, the leave is to be reported. Otherwise nothing changes.
    pub fn leave(&mut self, group: &IpAddress)
        ensures { self.new ≡ groups_after_leave self.old group.now }
    {
        leave_in(&mut self.entries, group);
    }

    /// Records that the join of a group was reported. Nothing changes unless that was pending. If it was the first
    /// group with a pending join report, one less is pending afterwards.
    #[tactic(auto, using(crate::proofs::GroupsCounts::join_reports_end))]
    pub fn join_reported(&mut self, group: &IpAddress)
        ensures groups { self.new ≡ join_reported self.old group.now }
        ensures fewer { spec.first_in Joining self.old ≡ Some group.now →
            spec.count_in Joining self.old ≡ spec.count_in Joining self.new + 1 }
    {
        join_reported_in(&mut self.entries, group);
    }

    /// Records that the leave of a group was reported: the group is removed, and the last group moves into the gap.
    /// Nothing changes unless that was pending. If it was the first group with a pending leave report, one less is
    /// pending afterwards.
    #[tactic(auto, using(crate::proofs::GroupsCounts::leave_reports_end))]
    pub fn leave_reported(&mut self, group: &IpAddress)
        ensures groups { self.new ≡ leave_reported self.old group.now }
        ensures fewer { spec.first_in Leaving self.old ≡ Some group.now →
            spec.count_in Leaving self.old ≡ spec.count_in Leaving self.new + 1 }
    {
        leave_reported_in(&mut self.entries, group);
    }

    /// The first group in a state, if any.
    #[tactic(auto, using(crate::proofs::GroupsCounts::none_counted))]
    pub fn first_in(&self, state: GroupState) -> Option<IpAddress>
        ensures first { result ≡ spec.first_in state self.now }
        ensures some { result ≡ None → spec.count_in state self.now ≡ 0 }
    {
        first_in(self.entries.as_slice(), state)
    }

    /// The number of groups in a state. If it is 0, there is no first one.
    #[tactic(auto, using(crate::proofs::GroupsCounts::none_left))]
    pub fn count_in(&self, state: GroupState) -> usize
        ensures value { result ≡ spec.count_in state self.now }
        ensures fits { result ≤ MAX_GROUP_COUNT }
        ensures none { result ≡ 0 → spec.first_in state self.now ≡ None }
    {
        count_in(self.entries.as_slice(), state)
    }

    /// The number of IPv4 groups, in any state.
    pub fn ipv4_count(&self) -> usize
        ensures value { result ≡ length (ipv4_groups self.now) }
        ensures fits { result ≤ MAX_GROUP_COUNT }
    {
        ipv4_count(self.entries.as_slice())
    }

    /// The IPv4 group of an index among the IPv4 groups, in any state, counted from 0.
    pub fn nth_ipv4(&self, n: usize) -> Option<Ipv4Address>
        ensures value { result ≡ slice_get (ipv4_groups self.now) n }
        ensures within { IsSome result → n < MAX_GROUP_COUNT }
    {
        nth_ipv4(self.entries.as_slice(), n)
    }

    /// The number of IPv6 groups, in any state.
    pub fn ipv6_count(&self) -> usize
        ensures { result ≡ length (ipv6_groups self.now) }
    {
        ipv6_count(self.entries.as_slice())
    }

    /// The IPv6 group of an index among the IPv6 groups, in any state, counted from 0.
    pub fn nth_ipv6(&self, n: usize) -> Option<Ipv6Address>
        ensures { result ≡ slice_get (ipv6_groups self.now) n }
    {
        nth_ipv6(self.entries.as_slice(), n)
    }
}

// The index of a group, or the length.
#[inline(never)]
fn index_of(groups: &[Group], group: &IpAddress) -> usize
    ensures { result ≡ index_of groups.now group.now }
{
    for (i, g) in groups.iter().enumerate() {
        if g.addr == *group {
            return i;
        }
    }
    groups.len()
}

// The state of the group at an index, if there is one.
#[inline(always)]
fn state_at(groups: &[Group], index: usize) -> Option<GroupState>
    ensures { result ≡ option_map (λ (g : Group). g.state) (slice_get groups.now index) }
{
    Some(groups.get(index)?.state)
}

// The index of a group, or the length, and its state, if it is there.
#[tactic(auto, using(crate::proofs::GroupsLemmas::state_at_index, crate::proofs::GroupsLemmas::place_within))]
#[inline(never)]
fn find(groups: &[Group], group: &IpAddress) -> (usize, Option<GroupState>)
    ensures index { result.0 ≡ index_of groups.now group.now }
    ensures state { result.1 ≡ state_of groups.now group.now }
    ensures within { IsSome result.1 → result.0 < length groups.now }
{
    let index = index_of(groups, group);
    (index, state_at(groups, index))
}

// Changes the state of the group at an index.
fn set_state(
    entries: &mut ArrayVec<Group, MAX_GROUP_COUNT>,
    group: &IpAddress,
    index: usize,
    state: GroupState,
)
    requires index { index ≡ index_of entries.old.items group.now }
    requires within { index < length entries.old.items }
    requires distinct { AreDistinct entries.old.items }
    ensures groups { entries.new.items ≡ with_state entries.old.items group.now state }
    ensures distinct { AreDistinct entries.new.items }
{
    if let Some(entry) = entries.get_mut(index) {
        *entry = Group {
            addr: *group,
            state,
        };
    }
}

// Removes the group at an index. The last one moves into the gap.
fn take_out(entries: &mut ArrayVec<Group, MAX_GROUP_COUNT>, group: &IpAddress, index: usize)
    requires index { index ≡ index_of entries.old.items group.now }
    requires within { index < length entries.old.items }
    requires distinct { AreDistinct entries.old.items }
    ensures groups { entries.new.items ≡ taken_out entries.old.items group.now }
    ensures distinct { AreDistinct entries.new.items }
{
    entries.swap_remove(index);
}

// Appends a group that isn't there, if there is room.
fn append(
    entries: &mut ArrayVec<Group, MAX_GROUP_COUNT>,
    group: IpAddress,
    room: usize,
) -> Result<(), GroupTableFull>
    requires room { room ≤ MAX_GROUP_COUNT }
    requires absent { state_of entries.old.items group ≡ None }
    requires distinct { AreDistinct entries.old.items }
    ensures answer { result ≡ done_or_full room entries.old.items group }
    ensures groups { entries.new.items ≡ groups_after_join room entries.old.items group }
    ensures distinct { AreDistinct entries.new.items }
{
    if entries.len() >= room {
        return Err(GroupTableFull);
    }
    entries.push(Group::new(group));
    Ok(())
}

// Joins a group.
fn join_in(
    entries: &mut ArrayVec<Group, MAX_GROUP_COUNT>,
    group: IpAddress,
    room: usize,
) -> Result<(), GroupTableFull>
    requires room { room ≤ MAX_GROUP_COUNT }
    requires distinct { AreDistinct entries.old.items }
    ensures answer { result ≡ done_or_full room entries.old.items group }
    ensures groups { entries.new.items ≡ groups_after_join room entries.old.items group }
    ensures distinct { AreDistinct entries.new.items }
{
    let (index, state) = find(entries.as_slice(), &group);
    match state {
        None => append(entries, group, room),
        Some(GroupState::Joining | GroupState::Joined) => Ok(()),
        Some(GroupState::Leaving) => {
            set_state(entries, &group, index, GroupState::Joined);
            Ok(())
        }
    }
}

// Leaves a group.
fn leave_in(entries: &mut ArrayVec<Group, MAX_GROUP_COUNT>, group: &IpAddress)
    requires { AreDistinct entries.old.items }
    ensures groups { entries.new.items ≡ groups_after_leave entries.old.items group.now }
    ensures distinct { AreDistinct entries.new.items }
{
    let (index, state) = find(entries.as_slice(), group);
    match state {
        Some(GroupState::Joining) => take_out(entries, group, index),
        Some(GroupState::Joined) => set_state(entries, group, index, GroupState::Leaving),
        Some(GroupState::Leaving) | None => {}
    }
}

// Records that the join of a group was reported.
fn join_reported_in(entries: &mut ArrayVec<Group, MAX_GROUP_COUNT>, group: &IpAddress)
    requires { AreDistinct entries.old.items }
    ensures groups { entries.new.items ≡ join_reported entries.old.items group.now }
    ensures distinct { AreDistinct entries.new.items }
{
    let (index, state) = find(entries.as_slice(), group);
    match state {
        Some(GroupState::Joining) => set_state(entries, group, index, GroupState::Joined),
        Some(GroupState::Joined | GroupState::Leaving) | None => {}
    }
}

// Records that the leave of a group was reported.
fn leave_reported_in(entries: &mut ArrayVec<Group, MAX_GROUP_COUNT>, group: &IpAddress)
    requires { AreDistinct entries.old.items }
    ensures groups { entries.new.items ≡ leave_reported entries.old.items group.now }
    ensures distinct { AreDistinct entries.new.items }
{
    let (index, state) = find(entries.as_slice(), group);
    match state {
        Some(GroupState::Leaving) => take_out(entries, group, index),
        Some(GroupState::Joining | GroupState::Joined) | None => {}
    }
}

// The first group in a state, if any.
fn first_in(groups: &[Group], state: GroupState) -> Option<IpAddress>
    ensures { result ≡ spec.first_in state groups.now }
{
    for g in groups {
        if g.state == state {
            return Some(g.addr);
        }
    }
    None
}

// The number of groups in a state.
fn count_in(groups: &[Group], state: GroupState) -> usize
    ensures value { result ≡ spec.count_in state groups.now }
    ensures within { result ≤ length groups.now }
{
    let mut count = 0;
    for group in groups {
        if group.state == state {
            count += 1;
        }
    }
    count
}

// The number of IPv4 groups.
#[inline(never)]
fn ipv4_count(groups: &[Group]) -> usize
    ensures value { result ≡ length (ipv4_groups groups.now) }
    ensures within { result ≤ length groups.now }
{
    let mut count = 0;
    for g in groups {
        match g.addr {
            IpAddress::Ipv4(_) => count += 1,
            IpAddress::Ipv6(_) => {}
        }
    }
    count
}

// The IPv4 group of an index among the IPv4 groups.
fn nth_ipv4(groups: &[Group], n: usize) -> Option<Ipv4Address>
    ensures value { result ≡ slice_get (ipv4_groups groups.now) n }
    ensures within { IsSome result → n < length groups.now }
{
    let mut ahead = n;
    for g in groups {
        match g.addr {
            IpAddress::Ipv4(address) if ahead == 0 => return Some(address),
            IpAddress::Ipv4(_) => ahead -= 1,
            IpAddress::Ipv6(_) => {}
        }
    }
    None
}

// The number of IPv6 groups.
#[inline(never)]
fn ipv6_count(groups: &[Group]) -> usize
    ensures { result ≡ length (ipv6_groups groups.now) }
{
    let mut count = 0;
    for g in groups {
        match g.addr {
            IpAddress::Ipv4(_) => {}
            IpAddress::Ipv6(_) => count += 1,
        }
    }
    count
}

// The IPv6 group of an index among the IPv6 groups.
fn nth_ipv6(groups: &[Group], n: usize) -> Option<Ipv6Address>
    ensures { result ≡ slice_get (ipv6_groups groups.now) n }
{
    let mut ahead = n;
    for g in groups {
        match g.addr {
            IpAddress::Ipv4(_) => {}
            IpAddress::Ipv6(address) if ahead == 0 => return Some(address),
            IpAddress::Ipv6(_) => ahead -= 1,
        }
    }
    None
}

/// No call makes an address occur twice.
pub fn groups_stay_distinct()
    ensures { StayDistinct }
{}

/// If a group is removed, the last one moves into its index, and the others keep their order.
pub fn last_moves_into_gap()
    ensures moves { LastMovesIntoGap }
    ensures alone { LastGoesAlone }
{}

/// After a join that wasn't refused the interface is a member; after a leave it isn't.
pub fn membership_follows()
    ensures join { JoinsMember }
    ensures leave { LeavesNoMember }
{}

/// No call changes the state of another group.
pub fn others_stay()
    ensures { OthersStay }
{}

/// A loop that reports the first group with a pending join or leave, and then records that, ends: each time one less is
/// pending, and where none is, there is no first one.
pub fn reports_end()
    ensures joins { JoinReportsEnd }
    ensures leaves { LeaveReportsEnd }
    ensures none { NoneLeft }
{}
