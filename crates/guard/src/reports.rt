//! Answers to queries of IGMP and MLD that wait, and where they stay: a later query doesn't put off what waits, nor take its place.
ghost use Rattle.std.specs.Prelude.{◌≡◌};
ghost use Rattle.guard.specs.Reports as spec;

use control_wire::IgmpVersion;
use iface_tables::{IgmpReportState, MldReportState};

/// The number of 224.0.0.1, the group of all hosts (RFC 1112 4).
const ALL_SYSTEMS: u32 = 0xe000_0001;

/// The number of ff02::1, the group of all nodes (RFC 4291 2.7.1).
const ALL_NODES: u128 = 0xff02_0000_0000_0000_0000_0000_0000_0001;

/// What waits of IGMP after a frame, by what waited before it and what the host would have after it: the answer that waited, if it
/// reports no later what the other one reports, or if that is about the group of all hosts; and else the other one.
pub fn kept(before: IgmpReportState, after: IgmpReportState) -> IgmpReportState
    ensures { result ≡ spec.kept before after }
{
    if is_idle(&after) || covers(&before, &after) {
        before
    } else {
        after
    }
}

/// Likewise of MLD.
pub fn kept_mld(before: MldReportState, after: MldReportState) -> MldReportState
    ensures { result ≡ spec.kept_mld before after }
{
    if is_idle_mld(&after) || covers_mld(&before, &after) {
        before
    } else {
        after
    }
}

/// Whether an answer has still to report what another one of its version reports, each group no later.
fn covers(waiting: &IgmpReportState, other: &IgmpReportState) -> bool
    ensures { result ≡ spec.covers waiting.now other.now }
{
    match (waiting, other) {
        (
            IgmpReportState::ToGeneralQuery {
                version,
                timeout,
                interval,
                next_index,
            },
            IgmpReportState::ToGeneralQuery {
                version: other_version,
                timeout: other_timeout,
                interval: other_interval,
                next_index: other_index,
            },
        ) => {
            is_same_version(*version, *other_version)
                && *timeout <= *other_timeout
                && *interval <= *other_interval
                && *next_index <= *other_index
        }
        (
            IgmpReportState::ToSpecificQuery {
                version,
                timeout,
                group,
            },
            IgmpReportState::ToSpecificQuery {
                version: other_version,
                timeout: other_timeout,
                group: other_group,
            },
        ) => {
            is_same_version(*version, *other_version)
                && *timeout <= *other_timeout
                && group.bits == other_group.bits
        }
        _ => false,
    }
}

/// Likewise of MLD, where one report has all groups.
fn covers_mld(waiting: &MldReportState, other: &MldReportState) -> bool
    ensures { result ≡ spec.covers_mld waiting.now other.now }
{
    match (waiting, other) {
        (
            MldReportState::ToGeneralQuery { timeout },
            MldReportState::ToGeneralQuery {
                timeout: other_timeout,
            }
            | MldReportState::ToSpecificQuery {
                timeout: other_timeout,
                ..
            },
        ) => *timeout <= *other_timeout,
        (
            MldReportState::ToSpecificQuery { group, timeout },
            MldReportState::ToSpecificQuery {
                group: other_group,
                timeout: other_timeout,
            },
        ) => *timeout <= *other_timeout && group.bits == other_group.bits,
        _ => false,
    }
}

/// Whether two versions of IGMP are the same.
fn is_same_version(a: IgmpVersion, b: IgmpVersion) -> bool
    ensures { result ≡ spec.is_same_version a b }
{
    matches!(
        (a, b),
        (IgmpVersion::Version1, IgmpVersion::Version1)
            | (IgmpVersion::Version2, IgmpVersion::Version2)
    )
}

/// Whether an answer is about the group of all hosts.
fn is_idle(report: &IgmpReportState) -> bool
    ensures { result ≡ spec.is_idle report.now }
{
    match report {
        IgmpReportState::ToSpecificQuery { group, .. } => group.bits == ALL_SYSTEMS,
        IgmpReportState::Inactive | IgmpReportState::ToGeneralQuery { .. } => false,
    }
}

/// Whether it is about that of all nodes.
fn is_idle_mld(report: &MldReportState) -> bool
    ensures { result ≡ spec.is_idle_mld report.now }
{
    match report {
        MldReportState::ToSpecificQuery { group, .. } => group.bits == ALL_NODES,
        MldReportState::Inactive | MldReportState::ToGeneralQuery { .. } => false,
    }
}
