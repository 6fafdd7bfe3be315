//! Pending reports of groups that answer the queries of routers: when, and of which groups (RFC 2236 3, RFC 3810 6.2).
ghost use Rattle.std.specs.Prelude.{◌≡◌};
ghost use Rattle.iface_tables.specs.declared.report.IgmpReportState.TheVariants as igmp;
ghost use Rattle.iface_tables.specs.declared.report.MldReportState.TheVariants as mld;

use control_wire::IgmpVersion;
use ip_address::{Ipv4Address, Ipv6Address};
use net_base::time::{Duration, Instant};

/// The pending report of IPv4 groups (IGMP).
#[derive(Clone, Copy, Debug)]
pub enum IgmpReportState {
    /// No report is pending.
    Inactive,
    /// Each group is to be reported, one after another.
    ToGeneralQuery {
        /// The IGMP version of the query.
        version: IgmpVersion,
        /// When the next group is to be reported.
        timeout: Instant,
        /// The interval to the report after it.
        interval: Duration,
        /// The index of the next group among the IPv4 groups.
        next_index: usize,
    },
    /// One group is to be reported.
    ToSpecificQuery {
        /// The IGMP version of the query.
        version: IgmpVersion,
        /// When the group is to be reported.
        timeout: Instant,
        /// The group.
        group: Ipv4Address,
    },
}

impl Default for IgmpReportState {
    fn default() -> IgmpReportState
        ensures { result ≡ igmp.Inactive }
    {
        IgmpReportState::Inactive
    }
}

/// The pending report of IPv6 groups (MLD).
#[derive(Clone, Copy, Debug)]
pub enum MldReportState {
    /// No report is pending.
    Inactive,
    /// All groups are to be reported.
    ToGeneralQuery {
        /// When they are to be reported.
        timeout: Instant,
    },
    /// One group is to be reported.
    ToSpecificQuery {
        /// The group.
        group: Ipv6Address,
        /// When it is to be reported.
        timeout: Instant,
    },
}

impl Default for MldReportState {
    fn default() -> MldReportState
        ensures { result ≡ mld.Inactive }
    {
        MldReportState::Inactive
    }
}
