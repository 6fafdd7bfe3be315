//! The wire formats of ICMPv4, ICMPv6, IGMP and MLD.
#![tactic(auto)]

pub mod echo;
pub mod icmp;
pub mod icmpv4;
pub mod icmpv6;
pub mod igmp;
pub mod mld;
pub mod ndisc;
pub mod ndisc_option;
pub mod prefix_information;
pub mod router;

pub use icmp::IcmpRepr;
pub use icmpv4::{Icmpv4DstUnreachable, Icmpv4Repr};
pub use icmpv6::{Icmpv6DstUnreachable, Icmpv6ParamProblem, Icmpv6Repr};
pub use igmp::{IgmpRepr, IgmpVersion};
pub use mld::{MldAddressRecordRepr, MldRecordType, MldRepr};
pub use ndisc::{NdiscNeighborFlags, NdiscRepr};
pub use prefix_information::{NdiscPrefixInfoFlags, NdiscPrefixInformation};
pub use router::{NdiscRouterFlags, RouterRepr};
