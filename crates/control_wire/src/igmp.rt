//! IGMP (RFC 2236; version 1 in RFC 1112 appendix I): queries, reports and leaves of groups.
ghost use Rattle.std.specs.Prelude.{◌≡◌, ◌*◌, ◌<◌, ◌≤◌, ◌^◌, length};
ghost use Rattle.std.specs.Option.{SomeIff};
ghost use Rattle.control_wire.specs.Igmp as spec;

use ip_address::Ipv4Address;
use ip_wire::checksum::checksum;
use ip_wire::octets::u32_at;
use net_base::time::Duration;

/// The length of a message, in octets (RFC 2236 2).
pub const HEADER_LEN: usize = 8;

/// The IGMP version of a message.
#[derive(Clone, Copy, Debug, PartialEq, Eq)]
pub enum IgmpVersion {
    /// Version 1 (RFC 1112 appendix I).
    Version1,
    /// Version 2 (RFC 2236).
    Version2,
}

/// The values of a message.
#[derive(Clone, Copy, Debug, PartialEq, Eq)]
pub enum IgmpRepr {
    /// A membership query (RFC 2236 2.1).
    MembershipQuery {
        /// The maximum response time, as [`max_resp_time`] decodes it. 0 marks a query of version 1
        /// ([`query_version`]).
        max_resp_code: u8,
        /// The group that is asked about, or 0.0.0.0 for all groups.
        group_addr: Ipv4Address,
    },
    /// A report: the sender is a member.
    MembershipReport {
        /// The group reported.
        group_addr: Ipv4Address,
        /// The IGMP version of the report.
        version: IgmpVersion,
    },
    /// The sender is no longer a member.
    LeaveGroup {
        /// The group that it left.
        group_addr: Ipv4Address,
    },
}

impl IgmpRepr {
    /// Parses the message that the octets begin with (RFC 2236 2). Octets after its 8 are ignored, and its checksum
    /// isn't verified. The code of a report or a leave is ignored.
    ///
    /// `None` exactly if there are fewer than 8 octets, if the type is none of 0x11, 0x12, 0x16 and 0x17, or if the
    /// group is neither 0.0.0.0 nor multicast.
    pub fn parse(octets: &[u8]) -> Option<IgmpRepr>
        ensures { SomeIff result (spec.IsIgmp octets.now) (spec.igmp_in octets.now) }
    {
        if octets.len() < HEADER_LEN {
            return None;
        }
        let group_addr = Ipv4Address {
            bits: u32_at(octets, 4),
        };
        if !is_group(&group_addr) {
            return None;
        }
        match octets[0] {
            0x11 => Some(IgmpRepr::MembershipQuery {
                max_resp_code: octets[1],
                group_addr,
            }),
            0x12 => Some(IgmpRepr::MembershipReport {
                group_addr,
                version: IgmpVersion::Version1,
            }),
            0x16 => Some(IgmpRepr::MembershipReport {
                group_addr,
                version: IgmpVersion::Version2,
            }),
            0x17 => Some(IgmpRepr::LeaveGroup { group_addr }),
            _ => None,
        }
    }

    /// The message's 8 octets, including the checksum (RFC 2236 2.3). The code of a report or a leave is 0.
    pub fn octets(&self) -> [u8; HEADER_LEN]
        ensures { result ≡ spec.text self.now }
    {
        let sum = checksum(&octets_with(0, self));
        octets_with(sum, self)
    }

    /// The type of the message (RFC 2236 2.1).
    const fn message_type(&self) -> u8
        ensures { result ≡ spec.type_of self.now }
    {
        match self {
            IgmpRepr::MembershipQuery { .. } => 0x11,
            IgmpRepr::MembershipReport {
                version: IgmpVersion::Version1,
                ..
            } => 0x12,
            IgmpRepr::MembershipReport {
                version: IgmpVersion::Version2,
                ..
            } => 0x16,
            IgmpRepr::LeaveGroup { .. } => 0x17,
        }
    }

    /// The code of the message: that of a query, otherwise 0 (RFC 2236 2.2).
    const fn code(&self) -> u8
        ensures { result ≡ spec.code_of self.now }
    {
        match self {
            IgmpRepr::MembershipQuery { max_resp_code, .. } => *max_resp_code,
            IgmpRepr::MembershipReport { .. } | IgmpRepr::LeaveGroup { .. } => 0,
        }
    }

    /// The group of the message (RFC 2236 2.4).
    const fn group_addr(&self) -> Ipv4Address
        ensures { result ≡ spec.group_of self.now }
    {
        match self {
            IgmpRepr::MembershipQuery { group_addr, .. }
            | IgmpRepr::MembershipReport { group_addr, .. }
            | IgmpRepr::LeaveGroup { group_addr } => *group_addr,
        }
    }
}

/// The IGMP version of a query: version 1 exactly if its code is 0 (RFC 2236 4).
pub fn query_version(max_resp_code: u8) -> IgmpVersion
    ensures { result ≡ spec.query_version max_resp_code }
{
    if max_resp_code == 0 {
        IgmpVersion::Version1
    } else {
        IgmpVersion::Version2
    }
}

/// The maximum response time of a query's code, from 0 to 3,174.4 seconds. A code below 128 is a number of tenths of a
/// second (RFC 2236 2.2); any other has a mantissa and an exponent (RFC 3376 4.1.1). Code 0, which marks version 1, is
/// no time.
pub fn max_resp_time(max_resp_code: u8) -> Duration
    ensures value { result ≡ spec.tenths_of max_resp_code * 100000 }
    ensures within_an_hour { result < 3600000000 }
{
    Duration::from_micros(tenths_of(max_resp_code) * 100_000)
}

/// The time of a query's code, in tenths of a second.
fn tenths_of(max_resp_code: u8) -> u64
    ensures value { result ≡ spec.tenths_of max_resp_code }
    ensures small { result < 2 ^ 15 }
{
    if max_resp_code < 128 {
        return u64::from(max_resp_code);
    }
    let mantissa = u64::from(max_resp_code % 16);
    (mantissa + 16) << (max_resp_code / 16 % 8 + 3)
}

/// Whether a message may carry the group: 0.0.0.0 or a multicast address.
fn is_group(group_addr: &Ipv4Address) -> bool
    ensures { result ≡ spec.is_group group_addr.now }
{
    group_addr.is_unspecified() || group_addr.is_multicast()
}

/// The octets of a message, with the given checksum.
#[tactic(auto, unfolding(crate::specs::Igmp::text_with))]
fn octets_with(sum: u16, repr: &IgmpRepr) -> [u8; HEADER_LEN]
    ensures { result ≡ spec.text_with sum repr.now }
{
    let [c0, c1] = sum.to_be_bytes();
    let [g0, g1, g2, g3] = repr.group_addr().octets();
    [repr.message_type(), repr.code(), c0, c1, g0, g1, g2, g3]
}

/// A message that is emitted is parsed back, whatever follows it.
pub fn read_again()
    ensures { spec.ReadAgain }
{}
