//! MLD (RFC 3810): queries and reports of groups. They are ICMPv6 messages of types 130 and 143.
ghost use Rattle.std.specs.Prelude.{◌≡◌, ◌+◌, ◌≤◌, length};
ghost use Rattle.std.specs.Option.{SomeIff, option_map};
ghost use Rattle.control_wire.specs.Mld as spec;

use ip_address::Ipv6Address;
use ip_wire::ipv6_packet::address_at;
use ip_wire::octets::u16_at;

/// The length of a report's address record without sources, in octets (RFC 3810 5.2.4).
pub const RECORD_LEN: usize = 20;

/// The values of a message without its data: a query's sources, or a report's address records.
#[derive(Clone, Copy, Debug, PartialEq, Eq)]
pub enum MldRepr {
    /// A listener query (RFC 3810 5.1).
    Query {
        /// The code of the maximum response time (RFC 3810 5.1.3).
        max_resp_code: u16,
        /// The group that is asked about, or :: for all groups.
        mcast_addr: Ipv6Address,
    },
    /// A report of the groups to which the sender listens (RFC 3810 5.2).
    Report {
        /// The number of address records in the message.
        nr_mcast_addr_rcrds: u16,
    },
}

impl MldRepr {
    /// Parses the octets of an ICMPv6 message. Returns the message and its data: what follows the first 28 octets of a
    /// query, or the first 8 of a report. The data isn't parsed, nor are the reserved octets and the last four of a
    /// query before its data. The checksum isn't verified.
    ///
    /// `None` exactly if they are neither a query (type 130) of at least 28 octets nor a report (type 143) of at least
    /// 8, or if the code isn't 0.
    pub fn parse(message: &[u8]) -> Option<(MldRepr, &[u8])>
        ensures { SomeIff (option_map spec.parts result) (spec.IsMld message.now) (spec.mld_in message.now) }
    {
        if message.len() < 8 || message[1] != 0 {
            return None;
        }
        match message[0] {
            130 => {
                if message.len() < 28 {
                    return None;
                }
                let query = MldRepr::Query {
                    max_resp_code: u16_at(message, 4),
                    mcast_addr: address_at(message, 8),
                };
                Some((query, &message[28..]))
            }
            143 => {
                let report = MldRepr::Report {
                    nr_mcast_addr_rcrds: u16_at(message, 6),
                };
                Some((report, &message[8..]))
            }
            _ => None,
        }
    }

    /// The type of the message (RFC 3810 5).
    pub const fn message_type(&self) -> u8
        ensures { result ≡ spec.type_of self.now }
    {
        match self {
            MldRepr::Query { .. } => 130,
            MldRepr::Report { .. } => 143,
        }
    }

    /// The length of the message without its data, in octets: 28 for a query, 8 for a report.
    pub const fn message_len(&self) -> usize
        ensures value { result ≡ spec.message_len self.now }
        ensures small { result ≤ 28 }
    {
        match self {
            MldRepr::Query { .. } => 28,
            MldRepr::Report { .. } => 8,
        }
    }

    /// The four octets after the checksum: the code of a query and two zeros (RFC 3810 5.1), or two zeros and the
    /// number of a report's records (RFC 3810 5.2).
    pub const fn rest_of(&self) -> [u8; 4]
        ensures { result ≡ spec.rest_of self.now }
    {
        match self {
            MldRepr::Query { max_resp_code, .. } => {
                let [m0, m1] = max_resp_code.to_be_bytes();
                [m0, m1, 0, 0]
            }
            MldRepr::Report {
                nr_mcast_addr_rcrds,
            } => {
                let [n0, n1] = nr_mcast_addr_rcrds.to_be_bytes();
                [0, 0, n0, n1]
            }
        }
    }

    /// The octets between the first eight and the data. For a query the group and four zeros (no flags, no robustness,
    /// no interval and no sources: RFC 3810 5.1); none for a report.
    pub fn body_octets(&self) -> Option<[u8; 20]>
        ensures value { spec.body_octets result ≡ spec.body self.now }
        ensures len { 8 + length (spec.body_octets result) ≡ spec.message_len self.now }
    {
        match self {
            MldRepr::Query { mcast_addr, .. } => Some(query_body(mcast_addr)),
            MldRepr::Report { .. } => None,
        }
    }
}

/// The type of an address record (RFC 3810 5.2.12).
#[derive(Clone, Copy, Debug, PartialEq, Eq)]
pub enum MldRecordType {
    /// The sender listens to all sources except those listed.
    ModeIsExclude,
    /// From now on the sender listens only to the sources listed.
    ChangeToInclude,
    /// From now on the sender listens to all sources except those listed.
    ChangeToExclude,
}

impl MldRecordType {
    /// The number of a type (RFC 3810 5.2.12).
    pub const fn number(self) -> u8
        ensures { result ≡ spec.number_of self }
    {
        match self {
            MldRecordType::ModeIsExclude => 2,
            MldRecordType::ChangeToInclude => 3,
            MldRecordType::ChangeToExclude => 4,
        }
    }
}

/// The values of an address record without sources (RFC 3810 5.2).
#[derive(Clone, Copy, Debug, PartialEq, Eq)]
pub struct MldAddressRecordRepr {
    /// The type of the record.
    pub record_type: MldRecordType,
    /// The group.
    pub mcast_addr: Ipv6Address,
}

impl MldAddressRecordRepr {
    /// The record's 20 octets, with no auxiliary data and no sources (RFC 3810 5.2).
    #[tactic(auto, unfolding(crate::specs::Mld::record_text, ip_wire::specs::Ipv6Packet::address_text))]
    pub fn octets(&self) -> [u8; RECORD_LEN]
        ensures { result ≡ spec.record_text self.now }
    {
        let mut octets = [0; RECORD_LEN];
        octets[0] = self.record_type.number();
        octets[4..].copy_from_slice(&self.mcast_addr.bits.to_be_bytes());
        octets
    }
}

/// The octets of a query after the first eight.
#[tactic(auto, unfolding(crate::specs::Mld::query_body, ip_wire::specs::Ipv6Packet::address_text))]
fn query_body(mcast_addr: &Ipv6Address) -> [u8; 20]
    ensures { result ≡ spec.query_body mcast_addr.now }
{
    let mut octets = [0; 20];
    octets[..16].copy_from_slice(&mcast_addr.bits.to_be_bytes());
    octets
}

/// A message made of these octets is parsed back, with any checksum and data.
pub fn read_again()
    ensures { spec.ReadAgain }
{}
