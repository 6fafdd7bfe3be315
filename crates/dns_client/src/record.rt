//! Resource records, which are read where they stand (RFC 1035 3.2.1, RFC 3596 2).
ghost use Rattle.std.specs.Prelude.{◌≡◌, ◌+◌, ◌≤◌, length, IsTrue};
ghost use Rattle.std.specs.Option.{SomeIff};
ghost use Rattle.dns_client.specs.Record as spec;

use crate::name::name_end;
use ip_address::{Ipv4Address, Ipv6Address};
use ip_wire::ipv6_packet::address_at;
use ip_wire::octets::{u16_at, u32_at};

/// What a record tells of its name.
#[derive(Clone, Copy, Debug, PartialEq, Eq)]
pub enum DnsData {
    /// An IPv4 address (RFC 1035 3.4.1).
    A(Ipv4Address),
    /// An IPv6 address (RFC 3596 2.2).
    Aaaa(Ipv6Address),
    /// The name of which the record's name is an alias, by where it stands in the message (RFC 1035 3.3.1).
    Cname(usize),
    /// Data of another type, or of another class than the Internet's.
    Other,
}

/// A resource record of a message.
#[derive(Clone, Copy, Debug, PartialEq, Eq)]
pub struct DnsRecord {
    pub data: DnsData,
    /// For how many seconds it may be kept.
    pub time_to_live: u32,
    /// Where the next one stands.
    pub end: usize,
}

impl DnsRecord {
    /// The record at an offset of a message, whose name stands there too. `None` exactly in these cases:
    ///
    /// - no name stands there;
    /// - its fields or its data run out of the message;
    /// - it is of class 1, and an address has another length than its type's, or the data of a CNAME aren't one name.
    pub fn parse(octets: &[u8], at: usize) -> Option<DnsRecord>
        ensures { SomeIff result (IsTrue (spec.is_record octets.now at)) (spec.record_in octets.now at) }
    {
        let fields = name_end(octets, at)?;
        if octets.len() < 10 || fields > octets.len() - 10 {
            return None;
        }
        let len = usize::from(u16_at(octets, fields + 8));
        let start = fields + 10;
        if len > octets.len() - start {
            return None;
        }
        let class = u16_at(octets, fields + 2);
        let record_type = u16_at(octets, fields);
        let data = data_at(class, record_type, octets, start, len)?;
        Some(DnsRecord {
            data,
            time_to_live: u32_at(octets, fields + 4),
            end: start + len,
        })
    }
}

/// The data of a class and a type at an offset. `None` if they don't have their type's form.
fn data_at(class: u16, record_type: u16, octets: &[u8], at: usize, len: usize) -> Option<DnsData>
    requires { at + len ≤ length octets.now }
    ensures { SomeIff result (IsTrue (spec.is_data class record_type octets.now at len)) (spec.data_of class record_type octets.now at) }
{
    if class != 1 {
        return Some(DnsData::Other);
    }
    match record_type {
        1 => address_of(octets, at, len),
        28 => long_address_of(octets, at, len),
        5 => alias_of(octets, at, len),
        _ => Some(DnsData::Other),
    }
}

/// The IPv4 address that is all of the data.
fn address_of(octets: &[u8], at: usize, len: usize) -> Option<DnsData>
    requires { at + len ≤ length octets.now }
    ensures { SomeIff result (IsTrue (spec.is_data 1 1 octets.now at len)) (spec.data_of 1 1 octets.now at) }
{
    if len != 4 {
        return None;
    }
    Some(DnsData::A(Ipv4Address {
        bits: u32_at(octets, at),
    }))
}

/// The IPv6 address that is all of the data.
fn long_address_of(octets: &[u8], at: usize, len: usize) -> Option<DnsData>
    requires { at + len ≤ length octets.now }
    ensures { SomeIff result (IsTrue (spec.is_data 1 28 octets.now at len)) (spec.data_of 1 28 octets.now at) }
{
    if len != 16 {
        return None;
    }
    Some(DnsData::Aaaa(address_at(octets, at)))
}

/// The name that is all of the data.
fn alias_of(octets: &[u8], at: usize, len: usize) -> Option<DnsData>
    requires { at + len ≤ length octets.now }
    ensures { SomeIff result (IsTrue (spec.is_data 1 5 octets.now at len)) (spec.data_of 1 5 octets.now at) }
{
    if name_end(octets, at)? != at + len {
        return None;
    }
    Some(DnsData::Cname(at))
}
