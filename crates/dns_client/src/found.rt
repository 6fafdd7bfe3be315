//! What an answer's records tell of the name that was asked for (RFC 1035 3.3.1, 3.4.1, RFC 3596 2.2).
ghost use Rattle.std.specs.Prelude.{◌≡◌, ◌+◌, ◌<◌, ◌≤◌, length};
ghost use Rattle.dns_client.specs.Found as spec;

use crate::name::is_same_name;
use crate::query::{DnsFailure, DnsResult, MAX_ADDRESSES};
use crate::{DnsData, DnsRecord, DnsType};
use ip_address::IpAddress;

/// The most aliases that are followed.
const MAX_ALIASES: u8 = 8;

/// What was found so far.
#[derive(Clone, Copy, Debug, PartialEq, Eq)]
pub struct Found {
    /// Where the name stands that is looked for.
    pub name: usize,
    /// How many aliases led to it; 9 stands for more too.
    pub aliases: u8,
    /// How many addresses it has, at most four.
    pub count: usize,
    /// These, from the first place on.
    pub addresses: [Option<IpAddress>; 4],
}

impl Found {
    /// Nothing, of the name at an offset.
    const fn nothing_at(at: usize) -> Found
        ensures { result ≡ spec.nothing_at at }
    {
        Found {
            name: at,
            aliases: 0,
            count: 0,
            addresses: [None, None, None, None],
        }
    }

    /// Takes an address, if there is room for one.
    fn take_address(&mut self, address: IpAddress)
        ensures { self.new ≡ spec.with_address address self.old }
    {
        if self.count < MAX_ADDRESSES {
            self.addresses[self.count] = Some(address);
            self.count += 1;
        }
    }

    /// Looks for the name at an offset from now on.
    fn take_alias(&mut self, name: usize)
        ensures { self.new ≡ spec.with_alias name self.old }
    {
        self.name = name;
        self.aliases = if self.aliases < 9 {
            self.aliases + 1
        } else {
            9
        };
    }

    /// Takes the data of a record of the name.
    fn take_data(&mut self, query_type: DnsType, record_data: DnsData)
        ensures { self.new ≡ spec.with_data query_type record_data self.old }
    {
        match record_data {
            DnsData::A(address) => {
                if let DnsType::A = query_type {
                    self.take_address(IpAddress::Ipv4(address));
                }
            }
            DnsData::Aaaa(address) => {
                if let DnsType::Aaaa = query_type {
                    self.take_address(IpAddress::Ipv6(address));
                }
            }
            DnsData::Cname(name) => self.take_alias(name),
            DnsData::Other => {}
        }
    }

    /// Takes the data of a record at an offset of a message, if it is of the name.
    fn take_record(&mut self, query_type: DnsType, octets: &[u8], at: usize, record_data: DnsData)
        ensures { self.new ≡ spec.with_record query_type octets.now at record_data self.old }
    {
        if is_same_name(octets, at, octets, self.name) {
            self.take_data(query_type, record_data);
        }
    }

    /// What this makes of a query.
    fn result(&self) -> DnsResult
        ensures { result ≡ spec.result_of self.now }
    {
        if self.aliases > MAX_ALIASES {
            DnsResult::Failed(DnsFailure::TooManyAliases)
        } else if self.count == 0 {
            DnsResult::Failed(DnsFailure::NoAddress)
        } else {
            DnsResult::Addresses(self.addresses)
        }
    }
}

/// What so many records of a message, from an offset on, tell of the name at another offset. `None` if they aren't all there.
pub(crate) fn found_in(
    octets: &[u8],
    name: usize,
    records: usize,
    count: u16,
    query_type: DnsType,
) -> Option<DnsResult>
    ensures { result ≡ spec.result_if (spec.found_from count query_type octets.now records (spec.nothing_at name)) }
{
    let mut found = Found::nothing_at(name);
    let mut at = records;
    let mut left = count;
    while left > 0 {
        let record = DnsRecord::parse(octets, at)?;
        found.take_record(query_type, octets, at, record.data);
        at = record.end;
        left -= 1;
    }
    Some(found.result())
}
