//! How queries are started.
ghost use Rattle.std.specs.Prelude.{◌≡◌, ◌≤◌, IfOk, IfErr, OnErr, None, Some};
ghost use Rattle.std.specs.Result.{IsErrOf, result_err};
ghost use Rattle.iface_dns.specs.Start as spec;
ghost use Rattle.iface_dns.specs.Texts as texts;
ghost use Rattle.iface_dns.specs.Texts.{AnswersText};
ghost use Rattle.std.specs.Net.Addr.{ipv4_octets, ipv6_segments};
ghost use Rattle.iface_dns.specs.declared.start.StartRefusal.TheVariants.{Refused};
ghost use Rattle.iface_host.specs.declared.refusal.Refusal.{Refusal};

use crate::dns::Dns;
use crate::hear::RECEIVED_LEN;
use dns_client::dns_resolver::QueryHandle;
use dns_client::message::MAX_QUERY_LEN;
use dns_client::text::{Name, name_of};
use dns_client::{DnsFailure, DnsResult, DnsType};
use iface_host::streams::micros_of;
use iface_host::{IfaceHost, Refusal, Room, Rooms};
use ip_wire::{IpAddress, Ipv4Address, Ipv6Address};
use sockets::IpListenEndpoint;
use std::net::IpAddr;

/// What a query's socket holds: some answers that came, and one question.
pub(crate) const ROOMS: Rooms = Rooms {
    received: Room {
        packets: 4,
        octets: RECEIVED_LEN,
    },
    to_send: Room {
        packets: 1,
        octets: MAX_QUERY_LEN,
    },
};

/// Why a query isn't started.
#[derive(Clone, Copy, Debug, PartialEq, Eq)]
pub enum StartRefusal {
    /// For a reason that calls of the host have too.
    Refused(Refusal),
    /// The text is no name.
    BadName,
    /// There is no server to ask.
    NoServer,
}

impl Dns {
    /// Starts a query of a name's addresses at a moment, as `www.example.com`, in the first free place, and opens its socket at a
    /// port that comes of the key. The first that applies: `BadMoment` if the moment is out of range; `BadName` if the text is no
    /// name, as [`name_of`] says; `NoServer` if there is none; `TableFull` if each place has a query, or no number or no place for a
    /// socket is left; `NoMemory` if memory for the socket is refused. Then nothing changes.
    ///
    /// The query stays until it is cancelled. The next poll sends its first message. A name that is an address in text asks nobody:
    /// its query has that as its result at once, if it is of the type that is asked for.
    pub fn start(
        &mut self,
        host: &mut IfaceHost,
        now: i64,
        text: &[u8],
        query_type: DnsType,
    ) -> Result<QueryHandle, StartRefusal>
        ensures started { IfOk result (λ handle.
            spec.Starts now text.now query_type handle.place self.old self.new host.old host.new) }
        ensures why { (e : spec.StartRefusal) → spec.start_refusal now text.now self.old host.old ≡ Some e → IsErrOf result e }
        ensures memory { spec.start_refusal now text.now self.old host.old ≡ None → IfErr result (λ e. e ≡ Refused Refusal.NoMemory) }
        ensures refused { OnErr result (self.new ≡ self.old) }
        ensures host { OnErr result (host.new ≡ host.old) }
    {
        let handle = self.start_asking(host, now, text, query_type)?;
        self.answer_text(handle, text, query_type);
        Ok(handle)
    }

    /// Starts a query of a name's addresses, whatever the text is.
    fn start_asking(
        &mut self,
        host: &mut IfaceHost,
        now: i64,
        text: &[u8],
        query_type: DnsType,
    ) -> Result<QueryHandle, StartRefusal>
        ensures started { IfOk result (λ handle.
            spec.StartsAsking now text.now query_type handle.place self.old self.new host.old host.new) }
        ensures why { (e : spec.StartRefusal) → spec.start_refusal now text.now self.old host.old ≡ Some e → IsErrOf result e }
        ensures memory { spec.start_refusal now text.now self.old host.old ≡ None → IfErr result (λ e. e ≡ Refused Refusal.NoMemory) }
        ensures refused { OnErr result (self.new ≡ self.old) }
        ensures host { OnErr result (host.new ≡ host.old) }
    {
        let (micros, name) = self.read(now, text)?;
        let number = match self.open_next(host) {
            Ok(number) => number,
            Err(refusal) => return Err(StartRefusal::Refused(refusal)),
        };
        match self
            .resolver
            .start_query(micros, name.as_slice(), query_type)
        {
            Ok(handle) => {
                self.sockets.set(handle.place, Some(number));
                Ok(handle)
            }
            Err(_) => Err(StartRefusal::BadName),
        }
    }

    /// Gives a query its result, if its name is an address in text.
    fn answer_text(&mut self, handle: QueryHandle, text: &[u8], query_type: DnsType)
        ensures { AnswersText text.now query_type handle.place self.old self.new }
    {
        if let Ok(address) = IpAddr::parse_ascii(text) {
            self.resolver.answer(handle, told(query_type, &address));
        }
    }

    /// The microseconds of a moment and the name that a text is, if a query may be started. It fails as [`Dns::start`] says.
    fn read(&self, now: i64, text: &[u8]) -> Result<(u64, Name), StartRefusal>
        ensures read { IfOk result (λ r. spec.Reads now text.now self.now r.0 r.1.items) }
        ensures why { result_err result ≡ spec.read_refusal now text.now self.now }
    {
        let micros = match micros_of(now) {
            Ok(micros) => micros,
            Err(refusal) => return Err(StartRefusal::Refused(refusal)),
        };
        let Some(name) = name_of(text) else {
            return Err(StartRefusal::BadName);
        };
        if !self.resolver.has_server() {
            return Err(StartRefusal::NoServer);
        }
        if !self.resolver.has_free_place() {
            return Err(StartRefusal::Refused(Refusal::TableFull));
        }
        Ok((micros, name))
    }

    /// Opens the socket of the query that is started next, at any address of the host.
    fn open_next(&self, host: &mut IfaceHost) -> Result<u32, Refusal>
        ensures opened { IfOk result (λ number. spec.OpensNext self.now number host.old host.new) }
        ensures why { (e : Refusal) → spec.opening_refusal host.old ≡ Some e → IsErrOf result e }
        ensures memory { spec.opening_refusal host.old ≡ None → IfErr result (λ e. e ≡ Refusal.NoMemory) }
        ensures refused { OnErr result (host.new ≡ host.old) }
    {
        let local = IpListenEndpoint {
            addr: None,
            port: self.resolver.next_port(),
        };
        host.open_udp(local, ROOMS)
    }
}

/// What an address in text tells a query of a type.
fn told(query_type: DnsType, address: &IpAddr) -> DnsResult
    ensures { result ≡ texts.told query_type address.now }
{
    match (query_type, address) {
        (DnsType::A, IpAddr::V4(address)) => one(ipv4_by(&address.octets())),
        (DnsType::Aaaa, IpAddr::V6(address)) => one(ipv6_by(&address.segments())),
        _ => DnsResult::Failed(DnsFailure::NoAddress),
    }
}

/// One address alone.
const fn one(address: IpAddress) -> DnsResult
    ensures { result ≡ texts.one address }
{
    DnsResult::Addresses([Some(address), None, None, None])
}

/// The IPv4 address of these octets.
const fn ipv4_by(octets: &[u8; 4]) -> IpAddress
    ensures { result ≡ texts.ipv4_by octets.now }
{
    IpAddress::Ipv4(Ipv4Address::new(octets[0], octets[1], octets[2], octets[3]))
}

/// The IPv6 address of these groups of 16 bits.
const fn ipv6_by(groups: &[u16; 8]) -> IpAddress
    ensures { result ≡ texts.ipv6_by groups.now }
{
    IpAddress::Ipv6(Ipv6Address::new(
        groups[0], groups[1], groups[2], groups[3], groups[4], groups[5], groups[6], groups[7],
    ))
}
