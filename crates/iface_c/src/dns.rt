//! A client of DNS, which asks servers for the addresses of names.
ghost use Rattle.std.specs.Prelude.{◌≡◌, ◌≢◌, ◌≤◌, ◌+◌, None, IfSome, length};
ghost use Rattle.std.specs.Option.{option_map};
ghost use Rattle.iface_c.specs.Dns as spec;
ghost use Rattle.iface_c.specs.DnsHandle.{dns_in};
ghost use Rattle.iface_c.specs.Handle.{host_in};
ghost use Rattle.iface_c.specs.Status.{IsDueOrMemory};
ghost use Rattle.iface_dns.specs.Dns.{Cancels};
ghost use Rattle.iface_dns.specs.Poll.{Polls};
ghost use Rattle.iface_host.specs.Refusals.{moment_refusal};

use crate::addresses::IfaceAddress;
use crate::dns_handle::IfaceDns;
use crate::handle::Iface;
use crate::status::{
    BAD_ARGUMENT, BAD_NAME, HAS_CLIENT, NO_CLIENT, NO_HOST, NO_SERVER, NOT_THERE, OK, code,
};
use arrayvec::ArrayVec;
use dns_client::dns_resolver::QueryHandle;
use dns_client::{DnsFailure, DnsResult, DnsType};
use iface_dns::{Dns, StartRefusal};
use ip_wire::IpAddress;
use std::alloc::Global;
use tcp_host::sip_hash::SipKey;

/// What has become of a query.
#[repr(C)]
#[derive(Drop)]
pub struct IfaceDnsAnswer {
    /// Whether it waits, what it found, or why it found nothing.
    pub state: u32,
    /// The addresses, from the first place on; version 0 in the others.
    pub addresses: [IfaceAddress; 4],
}

impl IfaceDnsAnswer {
    /// A result as C reads it.
    fn of(there: &DnsResult) -> IfaceDnsAnswer
        ensures { result ≡ spec.result_for_c there.now }
    {
        match there {
            DnsResult::Pending => without_addresses(0),
            DnsResult::Addresses(list) => with_addresses(1, list),
            DnsResult::TruncatedAddresses(list) => with_addresses(8, list),
            DnsResult::Failed(failure) => without_addresses(number_of_failure(failure)),
        }
    }
}

/// A result with these addresses.
fn with_addresses(state: u32, list: &[Option<IpAddress>; 4]) -> IfaceDnsAnswer
    ensures { result ≡ spec.with_addresses state list.now }
{
    IfaceDnsAnswer {
        state,
        addresses: [
            address_of(&list[0]),
            address_of(&list[1]),
            address_of(&list[2]),
            address_of(&list[3]),
        ],
    }
}

/// A result without addresses.
fn without_addresses(state: u32) -> IfaceDnsAnswer
    ensures { result ≡ spec.without_addresses state }
{
    IfaceDnsAnswer {
        state,
        addresses: [
            address_of(&None),
            address_of(&None),
            address_of(&None),
            address_of(&None),
        ],
    }
}

/// An address as C reads it, if there is one.
fn address_of(address: &Option<IpAddress>) -> IfaceAddress
    ensures { result ≡ spec.address_for_c_if address.now }
{
    match address {
        Some(address) => IfaceAddress::of(address),
        None => IfaceAddress {
            version: 0,
            octets: [0; 16],
        },
    }
}

/// The number of why there are no addresses.
fn number_of_failure(failure: &DnsFailure) -> u32
    ensures { result ≡ spec.number_of_failure failure.now }
{
    match failure {
        DnsFailure::NoSuchName => 2,
        DnsFailure::ServerFailure => 3,
        DnsFailure::Truncated => 4,
        DnsFailure::NoAddress => 5,
        DnsFailure::TooManyAliases => 6,
        DnsFailure::TimedOut => 7,
    }
}

/// What is asked of a name, if the number is a type's: 1, or 28.
fn type_of(number: u32) -> Option<DnsType>
    ensures { result ≡ spec.type_in number }
{
    match number {
        1 => Some(DnsType::A),
        28 => Some(DnsType::Aaaa),
        _ => None,
    }
}

/// Servers, as many as there are.
type Servers = ArrayVec<IpAddress, 3>;

/// The servers of three addresses. Those of version 0 are left out. `None` if a version is neither 0, 4 nor 6.
fn servers_of(addresses: &[IfaceAddress; 3]) -> Option<Servers>
    ensures { option_map (λ servers. servers.items) result ≡ spec.servers_in addresses.now }
{
    let servers = with_server(ArrayVec::new(), &addresses[0])?;
    let servers = with_server(servers, &addresses[1])?;
    with_server(servers, &addresses[2])
}

/// Servers with one more, unless its version is 0. `None` if it is neither 0, 4 nor 6.
fn with_server(servers: Servers, address: &IfaceAddress) -> Option<Servers>
    requires { length servers.items ≤ 2 }
    ensures servers { option_map (λ more. more.items) result ≡ spec.with_server servers.items address.now }
    ensures len { IfSome result (λ more. length more.items ≤ length servers.items + 1) }
{
    if address.version == 0 {
        return Some(servers);
    }
    let mut more = servers;
    more.push(address.ip()?);
    Some(more)
}

/// Makes a client for so many queries at once, which its handle owns from then on.
#[unsafe(no_mangle)]
pub extern "C" fn iface_dns_new(
    client: &mut IfaceDns,
    alloc: Global,
    queries: u32,
    key: &[u64; 2],
    servers: &[IfaceAddress; 3],
) -> u32
    ensures made { spec.Made result queries (spec.key_in key.now) (spec.servers_in servers.now) client.old client.new }
    ensures code { IsDueOrMemory (spec.code_for_new (spec.servers_in servers.now) (dns_in client.old)) result }
{
    if client.is_made() {
        return HAS_CLIENT;
    }
    let Some(servers) = servers_of(servers) else {
        return BAD_ARGUMENT;
    };
    match Dns::new(alloc, servers.as_slice(), queries as usize, key_of(key)) {
        Ok(made) => {
            client.put(made);
            OK
        }
        Err(refusal) => code(refusal),
    }
}

/// The key of two words.
fn key_of(words: &[u64; 2]) -> SipKey
    ensures { result ≡ spec.key_in words.now }
{
    SipKey {
        k0: words[0],
        k1: words[1],
    }
}

/// Sets the servers of a client.
#[unsafe(no_mangle)]
pub extern "C" fn iface_dns_servers(
    client: &mut IfaceDns,
    alloc: Global,
    servers: &[IfaceAddress; 3],
) -> u32
    ensures done { spec.DidOne result (spec.SetsServers (spec.servers_in servers.now)) client.old client.new }
    ensures code { IsDueOrMemory (spec.code_for_servers (spec.servers_in servers.now) (dns_in client.old)) result }
{
    let Some(servers) = servers_of(servers) else {
        return BAD_ARGUMENT;
    };
    let Some(mut dns) = client.take(alloc) else {
        return NO_CLIENT;
    };
    let done = dns.set_servers(alloc, servers.as_slice());
    client.put(dns);
    match done {
        Ok(()) => OK,
        Err(refusal) => code(refusal),
    }
}

/// Starts a query for a name, and writes its number.
#[unsafe(no_mangle)]
pub extern "C" fn iface_dns_start(
    client: &mut IfaceDns,
    handle: &mut Iface,
    alloc: Global,
    now: i64,
    name: &[u8],
    query_type: u32,
    query: &mut usize,
) -> u32
    ensures done { spec.DidBoth result (spec.Started now name.now (spec.type_in query_type) query.new)
        client.old client.new handle.old handle.new }
    ensures code { IsDueOrMemory (spec.code_for_start now name.now (spec.type_in query_type) (dns_in client.old)
        (host_in handle.old)) result }
    ensures kept { result ≢ 0 → query.new ≡ query.old }
{
    let Some(query_type) = type_of(query_type) else {
        return BAD_ARGUMENT;
    };
    let Some(mut dns) = client.take(alloc) else {
        return NO_CLIENT;
    };
    let Some(mut host) = handle.take(alloc) else {
        client.put(dns);
        return NO_HOST;
    };
    let done = dns.start(&mut host, now, name, query_type);
    handle.put(host);
    client.put(dns);
    match done {
        Ok(started) => {
            *query = started.place;
            OK
        }
        Err(refusal) => code_of_start(refusal),
    }
}

/// The code of why a query isn't started.
fn code_of_start(refusal: StartRefusal) -> u32
    ensures code { result ≡ spec.code_of_start refusal }
    ensures refuses { result ≢ 0 }
{
    match refusal {
        StartRefusal::Refused(refusal) => code(refusal),
        StartRefusal::BadName => BAD_NAME,
        StartRefusal::NoServer => NO_SERVER,
    }
}

/// Lets a client do what is due at a moment.
#[unsafe(no_mangle)]
pub extern "C" fn iface_dns_poll(
    client: &mut IfaceDns,
    handle: &mut Iface,
    alloc: Global,
    now: i64,
) -> u32
    ensures done { spec.DidBoth result (Polls now) client.old client.new handle.old handle.new }
    ensures code { result ≡ spec.code_of_both (λ _ _. moment_refusal now) (dns_in client.old) (host_in handle.old) }
{
    let Some(mut dns) = client.take(alloc) else {
        return NO_CLIENT;
    };
    let Some(mut host) = handle.take(alloc) else {
        client.put(dns);
        return NO_HOST;
    };
    let done = dns.poll(&mut host, now);
    handle.put(host);
    client.put(dns);
    match done {
        Ok(()) => OK,
        Err(refusal) => code(refusal),
    }
}

/// Writes when a client does something next, the last number for never.
#[unsafe(no_mangle)]
pub extern "C" fn iface_dns_poll_at(client: &mut IfaceDns, alloc: Global, at: &mut i64) -> u32
    ensures done { spec.DidOne result (λ old new. spec.ShowsPollAt at.new old new) client.old client.new }
    ensures code { result ≡ spec.code_of_one (λ _. None) (dns_in client.old) }
    ensures kept { result ≢ 0 → at.new ≡ at.old }
{
    let Some(dns) = client.take(alloc) else {
        return NO_CLIENT;
    };
    let due = dns.poll_at();
    client.put(dns);
    *at = due.unwrap_or(i64::MAX);
    OK
}

/// Writes what has become of a query.
#[unsafe(no_mangle)]
pub extern "C" fn iface_dns_result(
    client: &mut IfaceDns,
    alloc: Global,
    query: usize,
    shown: &mut IfaceDnsAnswer,
) -> u32
    ensures done { spec.DidOne result (λ old new. spec.Shows query shown.new old new) client.old client.new }
    ensures code { result ≡ spec.code_of_one (spec.query_refusal query) (dns_in client.old) }
    ensures kept { result ≢ 0 → shown.new ≡ shown.old }
{
    let Some(dns) = client.take(alloc) else {
        return NO_CLIENT;
    };
    let there = dns.result(QueryHandle { place: query });
    client.put(dns);
    match there {
        Ok(there) => {
            *shown = IfaceDnsAnswer::of(&there);
            OK
        }
        Err(_) => NOT_THERE,
    }
}

/// Ends a query, and closes its socket of a host.
#[unsafe(no_mangle)]
pub extern "C" fn iface_dns_cancel(
    client: &mut IfaceDns,
    handle: &mut Iface,
    alloc: Global,
    query: usize,
) -> u32
    ensures done { spec.DidBoth result (Cancels query) client.old client.new handle.old handle.new }
    ensures code { result ≡ spec.code_of_both (λ d _. spec.query_refusal query d) (dns_in client.old) (host_in handle.old) }
{
    let Some(mut dns) = client.take(alloc) else {
        return NO_CLIENT;
    };
    let Some(mut host) = handle.take(alloc) else {
        client.put(dns);
        return NO_HOST;
    };
    let done = dns.cancel(&mut host, QueryHandle { place: query });
    handle.put(host);
    client.put(dns);
    match done {
        Ok(()) => OK,
        Err(_) => NOT_THERE,
    }
}

/// Frees a client with its queries, and closes their sockets of a host, if there is one: its handle owns none from then on.
#[unsafe(no_mangle)]
pub extern "C" fn iface_dns_free(client: &mut IfaceDns, handle: &mut Iface, alloc: Global) -> u32
    ensures freed { dns_in client.new ≡ None }
    ensures host { spec.Frees (dns_in client.old) (host_in handle.old) (host_in handle.new) }
    ensures code { result ≡ spec.code_of_one (λ _. None) (dns_in client.old) }
{
    let Some(mut dns) = client.take(alloc) else {
        return NO_CLIENT;
    };
    if let Some(mut host) = handle.take(alloc) {
        dns.close(&mut host);
        handle.put(host);
    }
    drop(dns);
    OK
}
