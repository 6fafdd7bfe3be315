//! The client, and how it is made.
ghost use Rattle.std.specs.Prelude.{◌≡◌, IfOk, IfErr, OnOk, OnErr, is_ok, is_some, length, Some, None};
ghost use Rattle.std.specs.List.{list_all};
ghost use Rattle.std.specs.Result.{IsErrOf};
ghost use Rattle.dns_client.specs.DnsResolver.Resolver as resolver;
ghost use Rattle.iface_dns.specs.Dns as spec;
ghost use Rattle.iface_host.specs.declared.refusal.Refusal.{Refusal};

use crate::open_sockets::OpenSockets;
use dns_client::DnsResult;
use dns_client::dns_resolver::{NoSuchQuery, QueryHandle, Resolver};
use iface_host::{IfaceHost, Refusal};
use ip_wire::IpAddress;
use std::alloc::Global;
use tcp_host::sip_hash::SipKey;

/// A client of DNS for a host.
#[derive(Drop)]
pub struct Dns {
    /// The queries.
    pub resolver: Resolver,
    /// The sockets of those that wait, by their places.
    pub sockets: OpenSockets,
}

impl Dns {
    /// A client without queries, for so many at once, that asks these servers. The key is to be secret and random, as
    /// [`Resolver::new`] says. `NotUnicast` if no other host can have a server's address, as a group's, a loopback one or one of
    /// 240.0.0.0/4, else `NoMemory` if memory is refused.
    pub fn new(
        alloc: Global,
        servers: &[IpAddress],
        queries: usize,
        key: SipKey,
    ) -> Result<Box<Dns>, Refusal>
        ensures made { IfOk result (λ dns. dns.value ≡ spec.new_dns servers.now queries key) }
        ensures why { (e : Refusal) → spec.servers_refusal servers.now ≡ Some e → IsErrOf result e }
        ensures memory { spec.servers_refusal servers.now ≡ None → IfErr result (λ e. e ≡ Refusal.NoMemory) }
    {
        if !are_servers(servers) {
            return Err(Refusal::NotUnicast);
        }
        let dns = Dns {
            resolver: Resolver::new(alloc, servers, queries, key)?,
            sockets: OpenSockets::new(alloc, queries)?,
        };
        match Box::new(alloc, dns) {
            Ok(made) => Ok(made),
            Err(_) => Err(Refusal::NoMemory),
        }
    }

    /// Sets the servers, as [`Resolver::set_servers`] does. `NotUnicast` if no other host can have a server's address, else
    /// `NoMemory` if memory is refused; then nothing changes.
    pub fn set_servers(&mut self, alloc: Global, servers: &[IpAddress]) -> Result<(), Refusal>
        ensures set { OnOk result (self.new ≡ spec.with_servers servers.now self.old) }
        ensures why { (e : Refusal) → spec.servers_refusal servers.now ≡ Some e → IsErrOf result e }
        ensures memory { spec.servers_refusal servers.now ≡ None → IfErr result (λ e. e ≡ Refusal.NoMemory) }
        ensures refused { OnErr result (self.new ≡ self.old) }
    {
        if !are_servers(servers) {
            return Err(Refusal::NotUnicast);
        }
        Ok(self.resolver.set_servers(alloc, servers)?)
    }

    /// What has become of a query. `NoSuchQuery` if the handle names none.
    pub fn result(&self, handle: QueryHandle) -> Result<DnsResult, NoSuchQuery>
        ensures { result ≡ resolver.result_at self.now.resolver handle.place }
    {
        self.resolver.result(handle)
    }

    /// When [`Dns::poll`] does something if nothing came, in microseconds; before that it does nothing. `None` only if no query
    /// waits for an answer.
    pub fn poll_at(&self) -> Option<i64>
        ensures { result ≡ spec.poll_at self.now }
    {
        let at = self.resolver.poll_at()?;
        if at < 0x4000_0000_0000_0000 {
            Some(at as i64)
        } else {
            Some(0x4000_0000_0000_0000)
        }
    }

    /// Frees the place of a query, whatever has become of it, and closes its socket of the host, if it has one. `NoSuchQuery` if
    /// the handle names none; then nothing changes.
    pub fn cancel(&mut self, host: &mut IfaceHost, handle: QueryHandle) -> Result<(), NoSuchQuery>
        ensures ok { is_ok result ≡ is_some (resolver.at self.old.resolver handle.place) }
        ensures cancelled { OnOk result (spec.Cancels handle.place self.old self.new host.old host.new) }
        ensures refused { OnErr result (self.new ≡ self.old) }
        ensures host { OnErr result (host.new ≡ host.old) }
    {
        self.resolver.cancel(handle)?;
        self.close_at(host, handle.place);
        Ok(())
    }

    /// Closes the sockets of all queries.
    pub fn close(&mut self, host: &mut IfaceHost)
        ensures { spec.Closes self.old self.new host.old host.new }
    {
        let count = self.sockets.places();
        for place in 0..count {
            self.close_at(host, place);
        }
    }

    /// Closes the socket of a place, if it has one.
    pub(crate) fn close_at(&mut self, host: &mut IfaceHost, place: usize)
        ensures { spec.ClosesAt place self.old self.new host.old host.new }
    {
        if let Some(number) = self.sockets.get(place) {
            close_one(host, number);
            self.sockets.set(place, None);
        }
    }
}

/// Whether another host can have the address of each of these servers.
fn are_servers(servers: &[IpAddress]) -> bool
    ensures { result ≡ list_all spec.is_server servers.now }
{
    servers.iter().all(|server| is_server(server))
}

/// Whether another host can have an address.
fn is_server(address: &IpAddress) -> bool
    ensures { result ≡ spec.is_server address.now }
{
    match address {
        IpAddress::Ipv4(address) => {
            let first = address.bits >> 24;
            first > 0 && first < 224 && first != 127
        }
        IpAddress::Ipv6(address) => address.is_unicast() && !address.is_loopback(),
    }
}

/// Closes a socket of a host, if it is open.
pub(crate) fn close_one(host: &mut IfaceHost, number: u32)
    ensures { spec.ClosesOne number host.old host.new }
{
    let _ = host.close(number);
}
