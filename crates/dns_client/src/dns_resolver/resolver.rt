//! Queries in places, which handles name.
ghost use Rattle.std.specs.Prelude.{◌≡◌, ◌≤◌, ◌<◌, ◌++◌, ◌+◌, IfOk, IfSome, OnOk, OnErr, IsSome, is_ok, is_some, length, replicate, None};
ghost use Rattle.std.specs.Option.{option_map};
ghost use Rattle.std.specs.Result.{result_err};
ghost use Rattle.dns_client.specs.DnsResolver.Resolver as spec;

use crate::dns_resolver::places::{earliest, free_place, query_at, set_place};
use crate::message::{emit_query, is_whole_name};
use crate::{DnsFailure, DnsQuery, DnsResult, DnsType};
use arrayvec::ArrayVec;
use ip_address::IpAddress;
use ip_wire::emit::FrameBuffer;
use std::alloc::{AllocError, Global};
use std::marker::Model;
use tcp_host::sip_hash::{SipKey, sip_hash};

/// The most octets of a name (RFC 1035 2.3.4).
pub const NAME_LEN: usize = 255;

/// A query, and the name that it asks for.
#[derive(Clone, Copy, Debug, PartialEq, Eq)]
pub struct QueryHandle {
    /// Its place.
    pub place: usize,
}

/// A query with its name, by its labels (RFC 1035 3.1).
///
/// In contracts it is the two, the name as a list of octets.
#[derive(Drop)]
pub struct NamedQuery {
    query: DnsQuery,
    name: ArrayVec<u8, NAME_LEN>,
}

impl Model for NamedQuery {
    ghost use Rattle.std.specs.Prelude.{◌≤◌, length};
    ghost use Rattle.dns_client.specs.DnsResolver.Places.{Named};

    ghost Value = { Named };

    ghost view = { λ n. record { query = n.query; name = n.name.items } };

    ghost invariant = { λ n. length n.name.items ≤ 255 };
}

impl NamedQuery {
    /// The query itself.
    pub fn query(&self) -> &DnsQuery
        ensures { result.now ≡ self.now.query }
    {
        &self.query
    }

    /// The name, by its labels.
    pub fn name(&self) -> &[u8]
        ensures { result.now ≡ self.now.name }
    {
        self.name.as_slice()
    }

    /// Receives a message, as [`DnsQuery::receive`] does. Returns which server gave it its result, if one did.
    fn receive(
        &mut self,
        servers: &[IpAddress],
        from: IpAddress,
        from_port: u16,
        to_port: u16,
        octets: &[u8],
    ) -> Option<usize>
        ensures query { self.new ≡ spec.named_after_receiving servers.now from from_port to_port octets.now self.old }
        ensures server { result ≡ spec.answered_by (length servers.now) self.old.query self.new.query }
    {
        let waited = self.query.is_pending();
        let name = self.name.as_slice();
        self.query
            .receive(name, servers, from, from_port, to_port, octets);
        if waited && is_given(&self.query.result) {
            Some(self.query.asked_last(servers.len()))
        } else {
            None
        }
    }

    /// Learns that a server can't be reached, as [`DnsQuery::server_failed`] does.
    fn server_failed(&mut self, servers: &[IpAddress], server: IpAddress)
        ensures { self.new ≡ spec.named_after_failure servers.now server self.old }
    {
        self.query.server_failed(servers, server);
    }

    /// Does what is due, and writes the message that is sent now, if there is one.
    fn next_message(
        &mut self,
        servers: &[IpAddress],
        now: u64,
        out: &mut FrameBuffer,
    ) -> Option<DnsMessage>
        ensures message { result ≡ spec.message_of servers.now now self.old }
        ensures text { out.new ≡ spec.text_after result self.old out.old }
        ensures asked { self.new ≡ spec.named_after_asking servers.now now self.old }
    {
        let index = self.query.next_server(now, servers.len())?;
        let server = servers.get(index).copied()?;
        out.clear();
        let query = &self.query;
        emit_query(
            query.transaction_id,
            self.name.as_slice(),
            query.query_type,
            out,
        );
        Some(DnsMessage {
            server,
            source_port: query.source_port,
        })
    }
}

/// Why a query isn't started.
#[derive(Clone, Copy, Debug, PartialEq, Eq)]
pub enum StartQueryError {
    /// The octets aren't a whole name.
    InvalidName,
    /// Each place has a query.
    NoFreePlace,
}

/// The handle names no query.
#[derive(Clone, Copy, Debug, PartialEq, Eq)]
pub struct NoSuchQuery;

/// Where a message goes.
#[derive(Clone, Copy, Debug, PartialEq, Eq)]
pub struct DnsMessage {
    /// The server, whose port is 53.
    pub server: IpAddress,
    /// The port that it is sent from.
    pub source_port: u16,
}

/// Queries, as many at once as it has places. Instants are in microseconds, since an origin of the caller's choice.
///
/// It takes memory when it is made and when its servers are set, and never else. In contracts it is its servers, its key, how many queries were started, and
/// its places.
#[derive(Drop)]
pub struct Resolver {
    servers: Vec<IpAddress>,
    preferred: usize,
    key: SipKey,
    started: u64,
    places: Vec<Option<NamedQuery>>,
}

impl Model for Resolver {
    ghost use Rattle.dns_client.specs.DnsResolver.Places.{Queries};

    ghost Value = { Queries };

    ghost view = { λ r. record {
      servers = r.servers.items;
      preferred = r.preferred;
      key = r.key;
      started = r.started;
      places = r.places.items;
    } };
}

impl Resolver {
    /// A resolver without queries, with so many places, that asks these servers. The key is to be secret and random: the numbers
    /// and ports of queries come from it, by SipHash-2-4 of how many there were before. It fails exactly if memory is refused.
    pub fn new(
        alloc: Global,
        servers: &[IpAddress],
        places: usize,
        key: SipKey,
    ) -> Result<Resolver, AllocError>
        ensures { IfOk result (λ r. r ≡ spec.first servers.now places key) }
    {
        let servers = Vec::from_slice(alloc, servers)?;
        let mut free = Vec::with_capacity(alloc, places)?;
        for _ in 0..places {
            free.push(None)?;
        }
        Ok(Resolver {
            servers,
            preferred: 0,
            key,
            started: 0,
            places: free,
        })
    }

    /// Sets the servers, of which the first is asked first. Queries that wait go on with these: each asks the one whose turn it
    /// is, and no answer of another counts. It fails exactly if memory is refused; then nothing changes.
    pub fn set_servers(&mut self, alloc: Global, servers: &[IpAddress]) -> Result<(), AllocError>
        ensures set { OnOk result (self.new ≡ spec.with_servers servers.now self.old) }
        ensures refused { OnErr result (self.new ≡ self.old) }
    {
        self.servers = Vec::from_slice(alloc, servers)?;
        self.preferred = 0;
        Ok(())
    }

    /// Whether there is a server.
    pub fn has_server(&self) -> bool
        ensures { result ≡ spec.has_server self.now }
    {
        !self.servers.is_empty()
    }

    /// Whether a place has no query.
    pub fn has_free_place(&self) -> bool
        ensures { result ≡ is_some (spec.free_in self.now.places) }
    {
        free_place(&self.places).is_some()
    }

    /// The port that the query is to be sent from which is started next.
    pub fn next_port(&self) -> u16
        ensures port { result ≡ spec.next_port self.now }
        ensures dynamic { 49152 ≤ result }
    {
        // Which moment it begins at, what it asks for, and whom first, doesn't matter.
        DnsQuery::new(0, DnsType::A, drawn(&self.key, self.started), 0).source_port
    }

    /// Starts a query of a name's addresses at an instant, in the first free place. `InvalidName` if the octets aren't a whole
    /// name by its labels, else `NoFreePlace`; then nothing changes. The query stays until it is cancelled. It asks the server
    /// first that answered last.
    pub fn start_query(
        &mut self,
        now: u64,
        name: &[u8],
        query_type: DnsType,
    ) -> Result<QueryHandle, StartQueryError>
        ensures started { IfOk result (λ handle. spec.Starts now name.now query_type handle.place self.old self.new) }
        ensures why { result_err result ≡ spec.start_refusal self.old name.now }
        ensures refused { OnErr result (self.new ≡ self.old) }
    {
        let Some(name) = copied_name(name) else {
            return Err(StartQueryError::InvalidName);
        };
        let Some(place) = free_place(&self.places) else {
            return Err(StartQueryError::NoFreePlace);
        };
        let random = drawn(&self.key, self.started);
        let query = DnsQuery::new(now, query_type, random, self.preferred);
        self.started = self.started.wrapping_add(1);
        set_place(&mut self.places, place, Some(NamedQuery { query, name }));
        Ok(QueryHandle { place })
    }

    /// What has become of a query. `NoSuchQuery` if the handle names none.
    pub fn result(&self, handle: QueryHandle) -> Result<DnsResult, NoSuchQuery>
        ensures { result ≡ spec.result_at self.now handle.place }
    {
        match query_at(&self.places, handle.place) {
            Some(named) => Ok(named.query.result),
            None => Err(NoSuchQuery),
        }
    }

    /// The query of a handle, with its name, if there is one.
    pub fn query(&self, handle: QueryHandle) -> Option<&NamedQuery>
        ensures { spec.lent result ≡ spec.at self.now handle.place }
    {
        query_at(&self.places, handle.place)
    }

    /// Frees the place of a query, whatever has become of it: its handle names none from then on. `NoSuchQuery` if it names none
    /// now; then nothing changes.
    pub fn cancel(&mut self, handle: QueryHandle) -> Result<(), NoSuchQuery>
        ensures ok { is_ok result ≡ is_some (spec.at self.old handle.place) }
        ensures cancelled { OnOk result (self.new ≡ spec.with_place handle.place None self.old) }
        ensures refused { OnErr result (self.new ≡ self.old) }
    {
        if query_at(&self.places, handle.place).is_none() {
            return Err(NoSuchQuery);
        }
        set_place(&mut self.places, handle.place, None);
        Ok(())
    }

    /// Gives a query a result without asking, as where its name is an address in text. If the handle names none nothing changes.
    pub fn answer(&mut self, handle: QueryHandle, given: DnsResult)
        ensures { self.new ≡ spec.after_answer handle.place given self.old }
    {
        if let Some(there) = self.places.get_mut(handle.place) {
            answer_at(there, given);
        }
    }

    /// Hands a query a message that came: from where, to which port, and its octets. It counts as [`DnsQuery::receive`] says;
    /// otherwise nothing changes. `NoSuchQuery` if the handle names none; then nothing changes.
    pub fn receive(
        &mut self,
        handle: QueryHandle,
        from: IpAddress,
        from_port: u16,
        to_port: u16,
        octets: &[u8],
    ) -> Result<(), NoSuchQuery>
        ensures ok { is_ok result ≡ is_some (spec.at self.old handle.place) }
        ensures received { OnOk result
            (self.new ≡ spec.after_receiving handle.place from from_port to_port octets.now self.old) }
        ensures refused { OnErr result (self.new ≡ self.old) }
    {
        if query_at(&self.places, handle.place).is_none() {
            return Err(NoSuchQuery);
        }
        let servers = self.servers.as_slice();
        let mut answered = None;
        if let Some(place) = self.places.get_mut(handle.place) {
            answered = receive_at(place, servers, from, from_port, to_port, octets);
        }
        if let Some(server) = answered {
            self.preferred = server;
        }
        Ok(())
    }

    /// Tells a query that a server can't be reached, as its port is closed, or its neighbour absent. It counts as
    /// [`DnsQuery::server_failed`] says; otherwise nothing changes, nor if the handle names no query.
    pub fn server_failed(&mut self, handle: QueryHandle, server: IpAddress)
        ensures { self.new ≡ spec.after_failure handle.place server self.old }
    {
        let servers = self.servers.as_slice();
        if let Some(there) = self.places.get_mut(handle.place) {
            fail_at(there, servers, server);
        }
    }

    /// Does what is due for a query at an instant, and writes the message that it sends now, if there is one, in place of what
    /// the buffer has: to which server, and from which port. `NoSuchQuery` if the handle names none; then nothing changes.
    ///
    /// A message that can't be sent counts as lost.
    pub fn next_message(
        &mut self,
        handle: QueryHandle,
        now: u64,
        out: &mut FrameBuffer,
    ) -> Result<Option<DnsMessage>, NoSuchQuery>
        ensures ok { is_ok result ≡ is_some (spec.at self.old handle.place) }
        ensures message { IfOk result (λ m. m ≡ spec.message_at handle.place now self.old) }
        ensures text { IfOk result (λ m. out.new ≡ spec.text_in m (spec.at self.old handle.place) out.old) }
        ensures asked { OnOk result (self.new ≡ spec.after_asking handle.place now self.old) }
        ensures refused { OnErr result (self.new ≡ self.old) }
        ensures out { OnErr result (out.new ≡ out.old) }
    {
        if query_at(&self.places, handle.place).is_none() {
            return Err(NoSuchQuery);
        }
        let servers = self.servers.as_slice();
        match self.places.get_mut(handle.place) {
            Some(place) => Ok(next_at(place, servers, now, out)),
            None => Err(NoSuchQuery),
        }
    }

    /// How many places it has: handles name those below.
    pub fn places(&self) -> usize
        ensures { result ≡ length self.now.places }
    {
        self.places.len()
    }

    /// The earliest instant at which something is due for a query. `None` only if no query waits for an answer.
    pub fn poll_at(&self) -> Option<u64>
        ensures { result ≡ spec.poll_at self.now }
    {
        earliest(&self.places, self.servers.len())
    }
}

/// Lets the query at a place receive a message, if there is one. Returns which server gave it its result, if one did.
fn receive_at(
    place: &mut Option<NamedQuery>,
    servers: &[IpAddress],
    from: IpAddress,
    from_port: u16,
    to_port: u16,
    octets: &[u8],
) -> Option<usize>
    ensures query { place.new ≡ option_map (spec.named_after_receiving servers.now from from_port to_port octets.now) place.old }
    ensures server { result ≡ spec.answered_in servers.now from from_port to_port octets.now place.old }
{
    match place {
        Some(named) => named.receive(servers, from, from_port, to_port, octets),
        None => None,
    }
}

/// Tells the query at a place that a server can't be reached, if there is one.
fn fail_at(place: &mut Option<NamedQuery>, servers: &[IpAddress], server: IpAddress)
    ensures { place.new ≡ option_map (spec.named_after_failure servers.now server) place.old }
{
    if let Some(named) = place {
        named.server_failed(servers, server);
    }
}

/// Gives the query at a place a result, if there is one.
fn answer_at(place: &mut Option<NamedQuery>, given: DnsResult)
    ensures { place.new ≡ option_map (spec.named_with_result given) place.old }
{
    if let Some(named) = place {
        named.query.result = given;
    }
}

/// Whether a server gave a result.
const fn is_given(there: &DnsResult) -> bool
    ensures { result ≡ spec.is_given there.now }
{
    match there {
        DnsResult::Pending => false,
        DnsResult::Addresses(_) | DnsResult::TruncatedAddresses(_) => true,
        DnsResult::Failed(DnsFailure::ServerFailure | DnsFailure::TimedOut) => false,
        DnsResult::Failed(_) => true,
    }
}

/// Lets the query at a place do what is due, if there is one, and writes its message.
fn next_at(
    place: &mut Option<NamedQuery>,
    servers: &[IpAddress],
    now: u64,
    out: &mut FrameBuffer,
) -> Option<DnsMessage>
    ensures message { result ≡ spec.message_in servers.now now place.old }
    ensures text { out.new ≡ spec.text_in result place.old out.old }
    ensures asked { place.new ≡ option_map (spec.named_after_asking servers.now now) place.old }
{
    match place {
        Some(named) => named.next_message(servers, now, out),
        None => None,
    }
}

/// A copy of a whole name. `None` if it isn't one.
fn copied_name(name: &[u8]) -> Option<ArrayVec<u8, NAME_LEN>>
    ensures copied { IfSome result (λ copy. copy.items ≡ name.now) }
    ensures whole { is_some result ≡ spec.is_whole name.now }
{
    if name.len() > NAME_LEN || !is_whole_name(name) {
        return None;
    }
    let mut copy = ArrayVec::new();
    let _ = copy.try_extend_from_slice(name);
    Some(copy)
}

/// The number that the next query's number and port come from, after so many queries.
fn drawn(key: &SipKey, started: u64) -> u32
    ensures { result ≡ spec.drawn key.now started }
{
    (sip_hash(key, &[started]) % 0x1_0000_0000) as u32
}
