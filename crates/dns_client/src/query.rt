//! One query: whom it asks, and when (RFC 1034 5.3.3, RFC 1035 4.2.1, 7.2).
ghost use Rattle.std.specs.Prelude.{◌≡◌, ◌≢◌, ◌+◌, ◌*◌, ◌-◌, ◌/◌, ◌<◌, ◌≤◌, ◌^◌, ◌%◌, min, max};
ghost use Rattle.dns_client.specs.Query as spec;

use crate::DnsType;
use ip_address::IpAddress;

/// How long a query waits for an answer, in microseconds, for each server that there is.
const PATIENCE: u128 = 10_000_000;

/// The least time between two queries of a name to one server, in microseconds.
const SILENCE: u128 = 2_000_000;

/// The most addresses of a result.
pub const MAX_ADDRESSES: usize = 4;

/// Why there are no addresses.
#[derive(Clone, Copy, Debug, PartialEq, Eq)]
pub enum DnsFailure {
    /// There is no such name (RCODE 3).
    NoSuchName,
    /// All servers failed, or refused (any other RCODE but 0), one behind the other.
    ServerFailure,
    /// The answer didn't fit in one message (TC), and what did has no address.
    Truncated,
    /// The name has no address of the type that was asked for.
    NoAddress,
    /// The name is an alias of an alias, and so on more than eight times.
    TooManyAliases,
    /// No server answered.
    TimedOut,
}

/// What has become of a query.
#[derive(Clone, Copy, Debug, PartialEq, Eq)]
pub enum DnsResult {
    /// It waits for an answer.
    Pending,
    /// The first addresses of the name, at most four, from the first place on.
    Addresses([Option<IpAddress>; 4]),
    /// The same, of an answer that didn't fit in one message (TC): the name may have others.
    TruncatedAddresses([Option<IpAddress>; 4]),
    Failed(DnsFailure),
}

/// A query of a name's addresses. Instants are in microseconds, since an origin of the caller's choice.
#[derive(Clone, Copy, Debug, PartialEq, Eq)]
pub struct DnsQuery {
    pub query_type: DnsType,
    /// The number by which the answer is known (ID).
    pub transaction_id: u16,
    /// The port that the query is sent from, and its answer goes to.
    pub source_port: u16,
    /// When it began.
    pub started_at: u64,
    /// Which of the servers is asked first.
    pub first: usize,
    /// How often all servers were asked before; 255 stands for more too.
    pub round: u8,
    /// How many of the servers were asked since.
    pub asked: usize,
    /// Whether the one that was asked last has refused.
    pub has_refused: bool,
    /// Whether those have that were asked before it.
    pub all_refused: bool,
    /// When the next one is asked.
    pub next_at: u128,
    /// When this round could begin.
    pub round_at: u128,
    /// Before this instant no other round begins.
    pub silent_until: u128,
    pub result: DnsResult,
}

impl DnsQuery {
    /// A query that begins at an instant, and asks one of the servers first. Of the random number the lower half is the
    /// query's number, and the upper half gives the port that it is sent from, one of 49,152 to 65,535 (RFC 5452 9.2, RFC
    /// 6335 6).
    pub const fn new(now: u64, query_type: DnsType, random: u32, first: usize) -> DnsQuery
        ensures { result ≡ spec.new_query now query_type random first }
    {
        DnsQuery {
            query_type,
            transaction_id: (random % 0x1_0000) as u16,
            source_port: 0xc000 + (random / 0x1_0000 % 0x4000) as u16,
            started_at: now,
            first,
            round: 0,
            asked: 0,
            has_refused: true,
            all_refused: true,
            next_at: 0,
            round_at: 0,
            silent_until: 0,
            result: DnsResult::Pending,
        }
    }

    /// Whether the query waits for an answer.
    pub const fn is_pending(&self) -> bool
        ensures { result ≡ spec.is_pending self.now }
    {
        match self.result {
            DnsResult::Pending => true,
            _ => false,
        }
    }

    /// Does what is due at an instant, in microseconds, of a query to so many servers: which server is to be asked now, from
    /// the query's port; `None` if none is. The servers are asked one behind the other, and then again: each has two seconds
    /// to answer, three when it is asked for the second time, and five from then on. A server that refuses has no more time.
    /// Ten seconds for each server after it began the query has failed.
    ///
    /// Nothing changes before [`DnsQuery::poll_at`]. A message that can't be sent counts as lost.
    pub fn next_server(&mut self, now: u64, servers: usize) -> Option<usize>
        ensures server { result ≡ spec.asked_at now servers self.old }
        ensures query { self.new ≡ spec.after_asking now servers self.old }
    {
        self.take_time(now, servers);
        if !self.is_to_send(now, servers) {
            return None;
        }
        self.take_round(servers);
        let server = server_of(servers, self.first, self.asked);
        self.note_sent(now);
        Some(server)
    }

    /// Gives up, if the time is over, or if there are no servers.
    fn take_time(&mut self, now: u64, servers: usize)
        ensures { self.new ≡ spec.after_time now servers self.old }
    {
        if self.is_pending() && self.is_over(now, servers) {
            self.result = DnsResult::Failed(DnsFailure::TimedOut);
        }
    }

    /// Whether the time of a query to so many servers is over.
    fn is_over(&self, now: u64, servers: usize) -> bool
        ensures { result ≡ spec.is_over now servers self.now }
    {
        servers == 0 || self.ends_at(servers) <= u128::from(now)
    }

    /// When the time of a query to so many servers is over.
    fn ends_at(&self, servers: usize) -> u128
        ensures { result ≡ spec.ends_at servers self.now }
    {
        u128::from(self.started_at) + servers as u128 * PATIENCE
    }

    /// Whether all servers were asked in this round.
    const fn begins_round(&self, servers: usize) -> bool
        ensures { result ≡ spec.begins_round servers self.now }
    {
        servers <= self.asked
    }

    /// Begins another round, if all servers were asked in this one.
    fn take_round(&mut self, servers: usize)
        ensures query { self.new ≡ spec.in_round servers self.old }
        ensures rest { servers ≢ 0 → self.new.asked < servers }
    {
        if self.begins_round(servers) {
            self.round = if self.round < 255 {
                self.round + 1
            } else {
                255
            };
            self.asked = 0;
            self.has_refused = true;
            self.all_refused = true;
            self.round_at = self.silent_until;
        }
    }

    /// When the next server is asked.
    fn next_due(&self, servers: usize) -> u128
        ensures { result ≡ spec.next_due servers self.now }
    {
        if self.begins_round(servers) {
            self.next_at.max(self.silent_until)
        } else {
            self.next_at
        }
    }

    /// Whether the next server is to be asked at an instant.
    fn is_to_send(&self, now: u64, servers: usize) -> bool
        ensures { result ≡ spec.is_to_send now servers self.now }
    {
        self.is_pending() && self.next_due(servers) <= u128::from(now)
    }

    /// Notes that the next server is asked.
    fn note_sent(&mut self, now: u64)
        requires { self.old.asked + 1 < 2 ^ 64 }
        ensures { self.new ≡ spec.after_sending now self.old }
    {
        let now = u128::from(now);
        self.all_refused = self.all_refused && self.has_refused;
        self.has_refused = false;
        self.asked += 1;
        self.next_at = self.round_at.max(now + delay(self.round));
        self.silent_until = self.silent_until.max(now + SILENCE);
    }

    /// Notes that the server that was asked last has refused: the next one is asked at once, or else the query has failed.
    pub(crate) fn note_refusal(&mut self, servers: usize)
        ensures { self.new ≡ spec.after_refusal servers self.old }
    {
        if self.all_refused && servers <= self.asked {
            self.result = DnsResult::Failed(DnsFailure::ServerFailure);
        } else {
            self.has_refused = true;
            self.next_at = self.round_at;
        }
    }

    /// The server that was asked last.
    pub fn asked_last(&self, servers: usize) -> usize
        ensures { result ≡ spec.asked_last servers self.now }
    {
        server_of(servers, self.first, self.asked.saturating_sub(1))
    }

    /// When [`DnsQuery::next_server`] does something, of a query to so many servers. Before that it does nothing. `None` only if
    /// the query doesn't wait for an answer.
    pub fn poll_at(&self, servers: usize) -> Option<u64>
        ensures { result ≡ spec.poll_at servers self.now }
    {
        if !self.is_pending() {
            return None;
        }
        Some(self.due_at(servers).min(0xffff_ffff_ffff_ffff) as u64)
    }

    /// When something is due: a server is asked, or the time is over.
    fn due_at(&self, servers: usize) -> u128
        ensures { result ≡ spec.due_at servers self.now }
    {
        if servers == 0 {
            return 0;
        }
        self.next_due(servers).min(self.ends_at(servers))
    }
}

/// The server at a place behind the first one, where they stand in a circle.
const fn server_of(servers: usize, first: usize, place: usize) -> usize
    ensures { result ≡ spec.server_of servers first place }
{
    let first = if first < servers { first } else { 0 };
    let rest = servers - first;
    if place < rest {
        first + place
    } else {
        place - rest
    }
}

/// How long an answer is waited for in a round, in microseconds, before another server is asked.
const fn delay(round: u8) -> u128
    ensures { result ≡ spec.delay round }
{
    match round {
        0 => 2_000_000,
        1 => 3_000_000,
        _ => 5_000_000,
    }
}
