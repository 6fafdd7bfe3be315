//! What a query makes of the messages that come (RFC 1035 7.3, RFC 5452 3, 9.1).
ghost use Rattle.std.specs.Prelude.{◌≡◌, ◌+◌, ◌≤◌, ◌&&◌, ◌==◌, nat_le, length, IsTrue};
ghost use Rattle.dns_client.specs.Answers as spec;
ghost use Rattle.dns_client.specs.Message.{is_question};

use crate::found::found_in;
use crate::message::{HEADER_LEN, SERVER_PORT};
use crate::name::is_same_name;
use crate::query::{DnsFailure, DnsQuery, DnsResult};
use crate::{DnsHeader, DnsQuestion};
use ip_address::IpAddress;

impl DnsQuery {
    /// Receives a message of a name's query to some servers: from where it came, to which port, and its octets.
    ///
    /// It counts only if it comes from the server that was asked last, from port 53 to the port that asked, with the query's
    /// number and its question (RFC 5452 9.1), and if its records are whole; otherwise nothing changes. Then the query has
    /// its result: the first four addresses of the name, or of what it is an alias for, or the error. A server that fails, with
    /// the question or without any, has refused: then the next one is asked at once (RFC 1034 5.3.3).
    pub fn receive(
        &mut self,
        name: &[u8],
        servers: &[IpAddress],
        from: IpAddress,
        from_port: u16,
        to_port: u16,
        octets: &[u8],
    )
        ensures { self.new ≡ spec.after_receiving name.now servers.now from from_port to_port octets.now self.old }
    {
        if self.is_by_asked(servers, from, from_port, to_port) {
            self.take_answer(name, servers.len(), octets);
        }
    }

    /// Learns that a server can't be reached, as by an error of ICMP, or since its neighbour is absent. If it was asked last, the
    /// next one is asked at once, as where it refuses (RFC 1034 5.3.3); otherwise nothing changes.
    pub fn server_failed(&mut self, servers: &[IpAddress], server: IpAddress)
        ensures { self.new ≡ spec.after_failure servers.now server self.old }
    {
        let count = servers.len();
        if self.is_pending()
            && self.asked > 0
            && is_server(servers, self.asked_last(count), server)
        {
            self.note_refusal(count);
        }
    }

    /// Takes a message of the server that was asked last, one of so many.
    fn take_answer(&mut self, name: &[u8], servers: usize, octets: &[u8])
        ensures { self.new ≡ spec.after_answer name.now servers octets.now self.old }
    {
        let Some(header) = DnsHeader::parse(octets) else {
            return;
        };
        if self.is_refusal(name, octets) {
            self.note_refusal(servers);
        } else if self.is_answer(name, octets) && !fails(&header) {
            self.take_result(octets);
        }
    }

    /// Takes the result of an answer, if its records are whole.
    fn take_result(&mut self, octets: &[u8])
        requires header { 12 ≤ length octets.now }
        requires question { IsTrue (is_question octets.now 12) }
        ensures { self.new ≡ spec.with_result (spec.result_in octets.now self.old) self.old }
    {
        if let Some(result) = self.result_in(octets) {
            self.result = result;
        }
    }

    /// Whether a message is from the server that was asked last, to the port that asked.
    fn is_by_asked(
        &self,
        servers: &[IpAddress],
        from: IpAddress,
        from_port: u16,
        to_port: u16,
    ) -> bool
        ensures { result ≡ spec.is_by_asked servers.now from from_port to_port self.now }
    {
        self.is_pending()
            && self.asked > 0
            && from_port == SERVER_PORT
            && to_port == self.source_port
            && is_server(servers, self.asked_last(servers.len()), from)
    }

    /// Whether a message has the query's number and its question.
    fn is_answer(&self, name: &[u8], octets: &[u8]) -> bool
        ensures { result ≡ spec.is_answer name.now octets.now self.now }
    {
        let Some(header) = DnsHeader::parse(octets) else {
            return false;
        };
        self.responds(&header) && self.has_question(name, octets)
    }

    /// Whether by a message the server refuses the query.
    fn is_refusal(&self, name: &[u8], octets: &[u8]) -> bool
        ensures { result ≡ spec.is_refusal name.now octets.now self.now }
    {
        let Some(header) = DnsHeader::parse(octets) else {
            return false;
        };
        self.responds(&header)
            && fails(&header)
            && (header.question_count == 0 || self.has_question(name, octets))
    }

    /// Whether a header responds to a standard query of the query's number.
    const fn responds(&self, header: &DnsHeader) -> bool
        ensures { result ≡ spec.responds header.now self.now }
    {
        header.transaction_id == self.transaction_id && header.is_response && header.opcode == 0
    }

    /// Whether a message has the query's question, and no other.
    fn has_question(&self, name: &[u8], octets: &[u8]) -> bool
        requires { 12 ≤ length octets.now }
        ensures { result ≡ spec.has_question name.now octets.now self.now }
    {
        let Some(header) = DnsHeader::parse(octets) else {
            return false;
        };
        let Some(question) = DnsQuestion::parse(octets, HEADER_LEN) else {
            return false;
        };
        header.question_count == 1
            && is_same_name(octets, HEADER_LEN, name, 0)
            && question.question_type == u16::from(self.query_type.number())
            && question.class == 1
    }

    /// What an answer says. `None` if its records aren't whole.
    fn result_in(&self, octets: &[u8]) -> Option<DnsResult>
        requires header { 12 ≤ length octets.now }
        requires question { IsTrue (is_question octets.now 12) }
        ensures { result ≡ spec.result_in octets.now self.now }
    {
        let header = DnsHeader::parse(octets)?;
        let question = DnsQuestion::parse(octets, HEADER_LEN)?;
        if header.response_code == 3 {
            return Some(DnsResult::Failed(DnsFailure::NoSuchName));
        }
        let found = found_in(
            octets,
            HEADER_LEN,
            question.end,
            header.answer_count,
            self.query_type,
        );
        if header.is_truncated {
            Some(truncated(&found))
        } else {
            found
        }
    }
}

/// Whether a server failed by a header: its RCODE is none of 0, no error, and 3, no such name.
const fn fails(header: &DnsHeader) -> bool
    ensures { result ≡ spec.fails header.now }
{
    header.response_code != 0 && header.response_code != 3
}

/// What was found in an answer that was cut: its addresses, or none.
const fn truncated(found: &Option<DnsResult>) -> DnsResult
    ensures { result ≡ spec.truncated found.now }
{
    match found {
        Some(DnsResult::Addresses(list)) => DnsResult::TruncatedAddresses(*list),
        _ => DnsResult::Failed(DnsFailure::Truncated),
    }
}

/// Whether an address is that of a server.
fn is_server(servers: &[IpAddress], index: usize, from: IpAddress) -> bool
    ensures { result ≡ spec.is_server servers.now index from }
{
    index < servers.len() && is_same(servers[index], from)
}

/// Whether two addresses are the same.
const fn is_same(address: IpAddress, other: IpAddress) -> bool
    ensures { result ≡ spec.is_same address other }
{
    match (address, other) {
        (IpAddress::Ipv4(address), IpAddress::Ipv4(other)) => address.bits == other.bits,
        (IpAddress::Ipv6(address), IpAddress::Ipv6(other)) => address.bits == other.bits,
        _ => false,
    }
}
