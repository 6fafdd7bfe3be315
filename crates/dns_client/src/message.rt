//! The header, the question, and queries (RFC 1035 4.1).
ghost use Rattle.std.specs.Prelude.{◌≡◌, ◌+◌, ◌≤◌, ◌++◌, length, IsTrue};
ghost use Rattle.std.specs.Option.{SomeIff};
ghost use Rattle.dns_client.specs.Names.{is_name, end_of};
ghost use Rattle.dns_client.specs.Message as spec;

use crate::name::name_end;
use ip_wire::emit::FrameBuffer;
use ip_wire::octets::u16_at;

/// The port of servers, over UDP (RFC 1035 4.2.1).
pub const SERVER_PORT: u16 = 53;

/// The octets before a message's question.
pub const HEADER_LEN: usize = 12;

/// The most octets of a query: a header, a name of 255 octets, a type and a class.
pub const MAX_QUERY_LEN: usize = 271;

/// What is asked of a name.
#[derive(Clone, Copy, Debug, PartialEq, Eq)]
pub enum DnsType {
    /// Its IPv4 addresses (RFC 1035 3.2.2).
    A,
    /// Its IPv6 addresses (RFC 3596 2.1).
    Aaaa,
}

impl DnsType {
    /// The number of a type.
    pub const fn number(self) -> u8
        ensures { result ≡ spec.number_of self }
    {
        match self {
            DnsType::A => 1,
            DnsType::Aaaa => 28,
        }
    }
}

/// The header of a message (RFC 1035 4.1.1).
#[derive(Clone, Copy, Debug, PartialEq, Eq)]
pub struct DnsHeader {
    /// The number that whoever asks chooses, and by which the answer is known (ID).
    pub transaction_id: u16,
    /// Whether this is an answer (QR).
    pub is_response: bool,
    /// The kind of query, 0 for a standard one (OPCODE).
    pub opcode: u8,
    /// Whether the rest didn't fit (TC).
    pub is_truncated: bool,
    /// 0 for no error, 2 for a failure of the server, 3 for a name that there isn't (RCODE).
    pub response_code: u8,
    pub question_count: u16,
    pub answer_count: u16,
}

impl DnsHeader {
    /// The header of a message. `None` exactly if there are fewer than 12 octets.
    pub fn parse(octets: &[u8]) -> Option<DnsHeader>
        ensures { SomeIff result (12 ≤ length octets.now) (spec.header_in octets.now) }
    {
        if octets.len() < HEADER_LEN {
            return None;
        }
        Some(DnsHeader {
            transaction_id: u16_at(octets, 0),
            is_response: octets[2] >= 128,
            opcode: octets[2] / 8 % 16,
            is_truncated: octets[2] / 2 % 2 == 1,
            response_code: octets[3] % 16,
            question_count: u16_at(octets, 4),
            answer_count: u16_at(octets, 6),
        })
    }
}

/// A question of a message (RFC 1035 4.1.2).
#[derive(Clone, Copy, Debug, PartialEq, Eq)]
pub struct DnsQuestion {
    pub question_type: u16,
    /// 1 for the Internet.
    pub class: u16,
    /// Where the records begin, if it is the last question.
    pub end: usize,
}

impl DnsQuestion {
    /// The question at an offset of a message, whose name stands there too. `None` exactly if no name stands there, or the
    /// type and the class run out of the message.
    pub fn parse(octets: &[u8], at: usize) -> Option<DnsQuestion>
        ensures { SomeIff result (IsTrue (spec.is_question octets.now at)) (spec.question_in octets.now at) }
    {
        let fields = name_end(octets, at)?;
        if octets.len() < 4 || fields > octets.len() - 4 {
            return None;
        }
        Some(DnsQuestion {
            question_type: u16_at(octets, fields),
            class: u16_at(octets, fields + 2),
            end: fields + 4,
        })
    }
}

/// Whether the octets are one name, by its labels alone: as www.example.com is written with a length before each label,
/// and 0 at the end.
pub fn is_whole_name(octets: &[u8]) -> bool
    ensures { result ≡ spec.is_whole_name octets.now }
{
    match name_end(octets, 0) {
        None => false,
        Some(end) => end == octets.len(),
    }
}

/// Appends a query of a name's records, with the number by which the answer is known. The name is written by its labels
/// alone. The server is to ask others in turn (RD).
#[tactic(auto, unfolding(crate::specs::Message::header_text))]
pub fn emit_query(transaction_id: u16, name: &[u8], query_type: DnsType, out: &mut FrameBuffer)
    requires room { length out.old + 16 + length name.now ≤ 1514 }
    ensures items { out.new ≡ out.old ++ spec.query_text transaction_id name.now query_type }
    ensures len { length out.new ≡ length out.old + 16 + length name.now }
{
    let [high, low] = transaction_id.to_be_bytes();
    out.append(&[high, low, 1, 0, 0, 1, 0, 0, 0, 0, 0, 0]);
    out.append(name);
    out.append(&[0, query_type.number(), 0, 1]);
}

/// A query that is emitted is parsed back as its values: the number, the name, the type, and nothing else.
pub fn read_again()
    ensures { spec.ReadAgain }
{}
