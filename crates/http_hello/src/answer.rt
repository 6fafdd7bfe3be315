//! Which answer a request gets.

ghost use Rattle.std.specs.Prelude.{IsNone, IsSome};
ghost use Rattle.httparse.specs.Grammar.{HasNoRequest, MayBecomeRequest};
ghost use Rattle.http_hello.specs.Answers.{IsDue};

use httparse::spans::{EMPTY_HEADER_SPAN, HeaderSpan, RequestSpans, Span, parse_request};
use httparse::{Error, Status};

/// The most fields of a request.
const FIELDS: usize = 64;

/// What a request is answered by.
#[derive(Clone, Copy, Debug, PartialEq, Eq)]
pub enum Answer {
    /// The page.
    Page,
    /// The page's header, without the page: the answer to HEAD (RFC 9110 9.3.2).
    Header,
    /// It isn't a request, or has no Host where it has to have one (RFC 9112 3.2).
    BadRequest,
    /// There is no such page.
    NotFound,
    /// It has more than 64 fields, or more octets than there is room for (RFC 6585 5).
    TooLarge,
    /// Its method is none of GET and HEAD (RFC 9110 15.6.2).
    NotImplemented,
}

impl Answer {
    /// Its octets.
    pub fn octets(self) -> &'static [u8] {
        match self {
            Answer::Page => b"HTTP/1.1 200 OK\r\nContent-Type: text/html; charset=utf-8\r\n\
                Content-Length: 28\r\nConnection: close\r\n\r\n<h1>Hello, connections!</h1>",
            Answer::Header => b"HTTP/1.1 200 OK\r\nContent-Type: text/html; charset=utf-8\r\n\
                Content-Length: 28\r\nConnection: close\r\n\r\n",
            Answer::BadRequest => {
                b"HTTP/1.1 400 Bad Request\r\nContent-Length: 0\r\nConnection: close\r\n\r\n"
            }
            Answer::NotFound => {
                b"HTTP/1.1 404 Not Found\r\nContent-Length: 0\r\nConnection: close\r\n\r\n"
            }
            Answer::TooLarge =>
                b"HTTP/1.1 431 Request Header Fields Too Large\r\nContent-Length: 0\r\n\
                Connection: close\r\n\r\n",
            Answer::NotImplemented => {
                b"HTTP/1.1 501 Not Implemented\r\nContent-Length: 0\r\nConnection: close\r\n\r\n"
            }
        }
    }
}

/// What a connection's octets are answered by. `None`, as long as no answer is due: more octets may make a request of them.
pub fn answer_to(octets: &[u8]) -> Option<Answer>
    ensures waits { IsNone result → HasNoRequest octets.now }
    ensures unfinished { IsNone result → MayBecomeRequest octets.now }
    ensures due { IsSome result → IsDue octets.now }
{
    let mut fields = [EMPTY_HEADER_SPAN; FIELDS];
    match parse_request(octets, &mut fields) {
        Ok(parsed) => match parsed {
            Status::Complete(head) => Some(answer_to_head(octets, &head, &fields)),
            Status::Partial => None,
        },
        Err(Error::TooManyHeaders) => Some(Answer::TooLarge),
        Err(_) => Some(Answer::BadRequest),
    }
}

// What a whole head is answered by.
fn answer_to_head(octets: &[u8], head: &RequestSpans, fields: &[HeaderSpan]) -> Answer {
    let fields = fields.get(..head.headers).unwrap_or(&[]);
    let hosts = count_of(octets, fields, b"Host");
    if hosts > 1 || (hosts == 0 && head.version == 1) {
        return Answer::BadRequest;
    }
    let is_page = path_of(octets_of(octets, head.path)) == b"/".as_slice();
    let method = octets_of(octets, head.method);
    if method == b"GET".as_slice() {
        if is_page {
            Answer::Page
        } else {
            Answer::NotFound
        }
    } else if method == b"HEAD".as_slice() {
        if is_page {
            Answer::Header
        } else {
            Answer::NotFound
        }
    } else {
        Answer::NotImplemented
    }
}

// How many fields have this name, in letters of either case (RFC 9110 5.1).
fn count_of(octets: &[u8], fields: &[HeaderSpan], name: &[u8]) -> usize {
    fields
        .iter()
        .filter(|field| octets_of(octets, field.name).eq_ignore_ascii_case(name))
        .count()
}

// The octets of a span.
fn octets_of(octets: &[u8], span: Span) -> &[u8] {
    octets.get(span.start..span.end).unwrap_or(&[])
}

// The path of a target, which is a path, maybe with a query, or a whole URI of http (RFC 9112 3.2.1, 3.2.2).
fn path_of(target: &[u8]) -> &[u8] {
    let local = match target.strip_prefix(b"http://") {
        None => target,
        Some(rest) => match rest.iter().position(|octet| *octet == b'/') {
            None => b"/",
            Some(begin) => rest.get(begin..).unwrap_or(&[]),
        },
    };
    match local.iter().position(|octet| *octet == b'?') {
        None => local,
        Some(end) => local.get(..end).unwrap_or(&[]),
    }
}
