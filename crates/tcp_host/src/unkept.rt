//! SYNs of which nothing is kept, and connections that begin by a cookie (RFC 4987 3.6).
ghost use Rattle.std.specs.Prelude.{◌≡◌, ◌<◌, ◌^◌, min, length, Some, false, IfSome, IsNone};
ghost use Rattle.tcp_connection.specs.Actions.{header_of};
ghost use Rattle.tcp_machine.specs.Outgoing.{syn_segment};
ghost use Rattle.tcp_host.specs.Arrivals as spec;
ghost use Rattle.tcp_host.specs.Examples.Cookies.{Flooded, NotAnswered};
ghost use Rattle.tcp_host.specs.Host.{IsNextPlace};
ghost use Rattle.tcp_host.specs.Table.{IsNowhere};

use crate::cookies::{cookie, size_in};
use crate::host::{TcpHost, default_mss};
use crate::iss::Endpoints;
use crate::resets::SynAck;
use tcp_connection::outgoing::Header;
use tcp_connection::segment::Segment;

impl TcpHost {
    /// The free place of one more half-open connection of a listener: none, if as many are half-open as may be.
    pub(crate) fn own_place(&self, index: usize) -> Option<usize>
        requires { index < length self.now.listeners }
        ensures some { IfSome result (λ place. IsNextPlace self.now (Some place)) }
        ensures within { IfSome result (λ place. place < length self.now.slots) }
        ensures few { IfSome result (λ _. spec.is_full index self.now ≡ false) }
        ensures none { IsNone result → spec.IsCrowded index self.now }
    {
        if self.is_full(index) {
            None
        } else {
            self.next_place()
        }
    }

    // Whether as many connections of a listener are half-open as may be.
    fn is_full(&self, index: usize) -> bool
        requires { index < length self.now.listeners }
        ensures { result ≡ spec.is_full index self.now }
    {
        self.listeners[index].is_full()
    }

    /// The SYN-ACK that answers a SYN of which nothing is kept.
    pub(crate) fn syn_ack(&self, now: u64, endpoints: &Endpoints, segment: &Segment) -> SynAck
        ensures { result ≡ spec.syn_ack now endpoints.now segment.now self.now }
    {
        let mss = told_mss(endpoints, segment);
        SynAck {
            header: Header {
                number: cookie(&self.config.table_key, endpoints, segment.number, now, mss),
                ack: Some(segment.number.wrapping_add(1)),
                window: window_for(self.config.receive_room),
                syn: true,
                fin: false,
                rst: false,
            },
            mss: self.link_mss(&endpoints.remote_addr),
        }
    }

    /// The MSS that a segment tells by the cookie that it acknowledges. None, exactly if it acknowledges none of the last two minutes.
    pub(crate) fn mss_in(&self, now: u64, endpoints: &Endpoints, segment: &Segment) -> Option<u16>
        ensures { result ≡ spec.mss_in now endpoints.now segment.now self.now }
    {
        match segment.ack {
            None => None,
            Some(_) if segment.syn || segment.rst => None,
            Some(number) => size_in(
                &self.config.table_key,
                endpoints,
                before(segment.number),
                now,
                before(number),
            ),
        }
    }

    /// An acknowledgement of a cookie begins a connection of a listener, if it has a place.
    pub(crate) fn resume(
        &mut self,
        number: u32,
        mss: u16,
        index: usize,
        now: u64,
        endpoints: &Endpoints,
        segment: &Segment,
        octets: &[u8],
    )
        requires few { length octets.now < 2 ^ 32 }
        requires within { index < length self.old.listeners }
        requires new { IsNowhere endpoints.now self.old.ends }
        ensures { spec.Resumes number mss index now endpoints.now segment.now octets.now self.old self.new }
    {
        if !self.has_room(index) {
            return;
        }
        if let Some(place) = self.make_place() {
            self.resume_at(number, place, index, now, endpoints, segment, mss);
            self.deliver(place, now, endpoints, segment, octets);
        }
    }

    // The connection at a place, before the acknowledgement arrives there.
    fn resume_at(
        &mut self,
        number: u32,
        place: usize,
        index: usize,
        now: u64,
        endpoints: &Endpoints,
        segment: &Segment,
        mss: u16,
    )
        requires within { index < length self.old.listeners }
        requires place { place < length self.old.slots }
        requires new { IsNowhere endpoints.now self.old.ends }
        ensures value { self.new ≡ spec.resumed_at number place index now endpoints.now segment.now mss self.old }
        ensures slots { length self.new.slots ≡ length self.old.slots }
    {
        self.count(place, index);
        let syn = told_syn(segment, mss);
        self.accept_with(number, place, index, now, endpoints, &syn);
        self.answer(place, now);
    }

    // What the connection at a place sends now was sent.
    fn answer(&mut self, place: usize, now: u64)
        requires { place < length self.old.slots }
        ensures value { self.new ≡ spec.answered_at place now self.old }
        ensures slots { length self.new.slots ≡ length self.old.slots }
    {
        self.slots[place].leave(now);
    }
}

/// The number before another one.
pub(crate) fn before(number: u32) -> u32
    ensures { result ≡ spec.before number }
{
    number.wrapping_sub(1)
}

// The MSS of a peer by its SYN.
fn told_mss(endpoints: &Endpoints, segment: &Segment) -> u16
    ensures { result ≡ spec.told_mss endpoints.now segment.now }
{
    match segment.mss {
        None => default_mss(&endpoints.remote_addr),
        Some(mss) => mss,
    }
}

// The window of a SYN, which isn't scaled, with room for so many octets.
fn window_for(room: usize) -> u16
    ensures { result ≡ min 65535 room }
{
    if room < 65_535 { room as u16 } else { 65_535 }
}

// The SYN that a cookie answered, as far as its acknowledgement tells it.
fn told_syn(segment: &Segment, mss: u16) -> Segment
    ensures { result ≡ spec.told_syn segment.now mss }
{
    Segment {
        number: before(segment.number),
        ack: None,
        window: segment.window,
        syn: true,
        fin: false,
        rst: false,
        mss: Some(mss),
        scale: None,
        sack_permitted: false,
        blocks: [None; 4],
    }
}

/// Worked examples of SYNs in a flood, of which nothing is kept, and of segments that tell none.
pub fn cookies_in_a_flood()
    ensures flooded { Flooded }
    ensures none { NotAnswered }
{}
