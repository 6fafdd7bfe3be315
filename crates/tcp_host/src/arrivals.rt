//! A segment arrives at a host (RFC 9293 3.10.7).
ghost use Rattle.std.specs.Prelude.{◌≡◌, ◌≤◌, ◌<◌, ◌^◌, ℕ, length, Some, None, IfSome, IsNone, true};
ghost use Rattle.tcp_host.specs.Arrivals as spec;
ghost use Rattle.tcp_host.specs.Resets.{reset_for};
ghost use Rattle.tcp_host.specs.Host.{connection_at, is_let_go, listener_at, slot_at, vacated};
ghost use Rattle.tcp_host.specs.Iss as numbers;
ghost use Rattle.tcp_host.specs.Renewal.{is_renewed_by};
ghost use Rattle.tcp_host.specs.Listener as listener;
ghost use Rattle.tcp_host.specs.Table.{AreDistinct, IsNowhere, IsPlaceOf};
ghost use Rattle.tcp_host.specs.declared.iss.Endpoints.{Endpoints};

use crate::host::{TcpHost, default_mss};
use crate::iss::{Endpoints, iss};
use crate::renewal::is_renewed_by;
use crate::resets::{Reply, begins, reset_for};
use crate::slot::{Owner, is_let_go};
use crate::unkept::before;
use tcp_connection::segment::Segment;

impl TcpHost {
    /// A segment between these ends arrives, the remote one being where it came from (RFC 9293 3.10.7). It goes to the
    /// connection with these ends. Without one, a SYN for a listener begins one. Otherwise a reset is owed, which is returned,
    /// unless the segment is a reset, or too many resets were sent. All other connections stay.
    ///
    /// A SYN that finds no free place, or as many connections of its listener half-open as may be, is answered by the SYN-ACK
    /// that is returned, and nothing is kept of it (RFC 4987 3.6). Its number is a cookie. Who acknowledges it within two minutes
    /// has a connection: at a free place, or at that of the oldest half-open one, which is gone. Where there is neither, the
    /// acknowledgement is left, and so is a SYN.
    ///
    /// A connection in TIME-WAIT of which the program let go gives its place to one that a SYN between the same ends begins, if
    /// the numbers of both sides are larger than all that were used (RFC 9293 3.6.1). Where no place is free, the one whose
    /// TIME-WAIT ends first gives its place to any SYN that a listener takes.
    pub fn receive_segment(
        &mut self,
        now: u64,
        endpoints: &Endpoints,
        segment: &Segment,
        octets: &[u8],
    ) -> Option<Reply>
        requires { length octets.now < 2 ^ 32 }
        ensures { spec.Receives now endpoints.now segment.now octets.now self.old result self.new }
    {
        match self.table.find_beginning_at(self.recent, endpoints) {
            Some(place) => {
                self.recent = place;
                self.receive_at(place, now, endpoints, segment, octets);
                None
            }
            None if is_proper(endpoints) => self.receive_new(now, endpoints, segment, octets),
            None => None,
        }
    }

    // A segment arrives between the ends of the connection at a place.
    fn receive_at(
        &mut self,
        place: usize,
        now: u64,
        endpoints: &Endpoints,
        segment: &Segment,
        octets: &[u8],
    )
        requires within { place < length self.old.slots }
        requires few { length octets.now < 2 ^ 32 }
        requires at { IsPlaceOf endpoints.now self.old.ends place }
        requires distinct { AreDistinct self.old.ends }
        ensures { spec.Receives now endpoints.now segment.now octets.now self.old None self.new }
    {
        match self.reopening(place, now, endpoints, segment) {
            Some(index) => self.reopen(place, index, now, endpoints, segment),
            None => self.deliver(place, now, endpoints, segment, octets),
        }
    }

    // The index of the listener for which a segment reopens the connection at a place.
    fn reopening(
        &self,
        place: usize,
        now: u64,
        endpoints: &Endpoints,
        segment: &Segment,
    ) -> Option<usize>
        requires { place < length self.now.slots }
        ensures some { IfSome result (spec.Reopens now endpoints.now segment.now place self.now) }
        ensures none { IsNone result → spec.IsKept now endpoints.now segment.now place self.now }
    {
        if !self.is_renewed(place, now, endpoints, segment) {
            return None;
        }
        match self.listener_for(endpoints) {
            None => None,
            Some(index) => {
                if self.has_room(index) {
                    Some(index)
                } else {
                    None
                }
            }
        }
    }

    // Whether a segment is a SYN whose connection may follow the one at a place, of which the program let go.
    fn is_renewed(&self, place: usize, now: u64, endpoints: &Endpoints, segment: &Segment) -> bool
        requires { place < length self.now.slots }
        ensures { result ≡ spec.is_renewed now endpoints.now segment.now place self.now }
    {
        begins(segment)
            && self.is_let_go(place)
            && self.is_renewed_by(place, segment.number, self.number_for(now, endpoints))
    }

    // Whether the program let go of the connection at a place.
    fn is_let_go(&self, place: usize) -> bool
        requires { place < length self.now.slots }
        ensures { result ≡ is_let_go (slot_at place self.now).owner }
    {
        is_let_go(self.slots[place].owner)
    }

    // Whether a connection with these initial numbers may follow the one at a place.
    fn is_renewed_by(&self, place: usize, peers: u32, own: u32) -> bool
        requires { place < length self.now.slots }
        ensures { result ≡ is_renewed_by peers own (connection_at place self.now) }
    {
        is_renewed_by(&self.slots[place].connection, peers, own)
    }

    // The own initial number of a connection that begins now.
    fn number_for(&self, now: u64, endpoints: &Endpoints) -> u32
        ensures { result ≡ numbers.iss self.now.config.number_key endpoints.now now }
    {
        iss(&self.config.number_key, now, endpoints)
    }

    // A SYN begins a connection of a listener in the place of one with the same ends.
    fn reopen(
        &mut self,
        place: usize,
        index: usize,
        now: u64,
        endpoints: &Endpoints,
        segment: &Segment,
    )
        requires within { index < length self.old.listeners }
        requires place { place < length self.old.slots }
        requires at { IsPlaceOf endpoints.now self.old.ends place }
        requires distinct { AreDistinct self.old.ends }
        ensures { self.new ≡ spec.accepted_at place index now endpoints.now segment.now (spec.counted place index (vacated place self.old)) }
    {
        self.vacate(place);
        self.begin_at(place, index, now, endpoints, segment);
    }

    // A segment arrives that belongs to no connection.
    fn receive_new(
        &mut self,
        now: u64,
        endpoints: &Endpoints,
        segment: &Segment,
        octets: &[u8],
    ) -> Option<Reply>
        requires few { length octets.now < 2 ^ 32 }
        requires new { IsNowhere endpoints.now self.old.ends }
        requires proper { spec.is_proper endpoints.now ≡ true }
        ensures { spec.Receives now endpoints.now segment.now octets.now self.old result self.new }
    {
        match self.listener_for(endpoints) {
            None => self.refuse(now, segment, octets.len()),
            Some(index) => match segment.ack {
                Some(number) => {
                    self.receive_answer(number, index, now, endpoints, segment, octets)
                }
                None if begins(segment) => self.begin(index, now, endpoints, segment),
                None => None,
            },
        }
    }

    // An acknowledgement arrives for a listener, and belongs to no connection.
    fn receive_answer(
        &mut self,
        number: u32,
        index: usize,
        now: u64,
        endpoints: &Endpoints,
        segment: &Segment,
        octets: &[u8],
    ) -> Option<Reply>
        requires few { length octets.now < 2 ^ 32 }
        requires new { IsNowhere endpoints.now self.old.ends }
        requires proper { spec.is_proper endpoints.now ≡ true }
        requires listener { spec.IsListenerFor endpoints.now self.old index }
        requires ack { segment.now.ack ≡ Some number }
        ensures { spec.Receives now endpoints.now segment.now octets.now self.old result self.new }
    {
        match self.mss_in(now, endpoints, segment) {
            None => self.refuse(now, segment, octets.len()),
            Some(mss) => {
                self.resume(before(number), mss, index, now, endpoints, segment, octets);
                None
            }
        }
    }

    // The index of the first listener for a local end.
    fn listener_for(&self, endpoints: &Endpoints) -> Option<usize>
        ensures some { IfSome result (spec.IsListenerFor endpoints.now self.now) }
        ensures none { IsNone result → spec.HasNoListener endpoints.now self.now }
    {
        for index in 0..self.listeners.len() {
            if self.listeners[index].listens_at(&endpoints.local_addr, endpoints.local_port) {
                return Some(index);
            }
        }
        None
    }

    // A SYN begins a connection of a listener, or is answered by a cookie.
    fn begin(
        &mut self,
        index: usize,
        now: u64,
        endpoints: &Endpoints,
        segment: &Segment,
    ) -> Option<Reply>
        requires within { index < length self.old.listeners }
        requires new { IsNowhere endpoints.now self.old.ends }
        ensures { spec.Begins index now endpoints.now segment.now self.old result self.new }
    {
        if !self.has_room(index) {
            return None;
        }
        match self.own_place(index) {
            Some(place) => {
                self.begin_at(place, index, now, endpoints, segment);
                None
            }
            None if self.may_have_place() => {
                Some(Reply::Cookie(self.syn_ack(now, endpoints, segment)))
            }
            None => None,
        }
    }

    // Whether a listener takes a SYN.
    pub(crate) fn has_room(&self, index: usize) -> bool
        requires { index < length self.now.listeners }
        ensures { result ≡ listener.has_room (listener_at index self.now) }
    {
        self.listeners[index].has_room()
    }

    // A connection of a listener begins at a free place.
    fn begin_at(
        &mut self,
        place: usize,
        index: usize,
        now: u64,
        endpoints: &Endpoints,
        segment: &Segment,
    )
        requires within { index < length self.old.listeners }
        requires place { place < length self.old.slots }
        requires new { IsNowhere endpoints.now self.old.ends }
        ensures { self.new ≡ spec.accepted_at place index now endpoints.now segment.now (spec.counted place index self.old) }
    {
        self.count(place, index);
        let number = self.number_for(now, endpoints);
        self.accept_with(number, place, index, now, endpoints, segment);
    }

    /// A place counts as half-open. If that is one too many, the oldest one's connection is gone.
    pub(crate) fn count(&mut self, place: usize, index: usize)
        requires { index < length self.old.listeners }
        ensures value { self.new ≡ spec.counted place index self.old }
        ensures slots { length self.new.slots ≡ length self.old.slots }
        ensures nowhere { (e : Endpoints) → IsNowhere e self.old.ends → IsNowhere e self.new.ends }
    {
        let oldest = self.listeners[index].begin(place);
        self.vacate_if(oldest);
    }

    // A place is none of a listener's any more.
    fn vacate_if(&mut self, place: Option<usize>)
        ensures value { self.new ≡ spec.vacated_if place self.old }
        ensures slots { length self.new.slots ≡ length self.old.slots }
        ensures nowhere { (e : Endpoints) → IsNowhere e self.old.ends → IsNowhere e self.new.ends }
    {
        if let Some(place) = place {
            if place < self.slots.len() {
                self.vacate(place);
            }
        }
    }

    /// The connection that a SYN begins at a place, with an own initial number.
    pub(crate) fn accept_with(
        &mut self,
        number: u32,
        place: usize,
        index: usize,
        now: u64,
        endpoints: &Endpoints,
        segment: &Segment,
    )
        requires within { place < length self.old.slots }
        requires new { IsNowhere endpoints.now self.old.ends }
        ensures { self.new ≡ spec.accepted_with number place index now endpoints.now segment.now self.old }
    {
        let default = default_mss(&endpoints.remote_addr);
        let link = self.link_mss(&endpoints.remote_addr);
        let settings = self.accepted_settings_for(&endpoints.remote_addr);
        self.slots[place].accept(
            Owner::HalfOpen(index),
            now,
            number,
            default,
            link,
            &settings,
            segment,
        );
        self.enroll(place, endpoints);
    }

    /// A segment goes to the connection at a place.
    pub(crate) fn deliver(
        &mut self,
        place: usize,
        now: u64,
        endpoints: &Endpoints,
        segment: &Segment,
        octets: &[u8],
    )
        requires within { place < length self.old.slots }
        requires few { length octets.now < 2 ^ 32 }
        ensures { spec.Delivers place now endpoints.now segment.now octets.now self.old self.new }
    {
        let default = default_mss(&endpoints.remote_addr);
        let link = self.link_mss(&endpoints.remote_addr);
        let before = self.seen_at(place);
        self.slots[place]
            .connection
            .receive(now, default, link, segment, octets);
        self.alarms.set(place, 0);
        self.note(place, now, before);
    }

    /// Nobody wants a segment with so many octets: a reset is owed (RFC 9293 3.10.7.1), unless too many were sent.
    pub(crate) fn refuse(&mut self, now: u64, segment: &Segment, len: usize) -> Option<Reply>
        requires { len < 2 ^ 32 }
        ensures { (result, self.new) ≡ spec.refused now (reset_for segment.now len) self.old }
    {
        let reset = reset_for(segment, len);
        match reset {
            None => None,
            Some(reset) => {
                if self.resets.take(now) {
                    Some(Reply::Reset(reset))
                } else {
                    None
                }
            }
        }
    }
}

/// Whether both ends are one host's: neither a group's, nor broadcast or unspecified.
pub(crate) fn is_proper(endpoints: &Endpoints) -> bool
    ensures { result ≡ spec.is_proper endpoints.now }
{
    endpoints.local_addr.is_unicast() && endpoints.remote_addr.is_unicast()
}
