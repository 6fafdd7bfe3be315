//! Places for connections that begin: half-open ones hold only what nobody else needs (RFC 4987 3.2).
ghost use Rattle.std.specs.Prelude.{◌≡◌, ◌+◌, ◌<◌, length, None, IfSome, IsNone, true, false};
ghost use Rattle.tcp_host.specs.Arrivals as spec;
ghost use Rattle.tcp_host.specs.Host.{IsNextPlace, vacated};
ghost use Rattle.tcp_host.specs.Table.{IsNowhere};
ghost use Rattle.tcp_host.specs.declared.iss.Endpoints.{Endpoints};

use crate::host::TcpHost;

impl TcpHost {
    /// Makes a place free for a connection that begins, and returns it: a free one; or that of the connection whose TIME-WAIT ends
    /// first, of those of which the program let go; or that of the oldest half-open connection, of a listener that has the most
    /// of them. None, and nothing changes, exactly if there is none of these.
    pub(crate) fn make_place(&mut self) -> Option<usize>
        ensures found { IfSome result (λ place. spec.FindsPlace self.old place self.new) }
        ensures none { IsNone result → spec.HasNoPlace self.old }
        ensures unchanged { IsNone result → self.new ≡ self.old }
        ensures within { IfSome result (λ place. place < length self.new.slots) }
        ensures listeners { length self.new.listeners ≡ length self.old.listeners }
        ensures nowhere { (e : Endpoints) → IsNowhere e self.old.ends → IsNowhere e self.new.ends }
    {
        match self.next_place() {
            Some(place) => Some(place),
            None => self.take_half_open(),
        }
    }

    /// Whether a place may be had: one is free, or a half-open connection holds one.
    pub(crate) fn may_have_place(&self) -> bool
        ensures has { result ≡ true → spec.MayHavePlace self.now }
        ensures none { result ≡ false → spec.HasNoPlace self.now }
    {
        match self.next_place() {
            Some(_place) => true,
            None => match self.fullest() {
                Some(_index) => true,
                None => false,
            },
        }
    }

    // A half-open connection gives its place, where none is free.
    fn take_half_open(&mut self) -> Option<usize>
        requires { IsNextPlace self.old None }
        ensures found { IfSome result (λ place. spec.FindsPlace self.old place self.new) }
        ensures none { IsNone result → spec.HasNoHalfOpen (length self.old.listeners) self.old }
        ensures unchanged { IsNone result → self.new ≡ self.old }
        ensures within { IfSome result (λ place. place < length self.new.slots) }
        ensures listeners { length self.new.listeners ≡ length self.old.listeners }
        ensures nowhere { (e : Endpoints) → IsNowhere e self.old.ends → IsNowhere e self.new.ends }
    {
        let index = self.fullest()?;
        let place = self.oldest_in(index)?;
        self.make_room(place, index);
        Some(place)
    }

    // A listener that has the most half-open connections.
    fn fullest(&self) -> Option<usize>
        ensures { spec.IsFullest (length self.now.listeners) self.now result }
    {
        let mut fullest = None;
        for index in 0..self.listeners.len() {
            fullest = self.fuller(fullest, index);
        }
        fullest
    }

    // The one that has the most of the listeners before one, or that one, if it has more.
    fn fuller(&self, fullest: Option<usize>, index: usize) -> Option<usize>
        requires within { index < length self.now.listeners }
        requires so_far { spec.IsFullest index self.now fullest }
        ensures { spec.IsFullest (index + 1) self.now result }
    {
        if self.oldest_in(index).is_none() {
            return fullest;
        }
        match fullest {
            None => Some(index),
            Some(other) => {
                if self.half_open_in(other) < self.half_open_in(index) {
                    Some(index)
                } else {
                    Some(other)
                }
            }
        }
    }

    // How many half-open connections a listener has.
    fn half_open_in(&self, index: usize) -> usize
        requires { index < length self.now.listeners }
        ensures { result ≡ spec.half_open_count index self.now }
    {
        self.listeners[index].half_open_count()
    }

    // The place of the oldest half-open connection of a listener.
    fn oldest_in(&self, index: usize) -> Option<usize>
        requires { index < length self.now.listeners }
        ensures value { result ≡ spec.oldest_in index self.now }
        ensures within { IfSome result (λ place. place < length self.now.slots) }
    {
        let oldest = self.listeners[index].oldest();
        match oldest {
            Some(place) if place < self.slots.len() => Some(place),
            _ => None,
        }
    }

    // The oldest half-open connection of a listener gives its place.
    fn make_room(&mut self, place: usize, index: usize)
        requires within { index < length self.old.listeners }
        requires place { place < length self.old.slots }
        ensures value { self.new ≡ vacated place (spec.without_oldest index self.old) }
        ensures nowhere { (e : Endpoints) → IsNowhere e self.old.ends → IsNowhere e self.new.ends }
    {
        self.listeners[index].evict();
        self.vacate(place);
    }
}
