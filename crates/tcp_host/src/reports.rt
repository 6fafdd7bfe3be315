//! What messages of ICMP say of the connections of a host (RFC 9293 3.9.2.2).
ghost use Rattle.std.specs.Prelude.{◌≡◌, ◌<◌, length};
ghost use Rattle.tcp_host.specs.Reports as spec;
ghost use Rattle.tcp_host.specs.Table.{ends_at};

use crate::host::TcpHost;
use crate::iss::Endpoints;
use crate::slot::Slot;
use ip_address::IpAddress;
use tcp_connection::states::is_opening;
use tcp_machine::timers::Ending;

/// What a message of ICMP says of a segment.
#[derive(Clone, Copy, Debug, PartialEq, Eq)]
pub enum Report {
    /// It was too long: one may have so many octets, without the headers (RFC 1191, RFC 8201).
    TooLong(u16),
    /// It didn't reach its destination, and none will (a hard error).
    Hard,
    /// It didn't reach its destination (a soft error).
    Soft,
}

impl TcpHost {
    /// A message of ICMP that came at an instant quotes a segment that was sent between these ends, with this number. It counts only if
    /// that segment isn't acknowledged (RFC 5927 4.1). One that was too long is sent again at once, and all others are as short from
    /// then on. After a hard error a connection that is being opened ends, `Unreachable`. After either error one is told as
    /// `Unreachable` that times out, if nothing comes meanwhile (RFC 1122 4.2.3.9). Else nothing changes.
    pub fn report(&mut self, now: u64, endpoints: &Endpoints, number: u32, report: Report)
        ensures { spec.Reports now endpoints.now number report self.old self.new }
    {
        if let Some(place) = self.table.find(endpoints) {
            self.report_of(now, place, number, report);
        }
    }

    // A message quotes a segment with a number of the connection at a place.
    fn report_of(&mut self, now: u64, place: usize, number: u32, report: Report)
        requires { place < length self.old.slots }
        ensures { self.new ≡ spec.reported_of now number report place self.old }
    {
        if self.slots[place].connection.is_unacknowledged(number) {
            self.report_at(now, place, report);
        }
    }

    /// The link doesn't reach an address. Each connection that is being opened to it ends, `Unreachable`; all others stay. It looks at
    /// each place.
    pub fn lose(&mut self, now: u64, address: &IpAddress)
        ensures { self.new ≡ spec.lost now address.now (length self.old.slots) self.old }
    {
        for place in 0..self.slots.len() {
            self.lose_at(now, place, address);
        }
    }

    // The connection at a place ends, if it is being opened to an address.
    fn lose_at(&mut self, now: u64, place: usize, address: &IpAddress)
        requires { place < length self.old.slots }
        ensures { self.new ≡ spec.lost_at now address.now place self.old }
    {
        if self.is_to(place, address) && is_opening(self.slots[place].connection.state()) {
            self.report_at(now, place, Report::Hard);
        }
    }

    // Whether the connection at a place goes to an address.
    fn is_to(&self, place: usize, address: &IpAddress) -> bool
        requires { place < length self.now.slots }
        ensures { result ≡ spec.is_to address.now (ends_at self.now.ends place) }
    {
        match self.table.get(place) {
            None => false,
            Some(endpoints) => endpoints.remote_addr == *address,
        }
    }

    // A message counts for the connection at a place.
    fn report_at(&mut self, now: u64, place: usize, report: Report)
        requires { place < length self.old.slots }
        ensures { self.new ≡ spec.reported now report place self.old }
    {
        match report {
            Report::TooLong(size) => {
                self.slots[place].connection.shorten_segments(size);
                self.alarms.set(place, 0);
            }
            Report::Hard => {
                self.slots[place].reported = Some(now);
                self.slots[place].connection.end_unreachable();
                self.alarms.set(place, 0);
            }
            Report::Soft => self.slots[place].reported = Some(now),
        }
    }
}

impl Slot {
    /// Why the connection ended before both sides had closed, if it did.
    pub(crate) fn ending(&self) -> Option<Ending>
        ensures { result ≡ spec.ending_of self.now }
    {
        let ending = self.connection.ending();
        if is_timed_out(ending) && is_after(self.reported, self.connection.heard_at()) {
            Some(Ending::Unreachable)
        } else {
            ending
        }
    }
}

// Whether a connection ended since its peer didn't answer.
fn is_timed_out(ending: Option<Ending>) -> bool
    ensures { result ≡ spec.is_timed_out ending }
{
    matches!(ending, Some(Ending::TimedOut))
}

// Whether an instant, if there is one, isn't earlier than another.
fn is_after(instant: Option<u64>, heard: u64) -> bool
    ensures { result ≡ spec.is_after instant heard }
{
    match instant {
        None => false,
        Some(at) => heard <= at,
    }
}
