//! Names in messages, which are read where they stand (RFC 1035 3.1, 4.1.4).
ghost use Rattle.std.specs.Prelude.{◌≡◌, ◌+◌, ◌-◌, ◌<◌, ◌≤◌, ◌&&◌, ◌==◌, true, false, nat_lt, length, slice_index, IsTrue};
ghost use Rattle.std.specs.Option.{SomeIff};
ghost use Rattle.dns_client.specs.Names as spec;

/// The most octets of a name, with the lengths of its labels and its end (RFC 1035 2.3.4).
pub const MAX_NAME_LEN: usize = 255;

/// The most labels and pointers that a name is made of.
const MAX_STEPS: usize = 255;

/// A place in a name that is being read.
#[derive(Clone, Copy, Debug, PartialEq, Eq)]
pub struct Place {
    /// Where the name began, or where the last pointer went. Pointers go to before it.
    pub start: usize,
    /// Where the next label or pointer stands.
    pub at: usize,
    /// How many octets the rest of the name may have.
    pub room: usize,
    /// Of how many labels and pointers it may be made.
    pub steps: usize,
}

impl Place {
    /// The beginning of the name at an offset.
    #[inline(always)]
    const fn begin(at: usize) -> Place
        ensures { result ≡ record { start = at; at = at; room = 255; steps = 255 } }
    {
        Place {
            start: at,
            at,
            room: MAX_NAME_LEN,
            steps: MAX_STEPS,
        }
    }

    /// Whether the name ends here.
    #[inline(always)]
    fn has_end(&self, octets: &[u8]) -> bool
        ensures { result ≡ spec.has_end octets.now self.now }
    {
        self.steps > 0 && self.at < octets.len() && octets[self.at] == 0
    }

    /// Whether a label stands here.
    #[inline(always)]
    fn has_label(&self, octets: &[u8]) -> bool
        ensures { result ≡ spec.has_label octets.now self.now }
    {
        if self.steps == 0 || self.at >= octets.len() {
            return false;
        }
        let len = usize::from(octets[self.at]);
        len != 0 && len < 64 && len < octets.len() - self.at && len + 1 < self.room
    }

    /// Whether a pointer stands here.
    #[inline(always)]
    fn has_pointer(&self, octets: &[u8]) -> bool
        ensures { result ≡ spec.has_pointer octets.now self.now }
    {
        if self.steps == 0 || octets.len() < 2 || self.at > octets.len() - 2 {
            return false;
        }
        let first = octets[self.at];
        first >= 192
            && usize::from(first - 192) * 256 + usize::from(octets[self.at + 1]) < self.start
    }

    /// The octets of the label that stands here.
    #[inline(always)]
    fn label<'a>(&self, octets: &'a [u8]) -> &'a [u8]
        requires { IsTrue (spec.has_label octets.now self.now) }
        ensures { result.now ≡ spec.label octets.now self.now.at }
    {
        let from = self.at + 1;
        &octets[from..from + usize::from(octets[self.at])]
    }

    /// The place behind the label that stands here.
    #[inline(always)]
    fn after_label(self, octets: &[u8]) -> Place
        requires { IsTrue (spec.has_label octets.now self) }
        ensures { result ≡ spec.after_label octets.now self }
    {
        let len = usize::from(octets[self.at]);
        Place {
            start: self.start,
            at: self.at + 1 + len,
            room: self.room - (len + 1),
            steps: self.steps - 1,
        }
    }

    /// The place to which the pointer that stands here goes.
    #[inline(always)]
    fn after_pointer(self, octets: &[u8]) -> Place
        requires { IsTrue (spec.has_pointer octets.now self) }
        ensures { result ≡ spec.after_pointer octets.now self }
    {
        let to = usize::from(octets[self.at] - 192) * 256 + usize::from(octets[self.at + 1]);
        Place {
            start: to,
            at: to,
            room: self.room,
            steps: self.steps - 1,
        }
    }

    /// The place where the name goes on, behind the pointers that stand here.
    fn followed(self, octets: &[u8]) -> Place
        ensures labels { spec.labels_of octets.now result ≡ spec.labels_of octets.now self }
        ensures followed { spec.has_pointer octets.now result ≡ false }
        ensures steps { result.steps ≤ self.steps }
    {
        let mut place = self;
        while place.has_pointer(octets) {
            place = place.after_pointer(octets);
        }
        place
    }
}

/// Whether the labels at two places are there, and the same.
fn have_same_label(octets: &[u8], place: Place, others: &[u8], other: Place) -> bool
    ensures { result ≡ spec.have_same_label octets.now place others.now other }
{
    place.has_label(octets)
        && other.has_label(others)
        && is_same_label(place.label(octets), other.label(others))
}

/// An octet, where capital letters count as small ones.
#[inline(always)]
const fn lower(octet: u8) -> u8
    ensures { result ≡ spec.lower octet }
{
    if octet >= 65 && octet <= 90 {
        octet + 32
    } else {
        octet
    }
}

/// Whether two labels are the same, whatever the case of their letters.
fn is_same_label(label: &[u8], other: &[u8]) -> bool
    ensures { result ≡ spec.is_same_label label.now other.now }
{
    let mut rest = label;
    let mut other_rest = other;
    while begin_the_same(rest, other_rest) {
        rest = &rest[1..];
        other_rest = &other_rest[1..];
    }
    are_empty(rest, other_rest)
}

/// Whether two labels begin with the same octet, whatever its case.
#[inline(always)]
fn begin_the_same(label: &[u8], other: &[u8]) -> bool
    ensures { result ≡ spec.begin_the_same label.now other.now }
{
    !label.is_empty() && !other.is_empty() && lower(label[0]) == lower(other[0])
}

/// Whether two labels are empty.
#[inline(always)]
fn are_empty(label: &[u8], other: &[u8]) -> bool
    ensures { result ≡ spec.are_empty label.now other.now }
{
    label.is_empty() && other.is_empty()
}

/// Whether the names at an offset of some octets, and at an offset of others, are the same, whatever the case of their
/// letters (RFC 4343). `false` also if no name stands at one of them.
pub fn is_same_name(octets: &[u8], at: usize, others: &[u8], other_at: usize) -> bool
    ensures { result ≡ spec.is_same_name octets.now at others.now other_at }
{
    let mut place = Place::begin(at).followed(octets);
    let mut other = Place::begin(other_at).followed(others);
    while have_same_label(octets, place, others, other) {
        place = place.after_label(octets).followed(octets);
        other = other.after_label(others).followed(others);
    }
    have_end(octets, place, others, other)
}

/// Whether two names end at these places.
#[inline(always)]
fn have_end(octets: &[u8], place: Place, others: &[u8], other: Place) -> bool
    ensures { result ≡ (spec.has_end octets.now place && spec.has_end others.now other) }
{
    place.has_end(octets) && other.has_end(others)
}

/// Whether a name stands at an offset.
fn is_name(octets: &[u8], at: usize) -> bool
    ensures value { result ≡ spec.is_name octets.now at }
    ensures within { result ≡ true → at ≤ length octets.now }
{
    if at > octets.len() {
        return false;
    }
    let mut place = Place::begin(at).followed(octets);
    while place.has_label(octets) {
        place = place.after_label(octets).followed(octets);
    }
    place.has_end(octets)
}

/// Where the octets of the name at an offset end. `None` exactly if no name stands there.
pub fn name_end(octets: &[u8], at: usize) -> Option<usize>
    ensures { SomeIff result (IsTrue (spec.is_name octets.now at)) (spec.end_of octets.now at) }
{
    if !is_name(octets, at) {
        return None;
    }
    let mut place = Place::begin(at);
    while place.has_label(octets) {
        place = place.after_label(octets);
    }
    if place.steps == 0 {
        Some(place.at)
    } else if place.has_end(octets) {
        Some(place.at + 1)
    } else {
        Some(place.at + 2)
    }
}
