//! How many octets a path carries (RFC 9293 3.7.5, RFC 1191, RFC 8201, RFC 4821).
ghost use Rattle.std.specs.Prelude.{◌≡◌, ◌+◌, ◌≤◌, ◌^◌};
ghost use Rattle.tcp_machine.specs.Path as spec;

/// After how many octets more, and as many as were acknowledged, longer segments are tried again.
const OCTETS_APART: u64 = 65_536;

/// What a connection knows of the path to its peer. Sizes are in octets of a segment, without headers.
#[derive(Clone, Copy, Debug, PartialEq, Eq)]
pub struct Path {
    /// The most that both ends, and routers that were heard of, let a segment have.
    pub most: u16,
    /// The least that a segment is shortened to.
    pub least: u16,
    /// The position after the first segment of the most octets, as long as that isn't acknowledged.
    pub tried: Option<u64>,
    /// Whether a segment of the most octets was acknowledged.
    pub carries: bool,
    /// The position from which on segments have the most octets again that were shortened after time-outs.
    pub again_at: u64,
}

impl Path {
    /// Nothing is known but the MSS that both ends let a segment have, and the one that every path carries.
    pub const fn new(default: u16, mss: u16) -> Path
        ensures { result ≡ spec.new_path default mss }
    {
        Path {
            most: mss,
            least: if default < mss { default } else { mss },
            tried: None,
            carries: false,
            again_at: 0,
        }
    }

    /// A segment of so many octets was sent, which ends before a position, where the longest has `mss`.
    pub fn sent(&mut self, mss: u16, len: usize, end: u64)
        ensures { self.new ≡ spec.path_sent mss len end self.old }
    {
        if self.is_tried(mss, len) {
            self.tried = Some(end);
        }
    }

    /// Whether a segment of so many octets is the first of the most octets.
    fn is_tried(&self, mss: u16, len: usize) -> bool
        ensures { result ≡ spec.is_tried mss len self.now }
    {
        !self.carries && self.tried.is_none() && self.least < mss && len == usize::from(mss)
    }

    /// All before a position is acknowledged.
    pub fn acknowledged(&mut self, position: u64)
        ensures { self.new ≡ spec.path_acknowledged position self.old }
    {
        if let Some(end) = self.tried
            && end <= position
        {
            self.tried = None;
            self.carries = true;
        }
    }

    /// How many octets a segment may have once all before a position is acknowledged, where it was `mss`.
    pub fn mss_acknowledged(&self, position: u64, mss: u16) -> u16
        ensures { result ≡ spec.mss_acknowledged position mss self.now }
    {
        if mss < self.most && self.again_at <= position {
            self.most
        } else {
            mss
        }
    }

    /// Whether a path may be a black hole, where a segment of `mss` octets is to be sent again that was so many times before.
    pub fn is_black_hole(&self, tries: u64, mss: u16) -> bool
        ensures { result ≡ spec.is_black_hole tries mss self.now }
    {
        1 <= tries && !self.carries && self.least < mss
    }

    /// Segments are shortened, where all before a position is acknowledged: until as many octets more are, and some.
    pub fn shorten(&mut self, una: u64)
        requires { una ≤ 2 ^ 62 + 1 }
        ensures { self.new ≡ spec.path_shortened una self.old }
    {
        self.tried = None;
        self.again_at = 2 * una + OCTETS_APART;
    }

    /// How many octets a segment has at most, where a router says that so many are too many.
    pub fn told(&self, size: u16) -> u16
        ensures { result ≡ spec.size_told size self.now }
    {
        self.least.max(size)
    }

    /// A router said that segments may have so many octets at most.
    pub fn tell(&mut self, size: u16)
        ensures { self.new ≡ spec.path_told size self.old }
    {
        self.most = self.told(size);
        self.tried = None;
    }
}
