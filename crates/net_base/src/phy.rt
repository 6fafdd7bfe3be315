//! Network devices: their capabilities, and the trait that an interface drives.
ghost use Rattle.std.specs.Prelude.{◌≡◌, ◌≤◌, ℕ, Bool, true, List, [], ◌∷◌, ◌++◌};
ghost use Rattle.std.specs.Prelude.{length, take, IfSome, OnSome, MatchOption};
ghost use Rattle.net_base.specs.Device.{Event, Received, Frame, Asked, Sent, HandsNone, refusals_after};

pub use crate::driver::DriverDevice;
use crate::time::Instant;
pub use crate::tracer::{TracedEvent, Tracer};

/// The length of the longest frame that an interface builds or receives, in octets.
pub const FRAME_BUFFER_SIZE: usize = 1514;

/// The kind of packets that a device carries.
#[derive(Clone, Copy, Debug, PartialEq, Eq)]
pub enum Medium {
    /// Ethernet frames, with a header of 14 octets.
    Ethernet,
    /// IP packets without a link-layer header.
    Ip,
}

/// Metadata of a packet.
#[derive(Clone, Copy, Debug, PartialEq, Eq)]
pub struct PacketMeta {
    /// A number chosen by the device.
    pub id: u32,
}

impl PacketMeta {
    /// The metadata with which an interface sends each frame.
    pub const EMPTY: PacketMeta = PacketMeta { id: 0 };
}

/// In which directions the stack computes a checksum.
#[derive(Clone, Copy, Debug, PartialEq, Eq)]
pub enum Checksum {
    /// Verified on receipt and computed when sending.
    Both,
    /// Only verified on receipt.
    Rx,
    /// Only computed when sending.
    Tx,
    /// Neither.
    None,
}

impl Checksum {
    ghost use Rattle.net_base.specs.Checksum.{is_rx, is_tx};

    /// Whether it is verified on receipt.
    pub const fn rx(&self) -> bool
        ensures { result ≡ is_rx self.now }
    {
        match self {
            Checksum::Both | Checksum::Rx => true,
            Checksum::Tx | Checksum::None => false,
        }
    }

    /// Whether it is computed when sending.
    pub const fn tx(&self) -> bool
        ensures { result ≡ is_tx self.now }
    {
        match self {
            Checksum::Both | Checksum::Tx => true,
            Checksum::Rx | Checksum::None => false,
        }
    }
}

/// Which checksums the stack computes, by protocol.
#[derive(Clone, Copy, Debug, PartialEq, Eq)]
pub struct ChecksumCapabilities {
    pub ipv4: Checksum,
    pub udp: Checksum,
    pub tcp: Checksum,
    pub icmpv4: Checksum,
    pub icmpv6: Checksum,
}

impl ChecksumCapabilities {
    /// All of them in both directions.
    pub const ALL: ChecksumCapabilities = ChecksumCapabilities {
        ipv4: Checksum::Both,
        udp: Checksum::Both,
        tcp: Checksum::Both,
        icmpv4: Checksum::Both,
        icmpv6: Checksum::Both,
    };
}

/// The capabilities of a device.
#[derive(Clone, Copy, Debug, PartialEq, Eq)]
pub struct DeviceCapabilities {
    /// The kind of packets that it carries.
    pub medium: Medium,
    /// The length of the longest frame, in octets, including the link-layer header.
    pub max_transmission_unit: usize,
    /// The number of frames that it takes in a row, if that is limited.
    pub max_burst_size: Option<usize>,
    /// Which checksums are left to the stack.
    pub checksum: ChecksumCapabilities,
}

impl DeviceCapabilities {
    ghost use Rattle.net_base.specs.Checksum.{ip_mtu_of};

    /// The length of the longest IP packet, in octets: a frame less the Ethernet header of 14 octets, or a whole frame
    /// on an IP medium. It is 0 if the frame is shorter than the header.
    pub fn ip_mtu(&self) -> usize
        ensures { result ≡ ip_mtu_of self.now }
    {
        match self.medium {
            Medium::Ethernet => self.max_transmission_unit.saturating_sub(14),
            Medium::Ip => self.max_transmission_unit,
        }
    }
}

/// A network device. Its events say what it did: which frames it delivered, how it answered each request for a transmit
/// token, and which frames were sent. It reports no fault; it only refuses a token, or withholds a frame that it has.
pub trait Device {
    ghost use Rattle.net_base.specs.declared.phy.DeviceCapabilities.{DeviceCapabilities};

    /// The device may go from one state to the other, with these events on the way.
    ghost tells: { Self → List Event → Self → Type 0 };

    /// Whether a transmit token for one frame is granted.
    ghost may_transmit: { Self → Bool };

    /// The capabilities of the device.
    ghost capable: { Self → DeviceCapabilities };

    /// How many times it refused or withheld.
    ghost refused: { Self → ℕ };

    /// The capabilities of the device.
    fn capabilities(&self) -> DeviceCapabilities
        ensures { result ≡ capable self.now };

    /// Delivers a frame at the front of the buffer, together with a transmit token for one frame; or neither. Returns
    /// the frame's length and metadata. `now` is the moment of the call.
    fn receive(&mut self, now: Instant, buffer: &mut [u8]) -> Option<(usize, PacketMeta)>
        requires { length buffer.old ≡ 1514 }
        ensures told { MatchOption result (HandsNone tells now self.old self.new)
            (λ r. tells self.old (Received now (Frame (take r.0 buffer.new)) ∷ []) self.new) }
        ensures fits { IfSome result (λ r. r.0 ≤ 1514) }
        ensures permission { OnSome result (may_transmit self.new ≡ true) };

    /// Grants a transmit token for one frame, or refuses it. `now` is the moment of the call.
    fn transmit(&mut self, now: Instant) -> bool
        ensures told { tells self.old (Asked now result ∷ []) self.new }
        ensures permission { result ≡ true → may_transmit self.new ≡ true };

    /// Sends a frame. This uses up the transmit token.
    fn send(&mut self, meta: PacketMeta, frame: &[u8])
        requires permission { may_transmit self.old ≡ true }
        requires short { length frame.now ≤ 1514 }
        ensures { tells self.old (Sent meta.id frame.now ∷ []) self.new };

    /// The number of frames that the device withheld and of transmit tokens that it refused, in all. The count stays at
    /// 2^64 - 1 once it is reached.
    fn refusals(&self) -> u64
        ensures { result ≡ refused self.now };

    /// Doing nothing has no events.
    ghost tells_nothing: { (d : Self) → tells d [] d };

    /// Events of two transitions in a row are the events of both.
    ghost tells_on: { (a b c : Self) (xs ys : List Event) → tells a xs b → tells b ys c → tells a (xs ++ ys) c };

    /// The refusal count rises with the events, and with nothing else.
    ghost tells_refusals: { (a b : Self) (xs : List Event) → tells a xs b → refused b ≡ refusals_after (refused a) xs };
}

/// A driver of a network card, without a word of proof: [`DriverDevice`] makes a [`Device`] of it. Nothing is asked of it
/// but the length of a frame.
pub trait Driver {
    /// The capabilities of the card. They are read once.
    fn capabilities(&self) -> DeviceCapabilities;

    /// Writes a received frame to the front of the buffer, which has 1,514 octets, and returns the frame's length; or
    /// returns `None` if there is none. `now` is the moment of the call.
    ///
    /// The interface may send one frame in reply without a call of `transmit`, so a driver without room for one keeps
    /// the received frame, and returns `None`.
    fn receive(&mut self, now: Instant, buffer: &mut [u8]) -> Option<usize>
        requires { length buffer.old ≡ 1514 }
        ensures fits { IfSome result (λ len. len ≤ 1514) };

    /// Whether one frame may be sent. `now` is the moment of the call.
    fn transmit(&mut self, now: Instant) -> bool;

    /// Sends a frame, after it was received or permitted.
    fn send(&mut self, frame: &[u8])
        requires short { length frame.now ≤ 1514 };
}
