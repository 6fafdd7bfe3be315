//! Segments, apart from ports and checksums (RFC 9293 3.1).
ghost use Rattle.std.specs.Prelude.{◌≡◌, []};
ghost use Rattle.tcp_connection.specs.Segments.{segment_of};
ghost use Rattle.tcp_connection.specs.Details.Told.{is_nil};

use tcp_machine::sack::SackBlock;

/// The values of a segment that arrives, apart from its octets.
#[derive(Clone, Copy, Debug, PartialEq, Eq)]
pub struct Segment {
    /// SEG.SEQ.
    pub number: u32,
    /// SEG.ACK, if the segment acknowledges something.
    pub ack: Option<u32>,
    /// SEG.WND, as it stands in the header.
    pub window: u16,
    pub syn: bool,
    pub fin: bool,
    pub rst: bool,
    /// The MSS option.
    pub mss: Option<u16>,
    /// The window scale option.
    pub scale: Option<u8>,
    /// Whether there is the option that permits selective acknowledgements. Only that of a SYN counts.
    pub sack_permitted: bool,
    /// The blocks of the option that tells them (RFC 2018 3).
    pub blocks: [Option<SackBlock>; 4],
}

impl Segment {
    /// Whether it tells no blocks.
    #[inline(always)]
    pub(crate) fn has_no_blocks(&self) -> bool
        ensures { result ≡ is_nil (segment_of self.now []).options.blocks }
    {
        let [first, second, third, fourth] = &self.blocks;
        first.is_none() && second.is_none() && third.is_none() && fourth.is_none()
    }
}
