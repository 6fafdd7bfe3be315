//! Segments through packets.
ghost use Rattle.tcp_sockets.specs.Reading.{SegmentsAreReadAgain, ResetsAreReadAgain};

/// A segment's packet is read as that segment, with its ends exchanged: at the socket that sends it, and at one that has
/// stored it. Its checksum is right, and it arrives at the host to which it goes. Its options may be any: they are read
/// as they are, if their values fit.
pub fn segments_are_read_again()
    ensures { SegmentsAreReadAgain }
{}

/// A reset is read as a reset, whatever its number is and between whatever ends it is.
pub fn resets_are_read_again()
    ensures { ResetsAreReadAgain }
{}
