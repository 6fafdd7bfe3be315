//! What a poll does and doesn't, each as the contract of an empty function.
ghost use Rattle.tcp_sockets.specs.Laws.{OthersAreLeft, LoopbackStaysInside, UrgentIsSkipped, StrangersAreSilent, KnownAreNear, FarCountsAsSent, NearWaits};

/// A packet that isn't for this host, or has no right segment, leaves its socket; nothing answers it, and nothing else
/// changes.
pub fn others_are_left<L>()
    ensures { OthersAreLeft L }
{}

/// A packet from a loopback address, to one that isn't, isn't for the host, whatever its segment is: so it is neither heard nor
/// answered, a SYN neither (RFC 1122 3.2.1.3).
pub fn loopback_stays_inside()
    ensures { LoopbackStaysInside }
{}

/// The urgent pointer is skipped, and the octets stand in the stream (RFC 6093 3.1, 6).
#[tactic(auto, unfolding(ip_wire::specs::Tcp::control_of))]
pub fn urgent_is_skipped()
    ensures { UrgentIsSkipped }
{}

/// Nothing is sent from an address that isn't the host's: the connection is aborted, and no socket changes.
pub fn strangers_are_silent<L>()
    ensures { StrangersAreSilent L }
{}

/// Near is a peer that answered, and from which something came in the connection within the last minute, and one to which the
/// next hop is told to be known. No other one is.
pub fn known_are_near()
    ensures { KnownAreNear }
{}

/// What goes to a peer that isn't near counts as sent, whether it found room or not.
pub fn far_counts_as_sent<L>()
    ensures { FarCountsAsSent L }
{}

/// What goes to one that is near counts as sent exactly if it found room: else its connection stays as it is, and is due
/// again after 50 ms.
pub fn near_waits<L>()
    ensures { NearWaits L }
{}
