//! Laws of the lives of TCP connections, at a host and on a network.
#![tactic(auto)]

pub mod tcp_networks;

ghost use Rattle.tcp_host_laws.specs.Laws.{CallsLiveOn, PollsLiveOn};
ghost use Rattle.tcp_host_laws.specs.Pairs.{LivesKeep};
ghost use Rattle.tcp_host_laws.specs.Readings.{WhatWasSentIsRead};
ghost use Rattle.tcp_host_laws.specs.Releases.{ReleasedPlacesEnd};

/// Whatever a program calls: each connection does that, and no other one does anything.
pub fn calls_live_on()
    ensures { CallsLiveOn }
{}

/// Whatever a poll does with a connection is a list of acts, none of which is the program's. Each segment that a
/// connection gets, or that begins one, had arrived in a packet between its ends; and each packet that is queued has a
/// segment that a connection sent, between its ends, or a reset that belongs to none. The SYN-ACK with a cookie was sent by a
/// connection of no place, which accepted the SYN.
pub fn polls_live_on<L>()
    ensures { PollsLiveOn L }
{}

/// Two lives, one at each end of a connection, whose acts have an order in which each segment that the one gets is one
/// that the other had sent, or a reset of anyone. If none is older than 2^31 octets, what a program read from the one
/// is a beginning of what the other one's program wrote, and all of it, once it is told the end.
pub fn lives_keep()
    ensures { LivesKeep }
{}

/// Octets that are the packet of a segment that a connection sent in its life, or of a reset: at a raw socket they are
/// read as that segment, between the ends reversed, or as a reset; so they are once a raw socket has stored them.
pub fn what_was_sent_is_read()
    ensures { WhatWasSentIsRead }
{}

/// A connection of which its program let go is aborted by the first turn that is the host's `release_timeout` after its next one, which
/// is due at once. No turn that is a second later, or more, leaves it its place. So it is whatever arrives and whatever is called; and
/// it is due by then, unless it is put off for want of room.
pub fn released_places_end()
    ensures { ReleasedPlacesEnd }
{}
