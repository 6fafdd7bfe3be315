//! What a guard promises, whatever frames come, each law as the contract of an empty function.
ghost use Rattle.guard.specs.AnswerLaws.{ClockMayGoBack, ErrorsAreShort, FewAnswersGo, OtherAnswersGo};
ghost use Rattle.guard.specs.Ipv6Laws.{Ipv6LoopsEnd, MessagesPass, OtherMessagesPass, OwnMessagesStay, PinnedMessagesStay, StreamsPass};
ghost use Rattle.guard.specs.Laws.{ArpPasses, DefencesAreApart, FewEchoesPass, LoopsEnd, OthersPass, OwnAddressesStay, PacketsPass, PinnedStay};

/// A claim of an own address is answered, unless one was within the interval, and those that follow within the interval are not, if the
/// clock goes back by no more than a minute.
pub fn defences_are_apart()
    ensures { DefencesAreApart }
{}

/// A frame that is neither an ARP packet nor an IP packet passes.
pub fn others_pass()
    ensures { OthersPass }
{}

/// A packet of IPv4 that is of no sort which the guard drops passes, from whomever and however often it comes, if its source isn't an
/// own address, or it comes from the own hardware address.
pub fn packets_pass()
    ensures { PacketsPass }
{}

/// An ARP packet passes, from whomever and however often it comes, if it claims no own address, but from the own hardware address, and
/// no pinned one from another than that one's.
pub fn arp_passes()
    ensures { ArpPasses }
{}

/// A datagram of IPv4 that could go to and fro for ever doesn't pass, unless the host itself sent it.
pub fn loops_end()
    ensures { LoopsEnd }
{}

/// An ARP packet that claims an own address doesn't pass, unless it comes from the own hardware address and tells that one.
pub fn own_addresses_stay()
    ensures { OwnAddressesStay }
{}

/// An ARP packet of a pinned neighbour doesn't pass, unless it tells the hardware address that the neighbour is pinned to.
pub fn pinned_stay()
    ensures { PinnedStay }
{}

/// A neighbour message over IPv6 that claims an own address, as its source or as what it advertises, passes only if it comes from
/// the own hardware address, and tells no other.
pub fn own_messages_stay()
    ensures { OwnMessagesStay }
{}

/// A neighbour message of a pinned neighbour passes only if it tells no other hardware address than the pinned one.
pub fn pinned_messages_stay()
    ensures { PinnedMessagesStay }
{}

/// A neighbour message passes, from whomever and however often it comes, if it claims no own address, and tells no other hardware address
/// than the one that its sender is pinned to, if it is.
pub fn messages_pass()
    ensures { MessagesPass }
{}

/// Any other message of ICMPv6 passes, as an advertisement of a router or a query of MLD, from whomever and however often it comes, if its
/// source is no own address.
pub fn other_messages_pass()
    ensures { OtherMessagesPass }
{}

/// Over IPv6 a segment of TCP passes, and a datagram of UDP that doesn't go to and fro, if its source is no own address.
pub fn streams_pass()
    ensures { StreamsPass }
{}

/// A datagram of UDP over IPv6 that could go to and fro for ever doesn't pass, if its source is no own address.
pub fn ipv6_loops_end()
    ensures { Ipv6LoopsEnd }
{}

/// Of errors and of resets so many are sent in response from one instant to another, to known neighbours and to others: as many as the
/// rate's depth, and one for each of its intervals, if the clock goes back by no more than a minute.
pub fn few_answers_go()
    ensures { FewAnswersGo }
{}

/// Of echo requests and of fragments of ICMP so many pass from one instant to another: as many as their rate's depth, and one for each of
/// its intervals, if the clock goes back by no more than a minute.
pub fn few_echoes_pass()
    ensures { FewEchoesPass }
{}

/// Once the clock has gone back by more than a minute, an answer is sent again.
pub fn clock_may_go_back()
    ensures { ClockMayGoBack }
{}

/// An error that is sent in response is no more than so many times as long as the frame which it answers.
pub fn errors_are_short()
    ensures { ErrorsAreShort }
{}

/// A response that is none of these is sent, and takes no token.
pub fn other_answers_go()
    ensures { OtherAnswersGo }
{}
