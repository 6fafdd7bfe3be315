//! What a host behind a guard never learns, and what strangers can't do to it, whatever frames come.
ghost use Rattle.guard_laws.specs.Answers.{AnswersStay, LaterAnswersCount, ListenerAnswersStay, TurnsAreTaken};
ghost use Rattle.guard_laws.specs.Claims.{NobodyClaimsAnOwnAddress, PinnedNeighborsStay};
ghost use Rattle.guard_laws.specs.MessageClaims.{NobodyClaimsAnOwnIpv6Address, PinnedIpv6NeighborsStay};
ghost use Rattle.guard_laws.specs.Learning.{FramesTeachTheirSender, HostsKeepConfirmed, HostsKeepNewcomers};
ghost use Rattle.guard_laws.specs.Strangers.{ConfirmedStay, NewcomersStay};

/// By a frame that its guard admits a host learns no other hardware address for its own IPv4 addresses than its own one.
pub fn nobody_claims_an_own_address()
    ensures { NobodyClaimsAnOwnAddress }
{}

/// By a frame that its guard admits a host learns no other hardware address for an IPv4 address that is pinned than the pinned one.
pub fn pinned_neighbors_stay()
    ensures { PinnedNeighborsStay }
{}

/// Likewise of its own IPv6 addresses.
pub fn nobody_claims_an_own_ipv6_address()
    ensures { NobodyClaimsAnOwnIpv6Address }
{}

/// Likewise of an IPv6 address that is pinned.
pub fn pinned_ipv6_neighbors_stay()
    ensures { PinnedIpv6NeighborsStay }
{}

/// A neighbour that is confirmed stays known at its hardware address, until less of its time is left than a stranger stays, whatever
/// frames strangers send, and however many. Confirmed ones never become so many that none is left for others.
pub fn confirmed_stay()
    ensures { ConfirmedStay }
{}

/// A newcomer stays known for as many later frames, whoever sends them, as half of the entries are: confirmed ones leave that half.
pub fn newcomers_stay()
    ensures { NewcomersStay }
{}

/// A frame of any octets teaches a host its sender or nobody, as the laws of neighbours say, by the octets that the guard reads.
pub fn frames_teach_their_sender()
    ensures { FramesTeachTheirSender }
{}

/// Whatever frames come to a host behind its guard, of any octets, and however many: a neighbour that is confirmed stays known at its
/// hardware address, until less of its time is left than a stranger stays. Confirmed ones never become so many that none is left for others.
pub fn hosts_keep_confirmed()
    ensures { HostsKeepConfirmed }
{}

/// A newcomer stays known to a host for as many later frames, of any octets and whoever sends them, as half of the entries are.
pub fn hosts_keep_newcomers()
    ensures { HostsKeepNewcomers }
{}

/// However many queries of IGMP come, none puts off the answer to a general query of which nothing was reported yet, or takes its place,
/// unless its own would come sooner.
pub fn answers_stay()
    ensures { AnswersStay }
{}

/// Where something was reported, the answer to a later general query takes the place, so that what was reported comes again.
pub fn later_answers_count()
    ensures { LaterAnswersCount }
{}

/// Likewise of MLD, where such an answer stays beside queries about a group, too.
pub fn listener_answers_stay()
    ensures { ListenerAnswersStay }
{}

/// A request for a hardware address in response to a frame is followed by the turn of sockets for three seconds, as long as who was asked
/// for isn't known; one of a socket isn't.
pub fn turns_are_taken()
    ensures { TurnsAreTaken }
{}
