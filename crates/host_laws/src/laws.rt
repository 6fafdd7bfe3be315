//! Laws that follow from the definitions alone, each as the contract of an empty function.
ghost use Rattle.host_laws.specs.Laws.Arrivals.{FragmentsLeaveFewRanges, PiecesAreRebuilt, PiecesArriveInTime};
ghost use Rattle.host_machine.specs.Sockets.Quiet.{SocketsAreQuiet};
ghost use Rattle.host_laws.specs.Laws.Refusals.{RefusalsLoseNothing};
ghost use Rattle.host_laws.specs.Laws.Determined.{DispatchIsDetermined, EgressIsDetermined};
ghost use Rattle.host_laws.specs.Laws.Determined.{IngressIsDetermined, PollIsDetermined};
ghost use Rattle.host_laws.specs.Laws.Determined.{ReceptionIsDetermined, RunIsDetermined, StepIsDetermined};
ghost use Rattle.host_laws.specs.Laws.Autoconfiguration.{AdvertisedAddressesStand, AdvertisementsAreLearnt};
ghost use Rattle.host_laws.specs.Laws.Configured.{AnyIpIsSet, GroupsAreJoined, GroupsAreLeft, HostsBeginWithNothing, RoutesAreSet};
ghost use Rattle.host_laws.specs.Laws.HeardQueries.{QueriesAreHeard};
ghost use Rattle.host_laws.specs.Laws.Protocols.{UnknownOptionsAreAnswered, UnknownProtocolsAreAnswered};
ghost use Rattle.host_laws.specs.Laws.Reassembled.{LongPingsAreAnswered, RebuiltDatagramsAreQueued};
ghost use Rattle.host_laws.specs.Laws.Reassembled.{RebuiltPingsAreAnswered};
ghost use Rattle.host_laws.specs.Laws.RequestOctets.{PingFramesAreRead, SolicitationFramesAreRead};
ghost use Rattle.host_laws.specs.Laws.ReplyOctets.{ArpRequestsAreAnsweredByOctets, PingsAreAnsweredByOctets};
ghost use Rattle.host_laws.specs.Laws.Received.{EchoRepliesV6AreQueued, RawPacketsAreQueued, SegmentsAreQueued};
ghost use Rattle.host_laws.specs.Laws.DueReports.{DueReportsGo};
ghost use Rattle.host_laws.specs.Laws.Lengths.{FramesOfRunsFit};
ghost use Rattle.host_laws.specs.Laws.Many.{DatagramsToManyAreQueued, DatagramsToManyGo};
ghost use Rattle.host_laws.specs.Laws.Resets.{ClosedTcpPortsAreReset};
ghost use Rattle.host_laws.specs.Laws.Service.{ArpRequestsAreAnswered, ClosedPortsAreAnswered, ClosedPortsV6AreAnswered};
ghost use Rattle.host_laws.specs.Laws.Service.{AdvertisersAreLearnt, ArpSendersAreLearnt};
ghost use Rattle.host_laws.specs.Laws.Service.{DatagramsAreQueued, DatagramsV6AreQueued, DueIsDone};
ghost use Rattle.host_laws.specs.Laws.Service.{EchoRepliesAreQueued, FirstDatagramsGo, FirstEchoesGo, FirstPacketsGo};
ghost use Rattle.host_laws.specs.Laws.Service.{LittleStaysDue, PiecesGo, PingsAreAnswered, PingsV6AreAnswered};
ghost use Rattle.host_laws.specs.Laws.Service.{PollsSyncSlaac, PollsEndInCalls};
ghost use Rattle.host_laws.specs.Laws.Service.{RequestFramesAreRead, RequestsGo, SolicitationsAreAnswered};
ghost use Rattle.host_laws.specs.Laws.Steps.{DiscoveriesAreNoted, DispatchesSendOneThing, FragmentsArriveInFrames};
ghost use Rattle.host_laws.specs.Laws.Steps.{IngressIsSingle, MalformedIsDropped, RunsJoin, RunsKeepLaws};
ghost use Rattle.host_laws.specs.Laws.Unfolded.{RunsUnfold};
ghost use Rattle.host_laws.specs.Laws.TwoHosts.{PiecesAreRead, RebuildsWhatWasCut};
ghost use Rattle.host_laws.specs.Laws.Wire.{FragmentsArePieces, StaysReal};

/// No frame of a run is longer than the device allows, whatever is called, from a regular host whose pending fragments
/// fit, as where there is none. After it they fit, too.
pub fn frames_of_runs_fit()
    ensures { FramesOfRunsFit }
{}

/// A frame with a malformed header of Ethernet, ARP, IPv4 or IPv6 sends nothing. It leaves the host as the same call
/// without a frame does, which drops slots that have expired.
pub fn malformed_is_dropped()
    ensures { MalformedIsDropped }
{}

/// A call that receives handles at most one frame, and sends at most one.
pub fn ingress_is_single()
    ensures { IngressIsSingle }
{}

/// A dispatch sends nothing, or the packet's own frame, or its first fragment, or exactly one discovery request. That
/// request is noted, and it is sent only while discovery is not silent.
pub fn dispatches_send_one_thing()
    ensures { DispatchesSendOneThing }
{}

/// A dispatch is determined by its packet and the host: the outcome of the packet, the frames sent, the notes, and the
/// host after it.
pub fn dispatch_is_determined()
    ensures { DispatchIsDetermined }
{}

/// Reception is determined by what the device delivered and by the host, except for which of several neighbours with
/// the earliest expiry makes room for a new one.
pub fn reception_is_determined()
    ensures { ReceptionIsDetermined }
{}

/// A call that sends is determined, in each part of its round, by the host and by which transmit tokens the device
/// grants.
pub fn egress_is_determined()
    ensures { EgressIsDetermined }
{}

/// A call that receives is determined by the host and by what the device delivers, with one exception. If a neighbour
/// is learnt without room, and several expire first, either of these may make room.
pub fn ingress_is_determined()
    ensures { IngressIsDetermined }
{}

/// A poll is determined by the host and by the device's answers, up to such a call.
pub fn poll_is_determined()
    ensures { PollIsDetermined }
{}

/// A step is determined by the host, the command, the device's answers and the socket owner's actions, up to such a
/// call: what is sent, answered and noted, and the host after it.
pub fn step_is_determined()
    ensures { StepIsDetermined }
{}

/// So a run is determined by the host, its commands, all answers of the device and all actions of the owner, up to such
/// a call.
pub fn run_is_determined()
    ensures { RunIsDetermined }
{}

/// A call that sends, on a device that grants no transmit token, sends nothing and notes nothing. Fragments and router
/// solicitations stay pending; with an IPv4 address so do the groups, and an IGMP report for a group that is there.
/// Neighbours and routers stay known. An MLD report that is due is dropped, and a socket that is asked may drop what
/// can't be sent.
pub fn refusals_lose_nothing()
    ensures { RefusalsLoseNothing }
{}

/// The ARP requests and neighbour solicitations among all frames that a run sends are, in order and with their moments,
/// the discovery requests that it notes, unless a raw socket sends ICMPv6.
pub fn discoveries_are_noted()
    ensures { DiscoveriesAreNoted }
{}

/// A run followed by another one from where it ended is one run, so calls of `drive` one after another are a run.
pub fn runs_join()
    ensures { RunsJoin }
{}

/// Every run satisfies the laws.
pub fn runs_keep_laws()
    ensures { RunsKeepLaws }
{}

/// Every run is one of single calls: a poll is maintenance, then calls that receive, then calls that send.
pub fn runs_unfold()
    ensures { RunsUnfold }
{}

/// In each step of a run, a fragment arrives for each frame that is received and carries one.
pub fn fragments_arrive_in_frames()
    ensures { FragmentsArriveInFrames }
{}

/// If all fragments of one payload arrive under a key, in any order and with repeats before the last missing one, the
/// payload is reassembled at that one and not before.
pub fn pieces_are_rebuilt()
    ensures { PiecesAreRebuilt }
{}

/// All fragments of a payload arrive within the lifetime of a slot, beside fragments of at most one other datagram.
/// Then the payload is reassembled at the last missing one and not before. This law goes by moments, and holds for
/// polls too.
pub fn pieces_arrive_in_time()
    ensures { PiecesArriveInTime }
{}

/// The frames of a run that a host on the same medium reads as fragments are the noted fragments, in order.
pub fn fragments_are_pieces()
    ensures { FragmentsArePieces }
{}

/// The device's capabilities stay the same in a run, and hardware addresses stay those of its medium.
pub fn stays_real()
    ensures { StaysReal }
{}

/// A host receives only frames that another host on its medium sent, in any order, with losses and repeats. Then
/// whatever it reassembles under the key of a packet that the other host fragmented is that packet's payload. The other
/// host's device takes packets of 576 octets, no fragment of an earlier packet is pending there, and it fragments no
/// two packets under one key. The receiving host has no slot with such a key at first.
pub fn rebuilds_what_was_cut()
    ensures { RebuildsWhatWasCut }
{}

/// The fragments that a host sends of a packet are read by another host on its medium as the fragments of its payload.
/// The packet must be for that host, have a source that is valid there, and carry a checksum if the receiver verifies
/// it.
pub fn pieces_are_read()
    ensures { PiecesAreRead }
{}

/// A fragment that follows at most three others leaves at most four separate ranges.
pub fn fragments_leave_few_ranges()
    ensures { FragmentsLeaveFewRanges }
{}

/// A socket that is asked before the instant that it names offers nothing, and stays the same.
pub fn sockets_are_quiet()
    ensures { SocketsAreQuiet }
{}

/// A neighbour's ARP request for an address of the host is answered in the call that receives it, and the neighbour is
/// known from then on.
pub fn arp_requests_are_answered()
    ensures { ArpRequestsAreAnswered }
{}

/// An IPv4 echo request is answered in the call that receives it, with its identifier, sequence number and data, if the
/// way back to its sender is known. On Ethernet its next hop is a known neighbour; where there are no hardware
/// addresses, none is needed.
pub fn pings_are_answered()
    ensures { PingsAreAnswered }
{}

/// On Ethernet the octets of that frame are these, by their positions. Hardware addresses and IPv4 addresses are those
/// of the way back, and the TTL is 64. The identifier, the sequence number and the data are as they came, and both
/// checksums are right.
pub fn pings_are_answered_by_octets()
    ensures { PingsAreAnsweredByOctets }
{}

/// So are the octets of the frame that answers an ARP request.
pub fn arp_requests_are_answered_by_octets()
    ensures { ArpRequestsAreAnsweredByOctets }
{}

/// A UDP datagram over IPv4 for the host is appended, in the call that receives it, to the queue of the first socket
/// that listens at its port, if there is room. No other UDP socket changes, and nothing is sent.
pub fn datagrams_are_queued()
    ensures { DatagramsAreQueued }
{}

/// So it is with one over IPv6, after the header or after hop-by-hop options of which each is known or to be skipped
/// (RFC 8200 4.2). The same goes for pings, closed ports, solicitations, segments and echo replies.
pub fn datagrams_v6_are_queued()
    ensures { DatagramsV6AreQueued }
{}

/// So it is with a datagram over IPv4 that a fragment completes, in the call that takes the fragment (RFC 791 3.2): the
/// call notes that it rebuilt the datagram under the fragment's key.
pub fn rebuilt_datagrams_are_queued()
    ensures { RebuiltDatagramsAreQueued }
{}

/// An echo request over IPv4 that a fragment completes is answered, too, in the call that takes the fragment, if the
/// way back to its sender is known.
pub fn rebuilt_pings_are_answered()
    ensures { RebuiltPingsAreAnswered }
{}

/// If that reply is longer than the device's packets, and has at most 4,096 octets, the call sends its first fragment, and
/// the others wait (RFC 791 3.2).
pub fn long_pings_are_answered()
    ensures { LongPingsAreAnswered }
{}

/// An echo reply is appended, in the call that receives it, to the queue of each ICMP socket with its identifier that
/// has room. Nothing is sent.
pub fn echo_replies_are_queued()
    ensures { EchoRepliesAreQueued }
{}

/// So is an echo reply over IPv6, to an address assigned to the host (RFC 4443 4.2).
pub fn echo_replies_v6_are_queued()
    ensures { EchoRepliesV6AreQueued }
{}

/// A whole packet is last in the queue of each raw socket of its version and protocol that has room for it. Its header
/// is written anew, without options. It comes from a unicast address: over IPv4 to any destination, over IPv6 to an
/// address assigned to the host, without hop-by-hop options.
pub fn raw_packets_are_queued()
    ensures { RawPacketsAreQueued }
{}

/// A segment is last in the queue of the first TCP socket for it, with its sender, and nothing is sent (RFC 9293
/// 3.10.7). Its checksum is right, where that is verified; the socket isn't aborted and has room.
pub fn segments_are_queued()
    ensures { SegmentsAreQueued }
{}

/// A datagram for a port at which no socket listens is answered by the port unreachable error in the call that receives
/// it, unless a raw socket accepted it.
pub fn closed_ports_are_answered()
    ensures { ClosedPortsAreAnswered }
{}

/// So it is over IPv6 (RFC 4443 3.1).
pub fn closed_ports_v6_are_answered()
    ensures { ClosedPortsV6AreAnswered }
{}

/// A right segment to a port at which no TCP socket is, over either family, brings its reset and no other frame: back to
/// its sender, with the numbers of RFC 9293 3.10.7.1. It is no reset itself, and no raw socket takes the packet.
pub fn closed_tcp_ports_are_reset()
    ensures { ClosedTcpPortsAreReset }
{}

/// A query of IGMP or MLD that asks for groups of the host makes an answer pending, at a moment within the time that the
/// query allows, and nothing is sent. It asks all hosts with a group, or the members of one (RFC 2236 3, RFC 3810 6.2).
pub fn queries_are_heard()
    ensures { QueriesAreHeard }
{}

/// A host that configures itself by routers knows the prefix and the router of an advertisement until their lifetimes end,
/// in the call that receives it, with room (RFC 4862 5.5.3, RFC 4861 6.3.4). Nothing is sent. What it learnt has changed,
/// unless it knew that before.
pub fn advertisements_are_learnt()
    ensures { AdvertisementsAreLearnt }
{}

/// After maintenance with news, a host has an address of each prefix that is valid, and a route by each router that is, as
/// far as there is room. An address that it has stays until a prefix that makes it expires, and a route until a router by
/// which it leads does (RFC 4862 5.5.3, 5.5.4, RFC 4861 6.3.4).
pub fn advertised_addresses_stand()
    ensures { AdvertisedAddressesStand }
{}

/// A packet of a protocol that the host doesn't know, over either family, brings an error that says so and no other frame,
/// if no raw socket takes the packet: protocol unreachable (RFC 1122 3.2.2.1), or a parameter problem (RFC 8200 4).
pub fn unknown_protocols_are_answered()
    ensures { UnknownProtocolsAreAnswered }
{}

/// A packet of IPv6 with a hop-by-hop option that the host doesn't know, and that asks to be told of, brings a parameter
/// problem and no other frame (RFC 8200 4.2).
pub fn unknown_options_are_answered()
    ensures { UnknownOptionsAreAnswered }
{}

/// A datagram to all hosts of a network, to the group of all hosts or to a group that the host joined, of either family, is
/// last in the queue of the first UDP socket at its port, if that has room, and nothing is sent (RFC 1122 3.3.6).
pub fn datagrams_to_many_are_queued()
    ensures { DatagramsToManyAreQueued }
{}

/// So the first datagram of a UDP socket that may be asked goes, in a call with every transmit token, if it is to all or to
/// a group: to the hardware address of all, or of that group. No neighbour has to be known (RFC 1112 6.4, RFC 2464 7).
pub fn datagrams_to_many_go()
    ensures { DatagramsToManyGo }
{}

/// A report in answer to a query goes in the first call with every transmit token at its moment or later, to the hardware
/// address of the group that it goes to (RFC 2236 3, RFC 3810 6.3). To a query for one group, of either family, it is the
/// only one. To one for all groups, where no join or leave is pending, it is that of the IPv4 group whose turn it is, and
/// the next follows; over IPv6 one report has all groups.
pub fn due_reports_go()
    ensures { DueReportsGo }
{}

/// A call that sends, and is granted every transmit token it asks for, sends the first datagram of each UDP socket that
/// may be asked. The way to its destination must be known, and the device must take packets so long. The datagrams
/// after it stay queued.
pub fn first_datagrams_go()
    ensures { FirstDatagramsGo }
{}

/// So is the first packet of a socket of any kind: of a raw one its packet, of an ICMP one its echo message, of a TCP one
/// its segment.
pub fn first_packets_go()
    ensures { FirstPacketsGo }
{}

/// So is an echo request that is the first message of an ICMP socket, by what the socket has queued.
pub fn first_echoes_go()
    ensures { FirstEchoesGo }
{}

/// If a fragment is pending, the first frame of a call that sends and is granted every transmit token is that fragment.
pub fn pieces_go()
    ensures { PiecesGo }
{}

/// After a call that sends, and is granted every transmit token it asks for, what was due is done. No join, leave,
/// router solicitation or MLD report is due at its moment any more; an IGMP report that was due was sent; and a socket
/// that is still due has one packet less to send.
pub fn due_is_done()
    ensures { DueIsDone }
{}

/// An IPv6 echo request is answered in the call that receives it, too, if the way back to its sender is known.
pub fn pings_v6_are_answered()
    ensures { PingsV6AreAnswered }
{}

/// A neighbour's solicitation for an address of the host is answered in the call that receives it, and the neighbour is
/// known from then on.
pub fn solicitations_are_answered()
    ensures { SolicitationsAreAnswered }
{}

/// As long as a UDP socket's first datagram waits for its next hop, each call that sends after the silence, and is
/// granted every transmit token, sends a request for some hardware address. That request begins the next silence.
pub fn requests_go()
    ensures { RequestsGo }
{}

/// After a poll without frames received, addresses and routes are in sync with what was learnt from routers.
pub fn polls_sync_slaac()
    ensures { PollsSyncSlaac }
{}

/// A poll with a budget ends in a call that sends, for which the laws of such calls hold.
pub fn polls_end_in_calls()
    ensures { PollsEndInCalls }
{}

/// So if `poll_at` after such a call names a moment that has passed, there is a pending fragment, an IGMP report that is due,
/// or a socket with one packet less; or a SLAAC sync is pending, which a poll does.
pub fn little_stays_due()
    ensures { LittleStaysDue }
{}

/// The frame of an ARP request, octet by octet and whatever its padding, is read as such a request.
pub fn request_frames_are_read()
    ensures { RequestFramesAreRead }
{}

/// A frame with an echo request over IPv4, by its octets and whatever follows the packet, is read as such a request: it
/// is to the host or to many, has right checksums, and its packet is no fragment.
pub fn ping_frames_are_read()
    ensures { PingFramesAreRead }
{}

/// So it is with a neighbour solicitation whose only option is the source's link-layer address.
pub fn solicitation_frames_are_read()
    ensures { SolicitationFramesAreRead }
{}

/// The sender of an ARP packet to the host, a question or an answer, is a known neighbour after the call that receives it.
pub fn arp_senders_are_learnt()
    ensures { ArpSendersAreLearnt }
{}

/// A neighbour that advertises its own address to the host, with the flag Override, is known after the call that receives
/// this, and nothing is sent.
pub fn advertisers_are_learnt()
    ensures { AdvertisersAreLearnt }
{}

/// An update of the routes leaves just the routes that it lists, and changes nothing else.
pub fn routes_are_set()
    ensures { RoutesAreSet }
{}

/// AnyIP is on or off as it is set, and nothing else changes.
pub fn any_ip_is_set()
    ensures { AnyIpIsSet }
{}

/// After a join that succeeds a host is in the group, whose join is pending if the group wasn't in the table; the other
/// groups stay.
pub fn groups_are_joined()
    ensures { GroupsAreJoined }
{}

/// After a leave that succeeds a host isn't in the group, whose leave is pending if its join was reported; the other groups
/// stay.
pub fn groups_are_left()
    ensures { GroupsAreLeft }
{}

/// At first a host has no address, no route, no neighbour, no group, no slot in use and no pending fragment, and AnyIP is
/// off.
pub fn hosts_begin_with_nothing()
    ensures { HostsBeginWithNothing }
{}
