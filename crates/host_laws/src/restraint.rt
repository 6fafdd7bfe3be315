//! Laws of what a host must not do, each as the contract of an empty function. They are said by lists, numbers and
//! octets, without the words by which the rules test a frame.
ghost use Rattle.host_laws.specs.Laws.Restraint.Checksums.{WrongHeadersAreDropped};
ghost use Rattle.host_laws.specs.Laws.Restraint.Checksums.{WrongPayloadsAreDropped, WrongPayloadsV6AreDropped};
ghost use Rattle.host_laws.specs.Laws.Restraint.Foreign.{ForeignPacketsAreDropped, ForeignPacketsV6AreDropped};
ghost use Rattle.host_laws.specs.Laws.Restraint.Foreign.{FramesForOthersAreDropped, OwnFramesAreTaken};
ghost use Rattle.host_laws.specs.Laws.Restraint.Foreign.{PacketsFromNoHostAreDropped, PacketsFromNoHostV6AreDropped};
ghost use Rattle.host_laws.specs.Laws.Restraint.Neighbors.{NeighborsComeFromFrames, OtherStepsLearnNobody};
ghost use Rattle.host_laws.specs.Laws.Restraint.NextHop.{GroupsHaveTheirAddresses, PacketsGoByHops, SourcesAreNear};
ghost use Rattle.host_laws.specs.Laws.Restraint.Queries.{JoinsAreToldOnce, ReportsAreAsked, ReportsWait};
ghost use Rattle.host_laws.specs.Laws.Restraint.Rebuilt.{WrongRebuiltPayloadsAreDropped};
ghost use Rattle.host_laws.specs.Laws.Restraint.Replies.{AdvertisementsTellItself, ArpRepliesTellItself};
ghost use Rattle.host_laws.specs.Laws.Restraint.Replies.{EchoesHaveCause, EchoesV6HaveCause, ErrorsHaveCause};
ghost use Rattle.host_laws.specs.Laws.Restraint.Replies.{ErrorsV6HaveCause, RepliesAreOfKinds, ResetsHaveCause};
ghost use Rattle.host_laws.specs.Laws.Restraint.ReplyLengths.{RepliesAreShort};
ghost use Rattle.host_laws.specs.Laws.Restraint.Settings.{FramesKeepSettings, NeighborRoomStays, OtherStepsKeepSettings};
ghost use Rattle.host_laws.specs.Laws.Restraint.Settings.{SendingKeepsSettings, SlotRoomStays, TableRoomStays};
ghost use Rattle.host_laws.specs.Laws.Restraint.Sources.{SourcesAreOwn};
ghost use Rattle.host_laws.specs.Laws.Restraint.Words.{WordsAreLists};
ghost use Rattle.host_laws.specs.Laws.Solicitations.{SolicitationsAreFew};
ghost use Rattle.host_laws.specs.Laws.WellFormed.{PacketsAreWellFormed};

/// An IPv4 packet to an address in no list of the host's sends nothing: not assigned, no group of the host, no
/// broadcast address of an own network, not routed here by AnyIP. It changes nothing but slots for its fragments, and
/// what raw sockets received (RFC 1122 3.2.1.3).
pub fn foreign_packets_are_dropped()
    ensures { ForeignPacketsAreDropped }
{}

/// An IPv6 packet to an address in no list of the host's changes nothing and sends nothing, if no hop-by-hop option
/// asks for more: not assigned, no group of the host, not the solicited-node group of an own address, not ::1 or
/// ff02::1, not routed here by AnyIP (RFC 4291 2.8).
pub fn foreign_packets_v6_are_dropped()
    ensures { ForeignPacketsV6AreDropped }
{}

/// A frame to the hardware address of another host changes nothing and sends nothing (IEEE 802.3 3.2.3).
pub fn frames_for_others_are_dropped()
    ensures { FramesForOthersAreDropped }
{}

/// A host takes each frame to its own hardware address, and each one to many hosts (IEEE 802.3 3.2.3).
pub fn own_frames_are_taken()
    ensures { OwnFramesAreTaken }
{}

/// An IPv4 packet from 255.255.255.255, from a group or from the broadcast address of an own network changes nothing
/// and sends nothing (RFC 1122 3.2.1.3).
pub fn packets_from_no_host_are_dropped()
    ensures { PacketsFromNoHostAreDropped }
{}

/// Nor does an IPv6 packet from a group or from :: (RFC 4291 2.5.2, 2.7). That a solicitation from :: isn't answered is
/// kept, against RFC 4861 7.2.4.
pub fn packets_from_no_host_v6_are_dropped()
    ensures { PacketsFromNoHostV6AreDropped }
{}

/// Where the checksum of IPv4 headers is verified, a packet with a wrong one changes nothing and sends nothing (RFC
/// 1122 3.2.1.2).
pub fn wrong_headers_are_dropped()
    ensures { WrongHeadersAreDropped }
{}

/// A whole IPv4 packet with a wrong checksum of ICMP, UDP or TCP, where that is verified, sends nothing. It changes
/// nothing but what raw sockets received, and how long its sender stays known (RFC 1122 4.1.3.4, RFC 9293 3.1).
pub fn wrong_payloads_are_dropped()
    ensures { WrongPayloadsAreDropped }
{}

/// So it is with ICMPv6, UDP and TCP over IPv6, also after options (RFC 4443 2.3, RFC 8200 8.1).
pub fn wrong_payloads_v6_are_dropped()
    ensures { WrongPayloadsV6AreDropped }
{}

/// So it is with a payload of ICMP, UDP or TCP over IPv4 that a fragment completes, in the call that takes the
/// fragment, whose slot changes too (RFC 791 3.2).
pub fn wrong_rebuilt_payloads_are_dropped()
    ensures { WrongRebuiltPayloadsAreDropped }
{}

/// A call that sends changes no address, no route, no setting, and nothing of what was learnt from routers.
pub fn sending_keeps_settings()
    ensures { SendingKeepsSettings }
{}

/// A neighbour that is known after a received frame was known before at that hardware address, or the frame told just
/// this pair. That was an ARP packet for an address of the host from a sender in one of its networks, or a neighbour
/// message that no router forwarded. It is known until 60 s after at most (RFC 826, RFC 1122 2.3.2.1, RFC 4861 7.2).
pub fn neighbors_come_from_frames()
    ensures { NeighborsComeFromFrames }
{}

/// A step of a command that receives no frame makes no neighbour known.
pub fn other_steps_learn_nobody()
    ensures { OtherStepsLearnNobody }
{}

/// An ARP packet in reply to a frame answers a request for an address of the host, and gives the host's own hardware
/// address for it to the one that asked (RFC 826).
pub fn arp_replies_tell_itself()
    ensures { ArpRepliesTellItself }
{}

/// A neighbour message in reply to a frame is an advertisement of an address of the host, from that address, with the
/// host's own hardware address (RFC 4861 7.2.4).
pub fn advertisements_tell_itself()
    ensures { AdvertisementsTellItself }
{}

/// A packet in reply to a frame has an echo reply or an error of ICMP, the same or an advertisement of ICMPv6, or a
/// segment of TCP. So no frame is answered by a report of a group, a datagram, a request or a raw packet.
pub fn replies_are_of_kinds()
    ensures { RepliesAreOfKinds }
{}

/// An echo reply to a frame goes to the sender of an echo request that the frame brought, and has its identifier, its
/// sequence number and its data (RFC 1122 3.2.2.6).
pub fn echoes_have_cause()
    ensures { EchoesHaveCause }
{}

/// The same over IPv6 (RFC 4443 4.2).
pub fn echoes_v6_have_cause()
    ensures { EchoesV6HaveCause }
{}

/// A message of ICMP in reply to a frame is an echo reply, or an error that quotes the packet which brought it. That
/// was no message of ICMP, its source and its destination are addresses of one host, and no raw socket took it (RFC
/// 1122 3.2.2).
pub fn errors_have_cause()
    ensures { ErrorsHaveCause }
{}

/// An error of ICMPv6 in reply to a frame quotes the packet which brought it, and is sent to its source, which is one
/// host's. It is for an option that isn't to be skipped; or the packet had no message of ICMPv6, and no raw socket took
/// it (RFC 4443 2.4).
pub fn errors_v6_have_cause()
    ensures { ErrorsV6HaveCause }
{}

/// A segment in reply to a frame is the reset of a segment that the frame brought, with the numbers of RFC 9293 3.10.7.1
/// and without data. It goes back to the sender, from the segment's destination. The segment is no reset itself, and is
/// between specified addresses. No raw socket took the packet, unless an aborted TCP socket answers.
pub fn resets_have_cause()
    ensures { ResetsHaveCause }
{}

/// A call that takes a frame without a fragment sends at most as many octets as the frame has, and 48: an error of
/// ICMPv6 has so many before what it quotes. For a frame of less than 38 octets, as no Ethernet carries, it may send 86,
/// those of a neighbour solicitation (RFC 4443 2.4).
pub fn replies_are_short()
    ensures { RepliesAreShort }
{}

/// A packet whose values fit their fields is sent as octets in which who verifies every checksum reads the same: the
/// header, whole, with the length of the payload, and the payload with its checksum, if the host computes all of them.
/// Its segments have a window within the device's bursts; all else is as its socket, or the host, has it.
pub fn packets_are_well_formed()
    ensures { PacketsAreWellFormed }
{}

/// A packet to one host, on Ethernet, goes to its next hop by the lists: itself on an own network, otherwise the
/// gateway of the live route with the longest prefix. It is sent to the hardware address of a known hop. An unknown one
/// is asked for, with the host's own hardware address (RFC 1122 3.3.1, 2.3.2).
pub fn packets_go_by_hops()
    ensures { PacketsGoByHops }
{}

/// Each packet that a call sends is from an address of the host: the one that the host chooses for its destination, in a
/// reply the one to which the frame's packet went, or that was asked for. No echo reply is from a broadcast or a group.
/// What a program bound its socket to, and where the rules depart from an RFC, are cases of their own (RFC 1122 3.2.1.3).
pub fn sources_are_own()
    ensures { SourcesAreOwn }
{}

/// The source for an IPv4 destination is the first address in whose network it is, or without one the first IPv4
/// address (RFC 1122 3.3.4.3).
pub fn sources_are_near()
    ensures { SourcesAreNear }
{}

/// A packet to a group, on Ethernet, is sent to the group's hardware address: 01:00:5e and the low 23 bits, or 33:33
/// and the low 32 bits (RFC 1112 6.4, RFC 2464 7).
pub fn groups_have_their_addresses()
    ensures { GroupsHaveTheirAddresses }
{}

/// A pending answer to a query, after a received frame, was pending before; or the frame brought the query, and the
/// answer is due within the time that this allows, not before (RFC 2236 3, RFC 3810 5.1.3).
pub fn reports_are_asked()
    ensures { ReportsAreAsked }
{}

/// A received frame changes no address, no route, no group and no setting: AnyIP, the hardware address, the reassembly
/// timeout, SLAAC. It changes what was learnt from routers only if it has a router advertisement from a link-local
/// address that no router forwarded, to an Ethernet host with SLAAC (RFC 4861 6.1.2).
pub fn frames_keep_settings()
    ensures { FramesKeepSettings }
{}

/// A step of a command that sets neither addresses nor routes, and that doesn't bring them in line with what was learnt
/// from routers, keeps them.
pub fn other_steps_keep_settings()
    ensures { OtherStepsKeepSettings }
{}

/// No run changes how many neighbours there is room for. Its maker chooses that number.
pub fn neighbor_room_stays()
    ensures { NeighborRoomStays }
{}

/// No run changes how many slots there are for datagrams in fragments. The host's maker chooses that number too.
pub fn slot_room_stays()
    ensures { SlotRoomStays }
{}

/// No run changes for how many addresses, routes and groups there is room. The host's maker chooses these numbers.
pub fn table_room_stays()
    ensures { TableRoomStays }
{}

/// No answer to a query is sent before the moment at which it is due (RFC 2236 3, RFC 3810 6.2).
pub fn reports_wait()
    ensures { ReportsWait }
{}

/// Each frame that reports a join takes a group off those whose join is pending, so it is told of once: kept, against RFC
/// 2236 3 and RFC 3810 6.1, by which a host tells again.
pub fn joins_are_told_once()
    ensures { JoinsAreToldOnce }
{}

/// A host that has solicited no router solicits routers three times at most, whatever it receives and however the
/// clock goes, and each time at least four seconds after the one before, unless a raw socket sends ICMPv6 (RFC 4861
/// 6.3.7, 10).
pub fn solicitations_are_few()
    ensures { SolicitationsAreFew }
{}

/// An address of the list is assigned, an address of one host is unicast, the solicited-node group of an own address is the
/// host's, and a right datagram, segment or message is one: so the laws of service are about them.
pub fn words_are_lists()
    ensures { WordsAreLists }
{}
