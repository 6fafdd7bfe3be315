//! Worked examples of the rules, each as the contract of an empty function.
ghost use Rattle.host_machine.specs.Examples.ArpAndEcho.{EchoIsAnswered, PacketIsAnswered};
ghost use Rattle.host_machine.specs.Examples.ArpAndEcho.{RequestIsAnswered, SenderIsDiscovered};
ghost use Rattle.host_machine.specs.Examples.AnyIp.{AddressesAreRoutedHere};
ghost use Rattle.host_machine.specs.Examples.Choices.{ChoicesAreMade};
ghost use Rattle.host_machine.specs.Examples.Discovery.{NeighborIsSolicited};
ghost use Rattle.host_machine.specs.Examples.Ipv6 as ipv6;
ghost use Rattle.host_machine.specs.Examples.Groups.{GroupsFollowAddresses, JoinsAreReported};
ghost use Rattle.host_machine.specs.Examples.Groups.{LeaveIsReported, QueriesAreAnswered, EachPartAsksForAToken};
ghost use Rattle.host_machine.specs.Examples.Slaac.{AddressesFollowPrefixes, AdvertisementsAreApplied, RoutersAreAsked};
ghost use Rattle.host_machine.specs.Examples.Fragments.{DatagramIsRebuilt, FragmentWaits};
ghost use Rattle.host_machine.specs.Examples.Fragments.{PacketGoesInPieces, TenAreCut, TimeoutsAreTested};
ghost use Rattle.host_machine.specs.Examples.Polling.{RequestIsPolled, WaitIsDue};
ghost use Rattle.host_machine.specs.Examples.Sockets.{ConfigurationsAreTested, ConnectionIsReset};
ghost use Rattle.host_machine.specs.Examples.Sockets.{DatagramIsDelivered, DatagramIsRefused, ProtocolIsRefused};
ghost use Rattle.host_machine.specs.Examples.Sockets.{RawSocketReceives, RepliesAreMeasured, SocketWaits};
ghost use Rattle.host_machine.specs.Examples.Sockets.{WindowFitsBurst};
ghost use Rattle.host_machine.specs.Examples.Ignored.{TurnedFramesAreIgnored};

/// A worked example: an ARP request, octet by octet, is answered by the reply, octet by octet.
pub fn request_is_answered()
    ensures { RequestIsAnswered }
{}

/// A worked example: an echo request of a known sender, octet by octet, is answered by the reply.
pub fn echo_is_answered()
    ensures { EchoIsAnswered }
{}

/// A worked example: on a medium without hardware addresses the packet of an echo request is answered by the packet of
/// the reply.
pub fn packet_is_answered()
    ensures { PacketIsAnswered }
{}

/// A worked example: if the sender of an echo request is unknown, the request for its hardware address is sent in place
/// of the reply.
pub fn sender_is_discovered()
    ensures { SenderIsDiscovered }
{}

/// A worked example: if the hardware address of an IPv6 neighbour is unknown, a neighbour solicitation is sent in place
/// of the packet.
pub fn neighbor_is_solicited()
    ensures { NeighborIsSolicited }
{}

/// A neighbour that solicits the host is answered by an advertisement, and known from then on.
pub fn solicitation_is_answered()
    ensures { ipv6.SolicitationIsAnswered }
{}

/// A datagram over IPv6 reaches the socket that listens at its port.
pub fn ipv6_datagram_is_delivered()
    ensures { ipv6.DatagramIsDelivered }
{}

/// A datagram over IPv6 is sent to the neighbour that is known.
pub fn ipv6_datagram_is_sent()
    ensures { ipv6.DatagramIsSent }
{}

/// A worked example: a datagram reaches the socket that listens at its port.
pub fn datagram_is_delivered()
    ensures { DatagramIsDelivered }
{}

/// A worked example: a datagram for a port at which no socket listens is answered by the error, which quotes it.
pub fn datagram_is_refused()
    ensures { DatagramIsRefused }
{}

/// A worked example: a raw socket receives a whole packet, and no error is sent for it.
pub fn raw_socket_receives()
    ensures { RawSocketReceives }
{}

/// A worked example: a segment that opens a connection, which no socket accepts, is answered by a reset.
pub fn connection_is_reset()
    ensures { ConnectionIsReset }
{}

/// A worked example: a packet of an unknown protocol is answered by the error, which quotes it.
pub fn protocol_is_refused()
    ensures { ProtocolIsRefused }
{}

/// A worked example: the reply to a ping is as long as the ping, and an error has 28 octets more than the frame for
/// which it is sent.
pub fn replies_are_measured()
    ensures { RepliesAreMeasured }
{}

/// A worked example: a socket whose destination is unknown waits for a second, and is then asked again.
pub fn socket_waits()
    ensures { SocketWaits }
{}

/// A worked example: a window is limited to what a device's bursts can take.
pub fn window_fits_burst()
    ensures { WindowFitsBurst }
{}

/// A worked example: which configurations are refused.
pub fn configurations_are_tested()
    ensures { ConfigurationsAreTested }
{}

/// A worked example: a poll receives an ARP request within its budget, and answers it.
pub fn request_is_polled()
    ensures { RequestIsPolled }
{}

/// A worked example: a socket that waits is due at the end of its wait, and then immediately.
pub fn wait_is_due()
    ensures { WaitIsDue }
{}

/// A worked example: ten octets in fragments of eight.
pub fn ten_are_cut()
    ensures { TenAreCut }
{}

/// A worked example: the first fragment of a datagram, octet by octet, takes a slot.
pub fn fragment_waits()
    ensures { FragmentWaits }
{}

/// A worked example: the last fragment, octet by octet, completes the datagram.
pub fn datagram_is_rebuilt()
    ensures { DatagramIsRebuilt }
{}

/// A worked example: a packet that is too long for the device is sent in fragments, octet by octet.
pub fn packet_goes_in_pieces()
    ensures { PacketGoesInPieces }
{}

/// A worked example: a reassembly timeout of a day is accepted, and a longer one refused.
pub fn timeouts_are_tested()
    ensures { TimeoutsAreTested }
{}

/// A worked example: a join is reported, octet by octet, by IGMP over IPv4 and by MLD over IPv6.
pub fn joins_are_reported()
    ensures { JoinsAreReported }
{}

/// A worked example: a leave is reported by an IGMP message, octet by octet, and the group is removed.
pub fn leave_is_reported()
    ensures { LeaveIsReported }
{}

/// A worked example: when three groups are reported in answer to a general query, and one in answer to a specific
/// query. A query for a group that was left, or for all where there is none, changes nothing.
pub fn queries_are_answered()
    ensures { QueriesAreAnswered }
{}

/// A worked example: without transmit tokens, joins, leaves and reports each ask for one of their own; an IGMP report
/// stays due, and an MLD report is dropped.
pub fn each_part_asks_for_a_token()
    ensures { EachPartAsksForAToken }
{}

/// A worked example: a host with SLAAC solicits routers.
pub fn routers_are_asked()
    ensures { RoutersAreAsked }
{}

/// A worked example: what is learnt from a router advertisement. Nothing is learnt from one that a router forwarded,
/// from one from elsewhere, or by a host without SLAAC.
pub fn advertisements_are_applied()
    ensures { AdvertisementsAreApplied }
{}

/// A worked example: addresses and routes follow what was learnt until it expires.
pub fn addresses_follow_prefixes()
    ensures { AddressesFollowPrefixes }
{}

/// A worked example: the solicited-node groups of a host follow its addresses.
pub fn groups_follow_addresses()
    ensures { GroupsFollowAddresses }
{}

/// A worked example: which addresses are the host's own with AnyIP, until when, and which are not.
pub fn addresses_are_routed_here()
    ensures { AddressesAreRoutedHere }
{}

/// Worked examples: an ARP request, an echo request, a datagram, a segment and a solicitation, each turned in one field,
/// are ignored. They are to another hardware address, for another address, from afar, with a wrong checksum, from a
/// broadcast address or a group, or a reset.
pub fn turned_frames_are_ignored()
    ensures { TurnedFramesAreIgnored }
{}

/// Worked examples: which source a host chooses, for which targets it answers, and which messages it hears.
pub fn choices_are_made()
    ensures { ChoicesAreMade }
{}
