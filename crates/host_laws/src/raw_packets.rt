//! What raw sockets receive and send.
ghost use Rattle.host_laws.specs.RawExample.{RawPacketArrives};
ghost use Rattle.host_laws.specs.RawPackets.{RunsGetRawPacketsSent};
ghost use Rattle.host_laws.specs.RawTcp.{NetworksSpeakTcpByRaw};

/// A host receives only frames that hosts on its medium sent, and only raw sockets of those hosts speak a protocol. Then
/// each packet of it that the host's raw sockets get in one packet was sent by a raw socket of one of those hosts: it
/// left the front of the socket's queue, as octets that are read as that header and that payload. If no other host's raw
/// socket sends from its source address than one, it was sent by that one. Of packets in fragments it says nothing. For
/// TCP those hosts have no TCP socket, and raw sockets that take each segment.
pub fn runs_get_raw_packets_sent()
    ensures { RunsGetRawPacketsSent }
{}

/// The hosts of a network get frames of one another alone. None of them has a TCP socket, or a raw one for hop-by-hop
/// options, and where it gets a frame it has raw sockets for TCP over both versions of IP. Then only raw sockets speak
/// TCP there, as the law above wants it.
pub fn networks_speak_tcp_by_raw()
    ensures { NetworksSpeakTcpByRaw }
{}

/// A worked example: a raw socket gets and sends packets of its protocol, and gets no datagram.
pub fn raw_packet_arrives()
    ensures { RawPacketArrives }
{}
