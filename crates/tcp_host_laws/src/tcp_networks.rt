//! Connections of TCP on a network of hosts.

ghost use Rattle.tcp_host_laws.specs.TcpNetworks.Arrivals.{PacketsWereSentInLives};
ghost use Rattle.tcp_host_laws.specs.TcpNetworks.Networks.{NetworksBring, SegmentsComeFromLives};
ghost use Rattle.tcp_host_laws.specs.TcpNetworks.Orders.{NetworksOrder};
ghost use Rattle.tcp_host_laws.specs.TcpNetworks.Queues.{QueuesHoldWhatWasSent};
ghost use Rattle.tcp_host_laws.specs.TcpNetworks.Readings.{NetworksKeep};
ghost use Rattle.tcp_host_laws.specs.TcpNetworks.Receptions.{QueuesHoldWhatIsBrought};

/// In the run of a host whose owner does nothing but turns of a host of connections: each packet of TCP that waits to
/// be sent at a raw socket, and so each that leaves its queue, is of a segment that a connection there sent in its
/// life, between its ends, or a reset that belongs to none.
pub fn queues_hold_what_was_sent()
    ensures { QueuesHoldWhatWasSent }
{}

/// A host gets frames of hosts of which that holds. Then each packet of TCP that one of its raw sockets gets in one
/// piece is of a segment that a connection of one of those hosts sent in its life, or a reset that belongs to none.
pub fn packets_were_sent_in_lives()
    ensures { PacketsWereSentInLives }
{}

/// In the run of such a host, that gets no packet of TCP in fragments: each packet of TCP that waits to be received
/// at a raw socket is read as a segment that a connection of one of those hosts sent in its life, between the ends
/// reversed, or as a reset.
pub fn queues_hold_what_is_brought()
    ensures { QueuesHoldWhatIsBrought }
{}

/// On a network of hosts: each packet of TCP that waits to be received before a move is read as a segment that a
/// connection of one of the hosts sent in its life, in a move before it, between the ends reversed, or as a reset.
pub fn networks_bring()
    ensures { NetworksBring }
{}

/// On a network of hosts: whatever segment comes to a connection in a move was sent by a connection of one of the
/// hosts, in a move before it, between the ends reversed; or it is a reset.
pub fn segments_come_from_lives()
    ensures { SegmentsComeFromLives }
{}

/// On a network of hosts that speak TCP by raw sockets alone, and whose owners do nothing but turns of a host of
/// connections: the acts of two lives of different hosts, of which each is the only one between its ends, and begun by no
/// cookie, have an order in which whatever comes to the one had been sent by the other, or is a reset.
pub fn networks_order()
    ensures { NetworksOrder }
{}

/// On such a network, of two lives of different hosts, of which each is the only one between its ends, and begun by no cookie:
/// the acts of both have such an order. If nothing that comes is older than 2^31 octets, what a program read from the one is a beginning
/// of what the other one's program wrote, and all of it, once it is told the end.
pub fn networks_keep()
    ensures { NetworksKeep }
{}
