//! A ping between sockets of two hosts.
ghost use Rattle.host_laws.specs.Pings.{PingsComeBack};
ghost use Rattle.host_laws.specs.PingsInRuns.{RunsReturnPings};

/// An ICMP socket of A offers an echo request for B, and both know each other. If A sends, B receives that frame, and A
/// receives what B sends then, the reply is last in the queue of a socket of A with the identifier and room. It has the
/// request's identifier, sequence number and data (RFC 792). On a `link` of two hosts these are three steps.
pub fn pings_come_back()
    ensures { PingsComeBack }
{}

/// So it is with the single calls of two runs, whatever either host does in between. If a call of A sends the request,
/// one of B receives it, and one of A receives what B sent then, the reply is last in the queue of A's socket.
pub fn runs_return_pings()
    ensures { RunsReturnPings }
{}
