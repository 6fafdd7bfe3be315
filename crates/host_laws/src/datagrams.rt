//! What UDP sockets receive and send.
ghost use Rattle.host_laws.specs.Datagrams.{RunsKeepDatagrams, RunsKeepQueues};
ghost use Rattle.host_laws.specs.EndToEnd.{RunsGetWhatWasSent};
ghost use Rattle.host_laws.specs.Network.{RunsGetWhatSomeSent};

/// Between two turns of their owner, UDP sockets hold what they held, less what left the front of their transmit
/// queues, plus what was delivered to them meanwhile, as far as there was room. What was delivered arrived in frames
/// received meanwhile, at most one datagram in each. What left was sent in frames, or dropped.
pub fn runs_keep_queues()
    ensures { RunsKeepQueues }
{}

/// So it is in each part of a run.
pub fn runs_keep_datagrams()
    ensures { RunsKeepDatagrams }
{}

/// A host receives only frames that another host on its medium sent. Then each datagram that its UDP sockets get was
/// sent by a UDP socket of the other host, to that endpoint and with that payload, in one packet or in fragments. No
/// raw socket of the other host may send UDP; for datagrams in fragments, what is reassembled must be what was
/// fragmented.
pub fn runs_get_what_was_sent()
    ensures { RunsGetWhatWasSent }
{}

/// A host receives only frames that hosts on its medium sent. Then each datagram that its UDP sockets get in a whole
/// packet was sent by a UDP socket of one of those hosts, to that endpoint and with that payload. If no other host sends
/// from its source address than one, it was sent by that one. No raw socket of these hosts may send UDP. Of datagrams in
/// fragments it says nothing.
pub fn runs_get_what_some_sent()
    ensures { RunsGetWhatSomeSent }
{}
