//! How many polls there are until nothing is due.
ghost use Rattle.host_laws.specs.Progress.{PollsComeToRest, PollsMakeProgress, QueuesOnlyShrink, RunsComeToRest};
ghost use Rattle.host_laws.specs.TwoPolls.{TwoPollsSendTwo};

/// A call that sends puts no packet into a queue of a socket. If every transmit token is granted and no packet leaves a
/// queue, the pending fragments are those from before without the first.
pub fn queues_only_shrink()
    ensures { QueuesOnlyShrink }
{}

/// A poll with a budget, without frames received and with every transmit token granted: if something is still due after
/// it at its moment, the host has less work than before. Work is a number: eight for each packet that a socket has
/// queued, one for each pending fragment, and one for each group that an IGMP answer has still to name.
pub fn polls_make_progress()
    ensures { PollsMakeProgress }
{}

/// So a program that polls at a moment as long as something is due at it polls at most once more than the host had
/// work: then nothing is due.
pub fn polls_come_to_rest()
    ensures { PollsComeToRest }
{}

/// So it is from each call of a run on.
pub fn runs_come_to_rest()
    ensures { RunsComeToRest }
{}

/// A worked example: two datagrams that a socket has queued, to a known neighbour, are sent in two polls with a budget
/// of one. Then nothing is due.
pub fn two_polls_send_two()
    ensures { TwoPollsSendTwo }
{}
