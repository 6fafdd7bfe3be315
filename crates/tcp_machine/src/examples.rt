//! Worked examples of the rules, by figures and examples of the RFCs, and beside them what must not be.
ghost use Rattle.tcp_machine.specs.Examples.Handshakes.{BasicHandshake, BasicHandshakeAccepted, SimultaneousOpen, OldDuplicateSyn, LateHandshake, AnswersInSynReceived, OldSynAtBothSides, NoHandshake};
ghost use Rattle.tcp_machine.specs.Examples.Closings.{NormalClose, NormalCloseOfOther, SimultaneousClose, NoClose};
ghost use Rattle.tcp_machine.specs.Examples.Once.{EndCountsOnce, TimeWaitStays, WindowsScaled};
ghost use Rattle.tcp_machine.specs.Examples.Resets.{HalfOpen, Abort, EmptySegments, NoReset};
ghost use Rattle.tcp_machine.specs.Examples.Timeouts.{Estimates, Losses};
ghost use Rattle.tcp_machine.specs.Examples.Transfers.{InOrder, OutOfOrder, OneCell, Nagle, Retransmission, ClosedWindow, SmallWindow, Wraps, SynOptions};
ghost use Rattle.tcp_machine.specs.Examples.Sack.{Rfc2018, MoreSack, SackOfRing};
ghost use Rattle.tcp_machine.specs.Examples.Blocks.{Recovers, ShowsLoss, Tells};
ghost use Rattle.tcp_machine.specs.Examples.Paths.{PathsTold, BlackHoles, Unreachables};
ghost use Rattle.tcp_machine.specs.Examples.Silence.{GivingUp, HandshakesTimed, KeepAlive, Recovery, Reopens, TimesOut};

/// Handshakes (RFC 9293 3.5, figures 6 to 8).
pub fn handshakes()
    ensures opening { BasicHandshake }
    ensures accepted { BasicHandshakeAccepted }
    ensures simultaneous { SimultaneousOpen }
    ensures old_duplicate { OldDuplicateSyn }
    ensures late { LateHandshake }
    ensures answers { AnswersInSynReceived }
    ensures misled { OldSynAtBothSides }
    ensures none { NoHandshake }
{}

/// Closings (RFC 9293 3.6, figures 12 and 13).
pub fn closings()
    ensures first { NormalClose }
    ensures other { NormalCloseOfOther }
    ensures simultaneous { SimultaneousClose }
    ensures once { EndCountsOnce }
    ensures waits { TimeWaitStays }
    ensures none { NoClose }
{}

/// Resets, and what brings none (RFC 9293 3.5.1, figure 9; RFC 5961).
pub fn resets()
    ensures half_open { HalfOpen }
    ensures abort { Abort }
    ensures empty { EmptySegments }
    ensures none { NoReset }
{}

/// Time-outs and losses (RFC 6298, RFC 5681, RFC 6582).
pub fn timeouts()
    ensures estimates { Estimates }
    ensures losses { Losses }
{}

/// Octets on their way (RFC 9293 3.7, 3.8; RFC 6298; RFC 7323).
pub fn transfers()
    ensures in_order { InOrder }
    ensures out_of_order { OutOfOrder }
    ensures one_cell { OneCell }
    ensures nagle { Nagle }
    ensures retransmission { Retransmission }
    ensures closed_window { ClosedWindow }
    ensures small_window { SmallWindow }
    ensures wraps { Wraps }
    ensures options { SynOptions }
    ensures scaled { WindowsScaled }
{}

/// Peers that don't answer, and a segment that is lost (RFC 9293 3.8.3, 3.8.4; RFC 5681; RFC 6582).
pub fn silences()
    ensures keep_alive { KeepAlive }
    ensures giving_up { GivingUp }
    ensures times_out { TimesOut }
    ensures recovery { Recovery }
    ensures reopens { Reopens }
    ensures handshakes { HandshakesTimed }
{}

/// Blocks of selective acknowledgements (RFC 2018 4, 7).
pub fn selective_acknowledgements()
    ensures examples { Rfc2018 }
    ensures more { MoreSack }
    ensures ring { SackOfRing }
{}

/// Paths with a smaller MTU, and peers that can't be reached (RFC 9293 3.7.5, 3.9.2.2; RFC 1191, RFC 8201, RFC 4821).
pub fn paths()
    ensures told { PathsTold }
    ensures black_holes { BlackHoles }
    ensures unreachable { Unreachables }
{}

/// Blocks that arrive, and the recovery that they guide (RFC 2018 5, RFC 6675).
pub fn blocks_that_arrive()
    ensures recovers { Recovers }
    ensures shows { ShowsLoss }
    ensures tells { Tells }
{}
