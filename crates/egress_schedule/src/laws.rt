//! What a schedule promises, whatever comes, each law as the contract of an empty function.
ghost use Rattle.egress_schedule.specs.Laws.{AskersHaveTurns, KnownPass, LongPacketsApart, LongPacketsExpected, OrderIsKept, PatienceEnds};
ghost use Rattle.egress_schedule.specs.Laws.{PatienceIsKept, TurnsAreKept, TurnsCome, TurnsStay, WaitsEndTogether, WaitsGoOn};

/// After a round no socket waits for a neighbour that it has waited for as long as the patience: its packet was given
/// up. So whatever a stranger sends, a packet stops those after it for that long at most, until the next round.
pub fn patience_ends()
    ensures { PatienceEnds }
{}

/// Of the sockets that ask again, each has its turn, or fewer stand before it afterwards. So a socket that waits has
/// its turn to ask after at most as many seconds as sockets wait, and one with a long packet after as many packets.
pub fn turns_come()
    ensures { TurnsCome }
{}

/// Where no socket asks the turn stays, so rounds in which none asks take no turn from a socket. It is always one of
/// the indices, or the one after them, as the law above asks.
pub fn turns_stay()
    ensures { TurnsStay }
{}

/// After a round all sockets that wait may ask again at one instant. So they are in one turn, and none finds the
/// silence of another one that asks in between.
pub fn waits_end_together()
    ensures { WaitsEndTogether }
{}

/// A long packet is begun only where no piece of another one is left, and by one socket in a round, wherever it stood in
/// its queue before. So the pieces of two packets never mix, as long as the schedule is told of each long packet.
pub fn long_packets_apart()
    ensures { LongPacketsApart }
{}

/// A schedule that was told of each long packet, as the law above asks, still expects one after a round, as long as one
/// is queued: behind short ones too. It has to be told anew only of those that are queued later.
pub fn long_packets_expected()
    ensures { LongPacketsExpected }
{}

/// A packet that goes on waiting in a round does so since the same moment as before, or it is given up in it. So the
/// patience counts from the round in which it was first found to wait, however often its socket isn't asked. It is given
/// up after the patience, and before that only where others wait behind it, or its socket just gave up that neighbour.
pub fn waits_go_on()
    ensures { WaitsGoOn }
{}

/// A packet that has waited for the patience is given up in the first round after that, through as many rounds as it
/// waited, and whether its socket was asked in each of them or not.
pub fn patience_is_kept()
    ensures { PatienceIsKept }
{}

/// A socket that asks again has its turn in the round, or fewer stand before it from the turn on afterwards. So it has its
/// turn after at most as many rounds in which it asks as there are sockets.
pub fn askers_have_turns()
    ensures { AskersHaveTurns }
{}

/// Where a socket has its turn to ask in a round, no socket before it is asked that has something to send, whether it waited
/// or not, but one whose neighbour is known by now, or whose first packet is for one that is. So whoever comes with packets for neighbours that aren't there, however
/// often, takes no turn of a socket that waits.
pub fn turns_are_kept()
    ensures { TurnsAreKept }
{}

/// A packet to a neighbour that is known goes in its round, whatever waits before it in its socket: it comes before the others,
/// and its socket may be asked. A longer one than the link's packets goes in its turn. Where the socket's wait is over, it may
/// have its turn to ask in that round; then the packet goes in the next one.
pub fn known_pass()
    ensures { KnownPass }
{}

/// Where a packet passes others, those to each destination keep their order.
pub fn order_is_kept()
    ensures { OrderIsKept }
{}
