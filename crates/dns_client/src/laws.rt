//! What a query promises, whatever messages come and whenever it is asked, each law as the contract of an empty function.
ghost use Rattle.dns_client.specs.Laws.{AddressesAreTold, AddressesStand, AnswersAreTaken, FirstIsAsked, NeverStuck, PollAtIsExact, QueriesAreSpaced};
ghost use Rattle.dns_client.specs.Laws.{QueriesEnd, RefusalsMoveOn, ResultsAreAnswers, ServersGoRound};

/// Two queries of a name to one server are two seconds apart at least, whatever comes in between.
pub fn queries_are_spaced()
    ensures { QueriesAreSpaced }
{}

/// The servers are asked in a circle, whatever comes in between: none is asked again before all others were.
pub fn servers_go_round()
    ensures { ServersGoRound }
{}

/// A query asks the server first that it was made with.
pub fn first_is_asked()
    ensures { FirstIsAsked }
{}

/// Where the server that was just asked refuses, the next one is asked at once, if there is one that wasn't asked in this round.
pub fn refusals_move_on()
    ensures { RefusalsMoveOn }
{}

/// A query that waits for an answer has an instant at which something is due.
pub fn never_stuck()
    ensures { NeverStuck }
{}

/// A query that its owner asks ten seconds for each server after it began doesn't wait any more, whatever came.
pub fn queries_end()
    ensures { QueriesEnd }
{}

/// Before the instant that [`crate::DnsQuery::poll_at`] tells nothing happens, and after what is due was done it is a
/// later one.
pub fn poll_at_is_exact()
    ensures { PollAtIsExact }
{}

/// A query has its result from a message that responds to what was asked last: from that server, from port 53 to the port that
/// asked, with the query's number, and with its question, unless the server refuses. Otherwise that server couldn't be
/// reached, or the query has timed out.
pub fn results_are_answers()
    ensures { ResultsAreAnswers }
{}

/// The addresses of a result stand in the message that gave them, in records of the name that was asked for, or of one that
/// a chain of aliases in the message leads to from it.
pub fn addresses_stand()
    ensures { AddressesStand }
{}

/// An answer of the server that was just asked gives the query its result, if its records are whole and the server hasn't
/// failed.
pub fn answers_are_taken()
    ensures { AnswersAreTaken }
{}

/// An A or AAAA record of an answer, of the name that was asked for or of one that its aliases lead to, is told as its address,
/// unless four others are, or there are too many aliases.
pub fn addresses_are_told()
    ensures { AddressesAreTold }
{}
