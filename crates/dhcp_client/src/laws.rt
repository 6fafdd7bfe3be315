//! What a client promises, whatever messages come and whenever it is asked, each law as the contract of an empty function.
ghost use Rattle.dhcp_client.specs.Laws.{AgreementsAreTaken, DeclinesWait, DiscoveryGoesOn, KindsAreSpaced, LeasesAreAnswered, LeasesEnd};
ghost use Rattle.dhcp_client.specs.Laws.{LeasesStay, NeverStuck, OffersAreTaken, PollAtIsExact, RenewalsAreAsked};
ghost use Rattle.dhcp_client.specs.Laws.{RenewalsAreInTime, RenewalsWait, ResetsAskAgain, TestsTakeFourSeconds};

/// A lease comes only from an agreement (ACK) to the request that was sent last: with its number, the client's hardware
/// address, and the identifier of a server, which is the one that the request named, or went to. It ends as many seconds
/// after the request as the agreement says. A host can use it: its address is one that a host of its network can have, and
/// its router and its servers of names are other hosts.
pub fn leases_are_answered()
    ensures { LeasesAreAnswered }
{}

/// After a client was asked for its next message it has no lease that has ended: before the end a lease is renewed, or
/// else it is given up.
pub fn leases_end()
    ensures { LeasesEnd }
{}

/// Two DISCOVERs are three seconds apart at least, and so are two REQUESTs, whatever comes in between: offers, refusals and
/// resets too.
pub fn kinds_are_spaced()
    ensures { KindsAreSpaced }
{}

/// A client always has an instant at which it does something, but for a lease without end.
pub fn never_stuck()
    ensures { NeverStuck }
{}

/// Before that instant nothing happens. From it on something does, and the next instant is a later one.
pub fn poll_at_is_exact()
    ensures { PollAtIsExact }
{}

/// A client that asked for offers asks again after 3 seconds at the earliest, and after 65 at the latest, if none comes.
pub fn discovery_goes_on()
    ensures { DiscoveryGoesOn }
{}

/// A lease that has not ended stays, when the client is asked for its next message.
pub fn leases_stay()
    ensures { LeasesStay }
{}

/// When something is due before a lease ends, the lease is asked for again: of its server, or of all.
pub fn renewals_are_asked()
    ensures { RenewalsAreAsked }
{}

/// A lease is asked for again at T1 and at T2: whatever happened, where the client is asked for its next message then or
/// later, and sent the last one before, it sends a REQUEST from the address of the lease, before T2 to its server and from
/// then on to all. The one exception are the three seconds after the message before.
pub fn renewals_are_in_time()
    ensures { RenewalsAreInTime }
{}

/// Before T1 a client with a lease sends nothing.
pub fn renewals_wait()
    ensures { RenewalsWait }
{}

/// An offer that answers a DISCOVER and can be used is asked for, as soon as something is due: by its number and address, of
/// its server.
pub fn offers_are_taken()
    ensures { OffersAreTaken }
{}

/// An agreement that answers a REQUEST and can be used gives a lease of its address.
pub fn agreements_are_taken()
    ensures { AgreementsAreTaken }
{}

/// A client that had a lease when it was reset asks for its address, as soon as something is due: of any server, and without a
/// server's identifier (RFC 2131 4.3.2).
pub fn resets_ask_again()
    ensures { ResetsAskAgain }
{}

/// A client that has declined its lease has none, and sends nothing for ten seconds, whatever messages come.
pub fn declines_wait()
    ensures { DeclinesWait }
{}

/// An address that is tested isn't in use before four seconds have passed since its test began, however often the client is asked for
/// the request that is due.
pub fn tests_take_four_seconds()
    ensures { TestsTakeFourSeconds }
{}
