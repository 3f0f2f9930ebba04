//! What the table of lawful logs refuses: for each line and each of its conditions a short log that
//! breaks just this one. The functions do nothing: the contract of each says which logs aren't
//! lawful.
//!
//! That each log of an end is lawful is `endpoint`'s law; here stands that this law says something.
#![tactic(auto)]

ghost use Rattle.endpoint_checks.specs.Births.{TheTableRefusesBirths, TheTableRefusesKeyings, TheTableRefusesLaterBirths};
ghost use Rattle.endpoint_checks.specs.Closings.{TheTableRefusesClosings};
ghost use Rattle.endpoint_checks.specs.Ends.{TheTableRefusesCancels, TheTableRefusesExpiries, TheTableRefusesWays};
ghost use Rattle.endpoint_checks.specs.Generations.{TheTableRefusesAdvances, TheTableRefusesAnswersInOthers, TheTableRefusesComers, TheTableRefusesKeyingsInOthers, TheTableRefusesLearnts};
ghost use Rattle.endpoint_checks.specs.Histories.{HistoriesRefuseDisagreed, HistoriesRefuseForged, HistoriesRefuseForgedInSessions, HistoriesRefuseStale};
ghost use Rattle.endpoint_checks.specs.Opens.{TheTableRefusesAnswers, TheTableRefusesConfirms, TheTableRefusesOpenings};
ghost use Rattle.endpoint_checks.specs.Sends.{TheTableRefusesAnswersSent, TheTableRefusesKeyingsSent, TheTableRefusesNumbers, TheTableRefusesSends, TheTableRefusesSendsInSessions};
ghost use Rattle.endpoint_checks.specs.Searches.{TheTableRefusesHellos, TheTableRefusesSearches, TheTableRefusesSeeks, TheTableRefusesUnseeks};
ghost use Rattle.endpoint_checks.specs.SessionEnds.{TheTableRefusesFars, TheTableRefusesIdles, TheTableRefusesNears, TheTableRefusesUnconfirmed};
ghost use Rattle.endpoint_checks.specs.Starts.{TheTableRefusesStarts};
ghost use Rattle.endpoint_checks.specs.Stops.{NoIdleTickStops, NoneStopsBefore, StopsAreInOrder, StopsTellTheirChunks};

/// Attempts that start without an open towards their peer, with another nonce, another number, or a
/// session ID that is 0 or in use.
pub fn starts()
    ensures { TheTableRefusesStarts }
{}

/// Searches that begin without a seek of their name, or under a session ID that is 0 or in use.
pub fn seeks()
    ensures { TheTableRefusesSeeks }
{}

/// Searches that are over without that unseek, outside of a tick or in one that comes too early,
/// and others than those that stand.
pub fn unseeks()
    ensures { TheTableRefusesUnseeks }
{}

/// Attempts that start by a datagram without a search, after it was over or answered, with another
/// session ID, nonce or number, and by one that doesn't open in the startup context.
pub fn searches()
    ensures { TheTableRefusesSearches }
{}

/// Attempts that start by a responder's hello with another tag, another name, another end's
/// certificate or none.
pub fn hellos()
    ensures { TheTableRefusesHellos }
{}

/// Attempts that end as cancelled without that cancel.
pub fn cancels()
    ensures { TheTableRefusesCancels }
{}

/// Attempts that end as expired outside of a tick, or in one that comes too early.
pub fn expiries()
    ensures { TheTableRefusesExpiries }
{}

/// Attempts and sessions that make way for a session that isn't born directly after.
pub fn ways()
    ensures { TheTableRefusesWays }
{}

/// Half-open sessions that end as unconfirmed outside of a tick, or in one that comes too early,
/// and others that end so.
pub fn unconfirmed()
    ensures { TheTableRefusesUnconfirmed }
{}

/// Sessions that end as closed by this end without that close.
pub fn nears()
    ensures { TheTableRefusesNears }
{}

/// Sessions that end as closed by the peer without a datagram with a close that they take.
pub fn fars()
    ensures { TheTableRefusesFars }
{}

/// Kept sessions that end as idle outside of a tick, or in one that comes too early after their
/// beginning or after the last datagram that they took, and others that end so.
pub fn idles()
    ensures { TheTableRefusesIdles }
{}

/// Closings that are over where nothing is closing, by another call than a tick or one that takes
/// a datagram, in a tick that comes too early, and without an answer to a close that is taken.
pub fn closings()
    ensures { TheTableRefusesClosings }
{}

/// Sessions that are born as the first thing that an end does, with a session ID, a nonce, a count
/// or an offer that no birth has, or of a datagram that doesn't open to a startup packet.
pub fn births()
    ensures { TheTableRefusesBirths }
{}

/// Sessions that are born of a keying that isn't the datagram's first, names another responder or
/// another peer, isn't signed, or has a cookie that isn't good.
pub fn keyings()
    ensures { TheTableRefusesKeyings }
{}

/// Sessions that are born where something is held with the peer, of a keying that isn't new, or
/// where there is no row or no place.
pub fn later_births()
    ensures { TheTableRefusesLaterBirths }
{}

/// Attempts that open without an answer, and answers to no attempt.
pub fn openings()
    ensures { TheTableRefusesOpenings }
{}

/// Attempts that open to a responder's keying that isn't signed or says something else.
pub fn answers()
    ensures { TheTableRefusesAnswers }
{}

/// Sessions that are confirmed without a datagram that opens in them, or that aren't half-open.
pub fn confirms()
    ensures { TheTableRefusesConfirms }
{}

/// Datagrams that go out and aren't sealed in their context, or go out in one of a generation for
/// which the group has no secret.
pub fn sends()
    ensures { TheTableRefusesSends }
{}

/// Datagrams that go out with one number in one context.
pub fn numbers()
    ensures { TheTableRefusesNumbers }
{}

/// Initiators' keyings that go out without an attempt that is held, in another generation than the
/// only one that the end has known, or that say something else than the attempt.
pub fn keyings_sent()
    ensures { TheTableRefusesKeyingsSent }
{}

/// Responders' keyings that go out without a session that was born here and is held, in another
/// generation than the only one that the end has known, or that say something else than the
/// session.
pub fn answers_sent()
    ensures { TheTableRefusesAnswersSent }
{}

/// Datagrams that go out in the context of a session that isn't held, towards this end, in another
/// generation than the session's, or under another session ID than the peer's.
pub fn sends_in_sessions()
    ensures { TheTableRefusesSendsInSessions }
{}

/// Generations that are learnt without a learn, where a next one is known, or with another number
/// than the one after the current generation's.
pub fn learnts()
    ensures { TheTableRefusesLearnts }
{}

/// Generations that become the current one without an advance, where no next one is known, or with
/// another number than the next one's.
pub fn advances()
    ensures { TheTableRefusesAdvances }
{}

/// Sessions that are born, and attempts that open, by a datagram that opens in none of the
/// generations in which it may come: in none that is known, in one that was current before, or in
/// another than that of the attempt's keying.
pub fn comers()
    ensures { TheTableRefusesComers }
{}

/// Initiators' keyings that go out in another generation than the responder's hello came in, or
/// than the first keying of their attempt went out in. First ones that go out in a call without a
/// responder's hello, or with one that their attempt doesn't take: with another tag, the certificate
/// of another end or none, or a cookie of more than 128 bytes, in a packet of another mode than
/// startup, or where an attempt or a search under a lower session ID has its tag as well.
pub fn keyings_in_others()
    ensures { TheTableRefusesKeyingsInOthers }
{}

/// Responders' keyings, and datagrams in sessions, that go out in another generation than that in
/// which the initiator's keying came, such as the current one.
pub fn answers_in_others()
    ensures { TheTableRefusesAnswersInOthers }
{}

/// Histories in which an end takes a datagram that nobody sent in its context before, though it was
/// sent in that of another generation.
pub fn forged()
    ensures startup { HistoriesRefuseForged }
    ensures sessions { HistoriesRefuseForgedInSessions }
{}

/// Histories in which a nonce was drawn twice, or in which two ends have one fingerprint.
pub fn stale()
    ensures { HistoriesRefuseStale }
{}

/// Histories in which two ends keep different sessions, or in which attempts open, are born or end
/// otherwise than agreed histories allow, also as the ends are in different generations.
pub fn disagreed()
    ensures { HistoriesRefuseDisagreed }
{}

/// Where a datagram that finds no memory can stop: acks behind a chunk that found none, and more
/// chunks than there are, aren't among it. One that opens and confirms no session doesn't stop
/// before it was taken, and a tick with nothing due doesn't stop.
pub fn stops()
    ensures datagrams { StopsAreInOrder }
    ensures before { NoneStopsBefore }
    ensures ticks { NoIdleTickStops }
{}

/// What a stop of a datagram tells: how many of its chunks were gone through. Just these were, and
/// none of one that wasn't taken.
pub fn stops_tell()
    ensures { StopsTellTheirChunks }
{}
