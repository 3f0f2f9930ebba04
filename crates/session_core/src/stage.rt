//! The sides of a session, its stages, and what is due of it.

ghost use Rattle.std.specs.Prelude.{◌≡◌};
ghost use Rattle.session_core.specs.Closing.{is_held, is_past, is_past_last};
ghost use Rattle.session_core.specs.Deadline.{after, after_last};

/// A moment to which none comes: moments are below 2^64.
pub(crate) const NEVER: u128 = 1 << 64;

/// Which end of a session this is.
#[derive(Clone, Copy, Debug, PartialEq, Eq)]
pub enum Role {
    /// The end whose attempt was answered.
    Initiator,
    /// The end that answered.
    Responder,
}

/// How far a session has come.
#[derive(Clone, Copy, Debug, PartialEq, Eq)]
pub enum Stage {
    /// It was born here and no datagram of the peer has confirmed it yet.
    Opening,
    /// It is open at this end.
    Open,
    /// This end closes it.
    NearClose,
    /// The peer has closed it, and this end answers it for a while.
    FarLinger,
    /// It is over.
    Closed,
}

/// What is due of a session.
#[derive(Clone, Copy, Debug, PartialEq, Eq)]
pub enum SessionDue {
    /// It ends, since no datagram of the peer confirmed it in time.
    Unconfirmed,
    /// It ends, since it took nothing for too long.
    Idle,
    /// Its closing or lingering is over.
    Over,
    /// Its close is sent again.
    RepeatClose,
}

/// Whether a session of this stage hasn't ended.
pub(crate) fn is_held(stage: Stage) -> bool
    ensures { result ≡ is_held stage }
{
    stage == Stage::Opening || stage == Stage::Open
}

/// Whether a moment is at least so many milliseconds after another.
pub(crate) fn is_past(span: u64, at: u64, moment: u64) -> bool
    ensures { result ≡ is_past span at moment }
{
    moment.saturating_sub(at) >= span
}

/// The same of the last of some sendings, also where there was none.
pub(crate) fn is_past_last(span: u64, last: Option<u64>, moment: u64) -> bool
    ensures { result ≡ is_past_last span last moment }
{
    match last {
        None => true,
        Some(at) => is_past(span, at, moment),
    }
}

/// So many milliseconds after a moment.
pub(crate) fn after(span: u64, at: u64) -> u128
    ensures { result ≡ after span at }
{
    at as u128 + span as u128
}

/// The same of the last of some sendings: at once where there was none.
pub(crate) fn after_last(span: u64, last: Option<u64>) -> u128
    ensures { result ≡ after_last span last }
{
    match last {
        None => 0,
        Some(at) => after(span, at),
    }
}
