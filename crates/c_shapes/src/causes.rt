//! The numbers of why something ended and why something was discarded (rtmfp.h).

ghost use Rattle.std.specs.Prelude.{◌≡◌};
ghost use Rattle.c_shapes.specs.Shown.{cause_shown, refusal_shown, why_number};

use glare_core::Why;
use rtmfp_base::Cause;

/// The number of why something ended.
pub(crate) fn why_number(why: &Why) -> u32
    ensures { result ≡ why_number why.now }
{
    match why {
        Why::Cancelled => 1,
        Why::Expired => 2,
        Why::Glare => 3,
        Why::Override => 4,
        Why::Unconfirmed => 5,
        Why::Near => 6,
        Why::Far => 7,
        Why::Idle => 8,
    }
}

/// The number of a cause, and its value.
pub(crate) fn cause_shown(cause: &Cause) -> (u32, u64)
    ensures { result ≡ cause_shown cause.now }
{
    match cause {
        Cause::Short => (1, 0),
        Cause::UnknownSession => (2, 0),
        Cause::BadTag => (3, 0),
        Cause::Repeated => (4, 0),
        Cause::BadPacket(fault) => (5, u64::from(*fault)),
        Cause::UnknownChunk(kind) => (6, u64::from(*kind)),
        Cause::Malformed(offset) => (7, *offset),
        Cause::WrongPlace => (8, 0),
        Cause::NotSelected => (9, 0),
        Cause::NoAttempt => (10, 0),
        Cause::WrongPeer => (11, 0),
        Cause::WrongState => (12, 0),
        Cause::BadCookie => (13, 0),
        Cause::BadSignature => (14, 0),
        Cause::WrongResponder => (15, 0),
        Cause::OwnCertificate => (16, 0),
        Cause::Stale(seen) => (17, *seen),
        Cause::Glare(n) => (18, *n),
        Cause::PeersFull(count) => (19, *count),
        Cause::SessionsFull(count) => (20, *count),
        Cause::SecondKeying => (21, 0),
        Cause::UnknownFlow => (22, 0),
        Cause::BeyondBuffer(held) => (23, *held),
        Cause::AfterFinal(number) => (24, *number),
        Cause::AckBeyond(number) => (25, *number),
        Cause::CandidatesFull(count) => (26, *count),
        Cause::Fragment => (27, 0),
        Cause::FlowsFull(count) => (28, *count),
        Cause::Wide(count) => (29, *count),
        Cause::AlreadyHeld(near) => (30, u64::from(*near)),
        Cause::AttemptsSpent => (31, 0),
        Cause::Piece(_, told) => (32, *told),
        Cause::BadWhole(fault) => (33, u64::from(*fault)),
    }
}

/// The number of the refusal of a piece; 0 for any other cause.
pub(crate) fn refusal_shown(cause: &Cause) -> u64
    ensures { result ≡ refusal_shown cause.now }
{
    match cause {
        Cause::Piece(refusal, _) => u64::from(*refusal),
        _ => 0,
    }
}
