//! The names of the causes for which datagrams and chunks are discarded.
ghost use Rattle.std.specs.Prelude.{◌≡◌, ◌++◌, OnOk};
ghost use Rattle.rtmfp_report.specs.CauseText.{cause_text};

use rtmfp_base::Cause;
use rtmfp_text::Text;
use std::alloc::AllocError;

/// Adds the name of a cause, and its value where it has one.
#[tactic(auto, unfolding(crate::specs::CauseText::cause_text))]
pub(crate) fn push_cause(cause: &Cause, text: &mut Text) -> Result<(), AllocError>
    ensures { OnOk result (text.new ≡ text.old ++ cause_text cause.now) }
{
    match cause {
        Cause::Short => text.push("short"),
        Cause::UnknownSession => text.push("unknown-session"),
        Cause::BadTag => text.push("bad-tag"),
        Cause::Repeated => text.push("repeated"),
        Cause::BadPacket(fault) => text.push_number_field("bad-packet ", u64::from(*fault)),
        Cause::UnknownChunk(kind) => text.push_field("unknown-chunk ", &[*kind]),
        Cause::Malformed(offset) => text.push_number_field("malformed ", *offset),
        Cause::WrongPlace => text.push("wrong-place"),
        Cause::NotSelected => text.push("not-selected"),
        Cause::NoAttempt => text.push("no-attempt"),
        Cause::WrongPeer => text.push("wrong-peer"),
        Cause::WrongState => text.push("wrong-state"),
        Cause::BadCookie => text.push("bad-cookie"),
        Cause::BadSignature => text.push("bad-signature"),
        Cause::WrongResponder => text.push("wrong-responder"),
        Cause::OwnCertificate => text.push("own-certificate"),
        Cause::Stale(seen) => text.push_number_field("stale ", *seen),
        Cause::Glare(n) => text.push_number_field("glare ", *n),
        Cause::PeersFull(limit) => text.push_number_field("peers-full ", *limit),
        Cause::SessionsFull(limit) => text.push_number_field("sessions-full ", *limit),
        Cause::SecondKeying => text.push("second-keying"),
        Cause::UnknownFlow => text.push("unknown-flow"),
        Cause::BeyondBuffer(held) => text.push_number_field("beyond-buffer ", *held),
        Cause::AfterFinal(number) => text.push_number_field("after-final ", *number),
        Cause::AckBeyond(number) => text.push_number_field("ack-beyond ", *number),
        Cause::CandidatesFull(count) => text.push_number_field("candidates-full ", *count),
        Cause::Fragment => text.push("fragment"),
        Cause::FlowsFull(count) => text.push_number_field("flows-full ", *count),
        Cause::Wide(count) => text.push_number_field("wide ", *count),
        Cause::AlreadyHeld(near) => text.push_number_field("already-held ", u64::from(*near)),
        Cause::AttemptsSpent => text.push("attempts-spent"),
        Cause::Piece(refusal, told) => {
            text.push_number_field("piece ", u64::from(*refusal))?;
            text.push_number_field(" ", *told)
        }
        Cause::BadWhole(fault) => text.push_number_field("bad-whole ", u64::from(*fault)),
    }
}
