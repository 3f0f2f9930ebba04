//! One look at a chunk: why it is discarded, or what it would do. Nothing changes here, and no
//! memory is taken.

ghost use Rattle.std.specs.Prelude.{◌≡◌, ◌==◌, IfErr, IfOk, None, Ok, Some, false, length};
ghost use Rattle.std.specs.Prelude.{nat_lt, true};
ghost use Rattle.std.specs.FinMap.{get};
ghost use Rattle.rtmfp_base.specs.Reasons.{where_true};
ghost use Rattle.rtmfp_forms.specs.Address.{AddressParts};
ghost use Rattle.rtmfp_chunks.specs.declared.kinds.TheConstants.{FRAGMENT, IIKEYING, RIKEYING};
ghost use Rattle.rtmfp_chunks.specs.Chunk.{chunk_of, kind_of, CookieChange};
ghost use Rattle.rtmfp_chunks.specs.FieldReading.{chunk_reading};
ghost use Rattle.rtmfp_packet.specs.Chunks.{shown};
ghost use Rattle.startup.specs.Attempts.{cookie_change_cause};
ghost use Rattle.startup.specs.Keyings.{keying_fault};
ghost use Rattle.endpoint_model.specs.Admission.{group_at, sid_at};
ghost use Rattle.endpoint_model.specs.Effects.{effect, initiator_keyed, is_idle, read_done};
ghost use Rattle.endpoint_model.specs.Effects.{responder_keyed};
ghost use Rattle.endpoint_model.specs.InSessions.{answers_by, moved_by};
ghost use Rattle.endpoint_model.specs.Causes.{chunk_cause, initiator_keying_cause};
ghost use Rattle.endpoint_model.specs.Causes.{read_cause, read_fault, responder_keying_cause};
ghost use Rattle.endpoint_model.specs.Causes.{has_state_for, row_takes, view_fault};
ghost use Rattle.endpoint_model.specs.Kinds.{IsRow};
ghost use Rattle.end_chunks.specs.Judging.{does_nothing, judged_cause, other_cause, other_done};
ghost use Rattle.end_chunks.specs.Judging.{Stands, view_done};

use crate::introducing::{judge_hello, judge_redirect};
use crate::moving::is_answered;
use end_state::{EndState, RowAddresses};
use endpoint_model::{KindRow, Place, Walk, Way};
use identity::Certificate;
use rtmfp_base::Cause;
use rtmfp_chunks::{ChunkFault, ChunkView, read_chunk};
use rtmfp_forms::Address;
use rtmfp_packet::RawChunk;
use startup::{Extension, Found, Greeting, Hearing};
use startup_packets::{
    InitiatorFields, ResponderFields, read_initiator_keying, read_responder_keying,
};

/// The most bytes of a ping that is answered (own).
const PING_LIMIT: usize = 1024;

/// A chunk that isn't discarded, as it was read, with what was found of it.
#[derive(Drop)]
pub(crate) enum Verdict<'a> {
    /// The hello of an initiator with this tag, which is answered to where it came from.
    Hello {
        tag: &'a [u8],
    },
    /// One that was forwarded, which is answered to an address, in the current generation.
    ForwardedHello {
        tag: &'a [u8],
        to: Address,
    },
    /// The hello of an initiator with this discriminator and tag, which selects another end that is
    /// introduced: the session that it is forwarded in, and the addresses that answer it.
    Introduction {
        epd: &'a [u8],
        tag: &'a [u8],
        near: Option<u32>,
        row: Option<RowAddresses>,
    },
    /// A redirect, as what it adds to its attempt.
    Redirect {
        extension: Extension,
    },
    /// The hello of a responder, which has this cookie, and the attempt or search that it answers.
    ResponderHello {
        greeting: Greeting,
        cookie: &'a [u8],
    },
    /// A change of a cookie to this one, and the attempt whose cookie it is.
    CookieChange {
        found: Found,
        new: &'a [u8],
    },
    /// The keying of an initiator, and what hearing it would be.
    InitiatorKeying {
        fields: InitiatorFields<'a>,
        hearing: Hearing,
    },
    /// The keying of a responder, and the peer of the attempt that it opens.
    ResponderKeying {
        fields: ResponderFields<'a>,
        peer: [u8; 32],
    },
    /// A chunk that is answered by this one, in the session that it came in.
    Reply {
        chunk: ChunkView<'a>,
    },
    /// A close of the session that it came in.
    Close,
    /// The answer to this end's close of that session.
    CloseAck,
    /// The answer to the ping of a test, which moves that session.
    PingReply {
        bytes: &'a [u8],
    },
    /// A chunk that does nothing, as another answer to a ping.
    Quiet,
}

/// The session ID of a place.
pub(crate) fn sid_at(place: Place) -> u32
    ensures { result ≡ sid_at place }
{
    match place {
        Place::Startup { .. } => 0,
        Place::Attempt { near, .. } => near,
        Place::Session(near) => near,
    }
}

/// Why the certificate of a responder's hello, which ends a payload of this length, isn't one.
fn view_fault(len: usize, view: &ChunkView<'_>) -> Option<Cause>
    ensures { result ≡ view_fault len (chunk_of view.now) }
{
    match view {
        ChunkView::RHello { cert, .. } => match Certificate::read(cert) {
            Ok(_) => None,
            Err(_) => Some(Cause::Malformed(len.saturating_sub(cert.len()) as u64)),
        },
        ChunkView::IHello { .. }
        | ChunkView::FIHello { .. }
        | ChunkView::Redirect { .. }
        | ChunkView::CookieChange { .. }
        | ChunkView::IIKeying { .. }
        | ChunkView::RIKeying { .. }
        | ChunkView::Ping { .. }
        | ChunkView::PingReply { .. }
        | ChunkView::Close
        | ChunkView::CloseAck
        | ChunkView::Fragment { .. } => None,
    }
}

/// The fields of a chunk that is no keying, or why one of them or its certificate can't be read.
pub(crate) fn read_formed(kind: u8, payload: &[u8]) -> Result<ChunkView<'_>, Cause>
    ensures reads { IfOk result (λ view. chunk_reading kind payload.now ≡ Ok (chunk_of view)) }
    ensures kind { IfOk result (λ view. kind_of (chunk_of view) ≡ kind) }
    ensures none { IfOk result (λ _. read_fault (length payload.now) (chunk_reading kind
        payload.now) ≡ None) }
    ensures refused { IfErr result (λ cause. read_fault (length payload.now) (chunk_reading kind
        payload.now) ≡ Some cause) }
{
    match read_chunk(kind, payload) {
        Ok(view) => match view_fault(payload.len(), &view) {
            Some(cause) => Err(cause),
            None => Ok(view),
        },
        Err(ChunkFault::Malformed(at)) => Err(Cause::Malformed(at as u64)),
        Err(ChunkFault::Unknown(kind)) => Err(Cause::UnknownChunk(kind)),
    }
}

/// A ping that is too long to be answered.
fn ping_cause(bytes: &[u8]) -> Option<Cause>
    ensures { result ≡ where_true (nat_lt 1024 (length bytes.now)) (Cause.Wide (length bytes.now)) }
{
    if bytes.len() > PING_LIMIT {
        Some(Cause::Wide(bytes.len() as u64))
    } else {
        None
    }
}

/// Whether the session with this session ID takes chunks of a type, as it stands.
fn session_takes(end: &EndState, near: u32, kind: &KindRow) -> bool
    requires { IsRow kind.now }
    ensures { result ≡ row_takes (get end.now.sessions near) kind.now.kind }
{
    match end.sessions.row(near) {
        Some(row) => kind.stage_takes(&row.session),
        None => false,
    }
}

/// Whether what is at a place takes chunks of a type, as it stands.
fn has_state_for(end: &EndState, place: Place, kind: &KindRow) -> bool
    requires { IsRow kind.now }
    ensures { result ≡ has_state_for end.now place kind.now.kind }
{
    match place {
        Place::Startup { .. } => true,
        Place::Attempt { .. } => true,
        Place::Session(near) => session_takes(end, near, kind),
    }
}

/// What an answer to a ping does, which came from an address at a place: it moves the session,
/// or nothing.
fn judge_reply<'a>(end: &EndState, place: Place, from: &Address, bytes: &'a [u8]) -> Verdict<'a>
    ensures stands { Stands end.now place from.now (λ _. moved_by end.now (sid_at place)
        from.now bytes.now (get end.now.sessions (sid_at place))) result }
    ensures quiet { answers_by from.now bytes.now (get end.now.sessions (sid_at place)) ≡ false
        → result ≡ Verdict.Quiet }
{
    if is_answered(end, sid_at(place), from, bytes) {
        Verdict::PingReply { bytes }
    } else {
        Verdict::Quiet
    }
}

/// What a change of a cookie does, or why it is discarded.
fn judge_change<'a>(
    end: &EndState,
    place: Place,
    old: &[u8],
    new: &'a [u8],
) -> Result<Verdict<'a>, Cause>
    ensures ok { IfOk result (λ verdict. (from : AddressParts) → Stands end.now place from
        (λ _. read_done end.now place from (Ok (CookieChange old.now new.now))) verdict) }
    ensures none { IfOk result (λ _. cookie_change_cause end.now.startup (sid_at place) old.now
        new.now (group_at end.now place).generation ≡ None) }
    ensures refused { IfErr result (λ cause. cookie_change_cause end.now.startup (sid_at place)
        old.now new.now (group_at end.now place).generation ≡ Some cause) }
{
    let generation = end.group_at(place).number();
    match end
        .startup
        .judge_cookie_change(sid_at(place), old, new, generation)
    {
        Ok(found) => Ok(Verdict::CookieChange { found, new }),
        Err(cause) => Err(cause),
    }
}

/// What a chunk does that is no keying, or why it is discarded.
fn judge_view<'a>(
    end: &EndState,
    place: Place,
    from: &Address,
    view: ChunkView<'a>,
) -> Result<Verdict<'a>, Cause>
    requires { (kind_of (chunk_of view) == FRAGMENT) ≡ false }
    ensures ok { IfOk result (Stands end.now place from.now
        (λ _. view_done end.now place from.now (chunk_of view.entry))) }
    ensures none { IfOk result (λ _. read_cause end.now place from.now
        (Ok (chunk_of view.entry)) ≡ None) }
    ensures refused { IfErr result (λ cause. read_cause end.now place from.now
        (Ok (chunk_of view.entry)) ≡ Some cause) }
    ensures quiet { does_nothing end.now place from.now (chunk_of view.entry) ≡ true →
        IfOk result (λ verdict. verdict ≡ Verdict.Quiet) }
{
    match view {
        ChunkView::IHello { epd, tag } => judge_hello(end, place, from, epd, tag),
        ChunkView::Redirect { tag, list } => judge_redirect(end, place, from, tag, list),
        ChunkView::FIHello { epd, reply, tag } => {
            match end.startup.initiator_hello_cause(epd, tag) {
                Some(cause) => Err(cause),
                None => Ok(Verdict::ForwardedHello { tag, to: reply }),
            }
        }
        ChunkView::RHello { tag, cookie, cert } => {
            match end.startup.judge_responder_hello(tag, cookie, cert) {
                Ok(greeting) => Ok(Verdict::ResponderHello { greeting, cookie }),
                Err(cause) => Err(cause),
            }
        }
        ChunkView::CookieChange { old, new } => judge_change(end, place, old, new),
        ChunkView::Ping { bytes } => match ping_cause(bytes) {
            Some(cause) => Err(cause),
            None => Ok(Verdict::Reply {
                chunk: ChunkView::PingReply { bytes },
            }),
        },
        ChunkView::Close => Ok(Verdict::Close),
        ChunkView::CloseAck => Ok(Verdict::CloseAck),
        ChunkView::PingReply { bytes } => Ok(judge_reply(end, place, from, bytes)),
        // Neither of these is judged by its fields.
        ChunkView::IIKeying { .. } | ChunkView::RIKeying { .. } => Ok(Verdict::Quiet),
        ChunkView::Fragment { .. } => unreachable!(),
    }
}

/// What an initiator's keying does, or why it is discarded.
fn judge_initiator<'a>(
    end: &EndState,
    place: Place,
    walk: &Walk,
    from: &Address,
    kind: &KindRow,
    payload: &'a [u8],
) -> Result<Verdict<'a>, Cause>
    requires row { IsRow kind.now }
    requires kind { kind.now.kind ≡ IIKEYING }
    ensures ok { IfOk result (Stands end.now place from.now
        (λ draws. initiator_keyed end.now place from.now draws payload.now)) }
    ensures none { IfOk result (λ _. judged_cause place walk.now IIKEYING
        (keying_fault IIKEYING payload.now)
        (initiator_keying_cause end.now place walk.now from.now payload.now) ≡ None) }
    ensures refused { IfErr result (λ cause. judged_cause place walk.now IIKEYING
        (keying_fault IIKEYING payload.now)
        (initiator_keying_cause end.now place walk.now from.now payload.now) ≡ Some cause) }
{
    let fields = match read_initiator_keying(payload) {
        Ok(fields) => fields,
        Err(cause) => return Err(cause),
    };
    if !kind.takes_in(place, walk) {
        return Err(Cause::WrongPlace);
    }
    if walk.keyed {
        return Err(Cause::SecondKeying);
    }
    let group = end.group_at(place);
    match end
        .startup
        .judge_initiator_keying(&fields, from, end.moment, end.full(), group)
    {
        Ok(hearing) => Ok(Verdict::InitiatorKeying { fields, hearing }),
        Err(cause) => Err(cause),
    }
}

/// What a responder's keying does, or why it is discarded. Once its session is open the attempt
/// isn't there any more.
fn judge_responder<'a>(
    end: &EndState,
    place: Place,
    walk: &Walk,
    kind: &KindRow,
    payload: &'a [u8],
) -> Result<Verdict<'a>, Cause>
    requires row { IsRow kind.now }
    requires kind { kind.now.kind ≡ RIKEYING }
    ensures ok { IfOk result (λ verdict. (from : AddressParts) → Stands end.now place from
        (λ _. responder_keyed end.now (sid_at place) from payload.now) verdict) }
    ensures none { IfOk result (λ _. judged_cause place walk.now RIKEYING
        (keying_fault RIKEYING payload.now)
        (responder_keying_cause end.now place payload.now) ≡ None) }
    ensures refused { IfErr result (λ cause. judged_cause place walk.now RIKEYING
        (keying_fault RIKEYING payload.now)
        (responder_keying_cause end.now place payload.now) ≡ Some cause) }
{
    let fields = match read_responder_keying(payload) {
        Ok(fields) => fields,
        Err(cause) => return Err(cause),
    };
    if !kind.takes_in(place, walk) {
        return Err(Cause::WrongPlace);
    }
    let group = end.group_at(place);
    match end.startup.judge_opening(sid_at(place), &fields, group) {
        Ok(peer) => Ok(Verdict::ResponderKeying { fields, peer }),
        Err(cause) => Err(cause),
    }
}

/// What a chunk does that is judged by its fields, or why it is discarded.
fn judge_fields<'a>(
    end: &EndState,
    place: Place,
    walk: &Walk,
    from: &Address,
    kind: &KindRow,
    chunk: &RawChunk<'a>,
) -> Result<Verdict<'a>, Cause>
    requires row { IsRow kind.now }
    requires kind { kind.now.kind ≡ chunk.now.kind }
    requires apart { (chunk.now.kind == FRAGMENT) ≡ false }
    ensures ok { IfOk result (Stands end.now place from.now
        (λ _. other_done end.now place from.now (shown chunk.now))) }
    ensures none { IfOk result (λ _. judged_cause place walk.now chunk.now.kind
        (read_fault (length chunk.now.payload.now)
        (chunk_reading chunk.now.kind chunk.now.payload.now))
        (other_cause end.now place from.now (shown chunk.now)) ≡ None) }
    ensures refused { IfErr result (λ cause. judged_cause place walk.now chunk.now.kind
        (read_fault (length chunk.now.payload.now)
        (chunk_reading chunk.now.kind chunk.now.payload.now))
        (other_cause end.now place from.now (shown chunk.now)) ≡ Some cause) }
    ensures quiet { is_idle end.now place from.now (shown chunk.now) ≡ true →
        IfOk result (λ verdict. verdict ≡ Verdict.Quiet) }
{
    let view = match read_formed(chunk.kind, chunk.payload) {
        Ok(view) => view,
        Err(cause) => return Err(cause),
    };
    if !kind.takes_in(place, walk) {
        return Err(Cause::WrongPlace);
    }
    if !has_state_for(end, place, kind) {
        return Err(Cause::WrongState);
    }
    judge_view(end, place, from, view)
}

/// What a chunk does that is none of flows, no fragment and of a type with this row, which came from
/// an address after the walk over those before it; or why it is discarded.
pub(crate) fn judge<'a>(
    end: &EndState,
    place: Place,
    walk: &Walk,
    from: &Address,
    kind: &KindRow,
    chunk: &RawChunk<'a>,
) -> Result<Verdict<'a>, Cause>
    requires row { IsRow kind.now }
    requires kind { kind.now.kind ≡ chunk.now.kind }
    requires apart { (chunk.now.kind == FRAGMENT) ≡ false }
    ensures ok { IfOk result (Stands end.now place from.now
        (λ draws. effect end.now place walk.now from.now draws (shown chunk.now))) }
    ensures none { IfOk result (λ _. chunk_cause end.now place walk.now from.now
        (shown chunk.now) ≡ None) }
    ensures refused { IfErr result (λ cause. chunk_cause end.now place walk.now from.now
        (shown chunk.now) ≡ Some cause) }
    // An answer to a ping that moves nothing does nothing, and so a redirect that adds nothing.
    ensures quiet { is_idle end.now place from.now (shown chunk.now) ≡ true →
        IfOk result (λ verdict. verdict ≡ Verdict.Quiet) }
{
    match kind.way {
        Way::InitiatorKeying => judge_initiator(end, place, walk, from, kind, chunk.payload),
        Way::ResponderKeying => judge_responder(end, place, walk, kind, chunk.payload),
        Way::Fragment => unreachable!(),
        Way::Fields => judge_fields(end, place, walk, from, kind, chunk),
    }
}
