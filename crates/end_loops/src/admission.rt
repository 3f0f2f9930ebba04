//! How a datagram is taken, or refused as a whole (own rules over RFC 7016 section 3.5).

ghost use Rattle.std.specs.Prelude.{◌≡◌, ◌≤◌, ◌==◌, false, IfOk, IfErr, OnErr, OnOk, Ok, Err};
ghost use Rattle.std.specs.Prelude.{drop, length, take};
ghost use Rattle.std.specs.FinMap.{get};
ghost use Rattle.endpoint_model.specs.Admission.{heard_in, opened_at, opened_datagram};
ghost use Rattle.endpoint_model.specs.Admission.{opened_first};
ghost use Rattle.endpoint_model.specs.Admission.{opened_in_startup, packet_in};
ghost use Rattle.endpoint_model.specs.Admission.{places_of, sid_at};
ghost use Rattle.endpoint_model.specs.Keying.{AreNear, chunks_of};
ghost use Rattle.rtmfp_base.specs.declared.cause.Cause.TheVariants.{UnknownSession};
ghost use Rattle.end_loops.specs.Walks.{packet_at};

use crypto_profile::open_in_place;
use end_state::{EndState, fault_number, has_mode, session_id};
use endpoint_model::Place;
use packet_scramble::SEALED_AT;
use rtmfp_base::Cause;
use rtmfp_packet::{Packet, read_packet};
use session_core::Unheard;

/// Opens a sealed part in startup at a place with this session ID, in place. Where it doesn't open
/// it stays as it was.
fn open_in_startup(end: &EndState, place: Place, sid: u32, part: &mut [u8]) -> Result<(), Cause>
    requires { sid ≡ sid_at place }
    ensures ok { OnOk result (opened_in_startup end.now place part.old ≡ Ok (drop 32 part.new)) }
    ensures err { IfErr result (λ cause. opened_in_startup end.now place part.old ≡ Err cause) }
    ensures front { OnOk result (take 32 part.new ≡ take 32 part.old) }
    ensures length { length part.new ≡ length part.old }
    ensures same { OnErr result (part.new ≡ part.old) }
{
    let group = end.group_at(place);
    match open_in_place(group.startup(), sid, part) {
        Ok(_) => Ok(()),
        Err(_) => Err(Cause::BadTag),
    }
}

/// Opens a sealed part in a session, in place. It takes no number yet.
fn open_in_session(end: &EndState, near: u32, part: &mut [u8]) -> Result<(), Cause>
    ensures ok { OnOk result (heard_in (get end.now.sessions near) part.old
        ≡ Ok (drop 32 part.new)) }
    ensures err { IfErr result (λ cause. heard_in (get end.now.sessions near) part.old
        ≡ Err cause) }
    ensures front { OnOk result (take 32 part.new ≡ take 32 part.old) }
    ensures length { length part.new ≡ length part.old }
{
    match end.sessions.row(near) {
        Some(row) => match row.session.open(part) {
            Ok(_) => Ok(()),
            Err(Unheard::Short) => Err(Cause::Short),
            Err(Unheard::BadTag) => Err(Cause::BadTag),
            Err(Unheard::Repeated) => Err(Cause::Repeated),
        },
        None => Err(Cause::UnknownSession),
    }
}

/// Opens a sealed part at a place, in place. It takes no number yet.
fn open_at(end: &EndState, place: Place, part: &mut [u8]) -> Result<(), Cause>
    ensures ok { OnOk result (opened_at end.now place part.old ≡ Ok (drop 32 part.new)) }
    ensures err { IfErr result (λ cause. opened_at end.now place part.old ≡ Err cause) }
    ensures front { OnOk result (take 32 part.new ≡ take 32 part.old) }
    ensures length { length part.new ≡ length part.old }
{
    match place {
        Place::Startup { .. } => open_in_startup(end, place, 0, part),
        Place::Attempt { near, .. } => open_in_startup(end, place, near, part),
        Place::Session(near) => open_in_session(end, near, part),
    }
}

/// Opens a sealed part under session ID 0, in place: in the current generation, or else in the next
/// one, where that is known. It says where it belongs, or why it is refused.
fn open_under_zero(end: &EndState, part: &mut [u8]) -> Result<Place, Cause>
    ensures ok { IfOk result (λ place. opened_first end.now UnknownSession
        (places_of end.now 0) part.old ≡ Ok (place, drop 32 part.new)) }
    ensures err { IfErr result (λ cause. opened_first end.now UnknownSession
        (places_of end.now 0) part.old ≡ Err cause) }
    ensures front { OnOk result (take 32 part.new ≡ take 32 part.old) }
    ensures length { length part.new ≡ length part.old }
{
    let current = end.current_place();
    let cause = match open_in_startup(end, current, 0, part) {
        Ok(()) => return Ok(current),
        Err(cause) => cause,
    };
    match end.next_place() {
        Some(next) => match open_in_startup(end, next, 0, part) {
            Ok(()) => Ok(next),
            Err(cause) => Err(cause),
        },
        None => Err(cause),
    }
}

/// Opens a sealed part in place under another session ID, and says where it belongs, or why it is
/// refused. A session that is named so is found at once from then on.
fn open_under(end: &mut EndState, sid: u32, part: &mut [u8]) -> Result<Place, Cause>
    requires { (sid == 0) ≡ false }
    ensures ok { IfOk result (λ place. opened_first end.old UnknownSession
        (places_of end.old sid) part.old ≡ Ok (place, drop 32 part.new)) }
    ensures err { IfErr result (λ cause. opened_first end.old UnknownSession
        (places_of end.old sid) part.old ≡ Err cause) }
    ensures state { end.new ≡ end.old }
    ensures front { OnOk result (take 32 part.new ≡ take 32 part.old) }
    ensures length { length part.new ≡ length part.old }
{
    let Some(place) = end.look_up(sid) else {
        return Err(Cause::UnknownSession);
    };
    match open_at(end, place, part) {
        Ok(()) => Ok(place),
        Err(cause) => Err(cause),
    }
}

/// Opens a datagram in place, and says where it belongs, or why it is refused. Nothing of it
/// counts as taken yet. The session that it names is found at once from then on.
pub fn open_datagram(end: &mut EndState, datagram: &mut [u8]) -> Result<Place, Cause>
    ensures ok { IfOk result (λ place. opened_datagram end.old datagram.old
        ≡ Ok (place, drop 36 datagram.new)) }
    ensures err { IfErr result (λ cause. opened_datagram end.old datagram.old ≡ Err cause) }
    ensures state { end.new ≡ end.old }
    ensures front { OnOk result (take 36 datagram.new ≡ take 36 datagram.old) }
    ensures length { length datagram.new ≡ length datagram.old }
{
    let Some(sid) = session_id(datagram) else {
        return Err(Cause::Short);
    };
    let (_, part) = datagram.split_at_mut(SEALED_AT);
    if sid == 0 {
        open_under_zero(end, part)
    } else {
        open_under(end, sid, part)
    }
}

/// Reads a plain packet that came at a place, or says why it is refused.
pub fn packet_at<'a>(end: &EndState, place: Place, plain: &'a [u8]) -> Result<Packet<'a>, Cause>
    requires { length plain.now ≤ 4096 }
    ensures ok { IfOk result (λ packet. packet_at end.now place (packet_in plain.now)
        ≡ Ok packet) }
    ensures near { IfOk result (λ packet. AreNear packet) }
    ensures few { IfOk result (λ packet. length (chunks_of packet) ≤ 4096) }
    ensures err { IfErr result (λ cause. packet_at end.now place (packet_in plain.now)
        ≡ Err cause) }
{
    match read_packet(plain) {
        Ok(packet) => {
            if has_mode(packet.head(), end.mode_at(place)) {
                Ok(packet)
            } else {
                Err(Cause::WrongPlace)
            }
        }
        Err(fault) => Err(Cause::BadPacket(fault_number(fault))),
    }
}
