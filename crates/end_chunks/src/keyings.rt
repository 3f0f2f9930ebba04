//! Keyings that bear and open sessions.

ghost use Rattle.std.specs.Prelude.{◌≡◌, ◌<◌, ◌≤◌, Ok, OnErr, OnOk, Some};
ghost use Rattle.std.specs.FinMap.{get};
ghost use Rattle.startup.specs.State.{peer_of_attempt};
ghost use Rattle.startup_packets.specs.Readings.{initiator_keying_in, responder_keying_in};
ghost use Rattle.startup_packets.specs.Read.{initiator_of, responder_of};
ghost use Rattle.startup.specs.Judging.{judged_initiator};
ghost use Rattle.endpoint_model.specs.Admission.{group_at};
ghost use Rattle.endpoint_model.specs.Effects.{initiator_keyed, responder_keyed, sessions_born};
ghost use Rattle.endpoint_model.specs.Effects.{sessions_opened, without_ended};
ghost use Rattle.endpoint_model.specs.State.{Done, full, nothing};

use crypto_profile::Generation;
use end_state::{EndState, Outbox, blank, fact_entry};
use endpoint_model::{Draws, Entry, Place};
use glare_core::Fact;
use rtmfp_chunks::ChunkView;
use rtmfp_forms::Address;
use session_core::{Role, Session};
use session_table::SessionTable;
use startup::{Hearing, Keyed};
use startup_packets::{InitiatorFields, ResponderFields};
use std::alloc::AllocError;

/// The bytes of a ping without bytes of its own.
const EMPTY_PING: usize = 3;

/// Hears an initiator's keying that was found to be this, which came from an address at a place.
pub(crate) fn initiator_keyed(
    end: &mut EndState,
    place: Place,
    fields: &InitiatorFields<'_>,
    hearing: &Hearing,
    from: &Address,
    draws: &Draws,
    out: &mut Outbox,
) -> Result<(), AllocError>
    requires reads { initiator_keying_in fields.now.payload.now ≡ Ok (initiator_of fields.now) }
    requires judged { judged_initiator end.old.startup fields.now.payload.now from.now
        end.old.moment (full end.old) (group_at end.old place) (initiator_of fields.now)
        ≡ Ok hearing.now }
    ensures ok { OnOk result (Done (initiator_keyed end.old place from.now draws.now
        fields.now.payload.now) end.new out.old out.new) }
    ensures err { OnErr result (Done (nothing end.old) end.new out.old out.new) }
{
    let near = end.free_from(draws.word);
    out.make_room(3)?;
    end.sessions.reserve()?;
    let blank = blank(end.alloc)?;
    let group = end.groups.at(&end.startup, place).copy();
    match end.startup.apply_initiator_keying(
        fields,
        hearing,
        from,
        end.moment,
        near,
        draws.nonce,
        &group,
    ) {
        Ok(Keyed::Change(answer)) => {
            out.add_some(end.seal_answer(blank, &answer));
            Ok(())
        }
        Ok(Keyed::Again(answer)) => {
            out.add_some(end.seal_answer(blank, &answer));
            Ok(())
        }
        Ok(
            Keyed::Birth {
                ended,
                born,
                answer,
            },
        ) => {
            keep_born(
                &mut end.sessions,
                &ended,
                &born,
                &end.print,
                from,
                &group,
                end.moment,
            );
            out.add_some(fact_entry(ended));
            out.add(Entry::Fact(born));
            out.add_some(end.seal_answer(blank, &answer));
            Ok(())
        }
        Err(_) => Err(AllocError),
    }
}

/// Takes a responder's keying that opens the attempt with this session ID, which is one with
/// this peer; it came from an address.
pub(crate) fn responder_keyed(
    end: &mut EndState,
    near: u32,
    fields: &ResponderFields<'_>,
    peer: &[u8; 32],
    from: &Address,
    out: &mut Outbox,
) -> Result<(), AllocError>
    requires reads { responder_keying_in fields.now.payload.now ≡ Ok (responder_of fields.now) }
    requires peer { peer_of_attempt (get end.old.startup.attempts near) ≡ Some peer.now }
    ensures ok { OnOk result (Done (responder_keyed end.old near from.now
        fields.now.payload.now) end.new out.old out.new) }
    ensures err { OnErr result (Done (nothing end.old) end.new out.old out.new) }
{
    let blanks = end.blanks(EMPTY_PING)?;
    out.make_room(1 + blanks.count())?;
    end.sessions.reserve()?;
    // That of its attempt, which isn't there any more then.
    let group = end.groups.of_attempt(&end.startup, near).copy();
    let fact = end.startup.apply_responder_keying(near, peer, fields);
    keep_opened(
        &mut end.sessions,
        &fact,
        &end.print,
        from,
        &group,
        end.moment,
    );
    out.add(Entry::Fact(fact));
    end.send_in_session(blanks, near, from, &ChunkView::Ping { bytes: &[] }, out);
    Ok(())
}

/// Keeps a session that was born under this secret of the group, half-open, and forgets what ended.
/// There is room for one more.
fn keep_born(
    sessions: &mut SessionTable,
    ended: &Option<Fact>,
    born: &Fact,
    print: &[u8; 32],
    from: &Address,
    group: &Generation,
    moment: u64,
)
    requires { 0 < sessions.old.free }
    ensures { sessions.new.rows ≡ sessions_born sessions.old.rows ended.now born.now print.now
        from.now group.now moment }
{
    if let Fact::Born(joined) = born {
        forget_ended(sessions, ended);
        let half_open = Session::under(
            joined,
            print,
            Role::Responder,
            *from,
            group.secret(),
            group.number(),
            moment,
        );
        sessions.keep(half_open);
    }
}

/// Keeps a session that was opened under this secret of the group. There is room for one more.
fn keep_opened(
    sessions: &mut SessionTable,
    opened: &Fact,
    print: &[u8; 32],
    from: &Address,
    group: &Generation,
    moment: u64,
)
    requires { 0 < sessions.old.free }
    ensures { sessions.new.rows ≡ sessions_opened sessions.old.rows opened.now print.now from.now
        group.now moment }
{
    if let Fact::Opened(joined) = opened {
        let session = Session::under(
            joined,
            print,
            Role::Initiator,
            *from,
            group.secret(),
            group.number(),
            moment,
        );
        sessions.keep(session);
    }
}

/// Forgets the session that a fact ended, where there is one.
fn forget_ended(sessions: &mut SessionTable, ended: &Option<Fact>)
    ensures rows { sessions.new.rows ≡ without_ended sessions.old.rows ended.now }
    ensures free { sessions.old.free ≤ sessions.new.free }
{
    if let Some(Fact::Ended { near, .. }) = ended {
        sessions.forget(*near);
    }
}
