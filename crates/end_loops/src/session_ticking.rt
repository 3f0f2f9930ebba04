//! What time makes due of sessions.

ghost use Rattle.std.specs.Prelude.{◌≡◌, IfSome, OnErr, OnOk, Some, is_some, true};
ghost use Rattle.std.specs.FinMap.{get};
ghost use Rattle.std.specs.Option.{option_map};
ghost use Rattle.session_core.specs.declared.stage.SessionDue.TheVariants.{RepeatClose};
ghost use Rattle.session_core.specs.Closing.{first_due};
ghost use Rattle.session_flows.specs.Timing.{overdue_in};
ghost use Rattle.session_table.specs.FlowTimes.{DataFalls, OverdueWaits};
ghost use Rattle.endpoint_model.specs.Effects.{session_item};
ghost use Rattle.endpoint_model.specs.FlowTimes.{due_row, row_due};
ghost use Rattle.endpoint_model.specs.State.{Done, nothing};
ghost use Rattle.end_state.specs.Steps.{data_sent_by};
ghost use Rattle.end_loops.specs.DueItems.{RowFalls, abandoned_by, dropped_by, end_due_by};
ghost use Rattle.end_loops.specs.DueItems.{handed_on, kept_alive_in, row_due_by, told_item};

use crate::ticking::DueItem;
use crate::walking::BODY;
use end_state::{EndState, Outbox};
use endpoint_model::{Entry, RowDue};
use glare_core::Why;
use rtmfp_chunks::ChunkView;
use session_core::SessionDue;
use std::alloc::AllocError;

/// The bytes of a chunk without a payload.
const BARE: usize = 3;

/// The first thing that is due of a session, by rising session IDs.
pub(crate) fn due_session(end: &mut EndState) -> Option<DueItem>
    ensures item { result ≡ option_map told_item
        (session_item end.old.moment (due_row end.old)) }
    ensures same { end.new ≡ end.old }
{
    let found = end.sessions.first_due(end.moment);
    handed_on(found)
}

/// The same as it is handed on.
fn handed_on(found: Option<(u32, RowDue)>) -> Option<DueItem>
    ensures { result ≡ handed_on found }
{
    match found {
        Some((near, due)) => Some(DueItem::Session { near, due }),
        None => None,
    }
}

/// Does what is due of a session or of its flows.
pub(crate) fn session_due(
    end: &mut EndState,
    near: u32,
    due: RowDue,
    out: &mut Outbox,
) -> Result<(), AllocError>
    requires there { is_some (get end.old.sessions near) ≡ true }
    requires due { IfSome (get end.old.sessions near)
        (λ row. row_due end.old.moment row ≡ Some due) }
    ensures ok { OnOk result (Done (row_due_by end.old near due (get end.old.sessions near))
        end.new out.old out.new) }
    ensures err { OnErr result (Done (nothing end.old) end.new out.old out.new) }
    ensures falls { OnOk result
        (RowFalls due end.old.moment (get end.old.sessions near)) }
{
    match due {
        RowDue::Session(due) => end_due(end, near, due, out),
        RowDue::Abandon { flow, seq } => abandon(end, near, flow, seq, out),
        RowDue::Data => send_data(end, near, out),
        RowDue::Keepalive => keep_alive(end, near, out),
    }
}

/// Does what is due of a session itself.
fn end_due(
    end: &mut EndState,
    near: u32,
    due: SessionDue,
    out: &mut Outbox,
) -> Result<(), AllocError>
    requires there { is_some (get end.old.sessions near) ≡ true }
    requires due { IfSome (get end.old.sessions near)
        (λ row. first_due row.session end.old.moment ≡ Some due) }
    ensures ok { OnOk result (Done (end_due_by end.old near due (get end.old.sessions near))
        end.new out.old out.new) }
    ensures err { OnErr result (Done (nothing end.old) end.new out.old out.new) }
{
    match due {
        SessionDue::Unconfirmed => drop_session(end, near, Why::Unconfirmed, out),
        SessionDue::Idle => drop_session(end, near, Why::Idle, out),
        SessionDue::Over => end.finish_closing(near, out),
        SessionDue::RepeatClose => repeat_close(end, near, out),
    }
}

/// Abandons the first message of a session's flows that is sent no longer, which begins at this
/// number of this flow.
fn abandon(
    end: &mut EndState,
    near: u32,
    flow: u64,
    seq: u64,
    out: &mut Outbox,
) -> Result<(), AllocError>
    requires there { is_some (get end.old.sessions near) ≡ true }
    requires due { IfSome (get end.old.sessions near)
        (λ row. overdue_in row.session row.flows end.old.moment ≡ Some (flow, seq)) }
    ensures ok { OnOk result (Done (abandoned_by end.old near flow seq (get end.old.sessions near))
        end.new out.old out.new) }
    ensures err { OnErr result (Done (nothing end.old) end.new out.old out.new) }
    ensures falls { OnOk result
        (IfSome (get end.old.sessions near) (λ row. OverdueWaits end.old.moment row)) }
{
    out.make_room(1)?;
    end.abandon_overdue(near);
    out.add(Entry::Abandoned { near, flow, seq });
    Ok(())
}

/// Sends flow data in a session.
fn send_data(end: &mut EndState, near: u32, out: &mut Outbox) -> Result<(), AllocError>
    ensures ok { OnOk result (Done (data_sent_by end.old near (get end.old.sessions near))
        end.new out.old out.new) }
    ensures err { OnErr result (Done (nothing end.old) end.new out.old out.new) }
    ensures falls { OnOk result
        (IfSome (get end.old.sessions near) (λ row. DataFalls end.old.moment row)) }
{
    let blanks = end.blanks(BODY)?;
    out.make_room(blanks.count())?;
    end.send_data(blanks, near, out);
    Ok(())
}

/// A session ends for this cause, and is forgotten.
fn drop_session(end: &mut EndState, near: u32, why: Why, out: &mut Outbox) -> Result<(), AllocError>
    ensures ok { OnOk result (Done (dropped_by end.old near why (get end.old.sessions near))
        end.new out.old out.new) }
    ensures err { OnErr result (Done (nothing end.old) end.new out.old out.new) }
{
    out.make_room(1)?;
    out.add_some(end.end_session(near, why));
    end.forget_session(near);
    Ok(())
}

/// Sends the close of a session again (RFC 7016 section 3.5.5).
fn repeat_close(end: &mut EndState, near: u32, out: &mut Outbox) -> Result<(), AllocError>
    requires { IfSome (get end.old.sessions near)
        (λ row. first_due row.session end.old.moment ≡ Some RepeatClose) }
    ensures ok { OnOk result (Done (end_due_by end.old near RepeatClose
        (get end.old.sessions near)) end.new out.old out.new) }
    ensures err { OnErr result (Done (nothing end.old) end.new out.old out.new) }
{
    let blanks = end.blanks(BARE)?;
    out.make_room(blanks.count())?;
    end.note_due(near);
    end.send_home(blanks, near, &ChunkView::Close, out);
    Ok(())
}

/// Keeps a session alive: a ping without bytes goes out (own).
fn keep_alive(end: &mut EndState, near: u32, out: &mut Outbox) -> Result<(), AllocError>
    ensures ok { OnOk result (Done (kept_alive_in end.old near (get end.old.sessions near))
        end.new out.old out.new) }
    ensures err { OnErr result (Done (nothing end.old) end.new out.old out.new) }
{
    let blanks = end.blanks(BARE)?;
    out.make_room(blanks.count())?;
    end.note_keepalive(near);
    let ping = ChunkView::Ping { bytes: &[] };
    end.send_home(blanks, near, &ping, out);
    Ok(())
}
