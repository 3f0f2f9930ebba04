//! What time makes due, one thing after another.

ghost use Rattle.std.specs.Prelude.{◌≡◌, ℕ, IsSome, None, OnErr, OnOk, Some};
ghost use Rattle.startup.specs.Due.{due, due_sends};
ghost use Rattle.endpoint_model.specs.Effects.{attempt_item, first_due, item_done, tick_once, ticks};
ghost use Rattle.endpoint_model.specs.State.{Done, nothing};
ghost use Rattle.end_loops.specs.DueItems.{ItemFalls, due_item};

use crate::session_ticking::{due_session, session_due};
use end_state::{EndState, Outbox, blanks};
use endpoint_model::{Entry, RowDue};
use glare_core::Why;
use rtmfp_base::Memory;
use startup::Due;
use std::alloc::AllocError;

/// The first thing that is due.
#[derive(Clone, Copy, Debug)]
pub(crate) enum DueItem {
    /// Something of an attempt or a search, which sends so many datagrams.
    Attempt { sends: usize },
    /// Something of the session with this session ID, or of its flows.
    Session { near: u32, due: RowDue },
}

/// Does all that is due at the moment that is kept.
pub fn do_due(end: &mut EndState, out: &mut Outbox) -> Result<(), Memory>
    ensures some { (count : ℕ) × Done (ticks count end.old) end.new out.old out.new }
    ensures all { OnOk result (first_due end.new ≡ None) }
    ensures left { OnErr result (IsSome (first_due end.new)) }
{
    // Each attempt or search is due once at a moment, and of a session there is less to do each
    // time, so this ends.
    while let Some(item) = first_due(end) {
        match do_item(end, item, out) {
            Ok(()) => {}
            Err(_) => return Err(Memory),
        }
    }
    Ok(())
}

/// The first thing that is due: of attempts and searches, and then of sessions.
fn first_due(end: &mut EndState) -> Option<DueItem>
    ensures item { result ≡ due_item end.old }
    ensures same { end.new ≡ end.old }
{
    match end.startup.due_sends(end.moment) {
        Some(sends) => Some(DueItem::Attempt { sends }),
        None => due_session(end),
    }
}

/// Does the first thing that is due.
fn do_item(end: &mut EndState, item: DueItem, out: &mut Outbox) -> Result<(), AllocError>
    requires { due_item end.old ≡ Some item }
    ensures ok { OnOk result (Done (tick_once end.old) end.new out.old out.new) }
    ensures err { OnErr result (Done (nothing end.old) end.new out.old out.new) }
    ensures falls { OnOk result (ItemFalls item end.old) }
{
    match item {
        DueItem::Attempt { sends } => attempt_due(end, sends, out),
        DueItem::Session { near, due } => session_due(end, near, due, out),
    }
}

/// Does the first thing that is due of attempts and searches, which sends so many datagrams.
fn attempt_due(end: &mut EndState, sends: usize, out: &mut Outbox) -> Result<(), AllocError>
    requires { due_sends end.old.startup end.old.moment ≡ Some sends }
    ensures ok { OnOk result (Done (item_done end.old
        (attempt_item (due end.old.startup end.old.moment))) end.new out.old out.new) }
    ensures err { OnErr result (Done (nothing end.old) end.new out.old out.new) }
{
    let mut blanks = blanks(end.alloc, sends)?;
    out.make_room(sends.max(1))?;
    match end.startup.due(end.moment) {
        Some(Due::Ended(fact)) => out.add(Entry::Fact(fact)),
        Some(Due::Unsought(near)) => out.add(Entry::Unsought {
            near,
            why: Why::Expired,
        }),
        Some(Due::Hello(spread)) => {
            end.send_each(blanks, spread.addresses(), &spread.plain, out);
        }
        Some(Due::Keying(answer)) => {
            if let Some(blank) = blanks.pop() {
                out.add_some(end.seal_answer(blank, &answer));
            }
        }
        None => {}
    }
    Ok(())
}
