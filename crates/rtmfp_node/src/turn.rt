//! A turn of a node.
ghost use Rattle.std.specs.Prelude.{◌≡◌, ℕ, List, [], ◌++◌, IsSome, OnErr, OnOk, true, false};
ghost use Rattle.rtmfp_host.specs.Faults.{CountsGot};
ghost use Rattle.rtmfp_host.specs.Linking.{Fits, given_by};
ghost use Rattle.rtmfp_node.specs.Acting.{ActedOn, IsFor, Succeeded, TurnEnds, begun};
ghost use Rattle.rtmfp_node.specs.Events.{advance_call};
ghost use Rattle.rtmfp_node.specs.Outside.{Counted, PassesOn, outside};

use crate::acting::act;
use crate::calls::advance;
use crate::draw::{draw, draws_of};
use crate::notes::Notes;
use crate::sending::{emit, front_of};
use crate::served::Served;
use endpoint::{Draws, Endpoint, Outbox};
use rtmfp_base::Message;
use rtmfp_host::{Entropy, Got, Link, Moments, Sink};
use rtmfp_text::Text;
use rtmfp_words::ServeWords;
use std::alloc::AllocError;

/// How long a turn waits for a datagram, in milliseconds (own).
const WAIT: u64 = 50;

/// What a node has: its end, and what is used again from turn to turn.
#[derive(Drop)]
pub(crate) struct Node {
    pub(crate) end: Endpoint,
    /// What an advance added.
    pub(crate) early: Outbox,
    /// What a datagram added.
    pub(crate) heard: Outbox,
    /// What other calls added.
    pub(crate) out: Outbox,
    /// What is written of the turn.
    pub(crate) notes: Notes,
    /// The line of a datagram that was lost.
    pub(crate) lost: Text,
}

/// Takes a turn: has the end go over to the next generation, where this is the turn for it; draws,
/// waits for a datagram, has the end take it and do what is due, writes what it did, and sends what
/// goes out.
pub(crate) fn turn<L: Link, C: Moments, E: Entropy, K: Sink>(
    words: &ServeWords,
    turn: u64,
    node: &mut Node,
    buf: &mut [u8; 2048],
    link: &mut L,
    clock: &mut C,
    entropy: &mut E,
    sink: &mut K,
) -> Served
    requires { IsFor words.now node.old.notes }
    ensures ends { TurnEnds result words.now turn node.old.notes.far node.old.end node.new.end
        node.new.notes.far
        (outside (L.seen link.old) (C.seen clock.old) (E.seen entropy.old) (K.seen sink.old))
        (outside (L.seen link.new) (C.seen clock.new) (E.seen entropy.new) (K.seen sink.new)) }
    ensures counted { Counted result
        (outside (L.seen link.old) (C.seen clock.old) (E.seen entropy.old) (K.seen sink.old))
        (outside (L.seen link.new) (C.seen clock.new) (E.seen entropy.new) (K.seen sink.new)) }
    ensures passed { PassesOn result
        (outside (L.seen link.old) (C.seen clock.old) (E.seen entropy.old) (K.seen sink.old))
        (outside (L.seen link.new) (C.seen clock.new) (E.seen entropy.new) (K.seen sink.new)) }
    ensures words { result ≡ Served.Done → IsFor words.now node.new.notes }
{
    let count = node.notes.sent();
    let Ok(()) = begin(node, words.advance, turn) else {
        return Served::Memory;
    };
    let Some(block) = draw(entropy) else {
        return Served::EntropyFault;
    };
    let draws = draws_of(&block);
    let first = clock.now();
    let got = link.receive(first.saturating_add(WAIT), buf);
    if is_failed(&got) {
        return Served::LinkFault;
    }
    let moment = clock.now();
    let Ok(()) = act_on(node, got, buf, moment, &draws, &words.send, turn) else {
        return Served::Memory;
    };
    emit(
        node.notes.text(),
        node.heard.entries(),
        node.out.entries(),
        front_of(&words.journal, turn),
        count,
        link,
        sink,
        &mut node.lost,
    )
}

/// Forgets what the turn before did, and has the end go over to the next generation, where this is
/// the turn for it.
fn begin(node: &mut Node, advance_at: Option<u64>, turn: u64) -> Result<(), AllocError>
    ensures heard { OnOk result (node.new.heard.entries ≡ []) }
    ensures out { OnOk result (node.new.out.entries ≡ []) }
    ensures advanced { OnOk result (Succeeded (advance_call advance_at turn) turn node.old.end
        node.new.end [] node.new.early.entries (begun node.old.notes) node.new.notes) }
    ensures asked { OnErr result (IsSome (advance_call advance_at turn)) }
{
    node.early.clear();
    node.heard.clear();
    node.out.clear();
    node.notes.clear();
    advance(
        &mut node.end,
        advance_at,
        turn,
        &mut node.early,
        &mut node.notes,
    )
}

/// Makes the calls of a turn.
fn act_on(
    node: &mut Node,
    got: Got,
    buf: &mut [u8; 2048],
    moment: u64,
    draws: &Draws,
    message: &Option<Message>,
    turn: u64,
) -> Result<(), AllocError>
    requires fits { Fits got }
    requires heard { node.old.heard.entries ≡ [] }
    requires out { node.old.out.entries ≡ [] }
    ensures { OnOk result (ActedOn message.now (given_by got buf.old) moment draws.now turn
        node.old.end node.new.end (node.new.heard.entries ++ node.new.out.entries)
        node.old.notes node.new.notes) }
{
    act(
        &mut node.end,
        got,
        buf,
        moment,
        draws,
        message,
        turn,
        &mut node.heard,
        &mut node.out,
        &mut node.notes,
    )
}

/// Whether a receive failed.
fn is_failed(got: &Got) -> bool
    ensures yes { result ≡ true → got.now ≡ Got.Failed }
    ensures given { result ≡ false → (buf : List ℕ) → IsSome (given_by got.now buf) }
    ensures no { result ≡ false → (before now : ℕ) → CountsGot got.now before now → now ≡ before }
{
    match got {
        Got::Failed => true,
        Got::Quiet => false,
        Got::Datagram { .. } => false,
    }
}
