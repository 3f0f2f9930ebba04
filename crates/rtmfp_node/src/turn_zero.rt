//! Turn 0 of a node.
ghost use Rattle.std.specs.Prelude.{◌≡◌};
ghost use Rattle.rtmfp_node.specs.Acting.{DrawnAt, IsFor, OpensEnd, ZeroEnds};
ghost use Rattle.rtmfp_node.specs.Outside.{Counted, PassesOn, outside};
ghost use Rattle.rtmfp_node.specs.Reached.{at_first};

use crate::calls::{learn, open};
use crate::draw::{draw, draws_of};
use crate::notes::Notes;
use crate::sending::{emit, front_of};
use crate::served::Served;
use crate::turn::Node;
use endpoint::{Endpoint, Outbox};
use rtmfp_host::{Entropy, Link, Moments, Sink};
use rtmfp_words::{OpeningWords, ServeWords};

/// Takes turn 0: learns the next secret, where there is one, makes the openings, writes what was
/// done behind the text that is noted before, and sends what goes out.
pub(crate) fn turn_zero<L: Link, C: Moments, E: Entropy, K: Sink>(
    words: &ServeWords,
    node: &mut Node,
    link: &mut L,
    clock: &mut C,
    entropy: &mut E,
    sink: &mut K,
) -> Served
    requires words { IsFor words.now node.old.notes }
    requires none { node.old.notes.far ≡ at_first }
    ensures ends { ZeroEnds result words.now node.old.notes.text node.old.end node.new.end
        node.new.notes.far
        (outside (L.seen link.old) (C.seen clock.old) (E.seen entropy.old) (K.seen sink.old))
        (outside (L.seen link.new) (C.seen clock.new) (E.seen entropy.new) (K.seen sink.new)) }
    ensures counted { Counted result
        (outside (L.seen link.old) (C.seen clock.old) (E.seen entropy.old) (K.seen sink.old))
        (outside (L.seen link.new) (C.seen clock.new) (E.seen entropy.new) (K.seen sink.new)) }
    ensures passed { PassesOn result
        (outside (L.seen link.old) (C.seen clock.old) (E.seen entropy.old) (K.seen sink.old))
        (outside (L.seen link.new) (C.seen clock.new) (E.seen entropy.new) (K.seen sink.new)) }
    ensures words { result ≡ Served.Done → IsFor words.now node.new.notes }
{
    let moment = clock.now();
    node.heard.clear();
    node.out.clear();
    let Ok(()) = learn(&mut node.end, &words.next, &mut node.out, &mut node.notes) else {
        return Served::Memory;
    };
    let served = open_all(
        &mut node.end,
        words.openings.as_slice(),
        moment,
        entropy,
        &mut node.out,
        &mut node.notes,
    );
    if !served.is_done() {
        return served;
    }
    emit(
        node.notes.text(),
        node.heard.entries(),
        node.out.entries(),
        front_of(&words.journal, 0),
        0,
        link,
        sink,
        &mut node.lost,
    )
}

/// Makes the openings, with a draw each.
fn open_all<E: Entropy>(
    end: &mut Endpoint,
    openings: &[OpeningWords],
    moment: u64,
    entropy: &mut E,
    out: &mut Outbox,
    notes: &mut Notes,
) -> Served
    ensures ends { OpensEnd result openings.now moment (E.seen entropy.old).blocks
        (E.seen entropy.new).blocks end.old end.new out.old.entries out.new.entries notes.old
        notes.new }
    ensures drawn { DrawnAt result (E.seen entropy.old).faults (E.seen entropy.new).faults }
{
    for opening in openings {
        let Some(block) = draw(entropy) else {
            return Served::EntropyFault;
        };
        let draws = draws_of(&block);
        let Ok(()) = open(end, opening, moment, &draws, out, notes) else {
            return Served::Memory;
        };
    }
    Served::Done
}
