//! The state of a run over the lines of a script whose logs are written.

ghost use Rattle.std.specs.Prelude.{◌≡◌, ◌+◌, ◌<◌, ◌≤◌, ◌^◌, [], IfOk, length};
ghost use Rattle.rendezvous_world.specs.Sound.{AreBelow};
ghost use Rattle.rtmfp_play.specs.Journaling.{JournaledAs};
ghost use Rattle.rtmfp_play.specs.Playing.{StaysAs};

use crate::journal::{has_begun, journal_in, push_unless};
use crate::said::Said;
use placed_world::PlacedWorld;
use rtmfp_base::limits::LINE;
use rtmfp_text::Text;
use std::alloc::{AllocError, Global};
use std::marker::Model;

/// A world with the places of its ends, whose steps are the lines of a script, and of which the
/// logs are written.
///
/// Contracts see the world and the places.
#[derive(Drop)]
pub struct Journaling {
    world: PlacedWorld,
    /// The largest moment that each end was given so far, in milliseconds.
    moments: Vec<u64>,
}

impl Model for Journaling {
    ghost use Rattle.placed_world.specs.contracts.world.PlacedWorld as world_type;
    ghost use Rattle.placed_world.specs.Seen.{PlacedSeen};
    ghost use Rattle.rtmfp_play.specs.Moments.{AreMomentsOf};

    ghost Value = { PlacedSeen };

    ghost coded = { world_type.the_row.coded };

    ghost view = { λ j. j.world };

    ghost invariant = { λ j. AreMomentsOf j.moments.items j.world.world };
}

impl Journaling {
    ghost use Rattle.std.specs.Prelude.{◌≡◌, ◌++◌, OnOk};
    ghost use Rattle.rtmfp_play.specs.Journaling.{end_text};
    ghost use Rattle.rtmfp_play.specs.Play.{empty_placed};

    /// A run over a script of which no line was done.
    pub fn new(alloc: Global) -> Journaling
        ensures { result ≡ empty_placed }
    {
        let world = PlacedWorld::new(alloc);
        Journaling {
            world,
            moments: Vec::new(alloc),
        }
    }

    /// Adds what is written at the end of a script: the whole text of the logs where no event
    /// began, and else nothing more.
    pub fn push_rest(&self, text: &mut Text) -> Result<(), AllocError>
        ensures { OnOk result (text.new ≡ text.old ++ end_text self.now.world) }
    {
        let world = self.world.world();
        push_unless(has_begun(world), world, text)
    }
}

/// Does a line of a script, and makes the text that it adds to the logs: the lines of its event, if
/// it makes one, and before the first event those of what the ends were given first. An end that is
/// said after that is bad. A line that isn't done has no text, and the world stays as it was.
pub fn journal_line(
    alloc: Global,
    journaling: &mut Journaling,
    number: u64,
    line: &[u8],
    text: &mut Text,
) -> Result<Said, AllocError>
    requires short { length line.now ≤ LINE }
    requires above { AreBelow journaling.old.world.lines number }
    requires fits { number < 2 ^ 32 }
    ensures journaled { IfOk result (λ said. JournaledAs said journaling.old number line.now
        journaling.new text.new) }
    ensures stays { IfOk result (λ said. StaysAs said journaling.old journaling.new [] text.new) }
    ensures above { IfOk result (λ said. said ≡ Said.Text →
        AreBelow journaling.new.world.lines (number + 1)) }
{
    journal_in(
        alloc,
        &mut journaling.world,
        &mut journaling.moments,
        number,
        line,
        text,
    )
}
