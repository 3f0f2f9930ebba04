//! The state of a run over the lines of a script.

ghost use Rattle.std.specs.Prelude.{◌≡◌, ◌+◌, ◌<◌, ◌≤◌, ◌^◌, [], IfOk, length};
ghost use Rattle.rendezvous_world.specs.Sound.{AreBelow};
ghost use Rattle.rtmfp_play.specs.Playing.{PlayedAs, StaysAs};

use crate::play::play_in;
use crate::said::Said;
use placed_world::PlacedWorld;
use rtmfp_base::limits::LINE;
use rtmfp_report::{GroupKeys, GroupSecrets};
use rtmfp_text::Text;
use std::alloc::{AllocError, Global};
use std::marker::Model;

/// A world with the places of its ends, whose steps are the lines of a script, and what their
/// reports are made with.
///
/// Contracts see the world and the places.
#[derive(Drop)]
pub struct Playing {
    world: PlacedWorld,
    /// The keys of the group of every end.
    keys: GroupKeys,
    /// Holds a datagram while its report is made; its memory is used again.
    scratch: Vec<u8>,
}

impl Model for Playing {
    ghost use Rattle.std.specs.Prelude.{◌≡◌};
    ghost use Rattle.placed_world.specs.contracts.world.PlacedWorld as world_type;
    ghost use Rattle.placed_world.specs.Seen.{PlacedSeen};
    ghost use Rattle.rendezvous_world.specs.Seen.{group_secrets};

    ghost Value = { PlacedSeen };

    ghost coded = { world_type.the_row.coded };

    ghost view = { λ p. p.world };

    ghost invariant = { λ p. p.keys ≡ group_secrets };
}

impl Playing {
    ghost use Rattle.std.specs.Prelude.{◌≡◌};
    ghost use Rattle.rtmfp_play.specs.Play.{empty_placed};

    /// A run over a script of which no line was done.
    pub fn new(alloc: Global) -> Playing
        ensures { result ≡ empty_placed }
    {
        let world = PlacedWorld::new(alloc);
        Playing {
            world,
            keys: GroupKeys::of(alloc, GroupSecrets::Counted),
            scratch: Vec::new(alloc),
        }
    }
}

/// Does a line of a script, and makes the text of its report. A line that isn't done has no text,
/// and the world stays as it was.
pub fn play_line(
    alloc: Global,
    playing: &mut Playing,
    number: u64,
    line: &[u8],
    text: &mut Text,
) -> Result<Said, AllocError>
    requires short { length line.now ≤ LINE }
    requires above { AreBelow playing.old.world.lines number }
    requires fits { number < 2 ^ 32 }
    ensures played { IfOk result (λ said. PlayedAs said playing.old number line.now playing.new
        text.new) }
    ensures stays { IfOk result (λ said. StaysAs said playing.old playing.new [] text.new) }
    ensures above { IfOk result (λ said. said ≡ Said.Text →
        AreBelow playing.new.world.lines (number + 1)) }
{
    play_in(
        alloc,
        &mut playing.world,
        &mut playing.keys,
        &mut playing.scratch,
        number,
        line,
        text,
    )
}
