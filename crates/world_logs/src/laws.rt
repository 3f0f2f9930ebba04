//! The law of the lines of what ends were given first. The function does nothing: its contract is a
//! law over the definitions that the writer cites.

ghost use Rattle.std.specs.Prelude.{◌≡◌, List};
ghost use Rattle.log_writing.specs.Written.{head_lines};
ghost use Rattle.rendezvous_world.specs.Seen.{EndSeen};
ghost use Rattle.world_logs.specs.Heads.{heads_of, name_at, setups_of};

/// The lines of a world's ends are those with which the text of its logs begins.
pub fn heads_begin_the_text()
    ensures { (ends : List EndSeen) →
        head_lines (name_at ends) 0 (setups_of ends) ≡ heads_of ends }
{}
