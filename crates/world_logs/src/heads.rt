//! What the ends of a world were given first, as the text of logs tells it.
ghost use Rattle.std.specs.Prelude.{◌≡◌, ◌++◌, OnOk, slice_get};
ghost use Rattle.log_writing.specs.Written.{text_of};
ghost use Rattle.world_logs.specs.Heads.{head_at, heads_of};

use log_writing::push_head;
use rendezvous_world::World;
use rtmfp_text::Text;
use std::alloc::AllocError;

/// Adds the line of the end with this number; none where there is no such end.
fn push_head_at(world: &World, number: usize, text: &mut Text) -> Result<(), AllocError>
    ensures { OnOk result (text.new ≡ text.old
        ++ text_of (head_at (slice_get world.now.ends number))) }
{
    let Some(given) = world.beginning(number) else {
        return Ok(());
    };
    let Some(named) = world.named().as_slice().get(number) else {
        return Ok(());
    };
    push_head(
        &named.name,
        given.config.max_peers,
        given.config.max_sessions,
        given.generation,
        &given.secret,
        &given.cookie_secret,
        &given.cert,
        text,
    )?;
    Ok(())
}

/// Adds a line for each end of the world, in their order: what it was given first.
pub fn push_heads(world: &World, text: &mut Text) -> Result<(), AllocError>
    ensures { OnOk result (text.new ≡ text.old ++ text_of (heads_of world.now.ends)) }
{
    let count = world.named().as_slice().len();
    for number in 0..count {
        push_head_at(world, number, text)?;
    }
    Ok(())
}
