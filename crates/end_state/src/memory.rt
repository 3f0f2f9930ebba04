//! Memory for datagrams, found before anything changes.

ghost use Rattle.std.specs.Prelude.{◌≡◌, ◌<◌, ◌≤◌, ◌+◌, IfOk};
ghost use Rattle.endpoint_model.specs.Sending.{limit_of};
ghost use Rattle.end_state.specs.Steps.{datagrams_for};

use crate::end_state::EndState;
use crate::sealing::blank;
use crate::sending::blanks;
use std::alloc::AllocError;
use std::marker::Model;

/// Memory for the datagrams in which one packet of a session goes out: one, or one for each piece.
///
/// Contracts see how many.
#[derive(Drop)]
pub struct Blanks {
    pub(crate) first: Vec<u8>,
    /// Those for further pieces. It takes no memory where there are none.
    pub(crate) more: Vec<Vec<u8>>,
}

impl Model for Blanks {
    ghost use Rattle.std.specs.Prelude.{ℕ, ◌≡◌, ◌<◌, ◌+◌, length};
    ghost use Rattle.std.specs.List.{All};

    ghost Value = { ℕ };

    ghost view = { λ b. 1 + length b.more.items };

    ghost invariant = { λ b. (length b.first.items ≡ 1200) ×
        (All (λ bytes. length bytes.items ≡ 1200) b.more.items) × (length b.more.items < 32) };
}

impl Blanks {
    /// How many datagrams there is memory for.
    pub fn count(&self) -> usize
        ensures { result ≡ self.now }
    {
        1 + self.more.len()
    }
}

impl EndState {
    /// Finds memory for a packet of a session with a body of this length, whole or in pieces.
    pub fn blanks(&self, body: usize) -> Result<Blanks, AllocError>
        requires { body ≤ 1159 }
        ensures enough { IfOk result (λ b. datagrams_for (limit_of self.now) body ≤ b) }
        ensures few { IfOk result (λ b. (0 < b) × (b ≤ 32)) }
    {
        let first = blank(self.alloc)?;
        let more = blanks(self.alloc, further(self.limit() as usize, body))?;
        Ok(Blanks { first, more })
    }
}

/// How many further datagrams a packet with a body of this length may need.
fn further(limit: usize, body: usize) -> usize
    requires least { 96 ≤ limit }
    requires most { body ≤ 1159 }
    ensures enough { datagrams_for limit body ≡ result + 1 }
    ensures few { result < 32 }
{
    if 5 + body <= limit {
        return 0;
    }
    (5 + body) / (limit - 32)
}
