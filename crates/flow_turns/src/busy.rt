//! Which of a session's sending flows have something to do.

ghost use Rattle.std.specs.Prelude.{ℕ, ◌≡◌, ◌≢◌, ◌<◌, true, false};
ghost use Rattle.std.specs.List.{list_any};
ghost use Rattle.flow_turns.specs.Busy.{has_flow, HasAny, is_used};

use std::marker::Model;

/// The flows of a word.
const FLOWS: usize = 64;

/// A set of flow IDs below 256. Contracts see it as four words, whose bits are the IDs in their
/// order.
#[derive(Drop)]
pub struct Busy {
    words: [u64; 4],
}

impl Model for Busy {
    ghost use Rattle.std.specs.Prelude.{ℕ, List};

    ghost Value = { List ℕ };

    ghost view = { λ b. b.words };
}

impl Busy {
    /// None is in it.
    pub fn new() -> Busy
        ensures { (id : ℕ) → has_flow result id ≡ false }
    {
        Busy { words: [0; 4] }
    }

    pub fn insert(&mut self, id: usize)
        requires { id < 256 }
        ensures own { has_flow self.new id ≡ true }
        ensures others { (other : ℕ) → other ≢ id
            → has_flow self.new other ≡ has_flow self.old other }
    {
        self.words[id / FLOWS] |= 1 << (id % FLOWS);
    }

    pub fn remove(&mut self, id: usize)
        requires { id < 256 }
        ensures own { has_flow self.new id ≡ false }
        ensures others { (other : ℕ) → other ≢ id
            → has_flow self.new other ≡ has_flow self.old other }
    {
        self.words[id / FLOWS] &= !(1 << (id % FLOWS));
    }

    /// Puts one in, or takes it out.
    pub fn set(&mut self, id: usize, busy: bool)
        requires { id < 256 }
        ensures own { has_flow self.new id ≡ busy }
        ensures others { (other : ℕ) → other ≢ id
            → has_flow self.new other ≡ has_flow self.old other }
    {
        if busy {
            self.insert(id);
        } else {
            self.remove(id);
        }
    }

    /// Whether one is in it.
    pub fn any(&self) -> bool
        ensures { HasAny self.now result }
    {
        any_in(&self.words)
    }
}

/// Whether a set of these words has a flow.
fn any_in(words: &[u64]) -> bool
    ensures { HasAny words.now result }
{
    any_used(words)
}

/// Whether a word has a bit.
fn any_used(words: &[u64]) -> bool
    ensures { result ≡ list_any is_used words.now }
{
    words.iter().any(|word| *word > 0)
}
