//! The turns of flows that may have something to send, of which the first from one on is found in
//! few steps.

ghost use Rattle.std.specs.Prelude.{ℕ, ◌≡◌, ◌≢◌, ◌<◌, true, false};
ghost use Rattle.flow_turns.specs.Turns.{has_turn, IsFirstFrom, IsLowest};

use std::marker::Model;

/// The turns of a word.
const TURNS: usize = 64;

/// A set of turns below 2,048. Contracts see it as 32 words, whose bits are the turns in their
/// order.
#[derive(Drop)]
pub struct Turns {
    words: [u64; 32],
    /// A bit for each word that has a turn.
    full: u32,
}

impl Model for Turns {
    ghost use Rattle.std.specs.Prelude.{ℕ, List};
    ghost use Rattle.flow_turns.specs.Turns.{IsTied};

    ghost Value = { List ℕ };

    ghost view = { λ t. t.words };

    ghost invariant = { λ t. IsTied t.full t.words };
}

impl Turns {
    /// None is in it.
    pub fn new() -> Turns
        ensures { (turn : ℕ) → has_turn result turn ≡ false }
    {
        Turns {
            words: [0; 32],
            full: 0,
        }
    }

    pub fn insert(&mut self, turn: usize)
        requires { turn < 2048 }
        ensures own { has_turn self.new turn ≡ true }
        ensures others { (t : ℕ) → t ≢ turn → has_turn self.new t ≡ has_turn self.old t }
    {
        let at = turn / TURNS;
        self.words[at] |= 1 << (turn % TURNS);
        self.full |= 1 << at;
    }

    pub fn remove(&mut self, turn: usize)
        requires { turn < 2048 }
        ensures own { has_turn self.new turn ≡ false }
        ensures others { (t : ℕ) → t ≢ turn → has_turn self.new t ≡ has_turn self.old t }
    {
        let at = turn / TURNS;
        let word = self.words[at] & !(1 << (turn % TURNS));
        self.words[at] = word;
        if word == 0 {
            self.full &= !(1 << at);
        }
    }

    /// The first turn in it from one on.
    pub fn first_from(&self, turn: usize) -> Option<usize>
        ensures { IsFirstFrom self.now turn result }
    {
        let at = turn / TURNS;
        let Some(word) = self.words.get(at) else {
            return None;
        };
        if let Some(bit) = lowest(*word, turn % TURNS) {
            return Some(at * TURNS + bit);
        }
        let full = self.full;
        let Some(next) = lowest(u64::from(full), at + 1) else {
            return None;
        };
        let word = self.words[next];
        let Some(bit) = lowest(word, 0) else {
            return None;
        };
        Some(next * TURNS + bit)
    }
}

/// The lowest bit of a word from one on.
fn lowest(word: u64, from: usize) -> Option<usize>
    requires { from < 64 }
    ensures { IsLowest word from result }
{
    let rest = word >> from;
    if rest == 0 {
        return None;
    }
    Some(from + rest.trailing_zeros() as usize)
}
