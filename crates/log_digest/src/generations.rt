//! The generations of the group's secret that an end is in and knows.

ghost use Rattle.std.specs.Prelude.{◌≡◌, ℕ};
ghost use Rattle.endpoint_model.specs.Event.{Setup};
ghost use Rattle.endpoint_laws.specs.Past.{Past, nothing_done, with_entry};
ghost use Rattle.log_digest.specs.Generations.{begun_in, gone_on, AreGenerationsOf};

use endpoint_model::Entry;
use std::marker::Model;

/// The current generation of an end, and the next one where it is known (own). No secret is kept:
/// whoever gives the entries says what opens.
///
/// Contracts see the two numbers.
#[derive(Drop)]
pub struct Generations {
    current: u64,
    next: Option<u64>,
}

impl Model for Generations {
    ghost use Rattle.log_digest.specs.Generations.{Known, known_code};

    ghost Value = { Known };

    ghost coded = { known_code };

    ghost view = { λ g. record { current = g.current; next = g.next } };
}

impl Generations {
    /// Those of an end that begins in this generation.
    pub fn new(first: u64) -> Generations
        ensures value { result ≡ begun_in first }
        ensures log { (setup : Setup) → setup.generation ≡ first →
            AreGenerationsOf setup nothing_done result }
    {
        Generations {
            current: first,
            next: None,
        }
    }

    /// The number of the current generation.
    pub fn current(&self) -> u64
        ensures { result ≡ self.now.current }
    {
        self.current
    }

    /// The number of the next generation, where it is known.
    pub fn next(&self) -> Option<u64>
        ensures { result ≡ self.now.next }
    {
        self.next
    }

    /// Adds an entry of the end.
    pub fn add(&mut self, entry: &Entry)
        ensures value { self.new ≡ gone_on entry.now self.old }
        ensures log { (setup : Setup) (moment : ℕ) (past : Past) →
            AreGenerationsOf setup past self.old →
            AreGenerationsOf setup (with_entry moment entry.now past) self.new }
    {
        self.note(entry);
    }

    /// Notes it.
    fn note(&mut self, entry: &Entry)
        ensures { self.new ≡ gone_on entry.now self.old }
    {
        match entry {
            Entry::Learnt { generation } => self.next = Some(*generation),
            Entry::Advanced { generation } => {
                self.current = *generation;
                if self.next == Some(*generation) {
                    self.next = None;
                }
            }
            _ => {}
        }
    }
}
