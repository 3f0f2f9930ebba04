//! The fingerprints of ends, and which of them are new.

ghost use Rattle.std.specs.Prelude.{◌≡◌, ◌∷◌, ℕ, List, [], IfOk, OnOk, OnErr, not, true, false, Ok};
ghost use Rattle.glare_core.specs.Steps.{Among};
ghost use Rattle.log_sent.specs.Prints.{has_print, ArePrints, HasOneMorePrint};

use rtmfp_base::Memory;
use std::alloc::Global;
use std::collections::HashSet;
use std::marker::Model;

/// The fingerprints of the ends that take part in a history (own). Whether one is among them is one
/// look at a set.
///
/// Contracts see them in no order, each once.
#[derive(Drop)]
pub struct Prints {
    set: HashSet<[u8; 32]>,
}

impl Model for Prints {
    ghost use Rattle.std.specs.Prelude.{ℕ, List};

    ghost Value = { List (List ℕ) };

    ghost view = { λ p. p.set.keys };
}

impl Prints {
    /// None. It takes no memory.
    pub fn new(alloc: Global) -> Prints
        ensures { ArePrints [] result }
    {
        Prints {
            set: HashSet::new(alloc),
        }
    }

    /// Puts one in, and answers whether it is new.
    fn put(&mut self, print: &[u8; 32]) -> Result<bool, Memory>
        ensures is_new { IfOk result (λ is_new. is_new ≡ not (has_print self.old print.now)) }
        ensures more { OnOk result (HasOneMorePrint print.now self.old self.new) }
        ensures err { OnErr result (self.new ≡ self.old) }
    {
        match self.set.insert(*print) {
            Ok(added) => Ok(added),
            Err(_) => Err(Memory),
        }
    }

    /// Adds one, and answers whether it is new. It leaves them as they were where no memory is
    /// found.
    pub fn add(&mut self, print: &[u8; 32]) -> Result<bool, Memory>
        ensures prints { (prints : List (List ℕ)) → ArePrints prints self.old →
            OnOk result (ArePrints (print.now ∷ prints) self.new) }
        ensures yes { (prints : List (List ℕ)) → ArePrints prints self.old → result ≡ Ok true →
            Among print.now prints → ⊥ }
        ensures no { (prints : List (List ℕ)) → ArePrints prints self.old → result ≡ Ok false →
            Among print.now prints }
        ensures err { OnErr result (self.new ≡ self.old) }
    {
        match self.put(print) {
            Ok(is_new) => Ok(is_new),
            Err(Memory) => Err(Memory),
        }
    }
}
