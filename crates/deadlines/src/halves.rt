//! Entries that came due go from one heap to the other.

ghost use Rattle.std.specs.Prelude.{◌≡◌};
ghost use Rattle.deadlines.specs.Deadlines.{NoneIsDue};
ghost use Rattle.deadlines.specs.Halves.{AllAreDue, IsSplit, merged};

use crate::heap::Heap;

/// Moves each entry of `later` with a deadline at most `moment` into `ready`, each at a logarithm.
pub fn move_due(later: &mut Heap, ready: &mut Heap, moment: u64)
    requires split { IsSplit later.old ready.old }
    requires due { AllAreDue ready.old moment }
    ensures split { IsSplit later.new ready.new }
    ensures late { NoneIsDue later.new moment }
    ensures due { AllAreDue ready.new moment }
    ensures same { merged later.new ready.new ≡ merged later.old ready.old }
{
    loop {
        let Some(first) = later.any_due(moment) else {
            return;
        };
        later.clear(first.slot);
        ready.set(first.slot, first.at, first.near);
    }
}
