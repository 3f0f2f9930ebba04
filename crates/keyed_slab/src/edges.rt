//! The last generations of a slot, each with the one beside it. The functions do nothing: the
//! contract of each is a table.

ghost use Rattle.std.specs.Prelude.{◌≡◌, ◌-◌, ◌^◌, ℕ, Some, None};
ghost use Rattle.keyed_slab.specs.KeyedSlab.{named, generation_at, Seats};
ghost use Rattle.keyed_slab.specs.Calls.{HasPut, HasRemoved};
ghost use Rattle.keyed_slab.specs.Edges.{seat, key_of};
ghost use Rattle.keyed_slab.specs.declared.keys.Key.{Key};

/// A key of the slot's generation names what stands there, and one of the generation before or
/// after it nothing: at the first generation, at the last one and at the one before the last.
pub fn keys_at_a_generation()
    ensures first { named (seat (Some 7) 0) (key_of 0) ≡ Some 7 }
    ensures after_first { named (seat (Some 7) 0) (key_of 1) ≡ None }
    ensures older { named (seat (Some 7) (2 ^ 64 - 2)) (key_of (2 ^ 64 - 3)) ≡ None }
    ensures but_last { named (seat (Some 7) (2 ^ 64 - 2)) (key_of (2 ^ 64 - 2)) ≡ Some 7 }
    ensures newer { named (seat (Some 7) (2 ^ 64 - 2)) (key_of (2 ^ 64 - 1)) ≡ None }
    ensures before_last { named (seat (Some 7) (2 ^ 64 - 1)) (key_of (2 ^ 64 - 2)) ≡ None }
    ensures last { named (seat (Some 7) (2 ^ 64 - 1)) (key_of (2 ^ 64 - 1)) ≡ Some 7 }
{}

/// What a removal leaves at the last generations, and that a slot past them names nothing and can't
/// be given: its key would have a generation of 65 bits.
pub fn a_slot_that_is_spent()
    ensures but_last { (old new : Seats ℕ) → HasRemoved old new 0 →
        generation_at old 0 ≡ 2 ^ 64 - 2 → generation_at new 0 ≡ 2 ^ 64 - 1 }
    ensures last { (old new : Seats ℕ) → HasRemoved old new 0 →
        generation_at old 0 ≡ 2 ^ 64 - 1 → generation_at new 0 ≡ 2 ^ 64 }
    ensures names_nothing { named (seat None (2 ^ 64)) (key_of (2 ^ 64 - 1)) ≡ None }
    ensures not_given { (old new : Seats ℕ) (key : Key) → HasPut old new 7 key →
        generation_at old key.slot ≡ 2 ^ 64 → key.generation ≡ 2 ^ 64 }
{}
