//! Places and carries at their edges and one beside. The functions do nothing: the contract of each
//! states what the definitions that the other contracts cite are there.

ghost use Rattle.std.specs.Prelude.{◌≡◌, ◌∷◌, [], true, false, Some, None};
ghost use Rattle.translators.specs.Edges.{public_host, inside, outside, local, v6_like};
ghost use Rattle.translators.specs.Translator.{v4};
ghost use Rattle.end_places.specs.declared.carried.Carried.TheVariants.{Arrives, Lost};
ghost use Rattle.end_places.specs.declared.carried.Lost.TheVariants.{Family, PortsFull, Unmapped, Filtered, Nobody};
ghost use Rattle.end_places.specs.Seen.{is_bad_translator, is_bad_place};
ghost use Rattle.end_places.specs.Carrying.{carried_of, after_carry};
ghost use Rattle.end_places.specs.Edges.{town, called, other_host};

/// What is sent arrives at the end that stands there, or is lost for the first reason on its way.
pub fn what_arrives()
    ensures plain { carried_of town 1 (outside 9 1935)
        ≡ Some (Arrives 0 (v4 public_host 40000)) }
    ensures nobody { carried_of town 1 (outside 9 1936) ≡ Some (Lost Nobody) }
    ensures inner { carried_of town 0 (inside 2 1935) ≡ Some (Lost Nobody) }
    ensures unmapped { carried_of town 1 (v4 other_host 65535) ≡ Some (Lost Unmapped) }
    ensures filtered { carried_of called 1 (v4 other_host 65535) ≡ Some (Lost Filtered) }
    ensures comes { carried_of called 0 (v4 other_host 65535)
        ≡ Some (Arrives 2 (outside 9 1935)) }
    ensures full { carried_of called 2 (v4 public_host 40000) ≡ Some (Lost (PortsFull 1)) }
    ensures family { carried_of called 2 (v6_like 10 0 0 9 1935) ≡ Some (Lost Family) }
    ensures no_family { carried_of town 0 (v6_like 10 0 0 9 1935) ≡ Some (Lost Nobody) }
    ensures no_place { carried_of town 3 (outside 9 1935) ≡ None }
{}

/// What goes to the host of its own translator comes in through the mapping that it makes itself.
pub fn what_comes_back()
    ensures own { carried_of town 1 (v4 public_host 40000)
        ≡ Some (Arrives 1 (v4 public_host 40000)) }
    ensures beyond { carried_of town 1 (v4 public_host 40001) ≡ Some (Lost Unmapped) }
{}

/// An outward step stands, though what went out was lost: the next one comes in through it.
pub fn a_lost_datagram_went_out()
    ensures shut { carried_of called 1 (v4 other_host 65535) ≡ Some (Lost Filtered) }
    ensures open { carried_of (after_carry town 1 (outside 9 1936)) 0 (v4 public_host 40000)
        ≡ Some (Arrives 1 (outside 9 1935)) }
    ensures before { carried_of town 0 (v4 public_host 40000) ≡ Some (Lost Unmapped) }
{}

/// A translator has a name and a host of its own, and a first port.
pub fn bad_translators()
    ensures fine { is_bad_translator town (117 ∷ []) (10 ∷ 0 ∷ 0 ∷ 8 ∷ []) 1 ≡ false }
    ensures first { is_bad_translator town (117 ∷ []) (10 ∷ 0 ∷ 0 ∷ 8 ∷ []) 0 ≡ true }
    ensures name { is_bad_translator town (115 ∷ []) (10 ∷ 0 ∷ 0 ∷ 8 ∷ []) 1 ≡ true }
    ensures host { is_bad_translator town (117 ∷ []) other_host 1 ≡ true }
    ensures plain { is_bad_translator town (117 ∷ []) (10 ∷ 0 ∷ 0 ∷ 9 ∷ []) 1 ≡ true }
    ensures inner { is_bad_translator town (117 ∷ []) (192 ∷ 168 ∷ 0 ∷ 2 ∷ []) 1 ≡ false }
{}

/// A place is one end's, behind its translator or without one, whatever its origin.
pub fn bad_places()
    ensures fine { is_bad_place town 3 (inside 4 1935) (Some 0) ≡ false }
    ensures behind { is_bad_place town 3 (inside 2 1935) (Some 0) ≡ true }
    ensures origin { is_bad_place town 3 (local 2 1935) (Some 0) ≡ true }
    ensures port { is_bad_place town 3 (inside 2 1936) (Some 0) ≡ false }
    ensures other { is_bad_place town 3 (inside 2 1935) (Some 1) ≡ false }
    ensures without { is_bad_place town 3 (inside 2 1935) None ≡ false }
    ensures plain { is_bad_place town 3 (outside 9 1935) None ≡ true }
    ensures same_address { is_bad_place town 3 (outside 9 1935) (Some 0) ≡ false }
    ensures public { is_bad_place town 3 (v4 other_host 1) None ≡ true }
    ensures hidden { is_bad_place town 3 (v4 other_host 1) (Some 0) ≡ false }
    ensures last { is_bad_place town 3 (inside 4 1935) (Some 1) ≡ false }
    ensures beyond { is_bad_place town 3 (inside 4 1935) (Some 2) ≡ true }
    ensures again { is_bad_place town 1 (inside 2 1935) (Some 0) ≡ false }
{}
