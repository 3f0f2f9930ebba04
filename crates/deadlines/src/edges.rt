//! Deadlines at their edges and one beside. The functions do nothing: the contract of each states
//! what the definitions that the other contracts cite are there.

ghost use Rattle.std.specs.Prelude.{◌≡◌, ◌∷◌, [], Some, None};
ghost use Rattle.deadlines.specs.Deadlines.{HasRoom, IsNextDue, NoneIsDue, deadline_set, deadline_cleared, with_room};
ghost use Rattle.deadlines.specs.Edges.{three, at_5, at_6};

/// A deadline is due from its moment on.
pub fn a_deadline_is_due_from_its_moment_on()
    ensures before { NoneIsDue three 4 }
    ensures at { IsNextDue three 5 2 }
{}

/// Of those that are due the one with the lowest near id comes first, whichever was due before.
pub fn the_lowest_near_id_comes_first()
    ensures one { IsNextDue three 5 2 }
    ensures both { IsNextDue three 6 0 }
{}

/// A slot that has room has all slots below it with room.
pub fn room_is_below_a_number()
    ensures least { HasRoom three 2 }
    ensures given { with_room [] 3 ≡ None ∷ None ∷ None ∷ [] }
    ensures kept { with_room three 1 ≡ three }
    ensures set { deadline_set (None ∷ []) 0 5 9 ≡ at_5 9 ∷ [] }
    ensures moved { deadline_set (at_5 9 ∷ []) 0 6 9 ≡ at_6 9 ∷ [] }
    ensures cleared { deadline_cleared (at_5 9 ∷ []) 0 ≡ None ∷ [] }
{}
