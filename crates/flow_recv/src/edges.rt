//! The rules at their edges: what small receivers do at each limit and beside it. Each is a
//! function that does nothing, whose contract tells the values.

ghost use Rattle.std.specs.Prelude.{◌≡◌, ℕ, List, [], ◌∷◌, Some, None, true, false, length};
ghost use Rattle.rtmfp_data_chunks.specs.declared.user_data.Part.TheVariants.{Whole, Middle};
ghost use Rattle.flow_recv.specs.Receiver.{span, fresh, passes_buffer, beyond_buffer, taken};
ghost use Rattle.flow_recv.specs.Receiver.{next_run};
ghost use Rattle.flow_recv.specs.Outcome.{refusal, took};
ghost use Rattle.flow_recv.specs.Acking.{free_blocks};
ghost use Rattle.flow_recv.specs.Edges.{fragment, gives_up, marked_last, keeping, run_of, two_held};
ghost use Rattle.flow_recv.specs.Edges.{two_open, up_to, arriving};

use crate::outcome::{FlowRefusal, Took};

/// Nothing is taken above the known last number, and no chunk that is marked last below a number
/// that was taken, or at another number than the known last one.
pub fn last_number()
    ensures at_it { refusal (record (fresh false) { last = Some 5; highest = 5 })
        (fragment Whole 5 0 []) ≡ None }
    ensures below_it { refusal (record (fresh false) { last = Some 5; highest = 5 })
        (fragment Whole 4 0 []) ≡ None }
    ensures above_it { refusal (record (fresh false) { last = Some 5; highest = 4 })
        (fragment Whole 6 0 []) ≡ Some (FlowRefusal.AfterFinal 5) }
    ensures marked_again { refusal (record (fresh false) { last = Some 5; highest = 5 })
        (marked_last 5) ≡ None }
    ensures marked_below { refusal (record (fresh false) { last = Some 5; highest = 5 })
        (marked_last 4) ≡ Some (FlowRefusal.AfterFinal 5) }
    ensures marked_above { refusal (record (fresh false) { last = Some 5; highest = 5 })
        (marked_last 6) ≡ Some (FlowRefusal.AfterFinal 5) }
    ensures below_the_highest { refusal (record (fresh false) { highest = 7 }) (marked_last 6)
        ≡ Some (FlowRefusal.AfterFinal 7) }
    ensures at_the_highest { refusal (record (fresh false) { highest = 7 }) (marked_last 7) ≡ None }
    ensures unmarked { refusal (record (fresh false) { highest = 7 }) (fragment Whole 6 0 [])
        ≡ None }
    ensures first_refusal { refusal (record (fresh false) { last = Some 5; highest = 5 })
        (fragment Whole 70000 0 []) ≡ Some (FlowRefusal.AfterFinal 5) }
{}

/// The limits of the buffer: 3,145,728 bytes with the lowest missing number, 2,097,152 bytes and
/// 65,536 numbers with one above it. A chunk with abandon counts no bytes.
pub fn buffer_limits()
    ensures lowest { passes_buffer 5 3145727 (fragment Whole 5 0 (7 ∷ [])) ≡ false }
    ensures lowest_passes { passes_buffer 5 3145728 (fragment Whole 5 0 (7 ∷ [])) ≡ true }
    ensures above { passes_buffer 5 2097151 (fragment Whole 6 0 (7 ∷ [])) ≡ false }
    ensures above_passes { passes_buffer 5 2097152 (fragment Whole 6 0 (7 ∷ [])) ≡ true }
    ensures far { passes_buffer 5 0 (fragment Whole 65541 0 (7 ∷ [])) ≡ false }
    ensures far_passes { passes_buffer 5 0 (fragment Whole 65542 0 (7 ∷ [])) ≡ true }
    ensures abandoned { passes_buffer 5 2097152
        (record (fragment Whole 6 0 (7 ∷ [])) { abandon = true }) ≡ false }
    ensures abandoned_passes { passes_buffer 5 2097153
        (record (fragment Whole 6 0 (7 ∷ [])) { abandon = true }) ≡ true }
    ensures abandoned_far { passes_buffer 5 0
        (record (fragment Whole 65542 0 (7 ∷ [])) { abandon = true }) ≡ true }
{}

/// Missing numbers and held bytes are counted as if the forward number were taken. Only a number
/// that is missing and above the forward number is tested.
pub fn buffer_test()
    ensures within { beyond_buffer (fresh false) (fragment Whole 70000 4463 []) ≡ None }
    ensures too_far { beyond_buffer (fresh false) (fragment Whole 70000 4462 []) ≡ Some 0 }
    ensures joins_a_span { beyond_buffer (keeping (span 0 0 ∷ span 4463 4500 ∷ []) [])
        (fragment Whole 70000 4462 []) ≡ None }
    ensures repeated { beyond_buffer (keeping (span 0 0 ∷ span 70000 70000 ∷ []) [])
        (fragment Whole 70000 4462 []) ≡ None }
    ensures a_notice { beyond_buffer (fresh false) (gives_up 70000 70000) ≡ None }
    ensures a_given_up_number { beyond_buffer (fresh false) (gives_up 70000 69999) ≡ None }
    ensures a_given_up_number_too_far { beyond_buffer (fresh false) (gives_up 70000 4462) ≡ Some 0 }
    ensures kept_run { beyond_buffer (keeping (span 0 0 ∷ span 3 3 ∷ [])
        (run_of 3 3 true false (1 ∷ 2 ∷ []) ∷ [])) (fragment Whole 70000 3 []) ≡ Some 2 }
    ensures dropped_run { beyond_buffer (keeping (span 0 0 ∷ span 3 3 ∷ [])
        (run_of 3 3 true false (1 ∷ 2 ∷ []) ∷ [])) (fragment Whole 70000 4 []) ≡ Some 0 }
    ensures whole_run { beyond_buffer (keeping (span 0 0 ∷ span 3 3 ∷ [])
        (run_of 3 3 true true (1 ∷ 2 ∷ []) ∷ [])) (fragment Whole 70000 4 []) ≡ Some 2 }
    ensures full { (bytes : List ℕ) → length bytes ≡ 2097152 →
        beyond_buffer (keeping (span 0 0 ∷ span 3 3 ∷ []) (run_of 3 3 true false bytes ∷ []))
        (fragment Whole 6 3 (7 ∷ [])) ≡ Some 2097152 }
    ensures full_but_dropped { (bytes : List ℕ) → length bytes ≡ 2097152 →
        beyond_buffer (keeping (span 0 0 ∷ span 3 3 ∷ []) (run_of 3 3 true false bytes ∷ []))
        (fragment Whole 6 4 (7 ∷ [])) ≡ None }
{}

/// The blocks of 1,024 bytes that are free of 2,097,152 bytes.
pub fn blocks()
    ensures empty { free_blocks 0 ≡ 2048 }
    ensures one_byte { free_blocks 1 ≡ 2047 }
    ensures a_block { free_blocks 1024 ≡ 2047 }
    ensures one_more { free_blocks 1025 ≡ 2046 }
    ensures last_block { free_blocks 2096129 ≡ 0 }
    ensures full { free_blocks 2097152 ≡ 0 }
    ensures higher { free_blocks 3145728 ≡ 0 }
{}

/// What a chunk is to a receiver, and what it changes. A forward number gives up the missing
/// numbers at or below it, held fragments stay, and the first fragment of a number counts.
pub fn taking()
    ensures new { took (fresh false) (fragment Whole 1 0 []) ≡ Took.New }
    ensures again { took (keeping (span 0 1 ∷ []) []) (fragment Whole 1 0 []) ≡ Took.Again }
    ensures forward_only { took (keeping (span 0 1 ∷ []) []) (gives_up 1 1) ≡ Took.ForwardOnly }
    ensures held { taken (fresh false) (fragment Whole 2 0 (7 ∷ []))
        ≡ up_to 2 (two_held true) }
    ensures held_already { taken (two_held true) (fragment Whole 2 0 (8 ∷ []))
        ≡ up_to 2 (two_held true) }
    ensures stays { taken (two_held true) (fragment Whole 5 3 (8 ∷ []))
        ≡ up_to 5 (keeping (span 0 3 ∷ span 5 5 ∷ [])
        (run_of 2 2 true true (7 ∷ []) ∷ run_of 5 5 true true (8 ∷ []) ∷ [])) }
    ensures joined { taken two_open (fragment Middle 3 0 (8 ∷ []))
        ≡ up_to 3 (keeping (span 0 0 ∷ span 2 4 ∷ [])
        (run_of 2 4 true true (7 ∷ 8 ∷ 9 ∷ []) ∷ [])) }
    ensures dropped { taken (two_held false) (gives_up 3 0)
        ≡ up_to 3 (keeping (span 0 0 ∷ span 2 3 ∷ []) []) }
    ensures given_up { taken (fresh false) (gives_up 2 0)
        ≡ record (keeping (span 0 0 ∷ span 2 2 ∷ []) []) { highest = 2 } }
    ensures last { taken (fresh false) (marked_last 1)
        ≡ record (keeping (span 0 1 ∷ []) []) { last = Some 1; highest = 1 } }
{}

/// In queueing order a whole run is handed over where no number below it is missing, in arrival
/// order at once.
pub fn handing()
    ensures waits { next_run (keeping (span 0 1 ∷ span 3 3 ∷ []) (run_of 3 3 true true [] ∷ []))
        ≡ None }
    ensures ready { next_run (keeping (span 0 3 ∷ []) (run_of 3 3 true true [] ∷ []))
        ≡ Some (run_of 3 3 true true []) }
    ensures at_once { next_run
        (arriving (keeping (span 0 1 ∷ span 3 3 ∷ []) (run_of 3 3 true true [] ∷ [])))
        ≡ Some (run_of 3 3 true true []) }
    ensures not_whole { next_run
        (arriving (keeping (span 0 3 ∷ []) (run_of 3 3 true false [] ∷ []))) ≡ None }
    ensures lowest { next_run (arriving (keeping (span 0 0 ∷ span 3 3 ∷ span 5 5 ∷ [])
        (run_of 3 3 true true [] ∷ run_of 5 5 true true [] ∷ [])))
        ≡ Some (run_of 3 3 true true []) }
{}
