//! Where the lines of logs may stand. The functions do nothing: the contract of each is a table.

ghost use Rattle.std.specs.Prelude.{◌≡◌, ◌∷◌, [], None, Some, true, false, is_some};
ghost use Rattle.audit_text.specs.declared.line.LogLine.TheVariants.{Skip};
ghost use Rattle.log_reading.specs.Gathered.{may_stand, place_of, taken};
ghost use Rattle.log_reading.specs.Edges.{entry, event_a, event_b, line_in, log_a, log_b, logs_in, order_in, read_of, skipped, text, ticked, with_ends};

/// The 100,000th line is the last one.
pub fn a_text_has_100_000_lines()
    ensures last { taken Skip (skipped 99999) ≡ Some (skipped 100000) }
    ensures beyond { taken Skip (skipped 100000) ≡ None }
{}

/// The 1,024th end is the last one.
pub fn a_text_tells_of_1_024_ends()
    ensures last { may_stand (97 ∷ []) (with_ends 1023) ≡ true }
    ensures beyond { may_stand (97 ∷ []) (with_ends 1024) ≡ false }
{}

/// Ends are counted from 0, in the order of their logs.
pub fn a_name_has_its_place()
    ensures first { place_of (97 ∷ []) ((97 ∷ []) ∷ (98 ∷ []) ∷ []) ≡ Some 0 }
    ensures second { place_of (98 ∷ []) ((97 ∷ []) ∷ (98 ∷ []) ∷ []) ≡ Some 1 }
    ensures none { place_of (99 ∷ []) ((97 ∷ []) ∷ (98 ∷ []) ∷ []) ≡ None }
{}

/// All logs stand before the first event, and no two have one name.
pub fn logs_stand_before_events()
    ensures two { is_some (read_of (log_a ∷ log_b ∷ event_b ∷ [])) ≡ true }
    ensures behind { read_of (log_a ∷ event_a ∷ log_b ∷ []) ≡ None }
    ensures twice { read_of (log_a ∷ log_a ∷ []) ≡ None }
{}

/// An event is of an end with a log, and an entry of an event.
pub fn events_stand_behind_logs()
    ensures with_log { is_some (read_of (log_a ∷ event_a ∷ entry 1 ∷ [])) ≡ true }
    ensures other { read_of (log_a ∷ event_b ∷ []) ≡ None }
    ensures without_log { read_of (event_a ∷ []) ≡ None }
    ensures without_event { read_of (log_a ∷ entry 1 ∷ []) ≡ None }
{}

/// An entry belongs to the event above, whatever lines are skipped between the two.
pub fn entries_belong_to_the_event_above()
    ensures logs { logs_in (read_of text)
        ≡ (ticked 5 (1 ∷ []) ∷ []) ∷ (ticked 6 (2 ∷ 3 ∷ []) ∷ []) ∷ [] }
    ensures order { order_in (read_of text) ≡ 0 ∷ 1 ∷ [] }
{}

/// Lines are counted from 1, those that are skipped with them.
pub fn checks_have_their_lines()
    ensures no_end { line_in 0 0 (read_of text) ≡ None }
    ensures first_end { line_in 0 1 (read_of text) ≡ Some 1 }
    ensures second_end { line_in 0 2 (read_of text) ≡ Some 3 }
    ensures third_end { line_in 0 3 (read_of text) ≡ None }
    ensures first_event { line_in 1 0 (read_of text) ≡ Some 4 }
    ensures its_entry { line_in 1 1 (read_of text) ≡ Some 6 }
    ensures its_second_entry { line_in 1 2 (read_of text) ≡ None }
    ensures second_event { line_in 2 0 (read_of text) ≡ Some 7 }
    ensures first_entry { line_in 2 1 (read_of text) ≡ Some 8 }
    ensures second_entry { line_in 2 2 (read_of text) ≡ Some 9 }
    ensures third_entry { line_in 2 3 (read_of text) ≡ None }
    ensures third_event { line_in 3 0 (read_of text) ≡ None }
{}
