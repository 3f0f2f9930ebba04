//! What an event of a log is, and which history an order tells. The functions do nothing: the
//! contract of each is a table.

ghost use Rattle.std.specs.Prelude.{◌≡◌, ◌∷◌, []};
ghost use Rattle.log_values.specs.declared.log.LoggedCall.TheVariants.{Open, Seek, Cancel, Unseek, Close, Learn, Advance, Tick, Other};
ghost use Rattle.log_values.specs.Events.{moment_of};
ghost use Rattle.log_values.specs.Told.{history_in, times};
ghost use Rattle.log_values.specs.Edges.{event, logs};

/// Which calls are given a moment: of any other it isn't read.
pub fn calls_that_are_given_a_moment()
    ensures open { moment_of (Open (5 ∷ []) (6 ∷ [])) 9 ≡ 9 }
    ensures seek { moment_of (Seek (65 ∷ []) (6 ∷ [])) 9 ≡ 9 }
    ensures cancel { moment_of (Cancel 1) 9 ≡ 0 }
    ensures unseek { moment_of (Unseek 1) 9 ≡ 0 }
    ensures close { moment_of (Close 1) 9 ≡ 9 }
    ensures learn { moment_of (Learn (7 ∷ [])) 9 ≡ 0 }
    ensures advance { moment_of Advance 9 ≡ 0 }
    ensures tick { moment_of Tick 9 ≡ 9 }
    ensures other { moment_of Other 9 ≡ 0 }
{}

/// The j-th place with a number is the j-th event of that log; the newest event is the first of the
/// history.
pub fn an_order_tells_a_history()
    ensures none { history_in logs [] ≡ [] }
    ensures whole { history_in logs (0 ∷ 1 ∷ 0 ∷ 0 ∷ 1 ∷ [])
        ≡ record { who = 1; event = event 21 } ∷ record { who = 0; event = event 12 }
        ∷ record { who = 0; event = event 11 } ∷ record { who = 1; event = event 20 }
        ∷ record { who = 0; event = event 10 } ∷ [] }
    ensures other { history_in logs (1 ∷ 0 ∷ [])
        ≡ record { who = 0; event = event 10 } ∷ record { who = 1; event = event 20 } ∷ [] }
    ensures times { times 0 (0 ∷ 1 ∷ 0 ∷ []) ≡ 2 }
    ensures never { times 2 (0 ∷ 1 ∷ 0 ∷ []) ≡ 0 }
{}
