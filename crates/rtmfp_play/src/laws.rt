//! What holds of all lines of scripts, and the values of the generated run a second time. The
//! functions do nothing: the contract of each is its law.
ghost use Rattle.std.specs.Prelude.{◌≡◌, ◌∷◌, ◌+◌, [], false, Some, None};
ghost use Rattle.rendezvous_world.specs.Seen.{Seen};
ghost use Rattle.rendezvous_world.specs.declared.step.Step.TheVariants.{At, Cancel, Deliver, End, Open, Tick};
ghost use Rattle.rtmfp_play.specs.Generated.{end_at, end_cert, end_count, end_name, end_address, end_step, number_after};
ghost use Rattle.rtmfp_play.specs.Generated.{delivery, delivery_or_tick, generated_step, picked};
ghost use Rattle.rtmfp_play.specs.Laws.{EachGeneratedRunIsOne, EachLineIsFlat, EachLineIsTold, EachLineAddsItsText, EachJournaledLineIsPlayed, WhatIsWrittenIsTheLogs};

/// A line of a script adds one line to the journal, with its own number, and tells of it, or none.
/// Then it tells of the datagram that it carries where that is lost, and else of nothing.
pub fn each_line_is_told()
    ensures { EachLineIsTold }
{}

/// A line of a script takes the world one step of its own further, or leaves it as it is, wherever
/// its ends are placed: what holds of worlds holds of runs with translators.
pub fn each_line_is_flat()
    ensures { EachLineIsFlat }
{}

/// A line of a script adds its text to what is written of the logs of its ends.
pub fn each_line_adds_its_text()
    ensures { EachLineAddsItsText }
{}

/// Where logs are written, a line of a script does to the world what it does where reports are
/// written. So what holds of all runs with reports holds of those with logs.
pub fn each_journaled_line_is_played()
    ensures { EachJournaledLineIsPlayed }
{}

/// What is written of the logs line by line, and at the end of the script, is the text of the logs
/// of all ends: what they were given first, and the events.
pub fn what_is_written_is_the_logs()
    ensures { WhatIsWrittenIsTheLogs }
{}

/// A seed and a count of steps decide a generated run and the line that is written of it. Left open
/// is only how much room the outboxes of its journal have free, which is a matter of memory.
pub fn each_generated_run_is_one()
    ensures { EachGeneratedRunIsOne }
{}

/// The ends of a generated run are e0 to e7 at 10.0.0.1:1935 to 10.0.0.8:1935, with certificates in
/// which the digit stands twice, and its numbers are those of a linear congruential generator
/// (own).
pub fn generated_values()
    ensures count { end_count ≡ 8 }
    ensures name { end_name 3 ≡ 101 ∷ 51 ∷ [] }
    ensures cert { end_cert 7 ≡ 103 ∷ 101 ∷ 110 ∷ 101 ∷ 114 ∷ 97 ∷ 116 ∷ 101 ∷ 100 ∷ 45 ∷ 101 ∷ 110
        ∷ 100 ∷ 45 ∷ 48 ∷ 55 ∷ 101 ∷ 55 ∷ [] }
    ensures first { (end_address 0).host ≡ 10 ∷ 0 ∷ 0 ∷ 1 ∷ 0 ∷ 0 ∷ 0 ∷ 0 ∷ 0 ∷ 0 ∷ 0 ∷ 0 ∷ 0 ∷ 0
        ∷ 0 ∷ 0 ∷ [] }
    ensures last { (end_address 7).host ≡ 10 ∷ 0 ∷ 0 ∷ 8 ∷ 0 ∷ 0 ∷ 0 ∷ 0 ∷ 0 ∷ 0 ∷ 0 ∷ 0 ∷ 0 ∷ 0 ∷ 0
        ∷ 0 ∷ [] }
    ensures port { (end_address 0).port ≡ 1935 }
    ensures family { (end_address 0).v6 ≡ false }
    ensures back { end_at (end_address 5) ≡ 5 }
    ensures seed { number_after 0 7 ≡ 7 }
    ensures next { number_after 1 1 ≡ 7806831264735756412 }
    ensures after_zero { number_after 1 0 ≡ 1442695040888963407 }
    ensures limits { end_step 7 ≡ End (end_name 7) 65536 4096 (end_cert 7) }
{}

/// Of 16 operations the first two open an attempt, one each does what is due, lets 500 ms pass and
/// cancels, and the others deliver a datagram to the end that it was sent to, from the end that
/// sent it; where none was sent, and where it is from a ninth end, what is due is done. A number's
/// bits from 33 on are operation (4), end (3), other end (3) and how far back (4).
pub fn generated_steps()
    ensures first { (w : Seen) → picked w 0 3 5 9 ≡ Open 3 5 (end_address 5 ∷ []) }
    ensures open { (w : Seen) → picked w 1 3 5 9 ≡ Open 3 5 (end_address 5 ∷ []) }
    ensures tick { (w : Seen) → picked w 2 3 5 9 ≡ Tick 3 }
    ensures pause { (w : Seen) → picked w 3 3 5 9 ≡ At (w.moment + 500) }
    ensures cancel { (w : Seen) → picked w 4 3 5 9 ≡ Cancel 3 9 }
    ensures parts { (w : Seen) → generated_step w 85117661872127 ≡ Cancel 3 9 }
    ensures others { (w : Seen) → generated_step w 85074712199168 ≡ Open 3 5 (end_address 5 ∷ []) }
    ensures none { delivery_or_tick [] 3 9 ≡ Tick 3 }
    ensures delivered { delivery 3 17 (Some (7, end_address 2)) ≡ Deliver 17 2 (end_address 7) }
    ensures stranger { delivery 3 17 (Some (8, end_address 2)) ≡ Tick 3 }
    ensures unknown { delivery 3 17 None ≡ Tick 3 }
{}
