//! Laws of senders, each the contract of a function that does nothing.

ghost use Rattle.std.specs.Prelude.{◌≡◌, ◌+◌, ◌≤◌, ◌<◌, ◌^◌, ℕ, List, Option, length};
ghost use Rattle.rtmfp_forms.specs.Options.{OptionParts};
ghost use Rattle.rtmfp_data_chunks.specs.Runs.{Chunk};
ghost use Rattle.rtmfp_data_chunks.specs.Chunk.{Data};
ghost use Rattle.rtmfp_data_chunks.specs.Writing.{data_bytes};
ghost use Rattle.flow_send.specs.Flow.{data_length, user_data};
ghost use Rattle.flow_send.specs.Calls.{Call, begun, all_calls, sendings, TellsLast, AllStand};
ghost use Rattle.flow_send.specs.Calls.{AllSent, IsForward};
ghost use Rattle.flow_send.specs.Counted.{all_open, AllCount};
ghost use Rattle.flow_send.specs.Idle.{IdleDoNothing};

/// Room counts a chunk with the bytes that it has as a written data chunk.
pub fn room_is_of_the_written_chunk()
    ensures { (flow : ℕ) (options : Option (List OptionParts)) (c : Chunk) →
        data_length flow options c ≡ length (data_bytes (Data (user_data flow options c))) }
{}

/// Whatever calls a sender gets, what it keeps is what they did. The values of the last ack, the
/// greatest number of all sendings, notices included, the last notice and the end are those; a
/// number above the forward number is acknowledged exactly where a heard ack tells it, and
/// abandoned exactly where else it is one of an abandoned message; its resends are one less than
/// its sendings, and its moment and ordinal those of the last one; and the forward number is the
/// greatest one at or below which each number is one of these or below the flow's first. The
/// messages that wait are exactly those that were queued and are neither abandoned nor wholly
/// acknowledged. The acks that count against a number in flight are those, of the ones heard since
/// its last sending, that newly told a number sent after it; and a number is lost exactly where
/// three count, or a look found its last sending too long ago. The last is so while there were
/// fewer than 2 ^ 64 sendings, since ordinals stand still then. A call that is refused does
/// nothing.
pub fn calls()
    ensures last { (first : ℕ) (cs : List Call) → 1 ≤ first → first < 2 ^ 64 →
        TellsLast first (all_calls (begun first) cs) }
    ensures rows { (first : ℕ) (cs : List Call) → 1 ≤ first → first < 2 ^ 64 →
        AllStand (all_calls (begun first) cs).done ((all_calls (begun first) cs).sender.forward + 1)
        (all_calls (begun first) cs).sender.rows }
    ensures sent { (first : ℕ) (cs : List Call) → 1 ≤ first → first < 2 ^ 64 →
        AllSent (all_calls (begun first) cs).done ((all_calls (begun first) cs).sender.forward + 1)
        (all_calls (begun first) cs).sender.rows }
    ensures forward { (first : ℕ) (cs : List Call) → 1 ≤ first → first < 2 ^ 64 →
        IsForward first (all_calls (begun first) cs) }
    ensures waiting { (first : ℕ) (cs : List Call) → 1 ≤ first → first < 2 ^ 64 →
        (all_calls (begun first) cs).sender.waiting ≡ all_open (all_calls (begun first) cs).done }
    ensures count { (first : ℕ) (cs : List Call) → 1 ≤ first → first < 2 ^ 64 →
        sendings (all_calls (begun first) cs).done < 2 ^ 64 →
        AllCount first (all_calls (begun first) cs).done
        ((all_calls (begun first) cs).sender.forward + 1)
        (all_calls (begun first) cs).sender.rows }
{}

/// Of an idle flow nothing is lost by time, no message is overdue, and nothing is sent, whatever the
/// moment and the resend time.
pub fn idle_flows_do_nothing()
    ensures { IdleDoNothing }
{}
