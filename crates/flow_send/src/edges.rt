//! The rules at their edges: what small senders do at each limit and beside it. Each is a function
//! that does nothing, whose contract tells the values.

ghost use Rattle.std.specs.Prelude.{◌≡◌, [], ◌∷◌, Some, None, true, false};
ghost use Rattle.rtmfp_data_chunks.specs.FlowOptions.{flow_options};
ghost use Rattle.flow_send.specs.Sender.{new_sender, finished, overdue, waits, abandoned, is_late};
ghost use Rattle.flow_send.specs.Sender.{is_idle, next_of};
ghost use Rattle.flow_send.specs.Acks.{told, beyond, new_bytes, makes_lost, told_by};
ghost use Rattle.flow_send.specs.Choice.{Nothing, Send, Notify, choice, within_limit, sent_after};
ghost use Rattle.flow_send.specs.Choice.{sent_row};
ghost use Rattle.flow_send.specs.Flow.{queue_refusal, chunk_refusal, chunk_options};
ghost use Rattle.flow_send.specs.Edges.{unsent, flying, lost, acked, given_up, resent, sender_of};
ghost use Rattle.flow_send.specs.Edges.{numbers, three, with_blocks, acked_up_to, with_waiting};
ghost use Rattle.flow_send.specs.Edges.{waiting_at, holding, flow_of};

use crate::outcome::{NoChunk, QueueRefusal};

/// A message has at most 1,048,576 bytes, 2,097,152 bytes and 65,536 fragments are held, and the
/// last number is 2^64 - 2. Of several refusals the first in their order is told.
pub fn queueing()
    ensures longest { queue_refusal (new_sender 1) 1048576 ≡ None }
    ensures too_long { queue_refusal (new_sender 1) 1048577 ≡ Some (QueueRefusal.TooLong 1048576) }
    ensures most_bytes { queue_refusal (holding 1048576 1049) 1048576 ≡ None }
    ensures too_many_bytes { queue_refusal (holding 1048577 1049) 1048576
        ≡ Some (QueueRefusal.Backlog 1048577) }
    ensures most_fragments { queue_refusal (holding 7 65534) 1001 ≡ None }
    ensures too_many_fragments { queue_refusal (holding 7 65535) 1001
        ≡ Some (QueueRefusal.Backlog 7) }
    ensures last_number { queue_refusal (new_sender 18446744073709551614) 1000 ≡ None }
    ensures number_spent { queue_refusal (new_sender 18446744073709551614) 1001
        ≡ Some QueueRefusal.SequenceSpent }
    ensures finished_first { queue_refusal (finished (new_sender 1)) 1048577
        ≡ Some QueueRefusal.Finished }
    ensures length_second { queue_refusal (holding 2097152 65536) 1048577
        ≡ Some (QueueRefusal.TooLong 1048576) }
    ensures backlog_third { queue_refusal (record (new_sender 18446744073709551615)
        { waiting = waiting_at 1 65536 5 None None ∷ [] }) 0 ≡ Some (QueueRefusal.Backlog 5) }
{}

/// A fragment is sent where what is in flight and it are at most 65,536 bytes before a first ack,
/// and at most the blocks last told times 1,024 after it. Where no number is in flight, that isn't
/// asked.
pub fn flow_limit()
    ensures before_an_ack { within_limit (numbers (flying 1 0 (1 ∷ 2 ∷ 3 ∷ 4 ∷ []) ∷ [])) 65532
        ≡ true }
    ensures beyond_it { within_limit (numbers (flying 1 0 (1 ∷ 2 ∷ 3 ∷ 4 ∷ []) ∷ [])) 65533
        ≡ false }
    ensures a_block { within_limit
        (with_blocks 1 (numbers (flying 1 0 (1 ∷ 2 ∷ 3 ∷ 4 ∷ []) ∷ []))) 1020 ≡ true }
    ensures beyond_a_block { within_limit
        (with_blocks 1 (numbers (flying 1 0 (1 ∷ 2 ∷ 3 ∷ 4 ∷ []) ∷ []))) 1021 ≡ false }
    ensures idle { choice 0 1000
        (with_blocks 0 (numbers (acked 1 0 [] ∷ unsent 0 0 (7 ∷ []) ∷ [])))
        ≡ Send 2 (unsent 0 0 (7 ∷ [])) }
    ensures asked_of_no_bytes { choice 0 1000
        (with_blocks 0 (numbers (flying 1 0 [] ∷ unsent 0 0 (7 ∷ []) ∷ []))) ≡ Nothing }
    ensures exactly_full { choice 0 1000
        (with_blocks 0 (numbers (flying 1 0 [] ∷ unsent 0 0 [] ∷ []))) ≡ Send 2 (unsent 0 0 []) }
{}

/// What is in flight and the fragment fill the session's window at most. Room counts the type, the
/// length and the flags, which are four bytes, the flow, the number, its distance from the forward
/// number, and the fragment. A notice counts as a fragment of no bytes.
#[tactic(auto, unfolding(rtmfp_vlu::specs::Vlu::vlu, rtmfp_vlu::specs::Vlu::groups_before))]
pub fn window_and_room()
    ensures full { chunk_refusal (flow_of (sender_of 200 [])) false 12 996 1000
        (Send 201 (unsent 0 0 (1 ∷ 2 ∷ 3 ∷ 4 ∷ []))) ≡ None }
    ensures too_full { chunk_refusal (flow_of (sender_of 200 [])) false 12 997 1000
        (Send 201 (unsent 0 0 (1 ∷ 2 ∷ 3 ∷ 4 ∷ []))) ≡ Some NoChunk.Window }
    ensures no_room { chunk_refusal (flow_of (sender_of 200 [])) false 11 996 1000
        (Send 201 (unsent 0 0 (1 ∷ 2 ∷ 3 ∷ 4 ∷ []))) ≡ Some NoChunk.Room }
    ensures window_first { chunk_refusal (flow_of (sender_of 200 [])) false 11 997 1000
        (Send 201 (unsent 0 0 (1 ∷ 2 ∷ 3 ∷ 4 ∷ []))) ≡ Some NoChunk.Window }
    ensures notice { chunk_refusal (flow_of (sender_of 200 [])) false 8 1000 1000 Notify ≡ None }
    ensures nothing { chunk_refusal (flow_of (sender_of 200 [])) false 8 1000 1000 Nothing
        ≡ Some NoChunk.Nothing }
    ensures first_in_a_datagram { chunk_options (flow_of (sender_of 200 [])) true ≡ Some [] }
    ensures second_in_a_datagram { chunk_options (flow_of (sender_of 200 [])) false ≡ None }
    ensures after_an_ack { chunk_options (flow_of (record (sender_of 200 []) { told = Some 0 }))
        true ≡ None }
    ensures metadata_and_the_answered_flow { flow_options (0x61 ∷ []) (Some 5)
        ≡ record { kind = 0; value = 0x61 ∷ [] } ∷ record { kind = 10; value = 5 ∷ [] } ∷ [] }
{}

/// The lowest lost number is sent before the lowest unsent one, and a notice where there is
/// neither: where the last cumulative ack is below the forward number and no notice was sent within
/// the resend time. What is in flight doesn't hinder it.
pub fn next_to_send()
    ensures lost_first { choice 0 1000
        (numbers (unsent 0 0 [] ∷ lost 1 0 [] ∷ lost 2 0 [] ∷ [])) ≡ Send 2 (lost 1 0 []) }
    ensures then_unsent { choice 0 1000
        (numbers (flying 1 0 [] ∷ unsent 0 0 [] ∷ unsent 0 0 [] ∷ [])) ≡ Send 2 (unsent 0 0 []) }
    ensures then_a_notice { choice 0 1000 (acked_up_to 4 (sender_of 5 (flying 1 0 [] ∷ [])))
        ≡ Notify }
    ensures unsent_before_it { choice 0 1000 (acked_up_to 4 (sender_of 5 (unsent 0 0 [] ∷ [])))
        ≡ Send 6 (unsent 0 0 []) }
    ensures told_already { choice 0 1000 (sender_of 5 (flying 1 0 [] ∷ [])) ≡ Nothing }
    ensures too_soon { choice 1499 500 (record (sender_of 5 []) { upto = 4; notice = Some 1000 })
        ≡ Nothing }
    ensures again { choice 1500 500 (record (sender_of 5 []) { upto = 4; notice = Some 1000 })
        ≡ Notify }
{}

/// A sending of a lost number counts as a resend, and a first one doesn't. Either begins the count
/// of acks anew. The number of a notice counts as sent, and a notice has its ordinal among all
/// sendings.
pub fn sendings()
    ensures resend { sent_row 70 11 (lost 3 2 (7 ∷ []))
        ≡ record (flying 11 0 (7 ∷ [])) { moment = 70; resends = 1 } }
    ensures first_sending { sent_row 70 11 (unsent 0 0 (7 ∷ []))
        ≡ record (flying 11 0 (7 ∷ [])) { moment = 70 } }
    ensures one_ack_after_a_resend { makes_lost (told 64 0 ((2, 2) ∷ []))
        (sent_after 70 (Send 1 (lost 3 2 [])) (numbers (lost 3 2 [] ∷ flying 12 0 [] ∷ [])))
        ≡ false }
    ensures the_number_sent { (sent_after 70 (Send 3 (unsent 0 0 []))
        (record (sender_of 2 (unsent 0 0 [] ∷ [])) { sent = 2 })).sent ≡ 3 }
    ensures a_resend_keeps_it { (sent_after 70 (Send 1 (lost 3 0 []))
        (numbers (lost 3 0 [] ∷ flying 4 0 [] ∷ []))).sent ≡ 2 }
    ensures notice { sent_after 70 Notify (record (sender_of 9 []) { sent = 8 })
        ≡ record (sender_of 9 []) { notice = Some 70; order = 11 } }
    ensures ack_of_a_notice { beyond (sent_after 70 Notify (record (sender_of 9 []) { sent = 8 }))
        (told 64 9 []) ≡ None }
    ensures ack_beyond_it { beyond (sent_after 70 Notify (record (sender_of 9 []) { sent = 8 }))
        (told 64 9 ((10, 10) ∷ [])) ≡ Some 10 }
    ensures ack_without_a_notice { beyond (record (sender_of 9 []) { sent = 8 }) (told 64 9 [])
        ≡ Some 9 }
{}

/// A number in flight is lost by the third ack that newly acknowledges a number sent after it.
/// Abandoned numbers that were sent and weren't acknowledged count, and those at or below the
/// forward number don't.
pub fn three_acks()
    ensures third { makes_lost (told 64 0 ((2, 2) ∷ []))
        (numbers (flying 1 2 [] ∷ flying 2 0 [] ∷ [])) ≡ true }
    ensures second { makes_lost (told 64 0 ((2, 2) ∷ []))
        (numbers (flying 1 1 [] ∷ flying 2 0 [] ∷ [])) ≡ false }
    ensures second_is_counted { told_by (told 64 0 ((2, 2) ∷ []))
        (numbers (flying 1 1 [] ∷ flying 2 0 [] ∷ []))
        ≡ with_blocks 64 (numbers (flying 1 2 [] ∷ acked 2 0 [] ∷ [])) }
    ensures sent_before { makes_lost (told 64 1 [])
        (numbers (flying 1 0 [] ∷ flying 2 2 [] ∷ [])) ≡ false }
    ensures newly { makes_lost (told 64 0 ((2, 2) ∷ []))
        (numbers (flying 1 2 [] ∷ acked 2 0 [] ∷ [])) ≡ false }
    ensures abandoned_one { makes_lost (told 64 0 ((2, 2) ∷ []))
        (numbers (flying 1 2 [] ∷ given_up 2 0 [] ∷ [])) ≡ true }
    ensures abandoned_unsent { makes_lost (told 64 0 ((2, 2) ∷ []))
        (numbers (flying 1 2 [] ∷ given_up 0 0 [] ∷ [])) ≡ false }
    ensures below_the_forward_number { makes_lost (told 64 5 [])
        (acked_up_to 0 (sender_of 5 (flying 1 2 [] ∷ []))) ≡ false }
    ensures only_in_flight { makes_lost (told 64 0 ((2, 2) ∷ []))
        (numbers (lost 1 2 [] ∷ flying 2 0 [] ∷ [])) ≡ false }
{}

/// An ack gives the bytes of the numbers that it newly acknowledges, but for the abandoned ones.
/// The values of the last ack count, also where those of an earlier one are higher.
pub fn acks()
    ensures bytes { new_bytes (told 64 1 ((3, 4) ∷ [])) 1
        (flying 1 0 (1 ∷ []) ∷ flying 2 0 (1 ∷ 2 ∷ []) ∷ acked 3 0 (1 ∷ 2 ∷ 3 ∷ [])
        ∷ lost 4 0 (1 ∷ 2 ∷ 3 ∷ 4 ∷ []) ∷ []) ≡ 5 }
    ensures abandoned_one { new_bytes (told 64 1 []) 1 (given_up 1 0 (1 ∷ []) ∷ []) ≡ 0 }
    ensures lower { told_by (told 3 4 []) (with_blocks 64 (sender_of 9 []))
        ≡ record (sender_of 9 []) { upto = 4; told = Some 3 } }
    ensures forward { (told_by (told 64 0 ((2, 2) ∷ []))
        (numbers (given_up 1 0 [] ∷ flying 2 0 [] ∷ flying 3 0 [] ∷ []))).forward ≡ 2 }
    ensures in_flight_still { (told_by (told 64 0 ((2, 2) ∷ []))
        (numbers (flying 1 0 [] ∷ flying 2 0 [] ∷ []))).forward ≡ 0 }
    ensures wholly { (told_by (told 64 0 ((2, 3) ∷ []))
        (with_waiting (waiting_at 1 1 0 None None ∷ waiting_at 2 2 0 None None ∷ []) three)).waiting
        ≡ waiting_at 1 1 0 None None ∷ [] }
    ensures not_wholly { (told_by (told 64 0 ((2, 2) ∷ []))
        (with_waiting (waiting_at 2 2 0 None None ∷ []) three)).waiting
        ≡ waiting_at 2 2 0 None None ∷ [] }
{}

/// A number in flight is late where the moment is its last sending and the resend time. A message
/// is overdue after its deadline, and where a lost fragment was sent again as often as its limit
/// allows.
pub fn late()
    ensures not_yet { is_late 1499 500 (flying 1 0 []) ≡ false }
    ensures late { is_late 1500 500 (flying 1 0 []) ≡ true }
    ensures only_in_flight { is_late 1500 500 (given_up 1 0 []) ≡ false }
    ensures at_its_deadline { overdue 50
        (with_waiting (waiting_at 1 1 0 (Some 50) None ∷ []) (numbers (flying 1 0 [] ∷ [])))
        ≡ None }
    ensures after_it { overdue 51
        (with_waiting (waiting_at 1 1 0 (Some 50) None ∷ []) (numbers (flying 1 0 [] ∷ [])))
        ≡ Some 1 }
    ensures no_resend { overdue 0
        (with_waiting (waiting_at 1 1 0 None (Some 0) ∷ []) (numbers (lost 1 0 [] ∷ [])))
        ≡ Some 1 }
    ensures one_more_resend { overdue 0
        (with_waiting (waiting_at 1 1 0 None (Some 2) ∷ []) (numbers (resent 1 (lost 1 0 []) ∷ [])))
        ≡ None }
    ensures as_often { overdue 0
        (with_waiting (waiting_at 1 1 0 None (Some 2) ∷ []) (numbers (resent 2 (lost 1 0 []) ∷ [])))
        ≡ Some 1 }
    ensures in_flight_still { overdue 0 (with_waiting (waiting_at 1 1 0 None (Some 2) ∷ [])
        (numbers (resent 2 (flying 1 0 []) ∷ []))) ≡ None }
{}

/// An abandoned message leaves the flight with its numbers that aren't acknowledged, and the
/// forward number passes them where all below is settled. The number of the end of the flow is the
/// next one.
pub fn abandoning()
    ensures abandons { abandoned 2
        (with_waiting (waiting_at 1 1 1 None None ∷ waiting_at 2 2 1 None None ∷ [])
        (numbers (flying 1 0 (7 ∷ []) ∷ flying 2 0 (7 ∷ []) ∷ acked 3 0 [] ∷ [])))
        ≡ with_waiting (waiting_at 1 1 1 None None ∷ [])
        (numbers (flying 1 0 (7 ∷ []) ∷ given_up 2 0 [] ∷ acked 3 0 [] ∷ [])) }
    ensures passes { (abandoned 1 (with_waiting (waiting_at 1 1 1 None None ∷ [])
        (numbers (flying 1 0 (7 ∷ []) ∷ acked 2 0 [] ∷ flying 3 0 [] ∷ [])))).forward ≡ 2 }
    ensures inside { waits (with_waiting (waiting_at 1 2 0 None None ∷ []) (sender_of 0 [])) 2
        ≡ false }
    ensures end { next_of (finished (new_sender 7)) ≡ 8 }
{}

/// A flow is idle where it has no number above the forward number, be it the end's, no message that
/// waits, and where the last ack told at least the forward number.
pub fn idleness()
    ensures new { is_idle (new_sender 1) ≡ true }
    ensures to_send { is_idle (numbers (unsent 0 0 [] ∷ [])) ≡ false }
    ensures in_flight { is_idle (numbers (flying 1 0 [] ∷ [])) ≡ false }
    ensures end { is_idle (finished (new_sender 1)) ≡ false }
    ensures waits { is_idle (holding 0 1) ≡ false }
    ensures told { is_idle (acked_up_to 7 (sender_of 7 [])) ≡ true }
    ensures untold { is_idle (acked_up_to 6 (sender_of 7 [])) ≡ false }
{}
