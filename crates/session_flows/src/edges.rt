//! The rules at their edges: what small sessions and flows do at each limit and beside it. Each is
//! a function that does nothing, whose contract tells the values.

ghost use Rattle.std.specs.Prelude.{◌≡◌, ◌∷◌, ℕ, List, [], true, false, Some, None, length};
ghost use Rattle.session_core.specs.declared.stage.Stage.TheVariants.{Opening, Open, NearClose};
ghost use Rattle.session_core.specs.declared.stage.Stage.TheVariants.{FarLinger, Closed};
ghost use Rattle.session_core.specs.Session.{SessionState};
ghost use Rattle.flow_recv.specs.Receiver.{fresh};
ghost use Rattle.flow_send.specs.declared.outcome.QueueRefusal.{QueueRefusal};
ghost use Rattle.flow_send.specs.Acks.{told};
ghost use Rattle.flow_send.specs.Edges.{numbers, unsent, flying, three, with_blocks};
ghost use Rattle.session_flows.specs.declared.taking.TakingFlow.{TakingFlow};
ghost use Rattle.session_flows.specs.Keeping.{FlowsState, no_flows, in_taking, Opened, Queued};
ghost use Rattle.session_flows.specs.Keeping.{Abandoned, Finished, Handed, may_be_due};
ghost use Rattle.session_flows.specs.Calling.{open_refusal, opening, queue_refusal_of, queue_refused, queueing};
ghost use Rattle.session_flows.specs.Calling.{abandon_refused, abandoning, finish_refused};
ghost use Rattle.session_flows.specs.Calling.{finishing};
ghost use Rattle.rtmfp_data_chunks.specs.FlowOptions.{metadata_in, flow_named, names_known};
ghost use Rattle.session_flows.specs.Told.{begins_with_a};
ghost use Rattle.session_flows.specs.Causes.{data_cause, ack_cause, probe_cause, exception_cause};
ghost use Rattle.session_flows.specs.Causes.{chunk_cause};
ghost use Rattle.rtmfp_data_chunks.specs.Chunk.{Data, Next, Probe, Exception};
ghost use Rattle.session_flows.specs.Chunks.{rejecting, chunk_done, session_after, session_heard};
ghost use Rattle.session_flows.specs.Owing.{acks_put, is_full_for, owes};
ghost use Rattle.session_flows.specs.Packing.{first_to_send, goes, follows, packing, packs};
ghost use Rattle.session_flows.specs.Packing.{is_data_due};
ghost use Rattle.session_flows.specs.Edges.{option_with, chunk_of_flow, flow_with, new_at};
ghost use Rattle.session_flows.specs.Edges.{taking_with, fresh_at, owed_at, flows_of, pace_with};
ghost use Rattle.session_flows.specs.Edges.{in_stage, no_limits, one_flow, one_message};
ghost use Rattle.session_flows.specs.Edges.{two_messages, finished_flow, metadata, answering};
ghost use Rattle.session_flows.specs.Edges.{made_answering, sending_some, sending_none, numbers_of};
ghost use Rattle.session_flows.specs.Edges.{untimed, with_deadline, with_window};
ghost use Rattle.session_flows.specs.Timing.{overdue_in, overdue_done, session_late};
ghost use Rattle.session_core.specs.Congestion.{shrunk};

use crate::refusal::CallRefusal;
use rtmfp_base::Cause;

/// A session opens 256 flows, with metadata of at most 64 bytes and a priority of at most 7. That
/// it has 256 counts first.
pub fn a_session_opens_256_flows()
    ensures full { (s : FlowsState) (size priority : ℕ) → length s.sending ≡ 256 →
        open_refusal s size priority ≡ Some (CallRefusal.FlowsFull 256) }
    ensures room { (s : FlowsState) → length s.sending ≡ 255 → open_refusal s 64 7 ≡ None }
    ensures wide { open_refusal no_flows 65 7 ≡ Some (CallRefusal.WideMetadata 65) }
    ensures high { open_refusal no_flows 1 8 ≡ Some (CallRefusal.WideMetadata 1) }
    ensures next { opening one_flow (0x6d ∷ []) None 4 ≡ record {
      flows = flows_of (new_at 0 ∷ new_at 1 ∷ []) [];
      stated = Opened 1 ∷ [];
    } }
{}

/// Calls on a flow that wasn't opened are refused. Numbers begin at 1, a finished flow takes no
/// message, and a message is abandoned once.
pub fn calls_on_a_flow()
    ensures no_flow { queue_refused one_flow 1 0 ≡ Some CallRefusal.NoFlow }
    ensures none_to_abandon { abandon_refused one_flow 1 1 ≡ Some CallRefusal.NoFlow }
    ensures none_to_finish { finish_refused one_flow 1 ≡ Some CallRefusal.NoFlow }
    ensures first { (queueing one_flow 0 (7 ∷ []) no_limits).stated ≡ Queued 0 1 (7 ∷ []) ∷ [] }
    ensures second { (queueing one_message 0 [] no_limits).stated ≡ Queued 0 2 [] ∷ [] }
    ensures not_queued { abandon_refused one_message 0 2 ≡ Some CallRefusal.NotQueued }
    ensures queued { abandon_refused one_message 0 1 ≡ None }
    ensures abandoned { (abandoning one_message 0 1).stated ≡ Abandoned 0 1 ∷ [] }
    ensures once { abandon_refused (abandoning one_message 0 1).flows 0 1
        ≡ Some CallRefusal.NotQueued }
    ensures finished { (finishing one_message 0).stated ≡ Finished 0 2 ∷ [] }
    ensures again { finish_refused finished_flow 0 ≡ Some CallRefusal.Finished }
    ensures no_message { queue_refused finished_flow 0 0
        ≡ Some (CallRefusal.Queue QueueRefusal.Finished) }
{}

/// A queue that is refused tells the flow's own refusal with its value, and want of memory as such.
pub fn refusals_of_a_queue()
    ensures memory { queue_refusal_of QueueRefusal.Memory ≡ CallRefusal.Memory }
    ensures finished { queue_refusal_of QueueRefusal.Finished
        ≡ CallRefusal.Queue QueueRefusal.Finished }
    ensures spent { queue_refusal_of QueueRefusal.SequenceSpent
        ≡ CallRefusal.Queue QueueRefusal.SequenceSpent }
    ensures long { queue_refusal_of (QueueRefusal.TooLong 7)
        ≡ CallRefusal.Queue (QueueRefusal.TooLong 7) }
    ensures backlog { queue_refusal_of (QueueRefusal.Backlog 7)
        ≡ CallRefusal.Queue (QueueRefusal.Backlog 7) }
{}

/// The first metadata count, and an `a` at their beginning. An association names a flow by one
/// number, in any spelling, and nothing else.
pub fn what_options_tell()
    ensures first { metadata_in (option_with 3 [] ∷ option_with 0 (1 ∷ []) ∷ option_with 0 [] ∷ [])
        ≡ Some (1 ∷ []) }
    ensures none { metadata_in (option_with 10 (0 ∷ []) ∷ []) ≡ None }
    ensures an_a { begins_with_a (97 ∷ 98 ∷ []) ≡ true }
    ensures no_a { begins_with_a (98 ∷ 97 ∷ []) ≡ false }
    ensures empty { begins_with_a [] ≡ false }
    ensures one { flow_named (5 ∷ []) ≡ Some 5 }
    ensures long { flow_named (128 ∷ 5 ∷ []) ≡ Some 5 }
    ensures more { flow_named (5 ∷ 0 ∷ []) ≡ None }
    ensures cut { flow_named (128 ∷ []) ≡ None }
    ensures nothing { flow_named [] ≡ None }
    ensures there { names_known 6 (option_with 10 (5 ∷ [])) ≡ true }
    ensures beyond { names_known 5 (option_with 10 (5 ∷ [])) ≡ false }
    ensures no_number { names_known 6 (option_with 10 []) ≡ false }
    ensures other_kind { names_known 0 (option_with 11 (5 ∷ [])) ≡ true }
{}

/// The causes of data, in their order: a session that has ended; a flow that isn't there and isn't
/// made, or an association with none; one flow too many; and those of the receiver.
pub fn causes_of_data()
    ensures closing { (session : SessionState) → data_cause (in_stage NearClose session) no_flows
        (chunk_of_flow 5 1 None) ≡ Some Cause.WrongState }
    ensures lingering { (session : SessionState) → data_cause (in_stage FarLinger session) no_flows
        (chunk_of_flow 5 1 metadata) ≡ Some Cause.WrongState }
    ensures half_open { (session : SessionState) → data_cause (in_stage Opening session) no_flows
        (chunk_of_flow 5 1 metadata) ≡ None }
    ensures unknown { (session : SessionState) → data_cause (in_stage Open session) no_flows
        (chunk_of_flow 5 1 None) ≡ Some Cause.UnknownFlow }
    ensures made { (session : SessionState) → data_cause (in_stage Open session) no_flows
        (chunk_of_flow 5 1 metadata) ≡ None }
    ensures there { (session : SessionState) → data_cause (in_stage Open session)
        (flows_of [] (fresh_at 4 ∷ fresh_at 5 ∷ [])) (chunk_of_flow 5 1 None) ≡ None }
    ensures not_there { (session : SessionState) → data_cause (in_stage Open session)
        (flows_of [] (fresh_at 4 ∷ fresh_at 6 ∷ [])) (chunk_of_flow 5 1 None)
        ≡ Some Cause.UnknownFlow }
    ensures astray { (session : SessionState) → data_cause (in_stage Open session)
        (flows_of [] (fresh_at 5 ∷ [])) (chunk_of_flow 5 1 (answering (0 ∷ [])))
        ≡ Some Cause.UnknownFlow }
    ensures answers { (session : SessionState) → data_cause (in_stage Open session)
        (flows_of (new_at 0 ∷ []) (fresh_at 5 ∷ [])) (chunk_of_flow 5 1 (answering (0 ∷ [])))
        ≡ None }
    ensures made_astray { (session : SessionState) → data_cause (in_stage Open session)
        (flows_of (new_at 0 ∷ []) []) (chunk_of_flow 5 1 (made_answering (1 ∷ [])))
        ≡ Some Cause.UnknownFlow }
    ensures too_far { (session : SessionState) → data_cause (in_stage Open session) no_flows
        (chunk_of_flow 5 70000 metadata) ≡ Some (Cause.BeyondBuffer 0) }
    ensures after_final { (session : SessionState) → data_cause (in_stage Open session)
        (flows_of [] (taking_with 5 (record (fresh false) { last = Some 3; highest = 3 }) ∷ []))
        (chunk_of_flow 5 4 None) ≡ Some (Cause.AfterFinal 3) }
{}

/// Flow 257 is refused, before what its receiver would refuse and after what makes no flow.
pub fn flow_257()
    ensures full { (session : SessionState) (taking : List TakingFlow) → length taking ≡ 256 →
        in_taking 5 taking ≡ None → data_cause (in_stage Open session) (flows_of [] taking)
        (chunk_of_flow 5 70000 metadata) ≡ Some (Cause.FlowsFull 256) }
    ensures room { (session : SessionState) (taking : List TakingFlow) → length taking ≡ 255 →
        in_taking 5 taking ≡ None → data_cause (in_stage Open session) (flows_of [] taking)
        (chunk_of_flow 5 1 metadata) ≡ None }
    ensures unknown { (session : SessionState) (taking : List TakingFlow) → length taking ≡ 256 →
        in_taking 5 taking ≡ None → data_cause (in_stage Open session) (flows_of [] taking)
        (chunk_of_flow 5 1 None) ≡ Some Cause.UnknownFlow }
{}

/// Acks and exceptions speak of sending flows, a buffer probe asks of a receiving one.
pub fn causes_of_acks_probes_and_exceptions()
    ensures no_flow { (session : SessionState) → ack_cause (in_stage Open session)
        (flows_of [] (fresh_at 0 ∷ [])) 0 (told 0 0 []) ≡ Some Cause.UnknownFlow }
    ensures beyond { (session : SessionState) → ack_cause (in_stage Open session) one_message 0
        (told 0 1 []) ≡ Some (Cause.AckBeyond 1) }
    ensures nothing_sent { (session : SessionState) → ack_cause (in_stage Open session) one_message
        0 (told 0 0 []) ≡ None }
    ensures ended { (session : SessionState) → ack_cause (in_stage Closed session) no_flows 0
        (told 0 0 []) ≡ Some Cause.WrongState }
    ensures probe { (session : SessionState) → probe_cause (in_stage Open session)
        (flows_of [] (fresh_at 3 ∷ [])) 3 ≡ None }
    ensures no_probe { (session : SessionState) → probe_cause (in_stage Open session) one_flow 0
        ≡ Some Cause.UnknownFlow }
    ensures exception { (session : SessionState) → exception_cause (in_stage Open session) one_flow
        0 ≡ None }
    ensures no_exception { (session : SessionState) → exception_cause (in_stage Open session)
        (flows_of [] (fresh_at 0 ∷ [])) 0 ≡ Some Cause.UnknownFlow }
{}

/// An ack of 2 bytes that makes a number lost opens a window of 10,000 bytes first: half of 10,002
/// is left, and not half of 10,000, from which on 2 bytes would add nothing.
pub fn an_ack_that_makes_a_number_lost()
    ensures { (session : SessionState) → (session_heard (with_window 10000 session)
        (flows_of (flow_with 0 4 (numbers (flying 1 2 (7 ∷ []) ∷ flying 2 0 (7 ∷ 8 ∷ []) ∷ [])) ∷ [])
        []) 0 (told 64 0 ((2, 2) ∷ []))).congestion ≡ record { window = 5001; threshold = 5001 } }
{}

/// An exception abandons all messages that wait, by rising numbers, and finishes the flow.
pub fn an_exception()
    ensures all { (rejecting two_messages 0).stated
        ≡ Abandoned 0 1 ∷ Abandoned 0 2 ∷ Finished 0 3 ∷ [] }
    ensures again { (rejecting (rejecting two_messages 0).flows 0).stated ≡ [] }
    ensures finished { (rejecting finished_flow 0).stated ≡ Abandoned 0 1 ∷ [] }
    ensures no_message { (rejecting one_flow 0).stated ≡ Finished 0 1 ∷ [] }
{}

/// Acks go by rising IDs, of the flows that are owed one, each whole or not at all but for its
/// pairs.
#[tactic(auto, unfolding(rtmfp_vlu::specs::Vlu::vlu))]
pub fn acks()
    ensures both { (acks_put (owed_at 3 ∷ fresh_at 5 ∷ owed_at 7 ∷ []) (1 ∷ [])).packet
        ≡ 1 ∷ 81 ∷ 0 ∷ 4 ∷ 3 ∷ 144 ∷ 0 ∷ 0 ∷ 81 ∷ 0 ∷ 4 ∷ 7 ∷ 144 ∷ 0 ∷ 0 ∷ [] }
    ensures none_owed { (acks_put (owed_at 3 ∷ fresh_at 5 ∷ owed_at 7 ∷ []) (1 ∷ [])).taking
        ≡ fresh_at 3 ∷ fresh_at 5 ∷ fresh_at 7 ∷ [] }
    ensures fits { (packet : List ℕ) → length packet ≡ 1157 →
        is_full_for (owed_at 3) packet ≡ false }
    ensures full { (packet : List ℕ) → length packet ≡ 1158 →
        is_full_for (owed_at 3) packet ≡ true }
{}

/// The highest priority sends first, and of equal ones the lowest ID. A flow that has nothing to
/// send, or is past its told blocks, is passed over.
pub fn the_flow_that_sends()
    ensures higher { first_to_send (pace_with 0 4380)
        (sending_some 0 1 (7 ∷ []) ∷ sending_some 1 7 (7 ∷ []) ∷ [])
        ≡ Some (sending_some 1 7 (7 ∷ [])) }
    ensures lower { first_to_send (pace_with 0 4380)
        (sending_some 0 7 (7 ∷ []) ∷ sending_some 1 1 (7 ∷ []) ∷ [])
        ≡ Some (sending_some 0 7 (7 ∷ [])) }
    ensures equal { first_to_send (pace_with 0 4380)
        (sending_some 0 4 (7 ∷ []) ∷ sending_some 1 4 (7 ∷ []) ∷ [])
        ≡ Some (sending_some 0 4 (7 ∷ [])) }
    ensures has_nothing { first_to_send (pace_with 0 4380)
        (sending_some 0 1 (7 ∷ []) ∷ sending_none 1 7 ∷ []) ≡ Some (sending_some 0 1 (7 ∷ [])) }
    ensures past_its_blocks { first_to_send (pace_with 0 4380)
        (sending_some 0 1 (7 ∷ [])
        ∷ flow_with 1 7 (with_blocks 0 (numbers (flying 1 0 (7 ∷ []) ∷ unsent 0 0 [] ∷ []))) ∷ [])
        ≡ Some (sending_some 0 1 (7 ∷ [])) }
    ensures none { first_to_send (pace_with 0 4380) (sending_none 0 4 ∷ []) ≡ None }
{}

/// What is in flight with the next fragment is within the window, else the session sends nothing,
/// whatever its other flows have.
pub fn the_window()
    ensures within { goes (pace_with 0 3)
        (flow_with 0 4 (numbers (flying 1 0 (7 ∷ []) ∷ unsent 0 0 (7 ∷ 7 ∷ []) ∷ [])) ∷ []) ≡ true }
    ensures beyond { goes (pace_with 0 2)
        (flow_with 0 4 (numbers (flying 1 0 (7 ∷ []) ∷ unsent 0 0 (7 ∷ 7 ∷ []) ∷ [])) ∷ [])
        ≡ false }
    ensures of_all { goes (pace_with 0 1)
        (flow_with 0 4 (numbers (flying 1 0 (7 ∷ []) ∷ [])) ∷ sending_some 1 4 (7 ∷ []) ∷ [])
        ≡ false }
    ensures stops { goes (pace_with 0 1)
        (sending_some 0 4 (7 ∷ []) ∷ sending_some 1 7 (7 ∷ 7 ∷ []) ∷ []) ≡ false }
    ensures no_bytes { goes (pace_with 0 1)
        (flow_with 0 4 (numbers (flying 1 0 (7 ∷ []) ∷ unsent 0 0 [] ∷ [])) ∷ []) ≡ true }
{}

/// A next chunk has the flow and the forward number of the chunk before it, and its number plus
/// one.
pub fn next_chunks()
    ensures it { follows (Some (numbers_of 3 5 2)) (numbers_of 3 6 2) ≡ true }
    ensures other_flow { follows (Some (numbers_of 3 5 2)) (numbers_of 4 6 2) ≡ false }
    ensures same_number { follows (Some (numbers_of 3 5 2)) (numbers_of 3 5 2) ≡ false }
    ensures gap { follows (Some (numbers_of 3 5 2)) (numbers_of 3 7 2) ≡ false }
    ensures other_forward { follows (Some (numbers_of 3 5 2)) (numbers_of 3 6 3) ≡ false }
    ensures first { follows None (numbers_of 3 6 2) ≡ false }
{}

/// The first chunk of a flow in a packet has its options until an ack is heard. The next one of it
/// is a next chunk.
#[tactic(auto, unfolding(rtmfp_vlu::specs::Vlu::vlu, crate::specs::Packing::packs))]
pub fn a_packet()
    ensures { (packs (pace_with 0 4380) 5 (packing
        (flow_with 0 4 (numbers (unsent 0 0 (104 ∷ []) ∷ unsent 0 0 (111 ∷ []) ∷ [])) ∷ [])
        (1 ∷ []))).packet
        ≡ 1 ∷ 16 ∷ 0 ∷ 9 ∷ 128 ∷ 0 ∷ 1 ∷ 1 ∷ 2 ∷ 0 ∷ 109 ∷ 0 ∷ 104 ∷ 17 ∷ 0 ∷ 2 ∷ 0 ∷ 111 ∷ [] }
{}

/// What a chunk does whole. In queueing order a message waits for those before it, in arrival order
/// it doesn't; a repeated chunk hands over nothing, and each that is taken owes an ack.
pub fn chunks()
    ensures handed { (chunk_done no_flows (Data (chunk_of_flow 5 1 metadata))).stated
        ≡ Handed 5 1 (7 ∷ []) ∷ [] }
    ensures behind_a_gap { (chunk_done no_flows (Data (chunk_of_flow 5 2 metadata))).stated ≡ [] }
    ensures both { (chunk_done (chunk_done no_flows (Data (chunk_of_flow 5 2 metadata))).flows
        (Next (chunk_of_flow 5 1 None))).stated
        ≡ Handed 5 1 (7 ∷ []) ∷ Handed 5 2 (7 ∷ []) ∷ [] }
    ensures again { (chunk_done (chunk_done no_flows (Data (chunk_of_flow 5 1 metadata))).flows
        (Data (chunk_of_flow 5 1 None))).stated ≡ [] }
    ensures arriving { (chunk_done no_flows (Data (chunk_of_flow 5 2
        (Some (option_with 0 (97 ∷ []) ∷ []))))).stated ≡ Handed 5 2 (7 ∷ []) ∷ [] }
    ensures owed { owes (chunk_done no_flows (Data (chunk_of_flow 5 2 metadata))).flows ≡ true }
    ensures probe { owes (chunk_done (flows_of [] (fresh_at 3 ∷ [])) (Probe 3)).flows ≡ true }
    ensures exception { (chunk_done two_messages (Exception 0 7)).stated
        ≡ Abandoned 0 1 ∷ Abandoned 0 2 ∷ Finished 0 3 ∷ [] }
    ensures quiet { (session : SessionState) → session_after session no_flows (Probe 3) ≡ session }
    ensures cause { (session : SessionState) → chunk_cause (in_stage Open session) no_flows
        (Exception 0 7) ≡ Some Cause.UnknownFlow }
    ensures closing { (session : SessionState) → chunk_cause (in_stage NearClose session) no_flows
        (Next (chunk_of_flow 5 1 metadata)) ≡ Some Cause.WrongState }
{}

/// A message is abandoned at a tick above its deadline, also in a half-open session, and not in
/// one that is closing. Then its number is told to be given up.
pub fn deadlines()
    ensures at_it { (session : SessionState) → overdue_in (in_stage Open session) (with_deadline 5)
        5 ≡ None }
    ensures above_it { (session : SessionState) → overdue_in (in_stage Open session)
        (with_deadline 5) 6 ≡ Some (0, 1) }
    ensures half_open { (session : SessionState) → overdue_in (in_stage Opening session)
        (with_deadline 5) 6 ≡ Some (0, 1) }
    ensures closing { (session : SessionState) → overdue_in (in_stage NearClose session)
        (with_deadline 5) 6 ≡ None }
    ensures stated { (overdue_done (with_deadline 5) (Some (0, 1))).stated ≡ Abandoned 0 1 ∷ [] }
    ensures told { goes (pace_with 6 4380)
        (overdue_done (with_deadline 5) (Some (0, 1))).flows.sending ≡ true }
    ensures once { (session : SessionState) → overdue_in (in_stage Open session)
        (overdue_done (with_deadline 5) (Some (0, 1))).flows 6 ≡ None }
{}

/// What was sent the resend time before is lost, and it is one loss by time, however many numbers
/// and flows it is of. A session that has ended loses nothing.
pub fn losses_by_time()
    ensures before_it { (session : SessionState) → session_late (untimed session)
        (flows_of (flow_with 0 4 three ∷ []) []) 1999 ≡ untimed session }
    ensures at_it { (session : SessionState) → (session_late (untimed session)
        (flows_of (flow_with 0 4 three ∷ []) []) 2000).congestion ≡ shrunk true session.congestion }
    ensures of_two { (session : SessionState) → (session_late (untimed session)
        (flows_of (flow_with 0 4 three ∷ flow_with 1 4 three ∷ []) []) 2000).congestion
        ≡ shrunk true session.congestion }
    ensures of_the_second { (session : SessionState) → (session_late (untimed session)
        (flows_of (new_at 0 ∷ flow_with 1 4 three ∷ []) []) 2000).congestion
        ≡ shrunk true session.congestion }
    ensures ended { (session : SessionState) → session_late
        (in_stage FarLinger (untimed session)) (flows_of (flow_with 0 4 three ∷ []) []) 2000
        ≡ in_stage FarLinger (untimed session) }
    ensures half_open_sends_nothing { (session : SessionState) → is_data_due
        (in_stage Opening (untimed session)) one_message 0 ≡ false }
{}

/// Something may be due of a session's flows where one of those that it sends isn't idle, whatever
/// those that it takes owe.
pub fn flows_that_may_be_due()
    ensures no_flow { may_be_due no_flows ≡ false }
    ensures idle { may_be_due one_flow ≡ false }
    ensures a_message { may_be_due one_message ≡ true }
    ensures the_second { may_be_due (flows_of (new_at 0 ∷ sending_some 1 4 (7 ∷ []) ∷ []) [])
        ≡ true }
    ensures an_ack { may_be_due (flows_of (new_at 0 ∷ []) (owed_at 3 ∷ [])) ≡ false }
{}
