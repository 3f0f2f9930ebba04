//! Chunks of flows that came in a session (RFC 7016 section 3.6): data is handed over as far as it
//! is ready, acks open and close the window, and an exception ends a flow. The acks that are owed
//! go out after all chunks of the datagram.

ghost use Rattle.std.specs.Prelude.{◌≡◌, ◌<◌, ◌≤◌, ◌+◌, ◌^◌, ◌++◌, [], Err, IfErr, IfOk, IfSome};
ghost use Rattle.std.specs.Prelude.{IsOk, IsSome, MatchOption, None, Ok, OnErr, OnOk, Some, false};
ghost use Rattle.std.specs.Prelude.{length, map, option_to_list, true};
ghost use Rattle.std.specs.Option.{option_map};
ghost use Rattle.session_table.specs.Chunks.{cause_in, handed_in, rejected_in, waiting_in};
ghost use Rattle.std.specs.FinMap.{get};
ghost use Rattle.rtmfp_data_chunks.specs.Chunk.{Data, Probe, data_chunk, user_parts};
ghost use Rattle.rtmfp_data_chunks.specs.Spelling.{IsBehind, shown};
ghost use Rattle.rtmfp_data_chunks.specs.Writing.{IsDataChunk};
ghost use Rattle.flow_send.specs.Acks.{told};
ghost use Rattle.session_flows.specs.Keeping.{Abandoned};
ghost use Rattle.session_flows.specs.Causes.{exception_cause};
ghost use Rattle.session_flows.specs.Chunks.{finished_at};
ghost use Rattle.session_flows.specs.Judged.{IsJudged};
ghost use Rattle.endpoint_model.specs.Added.{IsShort};
ghost use Rattle.endpoint_model.specs.FlowChunks.{data_fault, flow_taken, flow_taken_by};
ghost use Rattle.endpoint_model.specs.FlowChunks.{states_nothing, taking_cause};
ghost use Rattle.endpoint_model.specs.State.{Done, nothing};
ghost use Rattle.endpoint_model.specs.Admission.{sid_at};
ghost use Rattle.end_chunks.specs.FlowChunks.{ack_cause_in, ack_heard, data_kept};
ghost use Rattle.end_chunks.specs.FlowChunks.{handed_once_by, probe_heard};
ghost use Rattle.end_chunks.specs.FlowChunks.{read_cause_at, rejected};

use end_state::{EndState, Outbox};
use endpoint_model::{Entry, Place};
use rtmfp_base::Cause;
use rtmfp_data_chunks::{AckedSpans, DataFault, DataView, UserData};
use session_flows::JudgedData;
use std::alloc::AllocError;

/// Why a field of a chunk of flows can't be read.
fn data_fault(fault: DataFault) -> Cause
    ensures { data_fault (Err fault) ≡ Some result }
{
    match fault {
        DataFault::Unknown(kind) => Cause::UnknownChunk(kind),
        DataFault::Malformed(at) => Cause::Malformed(at as u64),
        DataFault::BadOffset(at) => Cause::Malformed(at as u64),
    }
}

/// Why a chunk of flows isn't taken. All is as before.
#[derive(Clone, Copy)]
pub(crate) enum Untaken {
    /// It is to be discarded for this.
    Cause(Cause),
    Memory,
}

/// Takes a chunk of flows, as it was read, or says why it is discarded.
pub(crate) fn take_read(
    end: &mut EndState,
    place: Place,
    read: Result<DataView<'_>, DataFault>,
    out: &mut Outbox,
) -> Result<(), Untaken>
    requires { IfOk read (λ view. IsDataChunk (data_chunk view)) }
    ensures ok { OnOk result (Done (flow_taken end.old (sid_at place) (shown read.entry)) end.new
        out.old out.new) }
    ensures cause { MatchOption (read_cause_at end.old place (shown read.entry))
        (IfErr result (λ e. e ≡ Untaken.Memory)) (λ c. result ≡ Err (Untaken.Cause c)) }
    ensures err { OnErr result (Done (nothing end.old) end.new out.old out.new) }
    ensures quiet { states_nothing (get end.old.sessions (sid_at place)) (shown read.entry) ≡ true →
        IfErr result (λ e. IsSome (read_cause_at end.old place (shown read.entry))) }
{
    let view = match read {
        Ok(view) => view,
        Err(fault) => return Err(Untaken::Cause(data_fault(fault))),
    };
    let Place::Session(near) = place else {
        return Err(Untaken::Cause(Cause::WrongPlace));
    };
    match &view {
        DataView::Data(user) => take_data(end, near, user, out),
        DataView::Next(user) => take_data(end, near, user, out),
        DataView::AckBitmap {
            flow,
            blocks,
            upto,
            ..
        } => take_ack(end, near, *flow, *blocks, *upto, view.acked()),
        DataView::AckRanges {
            flow,
            blocks,
            upto,
            ..
        } => take_ack(end, near, *flow, *blocks, *upto, view.acked()),
        DataView::Probe { flow } => take_probe(end, near, *flow),
        DataView::Exception { flow, .. } => reject(end, near, *flow, out),
    }
}

/// Takes a data or next chunk, and hands over the messages that are ready then. Room for them is
/// found before, so that none is left.
fn take_data(
    end: &mut EndState,
    near: u32,
    user: &UserData<'_>,
    out: &mut Outbox,
) -> Result<(), Untaken>
    requires { IsBehind user.now.forward user.now.seq user.now.abandon }
    ensures ok { OnOk result (Done (flow_taken_by end.old near (Data (user_parts user.now))
        (get end.old.sessions near)) end.new out.old out.new) }
    ensures cause { MatchOption (taking_cause (get end.old.sessions near)
        (Data (user_parts user.now))) (IfErr result (λ e. e ≡ Untaken.Memory))
        (λ c. result ≡ Err (Untaken.Cause c)) }
    ensures err { OnErr result (Done (nothing end.old) end.new out.old out.new) }
{
    let judged = match end.sessions.judge_data(near, user) {
        Ok(judged) => judged,
        Err(cause) => return Err(Untaken::Cause(cause)),
    };
    let most = judged.most;
    match out.make_room(most) {
        Ok(()) => {}
        Err(_) => return Err(Untaken::Memory),
    }
    match keep_data(end, near, judged, user) {
        Ok(()) => {}
        Err(_) => return Err(Untaken::Memory),
    }
    for _ in 0..most {
        let Some(handed) = hand_next(end, near, user.flow) else {
            return Ok(());
        };
        out.add(handed);
    }
    Ok(())
}

/// Takes a data or next chunk that was judged and that nothing refuses, and hands nothing over yet.
fn keep_data(
    end: &mut EndState,
    near: u32,
    judged: JudgedData,
    user: &UserData<'_>,
) -> Result<(), AllocError>
    requires low { user.now.forward ≤ user.now.seq }
    requires below { user.now.abandon ≡ false → user.now.forward < user.now.seq }
    requires judged { IfSome (get end.old.sessions near)
        (λ row. IsJudged judged row.flows (user_parts user.now)) }
    ensures ok { OnOk result (end.new ≡ data_kept end.old near (user_parts user.now)
        (get end.old.sessions near)) }
    ensures err { OnErr result (end.new ≡ end.old) }
{
    end.sessions.apply_data(near, judged, user)
}

/// The entry of the next message of a flow, which counts as handed over from now on; none where
/// none is ready.
fn hand_next(end: &mut EndState, near: u32, flow: u64) -> Option<Entry>
    ensures state { end.new
        ≡ (handed_once_by end.old near flow (get end.old.sessions near)).state }
    ensures entry { (handed_once_by end.old near flow (get end.old.sessions near)).entries
        ≡ option_to_list result }
    ensures none { result ≡ None → handed_in flow (get end.old.sessions near) ≡ [] }
    ensures short { IfSome result (λ entry. IsShort entry) }
{
    match end.sessions.hand_next(near, flow) {
        Some((seq, message)) => Some(Entry::Handed {
            near,
            flow,
            seq,
            message,
        }),
        None => None,
    }
}

/// Takes an ack of a flow.
fn take_ack(
    end: &mut EndState,
    near: u32,
    flow: u64,
    blocks: u64,
    upto: u64,
    spans: AckedSpans<'_>,
) -> Result<(), Untaken>
    ensures ok { OnOk result (end.new ≡ ack_heard end.old near flow (told blocks upto spans.entry)
        (get end.old.sessions near)) }
    ensures cause { MatchOption (ack_cause_in (get end.old.sessions near)
        flow (told blocks upto spans.entry)) (result ≡ Ok tt)
        (λ c. result ≡ Err (Untaken.Cause c)) }
    ensures err { OnErr result (end.new ≡ end.old) }
{
    match end.sessions.take_ack(near, flow, blocks, upto, spans) {
        Ok(()) => Ok(()),
        Err(cause) => Err(Untaken::Cause(cause)),
    }
}

/// Owes an ack for a buffer probe.
fn take_probe(end: &mut EndState, near: u32, flow: u64) -> Result<(), Untaken>
    ensures ok { OnOk result (end.new ≡ probe_heard end.old near flow
        (get end.old.sessions near)) }
    ensures cause { MatchOption (taking_cause (get end.old.sessions near) (Probe flow))
        (result ≡ Ok tt) (λ c. result ≡ Err (Untaken.Cause c)) }
    ensures err { OnErr result (end.new ≡ end.old) }
{
    match end.sessions.take_probe(near, flow) {
        Ok(()) => Ok(()),
        Err(cause) => Err(Untaken::Cause(cause)),
    }
}

/// What an exception states.
#[derive(Drop)]
struct Rejection {
    /// The numbers of the messages that it abandons.
    numbers: Vec<u64>,
    /// The last number of the flow, if it wasn't finished before.
    last: Option<u64>,
}

/// Takes an exception, by which the other end rejects a flow: its messages that wait are
/// abandoned, and it is finished.
fn reject(end: &mut EndState, near: u32, flow: u64, out: &mut Outbox) -> Result<(), Untaken>
    ensures ok { OnOk result (Done (rejected end.old near flow (get end.old.sessions near)) end.new
        out.old out.new) }
    ensures cause { MatchOption
        (cause_in (λ s f. exception_cause s f flow) (get end.old.sessions near))
        (IfErr result (λ e. e ≡ Untaken.Memory)) (λ c. result ≡ Err (Untaken.Cause c)) }
    ensures err { OnErr result (Done (nothing end.old) end.new out.old out.new) }
    ensures quiet { rejected_in flow (get end.old.sessions near) ≡ [] →
        cause_in (λ s f. exception_cause s f flow) (get end.old.sessions near) ≡ None →
        IsOk result }
{
    let rejection = match take_exception(end, near, flow, out) {
        Ok(rejection) => rejection,
        Err(untaken) => return Err(untaken),
    };
    let last = rejection.last;
    let numbers = rejection.numbers.as_slice();
    for index in 0..numbers.len() {
        out.add(Entry::Abandoned {
            near,
            flow,
            seq: numbers[index],
        });
    }
    if let Some(seq) = last {
        out.add(Entry::Finished { near, flow, seq });
    }
    Ok(())
}

/// Takes an exception, or says why it is discarded, and finds room for what it states.
fn take_exception(
    end: &mut EndState,
    near: u32,
    flow: u64,
    out: &mut Outbox,
) -> Result<Rejection, Untaken>
    ensures state { OnOk result (end.new ≡ (rejected end.old near flow
        (get end.old.sessions near)).state) }
    ensures stated { IfOk result (λ rejection. rejected_in flow (get end.old.sessions near)
        ≡ map (Abandoned flow) rejection.numbers.items ++ finished_at flow rejection.last) }
    ensures space { IfOk result (λ rejection. length rejection.numbers.items
        + length (finished_at flow rejection.last) ≤ out.new.free) }
    ensures entries { out.new.entries ≡ out.old.entries }
    ensures free { out.old.free ≤ out.new.free }
    ensures room { out.new.room ≡ out.old.room }
    ensures cause { MatchOption
        (cause_in (λ s f. exception_cause s f flow) (get end.old.sessions near))
        (IfErr result (λ e. e ≡ Untaken.Memory)) (λ c. result ≡ Err (Untaken.Cause c)) }
    ensures err { OnErr result (end.new ≡ end.old) }
    ensures quiet { rejected_in flow (get end.old.sessions near) ≡ [] →
        cause_in (λ s f. exception_cause s f flow) (get end.old.sessions near) ≡ None →
        IsOk result }
{
    let count = match end.sessions.judge_exception(near, flow) {
        Ok(count) => count,
        Err(cause) => return Err(Untaken::Cause(cause)),
    };
    let mut numbers = Vec::new(end.alloc);
    if count == 0 {
        return Ok(Rejection {
            numbers,
            last: None,
        });
    }
    match out.make_room(count) {
        Ok(()) => {}
        Err(_) => return Err(Untaken::Memory),
    }
    match keep_exception(end, near, flow, &mut numbers) {
        Ok(last) => Ok(Rejection { numbers, last }),
        Err(_) => Err(Untaken::Memory),
    }
}

/// Takes an exception that nothing refuses, and puts the numbers of the messages that it abandons
/// at the end of a list. The flow's last number is given, if it wasn't finished before.
fn keep_exception(
    end: &mut EndState,
    near: u32,
    flow: u64,
    numbers: &mut Vec<u64>,
) -> Result<Option<u64>, AllocError>
    requires { IfSome (get end.old.sessions near) (λ row. flow < length row.flows.sending) }
    ensures state { OnOk result (end.new ≡ (rejected end.old near flow
        (get end.old.sessions near)).state) }
    ensures numbers { OnOk result (numbers.new.items ≡ numbers.old.items
        ++ waiting_in flow (get end.old.sessions near)) }
    ensures stated { IfOk result (λ last. rejected_in flow (get end.old.sessions near)
        ≡ map (Abandoned flow) (waiting_in flow (get end.old.sessions near))
        ++ finished_at flow last) }
    ensures err { OnErr result (end.new ≡ end.old) }
{
    end.sessions.apply_exception(near, flow, numbers)
}
