//! Which chunk of a session's flows goes next, and how chunks are packed into a packet.

ghost use Rattle.std.specs.Prelude.{◌≡◌, ◌+◌, ◌<◌, ◌≤◌, ◌^◌, ◌++◌, length, min, Some, None, true};
ghost use Rattle.std.specs.Prelude.{false, is_none, nat_le, ◌-◌};
ghost use Rattle.flow_send.specs.Choice.{choice_bytes};
ghost use Rattle.rtmfp_forms.specs.Outgoing.{packet_limit};
ghost use Rattle.rtmfp_data_chunks.specs.Chunk.{Data, user_parts, data_chunk};
ghost use Rattle.rtmfp_data_chunks.specs.Spelling.{IsBehind};
ghost use Rattle.rtmfp_data_chunks.specs.Writing.{data_bytes};
ghost use Rattle.session_flows.specs.Keeping.{with_sending};
ghost use Rattle.session_flows.specs.Packing.{packed, packing_with, pace_of, may_send, chosen};
ghost use Rattle.session_flows.specs.Packing.{first_to_send, session_flight, follows, as_chunk};
ghost use Rattle.session_flows.specs.Packing.{numbers_in, marked, flow_packed, packed_once};
ghost use Rattle.session_flows.specs.Packing.{filled, goes, is_data_due, Goes, IsNextFrom};
ghost use Rattle.session_flows.specs.Packing.{left_to_send};
ghost use Rattle.session_flows.specs.Waiting.{waiting_in};
ghost use Rattle.session_flows.specs.Laws.{AreNumbered};
ghost use Rattle.session_flows.specs.Kept.{IsKept};

use crate::flows::Flows;
use crate::kept::{IDS, Kept, may_send};
use crate::pace::{Before, Marks, Pace};
use flow_send::{FlowSender, NoChunk};
use rtmfp_data_chunks::{DataView, UserData, write_data};
use rtmfp_forms::Outgoing;
use session_core::{Session, Stage};

/// More chunks than a packet has room for.
const MOST_CHUNKS: u32 = 1165;

impl Flows {
    /// Whether flow data goes at a tick: neither of a half-open session, nor of one that is
    /// closing. It takes no memory.
    pub fn is_data_due(&self, session: &Session, moment: u64) -> bool
        ensures { result ≡ is_data_due session.now self.now moment }
    {
        session.stage() == Stage::Open && goes(pace_of(session, moment), &self.kept, &self.sending)
    }

    /// Packs chunks into a packet that was begun, one after another, until none goes any more: of
    /// the flows that may send the one with the highest priority does, and of those with equal
    /// priorities the one with the lowest ID. A chunk that has no room, counted as a data chunk,
    /// is left for the next packet, and one that would pass the session's window for a later tick.
    /// It takes no memory.
    pub fn fill(&mut self, session: &Session, moment: u64, out: &mut Outgoing)
        ensures flows { self.new ≡ with_sending self.old
            (filled (pace_of session.now moment) self.old.sending out.old).sending }
        ensures packet { out.new
            ≡ (filled (pace_of session.now moment) self.old.sending out.old).packet }
        // Where a chunk is due, one goes into a packet that has no more than its head.
        ensures falls { is_data_due session.now self.old moment ≡ true → length out.old ≤ 51 →
            left_to_send (pace_of session.now moment) self.new.sending
            < left_to_send (pace_of session.now moment) self.old.sending }
        // The same messages wait.
        ensures waits { waiting_in self.new.sending ≡ waiting_in self.old.sending }
        // None goes any more.
        ensures full { is_none (packed_once (pace_of session.now moment)
            (filled (pace_of session.now moment) self.old.sending out.old)) ≡ true }
    {
        fill(
            pace_of(session, moment),
            &mut self.kept,
            &mut self.sending,
            out,
        );
    }
}

/// What a session tells of how fast it sends.
fn pace_of(session: &Session, moment: u64) -> Pace
    ensures pace { result ≡ pace_of session.now moment }
    ensures window { result.window ≤ 1048576 }
{
    Pace {
        moment,
        resend_after: session.resend_after(),
        window: session.window(),
    }
}

/// The index of the flow that sends.
fn first_to_send(pace: Pace, kept: &Kept, sending: &[FlowSender]) -> Option<usize>
    requires numbered { AreNumbered 0 sending.now }
    requires few { length sending.now ≤ 256 }
    requires kept { IsKept sending.now kept.now }
    ensures { IsNextFrom pace sending.now 0 result }
{
    let mut from = 0;
    while let Some(turn) = kept.first_from(from) {
        let at = turn % IDS;
        if may_send(pace, &sending[at]) {
            return Some(at);
        }
        from = turn + 1;
    }
    None
}

/// Whether a chunk goes, in a packet with room.
fn goes(pace: Pace, kept: &Kept, sending: &[FlowSender]) -> bool
    requires numbered { AreNumbered 0 sending.now }
    requires few { length sending.now ≤ 256 }
    requires kept { IsKept sending.now kept.now }
    requires window { pace.window ≤ 1048576 }
    ensures { result ≡ goes pace sending.now }
{
    match first_to_send(pace, kept, sending) {
        Some(at) => goes_of(pace, kept.flight(), &sending[at]),
        None => false,
    }
}

/// Whether a chunk of a flow goes, where so many bytes are in flight.
fn goes_of(pace: Pace, flight: u64, sender: &FlowSender) -> bool
    requires { may_send pace sender.now ≡ true }
    ensures { result ≡ nat_le (flight + choice_bytes (chosen pace sender.now)) pace.window }
{
    let offer = sender.offers(
        true,
        usize::MAX,
        flight,
        pace.window,
        pace.moment,
        pace.resend_after,
    );
    match offer {
        Err(NoChunk::Window) => false,
        _ => true,
    }
}

/// Packs chunks until none goes any more.
fn fill(pace: Pace, kept: &mut Kept, sending: &mut [FlowSender], out: &mut Outgoing)
    requires numbered { AreNumbered 0 sending.old }
    requires few { length sending.old ≤ 256 }
    requires kept { IsKept sending.old kept.old }
    requires window { pace.window ≤ 1048576 }
    ensures flows { sending.new ≡ (filled pace sending.old out.old).sending }
    ensures packet { out.new ≡ (filled pace sending.old out.old).packet }
    ensures full { is_none (packed_once pace (filled pace sending.old out.old)) ≡ true }
    ensures falls { goes pace sending.old ≡ true → length out.old ≤ 51 → 0 < pace.resend_after →
        left_to_send pace sending.new < left_to_send pace sending.old }
    ensures numbered { AreNumbered 0 sending.new }
    ensures kept { IsKept sending.new kept.new }
{
    let mut marks = Marks {
        before: None,
        begun: [false; 256],
    };
    for _ in 0..MOST_CHUNKS {
        if !pack_once(pace, kept, sending, &mut marks, out) {
            return;
        }
    }
    // Each chunk has a byte at least, so that so many don't go.
    let _room = out.room();
}

/// Packs one chunk more, where one goes.
fn pack_once(
    pace: Pace,
    kept: &mut Kept,
    sending: &mut [FlowSender],
    marks: &mut Marks,
    out: &mut Outgoing,
) -> bool
    requires numbered { AreNumbered 0 sending.old }
    requires few { length sending.old ≤ 256 }
    requires kept { IsKept sending.old kept.old }
    requires window { pace.window ≤ 1048576 }
    ensures goes { Goes (packed_once pace (packing_with sending.old out.old marks.old)) result
        (packing_with sending.old out.old marks.old)
        (packing_with sending.new out.new marks.new) }
    ensures numbered { AreNumbered 0 sending.new }
    ensures longer { result ≡ true → length out.old < length out.new }
    ensures due { goes pace sending.old ≡ true → length out.old ≤ 51 → result ≡ true }
    ensures kept { IsKept sending.new kept.new }
{
    let Some(at) = first_to_send(pace, kept, sending) else {
        return false;
    };
    let flight = kept.flight();
    let sender = &mut sending[at];
    let before = sender.flight();
    let goes = pack_flow(pace, sender, flight, marks, out);
    kept.settle(before, sender);
    goes
}

/// Packs the next chunk of a flow, where it goes and so many bytes of the session are in flight.
fn pack_flow(
    pace: Pace,
    sender: &mut FlowSender,
    flight: u64,
    marks: &mut Marks,
    out: &mut Outgoing,
) -> bool
    requires { sender.old.id < 256 }
    ensures goes { Goes (flow_packed pace flight (packed sender.old out.old marks.old)) result
        (packed sender.old out.old marks.old) (packed sender.new out.new marks.new) }
    ensures id { sender.new.id ≡ sender.old.id }
    ensures priority { sender.new.priority ≡ sender.old.priority }
    ensures waits { sender.new.sender.waiting ≡ sender.old.sender.waiting }
    ensures longer { result ≡ true → length out.old < length out.new }
    ensures due { may_send pace sender.old ≡ true → length out.old ≤ 51 →
        flight + choice_bytes (chosen pace sender.old) ≤ pace.window → result ≡ true }
{
    let first = !marks.begun[sender.id() as usize];
    let Ok(pick) = sender.offers(
        first,
        out.room(),
        flight,
        pace.window,
        pace.moment,
        pace.resend_after,
    ) else {
        return false;
    };
    put(sender.chunk(pick, first), marks, out);
    sender.send(pick, pace.moment);
    true
}

/// Puts a chunk at the end, for which there is room as a data chunk.
fn put(chunk: UserData<'_>, marks: &mut Marks, out: &mut Outgoing)
    requires behind { IsBehind chunk.forward chunk.seq chunk.abandon }
    requires room { length out.old + length (data_bytes (Data (user_parts chunk))) ≤ packet_limit }
    requires few { chunk.flow < 256 }
    ensures packet { out.new ≡ out.old
        ++ data_bytes (as_chunk marks.old.before (user_parts chunk.entry)) }
    ensures marks { marks.new ≡ marked marks.old (user_parts chunk.entry) }
{
    let numbers = Before {
        flow: chunk.flow,
        seq: chunk.seq,
        forward: chunk.forward,
    };
    let _ = write_data(&as_chunk(marks.before, numbers, chunk), out);
    marks.before = Some(numbers);
    marks.begun[numbers.flow as usize] = true;
}

/// A next chunk where it follows the one before it, else a data chunk.
fn as_chunk<'a>(before: Option<Before>, numbers: Before, chunk: UserData<'a>) -> DataView<'a>
    requires { numbers ≡ numbers_in (user_parts chunk) }
    ensures { data_chunk result ≡ as_chunk before (user_parts chunk.entry) }
{
    if follows(before, numbers) {
        DataView::Next(chunk)
    } else {
        DataView::Data(chunk)
    }
}

/// Whether a chunk with these numbers is of the flow of the one before it, with its number plus one
/// and its forward number.
fn follows(before: Option<Before>, now: Before) -> bool
    ensures { result ≡ follows before now }
{
    match before {
        Some(before) => {
            now.flow == before.flow
                && before.seq < u64::MAX
                && now.seq == before.seq + 1
                && now.forward == before.forward
        }
        None => false,
    }
}
