//! The receiver of a flow.

ghost use Rattle.std.specs.Prelude.{◌≡◌, ◌≢◌, ◌+◌, ◌-◌, ◌<◌, ◌≤◌, ◌∷◌, ◌++◌, ◌↔◌, IfOk, IsOk};
ghost use Rattle.std.specs.Prelude.{IsErr, OnOk, OnErr, IfErr, MatchOption, length, Some};
ghost use Rattle.std.specs.Prelude.{None, Ok, Err, false, true, ◌==◌, ◌^◌, ◌&&◌, ◌||◌, not, nat_lt};
ghost use Rattle.std.specs.Prelude.{nat_le, max, if◌then◌else◌};
ghost use Rattle.std.specs.List.{filter};
ghost use Rattle.std.specs.Option.{option_map, is_some};
ghost use Rattle.rtmfp_data_chunks.specs.Runs.{single, message_of};
ghost use Rattle.rtmfp_data_chunks.specs.Taken.{chunk_of};
ghost use Rattle.flow_recv.specs.Receiver.{Receiver, Apart, fresh, span, lacks, living, held_in};
ghost use Rattle.flow_recv.specs.Receiver.{after_last, passes_buffer, add_run, add_span};
ghost use Rattle.flow_recv.specs.Receiver.{beyond_buffer, taken, next_run, handed_next};
ghost use Rattle.flow_recv.specs.Keyed.{IsFree, stays};
ghost use Rattle.flow_recv.specs.Sums.{AllEndNear};
ghost use Rattle.flow_recv.specs.Acking.{free_blocks, ack_head, ack_bytes, TellsSpans};
ghost use Rattle.rtmfp_forms.specs.Outgoing.{packet_limit};
ghost use Rattle.flow_recv.specs.Outcome.{refusal, took, message};
ghost use Rattle.flow_recv.specs.Sound.{AllAlive, Sound};
ghost use Rattle.flow_recv.specs.Order.{InOrder, AllKnown};
ghost use Rattle.flow_recv.specs.Reached.{IsReached};

use crate::above::Above;
use crate::acking::{pairs_len, put_pairs};
use crate::newest::NewestRuns;
use crate::outcome::{FlowRefusal, Took};
use crate::runs::{add_run, any_ready, drop_dead, dying_bytes, take_ready};
use crate::spans::{Spot, lacks, mark_alone, mark_behind, mark_first, raise, raised, spot_of};
use crate::sums::{block_of, block_start};
use rtmfp_base::{Memory, Message};
use rtmfp_data_chunks::UserData;
use rtmfp_forms::{NoRoom, Outgoing};
use rtmfp_vlu::vlu_len;
use std::alloc::{AllocError, Global};
use std::marker::Model;

/// The first byte of the metadata of a flow whose messages are handed over as they arrive, an `a`.
const ARRIVING: u8 = 0x61;

/// The receiver of a flow. Contracts see the numbers that aren't missing as spans, the runs of
/// fragments that can still become messages with their bytes, the last number where it is known,
/// and the highest one taken.
#[derive(Drop)]
pub struct FlowReceiver {
    alloc: Global,
    arriving: bool,
    through: u64,
    above: Above,
    runs: NewestRuns,
    held: u64,
    last: Option<u64>,
    highest: u64,
}

impl Model for FlowReceiver {
    ghost use Rattle.std.specs.Prelude.{◌∷◌};
    ghost use Rattle.flow_recv.specs.Receiver.{Receiver, span};
    ghost use Rattle.flow_recv.specs.Order.{Laid};

    ghost Value = { Receiver };

    ghost view = { λ r. record {
      arriving = r.arriving;
      spans = span 0 r.through ∷ r.above;
      runs = r.runs;
      last = r.last;
      highest = r.highest;
    } };

    ghost invariant = { λ r. Laid (record {
      arriving = r.arriving;
      spans = span 0 r.through ∷ r.above;
      runs = r.runs;
      last = r.last;
      highest = r.highest;
    }) r.held };
}

impl FlowReceiver {
    /// A receiver that has taken nothing, for a flow whose metadata begins with this byte.
    pub fn new(alloc: Global, first_metadata: u8) -> FlowReceiver
        ensures { result ≡ fresh (first_metadata == 97) }
    {
        FlowReceiver {
            alloc,
            arriving: first_metadata == ARRIVING,
            through: 0,
            above: Above::new(alloc),
            runs: NewestRuns::new(alloc, first_metadata == ARRIVING),
            held: 0,
            last: None,
            highest: 0,
        }
    }

    /// Takes a user data chunk. The number of a chunk without abandon is held where it was missing.
    pub fn take(&mut self, chunk: &UserData<'_>) -> Result<Took, FlowRefusal>
        requires low { chunk.now.forward ≤ chunk.now.seq }
        requires below { chunk.now.abandon ≡ false → chunk.now.forward < chunk.now.seq }
        ensures took { IfOk result (λ t. t ≡ took self.old (chunk_of chunk.now)) }
        ensures taken { OnOk result (self.new ≡ taken self.old (chunk_of chunk.now)) }
        ensures refused { MatchOption (refusal self.old (chunk_of chunk.now))
            (IfErr result (λ e. e ≡ FlowRefusal.Memory)) (λ e. result ≡ Err e) }
        ensures err { OnErr result (self.new ≡ self.old) }
        // A chunk whose number isn't missing is never refused for want of memory.
        ensures again { lacks self.old.spans chunk.now.seq ≡ false →
            result ≢ Err FlowRefusal.Memory }
        // At most 3,145,728 bytes are held, and at most 65,536 numbers above the lowest missing one
        // aren't missing.
        ensures sound { Sound self.new }
    {
        // Read for the prover alone, which has from it what holds of every receiver.
        let _highest = self.highest;
        if let Some(refusal) = self.refusal(chunk) {
            return Err(refusal);
        }
        match self.apply(chunk) {
            Ok(took) => Ok(took),
            Err(_) => Err(FlowRefusal::Memory),
        }
    }

    /// Takes a user data chunk that nothing refuses, but for want of memory.
    pub fn apply(&mut self, chunk: &UserData<'_>) -> Result<Took, AllocError>
        requires low { chunk.now.forward ≤ chunk.now.seq }
        requires below { chunk.now.abandon ≡ false → chunk.now.forward < chunk.now.seq }
        requires free { refusal self.old (chunk_of chunk.now) ≡ None }
        ensures took { IfOk result (λ t. t ≡ took self.old (chunk_of chunk.now)) }
        ensures taken { OnOk result (self.new ≡ taken self.old (chunk_of chunk.now)) }
        ensures err { OnErr result (self.new ≡ self.old) }
        // A chunk whose number isn't missing wants no memory.
        ensures again { lacks self.old.spans chunk.now.seq ≡ false → IsOk result }
        ensures sound { Sound self.new }
    {
        let missing = lacks(self.through, &self.above, u128::from(chunk.seq));
        let before = self.through;
        let Ok(end) = admit(
            self.alloc,
            before,
            &mut self.above,
            &mut self.runs,
            missing,
            chunk,
        ) else {
            return Err(AllocError);
        };
        self.through = end;
        let held = self.held + added_by(missing, chunk);
        let dropped = drop_after(
            &mut self.runs,
            before,
            chunk.forward,
            chunk.seq,
            self.through,
            &self.above,
        );
        self.held = held - dropped;
        self.last = last_after(self.last, chunk);
        self.highest = chunk.seq.max(self.highest);
        Ok(took_by(missing, chunk))
    }

    /// Hands over the next message, with the number of its first fragment. None where no message is
    /// ready. It takes no memory.
    pub fn next_message(&mut self) -> Result<Option<(u64, Message)>, Memory>
        ensures next { IfOk result (λ found. option_map (λ p. message p.0 p.1) found
            ≡ option_map message_of (next_run self.old)) }
        ensures rest { self.new ≡ handed_next self.old }
        ensures no_memory { IsOk result }
    {
        let Some(run) = take_ready(&mut self.runs, self.arriving, self.through) else {
            return Ok(None);
        };
        self.held -= run.len() as u64;
        let number = run.first();
        Ok(Some((number, Message::of(run.into_bytes(self.alloc)))))
    }

    /// How many stretches of fragments it holds, each of which becomes one message at most.
    pub fn runs(&self) -> usize
        ensures value { result ≡ length self.now.runs }
        ensures small { result ≤ 2 ^ 63 }
        // So at any moment at most 3,145,728 bytes are held, and at most 65,536 numbers above the
        // lowest missing one aren't missing; the spans go upward and don't touch.
        ensures sound { Sound self.now }
        // The runs go upward, no two have a number, and none of their numbers is missing.
        ensures order { InOrder 0 self.now.runs }
        ensures known { AllKnown self.now.spans self.now.runs }
    {
        self.runs.len()
    }

    /// Some list of calls, each a chunk that it took or a message that it handed over, leads to it
    /// from a receiver that has taken nothing. So what holds after every such list holds of each
    /// receiver. It does nothing.
    pub fn comes_of_its_calls(&self)
        ensures { IsReached self.now }
    {
        let _highest = self.highest;
    }

    /// Whether a message is ready to be handed over.
    pub fn is_ready(&self) -> bool
        ensures { result ≡ is_some (next_run self.now) }
    {
        any_ready(&self.runs, self.arriving, self.through)
    }

    /// Puts an ack at the end, for the flow of an id: what is free in the buffer, the number at or
    /// below which none is missing, and as many of the spans above it as fit. All or nothing of
    /// it but these.
    pub fn ack_into(&self, flow: u64, out: &mut Outgoing) -> Result<(), NoRoom>
        ensures ok { OnOk result (out.new ≡ out.old
            ++ ack_bytes flow (packet_limit - length out.old - 3) self.now) }
        ensures no_room { IsErr result ↔ (packet_limit
            < length out.old + 3 + length (ack_head flow self.now)) }
        ensures err { OnErr result (out.new ≡ out.old) }
        // A type, a length and a head have at most 33 bytes.
        ensures fits { length out.old + 33 ≤ packet_limit → IsOk result }
        // What is put reads back as the receiver's spans.
        ensures tells { TellsSpans flow (packet_limit - length out.old - 3) self.now }
    {
        // Read for the prover alone, which has from it that the highest number fits 64 bits.
        let _highest = self.highest;
        let blocks = self.free_blocks();
        let head = vlu_len(flow) + vlu_len(blocks) + vlu_len(self.through);
        if out.room() < head + 3 {
            return Err(NoRoom);
        }
        let room = out.room() - 3 - head;
        let length = head + pairs_len(room, self.through, &self.above);
        out.append(&[0x51]);
        out.append(&(length as u16).to_be_bytes());
        out.append_vlu(flow);
        out.append_vlu(blocks);
        out.append_vlu(self.through);
        put_pairs(room, self.through, &self.above, out);
        Ok(())
    }

    /// The blocks of 1,024 bytes that are free.
    fn free_blocks(&self) -> u64
        ensures { result ≡ free_blocks (held_in self.now.runs) }
    {
        2_097_152u64.saturating_sub(self.held) / 1024
    }

    /// Why `take` would refuse a chunk, but for want of memory. It changes nothing and takes no
    /// memory.
    pub fn refusal(&self, chunk: &UserData<'_>) -> Option<FlowRefusal>
        ensures { result ≡ refusal self.now (chunk_of chunk.now) }
    {
        if let Some(number) = after_last(self.last, self.highest, chunk) {
            return Some(FlowRefusal::AfterFinal(number));
        }
        match self.beyond_buffer(chunk) {
            Some(held) => Some(FlowRefusal::BeyondBuffer(held)),
            None => None,
        }
    }

    /// The bytes held, where the chunk is refused for them.
    fn beyond_buffer(&self, chunk: &UserData<'_>) -> Option<u64>
        ensures { result ≡ beyond_buffer self.now (chunk_of chunk.now) }
    {
        let lowest = u128::from(raised(self.through, &self.above, chunk.forward)) + 1;
        // As a rule the bytes fit with those that the forward number drops, and none of these have
        // to be counted.
        if !passes_buffer(lowest, self.held, chunk) {
            return None;
        }
        let held = held_after(
            &self.runs,
            self.held,
            self.through,
            &self.above,
            chunk.forward,
        );
        let missing = lacks(self.through, &self.above, u128::from(chunk.seq));
        let passes = passes_buffer(lowest, held, chunk);
        if_tested(missing, chunk, passes, held)
    }
}

/// The bytes held as if a forward number were taken. Of those that it drops, the runs that end in
/// earlier blocks are summed already, and the few that are left are looked at.
fn held_after(runs: &NewestRuns, held: u64, through: u64, above: &Above, forward: u64) -> u64
    requires held { held ≡ held_in runs.now }
    requires few { held_in runs.now < 2 ^ 32 }
    requires apart { Apart above.now }
    requires order { InOrder 0 runs.now }
    requires alive { AllAlive (span 0 through ∷ above.now) runs.now }
    requires near { AllEndNear through runs.now }
    ensures { result ≡ held_in (living (span 0 (max through forward) ∷ above.now) runs.now) }
{
    if forward <= through {
        return held;
    }
    let block = block_of(forward);
    let low = block_start(block).max(through) + 1;
    held - runs.open_before(through, block) - dying_bytes(runs, low, forward, forward, above)
}

/// Drops the runs beside the numbers that a forward number passes and that can't become messages
/// any more. The answer is how many bytes they held.
fn drop_passed(runs: &mut NewestRuns, before: u64, forward: u64, through: u64, above: &Above) -> u64
    requires apart { Apart above.now }
    requires order { InOrder 0 runs.old }
    requires few { held_in runs.old < 2 ^ 32 }
    ensures kept { runs.new ≡ (if nat_le forward before then runs.old
        else filter (stays (span 0 through ∷ above.now) (before + 1) forward) runs.old) }
    ensures dropped { held_in runs.new + result ≡ held_in runs.old }
{
    if forward <= before {
        return 0;
    }
    drop_dead(runs, before + 1, forward, through, above)
}

/// Drops the runs that can't become messages any more after a chunk: those beside its number, and
/// those beside the numbers that its forward number passes. The answer is how many bytes they held.
fn drop_after(
    runs: &mut NewestRuns,
    before: u64,
    forward: u64,
    number: u64,
    through: u64,
    above: &Above,
) -> u64
    requires apart { Apart above.now }
    requires order { InOrder 0 runs.old }
    requires few { held_in runs.old < 2 ^ 32 }
    ensures kept { runs.new ≡ filter (stays (span 0 through ∷ above.now) number number)
        (if nat_le forward before then runs.old
        else filter (stays (span 0 through ∷ above.now) (before + 1) forward) runs.old) }
    ensures dropped { held_in runs.new + result ≡ held_in runs.old }
{
    let passed = drop_passed(runs, before, forward, through, above);
    passed + drop_dead(runs, number, number, through, above)
}

/// How many bytes a chunk adds, where its number is missing.
fn added_by(missing: bool, chunk: &UserData<'_>) -> u64
    ensures { result ≡ (if not chunk.now.abandon && missing then length chunk.now.bytes.now
        else 0) }
{
    if !chunk.abandon && missing {
        chunk.bytes.len() as u64
    } else {
        0
    }
}

/// Takes a forward number and a number, and holds the fragment where the number is missing and the
/// chunk has no abandon. The answer is the end of the first span. Memory is found before anything
/// that lasts changes.
fn admit(
    alloc: Global,
    through: u64,
    above: &mut Above,
    runs: &mut NewestRuns,
    missing: bool,
    chunk: &UserData<'_>,
) -> Result<u64, AllocError>
    requires order { InOrder 0 runs.old }
    requires free { missing ≡ true → IsFree chunk.now.seq runs.old }
    requires apart { Apart (span 0 through ∷ above.old) }
    requires missing { missing ≡ lacks (span 0 through ∷ above.old) chunk.now.seq }
    requires few { chunk.now.abandon ≡ false → missing ≡ true →
        held_in runs.old + length chunk.now.bytes.now < 2 ^ 32 }
    ensures spans { IfOk result (λ end. span 0 end ∷ above.new
        ≡ add_span chunk.now.seq chunk.now.seq (add_span 0 chunk.now.forward
        (span 0 through ∷ above.old))) }
    ensures held { OnOk result (runs.new ≡ (if not chunk.now.abandon && missing then
        add_run (single chunk.now.seq chunk.now.part chunk.now.bytes.now) runs.old else runs.old)) }
    ensures same_spans { OnErr result (above.new ≡ above.old) }
    ensures same_runs { OnErr result (runs.new ≡ runs.old) }
    ensures quiet { missing ≡ false → IsOk result }
{
    let forward = chunk.forward;
    let number = chunk.seq;
    if !missing {
        return Ok(raise(through, above, forward));
    }
    match spot_of(through, above, forward, number) {
        Spot::First => {
            hold(alloc, runs, chunk)?;
            Ok(mark_first(through, above, forward, number))
        }
        Spot::Behind(first) => {
            hold(alloc, runs, chunk)?;
            Ok(mark_behind(through, above, first, forward, number))
        }
        Spot::Alone => {
            above.insert(number)?;
            if hold(alloc, runs, chunk).is_err() {
                let _ = above.remove(number);
                return Err(AllocError);
            }
            Ok(mark_alone(through, above, forward, number))
        }
    }
}

/// Holds the fragment of a chunk without abandon.
fn hold(alloc: Global, runs: &mut NewestRuns, chunk: &UserData<'_>) -> Result<(), AllocError>
    requires order { InOrder 0 runs.old }
    requires free { IsFree chunk.now.seq runs.old }
    requires few { chunk.now.abandon ≡ false →
        held_in runs.old + length chunk.now.bytes.now < 2 ^ 32 }
    ensures held { OnOk result (runs.new ≡ (if not chunk.now.abandon then
        add_run (single chunk.now.seq chunk.now.part chunk.now.bytes.now) runs.old else runs.old)) }
    ensures unchanged { OnErr result (runs.new ≡ runs.old) }
{
    if chunk.abandon {
        return Ok(());
    }
    add_run(alloc, runs, chunk.seq, chunk.part, chunk.bytes)
}

fn last_after(last: Option<u64>, chunk: &UserData<'_>) -> Option<u64>
    ensures { result ≡ (if chunk.now.last then Some chunk.now.seq else last) }
{
    if chunk.last { Some(chunk.seq) } else { last }
}

fn took_by(missing: bool, chunk: &UserData<'_>) -> Took
    ensures { result ≡ (if chunk.now.abandon then Took.ForwardOnly else if missing then Took.New
        else Took.Again) }
{
    if chunk.abandon {
        return Took::ForwardOnly;
    }
    if missing { Took::New } else { Took::Again }
}

/// The number after which the chunk comes too late, where it does.
fn after_last(last: Option<u64>, highest: u64, chunk: &UserData<'_>) -> Option<u64>
    ensures { result ≡ after_last last highest (chunk_of chunk.now) }
{
    match last {
        Some(number) => {
            if number < chunk.seq || (chunk.last && chunk.seq < number) {
                Some(number)
            } else {
                None
            }
        }
        None => {
            if chunk.last && chunk.seq < highest {
                Some(highest)
            } else {
                None
            }
        }
    }
}

/// The bytes held, where a chunk that is tested passes the limits.
fn if_tested(missing: bool, chunk: &UserData<'_>, passes: bool, held: u64) -> Option<u64>
    ensures { result ≡ (if missing && nat_lt chunk.now.forward chunk.now.seq && passes then
        Some held else None) }
{
    if missing && chunk.forward < chunk.seq && passes {
        Some(held)
    } else {
        None
    }
}

/// Whether the chunk passes the limits of the buffer: 3,145,728 bytes for the lowest missing
/// number, else 2,097,152 and 65,536 numbers.
fn passes_buffer(lowest: u128, held: u64, chunk: &UserData<'_>) -> bool
    requires low { lowest ≤ 2 ^ 64 }
    requires few { held ≤ 3145728 }
    ensures { result ≡ passes_buffer lowest held (chunk_of chunk.now) }
{
    let counted = if chunk.abandon {
        0
    } else {
        chunk.bytes.len() as u128
    };
    let sum = u128::from(held) + counted;
    let number = u128::from(chunk.seq);
    if number == lowest {
        sum > 3_145_728
    } else {
        sum > 2_097_152 || number > lowest + 65_536
    }
}
