//! A step that calls an end, and its line in the journal.

ghost use Rattle.std.specs.Prelude.{◌≡◌, ◌<◌, ◌^◌, ◌++◌, ◌∷◌, [], IfOk, OnOk, get_or, length, vec_capacity, vec_len};
ghost use Rattle.rendezvous_world.specs.Deed.{deed_of};
ghost use Rattle.rendezvous_world.specs.Entering.{IsEntered, IsEntering, answered};
ghost use Rattle.rendezvous_world.specs.History.{given_by, peer_of};
ghost use Rattle.rendezvous_world.specs.Line.{IsKeptAs, refused_kept, step_kept, stopped_kept};
ghost use Rattle.rendezvous_world.specs.Stepping.{called_by};

use crate::calls::call_end;
use crate::journal::{JournalLine, LineAnswer};
use crate::kept::{KeptStep, in_32_bits};
use crate::sent::count_among;
use crate::step::{Step, StepFault};
use crate::world::World;
use counted_secrets::secret_after;
use endpoint::Outbox;
use rtmfp_base::{Memory, Message};
use rtmfp_text::Named;
use std::alloc::Global;

/// How many entries of a call need no further memory for their list.
const ROOM: u32 = 1;

/// Puts an item at the end, where there is room.
pub(crate) fn put<T: Drop>(items: &mut Vec<T>, item: T)
    requires { vec_len items.old < vec_capacity items.old }
    ensures { items.new.items ≡ items.old.items ++ item ∷ [] }
{
    match items.push(item) {
        Ok(()) => {}
        Err(_) => {}
    }
}

/// What a line needs before its call.
#[derive(Drop)]
struct Ready {
    /// The end that is called.
    end: u32,
    /// The step, for the journal, without the datagram that it injects.
    step: KeptStep,
    /// For what the call adds.
    out: Outbox,
}

/// Finds room for one more line, and all that it needs before its call.
fn make_ready(
    alloc: Global,
    end: usize,
    step: &Step,
    lines: &mut Vec<JournalLine>,
    starts: &mut Vec<u128>,
) -> Result<Ready, Memory>
    requires { called_by step.now ≡ end }
    ensures lines { lines.new.items ≡ lines.old.items }
    ensures starts { starts.new.items ≡ starts.old.items }
    ensures room { OnOk result (vec_len lines.new < vec_capacity lines.new) }
    ensures start_room { OnOk result (vec_len starts.new < vec_capacity starts.new) }
    ensures end { IfOk result (λ ready. ready.end ≡ end) }
    ensures step { IfOk result (λ ready. IsKeptAs end step.now ready.step) }
    ensures empty { IfOk result (λ ready. ready.out.entries ≡ []) }
{
    lines.reserve(1)?;
    starts.reserve(1)?;
    Ok(Ready {
        end: in_32_bits(end)?,
        step: KeptStep::of(alloc, step)?,
        out: Outbox::new(alloc, ROOM)?,
    })
}

/// The end with this number.
fn named_at(named: &[Named], at: usize) -> &Named
    requires { at < length named.now }
    ensures { result.now ≡ get_or named.now at result.now }
{
    &named[at]
}

/// The 32 bytes that the call of a step is given, if it is given some: the fingerprint of the end
/// that it names; or, at an end in a generation, the secret of the next one.
fn given_to(print: [u8; 32], generation: u64, step: &Step) -> [u8; 32]
    ensures { result ≡ given_by print generation (deed_of step.now) }
{
    if step.learns() {
        secret_after(generation)
    } else {
        print
    }
}

/// The same entries, without room for others.
fn without_spare(mut out: Outbox) -> Outbox
    ensures { result.entries ≡ out.entries }
{
    out.trim();
    out
}

/// Notes for so many datagrams that this line sent them, as far as memory is found.
fn note_line(lines_of: &mut Vec<usize>, line: usize, count: usize) {
    for _ in 0..count {
        if lines_of.push(line).is_err() {
            return;
        }
    }
}

/// The line of a call.
fn line_of(
    line: u64,
    end: u32,
    moment: u64,
    generation: u64,
    step: KeptStep,
    datagram: Option<Message>,
    answer: LineAnswer,
    out: Outbox,
) -> JournalLine
    requires { line < 2 ^ 32 }
    ensures { result ≡ record {
      line = line;
      end = end;
      moment = moment;
      generation = generation;
      step = step_kept end datagram step;
      datagram = datagram;
      refused = refused_kept answer;
      stopped = stopped_kept answer;
      out = out;
    } }
{
    JournalLine {
        line: line as u32,
        end,
        moment,
        generation,
        step,
        datagram,
        answer,
        out,
    }
}

/// What a step that called an end answers.
fn answered(is_stopped: bool) -> Result<(), StepFault>
    ensures { result ≡ answered is_stopped }
{
    if is_stopped {
        Err(StepFault::Memory)
    } else {
        Ok(())
    }
}

impl World {
    /// Makes the call of a step that nothing refuses, with the fingerprint of the peer, and enters its
    /// line in the journal. All that can fail before the call comes before it. A call that is refused
    /// for want of memory has no line.
    pub(crate) fn enter(
        &mut self,
        line: u64,
        end: usize,
        peer: usize,
        step: &Step,
        datagram: Option<Message>,
        bytes: &mut [u8],
    ) -> Result<(), StepFault>
        requires entering { IsEntering self.old line end step.now datagram bytes.old }
        requires named { peer_of (deed_of step.now) ≡ peer }
        ensures { IsEntered self.old line step.now result self.new }
    {
        let moment = self.moment;
        let journal = &mut self.journal;
        let ready = match make_ready(self.alloc, end, step, &mut journal.lines, &mut self.starts) {
            Ok(ready) => ready,
            Err(_) => return Err(StepFault::Memory),
        };
        let mut out = ready.out;
        let print = named_at(self.named.as_slice(), peer).print;
        let there = &mut self.ends[end];
        let generation = there.endpoint.generation();
        let given = given_to(print, generation, step);
        let outcome = call_end(
            &mut there.endpoint,
            &given,
            line,
            moment,
            step,
            bytes,
            &mut out,
        );
        if outcome.undone {
            return Err(StepFault::Memory);
        }
        let is_stopped = outcome.answer.is_stopped();
        let count = count_among(end, out.entries());
        put(&mut self.starts, self.sent);
        self.sent += count as u128;
        note_line(&mut self.lines_of, journal.lines.len(), count);
        let out = without_spare(out);
        let told = line_of(
            line,
            ready.end,
            moment,
            generation,
            ready.step,
            datagram,
            outcome.answer,
            out,
        );
        put(&mut journal.lines, told);
        answered(is_stopped)
    }
}
