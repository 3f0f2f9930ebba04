//! What was done in a run, line by line.

ghost use Rattle.std.specs.Prelude.{◌≡◌, IfOk, is_some};
ghost use Rattle.rendezvous_world.specs.Draws.{draws_of};
ghost use Rattle.rendezvous_world.specs.Line.{stopped_kept};

use crate::draws::draws_of;
use crate::kept::KeptStep;
use crate::step::Step;
use endpoint::{CallRefusal, Draws, OpenRefusal, Outbox, RowRefusal, SeekRefusal, Stopped};
use rtmfp_base::{Memory, Message};
use std::alloc::Global;
use std::marker::Model;

/// Why an end refused a call. It is kept with the line, and no fault of the step. A call that is
/// refused for want of memory has no line.
#[derive(Clone, Copy, Debug, PartialEq, Eq)]
pub enum Refused {
    Open(OpenRefusal),
    Seek(SeekRefusal),
    Call(CallRefusal),
    Row(RowRefusal),
}

/// What the call of a line answered, beside what it gave.
#[derive(Clone, Copy)]
pub(crate) enum LineAnswer {
    Done,
    Refused(Refused),
    Stopped(Stopped),
}

impl LineAnswer {
    /// Whether the call was stopped.
    pub(crate) fn is_stopped(&self) -> bool
        ensures { result ≡ is_some (stopped_kept self.now) }
    {
        match self {
            LineAnswer::Stopped(_) => true,
            _ => false,
        }
    }
}

/// A step that called an end: the number of its line in the script, the end, the moment of the
/// world, the current generation of the group's secret at the end before the call, the datagram
/// that reached the end, as it was before the call, why the end refused the call, how far a
/// datagram was gone through that found no memory, and what the call added. Of a tick that found no
/// memory `stopped` has `false` and 0.
///
/// Contracts see these, whatever their form here.
#[derive(Drop)]
pub struct JournalLine {
    pub(crate) line: u32,
    pub(crate) end: u32,
    pub(crate) moment: u64,
    pub(crate) generation: u64,
    pub(crate) step: KeptStep,
    pub(crate) datagram: Option<Message>,
    pub(crate) answer: LineAnswer,
    pub(crate) out: Outbox,
}

impl Model for JournalLine {
    ghost use Rattle.rendezvous_world.specs.Line.{LineSeen, refused_kept, step_kept, stopped_kept};

    ghost Value = { LineSeen };

    ghost view = { λ l. record {
      line = l.line;
      end = l.end;
      moment = l.moment;
      generation = l.generation;
      step = step_kept l.end l.datagram l.step;
      datagram = l.datagram;
      refused = refused_kept l.answer;
      stopped = stopped_kept l.answer;
      out = l.out;
    } };
}

impl JournalLine {
    pub fn line(&self) -> u64
        ensures { result ≡ self.now.line }
    {
        u64::from(self.line)
    }

    pub fn end(&self) -> usize
        ensures { result ≡ self.now.end }
    {
        self.end as usize
    }

    pub fn moment(&self) -> u64
        ensures { result ≡ self.now.moment }
    {
        self.moment
    }

    /// The current generation of the group's secret at the end, before the call.
    pub fn generation(&self) -> u64
        ensures { result ≡ self.now.generation }
    {
        self.generation
    }

    /// A copy of the step.
    pub fn step(&self, alloc: Global) -> Result<Step, Memory>
        ensures { IfOk result (λ step. step ≡ self.now.step) }
    {
        self.step.step(alloc, self.end(), &self.datagram)
    }

    pub fn datagram(&self) -> &Option<Message>
        ensures { result.now ≡ self.now.datagram }
    {
        &self.datagram
    }

    pub fn refused(&self) -> Option<Refused>
        ensures { result ≡ self.now.refused }
    {
        match self.answer {
            LineAnswer::Refused(refusal) => Some(refusal),
            _ => None,
        }
    }

    pub fn stopped(&self) -> Option<Stopped>
        ensures { result ≡ self.now.stopped }
    {
        match self.answer {
            LineAnswer::Stopped(stop) => Some(stop),
            _ => None,
        }
    }

    /// The random values that the call was given, if it was given some.
    pub fn draws(&self) -> Draws
        ensures { result ≡ draws_of self.now.line }
    {
        draws_of(u64::from(self.line))
    }

    pub fn out(&self) -> &Outbox
        ensures { result.now ≡ self.now.out }
    {
        &self.out
    }
}

/// The lines of a run, in their order. Contracts see their list.
#[derive(Drop)]
pub struct Journal {
    pub(crate) lines: Vec<JournalLine>,
}

impl Model for Journal {
    ghost use Rattle.std.specs.Prelude.{List};
    ghost use Rattle.rendezvous_world.specs.declared.journal.JournalLine.{JournalLine};

    ghost Value = { List JournalLine };

    ghost view = { λ j. j.lines.items };
}

impl Journal {
    /// One line for each step that called an end, refused calls too. A call that is refused for
    /// want of memory has none.
    pub fn lines(&self) -> &[JournalLine]
        ensures { result.now ≡ self.now }
    {
        self.lines.as_slice()
    }
}
