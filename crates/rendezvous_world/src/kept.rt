//! Steps as the journal keeps them, in few bytes, since there may be a million lines.

ghost use Rattle.std.specs.Prelude.{◌≡◌, IfOk};
ghost use Rattle.rendezvous_world.specs.Line.{IsKeptAs, inject_kept, step_kept};
ghost use Rattle.rendezvous_world.specs.Stepping.{called_by};

use crate::step::Step;
use rtmfp_base::{Memory, Message};
use rtmfp_forms::Address;
use std::alloc::Global;

/// A step that called an end. Those of which most lines are made stand without the number of that
/// end, and without the bytes that they inject: these are the datagram of their line.
#[derive(Drop)]
pub(crate) enum KeptStep {
    /// Where it came from, and as which it was sent.
    Deliver(Address, u64),
    /// Where it came from.
    Inject(Address),
    Tick,
    Other(Box<Step>),
}

/// A number of 32 bits; a greater one counts as want of memory. No world has so many ends.
pub(crate) fn in_32_bits(number: usize) -> Result<u32, Memory>
    ensures { IfOk result (λ small. small ≡ number) }
{
    match u32::try_from(number) {
        Ok(small) => Ok(small),
        Err(_) => Err(Memory),
    }
}

/// The step that injected the datagram of a line; where there is none, it has no bytes.
fn injected(
    alloc: Global,
    end: usize,
    from: &Address,
    datagram: &Option<Message>,
) -> Result<Step, Memory>
    ensures { IfOk result (λ step. step ≡ inject_kept end from.now datagram.now) }
{
    match datagram {
        None => Ok(Step::Inject {
            end,
            from: *from,
            bytes: Message::copy_of(alloc, &[])?,
        }),
        Some(datagram) => Ok(Step::Inject {
            end,
            from: *from,
            bytes: Message::copy_of(alloc, datagram.bytes())?,
        }),
    }
}

/// The same step again, in a box.
fn boxed(alloc: Global, step: &Step) -> Result<Box<Step>, Memory>
    ensures { IfOk result (λ kept. kept.value ≡ step.now) }
{
    match Box::new(alloc, step.again(alloc)?) {
        Ok(kept) => Ok(kept),
        Err(_) => Err(Memory),
    }
}

impl KeptStep {
    /// A step that calls an end.
    pub(crate) fn of(alloc: Global, step: &Step) -> Result<KeptStep, Memory>
        ensures { IfOk result (λ kept. IsKeptAs (called_by step.now) step.now kept) }
    {
        Ok(match step {
            Step::Deliver { number, from, .. } => KeptStep::Deliver(*from, *number),
            Step::Inject { from, .. } => KeptStep::Inject(*from),
            Step::Tick { .. } => KeptStep::Tick,
            _ => KeptStep::Other(boxed(alloc, step)?),
        })
    }

    /// The step, which called this end, on a line with this datagram.
    pub(crate) fn step(
        &self,
        alloc: Global,
        end: usize,
        datagram: &Option<Message>,
    ) -> Result<Step, Memory>
        ensures { IfOk result (λ step. step ≡ step_kept end datagram.now self.now) }
    {
        Ok(match self {
            KeptStep::Deliver(from, number) => Step::Deliver {
                number: *number,
                end,
                from: *from,
            },
            KeptStep::Inject(from) => injected(alloc, end, from, datagram)?,
            KeptStep::Tick => Step::Tick { end },
            KeptStep::Other(step) => step.again(alloc)?,
        })
    }
}
