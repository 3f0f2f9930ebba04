//! A run: successive held fragments that fit, with their bytes.

ghost use Rattle.std.specs.Prelude.{◌≡◌, ◌+◌, ◌<◌, ◌∷◌, [], IfOk, OnOk, OnErr};
ghost use Rattle.std.specs.Prelude.{◌++◌, length, false};
ghost use Rattle.rtmfp_data_chunks.specs.Runs.{fits, joined, single, is_whole, has_front, has_rear};
ghost use Rattle.flow_recv.specs.Receiver.{Apart, is_alive, span, lacks, hands};
ghost use Rattle.flow_recv.specs.Keyed.{is_between, emptied, over};
ghost use Rattle.flow_recv.specs.Sums.{open_of, before};
ghost use Rattle.flow_recv.specs.Forms.{filled_run, run_in, IsFilled};

use crate::above::Above;
use crate::bytes::HeldBytes;
use crate::filled::{FilledRun, Form};
use crate::spans::lacks;
use crate::sums::{Open, block_of};
use rtmfp_data_chunks::Part;
use std::alloc::{AllocError, Global};
use std::marker::Model;
use std::mem;

/// A run with its bytes. It has its front where its first fragment begins a message, its rear where
/// its last one ends it. It takes 16 bytes, and one with bytes or of several fragments a block of
/// 56 bytes, and one for its bytes.
#[derive(Drop)]
pub struct HeldRun {
    form: Form,
}

impl Model for HeldRun {
    ghost use Rattle.rtmfp_data_chunks.specs.Runs.{Run};
    ghost use Rattle.flow_recv.specs.Forms.{run_in};

    ghost Value = { Run };

    ghost view = { λ y. run_in y.form };
}

/// Whether a part begins a message.
fn has_front(part: Part) -> bool
    ensures { result ≡ has_front part }
{
    match part {
        Part::Whole | Part::Begin => true,
        Part::End | Part::Middle => false,
    }
}

/// Whether a part ends a message.
pub fn has_rear(part: Part) -> bool
    ensures { result ≡ has_rear part }
{
    match part {
        Part::Whole | Part::End => true,
        Part::Begin | Part::Middle => false,
    }
}

impl HeldRun {
    /// The run of one fragment.
    pub fn single(
        alloc: Global,
        number: u64,
        part: Part,
        bytes: &[u8],
    ) -> Result<HeldRun, AllocError>
        ensures { IfOk result (λ y. y ≡ single number part bytes.now) }
    {
        if bytes.is_empty() {
            return Ok(HeldRun {
                form: Form::Bare { part, number },
            });
        }
        let run = FilledRun {
            first: number,
            last: number,
            front: has_front(part),
            rear: has_rear(part),
            bytes: HeldBytes::from_slice(alloc, bytes)?,
        };
        Ok(HeldRun {
            form: Form::Filled(Box::new(alloc, run)?),
        })
    }

    /// Whether a fragment follows this run and fits.
    pub fn is_followed_by(&self, number: u64, part: Part) -> bool
        ensures { result ≡ fits self.now (single number part []) }
    {
        let last = self.last();
        last < number && number - last == 1 && !self.has_rear() && !has_front(part)
    }

    /// Whether this run follows a fragment and fits.
    pub fn follows(&self, number: u64, part: Part) -> bool
        ensures { result ≡ fits (single number part []) self.now }
    {
        let first = self.first();
        number < first && first - number == 1 && !has_rear(part) && !self.has_front()
    }

    /// Joins a fragment to the rear.
    pub fn append(
        &mut self,
        alloc: Global,
        number: u64,
        part: Part,
        bytes: &[u8],
    ) -> Result<(), AllocError>
        ensures joined { OnOk result (self.new ≡ joined self.old (single number part bytes.now)) }
        ensures unchanged { OnErr result (self.new ≡ self.old) }
    {
        fill(alloc, &mut self.form)?;
        let Form::Filled(run) = &mut self.form else {
            unreachable!()
        };
        run.bytes.append(bytes)?;
        run.last = number;
        run.rear = has_rear(part);
        Ok(())
    }

    /// Takes it out, with its bytes. What is left is a fragment with its first number.
    pub fn take_out(&mut self) -> HeldRun
        ensures out { result ≡ self.old }
        ensures left { self.new ≡ emptied self.old }
    {
        let left = Form::Bare {
            part: Part::Whole,
            number: self.first(),
        };
        HeldRun {
            form: mem::replace(&mut self.form, left),
        }
    }

    /// Joins a fragment and the run that follows it to the rear. The shorter run's bytes are moved
    /// to the longer one's.
    pub fn append_both(
        &mut self,
        alloc: Global,
        bytes: &[u8],
        later: &mut HeldRun,
    ) -> Result<(), AllocError>
        ensures joined { OnOk result (self.new ≡ over self.old bytes.now later.old) }
        ensures unchanged { OnErr result (self.new ≡ self.old) }
        ensures later { OnErr result (later.new ≡ later.old) }
    {
        fill(alloc, &mut self.form)?;
        fill(alloc, &mut later.form)?;
        let (Form::Filled(run), Form::Filled(later)) = (&mut self.form, &mut later.form) else {
            unreachable!()
        };
        join_filled(alloc, run, bytes, later)
    }

    pub fn first(&self) -> u64
        ensures { result ≡ self.now.first }
    {
        match &self.form {
            Form::Bare { number, .. } => *number,
            Form::Filled(run) => run.first,
        }
    }

    fn last(&self) -> u64
        ensures { result ≡ self.now.last }
    {
        match &self.form {
            Form::Bare { number, .. } => *number,
            Form::Filled(run) => run.last,
        }
    }

    /// Whether it begins a message.
    pub fn has_front(&self) -> bool
        ensures { result ≡ self.now.front }
    {
        match &self.form {
            Form::Bare { part, .. } => has_front(*part),
            Form::Filled(run) => run.front,
        }
    }

    /// Whether it ends a message.
    pub fn has_rear(&self) -> bool
        ensures { result ≡ self.now.rear }
    {
        match &self.form {
            Form::Bare { part, .. } => has_rear(*part),
            Form::Filled(run) => run.rear,
        }
    }

    /// Whether it is a whole message.
    pub fn is_whole(&self) -> bool
        ensures { result ≡ is_whole self.now }
    {
        self.has_front() && self.has_rear()
    }

    /// Whether it may be handed over in queueing order, where no number through one is missing.
    pub fn is_ready(&self, through: u64) -> bool
        ensures { result ≡ hands false through self.now }
    {
        self.is_whole() && self.first() <= through
    }

    /// How many bytes it holds.
    pub fn len(&self) -> usize
        ensures { result ≡ length self.now.bytes }
    {
        match &self.form {
            Form::Bare { .. } => 0,
            Form::Filled(run) => run.bytes.len(),
        }
    }

    /// What it gives to the sums of the runs that aren't whole.
    pub fn open(&self) -> Open
        ensures { result ≡ open_of self.now }
    {
        Open {
            last: self.last(),
            bytes: if self.is_whole() {
                0
            } else {
                self.len() as u64
            },
        }
    }

    /// What it gives to the sum of the runs that aren't whole and end in a block before one.
    pub fn open_before(&self, block: u64) -> u64
        ensures { result ≡ before block self.now }
    {
        if block_of(self.last()) < block {
            self.open().bytes
        } else {
            0
        }
    }

    /// Its bytes alone. It takes no memory.
    pub fn into_bytes(self, alloc: Global) -> Vec<u8>
        ensures { result.items ≡ self.bytes }
    {
        match self.form {
            Form::Bare { .. } => Vec::new(alloc),
            Form::Filled(run) => Box::into_inner(run).bytes.into_vec(),
        }
    }

    /// Whether it has one of the numbers between two, or lies directly before or after one.
    pub fn is_between(&self, low: u64, high: u64) -> bool
        ensures { result ≡ is_between low high self.now }
    {
        self.first().saturating_sub(1) <= high && u128::from(low) <= u128::from(self.last()) + 1
    }

    /// Whether it can still become a message: at an end that it lacks the next number is missing.
    pub fn is_alive(&self, through: u64, above: &Above) -> bool
        requires { Apart above.now }
        ensures { result ≡ is_alive (span 0 through ∷ above.now) self.now }
    {
        (self.has_front() || lacks(through, above, u128::from(self.first().saturating_sub(1))))
            && (self.has_rear() || lacks(through, above, u128::from(self.last()) + 1))
    }
}

/// Gives a run a block of its own, where it has none.
fn fill(alloc: Global, form: &mut Form) -> Result<(), AllocError>
    ensures same { run_in form.new ≡ run_in form.old }
    ensures filled { OnOk result (IsFilled form.new) }
{
    let Form::Bare { part, number } = form else {
        return Ok(());
    };
    let run = FilledRun {
        first: *number,
        last: *number,
        front: has_front(*part),
        rear: has_rear(*part),
        bytes: HeldBytes::new(alloc),
    };
    *form = Form::Filled(Box::new(alloc, run)?);
    Ok(())
}

/// Joins a piece and the run that follows it to the rear of a run.
fn join_filled(
    alloc: Global,
    run: &mut FilledRun,
    piece: &[u8],
    later: &mut FilledRun,
) -> Result<(), AllocError>
    ensures joined { OnOk result (filled_run run.new
        ≡ over (filled_run run.old) piece.now (filled_run later.old)) }
    ensures unchanged { OnErr result (filled_run run.new ≡ filled_run run.old) }
    ensures later { OnErr result (filled_run later.new ≡ filled_run later.old) }
{
    join_bytes(alloc, &mut run.bytes, piece, &mut later.bytes)?;
    run.last = later.last;
    run.rear = later.rear;
    Ok(())
}

/// Puts a piece and later bytes behind bytes.
fn join_bytes(
    alloc: Global,
    bytes: &mut HeldBytes,
    piece: &[u8],
    later: &mut HeldBytes,
) -> Result<(), AllocError>
    ensures joined { OnOk result (bytes.new ≡ (bytes.old ++ piece.now) ++ later.old) }
    ensures unchanged { OnErr result (bytes.new ≡ bytes.old) }
    ensures later { OnErr result (later.new ≡ later.old) }
{
    if later.len() <= bytes.len() {
        return bytes.append_both(piece, later.as_slice());
    }
    later.prepend_both(alloc, bytes.as_slice(), piece)?;
    mem::swap(bytes, later);
    Ok(())
}
