//! Where rows wait to be sent, or to be sent again, so that the first of them is found in few
//! steps.

ghost use Rattle.std.specs.Prelude.{ℕ, ◌≡◌, ◌≢◌, ◌+◌, ◌%◌, ◌/◌, ◌^◌, ◌<◌, ◌≤◌, true, false, List, length, drop};
ghost use Rattle.flow_send.specs.Rows.{Row, row_at, first_index};
ghost use Rattle.flow_send.specs.Finder.{is_pending, bit_of, block_at, Finds, NoneIn};

use crate::row::HeldRow;
use crate::state::State;
use std::collections::VecDeque;

/// The rows of a block.
const BLOCK: usize = 64;

/// The words with a mark for each block.
const WORDS: u64 = 34;

/// The marks of a word.
const MARKS: u64 = 64;

/// After so many rows blocks use the same marks again.
const TURN: u64 = 139_264;

/// After so many blocks the next one has the same mark.
const SHARED: u64 = 2_176;

/// What a row waits for.
#[derive(Clone, Copy, Debug, PartialEq, Eq)]
pub enum Pending {
    /// It was never sent.
    First,
    /// It is lost, and is to be sent again.
    Again,
}

impl Pending {
    /// Whether a row in this state waits so.
    fn is_of(self, state: State) -> bool
        ensures { result ≡ is_pending self state }
    {
        match self {
            Pending::First => state == State::Unsent,
            Pending::Again => state == State::Lost,
        }
    }
}

/// Marks of the blocks of 64 rows in which a row may wait. The marks are used in turn. One that
/// stands for no row any more, or for a block of another turn, costs a look at 64 rows; none may
/// be missing.
#[derive(Drop)]
pub struct Finder {
    /// How many rows went from the front, less whole turns.
    base: u32,
    words: [u64; 34],
}

/// Marks a block.
fn mark(words: &mut [u64; 34], block: u64)
    ensures own { bit_of words.new block ≡ 1 }
    ensures others { (b : ℕ) → bit_of words.old b ≡ 1 → bit_of words.new b ≡ 1 }
{
    words[(block / MARKS % WORDS) as usize] |= 1 << (block % MARKS);
}

/// Takes away the mark of a block.
fn unmark(words: &mut [u64; 34], block: u64)
    ensures { (b : ℕ) → b % 2176 ≢ block % 2176 → bit_of words.new b ≡ bit_of words.old b }
{
    words[(block / MARKS % WORDS) as usize] &= !(1 << (block % MARKS));
}

/// How many blocks from one on have no mark, as far as their word tells.
fn quiet(words: &[u64; 34], block: u64) -> u64
    ensures few { result ≤ 64 }
    ensures quiet { (b : ℕ) → block ≤ b → b < block + result → bit_of words.now b ≡ 0 }
{
    let at = block % MARKS;
    let ahead = words[(block / MARKS % WORDS) as usize] >> at;
    u64::from(ahead.trailing_zeros()).min(MARKS - at)
}

fn state_at(rows: &VecDeque<HeldRow>, at: usize) -> State
    requires { at < length rows.now.items }
    ensures { result ≡ (row_at rows.now.items at).state }
{
    rows[at].state()
}

/// Whether a row from one index to before another waits so.
fn any_of(rows: &VecDeque<HeldRow>, pending: Pending, from: usize, to: usize) -> bool
    requires order { from ≤ to }
    requires inside { to ≤ length rows.now.items }
    ensures { result ≡ false → NoneIn pending from to rows.now.items }
{
    for at in from..to {
        if pending.is_of(state_at(rows, at)) {
            return true;
        }
    }
    false
}

impl Finder {
    /// No block is marked.
    pub fn new() -> Finder {
        Finder {
            base: 0,
            words: [0; 34],
        }
    }

    /// The number of rows before one, those that went included, less whole turns.
    fn place(&self, at: usize) -> u128
        ensures own { result ≡ self.now.base + at }
        ensures few { result < 2 ^ 65 }
    {
        u128::from(self.base) + at as u128
    }

    /// The block of a row.
    fn block(&self, at: usize) -> u64
        ensures { result ≡ block_at self.now at }
    {
        (self.place(at) / BLOCK as u128) as u64
    }

    /// Marks the block of a row that is in a state from now on, where it waits so.
    pub fn note(&mut self, pending: Pending, at: usize, state: State)
        ensures base { self.new.base ≡ self.old.base }
        ensures own { is_pending pending state ≡ true →
            bit_of self.new.words (block_at self.old at) ≡ 1 }
        ensures others { (b : ℕ) → bit_of self.old.words b ≡ 1 → bit_of self.new.words b ≡ 1 }
    {
        if !pending.is_of(state) {
            return;
        }
        let block = self.block(at);
        mark(&mut self.words, block);
    }

    /// The first row is taken away.
    pub fn pop(&mut self)
        ensures { (pending : Pending) (rows : List Row) → Finds pending self.old rows →
            Finds pending self.new (drop 1 rows) }
    {
        self.base = ((u64::from(self.base) + 1) % TURN) as u32;
    }

    /// Whether a row of a row's block waits so. Those behind it are looked at first, since rows
    /// are sent and abandoned in their order.
    fn any_in_block(&self, rows: &VecDeque<HeldRow>, pending: Pending, at: usize) -> bool
        requires { at < length rows.now.items }
        ensures { result ≡ false → (i : ℕ) → i < length rows.now.items →
            block_at self.now i ≡ block_at self.now at →
            is_pending pending (row_at rows.now.items i).state ≡ false }
    {
        let before = (self.place(at) % BLOCK as u128) as usize;
        let to = at.saturating_add(BLOCK - before).min(rows.len());
        if any_of(rows, pending, at, to) {
            return true;
        }
        any_of(rows, pending, at.saturating_sub(before), at)
    }

    /// Whether a row of a block waits so. What isn't among the rows, before them or behind them,
    /// is cut off.
    fn any_of_block(&self, rows: &VecDeque<HeldRow>, pending: Pending, block: u64) -> bool
        ensures { result ≡ false → (i : ℕ) → i < length rows.now.items →
            block_at self.now i ≡ block →
            is_pending pending (row_at rows.now.items i).state ≡ false }
    {
        let begin = u128::from(block) * BLOCK as u128;
        let base = u128::from(self.base);
        let all = rows.len() as u128;
        let from = begin.saturating_sub(base).min(all) as usize;
        let to = (begin + BLOCK as u128).saturating_sub(base).min(all) as usize;
        any_of(rows, pending, from, to)
    }

    /// Whether a row waits so of any block that has the mark of a row's block. Its own block is
    /// looked at first, and then each other one, of which there is none among 139,200 rows.
    fn any_with_mark(&self, rows: &VecDeque<HeldRow>, pending: Pending, at: usize) -> bool
        requires { at < length rows.now.items }
        ensures { result ≡ false → (i : ℕ) → i < length rows.now.items →
            block_at self.now i % 2176 ≡ block_at self.now at % 2176 →
            is_pending pending (row_at rows.now.items i).state ≡ false }
    {
        if self.any_in_block(rows, pending, at) {
            return true;
        }
        let own = self.block(at);
        let first = self.block(0);
        let last = self.block(rows.len() - 1);
        let mut block = first + (own - first) % SHARED;
        while block <= last {
            if block != own && self.any_of_block(rows, pending, block) {
                return true;
            }
            block += SHARED;
        }
        false
    }

    /// A row waits no longer: the mark of its block goes, unless another row waits of it, or of
    /// another block that has the same mark.
    pub fn clear(&mut self, rows: &VecDeque<HeldRow>, pending: Pending, at: usize)
        requires { at < length rows.now.items }
        ensures { Finds pending self.old rows.now.items → Finds pending self.new rows.now.items }
    {
        if self.any_with_mark(rows, pending, at) {
            return;
        }
        let block = self.block(at);
        unmark(&mut self.words, block);
    }

    /// How many rows from one on stand in blocks without a mark, as far as a look at one word
    /// tells.
    fn quiet(&self, at: usize) -> usize
        ensures { (i : ℕ) → at ≤ i → i < at + result →
            bit_of self.now.words (block_at self.now i) ≡ 0 }
    {
        let blocks = quiet(&self.words, self.block(at)) as usize;
        (blocks * BLOCK).saturating_sub((self.place(at) % BLOCK as u128) as usize)
    }

    /// The index of the first row, from one on, that waits so.
    pub fn first(&self, rows: &VecDeque<HeldRow>, pending: Pending, from: usize) -> Option<usize>
        requires { Finds pending self.now rows.now.items }
        ensures { result ≡ first_index (is_pending pending) from (drop from rows.now.items) }
    {
        let mut at = from;
        while at < rows.len() {
            let quiet = self.quiet(at);
            if quiet > 0 {
                at = at.saturating_add(quiet);
                continue;
            }
            if pending.is_of(state_at(rows, at)) {
                return Some(at);
            }
            at += 1;
        }
        None
    }
}
