//! The bytes of the runs that aren't whole, summed by the numbers that they end with.

ghost use Rattle.std.specs.Prelude.{◌≡◌, ℕ, ◌+◌, ◌*◌, ◌/◌, ◌%◌, ◌<◌, ◌≤◌, ◌^◌, [], OnOk, length};
ghost use Rattle.std.specs.Prelude.{get_or, replicate, IfOk};
ghost use Rattle.flow_recv.specs.Sums.{place, share, sum_from};

use std::alloc::{AllocError, Global};
use std::marker::Model;

/// The numbers of a block.
const BLOCK: u64 = 64;

/// The places that blocks use in turn. Runs that aren't whole end within 65,538 numbers, so two
/// blocks of theirs never have one place.
const PLACES: u64 = 1_028;

/// The bytes of a run that isn't whole, else none, and the number that it ends with.
#[derive(Clone, Copy, Debug, PartialEq, Eq)]
pub struct Open {
    pub last: u64,
    pub bytes: u64,
}

/// The sums of the places. Before there are any bytes there are no places.
#[derive(Drop)]
pub struct Sums {
    sums: Vec<u64>,
}

impl Model for Sums {
    ghost use Rattle.std.specs.Prelude.{◌≡◌, ◌<◌, List, ℕ, length};

    ghost Value = { List ℕ };

    ghost view = { λ s. s.sums.items };

    ghost invariant = { λ s. 0 < length s.sums.items → length s.sums.items ≡ 1028 };
}

/// The place of a number.
fn place(number: u64) -> usize
    ensures { result ≡ place number }
{
    (number / BLOCK % PLACES) as usize
}

/// The block of a number.
pub fn block_of(number: u64) -> u64
    ensures { result ≡ number / 64 }
{
    number / BLOCK
}

/// The number that a block begins with.
pub fn block_start(block: u64) -> u64
    requires { block < 2 ^ 58 }
    ensures { result ≡ block * 64 }
{
    block * BLOCK
}

/// So many sums of nothing.
fn zeros(alloc: Global, count: usize) -> Result<Vec<u64>, AllocError>
    ensures { IfOk result (λ all. all.items ≡ replicate count 0) }
{
    let mut all = Vec::with_capacity(alloc, count)?;
    all.resize(count, 0)?;
    Ok(all)
}

impl Sums {
    pub fn new(alloc: Global) -> Sums
        ensures { result ≡ [] }
    {
        Sums {
            sums: Vec::new(alloc),
        }
    }

    /// Makes the places, where there are bytes to be added.
    pub fn make(&mut self, bytes: u64) -> Result<(), AllocError>
        ensures made { OnOk result (0 < bytes → 1028 ≤ length self.new) }
        ensures same { (i : ℕ) → get_or self.new i 0 ≡ get_or self.old i 0 }
    {
        if bytes == 0 || self.sums.len() > 0 {
            return Ok(());
        }
        let alloc = *self.sums.allocator();
        self.sums = zeros(alloc, PLACES as usize)?;
        Ok(())
    }

    /// Adds the bytes of a run.
    pub fn add(&mut self, more: Open)
        requires made { 0 < more.bytes → 1028 ≤ length self.old }
        requires few { get_or self.old (place more.last) 0 + more.bytes < 2 ^ 64 }
        ensures added { (i : ℕ) → get_or self.new i 0 ≡ get_or self.old i 0 + share i more }
    {
        let at = place(more.last);
        if more.bytes == 0 {
            return;
        }
        self.sums[at] += more.bytes;
    }

    /// Takes away the bytes of a run.
    pub fn take(&mut self, gone: Open)
        requires { gone.bytes ≤ get_or self.old (place gone.last) 0 }
        ensures taken { (i : ℕ) → get_or self.new i 0 + share i gone ≡ get_or self.old i 0 }
        ensures made { length self.new ≡ length self.old }
    {
        let at = place(gone.last);
        if at >= self.sums.len() {
            return;
        }
        self.sums[at] -= gone.bytes;
    }

    /// The sum of so many blocks from one on.
    pub fn sum_from(&self, block: u64, count: u64) -> u64
        requires block { block < 2 ^ 58 }
        requires count { count ≤ 1028 }
        requires few { sum_from self.now block count < 2 ^ 64 }
        ensures { result ≡ sum_from self.now block count }
    {
        let mut sum: u64 = 0;
        for step in 0..count {
            sum += self.at(block + step);
        }
        sum
    }

    /// The sum at the place of a block.
    fn at(&self, block: u64) -> u64
        ensures { result ≡ get_or self.now (block % 1028) 0 }
    {
        match self.sums.get((block % PLACES) as usize) {
            Some(sum) => *sum,
            None => 0,
        }
    }
}
