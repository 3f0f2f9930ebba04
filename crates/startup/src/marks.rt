//! Which attempts have a cookie: marks in order, where one is sought by halves.

ghost use Rattle.std.specs.Prelude.{◌≡◌, ◌<◌, ◌≤◌, ◌⊎◌, true, false, [], OnOk, length};
ghost use Rattle.startup.specs.declared.marks.Mark.{Mark};
ghost use Rattle.startup.specs.Marks.{IsBefore, IsUpTo, IsAscending, IsPlace, Stands, is_whole_then, mark_at};

use rtmfp_base::Memory;
use std::alloc::Global;
use std::marker::Model;

/// The word of an attempt's cookie, and the near id of the attempt.
#[derive(Clone, Copy, Debug, PartialEq, Eq)]
pub(crate) struct Mark {
    pub(crate) word: u64,
    pub(crate) near: u32,
}

/// The marks of attempts, by rising words and under one word by rising near ids, as long as there
/// was room for each.
///
/// Cookies come from peers, so they are kept in an order and not hashed: where a peer gives many
/// attempts one cookie, or cookies that it chose for their words, a mark is still found in a
/// logarithm of their number. That of the lowest near id comes first under its word.
#[derive(Drop)]
pub(crate) struct Marks {
    marks: Vec<Mark>,
    whole: bool,
}

impl Model for Marks {
    ghost use Rattle.startup.specs.contracts.marks.Mark as mark_type;
    ghost use Rattle.std.specs.Prelude.{vec_capacity};
    ghost use Rattle.startup.specs.Marks.{IsRising, Marked, marked_code};

    ghost Value = { Marked };

    ghost coded = { marked_code mark_type.the_row.coded };

    ghost view = { λ m. record {
      marks = m.marks.items;
      whole = m.whole;
      room = vec_capacity m.marks;
    } };

    ghost invariant = { λ m. IsRising m.marks.items };
}

/// Whether a mark stands before another.
fn is_before(one: Mark, other: Mark) -> bool
    ensures yes { result ≡ true → IsBefore one other }
    ensures no { result ≡ false → IsUpTo other one }
{
    if one.word < other.word {
        return true;
    }
    if one.word > other.word {
        return false;
    }
    one.near < other.near
}

/// Whether two marks are one.
fn is_same(one: Mark, other: Mark) -> bool
    ensures yes { result ≡ true → one ≡ other }
    ensures no { result ≡ false → one ≡ other → ⊥ }
{
    if one.word != other.word {
        return false;
    }
    one.near == other.near
}

/// How many marks stand before this one.
pub(crate) fn place(marks: &[Mark], mark: Mark) -> usize
    requires { IsAscending marks.now }
    ensures { IsPlace marks.now mark result }
{
    let mut low = 0;
    let mut high = marks.len();
    while low < high {
        let middle = low + (high - low) / 2;
        if is_before(marks[middle], mark) {
            low = middle + 1;
            continue;
        }
        high = middle;
    }
    low
}

/// Whether this mark stands at this place.
fn stands_at(marks: &[Mark], at: usize, mark: Mark) -> bool
    ensures there { result ≡ true → at < length marks.now }
    ensures yes { result ≡ true → mark_at marks.now at ≡ mark }
    ensures no { result ≡ false → at < length marks.now → mark_at marks.now at ≡ mark → ⊥ }
{
    if at >= marks.len() {
        return false;
    }
    is_same(marks[at], mark)
}

impl Marks {
    /// No marks. It takes no memory.
    pub(crate) fn new(alloc: Global) -> Marks
        ensures marks { result.marks ≡ [] }
        ensures whole { result.whole ≡ true }
    {
        Marks {
            marks: Vec::new(alloc),
            whole: true,
        }
    }

    /// Whether there was room for each.
    pub(crate) fn is_whole(&self) -> bool
        ensures { result ≡ self.now.whole }
    {
        self.whole
    }

    /// The marks in their order.
    pub(crate) fn in_order(&self) -> &[Mark]
        ensures marks { result.now ≡ self.now.marks }
        ensures order { IsAscending result.now }
    {
        self.marks.as_slice()
    }

    /// Finds memory for this many marks in all.
    pub(crate) fn reserve(&mut self, room: usize) -> Result<(), Memory>
        ensures ok { OnOk result (room ≤ self.new.room) }
        ensures room { self.old.room ≤ self.new.room }
        ensures marks { self.new.marks ≡ self.old.marks }
        ensures whole { self.new.whole ≡ self.old.whole }
    {
        let more = room.saturating_sub(self.marks.len());
        match self.marks.reserve(more) {
            Ok(()) => Ok(()),
            Err(_) => Err(Memory),
        }
    }

    /// Puts a mark in its place, where it isn't one of them. They are whole no longer exactly where
    /// there is no room for one more. It takes no memory.
    pub(crate) fn put(&mut self, mark: Mark)
        ensures whole { self.new.whole ≡ is_whole_then self.old }
        ensures there { self.new.whole ≡ true → Stands self.new.marks mark }
        ensures rest { (other : Mark) → Stands self.old.marks other → Stands self.new.marks other }
        ensures only { (other : Mark) → Stands self.new.marks other → (other ≡ mark)
            ⊎ Stands self.old.marks other }
        ensures room { self.new.room ≡ self.old.room }
    {
        if self.marks.len() >= self.marks.capacity() {
            self.whole = false;
            return;
        }
        let at = place(self.marks.as_slice(), mark);
        if stands_at(self.marks.as_slice(), at, mark) {
            return;
        }
        match self.marks.insert(at, mark) {
            Ok(()) => {}
            Err(_) => unreachable!(),
        }
    }

    /// Takes a mark out, where it is one of them. It takes no memory.
    pub(crate) fn take(&mut self, mark: Mark)
        ensures gone { Stands self.new.marks mark → ⊥ }
        ensures only { (other : Mark) → Stands self.new.marks other → Stands self.old.marks other }
        ensures rest { (other : Mark) → (other ≡ mark → ⊥) → Stands self.old.marks other →
            Stands self.new.marks other }
        ensures whole { self.new.whole ≡ self.old.whole }
        ensures room { self.new.room ≡ self.old.room }
    {
        let at = place(self.marks.as_slice(), mark);
        if stands_at(self.marks.as_slice(), at, mark) {
            let _gone = self.marks.remove(at);
        }
    }
}
