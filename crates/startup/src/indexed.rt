//! The attempts of an end, found by their numbers, tags and cookies as well.

ghost use Rattle.std.specs.Prelude.{◌≡◌, ◌<◌, ◌^◌, ◌≤◌, true, false, None, Some, OnOk, IfSome};
ghost use Rattle.std.specs.Prelude.{IfNone, length};
ghost use Rattle.std.specs.Option.{option_copied};
ghost use Rattle.std.specs.FinMap.{empty, get, insert, len, remove};
ghost use Rattle.startup.specs.State.{AttemptState};
ghost use Rattle.startup.specs.Attempts.{lowest};
ghost use Rattle.startup.specs.Due.{is_due};
ghost use Rattle.startup.specs.Sought.{fits, IsChosen, change_of, number_got, Allows};
ghost use Rattle.startup.specs.Table.{in_attempt};
ghost use Rattle.startup.specs.Indexed.{cookie_length, IsFoundBy, IsPut, IsSized, IsTaken};
ghost use Rattle.startup.specs.declared.marks.Mark.{Mark};
ghost use Rattle.startup.specs.Marks.{mark_of, passes_in, AreFrom, AreOf, AreOfOthers, IsAscending, IsMarked, IsMarkedBut, KeepsMarks};

use crate::attempt::{Attempt, COOKIE_LIMIT, Change, Stage};
use crate::index::Index;
use crate::marks::{Mark, Marks, place};
use crate::rows::{FoundAttempt, Sought, fits};
use crate::table::AttemptTable;
use crate::words::{cookie_word, word_of};
use rtmfp_base::Memory;
use std::alloc::Global;
use std::marker::Model;

/// How many bytes a tag has.
const TAG: usize = 16;

/// The attempts of an end, as a table of them is seen. One is found by its number and by its tag in
/// constant time on average, as long as no two have had one number, or tags that begin alike; by
/// its cookie in a logarithm of their number.
///
/// Numbers are counted and tags drawn by the end itself, so no peer makes two alike, or chooses them
/// for their words. Cookies are the peers', who may. What is sought is theirs as well: a tag that
/// hasn't 16 bytes, or a cookie of more than 128, is no attempt's, and none is looked at for it.
#[derive(Drop)]
pub(crate) struct IndexedAttempts {
    table: AttemptTable,
    numbers: Index,
    tags: Index,
    cookies: Marks,
}

impl Model for IndexedAttempts {
    ghost use Rattle.startup.specs.contracts.attempt.Attempt as attempt_type;
    ghost use Rattle.startup.specs.Table.{Table, table_code};
    ghost use Rattle.startup.specs.Indexed.{IsIndexed, AreSized, number_word, tag_word};

    ghost Value = { Table };

    ghost coded = { table_code attempt_type.the_row.coded };

    ghost view = { λ t. t.table };

    ghost use Rattle.startup.specs.Marks.{IsMarked, AreOf};

    ghost invariant = { λ t. IsIndexed number_word t.numbers t.table.attempts
        × IsIndexed tag_word t.tags t.table.attempts × IsMarked t.cookies t.table.attempts
        × AreSized t.table.attempts × AreOf t.cookies.marks t.table.attempts };
}

/// A tag has 16 bytes. This and the next two do nothing: they tell what the types say.
fn is_tag(tag: &[u8; 16])
    ensures { length tag.now ≡ 16 }
{}

/// A cookie that is kept has at most 128 bytes.
fn is_narrow(stage: &Stage)
    ensures { cookie_length stage.now ≤ 128 }
{
    match stage {
        Stage::Hello => {}
        Stage::Keying { cookie, .. } => {
            let _bytes = cookie.bytes();
        }
    }
}

/// An attempt's tag and cookie have these sizes.
fn is_sized(attempt: &Attempt)
    ensures { IsSized attempt.now }
{
    is_tag(&attempt.tag);
    is_narrow(&attempt.stage);
}

/// The attempt that is sought, which has this word.
fn find_in<'a>(
    table: &'a AttemptTable,
    index: &Index,
    word: u64,
    sought: &Sought<'_>,
) -> Option<FoundAttempt<'a>>
    requires { IsFoundBy (fits sought.now) index.now word table.now.attempts }
    ensures { IsChosen (lowest (fits sought.now) table.now.attempts) table.now.attempts result }
{
    if !index.is_whole() {
        return table.find(sought);
    }
    let Some(near) = index.get(word) else {
        return None;
    };
    let Some(attempt) = table.get(near) else {
        return None;
    };
    if fits(attempt, sought) {
        return Some(FoundAttempt { near, attempt });
    }
    None
}

/// The mark of an attempt under a near id. No cookie is hashed for it.
fn mark_of(attempt: &Attempt, near: u32) -> Option<Mark>
    ensures { result ≡ mark_of attempt.now near }
{
    match &attempt.stage {
        Stage::Hello => None,
        Stage::Keying { cookie, .. } => Some(Mark {
            word: cookie.word(),
            near,
        }),
    }
}

/// The mark of the attempt under this near id, where it has one, is put with the others.
fn mark(table: &AttemptTable, marks: &mut Marks, near: u32)
    requires marked { IsMarkedBut near marks.old table.now.attempts }
    requires others { AreOfOthers near marks.old.marks table.now.attempts }
    ensures marked { IsMarked marks.new table.now.attempts }
    ensures own { AreOf marks.new.marks table.now.attempts }
    ensures whole { length marks.old.marks < marks.old.room → marks.new.whole ≡ marks.old.whole }
{
    let Some(attempt) = table.get(near) else {
        return;
    };
    let Some(mark) = mark_of(attempt, near) else {
        return;
    };
    marks.put(mark);
}

/// The mark of the attempt under this near id, where it has one, is taken from the others.
fn unmark(table: &AttemptTable, marks: &mut Marks, near: u32)
    requires marked { IsMarked marks.old table.now.attempts }
    requires own { AreOf marks.old.marks table.now.attempts }
    ensures marked { IsMarkedBut near marks.new table.now.attempts }
    ensures others { AreOfOthers near marks.new.marks table.now.attempts }
    ensures whole { marks.new.whole ≡ marks.old.whole }
{
    let Some(attempt) = table.get(near) else {
        return;
    };
    let Some(mark) = mark_of(attempt, near) else {
        return;
    };
    marks.take(mark);
}

/// A near id is put under a word, where there is one.
fn put(index: &mut Index, word: Option<u64>, near: u32)
    ensures { IsPut word near index.old index.new }
{
    match word {
        Some(word) => index.put(word, near),
        None => {}
    }
}

/// What is under a word is taken out, where there is one.
fn take(index: &mut Index, word: Option<u64>)
    ensures { IsTaken word index.old index.new }
{
    match word {
        Some(word) => index.take(word),
        None => {}
    }
}

/// The number that an attempt gets by a change, where it does.
fn number_got(change: &Change<'_>) -> Option<u64>
    ensures { result ≡ number_got change.now }
{
    match change {
        Change::Answered(..) => None,
        Change::Met { n, .. } => Some(*n),
        Change::Recookied(_) => None,
        Change::Extended(_) => None,
        Change::Repeated => None,
    }
}

/// Whether an attempt has the mark that it had after such a change, and no other number.
fn keeps_mark(change: &Change<'_>) -> bool
    ensures marks { result ≡ true → KeepsMarks change.now }
    ensures number { result ≡ true → number_got change.now ≡ None }
{
    match change {
        Change::Answered(..) => false,
        Change::Met { .. } => false,
        Change::Recookied(_) => false,
        Change::Extended(_) => true,
        Change::Repeated => true,
    }
}

/// The attempt under this near id, where it is one that is sought.
fn sought_at<'a>(table: &'a AttemptTable, near: u32, sought: &Sought<'_>) -> Option<&'a Attempt>
    ensures there { IfSome result (λ a. get table.now.attempts near ≡ Some a.now) }
    ensures fits { IfSome result (λ a. fits sought.now a.now ≡ true) }
    ensures none { IfNone result (passes_in (fits sought.now) (get table.now.attempts near)
        ≡ false) }
{
    let Some(attempt) = table.get(near) else {
        return None;
    };
    if fits(attempt, sought) {
        return Some(attempt);
    }
    None
}

/// The attempt that is sought, whose mark has this word. It looks at those alone whose marks have
/// it.
fn find_marked<'a>(
    table: &'a AttemptTable,
    marks: &[Mark],
    word: u64,
    sought: &Sought<'_>,
) -> Option<FoundAttempt<'a>>
    requires order { IsAscending marks.now }
    requires marked { AreFrom (fits sought.now) marks.now 0 word table.now.attempts }
    ensures { IsChosen (lowest (fits sought.now) table.now.attempts) table.now.attempts result }
{
    let start = place(marks, Mark { word, near: 0 });
    for at in start..marks.len() {
        let mark = marks[at];
        if mark.word != word {
            return None;
        }
        let Some(attempt) = sought_at(table, mark.near, sought) else {
            continue;
        };
        return Some(FoundAttempt {
            near: mark.near,
            attempt,
        });
    }
    None
}

impl IndexedAttempts {
    /// No attempts. It takes no memory.
    pub(crate) fn new(alloc: Global) -> IndexedAttempts
        ensures { result.attempts ≡ empty }
    {
        IndexedAttempts {
            table: AttemptTable::new(alloc),
            numbers: Index::new(alloc),
            tags: Index::new(alloc),
            cookies: Marks::new(alloc),
        }
    }

    /// How many attempts there are.
    pub(crate) fn count(&self) -> usize
        ensures value { result ≡ len self.now.attempts }
        ensures small { result < 2 ^ 63 }
    {
        self.table.count()
    }

    /// The attempt under this near id.
    pub(crate) fn get(&self, near: u32) -> Option<&Attempt>
        ensures { option_copied result ≡ get self.now.attempts near }
    {
        self.table.get(near)
    }

    /// Finds memory for one more attempt.
    pub(crate) fn reserve(&mut self) -> Result<(), Memory>
        ensures ok { OnOk result (self.new.ready ≡ true) }
        ensures attempts { self.new.attempts ≡ self.old.attempts }
    {
        match self.numbers.reserve() {
            Ok(()) => {}
            Err(Memory) => return Err(Memory),
        }
        match self.tags.reserve() {
            Ok(()) => {}
            Err(Memory) => return Err(Memory),
        }
        match self.cookies.reserve(self.table.count() + 1) {
            Ok(()) => {}
            Err(Memory) => return Err(Memory),
        }
        self.table.reserve()
    }

    /// Finds memory for the number of one more attempt, as a search has none.
    pub(crate) fn reserve_number(&mut self) -> Result<(), Memory>
        ensures { self.new ≡ self.old }
    {
        self.numbers.reserve()
    }

    /// Keeps an attempt under a near id that no other one has, for which there is room. It takes no
    /// memory.
    pub(crate) fn keep(&mut self, near: u32, attempt: Attempt)
        requires ready { self.old.ready ≡ true }
        requires free { get self.old.attempts near ≡ None }
        ensures { self.new.attempts ≡ insert self.old.attempts near attempt }
    {
        is_sized(&attempt);
        put(&mut self.numbers, attempt.aim.word(), near);
        put(&mut self.tags, Some(word_of(&attempt.tag)), near);
        self.table.keep(near, attempt);
        mark(&self.table, &mut self.cookies, near);
    }

    /// Changes the attempt under this near id, where there is one, at a moment. It takes no memory.
    pub(crate) fn change(&mut self, near: u32, change: &Change<'_>, moment: u64)
        requires { (a : AttemptState) → get self.old.attempts near ≡ Some a → Allows change.now a }
        ensures { self.new.attempts
            ≡ in_attempt (change_of change.now moment) self.old.attempts near }
    {
        if keeps_mark(change) {
            self.table.change(near, change, moment);
            return;
        }
        unmark(&self.table, &mut self.cookies, near);
        put(&mut self.numbers, number_got(change), near);
        self.table.change(near, change, moment);
        mark(&self.table, &mut self.cookies, near);
    }

    /// Forgets the attempt under this near id, where there is one. It takes no memory.
    pub(crate) fn forget(&mut self, near: u32)
        ensures { self.new.attempts ≡ remove self.old.attempts near }
    {
        unmark(&self.table, &mut self.cookies, near);
        let Some(attempt) = self.table.get(near) else {
            self.table.forget(near);
            return;
        };
        take(&mut self.numbers, attempt.aim.word());
        take(&mut self.tags, Some(word_of(&attempt.tag)));
        self.table.forget(near);
    }

    /// The attempt that is sought; of several that with the lowest near id.
    pub(crate) fn find(&self, sought: &Sought<'_>) -> Option<FoundAttempt<'_>>
        ensures { IsChosen (lowest (fits sought.now) self.now.attempts) self.now.attempts result }
    {
        match sought {
            Sought::Number(n) => find_in(&self.table, &self.numbers, *n, sought),
            Sought::Tag(tag) => {
                if tag.len() != TAG {
                    return None;
                }
                find_in(&self.table, &self.tags, word_of(tag), sought)
            }
            Sought::Cookie(cookie) => {
                if cookie.len() > COOKIE_LIMIT {
                    return None;
                }
                if !self.cookies.is_whole() {
                    return self.table.find(sought);
                }
                find_marked(
                    &self.table,
                    self.cookies.in_order(),
                    cookie_word(cookie),
                    sought,
                )
            }
        }
    }

    /// Tells that a moment has come, so that `due` finds what is due then at once.
    pub(crate) fn advance(&mut self, moment: u64)
        ensures { self.new ≡ self.old }
    {
        self.table.advance(moment);
    }

    /// The attempt that is due first, by rising near ids. It looks at those alone that are due, and
    /// at the moment of the last `advance` at one.
    pub(crate) fn due(&self, moment: u64) -> Option<FoundAttempt<'_>>
        ensures { IsChosen (lowest (is_due moment) self.now.attempts) self.now.attempts result }
    {
        self.table.due(moment)
    }
}
