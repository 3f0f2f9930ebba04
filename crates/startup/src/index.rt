//! Which attempt has a word: its number, or the front of its tag.

ghost use Rattle.std.specs.Prelude.{◌≡◌, ◌<◌, ◌≤◌, ◌+◌, true, None, OnOk};
ghost use Rattle.std.specs.FinMap.{empty, get, insert, remove};

use rtmfp_base::Memory;
use std::alloc::Global;
use std::collections::HashMap;
use std::marker::Model;

/// The near ids of attempts by a word of each, as long as no two have had one word.
///
/// Where two had one, or there was no room for a word, the index is whole no longer, and tells
/// nothing.
#[derive(Drop)]
pub(crate) struct Index {
    nears: HashMap<u64, u32>,
    whole: bool,
}

impl Model for Index {
    ghost use Rattle.std.specs.FinMap.{from_entries};
    ghost use Rattle.std.specs.HashMap.{spare};
    ghost use Rattle.startup.specs.Indexed.{Words, words_code};

    ghost Value = { Words };

    ghost coded = { words_code };

    ghost view = { λ i. record {
      nears = from_entries i.nears.entries;
      whole = i.whole;
      spare = spare i.nears;
    } };
}

impl Index {
    /// No words. It takes no memory.
    pub(crate) fn new(alloc: Global) -> Index
        ensures nears { result.nears ≡ empty }
        ensures whole { result.whole ≡ true }
    {
        Index {
            nears: HashMap::new(alloc),
            whole: true,
        }
    }

    /// Whether no two attempts have had one word.
    pub(crate) fn is_whole(&self) -> bool
        ensures { result ≡ self.now.whole }
    {
        self.whole
    }

    /// The near id under this word.
    pub(crate) fn get(&self, word: u64) -> Option<u32>
        ensures { result ≡ get self.now.nears word }
    {
        self.nears.get(&word).copied()
    }

    /// Finds memory for one more word.
    pub(crate) fn reserve(&mut self) -> Result<(), Memory>
        ensures ok { OnOk result (0 < self.new.spare) }
        ensures spare { self.old.spare ≤ self.new.spare }
        ensures whole { self.new.whole ≡ self.old.whole }
        ensures nears { self.new.nears ≡ self.old.nears }
    {
        match self.nears.try_reserve(1) {
            Ok(()) => Ok(()),
            Err(_) => Err(Memory),
        }
    }

    /// Puts a near id under a word. The index is whole no longer where the word has one already, or
    /// where there is neither room nor memory for it.
    pub(crate) fn put(&mut self, word: u64, near: u32)
        ensures kept { get self.old.nears word ≡ None → 0 < self.old.spare →
            self.new.whole ≡ self.old.whole }
        ensures spare { self.old.spare ≤ self.new.spare + 1 }
        ensures old { self.new.whole ≡ true → self.old.whole ≡ true }
        ensures free { self.new.whole ≡ true → get self.old.nears word ≡ None }
        ensures nears { self.new.whole ≡ true → self.new.nears ≡ insert self.old.nears word near }
    {
        match self.get(word) {
            Some(_) => {
                self.whole = false;
                return;
            }
            None => {}
        }
        match self.nears.insert(word, near) {
            Ok(_) => {}
            Err(_) => self.whole = false,
        }
    }

    /// Takes out what is under a word. It takes no memory.
    pub(crate) fn take(&mut self, word: u64)
        ensures whole { self.new.whole ≡ self.old.whole }
        ensures spare { self.old.spare ≤ self.new.spare }
        ensures nears { self.new.nears ≡ remove self.old.nears word }
    {
        let _gone = self.nears.remove(&word);
    }
}
