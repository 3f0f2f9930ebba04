//! Words that a value owns.
ghost use Rattle.std.specs.Prelude.{◌≡◌, IfOk, map, string_bytes};

use rtmfp_base::Memory;
use std::alloc::Global;
use std::marker::Model;

/// A list of words, seen by contracts as the list of their texts.
#[derive(Drop)]
pub struct WordList {
    words: Vec<String>,
}

impl Model for WordList {
    ghost use Rattle.std.specs.Prelude.{List, ℕ, map, string_bytes};

    ghost Value = { List (List ℕ) };

    ghost view = { λ list. map string_bytes list.words.items };
}

impl WordList {
    /// A copy of words.
    pub fn copy_of(alloc: Global, words: &[String]) -> Result<WordList, Memory>
        ensures { IfOk result (λ list. list ≡ map string_bytes words.now) }
    {
        let mut copy = Vec::new(alloc);
        for word in words {
            let word = String::from_str(alloc, word.as_str())?;
            if copy.push(word).is_err() {
                return Err(Memory);
            }
        }
        Ok(WordList { words: copy })
    }

    /// The words.
    pub fn words(&self) -> &[String]
        ensures { map string_bytes result.now ≡ self.now }
    {
        self.words.as_slice()
    }
}
