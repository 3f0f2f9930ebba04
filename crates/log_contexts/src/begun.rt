//! What began last under session IDs, and beside it what is kept of tags.

ghost use Rattle.std.specs.Prelude.{◌≡◌, ℕ, true, OnOk, OnErr, Some};
ghost use Rattle.std.specs.FinMap.{empty};
ghost use Rattle.log_contexts.specs.Kept.{keying_at, tag_at};
ghost use Rattle.log_contexts.specs.Lowest.{TellsLowest};
ghost use Rattle.log_contexts.specs.Changes.{with_keyings, with_start};

use crate::alone::Alone;
use crate::threads::Threads;
use log_digest::Digest;
use rtmfp_base::Memory;
use std::alloc::Global;
use std::marker::Model;

/// What began last under each session ID. Each question is one look at a map, but for a tag with
/// which several things began, which no end draws but by chance.
///
/// Contracts see it as `Threads` alone.
#[derive(Drop)]
pub(crate) struct Begun {
    threads: Threads,
    alone: Alone,
}

impl Model for Begun {
    ghost use Rattle.log_contexts.specs.contracts.threads.Thread as thread_type;
    ghost use Rattle.log_contexts.specs.Kept.{ThreadMap, thread_map_code};
    ghost use Rattle.log_contexts.specs.Alone.{AreAlone};

    ghost Value = { ThreadMap };

    ghost coded = { thread_map_code thread_type.the_row.coded };

    ghost view = { λ b. b.threads };

    ghost invariant = { λ b. AreAlone b.threads.table b.alone };
}

impl Begun {
    /// Nothing began. It takes no memory.
    pub(crate) fn new(alloc: Global) -> Begun
        ensures { result.table ≡ empty }
    {
        Begun {
            threads: Threads::new(alloc),
            alone: Alone::new(alloc),
        }
    }

    /// The tag of what began last under a session ID.
    pub(crate) fn tag(&self, near: u32) -> Option<[u8; 16]>
        ensures { result ≡ tag_at near self.now.table }
    {
        self.threads.tag(near)
    }

    /// The generation in which its keying went out last.
    pub(crate) fn keying(&self, near: u32) -> Option<u64>
        ensures { result ≡ keying_at near self.now.table }
    {
        self.threads.keying(near)
    }

    /// Whether all that began last under session IDs with this tag is known to be under this one.
    fn is_alone(&self, near: u32, tag: &[u8; 16]) -> bool
        ensures { result ≡ true → (other : ℕ) → tag_at other self.now.table ≡ Some tag.now →
            other ≡ near }
    {
        match self.alone.of(tag) {
            Some(Some(other)) => other == near,
            Some(None) => false,
            None => true,
        }
    }

    /// Whether, of the attempts and searches with this tag, none has a lower session ID than this
    /// one.
    pub(crate) fn is_lowest(&self, digest: &Digest, near: u32, tag: &[u8; 16]) -> bool
        ensures { TellsLowest self.now.table digest.now tag.now near result }
    {
        if self.is_alone(near, tag) {
            return true;
        }
        self.threads.is_lowest(digest, near, tag)
    }

    /// An attempt or a search begins under a session ID, with this tag, or with the one that is
    /// there.
    pub(crate) fn start(&mut self, near: u32, drawn: Option<[u8; 16]>) -> Result<(), Memory>
        ensures ok { OnOk result (self.new.table ≡ with_start near drawn self.old.table) }
        ensures err { OnErr result (self.new.table ≡ self.old.table) }
    {
        match drawn {
            Some(tag) => self.start_with(near, tag),
            None => self.threads.start(near, None),
        }
    }

    /// One begins with this tag.
    fn start_with(&mut self, near: u32, tag: [u8; 16]) -> Result<(), Memory>
        ensures ok { OnOk result (self.new.table ≡ with_start near (Some tag) self.old.table) }
        ensures err { OnErr result (self.new.table ≡ self.old.table) }
    {
        match self.alone.note(near, tag) {
            Ok(()) => self.threads.start(near, Some(tag)),
            Err(Memory) => Err(Memory),
        }
    }

    /// Keyings of what began under these go out in this generation.
    pub(crate) fn key(&mut self, generation: u64, nears: &[u32]) -> Result<(), Memory>
        ensures ok { OnOk result (self.new.table
            ≡ with_keyings generation nears.now self.old.table) }
        ensures err { OnErr result (self.new.table ≡ self.old.table) }
    {
        self.threads.key(generation, nears)
    }
}
