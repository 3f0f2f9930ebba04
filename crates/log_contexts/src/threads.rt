//! The attempts and searches that began last under session IDs.

ghost use Rattle.std.specs.Prelude.{◌≡◌, ◌<◌, ◌≤◌, ◌+◌, length, OnOk, OnErr, IsOk};
ghost use Rattle.std.specs.FinMap.{empty, get, insert};
ghost use Rattle.log_contexts.specs.Kept.{keying_at, tag_at, tag_in};
ghost use Rattle.log_contexts.specs.Lowest.{TellsLowest};
ghost use Rattle.log_contexts.specs.Changes.{drawn_or, with_keying, with_keyings, with_start};

use crate::lowest::is_before;
use log_digest::Digest;
use rtmfp_base::Memory;
use std::alloc::Global;
use std::collections::HashMap;
use std::marker::Model;

/// An attempt, or a search that may become one.
#[derive(Clone, Copy)]
pub(crate) struct Thread {
    /// The tag of its hellos, where one was drawn.
    pub(crate) tag: Option<[u8; 16]>,
    /// The generation in which its keying went out last.
    pub(crate) keying: Option<u64>,
}

/// What began last under each session ID, found in constant time on average.
///
/// Contracts see it as a finite map, and how many more there is room for.
#[derive(Drop)]
pub(crate) struct Threads {
    map: HashMap<u32, Thread>,
}

impl Model for Threads {
    ghost use Rattle.std.specs.FinMap.{from_entries};
    ghost use Rattle.std.specs.HashMap.{spare};
    ghost use Rattle.log_contexts.specs.contracts.threads.Thread as thread_type;
    ghost use Rattle.log_contexts.specs.Kept.{ThreadMap, thread_map_code};

    ghost Value = { ThreadMap };

    ghost coded = { thread_map_code thread_type.the_row.coded };

    ghost view = { λ t. record { table = from_entries t.map.entries; spare = spare t.map } };
}

impl Threads {
    /// Nothing began. It takes no memory.
    pub(crate) fn new(alloc: Global) -> Threads
        ensures { result.table ≡ empty }
    {
        Threads {
            map: HashMap::new(alloc),
        }
    }

    /// What began last under this session ID.
    fn get(&self, near: u32) -> Option<Thread>
        ensures { result ≡ get self.now.table near }
    {
        self.map.get(&near).copied()
    }

    /// The tag of what began there last.
    pub(crate) fn tag(&self, near: u32) -> Option<[u8; 16]>
        ensures { result ≡ tag_at near self.now.table }
    {
        match self.get(near) {
            Some(thread) => thread.tag,
            None => None,
        }
    }

    /// The generation in which its keying went out last.
    pub(crate) fn keying(&self, near: u32) -> Option<u64>
        ensures { result ≡ keying_at near self.now.table }
    {
        match self.get(near) {
            Some(thread) => thread.keying,
            None => None,
        }
    }

    /// Whether, of the attempts and searches with this tag, none has a lower session ID than this
    /// one.
    pub(crate) fn is_lowest(&self, digest: &Digest, near: u32, tag: &[u8; 16]) -> bool
        ensures { TellsLowest self.now.table digest.now tag.now near result }
    {
        for (other, thread) in self.map.iter() {
            if is_before(digest, near, tag, *other, *thread) {
                return false;
            }
        }
        true
    }

    /// Puts one under a session ID.
    fn put(&mut self, near: u32, thread: Thread) -> Result<(), Memory>
        ensures ok { OnOk result (self.new.table ≡ insert self.old.table near thread) }
        ensures err { OnErr result (self.new.table ≡ self.old.table) }
        ensures succeeds { 0 < self.old.spare → IsOk result }
        ensures spare { self.old.spare ≤ self.new.spare + 1 }
    {
        let Ok(_) = self.map.insert(near, thread) else {
            return Err(Memory);
        };
        Ok(())
    }

    /// An attempt or a search begins under a session ID, with this tag, or with the one that is
    /// there.
    pub(crate) fn start(&mut self, near: u32, drawn: Option<[u8; 16]>) -> Result<(), Memory>
        ensures ok { OnOk result (self.new.table ≡ with_start near drawn self.old.table) }
        ensures err { OnErr result (self.new.table ≡ self.old.table) }
    {
        let thread = Thread {
            tag: drawn_or(drawn, self.tag(near)),
            keying: None,
        };
        self.put(near, thread)
    }

    /// Finds memory for so many more.
    fn reserve(&mut self, more: usize) -> Result<(), Memory>
        ensures ok { OnOk result (more ≤ self.new.spare) }
        ensures table { self.new.table ≡ self.old.table }
    {
        match self.map.try_reserve(more) {
            Ok(()) => Ok(()),
            Err(_) => Err(Memory),
        }
    }

    /// A keying goes out, for which there is room.
    fn key_one(&mut self, generation: u64, near: u32)
        requires { 0 < self.old.spare }
        ensures table { self.new.table ≡ with_keying generation near self.old.table }
        ensures spare { self.old.spare ≤ self.new.spare + 1 }
    {
        let thread = Thread {
            tag: self.tag(near),
            keying: Some(generation),
        };
        match self.put(near, thread) {
            Ok(()) => {}
            Err(_) => unreachable!(),
        }
    }

    /// Keyings go out, for which there is room.
    fn key_each(&mut self, generation: u64, nears: &[u32])
        requires { length nears.now ≤ self.old.spare }
        ensures { self.new.table ≡ with_keyings generation nears.now self.old.table }
    {
        let mut rest = nears;
        while let [near, more @ ..] = rest {
            self.key_one(generation, *near);
            rest = more;
        }
    }

    /// Keyings of what began under these go out in this generation.
    pub(crate) fn key(&mut self, generation: u64, nears: &[u32]) -> Result<(), Memory>
        ensures ok { OnOk result (self.new.table
            ≡ with_keyings generation nears.now self.old.table) }
        ensures err { OnErr result (self.new.table ≡ self.old.table) }
    {
        match self.reserve(nears.len()) {
            Ok(()) => {
                self.key_each(generation, nears);
                Ok(())
            }
            Err(Memory) => Err(Memory),
        }
    }
}

/// The tag that a call drew, or else the one before.
fn drawn_or(drawn: Option<[u8; 16]>, before: Option<[u8; 16]>) -> Option<[u8; 16]>
    ensures { result ≡ drawn_or drawn before }
{
    match drawn {
        Some(tag) => Some(tag),
        None => before,
    }
}
