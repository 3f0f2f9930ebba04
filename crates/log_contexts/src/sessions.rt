//! The sessions that began last under session IDs.

ghost use Rattle.std.specs.Prelude.{◌≡◌, OnOk, OnErr};
ghost use Rattle.std.specs.FinMap.{empty, get, insert};
ghost use Rattle.log_digest.specs.Hearing.{takes};
ghost use Rattle.log_contexts.specs.Kept.{generation_in, last_in};
ghost use Rattle.log_contexts.specs.Changes.{begun_in, heard_by, heard_if, takes_if};

use log_digest::Hearing;
use rtmfp_base::Memory;
use std::alloc::Global;
use std::collections::HashMap;
use std::marker::Model;

/// A session.
#[derive(Drop)]
pub(crate) struct Session {
    /// The generation in which it began.
    pub(crate) generation: u64,
    /// What it took since then.
    pub(crate) hearing: Hearing,
}

impl Session {
    /// It is given a datagram that opens in it, and answers whether it takes it.
    fn hear(&mut self, count: u64, moment: u64, fits: bool) -> bool
        ensures takes { result ≡ takes count fits self.old.hearing }
        ensures value { self.new ≡ heard_by count moment fits self.old }
    {
        self.hearing.hear(count, moment, fits)
    }
}

/// The session that began last under each session ID, found in constant time on average.
///
/// Contracts see them as a finite map.
#[derive(Drop)]
pub(crate) struct Sessions {
    map: HashMap<u32, Session>,
}

impl Model for Sessions {
    ghost use Rattle.std.specs.FinMap.{from_entries, code};
    ghost use Rattle.std.specs.Coded.{coded_ℕ};
    ghost use Rattle.log_contexts.specs.contracts.sessions.Session as session_type;
    ghost use Rattle.log_contexts.specs.Kept.{SessionTable};

    ghost Value = { SessionTable };

    ghost coded = { code coded_ℕ session_type.the_row.coded };

    ghost view = { λ s. from_entries s.map.entries };
}

impl Sessions {
    /// None. It takes no memory.
    pub(crate) fn new(alloc: Global) -> Sessions
        ensures { result ≡ empty }
    {
        Sessions {
            map: HashMap::new(alloc),
        }
    }

    /// The generation in which the session under this session ID began.
    pub(crate) fn generation(&self, near: u32) -> Option<u64>
        ensures { result ≡ generation_in (get self.now near) }
    {
        match self.map.get(&near) {
            Some(session) => Some(session.generation),
            None => None,
        }
    }

    /// When it took the last datagram, in milliseconds.
    pub(crate) fn last(&self, near: u32) -> Option<u64>
        ensures { result ≡ last_in (get self.now near) }
    {
        match self.map.get(&near) {
            Some(session) => session.hearing.last(),
            None => None,
        }
    }

    /// A session begins under this session ID, in this generation.
    pub(crate) fn begin(&mut self, near: u32, generation: u64) -> Result<(), Memory>
        ensures ok { OnOk result (self.new ≡ insert self.old near (begun_in generation)) }
        ensures err { OnErr result (self.new ≡ self.old) }
    {
        let session = Session {
            generation,
            hearing: Hearing::new(),
        };
        let Ok(_) = self.map.insert(near, session) else {
            return Err(Memory);
        };
        Ok(())
    }

    /// The session under this session ID is given a datagram that opens in it, and answers whether
    /// it takes it; false where there is none.
    pub(crate) fn hear(&mut self, near: u32, count: u64, moment: u64, fits: bool) -> bool
        ensures takes { result ≡ takes_if count fits (get self.old near) }
        ensures table { self.new ≡ heard_if near count moment fits (get self.old near) self.old }
    {
        let Some(session) = self.map.get_mut(&near) else {
            return false;
        };
        session.hear(count, moment, fits)
    }
}
