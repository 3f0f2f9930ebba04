//! The world: its ends, its moment and its journal.

ghost use Rattle.std.specs.Prelude.{◌≡◌, map, option_copied};
ghost use Rattle.rendezvous_world.specs.Inside.{end_seen};
ghost use Rattle.rendezvous_world.specs.Seen.{group_secrets, state_at};

use crate::end::End;
use crate::journal::Journal;
use crate::keyed::Keyed;
use crate::step::{Deed, Step, StepFault};
use endpoint::Endpoint;
use rtmfp_forms::Address;
use rtmfp_text::Directory;
use std::alloc::Global;
use std::marker::Model;

/// Many ends in one run, and what each step did.
///
/// Contracts see the moment, each end with its name, what it was given and what it keeps, and the
/// lines of the journal.
#[derive(Drop)]
pub struct World {
    pub(crate) alloc: Global,
    pub(crate) moment: u64,
    pub(crate) ends: Vec<End>,
    /// The fingerprints and names of the ends.
    pub(crate) named: Directory,
    pub(crate) journal: Journal,
    /// For each line of the journal, how many datagrams were sent before it.
    pub(crate) starts: Vec<u128>,
    /// How many datagrams were sent.
    pub(crate) sent: u128,
    /// For each datagram the index of its line, as far as memory was found. An index is tested
    /// before it is used.
    pub(crate) lines_of: Vec<usize>,
    /// The keys of the first datagrams that were sent.
    pub(crate) keyed: Keyed,
}

impl Model for World {
    ghost use Rattle.endpoint_model.specs.contracts.config.Config as config_type;
    ghost use Rattle.endpoint.specs.contracts.endpoint.Endpoint as endpoint_type;
    ghost use Rattle.rendezvous_world.specs.contracts.journal.JournalLine as line_type;
    ghost use Rattle.rendezvous_world.specs.Seen.{Seen, seen_code};

    ghost Value = { Seen };

    ghost coded = { seen_code config_type.the_row.coded endpoint_type.the_row.coded
        line_type.the_row.coded };

    ghost use Rattle.rendezvous_world.specs.Inside.{world_seen, IsKept};

    ghost view = { λ w. world_seen w.moment w.ends.items w.journal };

    ghost invariant = { λ w. IsKept w.moment w.ends.items w.named w.journal w.starts.items w.sent
        w.keyed };
}

impl World {
    ghost use Rattle.std.specs.Prelude.{◌≡◌, ◌⊎◌, ◌<◌, ◌^◌, ◌-◌, [], IfErr, IfNone, IfSome, OnErr, OnOk, length, map, min, option_copied, Err};
    ghost use Rattle.rendezvous_world.specs.Datagrams.{nth};
    ghost use Rattle.rendezvous_world.specs.Entering.{IsDone};
    ghost use Rattle.rendezvous_world.specs.Faults.{step_fault};
    ghost use Rattle.endpoint_laws.specs.Agreed.{IsAgreed};
    ghost use Rattle.rendezvous_world.specs.Handing.{MessagesGoOver};
    ghost use Rattle.rendezvous_world.specs.History.{history_of};
    ghost use Rattle.rendezvous_world.specs.Inside.{named_of, passing};
    ghost use Rattle.rendezvous_world.specs.Seen.{setup_at, state_at};
    ghost use Rattle.rendezvous_world.specs.Sent.{sent_in};
    ghost use Rattle.rendezvous_world.specs.Sound.{AreBelow, IsSound};
    ghost use Rattle.rendezvous_world.specs.Stepping.{Noted, Stepped, StoppedIn};

    /// A world without ends, at moment 0. It takes no memory.
    pub fn new(alloc: Global) -> World
        ensures moment { result.moment ≡ 0 }
        ensures ends { result.ends ≡ [] }
        ensures lines { result.lines ≡ [] }
    {
        World {
            alloc,
            moment: 0,
            ends: Vec::new(alloc),
            named: Directory::new(alloc),
            journal: Journal {
                lines: Vec::new(alloc),
            },
            starts: Vec::new(alloc),
            sent: 0,
            lines_of: Vec::new(alloc),
            keyed: Keyed::new(alloc),
        }
    }

    /// Takes one step, which stands on this line of its script. `StepFault` has the reasons for
    /// which it is refused, in their order; a call that an end refuses is none.
    ///
    /// Where no memory is found, all is as before. But a datagram or a tick that had begun has its
    /// line in the journal, with what it added, and an end that was to open an attempt, to begin a
    /// search or to close a session keeps the moment.
    pub fn step(&mut self, line: u64, step: &Step) -> Result<(), StepFault>
        requires above { AreBelow self.old.lines line }
        requires fits { line < 2 ^ 32 }
        ensures ok { OnOk result (Stepped self.old line step.now self.new) }
        ensures refused { IfSome (step_fault self.old step.now) (λ fault. (result ≡ Err fault) ×
            (self.new ≡ self.old)) }
        ensures memory { IfNone (step_fault self.old step.now)
            (IfErr result (λ fault. fault ≡ StepFault.Memory)) }
        ensures err { OnErr result ((self.new ≡ self.old) ⊎
            (StoppedIn self.old line step.now self.new ⊎ Noted self.old step.now self.new)) }

        // The history of the journal is lawful, honest and fresh, hence agreed, and the messages of
        // its flows go over.
        ensures sound { IsSound self.new }
        ensures agreed { IsAgreed group_secrets (setup_at self.new.ends) (history_of self.new) }
        ensures go_over { MessagesGoOver (setup_at self.new.ends) (history_of self.new) }
    {
        let result = self.take_step(line, step);
        self.keeps();
        result
    }

    /// Tells what holds at any moment.
    fn keeps(&self)
        ensures sound { IsSound self.now }
        ensures agreed { IsAgreed group_secrets (setup_at self.now.ends) (history_of self.now) }
        ensures go_over { MessagesGoOver (setup_at self.now.ends) (history_of self.now) }
    {
        // This is read for the prover alone, which finds here what holds of every world.
        let _moment = &self.moment;
    }

    /// Takes one step, by what it does.
    fn take_step(&mut self, line: u64, step: &Step) -> Result<(), StepFault>
        requires above { AreBelow self.old.lines line }
        requires fits { line < 2 ^ 32 }
        ensures { IsDone self.old line step.now result self.new }
    {
        match step.deed() {
            Deed::NewEnd {
                name,
                max_peers,
                max_sessions,
                cert,
            } => self.add_end(line, name, max_peers, max_sessions, cert),
            Deed::NewMoment(moment) => self.set_moment(line, moment),
            Deed::Call(end, call) => self.call(line, end, call.peer(), step),
            Deed::Bring(end, from, source) => self.bring_by(line, end, from, &source, step),
        }
    }

    /// What the steps did. At any moment the history of the journal is lawful, honest and fresh,
    /// hence agreed, and the messages of its flows go over.
    pub fn journal(&self) -> &Journal
        ensures lines { result.now ≡ self.now.lines }
        ensures sound { IsSound self.now }
        ensures agreed { IsAgreed group_secrets (setup_at self.now.ends) (history_of self.now) }
        ensures go_over { MessagesGoOver (setup_at self.now.ends) (history_of self.now) }
    {
        self.keeps();
        &self.journal
    }

    /// The fingerprint and the name of each end, by their numbers.
    pub fn named(&self) -> &Directory
        ensures { result.now ≡ map named_of self.now.ends }
    {
        &self.named
    }

    /// The end with this number.
    pub fn endpoint(&self, end: usize) -> Option<&Endpoint>
        ensures { option_copied result ≡ state_at self.now.ends end }
    {
        endpoint_at(&self.ends, end)
    }

    /// How many datagrams were sent; where there are more than 2^64 - 1, that number.
    pub fn sent_count(&self) -> u64
        ensures { result ≡ min (length (sent_in self.now.lines)) (2 ^ 64 - 1) }
    {
        self.sent.min(u128::from(u64::MAX)) as u64
    }

    /// The number of the end that sent a datagram, and where it went. The datagrams are counted
    /// from 1.
    pub fn sent(&self, number: u64) -> Option<(usize, Address)>
        ensures { result ≡ passing (nth (sent_in self.now.lines) number) }
    {
        match self.letter(number) {
            Some(letter) => Some((letter.by, *letter.to)),
            None => None,
        }
    }

    /// The moment of all ends, in milliseconds.
    pub fn moment(&self) -> u64
        ensures { result ≡ self.now.moment }
    {
        self.moment
    }
}

/// The end with this number among ends.
fn endpoint_at(ends: &[End], end: usize) -> Option<&Endpoint>
    ensures { option_copied result ≡ state_at (map end_seen ends.now) end }
{
    if end >= ends.len() {
        return None;
    }
    Some(&ends[end].endpoint)
}
