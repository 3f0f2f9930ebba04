//! How many things of each kind ends did, and the line that tells it.
ghost use Rattle.std.specs.Prelude.{◌≡◌, ◌+◌, ◌++◌, List, OnOk};
ghost use Rattle.endpoint_model.specs.declared.entry.Entry.{Entry as EntryType};
ghost use Rattle.rtmfp_report.specs.Tally.{nothing_counted, summary_text, tally_of, with_entries, with_entry, with_fact};

use endpoint::Entry;
use glare_core::Fact;
use rtmfp_text::Text;
use std::alloc::AllocError;

/// How many things of each kind ends did.
#[derive(Clone, Copy, Debug, PartialEq, Eq)]
pub struct Tally {
    /// Datagrams that went out.
    pub sent: u64,
    /// Attempts that were started.
    pub started: u64,
    /// Sessions that were born.
    pub born: u64,
    /// Sessions that were opened.
    pub opened: u64,
    /// Sessions that were confirmed.
    pub confirmed: u64,
    /// Attempts and sessions that ended.
    pub ended: u64,
    /// Datagrams and chunks that were discarded.
    pub dropped: u64,
}

impl Tally {
    /// Of nothing.
    pub fn new() -> Tally
        ensures { result ≡ nothing_counted }
    {
        Tally {
            sent: 0,
            started: 0,
            born: 0,
            opened: 0,
            confirmed: 0,
            ended: 0,
            dropped: 0,
        }
    }

    /// Counts entries. More than 2^64-1 of a kind count as want of memory; some of the entries are
    /// counted then.
    pub fn count(&mut self, entries: &[Entry]) -> Result<(), AllocError>
        ensures value { OnOk result (self.new ≡ with_entries self.old entries.now) }

        // Behind entries that were counted before, these are counted as well.
        ensures more { (before : List EntryType) → self.old ≡ tally_of before →
            OnOk result (self.new ≡ tally_of (before ++ entries.now)) }
    {
        self.count_all(entries)
    }

    fn count_all(&mut self, entries: &[Entry]) -> Result<(), AllocError>
        ensures { OnOk result (self.new ≡ with_entries self.old entries.now) }
    {
        let mut rest = entries;
        while let [entry, others @ ..] = rest {
            self.count_entry(entry)?;
            rest = others;
        }
        Ok(())
    }

    fn count_entry(&mut self, entry: &Entry) -> Result<(), AllocError>
        ensures { OnOk result (self.new ≡ with_entry self.old entry.now) }
    {
        match entry {
            Entry::Fact(fact) => self.count_fact(fact),
            Entry::Discard { .. } => add_one(&mut self.dropped),
            Entry::Out { .. } => add_one(&mut self.sent),
            _ => Ok(()),
        }
    }

    fn count_fact(&mut self, fact: &Fact) -> Result<(), AllocError>
        ensures { OnOk result (self.new ≡ with_fact self.old fact.now) }
    {
        match fact {
            Fact::Started { .. } => add_one(&mut self.started),
            Fact::Born(_) => add_one(&mut self.born),
            Fact::Opened(_) => add_one(&mut self.opened),
            Fact::Confirmed { .. } => add_one(&mut self.confirmed),
            Fact::Ended { .. } => add_one(&mut self.ended),
        }
    }
}

fn add_one(count: &mut u64) -> Result<(), AllocError>
    ensures { OnOk result (count.new ≡ count.old + 1) }
{
    *count = count.checked_add(1).ok_or(AllocError)?;
    Ok(())
}

/// Adds the line of a run that had so many ends and steps, and in which so many pairs of an end and
/// a peer keep a session when it is over.
pub fn push_summary(
    ends: u64,
    steps: u64,
    tally: &Tally,
    kept: u64,
    text: &mut Text,
) -> Result<(), AllocError>
    ensures { OnOk result (text.new ≡ text.old ++ summary_text ends steps tally.now kept) }
{
    text.push_number_field("ends=", ends)?;
    text.push_number_field(" steps=", steps)?;
    text.push_number_field(" sent=", tally.sent)?;
    text.push_number_field(" started=", tally.started)?;
    text.push_number_field(" born=", tally.born)?;
    text.push_number_field(" opened=", tally.opened)?;
    text.push_number_field(" confirmed=", tally.confirmed)?;
    text.push_number_field(" ended=", tally.ended)?;
    text.push_number_field(" dropped=", tally.dropped)?;
    text.push_number_field(" kept=", kept)?;
    text.push("\n")?;
    Ok(())
}
