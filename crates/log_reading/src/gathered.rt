//! Logs, as far as they were read.

ghost use Rattle.std.specs.Prelude.{◌≡◌, ◌≤◌, ◌<◌, ◌+◌, ◌++◌, ◌∷◌, ℕ, List, [], length, map, Some, None, Err, OnOk, OnErr, IfOk, IfErr, IfSome, vec_capacity, vec_len, slice_get};
ghost use Rattle.log_values.specs.Events.{event_of, events_of, setup_of};
ghost use Rattle.log_values.specs.Told.{IsOrder, logs_of};
ghost use Rattle.log_reading.specs.Said.{entry_said, event_said, setup_said};
ghost use Rattle.log_verdict.specs.Told.{setups_of};
ghost use Rattle.audit_text.specs.declared.line.LogLine.TheVariants.{Log as LogOf, Event as EventOf, Entry as EntryOf};
ghost use Rattle.log_reading.specs.Gathered.{and_entry, and_event, change_at, line_from, line_of, may_stand, nothing_read, place_of, read_with, taken, to_last, with_entry, with_event, with_log};

use crate::turning::{entry_of, event_of, log_of};
use audit_text::{LogEntry, LogEvent, LogHead, LogLine};
use endpoint_model::Entry;
use log_values::{EndLog, Logged};
use log_verdict::Finding;
use rtmfp_base::Memory;
use rtmfp_text::Name;
use std::alloc::Global;
use std::marker::Model;

/// The most lines of a text (own).
const MOST_LINES: u32 = 100_000;

/// The most ends that a text tells of (own).
const MOST_ENDS: usize = 1024;

/// Why a line isn't taken.
#[derive(Clone, Copy, Debug, PartialEq, Eq)]
pub enum LineFault {
    /// It doesn't stand where it may: it comes after the 100,000th; or it is a log behind an event,
    /// a log of a name that has one, or one of too many; or an event of an end without a log; or an
    /// entry before any event.
    Misplaced,
    /// There is no memory for it.
    Memory,
}

/// Logs as they are read from the lines of a text (own).
///
/// Contracts see the names of the ends, what each was given first and its events, the order of the
/// events, and the line of each log, event and entry.
#[derive(Drop)]
pub struct Gathered {
    alloc: Global,
    names: Vec<Name>,
    logs: Vec<EndLog>,
    order: Vec<u32>,
    last: Option<u32>,
    heads: Vec<u32>,
    /// How many of `lines` stand before those of each event.
    starts: Vec<usize>,
    lines: Vec<u32>,
    count: u32,
}

impl Model for Gathered {
    ghost use Rattle.log_verdict.specs.Told.{setups_of};
    ghost use Rattle.log_values.specs.Told.{logs_of};
    ghost use Rattle.log_reading.specs.Gathered.{Read, IsSound};

    ghost Value = { Read };

    ghost view = { λ g. record {
      names = g.names.items;
      setups = setups_of g.logs.items;
      logs = logs_of g.logs.items;
      order = g.order.items;
      last = g.last;
      heads = g.heads.items;
      starts = g.starts.items;
      lines = g.lines.items;
      count = g.count;
    } };

    ghost invariant = { λ g. IsSound g.names.items (logs_of g.logs.items) g.order.items g.last g.count };
}

/// The place of a name among these.
fn place_of(name: &Name, names: &[Name]) -> Option<u32>
    requires { length names.now ≤ 1024 }
    ensures { result ≡ place_of name.now names.now }
{
    let mut at = 0;
    let mut rest = names;
    while let [first, more @ ..] = rest {
        if first.bytes() == name.bytes() {
            return Some(at);
        }
        at += 1;
        rest = more;
    }
    None
}

/// Finds room for one more.
fn reserve<T: Drop>(items: &mut Vec<T>) -> Result<(), Memory>
    ensures same { items.new.items ≡ items.old.items }
    ensures ok { OnOk result (vec_len items.new < vec_capacity items.new) }
{
    match items.try_reserve(1) {
        Ok(()) => Ok(()),
        Err(_) => Err(Memory),
    }
}

/// Puts an item at the end, where there is room.
fn put<T: Drop>(items: &mut Vec<T>, item: T)
    requires { vec_len items.old < vec_capacity items.old }
    ensures { items.new.items ≡ items.old.items ++ item ∷ [] }
{
    match items.push(item) {
        Ok(()) => {}
        Err(_) => unreachable!(),
    }
}

/// Adds an event to a log.
fn push_event(log: &mut EndLog, event: Logged) -> Result<(), Memory>
    ensures ok { OnOk result (events_of log.new ≡ and_event (event_of event) (events_of log.old)) }
    ensures err { OnErr result (events_of log.new ≡ events_of log.old) }
    ensures setup { setup_of log.new ≡ setup_of log.old }
{
    match log.events.push(event) {
        Ok(()) => Ok(()),
        Err(_) => Err(Memory),
    }
}

/// Adds an entry to an event.
fn push_entry(event: &mut Logged, entry: Entry) -> Result<(), Memory>
    ensures ok { OnOk result (event_of event.new ≡ and_entry entry (event_of event.old)) }
    ensures err { OnErr result (event_of event.new ≡ event_of event.old) }
{
    match event.entries.push(entry) {
        Ok(()) => Ok(()),
        Err(_) => Err(Memory),
    }
}

/// Adds an entry to the last of these events, if there is one.
fn push_to_last(events: &mut [Logged], entry: Entry) -> Result<(), Memory>
    ensures ok { OnOk result (map event_of events.new ≡ to_last entry (map event_of events.old)) }
    ensures err { OnErr result (map event_of events.new ≡ map event_of events.old) }
{
    let count = events.len();
    if count == 0 {
        return Ok(());
    }
    push_entry(&mut events[count - 1], entry)
}

/// Adds an entry to the last event of a log, if there is one.
fn extend_log(log: &mut EndLog, entry: Entry) -> Result<(), Memory>
    ensures ok { OnOk result (events_of log.new ≡ to_last entry (events_of log.old)) }
    ensures err { OnErr result (events_of log.new ≡ events_of log.old) }
    ensures setup { setup_of log.new ≡ setup_of log.old }
{
    push_to_last(log.events.as_mut_slice(), entry)
}

/// Adds an event to the log with this number.
fn add_event(logs: &mut Vec<EndLog>, who: u32, event: Logged) -> Result<(), Memory>
    requires { who < length logs.old.items }
    ensures ok { OnOk result (logs_of logs.new.items ≡ change_at who (and_event (event_of event))
        (logs_of logs.old.items)) }
    ensures err { OnErr result (logs_of logs.new.items ≡ logs_of logs.old.items) }
    ensures setups { setups_of logs.new.items ≡ setups_of logs.old.items }
{
    push_event(&mut logs[who as usize], event)
}

/// Adds an entry to the last event of the log with this number.
fn add_entry(logs: &mut Vec<EndLog>, who: u32, entry: Entry) -> Result<(), Memory>
    requires { who < length logs.old.items }
    ensures ok { OnOk result (logs_of logs.new.items ≡ change_at who (to_last entry)
        (logs_of logs.old.items)) }
    ensures err { OnErr result (logs_of logs.new.items ≡ logs_of logs.old.items) }
    ensures setups { setups_of logs.new.items ≡ setups_of logs.old.items }
{
    extend_log(&mut logs[who as usize], entry)
}

/// The line in this place.
fn line_at(lines: &[u32], at: usize) -> Option<u32>
    ensures { result ≡ slice_get lines.now at }
{
    lines.get(at).copied()
}

/// The line in this place behind the first one of an event, whose lines stand from `start` on,
/// before `end`.
fn line_from(start: usize, end: usize, entry: usize, lines: &[u32]) -> Option<u32>
    ensures { result ≡ line_from (Some start) end entry lines.now }
{
    if entry >= end.saturating_sub(start) {
        return None;
    }
    line_at(lines, start + entry)
}

impl Gathered {
    /// Nothing yet. It takes no memory.
    pub fn new(alloc: Global) -> Gathered
        ensures { result ≡ nothing_read }
    {
        Gathered {
            alloc,
            names: Vec::new(alloc),
            logs: Vec::new(alloc),
            order: Vec::new(alloc),
            last: None,
            heads: Vec::new(alloc),
            starts: Vec::new(alloc),
            lines: Vec::new(alloc),
            count: 0,
        }
    }

    /// The logs, in the order of their lines.
    pub fn logs(&self) -> &[EndLog]
        ensures logs { logs_of result.now ≡ self.now.logs }
        ensures setups { setups_of result.now ≡ self.now.setups }
    {
        self.logs.as_slice()
    }

    /// The ends of the events, in the order of their lines: each event of each log once, as an
    /// audit wants it.
    pub fn order(&self) -> &[u32]
        ensures value { result.now ≡ self.now.order }
        ensures whole { IsOrder self.now.logs self.now.order }
    {
        self.order.as_slice()
    }

    /// The line of what an audit found, counted from 1; None where there is no such log, event or
    /// entry.
    pub fn line_of(&self, finding: &Finding) -> Option<u32>
        ensures { result ≡ line_of finding.now.event finding.now.entry self.now }
    {
        let entry = finding.entry as usize;
        if finding.event == 0 {
            return line_at(self.heads.as_slice(), entry.checked_sub(1)?);
        }
        let event = finding.event as usize - 1;
        let start = *self.starts.get(event)?;
        let end = match self.starts.get(event + 1) {
            Some(end) => *end,
            None => self.lines.len(),
        };
        line_from(start, end, entry, self.lines.as_slice())
    }

    /// How many lines were taken.
    pub fn lines(&self) -> u32
        ensures { result ≡ self.now.count }
    {
        self.count
    }

    /// Whether a log of this name may stand here.
    fn may_stand(&self, name: &Name) -> bool
        ensures { result ≡ may_stand name.now self.now }
    {
        self.last.is_none()
            && place_of(name, self.names.as_slice()).is_none()
            && self.names.len() < MOST_ENDS
    }

    /// Takes a log, where there is a line more.
    fn log(&mut self, name: Name, head: LogHead) -> Result<(), LineFault>
        requires { self.old.count < 100000 }
        ensures ok { OnOk result (read_with (LogOf name head) self.old ≡ Some self.new) }
        ensures misplaced { read_with (LogOf name head) self.old ≡ None →
            result ≡ Err LineFault.Misplaced }
        ensures memory { IfSome (read_with (LogOf name head) self.old) (λ _. IfErr result
            (λ fault. fault ≡ LineFault.Memory)) }
        ensures err { OnErr result (self.new ≡ self.old) }
    {
        if !self.may_stand(&name) {
            return Err(LineFault::Misplaced);
        }
        match self.enter(name, head) {
            Ok(()) => Ok(()),
            Err(Memory) => Err(LineFault::Memory),
        }
    }

    /// Enters a log, where it may stand.
    fn enter(&mut self, name: Name, head: LogHead) -> Result<(), Memory>
        requires few { self.old.count < 100000 }
        requires ends { length self.old.names < 1024 }
        ensures ok { OnOk result (self.new ≡ with_log name (setup_said head) self.old) }
        ensures err { OnErr result (self.new ≡ self.old) }
    {
        reserve(&mut self.names)?;
        reserve(&mut self.logs)?;
        reserve(&mut self.heads)?;
        self.count += 1;
        put(&mut self.names, name);
        put(&mut self.logs, log_of(self.alloc, head));
        put(&mut self.heads, self.count);
        Ok(())
    }

    /// Takes an event, where there is a line more.
    fn event(&mut self, name: &Name, event: LogEvent) -> Result<(), LineFault>
        requires { self.old.count < 100000 }
        ensures ok { OnOk result (read_with (EventOf name.now event) self.old ≡ Some self.new) }
        ensures misplaced { read_with (EventOf name.now event) self.old ≡ None →
            result ≡ Err LineFault.Misplaced }
        ensures memory { IfSome (read_with (EventOf name.now event) self.old) (λ _. IfErr result
            (λ fault. fault ≡ LineFault.Memory)) }
        ensures err { OnErr result (self.new ≡ self.old) }
    {
        let Some(who) = place_of(name, self.names.as_slice()) else {
            return Err(LineFault::Misplaced);
        };
        match self.begin(who, event) {
            Ok(()) => Ok(()),
            Err(Memory) => Err(LineFault::Memory),
        }
    }

    /// Begins an event of this end.
    fn begin(&mut self, who: u32, event: LogEvent) -> Result<(), Memory>
        requires few { self.old.count < 100000 }
        requires end { who < length self.old.logs }
        ensures ok { OnOk result (self.new ≡ with_event who (event_said event) self.old) }
        ensures err { OnErr result (self.new ≡ self.old) }
    {
        reserve(&mut self.order)?;
        reserve(&mut self.starts)?;
        reserve(&mut self.lines)?;
        let event = event_of(self.alloc, event);
        add_event(&mut self.logs, who, event)?;
        self.count += 1;
        self.last = Some(who);
        let start = self.lines.len();
        put(&mut self.order, who);
        put(&mut self.starts, start);
        put(&mut self.lines, self.count);
        Ok(())
    }

    /// Takes an entry, where there is a line more.
    fn entry(&mut self, entry: LogEntry) -> Result<(), LineFault>
        requires { self.old.count < 100000 }
        ensures ok { OnOk result (read_with (EntryOf entry) self.old ≡ Some self.new) }
        ensures misplaced { read_with (EntryOf entry) self.old ≡ None →
            result ≡ Err LineFault.Misplaced }
        ensures memory { IfSome (read_with (EntryOf entry) self.old) (λ _. IfErr result
            (λ fault. fault ≡ LineFault.Memory)) }
        ensures err { OnErr result (self.new ≡ self.old) }
    {
        let Some(who) = self.last else {
            return Err(LineFault::Misplaced);
        };
        match self.extend(who, entry) {
            Ok(()) => Ok(()),
            Err(Memory) => Err(LineFault::Memory),
        }
    }

    /// Adds an entry to the last event, which is one of this end.
    fn extend(&mut self, who: u32, entry: LogEntry) -> Result<(), Memory>
        requires few { self.old.count < 100000 }
        requires end { who < length self.old.logs }
        ensures ok { OnOk result (self.new ≡ with_entry who (entry_said entry) self.old) }
        ensures err { OnErr result (self.new ≡ self.old) }
    {
        reserve(&mut self.lines)?;
        add_entry(&mut self.logs, who, entry_of(entry))?;
        self.count += 1;
        put(&mut self.lines, self.count);
        Ok(())
    }

    /// Takes the next line. It finds memory first, and leaves all as it was where there is none, as
    /// where the line doesn't stand where it may.
    pub fn take(&mut self, line: LogLine) -> Result<(), LineFault>
        ensures ok { OnOk result (taken line self.old ≡ Some self.new) }
        ensures misplaced { taken line self.old ≡ None → result ≡ Err LineFault.Misplaced }
        ensures memory { IfSome (taken line self.old) (λ _. IfErr result
            (λ fault. fault ≡ LineFault.Memory)) }
        ensures err { OnErr result (self.new ≡ self.old) }
    {
        if self.count >= MOST_LINES {
            return Err(LineFault::Misplaced);
        }
        match line {
            LogLine::Skip => {
                self.count += 1;
                Ok(())
            }
            LogLine::Log { name, head } => self.log(name, head),
            LogLine::Event { name, event } => self.event(&name, event),
            LogLine::Entry(entry) => self.entry(entry),
        }
    }
}
