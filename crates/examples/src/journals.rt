//! Scripts, each with the logs that are written of it, as texts in the crate's `data`. How such a
//! text is written stands at its head.

use crate::rows::{parts_of, row_named};
use crate::running::played;
use crate::tell;
use rtmfp_cli::Status;
use std::alloc::{AllocError, Global};
use std::io;

/// A script, the logs that are written of it, and how its run ends.
#[derive(Drop)]
struct Journal {
    script: String,
    logs: String,
    status: Status,
}

/// Adds a line.
fn push_line(line: &str, text: &mut String) -> Result<(), AllocError> {
    text.push_str(line)?;
    text.push_str("\n")
}

impl Journal {
    fn new(alloc: Global) -> Journal {
        Journal {
            script: String::new(alloc),
            logs: String::new(alloc),
            status: Status::Done,
        }
    }

    /// Adds what a line of a row says.
    fn push(&mut self, audits: &str, line: &str) -> Result<(), AllocError> {
        if let Some(step) = line.strip_prefix("> ") {
            return push_line(step, &mut self.script);
        }
        if let Some(number) = line.strip_prefix("bad ") {
            self.status = Status::BadScript(number.parse::<u64>().unwrap_or(0));
            return Ok(());
        }
        match line.strip_prefix("& ") {
            Some(title) => push_line(parts_of(row_named(audits, title)).1, &mut self.logs),
            None => push_line(line, &mut self.logs),
        }
    }

    /// Whether the run of the script ends so, and writes these logs.
    fn is_so(&self, alloc: Global) -> Result<bool, AllocError> {
        let script = String::from_str(alloc, self.script.as_str())?;
        let (status, written) = played(alloc, "replay --journal", script, self.logs.as_str())?;
        Ok(written && status == self.status)
    }
}

/// What the lines of a row say.
fn journal_of(alloc: Global, audits: &str, lines: &str) -> Result<Journal, AllocError> {
    let mut journal = Journal::new(alloc);
    for line in lines.lines() {
        journal.push(audits, line)?;
    }
    Ok(journal)
}

/// Tells of a row whether its script has its logs.
fn tell_row(rt: &HostRuntime, audits: &str, row: &str) -> io::Result<()> {
    let (title, lines) = parts_of(row);
    let journal = journal_of(rt.alloc(), audits, lines)?;
    let has_it = journal.is_so(rt.alloc())?;
    tell(rt, title, has_it)
}

/// Tells of each of these rows whether its script has its logs, where the others are texts of logs.
pub(crate) fn tell_rows(rt: &HostRuntime, rows: &str, audits: &str) -> io::Result<()> {
    for row in rows.split("\n@ ").skip(1) {
        tell_row(rt, audits, row)?;
    }
    Ok(())
}
