//! Rows of scripts, each with its report, as texts in the crate's `data`. How such a text is
//! written stands at its head.

use crate::running::{played, played_to};
use crate::tell;
use rtmfp_cli::Status;
use std::alloc::{AllocError, Global};
use std::io;
use tests_base::rows::lines_of;

/// The digits of a message of so many bytes.
fn digits(alloc: Global, length: u64) -> Result<String, AllocError> {
    let mut bytes = Vec::new(alloc);
    for index in 0..length {
        bytes.push((index % 251) as u8)?;
    }
    hex::encode(alloc, bytes.as_slice())
}

/// Adds a line, without its end, whose last word is a message of so many bytes.
fn push_message(
    alloc: Global,
    front: &str,
    length: &str,
    report: &mut String,
) -> Result<(), AllocError> {
    let digits = digits(alloc, length.parse::<u64>().unwrap_or(0))?;
    report.push_str(front)?;
    report.push_str(" ")?;
    report.push_str(digits.as_str())
}

/// Adds a line of a report, in which a last word `*7` is a message of 7 bytes.
fn push_report(alloc: Global, line: &str, report: &mut String) -> Result<(), AllocError> {
    match line.rsplit_once(" *") {
        Some((front, length)) => push_message(alloc, front, length, report)?,
        None => report.push_str(line)?,
    }
    report.push_str("\n")
}

/// Adds a line of a script.
fn push_step(line: &str, script: &mut String) -> Result<(), AllocError> {
    script.push_str(line)?;
    script.push_str("\n")
}

/// A script, its report or what that ends with, how many lines the script has, and whether each line
/// that is to be bad was bad where it stands.
#[derive(Drop)]
struct Transcript {
    script: String,
    report: String,
    is_whole: bool,
    steps: u64,
    are_bad: bool,
}

impl Transcript {
    fn new(alloc: Global) -> Transcript {
        Transcript {
            script: String::new(alloc),
            report: String::new(alloc),
            is_whole: true,
            steps: 0,
            are_bad: true,
        }
    }

    /// How a run of a script ends, and whether it writes the report.
    fn played(&self, alloc: Global, script: String) -> Result<(Status, bool), AllocError> {
        if self.is_whole {
            played(alloc, "replay", script, self.report.as_str())
        } else {
            played_to(alloc, script, self.report.as_str())
        }
    }

    /// Notes of a line behind the script so far whether a run ends there as a bad line says.
    fn try_bad(&mut self, alloc: Global, line: &str) -> Result<(), AllocError> {
        let mut script = String::from_str(alloc, self.script.as_str())?;
        push_step(line, &mut script)?;
        let (status, written) = self.played(alloc, script)?;
        let is_bad = status == Status::BadScript(self.steps.saturating_add(1));
        self.are_bad = self.are_bad && is_bad && written;
        Ok(())
    }

    /// What was reported so far isn't told.
    fn leave_out(&mut self, alloc: Global) {
        self.report = String::new(alloc);
        self.is_whole = false;
    }

    /// Adds a line of the script or of the report.
    fn push_one(&mut self, alloc: Global, line: &str, is_step: bool) -> Result<(), AllocError> {
        if is_step {
            self.steps = self.steps.saturating_add(1);
            push_step(line, &mut self.script)
        } else {
            push_report(alloc, line, &mut self.report)
        }
    }

    /// Adds the lines that a line of a row stands for, of the script or of the report.
    fn push_lines(&mut self, alloc: Global, line: &str) -> Result<(), AllocError> {
        let step = line.strip_prefix("> ");
        let lines = lines_of(alloc, step.unwrap_or(line))?;
        for text in lines.iter() {
            self.push_one(alloc, text.as_str(), step.is_some())?;
        }
        Ok(())
    }

    /// Adds what a line of a row says.
    fn push_line(&mut self, alloc: Global, line: &str) -> Result<(), AllocError> {
        if let Some(bad) = line.strip_prefix("! ") {
            return self.try_bad(alloc, bad);
        }
        if line == "..." {
            self.leave_out(alloc);
            return Ok(());
        }
        self.push_lines(alloc, line)
    }

    /// Adds lines, but no step where the script has so many.
    fn push(&mut self, alloc: Global, lines: &str, most: u64) -> Result<(), AllocError> {
        for line in lines.lines() {
            if line.starts_with("> ") && self.steps >= most {
                return Ok(());
            }
            if !line.starts_with(['#', '+']) {
                self.push_line(alloc, line)?;
            }
        }
        Ok(())
    }
}

/// The title of a row, and its lines.
pub(crate) fn parts_of(row: &str) -> (&str, &str) {
    row.split_once('\n').unwrap_or((row, ""))
}

/// The lines of the row of this title.
pub(crate) fn row_named<'a>(rows: &'a str, title: &str) -> &'a str {
    for row in rows.split("\n@ ").skip(1) {
        let (name, lines) = parts_of(row);
        if name == title {
            return lines;
        }
    }
    ""
}

/// A count, and the title behind it.
fn counted(front: &str) -> Option<(u64, &str)> {
    let (count, title) = front.split_once(' ')?;
    Some((count.parse::<u64>().ok()?, title))
}

/// The first lines of another row that a row begins with: how many, and its title.
fn begins_with(lines: &str) -> Option<(u64, &str)> {
    for line in lines.lines() {
        if let Some(front) = line.strip_prefix("+ ") {
            return counted(front);
        }
    }
    None
}

/// A row and those that it begins with, of each its lines and how many lines of the script there
/// are behind it. Four rows are the most that begin with one another.
fn parts<'a>(
    alloc: Global,
    rows: &'a str,
    lines: &'a str,
) -> Result<Vec<(&'a str, u64)>, AllocError> {
    let mut parts = vec![in alloc; (lines, u64::MAX)]?;
    let mut front = lines;
    for _ in 0..4 {
        let Some((count, title)) = begins_with(front) else {
            break;
        };
        front = row_named(rows, title);
        parts.push((front, count))?;
    }
    Ok(parts)
}

/// What the lines of a row stand for.
fn whole_row(alloc: Global, rows: &str, lines: &str) -> Result<Transcript, AllocError> {
    let mut whole = Transcript::new(alloc);
    let parts = parts(alloc, rows, lines)?;
    for (lines, most) in parts.iter().rev() {
        whole.push(alloc, lines, *most)?;
    }
    Ok(whole)
}

/// Whether a run of the script of a row is done and writes its report.
fn is_so(alloc: Global, rows: &str, lines: &str) -> Result<bool, AllocError> {
    let whole = whole_row(alloc, rows, lines)?;
    let script = String::from_str(alloc, whole.script.as_str())?;
    let (status, written) = whole.played(alloc, script)?;
    Ok(whole.are_bad && written && status == Status::Done)
}

/// Tells of a row whether its script has its report.
fn tell_row(rt: &HostRuntime, rows: &str, row: &str) -> io::Result<()> {
    let (title, lines) = parts_of(row);
    let has_it = is_so(rt.alloc(), rows, lines)?;
    tell(rt, title, has_it)
}

/// Tells of each of these rows whether its script has its report.
pub(crate) fn tell_rows(rt: &HostRuntime, rows: &str) -> io::Result<()> {
    for row in rows.split("\n@ ").skip(1) {
        tell_row(rt, rows, row)?;
    }
    Ok(())
}
