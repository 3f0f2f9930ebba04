//! Texts of logs, each with what an audit says of it, as texts in the crate's `data`. How such a
//! text is written stands at its head.

use crate::rows::{parts_of, row_named};
use crate::running::played;
use crate::tell;
use rtmfp_cli::Status;
use std::alloc::{AllocError, Global};
use std::io;

/// The number that a text is; 0 where it is none.
fn number_of(text: &str) -> u64 {
    text.parse::<u64>().unwrap_or(0)
}

/// How an audit ends that gives this answer.
fn status_of(answer: &str) -> Status {
    if let Some(line) = answer.strip_prefix("bad ") {
        return Status::BadScript(number_of(line));
    }
    match answer.strip_prefix("refused line=") {
        Some(rest) => {
            let (line, _cause) = rest.split_once(' ').unwrap_or((rest, ""));
            Status::NotAgreed(number_of(line))
        }
        None => Status::Done,
    }
}

/// What is written with an answer: nothing where a line is bad.
fn written_of(alloc: Global, answer: &str) -> Result<String, AllocError> {
    let mut written = String::new(alloc);
    if !answer.starts_with("bad ") {
        written.push_str(answer)?;
        written.push_str("\n")?;
    }
    Ok(written)
}

/// Adds a line behind others. The last one has no end.
fn push_line(line: &str, logs: &mut String) -> Result<(), AllocError> {
    if !logs.is_empty() {
        logs.push_str("\n")?;
    }
    logs.push_str(line)
}

/// Adds the first lines of the text of another row: how many, and its title.
fn push_front(rows: &str, front: &str, logs: &mut String) -> Result<(), AllocError> {
    let (count, title) = front.split_once(' ').unwrap_or(("", front));
    let (_answer, text) = parts_of(row_named(rows, title));
    for line in text.lines().take(count.parse::<usize>().unwrap_or(0)) {
        push_line(line, logs)?;
    }
    Ok(())
}

/// The logs that the lines of a row stand for.
fn logs_of(alloc: Global, rows: &str, lines: &str) -> Result<String, AllocError> {
    let mut logs = String::new(alloc);
    for line in lines.lines() {
        match line.strip_prefix("& ") {
            Some(front) => push_front(rows, front, &mut logs)?,
            None => push_line(line, &mut logs)?,
        }
    }
    Ok(logs)
}

/// Whether an audit of these logs gives this answer.
fn is_so(alloc: Global, logs: String, answer: &str) -> Result<bool, AllocError> {
    let wanted = written_of(alloc, answer)?;
    let (status, written) = played(alloc, "audit", logs, wanted.as_str())?;
    Ok(written && status == status_of(answer))
}

/// Tells of a row whether its logs have its answer.
fn tell_row(rt: &HostRuntime, rows: &str, row: &str) -> io::Result<()> {
    let (title, lines) = parts_of(row);
    let (answer, text) = parts_of(lines);
    let logs = logs_of(rt.alloc(), rows, text)?;
    let has_it = is_so(rt.alloc(), logs, answer.strip_prefix("= ").unwrap_or(""))?;
    tell(rt, title, has_it)
}

/// Tells of each of these rows whether its logs have its answer.
pub(crate) fn tell_rows(rt: &HostRuntime, rows: &str) -> io::Result<()> {
    for row in rows.split("\n@ ").skip(1) {
        tell_row(rt, rows, row)?;
    }
    Ok(())
}
