//! Plays the examples, which are the files of this crate's `data`, and tells of each whether what
//! is written is the report beside it. Its words are the names of the examples. All are scripts,
//! but for `packets`, whose lines are packets, for texts of rows, each of which is a script with its
//! report (`flows.rows` and the like), for texts of logs with what an audit says of each
//! (`logs.audits`), for texts of scripts, each with the logs that are written of it
//! (`logs.journals`), for texts of tables, of rows of two ends by hand (`flows.tables`), and for
//! tables of a script with one of its calls failing (`handshake.faults`).
//! The word `library` is no file: it has an end as a library do what README shows, and tells how
//! much it is to send, tells and drops then.
#![tactic(auto)]

mod audits;
mod faults;
mod journals;
mod rows;
mod running;
mod tables;

use crate::running::played;
use std::test::Fail;
use std::{env, fs, io};
use tests_base::library::counted_of_an_end;

fn main(rt: HostRuntime) -> Result<(), Fail> {
    for name in env::args(&rt)?.skip(1) {
        play(&rt, name.as_str())?;
    }
    Ok(())
}

/// Plays the examples of a name, by what the name ends with.
fn play(rt: &HostRuntime, name: &str) -> Result<(), Fail> {
    if name.ends_with(".rows") {
        return Ok(play_rows(rt, name)?);
    }
    if name.ends_with(".audits") {
        return Ok(play_audits(rt, name)?);
    }
    if name.ends_with(".journals") {
        return Ok(play_journals(rt, name)?);
    }
    if name.ends_with(".tables") {
        return play_tables(rt, name);
    }
    if let Some(front) = name.strip_suffix(".faults") {
        return Ok(play_faults(rt, front)?);
    }
    if name == "library" {
        return play_library(rt);
    }
    Ok(play_script(rt, name)?)
}

/// Tells what an end as a library is to send, and what happened at it.
fn play_library(rt: &HostRuntime) -> Result<(), Fail> {
    let counted = counted_of_an_end(rt.alloc())?;
    println!(rt;
        "an end as a library sends {}, tells {}, drops {}",
        counted.sent, counted.told, counted.dropped
    )?;
    Ok(())
}

fn play_rows(rt: &HostRuntime, name: &str) -> io::Result<()> {
    let text = fs::read_to_string(rt, name)?;
    rows::tell_rows(rt, text.as_str())
}

fn play_audits(rt: &HostRuntime, name: &str) -> io::Result<()> {
    let text = fs::read_to_string(rt, name)?;
    audits::tell_rows(rt, text.as_str())
}

fn play_journals(rt: &HostRuntime, name: &str) -> io::Result<()> {
    let text = fs::read_to_string(rt, name)?;
    let audits = fs::read_to_string(rt, "logs.audits")?;
    journals::tell_rows(rt, text.as_str(), audits.as_str())
}

fn play_tables(rt: &HostRuntime, name: &str) -> Result<(), Fail> {
    let text = fs::read_to_string(rt, name)?;
    tables::tell_tables(rt, text.as_str())
}

fn play_script(rt: &HostRuntime, name: &str) -> io::Result<()> {
    let is_so = is_so(rt, name)?;
    tell(rt, name, is_so)
}

/// Tells of the table of the faults of a script whether it is so.
fn play_faults(rt: &HostRuntime, name: &str) -> io::Result<()> {
    let table = read(rt, name, "faults")?;
    tell_faults(rt, name, table.as_str())
}

fn tell_faults(rt: &HostRuntime, name: &str, table: &str) -> io::Result<()> {
    let script = read(rt, name, "txt")?;
    let report = read(rt, name, "report")?;
    faults::tell_faults(rt, name, table, script.as_str(), report.as_str())
}

/// Tells of a script whether it has its report.
fn tell(rt: &HostRuntime, name: &str, is_so: bool) -> io::Result<()> {
    let told = if is_so {
        "has its report"
    } else {
        "has another report"
    };
    println!(rt; "{name} {told}")
}

/// The text of a file of an example.
fn read(rt: &HostRuntime, name: &str, kind: &str) -> io::Result<String> {
    let path = format!(in rt.alloc(); "{name}.{kind}")?;
    fs::read_to_string(rt, path.as_str())
}

/// Whether what is written of an example is its report.
fn is_so(rt: &HostRuntime, name: &str) -> io::Result<bool> {
    let script = read(rt, name, "txt")?;
    let report = read(rt, name, "report")?;
    let command = if name == "packets" { "show" } else { "replay" };
    let (_, written) = played(rt.alloc(), command, script, report.as_str())?;
    Ok(written)
}
