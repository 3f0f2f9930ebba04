//! Each row is called, and told.

use crate::rows::ROWS;
use std::env;
use std::io::{self, Write};
use std::net::UdpSocket;
use std::process::{Command, Output, Stdio};

/// Calls the program for each row, and tells what came of it.
pub(crate) fn tell_rows(rt: &HostRuntime) -> io::Result<()> {
    let own = own_name(rt)?;
    let taken = UdpSocket::bind(rt, "127.0.0.1:0")?;
    let port = format!(in rt.alloc(); "{}", taken.local_addr()?.port())?;
    for row in ROWS.lines() {
        if let Some((title, line)) = row.split_once(": ") {
            let output = call(rt, line, own.as_str(), port.as_str())?;
            tell(rt, title, &output)?;
        }
    }
    Ok(())
}

/// The name by which this program was started. The machine's link to it leads elsewhere where
/// sources run unproved.
fn own_name(rt: &HostRuntime) -> io::Result<String> {
    match env::args(rt)?.next() {
        Some(name) => Ok(name),
        None => Ok(String::new(rt.alloc())),
    }
}

/// Has a shell do a line, in which this program is `$0` and the port that is taken `$1`.
fn call(rt: &HostRuntime, line: &str, own: &str, port: &str) -> io::Result<Output> {
    let mut command = Command::new(rt.alloc(), "sh")?;
    command.arg("-c")?.arg(line)?.arg(own)?.arg(port)?;
    command.stdin(Stdio::inherit()).output(rt)
}

/// Tells of a row how its call ended, and what was written.
fn tell(rt: &HostRuntime, title: &str, output: &Output) -> io::Result<()> {
    let code = output.status.code().unwrap_or(-1);
    println!(rt; "# {title}\nexit {code}")?;
    tell_written(rt, "out", output.stdout.as_slice())?;
    tell_written(rt, "err", output.stderr.as_slice())
}

/// Tells what was written, where there is something.
fn tell_written(rt: &HostRuntime, name: &str, bytes: &[u8]) -> io::Result<()> {
    if bytes.is_empty() {
        return Ok(());
    }
    println!(rt; "{name}")?;
    rt.stdout().write_all(bytes)
}
