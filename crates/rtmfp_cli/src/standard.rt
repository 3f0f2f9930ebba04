//! The program over the machine.

use crate::top_call::run;
use rtmfp_host::{Sink, StreamSink, StreamSource};
use rtmfp_lines::Status;
use rtmfp_net::{Generator, ProgramSpawner, SystemClock, UdpLink};
use rtmfp_text::Text;
use std::env;
use std::io::{self, BufWriter};
use std::process::ExitCode;

/// All that the program does (own): it runs over standard input and output, a socket, the clock, a
/// generator and child programs, with the words of the command line, prints on standard error how
/// that ended where it wasn't done, and gives the exit status.
pub fn run_program(rt: &HostRuntime) -> ExitCode {
    let status = run_words(rt);
    let mut text = Text::new(rt.alloc());
    // Where there is no memory for the text, or it can't be printed, the exit status still tells.
    if status.complain(&mut text).is_ok() {
        let mut errors = StreamSink::new(rt.stderr());
        let _ = errors.write(text.bytes());
    }
    ExitCode::from(status.code())
}

/// Runs with the words of the command line.
fn run_words(rt: &HostRuntime) -> Status {
    let words = match words(rt) {
        Ok(words) => words,
        Err(status) => return status,
    };
    let Ok(writer) = BufWriter::new(rt.alloc(), io::writer(rt)) else {
        return Status::Memory;
    };
    let network: Result<HostRuntime, _> = rt.clone();
    let processes: Result<HostRuntime, _> = rt.clone();
    let (Ok(network), Ok(processes)) = (network, processes) else {
        return Status::Memory;
    };
    run(
        rt.alloc(),
        words.as_slice(),
        &mut UdpLink::new(network),
        &mut SystemClock::new(rt),
        &mut Generator::keyed(rt),
        &mut StreamSource::new(rt.reader()),
        &mut StreamSink::new(writer),
        &mut ProgramSpawner::new(processes, rt.alloc(), own_path(rt)),
    )
}

/// The path of the running program. Where it can't be told it is empty, and no child is started.
fn own_path(rt: &HostRuntime) -> String {
    match env::current_exe(rt) {
        Ok(path) => path.into_string(),
        Err(_) => String::new(rt.alloc()),
    }
}

/// The words after the program's name. Words that aren't text are not in the grammar.
fn words(rt: &HostRuntime) -> Result<Vec<String>, Status> {
    let Ok(args) = env::args(rt) else {
        return Err(Status::BadWords);
    };
    let mut words = Vec::new(rt.alloc());
    for word in args.skip(1) {
        if words.push(word).is_err() {
            return Err(Status::Memory);
        }
    }
    Ok(words)
}
