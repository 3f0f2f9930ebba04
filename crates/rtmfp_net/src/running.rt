//! Programs that run, and what each has written so far.

use libc::net::{POLLIN, poll};
use libc::types::pollfd;
use rtmfp_base::Message;
use rtmfp_host::Ran;
use std::alloc::Global;
use std::io::{self, ErrorKind, Read};
use std::os::fd::AsRawFd;
use std::os::unix::process::ExitStatusExt;
use std::process::{Child, ChildStdout, ExitStatus};

/// The children that were started, each at its number until it is waited for.
///
/// A pipe of the system holds little, and a child that finds it full waits. So what any child has
/// written is read while one of them is waited for.
#[derive(Drop)]
pub(crate) struct RunningChildren {
    children: Vec<Option<Running>>,
    /// The output of each, or -1 where it is closed: the system looks at no such row.
    outputs: Vec<pollfd>,
}

impl RunningChildren {
    pub(crate) fn new(alloc: Global) -> RunningChildren {
        RunningChildren {
            children: Vec::new(alloc),
            outputs: Vec::new(alloc),
        }
    }

    /// The number of the next child.
    pub(crate) fn next(&self) -> usize {
        self.children.len()
    }

    /// Keeps a child. Without memory for it, it is let go.
    pub(crate) fn add(&mut self, alloc: Global, child: Child) -> bool {
        let fd = match &child.stdout {
            Some(output) => output.as_raw_fd(),
            None => -1,
        };
        let output = pollfd {
            fd,
            events: POLLIN,
            revents: 0,
        };
        if self.outputs.push(output).is_err() {
            return false;
        }
        let is_kept = self.children.push(Some(Running::new(alloc, child))).is_ok();
        if !is_kept {
            self.outputs.truncate(self.children.len());
        }
        is_kept
    }

    /// Reads what a child writes to its end, and what others write meanwhile, and waits for it.
    /// Each can be waited for once.
    pub(crate) fn wait(&mut self, number: usize) -> Ran {
        for _ in 0..u64::MAX {
            if !self.is_open(number) {
                break;
            }
            self.read_some(number);
        }
        match self.take(number) {
            Some(child) => child.finish(),
            None => Ran::Failed,
        }
    }

    /// Whether the child may write more.
    fn is_open(&self, number: usize) -> bool {
        match self.outputs.get(number) {
            Some(output) => output.fd >= 0,
            None => false,
        }
    }

    /// Waits until a child has written, and reads once from each that has. Where the system can't
    /// tell which, this one is read.
    fn read_some(&mut self, number: usize) {
        if poll(self.outputs.as_mut_slice(), -1) < 0 {
            for (place, output) in self.outputs.iter_mut().enumerate() {
                output.revents = if place == number { POLLIN } else { 0 };
            }
        }
        for (child, output) in self.children.iter_mut().zip(self.outputs.iter_mut()) {
            if output.revents != 0 && !reads_more(child) {
                output.fd = -1;
            }
        }
    }

    fn take(&mut self, number: usize) -> Option<Running> {
        self.children.get_mut(number)?.take()
    }
}

/// A child, and what it has written so far.
#[derive(Drop)]
struct Running {
    child: Child,
    text: Vec<u8>,
    /// Why its text isn't whole, where it isn't.
    lost: Option<Lost>,
}

/// Why a text isn't whole.
#[derive(Clone, Copy)]
enum Lost {
    Memory,
    Failed,
}

/// Reads once from a child. Whether more may come.
fn reads_more(child: &mut Option<Running>) -> bool {
    match child {
        Some(running) => running.reads_more(),
        None => false,
    }
}

impl Running {
    fn new(alloc: Global, child: Child) -> Running {
        Running {
            child,
            text: Vec::new(alloc),
            lost: None,
        }
    }

    /// Reads once. Whether more may come: else the output is closed.
    fn reads_more(&mut self) -> bool {
        let read = match &mut self.child.stdout {
            Some(output) => read_once(output, &mut self.text),
            None => Ok(false),
        };
        match read {
            Ok(true) => return true,
            Ok(false) => {}
            Err(lost) => self.lost = Some(lost),
        }
        self.child.stdout = None;
        false
    }

    /// Waits for a child whose output is closed. One whose text is lost is ended first.
    fn finish(mut self) -> Ran {
        if let Some(lost) = self.lost {
            if self.child.kill().is_ok() {
                let _ = self.child.wait();
            }
            return lost.ran();
        }
        match self.child.wait() {
            Ok(status) => Ran::Ended {
                status: status_of(status),
                text: Message::of(self.text),
            },
            Err(error) => lost_by(&error).ran(),
        }
    }
}

impl Lost {
    fn ran(self) -> Ran {
        match self {
            Lost::Memory => Ran::Memory,
            Lost::Failed => Ran::Failed,
        }
    }
}

/// Reads what an output has, once. Whether more may come.
fn read_once(output: &mut ChildStdout, text: &mut Vec<u8>) -> Result<bool, Lost> {
    let mut piece = [0; 16_384];
    match output.read(&mut piece) {
        Ok(count) => match text.extend_from_slice(&piece[..count]) {
            Ok(()) => Ok(count > 0),
            Err(_) => Err(Lost::Memory),
        },
        Err(error) => {
            if error.kind() == ErrorKind::Interrupted {
                return Ok(true);
            }
            Err(lost_by(&error))
        }
    }
}

fn lost_by(error: &io::Error) -> Lost {
    if is_memory(error) {
        Lost::Memory
    } else {
        Lost::Failed
    }
}

pub(crate) fn is_memory(error: &io::Error) -> bool {
    error.kind() == ErrorKind::OutOfMemory
}

/// The exit status, as a shell tells it: of a child that a signal has ended it is 128 and the
/// signal's number.
fn status_of(status: ExitStatus) -> i32 {
    match status.code() {
        Some(code) => code,
        None => match status.signal() {
            Some(signal) => signal.saturating_add(128),
            None => 128,
        },
    }
}
