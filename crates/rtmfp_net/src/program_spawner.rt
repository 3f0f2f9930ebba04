//! Child programs.
ghost use Rattle.std.specs.Prelude.{◌≡◌, None};

use crate::running::{RunningChildren, is_memory};
use rtmfp_host::{Begun, Ran, Spawner, first_status};
use std::alloc::Global;
use std::io;
use std::process::{Child, Command, Processes, Stdio, SystemProcess};

/// Starts one program, with the words that it is given each time. A child has an empty standard
/// input and the standard error of this process. What the children write is read while one of them
/// is waited for, so that none of them waits for a full pipe then. It tells no calls.
#[derive(Drop)]
pub struct ProgramSpawner<R: Processes<Started = SystemProcess> + Drop> {
    machine: R,
    alloc: Global,
    program: String,
    children: RunningChildren,
    status: Option<i32>,
    faults: u64,
}

impl<R: Processes<Started = SystemProcess> + Drop> ProgramSpawner<R> {
    /// A spawner of the program of this path.
    pub fn new(machine: R, alloc: Global, program: String) -> ProgramSpawner<R>
        ensures status { result.status ≡ None }
        ensures faults { result.faults ≡ 0 }
    {
        ProgramSpawner {
            machine,
            alloc,
            program,
            children: RunningChildren::new(alloc),
            status: None,
            faults: 0,
        }
    }
}

impl<R: Processes<Started = SystemProcess> + Drop> Spawner for ProgramSpawner<R> {
    ghost seen = { λ s. record { calls = None; status = s.status; faults = s.faults } };

    fn start(&mut self, words: &[String]) -> Begun {
        let Ok(number) = u32::try_from(self.children.next()) else {
            return Begun::Memory;
        };
        match spawn(&self.machine, self.alloc, self.program.as_str(), words) {
            Ok(child) => {
                if self.children.add(self.alloc, child) {
                    return Begun::Child(number);
                }
                Begun::Memory
            }
            Err(error) => {
                if is_memory(&error) {
                    return Begun::Memory;
                }
                self.faults = self.faults.saturating_add(1);
                Begun::Failed
            }
        }
    }

    fn wait(&mut self, child: u32) -> Ran {
        match self.children.wait(child as usize) {
            Ran::Ended { status, text } => {
                self.status = first_status(self.status, status);
                Ran::Ended { status, text }
            }
            Ran::Memory => Ran::Memory,
            Ran::Failed => {
                self.faults = self.faults.saturating_add(1);
                Ran::Failed
            }
        }
    }
}

/// Starts a program with these words.
fn spawn(
    machine: &impl Processes<Started = SystemProcess>,
    alloc: Global,
    program: &str,
    words: &[String],
) -> io::Result<Child> {
    let mut command = Command::new(alloc, program)?;
    for word in words {
        command.arg(word.as_str())?;
    }
    command
        .stdin(Stdio::null())
        .stdout(Stdio::piped())
        .stderr(Stdio::inherit())
        .spawn(machine)
}
