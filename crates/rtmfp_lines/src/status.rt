//! How a run ended.
ghost use Rattle.std.specs.Prelude.{◌≡◌, ◌++◌, OnOk};
ghost use Rattle.rtmfp_lines.specs.Status.{complaint, ended, numbered, status_code};

use itoa::Buffer;
use rtmfp_text::Text;
use std::alloc::AllocError;

/// How a run ended (own).
#[derive(Clone, Copy, Debug, PartialEq, Eq)]
pub enum Status {
    /// All was done: the source was read to its end, or the command needs none.
    Done,
    /// There was no memory.
    Memory,
    /// The words of the command line are not in the grammar.
    BadWords,
    /// This line, counted from 1, is the first outside the grammar.
    BadScript(u64),
    /// The step of this line brings a datagram that nobody sent.
    Forged(u64),
    /// The link failed to take its place or to receive.
    LinkFault,
    /// The sink failed.
    SinkFault,
    /// The source failed.
    SourceFault,
    /// The random source failed.
    EntropyFault,
    /// The spawner failed to start a child or to wait for one.
    SpawnFault,
    /// The source has more lines than it may have.
    ScriptLong,
    /// A child ended with this status, which isn't 0.
    ChildFailed(i32),
    /// The logs are refused at this line.
    NotAgreed(u64),
}

impl Status {
    /// The exit status of the program.
    pub fn code(self) -> u8
        ensures { result ≡ status_code self }
    {
        match self {
            Status::Done => 0,
            Status::Memory => 1,
            Status::BadWords => 2,
            Status::BadScript(_) => 3,
            Status::Forged(_) => 4,
            Status::LinkFault => 5,
            Status::SinkFault => 6,
            Status::SourceFault => 7,
            Status::EntropyFault => 8,
            Status::SpawnFault => 9,
            Status::ScriptLong => 10,
            Status::ChildFailed(_) => 11,
            Status::NotAgreed(_) => 12,
        }
    }

    /// Adds what the program prints of it on standard error: nothing where the run was done, else
    /// one line.
    pub fn complain(self, text: &mut Text) -> Result<(), AllocError>
        ensures { OnOk result (text.new ≡ text.old ++ complaint self) }
    {
        match self {
            Status::Done => Ok(()),
            Status::Memory => text.push("rtmfp: out of memory\n"),
            Status::BadWords => text.push("rtmfp: bad command line\n"),
            Status::BadScript(line) => push_numbered("rtmfp: bad line ", line, text),
            Status::Forged(line) => push_numbered("rtmfp: forged datagram at line ", line, text),
            Status::LinkFault => text.push("rtmfp: network fault\n"),
            Status::SinkFault => text.push("rtmfp: write fault\n"),
            Status::SourceFault => text.push("rtmfp: read fault\n"),
            Status::EntropyFault => text.push("rtmfp: random source fault\n"),
            Status::SpawnFault => text.push("rtmfp: child fault\n"),
            Status::ScriptLong => text.push("rtmfp: more than 1000000 lines\n"),
            Status::ChildFailed(status) => push_ended(status, text),
            Status::NotAgreed(line) => push_numbered("rtmfp: logs refused at line ", line, text),
        }
    }
}

/// Adds words, the number of a line, and LF.
fn push_numbered(words: &str, line: u64, text: &mut Text) -> Result<(), AllocError>
    ensures { OnOk result (text.new ≡ text.old ++ numbered words.now line) }
{
    text.push(words)?;
    text.push_number(line)?;
    text.push("\n")?;
    Ok(())
}

/// Adds that a child ended with this status, and LF.
fn push_ended(status: i32, text: &mut Text) -> Result<(), AllocError>
    ensures { OnOk result (text.new ≡ text.old ++ ended status) }
{
    text.push("rtmfp: child ended with ")?;
    text.push(Buffer::new().format(status))?;
    text.push("\n")?;
    Ok(())
}
