//! `meet` over children in memory: each is a run by the words that it was started with, over what
//! another program made of its part of a whole meeting.

ghost use Rattle.std.specs.Prelude.{◌≡◌, None};

use crate::recorded::A_MEETING;
use crate::serving::words_of;
use crate::talks::{Played, play};
use rtmfp_base::{Memory, Message};
use rtmfp_cli::{Status, run};
use rtmfp_host::{
    Begun, ChildEnd, MemoryEntropy, MemoryLink, MemoryMoments, MemorySink, MemorySource, Ran,
    Spawner, first_status,
};
use std::alloc::{AllocError, Global};
use std::test::Fail;

/// The turns are more than the caller needs to send its message again, which it does where that
/// isn't acknowledged.
const MEET: &str = "meet --port 40100 --turns 12";

/// The lines of the introducer: a session is born and confirmed, and a hello is forwarded in it.
const INTRODUCER: &str = "\
i 1 self sent 1 127.0.0.1:40101 rhello
i 2 self born peer=f2a0a6607e166894e6047b3d6432a28f12104a52395ad61afef18af1b1fa5a59 n=1 near=12 far=68 ni=41 nr=9 k=0
i 2 self sent 2 127.0.0.1:40101 rikeying
i 3 self confirmed near=12
i 3 self sent 3 127.0.0.1:40101 pingreply
i 4 self sent 4 127.0.0.1:40101 fihello
";

/// Those of the answerer, which has opened one session when it is called, and takes the message.
const ANSWERER: &str = "\
b 0 self started peer=83c1a8a94aee19711d0ecf38f44a08b98e2097116d701ab66a47c4c5c0b02827 n=1 near=68 ni=41
b 0 self sent 1 127.0.0.1:40100 ihello
b 1 self sent 2 127.0.0.1:40100 iikeying
b 2 self opened peer=83c1a8a94aee19711d0ecf38f44a08b98e2097116d701ab66a47c4c5c0b02827 n=1 near=68 far=12 ni=41 nr=9 k=0
b 2 self sent 3 127.0.0.1:40100 ping
b 4 self sent 4 127.0.0.1:40102 rhello
b 5 self born peer=85372a978197157625cf90e4b287a358d1062f7db17e15a319ab0734666a5731 n=1 near=88 far=128 ni=7d nr=55 k=1
b 5 self sent 5 127.0.0.1:40102 rikeying
b 6 self confirmed near=88
b 6 self sent 6 127.0.0.1:40102 pingreply
b 7 self handed near=88 flow=0 seq=1 68656c6c6f
b 7 self sent 7 127.0.0.1:40102 ackranges
";

/// Those of the caller.
const CALLER: &str = "\
a 0 self started peer=f2a0a6607e166894e6047b3d6432a28f12104a52395ad61afef18af1b1fa5a59 n=1 near=128 ni=7d
a 0 self sent 1 127.0.0.1:40100 ihello
a 1 self sent 2 127.0.0.1:40101 iikeying
a 2 self opened peer=f2a0a6607e166894e6047b3d6432a28f12104a52395ad61afef18af1b1fa5a59 n=1 near=128 far=88 ni=7d nr=55 k=1
a 2 self sent 3 127.0.0.1:40101 ping
a 2 self flow near=128 id=0
a 2 self queued near=128 flow=0 seq=1 length=5
a 2 self sent 4 127.0.0.1:40101 data
";

/// Children that are runs, each over its own objects in memory: the first one that is started is
/// node 0 of the meeting, and so on. It tells no calls.
#[derive(Drop)]
struct Children {
    alloc: Global,
    ends: Vec<ChildEnd>,
    started: u32,
    /// The child whose port is taken, if there is one.
    unbound: Option<u32>,
    /// Whether each child sent just what it was to send.
    sends: bool,
    status: Option<i32>,
}

/// The node of a talk that a child is.
fn node_of(child: u32) -> &'static str {
    match child {
        0 => "0",
        1 => "1",
        _ => "2",
    }
}

/// A copy of how a child ended.
fn copy_of(alloc: Global, ends: &[ChildEnd], child: u32) -> Result<ChildEnd, Memory> {
    match ends.get(child as usize) {
        Some(end) => Ok(ChildEnd {
            status: end.status,
            text: Message::copy_of(alloc, end.text.bytes())?,
        }),
        None => Err(Memory),
    }
}

/// How a child ends that did this.
fn end_of(alloc: Global, played: &Played) -> Result<ChildEnd, Memory> {
    Ok(ChildEnd {
        status: i32::from(played.status.code()),
        text: Message::copy_of(alloc, played.sink.written().unwrap_or(b""))?,
    })
}

impl Children {
    /// No children yet.
    fn new(alloc: Global, unbound: Option<u32>) -> Children
        ensures { result.status ≡ None }
    {
        Children {
            alloc,
            ends: Vec::new(alloc),
            started: 0,
            unbound,
            sends: true,
            status: None,
        }
    }

    /// Runs the next child to its end.
    fn run_child(&mut self, words: &[String]) -> Result<u32, AllocError>
        ensures { self.new.status ≡ self.old.status }
    {
        let child = self.started;
        self.started = child.saturating_add(1);
        let unbound = self.unbound == Some(child);
        let played = play(self.alloc, words, node_of(child), A_MEETING, unbound)?;
        let Ok(end) = end_of(self.alloc, &played) else {
            return Err(AllocError);
        };
        self.ends.push(end)?;
        self.sends = self.sends && played.sends;
        Ok(child)
    }
}

impl Spawner for Children {
    ghost use Rattle.std.specs.Prelude.{None};

    ghost seen = { λ c. record { calls = None; status = c.status; faults = 0 } };

    fn start(&mut self, words: &[String]) -> Begun {
        match self.run_child(words) {
            Ok(child) => Begun::Child(child),
            Err(_) => Begun::Memory,
        }
    }

    fn wait(&mut self, child: u32) -> Ran {
        match copy_of(self.alloc, self.ends.as_slice(), child) {
            Ok(end) => {
                self.status = first_status(self.status, end.status);
                Ran::Ended {
                    status: end.status,
                    text: end.text,
                }
            }
            Err(Memory) => Ran::Memory,
        }
    }
}

/// How a meeting ends, and whether all its children sent what they were to send.
fn meet(
    alloc: Global,
    unbound: Option<u32>,
    sink: &mut MemorySink,
) -> Result<(Status, bool), AllocError> {
    let words = words_of(alloc, MEET)?;
    let mut children = Children::new(alloc, unbound);
    let status = run(
        alloc,
        words.as_slice(),
        &mut MemoryLink::new(alloc, Vec::new(alloc)),
        &mut MemoryMoments::new(Vec::new(alloc)),
        &mut MemoryEntropy::new(Vec::new(alloc)),
        &mut MemorySource::new(Vec::new(alloc)),
        sink,
        &mut children,
    );
    Ok((status, children.sends))
}

/// Texts behind each other.
fn joined(alloc: Global, texts: &[&str]) -> Result<String, AllocError> {
    let mut whole = String::new(alloc);
    for text in texts {
        whole.push_str(text)?;
    }
    Ok(whole)
}

/// Whether a meeting ends so, and writes these texts.
fn ends_so(
    alloc: Global,
    unbound: Option<u32>,
    wanted: (Status, bool),
    texts: &[&str],
) -> Result<bool, AllocError> {
    let mut sink = MemorySink::new(alloc);
    let told = meet(alloc, unbound, &mut sink)?;
    let whole = joined(alloc, texts)?;
    let writes = sink.written() == Some(whole.as_str().as_bytes());
    Ok(writes && told == wanted)
}

#[test]
fn three_nodes_meet(rt: HostRuntime) -> Result<(), Fail> {
    let texts = [INTRODUCER, ANSWERER, CALLER];
    assert!(rt; ends_so(rt.alloc(), None, (Status::Done, true), &texts)?);
    Ok(())
}

/// A bind that fails ends the child with status 5.
#[test]
fn a_node_without_its_port_ends_a_meeting(rt: HostRuntime) -> Result<(), Fail> {
    let wanted = (Status::ChildFailed(5), false);
    assert!(rt; ends_so(rt.alloc(), Some(0), wanted, &[])?);
    assert!(rt; ends_so(rt.alloc(), Some(2), wanted, &[INTRODUCER, ANSWERER])?);
    Ok(())
}
