//! Single steps of a run: the start of a node, and the wait for its child.
ghost use Rattle.std.specs.Prelude.{◌≡◌, None};
ghost use Rattle.rtmfp_host.specs.Spawning.{IsStarted};
ghost use Rattle.rtmfp_meet.specs.Meeting.{sides};
ghost use Rattle.rtmfp_meet.specs.Steps.{Begins, Finishes};

use crate::child_words::child_words;
use crate::lines::hand_over;
use crate::node::Node;
use rtmfp_host::{Begun, Ran, Sink, Spawner, Wrote};
use rtmfp_lines::Status;
use rtmfp_words::MeetWords;
use std::alloc::Global;

/// Starts a node, and gives its child.
pub(crate) fn start<P: Spawner>(
    alloc: Global,
    node: Node,
    meet: MeetWords,
    spawner: &mut P,
) -> Result<u32, Status>
    requires { (P.seen spawner.old).status ≡ None }
    ensures { Begins meet.port meet.turns node result (P.seen spawner.old) (P.seen spawner.new) }
{
    let Ok(words) = child_words(alloc, node, meet) else {
        return Err(Status::Memory);
    };
    match spawner.start(words.words()) {
        Begun::Child(child) => Ok(child),
        Begun::Failed => Err(Status::SpawnFault),
        Begun::Memory => Err(Status::Memory),
    }
}

/// Waits for the child of a node, and writes its lines where it ended with 0.
pub(crate) fn finish<K: Sink, P: Spawner>(
    node: Node,
    child: u32,
    sink: &mut K,
    spawner: &mut P,
) -> Result<(), Status>
    requires none { (P.seen spawner.old).status ≡ None }
    requires started { IsStarted (P.seen spawner.old).calls child }
    ensures { Finishes node child result (sides (P.seen spawner.old) (K.seen sink.old))
        (sides (P.seen spawner.new) (K.seen sink.new)) }
{
    match spawner.wait(child) {
        Ran::Ended { status, text } => {
            if status != 0 {
                return Err(Status::ChildFailed(status));
            }
            match hand_over(node, text.bytes(), sink) {
                Wrote::Done => Ok(()),
                Wrote::Failed => Err(Status::SinkFault),
            }
        }
        Ran::Failed => Err(Status::SpawnFault),
        Ran::Memory => Err(Status::Memory),
    }
}
