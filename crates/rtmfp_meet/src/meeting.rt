//! A whole run of `meet`.
ghost use Rattle.std.specs.Prelude.{◌≡◌, None};
ghost use Rattle.rtmfp_meet.specs.Meeting.{MeetEnds, sides};

use crate::node::Node;
use crate::steps::{finish, start};
use rtmfp_host::{Sink, Spawner};
use rtmfp_lines::Status;
use rtmfp_words::MeetWords;
use std::alloc::Global;

/// Starts three nodes on this machine, waits for each, and writes what they wrote (own). The first
/// event in the order of the run gives the status.
///
/// The introducer, the answerer and the caller are started in this order, at ports that follow each
/// other. Then each is waited for in this order. Where it ended with status 0, its lines are
/// written, each behind `i `, `b ` or `a `, and passed on; the first other status ends the run.
pub fn meet<K: Sink, P: Spawner>(
    alloc: Global,
    meet: MeetWords,
    sink: &mut K,
    spawner: &mut P,
) -> Status
    requires { (P.seen spawner.old).status ≡ None }
    ensures { MeetEnds meet.port meet.turns result
        (sides (P.seen spawner.old) (K.seen sink.old))
        (sides (P.seen spawner.new) (K.seen sink.new)) }
{
    let introducer = match start(alloc, Node::Introducer, meet, spawner) {
        Ok(child) => child,
        Err(status) => return status,
    };
    let answerer = match start(alloc, Node::Answerer, meet, spawner) {
        Ok(child) => child,
        Err(status) => return status,
    };
    let caller = match start(alloc, Node::Caller, meet, spawner) {
        Ok(child) => child,
        Err(status) => return status,
    };
    match finish(Node::Introducer, introducer, sink, spawner) {
        Ok(()) => {}
        Err(status) => return status,
    }
    match finish(Node::Answerer, answerer, sink, spawner) {
        Ok(()) => {}
        Err(status) => return status,
    }
    match finish(Node::Caller, caller, sink, spawner) {
        Ok(()) => {}
        Err(status) => return status,
    }
    Status::Done
}
