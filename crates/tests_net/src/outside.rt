//! How a run ends where what is outside of it fails: the network, the random source, a child.

ghost use Rattle.std.specs.Prelude.{◌≡◌, None, IfOk};
ghost use Rattle.rtmfp_host.specs.Children.{spawner_status, faulty_spawner_status};

use crate::serving::words_of;
use rtmfp_base::Message;
use rtmfp_cli::{Status, run};
use rtmfp_host::{
    ChildEnd, FaultyEntropy, FaultyLink, FaultySpawner, MemoryEntropy, MemoryLink, MemoryMoments,
    MemorySink, MemorySource, MemorySpawner,
};
use std::alloc::{AllocError, Global};
use std::test::Fail;

/// A node of two turns; P stands for 64 digits.
const SERVE: &str = "serve 10.0.0.1:1935 P node --turns 2";

const MEET: &str = "meet --port 40100 --turns 200";

/// The calls that are to fail: the first one, or none.
fn first(alloc: Global, fails: bool) -> Result<Vec<u64>, AllocError> {
    let mut calls = Vec::new(alloc);
    if fails {
        calls.push(1)?;
    }
    Ok(calls)
}

/// The first child that is started ends with this status.
fn children(alloc: Global, status: i32) -> Result<MemorySpawner, AllocError>
    ensures { IfOk result (λ spawner. spawner_status spawner ≡ None) }
{
    let text = Message::of(Vec::new(alloc));
    let ends = Vec::from_array(alloc, [ChildEnd { status, text }])?;
    Ok(MemorySpawner::new(alloc, ends))
}

fn spawner_of(alloc: Global, fails: &str, child: i32) -> Result<FaultySpawner, AllocError>
    ensures { IfOk result (λ spawner. faulty_spawner_status spawner ≡ None) }
{
    let spawner = children(alloc, child)?;
    let starts = first(alloc, fails == "start")?;
    Ok(FaultySpawner::new(spawner, starts, Vec::new(alloc)))
}

fn link_of(alloc: Global, fails: &str) -> Result<FaultyLink, AllocError> {
    let binds = first(alloc, fails == "bind")?;
    let link = MemoryLink::new(alloc, Vec::new(alloc));
    Ok(FaultyLink::new(link, binds, Vec::new(alloc)))
}

fn entropy_of(alloc: Global, fails: &str) -> Result<FaultyEntropy, AllocError> {
    let draws = first(alloc, fails == "draw")?;
    Ok(FaultyEntropy::new(MemoryEntropy::new(Vec::new(alloc)), draws))
}

fn run_words(
    alloc: Global,
    words: &[String],
    link: &mut FaultyLink,
    entropy: &mut FaultyEntropy,
    spawner: &mut FaultySpawner,
) -> Status
    requires { faulty_spawner_status spawner.old ≡ None }
{
    run(
        alloc,
        words,
        link,
        &mut MemoryMoments::new(Vec::new(alloc)),
        entropy,
        &mut MemorySource::new(Vec::new(alloc)),
        &mut MemorySink::new(alloc),
        spawner,
    )
}

fn run_over(
    alloc: Global,
    words: &[String],
    fails: &str,
    spawner: &mut FaultySpawner,
) -> Result<Status, AllocError>
    requires { faulty_spawner_status spawner.old ≡ None }
{
    let mut link = link_of(alloc, fails)?;
    let mut entropy = entropy_of(alloc, fails)?;
    Ok(run_words(alloc, words, &mut link, &mut entropy, spawner))
}

/// How a run by these words ends where the first bind, draw or start fails, or the first child ends
/// with a status.
fn status_of(alloc: Global, words: &str, fails: &str, child: i32) -> Result<Status, AllocError> {
    let words = words_of(alloc, words)?;
    let mut spawner = spawner_of(alloc, fails, child)?;
    run_over(alloc, words.as_slice(), fails, &mut spawner)
}

/// Whether a run of a node ends so.
fn serves_so(alloc: Global) -> Result<bool, AllocError> {
    let draw = status_of(alloc, SERVE, "draw", 0)? == Status::EntropyFault;
    let bind = status_of(alloc, SERVE, "bind", 0)? == Status::LinkFault;
    let done = status_of(alloc, SERVE, "", 0)? == Status::Done;
    Ok(draw && bind && done)
}

/// Whether a run of three nodes ends so.
fn meets_so(alloc: Global) -> Result<bool, AllocError> {
    let start = status_of(alloc, MEET, "start", 0)? == Status::SpawnFault;
    let child = status_of(alloc, MEET, "", 6)? == Status::ChildFailed(6);
    let done = status_of(alloc, MEET, "", 0)? == Status::Done;
    Ok(start && child && done)
}

#[test]
fn a_fault_outside_ends_a_run(rt: HostRuntime) -> Result<(), Fail> {
    assert!(rt; serves_so(rt.alloc())?);
    assert!(rt; meets_so(rt.alloc())?);
    Ok(())
}
