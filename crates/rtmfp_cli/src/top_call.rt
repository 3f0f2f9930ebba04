//! The top call.
ghost use Rattle.std.specs.Prelude.{◌≡◌, ℕ, None, false};
ghost use Rattle.rtmfp_words.specs.CommandLine.{IsFaulty};
ghost use Rattle.rtmfp_node.specs.Outside.{outside as node_outside};
ghost use Rattle.rtmfp_words.specs.Node.{IsMeet, IsNodeName, IsServe, Serving};
ghost use Rattle.rtmfp_words.specs.Words.{IsAudit, IsGenerate, IsJournal, IsReplay, IsShow};
ghost use Rattle.rtmfp_cli.specs.Commands.{CommandEnds, Fits, HasRisen, IsRefused, NeedsNoNetwork, NeedsNoSource, NeedsNoSpawner, NodeEnds, ServeEnds, objects, reads_lines, serves, starts_nodes, status_of};
ghost use Rattle.rtmfp_audit.specs.Audits.{AuditEnds};
ghost use Rattle.rtmfp_cli.specs.Doing.{Holds, IsNext, journaling, playing, showing};
ghost use Rattle.rtmfp_meet.specs.Meeting.{MeetEnds, failed_with, sides};
ghost use Rattle.rtmfp_play.specs.Generated.{GeneratedEnds};
ghost use Rattle.rtmfp_lines.specs.Outside.{outside};
ghost use Rattle.rtmfp_cli.specs.Run.{Finishes, PassesOn};
ghost use Rattle.rtmfp_cli.specs.Script.{ScriptEnds};

use crate::doing::Doing;
use crate::script_run::run_script;
use rtmfp_audit::run_audit;
use rtmfp_host::{Entropy, Link, Moments, Sink, Source, Spawner, Wrote};
use rtmfp_lines::Status;
use rtmfp_meet::meet;
use rtmfp_node::{Served, serve};
use rtmfp_play::{Journaling, Playing, generate};
use rtmfp_words::{Command, CommandLine, ServeWords, WordsFault, read_command_line};
use std::alloc::Global;

/// Does what the words of the command line say, over the six objects, and says how it ended (own).
/// The words are those after the program's name. The first event in the order of the run gives the
/// status.
///
/// `show` reads one packet a line in hexadecimal, and writes its text. `replay` reads one step of a
/// script a line, does it, and writes its report. `replay --journal` writes the logs of its ends
/// instead, as `audit` reads them. `replay --generate N --steps K` makes a script of its own, and
/// writes one line that sums it up. `audit` reads the logs of ends, one line each for an end, an
/// event or an entry, and writes whether they agree. `serve` runs a node on the network, and writes
/// its report. `meet` starts three nodes and writes what they wrote.
pub fn run<L: Link, C: Moments, E: Entropy, S: Source, K: Sink, P: Spawner>(
    alloc: Global,
    words: &[String],
    link: &mut L,
    clock: &mut C,
    entropy: &mut E,
    source: &mut S,
    sink: &mut K,
    spawner: &mut P,
) -> Status
    requires { (P.seen spawner.old).status ≡ None }

    // What the words say is done.
    ensures show { IsShow words.now → ScriptEnds showing result
        (outside (S.seen source.old) (K.seen sink.old))
        (outside (S.seen source.new) (K.seen sink.new)) }
    ensures replay { IsReplay words.now → ScriptEnds playing result
        (outside (S.seen source.old) (K.seen sink.old))
        (outside (S.seen source.new) (K.seen sink.new)) }
    ensures journal { IsJournal words.now → ScriptEnds journaling result
        (outside (S.seen source.old) (K.seen sink.old))
        (outside (S.seen source.new) (K.seen sink.new)) }
    ensures generate { (seed steps : ℕ) → IsGenerate words.now seed steps →
        GeneratedEnds seed steps result (K.seen sink.old) (K.seen sink.new) }
    ensures audit { IsAudit words.now → AuditEnds result
        (outside (S.seen source.old) (K.seen sink.old))
        (outside (S.seen source.new) (K.seen sink.new)) }
    ensures serve { (v : Serving) → IsServe words.now v → ServeEnds v result
        (node_outside (L.seen link.old) (C.seen clock.old) (E.seen entropy.old) (K.seen sink.old))
        (node_outside (L.seen link.new) (C.seen clock.new) (E.seen entropy.new) (K.seen sink.new)) }
    ensures meet { (port turns : ℕ) → IsMeet words.now port turns → MeetEnds port turns result
        (sides (P.seen spawner.old) (K.seen sink.old))
        (sides (P.seen spawner.new) (K.seen sink.new)) }

    // Other words are refused, and no others.
    ensures refused { IsFaulty words.now → IsRefused result words.now }
    ensures bad_words { result ≡ Status.BadWords → IsFaulty words.now }

    // A fault is told only where the count of its object has risen, and a child's status exactly
    // where a wait gave one.
    ensures faults { HasRisen result
        (objects (L.seen link.old) (C.seen clock.old) (E.seen entropy.old) (S.seen source.old)
        (K.seen sink.old) (P.seen spawner.old))
        (objects (L.seen link.new) (C.seen clock.new) (E.seen entropy.new) (S.seen source.new)
        (K.seen sink.new) (P.seen spawner.new)) }
    ensures child { (P.seen spawner.new).status ≡ failed_with result }

    // An object that a command doesn't need is as before.
    ensures link { NeedsNoNetwork words.now → link.new ≡ link.old }
    ensures clock { NeedsNoNetwork words.now → clock.new ≡ clock.old }
    ensures entropy { NeedsNoNetwork words.now → entropy.new ≡ entropy.old }
    ensures source { NeedsNoSource words.now → source.new ≡ source.old }
    ensures sink { IsFaulty words.now → sink.new ≡ sink.old }
    ensures spawner { NeedsNoSpawner words.now → spawner.new ≡ spawner.old }
{
    match read_command_line(alloc, words) {
        Ok(line) => run_command(alloc, line, link, clock, entropy, source, sink, spawner),
        Err(WordsFault::Faulty) => Status::BadWords,
        Err(WordsFault::Memory) => Status::Memory,
    }
}

/// Does what a command line says.
fn run_command<L: Link, C: Moments, E: Entropy, S: Source, K: Sink, P: Spawner>(
    alloc: Global,
    line: CommandLine,
    link: &mut L,
    clock: &mut C,
    entropy: &mut E,
    source: &mut S,
    sink: &mut K,
    spawner: &mut P,
) -> Status
    requires none { (P.seen spawner.old).status ≡ None }
    requires fits { Fits line }
    ensures ends { CommandEnds line result
        (objects (L.seen link.old) (C.seen clock.old) (E.seen entropy.old) (S.seen source.old)
        (K.seen sink.old) (P.seen spawner.old))
        (objects (L.seen link.new) (C.seen clock.new) (E.seen entropy.new) (S.seen source.new)
        (K.seen sink.new) (P.seen spawner.new)) }
    ensures link { serves line ≡ false → link.new ≡ link.old }
    ensures clock { serves line ≡ false → clock.new ≡ clock.old }
    ensures entropy { serves line ≡ false → entropy.new ≡ entropy.old }
    ensures source { reads_lines line ≡ false → source.new ≡ source.old }
    ensures spawner { starts_nodes line ≡ false → spawner.new ≡ spawner.old }
{
    match line {
        CommandLine::Lines(Command::Show) => over_lines(alloc, Doing::Showing, source, sink),
        CommandLine::Lines(Command::Replay) => {
            let playing = Playing::new(alloc);
            over_lines(alloc, Doing::Playing(playing), source, sink)
        }
        CommandLine::Lines(Command::Journal) => {
            let journaling = Journaling::new(alloc);
            over_lines(alloc, Doing::Journaling(journaling), source, sink)
        }
        CommandLine::Lines(Command::Generate { seed, steps }) => generate(alloc, seed, steps, sink),
        CommandLine::Lines(Command::Audit) => run_audit(alloc, source, sink),
        CommandLine::Serve(words) => serve_node(alloc, &words, link, clock, entropy, sink),
        CommandLine::Meet(words) => meet(alloc, words, sink, spawner),
    }
}

/// Runs a node.
fn serve_node<L: Link, C: Moments, E: Entropy, K: Sink>(
    alloc: Global,
    words: &ServeWords,
    link: &mut L,
    clock: &mut C,
    entropy: &mut E,
    sink: &mut K,
) -> Status
    requires { IsNodeName words.now.name }
    ensures { NodeEnds words.now result
        (node_outside (L.seen link.old) (C.seen clock.old) (E.seen entropy.old) (K.seen sink.old))
        (node_outside (L.seen link.new) (C.seen clock.new) (E.seen entropy.new) (K.seen sink.new)) }
{
    let served = serve(alloc, words, link, clock, entropy, sink);
    status_of(served)
}

/// The status of a run of a node.
fn status_of(served: Served) -> Status
    ensures { result ≡ status_of served }
{
    match served {
        Served::Done => Status::Done,
        Served::Memory => Status::Memory,
        Served::LinkFault => Status::LinkFault,
        Served::SinkFault => Status::SinkFault,
        Served::EntropyFault => Status::EntropyFault,
    }
}

/// Does the lines of the source.
fn over_lines<S: Source, K: Sink>(
    alloc: Global,
    doing: Doing,
    source: &mut S,
    sink: &mut K,
) -> Status
    requires next { IsNext doing 1 }
    requires holds { Holds doing }
    ensures { ScriptEnds doing result
        (outside (S.seen source.old) (K.seen sink.old))
        (outside (S.seen source.new) (K.seen sink.new)) }
{
    let status = run_script(alloc, doing, source, sink);
    finish(status, sink)
}

/// Passes on what the sink still holds, unless the outside has failed: the text of the lines that
/// were done isn't lost, however the run ended. All was passed on before the source was asked in
/// vain.
fn finish<K: Sink>(status: Status, sink: &mut K) -> Status
    ensures { Finishes status result (K.seen sink.old) (K.seen sink.new) }
{
    match status {
        Status::SinkFault => Status::SinkFault,
        Status::SourceFault => Status::SourceFault,
        other => pass_on(other, sink),
    }
}

/// Passes on what the sink still holds.
fn pass_on<K: Sink>(status: Status, sink: &mut K) -> Status
    ensures { PassesOn status result (K.seen sink.old) (K.seen sink.new) }
{
    match sink.flush() {
        Wrote::Done => status,
        Wrote::Failed => Status::SinkFault,
    }
}
