//! A node, from its first draw to its last turn.
ghost use Rattle.std.specs.Prelude.{◌≡◌, ◌++◌, ℕ, List, [], IfOk, OnOk, length};
ghost use Rattle.endpoint_model.specs.Event.{Setup};
ghost use Rattle.endpoint_model.specs.Log.{StandsFor};
ghost use Rattle.endpoint_model.specs.State.{fresh};
ghost use Rattle.endpoint_laws.specs.Laws.{IsSetup};
ghost use Rattle.rtmfp_host.specs.declared.link.LinkCall.TheVariants.{Bind};
ghost use Rattle.rtmfp_host.specs.Drawing.{EntropySeen};
ghost use Rattle.rtmfp_host.specs.Linking.{Calls, LinkSeen};
ghost use Rattle.rtmfp_words.specs.Node.{IsNodeName};
ghost use Rattle.rtmfp_node.specs.Acting.{Drew, IsFor, IsHead, TurnsEnd, noted_first};
ghost use Rattle.rtmfp_node.specs.Outside.{Counted, PassesOn, outside};
ghost use Rattle.rtmfp_node.specs.Reached.{at_first};
ghost use Rattle.rtmfp_node.specs.Report.{head_text};
ghost use Rattle.rtmfp_node.specs.Turn.{head_of, setup_of};
ghost use Rattle.rtmfp_node.specs.Whole.{Ends};

use crate::draw::{certificate_of, cookie_secret_of, draw};
use crate::notes::Notes;
use crate::served::Served;
use crate::turn::{Node, turn};
use crate::turn_zero::turn_zero;
use endpoint::{Config, Endpoint, Outbox};
use identity::Certificate;
use log_writing::push_head;
use rtmfp_base::Memory;
use rtmfp_host::{Bound, Entropy, Link, Moments, Sink};
use rtmfp_report::GroupSecrets;
use rtmfp_text::{Name, Text};
use rtmfp_words::ServeWords;
use std::alloc::{AllocError, Global};

/// The most peers that a node ever knows (own).
const MAX_PEERS: u32 = 65_536;

/// The most attempts and sessions of a node at a time (own).
const MAX_SESSIONS: u32 = 4_096;

/// The number of the generation of the group's secret with which a node begins (own).
const FIRST_GENERATION: u64 = 0;

/// How many entries an outbox has room for from the beginning. The chunks of a datagram are fewer,
/// so one that is only refused asks for no memory.
const ROOM: u32 = 1_024;

/// Serves a node as the words say (own): draws its secrets, binds, makes its openings, and takes
/// its turns.
///
/// Of the first block that is drawn, bytes 0 to 15 begin its certificate, unless the words do, and
/// bytes 16 to 47 are its cookie secret. In turn 0 it looks at the clock, learns the secret of the
/// next generation, where the words have one, draws a block and opens an attempt for each opening in
/// its order, writes their report, and sends each datagram. A turn is an advance to that
/// generation, where the words have it in this turn, a draw, a look at the clock, a receive of the
/// link until 50 ms later, and a second look; then, at this moment, the end takes the datagram that
/// came, opens a flow and queues the message in each session that it opened, where the words have
/// one, and does what is due; the report is written, and each datagram is sent. One that can't be
/// sent is lost, and a line tells of it.
///
/// Where the words have a label, a journal is written in place of the report: the line of the end
/// with turn 0, and the lines of each event in their order, with that label as the end's name. The
/// lines of lost datagrams begin with `#` then.
///
/// The first event in the order of the run gives the answer. With `Done` all turns were taken. With
/// `LinkFault` the bind or a receive failed, with `EntropyFault` a draw, and the turns before stand
/// whole. With `SinkFault` a write or a flush failed, with `Memory` no memory was found; then the
/// last turn may be there in part.
pub fn serve<L: Link, C: Moments, E: Entropy, K: Sink>(
    alloc: Global,
    words: &ServeWords,
    link: &mut L,
    clock: &mut C,
    entropy: &mut E,
    sink: &mut K,
) -> Served
    requires { IsNodeName words.now.name }
    ensures ends { Ends result words.now
        (outside (L.seen link.old) (C.seen clock.old) (E.seen entropy.old) (K.seen sink.old))
        (outside (L.seen link.new) (C.seen clock.new) (E.seen entropy.new) (K.seen sink.new)) }

    // A fault is answered where the count of its object rose, and no other count rose.
    ensures counted { Counted result
        (outside (L.seen link.old) (C.seen clock.old) (E.seen entropy.old) (K.seen sink.old))
        (outside (L.seen link.new) (C.seen clock.new) (E.seen entropy.new) (K.seen sink.new)) }

    // All that was written was passed on, unless the sink has failed.
    ensures passed { PassesOn result
        (outside (L.seen link.old) (C.seen clock.old) (E.seen entropy.old) (K.seen sink.old))
        (outside (L.seen link.new) (C.seen clock.new) (E.seen entropy.new) (K.seen sink.new)) }
{
    let Some(block) = draw(entropy) else {
        return Served::EntropyFault;
    };
    match link.bind(&words.bind) {
        Bound::Failed => return Served::LinkFault,
        Bound::Done => {}
    }
    let Ok(node) = node_of(alloc, words, &block) else {
        return Served::Memory;
    };
    serve_node(words, node, link, clock, entropy, sink)
}

/// Takes turn 0 and the turns after it with a node that was begun by a block, after its draw and
/// the bind, and lets the node go.
fn serve_node<L: Link, C: Moments, E: Entropy, K: Sink>(
    words: &ServeWords,
    mut node: Node,
    link: &mut L,
    clock: &mut C,
    entropy: &mut E,
    sink: &mut K,
) -> Served
    requires words { IsFor words.now node.notes }
    requires none { node.notes.far ≡ at_first }
    ensures ends { (block : List ℕ) (before : LinkSeen) (blocks : EntropySeen) →
        IsSetup (setup_of words.now block) → StandsFor (setup_of words.now block) [] node.end →
        node.end ≡ fresh (setup_of words.now block) →
        node.notes.text ≡ head_of words.now block →
        Drew blocks.blocks (E.seen entropy.old).blocks block →
        Calls before.line (L.seen link.old).line (Bind words.now.bind) →
        Ends result words.now (outside before (C.seen clock.old) blocks (K.seen sink.old))
        (outside (L.seen link.new) (C.seen clock.new) (E.seen entropy.new) (K.seen sink.new)) }
    ensures counted { Counted result
        (outside (L.seen link.old) (C.seen clock.old) (E.seen entropy.old) (K.seen sink.old))
        (outside (L.seen link.new) (C.seen clock.new) (E.seen entropy.new) (K.seen sink.new)) }
    ensures passed { PassesOn result
        (outside (L.seen link.old) (C.seen clock.old) (E.seen entropy.old) (K.seen sink.old))
        (outside (L.seen link.new) (C.seen clock.new) (E.seen entropy.new) (K.seen sink.new)) }
{
    take_all(words, &mut node, link, clock, entropy, sink)
}

/// Takes turn 0 and the turns after it with a node that was begun by a block, after its draw and
/// the bind.
fn take_all<L: Link, C: Moments, E: Entropy, K: Sink>(
    words: &ServeWords,
    node: &mut Node,
    link: &mut L,
    clock: &mut C,
    entropy: &mut E,
    sink: &mut K,
) -> Served
    requires words { IsFor words.now node.old.notes }
    requires none { node.old.notes.far ≡ at_first }
    ensures ends { (block : List ℕ) (before : LinkSeen) (blocks : EntropySeen) →
        IsSetup (setup_of words.now block) → StandsFor (setup_of words.now block) [] node.old.end →
        node.old.end ≡ fresh (setup_of words.now block) →
        node.old.notes.text ≡ head_of words.now block →
        Drew blocks.blocks (E.seen entropy.old).blocks block →
        Calls before.line (L.seen link.old).line (Bind words.now.bind) →
        Ends result words.now (outside before (C.seen clock.old) blocks (K.seen sink.old))
        (outside (L.seen link.new) (C.seen clock.new) (E.seen entropy.new) (K.seen sink.new)) }
    ensures counted { Counted result
        (outside (L.seen link.old) (C.seen clock.old) (E.seen entropy.old) (K.seen sink.old))
        (outside (L.seen link.new) (C.seen clock.new) (E.seen entropy.new) (K.seen sink.new)) }
    ensures passed { PassesOn result
        (outside (L.seen link.old) (C.seen clock.old) (E.seen entropy.old) (K.seen sink.old))
        (outside (L.seen link.new) (C.seen clock.new) (E.seen entropy.new) (K.seen sink.new)) }
{
    let served = turn_zero(words, node, link, clock, entropy, sink);
    if !served.is_done() {
        return served;
    }
    take_turns(words, node, link, clock, entropy, sink)
}

/// A node that has done nothing yet, by the words and the first block.
fn node_of(alloc: Global, words: &ServeWords, block: &[u8; 64]) -> Result<Node, Memory>
    requires { IsNodeName words.now.name }
    ensures stands { IfOk result (λ node. StandsFor (setup_of words.now block.now) [] node.end) }
    ensures fresh { IfOk result (λ node. node.end ≡ fresh (setup_of words.now block.now)) }
    ensures sized { IfOk result (λ node. IsSetup (setup_of words.now block.now)) }
    ensures notes { IfOk result (λ node. node.notes
        ≡ noted_first words.now at_first (head_of words.now block.now)) }
{
    let early = Outbox::new(alloc, 1)?;
    let heard = Outbox::new(alloc, ROOM)?;
    let out = Outbox::new(alloc, ROOM)?;
    let config = Config {
        max_peers: MAX_PEERS,
        max_sessions: MAX_SESSIONS,
        introduces: words.introduce,
    };
    let certificate = certificate_of(alloc, &words.instance, words.name.bytes(), block)?;
    let secret = secret_of(&words.group);
    let cookie_secret = cookie_secret_of(block);
    let mut head = Text::new(alloc);
    push_head_of(
        &words.journal,
        &config,
        &secret,
        &cookie_secret,
        &certificate,
        &mut head,
    )?;
    Ok(Node {
        end: Endpoint::new(
            alloc,
            config,
            certificate,
            FIRST_GENERATION,
            secret,
            cookie_secret,
        ),
        early,
        heard,
        out,
        notes: Notes::new(
            alloc,
            GroupSecrets::Given {
                first: secret,
                next: words.next,
            },
            label_of(&words.journal),
            head,
        ),
        lost: Text::new(alloc),
    })
}

/// Adds what stands in front of all that is written: in a journal the line of the end.
fn push_head_of(
    label: &Option<Name>,
    config: &Config,
    secret: &[u8; 32],
    cookie_secret: &[u8; 32],
    certificate: &Certificate,
    text: &mut Text,
) -> Result<(), AllocError>
    ensures { OnOk result ((setup : Setup) → IsHead config.now secret.now cookie_secret.now
        certificate.now setup → text.new ≡ text.old ++ head_text label.now setup) }
{
    match label {
        None => Ok(()),
        Some(label) => push_head(
            label,
            config.max_peers,
            config.max_sessions,
            FIRST_GENERATION,
            secret,
            cookie_secret,
            certificate,
            text,
        ),
    }
}

/// The label again.
fn label_of(label: &Option<Name>) -> Option<Name>
    ensures { result ≡ label.now }
{
    match label {
        None => None,
        Some(label) => Some(label.again()),
    }
}

/// The secret of the group.
fn secret_of(group: &[u8; 32]) -> [u8; 32]
    ensures value { result ≡ group.now }
    ensures long { length result ≡ 32 }
{
    *group
}

/// Takes the turns.
fn take_turns<L: Link, C: Moments, E: Entropy, K: Sink>(
    words: &ServeWords,
    node: &mut Node,
    link: &mut L,
    clock: &mut C,
    entropy: &mut E,
    sink: &mut K,
) -> Served
    requires { IsFor words.now node.old.notes }
    ensures ends { TurnsEnd result words.now node.old.notes.far node.old.end node.new.end
        node.new.notes.far
        (outside (L.seen link.old) (C.seen clock.old) (E.seen entropy.old) (K.seen sink.old))
        (outside (L.seen link.new) (C.seen clock.new) (E.seen entropy.new) (K.seen sink.new)) }
    ensures counted { Counted result
        (outside (L.seen link.old) (C.seen clock.old) (E.seen entropy.old) (K.seen sink.old))
        (outside (L.seen link.new) (C.seen clock.new) (E.seen entropy.new) (K.seen sink.new)) }
    ensures passed { PassesOn result
        (outside (L.seen link.old) (C.seen clock.old) (E.seen entropy.old) (K.seen sink.old))
        (outside (L.seen link.new) (C.seen clock.new) (E.seen entropy.new) (K.seen sink.new)) }
{
    let mut buf = [0; 2048];
    for before in 0..words.turns {
        let served = turn(
            words,
            before + 1,
            node,
            &mut buf,
            link,
            clock,
            entropy,
            sink,
        );
        if !served.is_done() {
            return served;
        }
    }
    Served::Done
}
