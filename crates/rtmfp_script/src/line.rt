//! What a line of a script says.
ghost use Rattle.std.specs.Prelude.{◌≡◌, ◌≤◌, ◌<◌, ◌++◌, ◌∷◌, [], length};

use crate::content::Content;
use identity::{Certificate, ServiceName};
use rtmfp_base::Message;
use rtmfp_forms::Address;
use rtmfp_text::Name;
use std::marker::Model;
use translators::Rule;

/// The most addresses of an `open` and of a `seek` (own).
pub(crate) const MOST_CANDIDATES: usize = 32;

/// At most 32 addresses, in the order of the line.
#[derive(Drop)]
pub struct Candidates {
    kept: [Address; MOST_CANDIDATES],
    count: usize,
}

impl Model for Candidates {
    ghost use Rattle.std.specs.Prelude.{◌≤◌, List, take};
    ghost use Rattle.rtmfp_forms.specs.Address.{AddressParts};

    ghost Value = { List AddressParts };

    ghost view = { λ p. take p.count p.kept };

    ghost invariant = { λ p. p.count ≤ 32 };
}

impl Candidates {
    /// No address.
    pub(crate) fn new() -> Candidates
        ensures { result ≡ [] }
    {
        Candidates {
            kept: [Address::v4([0; 4], 0); MOST_CANDIDATES],
            count: 0,
        }
    }

    /// Adds an address behind the others.
    pub(crate) fn push(&mut self, address: Address)
        requires { length self.old < 32 }
        ensures { self.new ≡ self.old ++ address ∷ [] }
    {
        self.kept[self.count] = address;
        self.count += 1;
    }

    /// The addresses.
    pub fn as_slice(&self) -> &[Address]
        ensures same { result.now ≡ self.now }
        ensures few { length self.now ≤ 32 }
    {
        let (front, _) = self.kept.split_at(self.count);
        front
    }
}

/// What an end is called to do by a line that names no other end (own form).
#[derive(Drop)]
pub enum CallLine {
    /// `introduce NAME`: it introduces others to each other from now on.
    Introduce,
    /// `narrow NAME N`: longer packets of its sessions go out in pieces from now on.
    Narrow {
        /// The most bytes of a plain packet that goes out whole.
        limit: u16,
    },
    /// `seek NAME HEX ADDR ...`: it searches for an end of this service.
    Seek {
        /// The service's name.
        service: ServiceName,
        /// Where such an end may be.
        addresses: Candidates,
    },
    /// `cancel NAME N`: it gives an attempt up.
    Cancel {
        /// The number of the attempt.
        number: u64,
    },
    /// `unseek NAME ID`: it gives a search up.
    Unseek {
        /// The search's ID at this end.
        near: u32,
    },
    /// `close NAME ID`: it closes a session.
    Close {
        /// The session's ID at this end.
        near: u32,
    },
    /// `flow NAME ID PRIORITY META` or `flow NAME ID PRIORITY META ANSWERS`: it opens a flow.
    Flow {
        /// The session's ID at this end.
        near: u32,
        /// The flow's priority.
        priority: u8,
        /// The flow's metadata.
        metadata: Message,
        /// The ID of the flow that it answers.
        answers: Option<u64>,
    },
    /// `queue NAME ID FLOW DEADLINE RESENDS BYTES`: it queues a message in a flow.
    Queue {
        /// The session's ID at this end.
        near: u32,
        /// The flow's ID.
        flow: u64,
        /// The moment after which the message is abandoned.
        deadline: Option<u64>,
        /// How often a lost fragment of it is sent again at most.
        resends: Option<u32>,
        /// The message.
        content: Content,
    },
    /// `abandon NAME ID FLOW SEQ`: it gives a message up.
    Abandon {
        /// The session's ID at this end.
        near: u32,
        /// The flow's ID.
        flow: u64,
        /// The number of the message's first fragment.
        seq: u64,
    },
    /// `finish NAME ID FLOW`: it finishes a flow.
    Finish {
        /// The session's ID at this end.
        near: u32,
        /// The flow's ID.
        flow: u64,
    },
    /// `learn NAME`: it learns the secret of the group's next generation.
    Learn,
    /// `advance NAME`: it goes over to the next generation.
    Advance,
    /// `tick NAME`: it does what is due.
    Tick,
}

/// What an end does towards a peer, with addresses.
#[derive(Clone, Copy, Drop)]
pub enum AimLine {
    /// `redirect NAME PEER ADDR ...`: it answers hellos for the peer with these, 1 to 16.
    Redirect,
    /// `open NAME PEER ADDR ...`: it opens towards the peer, and tries these.
    Open,
}

/// What is brought to an end.
#[derive(Drop)]
pub enum BringLine {
    /// `deliver D NAME ADDR`: a datagram that was sent.
    Deliver {
        /// Which of the datagrams of the run, counted from 1.
        number: u64,
    },
    /// `bent D PLACE NAME ADDR`: the same with the lowest bit of one byte turned.
    Bent {
        /// Which of the datagrams of the run, counted from 1.
        number: u64,
        /// The place of the byte, counted from 0.
        place: u64,
    },
    /// `inject NAME ADDR HEX`: these bytes.
    Inject {
        /// At most 2,048 bytes.
        bytes: Message,
    },
    /// `forge NAME ADDR HEX`: this plain packet, sealed in the end's current startup context.
    Forge {
        /// At most 1,164 bytes.
        bytes: Message,
    },
}

/// What a line of a script says: one step (own form). Addresses have origin 0.
#[derive(Drop)]
pub enum ScriptLine {
    /// `end NAME P S CERT`: a new end.
    End {
        /// What the script calls it.
        name: Name,
        /// The most peers that it keeps.
        peers: u32,
        /// The most sessions that it keeps.
        sessions: u32,
        /// Its certificate.
        cert: Certificate,
    },
    /// `at MS`: the moment of all ends from now on, in milliseconds.
    At {
        /// The moment.
        moment: u64,
    },
    /// An end is called.
    Call {
        /// The end.
        name: Name,
        /// What it does.
        call: CallLine,
    },
    /// An end is called towards a peer.
    Towards {
        /// The end.
        name: Name,
        /// The end that is sought.
        peer: Name,
        /// Where it may be.
        addresses: Candidates,
        /// What the end does.
        aim: AimLine,
    },
    /// A datagram reaches an end.
    Bring {
        /// The end.
        name: Name,
        /// Where it comes from.
        from: Address,
        /// Which.
        what: BringLine,
    },
    /// `translator T MAPPING FILTER HOST FIRST`: a new translator of addresses.
    Translator {
        /// What the script calls it.
        name: Name,
        /// For what it makes a mapping.
        mapping: Rule,
        /// Whom it lets in.
        filter: Rule,
        /// Its public host.
        host: [u8; 4],
        /// The first of its ports, which may be 0 in the grammar alone.
        first: u16,
    },
    /// `place NAME ADDR` or `place NAME ADDR T`: where an end is from now on.
    Place {
        /// The end.
        name: Name,
        /// Its address there.
        at: Address,
        /// The translator that it is behind.
        behind: Option<Name>,
    },
    /// `carry D`: a datagram that was sent goes from its sender's place to where it was sent to.
    Carry {
        /// Which of the datagrams of the run, counted from 1.
        number: u64,
    },
}

/// What is said of a line.
#[derive(Drop)]
pub enum Said {
    /// Nothing: it is empty or a comment.
    Nothing,
    /// A step.
    Step(ScriptLine),
    /// It is outside the grammar.
    Outside,
}
