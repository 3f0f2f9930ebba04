//! The steps of a script, what each does, and why one is refused.

ghost use Rattle.std.specs.Prelude.{◌≡◌, IfOk};
ghost use Rattle.rendezvous_world.specs.Deed.{Seeks, deed_of, learns, narrows_beyond};
ghost use Rattle.rendezvous_world.specs.Entering.{IsDeed, IsMadeBy, peer_by};

use endpoint::{EndCall, MessageOptions};
use identity::{Certificate, ServiceName};
use rtmfp_base::limits::PLAIN;
use rtmfp_base::{Memory, Message};
use rtmfp_forms::Address;
use rtmfp_text::Name;
use std::alloc::Global;
use std::marker::Model;
use thiserror::Error;

/// The least limit that an end may be narrowed to, in plain bytes.
const LEAST_LIMIT: u16 = 96;

/// Addresses, seen by contracts as their list.
#[derive(Drop)]
pub struct Addresses {
    addresses: Vec<Address>,
}

impl Model for Addresses {
    ghost use Rattle.std.specs.Prelude.{List};
    ghost use Rattle.rtmfp_forms.specs.Address.{AddressParts};

    ghost Value = { List AddressParts };

    ghost view = { λ p. p.addresses.items };
}

impl Addresses {
    /// The list of addresses that are there. It takes no memory.
    pub fn of(addresses: Vec<Address>) -> Addresses
        ensures { result ≡ addresses.items }
    {
        Addresses { addresses }
    }

    /// The addresses, in their order.
    pub fn as_slice(&self) -> &[Address]
        ensures { result.now ≡ self.now }
    {
        self.addresses.as_slice()
    }

    /// The same addresses again.
    pub(crate) fn copy(&self, alloc: Global) -> Result<Addresses, Memory>
        ensures { IfOk result (λ list. list ≡ self.now) }
    {
        Ok(Addresses {
            addresses: Vec::from_slice(alloc, self.as_slice())?,
        })
    }
}

/// One step of a run. An end is named by its number, in the order in which the ends came, from 0.
#[derive(Drop)]
pub enum Step {
    /// A new end with these limits.
    End {
        name: Name,
        /// The most peers that it ever knows.
        max_peers: u32,
        /// The most attempts and sessions that it has at a time.
        max_sessions: u32,
        cert: Certificate,
    },
    /// The moment of all ends from now on, in milliseconds.
    At {
        moment: u64,
    },
    /// An end opens an attempt towards another, with these candidate addresses.
    Open {
        end: usize,
        peer: usize,
        list: Addresses,
    },
    /// An end searches for one with this name, with these candidate addresses.
    Seek {
        end: usize,
        name: ServiceName,
        list: Addresses,
    },
    /// An end gives up its search with this session ID.
    Unseek {
        end: usize,
        near: u32,
    },
    /// An end gives up its attempt with this number.
    Cancel {
        end: usize,
        n: u64,
    },
    /// An end closes the session with this session ID at it.
    Close {
        end: usize,
        near: u32,
    },
    /// An end opens a flow in the session with this session ID at it.
    Flow {
        end: usize,
        near: u32,
        priority: u8,
        metadata: Message,
        /// The flow of the other end that it answers.
        answers: Option<u64>,
    },
    /// An end queues a message in a flow.
    Queue {
        end: usize,
        near: u32,
        flow: u64,
        options: MessageOptions,
        message: Message,
    },
    /// An end abandons a message of a flow, whose first fragment has this number.
    Abandon {
        end: usize,
        near: u32,
        flow: u64,
        seq: u64,
    },
    /// An end finishes a flow.
    Finish {
        end: usize,
        near: u32,
        flow: u64,
    },
    /// An end introduces others to each other from now on.
    Introduce {
        end: usize,
    },
    /// Packets of an end's sessions that have more than so many plain bytes, 96 to 1,164, go out in
    /// pieces from now on.
    Narrow {
        end: usize,
        limit: u16,
    },
    /// An end answers hellos for another with these addresses.
    Redirect {
        end: usize,
        peer: usize,
        list: Addresses,
    },
    /// An end learns the secret of the generation after its current one.
    Learn {
        end: usize,
    },
    /// An end goes over to the next generation of the group's secret.
    Advance {
        end: usize,
    },
    /// The datagram that was sent as this one, counted from 1, reaches an end from an address.
    Deliver {
        number: u64,
        end: usize,
        from: Address,
    },
    /// The same, with the lowest bit of the byte at this place turned.
    Bent {
        number: u64,
        place: usize,
        end: usize,
        from: Address,
    },
    /// These bytes, at most 2,048, reach an end.
    Inject {
        end: usize,
        from: Address,
        bytes: Message,
    },
    /// This plain packet of at most 1,164 bytes reaches an end, sealed for startup in the end's
    /// current generation under session ID 0 by somebody who numbers it with 16 bytes 0xff.
    Forge {
        end: usize,
        from: Address,
        plain: Message,
    },
    /// An end does what is due.
    Tick {
        end: usize,
    },
}

/// How a datagram is had that a step brings.
#[derive(Drop)]
pub(crate) enum Source<'a> {
    /// It was sent as this one, counted from 1.
    Delivered(u64),
    /// It was, and the lowest bit of the byte at this place is turned.
    Turned(u64, usize),
    /// It is these bytes.
    Injected(&'a Message),
    /// It is this plain packet, sealed by somebody who is no end.
    Sealed(&'a Message),
}

/// The call that a step makes. An open and a row name another end by its number.
#[derive(Drop)]
pub(crate) enum DeedCall<'a> {
    Open(usize, &'a Addresses),
    AddRow(usize, &'a Addresses),
    Learn,
    /// A call that names no other end.
    Plain(EndCall<'a>),
}

impl DeedCall<'_> {
    /// The number of the other end, if the call names one.
    pub(crate) fn peer(&self) -> Option<usize>
        ensures { result ≡ peer_by self.now }
    {
        match self {
            DeedCall::Open(peer, _) => Some(*peer),
            DeedCall::AddRow(peer, _) => Some(*peer),
            DeedCall::Learn => None,
            DeedCall::Plain(_) => None,
        }
    }
}

/// What a step does.
#[derive(Drop)]
pub(crate) enum Deed<'a> {
    NewEnd {
        name: &'a Name,
        max_peers: u32,
        max_sessions: u32,
        cert: &'a Certificate,
    },
    NewMoment(u64),
    /// The end with this number makes a call.
    Call(usize, DeedCall<'a>),
    /// A datagram reaches the end with this number from an address.
    Bring(usize, &'a Address, Source<'a>),
}

/// A search for an end with this name.
fn seek<'a>(name: &'a ServiceName, list: &'a Addresses) -> DeedCall<'a>
    ensures { IsMadeBy result (Seeks name.now list.now) }
{
    // Read for the prover alone, which finds here what a name keeps.
    let _bytes = name.bytes();
    let candidates = list.as_slice();
    DeedCall::Plain(EndCall::Seek { name, candidates })
}

impl Step {
    /// The same step again.
    pub(crate) fn again(&self, alloc: Global) -> Result<Step, Memory>
        ensures { IfOk result (λ step. step ≡ self.now) }
    {
        Ok(match self {
            Step::End {
                name,
                max_peers,
                max_sessions,
                cert,
            } => Step::End {
                name: name.again(),
                max_peers: *max_peers,
                max_sessions: *max_sessions,
                cert: *cert,
            },
            Step::At { moment } => Step::At { moment: *moment },
            Step::Open { end, peer, list } => Step::Open {
                end: *end,
                peer: *peer,
                list: list.copy(alloc)?,
            },
            Step::Seek { end, name, list } => Step::Seek {
                end: *end,
                name: *name,
                list: list.copy(alloc)?,
            },
            Step::Unseek { end, near } => Step::Unseek {
                end: *end,
                near: *near,
            },
            Step::Cancel { end, n } => Step::Cancel { end: *end, n: *n },
            Step::Close { end, near } => Step::Close {
                end: *end,
                near: *near,
            },
            Step::Flow {
                end,
                near,
                priority,
                metadata,
                answers,
            } => Step::Flow {
                end: *end,
                near: *near,
                priority: *priority,
                metadata: Message::copy_of(alloc, metadata.bytes())?,
                answers: *answers,
            },
            Step::Queue {
                end,
                near,
                flow,
                options,
                message,
            } => Step::Queue {
                end: *end,
                near: *near,
                flow: *flow,
                options: *options,
                message: Message::copy_of(alloc, message.bytes())?,
            },
            Step::Abandon {
                end,
                near,
                flow,
                seq,
            } => Step::Abandon {
                end: *end,
                near: *near,
                flow: *flow,
                seq: *seq,
            },
            Step::Finish { end, near, flow } => Step::Finish {
                end: *end,
                near: *near,
                flow: *flow,
            },
            Step::Introduce { end } => Step::Introduce { end: *end },
            Step::Narrow { end, limit } => Step::Narrow {
                end: *end,
                limit: *limit,
            },
            Step::Redirect { end, peer, list } => Step::Redirect {
                end: *end,
                peer: *peer,
                list: list.copy(alloc)?,
            },
            Step::Learn { end } => Step::Learn { end: *end },
            Step::Advance { end } => Step::Advance { end: *end },
            Step::Deliver { number, end, from } => Step::Deliver {
                number: *number,
                end: *end,
                from: *from,
            },
            Step::Bent {
                number,
                place,
                end,
                from,
            } => Step::Bent {
                number: *number,
                place: *place,
                end: *end,
                from: *from,
            },
            Step::Inject { end, from, bytes } => Step::Inject {
                end: *end,
                from: *from,
                bytes: Message::copy_of(alloc, bytes.bytes())?,
            },
            Step::Forge { end, from, plain } => Step::Forge {
                end: *end,
                from: *from,
                plain: Message::copy_of(alloc, plain.bytes())?,
            },
            Step::Tick { end } => Step::Tick { end: *end },
        })
    }

    /// Whether an end learns a secret.
    pub(crate) fn learns(&self) -> bool
        ensures { result ≡ learns (deed_of self.now) }
    {
        matches!(self, Step::Learn { .. })
    }

    /// Whether an end is to be narrowed to a limit that it can't have.
    pub(crate) fn narrows_beyond(&self) -> bool
        ensures { result ≡ narrows_beyond (deed_of self.now) }
    {
        match self {
            Step::Narrow { limit, .. } => *limit < LEAST_LIMIT || usize::from(*limit) > PLAIN,
            _ => false,
        }
    }

    /// What the step does. Steps are told apart here; what else is done with them goes by their
    /// deeds, but that a line of the journal keeps the step.
    pub(crate) fn deed(&self) -> Deed<'_>
        ensures { IsDeed self.now result }
    {
        match self {
            Step::End {
                name,
                max_peers,
                max_sessions,
                cert,
            } => Deed::NewEnd {
                name,
                max_peers: *max_peers,
                max_sessions: *max_sessions,
                cert,
            },
            Step::At { moment } => Deed::NewMoment(*moment),
            Step::Open { end, peer, list } => Deed::Call(*end, DeedCall::Open(*peer, list)),
            Step::Seek { end, name, list } => Deed::Call(*end, seek(name, list)),
            Step::Unseek { end, near } => Deed::Call(
                *end,
                DeedCall::Plain(EndCall::Unseek { near: *near }),
            ),
            Step::Cancel { end, n } => Deed::Call(*end, DeedCall::Plain(EndCall::Cancel { n: *n })),
            Step::Close { end, near } => Deed::Call(
                *end,
                DeedCall::Plain(EndCall::Close { near: *near }),
            ),
            Step::Flow {
                end,
                near,
                priority,
                metadata,
                answers,
            } => Deed::Call(
                *end,
                DeedCall::Plain(EndCall::OpenFlow {
                    near: *near,
                    priority: *priority,
                    metadata: metadata.bytes(),
                    answers: *answers,
                }),
            ),
            Step::Queue {
                end,
                near,
                flow,
                options,
                message,
            } => Deed::Call(
                *end,
                DeedCall::Plain(EndCall::Queue {
                    near: *near,
                    flow: *flow,
                    message: message.bytes(),
                    options: *options,
                }),
            ),
            Step::Abandon {
                end,
                near,
                flow,
                seq,
            } => Deed::Call(
                *end,
                DeedCall::Plain(EndCall::Abandon {
                    near: *near,
                    flow: *flow,
                    seq: *seq,
                }),
            ),
            Step::Finish { end, near, flow } => Deed::Call(
                *end,
                DeedCall::Plain(EndCall::Finish {
                    near: *near,
                    flow: *flow,
                }),
            ),
            Step::Introduce { end } => Deed::Call(*end, DeedCall::Plain(EndCall::Introduce)),
            Step::Narrow { end, limit } => {
                Deed::Call(*end, DeedCall::Plain(EndCall::Narrow(*limit)))
            }
            Step::Redirect { end, peer, list } => Deed::Call(*end, DeedCall::AddRow(*peer, list)),
            Step::Learn { end } => Deed::Call(*end, DeedCall::Learn),
            Step::Advance { end } => Deed::Call(*end, DeedCall::Plain(EndCall::Advance)),
            Step::Deliver { number, end, from } => {
                Deed::Bring(*end, from, Source::Delivered(*number))
            }
            Step::Bent {
                number,
                place,
                end,
                from,
            } => Deed::Bring(*end, from, Source::Turned(*number, *place)),
            Step::Inject { end, from, bytes } => Deed::Bring(*end, from, Source::Injected(bytes)),
            Step::Forge { end, from, plain } => Deed::Bring(*end, from, Source::Sealed(plain)),
            Step::Tick { end } => Deed::Call(*end, DeedCall::Plain(EndCall::Tick)),
        }
    }
}

/// Why a step is refused. Where several causes stand, the answer is the first of them in this
/// order.
#[derive(Clone, Copy, Debug, PartialEq, Eq, Error)]
pub enum StepFault {
    /// An end that the step names isn't there.
    #[error("no such end")]
    NoEnd,
    /// The datagram, or the place in it, isn't there.
    #[error("no such datagram")]
    NoDatagram,
    /// The step is outside its limits, or the moment goes back, or the name or the fingerprint of
    /// an end is there already.
    #[error("bad step")]
    BadStep,
    /// The datagram opens at the end that it reaches, and no earlier sent datagram has its bytes
    /// and the context in which it opens.
    #[error("forged datagram")]
    Forged,
    #[error("out of memory")]
    Memory,
}
