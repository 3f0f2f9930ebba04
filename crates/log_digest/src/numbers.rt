//! The numbers of packets that an end sealed, in each context.

ghost use Rattle.std.specs.Prelude.{◌≡◌, ℕ, OnOk, OnErr};
ghost use Rattle.endpoint_laws.specs.Past.{Past, nothing_done, with_entry};
ghost use Rattle.log_digest.specs.Numbers.{has_stamp, stamp_of, number_in, AreNumbersOf, HasNumber, IsStamped};

use crypto_profile::Context;
use endpoint_model::Entry;
use rtmfp_base::Memory;
use std::alloc::Global;
use std::collections::HashSet;
use std::marker::Model;

/// A context and a number, as the key of a set. What a startup context hasn't is 0.
#[derive(Clone, Copy, PartialEq, Eq, Hash)]
pub(crate) struct Stamp {
    number: [u8; 16],
    ni: [u8; 16],
    nr: [u8; 16],
    fp_i: [u8; 32],
    fp_r: [u8; 32],
    generation: u64,
    sid_i: u32,
    sid_r: u32,
    session: bool,
    to_responder: bool,
}

impl Stamp {
    fn of(context: &Context, number: &[u8; 16]) -> Stamp
        ensures { result ≡ stamp_of context.now number.now }
    {
        match context {
            Context::Startup { generation } => Stamp {
                number: *number,
                ni: [0; 16],
                nr: [0; 16],
                fp_i: [0; 32],
                fp_r: [0; 32],
                generation: *generation,
                sid_i: 0,
                sid_r: 0,
                session: false,
                to_responder: false,
            },
            Context::Session {
                generation,
                ni,
                nr,
                fp_i,
                fp_r,
                sid_i,
                sid_r,
                to_responder,
            } => Stamp {
                number: *number,
                ni: *ni,
                nr: *nr,
                fp_i: *fp_i,
                fp_r: *fp_r,
                generation: *generation,
                sid_i: *sid_i,
                sid_r: *sid_r,
                session: true,
                to_responder: *to_responder,
            },
        }
    }
}

/// The number of the packet in a datagram; None where it is shorter than one.
fn number_in(datagram: &[u8]) -> Option<[u8; 16]>
    ensures { result ≡ number_in datagram.now }
{
    if datagram.len() < 36 {
        return None;
    }
    let mut number = [0; 16];
    number.copy_from_slice(&datagram[20..36]);
    Some(number)
}

/// The numbers of the packets that an end sealed, in each context (own). Whether one was used is
/// one look at a set.
///
/// Contracts see each context with a number, in no order.
#[derive(Drop)]
pub struct Numbers {
    set: HashSet<Stamp>,
}

impl Model for Numbers {
    ghost use Rattle.std.specs.Prelude.{List};
    ghost use Rattle.log_digest.specs.declared.numbers.Stamp.{Stamp};

    ghost Value = { List Stamp };

    ghost view = { λ n. n.set.keys };
}

impl Numbers {
    /// None. It takes no memory.
    pub fn new(alloc: Global) -> Numbers
        ensures { AreNumbersOf nothing_done result }
    {
        Numbers {
            set: HashSet::new(alloc),
        }
    }

    /// Whether a packet went out in this context with this number.
    pub fn has(&self, context: &Context, number: &[u8; 16]) -> bool
        ensures { result ≡ has_stamp self.now (stamp_of context.now number.now) }
    {
        self.set.contains(&Stamp::of(context, number))
    }

    /// Adds a context with a number.
    fn put(&mut self, stamp: Stamp) -> Result<(), Memory>
        ensures more { OnOk result (IsStamped stamp self.old self.new) }
        ensures err { OnErr result (self.new ≡ self.old) }
    {
        let Ok(_) = self.set.insert(stamp) else {
            return Err(Memory);
        };
        Ok(())
    }

    /// Adds what went out by an entry. A datagram that is shorter than a packet has no number.
    pub fn add(&mut self, entry: &Entry) -> Result<(), Memory>
        ensures log { (moment : ℕ) (past : Past) → AreNumbersOf past self.old →
            HasNumber entry.now →
            OnOk result (AreNumbersOf (with_entry moment entry.now past) self.new) }
        ensures err { OnErr result (self.new ≡ self.old) }
    {
        match entry {
            Entry::Out {
                datagram,
                context,
                ..
            } => match number_in(datagram.bytes()) {
                Some(number) => {
                    self.put(Stamp::of(context, &number))?;
                    Ok(())
                }
                None => Ok(()),
            },
            _ => Ok(()),
        }
    }
}
