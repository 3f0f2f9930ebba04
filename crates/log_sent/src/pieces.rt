//! Datagrams in their contexts, as a set.

ghost use Rattle.std.specs.Prelude.{◌≡◌, ◌<◌, ◌≤◌, ◌+◌, [], OnOk, OnErr};
ghost use Rattle.endpoint_laws.specs.Complete.{outs_in};
ghost use Rattle.log_sent.specs.Pieces.{has_sealed, AreTheSame, HasOneMore};
ghost use Rattle.log_sent.specs.Sent.{HasWhatGoesOut};

use crate::piece::Piece;
use crypto_profile::Context;
use endpoint_model::Entry;
use rtmfp_base::Memory;
use std::alloc::Global;
use std::collections::HashSet;
use std::hash::{BuildHasherDefault, DefaultHasher};
use std::marker::Model;

/// Datagrams in their contexts, where logs keep them: none is copied. Whether one is among them is
/// one look.
///
/// Who makes logs chooses the bytes. So they are hashed by SipHash, where finding many of one hash
/// costs as much as they then cost here, and not by the quicker hash that is usual.
///
/// Contracts see each of them, in no order.
#[derive(Drop)]
pub(crate) struct Pieces<'a> {
    set: HashSet<Piece<'a>, BuildHasherDefault<DefaultHasher>>,
}

impl<'a> Model for Pieces<'a> {
    ghost use Rattle.std.specs.Prelude.{map};
    ghost use Rattle.std.specs.HashSet.{spare};
    ghost use Rattle.crypto_profile.specs.contracts.keys.Context as context_type;
    ghost use Rattle.log_sent.specs.Pieces.{SealedSet, sealed_set_code};
    ghost use Rattle.log_sent.specs.Piece.{sealed_of};

    ghost Value = { SealedSet };

    ghost coded = { sealed_set_code context_type.the_row.coded };

    ghost view = { λ p. record { each = map sealed_of p.set.keys; spare = spare p.set } };
}

/// How many of the entries send something.
fn count_out(entries: &[Entry]) -> usize
    ensures { result ≡ outs_in entries.now }
{
    let mut count = 0;
    let mut rest = entries;
    while let [entry, more @ ..] = rest {
        rest = more;
        let Entry::Out { .. } = entry else {
            continue;
        };
        count += 1;
    }
    count
}

impl<'a> Pieces<'a> {
    /// None. It takes no memory.
    pub(crate) fn new(alloc: Global) -> Pieces<'a>
        ensures { result.each ≡ [] }
    {
        Pieces {
            set: HashSet::with_hasher(alloc, BuildHasherDefault::new()),
        }
    }

    /// Whether a datagram in a context is among them.
    pub(crate) fn has(&self, datagram: &[u8], context: &Context) -> bool
        ensures { result ≡ has_sealed self.now.each
            (record { datagram = datagram.now; context = context.now }) }
    {
        self.set.contains(&Piece { datagram, context })
    }

    /// Finds memory for so many more.
    fn reserve(&mut self, count: usize) -> Result<(), Memory>
        ensures ok { OnOk result (count ≤ self.new.spare) }
        ensures same { AreTheSame self.old.each self.new.each }
        ensures err { OnErr result (self.new.each ≡ self.old.each) }
    {
        match self.set.try_reserve(count) {
            Ok(()) => Ok(()),
            Err(_) => Err(Memory),
        }
    }

    /// Puts one in, for which there is room. It takes no memory.
    fn put(&mut self, datagram: &'a [u8], context: &'a Context)
        requires { 0 < self.old.spare }
        ensures more { HasOneMore (record { datagram = datagram.now; context = context.now })
            self.old.each self.new.each }
        ensures spare { self.old.spare ≤ self.new.spare + 1 }
    {
        match self.set.insert(Piece { datagram, context }) {
            Ok(_) => {}
            Err(_) => unreachable!(),
        }
    }

    /// Puts in what entries send, for which there is room. It takes no memory.
    fn put_all(&mut self, entries: &'a [Entry])
        requires { outs_in entries.now ≤ self.old.spare }
        ensures { HasWhatGoesOut entries.now self.old.each self.new.each }
    {
        let mut rest = entries;
        while let [entry, more @ ..] = rest {
            rest = more;
            let Entry::Out {
                datagram,
                context,
                ..
            } = entry
            else {
                continue;
            };
            self.put(datagram.bytes(), context);
        }
    }

    /// Adds what entries send. It finds memory first, and leaves all as it was where there is none.
    pub(crate) fn add(&mut self, entries: &'a [Entry]) -> Result<(), Memory>
        ensures more { OnOk result (HasWhatGoesOut entries.now self.old.each self.new.each) }
        ensures err { OnErr result (self.new.each ≡ self.old.each) }
    {
        self.reserve(count_out(entries))?;
        self.put_all(entries);
        Ok(())
    }
}
