//! Which datagrams went out so far, at all ends of a history.

ghost use Rattle.std.specs.Prelude.{◌≡◌, ◌∷◌, ℕ, [], OnOk, OnErr, true};
ghost use Rattle.endpoint_laws.specs.History.{History, WasSent};
ghost use Rattle.log_values.specs.Events.{event_of};
ghost use Rattle.log_sent.specs.Pieces.{has_sealed};
ghost use Rattle.log_sent.specs.Sent.{HasWhatGoesOut, IsSentOf};

use crate::pieces::Pieces;
use crypto_profile::Context;
use log_values::Logged;
use rtmfp_base::Memory;
use std::alloc::Global;
use std::marker::Model;

/// The datagrams that went out so far, at whatever ends, each in the context that it was sealed for
/// (own). Whether one is among them is one look at a set. It points into the logs and copies no
/// datagram: 24 bytes and a place of the set for each that is different.
///
/// Contracts see each of them, in no order. It is that of a history: `new` is that of an empty one,
/// and `add` brings it from that of any history to that of the history with one more event.
#[derive(Drop)]
pub struct Sent<'a> {
    pieces: Pieces<'a>,
}

impl<'a> Model for Sent<'a> {
    ghost use Rattle.std.specs.Prelude.{List};
    ghost use Rattle.crypto_profile.specs.contracts.keys.Context as context_type;
    ghost use Rattle.log_sent.specs.Pieces.{Sealed, sealed_code};

    ghost Value = { List Sealed };

    ghost coded = { sealed_code context_type.the_row.coded };

    ghost view = { λ s. s.pieces.each };
}

impl<'a> Sent<'a> {
    /// None. It takes no memory.
    pub fn new(alloc: Global) -> Sent<'a>
        ensures { IsSentOf [] result }
    {
        Sent {
            pieces: Pieces::new(alloc),
        }
    }

    /// Whether a datagram is among them.
    fn is_there(&self, datagram: &[u8], context: &Context) -> bool
        ensures { result ≡ has_sealed self.now
            (record { datagram = datagram.now; context = context.now }) }
    {
        self.pieces.has(datagram, context)
    }

    /// Whether a datagram with these bytes went out in this context.
    pub fn has(&self, datagram: &[u8], context: &Context) -> bool
        ensures value { result ≡ has_sealed self.now
            (record { datagram = datagram.now; context = context.now }) }
        ensures yes { (history : History) → IsSentOf history self.now → result ≡ true →
            WasSent datagram.now context.now history }
        ensures no { (history : History) → IsSentOf history self.now →
            WasSent datagram.now context.now history → result ≡ true }
    {
        self.is_there(datagram, context)
    }

    /// Notes what an event sends.
    fn note(&mut self, event: &'a Logged) -> Result<(), Memory>
        ensures more { OnOk result
            (HasWhatGoesOut (event_of event.now).entries self.old self.new) }
        ensures err { OnErr result (self.new ≡ self.old) }
    {
        self.pieces.add(event.entries.as_slice())?;
        Ok(())
    }

    /// Adds what an event of whatever end sends, which goes out now. It finds memory first, and
    /// leaves all as it was where there is none.
    pub fn add(&mut self, event: &'a Logged) -> Result<(), Memory>
        ensures log { (who : ℕ) (history : History) → IsSentOf history self.old →
            OnOk result (IsSentOf (record { who = who; event = event_of event.now } ∷ history)
            self.new) }
        ensures err { OnErr result (self.new ≡ self.old) }
    {
        match self.note(event) {
            Ok(()) => Ok(()),
            Err(Memory) => Err(Memory),
        }
    }
}
