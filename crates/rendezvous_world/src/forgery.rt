//! Whether a datagram was sent before, and datagrams that nobody sent.

ghost use Rattle.std.specs.Prelude.{◌≡◌, ◌+◌, length};
ghost use Rattle.std.specs.List.{list_any};
ghost use Rattle.crypto_profile.specs.Keys.{keys_of};
ghost use Rattle.rendezvous_world.specs.Datagrams.{forged, nth};
ghost use Rattle.counted_secrets.specs.Secrets.{counted_secret};
ghost use Rattle.rendezvous_world.specs.Faults.{is_sent};
ghost use Rattle.rendezvous_world.specs.Inside.{starts_after};
ghost use Rattle.rendezvous_world.specs.Keyed.{AreKeys, is_one_sent, key_of};
ghost use Rattle.rendezvous_world.specs.Sent.{sent_among, sent_in};

use crate::journal::JournalLine;
use crate::keyed::Keyed;
use crate::sent::find;
use crate::world::World;
use counted_secrets::counted_secret;
use crypto_profile::{CIPHERED_AT, Context, Keys, seal_into};
use endpoint::Entry;
use packet_scramble::{SEALED_AT, scramble};

/// The bytes of a datagram before its plain packet.
pub(crate) const PLAIN_AT: usize = SEALED_AT + CIPHERED_AT;

/// The bytes that a datagram's key is made of, from its sealed part on.
const KEY_BYTES: usize = 8;

/// Whether one of the entries of a call of this end is a datagram with these bytes in this context.
fn is_sent_among(by: usize, entries: &[Entry], bytes: &[u8], context: &Context) -> bool
    ensures { result ≡ list_any (is_sent bytes.now context.now) (sent_among by entries.now) }
{
    let mut rest = entries;
    while let [entry, others @ ..] = rest {
        rest = others;
        let Entry::Out {
            datagram,
            context: sealed_for,
            ..
        } = entry
        else {
            continue;
        };
        if datagram.bytes() == bytes && sealed_for.is_same(context) {
            return true;
        }
    }
    false
}

/// Whether a datagram was sent with these bytes in this context.
fn is_sent_in(lines: &[JournalLine], bytes: &[u8], context: &Context) -> bool
    ensures { result ≡ list_any (is_sent bytes.now context.now) (sent_in lines.now) }
{
    let mut rest = lines;
    while let [line, others @ ..] = rest {
        if is_sent_among(line.end(), line.out().entries(), bytes, context) {
            return true;
        }
        rest = others;
    }
    false
}

/// The key of a datagram: the first eight bytes behind its session ID, which are of its tag, and 0
/// where they aren't there.
fn key_of(datagram: &[u8]) -> u64
    ensures { result ≡ key_of datagram.now }
{
    if datagram.len() < SEALED_AT + KEY_BYTES {
        return 0;
    }
    let (_, part) = datagram.split_at(SEALED_AT);
    let (front, _) = part.split_at(KEY_BYTES);
    let mut key = [0; KEY_BYTES];
    key.copy_from_slice(front);
    u64::from_be_bytes(key)
}

/// Adds the keys of the datagrams that have none yet, as far as memory is found.
fn note_keys(lines: &[JournalLine], starts: &[u128], lines_of: &[usize], keyed: &mut Keyed)
    requires starts { starts.now ≡ starts_after 0 lines.now }
    requires keys { AreKeys keyed.old (sent_in lines.now) }
    ensures { AreKeys keyed.new (sent_in lines.now) }
{
    while let Some(letter) = find(lines, starts, lines_of, keyed.len() as u128 + 1) {
        let Ok(()) = keyed.push(key_of(letter.datagram)) else {
            return;
        };
    }
}

/// Whether the datagram with this number was sent with these bytes in this context.
fn is_sent_as(
    lines: &[JournalLine],
    starts: &[u128],
    lines_of: &[usize],
    number: u128,
    bytes: &[u8],
    context: &Context,
) -> bool
    requires { starts.now ≡ starts_after 0 lines.now }
    ensures { result ≡ is_one_sent bytes.now context.now (nth (sent_in lines.now) number) }
{
    match find(lines, starts, lines_of, number) {
        Some(letter) => letter.datagram == bytes && letter.context.is_same(context),
        None => false,
    }
}

/// The same of all datagrams, where each has its key. Only those with the same key are compared.
fn is_sent_by_key(
    lines: &[JournalLine],
    starts: &[u128],
    lines_of: &[usize],
    keyed: &Keyed,
    bytes: &[u8],
    context: &Context,
) -> bool
    requires starts { starts.now ≡ starts_after 0 lines.now }
    requires keys { AreKeys keyed.now (sent_in lines.now) }
    requires all { length keyed.now ≡ length (sent_in lines.now) }
    ensures { result ≡ list_any (is_sent bytes.now context.now) (sent_in lines.now) }
{
    let mut last = keyed.last(key_of(bytes));
    while let Some(at) = last {
        if is_sent_as(lines, starts, lines_of, at as u128 + 1, bytes, context) {
            return true;
        }
        last = keyed.before(at);
    }
    false
}

impl World {
    /// Adds the keys of the datagrams that have none yet, as far as memory is found.
    pub(crate) fn note_keys(&mut self)
        ensures { self.new ≡ self.old }
    {
        note_keys(
            self.journal.lines(),
            &self.starts,
            &self.lines_of,
            &mut self.keyed,
        );
    }

    /// Whether a datagram was sent with these bytes in this context. Where some have no key, all
    /// are compared.
    pub(crate) fn was_sent(&self, bytes: &[u8], context: &Context) -> bool
        ensures { result ≡ list_any (is_sent bytes.now context.now) (sent_in self.now.lines) }
    {
        let lines = self.journal.lines();
        if self.keyed.len() as u128 == self.sent {
            return is_sent_by_key(
                lines,
                &self.starts,
                &self.lines_of,
                &self.keyed,
                bytes,
                context,
            );
        }
        is_sent_in(lines, bytes, context)
    }
}

/// The keys of the packets that nobody sent, in a generation.
fn forgers_keys(generation: u64) -> Keys
    ensures { result ≡ keys_of (counted_secret generation) (Context.Startup generation) }
{
    let context = Context::Startup { generation };
    Keys::of(&counted_secret(generation), &context)
}

/// Fills a buffer, which is as long as the datagram, with one of this plain packet that nobody
/// sent, sealed in a generation.
pub(crate) fn forge(buffer: &mut [u8], generation: u64, plain: &[u8])
    requires { length buffer.old ≡ 36 + length plain.now }
    ensures { buffer.new ≡ forged generation plain.now }
{
    let (head, part) = buffer.split_at_mut(SEALED_AT);
    seal_into(&forgers_keys(generation), 0, [0xff; 16], plain, part);
    let scrambled = scramble(0, part);
    head.copy_from_slice(&scrambled.to_be_bytes());
}
