//! Datagrams of an end that go out.

ghost use Rattle.std.specs.Prelude.{◌≡◌, ◌≤◌, All, IfOk, length};
ghost use Rattle.crypto_profile.specs.Keys.{startup_keys_of};
ghost use Rattle.endpoint_model.specs.State.{Done};
ghost use Rattle.endpoint_model.specs.Sending.{is_spent, sent_answer, sent_each, sent_startup};
ghost use Rattle.endpoint_model.specs.Sending.{startup_number};
ghost use Rattle.end_state.specs.Steps.{Gives};

use crate::end_state::EndState;
use crate::outbox::Outbox;
use crate::sealing::{blank, seal};
use crypto_profile::{Context, Keys};
use endpoint_model::Entry;
use rtmfp_forms::{Address, Outgoing};
use startup::Answer;
use std::alloc::{AllocError, Global};

/// The number of a startup packet: the first 8 bytes of the fingerprint of its sender, and its
/// count.
fn startup_number(print: &[u8; 32], count: u64) -> [u8; 16]
    ensures { result ≡ startup_number print.now count }
{
    let mut number = [0; 16];
    let (front, back) = number.split_at_mut(8);
    front.copy_from_slice(&print[..8]);
    back.copy_from_slice(&count.to_be_bytes());
    number
}

impl EndState {
    /// Whether no count of a startup packet is left, so that none goes out any more.
    pub fn is_spent(&self) -> bool
        ensures { result ≡ is_spent self.now }
    {
        self.sealed == u64::MAX
    }

    /// The entry of a startup packet that goes out under the keys of a generation, for which memory
    /// was found. There is none where all counts are used.
    fn startup_packet(
        &mut self,
        blank: Vec<u8>,
        generation: u64,
        keys: &Keys,
        to: &Address,
        sid: u32,
        plain: &Outgoing,
    ) -> Option<Entry>
        requires { length blank.items ≡ 1200 }
        ensures { Gives (sent_startup self.old generation keys.now to.now sid plain.now) self.new
            result }
    {
        if self.is_spent() {
            return None;
        }
        self.sealed += 1;
        let number = startup_number(&self.print, self.sealed);
        let datagram = seal(blank, keys, sid, number, plain);
        Some(Entry::Out {
            to: *to,
            datagram,
            context: Context::Startup { generation },
        })
    }

    /// The entry of a startup packet that answers something, for which memory was found. There is
    /// none where all counts are used.
    pub fn seal_answer(&mut self, blank: Vec<u8>, answer: &Answer) -> Option<Entry>
        requires { length blank.items ≡ 1200 }
        ensures { Gives (sent_answer self.old answer.now) self.new result }
    {
        self.startup_packet(
            blank,
            answer.generation,
            &answer.keys,
            &answer.to,
            answer.sid,
            &answer.plain,
        )
    }

    /// The entry of a startup packet in the current generation under session ID 0, for which memory
    /// was found. There is none where all counts are used.
    fn seal_hello(&mut self, blank: Vec<u8>, to: &Address, plain: &Outgoing) -> Option<Entry>
        requires { length blank.items ≡ 1200 }
        ensures { Gives (sent_startup self.old self.old.group.generation
            (startup_keys_of self.old.group) to.now 0 plain.now) self.new result }
    {
        let generation = self.groups.current.number();
        let keys = self.groups.current.startup().copy();
        self.startup_packet(blank, generation, &keys, to, 0, plain)
    }

    /// Sends a startup packet in the current generation to several addresses, under session ID 0.
    pub fn send_each(
        &mut self,
        mut blanks: Vec<Vec<u8>>,
        addresses: &[Address],
        plain: &Outgoing,
        out: &mut Outbox,
    )
        requires blanks { All (λ bytes. length bytes.items ≡ 1200) blanks.items }
        requires enough { length addresses.now ≤ length blanks.items }
        requires room { length addresses.now ≤ out.old.free }
        ensures { Done (sent_each self.old plain.now addresses.now) self.new out.old out.new }
    {
        for to in addresses {
            let Some(blank) = blanks.pop() else {
                return;
            };
            let Some(entry) = self.seal_hello(blank, to, plain) else {
                continue;
            };
            out.add(entry);
        }
    }
}

/// Memory for so many datagrams.
pub fn blanks(alloc: Global, count: usize) -> Result<Vec<Vec<u8>>, AllocError>
    ensures each { IfOk result (λ list. All (λ bytes. length bytes.items ≡ 1200) list.items) }
    ensures count { IfOk result (λ list. length list.items ≡ count) }
{
    let mut list = Vec::with_capacity(alloc, count)?;
    for _ in 0..count {
        list.push(blank(alloc)?)?;
    }
    Ok(list)
}
