//! Datagrams that are opened, and the plain packets that they have.

ghost use Rattle.std.specs.Prelude.{◌≡◌, ◌≤◌, ℕ, List, [], length, false, true};
ghost use Rattle.std.specs.Prelude.{IfOk, OnOk, OnErr, IfSome, Ok, Some, None};
ghost use Rattle.std.specs.FinMap.{get};
ghost use Rattle.rtmfp_packet.specs.Reading.{PacketReading};
ghost use Rattle.rtmfp_packet.specs.Whole.{Whole};
ghost use Rattle.crypto_profile.specs.Keys.{keys_of};
ghost use Rattle.crypto_profile.specs.Opening.{plain_of};
ghost use Rattle.endpoint_laws.specs.Contexts.{Secrets, generation_of};
ghost use Rattle.log_packets.specs.Opening.{held_then, is_tagged, IsFirstOpened, IsOpened};
ghost use Rattle.log_packets.specs.Opening.{IsOpenedIn, WasSealed};

use crate::contexts::{generation_of, part_for, sid_of};
use crate::secrets::SecretMap;
use crypto_profile::{CIPHERED_AT, Context, Generation, Keys, decipher_in_place, open_refusal};
use packet_scramble::SEALED_AT;
use rtmfp_base::Memory;
use rtmfp_packet::{Packet, read_packet};
use std::alloc::Global;
use std::marker::Model;

/// Opens datagrams, and holds the plain packet of the last one that it opened, in a buffer that
/// grows as it has to (own).
///
/// Contracts see that plain packet; at first it has no bytes.
#[derive(Drop)]
pub struct Opener {
    /// The first bytes of the part that was opened, and its plain packet.
    buffer: Vec<u8>,
}

impl Model for Opener {
    ghost use Rattle.std.specs.Prelude.{List, ℕ, drop};

    ghost Value = { List ℕ };

    ghost view = { λ o. drop 32 o.buffer.items };
}

/// Puts bytes into a buffer, in place of what it has.
fn load(buffer: &mut Vec<u8>, bytes: &[u8]) -> Result<(), Memory>
    ensures ok { OnOk result (buffer.new.items ≡ bytes.now) }
    ensures err { OnErr result (buffer.new.items ≡ buffer.old.items) }
{
    let more = bytes.len().saturating_sub(buffer.len());
    if buffer.try_reserve(more).is_err() {
        return Err(Memory);
    }
    buffer.clear();
    match buffer.extend_from_slice(bytes) {
        Ok(()) => Ok(()),
        Err(_) => unreachable!(),
    }
}

impl Opener {
    /// One that holds nothing. It takes no memory.
    pub fn new(alloc: Global) -> Opener
        ensures { result ≡ [] }
    {
        Opener {
            buffer: Vec::new(alloc),
        }
    }

    /// The plain packet that it holds.
    pub fn plain(&self) -> &[u8]
        ensures { result.now ≡ self.now }
    {
        let bytes = self.buffer.as_slice();
        if bytes.len() < CIPHERED_AT {
            return &[];
        }
        let (_, plain) = bytes.split_at(CIPHERED_AT);
        plain
    }

    /// The packet that the held bytes are, if they are one.
    pub fn reads(&self) -> Option<Packet<'_>>
        ensures reads { IfSome result (λ packet. PacketReading self.now (Ok packet)) }
        ensures only { (packet : Whole) → PacketReading self.now (Ok packet) →
            result ≡ Some packet }
    {
        match read_packet(self.plain()) {
            Ok(packet) => Some(packet),
            Err(_) => None,
        }
    }

    /// Holds the plain packet of a part, whatever its tag.
    fn hold(&mut self, keys: &Keys, part: &[u8]) -> Result<(), Memory>
        requires { 32 ≤ length part.now }
        ensures ok { OnOk result (self.new ≡ plain_of keys.now part.now) }
        ensures err { OnErr result (self.new ≡ self.old) }
    {
        load(&mut self.buffer, part)?;
        decipher_in_place(keys.stream(), self.buffer.as_mut_slice());
        Ok(())
    }

    /// Holds the plain packet of a part whose tag is right, and tells whether it is.
    fn undo(&mut self, keys: &Keys, sid: u32, part: &[u8]) -> Result<bool, Memory>
        ensures is { IfOk result (λ is. is ≡ is_tagged keys.now sid part.now) }
        ensures plain { OnOk result (self.new ≡ held_then keys.now sid part.now self.old) }
        ensures err { OnErr result (self.new ≡ self.old) }
    {
        if open_refusal(keys, sid, part).is_some() {
            return Ok(false);
        }
        self.hold(keys, part)?;
        Ok(true)
    }

    /// The same by the keys of a context under this secret.
    fn undo_in(
        &mut self,
        group: &Generation,
        context: &Context,
        sid: u32,
        part: &[u8],
    ) -> Result<bool, Memory>
        ensures is { IfOk result (λ is. is
            ≡ is_tagged (keys_of group.now.secret context.now) sid part.now) }
        ensures plain { OnOk result (self.new
            ≡ held_then (keys_of group.now.secret context.now) sid part.now self.old) }
        ensures err { OnErr result (self.new ≡ self.old) }
    {
        match context {
            Context::Startup { .. } => self.undo(group.startup(), sid, part),
            Context::Session { .. } => {
                self.undo(&Keys::under(group.secret(), context), sid, part)
            }
        }
    }

    /// Opens a datagram in a context, under the secret of its generation, and tells whether it
    /// opens there under this session ID. Where it does its plain packet is held, else the one
    /// before.
    pub fn open(
        &mut self,
        secrets: &SecretMap,
        context: &Context,
        sid: u32,
        datagram: &[u8],
    ) -> Result<bool, Memory>
        ensures is { IfOk result (λ opens.
            IsOpened secrets.now context.now sid datagram.now opens self.new) }
        ensures same { IfOk result (λ opens. opens ≡ false → self.new ≡ self.old) }
        ensures err { OnErr result (self.new ≡ self.old) }
    {
        let Some(part) = part_for(context, sid, datagram) else {
            return Ok(false);
        };
        let Some(group) = secrets.get(generation_of(context)) else {
            return Ok(false);
        };
        self.undo_in(group, context, sid, part)
    }

    /// The same by keys that the caller has: those of the context under this secret.
    pub fn open_by(
        &mut self,
        keys: &Keys,
        context: &Context,
        sid: u32,
        datagram: &[u8],
    ) -> Result<bool, Memory>
        ensures is { (secrets : Secrets) (secret : List ℕ) →
            get secrets (generation_of context.now) ≡ Some secret →
            keys.now ≡ keys_of secret context.now →
            IfOk result (λ opens. IsOpened secrets context.now sid datagram.now opens self.new) }
        ensures same { IfOk result (λ opens. opens ≡ false → self.new ≡ self.old) }
        ensures err { OnErr result (self.new ≡ self.old) }
    {
        let Some(part) = part_for(context, sid, datagram) else {
            return Ok(false);
        };
        self.undo(keys, sid, part)
    }

    /// Opens a datagram in startup of the current generation, or else of the next one where that is
    /// known, and tells in which it opens. Where it does its plain packet is held, else the one
    /// before.
    pub fn open_first(
        &mut self,
        secrets: &SecretMap,
        current: u64,
        next: Option<u64>,
        sid: u32,
        datagram: &[u8],
    ) -> Result<Option<u64>, Memory>
        ensures is { IfOk result (λ found.
            IsFirstOpened secrets.now current next sid datagram.now found self.new) }
        ensures same { IfOk result (λ found. found ≡ None → self.new ≡ self.old) }
        ensures err { OnErr result (self.new ≡ self.old) }
    {
        let context = Context::Startup {
            generation: current,
        };
        match self.open(secrets, &context, sid, datagram) {
            Err(_) => Err(Memory),
            Ok(true) => Ok(Some(current)),
            Ok(false) => self.open_next(secrets, next, sid, datagram),
        }
    }

    /// Opens a datagram in startup of this generation, if there is one.
    fn open_next(
        &mut self,
        secrets: &SecretMap,
        next: Option<u64>,
        sid: u32,
        datagram: &[u8],
    ) -> Result<Option<u64>, Memory>
        ensures is { IfOk result (λ found.
            IsOpenedIn secrets.now next sid datagram.now found self.new) }
        ensures same { IfOk result (λ found. found ≡ None → self.new ≡ self.old) }
        ensures err { OnErr result (self.new ≡ self.old) }
    {
        let Some(generation) = next else {
            return Ok(None);
        };
        let context = Context::Startup { generation };
        match self.open(secrets, &context, sid, datagram) {
            Err(_) => Err(Memory),
            Ok(true) => Ok(Some(generation)),
            Ok(false) => Ok(None),
        }
    }

    /// Whether a datagram was sealed in this context, under the secret of its generation, whatever
    /// its session ID and number. Where it was its plain packet is held, else the one before.
    pub fn sealed_by(
        &mut self,
        secrets: &SecretMap,
        context: &Context,
        datagram: &[u8],
    ) -> Result<bool, Memory>
        ensures is { IfOk result (λ sealed.
            WasSealed secrets.now context.now datagram.now sealed self.new) }
        ensures same { IfOk result (λ sealed. sealed ≡ false → self.new ≡ self.old) }
        ensures err { OnErr result (self.new ≡ self.old) }
    {
        let Some(sid) = sid_of(datagram) else {
            return Ok(false);
        };
        let Some(group) = secrets.get(generation_of(context)) else {
            return Ok(false);
        };
        let (_, part) = datagram.split_at(SEALED_AT);
        self.undo_in(group, context, sid, part)
    }

    /// The same by keys that the caller has: those of the context under this secret.
    pub fn sealed_with(
        &mut self,
        keys: &Keys,
        context: &Context,
        datagram: &[u8],
    ) -> Result<bool, Memory>
        ensures is { (secrets : Secrets) (secret : List ℕ) →
            get secrets (generation_of context.now) ≡ Some secret →
            keys.now ≡ keys_of secret context.now →
            IfOk result (λ sealed.
            WasSealed secrets context.now datagram.now sealed self.new) }
        ensures same { IfOk result (λ sealed. sealed ≡ false → self.new ≡ self.old) }
        ensures err { OnErr result (self.new ≡ self.old) }
    {
        let Some(sid) = sid_of(datagram) else {
            return Ok(false);
        };
        let (_, part) = datagram.split_at(SEALED_AT);
        self.undo(keys, sid, part)
    }
}
