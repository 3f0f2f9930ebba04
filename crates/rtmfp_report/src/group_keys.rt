//! The keys by which the datagrams of a group are read.
ghost use Rattle.std.specs.Prelude.{◌≡◌, Some};
ghost use Rattle.std.specs.FinMap.{get};
ghost use Rattle.endpoint_laws.specs.Contexts.{Secrets, generation_of};
ghost use Rattle.rtmfp_report.specs.Hashed.{IsKeyOf};
ghost use Rattle.rtmfp_report.specs.KeptKeys.{AreUnder, secrets_in};

use crate::group_secrets::GroupSecrets;
use crypto_profile::{Context, Generation, StreamKey, decipher_in_place, stream_key};
use endpoint::{Endpoint, Entry};
use std::alloc::Global;
use std::marker::Model;

/// How many keys of sessions are kept at most.
const MOST_KEPT: usize = 512;

/// The key of a context's keystream.
#[derive(Drop)]
pub(crate) struct KeptKey {
    pub(crate) context: Context,
    pub(crate) key: StreamKey,
}

/// The secrets of a group, and keys of its packets: those of startup in the generations that sent
/// lately, which are derived once, and those of sessions that sent lately.
///
/// Contracts see the secrets by their generations.
#[derive(Drop)]
pub struct GroupKeys {
    alloc: Global,
    secrets: GroupSecrets,
    /// The last secret with an even number that was hashed, and the last one with an odd number. A
    /// group changes over from one number to the next.
    even: Option<Generation>,
    odd: Option<Generation>,
    /// The key of a session stands in the slot that its session IDs name, or nowhere. There are no
    /// slots at first, and fewer than there may be where no memory was found.
    kept: Vec<Option<KeptKey>>,
}

/// A secret of a group, hashed: kept so, or for one datagram.
#[derive(Drop)]
pub(crate) enum Hashed<'a> {
    Kept(&'a Generation),
    Made(Generation),
}

impl<'a> Hashed<'a> {
    ghost use Rattle.std.specs.Prelude.{◌≡◌};
    ghost use Rattle.rtmfp_report.specs.Hashed.{hashed_of};

    /// The secret.
    pub(crate) fn get(&self) -> &Generation
        ensures { result.now ≡ hashed_of self.now }
    {
        match self {
            Hashed::Kept(group) => group,
            Hashed::Made(group) => group,
        }
    }
}

impl Model for GroupKeys {
    ghost use Rattle.std.specs.Coded.{coded_list, coded_ℕ};
    ghost use Rattle.std.specs.FinMap.{code};
    ghost use Rattle.endpoint_laws.specs.Contexts.{Secrets};
    ghost use Rattle.rtmfp_report.specs.KeptKeys.{HasKeys, secrets_in};

    ghost Value = { Secrets };

    ghost coded = { code coded_ℕ (coded_list coded_ℕ) };

    ghost view = { λ k. secrets_in k.secrets };

    ghost invariant = { λ k. HasKeys (secrets_in k.secrets) k.even k.odd k.kept.items };
}

impl GroupKeys {
    ghost use Rattle.std.specs.Prelude.{◌≡◌, ◌≤◌, IfSome, length, drop, take};
    ghost use Rattle.std.specs.FinMap.{get};
    ghost use Rattle.crypto_profile.specs.Keys.{keys_of};
    ghost use Rattle.crypto_profile.specs.Opening.{plain_of};
    ghost use Rattle.endpoint_laws.specs.Contexts.{generation_of};
    ghost use Rattle.rtmfp_report.specs.Hashed.{IsFor, IsKeyOf, IsSecretOf};

    /// The keys of the group with these secrets. It takes no memory.
    pub fn of(alloc: Global, secrets: GroupSecrets) -> GroupKeys
        ensures { result ≡ secrets_in secrets }
    {
        GroupKeys {
            alloc,
            secrets,
            even: None,
            odd: None,
            kept: Vec::new(alloc),
        }
    }

    /// Keeps the keys of the sessions that sent these entries, as far as memory is found, and those
    /// of startup in the generations in which some went out.
    pub(crate) fn learn(&mut self, entries: &[Entry])
        ensures { self.new ≡ self.old }
    {
        for entry in entries {
            if let Entry::Out { context, .. } = entry {
                self.keep(context);
            }
        }
    }

    /// Keeps the keys of the sessions that sent these entries, as far as this end has them and
    /// memory is found. They aren't derived, which spares most of the time that `push_entries`
    /// would take for them.
    pub fn learn_from(&mut self, entries: &[Entry], end: &Endpoint)
        ensures { self.new ≡ self.old }
    {
        for entry in entries {
            if let Entry::Out { context, .. } = entry {
                self.keep_of(context, end);
            }
        }
    }

    /// Keeps the key of a context, where this end has it.
    fn keep_of(&mut self, context: &Context, end: &Endpoint)
        ensures { self.new ≡ self.old }
    {
        let Some(slot) = slot_of(context) else {
            return;
        };
        let Some(secret) = self.secrets.secret(generation_of(context)) else {
            return;
        };
        if self.kept.is_empty() {
            self.kept = empty_slots(self.alloc);
        }
        keep_found(&mut self.kept, slot, &secret, context, end);
    }

    /// Keeps the key of a context, and the secret of its generation.
    fn keep(&mut self, context: &Context)
        ensures { self.new ≡ self.old }
    {
        self.keep_group(generation_of(context));
        let Some(slot) = slot_of(context) else {
            return;
        };
        if self.kept_key(context).is_some() {
            return;
        }
        let Some(key) = self.derived(context) else {
            return;
        };
        if self.kept.is_empty() {
            self.kept = empty_slots(self.alloc);
        }
        keep_in(&mut self.kept, slot, context, key);
    }

    /// Keeps the secret of a generation, hashed, if there is one.
    fn keep_group(&mut self, generation: u64)
        ensures { self.new ≡ self.old }
    {
        let Some(group) = self.hashed_now(generation) else {
            return;
        };
        if generation % 2 == 0 {
            self.even = Some(group);
        } else {
            self.odd = Some(group);
        }
    }

    /// The secret of a generation, where it isn't kept and there is one.
    fn hashed_now(&self, generation: u64) -> Option<Generation>
        ensures { IfSome result (IsSecretOf self.now generation) }
    {
        match self.group(generation)? {
            Hashed::Made(group) => Some(group),
            Hashed::Kept(_) => None,
        }
    }

    /// The secret of a generation, if there is one.
    pub(crate) fn group(&self, generation: u64) -> Option<Hashed<'_>>
        ensures { IsFor self.now generation result }
    {
        let kept = if generation % 2 == 0 {
            &self.even
        } else {
            &self.odd
        };
        if let Some(group) = kept {
            if group.number() == generation {
                return Some(Hashed::Kept(group));
            }
        }
        match self.secrets.secret(generation) {
            Some(secret) => Some(Hashed::Made(Generation::of(generation, &secret))),
            None => None,
        }
    }

    /// The key of a context's keystream, if its generation has a secret.
    fn derived(&self, context: &Context) -> Option<StreamKey>
        ensures { IsKeyOf self.now context.now result }
    {
        let group = self.group(generation_of(context))?;
        Some(stream_key(group.get().secret(), context))
    }

    /// The key of a context's keystream, where it is kept.
    fn kept_key(&self, context: &Context) -> Option<&StreamKey>
        ensures { IfSome result (λ key. IfSome (get self.now (generation_of context.now))
            (λ secret. key.now ≡ (keys_of secret context.now).enc)) }
    {
        let slot = slot_of(context)?;
        match self.kept.get(slot) {
            None => None,
            Some(row) => match row {
                None => None,
                Some(kept) => {
                    if kept.context.is_same(context) {
                        Some(&kept.key)
                    } else {
                        None
                    }
                }
            },
        }
    }

    /// Deciphers a sealed part of this context in place by the secret of its generation, whatever
    /// its tag: its plain packet then stands from byte 32 on.
    pub(crate) fn decipher(&self, group: &Generation, context: &Context, part: &mut [u8])
        requires long { 32 ≤ length part.old }
        requires group { get self.now (generation_of context.now) ≡ Some group.now.secret }
        requires number { group.now.generation ≡ generation_of context.now }
        ensures head { take 32 part.new ≡ take 32 part.old }
        ensures plain { drop 32 part.new
            ≡ plain_of (keys_of group.now.secret context.now) part.old }
    {
        match context {
            Context::Startup { .. } => decipher_in_place(group.startup().stream(), part),
            Context::Session { .. } => match self.kept_key(context) {
                Some(key) => decipher_in_place(key, part),
                None => decipher_in_place(&stream_key(group.secret(), context), part),
            },
        }
    }
}

/// The generation of a context.
pub(crate) fn generation_of(context: &Context) -> u64
    ensures { result ≡ generation_of context.now }
{
    match context {
        Context::Startup { generation } => *generation,
        Context::Session { generation, .. } => *generation,
    }
}

/// Slots without keys, as many as memory is found for.
fn empty_slots(alloc: Global) -> Vec<Option<KeptKey>>
    ensures { (secrets : Secrets) → AreUnder secrets result.items }
{
    let mut slots = Vec::new(alloc);
    for _ in 0..MOST_KEPT {
        if slots.push(None).is_err() {
            return slots;
        }
    }
    slots
}

/// Keeps the key of a context in this slot, if there is one.
fn keep_in(kept: &mut [Option<KeptKey>], slot: usize, context: &Context, key: StreamKey)
    ensures { (secrets : Secrets) → IsKeyOf secrets context.now (Some key) →
        AreUnder secrets kept.old → AreUnder secrets kept.new }
{
    if slot >= kept.len() || is_kept(&kept[slot], context) {
        return;
    }
    kept[slot] = Some(KeptKey {
        context: *context,
        key,
    });
}

/// Keeps the key of a context in this slot, if there is one and this end has the key under the
/// secret of the context's generation.
fn keep_found(
    kept: &mut [Option<KeptKey>],
    slot: usize,
    secret: &[u8; 32],
    context: &Context,
    end: &Endpoint,
)
    ensures { (secrets : Secrets) → get secrets (generation_of context.now) ≡ Some secret.now →
        AreUnder secrets kept.old → AreUnder secrets kept.new }
{
    if slot >= kept.len() || is_kept(&kept[slot], context) {
        return;
    }
    if let Some(key) = end.stream_key(secret, context) {
        kept[slot] = Some(KeptKey {
            context: *context,
            key: key.copy(),
        });
    }
}

/// Whether the key of this context is kept here.
fn is_kept(row: &Option<KeptKey>, context: &Context) -> bool {
    match row {
        Some(kept) => kept.context.is_same(context),
        None => false,
    }
}

/// The slot of a session's context; none of that of startup.
fn slot_of(context: &Context) -> Option<usize> {
    match context {
        Context::Startup { .. } => None,
        Context::Session {
            sid_i,
            sid_r,
            to_responder,
            ..
        } => {
            let pair = sid_i.wrapping_mul(31) ^ *sid_r;
            let slot = pair.wrapping_mul(2) | u32::from(*to_responder);
            Some(slot as usize % MOST_KEPT)
        }
    }
}
