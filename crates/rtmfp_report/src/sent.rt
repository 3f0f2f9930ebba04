//! The texts of datagrams that go out.
ghost use Rattle.std.specs.Prelude.{◌≡◌, ◌≤◌, ◌++◌, ◌∷◌, [], IfSome, OnOk, Some, length};
ghost use Rattle.std.specs.FinMap.{get};
ghost use Rattle.crypto_profile.specs.Keys.{keys_of};
ghost use Rattle.crypto_profile.specs.Opening.{plain_of};
ghost use Rattle.endpoint.specs.Kinds.{kinds_in, kinds_left};
ghost use Rattle.endpoint_laws.specs.Contexts.{generation_of};
ghost use Rattle.rtmfp_report.specs.SentText.{behind_pluses, kinds_text, kinds_under};
ghost use Rattle.rtmfp_report.specs.SentText.{sent_kinds, sent_text};

use crate::group_keys::{GroupKeys, generation_of};
use crate::lone_chunk::lone_kind;
use crypto_profile::{CIPHERED_AT, Context, Generation};
use endpoint::{Kinds, outgoing_kinds};
use packet_scramble::SEALED_AT;
use rtmfp_forms::Address;
use rtmfp_text::{Text, kind_name, push_address};
use std::alloc::AllocError;

/// The bytes of a plain packet that are deciphered at a time.
const BLOCK_LEN: usize = 32;

/// Adds a datagram that goes out: its number, where it goes, and the names of its chunks.
pub(crate) fn push_sent(
    keys: &GroupKeys,
    number: u64,
    to: &Address,
    datagram: &[u8],
    context: &Context,
    scratch: &mut Vec<u8>,
    text: &mut Text,
) -> Result<(), AllocError>
    ensures { OnOk result (text.new ≡ text.old
        ++ sent_text keys.now number to.now datagram.now context.now) }
{
    text.push_number_field("sent ", number)?;
    text.push(" ")?;
    push_address(to, text)?;
    text.push(" ")?;
    push_sent_kinds(keys, datagram, context, scratch, text)?;
    Ok(())
}

/// Adds the names of the chunks of a datagram that was sealed in this context, if its generation
/// has a secret.
fn push_sent_kinds(
    keys: &GroupKeys,
    datagram: &[u8],
    context: &Context,
    scratch: &mut Vec<u8>,
    text: &mut Text,
) -> Result<(), AllocError>
    ensures { OnOk result (text.new ≡ text.old
        ++ kinds_text (sent_kinds keys.now context.now datagram.now)) }
{
    let Some(group) = keys.group(generation_of(context)) else {
        return text.push("none");
    };
    push_kinds_under(keys, group.get(), datagram, context, scratch, text)
}

/// The same by the secret of its generation.
fn push_kinds_under(
    keys: &GroupKeys,
    group: &Generation,
    datagram: &[u8],
    context: &Context,
    scratch: &mut Vec<u8>,
    text: &mut Text,
) -> Result<(), AllocError>
    requires group { get keys.now (generation_of context.now) ≡ Some group.now.secret }
    requires number { group.now.generation ≡ generation_of context.now }
    ensures { OnOk result (text.new ≡ text.old
        ++ kinds_text (kinds_under (Some group.now.secret) context.now datagram.now)) }
{
    if datagram.len() < SEALED_AT + CIPHERED_AT {
        return text.push("none");
    }
    let (_, part) = datagram.split_at(SEALED_AT);
    if let Some(kind) = only_kind(keys, group, part, context) {
        return text.push(kind_name(kind));
    }
    scratch.clear();
    scratch.extend_from_slice(part)?;
    keys.decipher(group, context, scratch.as_mut_slice());
    let (_, plain) = scratch.as_slice().split_at(CIPHERED_AT);
    push_kinds(plain, text)
}

/// The type of the only chunk of a sealed part, where the first block of its plain packet tells it.
/// Most packets have one chunk, and of these no other block is deciphered.
fn only_kind(keys: &GroupKeys, group: &Generation, part: &[u8], context: &Context) -> Option<u8>
    requires long { 32 ≤ length part.now }
    requires group { get keys.now (generation_of context.now) ≡ Some group.now.secret }
    requires number { group.now.generation ≡ generation_of context.now }
    ensures { IfSome result (λ kind.
        kinds_in (plain_of (keys_of group.now.secret context.now) part.now) ≡ kind ∷ []) }
{
    let mut room = [0; CIPHERED_AT + BLOCK_LEN];
    let count = part.len().min(room.len());
    let (front, _) = room.split_at_mut(count);
    let (known, _) = part.split_at(count);
    front.copy_from_slice(known);
    keys.decipher(group, context, front);
    let (_, plain) = front.split_at(CIPHERED_AT);
    lone_kind(part.len() - CIPHERED_AT, plain)
}

/// Adds the names of the chunks of a plain packet.
fn push_kinds(plain: &[u8], text: &mut Text) -> Result<(), AllocError>
    ensures { OnOk result (text.new ≡ text.old ++ kinds_text (kinds_in plain.now)) }
{
    let mut kinds = outgoing_kinds(plain);
    match kinds.next() {
        None => text.push("none"),
        Some(first) => {
            text.push(kind_name(first))?;
            push_more_kinds(kinds, text)
        }
    }
}

/// Adds the names of chunks, each behind a plus sign.
fn push_more_kinds(kinds: Kinds<'_>, text: &mut Text) -> Result<(), AllocError>
    ensures { OnOk result (text.new ≡ text.old ++ behind_pluses (kinds_left kinds.entry)) }
{
    for kind in kinds {
        text.push("+")?;
        text.push(kind_name(kind))?;
    }
    Ok(())
}
