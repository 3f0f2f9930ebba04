//! The line of a datagram that goes out.

ghost use Rattle.std.specs.Prelude.{◌≡◌, ◌≤◌, ℕ, List, IfOk, IfSome, OnErr, drop, length, true};
ghost use Rattle.crypto_profile.specs.Sealing.{number_of};
ghost use Rattle.packet_scramble.specs.Datagram.{sid_of};
ghost use Rattle.endpoint_model.specs.Event.{Setup};
ghost use Rattle.endpoint_laws.specs.Past.{Past};
ghost use Rattle.endpoint_laws.specs.Lawful.{OutLine};
ghost use Rattle.log_values.specs.Events.{call_of};
ghost use Rattle.log_packets.specs.Asked.{Tells};
ghost use Rattle.log_packets.specs.Opening.{IsSealed};
ghost use Rattle.log_outs.specs.Answers.{TellsUnder};
ghost use Rattle.log_outs.specs.Outs.{IsCauseOf, IsSenderOf, KeyingsMay, MayGoOut};

use crate::keyings::keyings_may;
use crate::numbers::{is_new, number_in};
use crate::sender::{Cause, Sender};
use crate::sessions::is_in_session;
use crypto_profile::Context;
use log_packets::{Opener, SecretMap, sid_of};
use rtmfp_base::Memory;

/// Whether the keyings of the packet that is held may go out, if it is one.
fn plain_may(
    sender: &Sender<'_>,
    why: &Cause<'_>,
    opener: &Opener,
    context: &Context,
    sid: u32,
) -> bool
    ensures { TellsUnder sid (KeyingsMay sender.now why.now opener.now context.now) result }
{
    match opener.reads() {
        Some(packet) => keyings_may(sender, why, context, sid, &packet),
        None => true,
    }
}

/// Whether the packet that is held may go out under this session ID and with this number.
fn may_go_out(
    sender: &Sender<'_>,
    why: &Cause<'_>,
    opener: &Opener,
    context: &Context,
    number: &[u8; 16],
    sid: u32,
) -> bool
    ensures { TellsUnder sid (MayGoOut sender.now why.now opener.now context.now number.now)
        result }
{
    if !is_new(sender, context, number) {
        return false;
    }
    if !is_in_session(sender, context, sid) {
        return false;
    }
    plain_may(sender, why, opener, context, sid)
}

/// The same of a datagram that was sealed in this context, and whose plain packet is held.
fn sealed_may(
    sender: &Sender<'_>,
    why: &Cause<'_>,
    opener: &Opener,
    datagram: &[u8],
    context: &Context,
) -> bool
    requires { 36 ≤ length datagram.now }
    ensures { TellsUnder (sid_of datagram.now) (MayGoOut sender.now why.now opener.now context.now
        (number_of (drop 4 datagram.now))) result }
{
    let Some(sid) = sid_of(datagram) else {
        return false;
    };
    let Some(number) = number_in(datagram) else {
        return false;
    };
    may_go_out(sender, why, opener, context, &number, sid)
}

/// Whether a datagram that goes out in this context meets its line of the table of lawful logs: it
/// was sealed in it under the secret of the context's generation, its number is a new one, it goes
/// in a session that stands if it goes in one, and its keyings are those of attempts that are held
/// and of sessions that were born here. Where it does, `opener` holds its plain packet.
pub fn out_line(
    secrets: &SecretMap,
    sender: &Sender<'_>,
    why: &Cause<'_>,
    opener: &mut Opener,
    datagram: &[u8],
    context: &Context,
) -> Result<bool, Memory>
    ensures tells { (setup : Setup) (past : Past) (nonce : List ℕ) →
        IsSenderOf secrets.now setup past sender.now →
        IsCauseOf secrets.now setup past nonce why.now →
        IfOk result (λ it. Tells (OutLine secrets.now setup (call_of nonce why.now.call.now) past
        datagram.now context.now) it) }
    ensures sealed { IfOk result (λ it. it ≡ true → IsSealed secrets.now context.now datagram.now
        (sid_of datagram.now) (number_of (drop 4 datagram.now)) opener.new) }
    ensures err { OnErr result (opener.new ≡ opener.old) }
{
    match opener.sealed_by(secrets, context, datagram) {
        Err(_) => Err(Memory),
        Ok(false) => Ok(false),
        Ok(true) => Ok(sealed_may(sender, why, opener, datagram, context)),
    }
}
