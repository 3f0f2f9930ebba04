//! Attempts that are opened and given up.

ghost use Rattle.std.specs.Prelude.{◌≡◌, ◌+◌, IfErr, IfNone, IfOk, IfSome, None, OnErr, OnOk, Err};
ghost use Rattle.startup.specs.Attempts.{cancel_fact};
ghost use Rattle.endpoint_model.specs.Effects.{cancelling, open_refusal, opening};
ghost use Rattle.endpoint_model.specs.Log.{Extends, cancel_event, open_event};
ghost use Rattle.endpoint_model.specs.State.{Done, at_moment, nothing};

use crate::endpoint::Endpoint;
use crate::sizes::{are_sized, are_thirty_two};
use end_state::{EndState, Outbox, blanks};
use endpoint_model::{CallRefusal, Draws, Entry, OpenRefusal};
use identity::Epd;
use rtmfp_base::limits::CANDIDATES;
use rtmfp_forms::Address;
use std::alloc::AllocError;

impl Endpoint {
    /// Opens an attempt towards the end that the discriminator names, and sends a hello to each
    /// candidate place; it gives the number of the attempt (RFC 7016 section 3.5.1.1).
    ///
    /// Where it is refused, all is as before but for the moment; `OpenRefusal` has the reasons in
    /// their order.
    pub fn open(
        &mut self,
        epd: &Epd,
        candidates: &[Address],
        moment: u64,
        draws: &Draws,
        out: &mut Outbox,
    ) -> Result<u64, OpenRefusal>
        ensures number { IfOk result (λ n. n ≡ self.old.startup.ledger.started + 1) }
        ensures ok { OnOk result
            (Done (opening (at_moment self.old moment) epd.now.print candidates.now draws.now)
            self.new out.old out.new) }
        ensures refused { IfSome (open_refusal (at_moment self.old moment) epd.now.print
            candidates.now) (λ refusal. result ≡ Err refusal) }
        ensures memory { IfNone (open_refusal (at_moment self.old moment) epd.now.print
            candidates.now) (IfErr result (λ refusal. refusal ≡ OpenRefusal.Memory)) }
        ensures err { OnErr result (Done (nothing (at_moment self.old moment)) self.new out.old
            out.new) }

        // The end stands for its log with this call.
        ensures stands { Extends self.old self.new
            (open_event moment epd.now.print candidates.now draws.now result out.old.entries
            out.new.entries) }
    {
        are_thirty_two(&epd.print);
        are_sized(draws);
        open_attempt(&mut self.end, epd, candidates, moment, draws, out)
    }

    /// Gives up the held attempt with this number.
    ///
    /// It is refused exactly where no held attempt has the number, or for want of memory; then all
    /// is as before.
    pub fn cancel(&mut self, n: u64, out: &mut Outbox) -> Result<(), CallRefusal>
        ensures ok { OnOk result (Done (cancelling self.old n) self.new out.old out.new) }
        ensures refused { IfNone (cancel_fact self.old.startup n) (result
            ≡ Err CallRefusal.NoAttempt) }
        ensures memory { IfSome (cancel_fact self.old.startup n)
            (λ _. IfErr result (λ refusal. refusal ≡ CallRefusal.Memory)) }
        ensures err { OnErr result (Done (nothing self.old) self.new out.old out.new) }

        // The end stands for its log with this call.
        ensures stands { Extends self.old self.new
            (cancel_event n result out.old.entries out.new.entries) }
    {
        give_up(&mut self.end, n, out)
    }
}

/// Opens an attempt, or tells why not.
fn open_attempt(
    end: &mut EndState,
    epd: &Epd,
    candidates: &[Address],
    moment: u64,
    draws: &Draws,
    out: &mut Outbox,
) -> Result<u64, OpenRefusal>
    ensures number { IfOk result (λ n. n ≡ end.old.startup.ledger.started + 1) }
    ensures ok { OnOk result (Done (opening (at_moment end.old moment) epd.now.print candidates.now
        draws.now) end.new out.old out.new) }
    ensures refused { IfSome (open_refusal (at_moment end.old moment) epd.now.print candidates.now)
        (λ refusal. result ≡ Err refusal) }
    ensures memory { IfNone (open_refusal (at_moment end.old moment) epd.now.print candidates.now)
        (IfErr result (λ refusal. refusal ≡ OpenRefusal.Memory)) }
    ensures err { OnErr result (Done (nothing (at_moment end.old moment)) end.new out.old
        out.new) }
{
    end.advance(moment);
    if let Some(refusal) = open_refusal(end, epd, candidates) {
        return Err(refusal);
    }
    match begin(end, epd, candidates, draws, out) {
        Ok(n) => Ok(n),
        Err(_) => Err(OpenRefusal::Memory),
    }
}

/// Why no attempt is opened, but for want of memory.
fn open_refusal(end: &EndState, epd: &Epd, candidates: &[Address]) -> Option<OpenRefusal>
    ensures { result ≡ open_refusal end.now epd.now.print candidates.now }
{
    let count = candidates.len();
    if count == 0 || count > CANDIDATES {
        return Some(OpenRefusal::Candidates(count as u64));
    }
    if let Some(refusal) = end.startup.peers().start_refusal(&epd.print) {
        return Some(OpenRefusal::Start(refusal));
    }
    match end.full() {
        Some(limit) => Some(OpenRefusal::SessionsFull(u64::from(limit))),
        None => None,
    }
}

/// Opens an attempt that nothing refuses.
fn begin(
    end: &mut EndState,
    epd: &Epd,
    candidates: &[Address],
    draws: &Draws,
    out: &mut Outbox,
) -> Result<u64, AllocError>
    requires { open_refusal end.old epd.now.print candidates.now ≡ None }
    ensures number { IfOk result (λ n. n ≡ end.old.startup.ledger.started + 1) }
    ensures ok { OnOk result (Done (opening end.old epd.now.print candidates.now draws.now)
        end.new out.old out.new) }
    ensures err { OnErr result (Done (nothing end.old) end.new out.old out.new) }
{
    let near = end.free_from(draws.word);
    let n = end.startup.peers().started() + 1;
    out.make_room(1 + candidates.len())?;
    let blanks = blanks(end.alloc, candidates.len())?;
    match end
        .startup
        .begin(epd, candidates, near, draws.nonce, draws.tag, end.moment)
    {
        Ok((fact, spread)) => {
            out.add(Entry::Fact(fact));
            end.send_each(blanks, spread.addresses(), &spread.plain, out);
            Ok(n)
        }
        Err(_) => Err(AllocError),
    }
}

/// Gives up the attempt with this number, or tells why not.
fn give_up(end: &mut EndState, n: u64, out: &mut Outbox) -> Result<(), CallRefusal>
    ensures ok { OnOk result (Done (cancelling end.old n) end.new out.old out.new) }
    ensures refused { IfNone (cancel_fact end.old.startup n) (result ≡ Err CallRefusal.NoAttempt) }
    ensures memory { IfSome (cancel_fact end.old.startup n)
        (λ _. IfErr result (λ refusal. refusal ≡ CallRefusal.Memory)) }
    ensures err { OnErr result (Done (nothing end.old) end.new out.old out.new) }
{
    if !end.has_number(n) {
        return Err(CallRefusal::NoAttempt);
    }
    if out.make_room(1).is_err() {
        return Err(CallRefusal::Memory);
    }
    if let Some(fact) = end.startup.cancel(n) {
        out.add(Entry::Fact(fact));
    }
    Ok(())
}
