//! Searches that begin and are given up.

ghost use Rattle.std.specs.Prelude.{◌≡◌, IfErr, IfNone, IfOk, IfSome, None, OnErr, OnOk, Err};
ghost use Rattle.endpoint_model.specs.Effects.{seek_refusal, seeking, unseek_refusal, unseeking};
ghost use Rattle.endpoint_model.specs.Log.{Extends, seek_event, unseek_event};
ghost use Rattle.endpoint_model.specs.State.{Done, at_moment, free_from, nothing};

use crate::endpoint::Endpoint;
use crate::sizes::{are_sized, is_service_name};
use end_state::{EndState, Outbox, blanks};
use endpoint_model::{CallRefusal, Draws, Entry, SeekRefusal};
use glare_core::Why;
use identity::ServiceName;
use rtmfp_base::limits::CANDIDATES;
use rtmfp_forms::Address;
use std::alloc::AllocError;

impl Endpoint {
    /// Searches for an end whose certificate has this name, and sends a hello to each candidate
    /// place; it gives the session ID of the search (own). The end that answers first is the peer
    /// of the attempt that the search becomes, under the same session ID; only then an attempt is
    /// started.
    ///
    /// Where it is refused, all is as before but for the moment; `SeekRefusal` has the reasons in
    /// their order.
    pub fn seek(
        &mut self,
        name: &ServiceName,
        candidates: &[Address],
        moment: u64,
        draws: &Draws,
        out: &mut Outbox,
    ) -> Result<u32, SeekRefusal>
        ensures near { IfOk result (λ near. near
            ≡ free_from (at_moment self.old moment) draws.now.word) }
        ensures ok { OnOk result
            (Done (seeking (at_moment self.old moment) name.now candidates.now draws.now)
            self.new out.old out.new) }
        ensures refused { IfSome (seek_refusal (at_moment self.old moment) candidates.now)
            (λ refusal. result ≡ Err refusal) }
        ensures memory { IfNone (seek_refusal (at_moment self.old moment) candidates.now)
            (IfErr result (λ refusal. refusal ≡ SeekRefusal.Memory)) }
        ensures err { OnErr result (Done (nothing (at_moment self.old moment)) self.new out.old
            out.new) }

        // The end stands for its log with this call.
        ensures stands { Extends self.old self.new
            (seek_event moment name.now candidates.now draws.now result out.old.entries
            out.new.entries) }
    {
        is_service_name(name);
        are_sized(draws);
        search_for(&mut self.end, name, candidates, moment, draws, out)
    }

    /// Gives up the search with this session ID. An attempt stays, also one that was a search.
    ///
    /// It is refused exactly where no search has the session ID, or for want of memory; then all is
    /// as before.
    pub fn unseek(&mut self, near: u32, out: &mut Outbox) -> Result<(), CallRefusal>
        ensures ok { OnOk result (Done (unseeking self.old near) self.new out.old out.new) }
        ensures refused { IfSome (unseek_refusal self.old near) (λ refusal. result
            ≡ Err refusal) }
        ensures memory { IfNone (unseek_refusal self.old near)
            (IfErr result (λ refusal. refusal ≡ CallRefusal.Memory)) }
        ensures err { OnErr result (Done (nothing self.old) self.new out.old out.new) }

        // The end stands for its log with this call.
        ensures stands { Extends self.old self.new
            (unseek_event near result out.old.entries out.new.entries) }
    {
        give_up_search(&mut self.end, near, out)
    }
}

/// Begins a search, or tells why not.
fn search_for(
    end: &mut EndState,
    name: &ServiceName,
    candidates: &[Address],
    moment: u64,
    draws: &Draws,
    out: &mut Outbox,
) -> Result<u32, SeekRefusal>
    ensures near { IfOk result (λ near. near
        ≡ free_from (at_moment end.old moment) draws.now.word) }
    ensures ok { OnOk result
        (Done (seeking (at_moment end.old moment) name.now candidates.now draws.now) end.new
        out.old out.new) }
    ensures refused { IfSome (seek_refusal (at_moment end.old moment) candidates.now)
        (λ refusal. result ≡ Err refusal) }
    ensures memory { IfNone (seek_refusal (at_moment end.old moment) candidates.now)
        (IfErr result (λ refusal. refusal ≡ SeekRefusal.Memory)) }
    ensures err { OnErr result (Done (nothing (at_moment end.old moment)) end.new out.old
        out.new) }
{
    end.advance(moment);
    if let Some(refusal) = seek_refusal(end, candidates) {
        return Err(refusal);
    }
    match begin_search(end, name, candidates, draws, out) {
        Ok(near) => Ok(near),
        Err(_) => Err(SeekRefusal::Memory),
    }
}

/// Why no search begins, but for want of memory.
fn seek_refusal(end: &EndState, candidates: &[Address]) -> Option<SeekRefusal>
    ensures { result ≡ seek_refusal end.now candidates.now }
{
    let count = candidates.len();
    if count == 0 || count > CANDIDATES {
        return Some(SeekRefusal::Candidates(count as u64));
    }
    match end.full() {
        Some(limit) => Some(SeekRefusal::SessionsFull(u64::from(limit))),
        None => None,
    }
}

/// Begins a search that nothing refuses.
fn begin_search(
    end: &mut EndState,
    name: &ServiceName,
    candidates: &[Address],
    draws: &Draws,
    out: &mut Outbox,
) -> Result<u32, AllocError>
    requires { seek_refusal end.old candidates.now ≡ None }
    ensures near { IfOk result (λ near. near ≡ free_from end.old draws.now.word) }
    ensures ok { OnOk result (Done (seeking end.old name.now candidates.now draws.now) end.new
        out.old out.new) }
    ensures err { OnErr result (Done (nothing end.old) end.new out.old out.new) }
{
    let near = end.free_from(draws.word);
    out.make_room(1 + candidates.len())?;
    let blanks = blanks(end.alloc, candidates.len())?;
    match end
        .startup
        .seek(name, candidates, near, draws.nonce, draws.tag, end.moment)
    {
        Ok(spread) => {
            out.add(Entry::Sought { near, name: *name });
            end.send_each(blanks, spread.addresses(), &spread.plain, out);
            Ok(near)
        }
        Err(_) => Err(AllocError),
    }
}

/// Gives up the search with this session ID, or tells why not.
fn give_up_search(end: &mut EndState, near: u32, out: &mut Outbox) -> Result<(), CallRefusal>
    ensures ok { OnOk result (Done (unseeking end.old near) end.new out.old out.new) }
    ensures refused { IfSome (unseek_refusal end.old near) (λ refusal. result ≡ Err refusal) }
    ensures memory { IfNone (unseek_refusal end.old near)
        (IfErr result (λ refusal. refusal ≡ CallRefusal.Memory)) }
    ensures err { OnErr result (Done (nothing end.old) end.new out.old out.new) }
{
    if !end.startup.has_search(near) {
        return Err(CallRefusal::NoAttempt);
    }
    if out.make_room(1).is_err() {
        return Err(CallRefusal::Memory);
    }
    end.startup.unseek(near);
    out.add(Entry::Unsought {
        near,
        why: Why::Cancelled,
    });
    Ok(())
}
