//! What an audit keeps of each end, and what the ends were given first.

ghost use Rattle.std.specs.Prelude.{◌≡◌, ◌∷◌, ◌++◌, ◌+◌, ◌<◌, ◌^◌, ℕ, List, [], IfOk, OnOk, None, length};
ghost use Rattle.endpoint_model.specs.Event.{Setup, own_of};
ghost use Rattle.endpoint_laws.specs.Contexts.{Secrets};
ghost use Rattle.endpoint_laws.specs.History.{History};
ghost use Rattle.log_packets.specs.Asked.{Tells};
ghost use Rattle.log_sent.specs.Prints.{ArePrints};
ghost use Rattle.log_values.specs.Events.{setup_of};
ghost use Rattle.log_verdict.specs.Told.{end_of, setups_of};
ghost use Rattle.log_verdict.specs.Checks.{Counts, found, kept_in};
ghost use Rattle.log_audit.specs.Ends.{AreEndsOf, IsEndOf};
ghost use Rattle.log_audit.specs.Found.{AreEntered};

use cookies::CookieMaker;
use log_events::EndWatch;
use log_packets::SecretMap;
use log_sent::Prints;
use log_values::EndLog;
use log_verdict::{AuditFault, Finding};
use rtmfp_base::Memory;
use std::alloc::Global;

/// What an audit keeps of an end.
#[derive(Drop)]
pub(crate) struct KeptEnd {
    /// Its fingerprint.
    pub(crate) own: [u8; 32],
    /// The maker of its cookies.
    pub(crate) cookies: CookieMaker,
    /// What its log says so far.
    pub(crate) watch: EndWatch,
}

/// Whether the secret of an end counts for its number.
fn counts(secrets: &SecretMap, log: &EndLog) -> bool
    ensures { Tells (Counts secrets.now (setup_of log.now).generation (setup_of log.now).secret)
        result }
{
    match secrets.get(log.generation) {
        Some(group) => *group.secret().bytes() == log.secret,
        None => false,
    }
}

/// What is found of the end before which so many come.
fn finding_at(before: u64, fault: AuditFault) -> Finding
    requires { before + 1 < 2 ^ 64 }
    ensures { result ≡ found 0 (before + 1) fault }
{
    Finding {
        event: 0,
        entry: before + 1,
        fault,
    }
}

/// Looks at what the next end was given first, before which so many come. Its fingerprint is added
/// to theirs.
fn look(
    secrets: &SecretMap,
    log: &EndLog,
    own: &[u8; 32],
    before: u64,
    prints: &mut Prints,
) -> Result<Option<Finding>, Memory>
    requires own { own_of (setup_of log.now) ≡ own.now }
    requires room { before + 1 < 2 ^ 64 }
    ensures found { (earlier : List (List ℕ)) → ArePrints earlier prints.old →
        IfOk result (AreEntered secrets.now earlier before (setup_of log.now ∷ [])) }
    ensures prints { (earlier : List (List ℕ)) → ArePrints earlier prints.old →
        IfOk result (λ found. found ≡ None → ArePrints (own_of (setup_of log.now) ∷ earlier)
        prints.new) }
{
    if !counts(secrets, log) {
        return Ok(Some(finding_at(before, AuditFault::Secrets)));
    }
    if !prints.add(own)? {
        return Ok(Some(finding_at(before, AuditFault::NotFresh)));
    }
    Ok(None)
}

/// What is kept of an end of which no event went by. It takes no memory.
fn new_end(log: &EndLog, own: [u8; 32], alloc: Global) -> KeptEnd
    requires { own_of (setup_of log.now) ≡ own }
    ensures { (secrets : Secrets) (setups : List Setup) (who : ℕ) →
        end_of setups who ≡ setup_of log.now → IsEndOf secrets setups [] who result }
{
    KeptEnd {
        own,
        cookies: CookieMaker::new(log.cookie_secret),
        watch: EndWatch::new(log.generation, alloc),
    }
}

/// Puts an end behind the others.
fn push(ends: &mut Vec<KeptEnd>, end: KeptEnd) -> Result<(), Memory>
    ensures { OnOk result (ends.new.items ≡ ends.old.items ++ end ∷ []) }
{
    match ends.push(end) {
        Ok(()) => Ok(()),
        Err(_) => Err(Memory),
    }
}

/// Looks at what the ends were given first, and begins to keep them. The answer is the first check
/// that fails of that; None exactly where all pass.
pub(crate) fn enter_all(
    secrets: &SecretMap,
    logs: &[EndLog],
    ends: &mut Vec<KeptEnd>,
    alloc: Global,
) -> Result<Option<Finding>, Memory>
    requires { ends.old.items ≡ [] }
    ensures found { IfOk result (AreEntered secrets.now [] 0 (setups_of logs.now)) }
    ensures ends { IfOk result (λ found. found ≡ None →
        AreEndsOf secrets.now (setups_of logs.now) [] ends.new.items) }
{
    let mut prints = Prints::new(alloc);
    let mut before = 0;
    let mut rest = logs;
    while let [log, more @ ..] = rest {
        let own = log.cert.print();
        if let Some(found) = look(secrets, log, &own, before, &mut prints)? {
            return Ok(Some(found));
        }
        push(ends, new_end(log, own, alloc))?;
        before += 1;
        rest = more;
    }
    Ok(None)
}

/// With how many peers the ends keep a session, together. So many that 64 bits are too few for them
/// fit in no memory.
pub(crate) fn kept_by(ends: &[KeptEnd]) -> Result<u64, Memory>
    ensures { (secrets : Secrets) (setups : List Setup) (history : History) →
        AreEndsOf secrets setups history ends.now →
        IfOk result (λ kept. kept ≡ kept_in (length ends.now) history) }
{
    let mut kept: u64 = 0;
    for end in ends {
        kept = match kept.checked_add(end.watch.kept) {
            Some(more) => more,
            None => return Err(Memory),
        };
    }
    Ok(kept)
}
