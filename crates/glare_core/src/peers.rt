//! What one end holds with its peers, and what it has counted.

ghost use Rattle.std.specs.Prelude.{Bool, not, ◌&&◌, ◌==◌, ◌≤◌, ◌≡◌, ◌≢◌, ◌+◌, ℕ, List, [], ◌∷◌, length, false, IfOk, IfErr, IfSome, IfNone, OnErr, Ok, Err, is_some, option_to_list};
ghost use Rattle.std.specs.List.{list_any};
ghost use Rattle.std.specs.Option.{option_copied};
ghost use Rattle.std.specs.Str.{bytes_eq};
ghost use Rattle.glare_core.specs.declared.facts.Fact.{Fact};
ghost use Rattle.glare_core.specs.declared.answers.Judged.TheVariants.{Birth};
ghost use Rattle.glare_core.specs.Standing.{held, seen, count, peers_in};
ghost use Rattle.glare_core.specs.Ledger.{held_with, floor_of, knows, row_count, new_ledger, noted, noted_if};
ghost use Rattle.rtmfp_base.specs.Reasons.{where_true};
ghost use Rattle.glare_core.specs.Calls.{start_refusal, started_fact, birth_refusal, hear_refusal, judged, heard, heard_facts, heard_noted, opened_fact, confirmed_fact, ended_fact, MayEnd};
ghost use Rattle.glare_core.specs.Account.{StandsFor, Gave};

use crate::answers::{HearRefusal, Heard, Judged, Keying, StartRefusal, Way};
use crate::facts::{Fact, Held, Joined, Why};
use crate::given::{
    again, confirmed_fact, ended_fact, glare, near_of, opened_fact, session_again, way_made,
};
use crate::rows::{Rows, Seat};
use std::alloc::{AllocError, Global};
use std::marker::Model;

/// What an end holds with its peers: at most one attempt or session with each. A call takes constant
/// time on average, however many peers there are.
///
/// Contracts see it as a ledger: the own fingerprint, the limit on rows, the count of attempts, and
/// a finite map from peers to what is held and to the greatest number seen. A ledger stands for the
/// list of the facts that it gave: `new` stands for none, and each call brings it from any list to
/// that list and the facts of the call, each of which meets the table of lawful facts.
#[derive(Drop)]
pub struct Peers {
    own: [u8; 32],
    max_peers: u32,
    started: u64,
    rows: Rows,
}

impl Model for Peers {
    ghost use Rattle.glare_core.specs.Ledger.{Ledger, ledger_code};
    ghost use Rattle.glare_core.specs.contracts.facts.Held as held_type;

    ghost Value = { Ledger };

    ghost coded = { ledger_code held_type.the_row.coded };

    ghost use Rattle.std.specs.Prelude.{◌≤◌};
    ghost use Rattle.std.specs.FinMap.{len};

    ghost view = { λ p. record {
      own = p.own;
      max_peers = p.max_peers;
      started = p.started;
      rows = p.rows;
    } };

    ghost invariant = { λ p. len p.rows ≤ p.max_peers };
}

impl Peers {
    /// Peers of which nothing is known yet, with at most `max_peers` rows; attempts are numbered
    /// from `started` + 1 on. It takes no memory.
    pub fn new(alloc: Global, own: [u8; 32], max_peers: u32, started: u64) -> Peers
        ensures ledger { result ≡ new_ledger own max_peers started }
        ensures stands { StandsFor started result [] }
    {
        Peers {
            own,
            max_peers,
            started,
            rows: Rows::new(alloc),
        }
    }

    /// The number of rows, where the peer has none and there are as many as may be.
    fn full_for(&self, seat: &Seat) -> Option<u64>
        ensures { result ≡ where_true (not seat.now.known
            && (row_count self.now == self.now.max_peers)) (row_count self.now) }
    {
        if !seat.known && self.rows.len() == self.max_peers as usize {
            Some(self.rows.len() as u64)
        } else {
            None
        }
    }

    /// Why no attempt towards the peer starts, but for want of memory.
    fn refusal_at(&self, peer: &[u8; 32], seat: &Seat) -> Option<StartRefusal>
        requires held { seat.now.held ≡ held_with self.now peer.now }
        requires known { seat.now.known ≡ knows self.now peer.now }
        ensures { result ≡ start_refusal self.now peer.now }
    {
        if *peer == self.own {
            return Some(StartRefusal::OwnPrint);
        }
        match &seat.held {
            Some(Held::Opening { n, .. }) => return Some(StartRefusal::Opening(*n)),
            Some(session) => return Some(StartRefusal::Open(near_of(session))),
            None => {}
        }
        if self.started == u64::MAX {
            return Some(StartRefusal::AttemptsSpent);
        }
        match self.full_for(seat) {
            Some(count) => Some(StartRefusal::PeersFull(count)),
            None => None,
        }
    }

    /// Why `start` would refuse this peer, but for want of memory; None exactly where it would not.
    /// It changes nothing and takes no memory.
    pub fn start_refusal(&self, peer: &[u8; 32]) -> Option<StartRefusal>
        ensures { result ≡ start_refusal self.now peer.now }
    {
        self.refusal_at(peer, &self.rows.seat(peer))
    }

    /// Starts an attempt towards the peer, whose near id and nonce are given; it gives Started,
    /// numbered one above the count.
    ///
    /// It takes memory only for the row of a peer that has none. Where it is refused, all is as
    /// before; `StartRefusal` has the reasons in their order.
    pub fn start(&mut self, peer: &[u8; 32], near: u32, ni: [u8; 16]) -> Result<Fact, StartRefusal>
        ensures ok { IfOk result (λ fact. (fact ≡ started_fact self.old peer.now near ni) ×
            (self.new ≡ noted self.old fact)) }
        ensures refused { IfSome (start_refusal self.old peer.now) (λ refusal. result
            ≡ Err refusal) }
        ensures memory { IfNone (start_refusal self.old peer.now)
            (IfErr result (λ refusal. (refusal ≡ StartRefusal.Memory) ×
            (knows self.old peer.now ≡ false))) }
        ensures err { OnErr result (self.new ≡ self.old) }
        ensures own { self.new.own ≡ self.old.own }
        ensures gave { IfOk result (λ fact. Gave self.old (fact ∷ []) self.new) }
    {
        let seat = self.rows.seat(peer);
        match self.refusal_at(peer, &seat) {
            Some(refusal) => return Err(refusal),
            None => {}
        }
        let fact = Fact::Started {
            peer: *peer,
            n: self.started + 1,
            near,
            ni,
        };
        match self.rows.note_after(seat.known, &None, &fact) {
            Ok(()) => {
                self.started += 1;
                Ok(fact)
            }
            Err(_) => Err(StartRefusal::Memory),
        }
    }

    /// Why no session is born of a keying that wasn't heard before, but for want of memory.
    fn birth_refusal(&self, keying: &Keying, seat: &Seat, free: bool) -> Option<HearRefusal>
        requires held { seat.now.held ≡ held_with self.now keying.now.peer }
        requires floor { seat.now.floor ≡ floor_of self.now keying.now.peer }
        requires known { seat.now.known ≡ knows self.now keying.now.peer }
        ensures { result ≡ birth_refusal self.now keying.now free }
    {
        if keying.n <= seat.floor {
            return Some(HearRefusal::Stale(seat.floor));
        }
        if let Some(refusal) = glare(&self.own, &keying.peer, &seat.held) {
            return Some(refusal);
        }
        if let Some(count) = self.full_for(seat) {
            return Some(HearRefusal::PeersFull(count));
        }
        if seat.held.is_none() && !free {
            Some(HearRefusal::SessionsFull)
        } else {
            None
        }
    }

    /// Why `hear` would refuse this keying, but for want of memory; None exactly where it would
    /// not. It changes nothing and takes no memory.
    pub fn hear_refusal(&self, keying: &Keying, free: bool) -> Option<HearRefusal>
        ensures { result ≡ hear_refusal self.now keying.now free }
    {
        let seat = self.rows.seat(&keying.peer);
        if again(&seat.held, keying).is_some() {
            return None;
        }
        self.birth_refusal(keying, &seat, free)
    }

    /// What hearing this keying would be: it is that of the held session, or a session is born; else
    /// why `hear` would refuse it, but for want of memory. The row of the peer is looked up once. It
    /// changes nothing and takes no memory.
    pub fn judge(&self, keying: &Keying, free: bool) -> Result<Judged, HearRefusal>
        ensures { result ≡ judged self.now keying.now free }
    {
        let seat = self.rows.seat(&keying.peer);
        if let Some(session) = session_again(&seat.held, keying) {
            return Ok(Judged::Again(session));
        }
        match self.birth_refusal(keying, &seat, free) {
            Some(refusal) => Err(refusal),
            None => Ok(Judged::Birth(Way {
                known: seat.known,
                held: seat.held,
            })),
        }
    }

    /// Bears the session of a keying of a peer that isn't this end, which was found to be a birth
    /// in this way; its near id and responder nonce are given. It gives the fact that ended what
    /// was held with the peer, and the fact of the session.
    ///
    /// It takes memory only for the row of a peer that has none; where there is none, all is as
    /// before. The row isn't looked up again.
    pub fn bear(
        &mut self,
        keying: &Keying,
        way: &Way,
        near: u32,
        nr: [u8; 16],
    ) -> Result<(Option<Fact>, Fact), AllocError>
        requires other { self.old.own ≢ keying.now.peer }
        requires judged { (free : Bool) × (judged self.old keying.now free ≡ Ok (Birth way.now)) }
        ensures ok { IfOk result
            (λ facts. (Heard.Birth facts.0 facts.1 ≡ heard self.old keying.now near nr) ×
            (self.new ≡ heard_noted self.old (Heard.Birth facts.0 facts.1))) }
        ensures memory { OnErr result (knows self.old keying.now.peer ≡ false) }
        ensures err { OnErr result (self.new ≡ self.old) }
        ensures own { self.new.own ≡ self.old.own }
        ensures gave { IfOk result
            (λ facts. Gave self.old (heard_facts (Heard.Birth facts.0 facts.1)) self.new) }
    {
        let born = Fact::Born(Joined {
            peer: keying.peer,
            n: keying.n,
            near,
            far: keying.far,
            ni: keying.ni,
            nr,
            k: self.started,
        });
        let ended = way_made(&keying.peer, &way.held);
        match self.rows.note_after(way.known, &ended, &born) {
            Ok(()) => Ok((ended, born)),
            Err(refusal) => Err(refusal),
        }
    }

    /// Hears a keying of a peer that isn't this end, whose near id and responder nonce for a
    /// session are given; `free` says whether there is room for one.
    ///
    /// It gives Again exactly where the held session was born of this very keying, and else, where
    /// nothing refuses it, the birth of a session: a held attempt ends with Glare, a held session
    /// with Override. It takes memory only for the row of a peer that has none. Where it is
    /// refused, all is as before; `HearRefusal` has the reasons in their order.
    pub fn hear(
        &mut self,
        keying: &Keying,
        near: u32,
        nr: [u8; 16],
        free: bool,
    ) -> Result<Heard, HearRefusal>
        requires { self.old.own ≢ keying.now.peer }
        ensures ok { IfOk result (λ answer. (answer ≡ heard self.old keying.now near nr) ×
            (self.new ≡ heard_noted self.old answer)) }
        ensures refused { IfSome (hear_refusal self.old keying.now free) (λ refusal. result
            ≡ Err refusal) }
        ensures memory { IfNone (hear_refusal self.old keying.now free)
            (IfErr result (λ refusal. (refusal ≡ HearRefusal.Memory) ×
            (knows self.old keying.now.peer ≡ false))) }
        ensures err { OnErr result (self.new ≡ self.old) }
        ensures own { self.new.own ≡ self.old.own }
        ensures gave { IfOk result (λ answer. Gave self.old (heard_facts answer) self.new) }
    {
        match self.judge(keying, free) {
            Ok(Judged::Again(session)) => Ok(Heard::Again(session.near)),
            Ok(Judged::Birth(way)) => match self.bear(keying, &way, near, nr) {
                Ok((ended, born)) => Ok(Heard::Birth { ended, born }),
                Err(_) => Err(HearRefusal::Memory),
            },
            Err(refusal) => Err(refusal),
        }
    }

    /// Opens the held attempt towards the peer: it gives Opened; None exactly where no attempt is
    /// held. It takes no memory.
    pub fn answer(&mut self, peer: &[u8; 32], nr: [u8; 16], far: u32, k: u64) -> Option<Fact>
        ensures fact { result ≡ opened_fact (held_with self.old peer.now) peer.now nr far k }
        ensures ledger { self.new ≡ noted_if self.old result }
        ensures own { self.new.own ≡ self.old.own }
        ensures gave { Gave self.old (option_to_list result) self.new }
    {
        let seat = self.rows.seat(peer);
        let fact = opened_fact(&seat.held, peer, nr, far, k);
        self.rows.note_if(&fact);
        fact
    }

    /// Confirms the held half-open session with the peer: it gives Confirmed; None exactly where
    /// nothing half-open is held. It takes no memory.
    pub fn confirm(&mut self, peer: &[u8; 32]) -> Option<Fact>
        ensures fact { result ≡ confirmed_fact (held_with self.old peer.now) peer.now }
        ensures ledger { self.new ≡ noted_if self.old result }
        ensures own { self.new.own ≡ self.old.own }
        ensures gave { Gave self.old (option_to_list result) self.new }
    {
        let seat = self.rows.seat(peer);
        let fact = confirmed_fact(&seat.held, peer);
        self.rows.note_if(&fact);
        fact
    }

    /// Ends what is held with the peer: it gives Ended; None exactly where nothing is held. It
    /// takes no memory.
    ///
    /// An attempt may end here with Cancelled or Expired, a half-open session with Unconfirmed,
    /// Near or Far, a kept one with Near, Far or Idle: what is given is lawful then.
    pub fn end(&mut self, peer: &[u8; 32], why: Why) -> Option<Fact>
        ensures fact { result ≡ ended_fact (held_with self.old peer.now) peer.now why }
        ensures ledger { self.new ≡ noted_if self.old result }
        ensures own { self.new.own ≡ self.old.own }
        ensures gave { IfSome (held_with self.old peer.now) (MayEnd why) →
            Gave self.old (option_to_list result) self.new }
    {
        let seat = self.rows.seat(peer);
        let fact = ended_fact(&seat.held, peer, why);
        self.rows.note_if(&fact);
        fact
    }

    /// What is held with the peer.
    pub fn held(&self, peer: &[u8; 32]) -> Option<&Held>
        ensures held { option_copied result ≡ held_with self.now peer.now }
        ensures facts { (from : ℕ) (facts : List Fact) → StandsFor from self.now facts →
            option_copied result ≡ held peer.now facts }
    {
        self.rows.held(peer)
    }

    /// The greatest n of a Born of the peer and k of an Opened with it, 0 at first.
    pub fn floor(&self, peer: &[u8; 32]) -> u64
        ensures floor { result ≡ floor_of self.now peer.now }
        ensures facts { (from : ℕ) (facts : List Fact) → StandsFor from self.now facts →
            result ≡ seen peer.now facts }
    {
        self.rows.seat(peer).floor
    }

    /// How many attempts were started, with the number that `new` was given.
    pub fn started(&self) -> u64
        ensures started { result ≡ self.now.started }
        ensures facts { (from : ℕ) (facts : List Fact) → StandsFor from self.now facts →
            result ≡ from + count facts }
    {
        self.started
    }

    /// Whether the peer has a row.
    pub fn knows(&self, peer: &[u8; 32]) -> bool
        ensures knows { result ≡ knows self.now peer.now }
        ensures facts { (from : ℕ) (facts : List Fact) → StandsFor from self.now facts →
            result ≡ list_any (bytes_eq peer.now) (peers_in facts) }
    {
        self.rows.seat(peer).known
    }

    /// The number of rows. Rows are kept for good.
    pub fn rows(&self) -> u32
        ensures rows { result ≡ row_count self.now }
        ensures within { result ≤ self.now.max_peers }
        ensures facts { (from : ℕ) (facts : List Fact) → StandsFor from self.now facts →
            result ≡ length (peers_in facts) }
    {
        // Read for the prover alone: as many rows as may be fit 32 bits.
        let _most = self.max_peers;
        self.rows.len() as u32
    }
}
