//! What is kept of an attempt, in fixed arrays.

use crate::aim::Aim;
use crate::words::cookie_word;
use crypto_profile::Generation;
use rtmfp_base::limits::CANDIDATES;
use rtmfp_forms::Address;
use std::marker::Model;

/// The most bytes of a cookie that is kept (own).
pub(crate) const COOKIE_LIMIT: usize = 128;

/// The number of the gap that stays (own).
const LAST_GAP: u8 = 4;

/// A peer's cookie, at most 128 bytes.
#[derive(Drop)]
pub(crate) struct KeptCookie {
    pub(crate) kept: [u8; COOKIE_LIMIT],
    pub(crate) len: usize,
    /// The word that it is found by, for which it is hashed once.
    word: u64,
}

impl Model for KeptCookie {
    ghost use Rattle.std.specs.Prelude.{ℕ, List, take, ◌≡◌, ◌≤◌};
    ghost use Rattle.startup.specs.Words.{cookie_word};

    ghost Value = { List ℕ };

    ghost view = { λ c. take c.len c.kept };

    ghost invariant = { λ c. (c.len ≤ 128) × (c.word ≡ cookie_word (take c.len c.kept)) };
}

impl KeptCookie {
    ghost use Rattle.std.specs.Prelude.{◌≡◌, ◌≤◌, length};
    ghost use Rattle.startup.specs.Words.{cookie_word};

    /// The cookie that these bytes are.
    pub(crate) fn of(bytes: &[u8]) -> KeptCookie
        requires { length bytes.now ≤ 128 }
        ensures { result ≡ bytes.now }
    {
        let mut kept = [0; COOKIE_LIMIT];
        kept[..bytes.len()].copy_from_slice(bytes);
        KeptCookie {
            kept,
            len: bytes.len(),
            word: cookie_word(bytes),
        }
    }

    /// The word that it is found by.
    pub(crate) fn word(&self) -> u64
        ensures { result ≡ cookie_word self.now }
    {
        self.word
    }

    pub(crate) fn bytes(&self) -> &[u8]
        ensures bytes { result.now ≡ self.now }
        ensures limit { length self.now ≤ 128 }
    {
        &self.kept[..self.len]
    }
}

/// How far an attempt has come.
#[derive(Drop)]
pub(crate) enum Stage {
    /// Hellos go to all candidates.
    Hello,
    /// The responder answered from this address with this cookie, and keyings go there, in the
    /// generation in which its answer opened, which is kept hashed.
    Keying {
        at: Address,
        cookie: KeptCookie,
        under: Generation,
    },
}

/// An attempt.
#[derive(Drop)]
pub(crate) struct Attempt {
    /// What it is towards.
    pub(crate) aim: Aim,
    /// Its nonce.
    pub(crate) ni: [u8; 16],
    /// The tag of its hellos.
    pub(crate) tag: [u8; 16],
    /// When it was started, in milliseconds.
    pub(crate) start: u64,
    /// The candidate addresses: the first `count` of these, no two at one place.
    pub(crate) candidates: [Address; CANDIDATES],
    pub(crate) count: usize,
    pub(crate) stage: Stage,
    /// When something was last sent for it.
    pub(crate) last: u64,
    /// Which gap comes before its next repeat.
    pub(crate) gap: u8,
}

impl Model for Attempt {
    ghost use Rattle.std.specs.Prelude.{◌≤◌, take};
    ghost use Rattle.startup.specs.State.{AttemptState, attempt_code};
    ghost use Rattle.rtmfp_forms.specs.contracts.address.Address as address_type;
    ghost use Rattle.startup.specs.contracts.aim.Aim as aim_type;
    ghost use Rattle.startup.specs.contracts.attempt.Stage as stage_type;

    ghost Value = { AttemptState };

    ghost coded = { attempt_code aim_type.the_row.coded address_type.the_row.coded
        stage_type.the_row.coded };

    ghost view = { λ a. record {
      aim = a.aim;
      ni = a.ni;
      tag = a.tag;
      start = a.start;
      candidates = take a.count a.candidates;
      stage = a.stage;
      last = a.last;
      gap = a.gap;
    } };

    ghost invariant = { λ a. a.count ≤ 16 };
}

impl Attempt {
    ghost use Rattle.std.specs.Prelude.{◌≡◌, ◌+◌, ◌≤◌, length};
    ghost use Rattle.startup.specs.Attempts.{answered, met, recookied};
    ghost use Rattle.startup.specs.Due.{repeated};
    ghost use Rattle.startup.specs.Redirects.{extended};
    ghost use Rattle.startup.specs.Sought.{change_of, Allows};

    /// It changes so at a moment.
    pub(crate) fn change(&mut self, change: &Change<'_>, moment: u64)
        requires { Allows change.now self.old }
        ensures { self.new ≡ change_of change.now moment self.old }
    {
        match change {
            Change::Answered(from, cookie, under) => self.answer(from, cookie, moment, under),
            Change::Met {
                peer,
                n,
                from,
                cookie,
                under,
            } => self.meet(peer, *n, from, cookie, moment, under),
            Change::Recookied(new) => self.recookie(new, moment),
            Change::Extended(new) => self.extend(new, moment),
            Change::Repeated => self.repeat(moment),
        }
    }

    /// The responder answered from this address with this cookie, in this generation, which isn't
    /// hashed again.
    pub(crate) fn answer(&mut self, from: &Address, cookie: &[u8], moment: u64, under: &Generation)
        requires { length cookie.now ≤ 128 }
        ensures { self.new ≡ answered self.old from.now cookie.now moment under.now }
    {
        self.stage = Stage::Keying {
            at: *from,
            cookie: KeptCookie::of(cookie),
            under: under.copy(),
        };
        self.last = moment;
        self.gap = 0;
    }

    /// The search was answered by this end, from this address with this cookie, in this
    /// generation: it is the attempt towards it with this number, which starts now.
    pub(crate) fn meet(
        &mut self,
        peer: &[u8; 32],
        n: u64,
        from: &Address,
        cookie: &[u8],
        moment: u64,
        under: &Generation,
    )
        requires { length cookie.now ≤ 128 }
        ensures { self.new ≡ met self.old peer.now n from.now cookie.now moment under.now }
    {
        self.aim = Aim::AtPeer { peer: *peer, n };
        self.start = moment;
        self.answer(from, cookie, moment, under);
    }

    /// Its keying goes out with another cookie from now on.
    pub(crate) fn recookie(&mut self, new: &[u8], moment: u64)
        requires { length new.now ≤ 128 }
        ensures { self.new ≡ recookied self.old new.now moment }
    {
        match &mut self.stage {
            Stage::Hello => {}
            Stage::Keying { cookie, .. } => *cookie = KeptCookie::of(new),
        }
        self.last = moment;
    }

    /// The candidate addresses.
    pub(crate) fn addresses(&self) -> &[Address]
        ensures candidates { result.now ≡ self.now.candidates }
        ensures few { length self.now.candidates ≤ 16 }
    {
        &self.candidates[..self.count]
    }

    /// It has further candidates, which hellos went to.
    pub(crate) fn extend(&mut self, new: &[Address], moment: u64)
        requires { length self.old.candidates + length new.now ≤ 16 }
        ensures { self.new ≡ extended self.old new.now moment }
    {
        let end = self.count + new.len();
        let candidates = &mut self.candidates[..];
        candidates[self.count..end].copy_from_slice(new);
        self.count = end;
        self.last = moment;
    }

    /// What it sends is sent again.
    pub(crate) fn repeat(&mut self, moment: u64)
        ensures { self.new ≡ repeated self.old moment }
    {
        self.last = moment;
        self.gap = if self.gap < LAST_GAP {
            self.gap + 1
        } else {
            LAST_GAP
        };
    }
}

/// How an attempt changes.
#[derive(Drop)]
pub(crate) enum Change<'a> {
    /// The responder answered from this address with this cookie, in this generation.
    Answered(&'a Address, &'a [u8], &'a Generation),
    /// The search was answered from this address with this cookie, in this generation, and is the
    /// attempt with this number towards this end.
    Met {
        peer: &'a [u8; 32],
        n: u64,
        from: &'a Address,
        cookie: &'a [u8],
        under: &'a Generation,
    },
    /// Its keying goes out with this cookie from now on.
    Recookied(&'a [u8]),
    /// It has these further candidates, which hellos went to.
    Extended(&'a [Address]),
    /// What it sends is sent again.
    Repeated,
}

/// An attempt, and its near id.
#[derive(Drop)]
pub(crate) struct Row {
    pub(crate) near: u32,
    pub(crate) attempt: Attempt,
}
