//! What one session took.

ghost use Rattle.std.specs.Prelude.{◌≡◌, ℕ, List, []};
ghost use Rattle.crypto_profile.specs.declared.keys.Context.{Context};
ghost use Rattle.endpoint_laws.specs.Past.{Taken};
ghost use Rattle.endpoint_laws.specs.Contexts.{Secrets};
ghost use Rattle.rtmfp_packet.specs.declared.head.Mode.{Mode};
ghost use Rattle.log_digest.specs.Hearing.{nothing_heard, heard_with, latest, takes, IsHearingOf, OpensAs, Hears};

use crypto_profile::ReplayWindow;
use std::marker::Model;

/// What a session took of the datagrams that its end was given since it began (own): which numbers
/// it would still take, and when it took the last one.
///
/// Contracts see the window of the numbers that opened, and that moment.
#[derive(Drop)]
pub struct Hearing {
    window: ReplayWindow,
    last: Option<u64>,
}

impl Model for Hearing {
    ghost use Rattle.crypto_profile.specs.contracts.window.ReplayWindow as window_type;
    ghost use Rattle.log_digest.specs.Hearing.{Heard, heard_code};

    ghost Value = { Heard };

    ghost coded = { heard_code window_type.the_row.coded };

    ghost view = { λ h. record { window = h.window; last = h.last } };
}

/// The later of two moments.
fn latest(before: Option<u64>, moment: u64) -> u64
    ensures { result ≡ latest before moment }
{
    match before {
        Some(before) => before.max(moment),
        None => moment,
    }
}

impl Hearing {
    /// That of a session that begins.
    pub fn new() -> Hearing
        ensures value { result ≡ nothing_heard }
        ensures log { (secrets : Secrets) (context : Context) (mode : Mode) (near : ℕ) →
            IsHearingOf secrets context mode near [] result }
    {
        Hearing {
            window: ReplayWindow::new(),
            last: None,
        }
    }

    /// When the last datagram was taken, in milliseconds; None where none was.
    pub fn last(&self) -> Option<u64>
        ensures { result ≡ self.now.last }
    {
        self.last
    }

    /// The end is given a datagram that opens in the session, with this count, at this moment;
    /// `fits` tells whether it is a packet of the session's mode. It answers whether the session
    /// takes it.
    pub fn hear(&mut self, count: u64, moment: u64, fits: bool) -> bool
        ensures takes { result ≡ takes count fits self.old }
        ensures value { self.new ≡ heard_with count moment fits self.old }
        ensures log { (secrets : Secrets) (context : Context) (mode : Mode) (near : ℕ)
            (taken : List Taken) (datagram : List ℕ) →
            IsHearingOf secrets context mode near taken self.old →
            OpensAs secrets context mode near datagram count fits →
            Hears secrets context mode near taken self.new
            (record { moment = moment; datagram = datagram }) result }
    {
        self.note(count, moment, fits)
    }

    /// Notes such a datagram.
    fn note(&mut self, count: u64, moment: u64, fits: bool) -> bool
        ensures takes { result ≡ takes count fits self.old }
        ensures value { self.new ≡ heard_with count moment fits self.old }
    {
        let is_new = self.window.take(count).is_ok();
        if is_new && fits {
            self.last = Some(latest(self.last, moment));
            return true;
        }
        false
    }
}
