//! What an attempt sends.

ghost use Rattle.std.specs.Prelude.{◌≡◌, ◌≤◌, false, length, take};
ghost use Rattle.startup.specs.Aims.{is_search};
ghost use Rattle.startup.specs.State.{FitsStage};
ghost use Rattle.startup.specs.Attempts.{keying_under, again_under, hello_spread};
ghost use Rattle.startup.specs.Due.{repeat_under};

use crate::aim::Aim;
use crate::answer::{Answer, Due, Spread};
use crate::attempt::{Attempt, Stage};
use crypto_profile::Generation;
use identity::Certificate;
use rtmfp_base::limits::CANDIDATES;
use rtmfp_forms::Address;
use startup_packets::{ihello_packet, iikeying_packet};

/// The hellos of an attempt, to the first `count` of these addresses.
pub(crate) fn hello_to(attempt: &Attempt, to: &[Address; CANDIDATES], count: usize) -> Spread
    requires { count ≤ 16 }
    ensures { result ≡ hello_spread attempt.now (take count to.now) }
{
    let epd = attempt.aim.discriminator();
    Spread {
        to: *to,
        count,
        plain: ihello_packet(epd.bytes(), &attempt.tag),
    }
}

/// The hellos of an attempt, to all its candidates.
pub(crate) fn hello_spread(attempt: &Attempt) -> Spread
    ensures { result ≡ hello_spread attempt.now attempt.now.candidates }
{
    hello_to(attempt, &attempt.candidates, attempt.count)
}

/// The keying of an attempt in this generation, to an address with a cookie. It is no search.
fn keying_in(
    near: u32,
    attempt: &Attempt,
    cert: &Certificate,
    to: &Address,
    cookie: &[u8],
    under: &Generation,
) -> Answer
    requires aims { is_search attempt.now.aim ≡ false }
    requires cookie { length cookie.now ≤ 128 }
    ensures { result ≡ keying_under under.now cert.now near attempt.now to.now cookie.now }
{
    let key = under.sign();
    let plain = match &attempt.aim {
        Aim::AtPeer { peer, n } => {
            iikeying_packet(key, near, cookie, cert.bytes(), &attempt.ni, *n, peer)
        }
        Aim::ByName { .. } => unreachable!(),
    };
    Answer::under(under, to, 0, plain)
}

/// The keying of an attempt in its own generation, to the address that answered, with another
/// cookie; None in the hello stage.
pub(crate) fn keying_again(
    near: u32,
    attempt: &Attempt,
    cert: &Certificate,
    cookie: &[u8],
) -> Option<Answer>
    requires fits { FitsStage attempt.now.aim attempt.now.stage }
    requires cookie { length cookie.now ≤ 128 }
    ensures { result ≡ again_under cert.now near attempt.now attempt.now.stage cookie.now }
{
    match &attempt.stage {
        Stage::Hello => None,
        Stage::Keying { at, under, .. } => {
            Some(keying_in(near, attempt, cert, at, cookie, under))
        }
    }
}

/// What an attempt sends again, a keying in its own generation.
pub(crate) fn repeat_of(near: u32, attempt: &Attempt, cert: &Certificate) -> Due
    requires { FitsStage attempt.now.aim attempt.now.stage }
    ensures { result ≡ repeat_under cert.now near attempt.now attempt.now.stage }
{
    match &attempt.stage {
        Stage::Hello => Due::Hello(hello_spread(attempt)),
        Stage::Keying { at, cookie, under } => {
            let kept = cookie.bytes();
            Due::Keying(keying_in(near, attempt, cert, at, kept, under))
        }
    }
}
