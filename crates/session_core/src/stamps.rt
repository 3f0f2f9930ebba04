//! Timestamps: the sender's clock in units of 4 ms, modulo 65,536 (RFC 7016 section 2.2.4).

ghost use Rattle.std.specs.Prelude.{◌≡◌};
ghost use Rattle.session_core.specs.Stamps.{echo_of, tick_of, stamp_after};

/// The milliseconds of a unit of a timestamp.
const UNIT: u64 = 4;

/// How many values a timestamp has.
const VALUES: u64 = 65_536;

/// The milliseconds for which a timestamp is echoed (own).
const ECHOED_FOR: u64 = 128_000;

/// A timestamp of the peer, and the moment at which it was taken.
#[derive(Clone, Copy, Debug)]
pub struct Stamp {
    pub value: u16,
    pub at: u64,
}

/// The timestamp of a moment.
pub(crate) fn tick_of(moment: u64) -> u16
    ensures { result ≡ tick_of moment }
{
    (moment / UNIT % VALUES) as u16
}

/// The echo of a timestamp at a moment: none where it is too old.
pub(crate) fn echo_of(stamp: Option<Stamp>, moment: u64) -> Option<u16>
    ensures { result ≡ echo_of stamp moment }
{
    let stamp = stamp?;
    let age = moment.saturating_sub(stamp.at);
    if age < ECHOED_FOR {
        Some(((stamp.value as u64 + age / UNIT) % VALUES) as u16)
    } else {
        None
    }
}

/// The timestamp that is kept once a packet with this one, or with none, was taken at a moment.
pub(crate) fn stamp_after(kept: Option<Stamp>, value: Option<u16>, moment: u64) -> Option<Stamp>
    ensures { result ≡ stamp_after kept value moment }
{
    match value {
        Some(value) => Some(Stamp { value, at: moment }),
        None => kept,
    }
}
