//! The times of round trips, by echoes of timestamps (after RFC 7016 section 3.5.2.2; the numbers
//! are own).

ghost use Rattle.std.specs.Prelude.{◌≡◌};
ghost use Rattle.session_core.specs.Trips.{sample_of, trip_with, trip_after, resend_time};

use crate::stamps::tick_of;

/// The milliseconds after which what was sent is sent again, before the first sample.
const FIRST_RESEND: u64 = 1000;

/// The time of a round trip in milliseconds, smoothed, and its variation.
#[derive(Clone, Copy, Debug)]
pub struct RoundTrip {
    pub srtt: u32,
    pub var: u32,
}

/// The time that an echo tells at a moment. Half of all values or more are no time that passed.
fn sample_of(echo: Option<u16>, moment: u64) -> Option<u32>
    ensures { result ≡ sample_of echo moment }
{
    let echo = echo?;
    let units = (tick_of(moment) as u32 + 65_536 - echo as u32) % 65_536;
    if units < 32_768 {
        Some(4 * units)
    } else {
        None
    }
}

/// The round trip with a sample.
fn trip_with(trip: Option<RoundTrip>, sample: u32) -> RoundTrip
    ensures { result ≡ trip_with trip sample }
{
    match trip {
        None => RoundTrip {
            srtt: sample,
            var: sample / 2,
        },
        Some(trip) => RoundTrip {
            srtt: ((7 * trip.srtt as u64 + sample as u64) / 8) as u32,
            var: ((3 * trip.var as u64 + trip.srtt.abs_diff(sample) as u64) / 4) as u32,
        },
    }
}

/// What is kept once a packet with this echo, or with none, was taken at a moment.
pub(crate) fn trip_after(
    trip: Option<RoundTrip>,
    echo: Option<u16>,
    moment: u64,
) -> Option<RoundTrip>
    ensures { result ≡ trip_after trip echo moment }
{
    match sample_of(echo, moment) {
        None => trip,
        Some(sample) => Some(trip_with(trip, sample)),
    }
}

/// The milliseconds after which what was sent is sent again.
pub(crate) fn resend_time(trip: Option<RoundTrip>) -> u64
    ensures { result ≡ resend_time trip }
{
    match trip {
        None => FIRST_RESEND,
        Some(trip) => (trip.srtt as u64 + 4 * trip.var as u64 + 200)
            .min(10_000)
            .max(250),
    }
}
