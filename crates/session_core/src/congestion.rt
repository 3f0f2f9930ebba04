//! The window of the bytes in flight (own).

ghost use Rattle.std.specs.Prelude.{◌≡◌, ◌≤◌};
ghost use Rattle.session_core.specs.Congestion.{first_congestion, growth, grown, halved, shrunk};

/// The window at first, and its least value.
const LEAST: u64 = 4380;

/// The most that a window grows to, and the threshold at first.
const MOST: u64 = 1_048_576;

/// How many bytes may be in flight, and from where on that grows slowly.
#[derive(Clone, Copy, Debug)]
pub struct Congestion {
    pub window: u64,
    pub threshold: u64,
}

pub(crate) fn first_congestion() -> Congestion
    ensures { result ≡ first_congestion }
{
    Congestion {
        window: LEAST,
        threshold: MOST,
    }
}

/// What newly acknowledged bytes add to the window.
fn growth(congestion: Congestion, bytes: u64) -> u128
    requires { 1 ≤ congestion.window }
    ensures { result ≡ growth congestion bytes }
{
    if congestion.window < congestion.threshold {
        bytes as u128
    } else {
        1000 * bytes as u128 / congestion.window as u128
    }
}

/// The window once so many bytes were newly acknowledged.
pub(crate) fn grown(bytes: u64, congestion: Congestion) -> Congestion
    requires { 1 ≤ congestion.window }
    ensures { result ≡ grown bytes congestion }
{
    let window = congestion.window as u128 + growth(congestion, bytes);
    Congestion {
        window: window.min(MOST as u128) as u64,
        threshold: congestion.threshold,
    }
}

/// What a loss leaves of the window.
fn halved(window: u64) -> u64
    ensures { result ≡ halved window }
{
    (window / 2).max(LEAST)
}

/// The window after a loss, by time or by acks.
pub(crate) fn shrunk(by_time: bool, congestion: Congestion) -> Congestion
    ensures { result ≡ shrunk by_time congestion }
{
    let threshold = halved(congestion.window);
    let window = if by_time { LEAST } else { threshold };
    Congestion { window, threshold }
}
