//! The numbers that aren't missing, as spans that go upward and don't touch.

ghost use Rattle.std.specs.Prelude.{◌≡◌, ◌+◌, ◌<◌, ◌≤◌, ◌∷◌, List, nat_lt, max, true, false};
ghost use Rattle.flow_recv.specs.declared.spans.Span.{Span};
ghost use Rattle.flow_recv.specs.Receiver.{Apart, knows, lacks, add_span, span, end_of_first};
ghost use Rattle.flow_recv.specs.Above.{IsSpot, closed, with_number};

use crate::above::Above;

/// The numbers from the first through the last.
#[derive(Clone, Copy, Debug, PartialEq, Eq)]
pub struct Span {
    pub first: u64,
    pub last: u64,
}

/// What a number that is missing touches.
#[derive(Clone, Copy)]
pub enum Spot {
    /// The first span, or a forward number.
    First,
    /// The span before it, which begins with this number.
    Behind(u64),
    /// No span before it.
    Alone,
}

/// Whether one of the spans has the number.
fn knows(spans: &Above, number: u128) -> bool
    requires { Apart spans.now }
    ensures { result ≡ knows spans.now number }
{
    match spans.last_from(number) {
        Some(here) => number <= u128::from(here.last),
        None => false,
    }
}

/// Whether a number is missing, where the first span is from 0 through one number and the others
/// are above.
pub fn lacks(through: u64, above: &Above, number: u128) -> bool
    requires { Apart above.now }
    ensures { result ≡ lacks (span 0 through ∷ above.now) number }
{
    u128::from(through) < number && !knows(above, number)
}

/// Whether a number lies between two.
fn is_apart(low: u64, high: u64) -> bool
    ensures { result ≡ nat_lt (low + 1) high }
{
    low < high && high - low > 1
}

/// What a number touches, where none through a forward number will be missing.
pub fn spot_of(through: u64, above: &Above, forward: u64, number: u64) -> Spot
    ensures { IsSpot (max through forward) number above.now result }
{
    if !is_apart(through.max(forward), number) {
        return Spot::First;
    }
    match above.last_from(u128::from(number)) {
        Some(here) => {
            if is_apart(here.last, number) {
                return Spot::Alone;
            }
            Spot::Behind(here.first)
        }
        None => Spot::Alone,
    }
}

/// Nothing from 0 through a number is missing any more. The answer is the end of the first span.
pub fn raise(through: u64, above: &mut Above, to: u64) -> u64
    ensures { span 0 result ∷ above.new ≡ add_span 0 to (span 0 through ∷ above.old) }
{
    let mut end = through.max(to);
    while let Some(here) = above.first() {
        if is_apart(end, here.first) {
            break;
        }
        end = end.max(here.last);
        above.drop_first();
    }
    end
}

/// The greatest number at or below which none would be missing after a forward number.
pub fn raised(through: u64, above: &Above, to: u64) -> u64
    requires { Apart above.now }
    ensures { result ≡ end_of_first (add_span 0 to (span 0 through ∷ above.now)) }
{
    let end = through.max(to);
    match above.last_from(u128::from(end) + 1) {
        Some(here) => end.max(here.last),
        None => end,
    }
}

/// The span that begins with one number reaches to another, and the span that begins directly after
/// that one is joined to it.
fn close(above: &mut Above, first: u64, number: u64)
    ensures { above.new ≡ closed first number above.old }
{
    let last = above.remove_after(number).unwrap_or(number);
    above.set_end(first, last);
}

/// Takes a forward number, and a number that touches the first span then. The answer is the end of
/// the first span.
pub fn mark_first(through: u64, above: &mut Above, forward: u64, number: u64) -> u64
    requires apart { Apart (span 0 through ∷ above.old) }
    requires near { number ≤ max through forward + 1 }
    ensures { span 0 result ∷ above.new ≡ add_span number number
        (add_span 0 forward (span 0 through ∷ above.old)) }
{
    raise(through, above, forward.max(number))
}

/// Takes a forward number, and a number that touches the span before it. The answer is the end of
/// the first span.
pub fn mark_behind(through: u64, above: &mut Above, first: u64, forward: u64, number: u64) -> u64
    requires apart { Apart (span 0 through ∷ above.old) }
    requires missing { lacks (span 0 through ∷ above.old) number ≡ true }
    requires behind { IsSpot (max through forward) number above.old (Spot.Behind first) }
    ensures { span 0 result ∷ above.new ≡ add_span number number
        (add_span 0 forward (span 0 through ∷ above.old)) }
{
    close(above, first, number);
    raise(through, above, forward)
}

/// Takes a forward number, and a number that was put in as a span of its own. The answer is the end
/// of the first span.
pub fn mark_alone(through: u64, above: &mut Above, forward: u64, number: u64) -> u64
    ensures { (spans : List Span) → above.old ≡ with_number number spans →
        Apart (span 0 through ∷ spans) → IsSpot (max through forward) number spans Spot.Alone →
        span 0 result ∷ above.new ≡ add_span number number
        (add_span 0 forward (span 0 through ∷ spans)) }
{
    close(above, number, number);
    raise(through, above, forward)
}
