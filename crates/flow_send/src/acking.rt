//! What an ack does to the rows.

ghost use Rattle.std.specs.Prelude.{◌≡◌, ◌+◌, ◌-◌, ◌<◌, length, nat_le, ◌&&◌};
ghost use Rattle.std.specs.Prelude.{if◌then◌else◌};
ghost use Rattle.flow_send.specs.Rows.{map_rows, most_rows};
ghost use Rattle.flow_send.specs.Acks.{told, greatest, acknowledge, acknowledge_row};
ghost use Rattle.flow_send.specs.Acks.{new_ordinal, last_ordinal, in_span};

use crate::rows::Rows;
use rtmfp_data_chunks::AckedSpans;

/// The greatest number that an ack acknowledges.
pub fn greatest(upto: u64, spans: &AckedSpans<'_>) -> u64
    ensures { result ≡ greatest upto spans.now }
{
    let mut most = upto;
    let mut left = spans.iter();
    while let Some((_, last)) = left.next() {
        most = if last > most { last } else { most };
    }
    most
}

/// Acknowledges the numbers from the first through the last, of rows above a forward number. The
/// answer is the last ordinal of those that weren't acknowledged before.
fn acknowledge_span(rows: &mut Rows, forward: u64, first: u64, last: u64) -> u64
    requires { last < forward + 1 + length rows.old.rows }
    ensures rows { rows.new.rows ≡ map_rows (λ k r. if in_span k (first, last) then
        acknowledge_row r else r) (forward + 1) rows.old.rows }
    ensures ordinal { result ≡ most_rows (λ k r. if in_span k (first, last) then new_ordinal r
        else 0) (forward + 1) rows.old.rows }
    ensures room { rows.new.room ≡ rows.old.room }
{
    // Read for the prover alone: so many rows fit a `usize`.
    let _all = rows.len();
    let from = first.saturating_sub(forward).saturating_sub(1);
    let to = last.saturating_sub(forward);
    rows.acknowledge(from.min(to) as usize, to as usize)
}

/// Acknowledges what an ack tells. The answer is the last ordinal of what it newly acknowledges.
pub fn acknowledge(rows: &mut Rows, forward: u64, upto: u64, spans: &AckedSpans<'_>) -> u64
    requires { greatest upto spans.now < forward + 1 + length rows.old.rows }
    ensures rows { rows.new.rows ≡ map_rows (acknowledge (told 0 upto spans.now)) (forward + 1)
        rows.old.rows }
    ensures ordinal { result ≡ last_ordinal (told 0 upto spans.now) (forward + 1) rows.old.rows }
    ensures room { rows.new.room ≡ rows.old.room }
{
    let mut ordinal = acknowledge_span(rows, forward, 0, upto);
    let mut left = spans.iter();
    while let Some((first, last)) = left.next() {
        let more = acknowledge_span(rows, forward, first, last);
        ordinal = ordinal.max(more);
    }
    ordinal
}
