//! The datagrams that ends sent, in their order over the whole run.

ghost use Rattle.std.specs.Prelude.{◌≡◌, ◌-◌, ◌<◌, ◌≤◌, ℕ, IfSome, false, get_or, length, nat_lt, true};
ghost use Rattle.std.specs.List.{AllWithin};
ghost use Rattle.std.specs.List.Sorted.{IsPartitionedBy};
ghost use Rattle.rendezvous_world.specs.Datagrams.{nth};
ghost use Rattle.rendezvous_world.specs.Inside.{IsCut, sent_found, starts_after};
ghost use Rattle.rendezvous_world.specs.Sent.{sent_among, sent_in};

use crate::journal::JournalLine;
use crypto_profile::Context;
use endpoint::Entry;
use rtmfp_forms::Address;

/// A datagram that an end sent, where the journal keeps it.
#[derive(Clone, Copy)]
pub(crate) struct Letter<'a> {
    /// The number of the end that sent it.
    pub(crate) by: usize,
    /// Where to.
    pub(crate) to: &'a Address,
    pub(crate) datagram: &'a [u8],
    /// What it is sealed for.
    pub(crate) context: &'a Context,
}

/// How many datagrams are among the entries of a call.
pub(crate) fn count_among(by: usize, entries: &[Entry]) -> usize
    ensures value { result ≡ length (sent_among by entries.now) }
{
    let mut count = 0;
    let mut rest = entries;
    while let [entry, others @ ..] = rest {
        rest = others;
        let Entry::Out { .. } = entry else {
            continue;
        };
        count += 1;
    }
    count
}

/// Of the entries of a call of this end, the datagram with this number, counted from 1.
fn find_among(by: usize, entries: &[Entry], number: u128) -> Option<Letter<'_>>
    ensures { sent_found result ≡ nth (sent_among by entries.now) number }
{
    let mut left = number;
    let mut rest = entries;
    while let [entry, others @ ..] = rest {
        rest = others;
        let Entry::Out {
            to,
            datagram,
            context,
        } = entry
        else {
            continue;
        };
        if left == 1 {
            return Some(Letter {
                by,
                to,
                datagram: datagram.bytes(),
                context,
            });
        }
        if left == 0 {
            return None;
        }
        left -= 1;
    }
    None
}

/// Whether so many of these numbers are below another, and the next one isn't.
fn is_count_below(starts: &[u128], number: u128, count: usize) -> bool
    ensures { result ≡ true → IsCut starts.now number count }
{
    if count == 0 || starts.len() < count {
        return false;
    }
    if number <= starts[count - 1] {
        return false;
    }
    match starts.get(count) {
        Some(start) => number <= *start,
        None => true,
    }
}

/// How many of these numbers, which go upward, are below another; this many, if that is right.
fn count_below(starts: &[u128], number: u128, guess: usize) -> usize
    requires { IsPartitionedBy (λ (s : ℕ). nat_lt s number) starts.now }
    ensures inside { result ≤ length starts.now }
    ensures before { AllWithin (λ (s : ℕ). nat_lt s number ≡ true) starts.now 0 result }
    ensures after { AllWithin (λ (s : ℕ). nat_lt s number
        ≡ false) starts.now result (length starts.now) }
{
    if is_count_below(starts, number, guess) {
        return guess;
    }
    starts.partition_point(|start| *start < number)
}

/// How many lines there probably are up to the one that sent a datagram.
fn guess_behind(lines_of: &[usize], number: u128) -> usize {
    let Ok(number) = usize::try_from(number) else {
        return 0;
    };
    match lines_of.get(number.saturating_sub(1)) {
        Some(line) => line.saturating_add(1),
        None => 0,
    }
}

/// The line with this index.
fn line_at(lines: &[JournalLine], at: usize) -> &JournalLine
    requires { at < length lines.now }
    ensures { result.now ≡ get_or lines.now at result.now }
{
    &lines[at]
}

/// The datagram that was sent as this one, counted from 1. `lines_of` may tell where to look first.
pub(crate) fn find<'a>(
    lines: &'a [JournalLine],
    starts: &[u128],
    lines_of: &[usize],
    number: u128,
) -> Option<Letter<'a>>
    requires { starts.now ≡ starts_after 0 lines.now }
    ensures letter { sent_found result ≡ nth (sent_in lines.now) number }
    ensures short { IfSome result (λ letter. length letter.datagram.now ≤ 1200) }
{
    let behind = count_below(starts, number, guess_behind(lines_of, number));
    if behind == 0 {
        return None;
    }
    let line = line_at(lines, behind - 1);
    let start = starts[behind - 1];
    find_among(line.end(), line.out().entries(), number - start)
}
