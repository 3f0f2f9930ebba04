//! Lines of rows. In a line a word as `7..10`, `id=7..10` or `10.0.0.7..10` counts up, and the line
//! stands for four lines; a last word `x4` says as well that it stands for four.

use std::alloc::{AllocError, Global};

/// What of a text stands behind the last of these marks in it.
fn behind_marks(text: &str) -> &str {
    match text.rsplit_once(['=', '.']) {
        Some((_, part)) => part,
        None => text,
    }
}

/// What stands in front of the numbers of a word that counts up, as `id=` in `id=7..10`, and the
/// first and the last of them.
fn range_in(word: &str) -> Option<(&str, u64, u64)> {
    let (front, last) = word.split_once("..")?;
    let digits = behind_marks(front);
    let first = digits.parse::<u64>().ok()?;
    let last = last.parse::<u64>().ok()?;
    Some((front.strip_suffix(digits)?, first, last))
}

/// How often a line stands that has this word, if the word says it.
fn times_in(word: &str) -> Option<u64> {
    if let Some(count) = word.strip_prefix("x") {
        return count.parse::<u64>().ok();
    }
    let (_, first, last) = range_in(word)?;
    Some(last.saturating_sub(first).saturating_add(1))
}

/// How often a line stands.
fn times(line: &str) -> u64 {
    for word in line.split(' ') {
        if let Some(count) = times_in(word) {
            return count;
        }
    }
    1
}

/// Adds what a word stands for in the line of this index, counted from 0.
fn push_word(alloc: Global, word: &str, index: u64, text: &mut String) -> Result<(), AllocError> {
    match range_in(word) {
        Some((label, first, _)) => {
            let value = first.saturating_add(index);
            let word = format!(in alloc; "{label}{value}")?;
            text.push_str(word.as_str())
        }
        None => text.push_str(word),
    }
}

/// Adds a word behind those that are there.
fn push_behind(alloc: Global, word: &str, index: u64, text: &mut String) -> Result<(), AllocError> {
    if !text.as_str().is_empty() {
        text.push_str(" ")?;
    }
    push_word(alloc, word, index, text)
}

/// The line of this index, counted from 0, of those that a line stands for.
fn line_at(alloc: Global, line: &str, index: u64) -> Result<String, AllocError> {
    let mut text = String::new(alloc);
    for word in line.split(' ') {
        if !word.starts_with("x") {
            push_behind(alloc, word, index, &mut text)?;
        }
    }
    Ok(text)
}

/// The lines that a line stands for.
pub fn lines_of(alloc: Global, line: &str) -> Result<Vec<String>, AllocError> {
    let mut lines = Vec::new(alloc);
    for index in 0..times(line) {
        lines.push(line_at(alloc, line, index)?)?;
    }
    Ok(lines)
}
