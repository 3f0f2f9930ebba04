//! Tables of rows of two ends by hand. A row is what is done with them, ` = `, and what they tell
//! then; lines that begin with `#` or `+` are none.

use crate::by_hand::Ends;
use crate::rows::lines_of;
use std::alloc::Global;
use std::test::Fail;

/// What is done, and what is told then.
fn sides(row: &str) -> (&str, &str) {
    row.split_once(" = ").unwrap_or(("", ""))
}

/// Whether a row is so of these ends.
fn is_row_so(alloc: Global, ends: &mut Ends, row: &str) -> Result<bool, Fail> {
    let (given, want) = sides(row);
    let told = ends.told(alloc, given)?;
    Ok(told.as_str().trim_end() == want)
}

/// Whether the rows that a line stands for are so of these ends.
fn is_line_so(alloc: Global, ends: &mut Ends, line: &str) -> Result<bool, Fail> {
    if line.starts_with(['#', '+']) {
        return Ok(true);
    }
    let rows = lines_of(alloc, line)?;
    for row in rows.iter() {
        if !is_row_so(alloc, ends, row.as_str())? {
            return Ok(false);
        }
    }
    Ok(true)
}

/// Whether the rows of a table are so of these ends.
fn are_rows_so(alloc: Global, ends: &mut Ends, table: &str) -> Result<bool, Fail> {
    for line in table.lines() {
        if !is_line_so(alloc, ends, line)? {
            return Ok(false);
        }
    }
    Ok(true)
}

/// Whether a table is so of these ends, after another one.
fn are_both_so(alloc: Global, ends: &mut Ends, before: &str, table: &str) -> Result<bool, Fail> {
    if !are_rows_so(alloc, ends, before)? {
        return Ok(false);
    }
    are_rows_so(alloc, ends, table)
}

/// Whether a table is so of two ends of its own, after another one.
pub fn is_so(alloc: Global, before: &str, table: &str) -> Result<bool, Fail> {
    let mut ends = Ends::new(alloc)?;
    are_both_so(alloc, &mut ends, before, table)
}
