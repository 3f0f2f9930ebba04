//! Tables of rows of two ends by hand, as texts in the crate's `data`: what is done with them, and
//! what they tell then. How such a text is written stands at its head.

use crate::rows::{parts_of, row_named};
use std::test::Fail;
use tests_base::tables::is_so;

/// The title of the table that a table begins with.
fn begins_with(table: &str) -> &str {
    for line in table.lines() {
        if let Some(title) = line.strip_prefix("+ ") {
            return title;
        }
    }
    ""
}

/// Tells of a table whether it is so, after the table that it begins with.
fn tell_table(rt: &HostRuntime, tables: &str, table: &str) -> Result<(), Fail> {
    let (title, rows) = parts_of(table);
    let before = row_named(tables, begins_with(rows));
    let told = if is_so(rt.alloc(), before, rows)? {
        "is so"
    } else {
        "isn't so"
    };
    Ok(println!(rt; "{title} {told}")?)
}

/// Tells of each of these tables whether it is so.
pub(crate) fn tell_tables(rt: &HostRuntime, tables: &str) -> Result<(), Fail> {
    for table in tables.split("\n@ ").skip(1) {
        tell_table(rt, tables, table)?;
    }
    Ok(())
}
