//! Values as lines: a name, and bytes in hexadecimal.

use std::alloc::Global;
use std::test::Fail;

/// Adds a line.
pub(crate) fn put(alloc: Global, name: &str, bytes: &[u8], lines: &mut String) -> Result<(), Fail> {
    let digits = hex::encode(alloc, bytes)?;
    lines.push_str(name)?;
    lines.push_str(" ")?;
    lines.push_str(digits.as_str())?;
    lines.push_str("\n")?;
    Ok(())
}

/// The word that a text begins with, and what stands behind it.
pub(crate) fn pair(text: &str) -> (&str, &str) {
    text.split_once(' ').unwrap_or(("", ""))
}

/// The bytes that digits stand for.
pub(crate) fn decoded(alloc: Global, digits: &str) -> Result<Vec<u8>, Fail> {
    Ok(hex::decode(alloc, digits.as_bytes()).ok().ok_or("digits")?)
}

/// The bytes of the line with a name.
pub(crate) fn bytes_of(alloc: Global, lines: &str, name: &str) -> Result<Vec<u8>, Fail> {
    for line in lines.lines() {
        let (found, digits) = pair(line);
        if found == name {
            return decoded(alloc, digits);
        }
    }
    Err(Fail::from("no line has this name"))
}
