//! Numbers of variable length.

use crate::rows::{bytes, digits};
use rtmfp_vlu::{VluFault, read_vlu, write_vlu};
use std::alloc::Global;
use std::test::Fail;

/// The shortest spelling of a number.
pub(crate) fn number_written(alloc: Global, number: &str) -> Result<String, Fail> {
    let number = number.parse::<u64>().ok().ok_or("a number")?;
    let mut out = [0xaa; 10];
    let len = write_vlu(number, &mut out);
    Ok(digits(alloc, out.get(..len).unwrap_or(&[]))?)
}

fn fault_name(fault: &VluFault) -> &'static str {
    match fault {
        VluFault::Short => "short",
        VluFault::Large => "large",
    }
}

/// What is read of bytes, in words.
pub(crate) fn number_said(alloc: Global, given: &str) -> Result<String, Fail> {
    let given = bytes(alloc, given)?;
    match read_vlu(given.as_slice()) {
        Ok((value, len)) => Ok(format!(in alloc; "{value} in {len}")?),
        Err(fault) => Ok(String::from_str(alloc, fault_name(&fault))?),
    }
}
