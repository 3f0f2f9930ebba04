//! What options say of a flow, and the options of a flow.

use crate::rows::{bytes, digits, first_word};
use rtmfp_data_chunks::{all_known, metadata_in, spell_flow_options};
use rtmfp_forms::read_options;
use std::alloc::Global;
use std::test::Fail;

/// The metadata that options have, or `none`.
pub(crate) fn metadata_said(alloc: Global, given: &str) -> Result<String, Fail> {
    let given = bytes(alloc, given)?;
    let Ok((options, _)) = read_options(given.as_slice()) else {
        return Err(Fail::from("options"));
    };
    match metadata_in(&options) {
        Some(metadata) => Ok(digits(alloc, metadata)?),
        None => Ok(String::from_str(alloc, "none")?),
    }
}

/// Whether the associations among these options name so many flows alone.
fn are_known(given: &[u8], flows: u64) -> Option<bool> {
    match read_options(given) {
        Ok((options, _)) => Some(all_known(&options, flows)),
        Err(_) => None,
    }
}

/// Whether the associations among options name so many flows alone.
pub(crate) fn known_said(alloc: Global, given: &str) -> Result<String, Fail> {
    let (flows, given) = first_word(given);
    let flows: u64 = flows.parse().ok().ok_or("a number")?;
    let given = bytes(alloc, given)?;
    match are_known(given.as_slice(), flows) {
        Some(known) => Ok(format!(in alloc; "{known}")?),
        None => Err(Fail::from("options")),
    }
}

/// The options of a flow with metadata, and with an association where a number is given.
pub(crate) fn flow_options_written(alloc: Global, given: &str) -> Result<String, Fail> {
    let (metadata, answers) = first_word(given);
    let metadata = bytes(alloc, metadata)?;
    let answers: Option<u64> = answers.parse().ok();
    let spelled = spell_flow_options(alloc, metadata.as_slice(), answers)?;
    Ok(digits(alloc, spelled.as_slice())?)
}
