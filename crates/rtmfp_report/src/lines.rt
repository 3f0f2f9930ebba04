//! What each line begins with.
ghost use Rattle.std.specs.Prelude.{◌≡◌, ◌++◌, OnOk};
ghost use Rattle.rtmfp_report.specs.LineText.{head_text};

use rtmfp_text::{Name, Text};
use std::alloc::AllocError;

/// Adds what a line begins with: the number of the script's line, and the end's name.
pub(crate) fn push_head(line: u64, name: &Name, text: &mut Text) -> Result<(), AllocError>
    ensures { OnOk result (text.new ≡ text.old ++ head_text line name.now) }
{
    text.push_number(line)?;
    text.push(" ")?;
    text.push_plain(name.bytes())?;
    text.push(" ")?;
    Ok(())
}
