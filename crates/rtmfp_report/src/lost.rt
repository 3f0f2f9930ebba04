//! The lines of datagrams that were carried and don't arrive.
ghost use Rattle.std.specs.Prelude.{◌≡◌, ◌++◌, OnOk};
ghost use Rattle.rtmfp_report.specs.LostText.{lost_line, lost_text, why_text};

use crate::lines::push_head;
use end_places::Lost;
use rtmfp_text::{Name, Text};
use std::alloc::AllocError;

/// Adds the line of a datagram with this number, which the end with this name sent, and which
/// doesn't arrive where it was carried: its number, and why.
pub fn push_lost(
    line: u64,
    name: &Name,
    number: u64,
    why: Lost,
    text: &mut Text,
) -> Result<(), AllocError>
    ensures { OnOk result (text.new ≡ text.old ++ lost_line line name.now number why) }
{
    push_head(line, name, text)?;
    push_number_and_why(number, why, text)?;
    text.push("\n")?;
    Ok(())
}

/// Adds which datagram is lost, and why.
fn push_number_and_why(number: u64, why: Lost, text: &mut Text) -> Result<(), AllocError>
    ensures { OnOk result (text.new ≡ text.old ++ lost_text number why) }
{
    text.push_number_field("lost ", number)?;
    text.push(" ")?;
    push_why(why, text)?;
    Ok(())
}

/// Adds why a datagram doesn't arrive.
fn push_why(why: Lost, text: &mut Text) -> Result<(), AllocError>
    ensures { OnOk result (text.new ≡ text.old ++ why_text why) }
{
    match why {
        Lost::Family => text.push("family"),
        Lost::PortsFull(_) => text.push("ports-full"),
        Lost::Unmapped => text.push("unmapped"),
        Lost::Filtered => text.push("filtered"),
        Lost::Nobody => text.push("nobody"),
    }
}
