//! What holds of statuses. The function does nothing: its contract is the law.
ghost use Rattle.rtmfp_lines.specs.Table.{StatusTable};

/// Each status has its number and its text, as the table says.
pub fn statuses()
    ensures { StatusTable }
{}
