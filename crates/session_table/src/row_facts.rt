//! What is told of one row.

ghost use Rattle.std.specs.Prelude.{◌≡◌};
ghost use Rattle.session_table.specs.Inside.{due_from, may_be_due_of};
ghost use Rattle.session_table.specs.Table.{near_of};

use endpoint_model::Row;

/// The session ID of its session.
pub(crate) fn near_of(row: &Row) -> u32
    ensures { result ≡ near_of row.now }
{
    row.session.joined().near
}

/// When something of its session's own is due first.
pub(crate) fn deadline_of(row: &Row) -> u128
    ensures { result ≡ due_from row.now }
{
    row.session.deadline()
}

/// Whether something of its flows may be due.
pub(crate) fn may_be_due(row: &Row) -> bool
    ensures { result ≡ may_be_due_of row.now }
{
    row.flows.may_be_due()
}
