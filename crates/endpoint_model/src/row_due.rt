//! What time makes due of a session.

use session_core::SessionDue;

/// One thing that is due of a session or of its flows.
#[derive(Clone, Copy, Debug, PartialEq, Eq)]
pub enum RowDue {
    /// Its end, the end of its closing, or its close again.
    Session(SessionDue),
    /// A message that waits is sent no longer.
    Abandon {
        flow: u64,
        /// The number of its first fragment.
        seq: u64,
    },
    /// Flow data goes out.
    Data,
    /// It is kept alive.
    Keepalive,
}
