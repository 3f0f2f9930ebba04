//! The law of what is kept of sessions. The function does nothing: its contract states it.

ghost use Rattle.log_lines.specs.Lines.{HearingsTellTheLast};

/// The hearing of a session that is held tells when the session took the last datagram.
pub fn hearings_tell_the_last()
    ensures { HearingsTellTheLast }
{}
