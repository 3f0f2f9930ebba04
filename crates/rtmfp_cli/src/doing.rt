//! What a run does with the lines of its source.
ghost use Rattle.std.specs.Prelude.{◌≡◌, ◌+◌, ◌-◌, ◌<◌, ◌≤◌, ◌^◌, length, IfOk};
ghost use Rattle.rtmfp_cli.specs.Doing.{IsNext, ShownAs, Tells, limit_of};

use rtmfp_base::limits::LINE;
use rtmfp_play::{Journaling, Playing, Said, journal_line, play_line};
use rtmfp_show::{LIMIT, show_line};
use rtmfp_text::Text;
use std::alloc::{AllocError, Global};

/// What is done with each line, and what was done so far.
#[derive(Drop)]
pub enum Doing {
    /// A line is a packet, and is shown.
    Showing,
    /// A line is one of a script, and its step is done in this run's world.
    Playing(Playing),
    /// A line is one of a script, and its step is done in this run's world, of which the logs are
    /// written.
    Journaling(Journaling),
}

impl Doing {
    /// The longest line, in bytes without its LF.
    pub(crate) fn limit(&self) -> usize
        ensures { result ≡ limit_of self.now }
    {
        match self {
            Doing::Showing => LIMIT,
            Doing::Playing(_) => LINE,
            Doing::Journaling(_) => LINE,
        }
    }

    /// Does line `number`, and makes its text.
    pub(crate) fn line(
        &mut self,
        alloc: Global,
        number: u64,
        line: &[u8],
        text: &mut Text,
    ) -> Result<Said, AllocError>
        requires fits { length line.now ≤ limit_of self.old }
        requires next { IsNext self.old number }
        ensures said { IfOk result (λ said. Tells said self.old number line.now self.new text.new) }
        ensures next { IfOk result (λ said. said ≡ Said.Text → number < 2 ^ 32 - 1 →
            IsNext self.new (number + 1)) }
        ensures limit { limit_of self.new ≡ limit_of self.old }
    {
        match self {
            Doing::Showing => show(line, text),
            Doing::Playing(playing) => play_line(alloc, playing, number, line, text),
            Doing::Journaling(journaling) => journal_line(alloc, journaling, number, line, text),
        }
    }
}

/// Shows a line.
fn show(line: &[u8], text: &mut Text) -> Result<Said, AllocError>
    requires { length line.now ≤ LIMIT }
    ensures { IfOk result (λ said. ShownAs said line.now text.new) }
{
    match show_line(line, text)? {
        true => Ok(Said::Text),
        false => Ok(Said::Bad),
    }
}
