//! Calls ends as the lines of its input say, to time the calls or to see what they do without memory.
//!
//! **Times.** Lines that begin with `sessions`, `attempts`, `alike`, `sending`, `expiring` or
//! `ending` time the calls of an end with many sessions or attempts, as `scripts/bench-ends` tells
//! it. Such a line is a word and three numbers. `sessions SIZE COUNT TIMED` has an end answer so
//! many peers, each of which opens its session with a ping. Then come, COUNT of each, at most SIZE,
//! pings in sessions and pings that were changed on their way, 10,000 ticks with nothing due, and
//! again COUNT of each, keyings of further peers, each of which bears a session, closes of
//! sessions, and the peers' answers to these, each of which has the end forget one. `attempts SIZE
//! COUNT TIMED` has an end open so many attempts, and COUNT more, each of which is answered with a
//! cookie of its own; then come answers without a tag, changes of a cookie, and of one that no
//! attempt has, ticks as before, and attempts that are given up. In `alike SIZE COUNT TIMED` all
//! attempts have one cookie. `sending SIZE COUNT TIMED` has so many sessions with a sending flow:
//! COUNT times a message of a byte is queued in one and a tick sends it; then one is queued in
//! each, a tick sends all, and a later one finds them lost and sends them again. In `expiring SIZE
//! COUNT TIMED` a tick ends so many attempts, and in `ending SIZE COUNT TIMED` so many half-open
//! sessions. The answer is the word and the size, and for each kind of call its name, how many
//! there were, how many entries they added, how many of these are discards, and the nanoseconds of
//! one by the processor's clock, which are 0 where TIMED is. Of a tick that has something to do for
//! all it is the time of each entry.
//!
//! **Without memory.** The other lines are a script, which is played over its ends by calls of these.
//! A call that found no memory is made again. `scripts/try-memory` runs it with one allocation of the
//! library refused, of each number in turn; a `+` on standard error tells it that the library's
//! allocations begin, and a `-` that those of this program do. Steps are those of a script, without
//! `bent`, `inject` and `forge`.
//!
//! It writes the lines of a report. `LINE wanting` tells of a call that found no memory, and behind
//! it, of a datagram, whether it counts as taken. `LINE missing` tells of a step that brings a
//! datagram which never went out, as it may be after such a call: the step is skipped. Behind
//! `settle` each end ticks once a second, eight times, and all that goes out is delivered.
#![tactic(auto)]

mod play;
mod timing;

use crate::play::Play;
use std::test::Fail;

fn main(rt: HostRuntime) -> Result<(), Fail> {
    let mut play = Play::new(&rt);
    for line in rt.lines(rt.alloc()) {
        let line = line?;
        do_line(&rt, &mut play, line.as_str())?;
    }
    play.settle(&rt)
}

/// Does what a line says.
fn do_line(rt: &HostRuntime, play: &mut Play, line: &str) -> Result<(), Fail> {
    if timing::is_timed(line) {
        return Ok(timing::answer(rt, line)?);
    }
    play.line(rt, line)
}
