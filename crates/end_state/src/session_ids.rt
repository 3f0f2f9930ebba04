//! The session IDs of an end.

ghost use Rattle.std.specs.Prelude.{◌≡◌, ◌+◌, ◌<◌, ◌^◌};
ghost use Rattle.endpoint_model.specs.State.{free_from, full, is_free, is_used, next_id, uses};

use crate::end_state::EndState;

impl EndState {
    /// How many attempts, searches and sessions there are.
    fn uses(&self) -> usize
        ensures value { result ≡ uses self.now }
        ensures small { result + 1 < 2 ^ 64 }
    {
        self.startup.attempts() + self.sessions.count()
    }

    /// The limit on attempts, searches and sessions, where there is no place for one more.
    pub fn full(&self) -> Option<u32>
        ensures { result ≡ full self.now }
    {
        if self.uses() >= self.settings.config.max_sessions as usize {
            Some(self.settings.config.max_sessions)
        } else {
            None
        }
    }

    /// Whether an attempt, a search or a session has this session ID.
    fn is_used(&self, near: u32) -> bool
        ensures { result ≡ is_used self.now near }
    {
        self.startup.has_attempt(near) || self.sessions.has(near)
    }

    /// Whether this session ID may be given to a new one.
    fn is_free(&self, near: u32) -> bool
        ensures { result ≡ is_free self.now near }
    {
        near != 0 && !self.is_used(near)
    }

    /// The first session ID from a word on that may be given to a new one.
    pub fn free_from(&self, word: u32) -> u32
        ensures { result ≡ free_from self.now word }
    {
        let mut id = word;
        for _ in 0..=self.uses() {
            if self.is_free(id) {
                return id;
            }
            id = next_id(id);
        }
        id
    }
}

/// The session ID after one.
fn next_id(id: u32) -> u32
    ensures { result ≡ next_id id }
{
    id.wrapping_add(1)
}
