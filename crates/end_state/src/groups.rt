//! The group's secrets that an end knows, and the one that goes at a place.

use crypto_profile::Generation;
use endpoint_model::Place;
use startup::Startup;

/// The group's secret in the current generation, and in the next one where it is known. Each was
/// hashed once.
#[derive(Drop)]
pub struct Groups {
    pub current: Generation,
    pub next: Option<Generation>,
}

impl Groups {
    ghost use Rattle.std.specs.Prelude.{◌≡◌};
    ghost use Rattle.std.specs.FinMap.{get};
    ghost use Rattle.endpoint_model.specs.Admission.{attempt_group, known_group};
    ghost use Rattle.end_state.specs.Groups.{group_there};

    /// The secret that the attempt with this near ID sends and takes in: its own in the keying
    /// stage, and else the current one.
    pub fn of_attempt<'a>(&'a self, startup: &'a Startup, near: u32) -> &'a Generation
        ensures { result.now ≡ attempt_group self.now.current (get startup.now.attempts near) }
    {
        match startup.secret_of(near) {
            Some(group) => group,
            None => &self.current,
        }
    }

    /// The secret that goes at a place, outside of sessions.
    pub fn at<'a>(&'a self, startup: &'a Startup, place: Place) -> &'a Generation
        ensures { result.now ≡ group_there self.now startup.now place }
    {
        match place {
            Place::Startup { generation } => self.known(generation),
            Place::Attempt { near, .. } => self.of_attempt(startup, near),
            Place::Session(_) => &self.current,
        }
    }

    /// The next secret, where it is known and has this number, and else the current one.
    fn known(&self, generation: u64) -> &Generation
        ensures { result.now ≡ known_group generation self.now.next self.now.current }
    {
        match &self.next {
            Some(next) => {
                if next.number() == generation {
                    next
                } else {
                    &self.current
                }
            }
            None => &self.current,
        }
    }
}
