//! What the session ID of a datagram names, and the context in which a datagram opens.

ghost use Rattle.std.specs.Prelude.{◌≡◌, length, option_to_list};
ghost use Rattle.std.specs.Int.{w32, from_be_bytes};
ghost use Rattle.std.specs.FinMap.{get};
ghost use Rattle.endpoint_model.specs.Admission.{attempt_group, next_places, places_of, sid_at};
ghost use Rattle.end_state.specs.NamedContext.{context_towards, first_place, named_context};
ghost use Rattle.end_state.specs.NamedContext.{named_id, only_place};
ghost use Rattle.endpoint_laws.specs.OpensIn.{context_at, context_first, context_in_session};
ghost use Rattle.endpoint_laws.specs.OpensIn.{context_in_startup, opens_in};

use crate::end_state::EndState;
use crypto_profile::{CIPHERED_AT, Context, open_refusal};
use endpoint_model::Place;
use packet_scramble::{SEALED_AT, unscramble};

/// The bytes of a datagram before its plain packet.
pub const PLAIN_AT: usize = SEALED_AT + CIPHERED_AT;

impl EndState {
    /// The first place where a datagram under a session ID may belong.
    fn place_of(&self, sid: u32) -> Option<Place>
        ensures { result ≡ first_place (places_of self.now sid) }
    {
        if sid == 0 {
            Some(self.current_place())
        } else if self.startup.has_attempt(sid) {
            Some(self.place_of_attempt(sid))
        } else if self.sessions.has(sid) {
            Some(Place::Session(sid))
        } else {
            None
        }
    }

    /// The place of an attempt.
    fn place_of_attempt(&self, near: u32) -> Place
        ensures { result ≡ Place.Attempt near
            (attempt_group self.now.group (get self.now.startup.attempts near)).generation }
    {
        Place::Attempt {
            near,
            generation: self.groups.of_attempt(&self.startup, near).number(),
        }
    }

    /// Startup in the current generation, where a datagram under session ID 0 is tried first.
    pub fn current_place(&self) -> Place
        ensures { result ≡ Place.Startup self.now.group.generation }
    {
        Place::Startup {
            generation: self.groups.current.number(),
        }
    }

    /// Startup in the next generation, where that is known and a datagram under session ID 0 is
    /// tried then.
    pub fn next_place(&self) -> Option<Place>
        ensures { next_places self.now.next ≡ option_to_list result }
    {
        match &self.groups.next {
            Some(next) => Some(Place::Startup {
                generation: next.number(),
            }),
            None => None,
        }
    }

    /// The first place where a datagram under a session ID may belong. Where that is a session, it
    /// is found at once from now on.
    pub fn look_up(&mut self, sid: u32) -> Option<Place>
        ensures place { result ≡ first_place (places_of self.old sid) }
        ensures state { self.new ≡ self.old }
    {
        self.sessions.look_up(sid);
        self.place_of(sid)
    }

    /// The place where a datagram under a session ID may belong, where there is one alone.
    fn only_place(&self, sid: u32) -> Option<Place>
        ensures { result ≡ only_place (places_of self.now sid) }
    {
        if sid == 0 && self.groups.next.is_some() {
            return None;
        }
        self.place_of(sid)
    }

    /// The context that a datagram's session ID names, where it names one alone.
    pub fn find_named(&self, datagram: &[u8]) -> Option<Context>
        ensures { result ≡ named_context self.now datagram.now }
    {
        let Some(sid) = session_id(datagram) else {
            return None;
        };
        match self.only_place(sid) {
            Some(Place::Startup { generation }) => Some(Context::Startup { generation }),
            Some(Place::Attempt { generation, .. }) => Some(Context::Startup { generation }),
            Some(Place::Session(near)) => self.context_towards(near),
            None => None,
        }
    }

    /// A session's context towards this end.
    fn context_towards(&self, near: u32) -> Option<Context>
        ensures { result ≡ context_towards (get self.now.sessions near) }
    {
        match self.sessions.row(near) {
            Some(row) => Some(row.session.context(false)),
            None => None,
        }
    }

    /// The first context in which a datagram opens, by what is kept.
    pub fn find_context(&self, datagram: &[u8]) -> Option<Context>
        ensures { result ≡ opens_in self.now datagram.now }
    {
        let Some(sid) = session_id(datagram) else {
            return None;
        };
        let (_, part) = datagram.split_at(SEALED_AT);
        if sid == 0 {
            return self.context_under_zero(part);
        }
        match self.place_of(sid) {
            Some(place) => self.context_at(place, part),
            None => None,
        }
    }

    /// The context in which a sealed part opens under session ID 0: startup in the current
    /// generation, or in the next one.
    fn context_under_zero(&self, part: &[u8]) -> Option<Context>
        ensures { result ≡ context_first self.now (places_of self.now 0) part.now }
    {
        if let Some(context) = self.context_at(self.current_place(), part) {
            return Some(context);
        }
        match self.next_place() {
            Some(next) => self.context_at(next, part),
            None => None,
        }
    }

    /// The context of a place, where a sealed part opens there.
    fn context_at(&self, place: Place, part: &[u8]) -> Option<Context>
        ensures { result ≡ context_at self.now place part.now }
    {
        match place {
            Place::Startup { generation } => self.context_in_startup(place, 0, generation, part),
            Place::Attempt { near, generation } => {
                self.context_in_startup(place, near, generation, part)
            }
            Place::Session(near) => self.context_in_session(near, part),
        }
    }

    /// The startup context of a generation, where a sealed part opens in it at a place with this
    /// session ID.
    fn context_in_startup(
        &self,
        place: Place,
        sid: u32,
        generation: u64,
        part: &[u8],
    ) -> Option<Context>
        requires { sid ≡ sid_at place }
        ensures { result ≡ context_in_startup self.now place generation part.now }
    {
        let group = self.group_at(place);
        match open_refusal(group.startup(), sid, part) {
            None => Some(Context::Startup { generation }),
            Some(_) => None,
        }
    }

    /// A session's context towards this end, where a sealed part opens in it.
    fn context_in_session(&self, near: u32, part: &[u8]) -> Option<Context>
        ensures { result ≡ context_in_session (get self.now.sessions near) part.now }
    {
        match self.sessions.row(near) {
            Some(row) => {
                if row.session.opens(part) {
                    Some(row.session.context(false))
                } else {
                    None
                }
            }
            None => None,
        }
    }
}

/// The session ID of a datagram; none where it is too short for a packet.
pub fn session_id(datagram: &[u8]) -> Option<u32>
    ensures { result ≡ named_id datagram.now }
{
    if datagram.len() < PLAIN_AT {
        return None;
    }
    let (head, part) = datagram.split_at(SEALED_AT);
    Some(unscramble(word_of(head), part))
}

/// The first four bytes, as one number.
fn word_of(head: &[u8]) -> u32
    requires { length head.now ≡ 4 }
    ensures { result ≡ from_be_bytes w32 head.now }
{
    let mut word = [0; 4];
    word.copy_from_slice(head);
    u32::from_be_bytes(word)
}
