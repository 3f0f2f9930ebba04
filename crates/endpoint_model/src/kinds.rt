//! The types of chunks: for each how its chunks are judged, and who takes them.

ghost use Rattle.std.specs.Prelude.{◌≡◌, true};
ghost use Rattle.endpoint_model.specs.Causes.{stage_takes, takes, takes_in};
ghost use Rattle.endpoint_model.specs.Kinds.{IsKind, IsRow};
ghost use Rattle.endpoint_model.specs.Gathering.{may_be_gathered};
ghost use Rattle.endpoint_model.specs.Kinds.{at_startup, in_attempts, in_sessions, is_initiator};

use crate::place::Place;
use crate::walk::Walk;
use rtmfp_chunks::kinds::*;
use rtmfp_data_chunks::kinds::*;
use session_core::{Session, Stage};

/// How an end takes the chunks of a type.
#[derive(Clone, Copy)]
pub enum Kind {
    /// It reads none of this type.
    Unknown,
    /// As chunks of flows, which come in sessions alone.
    OfFlows,
    /// As its row says.
    Judged(KindRow),
}

/// What an end knows of a type whose chunks are none of flows.
#[derive(Clone, Copy)]
pub struct KindRow {
    pub kind: u8,
    pub way: Way,
    pub takers: Takers,
}

/// How a chunk is judged.
#[derive(Clone, Copy)]
pub enum Way {
    /// As the keying of an initiator.
    InitiatorKeying,
    /// As the keying of a responder.
    ResponderKeying,
    /// As a piece of a packet, by its fields, in sessions alone.
    Fragment,
    /// By its fields.
    Fields,
}

/// Who takes the chunks of a type.
#[derive(Clone, Copy)]
pub enum Takers {
    Startup,
    StartupAndAttempts,
    Attempts,
    /// Sessions that are held.
    HeldSessions,
    /// Sessions that this end closes.
    ClosingSessions,
    /// Sessions, whether or not they are held.
    Sessions,
}

/// A row of the table.
fn row(kind: u8, way: Way, takers: Takers) -> Kind
    ensures { result ≡ Kind.Judged (record { kind = kind; way = way; takers = takers }) }
{
    Kind::Judged(KindRow { kind, way, takers })
}

/// The table of the types.
pub fn kind_of(kind: u8) -> Kind
    ensures { IsKind kind result }
{
    match kind {
        IHELLO => row(kind, Way::Fields, Takers::Startup),
        FIHELLO => row(kind, Way::Fields, Takers::HeldSessions),
        RHELLO => row(kind, Way::Fields, Takers::Startup),
        REDIRECT => row(kind, Way::Fields, Takers::Startup),
        COOKIE_CHANGE => row(kind, Way::Fields, Takers::StartupAndAttempts),
        IIKEYING => row(kind, Way::InitiatorKeying, Takers::Startup),
        RIKEYING => row(kind, Way::ResponderKeying, Takers::Attempts),
        PING => row(kind, Way::Fields, Takers::HeldSessions),
        PING_REPLY => row(kind, Way::Fields, Takers::HeldSessions),
        CLOSE => row(kind, Way::Fields, Takers::Sessions),
        CLOSE_ACK => row(kind, Way::Fields, Takers::ClosingSessions),
        FRAGMENT => row(kind, Way::Fragment, Takers::HeldSessions),
        DATA => Kind::OfFlows,
        NEXT => Kind::OfFlows,
        ACK_BITMAP => Kind::OfFlows,
        ACK_RANGES => Kind::OfFlows,
        PROBE => Kind::OfFlows,
        EXCEPTION => Kind::OfFlows,
        _ => Kind::Unknown,
    }
}

impl Way {
    pub fn is_initiator_keying(self) -> bool
        ensures { result ≡ is_initiator self }
    {
        matches!(self, Way::InitiatorKeying)
    }
}

impl Takers {
    fn at_startup(self) -> bool
        ensures { result ≡ at_startup self }
    {
        matches!(self, Takers::Startup | Takers::StartupAndAttempts)
    }

    fn in_attempts(self) -> bool
        ensures { result ≡ in_attempts self }
    {
        matches!(self, Takers::Attempts | Takers::StartupAndAttempts)
    }

    fn in_sessions(self) -> bool
        ensures { result ≡ in_sessions self }
    {
        matches!(
            self,
            Takers::HeldSessions | Takers::ClosingSessions | Takers::Sessions
        )
    }
}

impl KindRow {
    /// Whether a place takes chunks of this type.
    fn takes(&self, place: Place) -> bool
        requires { IsRow self.now }
        ensures { result ≡ takes place self.now.kind }
    {
        match place {
            Place::Startup { .. } => self.takers.at_startup(),
            Place::Attempt { .. } => self.takers.in_attempts(),
            Place::Session(_) => self.takers.in_sessions(),
        }
    }

    /// Whether chunks of this type are taken in a packet that was gathered.
    fn may_be_gathered(&self) -> bool
        requires { IsRow self.now }
        ensures { result ≡ may_be_gathered self.now.kind }
    {
        self.kind == PING || self.kind == PING_REPLY
    }

    /// Whether a place takes chunks of this type behind those that were gone through: fewer in a
    /// packet that was gathered.
    pub fn takes_in(&self, place: Place, walk: &Walk) -> bool
        requires { IsRow self.now }
        ensures { result ≡ takes_in place walk.now self.now.kind }
    {
        self.takes(place) && (self.may_be_gathered() || !walk.gathered)
    }

    /// Whether a session takes chunks of this type as it stands, of those that sessions take.
    pub fn stage_takes(&self, session: &Session) -> bool
        requires { IsRow self.now }
        ensures { result ≡ stage_takes session.now.stage self.now.kind }
    {
        match self.takers {
            Takers::Sessions => true,
            Takers::ClosingSessions => session.stage() == Stage::NearClose,
            Takers::HeldSessions => session.is_held(),
            // No session takes these, and none is asked.
            Takers::Startup | Takers::StartupAndAttempts | Takers::Attempts => session.is_held(),
        }
    }
}
