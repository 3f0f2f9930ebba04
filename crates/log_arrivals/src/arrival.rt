//! Where the datagram of an event opens.

ghost use Rattle.std.specs.Prelude.{◌≡◌, ℕ, List};
ghost use Rattle.endpoint_model.specs.Event.{Setup};
ghost use Rattle.endpoint_laws.specs.Past.{Past, before_event, last_call, receive_of};
ghost use Rattle.endpoint_laws.specs.Contexts.{Secrets};
ghost use Rattle.log_arrivals.specs.Arrivals.{ArrivesIn};
ghost use Rattle.log_arrivals.specs.Startup.{TellsStartup, generation_in};

/// Where the datagram of an event opens at its end (own).
#[derive(Clone, Copy, Debug, PartialEq, Eq)]
pub enum Arrival {
    /// The event gives no datagram, or one that opens nowhere.
    Nowhere,
    /// In a startup context of its session ID, that of this generation.
    Startup {
        /// The generation.
        generation: u64,
    },
    /// In the session under its session ID.
    Session,
}

impl Arrival {
    /// The generation in which the datagram opened outside of sessions, as `Contexts::add` asks it;
    /// None exactly where it didn't.
    pub fn generation(&self) -> Option<u64>
        ensures value { result ≡ generation_in self.now }
        ensures log { (secrets : Secrets) (setup : Setup) (past : Past) (plain : List ℕ) →
            ArrivesIn secrets setup (before_event past) (receive_of (last_call past)) plain
            self.now → TellsStartup secrets setup past result }
    {
        self.in_startup()
    }

    fn in_startup(&self) -> Option<u64>
        ensures { result ≡ generation_in self.now }
    {
        match self {
            Arrival::Nowhere => None,
            Arrival::Startup { generation } => Some(*generation),
            Arrival::Session => None,
        }
    }
}
