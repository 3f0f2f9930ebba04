//! What becomes of a number.

ghost use Rattle.std.specs.Prelude.{◌≡◌};
ghost use Rattle.flow_send.specs.Rows.{is_settled, is_acknowledged, is_flying};

/// What became of a number.
#[derive(Clone, Copy, Debug, PartialEq, Eq)]
pub enum State {
    /// It was never sent.
    Unsent,
    /// It was sent and is neither acknowledged nor lost.
    Flying,
    /// It was sent and is to be sent again.
    Lost,
    Acknowledged,
    Abandoned,
}

impl State {
    pub fn is_acknowledged(self) -> bool
        ensures { result ≡ is_acknowledged self }
    {
        match self {
            State::Acknowledged => true,
            State::Unsent | State::Flying | State::Lost | State::Abandoned => false,
        }
    }

    pub fn is_flying(self) -> bool
        ensures { result ≡ is_flying self }
    {
        match self {
            State::Flying => true,
            State::Unsent | State::Lost | State::Acknowledged | State::Abandoned => false,
        }
    }

    /// Whether it needs no sending any more.
    pub fn is_settled(self) -> bool
        ensures { result ≡ is_settled self }
    {
        match self {
            State::Acknowledged | State::Abandoned => true,
            State::Unsent | State::Flying | State::Lost => false,
        }
    }
}
