//! How a run of a node ends.
ghost use Rattle.std.specs.Prelude.{◌≡◌, ◌≢◌, true, false};

/// How a run of a node ended. The first event in its order counts.
#[derive(Clone, Copy, Debug, PartialEq, Eq)]
pub enum Served {
    /// All its turns were taken.
    Done,
    /// No memory was found.
    Memory,
    /// A bind or a receive of the link failed.
    LinkFault,
    /// A write or a flush of the sink failed.
    SinkFault,
    /// A draw of the random source failed.
    EntropyFault,
}

impl Served {
    /// Whether the run goes on.
    pub(crate) fn is_done(self) -> bool
        ensures yes { result ≡ true → self ≡ Served.Done }
        ensures no { result ≡ false → self ≢ Served.Done }
    {
        match self {
            Served::Done => true,
            Served::Memory => false,
            Served::LinkFault => false,
            Served::SinkFault => false,
            Served::EntropyFault => false,
        }
    }

    /// Whether the sink has failed.
    pub(crate) fn is_sink_fault(self) -> bool
        ensures yes { result ≡ true → self ≡ Served.SinkFault }
        ensures no { result ≡ false → self ≢ Served.SinkFault }
    {
        match self {
            Served::SinkFault => true,
            Served::Done => false,
            Served::Memory => false,
            Served::LinkFault => false,
            Served::EntropyFault => false,
        }
    }
}
