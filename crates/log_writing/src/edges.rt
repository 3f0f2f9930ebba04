//! What is written of events, and what isn't, at single values. The functions do nothing: the
//! contract of each states what the definitions that the writer cites are there. All of it is own.

ghost use Rattle.std.specs.Prelude.{◌≡◌, ◌∷◌, ◌++◌, [], codes, replicate};
ghost use Rattle.endpoint_model.specs.declared.entry.Entry.TheVariants.{Advanced, FlowOpened, Moved};
ghost use Rattle.endpoint_model.specs.Event.{Cancel, Introduce, OnFlows, Receive, Tick};
ghost use Rattle.endpoint_model.specs.FlowCall.{Finish};
ghost use Rattle.log_writing.specs.Rows.{IsEventText, draws, from_origin};
ghost use Rattle.log_writing.specs.Written.{entry_lines};

/// Entries that logs don't tell have no line.
pub fn some_entries_are_not_written()
    ensures moved { entry_lines (Moved 3 (from_origin 1) ∷ []) ≡ [] }
    ensures flow { entry_lines (FlowOpened 3 4 ∷ []) ≡ [] }
    ensures between { IsEventText Introduce (FlowOpened 3 4 ∷ Advanced 1 ∷ Moved 3 (from_origin 1)
        ∷ []) (codes "event a 5 " ++ replicate 32 0x30 ++ codes " other\n+ advanced 1\n") }
{}

/// A call on flows is `other`, with a nonce of zeros, as each call that draws nothing.
pub fn calls_on_flows_are_other()
    ensures flows { IsEventText (OnFlows 3 (Finish 4)) []
        (codes "event a 5 " ++ replicate 32 0x30 ++ codes " other\n") }
    ensures cancels { IsEventText (Cancel 1) []
        (codes "event a 5 00000000000000000000000000000000 cancel 1\n") }
    ensures ticks { IsEventText (Tick draws) []
        (codes "event a 5 " ++ replicate 32 0x32 ++ codes " tick\n") }
{}

/// The origin of an address isn't told.
pub fn origins_are_not_told()
    ensures unknown { IsEventText (Receive (from_origin 0) (0 ∷ 255 ∷ []) draws) []
        (codes "event a 5 " ++ replicate 32 0x32 ++ codes " receive 1.2.3.4:5 00ff\n") }
    ensures observed { IsEventText (Receive (from_origin 2) (0 ∷ 255 ∷ []) draws) []
        (codes "event a 5 " ++ replicate 32 0x32 ++ codes " receive 1.2.3.4:5 00ff\n") }
{}
