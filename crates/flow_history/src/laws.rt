//! Laws of flows between many ends, each the contract of a function without arguments.

ghost use Rattle.std.specs.Prelude.{◌≡◌, ◌∷◌, [], false};
ghost use Rattle.rtmfp_data_chunks.specs.HandsOver.{HandsOver};
ghost use Rattle.flow_history.specs.Laws.{EachFlowHandsOver, EachFlowHandsOnce};
ghost use Rattle.flow_history.specs.Laws.{EachHistoryHandsOver, EachHistoryHandsOnce};
ghost use Rattle.flow_history.specs.Laws.{EachFlowHasAnOrder};
ghost use Rattle.flow_history.specs.Lawful.{IsLawful, IsHonest};
ghost use Rattle.flow_history.specs.Log.{HasOrder, log_of, queued_of, abandoned_of, handed_of};
ghost use Rattle.flow_history.specs.Lively.{lively, flow, message};
ghost use Rattle.flow_history.specs.Broken.{broken, IsLawfulBut};
ghost use Rattle.flow_history.specs.Events.{EventsKeep, ThenDo};
ghost use Rattle.flow_history.specs.Told.{WhatIsWrittenIsTold};
ghost use Rattle.flow_history.specs.Keeping.{DeedsOfOthersKeep, OwnDeedsKeep};
ghost use Rattle.flow_history.specs.Parts.{WhatComesWasSplit, AnIdIsGivenOnce, parted};

/// Whatever the ends of one flow do, it hands over what was queued on it: whole, once, in queueing
/// order and skipping only abandoned messages, or, in arrival order, whole and once.
pub fn one_flow()
    ensures in_order { EachFlowHandsOver }
    ensures arriving { EachFlowHandsOnce }
{}

/// The same of each flow of each lawful and honest history of many ends, at each moment of the
/// history. Each flow has one of the two orders.
pub fn hands_over()
    ensures in_order { EachHistoryHandsOver }
    ensures arriving { EachHistoryHandsOnce }
    ensures orders { EachFlowHasAnOrder }
{}

/// What an end keeps of its flows stands for the history, deed by deed.
pub fn keeping()
    ensures other { DeedsOfOthersKeep }
    ensures own { OwnDeedsKeep }
{}

/// What an end does in one call is a list of deeds. It keeps a history lawful and honest where each
/// deed may be done in its turn.
pub fn events()
    ensures keep { EventsKeep }
    ensures then_do { ThenDo }
{}

/// The ack that a receiver writes, in whatever room, is one that it may tell.
pub fn told()
    ensures { WhatIsWrittenIsTold }
{}

/// A part of a packet that comes is one of a packet that was split in the context under its ID, and
/// under one ID only one packet ever was.
pub fn parts()
    ensures comes { WhatComesWasSplit }
    ensures once { AnIdIsGivenOnce }
{}

/// Such histories are there: in this one a packet goes out in two pieces, which come in the other
/// order, and the message that the packet has is handed over.
pub fn lively_parts()
    ensures lawful { IsLawful parted }
    ensures honest { IsHonest parted }
    ensures hands { handed_of flow (log_of parted) ≡ message ∷ [] }
{}

/// Such histories are there: in this one a message goes from one end to the other, and its ack
/// back.
pub fn lively()
    ensures lawful { IsLawful lively }
    ensures honest { IsHonest lively }
    ensures ordered { HasOrder false flow lively }
    ensures hands { handed_of flow (log_of lively) ≡ message ∷ [] }
{}

/// That at most one session sends in a context is needed: here two do, each other condition is met,
/// and a message is passed over that was not abandoned.
pub fn two_senders()
    ensures lawful { IsLawfulBut broken }
    ensures honest { IsHonest broken }
    ensures breaks { HandsOver (queued_of flow (log_of broken)) (abandoned_of flow (log_of broken))
        (handed_of flow (log_of broken)) → ⊥ }
{}
