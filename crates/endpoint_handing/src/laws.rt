//! Laws of what ends hand over. The functions do nothing: the contract of each is its law.

ghost use Rattle.endpoint_handing.specs.Once.{EachBeginsOnce, EachContextNamesItsSender};
ghost use Rattle.endpoint_handing.specs.Once.{EachContextNamesItsTaker, WhatIsHeldHasBegun};
ghost use Rattle.endpoint_handing.specs.Once.{WhatIsHeldTakes, EachContextIsNew};
ghost use Rattle.endpoint_handing.specs.Laws.{EveryHistoryHandsOver, EveryHistoryHandsOnce};
ghost use Rattle.endpoint_handing.specs.Laws.{EveryFlowHasAnOrder, EveryMessageIsTold};

/// In each context of a session at most one session ever sends, at one end, and one takes. What is
/// held has begun.
pub fn contexts_begin_once()
    ensures once { EachBeginsOnce }
    ensures sender { EachContextNamesItsSender }
    ensures taker { EachContextNamesItsTaker }
    ensures held { WhatIsHeldHasBegun }
    ensures held_taking { WhatIsHeldTakes }
    ensures new { EachContextIsNew }
{}

/// Whatever ends of one group do with each other, each flow hands over what was queued on it:
/// whole, once, in queueing order and skipping only abandoned messages, or, in arrival order, whole
/// and once. It holds at each moment of every history in which each end stands for its log, what
/// opens was sent, and no nonce was drawn twice; whatever datagrams are lost, repeated or late, and
/// whatever calls find no memory. Each flow has one of the two orders, and each message that is
/// queued, abandoned or handed over is one of a flow.
pub fn hands_over()
    ensures in_order { EveryHistoryHandsOver }
    ensures arriving { EveryHistoryHandsOnce }
    ensures orders { EveryFlowHasAnOrder }
    ensures told { EveryMessageIsTold }
{}
