//! Laws of flows, each the contract of a function without arguments.

ghost use Rattle.std.specs.Prelude.{ℕ, List, Some, ◌≤◌, true, false, Bool};
ghost use Rattle.rtmfp_data_chunks.specs.Runs.{Chunk};
ghost use Rattle.rtmfp_data_chunks.specs.HandsOver.{IsIn, HandsOver, HandsOnce};
ghost use Rattle.flow_recv.specs.Reached.{Call, AllProper, all_calls, at_first};
ghost use Rattle.flow_exchange.specs.Exchange.{Ack};
ghost use Rattle.flow_exchange.specs.Pair.{Happening, Pair, exchanged, happens, pair, takes, hears};
ghost use Rattle.flow_exchange.specs.Related.{IsExchange};
ghost use Rattle.flow_exchange.specs.Sending.{Act, all_acts, begun, SpeaksTrue};
ghost use Rattle.flow_exchange.specs.Stands.{StandsFor};
ghost use Rattle.flow_exchange.specs.Receiving.{HandsInOrder, AllHanded, HandsLowest, Counts};
ghost use Rattle.flow_exchange.specs.Receiving.{RefusesBy};

/// Whatever chunks a receiver takes and however often it hands over, what it keeps stands for them.
/// In queueing order it hands over what is to be handed over, one message after another. In arrival
/// order the next message is the lowest whole run that wasn't handed over, and each whole run was
/// where there is none. The bytes that it holds, the number at or below which none is missing, and
/// its refusals but want of memory are those of the chunks that it took.
pub fn receiving()
    ensures stands { (arriving : Bool) (events : List Call) → AllProper events
        → StandsFor (all_calls (at_first arriving) events).receiver
        (all_calls (at_first arriving) events).chunks
        (all_calls (at_first arriving) events).handed }
    ensures in_order { (events : List Call) → AllProper events →
        HandsInOrder (all_calls (at_first false) events) }
    ensures arriving { (events : List Call) → AllProper events →
        AllHanded (all_calls (at_first true) events) }
    ensures lowest { (events : List Call) → AllProper events →
        HandsLowest (all_calls (at_first true) events) }
    ensures counts { (arriving : Bool) (events : List Call) → AllProper events →
        Counts (all_calls (at_first arriving) events) }
    ensures refuses { (arriving : Bool) (events : List Call) → AllProper events →
        RefusesBy (all_calls (at_first arriving) events) }
{}

/// Whatever calls a sender gets, each chunk that it gives next has its number's fragment, or is a
/// notice of the forward number or the end of the flow, and all at or below its forward number is
/// acknowledged or abandoned.
pub fn sending()
    ensures { (first : ℕ) (events : List Act) → 1 ≤ first →
        SpeaksTrue (all_acts (begun first) events) }
{}

/// Every exchange of one sender and one receiver, whatever is lost, repeated or comes in another
/// order. In queueing order messages are handed over whole, once, in that order, and only abandoned
/// ones are skipped. In arrival order each message handed over is a queued one, and none is handed
/// over twice.
pub fn exchange()
    ensures in_order { (first : ℕ) (events : List Happening) → 1 ≤ first
        → HandsOver (exchanged (pair first false) events).world.queued
        (exchanged (pair first false) events).world.abandoned
        (exchanged (pair first false) events).world.handed }
    ensures arriving { (first : ℕ) (events : List Happening) → 1 ≤ first
        → HandsOnce (exchanged (pair first true) events).world.queued
        (exchanged (pair first true) events).world.handed }
{}

/// The exchange as a relation between a sender, a receiver and what has happened, which a history
/// of many flows can carry along. It holds at the start; each step keeps it, the taking of any
/// chunk among those sent and the hearing of any ack among those told too; and what was handed
/// over is as `exchange` says.
pub fn steps()
    ensures begins { (arriving : Bool) (first : ℕ) → 1 ≤ first →
        IsExchange arriving (pair first arriving) }
    ensures goes_on { (arriving : Bool) (p : Pair) (e : Happening) → IsExchange arriving p →
        IsExchange arriving (happens p e) }
    ensures takes { (arriving : Bool) (p : Pair) (c : Chunk) → IsIn c p.world.sent →
        IsExchange arriving p → IsExchange arriving (takes p (Some c)) }
    ensures hears { (arriving : Bool) (p : Pair) (blocks : ℕ) (a : Ack) → IsIn a p.world.told →
        IsExchange arriving p → IsExchange arriving (hears p blocks (Some a)) }
    ensures in_order { (p : Pair) → IsExchange false p →
        HandsOver p.world.queued p.world.abandoned p.world.handed }
    ensures arriving { (p : Pair) → IsExchange true p → HandsOnce p.world.queued p.world.handed }
{}
