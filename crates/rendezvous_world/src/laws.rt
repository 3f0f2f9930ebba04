//! What holds of every world. The functions do nothing: the contract of each is its law.

ghost use Rattle.rendezvous_world.specs.Kept.{IsWorld};
ghost use Rattle.rendezvous_world.specs.Laws.{EveryWorldIsSound, EveryWorldIsAgreed, EveryWorldHandsOver, EveryCallKeepsAWorld, EveryForgedDatagramIsDishonest, EveryStepKeepsAWorld, empty_world};

/// The history of each world is lawful, honest and fresh, and each end stands for its own log, but
/// that it may keep a later moment.
pub fn every_world_is_sound()
    ensures { EveryWorldIsSound }
{}

/// At each moment, what the ends of such a world stated of their sessions with each other fits
/// together.
pub fn every_world_is_agreed()
    ensures { EveryWorldIsAgreed }
{}

/// At each moment each flow of such a world has handed over messages that were queued on it, whole
/// and none twice; and where it is in queueing order, in this order, skipping only abandoned ones.
pub fn every_world_hands_over()
    ensures { EveryWorldHandsOver }
{}

/// A step that isn't refused and calls an end leaves such a world, whatever the end answered.
pub fn every_call_keeps_a_world()
    ensures { EveryCallKeepsAWorld }
{}

/// A run begins with such a world, and each step that isn't refused leaves one.
pub fn every_step_keeps_a_world()
    ensures first { IsWorld empty_world }
    ensures next { EveryStepKeepsAWorld }
{}

/// Where a step is refused as forged, the history with its datagram wouldn't be honest. With
/// `every_step_keeps_a_world`, whose histories are honest, a datagram is refused as forged exactly
/// where it has to be.
pub fn every_forged_datagram_is_dishonest()
    ensures { EveryForgedDatagramIsDishonest }
{}
