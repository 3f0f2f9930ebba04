//! Rows of what a flow owes and of what is of which flow, each value beside the edge. The functions
//! do nothing.

ghost use Rattle.flow_history.specs.Edges.{InQueueingOrder, InArrivalOrder, FlowsAreApart};

/// What a flow in queueing order may hand over, and what it may not: a part of a message, a message
/// twice or after a later one, or a later one where one before it wasn't abandoned.
pub fn in_queueing_order()
    ensures { InQueueingOrder }
{}

/// The same of a flow in arrival order, in which a later message may come first.
pub fn in_arrival_order()
    ensures { InArrivalOrder }
{}

/// Flows of the same ID in two sessions of two ends, or of two IDs in one, are apart.
pub fn flows_are_apart()
    ensures { FlowsAreApart }
{}
