// What each step keeps.
ghost use Rattle.fleet_invariants.specs.Laws.{EveryCallKeeps, EveryGivingKeeps, EveryLineKeeps, EveryReadLineFits};

/// Whatever a node of a sound state does, at a datagram that brings nothing else than sent frames, at a
/// tick, a heartbeat or an order, it leaves a sound state. Names, roles and streams stay.
pub fn every_call()
    ensures { EveryCallKeeps }
{}

/// So do sent frames that are given: to one node, to some or to all, in a flow, or once more.
pub fn every_giving()
    ensures { EveryGivingKeeps }
{}

/// So does each line that may be asked for, whose foreign bytes are authentic. It names no other node
/// than it says.
pub fn every_line()
    ensures { EveryLineKeeps }
{}

/// A line that has no reason against it may be asked for, and its numbers are in the ranges of their
/// types.
pub fn every_read_line()
    ensures { EveryReadLineFits }
{}
