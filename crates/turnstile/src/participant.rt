// What the lock and its participants know. It exists in proofs alone.
use std::collections::LinkedList;
use std::snapshot::Snapshot;

/// What one participant knows. No value of it is made.
pub struct ParticipantState<E> {
    // the history that it has seen
    pub seen: LinkedList<E>,
    pub own: LinkedList<E>,
    // where its own entries stand in the history
    pub positions: LinkedList<u64>,
    // what those had seen that were merged into it
    pub merged: LinkedList<LinkedList<E>>,
    // how many handles it represents
    pub represents: u64,
    pub ticket: Option<u64>,
    pub has_turn: bool,
}

/// What the lock is told when it is made. It has no bytes of the value.
#[derive(Drop)]
pub struct Opening<V> {
    pub value: Snapshot<V>,
    pub handles: u64,
}
