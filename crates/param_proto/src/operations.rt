// The operation that is open at a client.
use crate::Param;
use mav_names::Stream;

/// What it asks for.
#[derive(Clone, Copy)]
pub enum Task {
    Read([u8; 16]),
    Set(Param),
    List,
}

/// Of which drone, and the ticks in a row that brought nothing.
#[derive(Clone, Copy)]
pub struct OpenOperation {
    pub drone: Stream,
    pub task: Task,
    pub idle: u8,
}
