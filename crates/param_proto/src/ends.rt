// What a client's operation ends with.
use crate::Param;
use mav_messages::Message;

/// How an operation ended.
#[derive(Clone, Copy)]
pub enum ParamEnd {
    /// A read or set, with the value that now holds.
    One(Param),
    /// A list, with so many values.
    All(u16),
}

/// What a tick makes of the open operation.
#[derive(Clone, Copy)]
pub enum ParamTick {
    /// None is open.
    Quiet,
    /// It asks again by this message.
    Again(Message),
    /// It ended, after so many ticks without an answer.
    NoAnswer(u8),
}
