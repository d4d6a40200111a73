// What an endpoint reports of a frame.
use crate::Admit;
use mav_messages::Message;
use mav_names::Stream;

/// The result for a frame that came in.
#[derive(Clone, Copy)]
pub enum Heard {
    /// An admitted message of the profile.
    Message(Stream, Message),
    /// An admitted frame of another message, by its id.
    Other(Stream, u32),
    /// A frame that wasn't admitted, and why.
    Dropped(Admit),
}
