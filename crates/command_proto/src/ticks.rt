// What a commander's calls return.
use mav_messages::Message;

/// No command is given while another one is open, the one with this number.
#[derive(Clone, Copy)]
pub struct CommandBusy {
    pub command: u16,
}

/// What a tick brings.
#[derive(Clone, Copy)]
pub enum CommandTick {
    /// No command is open.
    Quiet,
    /// The command is given again.
    Again(Message),
    /// The command ends without a result, after this many ticks in a row without an acknowledgement.
    NoAnswer(u8),
}
