// Commands, as both sides keep them.
ghost use Rattle.std.specs.Prelude.{◌≡◌};
ghost use Rattle.command_proto.specs.Executor.{command_in, same_command};

use mav_messages::CommandLong;
use mav_names::Stream;

/// A command: its number (MAVLink common messages, MAV_CMD), and its seven parameters, each the word of a float.
#[derive(Clone, Copy)]
pub struct Command {
    pub number: u16,
    pub params: [u32; 7],
}

/// The last command of a stream that was done, and its result, one of `MavResult`.
#[derive(Clone, Copy)]
pub struct LastCommand {
    pub stream: Stream,
    pub command: Command,
    pub result: u8,
}

/// A command without a result: how often it was given again, and the ticks in a row without an acknowledgement.
#[derive(Clone, Copy)]
pub struct Issue {
    pub drone: Stream,
    pub command: Command,
    pub confirmation: u8,
    pub idle: u8,
}

impl Command {
    pub fn of(m: &CommandLong) -> Command
        ensures { result ≡ command_in m.now }
    {
        Command {
            number: m.command,
            params: [
                m.param1, m.param2, m.param3, m.param4, m.param5, m.param6, m.param7,
            ],
        }
    }

    pub fn is_same(&self, other: &Command) -> bool
        ensures { result ≡ same_command self.now other.now }
    {
        self.number == other.number && self.params == other.params
    }
}
