// A command line.
ghost use Rattle.std.specs.Prelude.{◌≡◌, string_bytes};
ghost use Rattle.command_line.specs.Forms.{most_turns};
ghost use Rattle.command_line.specs.Numbers.{number_in};

use crate::commands::{Command, OptionName};
use crate::operations::Task;
use crate::ports::Port;

/// An option and its value, which is empty for one without.
#[derive(Drop)]
pub struct Setting {
    pub name: OptionName,
    pub value: String,
    /// The value as a number from 1 to 1,000,000,000, if it is one.
    pub number: Option<u64>,
    ghost is: { number ≡ number_in 1 most_turns (string_bytes value) },
}

/// What the words ask for.
pub struct Line {
    pub command: Command,
    /// The options, in the order given.
    pub settings: Vec<Setting>,
    /// The plain words.
    pub words: Vec<String>,
    /// The ports that these name.
    pub ports: Vec<Port>,
    /// The number of `make`, the system of `log filter`, or the start of `log make` in microseconds since 1970; 0 for
    /// another command.
    pub number: u64,
    /// The system of a drone or a station; 0 for another command.
    pub system: u8,
    /// What a station is told; None for another command.
    pub task: Option<Task>,
}

// By hand, so that whoever drops a line proves one call.
impl Drop for Line {
    fn drop(self) {
        let Line {
            command: _,
            settings: _settings,
            words: _words,
            ports: _ports,
            number: _,
            system: _,
            task: _task,
        } = self;
    }
}

impl Line {
    /// The ports that the plain words name, moved out.
    pub fn into_ports(self) -> Vec<Port>
        ensures { result ≡ self.ports }
    {
        let Line {
            command: _,
            settings: _settings,
            words: _words,
            ports,
            number: _,
            system: _,
            task: _task,
        } = self;
        ports
    }
}
