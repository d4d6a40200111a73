// The commands and their options, and which of them are built.
ghost use Rattle.std.specs.Prelude.{◌≡◌};
ghost use Rattle.command_line.specs.Commands.{command_word, option_word, has_value, has_option, needs_key};
ghost use Rattle.command_line.specs.Built.{is_built, is_option_built};

/// What the program does.
#[derive(Clone, Copy)]
pub enum Command {
    Fleet,
    Dialect,
    Decode,
    Route,
    Drone,
    Station,
    Make,
    /// `log show`
    LogShow,
    /// `log filter`
    LogFilter,
    /// `log make`
    LogMake,
    Fence,
}

/// An option that some command has.
#[derive(Clone, Copy)]
pub enum OptionName {
    Frames,
    Key,
    Defs,
    One,
    Turns,
    Ticks,
    File,
    Store,
}

// The commands of one word.
pub(crate) const COMMANDS: [Command; 8] = [
    Command::Fleet,
    Command::Dialect,
    Command::Decode,
    Command::Route,
    Command::Drone,
    Command::Station,
    Command::Make,
    Command::Fence,
];

// The commands whose first word is `log`.
pub(crate) const LOG_COMMANDS: [Command; 3] = [
    Command::LogShow,
    Command::LogFilter,
    Command::LogMake,
];

pub(crate) const OPTION_NAMES: [OptionName; 8] = [
    OptionName::Frames,
    OptionName::Key,
    OptionName::Defs,
    OptionName::One,
    OptionName::Turns,
    OptionName::Ticks,
    OptionName::File,
    OptionName::Store,
];

impl Command {
    /// Its word, the second one of its lines if it is on logs.
    pub(crate) fn word(self) -> &'static str
        ensures { result.now ≡ command_word self }
    {
        match self {
            Command::Fleet => "fleet",
            Command::Dialect => "dialect",
            Command::Decode => "decode",
            Command::Route => "route",
            Command::Drone => "drone",
            Command::Station => "station",
            Command::Make | Command::LogMake => "make",
            Command::LogShow => "show",
            Command::LogFilter => "filter",
            Command::Fence => "fence",
        }
    }

    /// Whether the program does it yet.
    pub(crate) fn is_built(self) -> bool
        ensures { result ≡ is_built self }
    {
        match self {
            Command::Fleet
            | Command::Dialect
            | Command::Decode
            | Command::Route
            | Command::Drone
            | Command::Station
            | Command::Make
            | Command::LogShow
            | Command::LogFilter
            | Command::LogMake
            | Command::Fence => true,
        }
    }

    /// Whether this is one of its options.
    pub(crate) fn has_option(self, name: OptionName) -> bool
        ensures { result ≡ has_option self name }
    {
        match self {
            Command::Fleet => matches!(name, OptionName::Frames | OptionName::Key),
            Command::Dialect | Command::LogShow | Command::LogFilter | Command::LogMake => {
                matches!(name, OptionName::Defs)
            }
            Command::Decode => matches!(name, OptionName::Defs | OptionName::Key),
            Command::Route => matches!(
                name,
                OptionName::Key | OptionName::Defs | OptionName::One | OptionName::Turns
            ),
            Command::Drone => matches!(
                name,
                OptionName::Key | OptionName::Store | OptionName::Turns
            ),
            Command::Station => matches!(
                name,
                OptionName::Key | OptionName::Ticks | OptionName::File
            ),
            Command::Make | Command::Fence => false,
        }
    }

    /// Whether it takes this option yet.
    pub(crate) fn is_option_built(self, name: OptionName) -> bool
        ensures { result ≡ is_option_built self name }
    {
        self.has_option(name)
    }

    /// Whether it needs a key.
    pub(crate) fn needs_key(self) -> bool
        ensures { result ≡ needs_key self }
    {
        matches!(self, Command::Route | Command::Drone | Command::Station)
    }
}

impl OptionName {
    /// Its word.
    pub(crate) fn word(self) -> &'static str
        ensures { result.now ≡ option_word self }
    {
        match self {
            OptionName::Frames => "--frames",
            OptionName::Key => "--key",
            OptionName::Defs => "--defs",
            OptionName::One => "--one",
            OptionName::Turns => "--turns",
            OptionName::Ticks => "--ticks",
            OptionName::File => "--file",
            OptionName::Store => "--store",
        }
    }

    /// Whether a value goes with it.
    pub(crate) fn has_value(self) -> bool
        ensures { result ≡ has_value self }
    {
        !matches!(self, OptionName::Frames | OptionName::One)
    }
}
