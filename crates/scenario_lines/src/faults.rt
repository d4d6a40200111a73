// Why a line is rejected.
use std::alloc::AllocError;

/// The first reason against a scenario line, in this order but for the arguments, which are tested
/// from left to right.
#[derive(Clone, Copy)]
pub enum Reason {
    /// More than 4,096 bytes.
    Long,
    /// No word of the grammar.
    Word,
    /// A line that this program doesn't do yet.
    Later,
    /// The number of words.
    Count,
    /// The form or the range of a number.
    Number,
    /// No node of that name was named before in that role.
    Node,
    /// No kind of plan: not `mission`, `fence` or `rally`, nor `all` where that is allowed.
    Kind,
    /// Hexadecimal digits: eight of a word, or two for each of one or more bytes.
    Hex,
    /// The name is taken.
    Twice,
    /// The x of the last item leaves 32 bits.
    Range,
    /// More than 2,000 items in the draft.
    Draft,
    /// The clock goes above 2^47 units.
    Clock,
}

/// Why a line isn't read.
#[derive(Clone, Copy)]
pub enum LineFault {
    Bad(Reason),
    NoMemory,
}

impl From<AllocError> for LineFault {
    ghost use Rattle.std.specs.Prelude.{◌≡◌};
    ghost use Rattle.scenario_lines.specs.declared.faults.LineFault.TheVariants.{NoMemory};

    ghost from_gives = { λ _ e. e ≡ NoMemory };

    fn from(_: AllocError) -> Self {
        LineFault::NoMemory
    }
}

impl From<Reason> for LineFault {
    ghost use Rattle.std.specs.Prelude.{◌≡◌};
    ghost use Rattle.scenario_lines.specs.declared.faults.LineFault.TheVariants.{Bad};

    ghost from_gives = { λ reason e. e ≡ Bad reason };

    fn from(reason: Reason) -> Self {
        LineFault::Bad(reason)
    }
}
