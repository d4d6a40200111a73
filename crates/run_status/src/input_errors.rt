// What in an input ends a run, and how it is printed.
ghost use Rattle.std.specs.Prelude.{◌≡◌, IfOk, string_bytes};
ghost use Rattle.run_status.specs.Endings.{line_word, reason_word, bound_words, place_text, error_code, error_text};

use crate::NoMemory;
use scenario_lines::Reason as LineReason;
use std::alloc::Global;

/// Where an input has an error.
#[derive(Clone, Copy)]
pub enum Place {
    /// A line of the main input, counted from 1.
    Line(usize),
    /// The key, which `--key` names.
    Key,
    /// The definitions, which `--defs` names.
    Definitions,
    Operation,
    /// What a drone has stored, which `--store` names.
    Store,
    /// The fence of a file that `fence` reads.
    Fence,
    /// The mission of such a file.
    Mission,
}

/// What is wrong there. Each is printed as one or two words.
#[derive(Clone, Copy)]
pub enum Reason {
    /// The reason against a line.
    Line(LineReason),
    Key,
    Json,
    Shape,
    FieldType,
    Name,
    TwiceId,
    TwiceName,
    Layout,
    TooMany,
    Refused,
    Kept,
    Plan,
}

/// A limit of the program, which is printed with its number.
#[derive(Clone, Copy)]
pub enum Bound {
    Lines,
    Frames,
    Drones,
    Stations,
    Restarts,
    /// Bytes of definitions.
    DefinitionBytes,
    /// Bytes of an input that is decoded.
    InputBytes,
    /// Entries of a router's journal.
    Entries,
}

/// An error of an input, at which a run stops.
#[derive(Clone, Copy)]
pub enum InputError {
    Bad(Place, Reason),
    AtLimit(Bound),
    /// A node has no timestamp left for a frame: the next one would pass 2^48 - 1.
    StampsSpent,
}

fn line_word(reason: LineReason) -> &'static str
    ensures { result.now ≡ line_word reason }
{
    match reason {
        LineReason::Long => "long",
        LineReason::Word => "word",
        LineReason::Later => "later",
        LineReason::Count => "count",
        LineReason::Number => "number",
        LineReason::Node => "node",
        LineReason::Kind => "kind",
        LineReason::Hex => "hex",
        LineReason::Twice => "twice",
        LineReason::Range => "range",
        LineReason::Draft => "draft",
        LineReason::Clock => "clock",
    }
}

impl Reason {
    fn word(self) -> &'static str
        ensures { result.now ≡ reason_word self }
    {
        match self {
            Reason::Line(reason) => line_word(reason),
            Reason::Key => "key",
            Reason::Json => "json",
            Reason::Shape => "shape",
            Reason::FieldType => "type",
            Reason::Name => "name",
            Reason::TwiceId => "twice id",
            Reason::TwiceName => "twice name",
            Reason::Layout => "layout",
            Reason::TooMany => "too many",
            Reason::Refused => "refused",
            Reason::Kept => "kept",
            Reason::Plan => "plan",
        }
    }
}

impl Bound {
    fn words(self) -> &'static str
        ensures { result.now ≡ bound_words self }
    {
        match self {
            Bound::Lines => "lines 100000",
            Bound::Frames => "frames 100000",
            Bound::Drones => "drones 16",
            Bound::Stations => "stations 16",
            Bound::Restarts => "restarts 1000",
            Bound::DefinitionBytes => "bytes 16777216",
            Bound::InputBytes => "bytes 268435456",
            Bound::Entries => "entries 1000000",
        }
    }
}

impl Place {
    fn text(self, alloc: Global) -> Result<String, NoMemory>
        ensures { IfOk result (λ text. string_bytes text ≡ place_text self) }
    {
        match self {
            Place::Line(line) => format!(in alloc; "line {line}"),
            Place::Key => String::from_str(alloc, "key"),
            Place::Definitions => String::from_str(alloc, "definitions"),
            Place::Operation => String::from_str(alloc, "operation"),
            Place::Store => String::from_str(alloc, "store"),
            Place::Fence => String::from_str(alloc, "fence"),
            Place::Mission => String::from_str(alloc, "mission"),
        }
    }
}

impl InputError {
    /// The exit status.
    pub(crate) fn code(self) -> u8
        ensures { result ≡ error_code self }
    {
        match self {
            InputError::Bad(..) => 3,
            InputError::AtLimit(_) => 6,
            InputError::StampsSpent => 13,
        }
    }

    pub(crate) fn text(self, alloc: Global) -> Result<String, NoMemory>
        ensures { IfOk result (λ text. string_bytes text ≡ error_text self) }
    {
        match self {
            InputError::Bad(place, reason) => {
                let place = place.text(alloc)?;
                format!(in alloc; "bad {}: {}\n", place.as_str(), reason.word())
            }
            InputError::AtLimit(limit) => format!(in alloc; "limit {}\n", limit.words()),
            InputError::StampsSpent => String::from_str(alloc, "stamps spent\n"),
        }
    }
}
