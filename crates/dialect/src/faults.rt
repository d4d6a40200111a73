// Why definitions aren't a dialect.
use field_layout::LayoutFault;
use std::alloc::{AllocError, AllocFailed};
use std::fmt;
use thiserror::Error;

/// The first fault of definitions. Messages are tested in order; `at` is the index of the message, from 0.
#[derive(Drop, Error)]
pub enum DialectFault {
    #[error("the text is no JSON")]
    NotJson,
    /// The top level (None), or a message with its fields, lacks the members that it should have.
    #[error("a definition hasn't the members that it should have")]
    Shape { at: Option<u32> },
    #[error("a message has a field of an unknown type")]
    BadType { at: u32 },
    #[error("a message has a name of another form")]
    BadName { at: u32 },
    /// An earlier message has its id.
    #[error("a message has the id of an earlier one")]
    TwiceId { at: u32 },
    /// An earlier message has its name.
    #[error("a message has the name of an earlier one")]
    TwiceName { at: u32 },
    /// Its fault is never `LayoutFault::NoMemory`.
    #[error("a message has no layout")]
    Layout { at: u32, fault: LayoutFault },
    #[error("there are more than 512 messages")]
    TooMany,
    #[error("there is no memory")]
    NoMemory,
}

// An error type has to be `Debug`, and nothing prints this one: a derived one would print all its numbers and names.
impl fmt::Debug for DialectFault {
    fn fmt<W: fmt::Write>(&self, f: &mut fmt::Formatter<W>) -> fmt::Result {
        fmt::Display::fmt(self, f)
    }
}

impl From<AllocError> for DialectFault {
    ghost use Rattle.std.specs.Prelude.{◌≡◌};
    ghost use Rattle.dialect.specs.declared.faults.DialectFault.TheVariants.{NoMemory};

    ghost from_gives = { λ _ fault. fault ≡ NoMemory };

    fn from(_refused: AllocError) -> DialectFault {
        DialectFault::NoMemory
    }
}

impl<T: Drop> From<AllocFailed<T>> for DialectFault {
    ghost use Rattle.std.specs.Prelude.{◌≡◌};
    ghost use Rattle.dialect.specs.declared.faults.DialectFault.TheVariants.{NoMemory};

    ghost from_gives = { λ _ fault. fault ≡ NoMemory };

    fn from(_refused: AllocFailed<T>) -> DialectFault {
        DialectFault::NoMemory
    }
}
