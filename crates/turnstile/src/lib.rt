//! A ticket lock round one value that keeps a list of entries, its history.
//!
//! Its main types are [`Turn`], the lock with the value, [`TurnSeat`], the handle of one participant, and [`Held`],
//! the value while its participant has the turn. Participants get their turns in the order of their tickets. All
//! threads together make one history: what a participant has seen is a prefix of it, and the entries that it added
//! stand in it, each once and in the order of its turns. Nothing here says that a participant ever gets its turn.
#![tactic(auto)]

mod held;
mod laws;
mod lock;
mod participant;
mod seat;
mod steps;
mod turn;

ghost use Rattle.std.specs.Prelude.{◌≡◌, List, length};

pub use held::Held;
pub use laws::each_label_has_its_own;
pub use participant::{Opening, ParticipantState};
pub use seat::TurnSeat;
use std::alloc::AllocError;
pub use turn::Turn;

/// There was no memory.
pub type NoMemory = AllocError;

/// A value that contracts see with a list of entries.
pub trait Journaled {
    type Entry;

    // Its entries, oldest first.
    ghost journal: { Self → List Self.Entry };

    /// How many entries it has.
    fn entries(&self) -> u64
        ensures { result ≡ length (journal self.now) };
}
