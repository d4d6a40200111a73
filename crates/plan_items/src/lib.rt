//! Plans: the items of missions, fences and rally points, the messages that carry them, and the
//! tests that an item and a whole plan must pass before a drone installs it.
//!
//! `check_item` and `check_plan` return exactly the first fault of the validation table. Nothing
//! here sends, stores or flies a plan, and a `Plan` allocates only in `with_room` and `push`.
#![tactic(auto)]

mod actions;
mod codes;
mod faults;
mod items;
mod kinds;
mod messages;
mod plans;
mod validation;
mod words;

pub use actions::Action;
pub use codes::{MavCommand, MavFrame, MissionResult};
pub use faults::{PlanFault, code};
pub use items::Item;
pub use kinds::PlanKind;
pub use messages::PlanMsg;
pub use plans::Plan;
use std::alloc::AllocError;
pub use validation::{check_item, check_plan, check_whole_with};
pub use words::{GREATEST_SMALL, small_word, word_small};

pub type NoMemory = AllocError;
