//! What a line of a scenario says, or the first reason against it.
//!
//! `read` reads one line against what is known of the world: the nodes that were named ([`Names`]),
//! the items in the draft and the clock. `read_item_line` reads lines of items alone. Both are stated by
//! definitions over plain lists (`reason_against`, `line_of`). `Words` reads the words of a line of another form.
//! Nothing here does what a line says, but that `put_items` adds the items of a line to a plan.
#![tactic(auto)]

mod arguments;
mod delivery_lines;
mod faults;
mod flight_lines;
mod item_rows;
mod items;
mod laws;
mod lines;
mod name_words;
mod naming;
mod nodes;
mod numbers;
mod orders;
mod reading;
mod words;

pub use faults::{LineFault, Reason};
pub use item_rows::put_items;
pub use laws::lines_read_are_permitted;
pub use lines::Line;
pub use name_words::is_word;
pub use naming::{Named, Names, Role};
pub use reading::{read, read_item_line};
use std::alloc::AllocError;
pub use words::Words;

pub type NoMemory = AllocError;
