//! Texts: the lines of a layout, the text of a frame with its fields, the line of a skipped byte.
//!
//! Each call that appends to a `Vec` appends exactly its text, or leaves its output as it was. [`put_part`],
//! [`put_small`] and [`put_number`] put a text at an index of a fixed buffer and return the index after it, so that a
//! line is put together there and appended once.
#![tactic(auto)]

mod chunk;
mod decimals;
mod digits;
mod fields;
pub mod laws;
mod layouts;
mod line_template;
mod line_templates;
mod pieces;
mod skip_block;
mod skip_ending;
mod skips;
mod small;
mod values;
mod words;

pub use chunk::{Chunk, put_part};
pub use decimals::{put_number, put_small};
pub use fields::put_fields;
pub use layouts::put_layout;
pub use line_templates::LineTemplates;
pub use pieces::put_decimal;
pub use skips::{SkipBlocks, put_skip, put_skips};
use std::alloc::AllocError;

pub type NoMemory = AllocError;
