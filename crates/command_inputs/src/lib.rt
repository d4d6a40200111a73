//! What a command reads of its inputs: keys, files of lines, plans, and files as they are.
//!
//! [`read_key`] reads an input to its end as 64 hexadecimal digits and an optional line end; no byte at all means
//! [`default_key`], and is no key to [`read_given_key`]. They take no memory, and never more than 67 bytes of the
//! input. [`named_key`] reads it for a command whose line may name one. [`read_file`] returns all bytes of an input,
//! at most 1,048,576.
//!
//! A [`LineTaker`] takes the text of one line after another; [`read_lines`] reads an input to its end and hands it the
//! lines. A file has at most 100,000 lines of at most 4,096 bytes, and its last line may lack its LF. Never more than
//! one line is held, and nothing is read after a piece with a bad line. [`read_plan`] so reads the `item` and `items`
//! lines of a plan, with the limits of scenarios; an empty line and one that begins with `#` do nothing. [`add_line`]
//! adds the items of one line of any other file.
#![tactic(auto)]

mod bad_lines;
mod feeding;
mod held;
mod inputs;
mod item_files;
mod item_lines;
mod key_inputs;
mod key_texts;
mod line_files;
mod named_keys;
mod put_files;
mod takers;

pub use bad_lines::bad_line;
pub use feeding::without_cr;
pub use inputs::Inputs;
pub use item_files::read_plan;
pub use item_lines::add_line;
pub use key_inputs::{read_given_key, read_key};
pub use key_texts::default_key;
pub use line_files::read_lines;
pub use named_keys::named_key;
pub use put_files::read_file;
pub use takers::LineTaker;
