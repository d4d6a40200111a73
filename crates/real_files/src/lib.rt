//! A program's words, and the files that it reads.
//!
//! [`words_of`] gives the words after the program's name, and [`open_input`] opens an input by its name. What can't be
//! opened fails at each read, and only want of memory stops an opening. Files are the system's: nothing is promised of
//! what they hold.
#![tactic(auto)]

mod inputs;
mod words;

pub use inputs::{Reader, open_input};
use std::alloc::AllocError;
pub use words::words_of;

/// There was no memory.
pub type NoMemory = AllocError;
