//! The command `fence`: whether a mission and its flight stay inside a fence.
//!
//! [`fence`] reads a file of lines to its end: where the flight starts, its step and its ticks, and the items of the
//! fence and of the mission. Then it writes what the fence says of each item, which legs touch it, and after which
//! ticks the drone is outside. Nothing is written before the file was read to its end. Its contract says what was
//! read, why the run ended and what was written, by the specification in `specs/Spec.antt`. The text of a status isn't
//! written here.
#![tactic(auto)]

mod commands;
mod files;
mod lines;
mod plans;
mod reading;
mod reports;
mod texts;

pub use commands::fence;
pub use files::FenceFile;
