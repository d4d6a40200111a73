//! The command `fleet`: a scenario is played line by line as it is read, and the report of each
//! line is written before more is read.
//!
//! [`fleet`] does it over any input and output; its contract says what of the scenario was played,
//! why the run ended and what was written, by the specification in `specs/Spec.antt`. The text of a
//! status isn't written here.
#![tactic(auto)]

mod player;
mod playing;

pub use playing::fleet;
