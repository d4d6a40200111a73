//! What holds of the state of every authentic scenario, after each of its steps: names are distinct,
//! numbers are in their ranges, what was sent is signed and reads back, and every timestamp that was
//! admitted had been sent.
//!
//! Nothing here runs. Each function has an empty body, and its contract is a law over the definitions
//! of fleet_world. `specs/Sound` says what a sound state is, `specs/Kept` what each step keeps of it.
#![tactic(auto)]

mod frames;
mod states;
mod steps;

pub use frames::{
    every_authentic_frame, every_repeated_frame, every_sent_frame, every_unsent_frame,
};
pub use states::{every_authentic_scenario, every_command, every_quiet_scenario, every_state};
pub use steps::{every_call, every_giving, every_line, every_read_line};
