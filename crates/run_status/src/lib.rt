//! How the commands of the program end.
//!
//! A [`RunEnd`] is why a run ends before its work is done; it has an exit status, and a text that
//! [`write_status`] writes after what the command wrote. [`read_on`] reads an input and gives up after a
//! million reads without bytes, [`write_enough`] holds lines back until they are 64 KiB.
//! `specs/Runs.antt` says, for any command over one input, what a run takes, why it ends and what it
//! writes; a command gives only its specification: which bytes stop it, and what it writes of them.
#![tactic(auto)]

mod held_lines;
mod input_errors;
mod live_ends;
mod reading;
mod run_ends;
mod status;

pub use held_lines::{ENOUGH_BYTES, write_enough, write_held};
pub use input_errors::{Bound, InputError, Place, Reason};
pub use live_ends::LiveEnd;
use mav_ports::NoMemory;
pub use reading::read_on;
pub use run_ends::RunEnd;
pub use status::{code_of, write_status};
