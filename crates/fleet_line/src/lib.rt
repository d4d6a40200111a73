//! The command `fleet` as its line says, with the main theorem of each run.
//!
//! [`run_fleet`] reads the key that a line names and plays the main input under it; [`run`] is a whole run of `fleet`
//! over words, for a program of that command alone. Its contract is one record, `FleetPromises`. Nothing here opens a
//! file, waits or ends a process.
#![tactic(auto)]

mod fleets;
mod runs;

pub use fleets::run_fleet;
pub use runs::run;
