//! The command `make`: the scenario that `scenario_maker` gives of a number is played as `fleet` plays it, and the
//! sums of its report are written.
//!
//! [`make`] takes no input, and nothing in a generated scenario stops a run: its contract is the specification
//! `make_spec` of `specs/Spec.antt`. The text of a status isn't written here.
#![tactic(auto)]

mod making;
mod report_sink;

pub use making::make;
