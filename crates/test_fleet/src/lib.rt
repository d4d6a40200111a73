//! Worked examples of scenarios, by computation from the definitions alone, checksums and signatures included: whole
//! reports, how long a flow over two drones must be, the premise at a noise line, and what an execution of the world
//! of messages reports, against the report. Nothing here runs, and nothing depends on it.
#![tactic(auto)]

mod flows;

pub use flows::flows_over_two_drones;
