//! The scenario that a number gives, and the sums of a report.
//!
//! `specs/Generator.antt` says which scenario a number gives, line by line, and `specs/Sums.antt` what is counted of a
//! report. Each such scenario is authentic and played to its end: `generated_authentic` and `generated_done` of
//! `proofs/Generated.antt`. Nothing here plays one.
#![tactic(auto)]

mod lines;
mod rounds;
mod scenario;
mod sums;

pub use scenario::scenario_text;
pub use sums::sums_text;
