//! What holds of the scenarios that `fleet` plays: the main theorem, and which scenarios are played to their end.
//!
//! Nothing here runs. Each function has an empty body, and its contract is a law over the definitions of fleet_world.
//! `specs/Theorem` has all that the theorem promises of a scenario, and what a run of `fleet` carries of it;
//! `specs/Completeness` what is asked of a scenario that is played to its end, and what a run over it gives.
#![tactic(auto)]

mod scenarios;

pub use scenarios::{every_playable_scenario, every_scenario};
