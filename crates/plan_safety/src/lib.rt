//! The main theorem of the mission protocol: whatever drones and stations do, and whatever becomes of
//! their frames, each drone holds plans as the abstract mission store allows.
//!
//! Nothing here runs. Each function has an empty body, and its contract is a law over the definitions
//! of plan_upload: `every_execution` is the theorem, and the others say in words what the store's
//! histories are like. `specs/World` has the world, `specs/Store` the store.
#![tactic(auto)]

mod downloads;
mod examples;
mod executions;
mod outcomes;
mod uploads;

pub use downloads::every_download;
pub use examples::small_executions;
pub use executions::{every_execution, every_history};
pub use outcomes::every_outcome;
pub use uploads::{every_plan, every_upload};
