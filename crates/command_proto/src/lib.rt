//! The two ends of the command protocol, as state machines without links or clocks: an `Executor`, the drone's side,
//! and a `Commander`, the station's. Messages and ticks go in, and messages, a drone's actions and results come out.
//! Each is defined by total step functions in specs/ (`executor_step`; `commander_step`, `commander_tick`), and only
//! `Executor::new` allocates. Nothing here flies a drone: whoever calls `step` does the action that it returns.
#![tactic(auto)]

mod commander;
pub mod commands;
mod executor;
mod last_commands;
mod laws;
mod ticks;
pub mod verdicts;

pub use commander::Commander;
pub use executor::{Executor, Ready};
pub use laws::{every_commander, every_executor, every_last_command, every_repetition, every_run};
use std::alloc::AllocError;
pub use ticks::{CommandBusy, CommandTick};

pub type NoMemory = AllocError;
