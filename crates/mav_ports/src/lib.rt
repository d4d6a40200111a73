//! Sources, sinks and clocks: all that the program reads from outside, and all that it writes there.
//!
//! [`Source`], [`Sink`] and [`Clock`] promise which bytes moved, and that a call failed only if a
//! count of faults rose. The ports over memory also say what each call returns, for tests and
//! runs without a system; the `Std` ports wrap the system's own and promise nothing of what
//! these hold; a call that a signal interrupts is made again. Nothing here allocates but the constructors that return
//! [`NoMemory`].
#![tactic(auto)]

mod calls;
mod clocks;
mod interrupts;
mod mem_clock;
mod mem_sink;
mod mem_source;
mod remaining;
mod sinks;
mod sources;
mod std_clock;
mod std_sink;
mod std_source;
mod sure_sink;
mod sure_source;

pub use clocks::Clock;
pub use interrupts::{read_once, write_once};
pub use mav_names::{Name, Stream};
pub use mem_clock::MemClock;
pub use mem_sink::MemSink;
pub use mem_source::MemSource;
pub use sinks::{Put, Sink, WriteFault, write_all};
pub use sources::{Got, Source};
use std::alloc::AllocError;
pub use std_clock::StdClock;
pub use std_sink::StdSink;
pub use std_source::StdSource;
pub use sure_sink::SureSink;
pub use sure_source::SureSource;

/// There was no memory.
pub type NoMemory = AllocError;
