//! A router of MAVLink packets between links, on one thread or with a thread for each port.
//!
//! A [`Switch`] admits the frames that come in at its ports, keeps an [`Entry`] of each in its [`Journal`], and gives
//! each port the frames that go out there; all of it follows from the journal (MAVLink guide, Routing). [`route_one`]
//! and [`route_all`] run one over boxed links that may fail at any call, and return the journal and what became of
//! each port, or at a fault the journal so far. They never call a port again that failed, never send a packet back to
//! its own port, and put frames without a signature block through open ports alone.
//!
//! With a thread for each port (`threads`) the switch is behind a `turnstile`: each thread reads its own port and
//! writes to it (`running`), and has the switch admit in one turn the frames that it found and judged before
//! (`turns`).
#![tactic(auto)]

mod admitting;
mod batch;
mod buffer;
mod closing;
mod crew;
mod ends;
mod entries;
mod found;
mod hearing;
mod history;
mod jobs;
mod joining;
mod journal;
mod judging;
mod lane;
mod lanes;
pub mod laws;
mod moves;
mod page;
mod parts;
mod reading;
mod resting;
mod rounds;
mod routing;
mod rules;
mod running;
mod sealed;
mod shared;
mod signals;
mod spans;
mod switch;
mod threads;
mod together;
mod turns;
mod waiting;
mod writing;
mod writing_now;

pub use admitting::verdict;
pub use ends::{How, PortEnd, RouteEnd, RouteFault, RoutePlan};
pub use entries::{Entry, Outcome, SwitchFault};
pub use history::SwitchEvent;
pub use journal::Journal;
pub use judging::{Judgement, judge};
pub use routing::{route_links, route_one};
pub use rules::RouterRules;
use std::alloc::AllocError;
pub use switch::Switch;
pub use together::route_all;

/// There was no memory.
pub type NoMemory = AllocError;
