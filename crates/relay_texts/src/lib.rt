//! The lines that a relay prints of its links and ports.
//!
//! Each function appends one line to a list, or nothing where there is no memory. What a relay prints of admitted
//! frames is mav_text's, what its journal has of frames is route_command's, and `lines lost N` is relay_lines'.
#![tactic(auto)]

mod counts;
mod link_lines;
mod pieces;
mod port_lines;

pub use counts::PortCounts;
pub use link_lines::{append_closed, append_opened, append_refused};
pub use mav_text::NoMemory;
pub use port_lines::{
    append_counts, append_journal_fault, append_log_fault, append_turns, append_waits,
};
