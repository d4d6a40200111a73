//! The commands over telemetry logs: `log show` prints the rows of a log, `log filter` writes those of one system, and
//! `log make` writes the frames of a stream as rows.
//!
//! Each is a `Teller`, and runs as that of `decode` does: what is told of a piece of the input is written before more
//! is read, in constant memory. `specs/Spec.antt` says what stops a run and what it writes. [`run_show`],
//! [`run_filter`] and [`run_make`] leave the text of a halt to their caller; [`show`], [`filter`] and
//! [`make`](fn@make) write it too, and return the status. Rows, their parse, the reader of small pieces and a log that
//! is played as a link come from `log_rows`. [`run_log`] runs one of them for the words of a command line, with the
//! definitions that these name.
#![tactic(auto)]

mod commands;
mod filter_teller;
mod log_asked;
mod make_teller;
mod scanner;
mod show_teller;
mod statuses;

pub use commands::{run_filter, run_make, run_show};
pub use log_asked::run_log;
pub use log_rows::{LogNext, LogReader, Replay, Row, put_row};
pub use statuses::{filter, make, show};
