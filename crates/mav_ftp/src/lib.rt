//! MAVLink FTP as state machines without links or clocks, of this profile: files without directories, read and written
//! piece by piece. An `FtpServer` on a drone keeps files, sessions and the last reply to each stream; payloads of
//! FILE_TRANSFER_PROTOCOL go in and come out. An `FtpClient` on a station lists, fetches, stores and removes files.
//! They are defined by total functions in specs/ (`reply_to`, `files_after`, `transfer_step`, `transfer_tick`), and
//! want of memory changes nothing.
#![tactic(auto)]

mod client;
mod client_laws;
mod exchanges;
mod files;
mod laws;
mod listing;
mod names;
mod payload;
mod replies;
mod server;
mod sessions;
mod slots;
mod storage;

pub use client::{FtpClient, FtpFault, FtpStep, FtpTick};
pub use client_laws::{every_client, every_fetched_file};
pub use laws::{
    every_files_state, every_name, every_other_stream, every_payload, every_stored_file,
};
pub use server::FtpServer;
use std::alloc::AllocError;

pub type NoMemory = AllocError;
