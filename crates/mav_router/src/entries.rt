// An entry of the journal.
use crate::NoMemory;
use link_table::Ways;
use mav_frame::Frame;
use mav_sign::Admit;

/// A frame that came in at a port, its verdict, and the ports that it goes to. Ports are numbered from 1.
#[derive(Clone, Copy)]
pub struct Entry {
    pub port: u8,
    pub frame: Frame,
    pub admit: Admit,
    pub ways: Ways,
}

/// The verdict on a frame, the port that it came in at, and the ports that it goes to.
#[derive(Clone, Copy)]
pub struct Outcome {
    pub admit: Admit,
    pub port: u8,
    pub ways: Ways,
}

/// Why a switch takes no more frames.
#[derive(Clone, Copy)]
pub enum SwitchFault {
    /// The journal has as many entries as it may have.
    Full { entries: u32 },
    NoMemory,
}
