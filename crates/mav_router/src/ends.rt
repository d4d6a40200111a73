// What a run ends with.
use crate::{Journal, SwitchFault};
use link_table::Ways;

/// How a run goes: with one thread or one for each port, how many times each port is read at most, and which ports are
/// open to frames without a signature block and to frames of MAVLink 1.
#[derive(Clone, Copy)]
pub struct RoutePlan {
    pub one: bool,
    pub turns: u64,
    pub plain: Ways,
}

/// How the run ended at a port.
#[derive(Clone, Copy)]
pub enum How {
    /// It returned End, and no call failed.
    Ended,
    /// A read or a write failed. The port wasn't called again.
    Failed,
    /// It was read so many times and hadn't ended, and no call failed.
    Turns(u64),
}

/// How many bytes were read, skipped and written at a port.
#[derive(Clone, Copy)]
pub struct PortEnd {
    pub read: u64,
    pub skipped: u64,
    pub written: u64,
    pub how: How,
}

/// The end of a run: what came in, and what became of each port.
#[derive(Drop)]
pub struct RouteEnd {
    pub journal: Journal,
    pub ports: Vec<PortEnd>,
}

/// Why a run stopped, and its journal so far.
#[derive(Drop)]
pub struct RouteFault {
    pub why: SwitchFault,
    pub journal: Journal,
}
