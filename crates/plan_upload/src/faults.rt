// Why a station refuses a new operation.
use plan_items::Plan;

/// The first cause that applies, in this order.
#[derive(Clone, Copy)]
pub enum OpFault {
    /// An operation has no outcome yet. Phases: 1 ping, 2 cancel, 3 sending, 4 clearing, 5 listing, 6 getting.
    Busy { phase: u8 },
    /// An upload of no item.
    EmptyPlan,
    /// Every PING number was used.
    PingsSpent,
    /// An upload of more items than its kind has room for.
    NotFit { limit: u16 },
    /// There was no memory for the buffer of a download.
    NoMemory,
}

/// A refused upload, with its plan returned.
#[derive(Drop)]
pub struct BeginFault {
    pub why: OpFault,
    pub plan: Plan,
}
