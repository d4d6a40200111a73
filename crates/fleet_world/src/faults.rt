// Why a line isn't done.
use mav_nodes::{NodeFault, StartFault};
use std::alloc::{AllocError, AllocFailed};

/// The limits of a scenario.
#[derive(Clone, Copy)]
pub enum Bound {
    /// 100,000 frames sent.
    Frames,
    /// 16 drones.
    Drones,
    /// 16 stations.
    Stations,
    /// Drones that start again, 1,000 times in all.
    Restarts,
}

/// Why a line isn't done. After it the world isn't used any more.
#[derive(Clone, Copy)]
pub enum WorldFault {
    /// One more than the limit would be made.
    Limit(Bound),
    /// A node has no timestamp left, or no memory.
    Node(NodeFault),
    NoMemory,
}

impl From<StartFault> for WorldFault {
    ghost use Rattle.std.specs.Prelude.{◌≡◌};
    ghost use Rattle.fleet_world.specs.Promises.{world_fault_of};

    ghost from_gives = { λ fault e. e ≡ world_fault_of fault };

    fn from(fault: StartFault) -> Self {
        match fault {
            StartFault::Store | StartFault::BadKept => WorldFault::Node(NodeFault::Store),
            StartFault::NoMemory => WorldFault::NoMemory,
        }
    }
}

impl From<NodeFault> for WorldFault {
    ghost use Rattle.std.specs.Prelude.{◌≡◌};
    ghost use Rattle.fleet_world.specs.declared.faults.WorldFault.TheVariants.{Node};

    ghost from_gives = { λ fault e. e ≡ Node fault };

    fn from(fault: NodeFault) -> Self {
        WorldFault::Node(fault)
    }
}

impl From<AllocError> for WorldFault {
    ghost use Rattle.std.specs.Prelude.{◌≡◌};
    ghost use Rattle.fleet_world.specs.declared.faults.WorldFault.TheVariants.{NoMemory};

    ghost from_gives = { λ _ e. e ≡ NoMemory };

    fn from(_: AllocError) -> Self {
        WorldFault::NoMemory
    }
}

impl<T: Drop> From<AllocFailed<T>> for WorldFault {
    ghost use Rattle.std.specs.Prelude.{◌≡◌};
    ghost use Rattle.fleet_world.specs.declared.faults.WorldFault.TheVariants.{NoMemory};

    ghost from_gives = { λ _ e. e ≡ NoMemory };

    fn from(_: AllocFailed<T>) -> Self {
        WorldFault::NoMemory
    }
}
