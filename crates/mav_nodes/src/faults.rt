// Why a call of a node fails.
use command_proto::CommandBusy;
use mav_ftp::FtpFault;
use mav_sign::StampsSpent as SpentStamps;
use param_proto::ParamBusy;
use plan_store::KeepFault;
use plan_upload::{BeginFault, KeptFault, OpFault};
use std::alloc::{AllocError, AllocFailed};

/// Why a node is given up: after it, the node isn't used again.
#[derive(Clone, Copy)]
pub enum NodeFault {
    /// No timestamp was left for a frame to send.
    StampsSpent,
    /// The store failed, and the node doesn't know what it holds, or it doesn't hold the low bound of timestamps.
    Store,
    /// There was no memory for the news, or for what is stored.
    NoMemory,
}

impl From<AllocError> for NodeFault {
    ghost use Rattle.std.specs.Prelude.{◌≡◌};
    ghost use Rattle.mav_nodes.specs.declared.faults.NodeFault.TheVariants.{NoMemory};

    ghost from_gives = { λ _ fault. fault ≡ NoMemory };

    fn from(_refused: AllocError) -> NodeFault {
        NodeFault::NoMemory
    }
}

impl<T> From<AllocFailed<T>> for NodeFault
where
    T: Drop,
{
    ghost use Rattle.std.specs.Prelude.{◌≡◌};
    ghost use Rattle.mav_nodes.specs.declared.faults.NodeFault.TheVariants.{NoMemory};

    ghost from_gives = { λ _ fault. fault ≡ NoMemory };

    fn from(_refused: AllocFailed<T>) -> NodeFault {
        NodeFault::NoMemory
    }
}

impl From<SpentStamps> for NodeFault {
    ghost use Rattle.std.specs.Prelude.{◌≡◌};
    ghost use Rattle.mav_nodes.specs.declared.faults.NodeFault.TheVariants.{StampsSpent};

    ghost from_gives = { λ _ fault. fault ≡ StampsSpent };

    fn from(_spent: SpentStamps) -> NodeFault {
        NodeFault::StampsSpent
    }
}

impl From<KeepFault> for NodeFault {
    ghost use Rattle.std.specs.Prelude.{◌≡◌};
    ghost use Rattle.mav_nodes.specs.Stores.{fault_of};

    ghost from_gives = { λ fault given. given ≡ fault_of fault };

    fn from(fault: KeepFault) -> NodeFault {
        match fault {
            KeepFault::Store => NodeFault::Store,
            KeepFault::NoMemory => NodeFault::NoMemory,
        }
    }
}

/// Why a drone doesn't start.
#[derive(Clone, Copy)]
pub enum StartFault {
    /// The store failed.
    Store,
    /// The store isn't empty, and its contents aren't what a drone of this system stores.
    BadKept,
    NoMemory,
}

impl From<AllocError> for StartFault {
    ghost use Rattle.std.specs.Prelude.{◌≡◌};
    ghost use Rattle.mav_nodes.specs.declared.faults.StartFault.TheVariants.{NoMemory};

    ghost from_gives = { λ _ fault. fault ≡ NoMemory };

    fn from(_refused: AllocError) -> StartFault {
        StartFault::NoMemory
    }
}

impl<T> From<AllocFailed<T>> for StartFault
where
    T: Drop,
{
    ghost use Rattle.std.specs.Prelude.{◌≡◌};
    ghost use Rattle.mav_nodes.specs.declared.faults.StartFault.TheVariants.{NoMemory};

    ghost from_gives = { λ _ fault. fault ≡ NoMemory };

    fn from(_refused: AllocFailed<T>) -> StartFault {
        StartFault::NoMemory
    }
}

impl From<KeepFault> for StartFault {
    ghost use Rattle.std.specs.Prelude.{◌≡◌};
    ghost use Rattle.mav_nodes.specs.Starts.{start_fault_of};

    ghost from_gives = { λ fault given. given ≡ start_fault_of fault };

    fn from(fault: KeepFault) -> StartFault {
        match fault {
            KeepFault::Store => StartFault::Store,
            KeepFault::NoMemory => StartFault::NoMemory,
        }
    }
}

impl From<KeptFault> for StartFault {
    ghost use Rattle.std.specs.Prelude.{◌≡◌};
    ghost use Rattle.mav_nodes.specs.Starts.{start_fault_by};

    ghost from_gives = { λ fault given. given ≡ start_fault_by fault };

    fn from(fault: KeptFault) -> StartFault {
        match fault {
            KeptFault::BadKept => StartFault::BadKept,
            KeptFault::NoMemory => StartFault::NoMemory,
        }
    }
}

/// Why a station doesn't follow an order. A refused order changes nothing.
#[derive(Drop)]
pub enum OrderFault {
    /// The upload was refused, and its plan is returned.
    Begin(BeginFault),
    /// The clear or the download was refused.
    Op(OpFault),
    /// The command was refused, since one is open.
    Command(CommandBusy),
    /// What was asked of parameters was refused, since something is asked of them already.
    Param(ParamBusy),
    /// What was asked of files was refused.
    File(FtpFault),
    /// The station is given up.
    Node(NodeFault),
}
