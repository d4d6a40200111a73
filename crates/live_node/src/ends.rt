// How a run ends at a fault of its node, and at an order that isn't followed.
ghost use Rattle.std.specs.Prelude.{◌≡◌};
ghost use Rattle.live_node.specs.Ports.{end_by};
ghost use Rattle.live_node.specs.Orders.{op_end, order_end};

use mav_nodes::{NodeFault, OrderFault};
use plan_upload::OpFault;
use run_status::{InputError, LiveEnd, Place, Reason, RunEnd};

const REFUSED: RunEnd = RunEnd::Stopped(InputError::Bad(Place::Operation, Reason::Refused));

/// How a run ends at a fault of its node, and at an order that isn't followed.
pub(crate) fn end_by(fault: NodeFault) -> RunEnd
    ensures { result ≡ end_by fault }
{
    match fault {
        NodeFault::StampsSpent => RunEnd::Stopped(InputError::StampsSpent),
        NodeFault::Store => RunEnd::Live(LiveEnd::StoreFault),
        NodeFault::NoMemory => RunEnd::NoMemory,
    }
}

fn op_end(fault: OpFault) -> RunEnd
    ensures { result ≡ op_end fault }
{
    match fault {
        OpFault::NoMemory => RunEnd::NoMemory,
        OpFault::Busy { .. } | OpFault::EmptyPlan | OpFault::PingsSpent | OpFault::NotFit { .. } =>
            REFUSED,
    }
}

/// How a run ends at an order that isn't followed.
pub(crate) fn order_end(fault: OrderFault) -> RunEnd
    ensures { result ≡ order_end fault }
{
    match fault {
        OrderFault::Begin(fault) => op_end(fault.why),
        OrderFault::Op(fault) => op_end(fault),
        OrderFault::Command(_) | OrderFault::Param(_) | OrderFault::File(_) => REFUSED,
        OrderFault::Node(fault) => end_by(fault),
    }
}
