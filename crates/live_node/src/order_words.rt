// The order of an operation.
ghost use Rattle.std.specs.Prelude.{◌≡◌};
ghost use Rattle.live_node.specs.OrderWords.{kind_of, contents_of, OrdersFor};

use command_line::{Operation, PlanWord};
use mav_names::Stream;
use mav_nodes::{FileOp, Order};
use param_proto::Param;
use plan_items::{Plan, PlanKind};

/// The contents of the file that an operation takes: the plan of an upload, or the bytes of a file to store.
#[derive(Drop)]
pub(crate) struct Contents {
    pub(crate) plan: Plan,
    pub(crate) bytes: Vec<u8>,
}

fn kind_of(word: PlanWord) -> PlanKind
    ensures { result ≡ kind_of word }
{
    match word {
        PlanWord::Mission => PlanKind::Mission,
        PlanWord::Fence => PlanKind::Fence,
        PlanWord::Rally => PlanKind::Rally,
    }
}

/// The order of an operation with a drone. The contents are those of its file; an operation without one has no use for
/// them.
pub(crate) fn order_of(operation: Operation, drone: Stream, contents: Contents) -> Order
    ensures { OrdersFor operation drone (contents_of contents) result }
{
    match operation {
        Operation::Upload(kind) => Order::Begin {
            drone,
            kind: kind_of(kind),
            plan: contents.plan,
        },
        Operation::Get(kind) => Order::Get {
            drone,
            kind: kind_of(kind),
        },
        Operation::Clear(None) => Order::Clear { drone, kind: None },
        Operation::Clear(Some(kind)) => Order::Clear {
            drone,
            kind: Some(kind_of(kind)),
        },
        Operation::Command { number, word } => Order::Command {
            drone,
            command: number,
            word,
        },
        Operation::ParamList => Order::ParamList { drone },
        Operation::ParamRead { id } => Order::ParamRead { drone, id },
        Operation::ParamSet { id, kind, word } => Order::ParamSet {
            drone,
            param: Param {
                id,
                ty: kind,
                word: u32::from_le_bytes(word),
            },
        },
        Operation::FileList => Order::File {
            drone,
            op: FileOp::List,
        },
        Operation::FileGet(name) => Order::File {
            drone,
            op: FileOp::Fetch(name),
        },
        Operation::FilePut(name) => Order::File {
            drone,
            op: FileOp::Store(name, contents.bytes),
        },
        Operation::FileRemove(name) => Order::File {
            drone,
            op: FileOp::Remove(name),
        },
    }
}
