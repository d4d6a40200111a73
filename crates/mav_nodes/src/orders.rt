// What a station is asked to do.
use field_layout::Label;
use mav_names::Stream;
use param_proto::Param;
use plan_items::{Plan, PlanKind};

/// What is asked of a drone's files. Names are 1 to 64 bytes out of letters, digits, `.`, `_` and `-`.
#[derive(Drop)]
pub enum FileOp {
    /// The entries of all files.
    List,
    /// The bytes of the file of a name.
    Fetch(Label),
    /// To make a file of a name and of at most 1,048,576 bytes.
    Store(Label, Vec<u8>),
    /// To remove the file of a name.
    Remove(Label),
}

/// An order to a station.
#[derive(Drop)]
pub enum Order {
    /// To upload a plan to a drone.
    Begin {
        drone: Stream,
        kind: PlanKind,
        plan: Plan,
    },
    /// To give up its operation.
    Cancel,
    /// To empty a drone's plan of a kind, and with None all three.
    Clear {
        drone: Stream,
        kind: Option<PlanKind>,
    },
    /// To download a drone's plan of a kind.
    Get {
        drone: Stream,
        kind: PlanKind,
    },
    /// To give a drone a command whose first parameter is the float of this word, and the others 0.
    Command {
        drone: Stream,
        command: u16,
        word: u32,
    },
    /// To read a drone's parameter.
    ParamRead {
        drone: Stream,
        id: [u8; 16],
    },
    /// To give a drone's parameter a value.
    ParamSet {
        drone: Stream,
        param: Param,
    },
    /// To list a drone's parameters.
    ParamList {
        drone: Stream,
    },
    /// To list a drone's files, or to fetch, store or remove one.
    File {
        drone: Stream,
        op: FileOp,
    },
}
