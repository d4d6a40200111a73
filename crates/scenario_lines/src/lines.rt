// What a scenario line says.
use field_layout::Label;
use mav_names::Name;
use plan_items::{Item, PlanKind};

/// A scenario line that was read.
#[derive(Drop)]
pub enum Line {
    /// An empty line or a comment.
    Blank,
    /// The drone `sys`.1, at x and y in units of 1e-7 degrees.
    Drone {
        sys: u8,
        x: i32,
        y: i32,
    },
    Station {
        sys: u8,
        comp: u8,
    },
    /// One item is added to the draft.
    Item {
        item: Item,
    },
    /// `n` items are added to the draft, the i-th from 0 with the x of the first plus i.
    Items {
        n: u64,
        first: Item,
    },
    /// The draft becomes empty.
    Empty,
    /// The station begins an upload of the draft.
    Begin {
        station: Name,
        drone: Name,
        kind: PlanKind,
    },
    /// The station cancels its operation.
    Cancel {
        station: Name,
    },
    /// The station begins to clear the plans of a kind, or of all kinds.
    Clear {
        station: Name,
        drone: Name,
        kind: Option<PlanKind>,
    },
    /// The station begins a download.
    Get {
        station: Name,
        drone: Name,
        kind: PlanKind,
    },
    /// The station sends COMMAND_LONG of this number to the drone, with `word` as its param1 and zeros as its other
    /// params.
    Command {
        station: Name,
        drone: Name,
        number: u16,
        word: u32,
    },
    /// The station asks for all parameters of the drone.
    Params {
        station: Name,
        drone: Name,
    },
    /// The node sends HEARTBEAT.
    Heartbeat {
        node: Name,
    },
    /// Sent frame `i`, from 1, is given to the node as one datagram.
    Deliver {
        i: u64,
        node: Name,
    },
    /// The next `k` frames are given to every node but their sender.
    Flow {
        k: u64,
    },
    /// These bytes, at least one, are given to the node as one datagram.
    Noise {
        node: Name,
        bytes: Label,
    },
    /// One tick of the node.
    Tick {
        node: Name,
    },
    /// The clock goes up by `n` units of 10 microseconds.
    Clock {
        n: u64,
    },
    /// The drone ends, and starts again from what it has stored.
    Restart {
        drone: Name,
    },
    /// `n` ticks of the drone's simulator.
    Sim {
        drone: Name,
        n: u64,
    },
    /// The report says where the drone is.
    WhereIs {
        drone: Name,
    },
}
