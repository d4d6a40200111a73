// The messages of the mission protocol.
use crate::Item;
use mav_names::Name;

/// A message about a plan, for the node `to` (MAVLink guide, Mission Protocol). `kind` is the
/// number as it was sent, which may be no kind's, and `PlanKind::ALL` means all kinds.
#[derive(Clone, Copy)]
pub enum PlanMsg {
    /// MISSION_COUNT
    Count {
        to: Name,
        count: u16,
        kind: u8,
    },
    /// MISSION_REQUEST_INT
    Request {
        to: Name,
        seq: u16,
        kind: u8,
    },
    /// MISSION_ITEM_INT
    Item {
        to: Name,
        seq: u16,
        kind: u8,
        item: Item,
    },
    /// MISSION_ACK, with one of the codes of `MissionResult`
    Ack {
        to: Name,
        code: u8,
        kind: u8,
    },
    /// MISSION_REQUEST_LIST
    List {
        to: Name,
        kind: u8,
    },
    /// MISSION_CLEAR_ALL
    Clear {
        to: Name,
        kind: u8,
    },
    /// PING
    Ping {
        to: Name,
        usec: u64,
        seq: u32,
    },
}
