//! Names of MAVLink nodes, and of the streams of signed packets that they send, and who a message is for.
#![tactic(auto)]

mod addresses;
mod names;

pub use addresses::{
    AUTOPILOT, drone_name, drone_stream, everyone, is_for, is_same_name, is_same_stream, node_of,
};
pub use names::{Name, Stream};
