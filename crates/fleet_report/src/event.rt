// What happens in a scenario.

use mav_messages::Message;
use mav_names::Name;
use mav_sign::{Admit, SignedFrame};
use param_proto::Param;
use plan_items::PlanKind;
use plan_upload::{OpFault, Outcome};

/// What happens in a scenario, with its node first if it has one. What is large is lent.
#[derive(Clone, Copy)]
pub enum Event<'a> {
    /// A frame was sent, the scenario's frame of that number, which carries the message.
    Sent(usize, &'a SignedFrame, &'a Message),
    /// A drone installed a plan of `count` items that the node `by` sent.
    Installed {
        drone: Name,
        kind: PlanKind,
        count: usize,
        by: Name,
    },
    /// A drone's plan became empty.
    Emptied(Name, PlanKind),
    /// A node didn't admit a frame.
    Dropped(Name, Admit),
    /// No frame of that number was sent.
    Missing(u64),
    /// A drone starts again.
    Restarted(Name),
    /// A station refused a new operation.
    Refused(Name, OpFault),
    /// A station's operation ended.
    Ended(Name, &'a Outcome),
    /// A station's command ended: by the drone's result, or without an answer.
    CommandEnded(Name, Option<u8>),
    /// A station's list of a drone's parameters ended with these values, in order of their indices; or its read, set
    /// or list ended without an answer.
    ParamsEnded(Name, Option<&'a [Param]>),
    /// A station's read or set of a parameter ended with its value.
    ParamGiven(Name, &'a Param),
    /// A station refused a command, since one is open.
    CommandRefused(Name),
    /// A station refused a request for parameters, since one is open.
    ParamsRefused(Name),
    /// A drone's flight reached the item of this number of its mission.
    Reached(Name, u16),
    /// A drone took a picture, so many since its start.
    Captured(Name, u32),
    /// Where a drone is, in units of 1e-7 degrees, and how many pictures it took since its start.
    Located {
        drone: Name,
        x: i32,
        y: i32,
        captures: u32,
    },
}
