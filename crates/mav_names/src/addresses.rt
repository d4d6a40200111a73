// Who a message comes from and whom it is for.
ghost use Rattle.std.specs.Prelude.{◌≡◌};
ghost use Rattle.mav_names.specs.Addresses.{same_stream, same_name, node_of, everyone, drone_name, drone_stream};
ghost use Rattle.mav_names.specs.Addresses.{is_for_node};

use crate::{Name, Stream};

/// A drone is this component of its system (MAVLink common messages, MAV_COMP_ID_AUTOPILOT1).
pub const AUTOPILOT: u8 = 1;

/// Whether two streams are equal.
pub fn is_same_stream(a: Stream, b: Stream) -> bool
    ensures { result ≡ same_stream a b }
{
    a.sys == b.sys && (a.comp == b.comp && a.link == b.link)
}

/// Whether two names are equal.
pub fn is_same_name(a: Name, b: Name) -> bool
    ensures { result ≡ same_name a b }
{
    a.sys == b.sys && a.comp == b.comp
}

/// The node that a stream comes from.
pub fn node_of(stream: Stream) -> Name
    ensures { result ≡ node_of stream }
{
    Name {
        sys: stream.sys,
        comp: stream.comp,
    }
}

/// The name that addresses every node.
pub fn everyone() -> Name
    ensures { result ≡ everyone }
{
    Name { sys: 0, comp: 0 }
}

/// The drone of a system.
pub fn drone_name(sys: u8) -> Name
    ensures { result ≡ drone_name sys }
{
    Name {
        sys,
        comp: AUTOPILOT,
    }
}

/// The stream of the drone of a system, which signs on link 0.
pub fn drone_stream(sys: u8) -> Stream
    ensures { result ≡ drone_stream sys }
{
    Stream {
        sys,
        comp: AUTOPILOT,
        link: 0,
    }
}

/// Whether a node accepts what is for this name: its own component, or component 0 of its system.
pub fn is_for(me: Name, to: Name) -> bool
    ensures { result ≡ is_for_node me to }
{
    to.sys == me.sys && (to.comp == me.comp || to.comp == 0)
}
