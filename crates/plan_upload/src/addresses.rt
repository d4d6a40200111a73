// Who a plan message comes from and whom it is for.
ghost use Rattle.std.specs.Prelude.{◌≡◌};
ghost use Rattle.plan_upload.specs.Addresses.{is_for_drone};
ghost use Rattle.plan_upload.specs.Drone.{ack, ask};
ghost use Rattle.plan_upload.specs.Keeping.{carried};
ghost use Rattle.plan_upload.specs.Station.{addressee};

use mav_names::{AUTOPILOT, Name, Stream, node_of};
use plan_items::{Item, PlanMsg};

pub fn is_for_autopilot(sys: u8, to: Name) -> bool
    ensures { result ≡ is_for_drone sys to }
{
    to.sys == sys && (to.comp == AUTOPILOT || to.comp == 0)
}

/// Whom a plan message is for.
pub fn receiver(msg: &PlanMsg) -> Name
    ensures { result ≡ addressee msg.now }
{
    match *msg {
        PlanMsg::Ping { to, .. } => to,
        PlanMsg::Count { to, .. } => to,
        PlanMsg::Request { to, .. } => to,
        PlanMsg::Item { to, .. } => to,
        PlanMsg::Ack { to, .. } => to,
        PlanMsg::List { to, .. } => to,
        PlanMsg::Clear { to, .. } => to,
    }
}

pub fn acknowledge(stream: Stream, code: u8, kind: u8) -> PlanMsg
    ensures { result ≡ ack stream code kind }
{
    PlanMsg::Ack {
        to: node_of(stream),
        code,
        kind,
    }
}

pub fn request(stream: Stream, kind: u8, seq: u16) -> PlanMsg
    ensures { result ≡ ask stream kind seq }
{
    PlanMsg::Request {
        to: node_of(stream),
        seq,
        kind,
    }
}

pub fn item_in(msg: &PlanMsg) -> Option<Item>
    ensures { result ≡ carried msg.now }
{
    match *msg {
        PlanMsg::Item { item, .. } => Some(item),
        _ => None,
    }
}
