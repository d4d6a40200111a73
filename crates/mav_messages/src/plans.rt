// Messages about plans (MAVLink guide, Mission Protocol).
ghost use Rattle.std.specs.Prelude.{◌≡◌, Some, IfSome};
ghost use Rattle.mav_messages.specs.Plans.{item_message, item_in, message_of_plan, plan_of};

use crate::{
    Message, MissionAck, MissionClearAll, MissionCount, MissionItemInt, MissionRequestInt,
    MissionRequestList, Ping,
};
use mav_names::Name;
use plan_items::{Item, PlanMsg};

impl MissionItemInt {
    // An item for a node.
    fn of_item(to: Name, seq: u16, kind: u8, item: &Item) -> MissionItemInt
        ensures message { result ≡ item_message to seq kind item.now }
        ensures back { item_in result ≡ item.now }
    {
        MissionItemInt {
            target_system: to.sys,
            target_component: to.comp,
            seq,
            frame: item.frame,
            command: item.command,
            current: item.current,
            autocontinue: item.autocontinue,
            param1: item.p[0],
            param2: item.p[1],
            param3: item.p[2],
            param4: item.p[3],
            x: item.x,
            y: item.y,
            z: item.z,
            mission_type: kind,
        }
    }

    // The item that it carries.
    fn item(&self) -> Item
        ensures { result ≡ item_in self.now }
    {
        Item {
            frame: self.frame,
            command: self.command,
            current: self.current,
            autocontinue: self.autocontinue,
            p: [self.param1, self.param2, self.param3, self.param4],
            x: self.x,
            y: self.y,
            z: self.z,
        }
    }
}

impl Message {
    /// The message that carries a message of the mission protocol.
    pub fn of_plan(msg: &PlanMsg) -> Message
        ensures message { result ≡ message_of_plan msg.now }
        ensures back { plan_of result ≡ Some msg.now }
    {
        match *msg {
            PlanMsg::Count { to, count, kind } => Message::MissionCount(MissionCount {
                target_system: to.sys,
                target_component: to.comp,
                count,
                mission_type: kind,
            }),
            PlanMsg::Request { to, seq, kind } => Message::MissionRequestInt(MissionRequestInt {
                target_system: to.sys,
                target_component: to.comp,
                seq,
                mission_type: kind,
            }),
            PlanMsg::Item {
                to,
                seq,
                kind,
                item,
            } => Message::MissionItemInt(MissionItemInt::of_item(to, seq, kind, &item)),
            PlanMsg::Ack { to, code, kind } => Message::MissionAck(MissionAck {
                target_system: to.sys,
                target_component: to.comp,
                ty: code,
                mission_type: kind,
            }),
            PlanMsg::List { to, kind } => Message::MissionRequestList(MissionRequestList {
                target_system: to.sys,
                target_component: to.comp,
                mission_type: kind,
            }),
            PlanMsg::Clear { to, kind } => Message::MissionClearAll(MissionClearAll {
                target_system: to.sys,
                target_component: to.comp,
                mission_type: kind,
            }),
            PlanMsg::Ping { to, usec, seq } => Message::Ping(Ping {
                time_usec: usec,
                seq,
                target_system: to.sys,
                target_component: to.comp,
            }),
        }
    }

    /// The message of the mission protocol that it carries; None if it carries none.
    pub fn to_plan(&self) -> Option<PlanMsg>
        ensures plan { result ≡ plan_of self.now }
        ensures back { IfSome result (λ plan. message_of_plan plan ≡ self.now) }
    {
        let to = self.target_or_zeros();
        Some(match self {
            Message::MissionCount(m) => PlanMsg::Count {
                to,
                count: m.count,
                kind: m.mission_type,
            },
            Message::MissionRequestInt(m) => PlanMsg::Request {
                to,
                seq: m.seq,
                kind: m.mission_type,
            },
            Message::MissionItemInt(m) => PlanMsg::Item {
                to,
                seq: m.seq,
                kind: m.mission_type,
                item: m.item(),
            },
            Message::MissionAck(m) => PlanMsg::Ack {
                to,
                code: m.ty,
                kind: m.mission_type,
            },
            Message::MissionRequestList(m) => PlanMsg::List {
                to,
                kind: m.mission_type,
            },
            Message::MissionClearAll(m) => PlanMsg::Clear {
                to,
                kind: m.mission_type,
            },
            Message::Ping(m) => PlanMsg::Ping {
                to,
                usec: m.time_usec,
                seq: m.seq,
            },
            _ => return None,
        })
    }
}
