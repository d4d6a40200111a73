// How messages are written.
ghost use Rattle.std.specs.Prelude.{◌≡◌, Some};
ghost use Rattle.mav_messages.specs.Messages.{definition_of};
ghost use Rattle.fleet_report.specs.Parts.{word, numbers_text};
ghost use Rattle.fleet_report.specs.Texts.{said, target_text, message_text};

use crate::texts::{KindText, NameText};
use mav_messages::Message;
use mav_names::Name;
use plan_items::PlanMsg;
use plan_upload::receiver;
use std::fmt;

// The name that a message of the mission protocol is printed by.
fn word_of(message: &PlanMsg) -> &'static str
    ensures { result.now ≡ word message.now }
{
    match *message {
        PlanMsg::Ping { .. } => "PING",
        PlanMsg::Count { .. } => "COUNT",
        PlanMsg::Request { .. } => "REQUEST",
        PlanMsg::Item { .. } => "ITEM",
        PlanMsg::Ack { .. } => "ACK",
        PlanMsg::List { .. } => "LIST",
        PlanMsg::Clear { .. } => "CLEAR",
    }
}

/// The numbers of a message of the mission protocol.
#[derive(Drop)]
struct NumbersText(PlanMsg);

impl fmt::Display for NumbersText {
    ghost output = { λ text. Some (numbers_text text.0) };

    fn fmt<W: fmt::Write>(&self, f: &mut fmt::Formatter<W>) -> fmt::Result {
        match self.0 {
            PlanMsg::Ping { seq, .. } => write!(f, "{seq}"),
            PlanMsg::Count {
                count: number,
                kind,
                ..
            }
            | PlanMsg::Request {
                seq: number,
                kind,
                ..
            }
            | PlanMsg::Item {
                seq: number,
                kind,
                ..
            } => write!(f, "{} {number}", KindText(kind)),
            PlanMsg::Ack { code, kind, .. } => write!(f, "{code} {}", KindText(kind)),
            PlanMsg::List { kind, .. } | PlanMsg::Clear { kind, .. } => KindText(kind).fmt(f),
        }
    }
}

/// A message of the mission protocol by its name and numbers.
#[derive(Drop)]
struct SaidText(PlanMsg);

impl fmt::Display for SaidText {
    ghost output = { λ text. Some (said text.0) };

    fn fmt<W: fmt::Write>(&self, f: &mut fmt::Formatter<W>) -> fmt::Result {
        write!(f, "{} {}", word_of(&self.0), NumbersText(self.0))
    }
}

// The name of a message in the definitions.
fn name_of(message: &Message) -> &'static str
    ensures { result.now ≡ (definition_of message.now).name }
{
    match message {
        Message::Heartbeat(_) => "HEARTBEAT",
        Message::Ping(_) => "PING",
        Message::ParamRequestRead(_) => "PARAM_REQUEST_READ",
        Message::ParamRequestList(_) => "PARAM_REQUEST_LIST",
        Message::ParamValue(_) => "PARAM_VALUE",
        Message::ParamSet(_) => "PARAM_SET",
        Message::GlobalPositionInt(_) => "GLOBAL_POSITION_INT",
        Message::MissionCurrent(_) => "MISSION_CURRENT",
        Message::MissionRequestList(_) => "MISSION_REQUEST_LIST",
        Message::MissionCount(_) => "MISSION_COUNT",
        Message::MissionClearAll(_) => "MISSION_CLEAR_ALL",
        Message::MissionItemReached(_) => "MISSION_ITEM_REACHED",
        Message::MissionAck(_) => "MISSION_ACK",
        Message::MissionRequestInt(_) => "MISSION_REQUEST_INT",
        Message::MissionItemInt(_) => "MISSION_ITEM_INT",
        Message::CommandLong(_) => "COMMAND_LONG",
        Message::CommandAck(_) => "COMMAND_ACK",
        Message::FileTransferProtocol(_) => "FILE_TRANSFER_PROTOCOL",
        Message::Statustext(_) => "STATUSTEXT",
    }
}

// Whom a message is for, after its name.
#[derive(Drop)]
struct ToText(Option<Name>);

impl fmt::Display for ToText {
    ghost output = { λ text. Some (target_text text.0) };

    fn fmt<W: fmt::Write>(&self, f: &mut fmt::Formatter<W>) -> fmt::Result {
        match self.0 {
            Some(name) => write!(f, " to {}", NameText(name)),
            None => Ok(()),
        }
    }
}

/// What a frame carries: a message of the mission protocol by its numbers, any other by its name.
#[derive(Drop)]
pub(crate) struct MessageText(pub(crate) Message);

impl fmt::Display for MessageText {
    ghost output = { λ text. Some (message_text text.0) };

    fn fmt<W: fmt::Write>(&self, f: &mut fmt::Formatter<W>) -> fmt::Result {
        match self.0.to_plan() {
            Some(plan) => write!(f, "{} to {}", SaidText(plan), NameText(receiver(&plan))),
            None => write!(f, "{}{}", name_of(&self.0), ToText(self.0.target_field())),
        }
    }
}
