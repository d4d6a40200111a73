// The messages of the profile.
ghost use Rattle.std.specs.Prelude.{◌≡◌, ℕ, ◌-◌, ◌<◌, List, ◌++◌, [], length, option_map, replicate, IfSome};
ghost use Rattle.field_layout.specs.Payload.{serialised, truncated, FitsLayout, Represents};
ghost use Rattle.field_layout.specs.Target.{target_of};
ghost use Rattle.mav_messages.specs.Targets.{target_field, target_in};
ghost use Rattle.mav_messages.specs.Messages.{definition_of, values_of, profile_definition};

use crate::words::{Padded, padded};
use crate::{
    CommandAck, CommandLong, FileTransferProtocol, GlobalPositionInt, Heartbeat, MissionAck,
    MissionClearAll, MissionCount, MissionCurrent, MissionItemInt, MissionItemReached,
    MissionRequestInt, MissionRequestList, ParamRequestList, ParamRequestRead, ParamSet,
    ParamValue, Ping, Statustext,
};
use field_layout::Buffer;
use mav_names::Name;

/// A message of the profile, with its fields under their names (MAVLink common messages). `type` is a keyword, so that
/// field is `ty`; a float is the word of its bits. Contracts see the definition of a message and its values: the raw
/// words of its fields, in definition order.
#[derive(Clone, Copy)]
pub enum Message {
    Heartbeat(Heartbeat),
    Ping(Ping),
    ParamRequestRead(ParamRequestRead),
    ParamRequestList(ParamRequestList),
    ParamValue(ParamValue),
    ParamSet(ParamSet),
    GlobalPositionInt(GlobalPositionInt),
    MissionCurrent(MissionCurrent),
    MissionRequestList(MissionRequestList),
    MissionCount(MissionCount),
    MissionClearAll(MissionClearAll),
    MissionItemReached(MissionItemReached),
    MissionAck(MissionAck),
    MissionRequestInt(MissionRequestInt),
    MissionItemInt(MissionItemInt),
    CommandLong(CommandLong),
    CommandAck(CommandAck),
    FileTransferProtocol(FileTransferProtocol),
    Statustext(Statustext),
}

impl Message {
    /// The id of the message.
    pub fn id(&self) -> u32
        ensures { result ≡ (definition_of self.now).id }
    {
        match self {
            Message::Heartbeat(_) => Heartbeat::ID,
            Message::Ping(_) => Ping::ID,
            Message::ParamRequestRead(_) => ParamRequestRead::ID,
            Message::ParamRequestList(_) => ParamRequestList::ID,
            Message::ParamValue(_) => ParamValue::ID,
            Message::ParamSet(_) => ParamSet::ID,
            Message::GlobalPositionInt(_) => GlobalPositionInt::ID,
            Message::MissionCurrent(_) => MissionCurrent::ID,
            Message::MissionRequestList(_) => MissionRequestList::ID,
            Message::MissionCount(_) => MissionCount::ID,
            Message::MissionClearAll(_) => MissionClearAll::ID,
            Message::MissionItemReached(_) => MissionItemReached::ID,
            Message::MissionAck(_) => MissionAck::ID,
            Message::MissionRequestInt(_) => MissionRequestInt::ID,
            Message::MissionItemInt(_) => MissionItemInt::ID,
            Message::CommandLong(_) => CommandLong::ID,
            Message::CommandAck(_) => CommandAck::ID,
            Message::FileTransferProtocol(_) => FileTransferProtocol::ID,
            Message::Statustext(_) => Statustext::ID,
        }
    }

    /// Writes the payload with all of its bytes, each field's words in wire order. Its `truncated` bytes are sent.
    pub fn serialise(&self, payload: &mut Buffer)
        requires { payload.old ≡ [] }
        ensures bytes { payload.new ≡ serialised (definition_of self.now) (values_of self.now) }
        ensures fits { FitsLayout (definition_of self.now) (values_of self.now) }
    {
        match self {
            Message::Heartbeat(message) => message.write(payload),
            Message::Ping(message) => message.write(payload),
            Message::ParamRequestRead(message) => message.write(payload),
            Message::ParamRequestList(message) => message.write(payload),
            Message::ParamValue(message) => message.write(payload),
            Message::ParamSet(message) => message.write(payload),
            Message::GlobalPositionInt(message) => message.write(payload),
            Message::MissionCurrent(message) => message.write(payload),
            Message::MissionRequestList(message) => message.write(payload),
            Message::MissionCount(message) => message.write(payload),
            Message::MissionClearAll(message) => message.write(payload),
            Message::MissionItemReached(message) => message.write(payload),
            Message::MissionAck(message) => message.write(payload),
            Message::MissionRequestInt(message) => message.write(payload),
            Message::MissionItemInt(message) => message.write(payload),
            Message::CommandLong(message) => message.write(payload),
            Message::CommandAck(message) => message.write(payload),
            Message::FileTransferProtocol(message) => message.write(payload),
            Message::Statustext(message) => message.write(payload),
        }
    }

    /// Writes the payload into `out`, with zeros after it, and returns the id and the payload's length without the
    /// zeros at its end, which is at least 1 (MAVLink guide, Packet Serialization: Empty-Byte Payload Truncation).
    pub fn write(&self, out: &mut [u8; 255]) -> (u32, u8)
        ensures id { result.0 ≡ (definition_of self.now).id }
        ensures len { result.1 ≡ length (truncated (serialised (definition_of self.now) (values_of self.now))) }
        ensures some { 0 < result.1 }
        ensures bytes { out.new
            ≡ truncated (serialised (definition_of self.now) (values_of self.now)) ++ replicate (255 - result.1) 0 }
        ensures fits { FitsLayout (definition_of self.now) (values_of self.now) }
    {
        let mut payload = Buffer::new();
        self.serialise(&mut payload);
        payload.copy_to(out);
        (self.id(), payload.truncated_len())
    }

    // Reads a payload that has zeros after it.
    fn read_padded(id: u32, payload: &Padded) -> Option<Message>
        ensures of_profile { option_map definition_of result ≡ profile_definition id }
        ensures represents { IfSome result (λ m. Represents (definition_of m) payload.now (values_of m)) }
    {
        Some(match id {
            Heartbeat::ID => Message::Heartbeat(Heartbeat::read(payload)),
            Ping::ID => Message::Ping(Ping::read(payload)),
            ParamRequestRead::ID => Message::ParamRequestRead(ParamRequestRead::read(payload)),
            ParamRequestList::ID => Message::ParamRequestList(ParamRequestList::read(payload)),
            ParamValue::ID => Message::ParamValue(ParamValue::read(payload)),
            ParamSet::ID => Message::ParamSet(ParamSet::read(payload)),
            GlobalPositionInt::ID => Message::GlobalPositionInt(GlobalPositionInt::read(payload)),
            MissionCurrent::ID => Message::MissionCurrent(MissionCurrent::read(payload)),
            MissionRequestList::ID => Message::MissionRequestList(MissionRequestList::read(
                payload,
            )),
            MissionCount::ID => Message::MissionCount(MissionCount::read(payload)),
            MissionClearAll::ID => Message::MissionClearAll(MissionClearAll::read(payload)),
            MissionItemReached::ID => Message::MissionItemReached(MissionItemReached::read(
                payload,
            )),
            MissionAck::ID => Message::MissionAck(MissionAck::read(payload)),
            MissionRequestInt::ID => Message::MissionRequestInt(MissionRequestInt::read(payload)),
            MissionItemInt::ID => Message::MissionItemInt(MissionItemInt::read(payload)),
            CommandLong::ID => Message::CommandLong(CommandLong::read(payload)),
            CommandAck::ID => Message::CommandAck(CommandAck::read(payload)),
            FileTransferProtocol::ID => Message::FileTransferProtocol(FileTransferProtocol::read(
                payload,
            )),
            Statustext::ID => Message::Statustext(Statustext::read(payload)),
            _ => return None,
        })
    }

    /// Reads a payload of any length: bytes past its end are zeros, and bytes past the message's own length mean
    /// nothing (MAVLink guide, Packet Serialization: Empty-Byte Payload Truncation). None if the profile has no
    /// message of that id.
    pub fn read(id: u32, payload: &[u8]) -> Option<Message>
        ensures of_profile { option_map definition_of result ≡ profile_definition id }
        ensures represents { IfSome result (λ m. Represents (definition_of m) payload.now (values_of m)) }
    {
        Message::read_padded(id, &padded(payload))
    }

    /// The node that the message is for, by its fields `target_system` and `target_component`; None if it has none.
    pub fn target_field(&self) -> Option<Name>
        ensures { result ≡ target_field (definition_of self.now) (values_of self.now) }
    {
        let (sys, comp) = match self {
            Message::Ping(m) => (m.target_system, m.target_component),
            Message::ParamRequestRead(m) => (m.target_system, m.target_component),
            Message::ParamRequestList(m) => (m.target_system, m.target_component),
            Message::ParamSet(m) => (m.target_system, m.target_component),
            Message::MissionRequestList(m) => (m.target_system, m.target_component),
            Message::MissionCount(m) => (m.target_system, m.target_component),
            Message::MissionClearAll(m) => (m.target_system, m.target_component),
            Message::MissionAck(m) => (m.target_system, m.target_component),
            Message::MissionRequestInt(m) => (m.target_system, m.target_component),
            Message::MissionItemInt(m) => (m.target_system, m.target_component),
            Message::CommandLong(m) => (m.target_system, m.target_component),
            Message::CommandAck(m) => (m.target_system, m.target_component),
            Message::FileTransferProtocol(m) => (m.target_system, m.target_component),
            _ => return None,
        };
        Some(Name { sys, comp })
    }

    // The same, with zeros for fields that are absent.
    pub(crate) fn target_or_zeros(&self) -> Name
        ensures { result ≡ target_in (definition_of self.now) (values_of self.now) }
    {
        match self.target_field() {
            Some(name) => name,
            None => Name { sys: 0, comp: 0 },
        }
    }

    /// The node that the message is for: its fields `target_system` and `target_component`, each 0 if it is absent
    /// (MAVLink guide, Routing). Each payload that represents the message names it.
    pub fn target(&self) -> Name
        ensures { (payload : List ℕ) → Represents (definition_of self.now) payload (values_of self.now)
            → result ≡ target_of (definition_of self.now) payload }
    {
        self.target_or_zeros()
    }
}
