// What nodes report of themselves (MAVLink guide, Heartbeat Protocol).
ghost use Rattle.std.specs.Prelude.{◌≡◌};
ghost use Rattle.mav_nodes.specs.Nodes.{drone_heartbeat as drone_says, station_heartbeat as station_says};

use mav_messages::{
    Heartbeat, MAVLINK_VERSION, MavAutopilot, MavModeFlag, MavState, MavType, Message,
};

// A drone's.
pub(crate) fn drone_heartbeat(armed: bool) -> Message
    ensures { result ≡ drone_says armed }
{
    let base_mode = if armed { MavModeFlag::SAFETY_ARMED } else { 0 };
    heartbeat(MavType::QUADROTOR, MavAutopilot::GENERIC, base_mode)
}

// A station's.
pub(crate) fn station_heartbeat() -> Message
    ensures { result ≡ station_says }
{
    heartbeat(MavType::GCS, MavAutopilot::INVALID, 0)
}

fn heartbeat(ty: u8, autopilot: u8, base_mode: u8) -> Message
    ensures { result ≡ Message.Heartbeat (record {
      ty = ty;
      autopilot = autopilot;
      base_mode = base_mode;
      custom_mode = 0;
      system_status = 4;
      mavlink_version = 3;
    }) }
{
    Message::Heartbeat(Heartbeat {
        ty,
        autopilot,
        base_mode,
        custom_mode: 0,
        system_status: MavState::ACTIVE,
        mavlink_version: MAVLINK_VERSION,
    })
}
