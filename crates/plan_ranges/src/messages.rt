// Messages in range fit the payloads that carry them.
ghost use Rattle.std.specs.Prelude.{◌≡◌, ◌<◌, Option, Some, IfSome};
ghost use Rattle.plan_items.specs.Kinds.{number_of};
ghost use Rattle.plan_items.specs.declared.kinds.PlanKind.{PlanKind};
ghost use Rattle.plan_items.specs.declared.messages.PlanMsg.{PlanMsg};
ghost use Rattle.field_layout.specs.Payload.{FitsLayout};
ghost use Rattle.mav_messages.specs.declared.nodes.Heartbeat.{Heartbeat};
ghost use Rattle.mav_messages.specs.declared.messages.Message.{Message};
ghost use Rattle.mav_messages.specs.declared.messages.Message.TheVariants.{Heartbeat as CarriesHeartbeat};
ghost use Rattle.mav_messages.specs.Messages.{definition_of, values_of};
ghost use Rattle.mav_messages.specs.Plans.{message_of_plan, plan_of};
ghost use Rattle.plan_upload.specs.Kinds.{clear_number};
ghost use Rattle.plan_ranges.specs.Ranges.{InRange, SignsFit, HeartbeatInRange};

/// A plan message in range fits the fields of the message that carries it, and is what that message
/// carries; the coordinates of an item come back from the words of their bits.
pub fn every_message()
    ensures fits { (m : PlanMsg) → InRange m
        → FitsLayout (definition_of (message_of_plan m)) (values_of (message_of_plan m)) }
    ensures carried { (m : PlanMsg) → InRange m → plan_of (message_of_plan m) ≡ Some m }
    ensures signs { (m : PlanMsg) → InRange m → SignsFit m }
{}

/// And what a message carries whose values fit its fields is in range, so that no range is narrower than needed.
pub fn every_reading()
    ensures { (message : Message) → FitsLayout (definition_of message) (values_of message)
        → IfSome (plan_of message) SignsFit → IfSome (plan_of message) InRange }
{}

/// A HEARTBEAT in range fits its fields.
pub fn every_heartbeat()
    ensures { (m : Heartbeat) → HeartbeatInRange m
        → FitsLayout (definition_of (CarriesHeartbeat m)) (values_of (CarriesHeartbeat m)) }
{}

/// The numbers of kinds are in range, also that of all kinds.
pub fn every_kind()
    ensures one { (kind : PlanKind) → number_of kind < 256 }
    ensures clear { (kind : Option PlanKind) → clear_number kind < 256 }
{}
