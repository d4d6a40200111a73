// A station stays in range, and says what is in range.
ghost use Rattle.std.specs.Prelude.{ℕ, ◌≡◌, ◌<◌, ◌^◌, List, None};
ghost use Rattle.std.specs.List.{All};
ghost use Rattle.mav_names.specs.declared.names.Stream.{Stream};
ghost use Rattle.plan_items.specs.declared.items.Item.{Item};
ghost use Rattle.plan_items.specs.declared.messages.PlanMsg.{PlanMsg};
ghost use Rattle.plan_upload.specs.Station.{StationState, fresh_station, station_step, station_tick, station_cancel};
ghost use Rattle.plan_upload.specs.Station.{begin_upload, begin_clear, begin_get, untold};
ghost use Rattle.plan_upload.specs.Refusals.{upload_refusal};
ghost use Rattle.plan_ranges.specs.Ranges.{InRange, StreamInRange, ItemInRange, StationInRange, StationStepInRange};

/// At its start.
pub fn every_fresh_station()
    ensures { (sys comp boot pings : ℕ) → sys < 256 → comp < 256 → boot < 2 ^ 64 → pings < 2 ^ 32
        → StationInRange (fresh_station sys comp boot pings) }
{}

/// At each plan message in range, whoever sent it, at each tick, at a cancel, and when its outcome is
/// handed out.
pub fn every_station()
    ensures step { (s : StationState) → (from : Stream) → (m : PlanMsg) → StationInRange s → InRange m
        → StationStepInRange (station_step s from m) }
    ensures tick { (s : StationState) → StationInRange s → StationStepInRange (station_tick s) }
    ensures cancel { (s : StationState) → StationInRange s → StationStepInRange (station_cancel s) }
    ensures told { (s : StationState) → StationInRange s → StationInRange (untold s) }
{}

/// At each new operation with a drone in range. An upload that isn't refused has few enough items.
pub fn every_operation()
    ensures upload { (s : StationState) → (drone : Stream) → (kind : ℕ) → (plan : List Item) → StationInRange s
        → StreamInRange drone → kind < 256 → All ItemInRange plan → upload_refusal s kind plan ≡ None
        → StationStepInRange (begin_upload s drone kind plan) }
    ensures clear { (s : StationState) → (drone : Stream) → (kind : ℕ) → StationInRange s → StreamInRange drone
        → kind < 256 → StationStepInRange (begin_clear s drone kind) }
    ensures get { (s : StationState) → (drone : Stream) → (kind : ℕ) → StationInRange s → StreamInRange drone
        → kind < 256 → StationStepInRange (begin_get s drone kind) }
{}
