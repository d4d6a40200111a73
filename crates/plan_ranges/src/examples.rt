// The laws speak of something: states at the ends of their ranges.
ghost use Rattle.std.specs.Prelude.{◌≡◌, true, Some};
ghost use Rattle.plan_items.specs.declared.messages.PlanMsg.TheVariants.{Item as Give, Request, Ping};
ghost use Rattle.plan_upload.specs.Addresses.{node_of, everyone};
ghost use Rattle.plan_upload.specs.Drone.{drone_step};
ghost use Rattle.plan_upload.specs.Station.{station_step, station_cancel};
ghost use Rattle.plan_ranges.specs.Ranges.{InRange, DroneInRange, StationInRange};
ghost use Rattle.plan_ranges.specs.Examples.{drone_255, station_254, widest_item, widest_message, uploading_drone};
ghost use Rattle.plan_ranges.specs.Examples.{uploading_station};

/// By computation.
pub fn small_ranges()
    ensures message { InRange widest_message }
    ensures drone { DroneInRange uploading_drone }
    ensures station { StationInRange uploading_station }
    ensures asks_again { (drone_step true uploading_drone station_254 widest_message).answer
        ≡ Some (Request (node_of station_254) 1 0) }
    ensures gives { (station_step uploading_station drone_255 (Request (node_of station_254) 1 0)).answer
        ≡ Some (Give (node_of drone_255) 1 0 widest_item) }
    ensures last_ping { (station_cancel uploading_station).answer
        ≡ Some (Ping everyone 18446744073709551615 4294967295) }
{}
