// The laws speak of something: executions that install, clear, download, refuse and lose.
ghost use Rattle.std.specs.Prelude.{◌≡◌, [], ◌∷◌, ◌++◌, None, true, false};
ghost use Rattle.plan_items.specs.declared.kinds.PlanKind.TheVariants.{Mission};
ghost use Rattle.plan_upload.specs.Plans.{plan_at};
ghost use Rattle.plan_upload.specs.Station.{Told_installed, Told_not_installed, Told_unknown, Told_cleared, Told_got};
ghost use Rattle.plan_upload.specs.Station.{Told_ended};
ghost use Rattle.plan_safety.specs.Store.{Installed, Cleared, Ended};
ghost use Rattle.plan_safety.specs.World.{Distinct, Clears, Gets, Cancels, To_drone, To_station};
ghost use Rattle.plan_safety.specs.History.{final};
ghost use Rattle.plan_safety.specs.Examples.{drone_7, station_a, station_b, small_fleet, small_start, one_waypoint};
ghost use Rattle.plan_safety.specs.Examples.{two_waypoints, exchange, resynchronisation, upload_of_two, upload_nearly};
ghost use Rattle.plan_safety.specs.Examples.{upload_reported, restart_and_cancel, download_of_two, upload_of_one};
ghost use Rattle.plan_safety.specs.Examples.{two_stations};

/// By computation, in a fleet of one drone and two stations.
pub fn small_executions()
    ensures names_are_distinct { Distinct small_fleet }
    ensures installs { (final small_fleet small_start (upload_of_two station_a)).news
        ≡ Installed drone_7 0 two_waypoints station_a ∷ [] }
    ensures reports_installed { (final small_fleet small_start (upload_reported station_a)).news
        ≡ Ended station_a Told_installed ∷ [] }
    ensures clears { (final small_fleet small_start
        (upload_reported station_a ++ Clears station_a drone_7 None ∷ To_drone 0 drone_7 true ∷ [])).news
        ≡ Cleared drone_7 0 station_a ∷ Cleared drone_7 1 station_a ∷ Cleared drone_7 2 station_a ∷ [] }
    ensures reports_cleared { (final small_fleet small_start
        (upload_reported station_a ++ Clears station_a drone_7 None ∷ exchange station_a)).news
        ≡ Ended station_a Told_cleared ∷ [] }
    ensures downloads { (final small_fleet small_start (download_of_two station_a)).news
        ≡ Ended station_a (Told_got two_waypoints) ∷ [] }
    ensures refuses { (final small_fleet small_start
        (upload_nearly station_a ++ To_drone 0 drone_7 false ∷ To_station 0 station_a
        ∷ resynchronisation station_a)).news ≡ Ended station_a (Told_not_installed 1) ∷ [] }
    ensures loses_an_installed_one { (final small_fleet small_start
        (upload_of_two station_a ++ restart_and_cancel station_a)).news ≡ Ended station_a Told_unknown ∷ [] }
    ensures loses_an_open_one { (final small_fleet small_start
        (upload_nearly station_a ++ restart_and_cancel station_a)).news ≡ Ended station_a Told_unknown ∷ [] }
    ensures ends { (final small_fleet small_start
        (upload_reported station_a ++ Gets station_a drone_7 Mission ∷ Cancels station_a
        ∷ resynchronisation station_a)).news ≡ Ended station_a (Told_ended 15) ∷ [] }
    ensures first_uploads { plan_at ((final small_fleet small_start (upload_reported station_a)).drone
        drone_7).state.plans 0 ≡ two_waypoints }
    ensures second_replaces { plan_at ((final small_fleet small_start
        (upload_reported station_a ++ upload_of_one station_b)).drone drone_7).state.plans 0 ≡ one_waypoint }
    ensures first_uploads_again { plan_at ((final small_fleet small_start two_stations).drone drone_7).state.plans 0
        ≡ two_waypoints }
{}
