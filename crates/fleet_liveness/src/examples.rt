// The law speaks of something.
ghost use Rattle.std.specs.Prelude.{◌≡◌, ℕ, Bool, true, false, codes, List, [], ◌++◌};
ghost use Rattle.fleet_world.specs.Authentic.{Authentic};
ghost use Rattle.fleet_world.specs.Scenario.{played};
ghost use Rattle.fleet_liveness.specs.Uncontended.{IsUncontended, Whole, Last};
ghost use Rattle.fleet_liveness.specs.Examples.{one_item, two_items, scenario, upload_lines, upload, newline};
ghost use Rattle.fleet_liveness.specs.Examples.{some_key, again, again_lines, acknowledges};

/// Under any key. With one drone 2n + 6 + 1 is 9 for a plan of one item, and one of these frames is to
/// spare: 8 do, or 10 for a plan of two items. With one fewer the acknowledgement isn't given.
/// A drone that has started again must have been heard since: `flow 5` brings the station the HEARTBEAT
/// that it sends then, and without that line the upload isn't acknowledged within its flow.
pub fn small_uploads()
    ensures whole_line { (key : List ℕ) → (ended : Bool)
        → IsUncontended key ended (scenario one_item (codes "flow 9" ++ newline))
        (upload_lines (Whole (codes "flow 9") [])) upload }
    ensures whole_authentic { (key : List ℕ) → (ended : Bool)
        → Authentic key ended (scenario one_item (codes "flow 9" ++ newline)) }
    ensures last_line { (key : List ℕ) → IsUncontended key true (scenario one_item (codes "flow 9"))
        (upload_lines (Last (codes "flow 9"))) upload }
    ensures last_authentic { (key : List ℕ) → Authentic key true (scenario one_item (codes "flow 9")) }
    ensures eight_do { acknowledges (played some_key true (scenario one_item (codes "flow 8"))).events ≡ true }
    ensures seven_do_not { acknowledges (played some_key true (scenario one_item (codes "flow 7"))).events ≡ false }
    ensures ten_do_for_two { acknowledges (played some_key true (scenario two_items (codes "flow 10"))).events ≡ true }
    ensures nine_do_not_for_two { acknowledges (played some_key true (scenario two_items (codes "flow 9"))).events
        ≡ false }
    ensures again_uncontended { IsUncontended some_key true (again (codes "flow 5")) again_lines upload }
    ensures heard_again { acknowledges (played some_key true (again (codes "flow 5"))).events ≡ true }
    ensures not_heard_again { acknowledges (played some_key true (again (codes "# not heard"))).events ≡ false }
{}
