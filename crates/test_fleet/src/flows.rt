// How long a flow over two drones must be.
ghost use Rattle.std.specs.Prelude.{◌≡◌, true, false, codes};
ghost use Rattle.test_fleet.specs.Scenarios.{is_installed_by};

/// With two drones 2n + 6 + 2 is 10 for a plan of one item, and one of these frames is to spare: 9 do,
/// and with 8 the acknowledgement isn't given.
pub fn flows_over_two_drones()
    ensures ten_do { is_installed_by (codes "flow 10") ≡ true }
    ensures nine_do { is_installed_by (codes "flow 9") ≡ true }
    ensures eight_do_not { is_installed_by (codes "flow 8") ≡ false }
{}
