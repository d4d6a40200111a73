// What becomes of an uncontended upload.
ghost use Rattle.std.specs.Prelude.{ℕ, Bool, List};
ghost use Rattle.fleet_world.specs.Authentic.{Authentic};
ghost use Rattle.fleet_liveness.specs.Uncontended.{Lines, Upload, IsUncontended, IsInstalled};

/// Of the lines before the begin line nothing is asked but that none of them stopped the scenario, and
/// that foreign bytes bring no new frame that verifies. The upload takes at most 2n + 6 frames and one
/// for each drone: a PING and its replies, a cancel and its answer, MISSION_COUNT, a request and an item
/// for each of the n items, and the acknowledgement.
pub fn every_uncontended_upload()
    ensures { (key : List ℕ) → (ended : Bool) → (bytes : List ℕ) → Authentic key ended bytes
        → (lines : Lines) → (upload : Upload) → IsUncontended key ended bytes lines upload
        → IsInstalled key ended bytes lines upload }
{}
