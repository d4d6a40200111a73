// When a read of a port gives Idle.
ghost use Rattle.std.specs.Prelude.{◌≡◌, map, string_bytes};
ghost use Rattle.real_ports.specs.Waits.{beat_says, beat_for};

use mav_links::Beat;
use std::time::Duration;

// A router's port gives Idle once nothing has come for so long.
const QUIET_MILLISECONDS: u64 = 10;

// A node's gives it so often, whatever comes.
const STEADY_MILLISECONDS: u64 = 250;

/// When a read gives Idle of a port that these words name.
pub fn beat_of(words: &[String]) -> Beat
    ensures { beat_says result ≡ beat_for (map string_bytes words.now) }
{
    match words {
        [command, ..] if command.as_str() == "route" => {
            Beat::Quiet(Duration::from_millis(QUIET_MILLISECONDS))
        }
        _ => Beat::Steady(Duration::from_millis(STEADY_MILLISECONDS)),
    }
}
