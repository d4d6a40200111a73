// What scenarios lead to.
ghost use Rattle.fleet_command_laws.specs.Once.{EveryCommandOnce};
ghost use Rattle.fleet_command_laws.specs.Accepted.{EveryLineBegins};
ghost use Rattle.fleet_command_laws.specs.Since.{EveryHistoryGoesOn, EveryFrameHeard};

/// In the states of every authentic scenario, in the end and after each of its lines: since its latest
/// start each drone did at most one command of each `command` line, and a station's in the order of its
/// lines.
pub fn every_command_once()
    ensures { EveryCommandOnce }
{}

/// Those lines are the `command` lines that stations accepted: each of these sends one frame with
/// confirmation 0, and nothing else sends any.
pub fn every_accepted_line()
    ensures { EveryLineBegins }
{}

/// All that a drone heard since its latest start is in its history: each line leaves what is there and
/// goes on from it, but for a `restart` line of that drone, after which it begins anew.
pub fn every_history()
    ensures { EveryHistoryGoesOn }
{}

/// Each frame that a drone hears, with its verdict, is the next entry of its history, and its executor
/// does the step of that entry.
pub fn every_frame()
    ensures { EveryFrameHeard }
{}
