// What scenarios lead to.
ghost use Rattle.fleet_invariants.specs.Laws.{EveryLinesSound, EveryStateSound, NoneSpent, EveryCommandHasRoom};
ghost use Rattle.fleet_invariants.specs.Laws.{EveryQuietAuthentic};

/// The state of each authentic scenario is sound, and so is that of each of its prefixes.
pub fn every_state()
    ensures whole { EveryStateSound }
    ensures lines { EveryLinesSound }
{}

/// No authentic scenario stops for want of a timestamp: the clock is at most 2^47, no
/// timestamp is ahead of it by more than the frames sent and 5,001 for each restart, a line brings no
/// more frames than it has bytes, and a node sends at most 40 frames for each that it hears.
pub fn every_authentic_scenario()
    ensures { NoneSpent }
{}

/// No drone of an authentic scenario rejects a command for want of room: it keeps last commands of
/// streams that it has heard alone, and no more of those are there than nodes.
pub fn every_command()
    ensures { EveryCommandHasRoom }
{}

/// A scenario without foreign bytes is authentic.
pub fn every_quiet_scenario()
    ensures { EveryQuietAuthentic }
{}
