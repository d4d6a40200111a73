//! Laws of waiting lines: functions without a body, whose contract is the law.
ghost use Rattle.relay_lines.specs.Telling.{TellsAll, TellsNew, TellsNext, TellsPut, TellsRoom, TellsWrote};

/// What is written is every line that was put, in order, but for those that `lines lost N` counts in their place; each
/// write is given one line, or the rest of one; and no line is lost for which there is room.
pub fn every_line()
    ensures new { TellsNew }
    ensures put { TellsPut }
    ensures wrote { TellsWrote }
    ensures next { TellsNext }
    ensures room { TellsRoom }
    ensures all { TellsAll }
{}
