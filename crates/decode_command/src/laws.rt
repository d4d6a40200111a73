//! Laws of the parse whose events the texts list: functions without a body, whose contract is the law.
ghost use Rattle.decode_command.specs.ParseLaws.{FinalEvents, IncrementalEvents};

/// The events of a whole text are those of the final parse.
pub fn final_events_are_the_parse()
    ensures { FinalEvents }
{}

/// The events of a text that was cut off are those of the incremental parse.
pub fn incremental_events_are_the_parse()
    ensures { IncrementalEvents }
{}
