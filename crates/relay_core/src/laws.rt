//! Laws of a relay's runs: functions without a body, whose contract is the law.
ghost use Rattle.relay_core.specs.Laws.{IsHistory, NumbersOnce};

/// The events of a run are a history by the rules of links.
pub fn is_history()
    ensures { IsHistory }
{}

/// No number is given to two of its links.
pub fn numbers_once()
    ensures { NumbersOnce }
{}
