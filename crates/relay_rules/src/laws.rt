//! Laws of a relay's rules: functions without a body, whose contract is the law.
ghost use Rattle.relay_rules.specs.Laws.{GoesAsRouted, LearnsAsRouted, NeverBack, NeverTwice};

/// No frame goes back to its own link.
pub fn never_back()
    ensures { NeverBack }
{}

/// No number is given to two links.
pub fn never_twice()
    ensures { NeverTwice }
{}

/// Where links are a router's ports and never close, frames go where the router sends them.
pub fn as_routed()
    ensures goes { GoesAsRouted }
    ensures learns { LearnsAsRouted }
{}
