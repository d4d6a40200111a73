//! Laws of journals: functions without a body, whose contract is the law.
ghost use Rattle.mav_router.specs.Delivery.{EveryEntry, NeverBack};

/// A packet goes out exactly at the ports that the routing rules name.
pub fn every_entry()
    ensures { EveryEntry }
{}

/// It never goes back to the port that it came in at.
pub fn never_back()
    ensures { NeverBack }
{}
