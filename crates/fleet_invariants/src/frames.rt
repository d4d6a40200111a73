// How frames are heard.
ghost use Rattle.fleet_invariants.specs.Laws.{EachHeard, SentKnown, AuthenticKnown, KnownAuthentic, SentAuthentic};
ghost use Rattle.fleet_invariants.specs.Laws.{UnsentForeign};

/// A frame that was sent is heard as it was sent: alone in its bytes, signed, with its message.
pub fn every_sent_frame()
    ensures heard { EachHeard }
    ensures known { SentKnown }
{}

/// A frame of authentic bytes that verifies is one of those that were sent, and bytes of which each such frame was
/// sent are authentic.
pub fn every_authentic_frame()
    ensures known { AuthenticKnown }
    ensures authentic { KnownAuthentic }
{}

/// Bytes that repeat a sent frame are authentic.
pub fn every_repeated_frame()
    ensures { SentAuthentic }
{}

/// Those of a frame that is signed and wasn't sent are not: such bytes are what the premise leaves out.
pub fn every_unsent_frame()
    ensures { UnsentForeign }
{}
