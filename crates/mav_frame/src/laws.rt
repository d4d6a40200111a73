//! Laws of parses: functions without a body, whose contract is the law.
ghost use Rattle.mav_frame.specs.ParseLaws.{FinalIsFunction, OneFinal, OneIncremental, MoreBytesKeep};
ghost use Rattle.mav_frame.specs.ParseLaws.{IncrementalGoesOn, IncrementalEnds, FinalGoesOn, FinalEnds};
ghost use Rattle.mav_frame.specs.ParseLaws.{IncrementalBeginsFinal, IncompleteIsMore, EventsCoverBytes};
ghost use Rattle.mav_frame.specs.ParseLaws.{EncodingsArePrefixFree, OldFramesUnread, SameWithoutOldStx};

/// `final_parse` is the final parse of the bytes.
pub fn final_is_function()
    ensures { FinalIsFunction }
{}

/// A stream has one final parse at most.
pub fn one_final()
    ensures { OneFinal }
{}

/// A stream has one incremental parse at most.
pub fn one_incremental()
    ensures { OneIncremental }
{}

/// More bytes change no event of the incremental parse.
pub fn more_bytes_keep()
    ensures { MoreBytesKeep }
{}

/// A prefix of the incremental parse continues by one event.
pub fn incremental_goes_on()
    ensures { IncrementalGoesOn }
{}

/// A prefix of the incremental parse is the whole if an incomplete frame is left.
pub fn incremental_ends()
    ensures { IncrementalEnds }
{}

/// A prefix of the final parse continues by one event.
pub fn final_goes_on()
    ensures { FinalGoesOn }
{}

/// A prefix of the final parse is the whole if nothing is left.
pub fn final_ends()
    ensures { FinalEnds }
{}

/// The events of the incremental parse are events of the final parse.
pub fn incremental_begins_final()
    ensures { IncrementalBeginsFinal }
{}

/// `look` returns `More` exactly at an incomplete frame.
pub fn incomplete_is_more()
    ensures { IncompleteIsMore }
{}

/// The bytes of the events in order, and then those left, are the stream's.
pub fn events_cover_bytes()
    ensures { EventsCoverBytes }
{}

/// A frame has one encoding, which is a prefix of no other frame's.
pub fn encodings_are_prefix_free()
    ensures { EncodingsArePrefixFree }
{}

/// If frames of MAVLink 1 aren't read, none is in a parse.
pub fn old_frames_unread()
    ensures { OldFramesUnread }
{}

/// A stream without 0xFE has the same parse whether frames of MAVLink 1 are read or not.
pub fn same_without_old_stx()
    ensures { SameWithoutOldStx }
{}
