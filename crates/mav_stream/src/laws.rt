//! Laws of a reader's calls: functions without a body, whose contract is the law.
ghost use Rattle.mav_stream.specs.Calls.{AnyCalls, AnyCallsToNeed};

/// Over any list of `feed`, `end` and `next` calls the events given are a prefix of the parse of the bytes taken.
pub fn any_calls()
    ensures { AnyCalls }
{}

/// If `next` returns Need the events given are the whole parse: the incremental parse before `end`, the final one
/// after it.
pub fn any_calls_to_need()
    ensures { AnyCallsToNeed }
{}
