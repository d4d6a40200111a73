//! Laws of the parse of a log: functions without a body, whose contract is the law.
ghost use Rattle.log_rows.specs.LogLaws.{ParseIsFunction, BeginsByFunction, MoreBytesKeepRows, ParseBegins};
ghost use Rattle.log_rows.specs.LogLaws.{RowsReadBack};

/// Whatever events are the parse of a log, `log_events` gives them: so there is one parse at most.
pub fn parse_is_function()
    ensures { ParseIsFunction }
{}

/// A prefix of the parse of a log is a prefix of what `log_events` gives.
pub fn begins_by_function()
    ensures { BeginsByFunction }
{}

/// More bytes change no event that was there before the input ended.
pub fn more_bytes_keep_rows()
    ensures { MoreBytesKeepRows }
{}

/// The events before the end of the input are events after it.
pub fn parse_begins()
    ensures { ParseBegins }
{}

/// The bytes of sealed rows, one after another, have these rows as their parse, and nothing is skipped.
pub fn rows_read_back()
    ensures { RowsReadBack }
{}
