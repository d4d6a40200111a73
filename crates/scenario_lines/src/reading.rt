// The reading of scenario lines: by the first word, then its form's words from left to right.
ghost use Rattle.std.specs.Prelude.{◌≡◌, false, IfOk, IfErr, Some, None, codes};
ghost use Rattle.std.specs.Str.{bytes_eq};
ghost use Rattle.scenario_lines.specs.Words.{word_at};
ghost use Rattle.scenario_lines.specs.LineContext.{context_of};
ghost use Rattle.scenario_lines.specs.Faults.{IfBad};
ghost use Rattle.scenario_lines.specs.Grammar.{is_blank, line_of};
ghost use Rattle.scenario_lines.specs.Reasons.{reason_against, item_reason_against};
ghost use Rattle.scenario_lines.specs.Readings.{Says, reading, reading_items};
ghost use Rattle.scenario_lines.specs.Permits.{IsPermitted, IsOfItems};

use crate::delivery_lines::{
    read_clock, read_deliver, read_flow, read_heartbeat, read_noise, read_restart, read_tick,
};
use crate::flight_lines::{read_sim, read_where};
use crate::items::{read_item, read_items};
use crate::name_words::is_word;
use crate::nodes::{read_drone, read_station};
use crate::orders::{
    read_begin, read_cancel, read_clear, read_command, read_empty, read_get, read_params,
};
use crate::words::Words;
use crate::{Line, LineFault, Names, Reason};
use std::alloc::Global;

/// The most bytes of a line, without its end.
const MOST_LINE_BYTES: usize = 4096;

/// An empty line or a comment.
fn is_blank(text: &[u8]) -> bool
    ensures { result ≡ is_blank text.now }
{
    match text {
        [] => true,
        [first, ..] => *first == b'#',
    }
}

/// The line of some words but `noise`.
fn read_words<N: Names>(
    nodes: &N,
    drafted: usize,
    clock: u64,
    words: &Words,
) -> Result<Line, Reason>
    requires { bytes_eq (word_at words.now 0) (codes "noise") ≡ false }
    ensures { result ≡ reading (context_of (N.known nodes.now) drafted clock) words.now }
{
    match words.at(0) {
        first if is_word(first, "drone") => read_drone(nodes, words),
        first if is_word(first, "station") => read_station(nodes, words),
        first if is_word(first, "item") => read_item(drafted, words),
        first if is_word(first, "items") => read_items(drafted, words),
        first if is_word(first, "empty") => read_empty(words),
        first if is_word(first, "begin") => read_begin(nodes, words),
        first if is_word(first, "cancel") => read_cancel(nodes, words),
        first if is_word(first, "clear") => read_clear(nodes, words),
        first if is_word(first, "get") => read_get(nodes, words),
        first if is_word(first, "command") => read_command(nodes, words),
        first if is_word(first, "params") => read_params(nodes, words),
        first if is_word(first, "heartbeat") => read_heartbeat(nodes, words),
        first if is_word(first, "deliver") => read_deliver(nodes, words),
        first if is_word(first, "flow") => read_flow(words),
        first if is_word(first, "tick") => read_tick(nodes, words),
        first if is_word(first, "clock") => read_clock(clock, words),
        first if is_word(first, "restart") => read_restart(nodes, words),
        first if is_word(first, "sim") => read_sim(nodes, words),
        first if is_word(first, "where") => read_where(nodes, words),
        _ => Err(Reason::Word),
    }
}

fn read_item_words(drafted: usize, words: &Words) -> Result<Line, Reason>
    ensures { result ≡ reading_items drafted words.now }
{
    match words.at(0) {
        first if is_word(first, "item") => read_item(drafted, words),
        first if is_word(first, "items") => read_items(drafted, words),
        _ => Err(Reason::Word),
    }
}

fn faulted(read: Result<Line, Reason>) -> Result<Line, LineFault>
    ensures { Says read result }
{
    Ok(read?)
}

/// What a scenario line says in a world with these nodes, so many items in its draft and this
/// clock, or the first reason against it. `text` is the line without its LF and without a CR before
/// it. Words are parted by one space; an empty line and one that begins with `#` are blank.
pub fn read<N: Names>(
    alloc: Global,
    nodes: &N,
    drafted: usize,
    clock: u64,
    text: &[u8],
) -> Result<Line, LineFault>
    ensures ok { IfOk result (λ line. (reason_against (context_of (N.known nodes.now) drafted clock) text.now ≡ None)
        × (line ≡ line_of text.now)) }
    ensures permitted { IfOk result (IsPermitted (context_of (N.known nodes.now) drafted clock)) }
    ensures bad { IfErr result (λ e. IfBad e
        (λ r. reason_against (context_of (N.known nodes.now) drafted clock) text.now ≡ Some r)) }
{
    if text.len() > MOST_LINE_BYTES {
        return Err(LineFault::Bad(Reason::Long));
    }
    if is_blank(text) {
        return Ok(Line::Blank);
    }
    let words = Words::of(alloc, text)?;
    if is_word(words.at(0), "noise") {
        return read_noise(alloc, nodes, &words);
    }
    faulted(read_words(nodes, drafted, clock, &words))
}

/// The same if lines of items alone are read, as in a file of items, after `drafted` items: any
/// other first word is `word`.
pub fn read_item_line(alloc: Global, drafted: usize, text: &[u8]) -> Result<Line, LineFault>
    ensures ok { IfOk result (λ line. (item_reason_against drafted text.now ≡ None) × (line ≡ line_of text.now)) }
    ensures items { IfOk result IsOfItems }
    ensures bad { IfErr result (λ e. IfBad e (λ r. item_reason_against drafted text.now ≡ Some r)) }
{
    if text.len() > MOST_LINE_BYTES {
        return Err(LineFault::Bad(Reason::Long));
    }
    if is_blank(text) {
        return Ok(Line::Blank);
    }
    let words = Words::of(alloc, text)?;
    faulted(read_item_words(drafted, &words))
}
