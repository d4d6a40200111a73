// Bytes that are cut into lines as they come.
ghost use Rattle.std.specs.Prelude.{◌≡◌, ◌∷◌, []};
ghost use Rattle.scenario_lines.specs.FileLines.{without_cr};
ghost use Rattle.command_inputs.specs.LineRules.{last_read};
ghost use Rattle.command_inputs.specs.Takers.{going, judged, rules_of};
ghost use Rattle.command_inputs.specs.ByteByByte.{Leads, Feeds, long_line};

use crate::LineTaker;
use crate::bad_lines::bad_line;
use crate::held::{HeldLine, MOST_LINE_BYTES};
use run_status::{Bound, InputError, RunEnd};
use scenario_lines::{LineFault, Reason};
use std::alloc::Global;

const MOST_LINES: usize = 100_000;

const TOO_MANY_LINES: RunEnd = RunEnd::Stopped(InputError::AtLimit(Bound::Lines));

/// Takes bytes that come next. After an error the held line and the taker are given up.
pub(crate) fn feed<T: LineTaker>(
    alloc: Global,
    held: &mut HeldLine,
    piece: &[u8],
    taker: &mut T,
) -> Result<(), RunEnd>
    ensures { Feeds result T.says piece.now taker.old held.old taker.new held.new }
{
    for byte in piece {
        take(alloc, held, *byte, taker)?;
    }
    Ok(())
}

/// The input ended: what is held is a last line, unless it is empty.
pub(crate) fn finish<T: LineTaker>(
    alloc: Global,
    held: &HeldLine,
    taker: &mut T,
) -> Result<(), RunEnd>
    ensures { Leads result (last_read (rules_of T.says) (going taker.old) held.now.number held.now.bytes.items)
        taker.new }
{
    if held.bytes.is_empty() {
        return Ok(());
    }
    if held.number > MOST_LINES {
        return Err(TOO_MANY_LINES);
    }
    hand(alloc, held.number, &held.bytes, taker)
}

// Takes the next byte.
fn take<T: LineTaker>(
    alloc: Global,
    held: &mut HeldLine,
    byte: u8,
    taker: &mut T,
) -> Result<(), RunEnd>
    ensures { Feeds result T.says (byte ∷ []) taker.old held.old taker.new held.new }
{
    if byte == b'\n' {
        return end_line(alloc, held, taker);
    }
    if held.bytes.len() == MOST_LINE_BYTES {
        return Err(too_long(held.number));
    }
    held.bytes.push(byte)?;
    Ok(())
}

// The line is whole: the taker takes it, and the next one begins.
fn end_line<T: LineTaker>(alloc: Global, held: &mut HeldLine, taker: &mut T) -> Result<(), RunEnd>
    ensures { Feeds result T.says (10 ∷ []) taker.old held.old taker.new held.new }
{
    if held.number > MOST_LINES {
        return Err(TOO_MANY_LINES);
    }
    hand(alloc, held.number, without_cr(&held.bytes), taker)?;
    held.bytes.clear();
    held.number += 1;
    Ok(())
}

// Has the taker take line `number`.
fn hand<T: LineTaker>(
    alloc: Global,
    number: usize,
    text: &[u8],
    taker: &mut T,
) -> Result<(), RunEnd>
    ensures { Leads result (judged (going taker.old) number (T.says taker.old text.now)) taker.new }
{
    match taker.take_line(alloc, text) {
        Ok(()) => Ok(()),
        Err(LineFault::Bad(reason)) => Err(bad_line(number, reason)),
        Err(LineFault::NoMemory) => Err(RunEnd::NoMemory),
    }
}

/// What a whole line says: a CR before its LF is no part of that.
pub fn without_cr(line: &[u8]) -> &[u8]
    ensures { result.now ≡ without_cr line.now }
{
    match line {
        [text @ .., b'\r'] => text,
        _ => line,
    }
}

// Why one more byte is too many for line `number`.
fn too_long(number: usize) -> RunEnd
    ensures { result ≡ RunEnd.Stopped (long_line number) }
{
    if number > MOST_LINES {
        TOO_MANY_LINES
    } else {
        bad_line(number, Reason::Long)
    }
}
