// The run of a command over an input, as its bytes come.
ghost use Rattle.std.specs.Prelude.{◌≡◌, ◌<◌, ◌≤◌, ◌+◌, ◌*◌, ◌++◌, ℕ, Bool, List, [], length, true, false, OnOk, IfOk};
ghost use Rattle.std.specs.Prelude.{IfErr, IsErrOf};
ghost use Rattle.std.specs.declared.option.Option.{Option};
ghost use Rattle.std.specs.Result.{result_err};
ghost use Rattle.std.specs.Io.KnownBytes.{append_known};
ghost use Rattle.mav_ports.specs.Puts.{SentPrefix};
ghost use Rattle.mav_stream.specs.Spans.{IfEvent};
ghost use Rattle.run_status.specs.Seen.{before_status_over, input_of, output_of};
ghost use Rattle.decode_command.specs.Halts.{CountsHalt};
ghost use Rattle.decode_command.specs.Tellings.{most_load, telling_spec, TellsSpan, Tells, ToldAll};

use crate::tellers::Teller;
use mav_ports::{Got, NoMemory, Sink, Source};
use mav_stream::NextSpan;
use run_status::{Bound, ENOUGH_BYTES, InputError, RunEnd, read_on, write_enough, write_held};
use std::alloc::Global;

// How much is read at once: with what a teller holds it fits 65,824 bytes.
const PIECE_BYTES: usize = 65_536;

const MOST_INPUT_BYTES: usize = 268_435_456;

// More than a teller appends at once.
const MOST_BYTES: usize = 49_152;

// Tells what is at the start of the bytes held.
#[inline]
fn tell_span<T: Teller>(teller: &mut T, span: NextSpan, text: &mut Vec<u8>) -> Result<(), NoMemory>
    requires load { T.load teller.old ≤ most_load }
    requires begins { T.begins teller.old span }
    ensures { TellsSpan T.telling T.has_told T.held T.load span teller.old teller.new
        text.old.items text.new.items result }
{
    match span {
        NextSpan::Frame(size) => teller.tell_event(size, text),
        NextSpan::Skipped(why, count) => teller.tell_skips(why, count, text),
        NextSpan::Need => Ok(()),
    }
}

// And writes the text, if it is enough.
#[inline]
fn tell_more<T: Teller, K: Sink>(
    teller: &mut T,
    span: NextSpan,
    text: &mut Vec<u8>,
    out: &mut K,
) -> Result<(), RunEnd>
    requires load { T.load teller.old ≤ most_load }
    requires begins { T.begins teller.old span }
    ensures same { T.telling teller.new ≡ T.telling teller.old }
    ensures load { T.load teller.new ≤ T.load teller.old }
    ensures told { (ended : Bool) (taken : List ℕ) (before : Option (List ℕ))
        → Tells (T.has_told teller.old) ended taken text.old.items before (K.sent out.old)
        → OnOk result (Tells (T.has_told teller.new) ended taken text.new.items before (K.sent out.new)) }
    ensures fewer { OnOk result (IfEvent span (T.held teller.new < T.held teller.old)) }
    ensures halted { (ended : Bool) (taken : List ℕ) (before : Option (List ℕ))
        → Tells (T.has_told teller.old) ended taken text.old.items before (K.sent out.old)
        → IfErr result (λ _. SentPrefix before (K.sent out.new) ((T.telling teller.old).told ended taken)) }
    ensures halts { CountsHalt result (K.faults out.old) (K.faults out.new) }
{
    tell_span(teller, span, text)?;
    write_enough(text, out)
}

// Tells all events of the bytes taken.
fn tell_all<T: Teller, K: Sink>(
    teller: &mut T,
    text: &mut Vec<u8>,
    out: &mut K,
) -> Result<(), RunEnd>
    requires { T.load teller.old ≤ most_load }
    ensures same { T.telling teller.new ≡ T.telling teller.old }
    ensures load { T.load teller.new ≤ T.load teller.old }
    ensures told { (ended : Bool) (taken : List ℕ) (before : Option (List ℕ))
        → Tells (T.has_told teller.old) ended taken text.old.items before (K.sent out.old)
        → OnOk result (ToldAll (T.telling teller.old) (T.has_told teller.new) ended taken text.new.items before
        (K.sent out.new)) }
    ensures room { OnOk result (T.held teller.new < 288) }
    ensures all { (ended : Bool) (taken told : List ℕ) → T.has_told teller.new ended taken told
        → OnOk result (T.has_told_all teller.new ended taken told) }
    ensures halted { (ended : Bool) (taken : List ℕ) (before : Option (List ℕ))
        → Tells (T.has_told teller.old) ended taken text.old.items before (K.sent out.old)
        → IfErr result (λ _. SentPrefix before (K.sent out.new) ((T.telling teller.old).told ended taken)) }
    ensures halts { CountsHalt result (K.faults out.old) (K.faults out.new) }
{
    loop {
        match teller.next_span() {
            NextSpan::Need => return Ok(()),
            span => tell_more(teller, span, text, out)?,
        }
    }
}

// Takes bytes that come next, and writes what is told of them.
fn take<T: Teller, K: Sink>(
    teller: &mut T,
    piece: &[u8],
    text: &mut Vec<u8>,
    out: &mut K,
) -> Result<(), RunEnd>
    requires room { T.held teller.old < 288 }
    requires piece { length piece.now ≤ 65536 }
    requires load { T.load teller.old + 3 * length piece.now ≤ most_load }
    ensures same { T.telling teller.new ≡ T.telling teller.old }
    ensures load { T.load teller.new ≤ T.load teller.old + 3 * length piece.now }
    ensures room { OnOk result (T.held teller.new < 288) }
    ensures empty { OnOk result (text.new.items ≡ []) }
    ensures told { (taken : List ℕ) (before : Option (List ℕ))
        → Tells (T.has_told teller.old) false taken text.old.items before (K.sent out.old)
        → OnOk result (ToldAll (T.telling teller.old) (T.has_told teller.new) false
        (taken ++ piece.now) text.new.items before (K.sent out.new)) }
    ensures halted { (taken : List ℕ) (before : Option (List ℕ))
        → Tells (T.has_told teller.old) false taken text.old.items before (K.sent out.old)
        → IfErr result (λ _. SentPrefix before (K.sent out.new)
        ((T.telling teller.old).told false (taken ++ piece.now))) }
    ensures halts { CountsHalt result (K.faults out.old) (K.faults out.new) }
{
    teller.feed(piece);
    tell_all(teller, text, out)?;
    write_held(text, out)
}

// The input ended: writes what is told of what is held, and what comes after it.
fn finish<T: Teller, K: Sink>(teller: &mut T, text: &mut Vec<u8>, out: &mut K) -> Result<(), RunEnd>
    requires { T.load teller.old ≤ most_load }
    ensures done { (taken : List ℕ) (before : Option (List ℕ))
        → Tells (T.has_told teller.old) false taken text.old.items before (K.sent out.old)
        → OnOk result (K.sent out.new ≡ append_known before
        ((T.telling teller.old).told true taken ++ (T.telling teller.old).closing taken)) }
    ensures halted { (taken : List ℕ) (before : Option (List ℕ))
        → Tells (T.has_told teller.old) false taken text.old.items before (K.sent out.old)
        → IfErr result (λ _. SentPrefix before (K.sent out.new)
        ((T.telling teller.old).told true taken ++ (T.telling teller.old).closing taken)) }
    ensures halts { CountsHalt result (K.faults out.old) (K.faults out.new) }
{
    teller.end();
    tell_all(teller, text, out)?;
    teller.close(text)?;
    write_held(text, out)
}

// Reads on until the input ends, or something halts.
fn run_pieces<T: Teller, S: Source, K: Sink>(
    teller: &mut T,
    text: &mut Vec<u8>,
    main: &mut S,
    buf: &mut [u8],
    out: &mut K,
) -> Result<(), RunEnd>
    requires buf { length buf.old ≡ 65536 }
    requires room { T.held teller.old < 288 }
    requires load { T.load teller.old ≡ 0 }
    requires empty { text.old.items ≡ [] }
    requires new { T.has_told teller.old false [] [] }
    requires nothing { (T.telling teller.old).told false [] ≡ [] }
    ensures untold { before_status_over (output_of K.faults K.sent out.old out.new) (result_err result)
        (telling_spec (T.telling teller.old)) (input_of S.has_ended S.faults S.idles S.left main.old main.new) }
    ensures sound { ¬ IsErrOf result RunEnd.WriteFault → K.faults out.new ≡ K.faults out.old }
{
    let mut left = MOST_INPUT_BYTES;
    loop {
        match read_on(main, buf) {
            Got::Bytes(count) => {
                if count > left {
                    take(teller, &buf[..left], text, out)?;
                    return Err(RunEnd::Stopped(InputError::AtLimit(Bound::InputBytes)));
                }
                take(teller, &buf[..count], text, out)?;
                left -= count;
            }
            Got::Idle => return Err(RunEnd::TurnsSpent),
            Got::End => return finish(teller, text, out),
            Got::Failed => return Err(RunEnd::ReadFault),
        }
    }
}

// The memory for the text.
fn text_with_room(alloc: Global) -> Result<Vec<u8>, NoMemory>
    ensures { IfOk result (λ text. text.items ≡ []) }
{
    Vec::with_capacity(alloc, ENOUGH_BYTES + MOST_BYTES)
}

// The memory for a piece.
fn piece_buffer(alloc: Global) -> Result<Vec<u8>, NoMemory>
    ensures { IfOk result (λ buf. length buf.items ≡ 65536) }
{
    vec![in alloc; 0u8; PIECE_BYTES]
}

/// Tells an input, from its start. What is told of what was read is written before more is read.
pub fn run_teller<T: Teller, S: Source, K: Sink>(
    alloc: Global,
    teller: &mut T,
    main: &mut S,
    out: &mut K,
) -> Result<(), RunEnd>
    requires room { T.held teller.old < 288 }
    requires load { T.load teller.old ≡ 0 }
    requires new { T.has_told teller.old false [] [] }
    requires nothing { (T.telling teller.old).told false [] ≡ [] }
    ensures untold { before_status_over (output_of K.faults K.sent out.old out.new) (result_err result)
        (telling_spec (T.telling teller.old)) (input_of S.has_ended S.faults S.idles S.left main.old main.new) }
    ensures sound { ¬ IsErrOf result RunEnd.WriteFault → K.faults out.new ≡ K.faults out.old }
{
    let mut text = text_with_room(alloc)?;
    let mut buf = piece_buffer(alloc)?;
    run_pieces(teller, &mut text, main, &mut buf, out)
}
