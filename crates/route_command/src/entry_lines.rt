// The lines of the frames that came in.
ghost use Rattle.std.specs.Prelude.{◌≡◌, ◌≤◌, ◌<◌, ◌+◌, ◌-◌, ◌∷◌, ◌++◌, ◌⊎◌, ℕ, Bool, List, [], codes, take, OnOk};
ghost use Rattle.std.specs.Prelude.{IfErr, IsErrOf, false};
ghost use Rattle.std.specs.Fmt.{decimal};
ghost use Rattle.std.specs.declared.option.Option.{Option};
ghost use Rattle.mav_ports.specs.Counts.{Rose};
ghost use Rattle.mav_ports.specs.Puts.{Sent, SentPrefix};
ghost use Rattle.mav_sign.specs.History.{is_admitted};
ghost use Rattle.route_command.specs.Texts.{ports_text, fate_text, frame_text, source_text, entry_line, entry_lines};
ghost use Rattle.route_command.specs.Texts.{link_of, stamp_of};

use crate::port_texts::put_further_ports;
use link_table::Ways;
use mav_frame::RawFrame;
use mav_names::Name;
use mav_ports::Sink;
use mav_router::{Journal, Outcome};
use mav_sign::Admit;
use mav_text::{NoMemory, put_number, put_part, put_small};
use run_status::{RunEnd, write_enough};

/// More than a line has.
pub(crate) const LINE_BYTES: usize = 128;

// Puts a space and the ports of a set, or a dash. The space stands where the first comma was.
#[inline(always)]
fn put_ports(line: &mut [u8; 128], at: usize, ways: Ways) -> usize
    requires { at ≤ 100 }
    ensures index { (at ≤ result) × (result ≤ at + 16) }
    ensures text { take result line.new ≡ take at line.old ++ 32 ∷ ports_text ways }
{
    let end = put_further_ports(line, at, ways);
    if end == at {
        return put_part(line, at, b" -", 2);
    }
    line[at] = b' ';
    end
}

// The code of a refusal, and 0 for an admitted frame.
#[inline(always)]
fn refusal_code(admit: Admit) -> u8
    ensures few { result ≤ 6 }
    ensures code { (ways : List Bool) → is_admitted admit ≡ false
        → fate_text admit ways ≡ codes "refused " ++ (48 + result) ∷ [] }
{
    match admit {
        Admit::Admitted => 0,
        Admit::Unsigned => 1,
        Admit::BadSignature => 2,
        Admit::NotLater { .. } => 3,
        Admit::TooOld { .. } => 4,
        Admit::TooManyStreams => 5,
        Admit::BelowFloor { .. } => 6,
    }
}

#[inline(always)]
fn put_fate(line: &mut [u8; 128], at: usize, admit: Admit, ways: Ways) -> usize
    requires { at ≤ 80 }
    ensures index { (at ≤ result) × (result ≤ at + 18) }
    ensures text { take result line.new ≡ take at line.old ++ fate_text admit ways }
{
    if let Admit::Admitted = admit {
        let end = put_part(line, at, b"to", 2);
        return put_ports(line, end, ways);
    }
    let end = put_part(line, at, b"refused ", 8);
    put_part(line, end, &[b'0' + refusal_code(admit)], 1)
}

// A frame's link id and timestamp.
#[inline]
fn link_and_stamp(frame: &RawFrame<'_>) -> (u8, u64)
    ensures { result ≡ (link_of frame.now.block, stamp_of frame.now.block) }
{
    match frame.block() {
        Some(block) => (block.link, block.stamp),
        None => (0, 0),
    }
}

// Puts a byte and a number below 256.
#[inline(always)]
fn put_small_after(line: &mut [u8; 128], at: usize, mark: u8, number: u8) -> usize
    requires { at ≤ 100 }
    ensures index { (at ≤ result) × (result ≤ at + 4) }
    ensures text { take result line.new ≡ take at line.old ++ mark ∷ decimal number }
{
    let end = put_part(line, at, &[mark], 1);
    put_small(line, end, number)
}

// Puts a space and a number.
#[inline(always)]
fn put_number_after(line: &mut [u8; 128], at: usize, number: u64) -> usize
    requires { at ≤ 100 }
    ensures index { (at ≤ result) × (result ≤ at + 21) }
    ensures text { take result line.new ≡ take at line.old ++ 32 ∷ decimal number }
{
    let end = put_part(line, at, b" ", 1);
    put_number(line, end, number)
}

// Puts a frame's source, link id, timestamp and message id.
#[inline(always)]
fn put_source(line: &mut [u8; 128], at: usize, from: Name, link: u8, stamp: u64, id: u32) -> usize
    requires { at ≤ 4 }
    ensures index { (at ≤ result) × (result ≤ at + 54) }
    ensures text { take result line.new ≡ take at line.old ++ source_text from link stamp id }
{
    let end = put_small(line, at, from.sys);
    let end = put_small_after(line, end, b'.', from.comp);
    let end = put_small_after(line, end, b'/', link);
    let end = put_number_after(line, end, stamp);
    put_number_after(line, end, u64::from(id))
}

#[inline(always)]
fn put_frame(line: &mut [u8; 128], at: usize, frame: &RawFrame<'_>) -> usize
    requires { at ≤ 4 }
    ensures index { (at ≤ result) × (result ≤ at + 54) }
    ensures text { take result line.new ≡ take at line.old ++ frame_text frame.now }
{
    let (link, stamp) = link_and_stamp(frame);
    put_source(line, at, frame.from(), link, stamp, frame.id())
}

// Puts the line of an entry at the start, and returns the index after it.
#[inline(always)]
fn put_line(line: &mut [u8; 128], outcome: Outcome, frame: &RawFrame<'_>) -> usize
    ensures index { result ≤ 128 }
    ensures text { take result line.new ≡ entry_line
        (record { port = outcome.port; frame = frame.now; admit = outcome.admit; ways = outcome.ways }) }
{
    let end = put_small(line, 0, outcome.port);
    let end = put_part(line, end, b" ", 1);
    let end = put_frame(line, end, frame);
    let end = put_part(line, end, b" ", 1);
    let end = put_fate(line, end, outcome.admit, outcome.ways);
    put_part(line, end, b"\n", 1)
}

// Appends the line of an entry, which is put together in a buffer.
fn put_entry(
    outcome: Outcome,
    frame: &RawFrame<'_>,
    line: &mut [u8; 128],
    lines: &mut Vec<u8>,
) -> Result<(), NoMemory>
    ensures { OnOk result (lines.new.items ≡ lines.old.items ++ entry_line
        (record { port = outcome.port; frame = frame.now; admit = outcome.admit; ways = outcome.ways })) }
{
    let end = put_line(line, outcome, frame);
    lines.extend_from_slice(&line[..end])
}

/// Writes the lines of a journal after those that are held, and holds the last ones.
pub(crate) fn write_entries<K: Sink>(
    journal: &Journal,
    lines: &mut Vec<u8>,
    out: &mut K,
) -> Result<(), RunEnd>
    ensures written { OnOk result ((before : Option (List ℕ)) (whole rest : List ℕ)
        → Sent before (K.sent out.old) whole (lines.old.items ++ (entry_lines journal.now ++ rest))
        → Sent before (K.sent out.new) whole (lines.new.items ++ rest)) }
    ensures halted { IfErr result (λ _. (before : Option (List ℕ)) (whole rest : List ℕ)
        → Sent before (K.sent out.old) whole (lines.old.items ++ (entry_lines journal.now ++ rest))
        → SentPrefix before (K.sent out.new) whole) }
    ensures error { IfErr result (λ e. (e ≡ RunEnd.WriteFault) ⊎ (e ≡ RunEnd.NoMemory)) }
    ensures rose { IsErrOf result RunEnd.WriteFault → Rose (K.faults out.old) (K.faults out.new) }
    ensures sound { ¬ IsErrOf result RunEnd.WriteFault → K.faults out.new ≡ K.faults out.old }
{
    let mut line = [0; LINE_BYTES];
    for at in 0..journal.len() {
        let (outcome, frame) = journal.look(at);
        put_entry(outcome, &frame, &mut line, lines)?;
        write_enough(lines, out)?;
    }
    Ok(())
}
