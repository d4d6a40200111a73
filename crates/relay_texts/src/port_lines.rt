// The lines of ports, and of the relay.
ghost use Rattle.std.specs.Prelude.{◌≡◌, ◌≤◌, ◌+◌, ◌++◌, length, take, codes, OnOk, OnErr};
ghost use Rattle.relay_texts.specs.Texts.{counts_line, frames_text, journal_fault, log_fault, read_text, turns_line};
ghost use Rattle.relay_texts.specs.Texts.{waits_line};

use crate::counts::PortCounts;
use crate::pieces::{LINE_BYTES, append_line, put_named, put_text};
use mav_text::NoMemory;

/// Appends the line of a port that couldn't be opened.
pub fn append_waits(port: u8, text: &mut Vec<u8>) -> Result<(), NoMemory>
    ensures text { OnOk result (text.new.items ≡ text.old.items ++ waits_line port) }
    ensures unchanged { OnErr result (text.new.items ≡ text.old.items) }
{
    let mut line = [0; LINE_BYTES];
    let end = put_named(&mut line, 0, b"port ", u64::from(port));
    let end = put_text(&mut line, end, b" waits\n");
    append_line(&line, end, text)
}

// Puts a port, its links and what was read at the start, and returns the index after them.
fn put_read(line: &mut [u8; 256], port: u8, counts: &PortCounts) -> usize
    ensures index { result ≤ 108 }
    ensures text { take result line.new ≡ read_text port counts.now }
{
    let end = put_named(line, 0, b"port ", u64::from(port));
    let end = put_named(line, end, b" links ", counts.links);
    let end = put_named(line, end, b" read ", counts.read);
    put_named(line, end, b" skipped ", counts.skipped)
}

// Puts what became of frames at an index, and returns the index after it.
fn put_frames(line: &mut [u8; 256], at: usize, counts: &PortCounts) -> usize
    requires { at ≤ 108 }
    ensures index { result ≤ at + 117 }
    ensures text { take result line.new ≡ take at line.old ++ frames_text counts.now }
{
    let end = put_named(line, at, b" admitted ", counts.admitted);
    let end = put_named(line, end, b" refused ", counts.refused);
    let end = put_named(line, end, b" written ", counts.written);
    put_named(line, end, b" dropped ", counts.dropped)
}

/// Appends the line of a port's counts.
pub fn append_counts(port: u8, counts: &PortCounts, text: &mut Vec<u8>) -> Result<(), NoMemory>
    ensures text { OnOk result (text.new.items ≡ text.old.items ++ counts_line port counts.now) }
    ensures unchanged { OnErr result (text.new.items ≡ text.old.items) }
{
    let mut line = [0; LINE_BYTES];
    let end = put_read(&mut line, port, counts);
    let end = put_frames(&mut line, end, counts);
    let end = put_text(&mut line, end, b"\n");
    append_line(&line, end, text)
}

/// Appends the line of a journal that couldn't be written.
pub fn append_journal_fault(text: &mut Vec<u8>) -> Result<(), NoMemory>
    ensures text { OnOk result (text.new.items ≡ text.old.items ++ journal_fault) }
    ensures unchanged { OnErr result (text.new.items ≡ text.old.items) }
{
    text.extend_from_slice(b"journal fault\n")?;
    Ok(())
}

/// Appends the line of a log that couldn't be written.
pub fn append_log_fault(text: &mut Vec<u8>) -> Result<(), NoMemory>
    ensures text { OnOk result (text.new.items ≡ text.old.items ++ log_fault) }
    ensures unchanged { OnErr result (text.new.items ≡ text.old.items) }
{
    text.extend_from_slice(b"log fault\n")?;
    Ok(())
}

/// Appends the line of a relay that ends because its rounds are spent.
pub fn append_turns(turns: u64, text: &mut Vec<u8>) -> Result<(), NoMemory>
    ensures text { OnOk result (text.new.items ≡ text.old.items ++ turns_line turns) }
    ensures unchanged { OnErr result (text.new.items ≡ text.old.items) }
{
    let mut line = [0; LINE_BYTES];
    let end = put_named(&mut line, 0, b"turns spent ", turns);
    let end = put_text(&mut line, end, b"\n");
    append_line(&line, end, text)
}
