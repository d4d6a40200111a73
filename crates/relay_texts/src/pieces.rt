// Parts of a line.
ghost use Rattle.std.specs.Prelude.{◌≡◌, ◌≤◌, ◌+◌, ◌++◌, length, take, OnOk, OnErr};
ghost use Rattle.std.specs.Fmt.{decimal};

use mav_text::{NoMemory, put_number, put_part};

/// More than a line has.
pub(crate) const LINE_BYTES: usize = 256;

/// Puts a text at an index, and returns the index after it.
pub(crate) fn put_text(line: &mut [u8; 256], at: usize, text: &[u8]) -> usize
    requires { at + length text.now ≤ 256 }
    ensures index { result ≡ at + length text.now }
    ensures text { take result line.new ≡ take at line.old ++ text.now }
{
    put_part(line, at, text, text.len())
}

/// Puts a text and a number in decimal digits at an index, and returns the index after them.
pub(crate) fn put_named(line: &mut [u8; 256], at: usize, name: &[u8], number: u64) -> usize
    requires { at + length name.now + 24 ≤ 256 }
    ensures index { (at ≤ result) × (result ≤ at + length name.now + 20) }
    ensures text { take result line.new ≡ take at line.old ++ (name.now ++ decimal number) }
{
    let end = put_text(line, at, name);
    put_number(line, end, number)
}

/// Appends the first bytes of a line.
pub(crate) fn append_line(line: &[u8; 256], end: usize, text: &mut Vec<u8>) -> Result<(), NoMemory>
    requires { end ≤ 256 }
    ensures text { OnOk result (text.new.items ≡ text.old.items ++ take end line.now) }
    ensures unchanged { OnErr result (text.new.items ≡ text.old.items) }
{
    text.extend_from_slice(&line[..end])?;
    Ok(())
}
