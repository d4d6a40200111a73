// The last line of a text.
ghost use Rattle.std.specs.Prelude.{◌≡◌, ◌++◌, OnOk};
ghost use Rattle.decode_command.specs.DecodeText.{counts_text};

use mav_ports::NoMemory;
use mav_text::put_decimal;

/// Appends how many of something were found and how many bytes were skipped, as `WHAT N skipped M`, or a part of that.
pub fn put_counts(what: &str, found: u64, skipped: u64, text: &mut Vec<u8>) -> Result<(), NoMemory>
    ensures { OnOk result (text.new.items ≡ text.old.items ++ counts_text what.now found skipped) }
{
    text.extend_from_slice(what.as_bytes())?;
    put_decimal(found, text)?;
    text.extend_from_slice(b" skipped ")?;
    put_decimal(skipped, text)?;
    text.push(b'\n')?;
    Ok(())
}
