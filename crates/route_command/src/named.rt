// A number after its name.
ghost use Rattle.std.specs.Prelude.{◌≡◌, ◌++◌, OnOk};
ghost use Rattle.std.specs.Fmt.{decimal};

use mav_text::{NoMemory, put_decimal};

/// Appends a text and a number in decimal digits.
pub(crate) fn put_named(name: &[u8], number: u64, lines: &mut Vec<u8>) -> Result<(), NoMemory>
    ensures { OnOk result (lines.new.items ≡ lines.old.items ++ (name.now ++ decimal number)) }
{
    lines.extend_from_slice(name)?;
    put_decimal(number, lines)
}
