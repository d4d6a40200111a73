// How parameters are written.
ghost use Rattle.std.specs.Prelude.{◌≡◌, ◌++◌, string_bytes, Some, OnOk};
ghost use Rattle.field_layout.specs.CharText.{char_text, chars_text, quoted_text};
ghost use Rattle.fleet_report.specs.Texts.{wire_text, param_text, params_text};

use crate::NoMemory;
use crate::texts::NameText;
use mav_names::Name;
use param_proto::Param;
use std::fmt;

/// The four bytes of a word in wire order, as eight digits.
#[derive(Drop)]
struct WireText(u32);

impl fmt::Display for WireText {
    ghost output = { λ text. Some (wire_text text.0) };

    #[tactic(auto, using(crate::proofs::WireDigits::wire_padded))]
    fn fmt<W: fmt::Write>(&self, f: &mut fmt::Formatter<W>) -> fmt::Result {
        let word = self.0;
        let swapped = word.swap_bytes();
        write!(f, "{swapped:08x}")
    }
}

// Writes a character: as it is, or as `\x` and its two digits.
#[tactic(auto, using(crate::proofs::WordDigits::byte_padded))]
fn put_char(text: &mut String, byte: u8) -> Result<(), NoMemory>
    ensures { OnOk result (string_bytes text.new ≡ string_bytes text.old ++ char_text byte) }
{
    if byte >= 0x20 && byte <= 0x7E && byte != b'"' && byte != b'\\' {
        return text.push(char::from(byte));
    }
    write!(text, "\\x{byte:02x}")
}

// Writes characters up to the first zero.
fn put_chars(text: &mut String, id: &[u8; 16]) -> Result<(), NoMemory>
    ensures { OnOk result (string_bytes text.new ≡ string_bytes text.old ++ chars_text id.now) }
{
    for byte in id {
        if *byte == 0 {
            return Ok(());
        }
        put_char(text, *byte)?;
    }
    Ok(())
}

// Writes characters up to the first zero, in double quotes.
fn put_quoted(text: &mut String, id: &[u8; 16]) -> Result<(), NoMemory>
    ensures { OnOk result (string_bytes text.new ≡ string_bytes text.old ++ quoted_text id.now) }
{
    text.push_str("\"")?;
    put_chars(text, id)?;
    text.push_str("\"")
}

/// Writes the line of a parameter.
pub(crate) fn put_param(text: &mut String, station: Name, param: &Param) -> Result<(), NoMemory>
    ensures { OnOk result (string_bytes text.new ≡ string_bytes text.old ++ param_text station param.now) }
{
    write!(text, "param {} ", NameText(station))?;
    put_quoted(text, &param.id)?;
    writeln!(text, " {} {}", param.ty, WireText(param.word))
}

/// Writes the lines of parameters.
pub(crate) fn put_params(text: &mut String, station: Name, params: &[Param]) -> Result<(), NoMemory>
    ensures { OnOk result (string_bytes text.new ≡ string_bytes text.old ++ params_text station params.now) }
{
    for param in params {
        put_param(text, station, param)?;
    }
    Ok(())
}
