// Numbers in the words of a line.
ghost use Rattle.std.specs.Prelude.{◌≡◌, ◌<◌, ◌≤◌, ◌&&◌, nat_le, if◌then◌else◌, ◌-◌, ◌^◌, Some, None, IfSome};
ghost use Rattle.std.specs.List.{list_all};
ghost use Rattle.scenario_lines.specs.Words.{is_digit, is_numeral, digits_value, number_in, negative_of, positive_of};
ghost use Rattle.scenario_lines.specs.Words.{integer_of, wire_word, bytes_word};
ghost use Rattle.std.specs.Option.{ok_or};
ghost use Rattle.scenario_lines.specs.Readings.{Says};
ghost use Rattle.scenario_lines.specs.declared.faults.Reason.TheVariants.{Hex};

use crate::{LineFault, Reason};
use field_layout::Label;
use hex::FromHex;
use std::alloc::Global;

fn is_digit(byte: u8) -> bool
    ensures { result ≡ is_digit byte }
{
    byte.is_ascii_digit()
}

fn all_digits(bytes: &[u8]) -> bool
    ensures { result ≡ list_all is_digit bytes.now }
{
    bytes.iter().all(|byte| is_digit(*byte))
}

/// Decimal digits without a leading zero.
fn is_numeral(word: &[u8]) -> bool
    ensures { result ≡ is_numeral word.now }
{
    match word {
        [] => false,
        [only] => is_digit(*only),
        [b'0', ..] => false,
        [first, rest @ ..] => is_digit(*first) && all_digits(rest),
    }
}

/// The number that decimal digits represent, if it is at most `high`.
fn value_up_to(digits: &[u8], high: u64) -> Option<u64>
    ensures exact { result ≡ (if nat_le (digits_value digits.now) high then Some (digits_value digits.now) else None) }
    ensures most { IfSome result (λ n. n ≤ high) }
{
    let mut value: u64 = 0;
    for digit in digits {
        value = value
            .checked_mul(10)?
            .checked_add(u64::from(digit.saturating_sub(b'0')))?;
        if value > high {
            return None;
        }
    }
    Some(value)
}

/// A whole number within a range.
pub(crate) fn number(word: &[u8], low: u64, high: u64) -> Option<u64>
    ensures exact { result ≡ number_in low high word.now }
    ensures least { IfSome result (λ n. low ≤ n) }
    ensures most { IfSome result (λ n. n ≤ high) }
{
    if !is_numeral(word) {
        return None;
    }
    let value = value_up_to(word, high)?;
    if value < low {
        return None;
    }
    Some(value)
}

/// A whole number of 32 bits, with a leading `-` if it is below 0.
pub(crate) fn integer(word: &[u8]) -> Option<i32>
    ensures { result ≡ integer_of word.now }
{
    match word {
        [b'-', digits @ ..] => below_zero(digits),
        _ => from_zero(word),
    }
}

/// The number of some digits, from 0 on.
fn from_zero(digits: &[u8]) -> Option<i32>
    ensures { result ≡ positive_of (number_in 0 (2 ^ 31 - 1) digits.now) }
{
    Some(number(digits, 0, (1 << 31) - 1)? as i32)
}

/// The number below 0 whose digits these are.
fn below_zero(digits: &[u8]) -> Option<i32>
    ensures { result ≡ negative_of (number_in 1 (2 ^ 31) digits.now) }
{
    let distance = number(digits, 1, 1 << 31)?;
    Some(-(distance as i64) as i32)
}

/// Eight hexadecimal digits in either case, the highest first.
pub(crate) fn wire_word(word: &[u8]) -> Option<u32>
    ensures { result ≡ wire_word word.now }
{
    let bytes = <[u8; 4] as FromHex>::from_hex(word).ok()?;
    Some(u32::from_be_bytes(bytes))
}

/// Two hexadecimal digits, in either case, for each of one or more bytes.
pub(crate) fn some_bytes(alloc: Global, word: &[u8]) -> Result<Label, LineFault>
    ensures { Says (ok_or (bytes_word word.now) Hex) result }
{
    if word.is_empty() {
        return Err(LineFault::Bad(Reason::Hex));
    }
    let mut bytes = vec![in alloc; 0u8; word.len() / 2]?;
    match hex::decode_to_slice(word, &mut bytes) {
        Ok(()) => Ok(Label::new(bytes)),
        Err(_) => Err(LineFault::Bad(Reason::Hex)),
    }
}
