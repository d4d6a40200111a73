// Numbers in words.
ghost use Rattle.std.specs.Prelude.{◌≡◌, ◌≤◌, IfSome};
ghost use Rattle.std.specs.Fmt.{decimal};
ghost use Rattle.std.specs.Str.{bytes_eq};
ghost use Rattle.command_line.specs.Numbers.{number_in, number_within};

use itoa::Buffer;

// Whether the word is how this number is written.
fn is_written(value: u64, word: &str) -> bool
    ensures { result ≡ bytes_eq (decimal value) word.now }
{
    Buffer::new().format(value) == word
}

// The value, if it is in this range.
fn within(value: u64, low: u64, high: u64) -> Option<u64>
    ensures exact { result ≡ number_within low high value }
    ensures most { IfSome result (λ n. n ≤ high) }
{
    if low <= value && value <= high {
        Some(value)
    } else {
        None
    }
}

/// The number of this range that the word is, in decimal digits without leading zeros.
pub(crate) fn number(word: &str, low: u64, high: u64) -> Option<u64>
    ensures exact { result ≡ number_in low high word.now }
    ensures most { IfSome result (λ n. n ≤ high) }
{
    let Ok(value) = word.parse::<u64>() else {
        return None;
    };
    if !is_written(value, word) {
        return None;
    }
    within(value, low, high)
}
