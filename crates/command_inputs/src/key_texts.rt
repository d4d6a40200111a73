// A key as text.
ghost use Rattle.std.specs.Prelude.{◌≡◌};
ghost use Rattle.command_inputs.specs.KeyText.{is_line_end, key_of, default_key, key_or_default};

use hex::FromHex;
use mav_sign::Key;

// How many digits a key has.
const DIGITS: usize = 64;

fn is_line_end(bytes: &[u8]) -> bool
    ensures { result ≡ is_line_end bytes.now }
{
    matches!(bytes, [] | [b'\n'] | [b'\r', b'\n'])
}

/// The key of a text, which an empty one has not.
pub(crate) fn key_of(text: &[u8]) -> Option<Key>
    ensures { result ≡ key_of text.now }
{
    let (digits, end) = text.split_at_checked(DIGITS)?;
    let bytes = <[u8; 32] as FromHex>::from_hex(digits).ok()?;
    if is_line_end(end) {
        Some(Key::new(bytes))
    } else {
        None
    }
}

/// The key if none is given: the bytes 0 to 31.
pub fn default_key() -> Key
    ensures { result ≡ default_key }
{
    Key::new([
        0, 1, 2, 3, 4, 5, 6, 7, 8, 9, 10, 11, 12, 13, 14, 15, 16, 17, 18, 19, 20, 21, 22, 23, 24,
        25, 26, 27, 28, 29, 30, 31,
    ])
}

/// The key of a text, which is the default if the text is empty.
pub(crate) fn key_or_default(text: &[u8]) -> Option<Key>
    ensures { result ≡ key_or_default text.now }
{
    if text.is_empty() {
        return Some(default_key());
    }
    key_of(text)
}
