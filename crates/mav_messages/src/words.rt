// The words of a payload.
ghost use Rattle.std.specs.Prelude.{◌≡◌, ℕ, ◌+◌, ◌<◌, ◌≤◌, slice_index};
ghost use Rattle.std.specs.Int.{w16, w32, cast_unsigned};
ghost use Rattle.field_layout.specs.Reading.{word_from, words_from};

/// A payload with zeros after it.
pub(crate) type Padded = [u8; 255];

/// The first 255 bytes of a payload, and zeros past its end.
pub(crate) fn padded(payload: &[u8]) -> Padded
    ensures { (k : ℕ) → k < 255 → slice_index result k ≡ slice_index payload.now k }
{
    let mut padded = [0; 255];
    let len = payload.len().min(255);
    padded[..len].copy_from_slice(&payload[..len]);
    padded
}

/// The byte at an offset.
pub(crate) fn u8_at(payload: &Padded, at: usize) -> u8
    requires { at + 1 ≤ 255 }
    ensures { result ≡ word_from payload.now at 1 }
{
    payload[at]
}

/// The word of the 2 bytes from an offset on, lowest first.
pub(crate) fn u16_at(payload: &Padded, at: usize) -> u16
    requires { at + 2 ≤ 255 }
    ensures { result ≡ word_from payload.now at 2 }
{
    payload[at] as u16 + 256 * payload[at + 1] as u16
}

/// The word of the 4 bytes from an offset on, lowest first.
pub(crate) fn u32_at(payload: &Padded, at: usize) -> u32
    requires { at + 4 ≤ 255 }
    ensures { result ≡ word_from payload.now at 4 }
{
    u16_at(payload, at) as u32 + 65536 * u16_at(payload, at + 2) as u32
}

/// The word of the 8 bytes from an offset on, lowest first.
pub(crate) fn u64_at(payload: &Padded, at: usize) -> u64
    requires { at + 8 ≤ 255 }
    ensures { result ≡ word_from payload.now at 8 }
{
    u32_at(payload, at) as u64 + 4294967296 * u32_at(payload, at + 4) as u64
}

/// The signed number whose word the 2 bytes from an offset on are.
pub(crate) fn i16_at(payload: &Padded, at: usize) -> i16
    requires { at + 2 ≤ 255 }
    ensures { cast_unsigned w16 result ≡ word_from payload.now at 2 }
{
    u16_at(payload, at).cast_signed()
}

/// The signed number whose word the 4 bytes from an offset on are.
pub(crate) fn i32_at(payload: &Padded, at: usize) -> i32
    requires { at + 4 ≤ 255 }
    ensures { cast_unsigned w32 result ≡ word_from payload.now at 4 }
{
    u32_at(payload, at).cast_signed()
}

/// The `N` bytes from an offset on.
pub(crate) fn bytes_at<const N: usize>(payload: &Padded, at: usize) -> [u8; N]
    requires { at + N ≤ 255 }
    ensures { result ≡ words_from payload.now at 1 N }
{
    let mut bytes = [0; N];
    bytes.copy_from_slice(&payload[at..at + N]);
    bytes
}
