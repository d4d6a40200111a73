// The bytes of a payload that values are read from, and the words in them.
ghost use Rattle.std.specs.Prelude.{◌≡◌, ◌+◌, ◌^◌, ◌<◌, ◌≤◌, ◌++◌, length, take, drop};
ghost use Rattle.field_layout.specs.Reading.{word_from};
ghost use Rattle.mav_frame.specs.Padding.{padded};

// Writes a payload at the start.
#[inline(always)]
fn fill(bytes: &mut [u8; 255], payload: &[u8])
    requires { length payload.now ≤ 255 }
    ensures { bytes.new ≡ payload.now ++ drop (length payload.now) bytes.old }
{
    bytes[..payload.len()].copy_from_slice(payload);
}

/// A payload and zeros after it.
#[inline(always)]
pub(crate) fn with_zeros(payload: &[u8]) -> [u8; 255]
    requires { length payload.now ≤ 255 }
    ensures { result ≡ padded payload.now }
{
    let mut bytes = [0; 255];
    fill(&mut bytes, payload);
    bytes
}

/// A payload without the bytes past the base fields.
#[inline(always)]
pub(crate) fn base_bytes(payload: &[u8], base_len: usize) -> &[u8]
    ensures bytes { result.now ≡ take base_len payload.now }
    ensures short { length result.now ≤ length payload.now }
{
    &payload[..base_len.min(payload.len())]
}

/// The byte at an offset.
#[inline(always)]
pub(crate) fn read_byte(payload: &[u8], at: usize) -> u8
    requires { at < length payload.now }
    ensures { result ≡ word_from payload.now at 1 }
{
    payload[at]
}

/// The word of two bytes from an offset on, lowest byte first.
#[inline(always)]
pub(crate) fn read_two(payload: &[u8], at: usize) -> u64
    requires { at + 2 ≤ length payload.now }
    ensures word { result ≡ word_from payload.now at 2 }
    ensures bound { result < 2 ^ 16 }
{
    let low = payload[at] as u64;
    let high = payload[at + 1] as u64;
    low + 256 * high
}

/// The word of four bytes from an offset on, lowest byte first.
#[inline(always)]
pub(crate) fn read_four(payload: &[u8], at: usize) -> u64
    requires { at + 4 ≤ length payload.now }
    ensures word { result ≡ word_from payload.now at 4 }
    ensures bound { result < 2 ^ 32 }
{
    let low = read_two(payload, at);
    let high = read_two(payload, at + 2);
    low + 65_536 * high
}

/// The word of eight bytes from an offset on, lowest byte first.
#[inline(always)]
pub(crate) fn read_eight(payload: &[u8], at: usize) -> u64
    requires { at + 8 ≤ length payload.now }
    ensures word { result ≡ word_from payload.now at 8 }
    ensures bound { result < 2 ^ 64 }
{
    let low = read_four(payload, at);
    let high = read_four(payload, at + 4);
    low + 4_294_967_296 * high
}
