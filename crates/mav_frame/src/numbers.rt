// Numbers as bytes, lowest byte first.
ghost use Rattle.std.specs.Prelude.{◌≡◌, ◌+◌, ◌^◌, ◌<◌, ◌≤◌, length};
ghost use Rattle.mav_frame.specs.Numbers.{little_endian, number_at};

pub(crate) fn bytes_2(n: u16) -> [u8; 2]
    ensures { result ≡ little_endian 2 n }
{
    [(n % 256) as u8, (n / 256 % 256) as u8]
}

pub(crate) fn bytes_3(n: u32) -> [u8; 3]
    ensures { result ≡ little_endian 3 n }
{
    [
        (n % 256) as u8,
        (n / 256 % 256) as u8,
        (n / 256 / 256 % 256) as u8,
    ]
}

/// The six low bytes of a number, as a timestamp is sent.
pub fn bytes_6(n: u64) -> [u8; 6]
    ensures { result ≡ little_endian 6 n }
{
    [
        (n % 256) as u8,
        (n / 256 % 256) as u8,
        (n / 256 / 256 % 256) as u8,
        (n / 256 / 256 / 256 % 256) as u8,
        (n / 256 / 256 / 256 / 256 % 256) as u8,
        (n / 256 / 256 / 256 / 256 / 256 % 256) as u8,
    ]
}

/// The number of two bytes from an index on.
pub(crate) fn number_2(bytes: &[u8], at: usize) -> u16
    requires { at + 2 ≤ length bytes.now }
    ensures { result ≡ number_at 2 at bytes.now }
{
    bytes[at] as u16 + 256 * bytes[at + 1] as u16
}

/// The number of three bytes from an index on.
pub(crate) fn number_3(bytes: &[u8], at: usize) -> u32
    requires { at + 3 ≤ length bytes.now }
    ensures value { result ≡ number_at 3 at bytes.now }
    ensures small { result < 2 ^ 24 }
{
    let high = bytes[at + 1] as u32 + 256 * bytes[at + 2] as u32;
    bytes[at] as u32 + 256 * high
}

/// The number of six bytes from an index on.
pub(crate) fn number_6(bytes: &[u8], at: usize) -> u64
    requires { at + 6 ≤ length bytes.now }
    ensures value { result ≡ number_at 6 at bytes.now }
    ensures small { result < 2 ^ 48 }
{
    let low = number_3(bytes, at) as u64;
    let high = number_3(bytes, at + 3) as u64;
    low + 256 * 256 * 256 * high
}
