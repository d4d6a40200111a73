// Digits of numbers.
ghost use Rattle.std.specs.Prelude.{◌≡◌, ◌<◌, ◌^◌, ◌/◌, ◌%◌, ◌∷◌, [], drop};
ghost use Rattle.std.specs.Fmt.{decimal};
ghost use Rattle.mav_text.specs.FrameText.{pair_text, byte_hex, word_hex};

use itoa::write_digits;

static HEX: [u8; 512] =
    *b"000102030405060708090a0b0c0d0e0f101112131415161718191a1b1c1d1e1f202122232425262728292a2b2c2d2e2f303132333435363738393a3b3c3d3e3f404142434445464748494a4b4c4d4e4f505152535455565758595a5b5c5d5e5f606162636465666768696a6b6c6d6e6f707172737475767778797a7b7c7d7e7f808182838485868788898a8b8c8d8e8f909192939495969798999a9b9c9d9e9fa0a1a2a3a4a5a6a7a8a9aaabacadaeafb0b1b2b3b4b5b6b7b8b9babbbcbdbebfc0c1c2c3c4c5c6c7c8c9cacbcccdcecfd0d1d2d3d4d5d6d7d8d9dadbdcdddedfe0e1e2e3e4e5e6e7e8e9eaebecedeeeff0f1f2f3f4f5f6f7f8f9fafbfcfdfeff";

static PAIRS: [u8; 200] =
    *b"00010203040506070809101112131415161718192021222324252627282930313233343536373839404142434445464748495051525354555657585960616263646566676869707172737475767778798081828384858687888990919293949596979899";

/// The digits of a number, right-aligned, and where they begin.
#[inline]
pub(crate) fn write_decimal(number: u64, digits: &mut [u8; 20]) -> usize
    ensures within { result < 20 }
    ensures digits { drop result digits.new ≡ decimal number }
{
    write_digits(number, digits, 20)
}

/// The two digits of a number below 100.
#[inline(always)]
pub(crate) fn pair_digits(pair: usize) -> [u8; 2]
    requires { pair < 100 }
    ensures { result ≡ pair_text pair }
{
    let from = pair * 2;
    let tens = PAIRS[from];
    let ones = PAIRS[from + 1];
    [tens, ones]
}

/// The two digits of a number below 100 as a word, the first in its low byte.
#[inline(always)]
pub(crate) fn pair_word(pair: usize) -> u16
    requires { pair < 100 }
    ensures { result % 256 ∷ result / 256 ∷ [] ≡ pair_text pair }
{
    let [tens, ones] = pair_digits(pair);
    u16::from(tens) + u16::from(ones) * 256
}

/// The two digits of a byte, in lower case.
#[inline(always)]
pub(crate) fn byte_digits(byte: u8) -> [u8; 2]
    ensures { result ≡ byte_hex byte }
{
    let from = usize::from(byte) * 2;
    let high = HEX[from];
    let low = HEX[from + 1];
    [high, low]
}

/// The digits of a word of four bytes, highest byte first.
#[inline(always)]
pub(crate) fn word_digits(word: u64) -> [u8; 8]
    requires { word < 2 ^ 32 }
    ensures { result ≡ word_hex 4 word }
{
    let [a, b] = byte_digits((word / 256 / 256 / 256 % 256) as u8);
    let [c, d] = byte_digits((word / 256 / 256 % 256) as u8);
    let [e, f] = byte_digits((word / 256 % 256) as u8);
    let [g, h] = byte_digits((word % 256) as u8);
    [a, b, c, d, e, f, g, h]
}
