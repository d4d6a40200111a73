// The words of small whole numbers, which params of items carry as IEEE 754 singles.
ghost use Rattle.std.specs.Prelude.{◌≡◌, ℕ, ◌≤◌};
ghost use Rattle.plan_items.specs.Words.{small_word_of, word_number};

const EXPONENT_BIAS: u32 = 127;

const FRACTION_BITS: u32 = 23;

/// The greatest number that `small_word` and `word_small` convert.
pub const GREATEST_SMALL: u8 = 70;

/// The bits of the IEEE 754 single that equals `k`.
pub fn small_word(k: u8) -> u32
    requires { k ≤ 70 }
    ensures { result ≡ small_word_of k }
{
    if k == 0 {
        return 0;
    }
    let exponent = k.ilog2();
    let rest = u32::from(k) - (1 << exponent);
    ((EXPONENT_BIAS + exponent) << FRACTION_BITS) + (rest << (FRACTION_BITS - exponent))
}

// The whole part of the single with this word, if that is from 1 to 2^24.
fn whole_part(word: u32) -> u32
    ensures { (k : ℕ) → k ≤ 70 → word ≡ small_word_of k → result ≡ k }
{
    if word == 0 {
        return 0;
    }
    let exponent = (word >> FRACTION_BITS).saturating_sub(EXPONENT_BIAS);
    let fraction = word % (1 << FRACTION_BITS) + (1 << FRACTION_BITS);
    fraction >> FRACTION_BITS.saturating_sub(exponent)
}

/// The number from 0 to 70 whose word this is. No other word has a number.
pub fn word_small(word: u32) -> Option<u8>
    ensures { result ≡ word_number word }
{
    let k = whole_part(word);
    if k > u32::from(GREATEST_SMALL) {
        return None;
    }
    let k = k as u8;
    if small_word(k) == word { Some(k) } else { None }
}
