// The types of fields as definitions write them.
ghost use Rattle.std.specs.Prelude.{◌≡◌, ◌-◌, ◌≤◌, ◌==◌, length, position, find, slice_index};
ghost use Rattle.std.specs.List.{list_all};
ghost use Rattle.dialect.specs.Types as spec;

use field_layout::Ty;

// The types that an array may have.
const ELEMENT_TYPES: [Ty; 11] = [
    Ty::I8,
    Ty::U8,
    Ty::Char,
    Ty::I16,
    Ty::U16,
    Ty::I32,
    Ty::U32,
    Ty::I64,
    Ty::U64,
    Ty::F32,
    Ty::F64,
];

/// The word of a type in ASCII: its name, and `uint8_t_mavlink_version` in full.
pub fn type_word(ty: Ty) -> &'static [u8]
    ensures { result.now ≡ spec.type_word ty }
{
    match ty {
        Ty::Version => b"uint8_t_mavlink_version",
        _ => ty.name(),
    }
}

// The type of that word among some.
fn type_among(types: &[Ty], word: &[u8]) -> Option<Ty>
    ensures { result ≡ spec.type_among types.now word.now }
{
    types.iter().copied().find(|ty| word == type_word(*ty))
}

// The type of that word among those that an array may have.
fn element_type(word: &[u8]) -> Option<Ty>
    ensures { result ≡ spec.type_among spec.element_types word.now }
{
    type_among(&ELEMENT_TYPES, word)
}

// The type of that word.
fn single_type(word: &[u8]) -> Option<Ty>
    ensures { result ≡ spec.type_among spec.all_types word.now }
{
    if word == type_word(Ty::Version) {
        return Some(Ty::Version);
    }
    element_type(word)
}

fn is_digit(byte: u8) -> bool
    ensures { result ≡ spec.is_digit byte }
{
    byte.is_ascii_digit()
}

fn all_digits(bytes: &[u8]) -> bool
    ensures { result ≡ list_all spec.is_digit bytes.now }
{
    bytes.iter().all(|byte| is_digit(*byte))
}

fn begins_with_zero(bytes: &[u8]) -> bool
    ensures { result ≡ (slice_index bytes.now 0 == 48) }
{
    matches!(bytes, [b'0', ..])
}

// Digits without a leading zero.
fn is_numeral(digits: &[u8]) -> bool
    ensures { result ≡ spec.is_numeral digits.now }
{
    all_digits(digits) && !begins_with_zero(digits)
}

fn digit(byte: u8) -> u16
    ensures value { result ≡ byte - 48 }
    ensures bound { result ≤ 207 }
{
    u16::from(byte.saturating_sub(b'0'))
}

// The number of up to three digits.
fn number_of(digits: &[u8]) -> u16
    requires { length digits.now ≤ 3 }
    ensures { result ≡ spec.number_of digits.now }
{
    match *digits {
        [a] => digit(a),
        [a, b] => digit(a) * 10 + digit(b),
        [a, b, c] => (digit(a) * 10 + digit(b)) * 10 + digit(c),
        _ => 0,
    }
}

// The number of up to three digits before a `]`, if it is from 1 to 255.
fn closed(byte: u8, digits: &[u8]) -> Option<u8>
    requires { length digits.now ≤ 3 }
    ensures { result ≡ spec.closed byte digits.now }
{
    if byte == b']' && is_numeral(digits) {
        u8::try_from(number_of(digits)).ok()
    } else {
        None
    }
}

// The length of an array, after the `[`.
fn length_before_bracket(word: &[u8]) -> Option<u8>
    ensures { result ≡ spec.length_before_bracket word.now }
{
    match *word {
        [a, end] => closed(end, &[a]),
        [a, b, end] => closed(end, &[a, b]),
        [a, b, c, end] => closed(end, &[a, b, c]),
        _ => None,
    }
}

fn first_open(word: &[u8]) -> Option<usize>
    ensures { result ≡ position spec.is_open word.now }
{
    word.iter().position(|byte| *byte == b'[')
}

// The type of an array and its length.
fn array_type(word: &[u8]) -> Option<(Ty, u8)>
    ensures { result ≡ spec.array_type_of word.now }
{
    let open = first_open(word)?;
    let ty = element_type(&word[..open])?;
    let len = length_before_bracket(&word[open + 1..])?;
    Some((ty, len))
}

/// The type of a field and the length of its array, 0 for a single value.
pub(crate) fn field_type(word: &[u8]) -> Option<(Ty, u8)>
    ensures { result ≡ spec.field_type_of word.now }
{
    match single_type(word) {
        Some(ty) => Some((ty, 0)),
        None => array_type(word),
    }
}
