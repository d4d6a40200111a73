// The form of names.
ghost use Rattle.std.specs.Prelude.{◌≡◌, ◌&&◌, nat_le, length};
ghost use Rattle.std.specs.List.{list_all};
ghost use Rattle.dialect.specs.Names as spec;

// The most characters of a name.
const MAX_NAME_BYTES: usize = 64;

fn is_message_name_byte(byte: u8) -> bool
    ensures { result ≡ spec.is_message_name_byte byte }
{
    byte.is_ascii_uppercase() || byte.is_ascii_digit() || byte == b'_'
}

fn is_field_name_byte(byte: u8) -> bool
    ensures { result ≡ spec.is_field_name_byte byte }
{
    byte.is_ascii_lowercase() || is_message_name_byte(byte)
}

fn all_message_name_bytes(name: &[u8]) -> bool
    ensures { result ≡ list_all spec.is_message_name_byte name.now }
{
    name.iter().all(|byte| is_message_name_byte(*byte))
}

fn all_field_name_bytes(name: &[u8]) -> bool
    ensures { result ≡ list_all spec.is_field_name_byte name.now }
{
    name.iter().all(|byte| is_field_name_byte(*byte))
}

fn has_length(name: &[u8]) -> bool
    ensures { result ≡ nat_le 1 (length name.now) && nat_le (length name.now) 64 }
{
    1 <= name.len() && name.len() <= MAX_NAME_BYTES
}

/// Whether a message may have that name.
pub(crate) fn is_message_name(name: &[u8]) -> bool
    ensures { result ≡ spec.is_message_name name.now }
{
    has_length(name) && all_message_name_bytes(name)
}

/// Whether a field may have that name.
pub(crate) fn is_field_name(name: &[u8]) -> bool
    ensures { result ≡ spec.is_field_name name.now }
{
    has_length(name) && all_field_name_bytes(name)
}
