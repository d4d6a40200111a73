// Ids and values in the form in which a server keeps them.
ghost use Rattle.std.specs.Prelude.{◌≡◌};
ghost use Rattle.param_proto.specs.Params.{cleaned, same_id, is_type, narrowed, normal};

use crate::Param;

/// The id with zeros after its first zero byte.
pub fn clean(id: &[u8; 16]) -> [u8; 16]
    ensures { result ≡ cleaned id.now }
{
    let mut clean = [0u8; 16];
    for at in 0..16 {
        if id[at] == 0 {
            return clean;
        }
        clean[at] = id[at];
    }
    clean
}

/// Whether it is the code of a type whose values have at most four bytes (MAVLink common messages, MAV_PARAM_TYPE).
pub fn is_type(ty: u8) -> bool
    ensures { result ≡ is_type ty }
{
    matches!(ty, 1..=6 | 9)
}

/// The word of the bytes that a value of the type has.
pub fn narrow(ty: u8, word: u32) -> u32
    ensures { result ≡ narrowed ty word }
{
    match ty {
        1 | 2 => word % 256,
        3 | 4 => word % 65536,
        _ => word,
    }
}

/// The parameter as a server keeps it.
pub fn normalise(param: Param) -> Param
    ensures { result ≡ normal param }
{
    Param {
        id: clean(&param.id),
        ty: param.ty,
        word: narrow(param.ty, param.word),
    }
}

/// Whether two ids are equal up to their first zero bytes.
pub fn is_same_id(a: &[u8; 16], b: &[u8; 16]) -> bool
    ensures { result ≡ same_id a.now b.now }
{
    clean(a) == clean(b)
}
