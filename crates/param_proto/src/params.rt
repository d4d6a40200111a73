// A parameter as both sides of the protocol keep it.

/// A parameter. The id has 16 bytes, with zeros after a shorter one; `ty` is a code of MAV_PARAM_TYPE; `word` is the
/// word of the four bytes that the value has in a message, lowest first (MAVLink guide, Parameter Protocol: bytewise
/// encoding).
#[derive(Clone, Copy)]
pub struct Param {
    pub id: [u8; 16],
    pub ty: u8,
    pub word: u32,
}
