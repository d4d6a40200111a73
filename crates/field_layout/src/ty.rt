// The types of fields.
ghost use Rattle.std.specs.Prelude.{◌≡◌};
ghost use Rattle.field_layout.specs.Types.{element_size, type_name};

/// The type of a field's elements (MAVLink guide, Field Types). `Version` is `uint8_t_mavlink_version`, a `uint8_t`
/// that holds the sender's protocol version.
#[derive(Clone, Copy)]
pub enum Ty {
    I8,
    U8,
    Char,
    I16,
    U16,
    I32,
    U32,
    I64,
    U64,
    F32,
    F64,
    Version,
}

impl Ty {
    /// The bytes of one element on the wire.
    pub fn size(self) -> usize
        ensures { result ≡ element_size self }
    {
        match self {
            Ty::I8 | Ty::U8 | Ty::Char | Ty::Version => 1,
            Ty::I16 | Ty::U16 => 2,
            Ty::I32 | Ty::U32 | Ty::F32 => 4,
            Ty::I64 | Ty::U64 | Ty::F64 => 8,
        }
    }

    /// The name that enters CRC_EXTRA, in ASCII.
    pub fn name(self) -> &'static [u8]
        ensures { result.now ≡ type_name self }
    {
        match self {
            Ty::I8 => b"int8_t",
            Ty::U8 | Ty::Version => b"uint8_t",
            Ty::Char => b"char",
            Ty::I16 => b"int16_t",
            Ty::U16 => b"uint16_t",
            Ty::I32 => b"int32_t",
            Ty::U32 => b"uint32_t",
            Ty::I64 => b"int64_t",
            Ty::U64 => b"uint64_t",
            Ty::F32 => b"float",
            Ty::F64 => b"double",
        }
    }
}
