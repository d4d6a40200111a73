// Why a definition has no layout.
ghost use Rattle.std.specs.Prelude.{◌≡◌, ◌<◌, length, IfSome};
ghost use Rattle.field_layout.specs.Definition.{all_fields, full_len_of};
ghost use Rattle.field_layout.specs.Faults.{names_of, repeats_at, first_repeat};

use crate::fields::byte_len;
use crate::{Label, MessageDef, NoMemory};

/// The first fault of a definition, in the order of the variants.
#[derive(Drop)]
pub enum LayoutFault {
    /// It has no base field.
    NoFields,
    /// This is the first field's name, extensions last, that an earlier field has.
    TwiceNamed { name: Label },
    /// All fields together have this many bytes, more than a payload holds.
    TooLong { len: u128 },
    /// There is no fault, and no memory for the layout.
    NoMemory,
}

impl From<NoMemory> for LayoutFault {
    ghost use Rattle.std.specs.Prelude.{◌≡◌};
    ghost use Rattle.field_layout.specs.declared.faults.LayoutFault.TheVariants.{NoMemory};

    ghost from_gives = { λ _ fault. fault ≡ NoMemory };

    fn from(_refused: NoMemory) -> LayoutFault {
        LayoutFault::NoMemory
    }
}

// Whether an earlier field has the name of the field at an index.
fn repeats(def: &MessageDef, place: usize) -> bool
    requires { place < length (all_fields def.now) }
    ensures { result ≡ repeats_at (names_of def.now) place }
{
    let name = &def.field(place).name;
    for earlier in 0..place {
        if name.is_same(&def.field(earlier).name) {
            return true;
        }
    }
    false
}

/// The first index whose name an earlier index has.
pub(crate) fn repeated_place(def: &MessageDef) -> Option<usize>
    ensures first { result ≡ first_repeat (names_of def.now) }
    ensures within { IfSome result (λ place. place < length (all_fields def.now)) }
{
    for place in 0..def.field_count() {
        if repeats(def, place) {
            return Some(place);
        }
    }
    None
}

/// The bytes of all fields together.
pub(crate) fn payload_len(def: &MessageDef) -> u128
    ensures { result ≡ full_len_of def.now }
{
    let extension_len = byte_len(&def.extensions);
    def.base_len() + extension_len
}
