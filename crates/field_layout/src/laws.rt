// What follows for packing and unpacking.
ghost use Rattle.std.specs.Prelude.{◌≡◌, ℕ, List};
ghost use Rattle.field_layout.specs.Definition.{Definition};
ghost use Rattle.field_layout.specs.Payload.{FitsLayout, Represents, serialised, truncated};

/// A payload represents one list of values, so `unpack` has no choice.
pub fn payload_has_one_meaning()
    ensures { (def : Definition) (payload : List ℕ) (v w : List (List ℕ))
        → Represents def payload v → Represents def payload w → v ≡ w }
{}

/// What `pack` wrote represents what was packed, so `unpack` gives it back.
pub fn packed_values_come_back()
    ensures represents { (def : Definition) (v : List (List ℕ))
        → FitsLayout def v → Represents def (truncated (serialised def v)) v }
    ensures alone { (def : Definition) (v w : List (List ℕ))
        → FitsLayout def v → Represents def (truncated (serialised def v)) w → w ≡ v }
{}
