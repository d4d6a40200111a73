// The value while a participant has the turn.
ghost use Rattle.std.specs.Prelude.{◌≡◌};
ghost use Rattle.std.specs.Borrow.{sem};
ghost use Rattle.turnstile.specs.Lending.{LendsValue};

/// The value, from `enter` to `leave`. It can't be dropped: only `leave` takes it.
pub struct Held<V> {
    pub(crate) value: V,
}

impl<V> Held<V> {
    /// The value.
    pub fn value(&mut self) -> &mut V
        ensures* writes_back { sem 𝓛 (LendsValue V.row self.entry result) }
        ensures value { result.now ≡ self.old.value }
    {
        &mut self.value
    }
}
