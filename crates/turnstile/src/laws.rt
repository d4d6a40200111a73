// A law of histories.
ghost use Rattle.turnstile.specs.Labels.{EachLabelHasItsOwn};

/// If each entry tells which participant added it, then the entries of one participant are those with its label, in
/// their order.
pub fn each_label_has_its_own<E>()
    ensures { EachLabelHasItsOwn E }
{}
