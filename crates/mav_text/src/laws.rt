//! Laws of texts: functions without a body, whose contract is the law.
ghost use Rattle.mav_text.specs.TextLaws.{ShowsRepresentedValues};

/// A frame's text is that of the values that its payload represents.
pub fn shows_represented_values()
    ensures { ShowsRepresentedValues }
{}
