// What holds of every line that may be read.
ghost use Rattle.std.specs.Prelude.{ℕ, ◌≡◌, List, None};
ghost use Rattle.scenario_lines.specs.LineContext.{LineContext};
ghost use Rattle.scenario_lines.specs.Grammar.{line_of};
ghost use Rattle.scenario_lines.specs.Reasons.{reason_against};
ghost use Rattle.scenario_lines.specs.Permits.{IsPermitted};

/// A line that has no reason against it is one that the world may be asked to do.
pub fn lines_read_are_permitted()
    ensures { (s : LineContext) → (text : List ℕ) → reason_against s text ≡ None → IsPermitted s (line_of text) }
{}
