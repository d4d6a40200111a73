// Laws over the grammar.
ghost use Rattle.std.specs.Prelude.{List, ℕ};
ghost use Rattle.command_line.specs.Forms.{Built};
ghost use Rattle.command_line.specs.Grammar.{AsksOnce};

/// Words ask for one thing at most, whatever is built.
pub fn at_most_one_line()
    ensures { (built : Built) (words : List (List ℕ)) → AsksOnce built words }
{}
