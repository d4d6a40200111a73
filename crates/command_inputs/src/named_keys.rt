// The key that a line names.
ghost use Rattle.std.specs.Prelude.{◌≡◌, true, map, IfOk, IfErr};
ghost use Rattle.command_line.specs.Forms.{has_given};
ghost use Rattle.command_line.specs.Lines.{given_of};
ghost use Rattle.command_inputs.specs.KeyInputs.{key_spec, TookAtMost};
ghost use Rattle.command_inputs.specs.NamedKeys.{KeyIs};
ghost use Rattle.run_status.specs.Seen.{halted_over, input_of};

use crate::read_key;
use command_line::{Line, OptionName};
use mav_ports::Source;
use mav_sign::Key;
use run_status::RunEnd;

/// Reads the key, if the line names one.
pub fn named_key<S: Source>(line: &Line, key: &mut S) -> Result<Option<Key>, RunEnd>
    ensures is { IfOk result
        (KeyIs (has_given OptionName.Key (map given_of line.now.settings.items))
        (input_of S.has_ended S.faults S.idles S.left key.old key.new)) }
    ensures named { IfErr result (λ _.
        has_given OptionName.Key (map given_of line.now.settings.items) ≡ true) }
    ensures halts { IfErr result (halted_over key_spec
        (input_of S.has_ended S.faults S.idles S.left key.old key.new)) }
    ensures within { IfErr result (λ _. TookAtMost 67 (S.left key.old) (S.left key.new)) }
{
    if !line.has(OptionName::Key) {
        return Ok(None);
    }
    Ok(Some(read_key(key)?))
}
