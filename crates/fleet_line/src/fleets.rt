// The command `fleet`, under the key that its line names.
ghost use Rattle.std.specs.Prelude.{◌≡◌, false, map, IsErr, IsErrOf};
ghost use Rattle.std.specs.Result.{result_err};
ghost use Rattle.command_line.specs.Forms.{has_given};
ghost use Rattle.command_line.specs.Lines.{given_of};
ghost use Rattle.fleet_line.specs.Fleets.{Fleets, or_default};
ghost use Rattle.run_status.specs.Seen.{input_of, output_of, before_status_over};

use command_inputs::{default_key, named_key};
use command_line::{Line, OptionName};
use fleet_command::fleet;
use mav_ports::{Sink, Source};
use mav_sign::Key;
use run_status::RunEnd;
use std::alloc::Global;

fn or_default(key: Option<Key>) -> Key
    ensures { result ≡ or_default key }
{
    match key {
        Some(key) => key,
        None => default_key(),
    }
}

/// Plays the main input under the key. Writes no status line.
pub fn run_fleet<S: Source, K: Sink>(
    alloc: Global,
    line: &Line,
    key: &mut S,
    main: &mut S,
    out: &mut K,
) -> Result<(), RunEnd>
    ensures fleet { Fleets
        (has_given OptionName.Key (map given_of line.now.settings.items))
        (has_given OptionName.Frames (map given_of line.now.settings.items))
        (before_status_over (output_of K.faults K.sent out.old out.new) (result_err result)) (IsErr result)
        (input_of S.has_ended S.faults S.idles S.left key.old key.new)
        (input_of S.has_ended S.faults S.idles S.left main.old main.new) }
    ensures unread_key { has_given OptionName.Key (map given_of line.now.settings.items) ≡ false
        → key.new ≡ key.old }
    ensures sound { ¬ IsErrOf result RunEnd.WriteFault → K.faults out.new ≡ K.faults out.old }
{
    let secret = or_default(named_key(line, key)?);
    let frames = line.has(OptionName::Frames);
    fleet(alloc, secret, frames, main, out)
}
