// A whole run of `fleet`.
ghost use Rattle.std.specs.Prelude.{◌≡◌, ◌⊎◌, false, map, string_bytes, IsErr, IsErrOf};
ghost use Rattle.std.specs.Result.{result_err};
ghost use Rattle.command_line.specs.Built.{built};
ghost use Rattle.command_line.specs.Forms.{has_given};
ghost use Rattle.command_line.specs.Grammar.{Asked, Asks};
ghost use Rattle.fleet_line.specs.Fleets.{Fleets};
ghost use Rattle.fleet_line.specs.Promised.{AskNoFleet, FleetPromises};
ghost use Rattle.run_status.specs.Seen.{input_of, output_of, before_status_over};

use crate::fleets::run_fleet;
use command_line::{Command, OptionName, WantedFault, read};
use mav_ports::{Sink, Source};
use run_status::{RunEnd, code_of, write_status};
use std::alloc::Global;

// Plays what the words name. Writes no status line.
fn run_words<S: Source, K: Sink>(
    alloc: Global,
    words: &[String],
    key: &mut S,
    main: &mut S,
    out: &mut K,
) -> Result<(), RunEnd>
    ensures fleet { (asked : Asked) → Asks built (map string_bytes words.now) asked → asked.command ≡ Command.Fleet
        → Fleets (has_given OptionName.Key asked.settings) (has_given OptionName.Frames asked.settings)
        (before_status_over (output_of K.faults K.sent out.old out.new) (result_err result)) (IsErr result)
        (input_of S.has_ended S.faults S.idles S.left key.old key.new)
        (input_of S.has_ended S.faults S.idles S.left main.old main.new) }
    ensures unread_key { (asked : Asked) → Asks built (map string_bytes words.now) asked
        → has_given OptionName.Key asked.settings ≡ false → key.new ≡ key.old }
    ensures usage { IsErrOf result RunEnd.Usage → AskNoFleet (map string_bytes words.now) }
    ensures usage_only { AskNoFleet (map string_bytes words.now)
        → IsErrOf result RunEnd.Usage ⊎ IsErrOf result RunEnd.NoMemory }
    ensures untouched { AskNoFleet (map string_bytes words.now) → (main.new ≡ main.old) × (key.new ≡ key.old) }
    ensures unsent { AskNoFleet (map string_bytes words.now) → K.sent out.new ≡ K.sent out.old }
    ensures sound { ¬ IsErrOf result RunEnd.WriteFault → K.faults out.new ≡ K.faults out.old }
{
    let line = match read(alloc, words) {
        Ok(line) => line,
        Err(WantedFault::Usage) => return Err(RunEnd::Usage),
        Err(WantedFault::NoMemory) => return Err(RunEnd::NoMemory),
    };
    match line.command {
        Command::Fleet => run_fleet(alloc, &line, key, main, out),
        _ => Err(RunEnd::Usage),
    }
}

/// Runs `fleet` as the words say, and returns its exit status, which is one of the whole program's; words of another
/// command are of none here. The words are those after the program's name.
///
/// `FleetPromises` has all that is promised of the run.
pub fn run<S: Source, K: Sink>(
    alloc: Global,
    words: &[String],
    key: &mut S,
    main: &mut S,
    out: &mut K,
) -> u8
    ensures promises { FleetPromises (map string_bytes words.now)
        (input_of S.has_ended S.faults S.idles S.left key.old key.new)
        (input_of S.has_ended S.faults S.idles S.left main.old main.new)
        (output_of K.faults K.sent out.old out.new) result }
{
    let ended = run_words(alloc, words, key, main, out);
    code_of(write_status(alloc, ended, out))
}
