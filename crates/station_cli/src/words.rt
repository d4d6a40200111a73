// What the words ask to be made.
ghost use Rattle.std.specs.Prelude.{◌⊎◌, IfOk, IsErrOf, map, string_bytes};
ghost use Rattle.command_line.specs.Built.{built};
ghost use Rattle.command_line.specs.Grammar.{AskNothing};
ghost use Rattle.station_cli.specs.Wants.{Wants};

use crate::wants::Wanted;
use command_line::{OptionName, WantedFault, read};
use std::alloc::Global;

/// What the words after the program's name ask for.
pub fn wanted(alloc: Global, words: &[String]) -> Result<Wanted, WantedFault>
    ensures wants { IfOk result (Wants (map string_bytes words.now)) }
    ensures usage { IsErrOf result WantedFault.Usage
        → AskNothing built (map string_bytes words.now) }
    ensures usage_only { AskNothing built (map string_bytes words.now)
        → IsErrOf result WantedFault.Usage ⊎ IsErrOf result WantedFault.NoMemory }
{
    let line = read(alloc, words)?;
    Ok(Wanted {
        main: line.main(alloc)?,
        defs: line.value(alloc, OptionName::Defs)?,
        key: line.value(alloc, OptionName::Key)?,
        store: line.value(alloc, OptionName::Store)?,
        keepers: u8::from(line.has(OptionName::Store)),
        ports: line.into_ports(),
    })
}
