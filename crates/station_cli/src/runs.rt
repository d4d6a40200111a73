// The top call.
ghost use Rattle.std.specs.Prelude.{◌≡◌, ◌⊎◌, length, IsErrOf, map, string_bytes};
ghost use Rattle.command_line.specs.Built.{built};
ghost use Rattle.command_line.specs.Forms.{Fits};
ghost use Rattle.command_line.specs.Grammar.{Asked, Asks, AskNothing};
ghost use Rattle.command_line.specs.Lines.{given_of, asked_by, LineSays};
ghost use Rattle.command_line.specs.Nodes.{NodeSays};
ghost use Rattle.live_node.specs.Runs.{stores_of};
ghost use Rattle.station_cli.specs.Doing.{Does, LeavesAlone, before_status, surroundings};
ghost use Rattle.station_cli.specs.Promised.{RunPromises};
ghost use Rattle.station_cli.specs.Wants.{AreAsked, AreThere, keepers_asked};
ghost use Rattle.run_status.specs.Seen.{output_of};

use crate::making::run_make;
use command_inputs::Inputs;
use command_line::{Command, Line, OptionName, Task, WantedFault, read};
use decode_command::run_decode;
use dialect_command::run_dialect;
use fence_command::fence;
use fleet_line::run_fleet;
use live_node::{Store, run_asked_drone, run_asked_station};
use mav_links::Link;
use mav_log::run_log;
use mav_ports::{Clock, Sink, Source};
use plan_store::Keeper;
use route_command::{Router, SingleThread, Threaded, run_route};
use run_status::{RunEnd, code_of, write_status};
use std::alloc::Global;
use std::sync::Wait;
use std::thread::Threads;

// Runs the command of a line, `route` by this router; a station takes the task. Writes no status line.
fn run_line<T: Router, S: Source, K: Sink, C: Clock>(
    router: &T,
    alloc: Global,
    line: &Line,
    task: &mut Option<Task>,
    inputs: &mut Inputs<S>,
    ports: &mut Vec<Box<dyn Link>>,
    keepers: &mut Vec<Store>,
    out: &mut K,
    clock: &mut C,
) -> Result<(), RunEnd>
    requires ready { T.ready }
    requires fits { Fits built line.now.command (map given_of line.now.settings.items)
        (map string_bytes line.now.words.items) }
    requires says { LineSays line.now }
    requires node { NodeSays line.now.command
        (map string_bytes line.now.words.items) line.now.ports.items line.now.system task.old }
    requires links { AreAsked (length ports.old.items) (asked_by line.now) }
    requires stores { length keepers.old.items ≡ keepers_asked (asked_by line.now) }
    ensures does { Does (before_status (output_of K.faults K.sent out.old out.new) result)
        (surroundings S.has_ended S.faults S.idles S.left state
        (stores_of ⟦<Store as Keeper>⟧.faults ⟦<Store as Keeper>⟧.is_infallible ⟦<Store as Keeper>⟧.contents) C.always
        inputs.old inputs.new ports.old ports.new keepers.old keepers.new clock.old clock.new)
        (asked_by line.now) line.now.command }
    ensures leaves_alone { LeavesAlone
        (surroundings S.has_ended S.faults S.idles S.left state
        (stores_of ⟦<Store as Keeper>⟧.faults ⟦<Store as Keeper>⟧.is_infallible ⟦<Store as Keeper>⟧.contents) C.always
        inputs.old inputs.new ports.old ports.new keepers.old keepers.new clock.old clock.new) (asked_by line.now) }
    ensures sound { ¬ IsErrOf result RunEnd.WriteFault → K.faults out.new ≡ K.faults out.old }
    ensures not_usage { ¬ IsErrOf result RunEnd.Usage }
{
    match line.command {
        Command::Fleet => run_fleet(alloc, line, &mut inputs.key, &mut inputs.main, out),
        Command::Dialect => {
            run_dialect(alloc, line.has(OptionName::Defs), &mut inputs.defs, out)
        }
        Command::Decode => run_decode(alloc, line, inputs, out),
        Command::Route => run_route(router, alloc, line, inputs, ports, out),
        Command::Make => run_make(alloc, line, out),
        Command::Fence => fence(alloc, &mut inputs.main, out),
        Command::LogShow => run_log(alloc, line, inputs, out),
        Command::LogFilter => run_log(alloc, line, inputs, out),
        Command::LogMake => run_log(alloc, line, inputs, out),
        Command::Drone => run_asked_drone(alloc, line, &mut inputs.key, ports, keepers, out, clock),
        Command::Station => match task.take() {
            Some(task) => run_asked_station(alloc, line, task, inputs, ports, keepers, out, clock),
            None => unreachable!("a station has a task"),
        },
    }
}

// Runs the command that the words name. Writes no status line.
fn run_words<T: Router, S: Source, K: Sink, C: Clock>(
    router: &T,
    alloc: Global,
    words: &[String],
    inputs: &mut Inputs<S>,
    ports: &mut Vec<Box<dyn Link>>,
    keepers: &mut Vec<Store>,
    out: &mut K,
    clock: &mut C,
) -> Result<(), RunEnd>
    requires ready { T.ready }
    requires asked { AreThere (map string_bytes words.now) (length ports.old.items) (length keepers.old.items) }
    ensures does { (asked : Asked) → Asks built (map string_bytes words.now) asked
        → Does (before_status (output_of K.faults K.sent out.old out.new) result)
        (surroundings S.has_ended S.faults S.idles S.left state
        (stores_of ⟦<Store as Keeper>⟧.faults ⟦<Store as Keeper>⟧.is_infallible ⟦<Store as Keeper>⟧.contents) C.always
        inputs.old inputs.new ports.old ports.new keepers.old keepers.new clock.old clock.new)
        asked asked.command }
    ensures leaves_alone { (asked : Asked) → Asks built (map string_bytes words.now) asked → LeavesAlone
        (surroundings S.has_ended S.faults S.idles S.left state
        (stores_of ⟦<Store as Keeper>⟧.faults ⟦<Store as Keeper>⟧.is_infallible ⟦<Store as Keeper>⟧.contents) C.always
        inputs.old inputs.new ports.old ports.new keepers.old keepers.new clock.old clock.new) asked }
    ensures usage { IsErrOf result RunEnd.Usage → AskNothing built (map string_bytes words.now) }
    ensures usage_only { AskNothing built (map string_bytes words.now)
        → IsErrOf result RunEnd.Usage ⊎ IsErrOf result RunEnd.NoMemory }
    ensures untouched { AskNothing built (map string_bytes words.now)
        → (inputs.new.main ≡ inputs.old.main) × (inputs.new.defs ≡ inputs.old.defs)
        × (inputs.new.key ≡ inputs.old.key) × (ports.new ≡ ports.old) × (keepers.new ≡ keepers.old)
        × (clock.new ≡ clock.old) }
    ensures unsent { AskNothing built (map string_bytes words.now) → K.sent out.new ≡ K.sent out.old }
    ensures sound { ¬ IsErrOf result RunEnd.WriteFault → K.faults out.new ≡ K.faults out.old }
{
    let mut line = match read(alloc, words) {
        Ok(line) => line,
        Err(WantedFault::Usage) => return Err(RunEnd::Usage),
        Err(WantedFault::NoMemory) => return Err(RunEnd::NoMemory),
    };
    let mut task = line.task.take();
    run_line(
        router, alloc, &line, &mut task, inputs, ports, keepers, out, clock,
    )
}

// Runs the command that the words name, `route` by this router, and returns its exit status.
fn run_by<T: Router, S: Source, K: Sink, C: Clock>(
    router: &T,
    alloc: Global,
    words: &[String],
    inputs: &mut Inputs<S>,
    out: &mut K,
    clock: &mut C,
    ports: &mut Vec<Box<dyn Link>>,
    keepers: &mut Vec<Store>,
) -> u8
    requires ready { T.ready }
    requires asked { AreThere (map string_bytes words.now) (length ports.old.items) (length keepers.old.items) }
    ensures promises { RunPromises (map string_bytes words.now)
        (surroundings S.has_ended S.faults S.idles S.left state
        (stores_of ⟦<Store as Keeper>⟧.faults ⟦<Store as Keeper>⟧.is_infallible ⟦<Store as Keeper>⟧.contents) C.always
        inputs.old inputs.new ports.old ports.new keepers.old keepers.new clock.old clock.new)
        (output_of K.faults K.sent out.old out.new) result }
{
    let ended = run_words(router, alloc, words, inputs, ports, keepers, out, clock);
    code_of(write_status(alloc, ended, out))
}

/// Runs the command that the words name, and returns its exit status. The words are those after
/// the program's name. A `route` without `--one` runs with a thread for each port.
///
/// 0 done, 2 `usage`, 3 `bad PLACE: REASON`, 4 `read fault`, 5 a write failed, 6 `limit WHAT N`,
/// 7 out of memory, 8 `refused CODE`, 9 `no answer N`, 10 `store fault`, 11 `turns spent N`, 12 `port fault`,
/// 13 `stamps spent`. The text of a status is the last line of the output.
///
/// `RunPromises` has all that is promised of the run, and `Does` what each command does.
pub fn run<R: Threads + Wait + Sync, S: Source, K: Sink, C: Clock>(
    rt: &R,
    alloc: Global,
    words: &[String],
    inputs: &mut Inputs<S>,
    out: &mut K,
    clock: &mut C,
    ports: &mut Vec<Box<dyn Link>>,
    keepers: &mut Vec<Store>,
) -> u8
    // There are as many links as the words name ports, and as many stores as they name.
    requires { AreThere (map string_bytes words.now) (length ports.old.items) (length keepers.old.items) }
    ensures promises { RunPromises (map string_bytes words.now)
        (surroundings S.has_ended S.faults S.idles S.left state
        (stores_of ⟦<Store as Keeper>⟧.faults ⟦<Store as Keeper>⟧.is_infallible ⟦<Store as Keeper>⟧.contents) C.always
        inputs.old inputs.new ports.old ports.new keepers.old keepers.new clock.old clock.new)
        (output_of K.faults K.sent out.old out.new) result }
{
    run_by(
        &Threaded { rt },
        alloc,
        words,
        inputs,
        out,
        clock,
        ports,
        keepers,
    )
}

/// The same on the caller's thread alone: a `route` without `--one` runs as one with it.
pub fn run_alone<S: Source, K: Sink, C: Clock>(
    alloc: Global,
    words: &[String],
    inputs: &mut Inputs<S>,
    out: &mut K,
    clock: &mut C,
    ports: &mut Vec<Box<dyn Link>>,
    keepers: &mut Vec<Store>,
) -> u8
    requires { AreThere (map string_bytes words.now) (length ports.old.items) (length keepers.old.items) }
    ensures promises { RunPromises (map string_bytes words.now)
        (surroundings S.has_ended S.faults S.idles S.left state
        (stores_of ⟦<Store as Keeper>⟧.faults ⟦<Store as Keeper>⟧.is_infallible ⟦<Store as Keeper>⟧.contents) C.always
        inputs.old inputs.new ports.old ports.new keepers.old keepers.new clock.old clock.new)
        (output_of K.faults K.sent out.old out.new) result }
{
    run_by(
        &SingleThread,
        alloc,
        words,
        inputs,
        out,
        clock,
        ports,
        keepers,
    )
}
