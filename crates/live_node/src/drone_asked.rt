// The command `drone`, with the key that its line names.
ghost use Rattle.std.specs.Prelude.{◌≡◌, length, true, false, map, string_bytes, IsErr, IsErrOf};
ghost use Rattle.std.specs.Result.{result_err};
ghost use Rattle.command_line.specs.Forms.{has_given};
ghost use Rattle.command_line.specs.Lines.{asked_by, given_of};
ghost use Rattle.command_line.specs.Nodes.{DroneSays};
ghost use Rattle.live_node.specs.Runs.{stores_of};
ghost use Rattle.live_node.specs.DroneAsked.{Flown, devices};
ghost use Rattle.command_inputs.specs.NamedKeys.{WithGivenKey};
ghost use Rattle.run_status.specs.Seen.{input_of, output_of, before_status_over};

use crate::{DronePlan, run_drone, run_new_drone};
use command_inputs::read_given_key;
use command_line::{Line, OptionName};
use mav_links::Link;
use mav_ports::{Clock, Sink, Source};
use plan_store::Keeper;
use run_status::RunEnd;
use std::alloc::Global;

/// A store of a drone's plans.
pub type Store = Box<dyn Keeper>;

/// Runs the drone that a line asks for at the port, with the store if the line names one. Writes no status line.
pub fn run_asked_drone<S: Source, K: Sink, C: Clock>(
    alloc: Global,
    line: &Line,
    key: &mut S,
    ports: &mut Vec<Box<dyn Link>>,
    keepers: &mut Vec<Store>,
    out: &mut K,
    clock: &mut C,
) -> Result<(), RunEnd>
    requires says { DroneSays (map string_bytes line.now.words.items) line.now.ports.items line.now.system }
    requires link { length ports.old.items ≡ 1 }
    requires store { has_given OptionName.Store (map given_of line.now.settings.items) ≡ true
        → length keepers.old.items ≡ 1 }
    ensures flown { WithGivenKey
        (before_status_over (output_of K.faults K.sent out.old out.new) (result_err result)) (IsErr result)
        ((ports.new ≡ ports.old) × (keepers.new ≡ keepers.old) × (clock.new ≡ clock.old))
        (input_of S.has_ended S.faults S.idles S.left key.old key.new)
        (λ bytes. Flown (devices state
        (stores_of ⟦<Store as Keeper>⟧.faults ⟦<Store as Keeper>⟧.is_infallible ⟦<Store as Keeper>⟧.contents) C.always
        ports.old.items ports.new.items keepers.old.items keepers.new.items clock.old clock.new) (asked_by line.now)
        (output_of K.faults K.sent out.old out.new) (result_err result) bytes) }
    ensures unkept { has_given OptionName.Store (map given_of line.now.settings.items) ≡ false
        → keepers.new ≡ keepers.old }
    ensures sound { ¬ IsErrOf result RunEnd.WriteFault → K.faults out.new ≡ K.faults out.old }
    ensures not_usage { ¬ IsErrOf result RunEnd.Usage }
{
    let key = read_given_key(key)?;
    let plan = DronePlan {
        sys: line.system,
        turns: line.turns(),
    };
    if line.has(OptionName::Store) {
        run_drone(alloc, key, plan, &mut ports[0], out, clock, &mut keepers[0])
    } else {
        run_new_drone(alloc, key, plan, &mut ports[0], out, clock)
    }
}
