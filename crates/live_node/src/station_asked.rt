// The command `station`, with the key and the file that its line names.
ghost use Rattle.std.specs.Prelude.{◌≡◌, length, Some, false, map, string_bytes, IsErr, IsErrOf, IfOk, IfErr, List, ℕ};
ghost use Rattle.std.specs.Result.{result_err};
ghost use Rattle.std.specs.declared.option.Option.{Option};
ghost use Rattle.command_line.specs.Forms.{has_given};
ghost use Rattle.command_line.specs.Lines.{asked_by, given_of};
ghost use Rattle.command_line.specs.Nodes.{StationSays};
ghost use Rattle.command_line.specs.OperationTexts.{is_on_files};
ghost use Rattle.live_node.specs.Runs.{stores_of};
ghost use Rattle.live_node.specs.DroneAsked.{devices};
ghost use Rattle.live_node.specs.OrderWords.{contents_of};
ghost use Rattle.live_node.specs.StationAsked.{Stationed, Stationing, Of_items, Of_bytes, sort_of, file_asked};
ghost use Rattle.live_node.specs.StationAsked.{HaltsAt, ContentsAre};
ghost use Rattle.run_status.specs.Seen.{input_of, output_of, before_status_over};

use crate::order_words::{Contents, order_of};
use crate::{StationPlan, Store, run_station};
use command_inputs::{Inputs, read_file, read_given_key, read_plan};
use command_line::{Line, OptionName, Task};
use mav_links::Link;
use mav_names::drone_stream;
use mav_ports::{Clock, Sink, Source};
use plan_items::Plan;
use plan_store::Keeper;
use run_status::RunEnd;
use std::alloc::Global;

// A station may read its port so often.
const TURNS: u64 = 1_000_000;

// The items of a file.
fn items_in<S: Source>(alloc: Global, file: &mut S) -> Result<Contents, RunEnd>
    ensures are { IfOk result (λ contents. ContentsAre Of_items
        (input_of S.has_ended S.faults S.idles S.left file.old file.new) (contents_of contents)) }
    ensures halts { IfErr result (λ run_end. (refusals : ℕ) (sent : Option (List ℕ))
        → HaltsAt Of_items (before_status_over
        (record { refusals_before = refusals; refusals_after = refusals; sent_before = sent; sent_after = sent })
        (Some run_end)) (input_of S.has_ended S.faults S.idles S.left file.old file.new)) }
    ensures not_usage { ¬ IsErrOf result RunEnd.Usage }
{
    match read_plan(alloc, file) {
        Ok(plan) => Ok(Contents {
            plan,
            bytes: Vec::new(alloc),
        }),
        Err(run_end) => Err(run_end),
    }
}

// Its bytes.
fn bytes_in<S: Source>(alloc: Global, file: &mut S) -> Result<Contents, RunEnd>
    ensures are { IfOk result (λ contents. ContentsAre Of_bytes
        (input_of S.has_ended S.faults S.idles S.left file.old file.new) (contents_of contents)) }
    ensures halts { IfErr result (λ run_end. (refusals : ℕ) (sent : Option (List ℕ))
        → HaltsAt Of_bytes (before_status_over
        (record { refusals_before = refusals; refusals_after = refusals; sent_before = sent; sent_after = sent })
        (Some run_end)) (input_of S.has_ended S.faults S.idles S.left file.old file.new)) }
    ensures not_usage { ¬ IsErrOf result RunEnd.Usage }
{
    match read_file(alloc, file) {
        Ok(bytes) => Ok(Contents {
            plan: Plan::new(alloc),
            bytes,
        }),
        Err(run_end) => Err(run_end),
    }
}

// The contents of the file that the line names; none if it names none.
fn read_contents<S: Source>(
    alloc: Global,
    line: &Line,
    task: &Task,
    file: &mut S,
) -> Result<Contents, RunEnd>
    ensures are { IfOk result (λ contents. ContentsAre
        (sort_of (has_given OptionName.File (map given_of line.now.settings.items)) (is_on_files task.now.operation))
        (input_of S.has_ended S.faults S.idles S.left file.old file.new) (contents_of contents)) }
    ensures halts { IfErr result (λ run_end. (refusals : ℕ) (sent : Option (List ℕ))
        → HaltsAt (sort_of (has_given OptionName.File (map given_of line.now.settings.items))
        (is_on_files task.now.operation)) (before_status_over
        (record { refusals_before = refusals; refusals_after = refusals; sent_before = sent; sent_after = sent })
        (Some run_end)) (input_of S.has_ended S.faults S.idles S.left file.old file.new)) }
    ensures unread { has_given OptionName.File (map given_of line.now.settings.items) ≡ false → file.new ≡ file.old }
    ensures not_usage { ¬ IsErrOf result RunEnd.Usage }
{
    if !line.has(OptionName::File) {
        return Ok(Contents {
            plan: Plan::new(alloc),
            bytes: Vec::new(alloc),
        });
    }
    if task.operation.is_on_files() {
        bytes_in(alloc, file)
    } else {
        items_in(alloc, file)
    }
}

/// Runs the station that a line asks for at the port. Writes no status line.
pub fn run_asked_station<S: Source, K: Sink, C: Clock>(
    alloc: Global,
    line: &Line,
    task: Task,
    inputs: &mut Inputs<S>,
    ports: &mut Vec<Box<dyn Link>>,
    keepers: &Vec<Store>,
    out: &mut K,
    clock: &mut C,
) -> Result<(), RunEnd>
    requires says { StationSays (map string_bytes line.now.words.items) line.now.ports.items line.now.system task }
    requires link { length ports.old.items ≡ 1 }
    ensures stationed { Stationing
        (before_status_over (output_of K.faults K.sent out.old out.new) (result_err result)) (IsErr result)
        ((ports.new ≡ ports.old) × (keepers.now ≡ keepers.now) × (clock.new ≡ clock.old))
        (file_asked (asked_by line.now))
        (input_of S.has_ended S.faults S.idles S.left inputs.old.key inputs.new.key)
        (input_of S.has_ended S.faults S.idles S.left inputs.old.main inputs.new.main)
        (λ bytes contents. Stationed (devices state
        (stores_of ⟦<Store as Keeper>⟧.faults ⟦<Store as Keeper>⟧.is_infallible ⟦<Store as Keeper>⟧.contents) C.always
        ports.old.items ports.new.items keepers.now.items keepers.now.items clock.old clock.new) (asked_by line.now)
        (output_of K.faults K.sent out.old out.new) (result_err result) bytes contents) }
    ensures unread_defs { inputs.new.defs ≡ inputs.old.defs }
    ensures unread_main { has_given OptionName.File (map given_of line.now.settings.items) ≡ false
        → inputs.new.main ≡ inputs.old.main }
    ensures sound { ¬ IsErrOf result RunEnd.WriteFault → K.faults out.new ≡ K.faults out.old }
    ensures not_usage { ¬ IsErrOf result RunEnd.Usage }
{
    let key = read_given_key(&mut inputs.key)?;
    let contents = read_contents(alloc, line, &task, &mut inputs.main)?;
    let plan = StationPlan {
        sys: line.system,
        comp: task.component,
        ticks: line.ticks(),
        turns: TURNS,
    };
    let order = order_of(task.operation, drone_stream(task.drone), contents);
    run_station(alloc, key, plan, order, &mut ports[0], out, clock)
}
