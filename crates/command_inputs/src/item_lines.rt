// What one line of a file adds to a plan.
ghost use Rattle.std.specs.Prelude.{◌≡◌, ◌++◌, [], length, Some, None, OnOk, IfErr};
ghost use Rattle.plan_items.specs.Plans.{items_of};
ghost use Rattle.scenario_lines.specs.LineContext.{context_of};
ghost use Rattle.scenario_lines.specs.Permits.{IsPermitted};
ghost use Rattle.scenario_lines.specs.Faults.{IfBad};
ghost use Rattle.scenario_lines.specs.Grammar.{line_of};
ghost use Rattle.scenario_lines.specs.Reasons.{item_reason_against};
ghost use Rattle.command_inputs.specs.ItemFiles.{items_in};

use plan_items::{NoMemory, Plan};
use scenario_lines::{Line, LineFault, put_items, read_item_line};
use std::alloc::Global;

/// Adds the items of a line, which may be blank, or says what is wrong with it. A plan has at most 2,000 items.
pub fn add_line(alloc: Global, plan: &mut Plan, text: &[u8]) -> Result<(), LineFault>
    ensures ok { OnOk result ((item_reason_against (length (items_of plan.old)) text.now ≡ None)
        × (items_of plan.new ≡ items_of plan.old ++ items_in (line_of text.now))) }
    ensures bad { IfErr result (λ e. IfBad e
        (λ r. item_reason_against (length (items_of plan.old)) text.now ≡ Some r)) }
{
    match read_item_line(alloc, plan.len(), text) {
        Ok(line) => match add(plan, line) {
            Ok(()) => Ok(()),
            Err(_) => Err(LineFault::NoMemory),
        },
        Err(fault) => Err(fault),
    }
}

// Adds the items of a line that may stand after those of the plan.
fn add(plan: &mut Plan, line: Line) -> Result<(), NoMemory>
    requires { IsPermitted (context_of [] (length (items_of plan.old)) 0) line }
    ensures { OnOk result (items_of plan.new ≡ items_of plan.old ++ items_in line) }
{
    match line {
        Line::Item { item } => plan.push(item),
        Line::Items { n, first } => put_items(plan, n, first),
        _ => Ok(()),
    }
}
