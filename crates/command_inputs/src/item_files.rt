// A plan as an input gives it.
ghost use Rattle.std.specs.Prelude.{◌≡◌, ◌≤◌, List, [], length, IfOk, IfErr};
ghost use Rattle.mav_ports.specs.Gets.{IsSpent};
ghost use Rattle.run_status.specs.Seen.{halted_over, input_of};
ghost use Rattle.plan_items.specs.Plans.{items_of};
ghost use Rattle.command_inputs.specs.ItemFiles.{HoldsPlan, plan_spec};

use crate::{LineTaker, add_line, read_lines};
use mav_ports::Source;
use plan_items::Plan;
use run_status::RunEnd;
use scenario_lines::LineFault;
use std::alloc::Global;
use std::marker::Model;

// The items of the lines taken so far.
#[derive(Drop)]
struct ItemLines {
    plan: Plan,
}

impl Model for ItemLines {
    ghost use Rattle.std.specs.Prelude.{List};
    ghost use Rattle.plan_items.specs.declared.items.Item.{Item};
    ghost use Rattle.plan_items.specs.Plans.{items_of};

    ghost Value = { List Item };

    ghost view = { λ lines. items_of lines.plan };
}

impl LineTaker for ItemLines {
    ghost use Rattle.command_inputs.specs.ItemFiles.{items_say};

    ghost says = { items_say };

    fn take_line(&mut self, alloc: Global, text: &[u8]) -> Result<(), LineFault> {
        add_line(alloc, &mut self.plan, text)
    }
}

impl ItemLines {
    fn new(alloc: Global) -> ItemLines
        ensures { result ≡ [] }
    {
        ItemLines {
            plan: Plan::new(alloc),
        }
    }

    fn into_plan(self) -> Plan
        ensures { items_of result ≡ self }
    {
        self.plan
    }
}

/// Reads an input to its end as lines of items, and returns the plan that they give.
pub fn read_plan<S: Source>(alloc: Global, input: &mut S) -> Result<Plan, RunEnd>
    ensures holds { IfOk result (HoldsPlan (S.has_ended input.new × IsSpent (S.left input.new))
        (S.left input.old) (S.left input.new)) }
    ensures few { IfOk result (λ plan. length (items_of plan) ≤ 2000) }
    ensures halts { IfErr result (halted_over plan_spec
        (input_of S.has_ended S.faults S.idles S.left input.old input.new)) }
{
    let mut lines = ItemLines::new(alloc);
    read_lines(alloc, input, &mut lines)?;
    Ok(lines.into_plan())
}
