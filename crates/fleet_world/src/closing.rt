// What the end of a scenario reports.
ghost use Rattle.std.specs.Prelude.{◌≡◌, ◌<◌, ◌++◌, List, OnOk, length, slice_get};
ghost use Rattle.fleet_report.specs.Events.{plan_text};
ghost use Rattle.fleet_report.specs.Reports.{with_text};
ghost use Rattle.node_reports.specs.Nodes.{Node as StateNode};
ghost use Rattle.fleet_world.specs.WorldView.{IsNode, IsFleet};
ghost use Rattle.fleet_world.specs.Closing.{closing_at};
ghost use Rattle.fleet_world.specs.Steps.{closing_of, closing_text};

use crate::NoMemory;
use crate::fleet::Fleet;
use crate::nodes::Node;
use fleet_report::Report;
use mav_names::Name;
use plan_items::PlanKind;
use plan_upload::Drone;

// The plans of a drone.
fn put_plans(report: &mut Report, name: Name, drone: &Drone) -> Result<(), NoMemory>
    ensures { OnOk result (report.new ≡ with_text report.old (plan_text name 0 drone.now.plans.mission
        ++ plan_text name 1 drone.now.plans.fence ++ plan_text name 2 drone.now.plans.rally)) }
{
    report.plan(name, PlanKind::Mission, drone.plan(PlanKind::Mission))?;
    report.plan(name, PlanKind::Fence, drone.plan(PlanKind::Fence))?;
    report.plan(name, PlanKind::Rally, drone.plan(PlanKind::Rally))
}

// What the end reports of a node.
fn close_node(node: &Node, report: &mut Report) -> Result<(), NoMemory>
    ensures { OnOk result ((one : StateNode) → IsNode one node.now
        → report.new ≡ with_text report.old (closing_of one)) }
{
    match node {
        Node::Drone(drone) => put_plans(report, node.named().name, drone.plans()),
        Node::Station { .. } => Ok(()),
    }
}

impl Fleet {
    // The plans of the node at an index, if it is a drone.
    fn close_at(&self, index: usize, report: &mut Report) -> Result<(), NoMemory>
        requires { index < length self.now.nodes }
        ensures { OnOk result ((nodes : List StateNode) → IsFleet nodes self.now
            → report.new ≡ with_text report.old (closing_at (slice_get nodes index))) }
    {
        close_node(&self.nodes[index], report)
    }

    /// The plans of each drone in the order in which they were named.
    pub(crate) fn close(&self, report: &mut Report) -> Result<(), NoMemory>
        ensures { OnOk result ((nodes : List StateNode) → IsFleet nodes self.now
            → report.new ≡ with_text report.old (closing_text nodes)) }
    {
        for index in 0..self.len() {
            self.close_at(index, report)?;
        }
        Ok(())
    }
}
