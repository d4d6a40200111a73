// A node, whichever it is.
ghost use Rattle.std.specs.Prelude.{◌≡◌, None, Some, [], IfOk, IfErr};
ghost use Rattle.mav_nodes.specs.Nodes.{StationSide, station_obeys};
ghost use Rattle.node_reports.specs.Nodes.{Node as StateNode, Station as StateStation};
ghost use Rattle.node_reports.specs.Calls.{as_station};
ghost use Rattle.node_reports.specs.ParamLists.{params_of};
ghost use Rattle.scenario_lines.specs.LineContext.{is_called, is_in_role};
ghost use Rattle.fleet_world.specs.StoredDrones.{FailsBy};
ghost use Rattle.fleet_world.specs.WorldView.{IsNode, named_in};
ghost use Rattle.fleet_world.specs.Steps.{location_of};
ghost use Rattle.fleet_world.specs.NodeSteps.{node_called};
ghost use Rattle.fleet_world.specs.Promises.{NodeOutcome};

use crate::calls::Call;
use crate::locations::Location;
use crate::stored_drone::StoredDrone;
use mav_names::{Name, drone_name};
use mav_nodes::{News, NodeFault, Order, OrderFault, StationNode};
use mav_sign::Datagram;
use param_proto::Param;
use scenario_lines::{Named, Role};
use std::alloc::Global;

#[derive(Drop)]
pub enum Node {
    Drone(StoredDrone),
    Station { name: Name, node: StationNode },
}

impl Node {
    /// Its role and its name.
    pub(crate) fn named(&self) -> Named
        ensures { result ≡ named_in self.now }
    {
        match self {
            Node::Drone(drone) => Named {
                role: Role::Drone,
                name: drone_name(drone.plans().sys()),
            },
            Node::Station { name, .. } => Named {
                role: Role::Station,
                name: *name,
            },
        }
    }

    /// Whether it has this name, in any role.
    pub(crate) fn is_called(&self, name: Name) -> bool
        ensures { result ≡ is_called name (named_in self.now) }
    {
        self.named().is_called(name)
    }

    /// Whether it has this name in this role.
    pub(crate) fn is_in_role(&self, role: Role, name: Name) -> bool
        ensures { result ≡ is_in_role role name (named_in self.now) }
    {
        self.named().is_in_role(role, name)
    }

    /// Does what it is asked: takes a datagram, sends HEARTBEAT, lets time pass, flies, or starts again.
    pub(crate) fn call(
        &mut self,
        alloc: Global,
        call: &Call,
        datagram: &Datagram<'_>,
        clock: u64,
    ) -> Result<Vec<News>, NodeFault>
        ensures done { IfOk result (λ news. (node : StateNode) → IsNode node self.old
            → NodeOutcome (node_called call.now datagram.now clock node) self.new news.items) }
        ensures fault { IfErr result (λ fault. (node : StateNode) → IsNode node self.old
            → FailsBy fault (node_called call.now datagram.now clock node)) }
    {
        match (self, call) {
            (Node::Drone(drone), Call::Take(_)) => drone.receive(datagram, clock),
            (Node::Drone(drone), Call::Noise(_)) => drone.receive(datagram, clock),
            (Node::Drone(drone), Call::Heartbeat) => drone.heartbeat(clock),
            (Node::Drone(drone), Call::Tick) => drone.tick(clock),
            (Node::Drone(drone), Call::Sim) => drone.sim(clock),
            (Node::Drone(drone), Call::Restart(key)) => drone.restart(alloc, *key, clock),
            (Node::Station { node, .. }, Call::Take(_)) => node.receive(datagram, clock),
            (Node::Station { node, .. }, Call::Noise(_)) => node.receive(datagram, clock),
            (Node::Station { node, .. }, Call::Heartbeat) => node.heartbeat(clock),
            (Node::Station { node, .. }, Call::Tick) => node.tick(clock),
            (Node::Station { .. }, Call::Sim) => Ok(Vec::new(alloc)),
            (Node::Station { .. }, Call::Restart(_)) => Ok(Vec::new(alloc)),
        }
    }

    /// Where a drone is; a station has no location.
    pub(crate) fn location(&self) -> Option<Location>
        ensures { (node : StateNode) → IsNode node self.now → result ≡ location_of node }
    {
        match self {
            Node::Drone(drone) => Some(drone.location()),
            Node::Station { .. } => None,
        }
    }

    /// The values of a station's latest list of parameters; a drone lists none.
    pub(crate) fn params(&self) -> &[Param]
        ensures { (node : StateNode) → IsNode node self.now → result.now ≡ params_of (Some node) }
    {
        match self {
            Node::Drone(_) => &[],
            Node::Station { node, .. } => node.params(),
        }
    }
}
