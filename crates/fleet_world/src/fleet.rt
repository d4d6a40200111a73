// The nodes of a world, their key and their clock.
ghost use Rattle.std.specs.Prelude.{◌≡◌, if◌then◌else◌, ◌+◌, ◌<◌, ◌^◌, ◌++◌, ◌∷◌, Some, [], List, length, position};
ghost use Rattle.std.specs.Prelude.{option_map, slice_get, IfOk, IfErr, IfSome, OnOk};
ghost use Rattle.scenario_lines.specs.LineContext.{is_called, is_in_role};
ghost use Rattle.mav_nodes.specs.Nodes.{StationSide, new_drone, new_station, station_obeys};
ghost use Rattle.node_reports.specs.Nodes.{Node as StateNode, Drone as StateDrone, Station as StateStation, node_name};
ghost use Rattle.node_reports.specs.Calls.{as_station};
ghost use Rattle.node_reports.specs.ParamLists.{params_of};
ghost use Rattle.fleet_world.specs.WorldState.{is_named, is_drone_named, is_station_named, drones_in, stations_in};
ghost use Rattle.fleet_world.specs.WorldState.{stream_of};
ghost use Rattle.fleet_world.specs.WorldView.{no_fleet, named_in, names_in, IsFleet};
ghost use Rattle.fleet_world.specs.Steps.{location_at, location_in};
ghost use Rattle.fleet_world.specs.NodeSteps.{node_called};
ghost use Rattle.fleet_world.specs.Promises.{FleetOutcome, CallFails, HasOrdered};
ghost use Rattle.fleet_world.specs.Counts.{is_drone_view, counted};

use crate::NoMemory;
use crate::calls::Call;
use crate::locations::Location;
use crate::nodes::Node;
use crate::stored_drone::StoredDrone;
use mav_names::{Name, Stream};
use mav_nodes::{News, NodeFault, Order, OrderFault, StartFault, StationNode};
use mav_sign::{Datagram, Key};
use param_proto::Param;
use scenario_lines::{Names, Role};
use std::alloc::Global;
use std::marker::Model;

// Every node signs on link 0.
const LINK: u8 = 0;

// When a station was started, in microseconds.
const BOOT: u64 = 0;

/// The nodes in the order in which they were named.
#[derive(Drop)]
pub(crate) struct Fleet {
    alloc: Global,
    key: Key,
    pub(crate) nodes: Vec<Node>,
    clock: u64,
}

impl Model for Fleet {
    ghost use Rattle.fleet_world.specs.WorldView.{Fleet};

    ghost Value = { Fleet };

    ghost view = { λ f. record { key = f.key; nodes = f.nodes.items; clock = f.clock } };
}

/// The stream of a node.
pub(crate) fn stream(name: Name) -> Stream
    ensures { result ≡ stream_of name }
{
    Stream {
        sys: name.sys,
        comp: name.comp,
        link: LINK,
    }
}

// What a drone has to tell of an order, which is dropped where nothing else is owned.
fn no_news(alloc: Global, _order: Order) -> Vec<News> {
    Vec::new(alloc)
}

// 1 for a drone.
fn drone_count(node: &Node) -> usize
    ensures { result ≡ (if is_drone_view node.now then 1 else 0) }
{
    match node {
        Node::Drone(_) => 1,
        Node::Station { .. } => 0,
    }
}

fn count_drones(nodes: &[Node]) -> usize
    ensures { result ≡ counted is_drone_view nodes.now }
{
    let mut count = 0;
    for node in nodes {
        count += drone_count(node);
    }
    count
}

// The index of the first node of this name. It is a loop, since a closure over a node would be three functions to
// prove.
fn first_called(nodes: &[Node], name: Name) -> Option<usize>
    ensures found { result ≡ position (λ node. is_called name (named_in node)) nodes.now }
    ensures within { IfSome result (λ index. index < length nodes.now) }
{
    for index in 0..nodes.len() {
        if nodes[index].is_called(name) {
            return Some(index);
        }
    }
    None
}

// The index of the first node of this name in this role.
fn first_in_role(nodes: &[Node], role: Role, name: Name) -> Option<usize>
    ensures found { result ≡ position (λ node. is_in_role role name (named_in node)) nodes.now }
    ensures within { IfSome result (λ index. index < length nodes.now) }
{
    for index in 0..nodes.len() {
        if nodes[index].is_in_role(role, name) {
            return Some(index);
        }
    }
    None
}

impl Names for Fleet {
    ghost known = { λ fleet. names_in fleet.nodes };

    fn has_name(&self, name: Name) -> bool {
        first_called(&self.nodes, name).is_some()
    }

    fn has_in_role(&self, role: Role, name: Name) -> bool {
        first_in_role(&self.nodes, role, name).is_some()
    }
}

impl Fleet {
    pub(crate) fn new(alloc: Global, key: Key) -> Fleet
        ensures { result ≡ no_fleet key }
    {
        Fleet {
            alloc,
            key,
            nodes: Vec::new(alloc),
            clock: 0,
        }
    }

    pub(crate) fn key(&self) -> Key
        ensures { result ≡ self.now.key }
    {
        self.key
    }

    pub(crate) fn clock(&self) -> u64
        ensures { result ≡ self.now.clock }
    {
        self.clock
    }

    /// The clock goes up.
    pub(crate) fn advance(&mut self, by: u64)
        requires { self.old.clock + by < 2 ^ 64 }
        ensures { self.new ≡ record self.old { clock = self.old.clock + by } }
    {
        self.clock += by;
    }

    /// A drone of this system is added, at x and y in units of 1e-7 degrees.
    pub(crate) fn add_drone(&mut self, sys: u8, x: i32, y: i32) -> Result<(), StartFault>
        ensures joins { OnOk result ((nodes : List StateNode) → IsFleet nodes self.old
            → IsFleet (nodes ++ StateDrone (new_drone self.old.key sys (record { x = x; y = y })) ∷ []) self.new) }
        ensures kept { OnOk result (self.new ≡ record self.old { nodes = self.new.nodes }) }
        ensures fault { IfErr result (λ fault. fault ≡ StartFault.NoMemory) }
    {
        let drone = StoredDrone::start(self.alloc, self.key, sys, x, y)?;
        self.nodes.push(Node::Drone(drone))?;
        Ok(())
    }

    /// A station of this name is added.
    pub(crate) fn add_station(&mut self, name: Name) -> Result<(), NoMemory>
        ensures joins { OnOk result ((nodes : List StateNode) → IsFleet nodes self.old
            → IsFleet (nodes ++ StateStation (new_station self.old.key (stream_of name) 0) ∷ []) self.new) }
        ensures kept { OnOk result (self.new ≡ record self.old { nodes = self.new.nodes }) }
    {
        let node = StationNode::new(self.alloc, self.key, stream(name), BOOT)?;
        self.nodes.push(Node::Station { name, node })?;
        Ok(())
    }

    /// The name of the node at an index.
    pub(crate) fn name_at(&self, index: usize) -> Name
        requires { index < length self.now.nodes }
        ensures { (nodes : List StateNode) → IsFleet nodes self.now
            → Some result ≡ option_map node_name (slice_get nodes index) }
    {
        self.nodes[index].named().name
    }

    // The node at an index does what it is asked.
    pub(crate) fn call_at(
        &mut self,
        index: usize,
        call: &Call,
        datagram: &Datagram<'_>,
    ) -> Result<Vec<News>, NodeFault>
        requires { index < length self.old.nodes }
        ensures done { IfOk result (λ news. (nodes : List StateNode) → IsFleet nodes self.old
            → FleetOutcome nodes index (slice_get nodes index)
            (node_called call.now datagram.now self.old.clock) self.new news.items) }
        ensures fault { IfErr result (λ fault. (nodes : List StateNode) → IsFleet nodes self.old
            → CallFails fault (slice_get nodes index) (node_called call.now datagram.now self.old.clock)) }
        ensures kept { self.new ≡ record self.old { nodes = self.new.nodes } }
        ensures count { length self.new.nodes ≡ length self.old.nodes }
    {
        self.nodes[index].call(self.alloc, call, datagram, self.clock)
    }

    // The station at an index follows an order, or refuses it; a drone does nothing.
    pub(crate) fn order_at(&mut self, index: usize, order: Order) -> Result<Vec<News>, OrderFault>
        requires { index < length self.old.nodes }
        ensures ordered { HasOrdered self.old index order result self.new }
        ensures count { length self.new.nodes ≡ length self.old.nodes }
    {
        let Node::Station { node, .. } = &mut self.nodes[index] else {
            return Ok(no_news(self.alloc, order));
        };
        node.order(order, self.clock)
    }

    /// The values of the latest list of parameters of the station at an index.
    pub(crate) fn params_at(&self, index: usize) -> &[Param]
        requires { index < length self.now.nodes }
        ensures { (nodes : List StateNode) → IsFleet nodes self.now → result.now ≡ params_of (slice_get nodes index) }
    {
        self.nodes[index].params()
    }

    /// The index of the node of a name.
    pub(crate) fn index_of(&self, name: Name) -> Option<usize>
        ensures found { (nodes : List StateNode) → IsFleet nodes self.now → result ≡ position (is_named name) nodes }
        ensures within { IfSome result (λ index. index < length self.now.nodes) }
    {
        first_called(&self.nodes, name)
    }

    /// The index of the drone of a name.
    pub(crate) fn index_of_drone(&self, name: Name) -> Option<usize>
        ensures found { (nodes : List StateNode) → IsFleet nodes self.now
            → result ≡ position (is_drone_named name) nodes }
        ensures within { IfSome result (λ index. index < length self.now.nodes) }
    {
        first_in_role(&self.nodes, Role::Drone, name)
    }

    /// The index of the station of a name.
    pub(crate) fn index_of_station(&self, name: Name) -> Option<usize>
        ensures found { (nodes : List StateNode) → IsFleet nodes self.now
            → result ≡ position (is_station_named name) nodes }
        ensures within { IfSome result (λ index. index < length self.now.nodes) }
    {
        first_in_role(&self.nodes, Role::Station, name)
    }

    // Where the drone at an index is.
    fn location_at(&self, index: usize) -> Option<Location>
        requires { index < length self.now.nodes }
        ensures { (nodes : List StateNode) → IsFleet nodes self.now → result ≡ location_at (slice_get nodes index) }
    {
        self.nodes[index].location()
    }

    /// Where the drone of a name is, if there is one.
    pub(crate) fn location_of(&self, drone: Name) -> Option<Location>
        ensures { (nodes : List StateNode) → IsFleet nodes self.now → result ≡ location_in nodes drone }
    {
        match self.index_of_drone(drone) {
            Some(index) => self.location_at(index),
            None => None,
        }
    }

    pub(crate) fn len(&self) -> usize
        ensures { result ≡ length self.now.nodes }
    {
        self.nodes.len()
    }

    /// How many drones there are.
    pub(crate) fn drones(&self) -> usize
        ensures { (nodes : List StateNode) → IsFleet nodes self.now → result ≡ drones_in nodes }
    {
        count_drones(&self.nodes)
    }

    /// How many stations there are.
    pub(crate) fn stations(&self) -> usize
        ensures { (nodes : List StateNode) → IsFleet nodes self.now → result ≡ stations_in nodes }
    {
        self.nodes.len().saturating_sub(self.drones())
    }
}
