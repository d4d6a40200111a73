// A drone of a scenario, over a store in memory that never fails.
ghost use Rattle.std.specs.Prelude.{◌≡◌, [], IfOk, IfErr, OnOk};
ghost use Rattle.mav_nodes.specs.Nodes.{DroneSide, new_drone, drone_receives, drone_ticks, drone_sims, drone_beats};
ghost use Rattle.fleet_world.specs.Steps.{drone_location};
ghost use Rattle.mav_nodes.specs.Promises.{Did};
ghost use Rattle.mav_nodes.specs.Restarts.{restarted_drone, drone_restarts};
ghost use Rattle.fleet_world.specs.StoredDrones.{IsStoredDrone, FailsBy};

use crate::locations::Location;
use mav_nodes::{DroneNode, News, NodeFault, StartFault};
use mav_sign::{Datagram, Key};
use plan_store::MemKeeper;
use plan_upload::Drone;
use std::alloc::Global;
use std::marker::Model;
use std::mem;

/// A drone's node and the store that it was started with.
#[derive(Drop)]
pub struct StoredDrone {
    node: DroneNode,
    store: MemKeeper,
}

impl Model for StoredDrone {
    ghost use Rattle.fleet_world.specs.StoredDrones.{StoredView};

    ghost Value = { StoredView };

    ghost view = { λ d. record { node = d.node; store = d.store } };
}

impl StoredDrone {
    /// A drone of this system, at x and y in units of 1e-7 degrees, over an empty store.
    pub(crate) fn start(
        alloc: Global,
        key: Key,
        sys: u8,
        x: i32,
        y: i32,
    ) -> Result<StoredDrone, StartFault>
        ensures started { IfOk result (λ drone. IsStoredDrone (new_drone key sys (record { x = x; y = y })) drone) }
        ensures fault { IfErr result (λ fault. fault ≡ StartFault.NoMemory) }
    {
        let mut store = MemKeeper::new(alloc, Vec::new(alloc), Vec::new(alloc));
        let node = DroneNode::start(alloc, key, sys, x, y, &mut store)?;
        Ok(StoredDrone { node, store })
    }

    /// The drone's plans.
    pub(crate) fn plans(&self) -> &Drone
        ensures { result.now ≡ self.now.node.drone }
    {
        self.node.plans()
    }

    /// Takes a datagram.
    pub(crate) fn receive(
        &mut self,
        datagram: &Datagram<'_>,
        clock: u64,
    ) -> Result<Vec<News>, NodeFault>
        ensures done { IfOk result (λ news. (node : DroneSide) → IsStoredDrone node self.old
            → Did (drone_receives clock datagram.now node) (λ n. IsStoredDrone n self.new) [] news.items) }
        ensures fault { IfErr result (λ fault. (node : DroneSide) → IsStoredDrone node self.old
            → FailsBy fault (drone_receives clock datagram.now node)) }
    {
        self.node.receive(datagram, clock, &mut self.store)
    }

    /// One tick.
    pub(crate) fn tick(&mut self, clock: u64) -> Result<Vec<News>, NodeFault>
        ensures done { IfOk result (λ news. (node : DroneSide) → IsStoredDrone node self.old
            → Did (drone_ticks clock node) (λ n. IsStoredDrone n self.new) [] news.items) }
        ensures fault { IfErr result (λ fault. (node : DroneSide) → IsStoredDrone node self.old
            → FailsBy fault (drone_ticks clock node)) }
    {
        self.node.tick(clock, &mut self.store)
    }

    /// Sends HEARTBEAT.
    pub(crate) fn heartbeat(&mut self, clock: u64) -> Result<Vec<News>, NodeFault>
        ensures done { IfOk result (λ news. (node : DroneSide) → IsStoredDrone node self.old
            → Did (drone_beats clock node) (λ n. IsStoredDrone n self.new) [] news.items) }
        ensures fault { IfErr result (λ fault. (node : DroneSide) → IsStoredDrone node self.old
            → FailsBy fault (drone_beats clock node)) }
    {
        self.node.heartbeat(clock, &mut self.store)
    }

    /// One tick of its simulator.
    pub(crate) fn sim(&mut self, clock: u64) -> Result<Vec<News>, NodeFault>
        ensures done { IfOk result (λ news. (node : DroneSide) → IsStoredDrone node self.old
            → Did (drone_sims clock node) (λ n. IsStoredDrone n self.new) [] news.items) }
        ensures fault { IfErr result (λ fault. (node : DroneSide) → IsStoredDrone node self.old
            → FailsBy fault (drone_sims clock node)) }
    {
        self.node.sim(clock, &mut self.store)
    }

    /// Where it is.
    pub(crate) fn location(&self) -> Location
        ensures { (node : DroneSide) → IsStoredDrone node self.now → result ≡ drone_location node }
    {
        let position = self.node.position();
        Location {
            x: position.x,
            y: position.y,
            captures: self.node.captures(),
        }
    }

    // The node ends, and one starts from what the store has.
    fn start_again(&mut self, alloc: Global, key: Key) -> Result<(), StartFault>
        ensures done { OnOk result ((node : DroneSide) → IsStoredDrone node self.old
            → IsStoredDrone (restarted_drone key node) self.new) }
        ensures fault { IfErr result (λ fault. (node : DroneSide) → IsStoredDrone node self.old
            → fault ≡ StartFault.NoMemory) }
    {
        let sys = self.node.plans().sys();
        let home = self.node.home();
        let node = DroneNode::start(alloc, key, sys, home.x, home.y, &mut self.store)?;
        mem::replace(&mut self.node, node).discard();
        Ok(())
    }

    /// Starts again with what is stored, and sends HEARTBEAT.
    pub(crate) fn restart(
        &mut self,
        alloc: Global,
        key: Key,
        clock: u64,
    ) -> Result<Vec<News>, NodeFault>
        ensures done { IfOk result (λ news. (node : DroneSide) → IsStoredDrone node self.old
            → Did (drone_restarts key clock node) (λ n. IsStoredDrone n self.new) [] news.items) }
        ensures fault { IfErr result (λ fault. (node : DroneSide) → IsStoredDrone node self.old
            → FailsBy fault (drone_restarts key clock node)) }
    {
        match self.start_again(alloc, key) {
            Ok(()) => self.heartbeat(clock),
            Err(_) => Err(NodeFault::NoMemory),
        }
    }
}
