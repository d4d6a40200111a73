// A drone as a node.
ghost use Rattle.std.specs.Prelude.{◌≡◌, ◌++◌, ℕ, List, Bool, false, Some, [], length, IfOk, IfErr, OnOk, IfSome};
ghost use Rattle.mav_nodes.specs.Stores.{Serves, HasFailed, AllKept};
ghost use Rattle.mav_nodes.specs.Images.{StoreHolds, StoreHoldsFrom};
ghost use Rattle.mav_nodes.specs.GivenUp.{DroneGivenUp};
ghost use Rattle.mav_nodes.specs.Nodes.{DroneSide, IsDrone, new_drone, drone_receives, drone_receives_keeping};
ghost use Rattle.mav_nodes.specs.Nodes.{drone_ticks, drone_beats, drone_sims};
ghost use Rattle.mav_nodes.specs.Promises.{DroneDid, DroneDidKeeping, Fails, FailsKeeping};
ghost use Rattle.mav_nodes.specs.Restarts.{stored_drone};
ghost use Rattle.mav_nodes.specs.Services.{new_drone_services};
ghost use Rattle.mav_nodes.specs.Starts.{IsStarted, StartedFrom, StartFails};
ghost use Rattle.mav_nodes.specs.Streams.{HasRead, GrowsBy, DronePart, DronePartFails};
ghost use Rattle.mav_frame.specs.FinalParse.{final_parse};
ghost use Rattle.mav_sign.specs.Endpoints.{frames_of};
ghost use Rattle.mav_frame.specs.declared.events.Event.{Event};
ghost use Rattle.mav_sign.specs.Streams.{reader_of};

use crate::drone_services::DroneServices;
use crate::heartbeats::drone_heartbeat;
use crate::link::Link;
use crate::{News, NodeFault, StartFault, node};
use drone_sim::Point;
use mav_names::drone_stream;
use mav_sign::{Datagram, Key};
use plan_store::Keeper;
use plan_upload::{Drone, Kept, read_kept};
use std::alloc::Global;
use std::marker::Model;

/// A drone over datagrams, which keeps its plans in a store: the one that it was started with is handed to each call.
/// Contracts see its end of the links, its plan core, and its services: it executes commands, serves parameters and
/// files, and flies as a simulated drone.
///
/// It saves before a timestamp above the stored low bound is admitted or sent, and before its plans change. If a save
/// fails it loads, and what the store then has decides: a change of plans that isn't stored is refused, and a bound
/// that isn't stored is a fault, after which the node isn't used again.
pub struct DroneNode {
    alloc: Global,
    link: Link,
    drone: Drone,
    services: DroneServices,
}

// By hand, so that whoever drops a node proves one call.
impl Drop for DroneNode {
    fn drop(self) {
        let DroneNode {
            alloc: _,
            link,
            drone,
            services,
        } = self;
        link.discard();
        discard(drone);
        services.discard();
    }
}

impl Model for DroneNode {
    ghost use Rattle.mav_nodes.specs.Nodes.{DroneView};

    ghost Value = { DroneView };

    ghost view = { λ n. record { link = n.link; drone = n.drone; services = n.services } };
}

// Drops it where nothing else is owned.
fn discard(_drone: Drone) {}

impl DroneNode {
    /// The drone of this system, disarmed at that location, in units of 1e-7 degrees, with the plans that the store
    /// has and with its low bound of timestamps; with empty plans if the store is empty. It knows the messages of the
    /// profile. All its memory is allocated here, but for the news, what is stored, and its files.
    pub fn start<K: Keeper>(
        alloc: Global,
        key: Key,
        sys: u8,
        x: i32,
        y: i32,
        keeper: &mut K,
    ) -> Result<DroneNode, StartFault>
        ensures started { IfOk result (IsStarted key sys (record { x = x; y = y })) }
        ensures from { IfSome (K.contents keeper.old)
            (λ bytes. IfOk result (StartedFrom key sys (record { x = x; y = y }) bytes)) }
        ensures stream { IfOk result (λ node. HasRead [] [] node.link) }
        ensures stays { K.contents keeper.new ≡ K.contents keeper.old }
        ensures serves { Serves K.faults K.is_infallible keeper.old keeper.new }
        ensures fault { IfErr result (λ fault. StartFails fault sys (K.contents keeper.old)
            (HasFailed K.faults K.is_infallible keeper.old keeper.new)) }
    {
        let bytes = keeper.load()?;
        DroneNode::loaded(alloc, key, sys, x, y, &bytes)
    }

    // A drone whose store has these bytes.
    fn loaded(
        alloc: Global,
        key: Key,
        sys: u8,
        x: i32,
        y: i32,
        bytes: &[u8],
    ) -> Result<DroneNode, StartFault>
        ensures from { IfOk result (StartedFrom key sys (record { x = x; y = y }) bytes.now) }
        ensures stream { IfOk result (λ node. HasRead [] [] node.link) }
        ensures fault { IfErr result (λ fault. StartFails fault sys (Some bytes.now) ⊥) }
    {
        if bytes.is_empty() {
            return DroneNode::fresh(alloc, key, sys, x, y);
        }
        let kept = read_kept(alloc, sys, bytes)?;
        DroneNode::restored(alloc, key, sys, x, y, &kept)
    }

    // A drone that nothing was stored of.
    fn fresh(alloc: Global, key: Key, sys: u8, x: i32, y: i32) -> Result<DroneNode, StartFault>
        ensures fresh { IfOk result (λ node. IsDrone (new_drone key sys (record { x = x; y = y })) node) }
        ensures stream { IfOk result (λ node. HasRead [] [] node.link) }
        ensures fault { IfErr result (λ fault. fault ≡ StartFault.NoMemory) }
    {
        let link = Link::new(alloc, key, drone_stream(sys))?;
        match Drone::new(alloc, sys) {
            Ok(drone) => DroneNode::of(alloc, link, drone, sys, x, y),
            Err(_) => {
                link.discard();
                Err(StartFault::NoMemory)
            }
        }
    }

    // A drone with what was stored of it.
    fn restored(
        alloc: Global,
        key: Key,
        sys: u8,
        x: i32,
        y: i32,
        kept: &Kept,
    ) -> Result<DroneNode, StartFault>
        ensures restored { IfOk result (λ node. IsDrone
            (stored_drone key sys (record { x = x; y = y }) kept.now.low kept.now.plans) node) }
        ensures stream { IfOk result (λ node. HasRead [] [] node.link) }
        ensures fault { IfErr result (λ fault. fault ≡ StartFault.NoMemory) }
    {
        let link = Link::start(alloc, key, drone_stream(sys), kept.floor)?;
        match Drone::restore(alloc, sys, kept) {
            Ok(drone) => DroneNode::of(alloc, link, drone, sys, x, y),
            Err(_) => {
                link.discard();
                Err(StartFault::NoMemory)
            }
        }
    }

    // A node of a new link and a new core.
    fn of(
        alloc: Global,
        link: Link,
        drone: Drone,
        sys: u8,
        x: i32,
        y: i32,
    ) -> Result<DroneNode, StartFault>
        ensures made { IfOk result (λ node. node
            ≡ record { link = link; drone = drone; services = new_drone_services sys (record { x = x; y = y }) }) }
        ensures fault { IfErr result (λ fault. fault ≡ StartFault.NoMemory) }
    {
        match DroneServices::new(alloc, sys, x, y) {
            Ok(services) => Ok(DroneNode {
                alloc,
                link,
                drone,
                services,
            }),
            Err(_) => {
                link.discard();
                discard(drone);
                Err(StartFault::NoMemory)
            }
        }
    }

    /// Drops it where nothing else is owned.
    pub fn discard(self) {}

    /// Where the drone starts, and returns to.
    pub fn home(&self) -> Point
        ensures { result ≡ self.now.services.sim.home }
    {
        self.services.sim().home()
    }

    /// Where the drone is.
    pub fn position(&self) -> Point
        ensures { result ≡ self.now.services.sim.position }
    {
        self.services.sim().position()
    }

    /// How many pictures the drone has taken since its start; the count stays at 2^32 - 1.
    pub fn captures(&self) -> u32
        ensures { result ≡ self.now.services.sim.captures }
    {
        self.services.sim().captures()
    }

    /// The drone's plans.
    pub fn plans(&self) -> &Drone
        ensures { result.now ≡ self.now.drone }
    {
        &self.drone
    }

    /// Takes a datagram as a whole input by itself: each of its frames in order, and each reply is sent before the
    /// next frame is tried.
    pub fn receive<K: Keeper>(
        &mut self,
        datagram: &Datagram<'_>,
        clock: u64,
        keeper: &mut K,
    ) -> Result<Vec<News>, NodeFault>
        ensures done { IfOk result (λ news. (node : DroneSide) → IsDrone node self.old
            → DroneDidKeeping (λ (keeps : List Bool). drone_receives_keeping clock keeps datagram.now node)
            (AllKept (HasFailed K.faults K.is_infallible keeper.old keeper.new)) self.new news.items) }
        ensures infallible { IfOk result (λ news. (node : DroneSide) → IsDrone node self.old
            → K.is_infallible keeper.old
            → DroneDid (drone_receives clock datagram.now node) self.new [] news.items) }
        ensures stored { OnOk result (StoreHolds (K.contents keeper.old) self.old
            → StoreHolds (K.contents keeper.new) self.new) }
        ensures given { IfErr result (λ fault. StoreHolds (K.contents keeper.old) self.old → (node : DroneSide)
            → IsDrone node self.old
            → DroneGivenUp clock (AllKept (HasFailed K.faults K.is_infallible keeper.old keeper.new))
            (K.contents keeper.new) (frames_of (final_parse node.link.extras false datagram.now)) node) }
        ensures reader { reader_of self.new.link.endpoint ≡ reader_of self.old.link.endpoint }
        ensures serves { Serves K.faults K.is_infallible keeper.old keeper.new }
        ensures fault { IfErr result (λ fault. FailsKeeping fault (λ (node : DroneSide). IsDrone node self.old)
            (λ (keeps : List Bool) (node : DroneSide). drone_receives_keeping clock keeps datagram.now node)
            (AllKept (HasFailed K.faults K.is_infallible keeper.old keeper.new))
            (HasFailed K.faults K.is_infallible keeper.old keeper.new)) }
        ensures infallible_fault { IfErr result (λ fault. K.is_infallible keeper.old
            → Fails fault (λ (node : DroneSide). IsDrone node self.old)
            (λ (node : DroneSide). drone_receives clock datagram.now node) ⊥) }
    {
        node::receive(
            self.alloc,
            &mut self.link,
            &mut self.drone,
            &mut self.services,
            keeper,
            datagram,
            datagram.bytes(),
            clock,
        )
    }

    /// Takes a piece of a stream, which may cut frames anywhere: each frame by which the parse of the stream grows
    /// with it, in order, and each reply is sent before the next frame is tried. Returns how many bytes it took, which
    /// is all of them.
    pub fn part<K: Keeper>(
        &mut self,
        piece: &[u8],
        clock: u64,
        keeper: &mut K,
    ) -> Result<(usize, Vec<News>), NodeFault>
        ensures count { IfOk result (λ part. part.0 ≡ length piece.now) }
        ensures done { IfOk result (λ part. (node : DroneSide) (taken : List ℕ) (given : List Event)
            → IsDrone node self.old → HasRead taken given self.old.link
            → DronePart clock node (taken ++ piece.now) given
            (AllKept (HasFailed K.faults K.is_infallible keeper.old keeper.new)) self.new part.1.items) }
        ensures stored { OnOk result (StoreHolds (K.contents keeper.old) self.old
            → StoreHolds (K.contents keeper.new) self.new) }
        ensures given { IfErr result (λ fault. StoreHolds (K.contents keeper.old) self.old
            → (node : DroneSide) (taken : List ℕ) (given events : List Event) → IsDrone node self.old
            → HasRead taken given self.old.link
            → GrowsBy self.old.link.endpoint.extras (taken ++ piece.now) given events
            → DroneGivenUp clock (AllKept (HasFailed K.faults K.is_infallible keeper.old keeper.new))
            (K.contents keeper.new) (frames_of events) node) }
        ensures serves { Serves K.faults K.is_infallible keeper.old keeper.new }
        ensures fault { IfErr result (λ fault. DronePartFails fault clock self.old piece.now
            (AllKept (HasFailed K.faults K.is_infallible keeper.old keeper.new))
            (HasFailed K.faults K.is_infallible keeper.old keeper.new)) }
    {
        node::part(
            self.alloc,
            &mut self.link,
            &mut self.drone,
            &mut self.services,
            keeper,
            piece,
            clock,
        )
    }

    /// One tick: an open upload asks again or is closed, and an idle download is closed.
    pub fn tick<K: Keeper>(&mut self, clock: u64, keeper: &mut K) -> Result<Vec<News>, NodeFault>
        ensures done { IfOk result (λ news. (node : DroneSide) → IsDrone node self.old
            → DroneDid (drone_ticks clock node) self.new [] news.items) }
        ensures stored { OnOk result (StoreHolds (K.contents keeper.old) self.old
            → StoreHolds (K.contents keeper.new) self.new) }
        ensures given { IfErr result (λ fault. StoreHolds (K.contents keeper.old) self.old
            → StoreHoldsFrom (K.contents keeper.new) self.old) }
        ensures reader { reader_of self.new.link.endpoint ≡ reader_of self.old.link.endpoint }
        ensures serves { Serves K.faults K.is_infallible keeper.old keeper.new }
        ensures fault { IfErr result (λ fault. Fails fault (λ (node : DroneSide). IsDrone node self.old)
            (λ (node : DroneSide). drone_ticks clock node)
            (HasFailed K.faults K.is_infallible keeper.old keeper.new)) }
    {
        node::tick(
            self.alloc,
            &mut self.link,
            &mut self.drone,
            &self.services,
            keeper,
            clock,
        )
    }

    /// One tick of its simulator: it moves, or does an item of its mission, and says where it is and which item it has
    /// reached.
    pub fn sim<K: Keeper>(&mut self, clock: u64, keeper: &mut K) -> Result<Vec<News>, NodeFault>
        ensures done { IfOk result (λ news. (node : DroneSide) → IsDrone node self.old
            → DroneDid (drone_sims clock node) self.new [] news.items) }
        ensures stored { OnOk result (StoreHolds (K.contents keeper.old) self.old
            → StoreHolds (K.contents keeper.new) self.new) }
        ensures given { IfErr result (λ fault. StoreHolds (K.contents keeper.old) self.old
            → StoreHoldsFrom (K.contents keeper.new) self.old) }
        ensures reader { reader_of self.new.link.endpoint ≡ reader_of self.old.link.endpoint }
        ensures serves { Serves K.faults K.is_infallible keeper.old keeper.new }
        ensures fault { IfErr result (λ fault. Fails fault (λ (node : DroneSide). IsDrone node self.old)
            (λ (node : DroneSide). drone_sims clock node)
            (HasFailed K.faults K.is_infallible keeper.old keeper.new)) }
    {
        let served = self.services.fly(self.alloc, &self.drone)?;
        let mut news = Vec::new(self.alloc);
        node::say_served(
            &mut self.link,
            &self.drone,
            &self.services,
            keeper,
            served,
            clock,
            &mut news,
        )?;
        Ok(news)
    }

    /// Sends HEARTBEAT.
    pub fn heartbeat<K: Keeper>(
        &mut self,
        clock: u64,
        keeper: &mut K,
    ) -> Result<Vec<News>, NodeFault>
        ensures done { IfOk result (λ news. (node : DroneSide) → IsDrone node self.old
            → DroneDid (drone_beats clock node) self.new [] news.items) }
        ensures stored { OnOk result (StoreHolds (K.contents keeper.old) self.old
            → StoreHolds (K.contents keeper.new) self.new) }
        ensures given { IfErr result (λ fault. StoreHolds (K.contents keeper.old) self.old
            → StoreHoldsFrom (K.contents keeper.new) self.old) }
        ensures reader { reader_of self.new.link.endpoint ≡ reader_of self.old.link.endpoint }
        ensures serves { Serves K.faults K.is_infallible keeper.old keeper.new }
        ensures fault { IfErr result (λ fault. Fails fault (λ (node : DroneSide). IsDrone node self.old)
            (λ (node : DroneSide). drone_beats clock node)
            (HasFailed K.faults K.is_infallible keeper.old keeper.new)) }
    {
        let message = drone_heartbeat(self.services.sim().armed());
        node::send(
            self.alloc,
            &mut self.link,
            &self.drone,
            keeper,
            &message,
            clock,
        )
    }
}
