// A drone or a station, over a stream.
ghost use Rattle.std.specs.Prelude.{◌≡◌, ◌∷◌, ◌++◌, ℕ, List, [], Some, false, IfOk, IfErr, OnOk};
ghost use Rattle.std.specs.declared.option.Option.{Option};
ghost use Rattle.mav_frame.specs.declared.events.Event.{Event};
ghost use Rattle.mav_sign.specs.Streams.{reader_of};
ghost use Rattle.mav_nodes.specs.Stores.{Serves, HasFailed, AllKept};
ghost use Rattle.mav_nodes.specs.Promises.{Did};
ghost use Rattle.mav_nodes.specs.Images.{StoreHolds};
ghost use Rattle.mav_nodes.specs.GivenUp.{DroneGivenUp};
ghost use Rattle.mav_sign.specs.Endpoints.{frames_of};
ghost use Rattle.mav_nodes.specs.Nodes.{DroneSide, StationSide, IsDrone, IsStation};
ghost use Rattle.mav_nodes.specs.Streams.{HasRead, GrowsBy, DronePart, StationPart, DronePartFails, StationPartFails};
ghost use Rattle.node_reports.specs.Nodes.{Node};
ghost use Rattle.node_reports.specs.ParamLists.{params_of};
ghost use Rattle.live_node.specs.Nodes.{IsLive, HasHeard, IsKeptBy, end_of};
ghost use Rattle.live_node.specs.Calls.{LiveCall, call_does, node_obeys};
ghost use Rattle.live_node.specs.GivenUp.{CallLeaves, PieceLeaves};
ghost use Rattle.live_node.specs.Orders.{node_refuses, order_end, OrderFailsAt};
ghost use Rattle.run_status.specs.declared.live_ends.LiveEnd.TheVariants.{StoreFault};
ghost use Rattle.run_status.specs.declared.run_ends.RunEnd.TheVariants.{Live};
ghost use Rattle.live_node.specs.Progress.{due_call};
ghost use Rattle.live_node.specs.Parts.{PieceHeard, PieceFails, CallFails};

use mav_nodes::{DroneNode, News, NodeFault, Order, OrderFault, StationNode};
use param_proto::Param;
use plan_store::Keeper;
use std::alloc::Global;

/// A node over a stream.
#[derive(Drop)]
pub enum LiveNode {
    Drone(DroneNode),
    Station(StationNode),
}

/// A call that needs nothing but the time.
#[derive(Clone, Copy)]
pub(crate) enum Due {
    Tick,
    Heartbeat,
    Sim,
}

// A drone takes a piece.
fn drone_part<S: Keeper>(
    drone: &mut DroneNode,
    piece: &[u8],
    clock: u64,
    keeper: &mut S,
) -> Result<Vec<News>, NodeFault>
    ensures done { IfOk result (λ news. (node : DroneSide) (taken : List ℕ) (given : List Event)
        → IsDrone node drone.old → HasRead taken given drone.old.link
        → DronePart clock node (taken ++ piece.now) given
        (AllKept (HasFailed S.faults S.is_infallible keeper.old keeper.new)) drone.new news.items) }
    ensures stored { OnOk result (StoreHolds (S.contents keeper.old) drone.old
        → StoreHolds (S.contents keeper.new) drone.new) }
    ensures given { IfErr result (λ fault. StoreHolds (S.contents keeper.old) drone.old
        → (node : DroneSide) (taken : List ℕ) (given events : List Event) → IsDrone node drone.old
        → HasRead taken given drone.old.link
        → GrowsBy drone.old.link.endpoint.extras (taken ++ piece.now) given events
        → DroneGivenUp clock (AllKept (HasFailed S.faults S.is_infallible keeper.old keeper.new))
        (S.contents keeper.new) (frames_of events) node) }
    ensures serves { Serves S.faults S.is_infallible keeper.old keeper.new }
    ensures fault { IfErr result (λ fault. DronePartFails fault clock drone.old piece.now
        (AllKept (HasFailed S.faults S.is_infallible keeper.old keeper.new))
        (HasFailed S.faults S.is_infallible keeper.old keeper.new)) }
{
    match drone.part(piece, clock, keeper) {
        Ok((_, news)) => Ok(news),
        Err(fault) => Err(fault),
    }
}

// A station takes a piece.
fn station_part(station: &mut StationNode, piece: &[u8], clock: u64) -> Result<Vec<News>, NodeFault>
    ensures done { IfOk result (λ news. (node : StationSide) (taken : List ℕ) (given : List Event)
        → IsStation node station.old → HasRead taken given station.old.link
        → StationPart clock node (taken ++ piece.now) given station.new news.items) }
    ensures fault { IfErr result (λ fault. StationPartFails fault clock station.old piece.now) }
{
    match station.part(piece, clock) {
        Ok((_, news)) => Ok(news),
        Err(fault) => Err(fault),
    }
}

impl LiveNode {
    /// Drops it where nothing else is owned.
    pub(crate) fn discard(self) {
        match self {
            LiveNode::Drone(drone) => drone.discard(),
            LiveNode::Station(station) => station.discard(),
        }
    }

    /// Takes a piece of the stream, and hears the frames that it completes.
    pub(crate) fn part<S: Keeper>(
        &mut self,
        piece: &[u8],
        clock: u64,
        keeper: &mut S,
    ) -> Result<Vec<News>, NodeFault>
        ensures done { IfOk result (λ news. (node : Node) (taken : List ℕ) (given : List Event) → IsLive node self.old
            → HasHeard taken given self.old
            → PieceHeard clock node (taken ++ piece.now) given
            (AllKept (HasFailed S.faults S.is_infallible keeper.old keeper.new)) self.new news.items) }
        ensures stored { OnOk result (IsKeptBy (S.contents keeper.old) self.old
            → IsKeptBy (S.contents keeper.new) self.new) }
        ensures given { IfErr result (λ fault. IsKeptBy (S.contents keeper.old) self.old
            → PieceLeaves clock piece.now (AllKept (HasFailed S.faults S.is_infallible keeper.old keeper.new))
            (S.contents keeper.new) self.old) }
        ensures serves { Serves S.faults S.is_infallible keeper.old keeper.new }
        ensures fault { IfErr result (λ fault. PieceFails fault clock piece.now self.old
            (HasFailed S.faults S.is_infallible keeper.old keeper.new)) }
    {
        match self {
            LiveNode::Drone(drone) => drone_part(drone, piece, clock, keeper),
            LiveNode::Station(station) => station_part(station, piece, clock),
        }
    }

    /// Lets time pass, sends HEARTBEAT, or lets a drone fly.
    pub(crate) fn call<S: Keeper>(
        &mut self,
        alloc: Global,
        due: Due,
        clock: u64,
        keeper: &mut S,
    ) -> Result<Vec<News>, NodeFault>
        ensures done { IfOk result (λ news. (node : Node) → IsLive node self.old
            → Did (call_does (due_call due clock) node) (λ after. IsLive after self.new) [] news.items) }
        ensures reader { reader_of (end_of self.new).endpoint ≡ reader_of (end_of self.old).endpoint }
        ensures stored { OnOk result (IsKeptBy (S.contents keeper.old) self.old
            → IsKeptBy (S.contents keeper.new) self.new) }
        ensures given { IfErr result (λ fault. IsKeptBy (S.contents keeper.old) self.old
            → (node : Node) (call : LiveCall) → IsLive node self.old
            → CallLeaves (S.contents keeper.new) node (call ∷ [])) }
        ensures serves { Serves S.faults S.is_infallible keeper.old keeper.new }
        ensures fault { IfErr result (λ fault. (node : Node) → IsLive node self.old
            → CallFails fault (call_does (due_call due clock) node)
            (HasFailed S.faults S.is_infallible keeper.old keeper.new)) }
    {
        match (self, due) {
            (LiveNode::Drone(drone), Due::Tick) => drone.tick(clock, keeper),
            (LiveNode::Drone(drone), Due::Heartbeat) => drone.heartbeat(clock, keeper),
            (LiveNode::Drone(drone), Due::Sim) => drone.sim(clock, keeper),
            (LiveNode::Station(station), Due::Tick) => station.tick(clock),
            (LiveNode::Station(station), Due::Heartbeat) => station.heartbeat(clock),
            (LiveNode::Station(_), Due::Sim) => Ok(Vec::new(alloc)),
        }
    }

    /// Follows an order, or refuses it; a drone follows none.
    pub(crate) fn order(
        &mut self,
        alloc: Global,
        order: Order,
        clock: u64,
    ) -> Result<Vec<News>, OrderFault>
        ensures accepted { OnOk result ((node : Node) → IsLive node self.old → node_refuses node order ≡ false) }
        ensures done { IfOk result (λ news. (node : Node) → IsLive node self.old
            → Did (node_obeys clock order node) (λ after. IsLive after self.new) [] news.items) }
        ensures reader { reader_of (end_of self.new).endpoint ≡ reader_of (end_of self.old).endpoint }
        ensures stored { OnOk result ((contents : Option (List ℕ)) → IsKeptBy contents self.old
            → IsKeptBy contents self.new) }
        ensures fault { IfErr result (λ fault. (node : Node) → IsLive node self.old
            → OrderFailsAt clock order node fault) }
        ensures given { IfErr result (λ fault. (node : Node) (contents : Option (List ℕ)) (call : LiveCall)
            → IsLive node self.old → CallLeaves contents node (call ∷ [])) }
        ensures unstored { IfErr result (λ fault. order_end fault ≡ Live StoreFault → ⊥) }
    {
        match self {
            LiveNode::Drone(_) => Ok(Vec::new(alloc)),
            LiveNode::Station(station) => station.order(order, clock),
        }
    }

    /// The values of a station's latest list of parameters; a drone lists none.
    pub(crate) fn params(&self) -> &[Param]
        ensures { (node : Node) → IsLive node self.now → result.now ≡ params_of (Some node) }
    {
        match self {
            LiveNode::Drone(_) => &[],
            LiveNode::Station(station) => station.params(),
        }
    }
}
