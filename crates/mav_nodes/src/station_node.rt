// A ground station as a node.
ghost use Rattle.std.specs.Prelude.{◌≡◌, ◌++◌, ℕ, List, [], length, IfOk, IfErr, OnOk, OnErr, IsTrue};
ghost use Rattle.plan_upload.specs.Station.{StationStep};
ghost use Rattle.mav_nodes.specs.Links.{Link as LinkState, IsLink};
ghost use Rattle.mav_nodes.specs.Services.{ServiceStep, StationServices as StationServicesState};
ghost use Rattle.mav_nodes.specs.Steps.{steps, serves};
ghost use Rattle.mav_nodes.specs.Cores.{IsStep, IsServed};
ghost use Rattle.param_proto.specs.Client.{known_values};
ghost use Rattle.mav_nodes.specs.Nodes.{StationSide, IsStation, IsAccepted, new_station, station_receives};
ghost use Rattle.mav_nodes.specs.Nodes.{station_ticks, station_beats, station_does, station_obeys, order_step};
ghost use Rattle.mav_nodes.specs.Nodes.{order_refusal, is_service};
ghost use Rattle.plan_upload.specs.Station.{station_tick};
ghost use Rattle.mav_nodes.specs.Streams.{HasRead, StationPart, StationPartFails};
ghost use Rattle.mav_frame.specs.declared.events.Event.{Event};
ghost use Rattle.mav_sign.specs.Streams.{reader_of};
ghost use Rattle.mav_nodes.specs.Promises.{StationDid, Fails, IsPlanRefusal, OrderFails, OrderKeeps};

use crate::heartbeats::station_heartbeat;
use crate::link::Link;
use crate::no_store::NoStore;
use crate::services::Served;
use crate::station_services::StationServices;
use crate::steps::{Core, PlanNews, Step};
use crate::{News, NoMemory, NodeFault, Order, OrderFault, node};
use mav_names::{Stream, node_of};
use mav_sign::{Datagram, Key};
use param_proto::Param;
use plan_items::PlanMsg;
use plan_upload::Station;
use std::alloc::Global;
use std::marker::Model;

/// A ground station over datagrams. Contracts see its end of the links, its plan core, and its services: it gives
/// commands, reads, sets and lists parameters, and lists, fetches, stores and removes files.
pub struct StationNode {
    alloc: Global,
    link: Link,
    station: Station,
    services: StationServices,
}

// By hand, so that whoever drops a node proves one call.
impl Drop for StationNode {
    fn drop(self) {
        let StationNode {
            alloc: _,
            link,
            station,
            services,
        } = self;
        link.discard();
        discard(station);
        services.discard();
    }
}

impl Model for StationNode {
    ghost use Rattle.mav_nodes.specs.Nodes.{StationView};

    ghost Value = { StationView };

    ghost view = { λ n. record { link = n.link; station = n.station; services = n.services } };
}

// A station stores nothing.
impl Core for Station {
    ghost use Rattle.std.specs.Prelude.{⊤};
    ghost use Rattle.mav_nodes.specs.Nodes.{station_core, station_does};
    ghost use Rattle.plan_upload.specs.Station.{station_tick};

    ghost taken = { λ kept. station_core };

    ghost waited = { λ s. station_does (station_tick s) };

    ghost stored = { λ s low bytes. ⊤ };

    fn image(&self, _alloc: Global, _low: u64) -> Result<Option<Vec<u8>>, NoMemory> {
        Ok(None)
    }

    fn image_after(
        &self,
        _alloc: Global,
        _low: u64,
        _from: Stream,
        _message: &PlanMsg,
    ) -> Result<Option<Vec<u8>>, NoMemory> {
        Ok(None)
    }

    fn take(&mut self, _kept: bool, from: Stream, message: &PlanMsg) -> Step {
        let answer = self.step(from, message);
        step_of(self, answer)
    }

    fn wait(&mut self) -> Step {
        let sent = self.tick();
        step_of(self, sent)
    }
}

// The station has done a step with this reply: an outcome that it has reached is returned.
fn step_of(station: &mut Station, answer: Option<PlanMsg>) -> Step
    ensures { (step : StationStep) → station.old ≡ step.station → answer ≡ step.answer
        → IsStep (station_does step) station.new result }
{
    Step {
        plans: PlanNews::Same,
        answer,
        outcome: station.outcome(),
    }
}

// What the station sends first for an order, if anything.
fn obey(station: &mut Station, order: Order) -> Result<Option<PlanMsg>, OrderFault>
    ensures station { OnOk result (station.new ≡ (order_step station.old order).station) }
    ensures answer { IfOk result (λ answer. answer ≡ (order_step station.old order).answer) }
    ensures accepted { OnOk result (order_refusal station.old order ≡ None) }
    ensures fault { IfErr result (λ fault. IsPlanRefusal station.old order fault) }
    ensures unchanged { OnErr result (station.new ≡ station.old) }
{
    match order {
        Order::Begin { drone, kind, plan } => match station.begin(drone, kind, plan) {
            Ok(message) => Ok(Some(message)),
            Err(fault) => Err(OrderFault::Begin(fault)),
        },
        Order::Cancel => Ok(station.cancel()),
        Order::Clear { drone, kind } => match station.clear(drone, kind) {
            Ok(message) => Ok(Some(message)),
            Err(fault) => Err(OrderFault::Op(fault)),
        },
        Order::Get { drone, kind } => match station.get(drone, kind) {
            Ok(message) => Ok(Some(message)),
            Err(fault) => Err(OrderFault::Op(fault)),
        },
        Order::Command { .. }
        | Order::ParamRead { .. }
        | Order::ParamSet { .. }
        | Order::ParamList { .. }
        | Order::File { .. } => Ok(None),
    }
}

// Whether an order is one to the station's services.
fn is_for_services(order: &Order) -> bool
    ensures { result ≡ is_service order.now }
{
    matches!(
        order,
        Order::Command { .. }
            | Order::ParamRead { .. }
            | Order::ParamSet { .. }
            | Order::ParamList { .. }
            | Order::File { .. }
    )
}

// Drops it where nothing else is owned.
fn discard(_station: Station) {}

impl StationNode {
    /// A station with this stream and boot time in microseconds. It knows the messages of the profile. All its
    /// memory is allocated here, but for the news.
    pub fn new(alloc: Global, key: Key, me: Stream, boot: u64) -> Result<StationNode, NoMemory>
        ensures new { IfOk result (λ node. IsStation (new_station key me boot) node) }
        ensures stream { IfOk result (λ node. HasRead [] [] node.link) }
    {
        let link = Link::new(alloc, key, me)?;
        let services = match StationServices::new(alloc, node_of(me)) {
            Ok(services) => services,
            Err(refused) => {
                link.discard();
                return Err(refused);
            }
        };
        match Station::new(alloc, me.sys, me.comp, boot, 0) {
            Ok(station) => Ok(StationNode {
                alloc,
                link,
                station,
                services,
            }),
            Err(refused) => {
                link.discard();
                services.discard();
                Err(refused)
            }
        }
    }

    /// Drops it where nothing else is owned.
    pub fn discard(self) {}

    /// Takes a datagram as a whole input by itself: each of its frames in order, and each reply is sent before the
    /// next frame is tried.
    pub fn receive(&mut self, datagram: &Datagram<'_>, clock: u64) -> Result<Vec<News>, NodeFault>
        ensures done { IfOk result (λ news. (node : StationSide) → IsStation node self.old
            → StationDid (station_receives clock datagram.now node) self.new [] news.items) }
        ensures reader { reader_of self.new.link.endpoint ≡ reader_of self.old.link.endpoint }
        ensures fault { IfErr result (λ fault. Fails fault (λ (node : StationSide). IsStation node self.old)
            (λ (node : StationSide). station_receives clock datagram.now node) ⊥) }
    {
        node::receive(
            self.alloc,
            &mut self.link,
            &mut self.station,
            &mut self.services,
            &mut NoStore::new(self.alloc),
            datagram,
            datagram.bytes(),
            clock,
        )
    }

    /// Takes a piece of a stream, which may cut frames anywhere: each frame by which the parse of the stream grows
    /// with it, in order, and each reply is sent before the next frame is tried. Returns how many bytes it took, which
    /// is all of them.
    pub fn part(&mut self, piece: &[u8], clock: u64) -> Result<(usize, Vec<News>), NodeFault>
        ensures count { IfOk result (λ part. part.0 ≡ length piece.now) }
        ensures done { IfOk result (λ part. (node : StationSide) (taken : List ℕ) (given : List Event)
            → IsStation node self.old → HasRead taken given self.old.link
            → StationPart clock node (taken ++ piece.now) given self.new part.1.items) }
        ensures fault { IfErr result (λ fault. StationPartFails fault clock self.old piece.now) }
    {
        node::part(
            self.alloc,
            &mut self.link,
            &mut self.station,
            &mut self.services,
            &mut NoStore::new(self.alloc),
            piece,
            clock,
        )
    }

    /// Follows an order, or refuses it. The message that it sends for it is among the news.
    pub fn order(&mut self, order: Order, clock: u64) -> Result<Vec<News>, OrderFault>
        ensures accepted { OnOk result (IsAccepted self.old order) }
        ensures done { IfOk result (λ news. (node : StationSide) → IsStation node self.old
            → StationDid (station_obeys clock order node) self.new [] news.items) }
        ensures reader { reader_of self.new.link.endpoint ≡ reader_of self.old.link.endpoint }
        ensures fault { IfErr result (λ fault. OrderFails clock order self.old fault) }
        ensures unchanged { IfErr result (λ fault. OrderKeeps self.old self.new fault) }
    {
        if is_for_services(&order) {
            return self.ask(order, clock);
        }
        let answer = obey(&mut self.station, order)?;
        let step = step_of(&mut self.station, answer);
        let mut news = Vec::new(self.alloc);
        let mut store = NoStore::new(self.alloc);
        match self
            .link
            .say(step, clock, &self.station, &mut store, &mut news)
        {
            Ok(()) => Ok(news),
            Err(fault) => Err(OrderFault::Node(fault)),
        }
    }

    // An order to its services.
    fn ask(&mut self, order: Order, clock: u64) -> Result<Vec<News>, OrderFault>
        requires { IsTrue (is_service order) }
        ensures accepted { OnOk result (IsAccepted self.old order) }
        ensures done { IfOk result (λ news. (node : StationSide) → IsStation node self.old
            → StationDid (station_obeys clock order node) self.new [] news.items) }
        ensures reader { reader_of self.new.link.endpoint ≡ reader_of self.old.link.endpoint }
        ensures fault { IfErr result (λ fault. OrderFails clock order self.old fault) }
        ensures unchanged { IfErr result (λ fault. OrderKeeps self.old self.new fault) }
    {
        let served = self.services.ask(self.alloc, order)?;
        let mut news = Vec::new(self.alloc);
        match self.say(served, clock, &mut news) {
            Ok(()) => Ok(news),
            Err(fault) => Err(OrderFault::Node(fault)),
        }
    }

    // Its services have done a step: what they reply is sent, and what ended with it is reported.
    fn say(&mut self, served: Served, clock: u64, news: &mut Vec<News>) -> Result<(), NodeFault>
        ensures done { OnOk result ((link : LinkState) (step : ServiceStep StationServicesState)
            → IsLink link self.old.link → IsServed step self.old.services served
            → StationDid (serves clock link self.old.station step) self.new news.old.items news.new.items) }
        ensures reader { reader_of self.new.link.endpoint ≡ reader_of self.old.link.endpoint }
        ensures fault { IfErr result (λ fault. (step : ServiceStep StationServicesState)
            → IsServed step self.old.services served
            → Fails fault (λ (link : LinkState). IsLink link self.old.link)
            (λ (link : LinkState). serves clock link self.old.station step) ⊥) }
    {
        node::say_served(
            &mut self.link,
            &self.station,
            &self.services,
            &mut NoStore::new(self.alloc),
            served,
            clock,
            news,
        )
    }

    /// One tick: what an operation sends again, or how it continues; and then the same of the open command, and of
    /// what is asked of parameters and of files.
    pub fn tick(&mut self, clock: u64) -> Result<Vec<News>, NodeFault>
        ensures done { IfOk result (λ news. (node : StationSide) → IsStation node self.old
            → StationDid (station_ticks clock node) self.new [] news.items) }
        ensures reader { reader_of self.new.link.endpoint ≡ reader_of self.old.link.endpoint }
        ensures fault { IfErr result (λ fault. Fails fault (λ (node : StationSide). IsStation node self.old)
            (λ (node : StationSide). station_ticks clock node) ⊥) }
    {
        let mut news = self.tick_core(clock)?;
        let served = self.services.wait(self.alloc)?;
        self.say(served, clock, &mut news)?;
        Ok(news)
    }

    // One tick of its plan core.
    fn tick_core(&mut self, clock: u64) -> Result<Vec<News>, NodeFault>
        ensures done { IfOk result (λ news. (node : StationSide) → IsStation node self.old
            → StationDid (steps clock node.link node.services (station_does (station_tick node.core))) self.new []
            news.items) }
        ensures reader { reader_of self.new.link.endpoint ≡ reader_of self.old.link.endpoint }
        ensures fault { IfErr result (λ fault. Fails fault (λ (node : StationSide). IsStation node self.old)
            (λ (node : StationSide). steps clock node.link node.services (station_does (station_tick node.core))) ⊥) }
    {
        node::tick(
            self.alloc,
            &mut self.link,
            &mut self.station,
            &self.services,
            &mut NoStore::new(self.alloc),
            clock,
        )
    }

    /// The values of the latest list of parameters, from index 0 up to the first that wasn't taken.
    pub fn params(&self) -> &[Param]
        ensures { result.now ≡ known_values self.now.services.client.values }
    {
        self.services.params()
    }

    /// Sends HEARTBEAT.
    pub fn heartbeat(&mut self, clock: u64) -> Result<Vec<News>, NodeFault>
        ensures done { IfOk result (λ news. (node : StationSide) → IsStation node self.old
            → StationDid (station_beats clock node) self.new [] news.items) }
        ensures reader { reader_of self.new.link.endpoint ≡ reader_of self.old.link.endpoint }
        ensures fault { IfErr result (λ fault. Fails fault (λ (node : StationSide). IsStation node self.old)
            (λ (node : StationSide). station_beats clock node) ⊥) }
    {
        let message = station_heartbeat();
        node::send(
            self.alloc,
            &mut self.link,
            &self.station,
            &mut NoStore::new(self.alloc),
            &message,
            clock,
        )
    }
}
