// Orders to stations.
ghost use Rattle.std.specs.Prelude.{◌≡◌, ◌<◌, [], None, Some, OnOk, IfErr, length, slice_get};
ghost use Rattle.mav_nodes.specs.Nodes.{StationSide};
ghost use Rattle.plan_items.specs.Kinds.{number_of};
ghost use Rattle.plan_items.specs.Plans.{items_of};
ghost use Rattle.plan_upload.specs.Kinds.{clear_number};
ghost use Rattle.plan_upload.specs.Addresses.{node_of};
ghost use Rattle.node_reports.specs.Nodes.{Station as StateStation};
ghost use Rattle.fleet_world.specs.WorldState.{WorldState};
ghost use Rattle.fleet_world.specs.WorldView.{WorldView, IsState};
ghost use Rattle.fleet_world.specs.Steps.{station_line, orders_to, begins, clears, gets, commands, lists_params};
ghost use Rattle.fleet_world.specs.NodeSteps.{obeys};
ghost use Rattle.fleet_world.specs.Promises.{HasOrdered, WorldOutcome, IsStepError, RefusalReported, IsGivenUp, Does};
ghost use Rattle.fleet_world.specs.Promises.{Fails};

use crate::fleet::stream;
use crate::{World, WorldFault};
use fleet_report::{Event, Report};
use mav_names::Name;
use mav_nodes::{News, Order, OrderFault};
use plan_items::{Plan, PlanKind};
use plan_upload::OpFault;
use std::mem;

impl World {
    // The flows that follow give what is sent from here on.
    fn skip_sent(&mut self)
        ensures { (state : WorldState) → IsState state self.old.frames self.old
            → IsState (station_line state) self.old.frames self.new }
    {
        self.given = self.sent.len();
    }

    fn take_draft(&mut self) -> Plan
        ensures items { items_of result ≡ self.old.draft }
        ensures after { self.new ≡ record self.old { draft = [] } }
    {
        mem::replace(&mut self.draft, Plan::new(self.alloc))
    }

    // A refusal is reported, and a plan that is handed back becomes the draft.
    fn refuse(
        &mut self,
        station: Name,
        fault: OrderFault,
        report: &mut Report,
    ) -> Result<(), WorldFault>
        ensures done { OnOk result (RefusalReported station fault self.old self.new report.old report.new) }
        ensures error { IfErr result (λ e. IsGivenUp fault e) }
    {
        match fault {
            OrderFault::Begin(fault) => {
                self.draft = fault.plan;
                report.add(Event::Refused(station, fault.why))?;
                Ok(())
            }
            OrderFault::Op(OpFault::NoMemory) => Err(WorldFault::NoMemory),
            OrderFault::Op(why) => {
                report.add(Event::Refused(station, why))?;
                Ok(())
            }
            OrderFault::Command(_) => {
                report.add(Event::CommandRefused(station))?;
                Ok(())
            }
            OrderFault::Param(_) => {
                report.add(Event::ParamsRefused(station))?;
                Ok(())
            }
            OrderFault::File(_) => Ok(()),
            OrderFault::Node(fault) => Err(WorldFault::Node(fault)),
        }
    }

    // The station at an index has followed an order, or refused it.
    fn report_order(
        &mut self,
        index: usize,
        station: Name,
        outcome: Result<Vec<News>, OrderFault>,
        report: &mut Report,
    ) -> Result<(), WorldFault>
        requires { index < length self.old.fleet.nodes }
        ensures done { OnOk result ((before : WorldView) → (order : Order)
            → HasOrdered before.fleet index order outcome self.old.fleet
            → self.old ≡ record before { fleet = self.old.fleet }
            → (state : WorldState) → (node : StationSide) → IsState state before.frames before
            → slice_get state.nodes index ≡ Some (StateStation node)
            → WorldOutcome (obeys state index station node order) before.frames self.new report.old report.new) }
        ensures error { IfErr result (λ fault. (before : WorldView) → (order : Order)
            → HasOrdered before.fleet index order outcome self.old.fleet
            → self.old ≡ record before { fleet = self.old.fleet }
            → (state : WorldState) → (node : StationSide) → IsState state before.frames before
            → slice_get state.nodes index ≡ Some (StateStation node)
            → IsStepError (obeys state index station node order) fault) }
    {
        match outcome {
            Ok(news) => self.report_news(index, station, news.as_slice(), report),
            Err(fault) => self.refuse(station, fault, report),
        }
    }

    // The station of this name is given an order without a plan.
    pub(crate) fn order(
        &mut self,
        station: Name,
        order: Order,
        report: &mut Report,
    ) -> Result<(), WorldFault>
        ensures done { OnOk result (Does (λ state. orders_to (station_line state) station
            (λ k node. obeys (station_line state) k (node_of node.link.me) node order))
            self.old self.new report.old report.new) }
        ensures error { IfErr result (Fails (λ state. orders_to (station_line state) station
            (λ k node. obeys (station_line state) k (node_of node.link.me) node order)) self.old) }
    {
        self.skip_sent();
        let Some(index) = self.fleet.index_of_station(station) else {
            return Ok(());
        };
        let outcome = self.fleet.order_at(index, order);
        self.report_order(index, station, outcome, report)
    }

    // A clear of a drone's plans begins.
    pub(crate) fn clear(
        &mut self,
        station: Name,
        drone: Name,
        kind: Option<PlanKind>,
        report: &mut Report,
    ) -> Result<(), WorldFault>
        ensures done { OnOk result (Does (λ state. clears (station_line state) station drone (clear_number kind))
            self.old self.new report.old report.new) }
        ensures error { IfErr result (Fails (λ state. clears (station_line state) station drone (clear_number kind))
            self.old) }
    {
        let drone = stream(drone);
        self.order(station, Order::Clear { drone, kind }, report)
    }

    // A download begins.
    pub(crate) fn get(
        &mut self,
        station: Name,
        drone: Name,
        kind: PlanKind,
        report: &mut Report,
    ) -> Result<(), WorldFault>
        ensures done { OnOk result (Does (λ state. gets (station_line state) station drone (number_of kind))
            self.old self.new report.old report.new) }
        ensures error { IfErr result (Fails (λ state. gets (station_line state) station drone (number_of kind))
            self.old) }
    {
        let drone = stream(drone);
        self.order(station, Order::Get { drone, kind }, report)
    }

    // A command is given to a drone, whose first parameter is the float of this word.
    pub(crate) fn command(
        &mut self,
        station: Name,
        drone: Name,
        number: u16,
        word: u32,
        report: &mut Report,
    ) -> Result<(), WorldFault>
        ensures done { OnOk result (Does (λ state. commands (station_line state) station drone number word)
            self.old self.new report.old report.new) }
        ensures error { IfErr result (Fails (λ state. commands (station_line state) station drone number word)
            self.old) }
    {
        let drone = stream(drone);
        let order = Order::Command {
            drone,
            command: number,
            word,
        };
        self.order(station, order, report)
    }

    // A list of a drone's parameters begins.
    pub(crate) fn list_params(
        &mut self,
        station: Name,
        drone: Name,
        report: &mut Report,
    ) -> Result<(), WorldFault>
        ensures done { OnOk result (Does (λ state. lists_params (station_line state) station drone)
            self.old self.new report.old report.new) }
        ensures error { IfErr result (Fails (λ state. lists_params (station_line state) station drone) self.old) }
    {
        let drone = stream(drone);
        self.order(station, Order::ParamList { drone }, report)
    }

    // An upload of the draft begins; one that is refused leaves it.
    pub(crate) fn begin(
        &mut self,
        station: Name,
        drone: Name,
        kind: PlanKind,
        report: &mut Report,
    ) -> Result<(), WorldFault>
        ensures done { OnOk result (Does (λ state. begins (station_line state) station drone (number_of kind))
            self.old self.new report.old report.new) }
        ensures error { IfErr result (Fails (λ state. begins (station_line state) station drone (number_of kind))
            self.old) }
    {
        self.skip_sent();
        let Some(index) = self.fleet.index_of_station(station) else {
            return Ok(());
        };
        let (drone, plan) = (stream(drone), self.take_draft());
        let outcome = self
            .fleet
            .order_at(index, Order::Begin { drone, kind, plan });
        self.report_order(index, station, outcome, report)
    }
}
