// What each line does.
ghost use Rattle.std.specs.Prelude.{◌≡◌, ◌≤◌, false, OnOk, IfErr};
ghost use Rattle.scenario_lines.specs.Permits.{IsPermitted};
ghost use Rattle.scenario_lines.specs.Reasons.{leaves_range, state_reason};
ghost use Rattle.scenario_lines.specs.declared.lines.Line.TheVariants as line;
ghost use Rattle.fleet_world.specs.WorldView.{context_in};
ghost use Rattle.fleet_world.specs.Steps.{after_line};
ghost use Rattle.fleet_world.specs.Promises.{Does, DoesQuietly, Fails};

use crate::calls::Call;
use crate::fleet::stream;
use crate::{Bound, World, WorldFault};
use fleet_report::Report;
use mav_names::Name;
use mav_nodes::Order;
use plan_items::{Item, Plan};
use scenario_lines::{Line, put_items};

const MOST_DRONES: usize = 16;

const MOST_STATIONS: usize = 16;

const MOST_RESTARTS: u64 = 1000;

impl World {
    /// Does one line, and reports its events.
    pub(crate) fn act(&mut self, line: Line, report: &mut Report) -> Result<(), WorldFault>
        requires { IsPermitted (context_in self.old) line }
        ensures done { OnOk result (Does (λ state. after_line state line)
            self.old self.new report.old report.new) }
        ensures error { IfErr result (Fails (λ state. after_line state line) self.old) }
    {
        match line {
            Line::Blank => Ok(()),
            Line::Drone { sys, x, y } => self.add_drone(sys, x, y),
            Line::Station { sys, comp } => self.add_station(Name { sys, comp }),
            Line::Item { item } => self.add_item(item),
            Line::Items { n, first } => self.add_items(n, first),
            Line::Empty => self.empty_draft(),
            Line::Begin {
                station,
                drone,
                kind,
            } => self.begin(station, drone, kind, report),
            Line::Cancel { station } => self.order(station, Order::Cancel, report),
            Line::Clear {
                station,
                drone,
                kind,
            } => self.clear(station, drone, kind, report),
            Line::Get {
                station,
                drone,
                kind,
            } => self.get(station, drone, kind, report),
            Line::Command {
                station,
                drone,
                number,
                word,
            } => self.command(station, drone, number, word, report),
            Line::Params { station, drone } => self.list_params(station, drone, report),
            Line::Heartbeat { node } => self.call(node, &Call::Heartbeat, report),
            Line::Deliver { i, node } => self.deliver(i, node, report),
            Line::Flow { k } => self.flow(k, report),
            Line::Noise { node, bytes } => self.call(node, &Call::Noise(bytes), report),
            Line::Tick { node } => self.call(node, &Call::Tick, report),
            Line::Clock { n } => self.advance(n),
            Line::Restart { drone } => self.restart(drone, report),
            Line::Sim { drone, n } => self.fly(drone, n, report),
            Line::WhereIs { drone } => self.locate(drone, report),
        }
    }

    fn add_drone(&mut self, sys: u8, x: i32, y: i32) -> Result<(), WorldFault>
        ensures done { OnOk result (DoesQuietly (λ state. after_line state (line.Drone sys x y)) self.old self.new) }
        ensures error { IfErr result (Fails (λ state. after_line state (line.Drone sys x y)) self.old) }
    {
        if self.fleet.drones() >= MOST_DRONES {
            return Err(WorldFault::Limit(Bound::Drones));
        }
        self.fleet.add_drone(sys, x, y)?;
        Ok(())
    }

    fn add_station(&mut self, name: Name) -> Result<(), WorldFault>
        ensures done { OnOk result (DoesQuietly (λ state. after_line state (line.Station name.sys name.comp)) self.old
            self.new) }
        ensures error { IfErr result (Fails (λ state. after_line state (line.Station name.sys name.comp)) self.old) }
    {
        if self.fleet.stations() >= MOST_STATIONS {
            return Err(WorldFault::Limit(Bound::Stations));
        }
        self.fleet.add_station(name)?;
        Ok(())
    }

    fn add_item(&mut self, item: Item) -> Result<(), WorldFault>
        ensures done { OnOk result (DoesQuietly (λ state. after_line state (line.Item item)) self.old self.new) }
        ensures error { IfErr result (λ fault. fault ≡ WorldFault.NoMemory) }
    {
        self.draft.push(item)?;
        Ok(())
    }

    fn add_items(&mut self, count: u64, first: Item) -> Result<(), WorldFault>
        requires few { count ≤ 2000 }
        requires fits { leaves_range count first ≡ false }
        ensures done { OnOk result (DoesQuietly (λ state. after_line state (line.Items count first)) self.old
            self.new) }
        ensures error { IfErr result (λ fault. fault ≡ WorldFault.NoMemory) }
    {
        put_items(&mut self.draft, count, first)?;
        Ok(())
    }

    fn empty_draft(&mut self) -> Result<(), WorldFault>
        ensures done { OnOk result (DoesQuietly (λ state. after_line state line.Empty) self.old self.new) }
        ensures error { IfErr result (λ fault. fault ≡ WorldFault.NoMemory) }
    {
        self.draft = Plan::new(self.alloc);
        Ok(())
    }

    // The clock goes up.
    fn advance(&mut self, by: u64) -> Result<(), WorldFault>
        requires { state_reason (context_in self.old) (line.Clock by) ≡ None }
        ensures done { OnOk result (DoesQuietly (λ state. after_line state (line.Clock by)) self.old self.new) }
        ensures error { IfErr result (λ fault. fault ≡ WorldFault.NoMemory) }
    {
        self.fleet.advance(by);
        Ok(())
    }

    // The drone of this name starts again.
    fn restart(&mut self, drone: Name, report: &mut Report) -> Result<(), WorldFault>
        ensures done { OnOk result (Does (λ state. after_line state (line.Restart drone))
            self.old self.new report.old report.new) }
        ensures error { IfErr result (Fails (λ state. after_line state (line.Restart drone)) self.old) }
    {
        if self.restarts >= MOST_RESTARTS {
            return Err(WorldFault::Limit(Bound::Restarts));
        }
        self.restarts += 1;
        match self.fleet.index_of_drone(drone) {
            Some(index) => self.restart_at(index, drone, report),
            None => Ok(()),
        }
    }
}
