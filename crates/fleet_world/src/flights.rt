// Drones that fly, and where they are.
ghost use Rattle.std.specs.Prelude.{◌≡◌, OnOk, IfErr};
ghost use Rattle.node_reports.specs.Calls.{node_flies};
ghost use Rattle.fleet_world.specs.Steps.{calls, flies, locates};
ghost use Rattle.fleet_world.specs.Promises.{Does, Fails};

use crate::calls::Call;
use crate::{World, WorldFault};
use fleet_report::{Event, Report};
use mav_names::Name;

impl World {
    // One tick of the simulator of the drone of this name.
    fn fly_once(&mut self, drone: Name, report: &mut Report) -> Result<(), WorldFault>
        ensures done { OnOk result (Does (λ state. calls state drone (node_flies state.clock))
            self.old self.new report.old report.new) }
        ensures error { IfErr result (Fails (λ state. calls state drone (node_flies state.clock)) self.old) }
    {
        self.call(drone, &Call::Sim, report)
    }

    // So many ticks, one after another.
    pub(crate) fn fly(
        &mut self,
        drone: Name,
        ticks: u64,
        report: &mut Report,
    ) -> Result<(), WorldFault>
        ensures done { OnOk result (Does (flies ticks drone)
            self.old self.new report.old report.new) }
        ensures error { IfErr result (Fails (flies ticks drone) self.old) }
    {
        for _turn in 0..ticks {
            self.fly_once(drone, report)?;
        }
        Ok(())
    }

    // Reports where the drone of this name is.
    pub(crate) fn locate(&mut self, drone: Name, report: &mut Report) -> Result<(), WorldFault>
        ensures done { OnOk result (Does (λ state. locates state drone)
            self.old self.new report.old report.new) }
        ensures error { IfErr result (λ fault. fault ≡ WorldFault.NoMemory) }
    {
        if let Some(at) = self.fleet.location_of(drone) {
            report.add(Event::Located {
                drone,
                x: at.x,
                y: at.y,
                captures: at.captures,
            })?;
        }
        Ok(())
    }
}
