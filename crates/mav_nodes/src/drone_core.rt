// A drone's plan core.
ghost use Rattle.std.specs.Prelude.{◌≡◌, map};
ghost use Rattle.mav_nodes.specs.News.{shown};
ghost use Rattle.mav_nodes.specs.Cores.{said_of_plans};
ghost use Rattle.mav_nodes.specs.Nodes.{change_events};

use crate::NoMemory;
use crate::steps::{Core, PlanNews, Step};
use mav_names::Stream;
use plan_items::PlanMsg;
use plan_upload::{Change, Drone};
use std::alloc::Global;

impl Core for Drone {
    ghost use Rattle.mav_nodes.specs.Nodes.{drone_core_keeping, drone_waits};
    ghost use Rattle.plan_upload.specs.Drone.{drone_tick};
    ghost use Rattle.mav_nodes.specs.Images.{IsStored};

    ghost taken = { drone_core_keeping };

    ghost waited = { λ d. drone_waits (drone_tick d) };

    ghost stored = { IsStored };

    fn image(&self, alloc: Global, low: u64) -> Result<Option<Vec<u8>>, NoMemory> {
        Ok(Some(self.kept(alloc, low)?))
    }

    fn image_after(
        &self,
        alloc: Global,
        low: u64,
        from: Stream,
        message: &PlanMsg,
    ) -> Result<Option<Vec<u8>>, NoMemory> {
        match self.change(from, message) {
            Change::Same => Ok(None),
            _ => Ok(Some(self.kept_after(alloc, low, from, message)?)),
        }
    }

    fn take(&mut self, kept: bool, from: Stream, message: &PlanMsg) -> Step {
        let done = self.step(kept, from, message);
        Step {
            plans: plan_news(self, from, done.change),
            answer: done.answer,
            outcome: None,
        }
    }

    fn wait(&mut self) -> Step {
        let answer = match self.tick() {
            Some((_, message)) => Some(message),
            None => None,
        };
        Step {
            plans: PlanNews::Same,
            answer,
            outcome: None,
        }
    }
}

// What a change did to the drone's plans.
fn plan_news(drone: &Drone, by: Stream, change: Change) -> PlanNews
    ensures { said_of_plans result ≡ map shown (change_events by drone.now.plans change) }
{
    match change {
        Change::Same => PlanNews::Same,
        Change::Install(kind) => { PlanNews::Installed(kind, drone.plan(kind).len() as u16, by) }
        Change::Empty(kind) => PlanNews::Emptied(kind),
    }
}
