// A drone's services: commands, parameters, files and its simulator.
ghost use Rattle.std.specs.Prelude.{◌≡◌, ◌++◌, [], OnOk, IfOk};
ghost use Rattle.std.specs.List.{list_any};
ghost use Rattle.param_proto.specs.Server.{new_server, server_step};
ghost use Rattle.mav_nodes.specs.News.{Shows_emptied};
ghost use Rattle.mav_nodes.specs.Cores.{IsServed, said_of_plans, shows_mission};
ghost use Rattle.command_proto.specs.Executor.{executor_step};
ghost use Rattle.mav_nodes.specs.Services.{drone_params, new_drone_services, drone_flies, drone_executes, ready_of};
ghost use Rattle.mav_nodes.specs.Services.{acts_by, sent_of};

use crate::NoMemory;
use crate::drone_files::serve_files;
use crate::drone_flights::{say_flight, sim_step};
use crate::drone_params::drone_params;
use crate::services::{Served, Services, reply};
use crate::steps::PlanNews;
use command_proto::{Executor, Ready};
use drone_sim::Sim;
use mav_ftp::FtpServer;
use mav_messages::Message;
use mav_names::{Stream, drone_name};
use param_proto::ParamServer;
use plan_items::PlanKind;
use plan_upload::Drone;
use std::alloc::{AllocError, Global};
use std::marker::Model;

// So many milliseconds pass in one tick of the simulator.
const TICK: u32 = 1_000;

/// Executes commands, serves parameters and files, and flies the drone: the time in milliseconds since its start is
/// that of the simulator.
#[derive(Drop)]
pub(crate) struct DroneServices {
    sim: Sim,
    time: u32,
    executor: Executor,
    server: ParamServer,
    files: FtpServer,
}

impl Model for DroneServices {
    ghost use Rattle.mav_nodes.specs.Services.{DroneServices};

    ghost Value = { DroneServices };

    ghost view = { λ v. record {
      sim = v.sim;
      time = v.time;
      executor = v.executor;
      server = v.server;
      files = v.files;
    } };
}

fn is_mission(kind: PlanKind) -> bool
    ensures { result ≡ shows_mission (Shows_emptied kind) }
{
    match kind {
        PlanKind::Mission => true,
        PlanKind::Fence | PlanKind::Rally => false,
    }
}

// The mission was installed or emptied.
fn changes_mission(plans: &PlanNews) -> bool
    ensures { result ≡ list_any shows_mission (said_of_plans plans.now) }
{
    match plans {
        PlanNews::Same => false,
        PlanNews::Installed(kind, _, _) => is_mission(*kind),
        PlanNews::Emptied(Some(kind)) => is_mission(*kind),
        PlanNews::Emptied(None) => true,
    }
}

// The answers of the parameters, after others.
fn take_all(server: &mut ParamServer, answers: &mut Vec<Message>) -> Result<(), NoMemory>
    ensures answers { OnOk result (answers.new.items ≡ answers.old.items ++ server.old.waiting) }
    ensures server { OnOk result (server.new ≡ record server.old { waiting = [] }) }
{
    while let Some(answer) = server.take() {
        reply(answers, answer)?;
    }
    Ok(())
}

impl DroneServices {
    /// Those of a drone of that system at its start: disarmed, with its parameters as at first.
    pub(crate) fn new(alloc: Global, sys: u8, x: i32, y: i32) -> Result<DroneServices, NoMemory>
        ensures { IfOk result (λ v. v ≡ new_drone_services sys (record { x = x; y = y })) }
    {
        let executor = Executor::new(alloc, drone_name(sys))?;
        let server = served_params(alloc, x, y)?;
        let files = FtpServer::new(alloc)?;
        Ok(DroneServices {
            sim: Sim::new(x, y),
            time: 0,
            executor,
            server,
            files,
        })
    }

    /// Drops them where nothing else is owned.
    pub(crate) fn discard(self) {}

    /// The drone that is simulated.
    pub(crate) fn sim(&self) -> &Sim
        ensures { result.now ≡ self.now.sim }
    {
        &self.sim
    }

    // What the executor does at a message, and what the drone does by it.
    fn obey(
        &mut self,
        from: Stream,
        message: &Message,
        ready: Ready,
        answers: &mut Vec<Message>,
    ) -> Result<(), NoMemory>
        ensures services { OnOk result (self.new ≡ record self.old {
          sim = acts_by self.old.sim (executor_step self.old.executor from message.now ready).action;
          executor = (executor_step self.old.executor from message.now ready).executor;
        }) }
        ensures answers { OnOk result (answers.new.items ≡ answers.old.items
            ++ sent_of (executor_step self.old.executor from message.now ready).answer) }
    {
        let Some((answer, action)) = self.executor.step(from, message, ready) else {
            return Ok(());
        };
        if let Some(action) = action {
            self.sim.act(action);
        }
        reply(answers, answer)
    }

    // What the executor and the parameters do at a message.
    fn execute(
        &mut self,
        alloc: Global,
        core: &Drone,
        from: Stream,
        message: &Message,
    ) -> Result<Served, NoMemory>
        ensures { IfOk result (IsServed (drone_executes self.old
            (executor_step self.old.executor from message.now (ready_of core.now self.old))
            (server_step self.old.server self.old.executor.me message.now)) self.new) }
    {
        let me = self.executor.me();
        let planned = core.plan(PlanKind::Mission).len() > 0;
        let ready = Ready {
            armed: self.sim.armed(),
            planned,
        };
        let mut answers = Vec::new(alloc);
        self.obey(from, message, ready, &mut answers)?;
        self.server.step(me, message);
        take_all(&mut self.server, &mut answers)?;
        Ok(Served {
            answers,
            last: Vec::new(alloc),
        })
    }

    /// One tick of the simulator, over the mission of the plan core.
    pub(crate) fn fly(&mut self, alloc: Global, core: &Drone) -> Result<Served, NoMemory>
        ensures { IfOk result (IsServed (drone_flies core.now self.old) self.new) }
    {
        let step = sim_step(&self.server);
        let news = self.sim.tick(core.plan(PlanKind::Mission), step);
        self.time = self.time.wrapping_add(TICK);
        say_flight(alloc, self.time, &news, self.sim.captures())
    }
}

// The server of a drone's parameters: their types are types, and their ids are apart.
fn served_params(alloc: Global, x: i32, y: i32) -> Result<ParamServer, NoMemory>
    ensures { IfOk result (λ s. s ≡ new_server (drone_params (record { x = x; y = y }))) }
{
    let params = drone_params(alloc, x, y)?;
    match ParamServer::new(alloc, params) {
        Ok(server) => Ok(server),
        Err(_) => Err(AllocError),
    }
}

impl Services<Drone> for DroneServices {
    ghost use Rattle.mav_nodes.specs.Services.{drone_serves, drone_notes};

    ghost noted = { drone_notes };

    ghost served = { drone_serves };

    fn note(&mut self, plans: &PlanNews) {
        if changes_mission(plans) {
            self.sim.changed();
        }
    }

    fn serve(
        &mut self,
        alloc: Global,
        core: &Drone,
        from: Stream,
        message: &Message,
    ) -> Result<Served, NoMemory> {
        let me = self.executor.me();
        let mut served = self.execute(alloc, core, from, message)?;
        serve_files(&mut self.files, me, from, message, &mut served.answers)?;
        Ok(served)
    }
}
