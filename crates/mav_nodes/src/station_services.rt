// A station's services: commands, parameters and file transfer.
ghost use Rattle.std.specs.Prelude.{◌≡◌, ◌++◌, ◌∷◌, [], OnOk, IfErr, IfOk};
ghost use Rattle.mav_nodes.specs.News.{events_of};
ghost use Rattle.command_proto.specs.Commander.{commander_step};
ghost use Rattle.mav_nodes.specs.Services.{new_station_services, station_waits, station_asked};
ghost use Rattle.mav_nodes.specs.Returned.{shown_of_result, command_again, shown_of_command, shown_of_end};
ghost use Rattle.mav_nodes.specs.Returned.{params_again, shown_of_params};
ghost use Rattle.mav_nodes.specs.Cores.{IsServed};
ghost use Rattle.mav_nodes.specs.Nodes.{service_step};
ghost use Rattle.param_proto.specs.Client.{known_values, client_step};
ghost use Rattle.mav_nodes.specs.declared.faults.NodeFault.TheVariants.{NoMemory};
ghost use Rattle.mav_nodes.specs.declared.faults.OrderFault.TheVariants.{Node};
ghost use Rattle.mav_nodes.specs.Promises.{AcceptsService, RefusesService, OrderKeeps};

use crate::news::report;
use crate::services::{Served, Services, reply};
use crate::station_files::StationFiles;
use crate::steps::PlanNews;
use crate::{News, NoMemory, NodeFault, Order, OrderFault};
use command_proto::{CommandTick, Commander};
use mav_messages::Message;
use mav_names::{Name, Stream};
use param_proto::{Param, ParamClient, ParamEnd, ParamTick};
use plan_upload::Station;
use std::alloc::Global;
use std::marker::Model;

/// Gives commands, reads, sets and lists parameters, and lists, fetches, stores and removes files.
#[derive(Drop)]
pub(crate) struct StationServices {
    commander: Commander,
    client: ParamClient,
    files: StationFiles,
}

impl Model for StationServices {
    ghost use Rattle.mav_nodes.specs.Services.{StationServices};

    ghost Value = { StationServices };

    ghost view = { λ v. record { commander = v.commander; client = v.client; files = v.files } };
}

// The result of a command, if there is one.
fn tell_result(ended: Option<u8>, last: &mut Vec<News>) -> Result<(), NoMemory>
    ensures { OnOk result (events_of last.new.items ≡ events_of last.old.items ++ shown_of_result ended) }
{
    match ended {
        Some(result) => report(last, News::Command(Some(result))),
        None => Ok(()),
    }
}

// The end of what was asked of parameters, if there is one.
fn tell_end(end: Option<ParamEnd>, last: &mut Vec<News>) -> Result<(), NoMemory>
    ensures { OnOk result (events_of last.new.items ≡ events_of last.old.items ++ shown_of_end end) }
{
    match end {
        None => Ok(()),
        Some(ParamEnd::One(param)) => report(last, News::Param(param)),
        Some(ParamEnd::All(count)) => report(last, News::Params(Some(count))),
    }
}

// What a tick of the commander brings: the command again, or its end.
fn tell_command(
    tick: CommandTick,
    answers: &mut Vec<Message>,
    last: &mut Vec<News>,
) -> Result<(), NoMemory>
    ensures answers { OnOk result (answers.new.items ≡ answers.old.items ++ command_again tick) }
    ensures last { OnOk result (events_of last.new.items ≡ events_of last.old.items ++ shown_of_command tick) }
{
    match tick {
        CommandTick::Quiet => Ok(()),
        CommandTick::Again(message) => reply(answers, message),
        CommandTick::NoAnswer(_) => report(last, News::Command(None)),
    }
}

// What a tick of the client brings.
fn tell_params(
    tick: ParamTick,
    answers: &mut Vec<Message>,
    last: &mut Vec<News>,
) -> Result<(), NoMemory>
    ensures answers { OnOk result (answers.new.items ≡ answers.old.items ++ params_again tick) }
    ensures last { OnOk result (events_of last.new.items ≡ events_of last.old.items ++ shown_of_params tick) }
{
    match tick {
        ParamTick::Quiet => Ok(()),
        ParamTick::Again(message) => reply(answers, message),
        ParamTick::NoAnswer(_) => report(last, News::Params(None)),
    }
}

// One message is sent, and nothing ends.
fn asked(alloc: Global, message: Message) -> Result<Served, OrderFault>
    ensures answers { IfOk result (λ served. served.answers.items ≡ message ∷ []) }
    ensures last { IfOk result (λ served. served.last.items ≡ []) }
    ensures fault { IfErr result (λ fault. fault ≡ Node NoMemory) }
{
    let mut answers = Vec::new(alloc);
    match reply(&mut answers, message) {
        Ok(()) => Ok(Served {
            answers,
            last: Vec::new(alloc),
        }),
        Err(_) => Err(OrderFault::Node(NodeFault::NoMemory)),
    }
}

impl StationServices {
    pub(crate) fn new(alloc: Global, me: Name) -> Result<StationServices, NoMemory>
        ensures { IfOk result (λ v. v ≡ new_station_services me) }
    {
        let client = ParamClient::new(alloc, me)?;
        Ok(StationServices {
            commander: Commander::new(me),
            client,
            files: StationFiles::new(alloc, me),
        })
    }

    /// Drops them where nothing else is owned.
    pub(crate) fn discard(self) {}

    /// The values of the latest list of parameters, from index 0 up to the first that wasn't taken.
    pub(crate) fn params(&self) -> &[Param]
        ensures { result.now ≡ known_values self.now.client.values }
    {
        self.client.got()
    }

    // What the commander and the client of parameters make of a message.
    fn hear(&mut self, alloc: Global, from: Stream, message: &Message) -> Result<Served, NoMemory>
        ensures { IfOk result (IsServed (station_asked self.old (commander_step self.old.commander from message.now)
            (client_step self.old.client from message.now)) self.new) }
    {
        let mut last = Vec::new(alloc);
        tell_result(self.commander.step(from, message), &mut last)?;
        tell_end(self.client.step(from, message), &mut last)?;
        Ok(Served {
            answers: Vec::new(alloc),
            last,
        })
    }

    /// One tick.
    pub(crate) fn wait(&mut self, alloc: Global) -> Result<Served, NoMemory>
        ensures { IfOk result (IsServed (station_waits self.old) self.new) }
    {
        let mut answers = Vec::new(alloc);
        let mut last = Vec::new(alloc);
        tell_command(self.commander.tick(), &mut answers, &mut last)?;
        tell_params(self.client.tick(), &mut answers, &mut last)?;
        self.files.wait(&mut answers, &mut last)?;
        Ok(Served { answers, last })
    }

    /// Follows an order that is theirs, or refuses it.
    pub(crate) fn ask(&mut self, alloc: Global, order: Order) -> Result<Served, OrderFault>
        ensures done { IfOk result (IsServed (service_step self.old order) self.new) }
        ensures accepted { OnOk result (AcceptsService self.old order) }
        ensures refused { IfErr result (λ fault. RefusesService self.old order fault) }
        ensures unchanged { IfErr result (λ fault. OrderKeeps self.old self.new fault) }
    {
        match order {
            Order::Command {
                drone,
                command,
                word,
            } => match self
                .commander
                .issue(drone, command, [word, 0, 0, 0, 0, 0, 0])
            {
                Ok(message) => asked(alloc, message),
                Err(busy) => Err(OrderFault::Command(busy)),
            },
            Order::ParamRead { drone, id } => match self.client.read(drone, id) {
                Ok(message) => asked(alloc, message),
                Err(busy) => Err(OrderFault::Param(busy)),
            },
            Order::ParamSet { drone, param } => match self.client.set(drone, param) {
                Ok(message) => asked(alloc, message),
                Err(busy) => Err(OrderFault::Param(busy)),
            },
            Order::ParamList { drone } => match self.client.list(drone) {
                Ok(message) => asked(alloc, message),
                Err(busy) => Err(OrderFault::Param(busy)),
            },
            Order::File { drone, op } => match self.files.begin(drone, op) {
                Ok(message) => asked(alloc, message),
                Err(fault) => Err(OrderFault::File(fault)),
            },
            _ => Ok(Served {
                answers: Vec::new(alloc),
                last: Vec::new(alloc),
            }),
        }
    }
}

impl Services<Station> for StationServices {
    ghost use Rattle.mav_nodes.specs.Services.{station_serves};

    ghost noted = { λ services events. services };

    ghost served = { λ station. station_serves };

    fn note(&mut self, _plans: &PlanNews) {}

    fn serve(
        &mut self,
        alloc: Global,
        _core: &Station,
        from: Stream,
        message: &Message,
    ) -> Result<Served, NoMemory> {
        let mut served = self.hear(alloc, from, message)?;
        self.files
            .hear(from, message, &mut served.answers, &mut served.last)?;
        Ok(served)
    }
}
