// A station's side of file transfer.
ghost use Rattle.std.specs.Prelude.{◌≡◌, ◌++◌, ◌∷◌, [], None, Some, map, OnOk, OnErr, IfOk, IfErr};
ghost use Rattle.mav_ftp.specs.Client.{order_fault};
ghost use Rattle.mav_nodes.specs.News.{events_of, shown};
ghost use Rattle.mav_nodes.specs.FileServices.{new_station_files, file_order, begins, transfer_heard, transfer_waits};
ghost use Rattle.mav_nodes.specs.FileServices.{sent_of_step, end_of_step, sent_of_tick, end_of_tick};
ghost use Rattle.mav_nodes.specs.Services.{file_events};

use crate::drone_files::{file_message, target_of};
use crate::news::report;
use crate::services::reply;
use crate::{FileEnd, FileOp, News, NoMemory};
use mav_ftp::{FtpClient, FtpFault, FtpStep, FtpTick};
use mav_messages::Message;
use mav_names::{Name, Stream, is_same_name, is_same_stream};
use std::alloc::Global;
use std::marker::Model;

// No node has system 0.
const NOBODY: Stream = Stream {
    sys: 0,
    comp: 0,
    link: 0,
};

/// Lists, fetches, stores and removes the files of one drone at a time.
#[derive(Drop)]
pub(crate) struct StationFiles {
    me: Name,
    drone: Stream,
    client: FtpClient,
}

impl Model for StationFiles {
    ghost use Rattle.mav_nodes.specs.FileServices.{StationFiles};

    ghost Value = { StationFiles };

    ghost view = { λ v. record { me = v.me; drone = v.drone; transfer = v.client } };
}

// What a client's step sends to its drone, or how its operation ended.
fn tell_step(
    drone: Stream,
    step: FtpStep,
    answers: &mut Vec<Message>,
    last: &mut Vec<News>,
) -> Result<(), NoMemory>
    ensures answers { OnOk result (answers.new.items ≡ answers.old.items ++ sent_of_step drone step) }
    ensures last { OnOk result (events_of last.new.items ≡ events_of last.old.items
        ++ map shown (file_events (end_of_step step))) }
{
    match step {
        FtpStep::Quiet => Ok(()),
        FtpStep::Send(payload) => reply(answers, file_message(drone, payload)),
        FtpStep::Done(bytes) => report(last, News::File(FileEnd::Done(bytes))),
        FtpStep::Refused(code) => report(last, News::File(FileEnd::Refused(code))),
    }
}

// The same of a tick.
fn tell_tick(
    drone: Stream,
    tick: FtpTick,
    answers: &mut Vec<Message>,
    last: &mut Vec<News>,
) -> Result<(), NoMemory>
    ensures answers { OnOk result (answers.new.items ≡ answers.old.items ++ sent_of_tick drone tick) }
    ensures last { OnOk result (events_of last.new.items ≡ events_of last.old.items
        ++ map shown (file_events (end_of_tick tick))) }
{
    match tick {
        FtpTick::Quiet => Ok(()),
        FtpTick::Again(payload) => reply(answers, file_message(drone, payload)),
        FtpTick::NoAnswer(_) => report(last, News::File(FileEnd::NoAnswer)),
    }
}

impl StationFiles {
    pub(crate) fn new(alloc: Global, me: Name) -> StationFiles
        ensures { result ≡ new_station_files me }
    {
        StationFiles {
            me,
            drone: NOBODY,
            client: FtpClient::new(alloc),
        }
    }

    /// Begins an operation on the files of a drone, or refuses it.
    pub(crate) fn begin(&mut self, drone: Stream, op: FileOp) -> Result<Message, FtpFault>
        ensures files { OnOk result (self.new ≡ (begins self.old drone (file_order op)).files) }
        ensures message { IfOk result (λ m. m ∷ [] ≡ (begins self.old drone (file_order op)).answers) }
        ensures accepted { OnOk result (order_fault self.old.transfer (file_order op) ≡ None) }
        ensures refused { IfErr result (λ f. order_fault self.old.transfer (file_order op) ≡ Some f) }
        ensures unchanged { OnErr result (self.new ≡ self.old) }
    {
        let payload = match op {
            FileOp::List => self.client.list()?,
            FileOp::Fetch(name) => self.client.fetch(name.bytes())?,
            FileOp::Store(name, bytes) => self.client.store(name.bytes(), bytes)?,
            FileOp::Remove(name) => self.client.remove(name.bytes())?,
        };
        self.drone = drone;
        Ok(file_message(drone, payload))
    }

    /// Takes a payload of the operation's drone that is for this node.
    pub(crate) fn hear(
        &mut self,
        from: Stream,
        message: &Message,
        answers: &mut Vec<Message>,
        last: &mut Vec<News>,
    ) -> Result<(), NoMemory>
        ensures files { OnOk result (self.new ≡ (transfer_heard self.old from message.now).files) }
        ensures answers { OnOk result (answers.new.items ≡ answers.old.items
            ++ (transfer_heard self.old from message.now).answers) }
        ensures last { OnOk result (events_of last.new.items ≡ events_of last.old.items
            ++ map shown (file_events (transfer_heard self.old from message.now).end)) }
    {
        let Message::FileTransferProtocol(reply) = message else {
            return Ok(());
        };
        if !(is_same_stream(self.drone, from) && is_same_name(self.me, target_of(reply))) {
            return Ok(());
        }
        let step = self.client.step(&reply.payload)?;
        tell_step(self.drone, step, answers, last)
    }

    /// One tick.
    pub(crate) fn wait(
        &mut self,
        answers: &mut Vec<Message>,
        last: &mut Vec<News>,
    ) -> Result<(), NoMemory>
        ensures files { OnOk result (self.new ≡ (transfer_waits self.old).files) }
        ensures answers { OnOk result (answers.new.items ≡ answers.old.items ++ (transfer_waits self.old).answers) }
        ensures last { OnOk result (events_of last.new.items ≡ events_of last.old.items
            ++ map shown (file_events (transfer_waits self.old).end)) }
    {
        let tick = self.client.tick();
        tell_tick(self.drone, tick, answers, last)
    }
}
