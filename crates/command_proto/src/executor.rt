// The drone's side of the command protocol.
ghost use Rattle.std.specs.Prelude.{◌≡◌, Some, IfOk, IsFalse};
ghost use Rattle.command_proto.specs.Executor.{new_executor, executor_step, command_comes, does, verdict_on};
ghost use Rattle.command_proto.specs.Executor.{acknowledges, last_in, has_no_room};
ghost use Rattle.command_proto.specs.Answers.{message_in, action_in};

use crate::NoMemory;
use crate::commands::{Command, LastCommand};
use crate::last_commands::LastCommands;
use crate::verdicts::judge;
use mav_messages::{CommandAck, CommandLong, MavResult, Message};
use mav_names::{Name, Stream, is_for};
use plan_items::Action;
use std::alloc::Global;
use std::marker::Model;

/// What a drone's answers to commands depend on: whether it is armed, and whether its mission has an item.
#[derive(Clone, Copy)]
pub struct Ready {
    pub armed: bool,
    pub planned: bool,
}

/// Acknowledges the commands for a node, and says what the drone does at each. For up to 256 streams it keeps the
/// last command that was done, so that a command that is given again is done once (MAVLink guide, Command Protocol).
#[derive(Drop)]
pub struct Executor {
    me: Name,
    last: LastCommands,
}

impl Model for Executor {
    ghost use Rattle.command_proto.specs.Executor.{ExecutorState};

    ghost Value = { ExecutorState };

    ghost view = { λ e. record { me = e.me; last = e.last } };
}

fn acknowledge(to: Stream, command: u16, code: u8) -> Message
    ensures { result ≡ acknowledges to command code }
{
    Message::CommandAck(CommandAck {
        command,
        result: code,
        progress: 0,
        result_param2: 0,
        target_system: to.sys,
        target_component: to.comp,
    })
}

impl Executor {
    /// Allocates all the memory that the executor will need.
    pub fn new(alloc: Global, me: Name) -> Result<Executor, NoMemory>
        ensures { IfOk result (λ e. e ≡ new_executor me) }
    {
        let last = LastCommands::new(alloc)?;
        Ok(Executor { me, last })
    }

    /// The node that executes.
    pub fn me(&self) -> Name
        ensures { result ≡ self.now.me }
    {
        self.me
    }

    // A command that isn't a repetition, for whose result there is room.
    fn act(&mut self, from: Stream, m: &CommandLong, ready: Ready) -> (Message, Option<Action>)
        requires { IsFalse (has_no_room (last_in self.old.last from) self.old.last) }
        ensures executor { self.new ≡ (does self.old from m.now (verdict_on m.now ready)).executor }
        ensures message { Some result.0 ≡ (does self.old from m.now (verdict_on m.now ready)).answer }
        ensures action { result.1 ≡ (does self.old from m.now (verdict_on m.now ready)).action }
    {
        let verdict = judge(m, ready);
        self.last.set(LastCommand {
            stream: from,
            command: Command::of(m),
            result: verdict.result,
        });
        (acknowledge(from, m.command, verdict.result), verdict.action)
    }

    fn command(&mut self, from: Stream, m: &CommandLong, ready: Ready) -> (Message, Option<Action>)
        ensures executor { self.new ≡ (command_comes self.old from m.now ready).executor }
        ensures message { Some result.0 ≡ (command_comes self.old from m.now ready).answer }
        ensures action { result.1 ≡ (command_comes self.old from m.now ready).action }
    {
        match self.last.of(from) {
            Some(last) if m.confirmation > 0 && last.command.is_same(&Command::of(m)) => {
                (acknowledge(from, m.command, last.result), None)
            }
            None if self.last.is_full() => (
                acknowledge(from, m.command, MavResult::TEMPORARILY_REJECTED),
                None,
            ),
            _ => self.act(from, m, ready),
        }
    }

    /// One message of a stream: the acknowledgement of a command for this node, and what the drone does by it.
    pub fn step(
        &mut self,
        from: Stream,
        msg: &Message,
        ready: Ready,
    ) -> Option<(Message, Option<Action>)>
        ensures executor { self.new ≡ (executor_step self.old from msg.now ready).executor }
        ensures message { message_in result ≡ (executor_step self.old from msg.now ready).answer }
        ensures action { action_in result ≡ (executor_step self.old from msg.now ready).action }
    {
        let Message::CommandLong(m) = msg else {
            return None;
        };
        let to = Name {
            sys: m.target_system,
            comp: m.target_component,
        };
        if !is_for(self.me, to) {
            return None;
        }
        Some(self.command(from, m, ready))
    }
}
