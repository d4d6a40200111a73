// The station's side of the command protocol.
ghost use Rattle.std.specs.Prelude.{◌≡◌, Some, None, IfOk, IfErr, OnOk, OnErr};
ghost use Rattle.std.specs.Option.{option_map};
ghost use Rattle.command_proto.specs.Commander.{new_commander, commands, open_command, command_message, counts};
ghost use Rattle.command_proto.specs.Commander.{commander_step, commander_tick, idle_limit, Result};
ghost use Rattle.command_proto.specs.Answers.{given_in, end_in, ticks_in};

use crate::commands::{Command, Issue};
use crate::{CommandBusy, CommandTick};
use mav_messages::{CommandAck, CommandLong, MavResult, Message};
use mav_names::{Name, Stream, is_same_name, is_same_stream};
use std::marker::Model;

// A command ends at the fifth tick in a row without an acknowledgement.
const MAX_IDLE: u8 = 4;

/// Gives a drone one command at a time, and gives it again at each tick until it is acknowledged with a result, or at
/// the fifth tick in a row ends it (MAVLink guide, Command Protocol).
#[derive(Drop)]
pub struct Commander {
    me: Name,
    issue: Option<Issue>,
}

impl Model for Commander {
    ghost use Rattle.std.specs.Prelude.{◌<◌, IfSome};
    ghost use Rattle.command_proto.specs.Commander.{CommanderState, idle_limit};

    ghost Value = { CommanderState };

    ghost view = { λ c. record { me = c.me; issue = c.issue } };

    ghost invariant = { λ c. IfSome c.issue (λ i. i.idle < idle_limit) };
}

// COMMAND_LONG of an issue.
fn message_of(issue: &Issue) -> Message
    ensures { result ≡ command_message issue.now }
{
    let [param1, param2, param3, param4, param5, param6, param7] = issue.command.params;
    Message::CommandLong(CommandLong {
        target_system: issue.drone.sys,
        target_component: issue.drone.comp,
        command: issue.command.number,
        confirmation: issue.confirmation,
        param1,
        param2,
        param3,
        param4,
        param5,
        param6,
        param7,
    })
}

// Whether an acknowledgement is one of the issue, for this commander.
fn is_for_issue(me: Name, issue: &Issue, from: Stream, m: &CommandAck) -> bool
    ensures { result ≡ counts me issue.now from m.now }
{
    let to = Name {
        sys: m.target_system,
        comp: m.target_component,
    };
    is_same_stream(issue.drone, from)
        && (m.command == issue.command.number
            && (is_same_name(to, me) || is_same_name(to, Name { sys: 0, comp: 0 })))
}

impl Commander {
    /// A commander with its own name, and no command open.
    pub fn new(me: Name) -> Commander
        ensures { result ≡ new_commander me }
    {
        Commander { me, issue: None }
    }

    /// Gives a command, with the words of its seven parameters; returns the message to send.
    pub fn issue(
        &mut self,
        drone: Stream,
        command: u16,
        p: [u32; 7],
    ) -> Result<Message, CommandBusy>
        ensures ok { OnOk result (self.new ≡ (commands self.old drone
            (record { number = command; params = p })).commander) }
        ensures message { IfOk result (λ m. Some m
            ≡ (commands self.old drone (record { number = command; params = p })).answer) }

        // It is refused exactly if a command is open.
        ensures accepted { OnOk result (open_command self.old ≡ None) }
        ensures refused { IfErr result (λ busy. open_command self.old ≡ Some busy.command) }
        ensures err { OnErr result (self.new ≡ self.old) }
    {
        if let Some(issue) = self.issue {
            return Err(CommandBusy {
                command: issue.command.number,
            });
        }
        let issue = Issue {
            drone,
            command: Command {
                number: command,
                params: p,
            },
            confirmation: 0,
            idle: 0,
        };
        self.issue = Some(issue);
        Ok(message_of(&issue))
    }

    /// One message of a stream: the result of the open command, if it ends it.
    pub fn step(&mut self, from: Stream, msg: &Message) -> Option<u8>
        ensures commander { self.new ≡ (commander_step self.old from msg.now).commander }
        ensures end { option_map Result result ≡ (commander_step self.old from msg.now).end }
    {
        let Message::CommandAck(m) = msg else {
            return None;
        };
        let mut issue = self.issue?;
        if !is_for_issue(self.me, &issue, from, m) {
            return None;
        }
        if m.result == MavResult::IN_PROGRESS {
            issue.idle = 0;
            self.issue = Some(issue);
            return None;
        }
        self.issue = None;
        Some(m.result)
    }

    /// One tick: the command is given again, with a confirmation one higher that stays at 255, or ends.
    pub fn tick(&mut self) -> CommandTick
        ensures commander { self.new ≡ (commander_tick self.old).commander }
        ensures message { given_in result ≡ (commander_tick self.old).answer }
        ensures end { end_in result ≡ (commander_tick self.old).end }
        ensures ticks { ticks_in result ≡ option_map (λ _. idle_limit) (commander_tick self.old).end }
    {
        let Some(mut issue) = self.issue else {
            return CommandTick::Quiet;
        };
        if issue.idle == MAX_IDLE {
            self.issue = None;
            return CommandTick::NoAnswer(MAX_IDLE + 1);
        }
        issue.confirmation = issue.confirmation.saturating_add(1);
        issue.idle += 1;
        self.issue = Some(issue);
        CommandTick::Again(message_of(&issue))
    }
}
