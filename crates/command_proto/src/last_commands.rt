// The last command of each stream of which an executor keeps one.
ghost use Rattle.std.specs.Prelude.{◌≡◌, [], length, not, nat_lt, IsFalse, IfOk, position};
ghost use Rattle.mav_names.specs.Addresses.{same_stream};
ghost use Rattle.command_proto.specs.Executor.{last_in, with_last, has_no_room, most_streams};

use crate::NoMemory;
use crate::commands::LastCommand;
use mav_names::{Stream, is_same_stream};
use std::alloc::Global;
use std::marker::Model;

// The most streams with a last command.
const MAX_STREAMS: usize = 256;

/// The last commands in the order in which their streams came. A stream's is found by one pass over at most
/// 256 entries.
#[derive(Drop)]
pub struct LastCommands {
    entries: Vec<LastCommand>,
}

impl Model for LastCommands {
    ghost use Rattle.std.specs.Prelude.{◌≤◌, List, vec_capacity};
    ghost use Rattle.command_proto.specs.declared.commands.LastCommand.{LastCommand};

    ghost Value = { List LastCommand };

    ghost view = { λ l. l.entries.items };

    ghost invariant = { λ l. 256 ≤ vec_capacity l.entries };
}

fn place(entries: &[LastCommand], stream: Stream) -> Option<usize>
    ensures { result ≡ position (λ l. same_stream l.stream stream) entries.now }
{
    entries
        .iter()
        .position(|l| is_same_stream(l.stream, stream))
}

impl LastCommands {
    pub fn new(alloc: Global) -> Result<LastCommands, NoMemory>
        ensures { IfOk result (λ l. l ≡ []) }
    {
        Ok(LastCommands {
            entries: Vec::with_capacity(alloc, MAX_STREAMS)?,
        })
    }

    pub fn of(&self, stream: Stream) -> Option<LastCommand>
        ensures { result ≡ last_in self.now stream }
    {
        let at = place(&self.entries, stream)?;
        Some(self.entries[at])
    }

    pub fn is_full(&self) -> bool
        ensures { result ≡ not (nat_lt (length self.now) most_streams) }
    {
        self.entries.len() >= MAX_STREAMS
    }

    pub fn set(&mut self, last: LastCommand)
        requires { IsFalse (has_no_room (last_in self.old last.stream) self.old) }
        ensures { self.new ≡ with_last self.old last }
    {
        match place(&self.entries, last.stream) {
            Some(at) => self.entries[at] = last,
            None => self.entries.push_reserved(last),
        }
    }
}
