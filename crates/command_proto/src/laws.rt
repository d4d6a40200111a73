// What holds of every step, by the definitions alone.
ghost use Rattle.std.specs.Prelude.{◌≡◌, ◌≢◌, ◌⊎◌, ◌+◌, ◌<◌, ◌≤◌, true, false, List, length, Some, None};
ghost use Rattle.std.specs.List.{IsDistinct};
ghost use Rattle.std.specs.Option.{option_map};
ghost use Rattle.field_layout.specs.Payload.{FitsLayout};
ghost use Rattle.mav_names.specs.Addresses.{same_stream, is_for_node};
ghost use Rattle.mav_names.specs.declared.names.Name.{Name};
ghost use Rattle.mav_names.specs.declared.names.Stream.{Stream};
ghost use Rattle.mav_messages.specs.declared.commands.CommandLong.{CommandLong};
ghost use Rattle.mav_messages.specs.declared.messages.Message.{Message};
ghost use Rattle.mav_messages.specs.declared.messages.Message.TheVariants.{CommandLong as Commands};
ghost use Rattle.mav_messages.specs.Messages.{definition_of, values_of};
ghost use Rattle.command_proto.specs.declared.executor.Ready.{Ready};
ghost use Rattle.command_proto.specs.Executor.{Command, LastCommand, ExecutorState, new_executor, executor_step};
ghost use Rattle.command_proto.specs.Executor.{command_in, acknowledges, last_in, with_last};
ghost use Rattle.command_proto.specs.Commander.{CommanderState, first_issue, new_commander, commands, commander_step};
ghost use Rattle.command_proto.specs.Commander.{commander_tick};
ghost use Rattle.command_proto.specs.Laws.{IssueInRange, CommanderInRange, CommanderStepInRange, streams_in};
ghost use Rattle.command_proto.specs.Laws.{ExecutorInRange, ExecutorStepInRange, Received, executor_after};
ghost use Rattle.command_proto.specs.Laws.{latest_done, command_target};

/// What a commander keeps stays in range, and what it sends fits its payload.
pub fn every_commander()
    ensures new { (me : Name) → CommanderInRange (new_commander me) }
    ensures issue { (c : CommanderState) → (drone : Stream) → (command : Command)
        → IssueInRange (first_issue drone command) → CommanderStepInRange (commands c drone command) }
    ensures step { (c : CommanderState) → (from : Stream) → (m : Message) → CommanderInRange c
        → CommanderStepInRange (commander_step c from m) }
    ensures tick { (c : CommanderState) → CommanderInRange c → CommanderStepInRange (commander_tick c) }
{}

/// What an executor keeps stays in range, and what it answers to a message that fits its payload fits its own.
pub fn every_executor()
    ensures new { (me : Name) → ExecutorInRange (new_executor me) }
    ensures step { (e : ExecutorState) → (from : Stream) → (m : Message) → (ready : Ready) → ExecutorInRange e
        → from.sys < 256 → from.comp < 256
        → FitsLayout (definition_of m) (values_of m) → ExecutorStepInRange (executor_step e from m ready) }
{}

/// The table of last commands: one of each stream, and at most one more at each command.
pub fn every_last_command()
    ensures apart { (last : List LastCommand) → (new : LastCommand) → IsDistinct same_stream (streams_in last)
        → IsDistinct same_stream (streams_in (with_last last new)) }
    ensures grows { (last : List LastCommand) → (new : LastCommand) → length (with_last last new) ≤ length last + 1 }
{}

/// A command is done once, however often it is given again: until another command of its stream is done, it is the
/// stream's last, and a repetition of that does nothing.
pub fn every_repetition()
    ensures done { (e : ExecutorState) → (from : Stream) → (m : Message) → (ready : Ready) → (c : Command)
        → (executor_step e from m ready).done ≡ Some c
        → option_map (λ (l : LastCommand). l.command) (last_in (executor_step e from m ready).executor.last from)
        ≡ Some c }
    ensures undone { (e : ExecutorState) → (from : Stream) → (m : Message) → (ready : Ready)
        → (executor_step e from m ready).done ≡ None → (executor_step e from m ready).executor ≡ e }
    ensures others { (e : ExecutorState) → (from : Stream) → (m : Message) → (ready : Ready) → (other : Stream)
        → same_stream from other ≡ false
        → last_in (executor_step e from m ready).executor.last other ≡ last_in e.last other }
    ensures again { (e : ExecutorState) → (from : Stream) → (m : CommandLong) → (ready : Ready) → (l : LastCommand)
        → last_in e.last from ≡ Some l → 0 < m.confirmation → command_in m ≡ l.command
        → (executor_step e from (Commands m) ready).done ≡ None }
    ensures answered { (e : ExecutorState) → (from : Stream) → (m : CommandLong) → (ready : Ready) → (l : LastCommand)
        → last_in e.last from ≡ Some l → 0 < m.confirmation → command_in m ≡ l.command
        → is_for_node e.me (command_target m) ≡ true
        → (executor_step e from (Commands m) ready).answer ≡ Some (acknowledges from m.command l.result) }
    ensures idle { (e : ExecutorState) → (from : Stream) → (m : Message) → (ready : Ready)
        → (executor_step e from m ready).done ≡ None → (executor_step e from m ready).action ≡ None }
{}

/// Over a whole run: the last command that is kept of a stream is the latest of it that was done. A repetition of that
/// does nothing, and each other command for the node is done or temporarily rejected.
pub fn every_run()
    ensures latest { (me : Name) → (rs : List Received) → (s : Stream)
        → option_map (λ (l : LastCommand). l.command) (last_in (executor_after (new_executor me) rs).last s)
        ≡ latest_done (new_executor me) rs s None }
    ensures again { (me : Name) → (rs : List Received) → (from : Stream) → (m : CommandLong) → (ready : Ready)
        → latest_done (new_executor me) rs from None ≡ Some (command_in m) → 0 < m.confirmation
        → (executor_step (executor_after (new_executor me) rs) from (Commands m) ready).done ≡ None }
    ensures other { (me : Name) → (rs : List Received) → (from : Stream) → (m : CommandLong) → (ready : Ready)
        → is_for_node me (command_target m) ≡ true
        → (m.confirmation ≡ 0) ⊎ (latest_done (new_executor me) rs from None ≢ Some (command_in m))
        → ((executor_step (executor_after (new_executor me) rs) from (Commands m) ready).done ≡ Some (command_in m))
        ⊎ ((executor_step (executor_after (new_executor me) rs) from (Commands m) ready).answer
        ≡ Some (acknowledges from m.command 1)) }
{}
