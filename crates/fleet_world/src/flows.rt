// Frames on their way: what a flow gives to the nodes.
ghost use Rattle.std.specs.Prelude.{◌≡◌, ◌<◌, Some, OnOk, IfErr, length, slice_get};
ghost use Rattle.mav_frame.specs.Packet.{Packet};
ghost use Rattle.fleet_world.specs.WorldState.{WorldState};
ghost use Rattle.fleet_world.specs.WorldView.{IsState};
ghost use Rattle.fleet_world.specs.Flowing.{IsSender, IsTaken};
ghost use Rattle.fleet_world.specs.Steps.{given_to, given_to_all, flows};
ghost use Rattle.fleet_world.specs.Promises.{WorldOutcome, IsStepError, Does, Fails};

use crate::calls::Call;
use crate::{World, WorldFault};
use fleet_report::Report;
use mav_names::is_same_name;

impl World {
    // The node at an index sent the frame of that number.
    fn is_sender(&self, index: usize, number: usize) -> bool
        requires { index < length self.now.fleet.nodes }
        ensures { (state : WorldState) → (packet : Packet) → IsState state self.now.frames self.now
            → slice_get state.sent number ≡ Some packet → IsSender (slice_get state.nodes index) packet result }
    {
        let name = self.fleet.name_at(index);
        match self.sent.sender(number) {
            Some(sender) => is_same_name(name, sender),
            None => false,
        }
    }

    // The node at an index is given a sent frame, unless it is the frame's own sender.
    fn give(&mut self, index: usize, number: usize, report: &mut Report) -> Result<(), WorldFault>
        requires { index < length self.old.fleet.nodes }
        ensures done { OnOk result ((state : WorldState) → (packet : Packet) → IsState state self.old.frames self.old
            → slice_get state.sent number ≡ Some packet
            → WorldOutcome (given_to state index packet (slice_get state.nodes index)) self.old.frames self.new
            report.old report.new) }
        ensures error { IfErr result (λ fault. (state : WorldState) → (packet : Packet)
            → IsState state self.old.frames self.old
            → slice_get state.sent number ≡ Some packet
            → IsStepError (given_to state index packet (slice_get state.nodes index)) fault) }
        ensures count { length self.new.fleet.nodes ≡ length self.old.fleet.nodes }
    {
        if self.is_sender(index, number) {
            return Ok(());
        }
        self.call_at(index, &Call::Take(number), report)
    }

    // Every node but its sender is given a sent frame, in the order in which they were named.
    fn give_to_all(&mut self, number: usize, report: &mut Report) -> Result<(), WorldFault>
        ensures done { OnOk result ((state : WorldState) → (packet : Packet) → IsState state self.old.frames self.old
            → slice_get state.sent number ≡ Some packet
            → WorldOutcome (given_to_all state packet) self.old.frames self.new report.old report.new) }
        ensures error { IfErr result (λ fault. (state : WorldState) → (packet : Packet)
            → IsState state self.old.frames self.old
            → slice_get state.sent number ≡ Some packet → IsStepError (given_to_all state packet) fault) }
    {
        for index in 0..self.fleet.len() {
            self.give(index, number, report)?;
        }
        Ok(())
    }

    // The next frames are given, at most `most` of them.
    pub(crate) fn flow(&mut self, most: u64, report: &mut Report) -> Result<(), WorldFault>
        ensures done { OnOk result (Does (flows most)
            self.old self.new report.old report.new) }
        ensures error { IfErr result (Fails (flows most) self.old) }
    {
        for _turn in 0..most {
            let Some(number) = self.next_frame() else {
                return Ok(());
            };
            self.give_to_all(number, report)?;
        }
        Ok(())
    }

    // The index of the next frame that a flow gives, if one is left.
    fn next_frame(&mut self) -> Option<usize>
        ensures { IsTaken self.old result self.new }
    {
        if self.given < self.sent.len() {
            let number = self.given;
            self.given += 1;
            Some(number)
        } else {
            None
        }
    }
}
