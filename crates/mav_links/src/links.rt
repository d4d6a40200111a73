// What a link promises.
ghost use Rattle.std.specs.Prelude.{◌≡◌, ◌<◌, true, length, IfSome, option_map};
ghost use Rattle.std.specs.Io.KnownBytes.{append_known, prepend_known};
ghost use Rattle.mav_ports.specs.Gets.{given, CountsFault, EndsOnly, GivesWithin, IsSpent, idles_after};
ghost use Rattle.mav_ports.specs.Puts.{taken, TakesWithin, CountsRefusal};
ghost use Rattle.mav_links.specs.Links.{pauses_after};

use crate::Bell;
use mav_ports::{Got, Put};
use std::sync::Arc;

/// A source and a sink in one, with one count of faults and one of Idle answers.
pub trait Link: Send + Drop {
    ghost use Rattle.mav_links.specs.Links.{LinkState};

    /// What it has left to read, what it was sent, and its counts.
    ghost state: { Self → LinkState };

    /// Reads the next bytes into the start of the buffer, which has room for at least one.
    fn read(&mut self, buf: &mut [u8]) -> Got
        requires { 0 < length buf.old }
        ensures within { GivesWithin result buf.new }
        ensures bytes { (state self.old).left ≡ prepend_known (given result buf.new) (state self.new).left }
        ensures faults { CountsFault result (state self.old).faults (state self.new).faults }
        ensures idles { (state self.new).idles ≡ idles_after result (state self.old).idles }
        ensures pauses { (state self.new).pauses ≡ option_map (pauses_after result) (state self.old).pauses }
        ensures end { result ≡ Got.End → IsSpent (state self.new).left }
        ensures ended { result ≡ Got.End → (state self.new).ended ≡ true }
        ensures only_end { EndsOnly result ((state self.old).ended ≡ true) ((state self.new).ended ≡ true) }
        ensures stays { (state self.old).ended ≡ true → result ≡ Got.End }
        ensures sent { (state self.new).sent ≡ (state self.old).sent };

    /// Takes bytes from the start of these, of which there is at least one.
    fn write(&mut self, bytes: &[u8]) -> Put
        requires { 0 < length bytes.now }
        ensures within { TakesWithin result bytes.now }
        ensures bytes { (state self.new).sent ≡ append_known (state self.old).sent (taken result bytes.now) }
        ensures faults { CountsRefusal result (state self.old).faults (state self.new).faults }
        // Nothing of what it reads changes.
        ensures left { (state self.new).left ≡ (state self.old).left }
        ensures idles { (state self.new).idles ≡ (state self.old).idles }
        ensures pauses { (state self.new).pauses ≡ (state self.old).pauses }
        ensures ended { (state self.new).ended ≡ (state self.old).ended };

    /// The bytes that it was sent, if they are known; an adapter over the system gives none.
    fn sent(&self) -> &[u8]
        ensures { IfSome (state self.now).sent (λ bytes. result.now ≡ bytes) };

    /// Whether a read returns without waiting. If it doesn't, the next ring of the bell ends the next rest.
    fn is_ready(&mut self) -> bool
        ensures kept { state self.new ≡ state self.old }
    {
        true
    }

    /// Waits until a read returns without waiting, or the bell rings; it may return before.
    fn rest(&mut self)
        ensures kept { state self.new ≡ state self.old }
    {}

    /// How many bytes writes take now without waiting; none if a write would wait.
    fn room(&mut self) -> usize
        ensures kept { state self.new ≡ state self.old }
    {
        usize::MAX
    }

    /// What ends its rest from another thread; none if it doesn't rest.
    fn bell(&self) -> Option<Arc<Bell>> {
        None
    }

    /// From now on what would end its own rest ends that of the bell's port too.
    fn wakes(&mut self, bell: Arc<Bell>)
        ensures kept { state self.new ≡ state self.old }
    {
        let _bell = bell;
    }
}
