// A scenario that is played as its bytes come.
ghost use Rattle.std.specs.Prelude.{◌≡◌, ◌≤◌, ◌+◌, ◌-◌, ◌∷◌, ◌++◌};
ghost use Rattle.std.specs.Prelude.{[], List, ℕ, Bool, true, length, vec_len, IfOk, IfErr, OnOk, IsErrOf};
ghost use Rattle.std.specs.declared.option.Option.{Option};
ghost use Rattle.mav_ports.specs.Counts.{Rose};
ghost use Rattle.fleet_world.specs.WorldState.{empty_state, context_of};
ghost use Rattle.fleet_world.specs.WorldView.{IsState};
ghost use Rattle.scenario_lines.specs.Reasons.{reason_against};
ghost use Rattle.fleet_world.specs.Scenario.{Played, judged, line_played, last_played, played};
ghost use Rattle.fleet_world.specs.Scenario.{report_of, whole_report};
ghost use Rattle.fleet_command.specs.Spec.{reported_bound};
ghost use Rattle.fleet_command.specs.Plays.{Holds, Reading, HaltedAt, Finished, Leads, FailsAs, budget, long_line_end};

use command_inputs::{bad_line, without_cr};
use fleet_world::{Bound, World, WorldFault};
use mav_nodes::NodeFault;
use mav_ports::{NoMemory, Sink, write_all};
use mav_sign::Key;
use run_status::{Bound as StatusBound, InputError, RunEnd};
use scenario_lines::{LineFault, Reason};
use std::alloc::Global;

const MOST_LINES: usize = 100_000;

const MOST_LINE_BYTES: usize = 4096;

/// A scenario of which some bytes were taken: what they led to, and the line that they left
/// unfinished.
#[derive(Drop)]
pub struct Player {
    world: World,
    /// The bytes after the last LF.
    line: Vec<u8>,
    /// The number of the line that these begin.
    number: usize,
    ghost short: { vec_len line ≤ 4096 },
    ghost few: { number ≤ 100001 },
}

impl Player {
    /// All nodes have the key; `frames` says whether the report prints frames whole.
    pub fn new(alloc: Global, key: Key, frames: bool) -> Result<Player, NoMemory>
        ensures world { IfOk result (λ p. IsState (empty_state key) frames p.world) }
        ensures first { IfOk result (λ p. (p.number ≡ 1) × (p.line.items ≡ [])) }
    {
        Ok(Player {
            world: World::new(alloc, key, frames)?,
            line: Vec::with_capacity(alloc, MOST_LINE_BYTES)?,
            number: 1,
        })
    }

    /// Takes bytes that come next. After an error the player is given up.
    pub fn feed<K: Sink>(&mut self, piece: &[u8], out: &mut K) -> Result<(), RunEnd>
        ensures taken { (key : List ℕ) (frames : Bool) (taken : List ℕ) (before : Option (List ℕ))
            → Reading key frames taken self.old.world self.old.number self.old.line.items before (K.sent out.old)
            → OnOk result (Reading key frames (taken ++ piece.now)
            self.new.world self.new.number self.new.line.items before (K.sent out.new)) }
        ensures halted { (key : List ℕ) (frames : Bool) (taken : List ℕ) (before : Option (List ℕ))
            → Reading key frames taken self.old.world self.old.number self.old.line.items before (K.sent out.old)
            → (ended : Bool) → let end = played key ended (taken ++ piece.now) in
            IfErr result (λ run_end. HaltedAt frames run_end end (report_of frames end) before (K.sent out.new)) }
        ensures spends { OnOk result (budget self.new.number self.new.line.items + length piece.now
            ≤ budget self.old.number self.old.line.items) }
        ensures rose { IsErrOf result RunEnd.WriteFault
            → Rose (K.faults out.old) (K.faults out.new) }
        ensures sound { ¬ IsErrOf result RunEnd.WriteFault
            → K.faults out.new ≡ K.faults out.old }
    {
        for byte in piece {
            self.take(*byte, out)?;
        }
        Ok(())
    }

    /// The input ended: does the last line, and writes the closing plans.
    pub fn finish<K: Sink>(&mut self, out: &mut K) -> Result<(), RunEnd>
        ensures done { (key : List ℕ) (frames : Bool) (taken : List ℕ) (before : Option (List ℕ))
            → Reading key frames taken self.old.world self.old.number self.old.line.items before (K.sent out.old)
            → OnOk result (Finished frames (played key true taken) before (K.sent out.new)) }
        ensures halted { (key : List ℕ) (frames : Bool) (taken : List ℕ) (before : Option (List ℕ))
            → Reading key frames taken self.old.world self.old.number self.old.line.items before (K.sent out.old)
            → let end = played key true taken in
            IfErr result (λ run_end. HaltedAt frames run_end end (whole_report frames end) before (K.sent out.new)) }
        ensures rose { IsErrOf result RunEnd.WriteFault
            → Rose (K.faults out.old) (K.faults out.new) }
        ensures sound { ¬ IsErrOf result RunEnd.WriteFault
            → K.faults out.new ≡ K.faults out.old }
    {
        self.last_line(out)?;
        let plans = self.world.finish()?;
        Ok(write_all(out, plans.bytes())?)
    }

    // Takes the next byte.
    fn take<K: Sink>(&mut self, byte: u8, out: &mut K) -> Result<(), RunEnd>
        ensures taken { (key : List ℕ) (frames : Bool) (taken : List ℕ) (before : Option (List ℕ))
            → Reading key frames taken self.old.world self.old.number self.old.line.items before (K.sent out.old)
            → OnOk result (Reading key frames (taken ++ byte ∷ [])
            self.new.world self.new.number self.new.line.items before (K.sent out.new)) }
        ensures halted { (key : List ℕ) (frames : Bool) (taken : List ℕ) (before : Option (List ℕ))
            → Reading key frames taken self.old.world self.old.number self.old.line.items before (K.sent out.old)
            → (ended : Bool) (rest : List ℕ) → let end = played key ended (taken ++ byte ∷ rest) in
            IfErr result (λ run_end. HaltedAt frames run_end end (report_of frames end) before (K.sent out.new)) }
        ensures spends { OnOk result (budget self.new.number self.new.line.items + 1
            ≤ budget self.old.number self.old.line.items) }
        ensures rose { IsErrOf result RunEnd.WriteFault
            → Rose (K.faults out.old) (K.faults out.new) }
        ensures sound { ¬ IsErrOf result RunEnd.WriteFault
            → K.faults out.new ≡ K.faults out.old }
    {
        if byte == b'\n' {
            return self.end_line(out);
        }
        if self.line.len() == MOST_LINE_BYTES {
            return Err(self.too_long());
        }
        self.line.push(byte)?;
        Ok(())
    }

    // The line is whole: it is done, and the next one begins.
    fn end_line<K: Sink>(&mut self, out: &mut K) -> Result<(), RunEnd>
        ensures played { (frames : Bool) (p : Played) (before : Option (List ℕ))
            → Holds frames p self.old.world before (K.sent out.old)
            → Leads frames result (line_played p self.old.number self.old.line.items)
            self.new.world before (K.sent out.new) }
        ensures next { OnOk result ((self.new.number ≡ self.old.number + 1)
            × (self.new.line.items ≡ []) × (self.old.number ≤ 100000)) }
        ensures rose { IsErrOf result RunEnd.WriteFault
            → Rose (K.faults out.old) (K.faults out.new) }
        ensures sound { ¬ IsErrOf result RunEnd.WriteFault
            → K.faults out.new ≡ K.faults out.old }
    {
        if self.number > MOST_LINES {
            return Err(RunEnd::Stopped(InputError::AtLimit(StatusBound::Lines)));
        }
        play_line(&mut self.world, self.number, without_cr(&self.line), out)?;
        self.line.clear();
        self.number += 1;
        Ok(())
    }

    // The input ended: what is held is a last line, unless it is empty.
    fn last_line<K: Sink>(&mut self, out: &mut K) -> Result<(), RunEnd>
        ensures played { (frames : Bool) (p : Played) (before : Option (List ℕ))
            → Holds frames p self.old.world before (K.sent out.old)
            → Leads frames result (last_played p self.old.number self.old.line.items)
            self.new.world before (K.sent out.new) }
        ensures rose { IsErrOf result RunEnd.WriteFault
            → Rose (K.faults out.old) (K.faults out.new) }
        ensures sound { ¬ IsErrOf result RunEnd.WriteFault
            → K.faults out.new ≡ K.faults out.old }
    {
        if self.line.is_empty() {
            return Ok(());
        }
        if self.number > MOST_LINES {
            return Err(RunEnd::Stopped(InputError::AtLimit(StatusBound::Lines)));
        }
        play_line(&mut self.world, self.number, &self.line, out)
    }

    // Why one more byte is too many for the line.
    fn too_long(&self) -> RunEnd
        ensures { result ≡ long_line_end self.now.number }
    {
        if self.number > MOST_LINES {
            RunEnd::Stopped(InputError::AtLimit(StatusBound::Lines))
        } else {
            bad_line(self.number, Reason::Long)
        }
    }
}

// Does line `number`, and writes its report.
fn play_line<K: Sink>(
    world: &mut World,
    number: usize,
    text: &[u8],
    out: &mut K,
) -> Result<(), RunEnd>
    ensures played { (frames : Bool) (p : Played) (before : Option (List ℕ))
        → Holds frames p world.old before (K.sent out.old)
        → Leads frames result (judged p number text.now (reason_against (context_of p.state) text.now))
        world.new before (K.sent out.new) }
    ensures rose { IsErrOf result RunEnd.WriteFault → Rose (K.faults out.old) (K.faults out.new) }
    ensures sound { ¬ IsErrOf result RunEnd.WriteFault → K.faults out.new ≡ K.faults out.old }
{
    let line = match world.read(text) {
        Ok(line) => line,
        Err(LineFault::Bad(reason)) => return Err(bad_line(number, reason)),
        Err(LineFault::NoMemory) => return Err(RunEnd::NoMemory),
    };
    match world.line(line) {
        Ok(report) => Ok(write_all(out, report.bytes())?),
        Err(fault) => Err(fails(fault)),
    }
}

fn reported_bound(limit: Bound) -> StatusBound
    ensures { result ≡ reported_bound limit }
{
    match limit {
        Bound::Frames => StatusBound::Frames,
        Bound::Drones => StatusBound::Drones,
        Bound::Stations => StatusBound::Stations,
        Bound::Restarts => StatusBound::Restarts,
    }
}

// The line isn't done.
fn fails(fault: WorldFault) -> RunEnd
    ensures { FailsAs fault result }
{
    match fault {
        WorldFault::Limit(limit) => RunEnd::Stopped(InputError::AtLimit(reported_bound(limit))),
        WorldFault::Node(NodeFault::StampsSpent) => RunEnd::Stopped(InputError::StampsSpent),
        // The stores of a scenario are in memory and never fail.
        WorldFault::Node(NodeFault::Store | NodeFault::NoMemory) | WorldFault::NoMemory => {
            RunEnd::NoMemory
        }
    }
}
