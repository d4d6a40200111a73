// The world of a scenario.
ghost use Rattle.std.specs.Prelude.{◌≡◌, IfOk, IfErr, None, Some};
ghost use Rattle.scenario_lines.specs.Faults.{IfBad};
ghost use Rattle.scenario_lines.specs.Grammar.{line_of};
ghost use Rattle.scenario_lines.specs.Permits.{IsPermitted};
ghost use Rattle.scenario_lines.specs.Reasons.{reason_against};
ghost use Rattle.fleet_world.specs.WorldState.{WorldState, empty_state};
ghost use Rattle.fleet_world.specs.WorldView.{IsState, context_in};
ghost use Rattle.fleet_world.specs.Steps.{after_line, closing_text};
ghost use Rattle.fleet_world.specs.Promises.{IsStep, Fails};

use crate::fleet::Fleet;
use crate::sent::SentFrames;
use crate::{NoMemory, WorldFault};
use fleet_report::Report;
use mav_sign::Key;
use plan_items::Plan;
use scenario_lines::{Line, LineFault, read};
use std::alloc::Global;
use std::marker::Model;

/// The nodes of a scenario, the frames that they sent, and the draft of a plan. Contracts say which state it is in.
pub struct World {
    pub(crate) alloc: Global,
    pub(crate) fleet: Fleet,
    pub(crate) sent: SentFrames,
    pub(crate) given: usize,
    pub(crate) draft: Plan,
    pub(crate) restarts: u64,
    frames: bool,
}

// By hand, so that whoever drops a world proves one call.
impl Drop for World {
    fn drop(self) {
        let World {
            alloc: _,
            fleet: _fleet,
            sent: _sent,
            given: _,
            draft: _draft,
            restarts: _,
            frames: _,
        } = self;
    }
}

impl Model for World {
    ghost use Rattle.plan_items.specs.Plans.{items_of};
    ghost use Rattle.fleet_world.specs.WorldView.{WorldView};

    ghost Value = { WorldView };

    ghost view = { λ w. record {
      fleet = w.fleet;
      sent = w.sent;
      given = w.given;
      draft = items_of w.draft;
      restarts = w.restarts;
      frames = w.frames;
    } };
}

impl World {
    /// A world with no node and an empty draft, whose nodes all have this key. `frames` says whether reports print
    /// frames whole.
    pub fn new(alloc: Global, key: Key, frames: bool) -> Result<World, NoMemory>
        ensures { IfOk result (λ world. IsState (empty_state key) frames world) }
    {
        Ok(World {
            alloc,
            fleet: Fleet::new(alloc, key),
            sent: SentFrames::new(alloc, key),
            given: 0,
            draft: Plan::new(alloc),
            restarts: 0,
            frames,
        })
    }

    /// What a line says, without its LF and without a CR before it, or the first reason against it.
    pub fn read(&self, text: &[u8]) -> Result<Line, LineFault>
        ensures ok { IfOk result (λ line. (reason_against (context_in self.now) text.now ≡ None)
            × (line ≡ line_of text.now)) }
        ensures permitted { IfOk result (IsPermitted (context_in self.now)) }
        ensures bad { IfErr result (λ e. IfBad e (λ r. reason_against (context_in self.now) text.now ≡ Some r)) }
    {
        let drafted = self.draft.len();
        read(self.alloc, &self.fleet, drafted, self.fleet.clock(), text)
    }

    /// One line, and what it prints. After a fault the world isn't used any more.
    pub fn line(&mut self, line: Line) -> Result<Report, WorldFault>
        requires { IsPermitted (context_in self.old) line }
        ensures done { IfOk result (λ report. (state : WorldState) → IsState state self.old.frames self.old
            → IsStep (after_line state line) self.old.frames self.new report) }
        ensures error { IfErr result (Fails (λ state. after_line state line) self.old) }
    {
        let mut report = Report::new(self.alloc, self.frames);
        self.act(line, &mut report)?;
        Ok(report)
    }

    /// The closing plans: of each drone in the order in which they were named, and each kind.
    pub fn finish(&self) -> Result<Report, NoMemory>
        ensures { IfOk result (λ report. (state : WorldState) → IsState state self.now.frames self.now
            → report.text ≡ closing_text state.nodes) }
    {
        let mut report = Report::new(self.alloc, self.frames);
        self.fleet.close(&mut report)?;
        Ok(report)
    }
}
