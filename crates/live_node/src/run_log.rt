// What a live node has told so far.
ghost use Rattle.std.specs.Prelude.{◌≡◌, ℕ, None, is_some};
ghost use Rattle.live_node.specs.Progress.{due_call, counted};
ghost use Rattle.live_node.specs.Stations.{verdict};

use crate::nodes::Due;
use field_layout::Label;
use mav_names::Name;
use run_status::{LiveEnd, RunEnd};
use std::alloc::Global;

/// How the operation of a station has ended.
#[derive(Drop)]
pub enum Ending {
    /// It is done, and gave these bytes: those of a file, or the entries of a list of files; none for another
    /// operation.
    Done(Label),
    /// The drone refused it, with this code or result.
    Refused(u8),
    /// The drone didn't answer at five ticks in a row.
    Unanswered,
}

/// The name of a node, how many frames it has sent and how many ticks have passed (the counts stand still at 2^64 -
/// 1), and how its operation has ended, if it has.
#[derive(Drop)]
pub struct RunLog {
    pub(crate) alloc: Global,
    pub(crate) name: Name,
    pub(crate) sent: usize,
    pub(crate) ending: Option<Ending>,
    pub(crate) ticks: u64,
}

impl RunLog {
    /// It has told nothing.
    pub(crate) fn new(alloc: Global, name: Name) -> RunLog
        ensures name { result.name ≡ name }
        ensures sent { result.sent ≡ 0 }
        ensures ending { result.ending ≡ None }
        ensures ticks { result.ticks ≡ 0 }
    {
        RunLog {
            alloc,
            name,
            sent: 0,
            ending: None,
            ticks: 0,
        }
    }

    /// Counts a call, if it is a tick.
    pub(crate) fn count(&mut self, due: Due)
        ensures { (at : ℕ) → self.new ≡ counted (due_call due at) self.old }
    {
        match due {
            Due::Tick => self.ticks = self.ticks.saturating_add(1),
            Due::Heartbeat | Due::Sim => {}
        }
    }

    /// Whether a run ends now that waits for so many ticks.
    pub(crate) fn is_over(&self, most: u64) -> bool
        ensures { result ≡ is_some (verdict most self.now.ticks self.now.ending) }
    {
        match &self.ending {
            Some(_) => true,
            None => self.ticks >= most,
        }
    }

    /// How it ends, if it does, with the bytes that its operation gave, moved out.
    pub(crate) fn verdict(&mut self, most: u64) -> Option<Result<Label, RunEnd>>
        ensures { result ≡ verdict most self.old.ticks self.old.ending }
    {
        match self.ending.take() {
            Some(Ending::Done(bytes)) => Some(Ok(bytes)),
            Some(Ending::Refused(code)) => Some(Err(RunEnd::Live(LiveEnd::RefusedWith(code)))),
            Some(Ending::Unanswered) => Some(Err(RunEnd::Live(LiveEnd::NoAnswer(5)))),
            None if self.ticks < most => None,
            None => Some(Err(RunEnd::Live(LiveEnd::NoAnswer(most)))),
        }
    }
}
