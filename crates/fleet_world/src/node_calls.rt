// Calls of nodes, and what is reported of them.
ghost use Rattle.std.specs.Prelude.{◌≡◌, ◌-◌, ◌+◌, ◌<◌, nat_le, List, [], Some, length, map, slice_get, OnOk, IfOk};
ghost use Rattle.std.specs.Prelude.{IfErr};
ghost use Rattle.mav_nodes.specs.Nodes.{DroneSide};
ghost use Rattle.mav_nodes.specs.News.{NodeEvent, shown, events_of};
ghost use Rattle.node_reports.specs.Nodes.{Node as StateNode, Drone as StateDrone};
ghost use Rattle.node_reports.specs.ParamLists.{params_of, HaveValues};
ghost use Rattle.fleet_world.specs.WorldState.{WorldState};
ghost use Rattle.fleet_world.specs.WorldView.{IsFleet, IsState};
ghost use Rattle.fleet_world.specs.Steps.{most_frames, calls, calls_at, delivers};
ghost use Rattle.fleet_world.specs.NodeSteps.{called, datagram_of, reports_news, restarts_as};
ghost use Rattle.fleet_world.specs.Promises.{FleetOutcome, CallFails, WorldOutcome, IsStepError};

use crate::calls::Call;
use crate::events::{frames_in, report_all};
use crate::sent::SentFrames;
use crate::{Bound, World, WorldFault};
use fleet_report::{Event, Report};
use mav_names::Name;
use mav_nodes::{News, NodeFault};
use mav_sign::Datagram;

const MOST_FRAMES: usize = 100_000;

// After so many frames there is room for more of them.
fn has_room(sent: usize, frames: usize) -> bool
    ensures { result ≡ nat_le (sent + frames) most_frames }
{
    sent <= MOST_FRAMES && frames <= MOST_FRAMES - sent
}

// The datagram of a call.
fn datagram_of<'a>(sent: &'a SentFrames, call: &'a Call) -> Datagram<'a>
    ensures { result ≡ datagram_of sent.now call.now }
{
    match call {
        Call::Take(number) => sent.datagram(*number),
        Call::Noise(bytes) => Datagram::new(bytes.bytes()),
        Call::Heartbeat | Call::Tick | Call::Sim | Call::Restart(_) => Datagram::new(&[]),
    }
}

impl World {
    // Reports the news of the node at an index, of this name: its frames are the next of the scenario, and a list of
    // parameters that has ended has the values that the node knows now.
    pub(crate) fn report_news(
        &mut self,
        index: usize,
        name: Name,
        news: &[News],
        report: &mut Report,
    ) -> Result<(), WorldFault>
        requires { index < length self.old.fleet.nodes }
        ensures done { OnOk result ((state : WorldState) → (events : List NodeEvent)
            → IsState state self.old.frames self.old
            → events_of news.now ≡ map shown events → HaveValues (params_of (slice_get state.nodes index)) events
            → WorldOutcome (reports_news state name events) self.old.frames self.new report.old report.new) }
        ensures error { IfErr result (λ fault. (state : WorldState) → (events : List NodeEvent)
            → IsState state self.old.frames self.old
            → events_of news.now ≡ map shown events → IsStepError (reports_news state name events) fault) }
        ensures fleet { self.new.fleet ≡ self.old.fleet }
    {
        if !has_room(self.sent.len(), frames_in(news)) {
            return Err(WorldFault::Limit(Bound::Frames));
        }
        let values = self.fleet.params_at(index);
        report_all(&mut self.sent, name, values, news, report)?;
        Ok(())
    }

    // The news of the node at an index at a call.
    fn news_of(&mut self, index: usize, call: &Call) -> Result<Vec<News>, NodeFault>
        requires { index < length self.old.fleet.nodes }
        ensures done { IfOk result (λ news. (nodes : List StateNode) → IsFleet nodes self.old.fleet
            → FleetOutcome nodes index (slice_get nodes index) (called self.old call.now) self.new.fleet news.items) }
        ensures fault { IfErr result (λ fault. (nodes : List StateNode) → IsFleet nodes self.old.fleet
            → CallFails fault (slice_get nodes index) (called self.old call.now)) }
        ensures kept { self.new ≡ record self.old { fleet = record self.old.fleet { nodes = self.new.fleet.nodes } } }
        ensures count { length self.new.fleet.nodes ≡ length self.old.fleet.nodes }
    {
        let datagram = datagram_of(&self.sent, call);
        self.fleet.call_at(index, call, &datagram)
    }

    // The node at an index is called.
    pub(crate) fn call_at(
        &mut self,
        index: usize,
        call: &Call,
        report: &mut Report,
    ) -> Result<(), WorldFault>
        requires { index < length self.old.fleet.nodes }
        ensures done { OnOk result ((state : WorldState) → IsState state self.old.frames self.old
            → WorldOutcome (calls_at state index (slice_get state.nodes index) (called self.old call.now))
            self.old.frames self.new report.old report.new) }
        ensures error { IfErr result (λ fault. (state : WorldState) → IsState state self.old.frames self.old
            → IsStepError (calls_at state index (slice_get state.nodes index) (called self.old call.now)) fault) }
        ensures count { length self.new.fleet.nodes ≡ length self.old.fleet.nodes }
    {
        let name = self.fleet.name_at(index);
        let news = self.news_of(index, call)?;
        self.report_news(index, name, news.as_slice(), report)
    }

    // The drone at an index, of this name, starts again.
    pub(crate) fn restart_at(
        &mut self,
        index: usize,
        drone: Name,
        report: &mut Report,
    ) -> Result<(), WorldFault>
        requires { index < length self.old.fleet.nodes }
        ensures done { OnOk result ((state : WorldState) → (node : DroneSide) → IsState state self.old.frames self.old
            → slice_get state.nodes index ≡ Some (StateDrone node)
            → WorldOutcome (restarts_as state index drone node) self.old.frames self.new report.old report.new) }
        ensures error { IfErr result (λ fault. (state : WorldState) → (node : DroneSide)
            → IsState state self.old.frames self.old
            → slice_get state.nodes index ≡ Some (StateDrone node)
            → IsStepError (restarts_as state index drone node) fault) }
    {
        report.add(Event::Restarted(drone))?;
        let call = Call::Restart(self.fleet.key());
        self.call_at(index, &call, report)
    }

    // The node of this name is called.
    pub(crate) fn call(
        &mut self,
        name: Name,
        call: &Call,
        report: &mut Report,
    ) -> Result<(), WorldFault>
        ensures done { OnOk result ((state : WorldState) → IsState state self.old.frames self.old
            → WorldOutcome (calls state name (called self.old call.now)) self.old.frames self.new report.old
            report.new) }
        ensures error { IfErr result (λ fault. (state : WorldState) → IsState state self.old.frames self.old
            → IsStepError (calls state name (called self.old call.now)) fault) }
    {
        match self.fleet.index_of(name) {
            Some(index) => self.call_at(index, call, report),
            None => Ok(()),
        }
    }

    // The sent frame of that number, from 1, is given to the node of this name.
    pub(crate) fn deliver(
        &mut self,
        number: u64,
        name: Name,
        report: &mut Report,
    ) -> Result<(), WorldFault>
        ensures done { OnOk result ((state : WorldState) → IsState state self.old.frames self.old
            → WorldOutcome (delivers state number name (slice_get state.sent (number - 1))) self.old.frames self.new
            report.old report.new) }
        ensures error { IfErr result (λ fault. (state : WorldState) → IsState state self.old.frames self.old
            → IsStepError (delivers state number name (slice_get state.sent (number - 1))) fault) }
    {
        let index = number.saturating_sub(1) as usize;
        if index < self.sent.len() {
            return self.call(name, &Call::Take(index), report);
        }
        report.add(Event::Missing(number))?;
        Ok(())
    }
}
