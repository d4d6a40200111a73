// The text of what happens.
ghost use Rattle.std.specs.Prelude.{◌≡◌, ◌++◌, [], string_bytes, Some, OnOk, IfOk};
ghost use Rattle.plan_items.specs.Kinds.{number_of};
ghost use Rattle.plan_items.specs.Plans.{items_of};
ghost use Rattle.plan_upload.specs.Outcomes.{told_of};
ghost use Rattle.mav_frame.specs.Encoding.{encoding};
ghost use Rattle.hex.specs.Hex.{encode_lower};
ghost use Rattle.std.specs.Fmt.{decimal};
ghost use Rattle.fleet_report.specs.Texts.{space, newline, name_text};
ghost use Rattle.fleet_report.specs.Events.{Sent, Emptied, Dropped, Refused, Ended, Command_ended, Params_ended};
ghost use Rattle.fleet_report.specs.Events.{Param_given, Located, plan_text, frame_text, installed_text};
ghost use Rattle.fleet_report.specs.Reports.{reported, with_text};
ghost use Rattle.fleet_report.specs.Sayings.{says};

use crate::NoMemory;
use crate::event::Event;
use crate::items::put_items;
use crate::messages::MessageText;
use crate::params::{put_param, put_params};
use crate::texts::{KindText, LocationText, NameText, RefusalText, ResultText, code};
use mav_messages::Message;
use mav_names::Name;
use mav_sign::{Admit, SignedFrame};
use param_proto::Param;
use plan_items::{Plan, PlanKind};
use plan_upload::{OpFault, Outcome};
use std::alloc::Global;
use std::marker::Model;

/// The text that a line, or the end of a scenario, adds to the report. Contracts see its bytes, and whether frames are
/// printed whole.
///
/// Each call adds the text of one event. After an `Err` it may hold part of that text, and isn't used any more.
#[derive(Drop)]
pub struct Report {
    alloc: Global,
    frames: bool,
    text: String,
}

impl Model for Report {
    ghost use Rattle.std.specs.Prelude.{string_bytes};
    ghost use Rattle.fleet_report.specs.Reports.{ReportState};

    ghost Value = { ReportState };

    ghost view = { λ r. record { frames = r.frames; text = string_bytes r.text } };
}

// The bytes of a frame in hexadecimal digits.
fn frame_digits(alloc: Global, frame: &SignedFrame) -> Result<String, NoMemory>
    ensures { IfOk result (λ digits. string_bytes digits ≡ encode_lower (encoding frame.now)) }
{
    hex::encode(alloc, frame.raw().bytes())
}

impl Report {
    /// An empty report. `frames` says whether frames are printed whole.
    pub fn new(alloc: Global, frames: bool) -> Report
        ensures { result ≡ record { frames = frames; text = [] } }
    {
        Report {
            alloc,
            frames,
            text: String::new(alloc),
        }
    }

    /// The text so far.
    pub fn bytes(&self) -> &[u8]
        ensures { result.now ≡ self.now.text }
    {
        self.text.as_bytes()
    }

    // The whole frame, if frames are printed.
    fn frame(&mut self, frame: &SignedFrame) -> Result<(), NoMemory>
        ensures { OnOk result (self.new ≡ with_text self.old (frame_text self.old.frames frame.now)) }
    {
        if !self.frames {
            return Ok(());
        }
        let digits = frame_digits(self.alloc, frame)?;
        writeln!(self.text, " {digits}")
    }

    // The end of a line: some words, and a number after them.
    fn numbered(&mut self, words: &str, number: u64) -> Result<(), NoMemory>
        ensures { OnOk result (self.new ≡ with_text self.old (words.now ++ decimal number ++ newline)) }
    {
        writeln!(self.text, "{words}{number}")
    }

    // A line of a node between words.
    fn named(&mut self, words: &str, node: Name, more: &str) -> Result<(), NoMemory>
        ensures { OnOk result (self.new ≡ with_text self.old (words.now ++ name_text node ++ more.now ++ newline)) }
    {
        writeln!(self.text, "{words}{}{more}", NameText(node))
    }

    // A line of a word, a node and a number.
    fn counted(&mut self, word: &str, node: Name, number: u32) -> Result<(), NoMemory>
        ensures { OnOk result (self.new ≡ with_text self.old
            (word.now ++ space ++ name_text node ++ space ++ decimal number ++ newline)) }
    {
        writeln!(self.text, "{word} {} {number}", NameText(node))
    }

    // A frame was sent, the `number`-th of the scenario, which carries the message.
    fn sent(
        &mut self,
        number: usize,
        frame: &SignedFrame,
        message: &Message,
    ) -> Result<(), NoMemory>
        ensures { OnOk result (self.new ≡ reported self.old (Sent number frame.now message.now)) }
    {
        let (from, text) = (NameText(frame.raw().from()), MessageText(*message));
        writeln!(self.text, "{number} {from} {text}")?;
        self.frame(frame)
    }

    // A drone installed a plan of `count` items that the node `by` sent.
    fn installed(
        &mut self,
        drone: Name,
        kind: PlanKind,
        count: usize,
        by: Name,
    ) -> Result<(), NoMemory>
        ensures { OnOk result (self.new ≡ with_text self.old (installed_text drone (number_of kind) count by)) }
    {
        let (drone, kind, by) = (NameText(drone), KindText(kind.number()), NameText(by));
        writeln!(self.text, "install {drone} {kind} {count} from {by}")
    }

    // A drone's plan became empty.
    fn emptied(&mut self, drone: Name, kind: PlanKind) -> Result<(), NoMemory>
        ensures { OnOk result (self.new ≡ reported self.old (Emptied drone (number_of kind))) }
    {
        let (drone, kind) = (NameText(drone), KindText(kind.number()));
        writeln!(self.text, "clear {drone} {kind}")
    }

    // A node didn't admit a frame.
    fn dropped(&mut self, node: Name, answer: Admit) -> Result<(), NoMemory>
        ensures { OnOk result (self.new ≡ reported self.old (Dropped node answer)) }
    {
        writeln!(self.text, "drop {} {}", NameText(node), code(answer))
    }

    // A station refused a new operation.
    fn refused(&mut self, station: Name, why: OpFault) -> Result<(), NoMemory>
        ensures { OnOk result (self.new ≡ reported self.old (Refused station why)) }
    {
        let (station, why) = (NameText(station), RefusalText(why));
        writeln!(self.text, "refused {station} {why}")
    }

    // A station's operation ended.
    fn ended(&mut self, station: Name, outcome: &Outcome) -> Result<(), NoMemory>
        ensures { OnOk result (self.new ≡ reported self.old (Ended station (told_of outcome.now))) }
    {
        write!(self.text, "outcome {} ", NameText(station))?;
        match outcome {
            Outcome::Installed => self.text.push_str("installed\n"),
            Outcome::NotInstalled(code) => self.numbered("not installed ", u64::from(*code)),
            Outcome::Unknown => self.text.push_str("unknown\n"),
            Outcome::Cleared => self.text.push_str("cleared\n"),
            Outcome::Got(plan) => {
                self.numbered("got ", plan.len() as u64)?;
                put_items(&mut self.text, plan)
            }
            Outcome::Ended(code) => self.numbered("ended ", u64::from(*code)),
        }
    }

    // A station's command ended: by the drone's result, or without an answer.
    fn command_ended(&mut self, station: Name, answer: Option<u8>) -> Result<(), NoMemory>
        ensures { OnOk result (self.new ≡ reported self.old (Command_ended station answer)) }
    {
        let (station, answer) = (NameText(station), ResultText(answer));
        writeln!(self.text, "command {station} {answer}")
    }

    // A station's list of a drone's parameters ended with these values, in order of their indices.
    fn params_listed(&mut self, station: Name, values: &[Param]) -> Result<(), NoMemory>
        ensures { OnOk result (self.new ≡ reported self.old (Params_ended station (Some values.now))) }
    {
        writeln!(self.text, "params {} {}", NameText(station), values.len())?;
        put_params(&mut self.text, station, values)
    }

    // A station's read or set of a parameter ended with its value.
    fn param_given(&mut self, station: Name, param: &Param) -> Result<(), NoMemory>
        ensures { OnOk result (self.new ≡ reported self.old (Param_given station param.now)) }
    {
        put_param(&mut self.text, station, param)
    }

    // Where a drone is, in units of 1e-7 degrees, and how many pictures it took since its start.
    fn located(&mut self, drone: Name, x: i32, y: i32, captures: u32) -> Result<(), NoMemory>
        ensures { OnOk result (self.new ≡ reported self.old (Located drone x y captures)) }
    {
        let (drone, location) = (NameText(drone), LocationText(x, y));
        writeln!(self.text, "at {drone} {location} captured {captures}")
    }

    /// Adds the text of what happened.
    pub fn add(&mut self, event: Event<'_>) -> Result<(), NoMemory>
        ensures { OnOk result (self.new ≡ says self.old event.entry) }
    {
        match event {
            Event::Sent(number, frame, message) => self.sent(number, frame, message),
            Event::Installed {
                drone,
                kind,
                count,
                by,
            } => self.installed(drone, kind, count, by),
            Event::Emptied(drone, kind) => self.emptied(drone, kind),
            Event::Dropped(node, answer) => self.dropped(node, answer),
            Event::Missing(number) => self.numbered("no frame ", number),
            Event::Restarted(drone) => self.named("restart ", drone, ""),
            Event::Refused(station, why) => self.refused(station, why),
            Event::Ended(station, outcome) => self.ended(station, outcome),
            Event::CommandEnded(station, answer) => self.command_ended(station, answer),
            Event::ParamsEnded(station, Some(values)) => self.params_listed(station, values),
            Event::ParamsEnded(station, None) => self.named("params ", station, " no answer"),
            Event::ParamGiven(station, param) => self.param_given(station, param),
            Event::CommandRefused(station) => self.named("refused ", station, " command busy"),
            Event::ParamsRefused(station) => self.named("refused ", station, " params busy"),
            Event::Reached(drone, item) => self.counted("reached", drone, u32::from(item)),
            Event::Captured(drone, total) => self.counted("captured", drone, total),
            Event::Located {
                drone,
                x,
                y,
                captures,
            } => self.located(drone, x, y, captures),
        }
    }

    /// A plan of a drone at the end of a scenario.
    pub fn plan(&mut self, drone: Name, kind: PlanKind, plan: &Plan) -> Result<(), NoMemory>
        ensures { OnOk result (self.new ≡ with_text self.old (plan_text drone (number_of kind) (items_of plan.now))) }
    {
        let (drone, kind) = (NameText(drone), KindText(kind.number()));
        writeln!(self.text, "plan {drone} {kind} {}", plan.len())?;
        put_items(&mut self.text, plan)
    }
}
