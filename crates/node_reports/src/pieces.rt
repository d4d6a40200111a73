// One piece of a node's news, as a report says it.
ghost use Rattle.std.specs.Prelude.{◌≡◌, ◌+◌, ℕ, Bool, true, [], ◌∷◌, OnOk};
ghost use Rattle.mav_nodes.specs.News.{NodeEvent, shown, said_by};
ghost use Rattle.plan_upload.specs.Addresses.{node_of};
ghost use Rattle.node_reports.specs.Frames.{is_frame};
ghost use Rattle.fleet_report.specs.Events.{events_text};
ghost use Rattle.node_reports.specs.Reporting.{reported_by, text_if, reports};
ghost use Rattle.node_reports.specs.ParamLists.{HaveValues};

use crate::NoMemory;
use fleet_report::{Event, Report};
use mav_names::{Name, node_of};
use mav_nodes::News;
use param_proto::Param;

// What the report says of one piece of news, if it says anything.
fn event_of<'a>(
    name: Name,
    values: &'a [Param],
    number: usize,
    piece: &'a News,
) -> Option<Event<'a>>
    ensures { (event : NodeEvent) (before : ℕ) → said_by piece.now ≡ shown event → HaveValues values.now (event ∷ [])
        → (is_frame piece.now ≡ true → number ≡ before + 1)
        → (frames : Bool) → text_if frames result ≡ events_text frames (reported_by name before (event ∷ [])) }
{
    match piece {
        News::Sent(frame, message) => Some(Event::Sent(number, frame, message)),
        News::Installed { kind, count, by } => Some(Event::Installed {
            drone: name,
            kind: *kind,
            count: usize::from(*count),
            by: node_of(*by),
        }),
        News::Emptied { kind } => Some(Event::Emptied(name, *kind)),
        News::Dropped(answer) => Some(Event::Dropped(name, *answer)),
        News::Outcome(outcome) => Some(Event::Ended(name, outcome)),
        News::Command(result) => Some(Event::CommandEnded(name, *result)),
        News::Param(param) => Some(Event::ParamGiven(name, param)),
        News::Params(Some(_)) => Some(Event::ParamsEnded(name, Some(values))),
        News::Params(None) => Some(Event::ParamsEnded(name, None)),
        News::Reached(item) => Some(Event::Reached(name, *item)),
        News::Captured(total) => Some(Event::Captured(name, *total)),
        // What it gives isn't text.
        News::File(_) => None,
    }
}

/// One piece of news of a node as the report says it. `number` is that of the frame, if one was sent; a list of
/// parameters that has ended has these values.
pub fn report_piece(
    report: &mut Report,
    name: Name,
    values: &[Param],
    number: usize,
    piece: &News,
) -> Result<(), NoMemory>
    ensures { OnOk result ((event : NodeEvent) (before : ℕ) → said_by piece.now ≡ shown event
        → HaveValues values.now (event ∷ [])
        → (is_frame piece.now ≡ true → number ≡ before + 1)
        → report.new ≡ reports report.old (reported_by name before (event ∷ []))) }
{
    match event_of(name, values, number, piece) {
        Some(event) => report.add(event),
        None => Ok(()),
    }
}
