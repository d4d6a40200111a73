// The events of a node's news: its frames are kept, and all of it is reported.
ghost use Rattle.std.specs.Prelude.{◌≡◌, ◌+◌, ◌++◌, true, if◌then◌else◌, List, [], ◌∷◌, length, map, OnOk};
ghost use Rattle.mav_nodes.specs.News.{NodeEvent, shown, said_by, events_of};
ghost use Rattle.node_reports.specs.Frames.{is_frame};
ghost use Rattle.node_reports.specs.ParamLists.{HaveValues};
ghost use Rattle.fleet_world.specs.Counts.{counted};
ghost use Rattle.fleet_world.specs.Steps.{packets_in};
ghost use Rattle.fleet_world.specs.WorldView.{kept_as};
ghost use Rattle.fleet_world.specs.Promises.{Reported};

use crate::NoMemory;
use crate::sent::SentFrames;
use fleet_report::Report;
use mav_names::Name;
use mav_nodes::News;
use node_reports::report_piece;
use param_proto::Param;

// 1 for a frame.
fn frame_count(piece: &News) -> usize
    ensures { result ≡ (if is_frame piece.now then 1 else 0) }
{
    match piece {
        News::Sent(_, _) => 1,
        _ => 0,
    }
}

fn count_frames(news: &[News]) -> usize
    ensures { result ≡ counted is_frame news.now }
{
    let mut count = 0;
    for piece in news {
        count += frame_count(piece);
    }
    count
}

/// How many frames are among the news.
pub(crate) fn frames_in(news: &[News]) -> usize
    ensures { (events : List NodeEvent) → events_of news.now ≡ map shown events → result ≡ length (packets_in events) }
{
    count_frames(news)
}

// The frame of a piece of news is kept, if it is one.
fn keep_frame(sent: &mut SentFrames, piece: &News) -> Result<(), NoMemory>
    ensures kept { OnOk result ((event : NodeEvent) → said_by piece.now ≡ shown event
        → sent.new ≡ sent.old ++ map kept_as (packets_in (event ∷ []))) }
    ensures count { OnOk result (is_frame piece.now ≡ true → length sent.new ≡ length sent.old + 1) }
{
    match piece {
        News::Sent(frame, _) => sent.push(frame),
        _ => Ok(()),
    }
}

// One piece of news of a node; a list that has ended has these values.
fn report_one(
    sent: &mut SentFrames,
    name: Name,
    values: &[Param],
    piece: &News,
    report: &mut Report,
) -> Result<(), NoMemory>
    ensures { OnOk result ((event : NodeEvent) → said_by piece.now ≡ shown event → HaveValues values.now (event ∷ [])
        → Reported name (event ∷ []) sent.old sent.new report.old report.new) }
{
    keep_frame(sent, piece)?;
    report_piece(report, name, values, sent.len(), piece)
}

/// The news of a node, one after another. Each list of parameters that has ended has these values.
pub(crate) fn report_all(
    sent: &mut SentFrames,
    name: Name,
    values: &[Param],
    news: &[News],
    report: &mut Report,
) -> Result<(), NoMemory>
    ensures { OnOk result ((events : List NodeEvent) → events_of news.now ≡ map shown events
        → HaveValues values.now events
        → Reported name events sent.old sent.new report.old report.new) }
{
    for piece in news {
        report_one(sent, name, values, piece, report)?;
    }
    Ok(())
}
