// The lines of news, and all that is written of a call's news.
ghost use Rattle.std.specs.Prelude.{◌≡◌, ◌⊎◌, ◌∷◌, [], List, map, Some, None, OnOk, IfOk, IfErr};
ghost use Rattle.std.specs.Result.{result_err};
ghost use Rattle.mav_nodes.specs.News.{NodeEvent, shown, said_by, events_of};
ghost use Rattle.node_reports.specs.ParamLists.{HaveValues};
ghost use Rattle.plan_upload.specs.Outcomes.{told_of};
ghost use Rattle.live_node.specs.declared.run_log.Ending.TheVariants.{Done};
ghost use Rattle.live_node.specs.Texts.{count_with, ending_in, ending_told, ending_by_file, first_of};
ghost use Rattle.live_node.specs.Ports.{FaultsBy, PrintFaults, SameRead, IsTellingEnd};
ghost use Rattle.live_node.specs.Progress.{Said, Tells, TellsAll, Prints};

use crate::NoMemory;
use crate::run_log::{Ending, RunLog};
use crate::sending::send_news;
use field_layout::Label;
use fleet_report::Report;
use mav_links::Link;
use mav_nodes::{FileEnd, News};
use mav_ports::{Sink, write_all};
use node_reports::report_piece;
use param_proto::Param;
use plan_upload::Outcome;
use run_status::{LiveEnd, RunEnd};
use std::alloc::Global;

// It is done, and gave no bytes.
fn done(alloc: Global) -> Ending
    ensures { result ≡ Done [] }
{
    Ending::Done(Label::new(Vec::new(alloc)))
}

// How the operation of a station has ended with an outcome.
fn ending_of(alloc: Global, outcome: &Outcome) -> Ending
    ensures { result ≡ ending_told (told_of outcome.now) }
{
    match outcome {
        Outcome::Installed | Outcome::Cleared | Outcome::Got(_) => done(alloc),
        Outcome::NotInstalled(code) | Outcome::Ended(code) => Ending::Refused(*code),
        Outcome::Unknown => Ending::Refused(1),
    }
}

// How one on files has ended, with a copy of the bytes that it gave.
fn ending_by_file(alloc: Global, end: &FileEnd) -> Result<Ending, NoMemory>
    ensures { IfOk result (λ ending. ending ≡ ending_by_file end.now) }
{
    match end {
        FileEnd::Done(bytes) => Ok(Ending::Done(Label::new(bytes.bytes().to_vec(alloc)?))),
        FileEnd::Refused(code) => Ok(Ending::Refused(*code)),
        FileEnd::NoAnswer => Ok(Ending::Unanswered),
    }
}

// How it has ended with a piece of news, if it has.
fn ending_in(alloc: Global, piece: &News) -> Result<Option<Ending>, NoMemory>
    ensures { IfOk result (λ ending. (event : NodeEvent) → said_by piece.now ≡ shown event
        → ending ≡ ending_in event) }
{
    match piece {
        News::Outcome(outcome) => Ok(Some(ending_of(alloc, outcome))),
        News::Command(Some(0)) => Ok(Some(done(alloc))),
        News::Command(Some(code)) => Ok(Some(Ending::Refused(*code))),
        News::Command(None) | News::Params(None) => Ok(Some(Ending::Unanswered)),
        News::Param(_) | News::Params(Some(_)) => Ok(Some(done(alloc))),
        News::File(end) => Ok(Some(ending_by_file(alloc, end)?)),
        _ => Ok(None),
    }
}

// How many frames the node has sent with a piece of news.
fn count_with(sent: usize, piece: &News) -> usize
    ensures { (event : NodeEvent) → said_by piece.now ≡ shown event → result ≡ count_with sent event }
{
    match piece {
        News::Sent(_, _) => sent.saturating_add(1),
        _ => sent,
    }
}

impl RunLog {
    // Keeps how the operation has ended with a piece of news, if it hadn't before.
    fn keep_ending(&mut self, piece: &News) -> Result<(), NoMemory>
        ensures { OnOk result ((event : NodeEvent) → said_by piece.now ≡ shown event
            → self.new ≡ record self.old { ending = first_of self.old.ending (ending_in event) }) }
    {
        if self.ending.is_none() {
            self.ending = ending_in(self.alloc, piece)?;
        }
        Ok(())
    }

    // Adds the line of a piece of news.
    fn tell_one(
        &mut self,
        values: &[Param],
        piece: &News,
        report: &mut Report,
    ) -> Result<(), NoMemory>
        ensures { OnOk result ((event : NodeEvent) → said_by piece.now ≡ shown event
            → HaveValues values.now (event ∷ [])
            → Tells (event ∷ []) self.old self.new report.old report.new) }
    {
        let sent = self.sent;
        report_piece(report, self.name, values, sent.saturating_add(1), piece)?;
        self.sent = count_with(sent, piece);
        self.keep_ending(piece)
    }

    // Adds the lines of news.
    fn tell_all(
        &mut self,
        values: &[Param],
        news: &[News],
        report: &mut Report,
    ) -> Result<(), NoMemory>
        ensures { OnOk result ((events : List NodeEvent) → events_of news.now ≡ map shown events
            → HaveValues values.now events
            → Tells events self.old self.new report.old report.new) }
    {
        for piece in news {
            self.tell_one(values, piece, report)?;
        }
        Ok(())
    }

    // The lines of news.
    fn lines(&mut self, values: &[Param], news: &[News]) -> Result<Report, NoMemory>
        ensures { IfOk result (λ report. (events : List NodeEvent) → events_of news.now ≡ map shown events
            → HaveValues values.now events
            → TellsAll events self.old self.new report) }
    {
        let mut report = Report::new(self.alloc, false);
        self.tell_all(values, news, &mut report)?;
        Ok(report)
    }

    // Writes the lines of news.
    fn print<K: Sink>(&mut self, values: &[Param], out: &mut K, news: &[News]) -> Result<(), RunEnd>
        ensures printed { (events : List NodeEvent) → events_of news.now ≡ map shown events
            → HaveValues values.now events
            → Prints (result_err result) events self.old self.new (K.sent out.old) (K.sent out.new) }
        ensures faults { PrintFaults (result_err result) (K.faults out.old) (K.faults out.new) }
        ensures end { IfErr result (λ end. (end ≡ RunEnd.WriteFault) ⊎ (end ≡ RunEnd.NoMemory)) }
    {
        let report = self.lines(values, news)?;
        write_all(out, report.bytes())?;
        Ok(())
    }

    /// Writes what a call told: its frames to the link, and then its lines, also if the link fails.
    pub(crate) fn tell<L: Link, K: Sink>(
        &mut self,
        values: &[Param],
        link: &mut L,
        out: &mut K,
        news: &[News],
    ) -> Result<(), RunEnd>
        ensures said { (events : List NodeEvent) → events_of news.now ≡ map shown events → HaveValues values.now events
            → Said (result_err result) events self.old self.new (L.state link.old) (L.state link.new) (K.sent out.old)
            (K.sent out.new) }
        ensures faults { FaultsBy (result_err result) (L.state link.old).faults (L.state link.new).faults
            (K.faults out.old) (K.faults out.new) }
        ensures unread { SameRead (L.state link.old) (L.state link.new) }
        ensures end { IfErr result IsTellingEnd }
    {
        let sent = send_news(link, news);
        match self.print(values, out, news) {
            Ok(()) => {}
            Err(end) => return Err(end),
        }
        match sent {
            Ok(()) => Ok(()),
            Err(_) => Err(RunEnd::Live(LiveEnd::PortFault)),
        }
    }
}
