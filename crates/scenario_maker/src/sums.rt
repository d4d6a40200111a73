// The sums of a report.
ghost use Rattle.std.specs.Prelude.{◌≡◌, ◌++◌, IfOk, OnOk, map, string_bytes};
ghost use Rattle.scenario_maker.specs.Sums.{sum_text, counts_text, sums_text};

use crate::lines::{counted, frames_in, put_plans, report_lines};
use mav_ports::NoMemory;
use std::alloc::Global;

fn put_sum(text: &mut String, word: &str, count: usize) -> Result<(), NoMemory>
    ensures { OnOk result (string_bytes text.new ≡ string_bytes text.old ++ sum_text word.now count) }
{
    writeln!(text, "{word} {count}")
}

fn counts_text(alloc: Global, lines: &[&[u8]]) -> Result<Vec<u8>, NoMemory>
    ensures { IfOk result (λ text. text.items ≡ counts_text (map (λ line. line.now) lines.now)) }
{
    let mut text = String::new(alloc);
    put_sum(&mut text, "rounds", 200)?;
    put_sum(&mut text, "frames", frames_in(lines))?;
    put_sum(&mut text, "installs", counted(b"install ", lines))?;
    put_sum(&mut text, "outcomes", counted(b"outcome ", lines))?;
    put_sum(&mut text, "drops", counted(b"drop ", lines))?;
    put_sum(&mut text, "refused", counted(b"refused ", lines))?;
    Ok(text.into_bytes())
}

/// What is written of a report.
pub fn sums_text(alloc: Global, report: &[u8]) -> Result<Vec<u8>, NoMemory>
    ensures { IfOk result (λ text. text.items ≡ sums_text report.now) }
{
    let lines = report_lines(alloc, report)?;
    let mut text = counts_text(alloc, &lines)?;
    put_plans(&mut text, &lines)?;
    Ok(text)
}
