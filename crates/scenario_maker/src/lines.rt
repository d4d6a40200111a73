// The lines of a report, and what they are counted by.
ghost use Rattle.std.specs.Prelude.{◌≡◌, ◌++◌, IfOk, OnOk, map};
ghost use Rattle.scenario_maker.specs.Sums.{report_lines, begins, is_plan, is_numbered, counted, frames_in, plans_in};
ghost use Rattle.scenario_maker.specs.Generator.{line_text, text_of};

use mav_ports::NoMemory;
use std::alloc::Global;

/// The lines of a report, of which the last one has no byte.
pub(crate) fn report_lines(alloc: Global, report: &[u8]) -> Result<Vec<&[u8]>, NoMemory>
    ensures { IfOk result (λ lines. map (λ line. line.now) lines.items ≡ report_lines report.now) }
{
    Ok(report.split(|byte| *byte == b'\n').collect(alloc)?)
}

fn begins(word: &[u8], line: &[u8]) -> bool
    ensures { result ≡ begins word.now line.now }
{
    line.starts_with(word)
}

fn is_plan(line: &[u8]) -> bool
    ensures { result ≡ is_plan line.now }
{
    begins(b"plan ", line)
}

fn is_numbered(line: &[u8]) -> bool
    ensures { result ≡ is_numbered line.now }
{
    matches!(line, [b'0'..=b'9', ..])
}

/// How many lines begin with a word.
pub(crate) fn counted(word: &[u8], lines: &[&[u8]]) -> usize
    ensures { result ≡ counted word.now (map (λ line. line.now) lines.now) }
{
    let mut count = 0;
    for line in lines {
        if begins(word, line) {
            count += 1;
        }
    }
    count
}

/// How many frames are reported.
pub(crate) fn frames_in(lines: &[&[u8]]) -> usize
    ensures { result ≡ frames_in (map (λ line. line.now) lines.now) }
{
    let mut count = 0;
    for line in lines {
        if is_plan(line) {
            return count;
        }
        if is_numbered(line) {
            count += 1;
        }
    }
    count
}

// Writes a line with its LF.
fn put_line(text: &mut Vec<u8>, line: &[u8]) -> Result<(), NoMemory>
    ensures { OnOk result (text.new.items ≡ text.old.items ++ line_text line.now) }
{
    text.extend_from_slice(line)?;
    Ok(text.push(b'\n')?)
}

/// Writes the closing plans, without their items.
pub(crate) fn put_plans(text: &mut Vec<u8>, lines: &[&[u8]]) -> Result<(), NoMemory>
    ensures { OnOk result (text.new.items ≡ text.old.items ++ text_of (plans_in (map (λ line. line.now) lines.now))) }
{
    for line in lines {
        if is_plan(line) {
            put_line(text, line)?;
        }
    }
    Ok(())
}
