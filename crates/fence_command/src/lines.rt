// What one line of a file says.
ghost use Rattle.std.specs.Prelude.{◌≡◌, true, false, Ok, Err};
ghost use Rattle.std.specs.declared.result.Result.{Result};
ghost use Rattle.scenario_lines.specs.Readings.{whole, signed};
ghost use Rattle.fence_command.specs.FenceFile.{home_says, step_says, ticks_says, list_says, items_say, line_says};
ghost use Rattle.fence_command.specs.FenceFile.{file_reason};
ghost use Rattle.scenario_lines.specs.declared.faults.Reason.{Reason};
ghost use Rattle.fence_command.specs.FenceFile.{FileState};
ghost use Rattle.fence_command.specs.Files.{state_of};
ghost use Rattle.command_inputs.specs.Takers.{FaultSays};
ghost use Rattle.fence_command.specs.Saying.{Says, renamed};

use crate::FenceFile;
use command_inputs::add_line;
use drone_sim::Point;
use scenario_lines::{LineFault, Reason, Words, is_word};
use std::alloc::Global;

const MOST_STEP: u64 = 1_000_000_000;

const MOST_TICKS: u64 = 10_000;

// `home X Y`
fn read_home(file: &mut FenceFile, words: &Words) -> Result<(), Reason>
    ensures { Says result (home_says (state_of file.old) words.now) (state_of file.new) }
{
    if words.len() != 3 {
        return Err(Reason::Count);
    }
    let x = words.signed(1)?;
    let y = words.signed(2)?;
    file.home = Point { x, y };
    Ok(())
}

// `step N`
fn read_step(file: &mut FenceFile, words: &Words) -> Result<(), Reason>
    ensures { Says result (step_says (state_of file.old) words.now) (state_of file.new) }
{
    if words.len() != 2 {
        return Err(Reason::Count);
    }
    file.step = words.whole(1, 1, MOST_STEP)? as u32;
    Ok(())
}

// `ticks N`
fn read_ticks(file: &mut FenceFile, words: &Words) -> Result<(), Reason>
    ensures { Says result (ticks_says (state_of file.old) words.now) (state_of file.new) }
{
    if words.len() != 2 {
        return Err(Reason::Count);
    }
    file.ticks = words.whole(1, 0, MOST_TICKS)? as u32;
    Ok(())
}

// `fence` and `mission`
fn read_list(file: &mut FenceFile, to_fence: bool, words: &Words) -> Result<(), Reason>
    ensures { Says result (list_says (state_of file.old) to_fence words.now) (state_of file.new) }
{
    if words.len() != 1 {
        return Err(Reason::Count);
    }
    file.to_fence = to_fence;
    Ok(())
}

fn file_reason(reason: Reason) -> Reason
    ensures { result ≡ file_reason reason }
{
    match reason {
        Reason::Hex => Reason::Number,
        other => other,
    }
}

fn renamed(added: Result<(), LineFault>) -> Result<(), LineFault>
    ensures { result ≡ renamed added }
{
    match added {
        Err(LineFault::Bad(reason)) => Err(LineFault::Bad(file_reason(reason))),
        other => other,
    }
}

// `item` and `items`, a blank line or a comment.
fn read_items(alloc: Global, file: &mut FenceFile, text: &[u8]) -> Result<(), LineFault>
    ensures { FaultSays result (items_say (state_of file.old) text.now) (state_of file.new) }
{
    if file.to_fence {
        renamed(add_line(alloc, &mut file.fence, text))
    } else {
        renamed(add_line(alloc, &mut file.mission, text))
    }
}

fn faulted(read: Result<(), Reason>) -> Result<(), LineFault>
    ensures { (says : Result FileState Reason) (file : FileState) → Says read says file → FaultSays result says file }
{
    Ok(read?)
}

/// Does what a line says, or says what is wrong with it.
pub(crate) fn read_text(alloc: Global, file: &mut FenceFile, text: &[u8]) -> Result<(), LineFault>
    ensures { FaultSays result (line_says (state_of file.old) text.now) (state_of file.new) }
{
    let words = Words::of(alloc, text)?;
    match words.at(0) {
        first if is_word(first, "home") => faulted(read_home(file, &words)),
        first if is_word(first, "step") => faulted(read_step(file, &words)),
        first if is_word(first, "ticks") => faulted(read_ticks(file, &words)),
        first if is_word(first, "fence") => faulted(read_list(file, true, &words)),
        first if is_word(first, "mission") => faulted(read_list(file, false, &words)),
        _ => read_items(alloc, file, text),
    }
}
