// The text of a generated scenario.
ghost use Rattle.std.specs.Prelude.{◌≡◌, ◌++◌, ◌∷◌, [], ◌<◌, ◌≤◌, OnOk, IfOk, string_bytes};
ghost use Rattle.scenario_maker.specs.Generator.{items_line, begin_line, flow_line, cancel_line, tick_line};
ghost use Rattle.scenario_maker.specs.Generator.{deliver_line, course_lines, round_lines, lines_from, rounds};
ghost use Rattle.scenario_maker.specs.Generator.{line_text, text_of, scenario_text};

use crate::rounds::{Course, Round, round_from};
use mav_ports::NoMemory;
use std::alloc::Global;

const ROUNDS: u32 = 200;

// Drones 1 to 4 and stations 251 to 254.
const FIRST_LINES: &str =
    "drone 1\ndrone 2\ndrone 3\ndrone 4\nstation 251 190\nstation 252 190\nstation 253 190\nstation 254 190\n";

fn put_items(text: &mut String, number: u32, round: &Round) -> Result<(), NoMemory>
    requires small { number ≤ 200 }
    ensures { OnOk result (string_bytes text.new ≡ string_bytes text.old ++ line_text (items_line number round.now)) }
{
    let (items, x, y) = (round.items, 1000 * number, 2000 * number);
    writeln!(text, "items {items} 6 16 {x} {y}")
}

fn put_begin(text: &mut String, round: &Round) -> Result<(), NoMemory>
    requires station { round.now.station < 4 }
    requires drone { round.now.drone < 4 }
    ensures { OnOk result (string_bytes text.new ≡ string_bytes text.old ++ line_text (begin_line round.now)) }
{
    let (station, drone) = (251 + round.station, 1 + round.drone);
    writeln!(text, "begin {station}.190 {drone}.1 mission")
}

fn put_flow(text: &mut String, frames: u32) -> Result<(), NoMemory>
    ensures { OnOk result (string_bytes text.new ≡ string_bytes text.old ++ line_text (flow_line frames)) }
{
    writeln!(text, "flow {frames}")
}

fn put_cancel(text: &mut String, round: &Round) -> Result<(), NoMemory>
    requires station { round.now.station < 4 }
    ensures { OnOk result (string_bytes text.new ≡ string_bytes text.old ++ line_text (cancel_line round.now)) }
{
    let station = 251 + round.station;
    writeln!(text, "cancel {station}.190")
}

fn put_tick(text: &mut String, round: &Round) -> Result<(), NoMemory>
    requires station { round.now.station < 4 }
    ensures { OnOk result (string_bytes text.new ≡ string_bytes text.old ++ line_text (tick_line round.now)) }
{
    let station = 251 + round.station;
    writeln!(text, "tick {station}.190")
}

fn put_deliver(text: &mut String, round: &Round) -> Result<(), NoMemory>
    requires drone { round.now.drone < 4 }
    ensures { OnOk result (string_bytes text.new ≡ string_bytes text.old ++ line_text (deliver_line round.now)) }
{
    let (again, drone) = (round.again, 1 + round.drone);
    writeln!(text, "deliver {again} {drone}.1")
}

fn put_ticks(text: &mut String, round: &Round) -> Result<(), NoMemory>
    requires station { round.now.station < 4 }
    ensures { OnOk result (string_bytes text.new ≡ string_bytes text.old ++ text_of (tick_line round.now
        ∷ tick_line round.now ∷ tick_line round.now ∷ tick_line round.now ∷ tick_line round.now ∷ [])) }
{
    put_tick(text, round)?;
    put_tick(text, round)?;
    put_tick(text, round)?;
    put_tick(text, round)?;
    put_tick(text, round)
}

// What comes after the `begin` line.
fn put_course(text: &mut String, round: &Round) -> Result<(), NoMemory>
    requires station { round.now.station < 4 }
    requires drone { round.now.drone < 4 }
    ensures { OnOk result (string_bytes text.new ≡ string_bytes text.old ++ text_of
        (course_lines round.now round.now.course)) }
{
    match round.course {
        Course::Straight => {}
        Course::Cancelled => {
            put_flow(text, round.first)?;
            put_cancel(text, round)?;
        }
        Course::Ticked => {
            put_flow(text, round.first)?;
            put_ticks(text, round)?;
        }
        Course::Repeated => {
            put_flow(text, round.first)?;
            put_deliver(text, round)?;
        }
    }
    put_flow(text, 200)
}

fn put_round(text: &mut String, number: u32, round: &Round) -> Result<(), NoMemory>
    requires small { number ≤ 200 }
    requires station { round.now.station < 4 }
    requires drone { round.now.drone < 4 }
    ensures { OnOk result (string_bytes text.new ≡ string_bytes text.old ++ text_of (round_lines number round.now)) }
{
    text.push_str("empty\n")?;
    put_items(text, number, round)?;
    put_begin(text, round)?;
    put_course(text, round)
}

fn put_rounds(text: &mut String, number: u32) -> Result<(), NoMemory>
    ensures { OnOk result (string_bytes text.new ≡ string_bytes text.old ++ text_of (lines_from rounds 1 number)) }
{
    let mut state = number;
    for index in 0..ROUNDS {
        let (round, next) = round_from(state);
        put_round(text, index + 1, &round)?;
        state = next;
    }
    Ok(())
}

/// The scenario that a number gives, some 20,000 bytes.
pub fn scenario_text(alloc: Global, number: u32) -> Result<Vec<u8>, NoMemory>
    ensures { IfOk result (λ text. text.items ≡ scenario_text number) }
{
    let mut text = String::new(alloc);
    text.push_str(FIRST_LINES)?;
    put_rounds(&mut text, number)?;
    Ok(text.into_bytes())
}
