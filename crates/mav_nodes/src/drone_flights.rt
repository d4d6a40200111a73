// What a drone says at a tick of its simulator.
ghost use Rattle.std.specs.Prelude.{◌≡◌, ◌++◌, ◌∷◌, map, IfOk, OnOk};
ghost use Rattle.drone_sim.specs.Sim.{SimTick, news_of};
ghost use Rattle.mav_nodes.specs.News.{events_of, shown};
ghost use Rattle.mav_nodes.specs.Services.{step_of, sim_step as sim_step_of, position_message, reached_messages};
ghost use Rattle.mav_nodes.specs.Services.{reached_events, captured_events};

use crate::drone_params::STEP;
use crate::news::report;
use crate::services::{Served, reply};
use crate::{News, NoMemory};
use drone_sim::SimNews;
use mav_messages::{GlobalPositionInt, Message, MissionItemReached};
use param_proto::ParamServer;
use std::alloc::Global;

// The heading of GLOBAL_POSITION_INT if it is unknown.
const UNKNOWN_HEADING: u16 = u16::MAX;

// A step as the parameter has it: one below 1 acts as 1.
fn step_of(number: i32) -> u32
    ensures { result ≡ step_of number }
{
    if number < 1 { 1 } else { number as u32 }
}

/// The step of the simulator, in units of 1e-7 degrees.
pub(crate) fn sim_step(server: &ParamServer) -> u32
    ensures { result ≡ sim_step_of server.now }
{
    step_of(server.word(&STEP).unwrap_or(0).cast_signed())
}

// Where the drone is, at a time in milliseconds since its start.
fn position_of(time: u32, news: &SimNews) -> Message
    ensures { result ≡ position_message time (record { x = news.now.x; y = news.now.y }) }
{
    Message::GlobalPositionInt(GlobalPositionInt {
        time_boot_ms: time,
        lat: news.x,
        lon: news.y,
        alt: 0,
        relative_alt: 0,
        vx: 0,
        vy: 0,
        vz: 0,
        hdg: UNKNOWN_HEADING,
    })
}

// The item that was reached, if there is one.
fn tell_reached(
    reached: Option<u16>,
    answers: &mut Vec<Message>,
    last: &mut Vec<News>,
) -> Result<(), NoMemory>
    ensures answers { OnOk result (answers.new.items ≡ answers.old.items ++ reached_messages reached) }
    ensures last { OnOk result (events_of last.new.items ≡ events_of last.old.items
        ++ map shown (reached_events reached)) }
{
    let Some(seq) = reached else {
        return Ok(());
    };
    reply(
        answers,
        Message::MissionItemReached(MissionItemReached { seq }),
    )?;
    report(last, News::Reached(seq))
}

// The total of pictures, if one was taken.
fn tell_captured(captured: bool, total: u32, last: &mut Vec<News>) -> Result<(), NoMemory>
    ensures { OnOk result (events_of last.new.items ≡ events_of last.old.items
        ++ map shown (captured_events captured total)) }
{
    if !captured {
        return Ok(());
    }
    report(last, News::Captured(total))
}

/// Says where the drone is, and which item it has reached.
pub(crate) fn say_flight(
    alloc: Global,
    time: u32,
    news: &SimNews,
    total: u32,
) -> Result<Served, NoMemory>
    ensures answers { IfOk result (λ served. (tick : SimTick) → news.now ≡ news_of tick
        → served.answers.items ≡ position_message time tick.sim.position ∷ reached_messages tick.reached) }
    ensures last { IfOk result (λ served. (tick : SimTick) → news.now ≡ news_of tick
        → events_of served.last.items ≡ map shown
        (reached_events tick.reached ++ captured_events tick.captured total)) }
{
    let mut answers = Vec::new(alloc);
    let mut last = Vec::new(alloc);
    reply(&mut answers, position_of(time, news))?;
    tell_reached(news.reached, &mut answers, &mut last)?;
    tell_captured(news.captured, total, &mut last)?;
    Ok(Served { answers, last })
}
