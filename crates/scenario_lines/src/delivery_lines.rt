// The lines that give frames and bytes to nodes, let time pass, and have drones start again.
ghost use Rattle.std.specs.Prelude.{◌≡◌};
ghost use Rattle.scenario_lines.specs.Readings.{Says, read_heartbeat, read_deliver, read_flow, read_noise, read_tick};
ghost use Rattle.scenario_lines.specs.Readings.{read_clock, read_restart};

use crate::numbers::some_bytes;
use crate::words::Words;
use crate::{Line, LineFault, Names, Reason};
use std::alloc::Global;

/// In units of 10 microseconds.
pub(crate) const MOST_CLOCK: u64 = 1 << 47;

/// `heartbeat NODE`
pub(crate) fn read_heartbeat<N: Names>(nodes: &N, words: &Words) -> Result<Line, Reason>
    ensures { result ≡ read_heartbeat (N.known nodes.now) words.now }
{
    if words.len() != 2 {
        return Err(Reason::Count);
    }
    let node = words.node(1, nodes)?;
    Ok(Line::Heartbeat { node })
}

/// `deliver I NODE`
pub(crate) fn read_deliver<N: Names>(nodes: &N, words: &Words) -> Result<Line, Reason>
    ensures { result ≡ read_deliver (N.known nodes.now) words.now }
{
    if words.len() != 3 {
        return Err(Reason::Count);
    }
    let i = words.whole(1, 1, u64::MAX)?;
    let node = words.node(2, nodes)?;
    Ok(Line::Deliver { i, node })
}

/// `flow K`
pub(crate) fn read_flow(words: &Words) -> Result<Line, Reason>
    ensures { result ≡ read_flow words.now }
{
    if words.len() != 2 {
        return Err(Reason::Count);
    }
    let k = words.whole(1, 0, u64::MAX)?;
    Ok(Line::Flow { k })
}

/// `noise NODE HEX`
pub(crate) fn read_noise<N: Names>(
    alloc: Global,
    nodes: &N,
    words: &Words,
) -> Result<Line, LineFault>
    ensures { Says (read_noise (N.known nodes.now) words.now) result }
{
    if words.len() != 3 {
        return Err(LineFault::Bad(Reason::Count));
    }
    let node = words.node(1, nodes)?;
    let bytes = some_bytes(alloc, words.at(2))?;
    Ok(Line::Noise { node, bytes })
}

/// `tick NODE`
pub(crate) fn read_tick<N: Names>(nodes: &N, words: &Words) -> Result<Line, Reason>
    ensures { result ≡ read_tick (N.known nodes.now) words.now }
{
    if words.len() != 2 {
        return Err(Reason::Count);
    }
    let node = words.node(1, nodes)?;
    Ok(Line::Tick { node })
}

/// `clock N`
pub(crate) fn read_clock(clock: u64, words: &Words) -> Result<Line, Reason>
    ensures { result ≡ read_clock clock words.now }
{
    if words.len() != 2 {
        return Err(Reason::Count);
    }
    let n = words.whole(1, 0, u64::MAX)?;
    if clock.saturating_add(n) > MOST_CLOCK {
        return Err(Reason::Clock);
    }
    Ok(Line::Clock { n })
}

/// `restart DRONE`
pub(crate) fn read_restart<N: Names>(nodes: &N, words: &Words) -> Result<Line, Reason>
    ensures { result ≡ read_restart (N.known nodes.now) words.now }
{
    if words.len() != 2 {
        return Err(Reason::Count);
    }
    let drone = words.drone(1, nodes)?;
    Ok(Line::Restart { drone })
}
