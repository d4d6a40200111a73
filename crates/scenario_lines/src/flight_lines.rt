// The lines that have drones fly, and that ask where they are.
ghost use Rattle.std.specs.Prelude.{◌≡◌};
ghost use Rattle.scenario_lines.specs.Readings.{read_sim, read_where};

use crate::words::Words;
use crate::{Line, Names, Reason};

/// The most ticks of a simulator in one line.
const MOST_TICKS: u64 = 10_000;

/// `sim DRONE N`
pub(crate) fn read_sim<N: Names>(nodes: &N, words: &Words) -> Result<Line, Reason>
    ensures { result ≡ read_sim (N.known nodes.now) words.now }
{
    if words.len() != 3 {
        return Err(Reason::Count);
    }
    let drone = words.drone(1, nodes)?;
    let n = words.whole(2, 1, MOST_TICKS)?;
    Ok(Line::Sim { drone, n })
}

/// `where DRONE`
pub(crate) fn read_where<N: Names>(nodes: &N, words: &Words) -> Result<Line, Reason>
    ensures { result ≡ read_where (N.known nodes.now) words.now }
{
    if words.len() != 2 {
        return Err(Reason::Count);
    }
    let drone = words.drone(1, nodes)?;
    Ok(Line::WhereIs { drone })
}
