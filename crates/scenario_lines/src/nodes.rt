// The lines that name nodes.
ghost use Rattle.std.specs.Prelude.{◌≡◌};
ghost use Rattle.scenario_lines.specs.Readings.{read_drone, read_station};

use crate::words::Words;
use crate::{Line, Names, Reason};
use mav_names::{Name, drone_name};

/// `drone SYS [X Y]`
pub(crate) fn read_drone<N: Names>(nodes: &N, words: &Words) -> Result<Line, Reason>
    ensures { result ≡ read_drone (N.known nodes.now) words.now }
{
    if words.len() != 2 && words.len() != 4 {
        return Err(Reason::Count);
    }
    let sys = words.whole(1, 1, 255)? as u8;
    let x = words.signed_or_zero(2)?;
    let y = words.signed_or_zero(3)?;
    if nodes.has_name(drone_name(sys)) {
        return Err(Reason::Twice);
    }
    Ok(Line::Drone { sys, x, y })
}

/// `station SYS COMP`
pub(crate) fn read_station<N: Names>(nodes: &N, words: &Words) -> Result<Line, Reason>
    ensures { result ≡ read_station (N.known nodes.now) words.now }
{
    if words.len() != 3 {
        return Err(Reason::Count);
    }
    let sys = words.whole(1, 1, 255)? as u8;
    let comp = words.whole(2, 1, 255)? as u8;
    if nodes.has_name(Name { sys, comp }) {
        return Err(Reason::Twice);
    }
    Ok(Line::Station { sys, comp })
}
