// The lines that order something of a station, and the one that empties the draft for its orders.
ghost use Rattle.std.specs.Prelude.{◌≡◌};
ghost use Rattle.scenario_lines.specs.Readings.{read_empty, read_begin, read_cancel, read_clear, read_get};
ghost use Rattle.scenario_lines.specs.Readings.{read_command, read_params};

use crate::words::Words;
use crate::{Line, Names, Reason};

/// `empty`
pub(crate) fn read_empty(words: &Words) -> Result<Line, Reason>
    ensures { result ≡ read_empty words.now }
{
    if words.len() != 1 {
        return Err(Reason::Count);
    }
    Ok(Line::Empty)
}

/// `begin STATION DRONE KIND`
pub(crate) fn read_begin<N: Names>(nodes: &N, words: &Words) -> Result<Line, Reason>
    ensures { result ≡ read_begin (N.known nodes.now) words.now }
{
    if words.len() != 4 {
        return Err(Reason::Count);
    }
    let station = words.station(1, nodes)?;
    let drone = words.drone(2, nodes)?;
    let kind = words.kind(3)?;
    Ok(Line::Begin {
        station,
        drone,
        kind,
    })
}

/// `cancel STATION`
pub(crate) fn read_cancel<N: Names>(nodes: &N, words: &Words) -> Result<Line, Reason>
    ensures { result ≡ read_cancel (N.known nodes.now) words.now }
{
    if words.len() != 2 {
        return Err(Reason::Count);
    }
    let station = words.station(1, nodes)?;
    Ok(Line::Cancel { station })
}

/// `clear STATION DRONE KIND`
pub(crate) fn read_clear<N: Names>(nodes: &N, words: &Words) -> Result<Line, Reason>
    ensures { result ≡ read_clear (N.known nodes.now) words.now }
{
    if words.len() != 4 {
        return Err(Reason::Count);
    }
    let station = words.station(1, nodes)?;
    let drone = words.drone(2, nodes)?;
    let kind = words.kind_or_all(3)?;
    Ok(Line::Clear {
        station,
        drone,
        kind,
    })
}

/// `get STATION DRONE KIND`
pub(crate) fn read_get<N: Names>(nodes: &N, words: &Words) -> Result<Line, Reason>
    ensures { result ≡ read_get (N.known nodes.now) words.now }
{
    if words.len() != 4 {
        return Err(Reason::Count);
    }
    let station = words.station(1, nodes)?;
    let drone = words.drone(2, nodes)?;
    let kind = words.kind(3)?;
    Ok(Line::Get {
        station,
        drone,
        kind,
    })
}

/// `command STATION DRONE NUMBER W`
pub(crate) fn read_command<N: Names>(nodes: &N, words: &Words) -> Result<Line, Reason>
    ensures { result ≡ read_command (N.known nodes.now) words.now }
{
    if words.len() != 5 {
        return Err(Reason::Count);
    }
    let station = words.station(1, nodes)?;
    let drone = words.drone(2, nodes)?;
    let number = words.whole(3, 0, 65535)? as u16;
    let word = words.wire(4)?;
    Ok(Line::Command {
        station,
        drone,
        number,
        word,
    })
}

/// `params STATION DRONE`
pub(crate) fn read_params<N: Names>(nodes: &N, words: &Words) -> Result<Line, Reason>
    ensures { result ≡ read_params (N.known nodes.now) words.now }
{
    if words.len() != 3 {
        return Err(Reason::Count);
    }
    let station = words.station(1, nodes)?;
    let drone = words.drone(2, nodes)?;
    Ok(Line::Params { station, drone })
}
