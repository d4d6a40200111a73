// An input that is read to its end.
ghost use Rattle.std.specs.Prelude.{◌≡◌, ◌<◌, [], length};
ghost use Rattle.mav_ports.specs.Gets.{IsSpent};
ghost use Rattle.run_status.specs.Runs.{port_outcome};
ghost use Rattle.command_inputs.specs.Takers.{ReadsLines};

use crate::LineTaker;
use crate::feeding::{feed, finish};
use crate::held::HeldLine;
use mav_ports::{Got, Source};
use run_status::{RunEnd, read_on};
use std::alloc::Global;

// How much is read at once.
const PIECE_BYTES: usize = 65_536;

/// Reads an input to its end, and has the taker take its lines, up to the first that it doesn't.
pub fn read_lines<S: Source, T: LineTaker>(
    alloc: Global,
    input: &mut S,
    taker: &mut T,
) -> Result<(), RunEnd>
    ensures { ReadsLines result T.says taker.old (port_outcome (S.has_ended input.new × IsSpent (S.left input.new))
        (S.faults input.old) (S.faults input.new) (S.idles input.old) (S.idles input.new) 0 0)
        (S.left input.old) (S.left input.new) taker.new }
{
    let mut held = HeldLine::new(alloc)?;
    let mut buf = vec![in alloc; 0u8; PIECE_BYTES]?;
    read_all(alloc, input, &mut held, &mut buf, taker)
}

// Reads on until a line is bad or the input gives no more.
fn read_all<S: Source, T: LineTaker>(
    alloc: Global,
    input: &mut S,
    held: &mut HeldLine,
    buf: &mut [u8],
    taker: &mut T,
) -> Result<(), RunEnd>
    requires room { 0 < length buf.old }
    requires start { (held.old.number ≡ 1) × (held.old.bytes.items ≡ []) }
    ensures { ReadsLines result T.says taker.old (port_outcome (S.has_ended input.new × IsSpent (S.left input.new))
        (S.faults input.old) (S.faults input.new) (S.idles input.old) (S.idles input.new) 0 0)
        (S.left input.old) (S.left input.new) taker.new }
{
    loop {
        match read_on(input, buf) {
            Got::Bytes(count) => feed(alloc, held, &buf[..count], taker)?,
            Got::Idle => return Err(RunEnd::TurnsSpent),
            Got::End => return finish(alloc, held, taker),
            Got::Failed => return Err(RunEnd::ReadFault),
        }
    }
}
