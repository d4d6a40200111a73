// Definitions as an input gives them.
ghost use Rattle.std.specs.Prelude.{◌≡◌, ◌<◌, ◌≤◌, length, IfOk, IfErr};
ghost use Rattle.std.specs.Io.KnownBytes.{prepend_known};
ghost use Rattle.mav_ports.specs.Gets.{IsSpent};
ghost use Rattle.dialect_command.specs.Spec.{most_definition_bytes};
ghost use Rattle.dialect_command.specs.Reads.{Holds, Halts, of_input, halt_of};

use dialect::{Dialect, DialectFault};
use mav_ports::{Got, Source};
use run_status::{Bound, InputError, Place, Reason, RunEnd, read_on};
use std::alloc::Global;

// How much is read at once.
const PIECE_BYTES: usize = 65_536;

const MOST_DEFINITION_BYTES: usize = 16_777_216;

/// Reads an input to its end, and its bytes as definitions.
pub fn read_definitions<S: Source>(alloc: Global, input: &mut S) -> Result<Dialect, RunEnd>
    ensures holds { IfOk result (Holds (S.has_ended input.new × IsSpent (S.left input.new))
        (S.left input.old) (S.left input.new)) }
    ensures halts { IfErr result (Halts (of_input (S.has_ended input.new × IsSpent (S.left input.new))
        (S.faults input.old) (S.faults input.new) (S.idles input.old) (S.idles input.new))
        (S.left input.old) (S.left input.new)) }
{
    let mut buf = vec![in alloc; 0u8; PIECE_BYTES]?;
    let bytes = read_all(alloc, input, &mut buf)?;
    let dialect = match Dialect::read(alloc, &bytes) {
        Ok(dialect) => dialect,
        Err(fault) => return Err(halt_of(fault)),
    };
    Ok(dialect)
}

// How a fault halts a run.
fn halt_of(fault: DialectFault) -> RunEnd
    ensures { result ≡ halt_of fault }
{
    let reason = match fault {
        DialectFault::NotJson => Reason::Json,
        DialectFault::Shape { .. } => Reason::Shape,
        DialectFault::BadType { .. } => Reason::FieldType,
        DialectFault::BadName { .. } => Reason::Name,
        DialectFault::TwiceId { .. } => Reason::TwiceId,
        DialectFault::TwiceName { .. } => Reason::TwiceName,
        DialectFault::Layout { .. } => Reason::Layout,
        DialectFault::TooMany => Reason::TooMany,
        DialectFault::NoMemory => return RunEnd::NoMemory,
    };
    RunEnd::Stopped(InputError::Bad(Place::Definitions, reason))
}

// All bytes of an input, unless they are too many.
fn read_all<S: Source>(alloc: Global, input: &mut S, buf: &mut [u8]) -> Result<Vec<u8>, RunEnd>
    requires { 0 < length buf.old }
    ensures taken { IfOk result (λ bytes. S.left input.old ≡ prepend_known bytes.items (S.left input.new)) }
    ensures at_end { IfOk result (λ bytes. S.has_ended input.new × IsSpent (S.left input.new)) }
    ensures fits { IfOk result (λ bytes. length bytes.items ≤ most_definition_bytes) }
    ensures halts { IfErr result (Halts (of_input (S.has_ended input.new × IsSpent (S.left input.new))
        (S.faults input.old) (S.faults input.new) (S.idles input.old) (S.idles input.new))
        (S.left input.old) (S.left input.new)) }
{
    let mut bytes = Vec::new(alloc);
    loop {
        match read_on(input, buf) {
            Got::Bytes(count) => {
                if count > MOST_DEFINITION_BYTES - bytes.len() {
                    return Err(RunEnd::Stopped(InputError::AtLimit(Bound::DefinitionBytes)));
                }
                bytes.extend_from_slice(&buf[..count])?;
            }
            Got::Idle => return Err(RunEnd::TurnsSpent),
            Got::End => return Ok(bytes),
            Got::Failed => return Err(RunEnd::ReadFault),
        }
    }
}
