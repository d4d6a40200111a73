// All bytes of an input, unless they are too many.
ghost use Rattle.std.specs.Prelude.{◌≡◌, ◌<◌, ◌≤◌, ◌+◌, ℕ, List, Some, length, OnOk, IfOk, IfErr};
ghost use Rattle.std.specs.declared.option.Option.{Option};
ghost use Rattle.mav_ports.specs.Gets.{IsSpent};
ghost use Rattle.run_status.specs.Runs.{RunBeforeStatus, port_outcome};
ghost use Rattle.run_status.specs.Seen.{halted_over, input_of};
ghost use Rattle.command_inputs.specs.KeyInputs.{TookAtMost};
ghost use Rattle.command_inputs.specs.PutFiles.{put_spec, most_file_bytes, HoldsFile, Held, GoesOn};

use mav_ports::{Got, Source};
use run_status::{InputError, Place, Reason, RunEnd, read_on};
use std::alloc::Global;

// How much is read at once.
const PIECE_BYTES: usize = 65_536;

const MOST_FILE_BYTES: usize = 1_048_576;

const REFUSED: RunEnd = RunEnd::Stopped(InputError::Bad(Place::Operation, Reason::Refused));

/// Reads an input to its end, and returns its bytes.
pub fn read_file<S: Source>(alloc: Global, input: &mut S) -> Result<Vec<u8>, RunEnd>
    ensures holds { IfOk result (λ bytes. HoldsFile (S.has_ended input.new × IsSpent (S.left input.new))
        (S.left input.old) (S.left input.new) bytes.items) }
    ensures halts { IfErr result (halted_over put_spec
        (input_of S.has_ended S.faults S.idles S.left input.old input.new)) }
    ensures within { IfErr result (λ _. TookAtMost 1_048_577 (S.left input.old) (S.left input.new)) }
{
    let mut buf = vec![in alloc; 0u8; PIECE_BYTES]?;
    let mut bytes = Vec::new(alloc);
    match read_all(input, &mut buf, &mut bytes) {
        Ok(()) => Ok(bytes),
        Err(run_end) => Err(run_end),
    }
}

// Reads on until the input ends, or has given a byte too many.
fn read_all<S: Source>(input: &mut S, buf: &mut [u8], bytes: &mut Vec<u8>) -> Result<(), RunEnd>
    requires room { 0 < length buf.old }
    requires first { length bytes.old.items ≡ 0 }
    ensures holds { OnOk result (HoldsFile (S.has_ended input.new × IsSpent (S.left input.new))
        (S.left input.old) (S.left input.new) bytes.new.items) }
    ensures halts { IfErr result (halted_over put_spec
        (input_of S.has_ended S.faults S.idles S.left input.old input.new)) }
    ensures within { IfErr result (λ _. TookAtMost 1_048_577 (S.left input.old) (S.left input.new)) }
{
    while bytes.len() <= MOST_FILE_BYTES {
        let room = buf.len().min(MOST_FILE_BYTES + 1 - bytes.len());
        match read_behind(input, &mut buf[..room], bytes) {
            Ok(true) => {}
            Ok(false) => return Ok(()),
            Err(run_end) => return Err(run_end),
        }
    }
    Err(REFUSED)
}

// One read, whose bytes are put after those of the reads before. Returns whether the input goes on.
fn read_behind<S: Source>(
    input: &mut S,
    part: &mut [u8],
    bytes: &mut Vec<u8>,
) -> Result<bool, RunEnd>
    requires { 0 < length part.old }
    ensures held { (first : Option (List ℕ)) (faults idles : ℕ)
        → Held first faults idles (S.left input.old) (S.faults input.old) (S.idles input.old) bytes.old.items
        → OnOk result (Held first faults idles (S.left input.new) (S.faults input.new)
        (S.idles input.new) bytes.new.items) }
    ensures goes_on { IfOk result (λ goes_on. GoesOn goes_on (S.has_ended input.new × IsSpent (S.left input.new))
        bytes.old.items bytes.new.items) }
    ensures fits { OnOk result (length bytes.new.items ≤ length bytes.old.items + length part.old) }
    ensures halts { (first : Option (List ℕ)) (faults idles refusals : ℕ) (sent : Option (List ℕ))
        → Held first faults idles (S.left input.old) (S.faults input.old) (S.idles input.old) bytes.old.items
        → length bytes.old.items ≤ most_file_bytes
        → IfErr result (λ run_end. RunBeforeStatus put_spec
        (port_outcome (S.has_ended input.new × IsSpent (S.left input.new)) faults (S.faults input.new)
        idles (S.idles input.new) refusals refusals) first (S.left input.new) sent sent (Some run_end)) }
    ensures within { (first : Option (List ℕ)) (faults idles : ℕ)
        → Held first faults idles (S.left input.old) (S.faults input.old) (S.idles input.old) bytes.old.items
        → length bytes.old.items + length part.old ≤ 1_048_577
        → IfErr result (λ _. TookAtMost 1_048_577 first (S.left input.new)) }
{
    match read_on(input, part) {
        Got::Bytes(count) => {
            bytes.extend_from_slice(&part[..count])?;
            Ok(true)
        }
        Got::Idle => Err(RunEnd::TurnsSpent),
        Got::End => Ok(false),
        Got::Failed => Err(RunEnd::ReadFault),
    }
}
