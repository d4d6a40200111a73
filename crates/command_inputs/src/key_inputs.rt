// A key as an input gives it.
ghost use Rattle.std.specs.Prelude.{◌≡◌, ◌≤◌, ℕ, List, take, IfOk, IfErr, IsErrOf};
ghost use Rattle.std.specs.declared.option.Option.{Option};
ghost use Rattle.std.specs.Io.KnownBytes.{prepend_known};
ghost use Rattle.mav_ports.specs.Gets.{IsSpent};
ghost use Rattle.run_status.specs.Seen.{halted_over, input_of};
ghost use Rattle.command_inputs.specs.KeyInputs.{spec_by, key_spec, given_key_spec, most_key_bytes, HoldsKey};
ghost use Rattle.command_inputs.specs.KeyInputs.{HoldsGivenKey, TookAtMost};

use crate::key_texts::{key_of, key_or_default};
use mav_ports::{Got, Source};
use mav_sign::Key;
use run_status::{InputError, Place, Reason, RunEnd, read_on};

// One byte more than the longest key with its line end.
const PIECE_BYTES: usize = 67;

const BAD_KEY: RunEnd = RunEnd::Stopped(InputError::Bad(Place::Key, Reason::Key));

/// Reads an input to its end, and its bytes as a key.
pub fn read_key<S: Source>(input: &mut S) -> Result<Key, RunEnd>
    ensures holds { IfOk result (HoldsKey (S.has_ended input.new × IsSpent (S.left input.new))
        (S.left input.old) (S.left input.new)) }
    ensures halts { IfErr result (halted_over key_spec
        (input_of S.has_ended S.faults S.idles S.left input.old input.new)) }
    ensures within { TookAtMost 67 (S.left input.old) (S.left input.new) }
    ensures memory { ¬ IsErrOf result RunEnd.NoMemory }
{
    let mut buf = [0; PIECE_BYTES];
    let count = read_all(input, &mut buf)?;
    match key_or_default(&buf[..count]) {
        Some(key) => Ok(key),
        None => Err(BAD_KEY),
    }
}

/// The same of a key that must be there: an input without a byte is no key either.
pub fn read_given_key<S: Source>(input: &mut S) -> Result<Key, RunEnd>
    ensures holds { IfOk result (HoldsGivenKey (S.has_ended input.new × IsSpent (S.left input.new))
        (S.left input.old) (S.left input.new)) }
    ensures halts { IfErr result (halted_over given_key_spec
        (input_of S.has_ended S.faults S.idles S.left input.old input.new)) }
    ensures within { TookAtMost 67 (S.left input.old) (S.left input.new) }
    ensures memory { ¬ IsErrOf result RunEnd.NoMemory }
{
    let mut buf = [0; PIECE_BYTES];
    let count = read_all(input, &mut buf)?;
    match key_of(&buf[..count]) {
        Some(given) => Ok(given),
        None => Err(BAD_KEY),
    }
}

// Puts all bytes of an input at the start of a buffer, unless they fill it.
fn read_all<S: Source>(input: &mut S, buf: &mut [u8; PIECE_BYTES]) -> Result<usize, RunEnd>
    ensures count { IfOk result (λ count. count ≤ most_key_bytes) }
    ensures taken { IfOk result (λ count.
        S.left input.old ≡ prepend_known (take count buf.new) (S.left input.new)) }
    ensures at_end { IfOk result (λ _. S.has_ended input.new × IsSpent (S.left input.new)) }
    ensures halts { IfErr result (λ run_end. (read : List ℕ → Option (List ℕ)) → halted_over (spec_by read)
        (input_of S.has_ended S.faults S.idles S.left input.old input.new) run_end) }
    ensures within { TookAtMost 67 (S.left input.old) (S.left input.new) }
    ensures memory { ¬ IsErrOf result RunEnd.NoMemory }
{
    let mut count = 0;
    while count < PIECE_BYTES {
        match read_on(input, &mut buf[count..]) {
            Got::Bytes(more) => count += more,
            Got::Idle => return Err(RunEnd::TurnsSpent),
            Got::End => return Ok(count),
            Got::Failed => return Err(RunEnd::ReadFault),
        }
    }
    Err(BAD_KEY)
}
