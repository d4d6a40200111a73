// The command `fleet`: one scenario.
ghost use Rattle.std.specs.Prelude.{◌≡◌, ◌<◌, ℕ, Bool, List, [], length, IsErrOf};
ghost use Rattle.std.specs.Result.{result_err};
ghost use Rattle.run_status.specs.Seen.{before_status_over, input_of, output_of};
ghost use Rattle.fleet_command.specs.Plays.{Reading};
ghost use Rattle.fleet_command.specs.Spec.{fleet_spec};

use crate::player::Player;
use mav_ports::{Got, Sink, Source};
use mav_sign::Key;
use run_status::{RunEnd, read_on};
use std::alloc::Global;

// How much is read at once.
const PIECE_BYTES: usize = 65_536;

/// Plays the scenario of the input, under a key that all nodes have; `frames` says whether the
/// report prints frames whole. The report of each line is written before more is read. Writes no status line.
pub fn fleet<S: Source, K: Sink>(
    alloc: Global,
    key: Key,
    frames: bool,
    main: &mut S,
    out: &mut K,
) -> Result<(), RunEnd>
    ensures before_status { before_status_over (output_of K.faults K.sent out.old out.new) (result_err result)
        (fleet_spec key frames) (input_of S.has_ended S.faults S.idles S.left main.old main.new) }
    ensures sound { ¬ IsErrOf result RunEnd.WriteFault → K.faults out.new ≡ K.faults out.old }
{
    let mut player = Player::new(alloc, key, frames)?;
    let mut buf = vec![in alloc; 0u8; PIECE_BYTES]?;
    play(&mut player, main, &mut buf, out)
}

// Reads on until the player halts or the input gives no more.
fn play<S: Source, K: Sink>(
    player: &mut Player,
    main: &mut S,
    buf: &mut [u8],
    out: &mut K,
) -> Result<(), RunEnd>
    requires { 0 < length buf.old }
    ensures before_status { (key : List ℕ) (frames : Bool)
        → Reading key frames [] player.old.world player.old.number player.old.line.items
        (K.sent out.old) (K.sent out.old)
        → before_status_over (output_of K.faults K.sent out.old out.new) (result_err result)
        (fleet_spec key frames) (input_of S.has_ended S.faults S.idles S.left main.old main.new) }
    ensures sound { ¬ IsErrOf result RunEnd.WriteFault → K.faults out.new ≡ K.faults out.old }
{
    loop {
        match read_on(main, buf) {
            Got::Bytes(count) => player.feed(&buf[..count], out)?,
            Got::Idle => return Err(RunEnd::TurnsSpent),
            Got::End => return player.finish(out),
            Got::Failed => return Err(RunEnd::ReadFault),
        }
    }
}
