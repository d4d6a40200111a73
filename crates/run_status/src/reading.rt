// Reads that aren't idle.
ghost use Rattle.std.specs.Prelude.{◌≡◌, ◌<◌, ◌≤◌, ◌+◌, ◌-◌, ◌^◌, ◌≢◌, length};
ghost use Rattle.std.specs.Io.KnownBytes.{prepend_known};
ghost use Rattle.mav_ports.specs.Counts.{Rose};
ghost use Rattle.mav_ports.specs.Gets.{given, GivesWithin, IsSpent};

use mav_ports::{Got, Source};

const MOST_IDLES: u32 = 1_000_000;

/// One read that isn't Idle, or Idle after 1,000,000 such reads in a row.
pub fn read_on<S: Source>(source: &mut S, buf: &mut [u8]) -> Got
    requires { 0 < length buf.old }
    ensures within { GivesWithin result buf.new }
    ensures bytes { S.left source.old ≡ prepend_known (given result buf.new) (S.left source.new) }
    ensures failed { result ≡ Got.Failed → Rose (S.faults source.old) (S.faults source.new) }
    ensures sound { result ≢ Got.Failed → S.faults source.new ≡ S.faults source.old }
    ensures idles { S.idles source.old ≤ S.idles source.new }
    ensures idled { result ≡ Got.Idle → S.idles source.new < 2 ^ 64 - 1
        → S.idles source.old + 1000000 ≤ S.idles source.new }
    ensures ended { result ≡ Got.End → S.has_ended source.new × IsSpent (S.left source.new) }
{
    for _turn in 0..MOST_IDLES {
        match source.read(buf) {
            Got::Idle => (),
            other => return other,
        }
    }
    Got::Idle
}
