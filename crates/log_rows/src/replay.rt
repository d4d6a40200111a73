// A link that plays a log.
ghost use Rattle.std.specs.Prelude.{◌≡◌, ◌+◌, ◌<◌, ◌≤◌, false, true, [], length, option_map};
ghost use Rattle.std.specs.Io.KnownBytes.{prepend_known};
ghost use Rattle.mav_ports.specs.Counts.{next_count};
ghost use Rattle.mav_ports.specs.Gets.{given, CountsFault, EndsOnly, GivesWithin, IsSpent, idles_after};
ghost use Rattle.log_rows.specs.Frames.{frames_left, log_frames, is_over, nothing_read};
ghost use Rattle.log_rows.specs.Replays.{known_frames, is_end, replay_state, Asked, IsNoneLeft};

use crate::replay_rows::Rows;
use mav_links::Link;
use mav_ports::{Got, Put};
use x25_check::Extras;

// How often one read asks the link in it, at most.
const MOST_READS: usize = 4_096;

// A count after one more.
fn one_more(count: u64) -> u64
    ensures { result ≡ next_count count }
{
    count.saturating_add(1)
}

// Whether a read has told the end.
fn is_end(got: Got) -> bool
    ensures { result ≡ is_end got }
{
    match got {
        Got::End => true,
        _ => false,
    }
}

/// A link that reads a telemetry log from the link in it, and gives the frames of its rows; what is written to it goes
/// on to that link. It idles if 4,096 reads of that link gave no row.
#[derive(Drop)]
pub struct Replay<L: Link> {
    link: L,
    rows: Rows,
    idles: u64,
    over: bool,
    ghost spent: { rows.ended ≡ true → IsNoneLeft (L.Link.state link).left },
    ghost closed: { rows.ended ≡ true → (L.Link.state link).ended ≡ true },
    ghost told: { over ≡ true → is_over rows ≡ true },
}

impl<L: Link> Replay<L> {
    /// Plays the log that the link reads, with rows whose messages have these CRC_EXTRA bytes.
    pub fn new(link: L, extras: Extras) -> Replay<L>
        ensures state { ⟦<Replay<L> as Link>⟧.state result
            ≡ replay_state (nothing_read extras) (L.state link) 0 false }
        // What it has left are the frames of the rows of the log.
        ensures left { (⟦<Replay<L> as Link>⟧.state result).left ≡ option_map (log_frames extras) (L.state link).left }
    {
        Replay {
            link,
            rows: Rows::new(extras),
            idles: 0,
            over: false,
        }
    }
}

impl<L: Link> Link for Replay<L> {
    ghost state = { λ r. replay_state r.rows (L.Link.state r.link) r.idles r.over };

    fn read(&mut self, buf: &mut [u8]) -> Got
        requires { 0 < length buf.old }
        // What every link promises.
        ensures within { GivesWithin result buf.new }
        ensures bytes { known_frames self.old.rows (L.state self.old.link).left
            ≡ prepend_known (given result buf.new) (known_frames self.new.rows (L.state self.new.link).left) }
        ensures faults { CountsFault result (L.state self.old.link).faults (L.state self.new.link).faults }
        ensures idles { self.new.idles ≡ idles_after result self.old.idles }
        ensures end { result ≡ Got.End → IsSpent (known_frames self.new.rows (L.state self.new.link).left) }
        ensures ended { result ≡ Got.End → self.new.over ≡ true }
        ensures only_end { EndsOnly result (self.old.over ≡ true) (self.new.over ≡ true) }
        ensures stays { self.old.over ≡ true → result ≡ Got.End }
        ensures sent { (L.state self.new.link).sent ≡ (L.state self.old.link).sent }

        // It asks the link in it at most 4,096 times, and idles only if all these reads gave no row.
        ensures most { (L.state self.new.link).idles ≤ (L.state self.old.link).idles + 4096 }
        ensures idle { result ≡ Got.Idle → Asked 4096 (L.state self.old.link) (L.state self.new.link) }
        // It ends exactly where that link has ended and no row is left.
        ensures asked { result ≡ Got.End → (L.state self.new.link).ended ≡ true }
        ensures over { (L.state self.old.link).ended ≡ true → frames_left self.old.rows [] ≡ [] → result ≡ Got.End }
    {
        match self.rows.at_hand(buf) {
            Got::Idle => {}
            got => {
                self.over = is_end(got);
                return got;
            }
        }
        for _read in 0..MOST_READS {
            let mut piece = [0; 4096];
            let read = self.link.read(&mut piece);
            match self.rows.take(read, &piece, buf) {
                Got::Idle => {}
                got => {
                    self.over = is_end(got);
                    return got;
                }
            }
        }
        self.idles = one_more(self.idles);
        Got::Idle
    }

    fn write(&mut self, bytes: &[u8]) -> Put {
        self.link.write(bytes)
    }

    fn sent(&self) -> &[u8] {
        self.link.sent()
    }
}
