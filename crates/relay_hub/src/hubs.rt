// What the ports of a relay promise.
ghost use Rattle.std.specs.Prelude.{◌≡◌, ◌<◌, ◌≤◌, length, take, IfSome};
ghost use Rattle.std.specs.Option.{option_map};
ghost use Rattle.relay_hub.specs.Hubs.{adopts, asks, gives, happens, takes};
ghost use Rattle.relay_hub.specs.Seats.{IsNews, adopted_at, asked_at, may_adopt, told_at};

use crate::{HubNews, Stranger};
use std::time::Duration;

/// The ports of a relay, at most eight, numbered from 1, with the links that are open there, at most 32. An open link
/// is called by its index, from 0, in the order of their opening.
pub trait Hub: Drop {
    ghost use Rattle.std.specs.Prelude.{Option};
    ghost use Rattle.relay_hub.specs.Hubs.{HubState};
    ghost use Rattle.relay_hub.specs.Seats.{Seats, seats_of};

    /// The ports of the open links, and where a stranger's datagram is.
    ghost seats: { Self → Seats };

    /// All links that were ever opened, with their bytes, if it tells them; a hub over the system tells none.
    ghost state: { Self → Option HubState };

    /// Waits until something happens, or bytes of a link or of a stranger are there, at most so long.
    fn wait(&mut self, most: Duration)
        ensures seats { seats self.new ≡ seats self.old }
        ensures state { state self.new ≡ state self.old };

    /// What happened, one at a time; none once nothing more did.
    fn next(&mut self) -> Option<HubNews>
        ensures news { IfSome result (λ news. IsNews news (seats self.old).ports) }
        ensures seats { seats self.new ≡ told_at result (seats self.old) }
        ensures state { state self.new ≡ option_map (happens result) (state self.old) };

    /// Reads what is there of an open link into the start of the buffer, and how many bytes that are; none if none are
    /// there. Its end, or a fault, comes as news.
    fn read(&mut self, index: usize, buf: &mut [u8]) -> usize
        requires { index < length (seats self.old).ports }
        ensures within { result ≤ length buf.new }
        ensures seats { seats self.new ≡ seats self.old }
        ensures state { state self.new ≡ option_map (gives index (take result buf.new)) (state self.old) };

    /// How many of these bytes an open link takes from the start; none if it would wait. A fault comes as news.
    fn write(&mut self, index: usize, bytes: &[u8]) -> usize
        requires { index < length (seats self.old).ports }
        ensures within { result ≤ length bytes.now }
        ensures seats { seats self.new ≡ seats self.old }
        ensures state { state self.new ≡ option_map (takes index (take result bytes.now)) (state self.old) };

    /// Reads the next datagram of somebody who has no link, as much of it as the buffer has room for. It is forgotten
    /// at the next call of this, unless it is adopted before.
    fn stranger(&mut self, buf: &mut [u8]) -> Option<Stranger>
        ensures port { IfSome result (λ s. (1 ≤ s.port) × (s.port ≤ 8)) }
        ensures within { IfSome result (λ s. s.count ≤ length buf.new) }
        ensures seats { seats self.new ≡ asked_at result (seats self.old) }
        ensures state { state self.new ≡ option_map (asks result buf.new) (state self.old) };

    /// The sender of the last datagram becomes a link, the last one, and has given the datagram's bytes from this
    /// offset on. Returns false where there is none, or it were one too many, which comes as news; then it is
    /// forgotten.
    fn adopt(&mut self, from: usize) -> bool
        ensures answer { result ≡ may_adopt (seats self.old) }
        ensures seats { seats self.new ≡ adopted_at result (seats self.old) }
        ensures state { state self.new ≡ option_map (adopts result from) (state self.old) };

    /// Where it tells its bytes, the ports of the open links are those of the tapes.
    ghost agrees: { (hub : Self) → IfSome (state hub) (λ s. seats hub ≡ seats_of s) };
}
