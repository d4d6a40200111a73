// The calls of a hub over memory.
ghost use Rattle.std.specs.Prelude.{◌≡◌, ◌++◌, ◌<◌, ◌≤◌, drop, length, take, IfSome, Some};
ghost use Rattle.relay_hub.specs.Hubs.{adopts, asks, gives, happens, takes};
ghost use Rattle.relay_hub.specs.MemHubs.{after_next, after_read, after_stranger, after_write};
ghost use Rattle.relay_hub.specs.MemHubs.{next_news, next_stranger, read_count, write_count};
ghost use Rattle.relay_hub.specs.Seats.{IsNews, adopted_at, asked_at, may_adopt, ports_of, seats_of, told_at};

use crate::{Hub, HubNews, MemHub, Stranger};
use std::time::Duration;

impl Hub for MemHub {
    ghost use Rattle.relay_hub.specs.Seats.{seats_of};

    ghost seats = { λ h. seats_of h.hub };

    ghost state = { λ h. Some h.hub };

    fn wait(&mut self, _most: Duration)
        ensures unchanged { self.new ≡ self.old }
    {}

    fn next(&mut self) -> Option<HubNews>
        // What every hub promises.
        ensures news { IfSome result (λ news. IsNews news (ports_of self.old.hub)) }
        ensures seats { seats_of self.new.hub ≡ told_at result (seats_of self.old.hub) }
        ensures state { self.new.hub ≡ happens result self.old.hub }

        // The whole result, and the state afterwards.
        ensures answer { result ≡ next_news self.old }
        ensures after { self.new ≡ after_next self.old }
    {
        let happening = self.front()?;
        let news = self.news(happening);
        match news {
            Some(news) => self.tell(news),
            None if self.is_over(happening) => self.pass_over(),
            None => {}
        }
        news
    }

    fn read(&mut self, index: usize, buf: &mut [u8]) -> usize
        requires { index < length (ports_of self.old.hub) }
        // What every hub promises.
        ensures within { result ≤ length buf.new }
        ensures seats { seats_of self.new.hub ≡ seats_of self.old.hub }
        ensures state { self.new.hub ≡ gives index (take result buf.new) self.old.hub }

        // The whole result, and the state afterwards.
        ensures answer { result ≡ read_count index (length buf.old) self.old }
        ensures after { self.new ≡ after_read index result self.old }
        ensures buffer { buf.new ≡ take result (drop self.old.at self.old.bytes) ++ drop result buf.old }
    {
        self.give_next(index, buf)
    }

    fn write(&mut self, index: usize, bytes: &[u8]) -> usize
        requires { index < length (ports_of self.old.hub) }
        // What every hub promises.
        ensures within { result ≤ length bytes.now }
        ensures seats { seats_of self.new.hub ≡ seats_of self.old.hub }
        ensures state { self.new.hub ≡ takes index (take result bytes.now) self.old.hub }

        // The whole result, and the state afterwards.
        ensures answer { result ≡ write_count index (length bytes.now) self.old }
        ensures after { self.new ≡ after_write index (take result bytes.now) self.old }
    {
        self.take_next(index, bytes)
    }

    fn stranger(&mut self, buf: &mut [u8]) -> Option<Stranger>
        // What every hub promises.
        ensures port { IfSome result (λ s. (1 ≤ s.port) × (s.port ≤ 8)) }
        ensures within { IfSome result (λ s. s.count ≤ length buf.new) }
        ensures seats { seats_of self.new.hub ≡ asked_at result (seats_of self.old.hub) }
        ensures state { self.new.hub ≡ asks result buf.new self.old.hub }

        // The whole result, and the state afterwards.
        ensures answer { result ≡ next_stranger (length buf.old) self.old }
        ensures after { self.new ≡ after_stranger result self.old }
    {
        self.hear_next(buf)
    }

    fn adopt(&mut self, from: usize) -> bool
        // What every hub promises.
        ensures answer { result ≡ may_adopt (seats_of self.old.hub) }
        ensures seats { seats_of self.new.hub ≡ adopted_at result (seats_of self.old.hub) }
        ensures state { self.new.hub ≡ adopts result from self.old.hub }

        // Nothing else changes.
        ensures after { self.new ≡ record self.old { hub = adopts result from self.old.hub } }
    {
        self.take_in(from)
    }

    ghost agrees = { λ hub i. seats_of hub.hub };
}
