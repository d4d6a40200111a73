// The lock, and what its participants do with it.
ghost use Rattle.std.specs.Prelude.{◌≡◌, ◌+◌, ◌<◌, length, IfOk, vec_len, All, sum_by, true, replicate};
ghost use mathlib.Core.List.{IsPrefix};
ghost use Rattle.turnstile.specs.Participants.{opened, entered, left, CanEnter, HasItsOwn};
ghost use Rattle.turnstile.specs.Merging.{Continues};

use crate::lock::TicketLock;
use crate::{Held, Journaled, NoMemory, TurnSeat};
use std::alloc::Global;
use std::marker::Model;
use std::sync::Wait;

/// The value and the lock round it. Threads share it by `&`, each with a handle of its own.
#[derive(Drop)]
pub struct Turn<V: Journaled> {
    lock: TicketLock<V>,
}

impl<V: Journaled> Model for Turn<V> {
    ghost use Rattle.std.specs.Prelude.{◌<◌};
    ghost use Rattle.turnstile.specs.Participants.{Lock, lock_code};

    ghost Value = { Lock V.Entry };

    ghost coded = { lock_code V.Entry.code };

    ghost view = { λ t. record {
      id = t.lock.table.shared.table_id;
      opening = V.journal t.lock.table.shared.key.value.value;
      handles = t.lock.table.shared.key.handles;
    } };

    ghost invariant = { λ t. 0 < t.lock.table.shared.key.handles };
}

impl<V: Journaled + Drop> Turn<V> {
    /// The lock round this value, and so many handles.
    pub fn new(alloc: Global, value: V, seats: u8) -> Result<(Turn<V>, Vec<TurnSeat<V>>), NoMemory>
        requires { 0 < seats }
        ensures turn { IfOk result (λ r. (r.0.opening ≡ V.journal value) × (r.0.handles ≡ seats)) }
        ensures seats { IfOk result (λ r. r.1.items ≡ replicate seats (opened r.0.id (V.journal value))) }
        ensures ready { IfOk result (λ r. All (CanEnter r.0) r.1.items) }
    {
        let (lock, mut first) = TicketLock::open(alloc, value, u64::from(seats))?;
        let mut all = Vec::new(alloc);
        for _ in 1..seats {
            let seat = lock.split(&mut first);
            all.push(TurnSeat { seat })?;
        }
        all.push(TurnSeat { seat: first })?;
        Ok((Turn { lock }, all))
    }

    /// Waits for this participant's turn, and gives the value. It polls a thousand times without a pause, and from
    /// then on sleeps between two polls until a turn is passed on.
    pub fn enter<R: Wait>(&self, rt: &R, seat: &mut TurnSeat<V>) -> Held<V>
        requires { CanEnter self.now seat.old }
        ensures begins { IsPrefix seat.old.seen (V.journal result.value) }
        ensures entered { seat.new ≡ entered seat.old (V.journal result.value) }
        ensures own { HasItsOwn seat.new }
    {
        Held {
            value: self.lock.enter(rt, &mut seat.seat),
        }
    }

    /// Takes the value back, and passes the turn on. Its entries are those that `enter` gave it with, and then what
    /// this participant added.
    pub fn leave(&self, seat: &mut TurnSeat<V>, held: Held<V>)
        requires of { seat.old.lock ≡ self.now.id }
        requires inside { seat.old.has_turn ≡ true }
        requires appended { IsPrefix seat.old.seen (V.journal held.value) }
        ensures left { seat.new ≡ left seat.old (V.journal held.value) }
        ensures own { HasItsOwn seat.new }
    {
        let Held { value } = held;
        self.lock.leave(&mut seat.seat, value);
    }

    /// The value with the whole history, once all handles are back.
    pub fn close(self, seats: Vec<TurnSeat<V>>) -> V
        requires all { vec_len seats ≡ self.handles }
        requires outside { All (CanEnter self) seats.items }
        ensures begins { All (Continues (V.journal result)) seats.items }
        ensures whole { length (V.journal result) ≡ length self.opening + sum_by (λ p. length p.own) seats.items }
    {
        let Turn { lock } = self;
        let mut left = seats;
        let Some(first) = left.pop() else {
            unreachable!()
        };
        let TurnSeat { seat: mut merged } = first;
        while let Some(other) = left.pop() {
            let TurnSeat { seat } = other;
            lock.merge(&mut merged, seat);
        }
        lock.finish(merged)
    }
}
