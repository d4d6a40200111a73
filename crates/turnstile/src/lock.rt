// The ticket lock over its table, step by step.
ghost use Rattle.std.specs.Prelude.{◌≡◌, ◌+◌, ◌<◌, ◌≤◌, [], length, drop, IfOk, IfSome, IfNone, All};
ghost use mathlib.Core.List.{IsPrefix};
ghost use Rattle.turnstile.specs.Steps.{after, opens, splits, split_off, joins, releases, retired};
ghost use Rattle.turnstile.specs.Moments.{IsOutside, IsWaiting, IsInside, HasEntered, KeepsOwn, OwnEntriesStand};

use crate::steps::{Merge, Poll, Release, SplitOff, TakeTicket, TurnRule};
use crate::{Journaled, NoMemory, Opening, ParticipantState};
use atomic_table::{Seat, Table};
use std::alloc::{AllocError, Global};
use std::hint;
use std::snapshot::Snapshot;
use std::sync::Wait;

// The tickets taken, and the turns released.
const TICKETS: usize = 0;

const TURNS: usize = 1;

// A participant polls so often without a pause, and from then on sleeps between two polls until a turn is passed on.
const POLLS_WITHOUT_SLEEP: u32 = 1000;

#[derive(Drop)]
pub(crate) struct TicketLock<V: Journaled> {
    pub(crate) table: Table<Option<V>, ParticipantState<V::Entry>, Opening<V>, TurnRule, Global>,
    ghost shape: { (table.shared.table_id.words ≡ 2) × (table.shared.table_id.slots ≡ 1) },
}

impl<V: Journaled + Drop> TicketLock<V> {
    // The first participant represents all handles.
    pub(crate) fn open(
        alloc: Global,
        value: V,
        handles: u64,
    ) -> Result<(TicketLock<V>, Seat<Option<V>, ParticipantState<V::Entry>>), NoMemory>
        requires { (0 < handles) × (handles ≤ 255) }
        ensures of { IfOk result (λ r. r.1.table_id ≡ r.0.table.shared.table_id) }
        ensures first { IfOk result (λ r. r.1.me ≡ (after (opens (V.journal value) handles) retired, [])) }
        ensures key { IfOk result (λ r. (r.0.table.shared.key.value.value ≡ value)
            × (r.0.table.shared.key.handles ≡ handles)) }
    {
        let about = Opening {
            value: Snapshot::of(&value),
            handles,
        };
        let mut slots = Vec::new(alloc);
        slots.push(Some(value))?;
        match Table::new(alloc, &[0, 0], slots, &about) {
            Ok((table, first)) => Ok((TicketLock { table }, first)),
            Err(_) => Err(AllocError),
        }
    }

    pub(crate) fn split(
        &self,
        seat: &mut Seat<Option<V>, ParticipantState<V::Entry>>,
    ) -> Seat<Option<V>, ParticipantState<V::Entry>>
        requires of { seat.old.table_id ≡ self.now.table.shared.table_id }
        requires outside { IsOutside seat.old.me }
        requires more { 1 < seat.old.me.0.represents }
        ensures of { (seat.new.table_id ≡ seat.old.table_id) × (result.table_id ≡ seat.old.table_id) }
        ensures left { seat.new.me ≡ (after splits seat.old.me.0, seat.old.me.1) }
        ensures right { result.me ≡ (split_off seat.old.me.0, []) }
    {
        self.table.shared.split_seat::<SplitOff>(seat)
    }

    // The number of its ticket.
    fn take_ticket(&self, seat: &mut Seat<Option<V>, ParticipantState<V::Entry>>) -> u64
        requires of { seat.old.table_id ≡ self.now.table.shared.table_id }
        requires outside { IsOutside seat.old.me }
        requires live { 0 < seat.old.me.0.represents }
        ensures of { seat.new.table_id ≡ seat.old.table_id }
        ensures waiting { IsWaiting result seat.new.me }
        ensures seen { seat.new.me.0.seen ≡ seat.old.me.0.seen }
        ensures own { KeepsOwn seat.old.me.0 seat.new.me.0 }
    {
        self.table.shared.fetch_add::<TakeTicket>(seat, TICKETS, 1)
    }

    // The value, if the turn is that of the ticket.
    fn poll(&self, seat: &mut Seat<Option<V>, ParticipantState<V::Entry>>, ticket: u64) -> Option<V>
        requires of { seat.old.table_id ≡ self.now.table.shared.table_id }
        requires waiting { IsWaiting ticket seat.old.me }
        ensures of { seat.new.table_id ≡ seat.old.table_id }
        ensures some { IfSome result (λ value. HasEntered (V.journal value) seat.old.me seat.new.me) }
        ensures none { IfNone result (seat.new.me ≡ seat.old.me) }
    {
        let shared = &self.table.shared;
        if shared.load::<Poll>(seat, TURNS) != ticket {
            return None;
        }
        match shared.exchange(seat, 0, None) {
            Some(value) => Some(value),
            None => unreachable!(),
        }
    }

    // Lets time pass after a poll that found another's turn, and counts the polls.
    fn pause<R: Wait>(&self, rt: &R, ticket: u64, polls: u32) -> u32 {
        if polls < POLLS_WITHOUT_SLEEP {
            hint::spin_loop();
            return polls + 1;
        }
        let turns = self.table.shared.peek(TURNS);
        if turns != ticket {
            self.table
                .shared
                .park(rt, TURNS, (turns % (1 << 32)) as u32);
        }
        polls
    }

    // Wakes those that sleep, if there is a ticket for the turn after these.
    fn wake_waiting(&self, turns: u64) {
        if self.table.shared.peek(TICKETS) != turns.wrapping_add(1) {
            self.table.shared.wake_all(TURNS);
        }
    }

    // Waits for the turn, and checks the value out.
    pub(crate) fn enter<R: Wait>(
        &self,
        rt: &R,
        seat: &mut Seat<Option<V>, ParticipantState<V::Entry>>,
    ) -> V
        requires of { seat.old.table_id ≡ self.now.table.shared.table_id }
        requires outside { IsOutside seat.old.me }
        requires live { 0 < seat.old.me.0.represents }
        ensures of { seat.new.table_id ≡ seat.old.table_id }
        ensures inside { HasEntered (V.journal result) seat.old.me seat.new.me }
        ensures stand { OwnEntriesStand seat.old.me.0 → OwnEntriesStand seat.new.me.0 }
    {
        let ticket = self.take_ticket(seat);
        let mut polls = 0;
        for _ in rt.forever() {
            if let Some(value) = self.poll(seat, ticket) {
                return value;
            }
            polls = self.pause(rt, ticket, polls);
        }
        unreachable!()
    }

    // Checks the value in, and passes the turn on.
    pub(crate) fn leave(&self, seat: &mut Seat<Option<V>, ParticipantState<V::Entry>>, value: V)
        requires of { seat.old.table_id ≡ self.now.table.shared.table_id }
        requires inside { IsInside seat.old.me }
        requires appended { IsPrefix seat.old.me.0.seen (V.journal value) }
        ensures of { seat.new.table_id ≡ seat.old.table_id }
        ensures state { seat.new.me ≡ (
          after (releases (drop (length seat.old.me.0.seen) (V.journal value)))
              seat.old.me.0,
          [],
        ) }
        ensures stand { OwnEntriesStand seat.old.me.0 → OwnEntriesStand seat.new.me.0 }
    {
        let shared = &self.table.shared;
        match shared.exchange(seat, 0, Some(value)) {
            Some(_) => unreachable!(),
            None => {}
        }
        let turns = shared.fetch_add::<Release>(seat, TURNS, 1);
        self.wake_waiting(turns);
    }

    pub(crate) fn merge(
        &self,
        seat: &mut Seat<Option<V>, ParticipantState<V::Entry>>,
        other: Seat<Option<V>, ParticipantState<V::Entry>>,
    )
        requires of { (seat.old.table_id ≡ self.now.table.shared.table_id)
            × (other.table_id ≡ self.now.table.shared.table_id) }
        requires outside { IsOutside seat.old.me × IsOutside other.me }
        ensures of { seat.new.table_id ≡ seat.old.table_id }
        ensures both { seat.new.me ≡ (after (joins other.me.0) seat.old.me.0, []) }
    {
        self.table.shared.join_seat::<Merge>(seat, other);
    }

    // The value, once one participant represents all handles.
    pub(crate) fn finish(self, seat: Seat<Option<V>, ParticipantState<V::Entry>>) -> V
        requires of { seat.table_id ≡ self.table.shared.table_id }
        requires outside { IsOutside seat.me }
        requires all { seat.me.0.represents ≡ self.table.shared.key.handles }
        ensures begins { IsPrefix seat.me.0.seen (V.journal result) }
        ensures merged { All (λ xs. IsPrefix xs (V.journal result)) seat.me.0.merged }
        ensures added { length (V.journal result) ≡ length (V.journal self.table.shared.key.value.value)
            + length seat.me.0.own }
    {
        let TicketLock { table } = self;
        let mut closed = table.close_with(seat);
        let found = closed.take(0);
        closed.free();
        match found {
            Some(value) => value,
            None => unreachable!(),
        }
    }
}
