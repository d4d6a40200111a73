// The handle of one participant.
use crate::{Journaled, ParticipantState};
use atomic_table::Seat;
use std::marker::Model;

/// The handle by which one thread at a time takes part in a `Turn`.
#[derive(Drop)]
pub struct TurnSeat<V: Journaled> {
    pub(crate) seat: Seat<Option<V>, ParticipantState<V::Entry>>,
}

impl<V: Journaled> Model for TurnSeat<V> {
    ghost use Rattle.turnstile.specs.Participants.{Participant, participant_code, participant_of};
    ghost use Rattle.turnstile.specs.Moments.{IsHandle};

    ghost Value = { Participant V.Entry };

    ghost coded = { participant_code V.Entry.code };

    ghost view = { λ s. participant_of s.seat.table_id s.seat.me.0 };

    ghost invariant = { λ s. IsHandle s.seat.me };
}
