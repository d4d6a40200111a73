// The invariant of the lock, and what each step makes of its participant.
ghost use Rattle.turnstile.specs.Steps.{ticket_taken, polled, released, splits, joins, after, split_off, retired};

use crate::{Journaled, Opening, ParticipantState};
use atomic_table::{Join, Play, Split, TableRule};

pub struct TurnRule {}

impl<V: Journaled> TableRule<Option<V>, ParticipantState<V::Entry>, Opening<V>> for TurnRule {
    ghost use Rattle.std.specs.Prelude.{length, []};
    ghost use Rattle.turnstile.specs.Invariant.{TurnInvariant};
    ghost use Rattle.turnstile.specs.Steps.{opens, after, retired};

    ghost holds = { λ key. TurnInvariant V.journal (length (V.journal key.value.value)) key.handles };

    ghost first = { λ key. after (opens (V.journal key.value.value) key.handles) retired };
}

pub struct TakeTicket {}

impl<V: Journaled> Play<Option<V>, ParticipantState<V::Entry>> for TakeTicket {
    ghost then = { ticket_taken V.journal };
}

pub struct Poll {}

impl<V: Journaled> Play<Option<V>, ParticipantState<V::Entry>> for Poll {
    ghost then = { polled V.journal };
}

pub struct Release {}

impl<V: Journaled> Play<Option<V>, ParticipantState<V::Entry>> for Release {
    ghost then = { released V.journal };
}

pub struct SplitOff {}

impl<E> Split<ParticipantState<E>> for SplitOff {
    ghost left = { after splits };

    ghost right = { split_off };
}

pub struct Merge {}

impl<E> Join<ParticipantState<E>> for Merge {
    ghost both = { λ p other. after (joins other) p };

    ghost spent = { retired };
}
