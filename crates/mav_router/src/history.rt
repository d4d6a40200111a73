// The history of a switch, which threads share.

use crate::{Entry, RouterRules, Switch};
use turnstile::Journaled;

/// What happened to a switch: it was made with these rules, or kept this entry. No value of it is made.
pub enum SwitchEvent<'a> {
    Opened(RouterRules<'a>),
    Admitted(Entry),
}

impl<'a> Journaled for Switch<'a> {
    ghost use Rattle.mav_router.specs.History.{history_of};

    type Entry = SwitchEvent<'a>;

    ghost journal = { λ s. history_of s.rules s.journal };

    fn entries(&self) -> u64 {
        self.count() + 1
    }
}
