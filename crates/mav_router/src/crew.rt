// The thread of a port as a job.
use crate::jobs::Job;
use crate::parts::Part;
use crate::running::run_part;
use crate::signals::Signals;
use crate::{RouterRules, Switch};
use mav_links::Link;
use std::sync::Wait;
use turnstile::Turn;

pub(crate) type BoxedLink = Box<dyn Link>;

/// What the threads of all ports share, and how many times each reads its port at most.
#[derive(Clone, Copy)]
pub(crate) struct Crew<'a, 't> {
    pub(crate) turn: &'t Turn<Switch<'a>>,
    pub(crate) rules: &'t RouterRules<'a>,
    pub(crate) signals: &'t Signals,
    pub(crate) turns: u64,
}

/// A part with what its thread shares with the others.
#[derive(Drop)]
pub(crate) struct PortJob<'a, 't, L> {
    pub(crate) crew: Crew<'a, 't>,
    pub(crate) part: Part<'a, L>,
}

impl<'a, 't> Job for PortJob<'a, 't, BoxedLink> {
    ghost use Rattle.mav_router.specs.Runs.{HadTurns};
    ghost use Rattle.mav_router.specs.Parts.{IsReady};
    ghost use Rattle.mav_router.specs.Crews.{HasRun};

    ghost ready = { λ job. IsReady job.crew.turn.now job.crew.rules.now job.part × HadTurns job.part.side.lane 0 };

    ghost ran = { λ old new. HasRun new.part.side.halt
        (λ b. (Link-box b).state b.value) old.crew.turn.now old.crew.rules.now old.crew.turns old.part new.part };

    fn run<R: Wait>(&mut self, rt: &R) {
        run_part(rt, &self.crew, &mut self.part);
    }
}
