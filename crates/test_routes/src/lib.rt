//! Worked examples of a router's journal, by computation from the definitions alone, signatures included, and tests of
//! routers, and of two threads at one lock. Nothing depends on it.
#![tactic(auto)]

#[cfg(test)]
mod failing;
#[cfg(test)]
mod gated;
#[cfg(test)]
mod threaded;
#[cfg(test)]
mod turns;

ghost use Rattle.test_routes.specs.Worked.{Worked};

/// The journals of `specs/Worked.antt`.
pub fn worked_journals()
    ensures { Worked }
{}
