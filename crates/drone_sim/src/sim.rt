// A simulated drone.
ghost use Rattle.std.specs.Prelude.{◌≡◌, slice_get};
ghost use Rattle.plan_items.specs.Plans.{items_of};
ghost use Rattle.drone_sim.specs.Sim.{new_sim, armed as is_armed, acts, changes, news_of, stays, flies_to};
ghost use Rattle.drone_sim.specs.Sim.{captures_at, does_item, target_of as item_target, flies, returns, sim_tick};

use crate::moves::{is_at, moved};
use crate::targets::{beyond, target_of};
use crate::{Course, Point};
use plan_items::{Action, Item, MavCommand, Plan};
use std::marker::Model;

/// A drone that is simulated. Contracts see its home, its position, its course, and how many pictures it took.
#[derive(Drop)]
pub struct Sim {
    home: Point,
    position: Point,
    course: Course,
    captures: u32,
}

impl Model for Sim {
    ghost use Rattle.drone_sim.specs.Sim.{SimState};

    ghost Value = { SimState };

    ghost view = { λ s. record { home = s.home; position = s.position; course = s.course; captures = s.captures } };
}

/// What a tick brings: where the drone is after it, in units of 1e-7 degrees, the number of the item that was reached,
/// and whether a picture was taken.
#[derive(Clone, Copy)]
pub struct SimNews {
    pub x: i32,
    pub y: i32,
    pub reached: Option<u16>,
    pub captured: bool,
}

impl Sim {
    /// A drone that rests at its home, disarmed, at latitude `x` and longitude `y` in units of 1e-7 degrees.
    pub fn new(x: i32, y: i32) -> Sim
        ensures { result ≡ new_sim (record { x = x; y = y }) }
    {
        let home = Point { x, y };
        Sim {
            home,
            position: home,
            course: Course::Disarmed,
            captures: 0,
        }
    }

    pub fn home(&self) -> Point
        ensures { result ≡ self.now.home }
    {
        self.home
    }

    /// Where it is.
    pub fn position(&self) -> Point
        ensures { result ≡ self.now.position }
    {
        self.position
    }

    pub fn armed(&self) -> bool
        ensures { result ≡ is_armed self.now }
    {
        self.course.is_armed()
    }

    /// How many pictures it took; the count stays at 2^32 - 1.
    pub fn captures(&self) -> u32
        ensures { result ≡ self.now.captures }
    {
        self.captures
    }

    /// Does what a command asks for. A disarmed drone doesn't start, and doesn't return.
    pub fn act(&mut self, action: Action)
        ensures { self.new ≡ acts self.old action }
    {
        self.course = self.course.after(action);
    }

    /// Its mission was installed or cleared: if it flies the mission, it stops where it is, and a later start begins
    /// at the first item.
    pub fn changed(&mut self)
        ensures { self.new ≡ changes self.old }
    {
        self.course = self.course.stopped();
    }

    fn stay(&self) -> SimNews
        ensures { result ≡ news_of (stays self.now) }
    {
        SimNews {
            x: self.position.x,
            y: self.position.y,
            reached: None,
            captured: false,
        }
    }

    fn reach(&self, number: u16, captured: bool) -> SimNews
        ensures { result ≡ news_of (record { sim = self.now; reached = Some number; captured = captured }) }
    {
        SimNews {
            x: self.position.x,
            y: self.position.y,
            reached: Some(number),
            captured,
        }
    }

    fn fly_to(&mut self, plan: &Plan, step: u32, number: u16, item: &Item, target: Point) -> SimNews
        ensures sim { self.new ≡ (flies_to self.old (items_of plan.now) step number item.now target).sim }
        ensures news { result ≡ news_of (flies_to self.old (items_of plan.now) step number item.now target) }
    {
        self.position = moved(step, self.position, target);
        if !is_at(self.position, target) {
            return self.stay();
        }
        self.course = beyond(plan, number, item);
        self.reach(number, false)
    }

    fn capture(&mut self, plan: &Plan, number: u16, item: &Item) -> SimNews
        ensures sim { self.new ≡ (captures_at self.old (items_of plan.now) number item.now).sim }
        ensures news { result ≡ news_of (captures_at self.old (items_of plan.now) number item.now) }
    {
        self.captures = self.captures.saturating_add(1);
        self.course = beyond(plan, number, item);
        self.reach(number, true)
    }

    fn do_item(&mut self, plan: &Plan, step: u32, number: u16, item: &Item) -> SimNews
        ensures sim { self.new ≡ (does_item self.old (items_of plan.now) step number item.now
            (item_target self.old.home item.now)).sim }
        ensures news { result ≡ news_of (does_item self.old (items_of plan.now) step number item.now
            (item_target self.old.home item.now)) }
    {
        match target_of(self.home, item) {
            Some(target) => self.fly_to(plan, step, number, item, target),
            None if item.command == MavCommand::IMAGE_START_CAPTURE => {
                self.capture(plan, number, item)
            }
            None => self.stay(),
        }
    }

    fn fly(&mut self, plan: &Plan, step: u32, number: u16) -> SimNews
        ensures sim { self.new ≡ (flies self.old (items_of plan.now) step number
            (slice_get (items_of plan.now) number)).sim }
        ensures news { result ≡ news_of (flies self.old (items_of plan.now) step number
            (slice_get (items_of plan.now) number)) }
    {
        match plan.get(usize::from(number)) {
            Some(item) => self.do_item(plan, step, number, &item),
            None => self.stay(),
        }
    }

    fn go_home(&mut self, step: u32) -> SimNews
        ensures sim { self.new ≡ (returns self.old step).sim }
        ensures news { result ≡ news_of (returns self.old step) }
    {
        self.position = moved(step, self.position, self.home);
        if is_at(self.position, self.home) {
            self.course = Course::Disarmed;
        }
        self.stay()
    }

    /// One tick over a mission. Each coordinate goes towards its target by at most the step, in units of 1e-7 degrees;
    /// a step of 0 acts as 1. A drone whose mission has no item of its number stays.
    pub fn tick(&mut self, plan: &Plan, step: u32) -> SimNews
        ensures sim { self.new ≡ (sim_tick self.old (items_of plan.now) step).sim }
        ensures news { result ≡ news_of (sim_tick self.old (items_of plan.now) step) }
    {
        let step = step.max(1);
        match self.course {
            Course::Disarmed | Course::Resting => self.stay(),
            Course::Flying(number) => self.fly(plan, step, number),
            Course::Returning => self.go_home(step),
        }
    }
}
