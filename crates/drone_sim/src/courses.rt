// What a drone is doing.
ghost use Rattle.std.specs.Prelude.{◌≡◌};
ghost use Rattle.drone_sim.specs.Sim.{is_armed as is_armed_on, arms, turns, course_by, stopped as stopped_on};

use plan_items::Action;

/// A disarmed drone does nothing; an armed one rests, flies its mission, or returns to its home.
#[derive(Clone, Copy)]
pub enum Course {
    Disarmed,
    Resting,
    /// It flies its mission, and is on its way to the item of this number.
    Flying(u16),
    Returning,
}

impl Course {
    pub(crate) fn is_armed(self) -> bool
        ensures { result ≡ is_armed_on self }
    {
        match self {
            Course::Disarmed => false,
            Course::Resting | Course::Flying(_) | Course::Returning => true,
        }
    }

    fn armed(self) -> Course
        ensures { result ≡ arms self }
    {
        match self {
            Course::Disarmed => Course::Resting,
            armed => armed,
        }
    }

    // An armed drone leaves its course for another.
    fn turned(self, new: Course) -> Course
        ensures { result ≡ turns new self }
    {
        if self.is_armed() {
            new
        } else {
            Course::Disarmed
        }
    }

    /// The course after an action.
    pub(crate) fn after(self, action: Action) -> Course
        ensures { result ≡ course_by action self }
    {
        match action {
            Action::Arm => self.armed(),
            Action::Disarm => Course::Disarmed,
            Action::Start => self.turned(Course::Flying(0)),
            Action::Return => self.turned(Course::Returning),
        }
    }

    /// The course after a change of the mission.
    pub(crate) fn stopped(self) -> Course
        ensures { result ≡ stopped_on self }
    {
        match self {
            Course::Flying(_) => Course::Resting,
            other => other,
        }
    }
}
