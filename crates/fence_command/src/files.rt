// What a file says so far.
ghost use Rattle.std.specs.Prelude.{◌≡◌};
ghost use Rattle.fence_command.specs.FenceFile.{empty_file};
ghost use Rattle.fence_command.specs.Files.{state_of};

use drone_sim::Point;
use plan_items::Plan;
use std::alloc::Global;

const FIRST_STEP: u32 = 1000;

/// A fence, a mission, and how it is flown. Contracts see `state_of` it.
#[derive(Drop)]
pub struct FenceFile {
    pub(crate) home: Point,
    /// The most units of 1e-7 degrees that a tick moves each coordinate.
    pub(crate) step: u32,
    pub(crate) ticks: u32,
    pub(crate) fence: Plan,
    pub(crate) mission: Plan,
    /// Items join the fence, and not the mission.
    pub(crate) to_fence: bool,
}

impl FenceFile {
    pub(crate) fn new(alloc: Global) -> FenceFile
        ensures { state_of result ≡ empty_file }
    {
        FenceFile {
            home: Point { x: 0, y: 0 },
            step: FIRST_STEP,
            ticks: 0,
            fence: Plan::new(alloc),
            mission: Plan::new(alloc),
            to_fence: false,
        }
    }
}
