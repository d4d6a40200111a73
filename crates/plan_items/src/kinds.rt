// The three kinds of plans.
ghost use Rattle.std.specs.Prelude.{◌≡◌};
ghost use Rattle.plan_items.specs.Kinds.{number_of, limit_of, kind_of};

/// A kind of plan (MAVLink common messages, MAV_MISSION_TYPE).
#[derive(Clone, Copy)]
pub enum PlanKind {
    Mission,
    Fence,
    Rally,
}

impl PlanKind {
    /// The number that means all kinds in a clear, MAV_MISSION_TYPE_ALL.
    pub const ALL: u8 = 255;

    /// The most items that a plan of this kind has.
    pub fn limit(self) -> u16
        ensures { result ≡ limit_of (number_of self) }
    {
        match self {
            PlanKind::Mission => 1000,
            PlanKind::Fence => 200,
            PlanKind::Rally => 50,
        }
    }

    /// The number that messages carry.
    pub fn number(self) -> u8
        ensures { result ≡ number_of self }
    {
        match self {
            PlanKind::Mission => 0,
            PlanKind::Fence => 1,
            PlanKind::Rally => 2,
        }
    }

    /// The kind with this number. None for every number above 2, `ALL` included.
    pub fn of(number: u8) -> Option<PlanKind>
        ensures { result ≡ kind_of number }
    {
        match number {
            0 => Some(PlanKind::Mission),
            1 => Some(PlanKind::Fence),
            2 => Some(PlanKind::Rally),
            _ => None,
        }
    }
}
