// What a stored image holds.
use plan_items::Plan;
use std::marker::Model;

/// A drone's persisted timestamp low bound, below 2^48, and its plans, each empty or valid for its kind.
#[derive(Drop)]
pub struct Kept {
    pub floor: u64,
    pub mission: Plan,
    pub fence: Plan,
    pub rally: Plan,
}

impl Model for Kept {
    ghost use Rattle.std.specs.Prelude.{◌<◌, ◌^◌};
    ghost use Rattle.plan_items.specs.Plans.{items_of};
    ghost use Rattle.plan_image.specs.Plans.{AreHoldable};
    ghost use Rattle.plan_image.specs.Kept.{KeptPlans};

    ghost Value = { KeptPlans };

    ghost view = { λ k. record {
      low = k.floor;
      plans = record { mission = items_of k.mission; fence = items_of k.fence; rally = items_of k.rally };
    } };

    ghost invariant = { λ k. (k.floor < 2 ^ 48)
        × AreHoldable (record { mission = items_of k.mission; fence = items_of k.fence; rally = items_of k.rally }) };
}
