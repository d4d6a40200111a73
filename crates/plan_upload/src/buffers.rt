// A plan with room for the largest plan of any kind.
ghost use Rattle.std.specs.Prelude.{◌≡◌, ◌+◌, ◌≤◌, ◌<◌, [], ◌∷◌, ◌++◌, length, slice_get, IfOk};
ghost use Rattle.plan_items.specs.Plans.{items_of};

use crate::NoMemory;
use plan_items::{Item, Plan};
use std::alloc::Global;
use std::marker::Model;

/// The most items of a plan of any kind.
pub const MAX_ITEMS: usize = 1000;

/// Items whose memory was allocated at the start: none of its calls but `new` allocates.
#[derive(Drop)]
pub struct Buffer {
    plan: Plan,
}

impl Model for Buffer {
    ghost use Rattle.std.specs.Prelude.{◌≤◌, List};
    ghost use Rattle.plan_items.specs.declared.items.Item.{Item};
    ghost use Rattle.plan_items.specs.Plans.{items_of, room_of};

    ghost Value = { List Item };

    ghost view = { λ b. items_of b.plan };

    ghost invariant = { λ b. 1000 ≤ room_of b.plan };
}

impl Buffer {
    pub fn new(alloc: Global) -> Result<Buffer, NoMemory>
        ensures { IfOk result (λ b. b ≡ []) }
    {
        let plan = Plan::with_room(alloc, MAX_ITEMS)?;
        Ok(Buffer { plan })
    }

    pub fn plan(&self) -> &Plan
        ensures { items_of result.now ≡ self.now }
    {
        &self.plan
    }

    pub fn into_plan(self) -> Plan
        ensures { items_of result ≡ self }
    {
        self.plan
    }

    pub fn len(&self) -> usize
        ensures { result ≡ length self.now }
    {
        self.plan.len()
    }

    pub fn get(&self, at: usize) -> Option<Item>
        ensures { result ≡ slice_get self.now at }
    {
        self.plan.get(at)
    }

    pub fn put(&mut self, item: Item)
        requires { length self.old < 1000 }
        ensures { self.new ≡ self.old ++ item ∷ [] }
    {
        self.plan.put(item);
    }

    pub fn clear(&mut self)
        ensures { self.new ≡ [] }
    {
        self.plan.clear();
    }

    pub fn fill(&mut self, from: &Plan)
        requires { length (items_of from.now) ≤ 1000 }
        ensures { self.new ≡ items_of from.now }
    {
        self.plan.fill(from);
    }
}
