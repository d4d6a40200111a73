// A plan: its items in order, with room for more.
ghost use Rattle.std.specs.Prelude.{◌≡◌, ◌+◌, ◌≤◌, ◌<◌, ◌↔◌, [], ◌∷◌, ◌++◌, length, slice_get, IsTrue, IsNone, IfOk};
ghost use Rattle.std.specs.Prelude.{OnOk, OnErr};
ghost use Rattle.plan_items.specs.Plans.{items_of, spare_of, room_of};

use crate::{Item, NoMemory};
use std::alloc::Global;

/// The items of a plan of any kind, first to last.
#[derive(Drop)]
pub struct Plan {
    items: Vec<Item>,
}

impl Plan {
    pub fn new(alloc: Global) -> Plan
        ensures { items_of result ≡ [] }
    {
        Plan {
            items: Vec::new(alloc),
        }
    }

    /// An empty plan to which `items` items can be added without allocating.
    pub fn with_room(alloc: Global, items: usize) -> Result<Plan, NoMemory>
        ensures empty { IfOk result (λ plan. items_of plan ≡ []) }
        ensures spare { IfOk result (λ plan. items ≤ spare_of plan) }
    {
        Ok(Plan {
            items: Vec::with_capacity(alloc, items)?,
        })
    }

    /// Adds an item at the end. With room to spare it doesn't allocate.
    pub fn push(&mut self, item: Item) -> Result<(), NoMemory>
        ensures ok { OnOk result (items_of self.new ≡ items_of self.old ++ item ∷ []) }
        ensures err { OnErr result (items_of self.new ≡ items_of self.old) }
        ensures full { OnErr result (spare_of self.old ≡ 0) }
        ensures room { room_of self.old ≤ room_of self.new }
    {
        self.items.push(item)?;
        Ok(())
    }

    /// Adds an item at the end, and doesn't allocate.
    pub fn put(&mut self, item: Item)
        requires { 0 < spare_of self.old }
        ensures items { items_of self.new ≡ items_of self.old ++ item ∷ [] }
        ensures spare { spare_of self.old ≤ spare_of self.new + 1 }
        ensures room { room_of self.old ≤ room_of self.new }
    {
        self.items.push_reserved(item);
    }

    /// Drops every item and keeps the room.
    pub fn clear(&mut self)
        ensures items { items_of self.new ≡ [] }
        ensures room { room_of self.old ≤ room_of self.new }
    {
        self.items.clear();
    }

    /// Becomes a copy of `from`, and doesn't allocate.
    pub fn fill(&mut self, from: &Plan)
        requires { length (items_of from.now) ≤ room_of self.old }
        ensures items { items_of self.new ≡ items_of from.now }
        ensures room { room_of self.old ≤ room_of self.new }
    {
        self.items.clear();
        let copied = self.items.extend_from_slice(from.items.as_slice());
        copied.unwrap();
    }

    pub fn len(&self) -> usize
        ensures { result ≡ length (items_of self.now) }
    {
        self.items.len()
    }

    pub fn is_empty(&self) -> bool
        ensures { IsTrue result ↔ (items_of self.now ≡ []) }
    {
        self.items.is_empty()
    }

    pub fn as_slice(&self) -> &[Item]
        ensures { result.now ≡ items_of self.now }
    {
        self.items.as_slice()
    }

    /// The item at `at`, counted from 0.
    pub fn get(&self, at: usize) -> Option<Item>
        ensures item { result ≡ slice_get (items_of self.now) at }
        ensures past_end { IsNone result ↔ (length (items_of self.now) ≤ at) }
    {
        self.items.get(at).copied()
    }
}
