// Plans as the bytes of a stored image.
ghost use Rattle.std.specs.Prelude.{◌≡◌, ◌+◌, ◌*◌, ◌<◌, ◌≤◌, ◌^◌, ◌++◌, length, vec_len, vec_capacity, flat_map, IfOk};
ghost use Rattle.plan_image.specs.Plans.{IsHoldable};
ghost use Rattle.plan_image.specs.Image.{item_bytes, plan_bytes, image, ItemInRange, InRange, IsImageOf, most_bytes};

use crate::NoMemory;
use plan_items::Item;
use std::alloc::Global;
use std::marker::Model;

/// How many bytes an item takes.
pub(crate) const ITEM_BYTES: usize = 33;

// The bytes of an image without items: system id, low bound, and three numbers of items.
const FIXED_BYTES: usize = 15;

/// The items of a plan to be written: those of a slice, and one more after them if there is one.
#[derive(Drop)]
pub struct PlanItems<'a> {
    pub items: &'a [Item],
    pub last: Option<Item>,
}

impl<'a> Model for PlanItems<'a> {
    ghost use Rattle.std.specs.Prelude.{List, ◌++◌, option_to_list};
    ghost use Rattle.plan_items.specs.declared.items.Item.{Item};

    ghost Value = { List Item };

    ghost view = { λ p. p.items.now ++ option_to_list p.last };
}

fn put(bytes: &mut Vec<u8>, more: &[u8])
    requires { vec_len bytes.old + length more.now ≤ vec_capacity bytes.old }
    ensures bytes { bytes.new.items ≡ bytes.old.items ++ more.now }
    ensures len { vec_len bytes.new ≡ vec_len bytes.old + length more.now }
    ensures room { vec_capacity bytes.old ≤ vec_capacity bytes.new }
{
    bytes.extend_from_slice(more).unwrap();
}

// The ranges are those of the item's types.
fn see_ranges(item: Item)
    ensures { ItemInRange item }
{
    let _params = item.p;
    let _x = item.x;
    let _y = item.y;
}

#[tactic(auto, unfolding(crate::specs::Image::item_bytes))]
fn put_item(bytes: &mut Vec<u8>, item: Item)
    requires { vec_len bytes.old + 33 ≤ vec_capacity bytes.old }
    ensures bytes { bytes.new.items ≡ bytes.old.items ++ item_bytes item }
    ensures len { vec_len bytes.new ≡ vec_len bytes.old + 33 }
    ensures room { vec_capacity bytes.old ≤ vec_capacity bytes.new }
    ensures range { ItemInRange item }
{
    see_ranges(item);
    put(bytes, &[item.frame]);
    put(bytes, &item.command.to_le_bytes());
    put(bytes, &[item.current, item.autocontinue]);
    put(bytes, &item.p[0].to_le_bytes());
    put(bytes, &item.p[1].to_le_bytes());
    put(bytes, &item.p[2].to_le_bytes());
    put(bytes, &item.p[3].to_le_bytes());
    put(bytes, &item.x.to_le_bytes());
    put(bytes, &item.y.to_le_bytes());
    put(bytes, &item.z.to_le_bytes());
}

fn put_items(bytes: &mut Vec<u8>, items: &[Item])
    requires { vec_len bytes.old + 33 * length items.now ≤ vec_capacity bytes.old }
    ensures bytes { bytes.new.items ≡ bytes.old.items ++ flat_map item_bytes items.now }
    ensures len { vec_len bytes.new ≡ vec_len bytes.old + 33 * length items.now }
    ensures room { vec_capacity bytes.old ≤ vec_capacity bytes.new }
    ensures range { InRange items.now }
{
    for item in items {
        put_item(bytes, *item);
    }
}

impl<'a> PlanItems<'a> {
    fn len(&self) -> usize
        ensures { result ≡ length self.now }
    {
        match self.last {
            None => self.items.len(),
            Some(_) => self.items.len() + 1,
        }
    }

    fn put(&self, bytes: &mut Vec<u8>)
        requires few { length self.now ≤ 1000 }
        requires room { vec_len bytes.old + (2 + 33 * length self.now) ≤ vec_capacity bytes.old }
        ensures bytes { bytes.new.items ≡ bytes.old.items ++ plan_bytes self.now }
        ensures len { vec_len bytes.new ≡ vec_len bytes.old + (2 + 33 * length self.now) }
        ensures room { vec_capacity bytes.old ≤ vec_capacity bytes.new }
        ensures range { InRange self.now }
    {
        let count = self.len() as u16;
        put(bytes, &count.to_le_bytes());
        put_items(bytes, self.items);
        if let Some(last) = self.last {
            put_item(bytes, last);
        }
    }
}

/// The stored image. Its exact length is allocated first, at most 41,265 bytes.
#[tactic(auto, unfolding(crate::specs::Image::image))]
pub fn write_image(
    alloc: Global,
    sys: u8,
    floor: u64,
    mission: &PlanItems<'_>,
    fence: &PlanItems<'_>,
    rally: &PlanItems<'_>,
) -> Result<Vec<u8>, NoMemory>
    requires below { floor < 2 ^ 48 }
    requires mission { IsHoldable 0 mission.now }
    requires fence { IsHoldable 1 fence.now }
    requires rally { IsHoldable 2 rally.now }
    ensures image { IfOk result (λ bytes. IsImageOf sys floor
        (record { mission = mission.now; fence = fence.now; rally = rally.now }) bytes.items) }
    ensures short { IfOk result (λ bytes. vec_len bytes ≤ most_bytes) }
{
    let len = FIXED_BYTES + ITEM_BYTES * (mission.len() + fence.len() + rally.len());
    let mut bytes = Vec::with_capacity(alloc, len)?;
    put(&mut bytes, &[sys]);
    put(&mut bytes, &floor.to_le_bytes());
    mission.put(&mut bytes);
    fence.put(&mut bytes);
    rally.put(&mut bytes);
    Ok(bytes)
}
