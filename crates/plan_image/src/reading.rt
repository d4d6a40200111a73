// A stored image as plans.
ghost use Rattle.std.specs.Prelude.{◌≡◌, ◌+◌, ◌*◌, ◌<◌, ◌≤◌, ◌^◌, ◌∷◌, ◌++◌, ℕ, List, length, slice_range, flat_map};
ghost use Rattle.std.specs.Prelude.{IfOk, IfSome, IsNone, IsErrOf};
ghost use Rattle.std.specs.Int.{w16, w32, w64, to_le_bytes};
ghost use Rattle.plan_items.specs.Kinds.{number_of};
ghost use Rattle.plan_items.specs.Plans.{items_of};
ghost use Rattle.plan_items.specs.declared.items.Item.{Item};
ghost use Rattle.plan_image.specs.Plans.{IsHoldable};
ghost use Rattle.plan_image.specs.Image.{item_bytes, plan_bytes, ItemInRange, InRange, IsImageOf, IsImage};

use crate::NoMemory;
use crate::faults::KeptFault;
use crate::kept::Kept;
use crate::writing::ITEM_BYTES;
use plan_items::{Item, Plan, PlanKind, check_plan};
use std::alloc::Global;

// The system id, and the low bound in 8 bytes.
const HEADER_BYTES: usize = 9;

// A timestamp has 48 bits (MAVLink guide, Message Signing: Signature).
const LOW_BOUND_END: u64 = 1 << 48;

fn u16_of(bytes: &[u8]) -> u16
    requires { length bytes.now ≡ 2 }
    ensures { to_le_bytes w16 result ≡ bytes.now }
{
    u16::from_le_bytes([bytes[0], bytes[1]])
}

fn u32_of(bytes: &[u8]) -> u32
    requires { length bytes.now ≡ 4 }
    ensures { to_le_bytes w32 result ≡ bytes.now }
{
    u32::from_le_bytes([bytes[0], bytes[1], bytes[2], bytes[3]])
}

fn u64_of(bytes: &[u8]) -> u64
    requires { length bytes.now ≡ 8 }
    ensures { to_le_bytes w64 result ≡ bytes.now }
{
    u64::from_le_bytes([
        bytes[0], bytes[1], bytes[2], bytes[3], bytes[4], bytes[5], bytes[6], bytes[7],
    ])
}

#[tactic(auto, unfolding(crate::specs::Image::item_bytes))]
fn item_of(bytes: &[u8]) -> Item
    requires { length bytes.now ≡ 33 }
    ensures bytes { item_bytes result ≡ bytes.now }
    ensures range { ItemInRange result }
{
    Item {
        frame: bytes[0],
        command: u16_of(&bytes[1..3]),
        current: bytes[3],
        autocontinue: bytes[4],
        p: [
            u32_of(&bytes[5..9]),
            u32_of(&bytes[9..13]),
            u32_of(&bytes[13..17]),
            u32_of(&bytes[17..21]),
        ],
        x: u32_of(&bytes[21..25]).cast_signed(),
        y: u32_of(&bytes[25..29]).cast_signed(),
        z: u32_of(&bytes[29..33]),
    }
}

fn item_at(bytes: &[u8], index: usize) -> Item
    requires { 33 * index + 33 ≤ length bytes.now }
    ensures bytes { item_bytes result ≡ slice_range bytes.now (33 * index) (33 * index + 33) }
    ensures range { ItemInRange result }
{
    let at = ITEM_BYTES * index;
    item_of(&bytes[at..at + ITEM_BYTES])
}

fn items_of_bytes(alloc: Global, count: u16, bytes: &[u8]) -> Result<Plan, NoMemory>
    requires { length bytes.now ≡ 33 * count }
    ensures bytes { IfOk result (λ plan. flat_map item_bytes (items_of plan) ≡ bytes.now) }
    ensures len { IfOk result (λ plan. length (items_of plan) ≡ count) }
    ensures range { IfOk result (λ plan. InRange (items_of plan)) }
{
    let count = usize::from(count);
    let mut plan = Plan::with_room(alloc, count)?;
    for index in 0..count {
        plan.put(item_at(bytes, index));
    }
    Ok(plan)
}

// The plan that the bytes begin with, and the bytes after it.
fn take_plan(alloc: Global, kind: PlanKind, bytes: &[u8]) -> Result<(Plan, &[u8]), KeptFault>
    ensures bytes { IfOk result (λ taken. bytes.now ≡ plan_bytes (items_of taken.0) ++ taken.1.now) }
    ensures holdable { IfOk result (λ taken. IsHoldable (number_of kind) (items_of taken.0)) }
    ensures range { IfOk result (λ taken. InRange (items_of taken.0)) }
    ensures bad { IsErrOf result KeptFault.BadKept → (items : List Item) → (rest : List ℕ)
        → IsHoldable (number_of kind) items → InRange items → ¬ (bytes.now ≡ plan_bytes items ++ rest) }
{
    if bytes.len() < 2 {
        return Err(KeptFault::BadKept);
    }
    let (head, rest) = bytes.split_at(2);
    let count = u16_of(head);
    let len = ITEM_BYTES * usize::from(count);
    if count > kind.limit() || rest.len() < len {
        return Err(KeptFault::BadKept);
    }
    let (items, rest) = rest.split_at(len);
    let plan = items_of_bytes(alloc, count, items)?;
    match check_plan(kind, &plan) {
        Ok(()) => Ok((plan, rest)),
        Err(_) => Err(KeptFault::BadKept),
    }
}

// The persisted timestamp low bound, and the bytes after it.
fn take_header(sys: u8, bytes: &[u8]) -> Option<(u64, &[u8])>
    ensures some { IfSome result (λ taken. (taken.0 < 2 ^ 48)
        × (bytes.now ≡ (sys ∷ to_le_bytes w64 taken.0) ++ taken.1.now)) }
    ensures none { IsNone result → (low : ℕ) → (rest : List ℕ) → low < 2 ^ 48
        → ¬ (bytes.now ≡ (sys ∷ to_le_bytes w64 low) ++ rest) }
{
    if bytes.len() < HEADER_BYTES || bytes[0] != sys {
        return None;
    }
    let (head, rest) = bytes.split_at(HEADER_BYTES);
    let low = u64_of(&head[1..]);
    if low < LOW_BOUND_END {
        Some((low, rest))
    } else {
        None
    }
}

/// What a stored image of the drone of this system holds. BadKept exactly if the bytes are none.
pub fn read_kept(alloc: Global, sys: u8, bytes: &[u8]) -> Result<Kept, KeptFault>
    ensures image { IfOk result (λ kept. IsImageOf sys kept.low kept.plans bytes.now) }
    ensures bad { IsErrOf result KeptFault.BadKept → ¬ IsImage sys bytes.now }
{
    let Some((floor, rest)) = take_header(sys, bytes) else {
        return Err(KeptFault::BadKept);
    };
    let (mission, rest) = take_plan(alloc, PlanKind::Mission, rest)?;
    let (fence, rest) = take_plan(alloc, PlanKind::Fence, rest)?;
    let (rally, rest) = take_plan(alloc, PlanKind::Rally, rest)?;
    if !rest.is_empty() {
        return Err(KeptFault::BadKept);
    }
    Ok(Kept {
        floor,
        mission,
        fence,
        rally,
    })
}
