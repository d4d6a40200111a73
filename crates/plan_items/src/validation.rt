// The tests of items and of whole plans.
ghost use Rattle.std.specs.Prelude.{◌≡◌, ◌+◌, ◌<◌, ◌==◌, ◌&&◌, [], ◌∷◌, ◌++◌, length};
ghost use Rattle.std.specs.Result.{result_err};
ghost use Rattle.std.specs.List.{list_all};
ghost use Rattle.plan_items.specs.Kinds.{number_of};
ghost use Rattle.plan_items.specs.Plans.{items_of};
ghost use Rattle.plan_items.specs.Validation.{is_global, goes_to_place, is_frame_supported, is_vertex};
ghost use Rattle.plan_items.specs.Validation.{is_command_supported, is_in_range, vertex_count, has_count, item_fault};
ghost use Rattle.plan_items.specs.Validation.{group_len_of, is_like, is_grouped, whole_fault, first_fault, plan_fault};

use crate::{Item, MavCommand, MavFrame, Plan, PlanFault, PlanKind, word_small};

// 90 degrees in units of 1e-7 degrees.
const MAX_LATITUDE: i32 = 900_000_000;

// 180 degrees in units of 1e-7 degrees.
const MAX_LONGITUDE: i32 = 1_800_000_000;

const MIN_VERTICES: u8 = 3;

fn is_place_command(command: u16) -> bool
    ensures { result ≡ goes_to_place command }
{
    matches!(
        command,
        MavCommand::NAV_WAYPOINT | MavCommand::NAV_LAND | MavCommand::NAV_TAKEOFF
    )
}

fn is_global_frame(frame: u8) -> bool
    ensures { result ≡ is_global frame }
{
    matches!(
        frame,
        MavFrame::GLOBAL
            | MavFrame::GLOBAL_RELATIVE_ALT
            | MavFrame::GLOBAL_INT
            | MavFrame::GLOBAL_RELATIVE_ALT_INT
    )
}

fn supports_frame(kind: PlanKind, item: &Item) -> bool
    ensures { result ≡ is_frame_supported (number_of kind) item.now }
{
    if is_global_frame(item.frame) {
        return true;
    }
    matches!(kind, PlanKind::Mission)
        && item.frame == MavFrame::MISSION
        && !is_place_command(item.command)
}

fn is_polygon_vertex(command: u16) -> bool
    ensures { result ≡ is_vertex command }
{
    matches!(
        command,
        MavCommand::FENCE_POLYGON_INCLUSION | MavCommand::FENCE_POLYGON_EXCLUSION
    )
}

fn supports_command(kind: PlanKind, command: u16) -> bool
    ensures { result ≡ is_command_supported (number_of kind) command }
{
    match kind {
        PlanKind::Mission => {
            is_place_command(command)
                || command == MavCommand::NAV_RETURN_TO_LAUNCH
                || command == MavCommand::IMAGE_START_CAPTURE
        }
        PlanKind::Fence => {
            command == MavCommand::FENCE_RETURN_POINT || is_polygon_vertex(command)
        }
        PlanKind::Rally => command == MavCommand::RALLY_POINT,
    }
}

fn has_latitude(item: &Item) -> bool
    ensures { result ≡ is_in_range item.now 900000000 item.now.x }
{
    item.frame == MavFrame::MISSION || (-MAX_LATITUDE <= item.x && item.x <= MAX_LATITUDE)
}

fn has_longitude(item: &Item) -> bool
    ensures { result ≡ is_in_range item.now 1800000000 item.now.y }
{
    item.frame == MavFrame::MISSION || (-MAX_LONGITUDE <= item.y && item.y <= MAX_LONGITUDE)
}

// The number of vertices of the polygon that a word of param1 represents.
fn polygon_len(word: u32) -> Option<u8>
    ensures { result ≡ vertex_count word }
{
    match word_small(word) {
        Some(count) if count >= MIN_VERTICES => Some(count),
        _ => None,
    }
}

fn has_polygon_len(item: &Item) -> bool
    ensures { result ≡ has_count item.now }
{
    !is_polygon_vertex(item.command) || polygon_len(item.p[0]).is_some()
}

/// The first fault of an item in a plan of this kind.
pub fn check_item(kind: PlanKind, item: &Item) -> Result<(), PlanFault>
    ensures { result_err result ≡ item_fault (number_of kind) item.now }
{
    if !supports_frame(kind, item) {
        return Err(PlanFault::UnsupportedFrame);
    }
    if !supports_command(kind, item.command) {
        return Err(PlanFault::Unsupported);
    }
    if !has_latitude(item) {
        return Err(PlanFault::InvalidX);
    }
    if !has_longitude(item) {
        return Err(PlanFault::InvalidY);
    }
    if !has_polygon_len(item) {
        return Err(PlanFault::InvalidParam1);
    }
    Ok(())
}

// How many items the group that begins with this one has.
fn group_len(first: &Item) -> Option<u8>
    ensures { result ≡ group_len_of first.now }
{
    if is_polygon_vertex(first.command) {
        polygon_len(first.p[0])
    } else {
        Some(1)
    }
}

fn is_same_group(first: &Item, item: &Item) -> bool
    ensures { result ≡ is_like first.now item.now }
{
    item.command == first.command && item.p[0] == first.p[0]
}

fn is_one_group(first: &Item, items: &[Item]) -> bool
    ensures { result ≡ list_all (is_like first.now) items.now }
{
    items.iter().all(|item| is_same_group(first, item))
}

// Whether the items are whole groups, one after the other.
fn is_whole(items: &[Item]) -> bool
    ensures { result ≡ is_grouped 0 items.now }
{
    let mut rest = items;
    while let Some(first) = rest.first() {
        let Some(len) = group_len(first) else {
            return false;
        };
        let len = usize::from(len);
        if rest.len() < len || !is_one_group(first, &rest[..len]) {
            return false;
        }
        rest = &rest[len..];
    }
    true
}

// Whether the items and one more after them are a group of this length.
fn is_group_with(first: &Item, items: &[Item], last: &Item, len: usize) -> bool
    requires { length items.now < len }
    ensures { result ≡ ((length items.now + 1 == len) && list_all (is_like first.now) items.now
        && is_like first.now last.now) }
{
    if items.len() + 1 != len || !is_one_group(first, items) {
        return false;
    }
    is_same_group(first, last)
}

// Whether the items with one more after them are whole groups.
fn is_whole_with(items: &[Item], last: &Item) -> bool
    ensures { result ≡ is_grouped 0 (items.now ++ last.now ∷ []) }
{
    let mut rest = items;
    while let Some(first) = rest.first() {
        let Some(len) = group_len(first) else {
            return false;
        };
        let len = usize::from(len);
        if rest.len() < len {
            return is_group_with(first, rest, last, len);
        }
        if !is_one_group(first, &rest[..len]) {
            return false;
        }
        rest = &rest[len..];
    }
    !is_polygon_vertex(last.command)
}

#[tactic(auto, unfolding(crate::specs::Validation::whole_fault))]
fn check_whole(kind: PlanKind, items: &[Item]) -> Result<(), PlanFault>
    ensures { result_err result ≡ whole_fault (number_of kind) items.now }
{
    match kind {
        PlanKind::Fence => {
            if is_whole(items) {
                Ok(())
            } else {
                Err(PlanFault::Invalid)
            }
        }
        PlanKind::Mission | PlanKind::Rally => Ok(()),
    }
}

fn check_items(kind: PlanKind, items: &[Item]) -> Result<(), PlanFault>
    ensures { result_err result ≡ first_fault (number_of kind) items.now }
{
    for item in items {
        if let Err(fault) = check_item(kind, item) {
            return Err(fault);
        }
    }
    Ok(())
}

/// The fault of the first item that has one, and else that of the whole plan.
#[tactic(auto, unfolding(crate::specs::Validation::plan_fault))]
pub fn check_plan(kind: PlanKind, plan: &Plan) -> Result<(), PlanFault>
    ensures { result_err result ≡ plan_fault (number_of kind) (items_of plan.now) }
{
    let items = plan.as_slice();
    check_items(kind, items)?;
    check_whole(kind, items)
}

/// The fault of the whole that the plan would have with one more item at its end. Only a fence can have
/// one, so other plans aren't read.
#[tactic(auto, unfolding(crate::specs::Validation::whole_fault))]
pub fn check_whole_with(kind: PlanKind, plan: &Plan, last: &Item) -> Result<(), PlanFault>
    ensures { result_err result ≡ whole_fault (number_of kind) (items_of plan.now ++ last.now ∷ []) }
{
    match kind {
        PlanKind::Fence => {
            if is_whole_with(plan.as_slice(), last) {
                Ok(())
            } else {
                Err(PlanFault::Invalid)
            }
        }
        PlanKind::Mission | PlanKind::Rally => Ok(()),
    }
}
