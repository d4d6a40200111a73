// The lines that are written of a file.
ghost use Rattle.std.specs.Prelude.{◌≡◌, ◌++◌, ◌≤◌, ◌<◌, ◌+◌, OnOk, IfOk, string_bytes, length, is_some};
ghost use Rattle.drone_sim.specs.Sim.{location_of};
ghost use Rattle.fence_watch.specs.Judging.{judged};
ghost use Rattle.fence_command.specs.FenceText.{item_text, items_text, outside, next_from as next_start};
ghost use Rattle.fence_command.specs.FenceText.{ends_touching as leg_ends_touching, counted, touching, legs_text};
ghost use Rattle.fence_command.specs.FenceText.{breach_text, breaches_text, counts_text};

use drone_sim::Point;
use fence_watch::{Breach, Watch, goes_to_location};
use mav_ports::NoMemory;
use plan_items::Item;

// `SEQ none`, `SEQ ok` or `SEQ outside CODE`; returns whether it is outside.
fn put_item(text: &mut String, watch: &Watch, number: usize, item: &Item) -> Result<bool, NoMemory>
    ensures text { IfOk result (λ _. string_bytes text.new ≡ string_bytes text.old ++ item_text watch.now number
        item.now) }
    ensures outside { IfOk result (λ outside. outside ≡ is_some (judged watch.now item.now)) }
{
    if !goes_to_location(item.command) {
        writeln!(text, "{number} none")?;
        return Ok(false);
    }
    match watch.judge(item) {
        None => {
            writeln!(text, "{number} ok")?;
            Ok(false)
        }
        Some(code) => {
            writeln!(text, "{number} outside {code}")?;
            Ok(true)
        }
    }
}

/// The lines of the items; returns how many are outside.
pub(crate) fn put_items(text: &mut String, watch: &Watch, items: &[Item]) -> Result<usize, NoMemory>
    ensures text { IfOk result (λ _. string_bytes text.new ≡ string_bytes text.old ++ items_text watch.now 0
        items.now) }
    ensures outside { IfOk result (λ count. count ≡ outside watch.now items.now) }
{
    let mut number = 0;
    let mut outside = 0;
    for item in items {
        outside += usize::from(put_item(text, watch, number, item)?);
        number += 1;
    }
    Ok(outside)
}

fn location(item: &Item) -> Point
    ensures { result ≡ location_of item.now }
{
    Point {
        x: item.x,
        y: item.y,
    }
}

// Where the next leg begins, once an item was looked at.
fn next_from(from: Point, item: &Item) -> Point
    ensures { result ≡ next_start from item.now }
{
    if goes_to_location(item.command) {
        location(item)
    } else {
        from
    }
}

// A leg ends at the item, and touches the fence.
fn ends_touching(watch: &Watch, from: Point, item: &Item) -> bool
    ensures { result ≡ leg_ends_touching watch.now from item.now }
{
    goes_to_location(item.command) && watch.touches(from, location(item))
}

// `leg SEQ touches` if it touches; returns how many it is.
fn put_leg(text: &mut String, touches: bool, number: usize) -> Result<usize, NoMemory>
    ensures text { IfOk result (λ _. string_bytes text.new ≡ string_bytes text.old ++ legs_text
        (counted touches number)) }
    ensures count { IfOk result (λ count. count ≡ length (counted touches number)) }
    ensures most { IfOk result (λ count. count ≤ 1) }
{
    if !touches {
        return Ok(0);
    }
    writeln!(text, "leg {number} touches")?;
    Ok(1)
}

/// The lines of the legs that touch the fence; returns how many there are.
pub(crate) fn put_legs(
    text: &mut String,
    watch: &Watch,
    home: Point,
    items: &[Item],
) -> Result<usize, NoMemory>
    ensures text { IfOk result (λ _. string_bytes text.new ≡ string_bytes text.old ++ legs_text
        (touching watch.now home 0 items.now)) }
    ensures count { IfOk result (λ count. count ≡ length (touching watch.now home 0 items.now)) }
{
    let mut from = home;
    let mut number = 0;
    let mut legs = 0;
    for item in items {
        let touches = ends_touching(watch, from, item);
        legs += put_leg(text, touches, number)?;
        from = next_from(from, item);
        number += 1;
    }
    Ok(legs)
}

// `breach TICK X Y`
fn put_breach(text: &mut String, breach: &Breach) -> Result<(), NoMemory>
    ensures { OnOk result (string_bytes text.new ≡ string_bytes text.old ++ breach_text breach.now) }
{
    let (tick, x, y) = (breach.tick, breach.at.x, breach.at.y);
    writeln!(text, "breach {tick} {x} {y}")
}

pub(crate) fn put_breaches(text: &mut String, breaches: &[Breach]) -> Result<(), NoMemory>
    ensures { OnOk result (string_bytes text.new ≡ string_bytes text.old ++ breaches_text breaches.now) }
{
    for breach in breaches {
        put_breach(text, breach)?;
    }
    Ok(())
}

/// The last line.
pub(crate) fn put_counts(
    text: &mut String,
    outside: usize,
    legs: usize,
    breaches: usize,
) -> Result<(), NoMemory>
    ensures { OnOk result (string_bytes text.new ≡ string_bytes text.old ++ counts_text outside legs breaches) }
{
    writeln!(text, "outside {outside} legs {legs} breaches {breaches}")
}
