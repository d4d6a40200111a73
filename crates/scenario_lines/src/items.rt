// The lines that add items to a draft, after so many items.
ghost use Rattle.std.specs.Prelude.{◌≡◌, ◌≤◌};
ghost use Rattle.scenario_lines.specs.Reasons.{leaves_range};
ghost use Rattle.scenario_lines.specs.Readings.{read_one_item, read_items};

use crate::words::Words;
use crate::{Line, Reason};
use plan_items::Item;

/// The most items of a draft.
const MOST_DRAFT: usize = 2000;

/// The x of the last of `n` items, which are one unit apart, is above 32 bits.
fn leaves_range(n: u64, first: Item) -> bool
    requires some { 1 ≤ n }
    requires few { n ≤ 2000 }
    ensures { result ≡ leaves_range n first }
{
    i64::from(first.x) + (n as i64 - 1) > i64::from(i32::MAX)
}

/// `item F C X Y [Z [P1 [P2 [P3 [P4]]]]]`
pub(crate) fn read_item(drafted: usize, words: &Words) -> Result<Line, Reason>
    ensures { result ≡ read_one_item drafted words.now }
{
    if words.len() < 5 {
        return Err(Reason::Count);
    }
    if words.len() > 10 {
        return Err(Reason::Count);
    }
    let item = words.item(1)?;
    if drafted >= MOST_DRAFT {
        return Err(Reason::Draft);
    }
    Ok(Line::Item { item })
}

/// `items N F C X Y [Z [P1 [P2 [P3 [P4]]]]]`
pub(crate) fn read_items(drafted: usize, words: &Words) -> Result<Line, Reason>
    ensures { result ≡ read_items drafted words.now }
{
    if words.len() < 6 {
        return Err(Reason::Count);
    }
    if words.len() > 11 {
        return Err(Reason::Count);
    }
    let n = words.whole(1, 1, 2000)?;
    let first = words.item(2)?;
    if leaves_range(n, first) {
        return Err(Reason::Range);
    }
    if drafted > MOST_DRAFT - n as usize {
        return Err(Reason::Draft);
    }
    Ok(Line::Items { n, first })
}
