// How the lines of items are written.
ghost use Rattle.std.specs.Prelude.{◌≡◌, ◌++◌, string_bytes, Some, OnOk};
ghost use Rattle.plan_items.specs.Plans.{items_of};
ghost use Rattle.fleet_report.specs.Parts.{place_text};
ghost use Rattle.fleet_report.specs.Texts.{word_text, words_text, item_text, items_text};

use crate::NoMemory;
use plan_items::{Item, Plan};
use std::fmt;

/// A word of 32 bits, the highest digit first.
#[derive(Drop)]
struct WordText(u32);

impl fmt::Display for WordText {
    ghost output = { λ text. Some (word_text text.0) };

    #[tactic(auto, using(crate::proofs::WordDigits::word_padded))]
    fn fmt<W: fmt::Write>(&self, f: &mut fmt::Formatter<W>) -> fmt::Result {
        let word = self.0;
        write!(f, "{word:08x}")
    }
}

/// The words of an item's params, a space after each.
#[derive(Drop)]
struct ParamsText([u32; 4]);

impl fmt::Display for ParamsText {
    ghost output = { λ text. Some (words_text text.0) };

    fn fmt<W: fmt::Write>(&self, f: &mut fmt::Formatter<W>) -> fmt::Result {
        let [p1, p2, p3, p4] = self.0;
        write!(
            f,
            "{} {} {} {} ",
            WordText(p1),
            WordText(p2),
            WordText(p3),
            WordText(p4)
        )
    }
}

/// The end of an item's line: its params and its position.
#[derive(Drop)]
struct PlaceText(Item);

impl fmt::Display for PlaceText {
    ghost output = { λ text. Some (place_text text.0) };

    fn fmt<W: fmt::Write>(&self, f: &mut fmt::Formatter<W>) -> fmt::Result {
        let item = self.0;
        writeln!(
            f,
            "{}{} {} {}",
            ParamsText(item.p),
            item.x,
            item.y,
            WordText(item.z)
        )
    }
}

/// The line of an item, with its number in the plan from 0.
#[derive(Drop)]
struct ItemText {
    seq: usize,
    item: Item,
}

impl fmt::Display for ItemText {
    ghost output = { λ text. Some (item_text text.seq text.item) };

    fn fmt<W: fmt::Write>(&self, f: &mut fmt::Formatter<W>) -> fmt::Result {
        let (seq, item) = (self.seq, self.item);
        write!(
            f,
            "{seq} {} {} {} {} {}",
            item.frame,
            item.command,
            item.current,
            item.autocontinue,
            PlaceText(item)
        )
    }
}

/// Writes the lines of a plan's items.
pub(crate) fn put_items(text: &mut String, plan: &Plan) -> Result<(), NoMemory>
    ensures { OnOk result (string_bytes text.new ≡ string_bytes text.old ++ items_text 0 (items_of plan.now)) }
{
    for (seq, item) in plan.as_slice().iter().enumerate() {
        let line = ItemText { seq, item: *item };
        write!(text, "{line}")?;
    }
    Ok(())
}
