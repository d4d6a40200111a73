// The words for names and kinds.
ghost use Rattle.std.specs.Prelude.{◌≡◌, position};
ghost use Rattle.std.specs.Str.{bytes_eq};
ghost use Rattle.scenario_lines.specs.Words.{is_point, name_of_word};
ghost use Rattle.scenario_lines.specs.Grammar.{kind_word, kind_or_all};

use crate::numbers::number;
use mav_names::Name;
use plan_items::PlanKind;

pub fn is_word(word: &[u8], text: &str) -> bool
    ensures { result ≡ bytes_eq word.now text.now }
{
    word == text.as_bytes()
}

fn first_point(word: &[u8]) -> Option<usize>
    ensures { result ≡ position is_point word.now }
{
    word.iter().position(|byte| *byte == b'.')
}

/// A node's name: system and component, with a point between.
pub(crate) fn name(word: &[u8]) -> Option<Name>
    ensures { result ≡ name_of_word word.now }
{
    let point = first_point(word)?;
    let sys = number(&word[..point], 0, 255)?;
    let comp = number(&word[point + 1..], 0, 255)?;
    Some(Name {
        sys: sys as u8,
        comp: comp as u8,
    })
}

pub(crate) fn kind(word: &[u8]) -> Option<PlanKind>
    ensures { result ≡ kind_word word.now }
{
    if is_word(word, "mission") {
        Some(PlanKind::Mission)
    } else if is_word(word, "fence") {
        Some(PlanKind::Fence)
    } else if is_word(word, "rally") {
        Some(PlanKind::Rally)
    } else {
        None
    }
}

/// A kind, or None for all kinds.
pub(crate) fn kind_or_all(word: &[u8]) -> Option<Option<PlanKind>>
    ensures { result ≡ kind_or_all word.now }
{
    if is_word(word, "all") {
        return Some(None);
    }
    Some(Some(kind(word)?))
}
