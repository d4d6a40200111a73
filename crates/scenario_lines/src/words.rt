// The words of a line, and what each of them says.
ghost use Rattle.std.specs.Prelude.{◌≡◌, IfOk};

use crate::NoMemory;
use std::alloc::Global;
use std::marker::Model;

/// The words of a line, which one space parts.
#[derive(Drop)]
pub struct Words<'a> {
    words: Vec<&'a [u8]>,
}

impl<'a> Model for Words<'a> {
    ghost use Rattle.std.specs.Prelude.{List, ℕ, map};

    ghost Value = { List (List ℕ) };

    ghost view = { λ w. map (λ word. word.now) w.words.items };
}

impl<'a> Words<'a> {
    ghost use Rattle.std.specs.Prelude.{length};
    ghost use Rattle.scenario_lines.specs.Words.{words_of, word_at};

    pub fn of(alloc: Global, text: &'a [u8]) -> Result<Words<'a>, NoMemory>
        ensures { IfOk result (λ words. words ≡ words_of text.now) }
    {
        Ok(Words {
            words: text.split(|byte| *byte == b' ').collect(alloc)?,
        })
    }

    pub fn len(&self) -> usize
        ensures { result ≡ length self.now }
    {
        self.words.len()
    }

    /// The word at an index, from 0, and no byte past the last one.
    pub fn at(&self, index: usize) -> &[u8]
        ensures { result.now ≡ word_at self.now index }
    {
        match self.words.get(index) {
            Some(word) => *word,
            None => b"",
        }
    }
}
