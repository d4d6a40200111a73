// The values of a message's fields.
ghost use Rattle.std.specs.Prelude.{◌≡◌, ◌<◌, length, map};
ghost use Rattle.field_layout.specs.Payload.{words_at};
ghost use Rattle.field_layout.specs.Words.{items_of};

use std::marker::Model;

/// The values of a message: for each field, in definition order with the extensions last, its elements as raw words.
/// A signed number or a float is the word of its bits, in the element's size. Contracts see the list of these lists.
#[derive(Drop)]
pub struct Values {
    words: Vec<Vec<u64>>,
}

impl Model for Values {
    ghost use Rattle.std.specs.Prelude.{ℕ, List, map};
    ghost use Rattle.field_layout.specs.Words.{items_of};

    ghost Value = { List (List ℕ) };

    ghost view = { λ v. map items_of v.words.items };
}

impl Values {
    pub fn new(words: Vec<Vec<u64>>) -> Values
        ensures { result ≡ map items_of words.items }
    {
        Values { words }
    }

    /// The words of a field.
    pub fn field(&self, field: usize) -> &[u64]
        requires { field < length self.now }
        ensures { result.now ≡ words_at self.now field }
    {
        let words = self.words.as_slice();
        &words[field]
    }

    /// The words of all fields, moved out.
    pub fn into_words(self) -> Vec<Vec<u64>>
        ensures { map items_of result.items ≡ self }
    {
        self.words
    }
}
