// Layouts by their ids and by their indices.
ghost use Rattle.std.specs.Prelude.{◌≡◌, ◌∷◌, ◌++◌, [], false, length, slice_get, OnOk, OnErr};
ghost use Rattle.std.specs.Option.{option_copied};
ghost use Rattle.dialect.specs.Grammar.{has_id};
ghost use Rattle.dialect.specs.Indices.{index_with};
ghost use Rattle.mav_profile.specs.Messages.{definition_with};

use crate::NoMemory;
use field_layout::Layout;
use std::alloc::Global;
use std::collections::HashMap;
use std::marker::Model;

/// Layouts of different ids in the order in which they were added. Contracts see the list of their definitions.
#[derive(Drop)]
pub(crate) struct Layouts {
    // The index of each layout by its id.
    indices: HashMap<u32, usize>,
    layouts: Vec<Layout>,
}

impl Model for Layouts {
    ghost use Rattle.std.specs.Prelude.{◌≡◌, ◌==◌, List, ℕ};
    ghost use Rattle.std.specs.HashMap.{get};
    ghost use Rattle.field_layout.specs.Definition.{Definition};
    ghost use Rattle.dialect.specs.Indices.{index_with};

    ghost Value = { List Definition };

    ghost view = { λ l. l.layouts.items };

    ghost invariant = { λ l. (id : ℕ) → get ◌==◌ l.indices id ≡ index_with id l.layouts.items };
}

impl Layouts {
    pub(crate) fn new(alloc: Global) -> Layouts
        ensures { result ≡ [] }
    {
        Layouts {
            indices: HashMap::new(alloc),
            layouts: Vec::new(alloc),
        }
    }

    /// Drops them where nothing else is owned.
    pub(crate) fn discard(self) {}

    pub(crate) fn has(&self, id: u32) -> bool
        ensures { result ≡ has_id self.now id }
    {
        self.index_of(id).is_some()
    }

    /// Appends a layout of another id. If there is no memory for it nothing has changed.
    pub(crate) fn add(&mut self, layout: Layout) -> Result<(), NoMemory>
        requires { has_id self.old layout.id ≡ false }
        ensures added { OnOk result (self.new ≡ self.old ++ layout ∷ []) }
        ensures unchanged { OnErr result (self.new ≡ self.old) }
    {
        self.layouts.reserve(1)?;
        self.indices.insert(layout.def().id, self.layouts.len())?;
        self.layouts.push(layout).unwrap();
        Ok(())
    }

    /// The index of the layout of an id, found by its hash.
    pub(crate) fn index_of(&self, id: u32) -> Option<usize>
        ensures { result ≡ index_with id self.now }
    {
        self.indices.get(&id).copied()
    }

    /// The layout of an id, found by its hash.
    pub(crate) fn get(&self, id: u32) -> Option<&Layout>
        ensures { option_copied result ≡ definition_with id self.now }
    {
        let index = self.index_of(id)?;
        self.at(index)
    }

    /// The layout at an index in the order in which they were added.
    #[inline]
    pub(crate) fn at(&self, index: usize) -> Option<&Layout>
        ensures { option_copied result ≡ slice_get self.now index }
    {
        self.layouts.get(index)
    }

    pub(crate) fn as_slice(&self) -> &[Layout]
        ensures { result.now ≡ self.now }
    {
        &self.layouts
    }

    pub(crate) fn len(&self) -> usize
        ensures { result ≡ length self.now }
    {
        self.layouts.len()
    }
}
