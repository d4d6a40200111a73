// The messages that were read.
ghost use Rattle.std.specs.Prelude.{◌≡◌, ◌∷◌, ◌++◌, [], false, length, OnOk};
ghost use Rattle.dialect.specs.Grammar.{has_id, has_name};

use crate::NoMemory;
use crate::layouts::Layouts;
use crate::name_set::NameSet;
use field_layout::Layout;
use std::alloc::Global;
use std::marker::Model;

/// Layouts of different ids and names. Contracts see the list of their definitions.
#[derive(Drop)]
pub(crate) struct Known {
    layouts: Layouts,
    names: NameSet,
}

impl Model for Known {
    ghost use Rattle.std.specs.Prelude.{◌≡◌, List, map};
    ghost use Rattle.field_layout.specs.Definition.{Definition};
    ghost use Rattle.mav_profile.specs.Messages.{name_of};

    ghost Value = { List Definition };

    ghost view = { λ k. k.layouts };

    ghost invariant = { λ k. k.names ≡ map name_of k.layouts };
}

impl Known {
    pub(crate) fn new(alloc: Global) -> Known
        ensures { result ≡ [] }
    {
        Known {
            layouts: Layouts::new(alloc),
            names: NameSet::new(alloc),
        }
    }

    pub(crate) fn len(&self) -> usize
        ensures { result ≡ length self.now }
    {
        self.layouts.len()
    }

    pub(crate) fn has_id(&self, id: u32) -> bool
        ensures { result ≡ has_id self.now id }
    {
        self.layouts.has(id)
    }

    pub(crate) fn has_name(&self, name: &[u8]) -> bool
        ensures { result ≡ has_name self.now name.now }
    {
        self.names.has(name)
    }

    /// Appends a message of another id and name.
    pub(crate) fn add(&mut self, layout: Layout) -> Result<(), NoMemory>
        requires id { has_id self.old layout.id ≡ false }
        requires name { has_name self.old layout.name ≡ false }
        ensures { OnOk result (self.new ≡ self.old ++ layout ∷ []) }
    {
        let count = self.layouts.len();
        self.names.add(layout.def().name.bytes())?;
        let added = self.layouts.add(layout);
        if added.is_err() {
            self.names.cut(count);
        }
        added
    }

    pub(crate) fn into_layouts(self) -> Layouts
        ensures { result ≡ self }
    {
        self.layouts
    }
}
