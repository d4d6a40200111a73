// Dialects.
ghost use Rattle.std.specs.Prelude.{◌≡◌, ◌≢◌, ◌↔◌, length, slice_get, IsTrue, IfOk, IfErr};
ghost use Rattle.std.specs.Option.{option_copied};
ghost use Rattle.dialect.specs.Grammar.{definitions_of};
ghost use Rattle.mav_profile.specs.Messages.{definition_with, extras_of};
ghost use Rattle.mav_profile.specs.Profile.{profile_definitions};

use crate::layouts::Layouts;
use crate::low_indices::{LOW_IDS, index_at, low_indices};
use crate::profile::profile_layouts;
use crate::reading::read_layouts;
use crate::{DialectFault, NoMemory};
use field_layout::Layout;
use std::alloc::Global;
use std::collections::BTreeMap;
use std::marker::Model;
use x25_check::Extras;

/// Messages of different ids and names with their layouts. Contracts see the list of their definitions in the order
/// read.
pub struct Dialect {
    layouts: Layouts,
    // For each id below 1,024 the index of its message, if there is one.
    low: Vec<Option<usize>>,
    extras: Extras,
}

// By hand, so that whoever drops a dialect proves one call.
impl Drop for Dialect {
    fn drop(self) {
        let Dialect {
            layouts,
            low: _low,
            extras: _extras,
        } = self;
        layouts.discard();
    }
}

impl Model for Dialect {
    ghost use Rattle.std.specs.Prelude.{◌≡◌, List, length};
    ghost use Rattle.field_layout.specs.Definition.{Definition};
    ghost use Rattle.mav_profile.specs.Messages.{extras_of};
    ghost use Rattle.dialect.specs.Indices.{AreIndices};

    ghost Value = { List Definition };

    ghost view = { λ d. d.layouts };

    ghost invariant = { λ d. (d.extras ≡ extras_of d.layouts) × (length d.low.items ≡ 1024)
        × AreIndices d.layouts d.low.items };
}

// The CRC_EXTRA of each message by its id.
fn extras(alloc: Global, layouts: &[Layout]) -> Result<Extras, NoMemory>
    ensures { IfOk result (λ extras. extras ≡ extras_of layouts.now) }
{
    let mut by_id = BTreeMap::new(alloc);
    for layout in layouts {
        by_id.insert(layout.def().id, layout.crc_extra())?;
    }
    Ok(Extras::new(by_id.into_iter().collect(alloc)?))
}

impl Dialect {
    /// Reads definitions as JSON, and returns their first fault; want of memory may come at any point.
    pub fn read(alloc: Global, bytes: &[u8]) -> Result<Dialect, DialectFault>
        ensures read { IfOk result (λ dialect. definitions_of bytes.now ≡ Ok dialect) }
        ensures fault { IfErr result
            (λ fault. fault ≢ DialectFault.NoMemory → definitions_of bytes.now ≡ Err fault) }
    {
        let layouts = read_layouts(alloc, bytes)?;
        Ok(Dialect::of(alloc, layouts)?)
    }

    /// The messages of the profile.
    pub fn profile(alloc: Global) -> Result<Dialect, NoMemory>
        ensures { IfOk result (λ dialect. dialect ≡ profile_definitions) }
    {
        Dialect::of(alloc, profile_layouts(alloc)?)
    }

    // The dialect of layouts.
    fn of(alloc: Global, layouts: Layouts) -> Result<Dialect, NoMemory>
        ensures { IfOk result (λ dialect. dialect ≡ layouts) }
    {
        let extras = extras(alloc, layouts.as_slice())?;
        let low = low_indices(alloc, &layouts)?;
        Ok(Dialect {
            layouts,
            low,
            extras,
        })
    }

    /// The layout of a message id, found without a scan.
    #[inline]
    pub fn get(&self, id: u32) -> Option<&Layout>
        ensures { option_copied result ≡ definition_with id self.now }
    {
        if id < LOW_IDS {
            let index = index_at(&self.low, id)?;
            return self.layouts.at(index);
        }
        self.layouts.get(id)
    }

    /// The layout of the message at an index, in the order read.
    pub fn at(&self, index: usize) -> Option<&Layout>
        ensures { option_copied result ≡ slice_get self.now index }
    {
        self.layouts.at(index)
    }

    /// How many messages it has.
    pub fn len(&self) -> usize
        ensures { result ≡ length self.now }
    {
        self.layouts.len()
    }

    /// Whether it has no message.
    pub fn is_empty(&self) -> bool
        ensures { IsTrue result ↔ (length self.now ≡ 0) }
    {
        self.len() == 0
    }

    /// The CRC_EXTRA byte of each message id.
    pub fn extras(&self) -> &Extras
        ensures { result.now ≡ extras_of self.now }
    {
        &self.extras
    }
}
