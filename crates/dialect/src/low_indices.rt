// The indices of the messages with low ids.
ghost use Rattle.std.specs.Prelude.{◌≡◌, ◌<◌, length, slice_get, Some, IfOk};
ghost use Rattle.dialect.specs.Indices.{AreIndices};

use crate::NoMemory;
use crate::layouts::Layouts;
use std::alloc::Global;

/// How many ids have an entry of their own. Most messages have a lower one.
pub(crate) const LOW_IDS: u32 = 1024;

/// For each low id the index of its layout, if there is one.
pub(crate) fn low_indices(alloc: Global, layouts: &Layouts) -> Result<Vec<Option<usize>>, NoMemory>
    ensures count { IfOk result (λ indices. length indices.items ≡ 1024) }
    ensures are { IfOk result (λ indices. AreIndices layouts.now indices.items) }
{
    let mut indices = Vec::new(alloc);
    for id in 0..LOW_IDS {
        indices.push(layouts.index_of(id))?;
    }
    Ok(indices)
}

/// The index that was kept for an id.
#[inline]
pub(crate) fn index_at(indices: &[Option<usize>], id: u32) -> Option<usize>
    requires { id < length indices.now }
    ensures { slice_get indices.now id ≡ Some result }
{
    indices[id as usize]
}
