// What a disk in memory held, and where it wasn't synced.
ghost use Rattle.std.specs.Prelude.{◌≡◌};
ghost use Rattle.slot_store.specs.MemDisks.{is_covered};

/// The offsets from `start` on before `end`.
#[derive(Clone, Copy)]
pub(crate) struct Range {
    pub(crate) start: u64,
    pub(crate) end: u64,
}

/// The disk between two calls: its bytes, and the ranges that weren't synced.
#[derive(Drop)]
pub(crate) struct Moment {
    pub(crate) bytes: Vec<u8>,
    pub(crate) ranges: Vec<Range>,
}

pub(crate) fn is_covered(ranges: &[Range], offset: u64) -> bool
    ensures { result ≡ is_covered ranges.now offset }
{
    ranges
        .iter()
        .any(|range| range.start <= offset && offset < range.end)
}
