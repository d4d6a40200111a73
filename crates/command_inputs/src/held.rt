// The line that the bytes taken so far left unfinished.
ghost use Rattle.std.specs.Prelude.{◌≡◌, ◌≤◌, [], vec_len, IfOk};

use mav_ports::NoMemory;
use std::alloc::Global;

pub(crate) const MOST_LINE_BYTES: usize = 4096;

/// A line that is held unfinished.
#[derive(Drop)]
pub(crate) struct HeldLine {
    /// The bytes after the last LF.
    pub(crate) bytes: Vec<u8>,
    /// The number of the line that these begin, counted from 1.
    pub(crate) number: usize,
    ghost short: { vec_len bytes ≤ 4096 },
    ghost few: { number ≤ 100001 },
}

impl HeldLine {
    /// The start of the first line.
    pub(crate) fn new(alloc: Global) -> Result<HeldLine, NoMemory>
        ensures { IfOk result (λ held. (held.number ≡ 1) × (held.bytes.items ≡ [])) }
    {
        Ok(HeldLine {
            bytes: Vec::with_capacity(alloc, MOST_LINE_BYTES)?,
            number: 1,
        })
    }
}
