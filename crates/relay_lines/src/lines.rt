// Lines that wait to be written.
ghost use Rattle.std.specs.Prelude.{◌≡◌, ◌+◌, ◌^◌, ◌<◌, ◌≤◌, ◌++◌, ◌∷◌, [], List, ℕ, length, nat_lt, IfOk, true};
ghost use Rattle.relay_lines.specs.Lines.{first_line, line_put, line_written, lines_of, lost_before, one_lost, tell};
ghost use Rattle.relay_lines.specs.Lines as spec;

use crate::NoMemory;
use itoa::Buffer;
use mav_stream::Window;
use memchr::memchr;
use std::alloc::Global;
use std::marker::Model;

// At most so many bytes wait.
const LIMIT: usize = 65_536;

// The bytes of a line that tells how many were lost, without the digits.
const LOST_BYTES: usize = 12;

/// The lines that aren't written yet, in their order, and how many were lost since the last one that tells it.
pub struct WaitingLines {
    bytes: Box<Window<LIMIT>>,
    lost: u64,
}

// By hand, so that whoever drops them proves one call.
impl Drop for WaitingLines {
    fn drop(self) {
        let WaitingLines {
            bytes: _bytes,
            lost: _,
        } = self;
    }
}

impl Model for WaitingLines {
    ghost use Rattle.relay_lines.specs.Lines.{LinesState, lines_of};

    ghost Value = { LinesState };

    ghost view = { λ lines. lines_of lines.bytes.value lines.lost };
}

// How many bytes tell that so many lines were lost.
fn lost_length(lost: u64) -> usize
    ensures size { result ≡ length (lost_before lost) }
    ensures few { result ≤ 32 }
{
    if lost == 0 {
        return 0;
    }
    let mut digits = Buffer::new();
    LOST_BYTES + digits.format(lost).len()
}

// Appends what tells that so many lines were lost.
fn append_lost(bytes: &mut Window<LIMIT>, lost: u64)
    requires some { 0 < lost }
    requires room { length bytes.old + length (lost_before lost) ≤ 65536 }
    ensures { bytes.new ≡ bytes.old ++ lost_before lost }
{
    let mut digits = Buffer::new();
    let number = digits.format(lost).as_bytes();
    bytes.append(b"lines lost ");
    bytes.append(number);
    bytes.append(b"\n");
}

impl WaitingLines {
    /// No line waits, and none was lost.
    pub fn new(alloc: Global) -> Result<WaitingLines, NoMemory>
        ensures { IfOk result (λ lines. lines ≡ lines_of [] 0) }
    {
        let bytes = Box::new(alloc, Window::new())?;
        Ok(WaitingLines { bytes, lost: 0 })
    }

    /// Whether no line waits; then none was lost either.
    pub fn is_empty(&self) -> bool
        ensures empty { result ≡ spec.is_empty self.now }
        ensures few { self.now.lost < 2 ^ 64 }
    {
        let _lost = self.lost;
        self.bytes.bytes().len() == 0
    }

    /// Has a line wait, with its end, or counts it as lost.
    pub fn put(&mut self, line: &[u8])
        ensures { self.new ≡ line_put line.now self.old }
    {
        if self.has_room(line) {
            self.tell();
            self.bytes.append(line);
            return;
        }
        self.lost = self.lost.saturating_add(1);
        self.tell_last();
    }

    /// The bytes to write next: a line, or the rest of one of which a part was written.
    pub fn next_line(&self) -> &[u8]
        ensures { result.now ≡ first_line self.now.waiting }
    {
        let bytes = self.bytes.bytes();
        match memchr(b'\n', bytes) {
            Some(at) => &bytes[..at + 1],
            None => bytes,
        }
    }

    /// So many of the bytes to write next were written.
    pub fn wrote(&mut self, count: usize)
        requires { count ≤ length (first_line self.old.waiting) }
        ensures { self.new ≡ line_written count self.old }
    {
        self.bytes.remove(count);
        self.tell_last();
    }

    // Whether there is room for a line, and before it for how many were lost.
    fn has_room(&self, line: &[u8]) -> bool
        ensures { result ≡ spec.has_room line.now self.now }
    {
        self.bytes.bytes().len() + lost_length(self.lost) + line.len() <= LIMIT
    }

    // Says how many lines were lost, if any were, after those that wait.
    fn tell(&mut self)
        requires { length (tell self.old).waiting ≤ 65536 }
        ensures { self.new ≡ tell self.old }
    {
        if self.lost > 0 {
            append_lost(&mut self.bytes, self.lost);
            self.lost = 0;
        }
    }

    // Says how many lines were lost, once no other line waits.
    fn tell_last(&mut self)
        ensures { self.new ≡ spec.tell_last self.old }
    {
        if self.is_empty() {
            self.tell();
        }
    }
}
