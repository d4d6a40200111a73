// What a port is read into.
ghost use Rattle.std.specs.Prelude.{◌≡◌, ◌+◌, ◌≤◌, true, length, take, slice_range, IfOk};
ghost use Rattle.std.specs.Io.KnownBytes.{prepend_known};
ghost use Rattle.mav_ports.specs.Gets.{given, idles_after, CountsFault, GivesWithin, IsSpent};

use crate::NoMemory;
use crate::lane::{BUFFER, PIECE};
use mav_links::Link;
use mav_ports::Got;
use std::alloc::Global;
use std::marker::Model;
use std::mem;

/// Room for the bytes of a read, after those that the port's reader held.
#[derive(Drop)]
pub(crate) struct Buffer {
    bytes: Vec<u8>,
}

impl Model for Buffer {
    ghost use Rattle.std.specs.Prelude.{◌≡◌, ℕ, List, length};

    ghost Value = { List ℕ };

    ghost view = { λ b. b.bytes.items };

    ghost invariant = { λ b. length b.bytes.items ≡ 4376 };
}

// Puts some bytes at a buffer's start, and returns how many.
fn put_first(buf: &mut [u8], bytes: &[u8]) -> usize
    requires { length bytes.now ≤ length buf.old }
    ensures count { result ≡ length bytes.now }
    ensures first { take result buf.new ≡ bytes.now }
{
    let count = bytes.len();
    buf[..count].copy_from_slice(bytes);
    count
}

// Reads the next bytes of a link into a buffer after its first ones.
fn read_after<L: Link>(link: &mut L, buf: &mut [u8], held: usize) -> Got
    requires { held + 4096 ≤ length buf.old }
    ensures within { GivesWithin result (slice_range buf.new held (held + 4096)) }
    ensures first { take held buf.new ≡ take held buf.old }
    ensures bytes { (L.state link.old).left ≡ prepend_known (given result (slice_range buf.new held (held + 4096)))
        (L.state link.new).left }
    ensures faults { CountsFault result (L.state link.old).faults (L.state link.new).faults }
    ensures idles { (L.state link.new).idles ≡ idles_after result (L.state link.old).idles }
    ensures end { result ≡ Got.End → IsSpent (L.state link.new).left }
    ensures ended { result ≡ Got.End → (L.state link.new).ended ≡ true }
    ensures sent { (L.state link.new).sent ≡ (L.state link.old).sent }
{
    link.read(&mut buf[held..held + PIECE])
}

impl Buffer {
    pub(crate) fn new(alloc: Global) -> Result<Buffer, NoMemory> {
        Ok(Buffer {
            bytes: vec![in alloc; 0u8; BUFFER]?,
        })
    }

    pub(crate) fn bytes(&self) -> &[u8]
        ensures bytes { result.now ≡ self.now }
        ensures all { length result.now ≡ 4376 }
    {
        &self.bytes
    }

    /// Puts some bytes at the start, and returns how many.
    pub(crate) fn put_first(&mut self, bytes: &[u8]) -> usize
        requires { length bytes.now ≤ 280 }
        ensures count { result ≡ length bytes.now }
        ensures first { take result self.new ≡ bytes.now }
    {
        put_first(self.bytes.as_mut_slice(), bytes)
    }

    /// Reads a link once, at most 4,096 bytes, after the first ones.
    pub(crate) fn read_after<L: Link>(&mut self, link: &mut L, held: usize) -> Got
        requires { held ≤ 280 }
        ensures within { GivesWithin result (slice_range self.new held (held + 4096)) }
        ensures first { take held self.new ≡ take held self.old }
        ensures bytes { (L.state link.old).left ≡ prepend_known
            (given result (slice_range self.new held (held + 4096)))
            (L.state link.new).left }
        ensures faults { CountsFault result (L.state link.old).faults (L.state link.new).faults }
        ensures idles { (L.state link.new).idles ≡ idles_after result (L.state link.old).idles }
        ensures end { result ≡ Got.End → IsSpent (L.state link.new).left }
        ensures ended { result ≡ Got.End → (L.state link.new).ended ≡ true }
        ensures sent { (L.state link.new).sent ≡ (L.state link.old).sent }
        ensures size { length self.new ≡ 4376 }
    {
        read_after(link, self.bytes.as_mut_slice(), held)
    }

    /// Gives the first bytes away, as they stand in memory, and takes new room in their place.
    pub(crate) fn give(&mut self, alloc: Global, size: usize) -> Result<Vec<u8>, NoMemory>
        ensures { IfOk result (λ bytes. bytes.items ≡ take size self.old) }
    {
        let room = vec![in alloc; 0u8; BUFFER]?;
        let mut bytes = mem::replace(&mut self.bytes, room);
        bytes.truncate(size);
        Ok(bytes)
    }
}
