// Writes of all bytes to a link.
ghost use Rattle.std.specs.Prelude.{◌≡◌, ◌<◌, ◌≤◌, length, take, OnOk, OnErr};
ghost use Rattle.std.specs.Io.KnownBytes.{append_known};
ghost use Rattle.mav_ports.specs.Counts.{Rose};
ghost use Rattle.mav_ports.specs.Puts.{SentPrefix};

use crate::Link;
use mav_ports::{Put, WriteFault};

/// Writes all the bytes, or stops at the first write that fails, and returns how many were taken. No bytes at all need
/// no write.
pub fn write_prefix<L: Link>(link: &mut L, bytes: &[u8]) -> usize
    ensures within { result ≤ length bytes.now }
    ensures sent { (L.state link.new).sent ≡ append_known (L.state link.old).sent (take result bytes.now) }
    ensures same { result ≡ length bytes.now → (L.state link.new).faults ≡ (L.state link.old).faults }
    ensures rose { result < length bytes.now → Rose (L.state link.old).faults (L.state link.new).faults }
    ensures left { (L.state link.new).left ≡ (L.state link.old).left }
    ensures idles { (L.state link.new).idles ≡ (L.state link.old).idles }
    ensures pauses { (L.state link.new).pauses ≡ (L.state link.old).pauses }
    ensures ended { (L.state link.new).ended ≡ (L.state link.old).ended }
{
    let mut done = 0;
    while done < bytes.len() {
        match link.write(&bytes[done..]) {
            Put::Took(count) => done += count,
            Put::Failed => return done,
        }
    }
    done
}

/// Writes all the bytes, or stops at the first write that fails.
pub fn write_link(link: &mut Box<dyn Link>, bytes: &[u8]) -> Result<(), WriteFault>
    ensures ok { OnOk result ((state link.new).sent ≡ append_known (state link.old).sent bytes.now) }
    ensures same { OnOk result ((state link.new).faults ≡ (state link.old).faults) }
    ensures rose { OnErr result (Rose (state link.old).faults (state link.new).faults) }
    ensures front { SentPrefix (state link.old).sent (state link.new).sent bytes.now }
{
    if write_prefix(link, bytes) == bytes.len() {
        Ok(())
    } else {
        Err(WriteFault)
    }
}
