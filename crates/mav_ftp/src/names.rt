// Names of files.
ghost use Rattle.std.specs.Prelude.{◌≡◌, ◌++◌, ◌≤◌, if◌then◌else◌, length, drop, Some, None};
ghost use Rattle.mav_ftp.specs.Payload.{is_file_name};

use crate::payload::is_file_name;
use std::marker::Model;

/// A name of 1 to 64 bytes.
#[derive(Drop)]
pub struct FileName {
    bytes: [u8; 64],
    len: usize,
}

impl Model for FileName {
    ghost use Rattle.std.specs.Prelude.{◌≡◌, ◌≤◌, ℕ, List, take, true};
    ghost use Rattle.mav_ftp.specs.Payload.{is_file_name};

    ghost Value = { List ℕ };

    ghost view = { λ n. take n.len n.bytes };

    ghost invariant = { λ n. (n.len ≤ 64) × (is_file_name (take n.len n.bytes) ≡ true) };
}

// Writes a name at the start.
fn fill(bytes: &mut [u8; 64], name: &[u8])
    requires { length name.now ≤ 64 }
    ensures { bytes.new ≡ name.now ++ drop (length name.now) bytes.old }
{
    bytes[..name.len()].copy_from_slice(name);
}

impl FileName {
    /// The name of these bytes, if they are one.
    pub fn of(name: &[u8]) -> Option<FileName>
        ensures { result ≡ (if is_file_name name.now then Some name.now else None) }
    {
        if !is_file_name(name) {
            return None;
        }
        let mut bytes = [0; 64];
        fill(&mut bytes, name);
        Some(FileName {
            bytes,
            len: name.len(),
        })
    }

    pub fn as_bytes(&self) -> &[u8]
        ensures name { result.now ≡ self.now }
        ensures short { length result.now ≤ 64 }
    {
        &self.bytes[..self.len]
    }
}
