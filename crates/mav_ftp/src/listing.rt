// The data of a listing.
ghost use Rattle.std.specs.Prelude.{◌≡◌, ◌+◌, ◌≤◌, ◌++◌, [], nat_le, if◌then◌else◌, length, take};
ghost use Rattle.mav_ftp.specs.Payload.{most_data};
ghost use Rattle.mav_ftp.specs.Listing.{entry, entries_within, is_root};

use crate::files::StoredFile;
use crate::payload::MAX_DATA_BYTES;
use itoa::Buffer;
use std::marker::Model;

/// At most 239 bytes, seen as their list.
#[derive(Drop)]
pub struct ReplyData {
    bytes: [u8; 239],
    len: usize,
}

impl Model for ReplyData {
    ghost use Rattle.std.specs.Prelude.{◌≤◌, ℕ, List, take};

    ghost Value = { List ℕ };

    ghost view = { λ d. take d.len d.bytes };

    ghost invariant = { λ d. d.len ≤ 239 };
}

// Writes bytes at an offset.
fn put(buffer: &mut [u8; 239], at: usize, bytes: &[u8])
    requires { at + length bytes.now ≤ 239 }
    ensures { take (at + length bytes.now) buffer.new ≡ take at buffer.old ++ bytes.now }
{
    buffer[at..at + bytes.len()].copy_from_slice(bytes);
}

impl ReplyData {
    fn new() -> ReplyData
        ensures { result ≡ [] }
    {
        ReplyData {
            bytes: [0; 239],
            len: 0,
        }
    }

    pub fn as_bytes(&self) -> &[u8]
        ensures bytes { result.now ≡ self.now }
        ensures few { length result.now ≤ most_data }
    {
        &self.bytes[..self.len]
    }

    fn append(&mut self, bytes: &[u8])
        requires { length self.old + length bytes.now ≤ 239 }
        ensures { self.new ≡ self.old ++ bytes.now }
    {
        put(&mut self.bytes, self.len, bytes);
        self.len += bytes.len();
    }

    // Appends the entry of a file, if it fits.
    fn append_entry(&mut self, file: &StoredFile) -> bool
        ensures fits { result ≡ nat_le (length self.old + length (entry file.now)) 239 }
        ensures bytes { self.new ≡ (if result then self.old ++ entry file.now else self.old) }
    {
        let mut digits = Buffer::new();
        let size = digits.format(file.bytes().len() as u64).as_bytes();
        let name = file.name();
        if self.len + name.len() + size.len() + 3 > MAX_DATA_BYTES {
            return false;
        }
        self.append(b"F");
        self.append(name);
        self.append(b"\t");
        self.append(size);
        self.append(b"\0");
        true
    }
}

/// As many entries of the files as fit.
pub fn list_entries(files: &[StoredFile]) -> ReplyData
    ensures { result ≡ entries_within most_data files.now }
{
    let mut list = ReplyData::new();
    for file in files {
        if !list.append_entry(file) {
            return list;
        }
    }
    list
}

/// Whether a path is that of the one directory.
pub fn is_root(path: &[u8]) -> bool
    ensures { result ≡ is_root path.now }
{
    matches!(path, [] | [b'/'])
}
