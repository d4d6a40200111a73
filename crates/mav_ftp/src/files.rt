// The files of a server.
ghost use Rattle.std.specs.Prelude.{◌≡◌, ◌<◌, ◌≤◌, [], ◌∷◌, ◌++◌, length, nat_lt, not, drop, position, IfOk, IfSome};
ghost use Rattle.std.specs.List.{remove};
ghost use Rattle.std.specs.Option.{option_map};
ghost use Rattle.mav_ftp.specs.Payload.{most_file};
ghost use Rattle.mav_ftp.specs.Files.{is_named, file_at, bytes_named, most_files};

use crate::NoMemory;
use crate::names::FileName;
use std::alloc::Global;
use std::marker::Model;

// The most files of a server.
const MAX_FILES: usize = 64;

/// A file of at most 1,048,576 bytes.
#[derive(Drop)]
pub struct StoredFile {
    name: FileName,
    bytes: Vec<u8>,
}

impl Model for StoredFile {
    ghost use Rattle.std.specs.Prelude.{◌≤◌, length};
    ghost use Rattle.mav_ftp.specs.Payload.{most_file};
    ghost use Rattle.mav_ftp.specs.Files.{File};

    ghost Value = { File };

    ghost view = { λ f. record { name = f.name; bytes = f.bytes.items } };

    ghost invariant = { λ f. length f.bytes.items ≤ most_file };
}

impl StoredFile {
    pub fn new(name: FileName, bytes: Vec<u8>) -> StoredFile
        requires { length bytes.items ≤ most_file }
        ensures { result ≡ record { name = name; bytes = bytes.items } }
    {
        StoredFile { name, bytes }
    }

    pub fn name(&self) -> &[u8]
        ensures name { result.now ≡ self.now.name }
        ensures short { length result.now ≤ 64 }
    {
        self.name.as_bytes()
    }

    pub fn bytes(&self) -> &[u8]
        ensures bytes { result.now ≡ self.now.bytes }
        ensures few { length result.now ≤ most_file }
    {
        &self.bytes
    }

    fn is_named(&self, name: &[u8]) -> bool
        ensures { result ≡ is_named name.now self.now }
    {
        self.name() == name
    }
}

/// At most 64 files, in the order in which they were made. A name is looked up by one pass.
#[derive(Drop)]
pub struct Files {
    entries: Vec<StoredFile>,
}

impl Model for Files {
    ghost use Rattle.std.specs.Prelude.{◌≤◌, List, length, vec_capacity};
    ghost use Rattle.mav_ftp.specs.Files.{File};

    ghost Value = { List File };

    ghost view = { λ f. f.entries.items };

    ghost invariant = { λ f. (64 ≤ vec_capacity f.entries) × (length f.entries.items ≤ 64) };
}

fn place(entries: &[StoredFile], name: &[u8]) -> Option<usize>
    ensures place { result ≡ file_at entries.now name.now }
    ensures inside { IfSome result (λ at. at < length entries.now) }
{
    entries.iter().position(|file| file.is_named(name))
}

impl Files {
    pub fn new(alloc: Global) -> Result<Files, NoMemory>
        ensures { IfOk result (λ f. f ≡ []) }
    {
        Ok(Files {
            entries: Vec::with_capacity(alloc, MAX_FILES)?,
        })
    }

    /// The index of the file of a name.
    pub fn place(&self, name: &[u8]) -> Option<usize>
        ensures place { result ≡ file_at self.now name.now }
        ensures inside { IfSome result (λ at. at < length self.now) }
    {
        place(&self.entries, name)
    }

    /// The bytes of the file of a name.
    pub fn bytes(&self, name: &[u8]) -> Option<&[u8]>
        ensures bytes { option_map (λ b. b.now) result ≡ bytes_named self.now name.now }
        ensures few { IfSome result (λ b. length b.now ≤ most_file) }
    {
        let at = self.place(name)?;
        Some(self.entries[at].bytes())
    }

    pub fn is_full(&self) -> bool
        ensures { result ≡ not (nat_lt (length self.now) most_files) }
    {
        self.entries.len() >= MAX_FILES
    }

    /// The files from a number on.
    pub fn after(&self, offset: usize) -> &[StoredFile]
        ensures { result.now ≡ drop offset self.now }
    {
        let offset = offset.min(self.entries.len());
        self.entries.split_at(offset).1
    }

    pub fn push(&mut self, file: StoredFile)
        requires { length self.old < most_files }
        ensures { self.new ≡ self.old ++ file ∷ [] }
    {
        self.entries.push_reserved(file);
    }

    pub fn remove(&mut self, at: usize)
        requires { at < length self.old }
        ensures { self.new ≡ remove self.old at }
    {
        self.entries.remove(at);
    }
}
