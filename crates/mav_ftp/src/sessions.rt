// A session of a server.
ghost use Rattle.std.specs.Prelude.{◌≡◌, ◌≤◌, [], length, is_some, Some, None, IfOk, OnOk, OnErr};
ghost use Rattle.mav_names.specs.Addresses.{same_stream};
ghost use Rattle.mav_ftp.specs.Payload.{most_file};
ghost use Rattle.mav_ftp.specs.Sessions.{overwritten};
ghost use Rattle.mav_ftp.specs.Steps.{write_error, with_bytes};

use crate::NoMemory;
use crate::names::FileName;
use crate::payload::{FtpError, FtpFields, MAX_FILE_BYTES};
use mav_names::{Stream, is_same_stream};
use std::alloc::Global;
use std::marker::Model;

/// A session of at most 1,048,576 bytes: one that writes has the name of the file to be.
#[derive(Drop)]
pub struct OpenSession {
    stream: Stream,
    name: Option<FileName>,
    bytes: Vec<u8>,
}

impl Model for OpenSession {
    ghost use Rattle.std.specs.Prelude.{◌≤◌, length};
    ghost use Rattle.mav_ftp.specs.Payload.{most_file};
    ghost use Rattle.mav_ftp.specs.Sessions.{Session};

    ghost Value = { Session };

    ghost view = { λ s. record { stream = s.stream; name = s.name; bytes = s.bytes.items } };

    ghost invariant = { λ s. length s.bytes.items ≤ most_file };
}

// Writes bytes over those that are held from an offset on, and after them.
fn overwrite(held: &mut Vec<u8>, offset: usize, bytes: &[u8]) -> Result<(), NoMemory>
    requires { offset ≤ length held.old.items }
    ensures ok { OnOk result (held.new.items ≡ overwritten held.old.items offset bytes.now) }
    ensures err { OnErr result (held.new.items ≡ held.old.items) }
{
    let over = bytes.len().min(held.len() - offset);
    let (inside, after) = bytes.split_at(over);
    held.extend_from_slice(after)?;
    held[offset..offset + over].copy_from_slice(inside);
    Ok(())
}

impl OpenSession {
    /// A session that reads a copy of these bytes.
    pub fn read(alloc: Global, stream: Stream, bytes: &[u8]) -> Result<OpenSession, NoMemory>
        requires { length bytes.now ≤ most_file }
        ensures { IfOk result (λ s. s ≡ record { stream = stream; name = None; bytes = bytes.now }) }
    {
        Ok(OpenSession {
            stream,
            name: None,
            bytes: Vec::from_slice(alloc, bytes)?,
        })
    }

    /// A session that writes a file of this name.
    pub fn write(alloc: Global, stream: Stream, name: FileName) -> OpenSession
        ensures { result ≡ record { stream = stream; name = Some name; bytes = [] } }
    {
        OpenSession {
            stream,
            name: Some(name),
            bytes: Vec::new(alloc),
        }
    }

    /// The name and the bytes.
    pub fn into_parts(self) -> (Option<FileName>, Vec<u8>)
        ensures name { result.0 ≡ self.name }
        ensures bytes { result.1.items ≡ self.bytes }
        ensures few { length result.1.items ≤ most_file }
    {
        (self.name, self.bytes)
    }

    pub fn is_writing(&self) -> bool
        ensures { result ≡ is_some self.now.name }
    {
        self.name.is_some()
    }

    pub fn bytes(&self) -> &[u8]
        ensures bytes { result.now ≡ self.now.bytes }
        ensures few { length result.now ≤ most_file }
    {
        &self.bytes
    }

    pub fn is_of(&self, stream: Stream) -> bool
        ensures { result ≡ same_stream self.now.stream stream }
    {
        is_same_stream(self.stream, stream)
    }

    /// Why these bytes can't be written.
    pub fn write_error(&self, request: &FtpFields, bytes: &[u8]) -> Option<u8>
        requires { length bytes.now ≤ 239 }
        ensures { result ≡ write_error request.now bytes.now self.now }
    {
        let offset = request.offset as usize;
        if !self.is_writing() {
            return Some(FtpError::INVALID_SESSION);
        }
        if self.bytes.len() < offset || MAX_FILE_BYTES < offset + bytes.len() {
            return Some(FtpError::FAIL);
        }
        None
    }

    pub fn put(&mut self, request: &FtpFields, bytes: &[u8]) -> Result<(), NoMemory>
        requires few { length bytes.now ≤ 239 }
        requires right { write_error request.now bytes.now self.old ≡ None }
        ensures ok { OnOk result (self.new ≡ with_bytes self.old
            (overwritten self.old.bytes request.now.offset bytes.now)) }
        ensures err { OnErr result (self.new ≡ self.old) }
    {
        overwrite(&mut self.bytes, request.offset as usize, bytes)
    }
}
