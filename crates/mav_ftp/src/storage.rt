// What each opcode does to files and sessions.
ghost use Rattle.std.specs.Prelude.{◌≡◌, ◌≤◌, ◌<◌, [], length, take, drop, is_some, IfOk, IfSome, OnOk, OnErr};
ghost use Rattle.std.specs.Option.{option_map};
ghost use Rattle.mav_ftp.specs.Payload.{most_file};
ghost use Rattle.mav_ftp.specs.Files.{file_at, bytes_named};
ghost use Rattle.mav_ftp.specs.Sessions.{session_of, free_session};
ghost use Rattle.mav_ftp.specs.Steps.{publishes, terminates, resets, lists, opens, reads, creates, writes, removes};
ghost use Rattle.mav_ftp.specs.Steps.{serves, is_known, storage_step};
ghost use Rattle.mav_ftp.specs.Server.{no_sessions};

use crate::NoMemory;
use crate::files::{Files, StoredFile};
use crate::listing::{is_root, list_entries};
use crate::names::FileName;
use crate::payload::{FtpError, FtpFields, FtpOpcode, MAX_DATA_BYTES};
use crate::replies::{ack, nak};
use crate::sessions::OpenSession;
use crate::slots::Slots;
use mav_names::Stream;
use std::alloc::Global;
use std::marker::Model;

/// Files and sessions.
#[derive(Drop)]
pub struct Storage {
    alloc: Global,
    files: Files,
    sessions: Slots,
}

impl Model for Storage {
    ghost use Rattle.mav_ftp.specs.Steps.{Storage};

    ghost Value = { Storage };

    ghost view = { λ s. record { files = s.files; sessions = s.sessions } };
}

fn is_known(opcode: u8) -> bool
    ensures { result ≡ is_known opcode }
{
    FtpOpcode::TERMINATE_SESSION <= opcode && opcode <= FtpOpcode::REMOVE_FILE
}

impl Storage {
    /// No files and no sessions. Allocates the table of files.
    pub fn new(alloc: Global) -> Result<Storage, NoMemory>
        ensures { IfOk result (λ s. s ≡ record { files = []; sessions = no_sessions }) }
    {
        let files = Files::new(alloc)?;
        Ok(Storage {
            alloc,
            files,
            sessions: Slots::new(),
        })
    }

    pub fn file(&self, name: &[u8]) -> Option<&[u8]>
        ensures bytes { option_map (λ b. b.now) result ≡ bytes_named self.now.files name.now }
        ensures few { IfSome result (λ b. length b.now ≤ most_file) }
    {
        self.files.bytes(name)
    }

    fn has_file(&self, name: &FileName) -> bool
        ensures { result ≡ is_some (file_at self.now.files name.now) }
    {
        self.files.place(name.as_bytes()).is_some()
    }

    // The bytes become a file.
    fn publish(&mut self, request: &FtpFields, name: FileName, bytes: Vec<u8>) -> [u8; 251]
        requires { length bytes.items ≤ most_file }
        ensures storage { self.new ≡ (publishes self.old request.now name bytes.items).storage }
        ensures reply { result ≡ (publishes self.old request.now name bytes.items).reply }
    {
        if self.has_file(&name) {
            return nak(request, FtpError::FILE_EXISTS);
        }
        if self.files.is_full() {
            return nak(request, FtpError::FAIL);
        }
        self.files.push(StoredFile::new(name, bytes));
        ack(request, request.session, &[])
    }

    fn terminate(&mut self, from: Stream, request: &FtpFields) -> [u8; 251]
        ensures storage { self.new ≡ (terminates self.old request.now
            (session_of self.old.sessions from request.now.session)).storage }
        ensures reply { result ≡ (terminates self.old request.now
            (session_of self.old.sessions from request.now.session)).reply }
    {
        let Some(session) = self.sessions.close(from, request.session) else {
            return nak(request, FtpError::INVALID_SESSION);
        };
        let (name, bytes) = session.into_parts();
        match name {
            Some(name) => self.publish(request, name, bytes),
            None => ack(request, request.session, &[]),
        }
    }

    fn reset(&mut self, from: Stream, request: &FtpFields) -> [u8; 251]
        ensures storage { self.new ≡ (resets self.old from request.now).storage }
        ensures reply { result ≡ (resets self.old from request.now).reply }
    {
        self.sessions.reset(from);
        ack(request, request.session, &[])
    }

    fn list(&self, request: &FtpFields, path: &[u8]) -> [u8; 251]
        ensures storage { self.now ≡ (lists self.now request.now path.now).storage }
        ensures reply { result ≡ (lists self.now request.now path.now).reply }
    {
        if !is_root(path) {
            return nak(request, FtpError::FILE_NOT_FOUND);
        }
        let files = self.files.after(request.offset as usize);
        if files.is_empty() {
            return nak(request, FtpError::END_OF_FILE);
        }
        ack(request, request.session, list_entries(files).as_bytes())
    }

    fn open(
        &mut self,
        from: Stream,
        request: &FtpFields,
        name: &[u8],
    ) -> Result<[u8; 251], NoMemory>
        ensures storage { OnOk result (self.new ≡ (opens self.old from request.now
            (bytes_named self.old.files name.now) (free_session self.old.sessions)).storage) }
        ensures reply { IfOk result (λ r. r ≡ (opens self.old from request.now (bytes_named self.old.files name.now)
            (free_session self.old.sessions)).reply) }
        ensures err { OnErr result (self.new ≡ self.old) }
    {
        let Some(bytes) = self.files.bytes(name) else {
            return Ok(nak(request, FtpError::FILE_NOT_FOUND));
        };
        let Some(number) = self.sessions.free() else {
            return Ok(nak(request, FtpError::NO_SESSIONS_AVAILABLE));
        };
        let size = (bytes.len() as u32).to_le_bytes();
        let session = OpenSession::read(self.alloc, from, bytes)?;
        self.sessions.open(number, session);
        Ok(ack(request, number as u8, &size))
    }

    fn read(&self, from: Stream, request: &FtpFields) -> [u8; 251]
        requires { request.now.size ≤ 239 }
        ensures storage { self.now ≡ (reads self.now request.now
            (session_of self.now.sessions from request.now.session)).storage }
        ensures reply { result ≡ (reads self.now request.now
            (session_of self.now.sessions from request.now.session)).reply }
    {
        let Some(session) = self.sessions.of(from, request.session) else {
            return nak(request, FtpError::INVALID_SESSION);
        };
        if session.is_writing() {
            return nak(request, FtpError::INVALID_SESSION);
        }
        let bytes = session.bytes();
        let offset = request.offset as usize;
        if offset >= bytes.len() {
            return nak(request, FtpError::END_OF_FILE);
        }
        ack(
            request,
            request.session,
            piece(bytes, offset, usize::from(request.size)),
        )
    }

    fn create(&mut self, from: Stream, request: &FtpFields, name: &[u8]) -> [u8; 251]
        ensures storage { self.new ≡ (creates self.old from request.now name.now).storage }
        ensures reply { result ≡ (creates self.old from request.now name.now).reply }
    {
        let Some(name) = FileName::of(name) else {
            return nak(request, FtpError::FAIL);
        };
        if self.has_file(&name) {
            return nak(request, FtpError::FILE_EXISTS);
        }
        let Some(number) = self.sessions.free() else {
            return nak(request, FtpError::NO_SESSIONS_AVAILABLE);
        };
        self.sessions
            .open(number, OpenSession::write(self.alloc, from, name));
        ack(request, number as u8, &[])
    }

    fn write(
        &mut self,
        from: Stream,
        request: &FtpFields,
        bytes: &[u8],
    ) -> Result<[u8; 251], NoMemory>
        requires { length bytes.now ≤ 239 }
        ensures storage { OnOk result (self.new ≡ (writes self.old request.now bytes.now
            (session_of self.old.sessions from request.now.session)).storage) }
        ensures reply { IfOk result (λ r. r ≡ (writes self.old request.now bytes.now
            (session_of self.old.sessions from request.now.session)).reply) }
        ensures err { OnErr result (self.new ≡ self.old) }
    {
        let Some(session) = self.sessions.of(from, request.session) else {
            return Ok(nak(request, FtpError::INVALID_SESSION));
        };
        if let Some(error) = session.write_error(request, bytes) {
            return Ok(nak(request, error));
        }
        self.sessions.put(from, request, bytes)?;
        Ok(ack(request, request.session, &[]))
    }

    fn remove(&mut self, request: &FtpFields, name: &[u8]) -> [u8; 251]
        ensures storage { self.new ≡ (removes self.old request.now (file_at self.old.files name.now)).storage }
        ensures reply { result ≡ (removes self.old request.now (file_at self.old.files name.now)).reply }
    {
        match self.files.place(name) {
            Some(at) => {
                self.files.remove(at);
                ack(request, request.session, &[])
            }
            None => nak(request, FtpError::FILE_NOT_FOUND),
        }
    }

    fn serve(
        &mut self,
        from: Stream,
        request: &FtpFields,
        bytes: &[u8],
    ) -> Result<[u8; 251], NoMemory>
        requires size { request.now.size ≤ 239 }
        requires few { length bytes.now ≤ 239 }
        ensures storage { OnOk result (self.new ≡ (serves self.old from request.now bytes.now).storage) }
        ensures reply { IfOk result (λ r. r ≡ (serves self.old from request.now bytes.now).reply) }
        ensures err { OnErr result (self.new ≡ self.old) }
    {
        match request.opcode {
            FtpOpcode::TERMINATE_SESSION => Ok(self.terminate(from, request)),
            FtpOpcode::RESET_SESSIONS => Ok(self.reset(from, request)),
            FtpOpcode::LIST_DIRECTORY => Ok(self.list(request, bytes)),
            FtpOpcode::OPEN_FILE_RO => self.open(from, request, bytes),
            FtpOpcode::READ_FILE => Ok(self.read(from, request)),
            FtpOpcode::CREATE_FILE => Ok(self.create(from, request, bytes)),
            FtpOpcode::WRITE_FILE => self.write(from, request, bytes),
            _ => Ok(self.remove(request, bytes)),
        }
    }

    /// A request of a stream, and the reply to it.
    pub fn step(
        &mut self,
        from: Stream,
        request: &FtpFields,
        bytes: &[u8],
    ) -> Result<[u8; 251], NoMemory>
        requires few { length bytes.now ≤ 239 }
        ensures storage { OnOk result (self.new ≡ (storage_step self.old from request.now bytes.now).storage) }
        ensures reply { IfOk result (λ r. r ≡ (storage_step self.old from request.now bytes.now).reply) }
        ensures err { OnErr result (self.new ≡ self.old) }
    {
        if !is_known(request.opcode) {
            return Ok(nak(request, FtpError::UNKNOWN_COMMAND));
        }
        if usize::from(request.size) > MAX_DATA_BYTES {
            return Ok(nak(request, FtpError::INVALID_DATA_SIZE));
        }
        self.serve(from, request, bytes)
    }
}

// The bytes from an offset on, at most so many.
fn piece(bytes: &[u8], offset: usize, size: usize) -> &[u8]
    requires { offset ≤ length bytes.now }
    ensures piece { result.now ≡ take size (drop offset bytes.now) }
    ensures few { length result.now ≤ size }
{
    let rest = bytes.split_at(offset).1;
    &rest[..size.min(rest.len())]
}
