// The sessions of a server by their numbers.
ghost use Rattle.std.specs.Prelude.{◌≡◌, ◌<◌, ◌≤◌, length, slice_set, Some, None, IfSome, IfNone, OnSome, OnOk, OnErr};
ghost use Rattle.std.specs.Option.{option_map};
ghost use Rattle.mav_ftp.specs.Sessions.{is_free, free_session, unless_of, session_of, sessions_without, overwritten};
ghost use Rattle.mav_ftp.specs.Steps.{write_error, with_bytes};
ghost use Rattle.mav_ftp.specs.Server.{no_sessions};

use crate::NoMemory;
use crate::payload::FtpFields;
use crate::sessions::OpenSession;
use mav_names::Stream;
use std::marker::Model;

/// The sessions 0 to 3.
#[derive(Drop)]
pub struct Slots {
    slots: [Option<OpenSession>; 4],
}

impl Model for Slots {
    ghost use Rattle.std.specs.Prelude.{◌≡◌, List, Option, length};
    ghost use Rattle.mav_ftp.specs.Sessions.{Session};

    ghost Value = { List (Option Session) };

    ghost view = { λ s. s.slots };

    ghost invariant = { λ s. length s.slots ≡ 4 };
}

fn is_free(slot: &Option<OpenSession>) -> bool
    ensures { result ≡ is_free slot.now }
{
    slot.is_none()
}

// The slot without a session of the stream.
fn clear(slot: &mut Option<OpenSession>, stream: Stream)
    ensures { slot.new ≡ unless_of stream slot.old }
{
    if let Some(session) = slot {
        if session.is_of(stream) {
            *slot = None;
        }
    }
}

impl Slots {
    pub fn new() -> Slots
        ensures { result ≡ no_sessions }
    {
        Slots {
            slots: [None, None, None, None],
        }
    }

    /// The lowest number without a session.
    pub fn free(&self) -> Option<usize>
        ensures free { result ≡ free_session self.now }
        ensures inside { IfSome result (λ number. number < 4) }
    {
        self.slots.iter().position(is_free)
    }

    /// The session of a number, if it is one of the stream.
    pub fn of(&self, stream: Stream, number: u8) -> Option<&OpenSession>
        ensures session { option_map (λ s. s.now) result ≡ session_of self.now stream number }
        ensures within { OnSome result (number < 4) }
    {
        let slots: &[Option<OpenSession>] = &self.slots;
        match slots.get(usize::from(number)) {
            Some(Some(session)) if session.is_of(stream) => Some(session),
            _ => None,
        }
    }

    /// Writes bytes into the session of a number.
    pub fn put(&mut self, stream: Stream, request: &FtpFields, bytes: &[u8]) -> Result<(), NoMemory>
        requires within { request.now.session < 4 }
        requires few { length bytes.now ≤ 239 }
        requires right { IfSome (session_of self.old stream request.now.session)
            (λ s. write_error request.now bytes.now s ≡ None) }
        ensures ok { OnOk result (IfSome (session_of self.old stream request.now.session)
            (λ s. self.new ≡ slice_set self.old request.now.session
            (Some (with_bytes s (overwritten s.bytes request.now.offset bytes.now))))) }
        ensures err { OnErr result (self.new ≡ self.old) }
    {
        match &mut self.slots[usize::from(request.session)] {
            Some(session) if session.is_of(stream) => session.put(request, bytes),
            _ => Ok(()),
        }
    }

    pub fn open(&mut self, number: usize, session: OpenSession)
        requires { number < 4 }
        ensures { self.new ≡ slice_set self.old number (Some session) }
    {
        self.slots[number] = Some(session);
    }

    /// Ends the session of a number, if it is one of the stream.
    pub fn close(&mut self, stream: Stream, number: u8) -> Option<OpenSession>
        ensures session { result ≡ session_of self.old stream number }
        ensures some { OnSome result (self.new ≡ slice_set self.old number None) }
        ensures none { IfNone result (self.new ≡ self.old) }
    {
        self.of(stream, number)?;
        self.slots[usize::from(number)].take()
    }

    /// Ends all sessions of the stream.
    pub fn reset(&mut self, stream: Stream)
        ensures { self.new ≡ sessions_without self.old stream }
    {
        for slot in self.slots.iter_mut() {
            clear(slot, stream);
        }
    }
}
