// An open operation: what it asks, and what a reply makes of it.
ghost use Rattle.std.specs.Prelude.{◌≡◌, ◌+◌, ◌≤◌, ◌<◌, ◌++◌, [], length, nat_lt, IsTrue, IfOk, OnOk, OnErr};
ghost use Rattle.mav_ftp.specs.Payload.{most_data, most_file};
ghost use Rattle.mav_ftp.specs.Client.{Writing, transfer_request, request_data, offset_of, least_size, is_reply};
ghost use Rattle.mav_ftp.specs.Client.{entries_in, next_write, acknowledged, denied, replied, idle_limit, most_taken};
ghost use Rattle.mav_ftp.specs.Replies.{next_seq};
ghost use Rattle.mav_ftp.specs.ClientView.{stage_view, in_session, IsStage, course_of};

use super::stages::Stage;
use crate::NoMemory;
use crate::payload::{FtpError, FtpFields, FtpOpcode, MAX_DATA_BYTES};
use std::marker::Model;

// The ticks in a row after which an operation is given up.
pub const IDLE_LIMIT: u8 = 5;

// The most bytes that are taken: an offset has 32 bits.
const MAX_TAKEN_BYTES: usize = 4_294_967_295;

/// `bytes` are those of a list or a fetch so far, or those that a store writes.
#[derive(Drop)]
pub struct OpenTransfer {
    stage: Stage,
    bytes: Vec<u8>,
    idle: u8,
}

impl Model for OpenTransfer {
    ghost use Rattle.mav_ftp.specs.Client.{Transfer};

    ghost Value = { Transfer };

    ghost use Rattle.mav_ftp.specs.ClientView.{transfer_view, IsTransfer};

    ghost view = { transfer_view };

    ghost invariant = { IsTransfer };
}

/// What a reply makes of an operation.
#[derive(Clone, Copy)]
pub enum Course {
    /// Its next request waits.
    Continues,
    /// It is done, and gives the bytes that were taken.
    Gives,
    /// It is done, and gives no byte.
    Done,
    /// It ended by a NAK with this error code.
    Refused(u8),
}

/// The sequence number after one.
pub fn next_seq(seq: u16) -> u16
    ensures { result ≡ next_seq seq }
{
    seq.wrapping_add(1)
}

fn count_entries(bytes: &[u8]) -> usize
    ensures { result ≡ entries_in bytes.now }
{
    bytes.iter().filter(|byte| **byte == 0).count()
}

impl OpenTransfer {
    pub fn new(stage: Stage, bytes: Vec<u8>) -> OpenTransfer
        requires stage { IsStage stage bytes.items }
        requires few { length bytes.items ≤ most_taken }
        ensures { result ≡ stage_view stage bytes.items 0 }
    {
        OpenTransfer {
            stage,
            bytes,
            idle: 0,
        }
    }

    fn offset(&self) -> u32
        ensures { result ≡ offset_of self.now self.now.phase }
    {
        match self.stage {
            Stage::Listing { entries } => entries,
            Stage::Reading(_) => self.bytes.len() as u32,
            Stage::Writing { written, .. } => written,
            _ => 0,
        }
    }

    // The data of the request: a name, or the next bytes of a store.
    fn request_data(&self) -> &[u8]
        ensures bytes { result.now ≡ request_data self.now self.now.phase }
        ensures len { length result.now ≤ most_data }
    {
        match &self.stage {
            Stage::Opening(name) | Stage::Creating(name) | Stage::Removing(name) => name.as_bytes(),
            Stage::Writing { written, .. } => {
                let start = *written as usize;
                let end = self.bytes.len().min(start + MAX_DATA_BYTES);
                &self.bytes[start..end]
            }
            _ => &[],
        }
    }

    /// The request with a sequence number.
    pub fn request(&self, seq: u16) -> [u8; 251]
        ensures { result ≡ transfer_request seq self.now }
    {
        let data = self.request_data();
        let size = match self.stage {
            Stage::Reading(_) => MAX_DATA_BYTES as u8,
            _ => data.len() as u8,
        };
        let fields = FtpFields {
            seq,
            session: self.stage.session(),
            opcode: self.stage.opcode(),
            size,
            req_opcode: 0,
            offset: self.offset(),
        };
        fields.payload(data)
    }

    /// Whether these are the numbers of the reply to the request with a sequence number.
    pub fn is_reply(&self, seq: u16, reply: &FtpFields) -> bool
        ensures { result ≡ is_reply seq self.now reply.now }
    {
        let acknowledges = reply.opcode == FtpOpcode::ACK;
        let size = usize::from(reply.size);
        reply.seq == next_seq(seq)
            && reply.req_opcode == self.stage.opcode()
            && (acknowledges || reply.opcode == FtpOpcode::NAK)
            && reply.size >= self.stage.least_size(acknowledges)
            && size <= MAX_DATA_BYTES
            && self.bytes.len() + size <= MAX_TAKEN_BYTES
    }

    // The next request waits.
    fn go_to(&mut self, stage: Stage)
        requires { IsStage stage self.old.bytes }
        ensures { self.new ≡ stage_view stage self.old.bytes 0 }
    {
        self.stage = stage;
        self.idle = 0;
    }

    // More entries, or bytes of a file, were given.
    fn take_more(&mut self, stage: Stage, given: &[u8]) -> Result<(), NoMemory>
        requires stage { IsStage stage (self.old.bytes ++ given.now) }
        requires few { length self.old.bytes + length given.now ≤ most_taken }
        ensures transfer { OnOk result (self.new ≡ stage_view stage (self.old.bytes ++ given.now) 0) }
        ensures err { OnErr result (self.new ≡ self.old) }
    {
        self.bytes.extend_from_slice(given)?;
        self.stage = stage;
        self.idle = 0;
        Ok(())
    }

    // So much of a store was written.
    fn write_on(&mut self, session: u8, written: u32)
        requires written { written ≤ length self.old.bytes }
        requires few { length self.old.bytes ≤ most_file }
        ensures { self.new ≡ next_write (in_session Writing session written self.old.bytes 0) }
    {
        if (written as usize) < self.bytes.len() {
            self.go_to(Stage::Writing { session, written });
        } else {
            self.go_to(Stage::Committing(session));
        }
    }

    /// The bytes, moved out.
    pub fn into_bytes(self) -> Vec<u8>
        ensures { result.items ≡ self.bytes }
    {
        self.bytes
    }

    // An ACK with a session and this data.
    fn acknowledge(&mut self, session: u8, given: &[u8]) -> Result<Course, NoMemory>
        requires { length self.old.bytes + length given.now ≤ most_taken }
        ensures course { IfOk result (λ course. course_of self.new course
            ≡ acknowledged self.old self.old.phase session given.now) }
        ensures err { OnErr result (self.new ≡ self.old) }
    {
        match self.stage {
            Stage::Listing { entries } => {
                let entries = entries + count_entries(given) as u32;
                self.take_more(Stage::Listing { entries }, given)?;
            }
            Stage::Reading(session) => self.take_more(Stage::Reading(session), given)?,
            Stage::Opening(_) => self.go_to(Stage::Reading(session)),
            Stage::Creating(_) => self.write_on(session, 0),
            Stage::Writing { session, written } => {
                let written = written + self.request_data().len() as u32;
                self.write_on(session, written);
            }
            Stage::Closing(_) => return Ok(Course::Gives),
            Stage::Committing(_) | Stage::Removing(_) => return Ok(Course::Done),
        }
        Ok(Course::Continues)
    }

    // A NAK with this error code.
    fn deny(&mut self, code: u8) -> Course
        ensures { course_of self.new result ≡ denied self.old self.old.phase code }
    {
        match self.stage {
            Stage::Listing { .. } if code == FtpError::END_OF_FILE => Course::Gives,
            Stage::Reading(session) if code == FtpError::END_OF_FILE => {
                self.go_to(Stage::Closing(session));
                Course::Continues
            }
            Stage::Closing(_) => Course::Gives,
            _ => Course::Refused(code),
        }
    }

    /// What the reply with these numbers and this data makes of the operation. It changes nothing if there is no
    /// memory for the bytes that are taken.
    pub fn take(&mut self, reply: &FtpFields, given: &[u8]) -> Result<Course, NoMemory>
        requires { length self.old.bytes + length given.now ≤ most_taken }
        ensures course { IfOk result (λ course. course_of self.new course ≡ replied self.old reply.now given.now) }
        ensures err { OnErr result (self.new ≡ self.old) }
    {
        if reply.opcode == FtpOpcode::ACK {
            self.acknowledge(reply.session, given)
        } else {
            let code = given.first().copied().unwrap_or(0);
            Ok(self.deny(code))
        }
    }

    /// Counts a tick. False if it was the last in a row that the operation waits.
    pub fn wait(&mut self) -> bool
        ensures waits { result ≡ nat_lt (self.old.idle + 1) idle_limit }
        ensures transfer { IsTrue result → self.new ≡ record self.old { idle = self.old.idle + 1 } }
    {
        if self.idle + 1 >= IDLE_LIMIT {
            return false;
        }
        self.idle += 1;
        true
    }
}
