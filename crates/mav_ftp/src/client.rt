// The station's side of file transfer.
ghost use Rattle.std.specs.Prelude.{◌≡◌, None, Some, is_some, IfOk, IfErr, OnOk, OnErr};
ghost use Rattle.mav_ftp.specs.Client.{no_transfer, request_seq, request_of, transfer_request, list_order};
ghost use Rattle.mav_ftp.specs.Client.{fetch_order, store_order, remove_order, order_fault, ordered, after_course};
ghost use Rattle.mav_ftp.specs.Client.{transfer_step, step_answer, transfer_tick, tick_answer};
ghost use Rattle.mav_ftp.specs.ClientView.{course_of};

mod ends;
mod faults;
mod stages;
mod transfers;

use crate::NoMemory;
use crate::names::FileName;
use crate::payload::{FtpFields, MAX_FILE_BYTES, sized_data};
pub use ends::{FtpStep, FtpTick};
pub use faults::FtpFault;
use field_layout::Label;
use stages::Stage;
use std::alloc::Global;
use std::marker::Model;
use transfers::{Course, IDLE_LIMIT, OpenTransfer, next_seq};

/// A client of one server: it lists, fetches, stores or removes, one operation at a time. Its request is sent again at
/// each tick that brought no reply, up to a limit (MAVLink guide, File Transfer Protocol).
#[derive(Drop)]
pub struct FtpClient {
    alloc: Global,
    last: Option<u16>,
    open: Option<OpenTransfer>,
}

impl Model for FtpClient {
    ghost use Rattle.mav_ftp.specs.Client.{TransferState};

    ghost Value = { TransferState };

    ghost use Rattle.mav_ftp.specs.ClientView.{client_view};

    ghost view = { client_view };
}

impl FtpClient {
    /// It keeps the allocator for the bytes that it takes, and allocates nothing itself.
    pub fn new(alloc: Global) -> FtpClient
        ensures { result ≡ no_transfer }
    {
        FtpClient {
            alloc,
            last: None,
            open: None,
        }
    }

    fn is_busy(&self) -> bool
        ensures { result ≡ is_some self.now.operation }
    {
        self.open.is_some()
    }

    // The sequence number of the request that waits.
    fn request_seq(&self) -> u16
        ensures { result ≡ request_seq self.now.last }
    {
        match self.last {
            None => 0,
            Some(seq) => next_seq(seq),
        }
    }

    fn begin(&mut self, transfer: OpenTransfer) -> [u8; 251]
        ensures client { self.new ≡ record self.old { operation = Some transfer } }
        ensures request { result ≡ transfer_request (request_seq self.old.last) transfer }
    {
        let request = transfer.request(self.request_seq());
        self.open = Some(transfer);
        request
    }

    /// Asks for the entries of all files.
    pub fn list(&mut self) -> Result<[u8; 251], FtpFault>
        ensures client { OnOk result (self.new ≡ ordered self.old list_order) }
        ensures request { IfOk result (λ r. r ≡ request_of (ordered self.old list_order)) }

        // It is refused exactly if there is a cause, with the first.
        ensures accepted { OnOk result (order_fault self.old list_order ≡ None) }
        ensures refused { IfErr result (λ f. order_fault self.old list_order ≡ Some f) }
        ensures err { OnErr result (self.new ≡ self.old) }
    {
        if self.is_busy() {
            return Err(FtpFault::Busy);
        }
        let stage = Stage::Listing { entries: 0 };
        let transfer = OpenTransfer::new(stage, Vec::new(self.alloc));
        Ok(self.begin(transfer))
    }

    /// Asks for the bytes of a file.
    pub fn fetch(&mut self, name: &[u8]) -> Result<[u8; 251], FtpFault>
        ensures client { OnOk result (self.new ≡ ordered self.old (fetch_order name.now)) }
        ensures request { IfOk result (λ r. r ≡ request_of (ordered self.old (fetch_order name.now))) }

        // It is refused exactly if there is a cause, with the first.
        ensures accepted { OnOk result (order_fault self.old (fetch_order name.now) ≡ None) }
        ensures refused { IfErr result (λ f. order_fault self.old (fetch_order name.now) ≡ Some f) }
        ensures err { OnErr result (self.new ≡ self.old) }
    {
        if self.is_busy() {
            return Err(FtpFault::Busy);
        }
        let Some(name) = FileName::of(name) else {
            return Err(FtpFault::BadName);
        };
        let transfer = OpenTransfer::new(Stage::Opening(name), Vec::new(self.alloc));
        Ok(self.begin(transfer))
    }

    /// Makes a new file of these bytes. A refusal drops them.
    pub fn store(&mut self, name: &[u8], bytes: Vec<u8>) -> Result<[u8; 251], FtpFault>
        ensures client { OnOk result (self.new ≡ ordered self.old (store_order name.now bytes.items)) }
        ensures request { IfOk result (λ r. r ≡ request_of (ordered self.old (store_order name.now bytes.items))) }

        // It is refused exactly if there is a cause, with the first.
        ensures accepted { OnOk result (order_fault self.old (store_order name.now bytes.items) ≡ None) }
        ensures refused { IfErr result (λ f. order_fault self.old (store_order name.now bytes.items) ≡ Some f) }
        ensures err { OnErr result (self.new ≡ self.old) }
    {
        if self.is_busy() {
            return Err(FtpFault::Busy);
        }
        let Some(name) = FileName::of(name) else {
            return Err(FtpFault::BadName);
        };
        let len = bytes.len();
        if len > MAX_FILE_BYTES {
            return Err(FtpFault::TooLarge { len });
        }
        Ok(self.begin(OpenTransfer::new(Stage::Creating(name), bytes)))
    }

    /// Removes a file.
    pub fn remove(&mut self, name: &[u8]) -> Result<[u8; 251], FtpFault>
        ensures client { OnOk result (self.new ≡ ordered self.old (remove_order name.now)) }
        ensures request { IfOk result (λ r. r ≡ request_of (ordered self.old (remove_order name.now))) }

        // It is refused exactly if there is a cause, with the first.
        ensures accepted { OnOk result (order_fault self.old (remove_order name.now) ≡ None) }
        ensures refused { IfErr result (λ f. order_fault self.old (remove_order name.now) ≡ Some f) }
        ensures err { OnErr result (self.new ≡ self.old) }
    {
        if self.is_busy() {
            return Err(FtpFault::Busy);
        }
        let Some(name) = FileName::of(name) else {
            return Err(FtpFault::BadName);
        };
        let transfer = OpenTransfer::new(Stage::Removing(name), Vec::new(self.alloc));
        Ok(self.begin(transfer))
    }

    /// One payload of the server. It changes nothing if there is no memory for the bytes that are taken.
    pub fn step(&mut self, payload: &[u8; 251]) -> Result<FtpStep, NoMemory>
        ensures client { OnOk result (self.new ≡ transfer_step self.old payload.now) }
        ensures answer { IfOk result (λ a. a ≡ step_answer self.old payload.now) }
        ensures err { OnErr result (self.new ≡ self.old) }
    {
        let Some(mut transfer) = self.open.take() else {
            return Ok(FtpStep::Quiet);
        };
        let reply = FtpFields::read(payload);
        if !transfer.is_reply(self.request_seq(), &reply) {
            self.open = Some(transfer);
            return Ok(FtpStep::Quiet);
        }
        match transfer.take(&reply, sized_data(payload)) {
            Ok(course) => Ok(self.follow(reply.seq, transfer, course)),
            Err(refused) => {
                self.open = Some(transfer);
                Err(refused)
            }
        }
    }

    // A reply was taken, which has this sequence number.
    fn follow(&mut self, seq: u16, transfer: OpenTransfer, course: Course) -> FtpStep
        requires { self.old.operation ≡ None }
        ensures client { self.new ≡ (after_course seq (course_of transfer course)).state }
        ensures answer { result ≡ (after_course seq (course_of transfer course)).answer }
    {
        self.last = Some(seq);
        match course {
            Course::Continues => FtpStep::Send(self.begin(transfer)),
            Course::Gives => FtpStep::Done(Label::new(transfer.into_bytes())),
            Course::Done => FtpStep::Done(Label::new(Vec::new(self.alloc))),
            Course::Refused(code) => FtpStep::Refused(code),
        }
    }

    /// One tick. The fifth in a row ends the operation.
    pub fn tick(&mut self) -> FtpTick
        ensures client { self.new ≡ transfer_tick self.old }
        ensures answer { result ≡ tick_answer self.old }
    {
        let Some(mut transfer) = self.open.take() else {
            return FtpTick::Quiet;
        };
        if !transfer.wait() {
            return FtpTick::NoAnswer(IDLE_LIMIT);
        }
        FtpTick::Again(self.begin(transfer))
    }
}
