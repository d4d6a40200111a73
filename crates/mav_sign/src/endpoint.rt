// One end of signed links.
ghost use Rattle.std.specs.Prelude.{◌≡◌, ℕ, ◌+◌, ◌*◌, ◌^◌, ◌<◌, ◌≤◌, None, false, take, length, vec_len, vec_capacity};
ghost use Rattle.std.specs.Prelude.{◌++◌, ◌∷◌, [], List, IfOk, IfSome, OnOk, OnErr};
ghost use Rattle.x25_check.specs.Extras.{extra_of};
ghost use Rattle.mav_messages.specs.Messages.{definition_of};
ghost use Rattle.mav_sign.specs.History.{Entry, sent, started, stamp_given, next_in};
ghost use Rattle.mav_sign.specs.Signing.{verified};
ghost use Rattle.mav_sign.specs.Kept.{Represents, IsVerdict, kept_answer_to, kept_next};
ghost use Rattle.mav_frame.specs.declared.events.Event.{Event};
ghost use Rattle.mav_stream.specs.Progress.{Progress};
ghost use Rattle.mav_sign.specs.Streams.{reader_of, ReadTo, PartHeard};
ghost use Rattle.mav_sign.specs.Endpoints.{HasProfile, AdmittedIs, Admits, new_endpoint, Takes, Told, FrontHeard};
ghost use Rattle.mav_sign.specs.Endpoints.{Received, FramesOf, FrameOf, Sends, with_frame};

use crate::reading::{LEAST_FRAME_BYTES, append_frames, read_frame};
use crate::stamps::stream_on;
use crate::{
    Admit, Datagram, Heard, Key, NoMemory, SignedFrame, Stamps, StampsSpent, verifies_raw,
};
use field_layout::Buffer;
use mav_frame::{Block, Frame, Look, RawFrame, encode, look};
use mav_messages::Message;
use mav_names::{Name, Stream};
use mav_stream::Reader;
use std::alloc::Global;
use std::marker::Model;
use x25_check::Extras;

/// A node's end of signed links: it admits what comes in, and signs what goes out. Contracts see its key, its stream,
/// the CRC_EXTRA bytes of the messages it knows, what its verifier keeps, the sequence number of its next frame, and
/// the bytes of an incoming stream that are in no frame yet.
#[derive(Drop)]
pub struct Endpoint {
    key: Key,
    me: Stream,
    extras: Extras,
    stamps: Stamps,
    seq: u8,
    reader: Reader,
}

impl Model for Endpoint {
    ghost use Rattle.std.specs.Prelude.{◌≡◌, false};
    ghost use Rattle.mav_sign.specs.Endpoints.{EndpointState, HasProfile};

    ghost Value = { EndpointState };

    ghost view = { λ e. record {
      key = e.key;
      me = e.me;
      extras = e.extras;
      stamps = e.stamps;
      seq = e.seq;
      held = e.reader.bytes;
    } };

    ghost invariant = { λ e. HasProfile e.extras × (e.reader.extras ≡ e.extras) × (e.reader.ended ≡ false)
        × (e.reader.reads_old ≡ false) };
}

// What an admitted frame carries.
fn message_of(stream: Stream, frame: &RawFrame<'_>) -> Heard
    ensures { AdmittedIs stream frame.now result }
{
    let id = frame.id();
    match Message::read(id, frame.payload()) {
        Some(message) => Heard::Message(stream, message),
        None => Heard::Other(stream, id),
    }
}

impl Endpoint {
    /// An endpoint that has received and sent nothing. `extras` has the CRC_EXTRA of each message of the profile.
    pub fn new(alloc: Global, key: Key, me: Stream, extras: Extras) -> Result<Endpoint, NoMemory>
        requires { HasProfile extras }
        ensures state { IfOk result (λ endpoint. endpoint ≡ new_endpoint key me extras endpoint.stamps) }
        ensures history { IfOk result (λ endpoint. Represents endpoint.stamps []) }
        ensures stream { IfOk result (λ endpoint. Progress extras false [] [] (reader_of endpoint)) }
    {
        let stamps = Stamps::new(alloc)?;
        Endpoint::over(key, me, extras, stamps)
    }

    /// The same with a persisted timestamp low bound, the floor: a frame is admitted only if its timestamp is greater,
    /// and it counts as the previous timestamp sent.
    pub fn start(
        alloc: Global,
        key: Key,
        me: Stream,
        extras: Extras,
        floor: u64,
    ) -> Result<Endpoint, NoMemory>
        requires profile { HasProfile extras }
        requires floor { floor < 2 ^ 48 }
        ensures state { IfOk result (λ endpoint. endpoint ≡ new_endpoint key me extras endpoint.stamps) }
        ensures history { IfOk result (λ endpoint. Represents endpoint.stamps (started floor ∷ [])) }
        ensures stream { IfOk result (λ endpoint. Progress extras false [] [] (reader_of endpoint)) }
    {
        let stamps = Stamps::start(alloc, floor)?;
        Endpoint::over(key, me, extras, stamps)
    }

    // With what its verifier keeps.
    fn over(key: Key, me: Stream, extras: Extras, stamps: Stamps) -> Result<Endpoint, NoMemory>
        requires { HasProfile extras }
        ensures state { IfOk result (λ endpoint. endpoint ≡ new_endpoint key me extras stamps) }
        ensures stream { IfOk result (λ endpoint. Progress extras false [] [] (reader_of endpoint)) }
    {
        let reader = Reader::new(extras.copy()?, false);
        Ok(Endpoint {
            key,
            me,
            extras,
            stamps,
            seq: 0,
            reader,
        })
    }

    /// The CRC_EXTRA bytes of the messages that it knows.
    pub fn extras(&self) -> &Extras
        ensures { result.now ≡ self.now.extras }
    {
        &self.extras
    }

    /// The verdict by which `take` would report of the frame. Nothing changes. Doesn't allocate.
    pub fn test(&self, frame: &Frame) -> Admit
        ensures { IsVerdict self.now.key self.now.stamps frame.now result }
    {
        self.stamps.test(&self.key, frame)
    }

    /// Whether the frame verifies under its key.
    pub fn verifies(&self, frame: &RawFrame<'_>) -> bool
        ensures { result ≡ verified self.now.key frame.now frame.now.block }
    {
        verifies_raw(&self.key, frame)
    }

    /// The same of a frame of a datagram. What is known to verify takes no digest (see [`SignedFrame`]).
    pub fn verifies_in(&self, datagram: &Datagram<'_>, frame: &RawFrame<'_>) -> bool
        ensures { result ≡ verified self.now.key frame.now frame.now.block }
    {
        datagram.is_signed(frame, &self.key) || self.verifies(frame)
    }

    /// What `test` does, for a frame of which it is already known whether it verifies.
    pub fn test_judged(&self, frame: &RawFrame<'_>, verifies: bool) -> Admit
        requires { verifies ≡ verified self.now.key frame.now frame.now.block }
        ensures { IsVerdict self.now.key self.now.stamps frame.now result }
    {
        self.stamps.test_judged(&self.key, frame, verifies)
    }

    /// The timestamp that `send` would give its frame at that clock. Nothing changes. Doesn't allocate.
    pub fn ahead(&self, clock: u64) -> Result<u64, StampsSpent>
        ensures kept { result ≡ stamp_given (kept_next self.now.stamps clock) }
        ensures some { IfOk result (λ stamp. 1 ≤ stamp) }
        ensures small { IfOk result (λ stamp. stamp < 2 ^ 48) }
        ensures answer { (history : List Entry) → Represents self.now.stamps history
            → result ≡ stamp_given (next_in history clock) }
    {
        self.stamps.ahead(clock)
    }

    /// Tries one frame, and keeps its timestamp if it is admitted; `receive` and `receive_part` do so with each frame
    /// of a parse. Doesn't allocate.
    pub fn take(&mut self, frame: &Frame) -> Heard
        ensures { Takes self.old self.new frame.now result }
    {
        let mut bytes = [0; 280];
        let size = encode(frame, &mut bytes);
        let raw = RawFrame::of(frame, &bytes[..size]);
        let verifies = self.verifies(&raw);
        self.take_judged(&raw, verifies)
    }

    /// Tries one frame as the bytes that encode it, of which it is already known whether it verifies, and keeps its
    /// timestamp if it is admitted.
    pub fn admit_judged(&mut self, frame: &RawFrame<'_>, verifies: bool) -> Admit
        requires { verifies ≡ verified self.old.key frame.now frame.now.block }
        ensures { Admits self.old self.new frame.now result }
    {
        self.stamps.admit_judged(&self.key, frame, verifies)
    }

    /// What is left to do of `admit_judged` once `test_judged` has returned this verdict: keeps the frame's timestamp
    /// if it is admitted.
    pub fn keep_verdict(&mut self, frame: &RawFrame<'_>, answer: Admit)
        requires { answer ≡ kept_answer_to self.old.key self.old.stamps frame.now }
        ensures { Admits self.old self.new frame.now answer }
    {
        self.stamps.keep_verdict(&self.key, frame, answer);
    }

    // What `take` does, for such a frame.
    fn take_judged(&mut self, frame: &RawFrame<'_>, verifies: bool) -> Heard
        requires { verifies ≡ verified self.old.key frame.now frame.now.block }
        ensures { Takes self.old self.new frame.now result }
    {
        let answer = self.admit_judged(frame, verifies);
        match (answer, frame.block()) {
            (Admit::Admitted, Some(block)) => message_of(
                stream_on(frame.from(), block.link),
                frame,
            ),
            _ => Heard::Dropped(answer),
        }
    }

    // Tries a frame, and appends what is reported of it.
    #[inline]
    fn hear_frame(&mut self, frame: &Frame, out: &mut Vec<Heard>)
        requires { vec_len out.old < vec_capacity out.old }
        ensures told { (history : List Entry) → Represents self.old.stamps history
            → Told self.old.key history (frame.now ∷ []) out.old.items out.new.items self.new.stamps }
        ensures room { (vec_capacity out.old ≤ vec_capacity out.new) × (vec_len out.new ≡ vec_len out.old + 1) }
        ensures same { self.new ≡ record self.old { stamps = self.new.stamps } }
    {
        let heard = self.take(frame);
        let added = out.push(heard);
        added.unwrap();
    }

    // Receives what is at the start of some bytes, and returns how many bytes that takes.
    fn hear_front(&mut self, bytes: &[u8], out: &mut Vec<Heard>) -> usize
        requires some { 0 < length bytes.now }
        requires room { 12 ≤ length bytes.now → vec_len out.old < vec_capacity out.old }
        ensures size { (0 < result) × (result ≤ length bytes.now) }
        ensures heard { (history : List Entry) → Represents self.old.stamps history
            → FrontHeard self.old.extras self.old.key history bytes.now result out.old.items out.new.items
            self.new.stamps }
        ensures room { (vec_capacity out.old ≤ vec_capacity out.new)
            × (vec_len out.new * 12 ≤ vec_len out.old * 12 + result) }
        ensures same { self.new ≡ record self.old { stamps = self.new.stamps } }
    {
        match look(&self.extras, false, bytes) {
            Look::Frame(frame, size) => {
                self.hear_frame(&frame, out);
                size
            }
            Look::NotHere(_) => 1,
            Look::More(_) => 1,
        }
    }

    /// Takes a datagram as a whole input by itself, and appends what is reported of each of its frames, in order.
    /// Allocates the memory for that first, and without it nothing changes.
    pub fn receive(&mut self, datagram: &[u8], out: &mut Vec<Heard>) -> Result<(), NoMemory>
        ensures received { OnOk result ((history : List Entry) → Represents self.old.stamps history
            → Received self.old.extras self.old.key history datagram.now out.old.items out.new.items self.new.stamps) }
        ensures same { self.new ≡ record self.old { stamps = self.new.stamps } }
        ensures unchanged { OnErr result (self.new ≡ self.old) }
        ensures kept { OnErr result (out.new.items ≡ out.old.items) }
    {
        out.reserve(datagram.len() / LEAST_FRAME_BYTES)?;
        let mut place = 0;
        while place < datagram.len() {
            place += self.hear_front(&datagram[place..], out);
        }
        Ok(())
    }

    /// Appends the frames of a datagram as a whole input by itself, in order, and tries none. Allocates the memory for
    /// that first, and without it nothing is appended.
    pub fn frames(&self, datagram: &[u8], out: &mut Vec<Frame>) -> Result<(), NoMemory>
        ensures frames { OnOk result (FramesOf self.now.extras datagram.now out.old.items out.new.items) }
        ensures kept { OnErr result (out.new.items ≡ out.old.items) }
    {
        append_frames(&self.extras, datagram, out)
    }

    /// Takes bytes of a stream that comes in pieces, and returns how many it took and the next frame of the stream,
    /// which isn't tried. Without a frame it took the whole piece, and every frame of the bytes taken was returned.
    /// Doesn't allocate.
    pub fn read(&mut self, piece: &[u8]) -> (usize, Option<Frame>)
        ensures count { result.0 ≤ length piece.now }
        ensures read { (taken : List ℕ) (given : List Event)
            → Progress self.old.extras false taken given (reader_of self.old)
            → ReadTo self.old.extras (taken ++ take result.0 piece.now) given result.1 (reader_of self.new) }
        ensures none { result.1 ≡ None → result.0 ≡ length piece.now }
        ensures same { self.new ≡ record self.old { held = self.new.held } }
    {
        read_frame(&mut self.reader, piece)
    }

    /// Takes bytes of a stream that comes in pieces, and returns how many it took and what is reported of the next
    /// frame of the stream. Without a frame it took the whole piece, and every frame of the bytes taken was reported.
    /// Doesn't allocate.
    pub fn receive_part(&mut self, piece: &[u8]) -> (usize, Option<Heard>)
        ensures count { result.0 ≤ length piece.now }
        ensures heard { (taken : List ℕ) (given : List Event) (history : List Entry)
            → Progress self.old.extras false taken given (reader_of self.old) → Represents self.old.stamps history
            → PartHeard self.old.extras self.old.key history (taken ++ take result.0 piece.now) given result.1
            (reader_of self.new) self.new.stamps }
        ensures none { result.1 ≡ None → result.0 ≡ length piece.now }
        ensures same { self.new ≡ record self.old { stamps = self.new.stamps; held = self.new.held } }
    {
        let (taken, frame) = self.read(piece);
        match frame {
            Some(frame) => (taken, Some(self.take(&frame))),
            None => (taken, None),
        }
    }

    // Writes the frame of a message, with a block that is still to be signed.
    fn write_frame(&self, message: &Message, stamp: u64, frame: &mut SignedFrame)
        requires { stamp < 2 ^ 48 }
        ensures frame { FrameOf self.now.me self.now.extras self.now.seq stamp message.now frame.new }
        ensures block { IfSome frame.new.block (λ block. (block.link ≡ self.now.me.link) × (block.stamp ≡ stamp)) }
    {
        let mut payload = Buffer::new();
        message.serialise(&mut payload);
        let from = Name {
            sys: self.me.sys,
            comp: self.me.comp,
        };
        let block = Block {
            link: self.me.link,
            stamp,
            sig: [0; 6],
        };
        frame.seal(
            self.seq,
            from,
            message.id(),
            payload.truncated(),
            self.extra_of(message),
            block,
        );
    }

    // The CRC_EXTRA of a message.
    fn extra_of(&self, message: &Message) -> u8
        ensures { extra_of (definition_of message.now).id self.now.extras ≡ Some result }
    {
        self.extras.get(message.id()).unwrap()
    }

    /// Makes the frame that carries a message: with the next sequence number and timestamp, signed. The clock counts
    /// units of 10 microseconds since 1 January 2015, and the timestamp is the one that `ahead` returns at it. If none
    /// is left nothing has changed.
    pub fn send(&mut self, message: &Message, clock: u64) -> Result<Frame, StampsSpent>
        ensures { Sends self.old self.new clock message.now result }
    {
        let mut frame = SignedFrame::new();
        match self.send_bytes(message, clock, &mut frame) {
            Ok(()) => Ok(frame.raw().to_frame()),
            Err(spent) => Err(spent),
        }
    }

    /// Writes the same frame over another, as the bytes that encode it, with the key under which it is signed.
    pub fn send_bytes(
        &mut self,
        message: &Message,
        clock: u64,
        frame: &mut SignedFrame,
    ) -> Result<(), StampsSpent>
        ensures sends { Sends self.old self.new clock message.now (with_frame frame.new result) }
        ensures kept { OnErr result (frame.new ≡ frame.old) }
    {
        let stamp = self.stamps.next_stamp(clock)?;
        self.write_frame(message, stamp, frame);
        frame.sign(&self.key);
        self.seq = self.seq.wrapping_add(1);
        Ok(())
    }
}
