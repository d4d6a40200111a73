// What a verifier keeps: the timestamps that it admitted and sent.
ghost use Rattle.std.specs.Prelude.{◌≡◌, ◌+◌, ◌<◌, ◌^◌, ◌++◌, ◌∷◌, [], List, max, Some, IfOk, OnOk, OnErr};
ghost use Rattle.mav_sign.specs.declared.admission.Admit.TheVariants.{Admitted};
ghost use Rattle.mav_sign.specs.Signing.{verified};
ghost use Rattle.mav_sign.specs.History.{Entry, sent, started, last_of, local_of, next_in, stamp_given};
ghost use Rattle.mav_sign.specs.Kept.{IsStream, Represents, KeptAfter, IsVerdict, HasTried, stream_number, stamp_at};
ghost use Rattle.mav_sign.specs.Kept.{local_kept, kept_answer, kept_answer_to, kept_next, HasRoom};

use crate::signing::verifies_raw;
use crate::table::{ONE_MINUTE, STREAM_LIMIT, Table};
use crate::{Admit, Key, NoMemory, StampsSpent};
use mav_frame::{Frame, RawFrame, encode};
use mav_names::{Name, Stream};
use std::alloc::Global;
use std::marker::Model;

// The greatest timestamp of 6 bytes.
const GREATEST_STAMP: u64 = 0xFFFF_FFFF_FFFF;

/// The timestamps of a verifier. Contracts see what it keeps; it represents the history of the frames that it tried
/// and of the timestamps that it gave (MAVLink guide, Message Signing: Timestamp Handling).
pub struct Stamps {
    low: Option<u64>,
    last: Table,
    accepted: u64,
    previous: u64,
}

// By hand, so that whoever drops them proves one call.
impl Drop for Stamps {
    fn drop(self) {
        let Stamps {
            low: _,
            last: _last,
            accepted: _,
            previous: _,
        } = self;
    }
}

impl Model for Stamps {
    ghost use Rattle.std.specs.Prelude.{◌<◌, ◌^◌};
    ghost use Rattle.mav_sign.specs.Kept.{Kept};

    ghost Value = { Kept };

    ghost view = { λ s. record { low = s.low; last = s.last; accepted = s.accepted; previous = s.previous } };

    ghost invariant = { λ s. (s.accepted < 2 ^ 48) × (s.previous < 2 ^ 48) };
}

/// The stream of that node and link.
pub(crate) fn stream_on(node: Name, link: u8) -> Stream
    ensures stream { result ≡ record { sys = node.sys; comp = node.comp; link = link } }
    ensures bytes { IsStream result }
{
    let Name { sys, comp } = node;
    Stream { sys, comp, link }
}

impl Stamps {
    /// Nothing was tried, and nothing sent. Allocates the memory for all that is kept later.
    pub fn new(alloc: Global) -> Result<Stamps, NoMemory>
        ensures { IfOk result (λ stamps. Represents stamps []) }
    {
        let last = Table::new(alloc)?;
        Ok(Stamps {
            low: None,
            last,
            accepted: 0,
            previous: 0,
        })
    }

    /// Starts with a persisted timestamp low bound, the floor: a frame is admitted only if its timestamp is greater,
    /// and it counts as the previous timestamp sent. Allocates the memory for all that is kept later.
    pub fn start(alloc: Global, floor: u64) -> Result<Stamps, NoMemory>
        requires { floor < 2 ^ 48 }
        ensures { IfOk result (λ stamps. Represents stamps (started floor ∷ [])) }
    {
        let last = Table::new(alloc)?;
        Ok(Stamps {
            low: Some(floor),
            last,
            accepted: 0,
            previous: floor,
        })
    }

    /// The last admitted timestamp of a stream; None if none of its frames was admitted.
    pub fn last(&self, stream: Stream) -> Option<u64>
        ensures kept { result ≡ stamp_at (stream_number stream) self.now.last }
        ensures history { (history : List Entry) → Represents self.now history → result ≡ last_of stream history }
    {
        self.last.get(stream)
    }

    /// The greatest timestamp that was admitted or sent; at first the persisted timestamp low bound, or 0 without one.
    pub fn local(&self) -> u64
        ensures kept { result ≡ local_kept self.now }
        ensures history { (history : List Entry) → Represents self.now history → result ≡ local_of history }
    {
        self.accepted.max(self.previous)
    }

    // The verdict on a right signature.
    fn answer(&self, stream: Stream, stamp: u64) -> Admit
        requires { stamp < 2 ^ 48 }
        ensures { result ≡ kept_answer self.now stream stamp }
    {
        if let Some(floor) = self.low {
            if stamp <= floor {
                return Admit::BelowFloor { floor };
            }
        }
        let last = self.last.get(stream);
        if let Some(last) = last {
            if stamp <= last {
                return Admit::NotLater { last };
            }
        }
        let local = self.local();
        if stamp + ONE_MINUTE < local {
            return Admit::TooOld { local };
        }
        if last.is_none() && self.last.count() >= STREAM_LIMIT {
            return Admit::TooManyStreams;
        }
        Admit::Admitted
    }

    // Keeps a timestamp by the verdict on it: if it is admitted.
    fn keep_stamp(&mut self, stream: Stream, stamp: u64, answer: Admit)
        requires small { stamp < 2 ^ 48 }
        requires right { answer ≡ Admitted → kept_answer self.old stream stamp ≡ Admitted }
        ensures { KeptAfter answer stream stamp self.old self.new }
    {
        if let Admit::Admitted = answer {
            self.last.put(stream, stamp);
            self.accepted = self.accepted.max(stamp);
        }
    }

    /// The verdict that `admit` would give. Nothing changes.
    pub fn test(&self, key: &Key, frame: &Frame) -> Admit
        ensures { IsVerdict key.now self.now frame.now result }
    {
        let mut bytes = [0; 280];
        let size = encode(frame, &mut bytes);
        let raw = RawFrame::of(frame, &bytes[..size]);
        self.test_judged(key, &raw, verifies_raw(key, &raw))
    }

    /// What `test` does, for a frame as the bytes that encode it, of which it is already known whether it verifies. No
    /// timestamp changes that, so it may be found before.
    pub fn test_judged(&self, key: &Key, frame: &RawFrame<'_>, verifies: bool) -> Admit
        requires { verifies ≡ verified key.now frame.now frame.now.block }
        ensures { IsVerdict key.now self.now frame.now result }
    {
        let _ = key;
        let Some(block) = frame.block() else {
            return Admit::Unsigned;
        };
        if !verifies {
            return Admit::BadSignature;
        }
        self.answer(stream_on(frame.from(), block.link), block.stamp)
    }

    /// Tries a frame, and keeps its timestamp if it is admitted.
    pub fn admit(&mut self, key: &Key, frame: &Frame) -> Admit
        ensures { HasTried key.now self.old self.new frame.now result }
    {
        let mut bytes = [0; 280];
        let size = encode(frame, &mut bytes);
        let raw = RawFrame::of(frame, &bytes[..size]);
        self.admit_judged(key, &raw, verifies_raw(key, &raw))
    }

    /// What `admit` does, for a frame of which it is already known whether it verifies.
    #[inline]
    pub fn admit_judged(&mut self, key: &Key, frame: &RawFrame<'_>, verifies: bool) -> Admit
        requires { verifies ≡ verified key.now frame.now frame.now.block }
        ensures { HasTried key.now self.old self.new frame.now result }
    {
        let answer = self.test_judged(key, frame, verifies);
        self.keep_verdict(key, frame, answer);
        answer
    }

    /// Forgets the streams whose last timestamp is more than a minute before the greatest one admitted, if there is no
    /// room for another stream: their old frames would be too old all the same. Without memory nothing changes.
    pub fn make_room(&mut self) -> Result<(), NoMemory>
        ensures room { OnOk result (HasRoom self.old self.new) }
        ensures unchanged { OnErr result (self.new ≡ self.old) }
    {
        if self.last.count() < STREAM_LIMIT {
            return Ok(());
        }
        self.last.forget(self.accepted)?;
        Ok(())
    }

    /// What is left to do of `admit_judged` once `test_judged` has returned this verdict: keeps the frame's timestamp
    /// if it is admitted.
    pub fn keep_verdict(&mut self, key: &Key, frame: &RawFrame<'_>, answer: Admit)
        requires { answer ≡ kept_answer_to key.now self.old frame.now }
        ensures { HasTried key.now self.old self.new frame.now answer }
    {
        let _ = key;
        match frame.block() {
            Some(block) => {
                self.keep_stamp(stream_on(frame.from(), block.link), block.stamp, answer)
            }
            None => {}
        }
    }

    /// The timestamp that `next_stamp` would return at that clock. Nothing changes.
    pub fn ahead(&self, clock: u64) -> Result<u64, StampsSpent>
        ensures kept { result ≡ stamp_given (kept_next self.now clock) }
        ensures later { IfOk result (λ stamp. self.now.previous < stamp) }
        ensures small { IfOk result (λ stamp. stamp < 2 ^ 48) }
        ensures answer { (history : List Entry) → Represents self.now history
            → result ≡ stamp_given (next_in history clock) }
    {
        let next = (self.previous + 1).max(clock.max(self.accepted));
        if next > GREATEST_STAMP {
            return Err(StampsSpent);
        }
        Ok(next)
    }

    /// Returns the next timestamp: above the previous one, and not below the clock, which counts units of 10
    /// microseconds since 1 January 2015, and each admitted one.
    pub fn next_stamp(&mut self, clock: u64) -> Result<u64, StampsSpent>
        ensures kept { result ≡ stamp_given (kept_next self.old clock) }
        ensures rises { IfOk result (λ stamp. self.old.previous < stamp) }
        ensures small { IfOk result (λ stamp. stamp < 2 ^ 48) }
        ensures unchanged { OnErr result (self.new ≡ self.old) }
        ensures answer { (history : List Entry) → Represents self.old history
            → result ≡ stamp_given (next_in history clock) }
        ensures history { IfOk result (λ stamp. (history : List Entry) → Represents self.old history
            → Represents self.new (history ++ sent stamp ∷ [])) }
    {
        let next = self.ahead(clock)?;
        self.previous = next;
        Ok(next)
    }
}
