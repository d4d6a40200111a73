// The frames that were sent.
ghost use Rattle.std.specs.Prelude.{◌≡◌, ◌≤◌, ◌++◌, ◌∷◌, [], length, option_map, slice_get, IsTrue, OnOk, OnErr, IfOk};
ghost use Rattle.mav_sign.specs.Signing.{BytesVerify};
ghost use Rattle.fleet_world.specs.Cuts.{cut, span_after};
ghost use Rattle.fleet_world.specs.WorldView.{Kept, kept_as, bytes_of};

use crate::NoMemory;
use mav_names::Name;
use mav_sign::{Datagram, Key, SignedFrame};
use std::alloc::Global;
use std::marker::Model;

// A frame's sender, the offsets of its bytes, from `start` up to `end`, and whether it is known to verify under the
// scenario's key.
#[derive(Clone, Copy)]
struct Span {
    start: usize,
    end: usize,
    from: Name,
    signed: bool,
}

/// The bytes of the sent frames, one after another, with their senders. Contracts see a pair for each frame. Which of
/// them were signed under the scenario's key is kept, so that no node has to take a digest of these.
#[derive(Drop)]
pub(crate) struct SentFrames {
    key: Key,
    bytes: Vec<u8>,
    spans: Vec<Span>,
}

impl Model for SentFrames {
    ghost use Rattle.std.specs.Prelude.{List};
    ghost use Rattle.fleet_world.specs.WorldView.{Kept};
    ghost use Rattle.fleet_world.specs.Cuts.{cuts, AreWithin, AreSigned};

    ghost Value = { List Kept };

    ghost view = { λ f. cuts f.bytes.items f.spans.items };

    ghost invariant = { λ f. AreWithin f.bytes.items f.spans.items × AreSigned f.key f.bytes.items f.spans.items };
}

fn span_at(spans: &[Span], index: usize) -> Option<Span>
    ensures { result ≡ slice_get spans.now index }
{
    spans.get(index).copied()
}

fn part(bytes: &[u8], at: Span) -> &[u8]
    requires order { at.start ≤ at.end }
    requires below { at.end ≤ length bytes.now }
    ensures { result.now ≡ (cut bytes.now at).1 }
{
    &bytes[at.start..at.end]
}

// The frame of a span as a datagram.
fn datagram_at<'a>(key: Key, bytes: &'a [u8], at: Span) -> Datagram<'a>
    requires order { at.start ≤ at.end }
    requires below { at.end ≤ length bytes.now }
    requires signed { IsTrue at.signed → BytesVerify key (cut bytes.now at).1 }
    ensures { result ≡ (cut bytes.now at).1 }
{
    let frame = part(bytes, at);
    if at.signed {
        Datagram::signed(frame, key)
    } else {
        Datagram::new(frame)
    }
}

// Appends the bytes of a sender's frame, and returns their span.
fn append(bytes: &mut Vec<u8>, from: Name, signed: bool, frame: &[u8]) -> Result<Span, NoMemory>
    ensures joined { OnOk result (bytes.new.items ≡ bytes.old.items ++ frame.now) }
    ensures span { IfOk result (λ span. span ≡ span_after from signed bytes.old.items frame.now) }
    ensures kept { OnErr result (bytes.new.items ≡ bytes.old.items) }
{
    let start = bytes.len();
    bytes.extend_from_slice(frame)?;
    Ok(Span {
        start,
        end: bytes.len(),
        from,
        signed,
    })
}

impl SentFrames {
    /// None yet, of nodes that have this key.
    pub(crate) fn new(alloc: Global, key: Key) -> SentFrames
        ensures { result ≡ [] }
    {
        SentFrames {
            key,
            bytes: Vec::new(alloc),
            spans: Vec::new(alloc),
        }
    }

    #[tactic(auto, using(crate::proofs::CutBytes::cuts_length))]
    pub(crate) fn len(&self) -> usize
        ensures { result ≡ length self.now }
    {
        self.spans.len()
    }

    /// Who sent the frame of an index, from 0.
    pub(crate) fn sender(&self, index: usize) -> Option<Name>
        ensures { result ≡ option_map (λ (kept : Kept). kept.0) (slice_get self.now index) }
    {
        match span_at(&self.spans, index) {
            Some(at) => Some(at.from),
            None => None,
        }
    }

    /// The frame of an index as a datagram, which is empty if there is no such frame.
    pub(crate) fn datagram(&self, index: usize) -> Datagram<'_>
        ensures { result ≡ bytes_of (slice_get self.now index) }
    {
        match span_at(&self.spans, index) {
            Some(at) => datagram_at(self.key, &self.bytes, at),
            None => Datagram::new(&[]),
        }
    }

    /// One frame more.
    pub(crate) fn push(&mut self, frame: &SignedFrame) -> Result<(), NoMemory>
        ensures { OnOk result (self.new ≡ self.old ++ kept_as frame.now ∷ []) }
    {
        let signed = frame.is_signed_under(&self.key);
        let raw = frame.raw();
        let span = append(&mut self.bytes, raw.from(), signed, raw.bytes())?;
        self.spans.push(span)?;
        Ok(())
    }
}
