// The frames that a port's reader found, until a turn.
ghost use Rattle.std.specs.Prelude.{◌≡◌, ◌<◌, ◌≤◌, ◌-◌, ◌++◌, ◌∷◌, [], length, map, take, drop, All, IfOk, OnOk};
ghost use Rattle.std.specs.Prelude.{OnErr, slice_get, Some, vec_len, vec_capacity};
ghost use Rattle.mav_router.specs.Found.{IsJudged, Judged, KeepsFound, packets_of};
ghost use Rattle.mav_stream.specs.Spans.{first_packet, held_after, next_span};
ghost use Rattle.mav_router.specs.Finds.{FindsAll, FindsUntaken};
ghost use Rattle.mav_router.specs.Spans.{AreFound, judged_of};
ghost use Rattle.mav_router.specs.Admitting.{AdmitsThese};

use crate::admitting::admit_frames;
use crate::buffer::Buffer;
use crate::hearing::next_frame;
use crate::judging::{Judgement, judge};
use crate::moves::put_last;
use crate::page::{Head, Page};
use crate::spans::{Span, append, frame_in};
use crate::{NoMemory, RouterRules};
use link_table::LinkTable;
use mav_frame::{Frame, RawFrame, encode};
use mav_sign::Stamps;
use mav_stream::{NextSpan, PieceReader, Scan};
use std::alloc::Global;
use std::marker::Model;
use std::mem;

// Frames with so many bytes are left in the buffer that they were read into: three quarters of what it has.
const MANY_BYTES: usize = 3282;

/// A frame without its bytes.
#[derive(Clone, Copy)]
pub(crate) struct FoundFrame {
    pub(crate) span: Span,
    pub(crate) judgement: Judgement,
}

/// Frames with their judgements, in their order. Their bytes stand as they will in the journal, whose page they
/// become: many where they were read, so that they aren't copied, and few in memory of their size.
pub(crate) struct FoundFrames {
    bytes: Vec<u8>,
    items: Vec<FoundFrame>,
    are_copied: bool,
    // Room for the next frames, and for the heads of the page.
    next: Vec<FoundFrame>,
    heads: Vec<Head>,
    alloc: Global,
}

// By hand, so that whoever drops them proves one call.
impl Drop for FoundFrames {
    fn drop(self) {
        let FoundFrames {
            bytes: _bytes,
            items: _items,
            are_copied: _,
            next: _next,
            heads: _heads,
            alloc: _,
        } = self;
    }
}

impl Model for FoundFrames {
    ghost use Rattle.std.specs.Prelude.{List, map};
    ghost use Rattle.mav_router.specs.Found.{Judged};
    ghost use Rattle.mav_router.specs.Spans.{judged_of, AreFound};

    ghost Value = { List Judged };

    ghost view = { λ f. map (judged_of f.bytes.items) f.items.items };

    ghost invariant = { λ f. AreFound f.bytes.items f.items.items };
}

/// The frame at an index.
pub(crate) fn item_at(items: &[FoundFrame], index: usize) -> FoundFrame
    requires { index < length items.now }
    ensures { slice_get items.now index ≡ Some result }
{
    items[index]
}

// Appends the frame of that length at the start of a scan, which is over the rest of these bytes, and takes it off
// there.
fn find_frame(
    rules: &RouterRules<'_>,
    scan: &mut Scan<'_, '_>,
    bytes: &[u8],
    size: usize,
    items: &mut Vec<FoundFrame>,
) -> Result<(), NoMemory>
    requires there { next_span scan.old ≡ NextSpan.Frame size }
    requires within { size ≤ length scan.old.bytes }
    requires rest { scan.old.bytes ≡ drop (length bytes.now - length scan.old.bytes) bytes.now }
    requires inside { length scan.old.bytes ≤ length bytes.now }
    ensures scan { OnOk result (scan.new ≡ held_after scan.old (NextSpan.Frame size)) }
    ensures held { AreFound bytes.now items.old.items → AreFound bytes.now items.new.items }
    ensures kept { OnOk result (KeepsFound rules.now (first_packet scan.old)
        (map (judged_of bytes.now) items.old.items)
        (map (judged_of bytes.now) items.new.items)) }
    ensures same { OnErr result ((scan.new ≡ scan.old) × (items.new.items ≡ items.old.items)) }
{
    let start = bytes.len() - scan.bytes().len();
    let span = Span {
        start,
        end: start + size,
    };
    let frame = scan.raw_frame(size);
    // It has at most 280.
    let _bytes = frame.bytes();
    let judgement = judge(rules, &frame);
    items.reserve(1)?;
    put_last(items, FoundFrame { span, judgement });
    scan.consume(size);
    Ok(())
}

// All frames of a scan over some bytes, with their judgements. Bytes that are skipped are counted.
fn find_frames(
    rules: &RouterRules<'_>,
    scan: &mut Scan<'_, '_>,
    bytes: &[u8],
    skipped: &mut u64,
    items: &mut Vec<FoundFrame>,
) -> Result<(), NoMemory>
    requires all { scan.old.bytes ≡ bytes.now }
    requires none { vec_len items.old ≡ 0 }
    ensures same { scan.new ≡ record scan.old { bytes = scan.new.bytes } }
    ensures held { AreFound bytes.now items.new.items }
    ensures judged { All (IsJudged rules.now) (map (judged_of bytes.now) items.new.items) }
    ensures room { OnOk result (length scan.new.bytes < 280) }
    ensures finds { OnOk result (FindsAll scan.old skipped.old scan.new skipped.new
        (packets_of (map (judged_of bytes.now) items.new.items))) }
    ensures unkept { OnErr result (FindsUntaken scan.old skipped.old) }
{
    'finding: loop {
        let Some(size) = next_frame(scan, skipped) else {
            return Ok(());
        };
        if let Err(fault) = find_frame(rules, scan, bytes, size, items) {
            return Err(fault);
        }
    }
}

// The same of all bytes of a read, after those that the port's reader held. What is left is held.
fn find_all<'b>(
    rules: &RouterRules<'_>,
    reader: &mut PieceReader,
    bytes: &'b [u8],
    skipped: &mut u64,
    items: &mut Vec<FoundFrame>,
) -> Result<(), NoMemory>
    requires none { vec_len items.old ≡ 0 }
    ensures ended { reader.new.ended ≡ reader.old.ended }
    ensures held { AreFound bytes.now items.new.items }
    ensures judged { All (IsJudged rules.now) (map (judged_of bytes.now) items.new.items) }
    ensures finds { OnOk result (FindsAll (record reader.old { bytes = bytes.now }) skipped.old reader.new skipped.new
        (packets_of (map (judged_of bytes.now) items.new.items))) }
    ensures unkept { OnErr result (FindsUntaken (record reader.old { bytes = bytes.now }) skipped.old) }
{
    let mut scan = reader.scan(bytes);
    if let Err(fault) = find_frames(rules, &mut scan, bytes, skipped, items) {
        return Err(fault);
    }
    let rest: &'b [u8] = scan.bytes();
    reader.keep(rest);
    Ok(())
}

// Whether frames have enough bytes to be left in their buffer.
fn are_many(items: &[FoundFrame]) -> bool {
    let mut sum: usize = 0;
    for at in 0..items.len() {
        let span = items[at].span;
        sum = sum.saturating_add(span.end.saturating_sub(span.start));
    }
    sum >= MANY_BYTES
}

// Allocates room for one frame more, and with the first one for all bytes that may come with it.
fn make_room(bytes: &mut Vec<u8>, items: &mut Vec<FoundFrame>, room: usize) -> Result<(), NoMemory>
    ensures bytes { bytes.new.items ≡ bytes.old.items }
    ensures items { items.new.items ≡ items.old.items }
    ensures room { OnOk result (vec_len items.new < vec_capacity items.new) }
{
    if items.is_empty() {
        bytes.reserve_exact(room)?;
    }
    items.reserve(1)
}

impl FoundFrames {
    pub(crate) fn new(alloc: Global) -> FoundFrames
        ensures { result ≡ [] }
    {
        FoundFrames {
            bytes: Vec::new(alloc),
            items: Vec::new(alloc),
            are_copied: true,
            next: Vec::new(alloc),
            heads: Vec::new(alloc),
            alloc,
        }
    }

    pub(crate) fn clear(&mut self)
        ensures { self.new ≡ [] }
    {
        self.bytes.clear();
        self.items.clear();
    }

    /// Appends a frame. With the first one room for so many bytes is allocated.
    fn push(
        &mut self,
        frame: &RawFrame<'_>,
        judgement: Judgement,
        room: usize,
    ) -> Result<(), NoMemory>
        ensures added { OnOk result (self.new ≡ self.old ++
            (record { frame = frame.now; judgement = judgement }) ∷ []) }
        ensures unchanged { OnErr result (self.new ≡ self.old) }
    {
        make_room(&mut self.bytes, &mut self.items, room)?;
        let span = append(&mut self.bytes, frame)?;
        put_last(&mut self.items, FoundFrame { span, judgement });
        Ok(())
    }

    /// Appends a frame, judged by these rules.
    pub(crate) fn keep(&mut self, rules: &RouterRules<'_>, frame: &Frame) -> Result<(), NoMemory>
        ensures kept { OnOk result (KeepsFound rules.now frame.now self.old self.new) }
    {
        let mut bytes = [0; 280];
        let size = encode(frame, &mut bytes);
        let raw = RawFrame::of(frame, &bytes[..size]);
        let judgement = judge(rules, &raw);
        self.push(&raw, judgement, size)
    }

    // Copies frames that were found in these bytes.
    fn copy(&mut self, bytes: &[u8], items: &[FoundFrame]) -> Result<(), NoMemory>
        requires { AreFound bytes.now items.now }
        ensures { OnOk result (self.new ≡ map (judged_of bytes.now) items.now) }
    {
        self.clear();
        self.are_copied = true;
        for at in 0..items.len() {
            let one = item_at(items, at);
            self.push(&frame_in(bytes, one.span), one.judgement, bytes.len())?;
        }
        Ok(())
    }

    // Takes frames that were found in so many first bytes of a buffer, and if they are many the buffer's memory with
    // them.
    fn hold(
        &mut self,
        buf: &mut Buffer,
        size: usize,
        items: Vec<FoundFrame>,
    ) -> Result<(), NoMemory>
        requires within { size ≤ 4376 }
        requires held { AreFound (take size buf.old) items.items }
        requires some { 0 < vec_len items }
        ensures held { OnOk result (self.new ≡ map (judged_of (take size buf.old)) items.items) }
        ensures some { 0 < length items.items }
    {
        if are_many(&items) {
            self.bytes = buf.give(self.alloc, size)?;
            self.next = mem::replace(&mut self.items, items);
            self.are_copied = false;
            return Ok(());
        }
        self.copy(&buf.bytes()[..size], &items)?;
        self.next = items;
        Ok(())
    }

    /// Finds all frames in so many first bytes of a buffer, which are those that a port's reader held and those of a
    /// read after them, with their judgements. What is left is held, and bytes that are skipped are counted.
    pub(crate) fn find(
        &mut self,
        rules: &RouterRules<'_>,
        reader: &mut PieceReader,
        skipped: &mut u64,
        buf: &mut Buffer,
        size: usize,
    ) -> Result<(), NoMemory>
        requires within { size ≤ 4376 }
        ensures ended { reader.new.ended ≡ reader.old.ended }
        ensures judged { OnOk result (All (IsJudged rules.now) self.new) }
        ensures finds { OnOk result (FindsAll
            (record reader.old { bytes = take size buf.old }) skipped.old reader.new skipped.new
            (packets_of self.new)) }
        ensures unkept { OnErr result (FindsUntaken (record reader.old { bytes = take size buf.old }) skipped.old) }
    {
        let mut items = mem::replace(&mut self.next, Vec::new(self.alloc));
        items.clear();
        if let Err(fault) = find_all(rules, reader, &buf.bytes()[..size], skipped, &mut items) {
            return Err(fault);
        }
        if items.is_empty() {
            self.clear();
            self.next = items;
            return Ok(());
        }
        if let Err(fault) = self.hold(buf, size, items) {
            return Err(fault);
        }
        self.settle();
        Ok(())
    }

    // Gives back what memory isn't needed, and allocates that of the page's heads, if there is any.
    fn settle(&mut self)
        ensures { self.new ≡ self.old }
    {
        if self.are_copied {
            self.bytes.shrink_to_fit();
        }
        if let Err(_) = self.heads.reserve_exact(self.items.len()) {}
    }

    pub(crate) fn len(&self) -> usize
        ensures { result ≡ length self.now }
    {
        self.items.len()
    }

    /// Moves the bytes into a page, of which so many frames are entries of the port, in their order.
    pub(crate) fn admit(
        &mut self,
        count: usize,
        rules: &RouterRules<'_>,
        stamps: &mut Stamps,
        table: &mut LinkTable,
        port: u8,
    ) -> Result<Page, NoMemory>
        requires from { 1 ≤ port }
        requires to { port ≤ table.old.ports }
        requires few { port ≤ 8 }
        requires within { count ≤ length self.old }
        requires judged { All (IsJudged rules.now) self.old }
        ensures admits { IfOk result (λ page. AdmitsThese rules.now port
            (take count (packets_of self.old)) stamps.old stamps.new table.old table.new page) }
        ensures unchanged { OnErr result ((stamps.new ≡ stamps.old) × (table.new ≡ table.old)) }
    {
        self.heads.clear();
        self.heads.reserve(count)?;
        admit_frames(
            &self.bytes,
            &self.items,
            count,
            &mut self.heads,
            rules,
            stamps,
            table,
            port,
        );
        let bytes = mem::replace(&mut self.bytes, Vec::new(self.alloc));
        let heads = mem::replace(&mut self.heads, Vec::new(self.alloc));
        self.items.clear();
        Ok(Page::of(bytes, heads, self.are_copied))
    }
}
