// What `decode` tells of a stream.
ghost use Rattle.std.specs.Prelude.{◌≡◌, ◌+◌, ◌<◌, ◌≤◌, ◌^◌, ◌++◌, length, take, drop, true, OnOk, OnErr, IfOk};
ghost use Rattle.mav_profile.specs.Messages.{extras_of};
ghost use Rattle.mav_frame.specs.declared.events.Event.TheVariants.{Frame as FrameEvent};
ghost use Rattle.mav_stream.specs.Held.{nothing_held};
ghost use Rattle.mav_stream.specs.Spans.{first_packet, IsNextSpan};
ghost use Rattle.mav_text.specs.FrameText.{skip_lines};
ghost use Rattle.decode_command.specs.DecodeText.{event_line};

use crate::context::DecodeContext;
use crate::counts::put_counts;
use crate::prepared::Prepared;
use crate::tellers::Teller;
use dialect::Dialect;
use mav_frame::Why;
use mav_ports::NoMemory;
use mav_stream::{NextSpan, Scanner};
use mav_text::{Chunk, SkipBlocks, put_skips};
use std::alloc::Global;
use std::marker::Model;

/// A stream of which some bytes were taken, and the counts of its events so far.
#[derive(Drop)]
pub(crate) struct Decoder {
    known: Prepared,
    reader: Scanner,
    chunk: Chunk,
    blocks: SkipBlocks,
    /// The offset of the next event.
    offset: u64,
    frames: u64,
    skipped: u64,
}

impl Model for Decoder {
    ghost use Rattle.std.specs.Prelude.{◌≡◌, true};
    ghost use Rattle.decode_command.specs.Decodes.{Decoding};

    ghost Value = { Decoding };

    ghost view = { λ d. record {
      known = d.known;
      reader = d.reader;
      offset = d.offset;
      frames = d.frames;
      skipped =
          d.skipped;
    } };

    ghost invariant = { λ d. d.reader.reads_old ≡ true };
}

/// A reader of frames of both versions that have these messages, which has taken no byte.
pub fn scanner_of(alloc: Global, dialect: &Dialect) -> Result<Scanner, NoMemory>
    ensures { IfOk result (λ scanner. scanner ≡ nothing_held (extras_of dialect.now) true) }
{
    Scanner::new(alloc, dialect.extras().copy()?, true)
}

impl Decoder {
    pub(crate) fn new(alloc: Global, known: DecodeContext) -> Result<Decoder, NoMemory>
        ensures { IfOk result (λ decoder. decoder ≡ record {
          known = known;
          reader = nothing_held
              (extras_of known.dialect) true;
          offset = 0;
          frames = 0;
          skipped = 0;
        }) }
    {
        let reader = scanner_of(alloc, &known.dialect)?;
        Decoder::over(alloc, known, reader)
    }

    // A decoder over a reader that has taken no byte.
    fn over(alloc: Global, known: DecodeContext, reader: Scanner) -> Result<Decoder, NoMemory>
        requires { reader ≡ nothing_held (extras_of known.dialect) true }
        ensures { IfOk result (λ decoder. decoder ≡ record {
          known = known;
          reader = nothing_held
              (extras_of known.dialect) true;
          offset = 0;
          frames = 0;
          skipped = 0;
        }) }
    {
        let prepared = Prepared::new(alloc, known)?;
        Ok(Decoder {
            known: prepared,
            reader,
            chunk: Chunk::new(),
            blocks: SkipBlocks::new(),
            offset: 0,
            frames: 0,
            skipped: 0,
        })
    }

    pub(crate) fn discard(self) {}

    // Appends the line of the frame at the start of the bytes held.
    #[inline]
    fn append_frame(&mut self, size: usize, text: &mut Vec<u8>) -> Result<(), NoMemory>
        requires at { IsNextSpan self.old.reader (NextSpan.Frame size) }
        requires counts { self.old.offset + size < 2 ^ 64 × self.old.frames + 1 < 2 ^ 64 }
        ensures text { OnOk result (text.new.items ≡ text.old.items ++ event_line self.old.known self.old.offset
            (FrameEvent (first_packet self.old.reader))) }
        ensures same { OnErr result (self.new ≡ self.old) }
        ensures appended { OnOk result
            (self.new ≡ record self.old {
              reader = record self.old.reader { bytes = drop size self.old.reader.bytes };
              offset = self.old.offset + size;
              frames = self.old.frames + 1;
            }) }
    {
        let frame = self.reader.raw_frame(size);
        let bytes = self.reader.bytes();
        self.known
            .put_frame(self.offset, &frame, bytes, &mut self.chunk, text)?;
        self.reader.consume(size);
        self.offset += size as u64;
        self.frames += 1;
        Ok(())
    }

    // Appends the lines of bytes that are skipped there.
    fn append_skips(&mut self, why: Why, count: usize, text: &mut Vec<u8>) -> Result<(), NoMemory>
        requires size { count ≤ length self.old.reader.bytes }
        requires counts { self.old.offset + count < 2 ^ 64 × self.old.skipped + count < 2 ^ 64 }
        ensures text { OnOk result (text.new.items ≡ text.old.items ++ skip_lines self.old.offset
            (take count self.old.reader.bytes) why) }
        ensures same { OnErr result (self.new ≡ self.old) }
        ensures appended { OnOk result
            (self.new ≡ record self.old {
              reader = record self.old.reader { bytes = drop count self.old.reader.bytes };
              offset = self.old.offset + count;
              skipped = self.old.skipped + count;
            }) }
    {
        let bytes = &self.reader.bytes()[..count];
        put_skips(self.offset, bytes, why, &mut self.blocks, text)?;
        self.reader.consume(count);
        self.offset += count as u64;
        self.skipped += count as u64;
        Ok(())
    }
}

impl Teller for Decoder {
    ghost use Rattle.std.specs.Prelude.{length};
    ghost use Rattle.mav_stream.specs.Spans.{IsNextSpan};
    ghost use Rattle.decode_command.specs.Decodes.{HasDecoded, HasDecodedAll, decoding_load};
    ghost use Rattle.decode_command.specs.Spec.{decode_telling};
    ghost use Rattle.decode_command.specs.TellingLaws.{decoded_leads, decoded_all};

    ghost telling = { λ d. decode_telling d.known };

    ghost has_told = { HasDecoded };

    ghost has_told_all = { HasDecodedAll };

    ghost begins = { λ d. IsNextSpan d.reader };

    ghost held = { λ d. length d.reader.bytes };

    ghost load = { decoding_load };

    ghost leads = { decoded_leads };

    ghost all_told = { decoded_all };

    fn feed(&mut self, piece: &[u8]) {
        self.reader.feed(piece);
    }

    fn end(&mut self) {
        self.reader.end();
    }

    #[inline]
    fn next_span(&self) -> NextSpan {
        self.reader.next_span()
    }

    #[inline]
    fn tell_event(&mut self, size: usize, text: &mut Vec<u8>) -> Result<(), NoMemory> {
        self.append_frame(size, text)
    }

    fn tell_skips(&mut self, why: Why, count: usize, text: &mut Vec<u8>) -> Result<(), NoMemory> {
        self.append_skips(why, count, text)
    }

    fn close(&self, text: &mut Vec<u8>) -> Result<(), NoMemory> {
        put_counts("frames ", self.frames, self.skipped, text)
    }
}
