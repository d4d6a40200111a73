// What comes in at a port.
ghost use Rattle.std.specs.Prelude.{◌≡◌, ◌≤◌, ◌<◌, ◌-◌, ◌++◌, ◌∷◌, [], ℕ, List, length, drop, IfSome, IfNone};
ghost use Rattle.mav_router.specs.declared.entries.Entry.{Entry};
ghost use Rattle.mav_router.specs.Journal.{Rules, frames_from};
ghost use Rattle.mav_stream.specs.Spans.{first_packet, held_after, next_span};
ghost use Rattle.mav_router.specs.Runs.{Reading, AllRead};
ghost use Rattle.mav_router.specs.Faults.{StopsReading};

use mav_stream::{NextSpan, Scan};

/// How many bytes the next frame of a scan has, which is then at its start. Bytes that are skipped are counted.
pub(crate) fn next_frame(scan: &mut Scan<'_, '_>, skipped: &mut u64) -> Option<usize>
    ensures same { scan.new ≡ record scan.old { bytes = scan.new.bytes } }
    ensures there { IfSome result (λ size. next_span scan.new ≡ NextSpan.Frame size) }
    ensures size { IfSome result (λ size. (0 < size) × (size ≤ length scan.new.bytes)) }
    ensures fewer { length scan.new.bytes ≤ length scan.old.bytes }
    ensures rest { scan.new.bytes ≡ drop (length scan.old.bytes - length scan.new.bytes) scan.old.bytes }
    ensures found { IfSome result (λ size. (rules : Rules) (port : ℕ) (bytes : List ℕ) (journal after : List Entry)
        → Reading rules port bytes scan.old skipped.old journal
        → frames_from port after ≡ frames_from port journal ++ first_packet scan.new ∷ []
        → Reading rules port bytes (held_after scan.new (NextSpan.Frame size)) skipped.new after) }
    ensures untaken { IfSome result (λ size. (rules : Rules) (port : ℕ) (bytes : List ℕ) (journal after : List Entry)
        → Reading rules port bytes scan.old skipped.old journal
        → frames_from port after ≡ frames_from port journal
        → StopsReading scan.old.ended rules port bytes after) }
    ensures all { IfNone result ((rules : Rules) (port : ℕ) (bytes : List ℕ) (journal : List Entry)
        → Reading rules port bytes scan.old skipped.old journal
        → AllRead rules port bytes scan.new skipped.new journal) }
    ensures room { IfNone result (length scan.new.bytes < 280) }
{
    'reading: loop {
        match scan.next_span() {
            NextSpan::Frame(size) => return Some(size),
            NextSpan::Skipped(_, count) => {
                *skipped = skipped.saturating_add(count as u64);
                scan.consume(count);
            }
            NextSpan::Need => return None,
        }
    }
}
