// What a command makes of the bytes of an input.
ghost use Rattle.std.specs.Prelude.{◌≡◌, ◌<◌, ◌≤◌, ◌+◌, ◌*◌, ◌++◌, ℕ, Bool, List, length, true, false, OnOk, IfOk};

use mav_frame::Why;
use mav_ports::NoMemory;
use mav_stream::NextSpan;

/// A text that is made of the bytes of an input as they come.
pub trait Teller {
    ghost use Rattle.decode_command.specs.Tellings.{Telling, Leads, TellsSpan, most_load};
    ghost use Rattle.mav_stream.specs.Spans.{IfNeed};
    ghost use Rattle.mav_stream.specs.declared.spans.NextSpan.{NextSpan};

    /// What it makes of an input.
    ghost telling: { Self → Telling };

    /// Whether it took these bytes and told this text of them; the Bool says whether the input has ended.
    ghost has_told: { Self → Bool → List ℕ → List ℕ → Type 0 };

    /// And whether that is all there is to tell of them.
    ghost has_told_all: { Self → Bool → List ℕ → List ℕ → Type 0 };

    /// Whether this is at the start of the bytes that it holds.
    ghost begins: { Self → NextSpan → Type 0 };

    /// How many bytes it holds of which nothing was told yet.
    ghost held: { Self → ℕ };

    /// A bound on its counts.
    ghost load: { Self → ℕ };

    /// Takes the next bytes, for which there is room.
    fn feed(&mut self, piece: &[u8])
        requires { held self.old + length piece.now ≤ 65824 }
        ensures same { telling self.new ≡ telling self.old }
        ensures load { load self.new ≤ load self.old + 3 * length piece.now }
        ensures told { (taken told : List ℕ) → has_told self.old false taken told
            → has_told self.new false (taken ++ piece.now) told };

    /// The input has ended.
    fn end(&mut self)
        ensures same { telling self.new ≡ telling self.old }
        ensures load { load self.new ≤ load self.old }
        ensures told { (taken told : List ℕ) → has_told self.old false taken told
            → has_told self.new true taken told };

    /// What is at the start of the bytes held.
    fn next_span(&self) -> NextSpan
        ensures begins { begins self.now result }
        ensures room { IfNeed result (held self.now < 288) }
        ensures all { (ended : Bool) (taken told : List ℕ) → has_told self.now ended taken told
            → IfNeed result (has_told_all self.now ended taken told) };

    /// Appends the text of the event there, and removes its bytes, which are so many.
    fn tell_event(&mut self, size: usize, text: &mut Vec<u8>) -> Result<(), NoMemory>
        requires load { load self.old ≤ most_load }
        requires begins { begins self.old (NextSpan.Frame size) }
        ensures { TellsSpan telling has_told held load (NextSpan.Frame size) self.old self.new
            text.old.items text.new.items result };

    /// Appends the text of so many bytes there that are skipped, and removes them.
    fn tell_skips(&mut self, why: Why, count: usize, text: &mut Vec<u8>) -> Result<(), NoMemory>
        requires load { load self.old ≤ most_load }
        requires begins { begins self.old (NextSpan.Skipped why count) }
        ensures { TellsSpan telling has_told held load (NextSpan.Skipped why count) self.old self.new
            text.old.items text.new.items result };

    /// Appends what comes after all that was told of an input.
    fn close(&self, text: &mut Vec<u8>) -> Result<(), NoMemory>
        ensures { (taken told : List ℕ) → has_told_all self.now true taken told
            → OnOk result (text.new.items ≡ text.old.items ++ (telling self.now).closing taken) };

    /// What was told is a prefix of what it makes of the bytes taken.
    ghost leads: { (t : Self) (ended : Bool) (taken told : List ℕ) → has_told t ended taken told
        → Leads (telling t) ended taken told };

    /// And is that, once it is all.
    ghost all_told: { (t : Self) (ended : Bool) (taken told : List ℕ) → has_told_all t ended taken told
        → told ≡ (telling t).told ended taken };
}
