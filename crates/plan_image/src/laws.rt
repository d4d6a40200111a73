// What holds of every stored image.
ghost use Rattle.std.specs.Prelude.{◌≡◌, ◌≤◌, ℕ, List, length};
ghost use Rattle.plan_image.specs.Plans.{Plans};
ghost use Rattle.plan_image.specs.Image.{IsImageOf, most_bytes};

/// Bytes are the image of one low bound and three plans at most, so reading an image gives what was written.
pub fn every_reading()
    ensures { (sys a b : ℕ) → (p q : Plans) → (bytes : List ℕ) → IsImageOf sys a p bytes → IsImageOf sys b q bytes
        → (a ≡ b) × (p ≡ q) }
{}

/// An image has from 15 to 41,265 bytes.
pub fn every_length()
    ensures { (sys low : ℕ) → (plans : Plans) → (bytes : List ℕ) → IsImageOf sys low plans bytes → (15 ≤ length bytes)
        × (length bytes ≤ most_bytes) }
{}
