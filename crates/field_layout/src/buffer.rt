// A payload as it is written.
ghost use Rattle.std.specs.Prelude.{◌≡◌, ◌+◌, ◌*◌, ◌-◌, ◌<◌, ◌≤◌, [], ◌∷◌, ◌++◌, length, flat_map, replicate, ℕ};
ghost use Rattle.std.specs.Prelude.{slice_index};
ghost use Rattle.field_layout.specs.Payload.{le_bytes, truncated};

use std::marker::Model;

/// The bytes of a payload so far, which contracts see as their list. The rest of the buffer is zeros.
#[derive(Drop)]
pub struct Buffer {
    bytes: [u8; 255],
    len: usize,
}

impl Model for Buffer {
    ghost use Rattle.std.specs.Prelude.{◌≡◌, ◌-◌, ◌≤◌, ℕ, List, take, drop, replicate};

    ghost Value = { List ℕ };

    ghost view = { λ b. take b.len b.bytes };

    ghost invariant = { λ b. (b.len ≤ 255) × (drop b.len b.bytes ≡ replicate (255 - b.len) 0) };
}

// How many bytes of a payload are sent.
fn truncated_len(payload: &[u8]) -> usize
    ensures { result ≡ length (truncated payload.now) }
{
    let mut len = payload.len();
    while len > 1 && payload[len - 1] == 0 {
        len -= 1;
    }
    len
}

impl Buffer {
    /// Without a byte.
    pub fn new() -> Buffer
        ensures { result ≡ [] }
    {
        Buffer {
            bytes: [0; 255],
            len: 0,
        }
    }

    fn push(&mut self, byte: u8)
        requires { length self.old < 255 }
        ensures { self.new ≡ self.old ++ byte ∷ [] }
    {
        self.bytes[self.len] = byte;
        self.len += 1;
    }

    // Appends the low bytes of a word, lowest first.
    fn push_word(&mut self, size: usize, word: u64)
        requires { length self.old + size ≤ 255 }
        ensures { self.new ≡ self.old ++ le_bytes size word }
    {
        let mut rest = word;
        for _byte in 0..size {
            self.push((rest % 256) as u8);
            rest /= 256;
        }
    }

    /// Appends the low bytes of each word, lowest first.
    pub(crate) fn push_words(&mut self, size: usize, words: &[u64])
        requires { length self.old + size * length words.now ≤ 255 }
        ensures { self.new ≡ self.old ++ flat_map (le_bytes size) words.now }
    {
        for word in words {
            self.push_word(size, *word);
        }
    }

    /// Appends a byte.
    pub fn put_u8(&mut self, byte: u8)
        requires { length self.old + 1 ≤ 255 }
        ensures bytes { self.new ≡ self.old ++ le_bytes 1 byte }
        ensures len { length self.new ≡ length self.old + 1 }
        ensures small { byte < 256 }
    {
        self.push(byte);
    }

    /// Appends the 2 bytes of a word, lowest first.
    pub fn put_u16(&mut self, word: u16)
        requires { length self.old + 2 ≤ 255 }
        ensures bytes { self.new ≡ self.old ++ le_bytes 2 word }
        ensures len { length self.new ≡ length self.old + 2 }
        ensures small { word < 65536 }
    {
        self.push((word % 256) as u8);
        self.push((word / 256) as u8);
    }

    /// Appends the 4 bytes of a word, lowest first.
    pub fn put_u32(&mut self, word: u32)
        requires { length self.old + 4 ≤ 255 }
        ensures bytes { self.new ≡ self.old ++ le_bytes 4 word }
        ensures len { length self.new ≡ length self.old + 4 }
        ensures small { word < 4294967296 }
    {
        self.put_u16((word % 65536) as u16);
        self.put_u16((word / 65536) as u16);
    }

    /// Appends the 8 bytes of a word, lowest first.
    pub fn put_u64(&mut self, word: u64)
        requires { length self.old + 8 ≤ 255 }
        ensures bytes { self.new ≡ self.old ++ le_bytes 8 word }
        ensures len { length self.new ≡ length self.old + 8 }
        ensures small { word < 18446744073709551616 }
    {
        self.put_u32((word % 4294967296) as u32);
        self.put_u32((word / 4294967296) as u32);
    }

    /// Appends bytes.
    pub fn put_bytes(&mut self, bytes: &[u8])
        requires { length self.old + length bytes.now ≤ 255 }
        ensures bytes { self.new ≡ self.old ++ flat_map (le_bytes 1) bytes.now }
        ensures len { length self.new ≡ length self.old + length bytes.now }
        ensures small { (k : ℕ) → slice_index bytes.now k < 256 }
    {
        let end = self.len + bytes.len();
        self.bytes[self.len..end].copy_from_slice(bytes);
        self.len = end;
    }

    /// Copies the payload out, with zeros after it.
    pub fn copy_to(&self, out: &mut [u8; 255])
        ensures { out.new ≡ truncated self.now ++ replicate (255 - length (truncated self.now)) 0 }
    {
        *out = self.bytes;
    }

    /// The bytes that are sent: all but the zeros at the end, and at least the first (MAVLink guide, Packet
    /// Serialization: Empty-Byte Payload Truncation).
    pub fn truncated(&self) -> &[u8]
        ensures bytes { result.now ≡ truncated self.now }
        ensures short { length result.now ≤ 255 }
    {
        let payload = &self.bytes[..self.len];
        &payload[..truncated_len(payload)]
    }

    /// How many bytes are sent: all but the zeros at the end, and at least the first.
    pub fn truncated_len(&self) -> u8
        ensures { result ≡ length (truncated self.now) }
    {
        truncated_len(&self.bytes[..self.len]) as u8
    }
}
