// Bytes that are given out from their start.
ghost use Rattle.std.specs.Prelude.{◌≡◌, ◌≤◌, length, take, drop};

use std::marker::Model;

#[derive(Drop)]
pub(crate) struct Remaining {
    bytes: Vec<u8>,
    at: usize,
}

impl Model for Remaining {
    ghost use Rattle.std.specs.Prelude.{◌≤◌, List, ℕ, length, drop};

    ghost Value = { List ℕ };

    ghost view = { λ r. drop r.at r.bytes.items };

    ghost invariant = { λ r. r.at ≤ length r.bytes.items };
}

impl Remaining {
    pub(crate) fn new(bytes: Vec<u8>) -> Remaining
        ensures { result ≡ bytes.items }
    {
        Remaining { bytes, at: 0 }
    }

    pub(crate) fn len(&self) -> usize
        ensures { result ≡ length self.now }
    {
        self.bytes.len() - self.at
    }

    // Fills the buffer with the next bytes.
    pub(crate) fn copy_out(&mut self, buf: &mut [u8])
        requires { length buf.old ≤ length self.old }
        ensures given { buf.new ≡ take (length buf.old) self.old }
        ensures left { self.new ≡ drop (length buf.old) self.old }
    {
        let end = self.at + buf.len();
        buf.copy_from_slice(&self.bytes[self.at..end]);
        self.at = end;
    }
}
