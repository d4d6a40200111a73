// The checksum of a packet.
ghost use Rattle.std.specs.Prelude.{◌≡◌, ℕ, ◌+◌, ◌≤◌, length, drop};
ghost use Rattle.x25_check.specs.Check.{after_byte, check_from};
ghost use Rattle.x25_check.specs.Eights.{eight_at, four_at};

use crate::tables::after_zeros;
use std::marker::Model;

/// A running CRC-16/MCRF4XX over the bytes that were pushed, which contracts see as its register
/// (MAVLink guide, Packet Serialization: Checksum).
#[derive(Drop)]
pub struct X25 {
    register: u16,
}

impl Model for X25 {
    ghost Value = { ℕ };

    ghost view = { λ x. x.register };
}

// The register after one more byte: the entry of that byte and the register's low one, with the high one shifted down.
#[inline(always)]
fn after(register: u16, byte: u8) -> u16
    ensures { result ≡ after_byte register byte }
{
    let low = byte ^ (register % 256) as u8;
    (register >> 8) ^ after_zeros(0, low)
}

// The register after the eight bytes from an index on: what each of them makes of a register that was 0, with the
// register's own two bytes in the first two. Those two, which depend on the register, are looked up last.
#[inline(always)]
fn after_eight(register: u16, bytes: &[u8], at: usize) -> u16
    requires { at + 8 ≤ length bytes.now }
    ensures { result ≡ check_from register (eight_at at bytes.now) }
{
    let third = after_zeros(5, bytes[at + 2]);
    let fourth = after_zeros(4, bytes[at + 3]);
    let fifth = after_zeros(3, bytes[at + 4]);
    let sixth = after_zeros(2, bytes[at + 5]);
    let seventh = after_zeros(1, bytes[at + 6]);
    let eighth = after_zeros(0, bytes[at + 7]);
    let low = (register % 256) as u8;
    let high = (register / 256) as u8;
    let first = after_zeros(7, bytes[at] ^ low);
    let second = after_zeros(6, bytes[at + 1] ^ high);
    (first ^ second) ^ (third ^ (fourth ^ (fifth ^ (sixth ^ (seventh ^ eighth)))))
}

// The register after the four bytes from an index on, as after eight.
#[inline(always)]
fn after_four(register: u16, bytes: &[u8], at: usize) -> u16
    requires { at + 4 ≤ length bytes.now }
    ensures { result ≡ check_from register (four_at at bytes.now) }
{
    let third = after_zeros(1, bytes[at + 2]);
    let fourth = after_zeros(0, bytes[at + 3]);
    let low = (register % 256) as u8;
    let high = (register / 256) as u8;
    let first = after_zeros(3, bytes[at] ^ low);
    let second = after_zeros(2, bytes[at + 1] ^ high);
    (first ^ second) ^ (third ^ fourth)
}

// The register after some bytes, one by one.
#[inline(always)]
fn after_each(register: u16, bytes: &[u8]) -> u16
    ensures { result ≡ check_from register bytes.now }
{
    let mut now = register;
    for byte in bytes {
        now = after(now, *byte);
    }
    now
}

// The register after the bytes from an index on, four at once if there are as many.
#[inline(always)]
fn after_rest(register: u16, bytes: &[u8], at: usize) -> u16
    requires { at ≤ length bytes.now }
    ensures { result ≡ check_from register (drop at bytes.now) }
{
    if bytes.len() - at < 4 {
        return after_each(register, &bytes[at..]);
    }
    let now = after_four(register, bytes, at);
    after_each(now, &bytes[at + 4..])
}

// The register after some bytes, eight at a time.
fn after_all(register: u16, bytes: &[u8]) -> u16
    ensures { result ≡ check_from register bytes.now }
{
    let mut now = register;
    let mut at = 0;
    while bytes.len() - at >= 8 {
        now = after_eight(now, bytes, at);
        at += 8;
    }
    after_rest(now, bytes, at)
}

impl X25 {
    /// The register before the first byte.
    pub const START: u16 = 0xFFFF;

    /// A check over no bytes yet.
    pub fn new() -> X25
        ensures { result ≡ 0xFFFF }
    {
        X25 {
            register: X25::START,
        }
    }

    pub fn push(&mut self, byte: u8)
        ensures { self.new ≡ after_byte self.old byte }
    {
        self.register = after(self.register, byte);
    }

    /// Pushes the bytes one after another.
    pub fn push_all(&mut self, bytes: &[u8])
        ensures { self.new ≡ check_from self.old bytes.now }
    {
        self.register = after_all(self.register, bytes);
    }

    /// The check of all bytes that were pushed.
    pub fn value(&self) -> u16
        ensures { result ≡ self.now }
    {
        self.register
    }
}
