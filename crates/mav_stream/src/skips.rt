// How many bytes that begin no frame are skipped one by one for one reason.
ghost use Rattle.std.specs.Prelude.{◌≡◌, ◌+◌, ◌-◌, ◌<◌, ◌≤◌, ℕ, [], length, slice_index, true, false};
ghost use Rattle.mav_frame.specs.declared.looks.Why.TheVariants.{NotStx, UnknownFlag, UnknownId};
ghost use Rattle.mav_stream.specs.Skips.{is_stx, skips_at};
ghost use Rattle.mav_stream.specs.Skips as spec;

use crate::table::ExtrasTable;
use mav_frame::{CrcExtras, OLD_STX, STX, Why};
use memchr::{memchr, memchr2};

// The most bytes of one result, so that its text stays small.
const MOST_SKIPPED: usize = 1024;

// The offset of the first STX, or how many bytes there are.
fn first_stx(bytes: &[u8]) -> usize
    ensures within { result ≤ length bytes.now }
    ensures each { (k : ℕ) → k < result → is_stx false (slice_index bytes.now k) ≡ false }
    ensures ends { result < length bytes.now → is_stx false (slice_index bytes.now result) ≡ true }
{
    match memchr(STX, bytes) {
        Some(offset) => offset,
        None => bytes.len(),
    }
}

// The same, if frames of MAVLink 1 are read too.
fn first_stx_of_either(bytes: &[u8]) -> usize
    ensures within { result ≤ length bytes.now }
    ensures each { (k : ℕ) → k < result → is_stx true (slice_index bytes.now k) ≡ false }
    ensures ends { result < length bytes.now → is_stx true (slice_index bytes.now result) ≡ true }
{
    match memchr2(STX, OLD_STX, bytes) {
        Some(offset) => offset,
        None => bytes.len(),
    }
}

// How many of the first bytes are no STX, one after another.
fn before_stx(reads_old: bool, bytes: &[u8]) -> usize
    ensures within { result ≤ length bytes.now }
    ensures each { (k : ℕ) → k < result → skips_at NotStx [] reads_old bytes.now k ≡ true }
    ensures ends { result < length bytes.now → skips_at NotStx [] reads_old bytes.now result ≡ false }
{
    if reads_old {
        first_stx_of_either(bytes)
    } else {
        first_stx(bytes)
    }
}

// Whether a byte is at an offset, and a higher one than `high` so many bytes after it; both are read, which a loop can
// do for several offsets at once.
#[inline(always)]
fn is_marked(bytes: &[u8], at: usize, byte: u8, gap: usize, high: u8) -> bool
    requires { at + gap < length bytes.now }
    ensures { result ≡ spec.is_marked byte gap high bytes.now at }
{
    (bytes[at] == byte) & (bytes[at + gap] > high)
}

// Whether they are at eight offsets from one on.
#[inline(always)]
fn are_marked(bytes: &[u8], at: usize, byte: u8, gap: usize, high: u8) -> bool
    requires { at + gap + 8 ≤ length bytes.now }
    ensures { result ≡ true → (k : ℕ) → k < 8 → spec.is_marked byte gap high bytes.now (at + k) ≡ true }
{
    let mut all = true;
    for step in 0..8 {
        all &= is_marked(bytes, at + step, byte, gap, high);
    }
    all
}

// At how many of the first offsets they are, eight by eight.
#[inline(always)]
fn marked_eights(bytes: &[u8], most: usize, byte: u8, gap: usize, high: u8) -> usize
    requires { most + gap ≤ length bytes.now }
    ensures within { result ≤ most }
    ensures each { (k : ℕ) → k < result → spec.is_marked byte gap high bytes.now k ≡ true }
{
    let mut at = 0;
    while at + 8 <= most && are_marked(bytes, at, byte, gap, high) {
        at += 8;
    }
    at
}

// At how many of the first offsets STX of MAVLink 2 and unknown flags are, one after another.
fn flagged_length(bytes: &[u8], most: usize) -> usize
    requires { most ≤ length bytes.now }
    ensures within { result ≤ most }
    ensures each { (k : ℕ) → k < result → skips_at UnknownFlag [] false bytes.now k ≡ true }
    ensures ends { result < most → skips_at UnknownFlag [] false bytes.now result ≡ false }
{
    if bytes.len() < 2 {
        return 0;
    }
    let end = (bytes.len() - 2).min(most);
    for at in marked_eights(bytes, end, STX, 2, 1)..end {
        if !is_marked(bytes, at, STX, 2, 1) {
            return at;
        }
    }
    end
}

// Whether STX of MAVLink 1 and an unknown id are at an offset.
#[inline(always)]
fn is_unknown(table: &ExtrasTable, bytes: &[u8], at: usize) -> bool
    requires { at + 6 ≤ length bytes.now }
    ensures { result ≡ skips_at UnknownId table.now true bytes.now at }
{
    bytes[at] == OLD_STX && table.extra(u32::from(bytes[at + 5])).is_none()
}

// At how many of the first offsets they are, eight by eight, if 254 and 255 are the ids of no message.
fn unknown_eights(table: &ExtrasTable, bytes: &[u8], most: usize) -> usize
    requires { most + 5 ≤ length bytes.now }
    ensures within { result ≤ most }
    ensures each { (k : ℕ) → k < result → skips_at UnknownId table.now true bytes.now k ≡ true }
{
    if table.extra(254).is_some() || table.extra(255).is_some() {
        return 0;
    }
    marked_eights(bytes, most, OLD_STX, 5, 253)
}

// At how many of the first offsets they are, one after another.
fn unknown_length(table: &ExtrasTable, bytes: &[u8], most: usize) -> usize
    requires { most ≤ length bytes.now }
    ensures within { result ≤ most }
    ensures each { (k : ℕ) → k < result → skips_at UnknownId table.now true bytes.now k ≡ true }
    ensures ends { result < most → skips_at UnknownId table.now true bytes.now result ≡ false }
{
    if bytes.len() < 5 {
        return 0;
    }
    if bytes[0] != OLD_STX {
        return 0;
    }
    let end = (bytes.len() - 5).min(most);
    for at in unknown_eights(table, bytes, end)..end {
        if !is_unknown(table, bytes, at) {
            return at;
        }
    }
    end
}

/// How many bytes at the start are skipped for the reason of the first.
pub(crate) fn skipped_length(why: Why, table: &ExtrasTable, reads_old: bool, bytes: &[u8]) -> usize
    requires { 0 < length bytes.now }
    ensures { result ≡ spec.skipped_length why table.now reads_old bytes.now }
{
    let rest = &bytes[1..];
    let most = bytes.len().min(MOST_SKIPPED) - 1;
    match why {
        Why::NotStx => 1 + before_stx(reads_old, &rest[..most]),
        Why::UnknownFlag => 1 + flagged_length(rest, most),
        Why::UnknownId if reads_old => 1 + unknown_length(table, rest, most),
        Why::UnknownId | Why::BadCheck | Why::Short => 1,
    }
}
