//! How fast signatures are verified, beside plain digests: `bench_signatures verify|digest COUNT LENGTH`.
//!
//! `verify` verifies COUNT frames with payloads of LENGTH bytes, and `digest` takes COUNT digests of
//! as many bytes as a signature of such a frame is taken over. Both print how many of their answers
//! were of one kind, so that none can be left out. bench/signatures times them.
#![tactic(auto)]

ghost use Rattle.std.specs.Prelude.{IsSome};

use mav_frame::{Block, Frame, RawFrame, encode};
use mav_names::Name;
use mav_sign::{Key, sign, verifies_raw};
use sha2::{Digest, Sha256};
use std::process::ExitCode;
use std::{env, io};

const USAGE: u8 = 2;

// A signed frame's bytes but for its payload and signature, with the key.
const OTHER_BYTES: usize = 51;

fn frame_of(len: u8) -> Frame
    ensures { IsSome result.block }
{
    Frame {
        old: false,
        compat: 0,
        seq: 0,
        from: Name { sys: 1, comp: 1 },
        id: 0,
        len,
        payload: [0; 255],
        check: 0,
        block: Some(Block {
            link: 0,
            stamp: 1,
            sig: [0; 6],
        }),
    }
}

// One of 256 is good: the others are a frame with another sequence number.
fn verify(count: u64, len: u8) -> u64 {
    let key = Key::new([7; 32]);
    let mut frame = frame_of(len);
    sign(&key, &mut frame, 0, 1);
    let mut right = [0; 280];
    let size = encode(&frame, &mut right);
    let right = RawFrame::of(&frame, &right[..size]);
    let mut other = frame;
    other.seq = 1;
    let mut wrong = [0; 280];
    let size = encode(&other, &mut wrong);
    let wrong = RawFrame::of(&other, &wrong[..size]);
    let mut good = 0u64;
    for turn in 0..count {
        let tried = if turn % 256 == 0 { &right } else { &wrong };
        if verifies_raw(&key, tried) {
            good = good.saturating_add(1);
        }
    }
    good
}

fn digest(count: u64, len: u8) -> u64 {
    let mut bytes = [0; 306];
    let size = OTHER_BYTES + usize::from(len);
    let mut begin_with_zero = 0u64;
    for turn in 0..count {
        bytes[0] = (turn % 256) as u8;
        let digest = Sha256::digest(&bytes[..size]);
        if digest[0] == 0 {
            begin_with_zero = begin_with_zero.saturating_add(1);
        }
    }
    begin_with_zero
}

fn answer_of(words: &[String]) -> Option<u64> {
    let [what, count, len] = words else {
        return None;
    };
    let count = count.parse().ok()?;
    let len = len.parse().ok()?;
    match what.as_str() {
        "verify" => Some(verify(count, len)),
        "digest" => Some(digest(count, len)),
        _ => None,
    }
}

fn words_of(rt: &HostRuntime) -> io::Result<Vec<String>> {
    let mut words = Vec::new(rt.alloc());
    for word in env::args(rt)?.skip(1) {
        words.push(word)?;
    }
    Ok(words)
}

fn main(rt: HostRuntime) -> io::Result<ExitCode> {
    match answer_of(&words_of(&rt)?) {
        Some(answer) => {
            println!(rt; "{answer}")?;
            Ok(ExitCode::SUCCESS)
        }
        None => Ok(ExitCode::from(USAGE)),
    }
}
