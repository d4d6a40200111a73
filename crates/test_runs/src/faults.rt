// Runs whose input fails, gives nothing or is too long, and runs whose output fails.
ghost use Rattle.std.specs.Prelude.{◌≡◌, true, false, is_some, length, map, string_bytes};
ghost use Rattle.command_line.specs.Built.{built};
ghost use Rattle.command_line.specs.Grammar.{Asked, Asks};
ghost use Rattle.station_cli.specs.Wants.{AreAsked, keepers_asked};

use mav_ports::{Got, MemClock, Sink, Source, StdSink, StdSource, SureSink};
use station_cli::{Inputs, Wanted, WantedFault, run_alone, wanted};
use std::alloc::{AllocError, Global};
use std::io::{self, Error, ErrorKind, Read, Write};
use std::test::Fail;

const ONE_ITEM: &[u8] =
    b"drone 1\nstation 255 190\nitem 6 16 473977420 85455940\nbegin 255.190 1.1 mission\nflow 20\n";

const DEFINITIONS: &[u8] =
    b"{\"messages\":[{\"id\":0,\"name\":\"HEARTBEAT\",\"fields\":[{\"type\":\"uint8_t\",\"name\":\"type\"}]}]}";

// 80 digits.
const ZEROS: &[u8] =
    b"00000000000000000000000000000000000000000000000000000000000000000000000000000000";

const KEY: &[u8] = b"abcdabcdabcdabcdabcdabcdabcdabcdabcdabcdabcdabcdabcdabcdabcdabcd\n";

const NO_LIMIT: u64 = u64::MAX;

// Words over inputs of which each read gives one byte, and fails after so many; an output with room for so many bytes;
// the status, and what was written.
#[derive(Clone, Copy)]
struct Run {
    words: &'static str,
    bytes: &'static [u8],
    reads: u64,
    room: usize,
    status: u8,
    output: &'static [u8],
}

static RUNS: [Run; 13] = [
    // An input that fails at once, inside a line, inside a frame, inside definitions.
    Run {
        words: "fleet f",
        bytes: ONE_ITEM,
        reads: 0,
        room: 100,
        status: 4,
        output: b"read fault\n",
    },
    Run {
        words: "fleet f",
        bytes: ONE_ITEM,
        reads: 8,
        room: 100,
        status: 4,
        output: b"read fault\n",
    },
    Run {
        words: "decode f",
        bytes: b"\x00\xfd\x09\x00\x00\x00",
        reads: 6,
        room: 100,
        status: 4,
        output: b"0 skip 00 not-stx\nread fault\n",
    },
    Run {
        words: "dialect --defs=d",
        bytes: DEFINITIONS,
        reads: 21,
        room: 100,
        status: 4,
        output: b"read fault\n",
    },
    // A key is not read past its 67th byte, and one that fails comes first.
    Run {
        words: "decode --key k f",
        bytes: ZEROS,
        reads: 67,
        room: 100,
        status: 3,
        output: b"bad key: key\n",
    },
    Run {
        words: "decode --key k f",
        bytes: ZEROS,
        reads: 66,
        room: 100,
        status: 4,
        output: b"read fault\n",
    },
    Run {
        words: "fleet --key=k f",
        bytes: KEY,
        reads: 6,
        room: 100,
        status: 4,
        output: b"read fault\n",
    },
    Run {
        words: "decode --defs=d --key=k f",
        bytes: b"{}",
        reads: 0,
        room: 100,
        status: 4,
        output: b"read fault\n",
    },
    // An input and the output both fail.
    Run {
        words: "fleet f",
        bytes: ONE_ITEM,
        reads: 8,
        room: 4,
        status: 5,
        output: b"read",
    },
    // An output that takes nothing, or fails inside a line.
    Run {
        words: "fleet f",
        bytes: b"fly\n",
        reads: NO_LIMIT,
        room: 0,
        status: 5,
        output: b"",
    },
    Run {
        words: "fleet f",
        bytes: ONE_ITEM,
        reads: NO_LIMIT,
        room: 3,
        status: 5,
        output: b"1 2",
    },
    Run {
        words: "decode f",
        bytes: b"\x00",
        reads: NO_LIMIT,
        room: 10,
        status: 5,
        output: b"0 skip 00 ",
    },
    Run {
        words: "dialect",
        bytes: b"",
        reads: 0,
        room: 10,
        status: 5,
        output: b"0 HEARTBEA",
    },
];

// Gives these bytes one by one and then zeros, and fails at the call after so many.
#[derive(Drop)]
struct Feed {
    bytes: &'static [u8],
    zeros: usize,
    reads: u64,
}

impl Read for Feed {
    fn read(&mut self, buf: &mut [u8]) -> io::Result<usize> {
        if self.reads == 0 {
            return Err(Error::from(ErrorKind::Other));
        }
        self.reads -= 1;
        if let (Some((first, rest)), Some(slot)) = (self.bytes.split_first(), buf.first_mut()) {
            *slot = *first;
            self.bytes = rest;
            return Ok(1);
        }
        let count = buf.len().min(self.zeros);
        self.zeros -= count;
        Ok(count)
    }
}

fn one_fed(bytes: &'static [u8], zeros: usize, reads: u64) -> StdSource<Feed> {
    StdSource::new(Some(Feed {
        bytes,
        zeros,
        reads,
    }))
}

// Such inputs, all three over these bytes.
fn fed_by(bytes: &'static [u8], zeros: usize, reads: u64) -> Inputs<StdSource<Feed>> {
    Inputs {
        main: one_fed(bytes, zeros, reads),
        defs: one_fed(bytes, zeros, reads),
        key: one_fed(bytes, zeros, reads),
    }
}

pub(crate) fn words_of(alloc: Global, text: &str) -> Result<Vec<String>, AllocError> {
    let mut words = Vec::new(alloc);
    for word in text.split(' ') {
        words.push(String::from_str(alloc, word)?)?;
    }
    Ok(words)
}

// The status of a run over words that name no port and no store.
fn run_unlinked<S: Source, K: Sink>(
    alloc: Global,
    words: &[String],
    inputs: &mut Inputs<S>,
    out: &mut K,
) -> u8
    requires { (asked : Asked) → Asks built (map string_bytes words.now) asked
        → AreAsked 0 asked × (0 ≡ keepers_asked asked) }
{
    let mut clock = MemClock::new(0);
    run_alone(
        alloc,
        words,
        inputs,
        out,
        &mut clock,
        &mut Vec::new(alloc),
        &mut Vec::new(alloc),
    )
}

fn names_nothing(wanted: &Wanted) -> bool
    ensures ports { result ≡ true → length wanted.now.ports.items ≡ 0 }
    ensures store { result ≡ true → is_some wanted.now.store ≡ false }
{
    wanted.ports.is_empty() && wanted.store.is_none()
}

// The status of a run; that of want of memory, if there is none for the words, or if they name a port or a store.
pub(crate) fn status_of<S: Source, K: Sink>(
    alloc: Global,
    text: &str,
    inputs: &mut Inputs<S>,
    out: &mut K,
) -> u8 {
    match words_of(alloc, text) {
        Ok(words) => match wanted(alloc, &words) {
            Ok(wanted) if names_nothing(&wanted) => run_unlinked(alloc, &words, inputs, out),
            Err(WantedFault::Usage) => run_unlinked(alloc, &words, inputs, out),
            _ => 7,
        },
        Err(_) => 7,
    }
}

fn is_met(alloc: Global, wanted: &Run) -> Result<bool, AllocError> {
    let mut out = SureSink::with_room(alloc, wanted.room)?;
    let mut inputs = fed_by(wanted.bytes, 0, wanted.reads);
    let status = status_of(alloc, wanted.words, &mut inputs, &mut out);
    Ok(status == wanted.status && out.sent() == wanted.output)
}

// Whether each run ends as expected.
fn are_met(alloc: Global, runs: &[Run]) -> Result<bool, AllocError> {
    for wanted in runs {
        if !is_met(alloc, wanted)? {
            return Ok(false);
        }
    }
    Ok(true)
}

#[test]
fn runs_end_at_the_first_fault(rt: HostRuntime) -> Result<(), Fail> {
    assert!(rt; are_met(rt.alloc(), &RUNS)?);
    Ok(())
}

/// It gives nothing, for ever.
#[derive(Drop)]
struct Idler {
    idles: u64,
}

impl Source for Idler {
    ghost use Rattle.std.specs.Prelude.{None};

    ghost left = { λ s. None };

    ghost faults = { λ s. 0 };

    ghost idles = { λ s. s.idles };

    ghost has_ended = { λ s. ⊥ };

    fn read(&mut self, _buf: &mut [u8]) -> Got {
        self.idles = self.idles.saturating_add(1);
        Got::Idle
    }
}

// Whether such an input is given up, and the status says so, after a million reads.
fn is_given_up(alloc: Global) -> Result<bool, AllocError> {
    let mut out = SureSink::with_room(alloc, 100)?;
    let mut inputs = Inputs {
        main: Idler { idles: 0 },
        defs: Idler { idles: 0 },
        key: Idler { idles: 0 },
    };
    let status = status_of(alloc, "fleet f", &mut inputs, &mut out);
    let reported = out.sent() == b"turns spent 1000000\n".as_slice();
    Ok(status == 11 && reported && inputs.main.idles == 1_000_000)
}

#[test]
fn an_input_that_gives_nothing_is_given_up(rt: HostRuntime) -> Result<(), Fail> {
    assert!(rt; is_given_up(rt.alloc())?);
    Ok(())
}

// A writer that keeps nothing.
#[derive(Drop)]
struct Nowhere;

impl Write for Nowhere {
    fn write(&mut self, buf: &[u8]) -> io::Result<usize> {
        Ok(buf.len())
    }

    fn flush(&mut self) -> io::Result<()> {
        Ok(())
    }
}

// The status of `decode` over so many zeros.
fn status_of_zeros(alloc: Global, count: usize) -> u8 {
    let mut inputs = fed_by(b"", count, NO_LIMIT);
    status_of(alloc, "decode f", &mut inputs, &mut StdSink::new(Nowhere))
}

#[test]
fn a_stream_has_at_most_256_mebibytes(rt: HostRuntime) {
    assert_eq!(rt; status_of_zeros(rt.alloc(), 268_435_456), 0);
    assert_eq!(rt; status_of_zeros(rt.alloc(), 268_435_457), 6);
}
