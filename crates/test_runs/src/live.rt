// Runs of a live drone, a live station and a router over a link in memory.
ghost use Rattle.std.specs.Prelude.{◌≡◌, true, false, is_some, length, map, string_bytes};
ghost use Rattle.command_line.specs.Built.{built};
ghost use Rattle.command_line.specs.Grammar.{Asked, Asks};
ghost use Rattle.station_cli.specs.Wants.{AreAsked, keepers_asked};

use crate::faults::words_of;
use mav_links::{Link, MemLink};
use mav_ports::{MemClock, SureSink, SureSource};
use station_cli::{Inputs, Wanted, run_alone, wanted};
use std::alloc::{AllocError, Global};
use std::test::Fail;

const KEY: &[u8] = b"000102030405060708090a0b0c0d0e0f101112131415161718191a1b1c1d1e1f";

// PING 1, an acknowledgement and the count 0 from a drone without a mission, signed under the key.
const EMPTY_DRONE: &[u8] = &[
    0xFD, 0x0E, 0x01, 0x00, 0x00, 0x01, 0x01, 0x04, 0x00, 0x00, 0x40, 0x42, 0x0F, 0x00, 0x00, 0x00,
    0x00, 0x00, 0x01, 0x00, 0x00, 0x00, 0xFF, 0xBE, 0x94, 0xA3, 0x00, 0x41, 0x42, 0x0F, 0x00, 0x00,
    0x00, 0x10, 0xD2, 0xF2, 0xC5, 0xCC, 0xAC, 0xFD, 0x03, 0x01, 0x00, 0x01, 0x01, 0x01, 0x2F, 0x00,
    0x00, 0xFF, 0xBE, 0x01, 0xBF, 0x6E, 0x00, 0x42, 0x42, 0x0F, 0x00, 0x00, 0x00, 0x04, 0x48, 0xE0,
    0x45, 0x9C, 0x67, 0xFD, 0x04, 0x01, 0x00, 0x02, 0x01, 0x01, 0x2C, 0x00, 0x00, 0x00, 0x00, 0xFF,
    0xBE, 0x0E, 0x8C, 0x00, 0x43, 0x42, 0x0F, 0x00, 0x00, 0x00, 0xFA, 0x5D, 0x35, 0x38, 0xE6, 0x9F,
];

// Words over a link with these bytes that idles at the first reads, so many, and fails at these reads and writes; the
// status, what was written to the output, and how many bytes to the link.
#[derive(Clone, Copy)]
struct LiveRun {
    words: &'static str,
    bytes: &'static [u8],
    idles: u64,
    read_fails: &'static [u64],
    write_fails: &'static [u64],
    status: u8,
    output: &'static [u8],
    sent: usize,
}

// A signed HEARTBEAT has 34 bytes, and so has a signed PING 1 for everyone, whose last bytes, zeros, are left out.
static RUNS: [LiveRun; 7] = [
    LiveRun {
        words: "drone --key k 1 file:a:b",
        bytes: b"",
        idles: 0,
        read_fails: &[],
        write_fails: &[],
        status: 0,
        output: b"1 1.1 HEARTBEAT\n",
        sent: 34,
    },
    LiveRun {
        words: "drone --key k 1 file:a:b",
        bytes: b"",
        idles: 0,
        read_fails: &[0],
        write_fails: &[],
        status: 12,
        output: b"1 1.1 HEARTBEAT\nport fault\n",
        sent: 34,
    },
    LiveRun {
        words: "station --key k 255 190 1 file:a:b get mission",
        bytes: b"",
        idles: 0,
        read_fails: &[],
        write_fails: &[0],
        status: 12,
        output: b"1 255.190 HEARTBEAT\nport fault\n",
        sent: 0,
    },
    LiveRun {
        words: "station --key k --ticks 3 255 190 1 file:a:b get mission",
        bytes: b"",
        idles: 9,
        read_fails: &[],
        write_fails: &[],
        status: 9,
        output: b"1 255.190 HEARTBEAT\n2 255.190 PING 1 to 0.0\n3 255.190 PING 1 to 0.0\n4 255.190 HEARTBEAT\n5 255.190 PING 1 to 0.0\n6 255.190 HEARTBEAT\n7 255.190 PING 1 to 0.0\n8 255.190 HEARTBEAT\nno answer 3\n",
        sent: 272,
    },
    LiveRun {
        words: "station --key k 255 190 1 file:a:b get mission",
        bytes: EMPTY_DRONE,
        idles: 0,
        read_fails: &[],
        write_fails: &[],
        status: 0,
        output: b"1 255.190 HEARTBEAT\n2 255.190 PING 1 to 0.0\n3 255.190 ACK 15 mission to 1.1\n4 255.190 LIST mission to 1.1\n5 255.190 ACK 0 mission to 1.1\noutcome 255.190 got 0\n",
        sent: 150,
    },
    LiveRun {
        words: "route --key k --turns 3 file:a:b",
        bytes: b"",
        idles: 2,
        read_fails: &[],
        write_fails: &[],
        status: 0,
        output: b"port 1 read 0 skipped 0 written 0 ended\n",
        sent: 0,
    },
    LiveRun {
        words: "route --key k --turns 3 file:a:b",
        bytes: b"",
        idles: 9,
        read_fails: &[],
        write_fails: &[],
        status: 11,
        output: b"port 1 read 0 skipped 0 written 0 turns\nturns spent 3\n",
        sent: 0,
    },
];

fn link_of(alloc: Global, wanted: &LiveRun) -> Result<MemLink, AllocError> {
    let mut idles = Vec::new(alloc);
    for at in 0..wanted.idles {
        idles.push(at)?;
    }
    MemLink::new(
        alloc,
        wanted.bytes.to_vec(alloc)?,
        4096,
        wanted.read_fails.to_vec(alloc)?,
        idles,
        4096,
        wanted.write_fails.to_vec(alloc)?,
    )
}

// Whether words name so many ports, and no store.
fn names_ports(wanted: &Wanted, links: usize) -> bool
    ensures ports { result ≡ true → length wanted.now.ports.items ≡ links }
    ensures store { result ≡ true → is_some wanted.now.store ≡ false }
{
    wanted.ports.len() == links && wanted.store.is_none()
}

fn run_linked(
    alloc: Global,
    words: &[String],
    out: &mut SureSink,
    ports: &mut Vec<Box<dyn Link>>,
) -> Result<u8, AllocError>
    requires { (asked : Asked) → Asks built (map string_bytes words.now) asked
        → AreAsked (length ports.old.items) asked × (0 ≡ keepers_asked asked) }
{
    let mut inputs = Inputs {
        main: SureSource::new(Vec::new(alloc)),
        defs: SureSource::new(Vec::new(alloc)),
        key: SureSource::new(KEY.to_vec(alloc)?),
    };
    let mut clock = MemClock::new(1_000_000);
    Ok(run_alone(
        alloc,
        words,
        &mut inputs,
        out,
        &mut clock,
        ports,
        &mut Vec::new(alloc),
    ))
}

// The status of a run over the links; that of want of memory, if the words aren't of so many ports alone.
pub(crate) fn status_over(
    alloc: Global,
    text: &str,
    out: &mut SureSink,
    ports: &mut Vec<Box<dyn Link>>,
) -> Result<u8, AllocError> {
    let words = words_of(alloc, text)?;
    match wanted(alloc, &words) {
        Ok(wanted) if names_ports(&wanted, ports.len()) => run_linked(alloc, &words, out, ports),
        _ => Ok(7),
    }
}

fn is_met(alloc: Global, wanted: &LiveRun) -> Result<bool, AllocError> {
    let mut out = SureSink::with_room(alloc, 4096)?;
    let mut ports: Vec<Box<dyn Link>> = Vec::new(alloc);
    ports.push(Box::new(alloc, link_of(alloc, wanted)?)?)?;
    let status = status_over(alloc, wanted.words, &mut out, &mut ports)?;
    Ok(status == wanted.status && out.sent() == wanted.output && sent_by(&ports) == wanted.sent)
}

fn sent_by(ports: &[Box<dyn Link>]) -> usize {
    match ports {
        [port] => port.sent().len(),
        _ => 0,
    }
}

#[test]
fn live_nodes_run_over_a_link_in_memory(rt: HostRuntime) -> Result<(), Fail> {
    for wanted in &RUNS {
        assert!(rt; is_met(rt.alloc(), wanted)?);
    }
    Ok(())
}
