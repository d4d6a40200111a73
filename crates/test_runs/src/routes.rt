// Runs of a router over three ports in memory, of which some fail.
use crate::live::status_over;
use mav_links::{Link, MemLink};
use mav_ports::SureSink;
use std::alloc::{AllocError, Global};
use std::test::Fail;

const WORDS: &str = "route --key k --one open:file:a:b open:file:c:d open:file:e:f";

// HEARTBEAT frames without a signature block, of systems 1, 2 and 3.
static FRAMES: [[u8; 21]; 3] = [
    [
        253, 9, 0, 0, 0, 1, 1, 0, 0, 0, 0, 0, 0, 0, 2, 3, 0, 4, 3, 74, 215,
    ],
    [
        253, 9, 0, 0, 0, 2, 1, 0, 0, 0, 0, 0, 0, 0, 2, 3, 0, 4, 3, 52, 15,
    ],
    [
        253, 9, 0, 0, 0, 3, 1, 0, 0, 0, 0, 0, 0, 0, 2, 3, 0, 4, 3, 30, 71,
    ],
];

// The calls at which a port fails, numbered from 0, and the ports whose frames are written to it, in this order.
#[derive(Clone, Copy)]
struct FailingPort {
    read_fails: &'static [u64],
    write_fails: &'static [u64],
    sent: &'static [usize],
}

// Such ports, and an output with room for so many bytes; the status, and what was written to the output.
#[derive(Clone, Copy)]
struct FailingRun {
    ports: &'static [FailingPort],
    room: usize,
    status: u8,
    output: &'static [u8],
}

static RUNS: [FailingRun; 3] = [
    // The second port fails at its third write, after two frames; it isn't read a third time.
    FailingRun {
        ports: &[
            FailingPort {
                read_fails: &[],
                write_fails: &[],
                sent: &[2, 3, 2, 3, 3],
            },
            FailingPort {
                read_fails: &[],
                write_fails: &[2],
                sent: &[1, 3],
            },
            FailingPort {
                read_fails: &[],
                write_fails: &[],
                sent: &[1, 2, 1, 2, 1],
            },
        ],
        room: 4096,
        status: 0,
        output: b"1 1.1/0 0 0 to 2,3\n2 2.1/0 0 0 to 1,3\n3 3.1/0 0 0 to 1,2\n1 1.1/0 0 0 to 2,3\n2 2.1/0 0 0 to 1,3\n3 3.1/0 0 0 to 1,2\n1 1.1/0 0 0 to 2,3\n3 3.1/0 0 0 to 1,2\nport 1 read 63 skipped 0 written 105 ended\nport 2 read 42 skipped 0 written 42 failed\nport 3 read 63 skipped 0 written 105 ended\n",
    },
    // The first port fails at its second read, the second at its first write, and the third goes on to its end.
    FailingRun {
        ports: &[
            FailingPort {
                read_fails: &[1],
                write_fails: &[],
                sent: &[2, 3],
            },
            FailingPort {
                read_fails: &[],
                write_fails: &[0],
                sent: &[],
            },
            FailingPort {
                read_fails: &[],
                write_fails: &[],
                sent: &[1, 2],
            },
        ],
        room: 4096,
        status: 0,
        output: b"1 1.1/0 0 0 to 2,3\n2 2.1/0 0 0 to 1,3\n3 3.1/0 0 0 to 1,2\n3 3.1/0 0 0 to 1,2\n3 3.1/0 0 0 to 1,2\nport 1 read 21 skipped 0 written 42 failed\nport 2 read 21 skipped 0 written 0 failed\nport 3 read 63 skipped 0 written 42 ended\n",
    },
    // A port fails at its first read, and the output inside the first line.
    FailingRun {
        ports: &[
            FailingPort {
                read_fails: &[0],
                write_fails: &[],
                sent: &[],
            },
            FailingPort {
                read_fails: &[],
                write_fails: &[],
                sent: &[3, 3, 3],
            },
            FailingPort {
                read_fails: &[],
                write_fails: &[],
                sent: &[2, 2, 2],
            },
        ],
        room: 10,
        status: 5,
        output: b"2 2.1/0 0 ",
    },
];

// A port that gives its frame three times, a frame at each read, and takes a frame at each write.
fn link_of(alloc: Global, frame: &[u8; 21], port: &FailingPort) -> Result<MemLink, AllocError> {
    let mut bytes = Vec::new(alloc);
    for _ in 0..3 {
        bytes.extend_from_slice(frame)?;
    }
    let read_fails = port.read_fails.to_vec(alloc)?;
    let write_fails = port.write_fails.to_vec(alloc)?;
    MemLink::new(
        alloc,
        bytes,
        21,
        read_fails,
        Vec::new(alloc),
        4096,
        write_fails,
    )
}

fn links_of(alloc: Global, ports: &[FailingPort]) -> Result<Vec<Box<dyn Link>>, AllocError> {
    let mut links: Vec<Box<dyn Link>> = Vec::new(alloc);
    for (at, port) in ports.iter().enumerate() {
        if let Some(frame) = FRAMES.get(at) {
            links.push(Box::new(alloc, link_of(alloc, frame, port)?)?)?;
        }
    }
    Ok(links)
}

// Whether the frames of these ports, and nothing else, were written to a port.
fn was_sent(link: &Box<dyn Link>, ports: &[usize]) -> bool {
    let mut left = link.sent();
    for port in ports {
        let Some(frame) = FRAMES.get(port.wrapping_sub(1)) else {
            return false;
        };
        let Some(rest) = left.strip_prefix(frame.as_slice()) else {
            return false;
        };
        left = rest;
    }
    left.is_empty()
}

fn were_sent(links: &[Box<dyn Link>], ports: &[FailingPort]) -> bool {
    for (at, port) in ports.iter().enumerate() {
        match links.get(at) {
            Some(link) if was_sent(link, port.sent) => {}
            _ => return false,
        }
    }
    links.len() == ports.len()
}

fn is_met(alloc: Global, wanted: &FailingRun) -> Result<bool, AllocError> {
    let mut out = SureSink::with_room(alloc, wanted.room)?;
    let mut links = links_of(alloc, wanted.ports)?;
    let status = status_over(alloc, WORDS, &mut out, &mut links)?;
    let is_written = out.sent() == wanted.output && were_sent(&links, wanted.ports);
    Ok(status == wanted.status && is_written)
}

#[test]
fn a_port_that_fails_leaves_the_others_whole(rt: HostRuntime) -> Result<(), Fail> {
    for wanted in &RUNS {
        assert!(rt; is_met(rt.alloc(), wanted)?);
    }
    Ok(())
}
