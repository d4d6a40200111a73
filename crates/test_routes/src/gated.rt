// Ports whose reads wait for each other: on one thread, or with a lock that is held over reads, they fail.
use crate::threaded::route_over;
use dialect::Dialect;
use mav_links::{Link, TcpLink, Waits};
use mav_router::NoMemory;
use std::alloc::Global;
use std::io::{self, Error, ErrorKind, Read, Write};
use std::sync::atomic::{AtomicU64, Ordering};
use std::sync::{Arc, Wait};
use std::test::Fail;
use std::thread;
use std::thread::Threads;

// How often a read looks whether the other has come.
const MOST_LOOKS: u64 = 10_000_000;

// A stream that ends with its third read. Each read waits until the other stream's read of that number has begun, and
// fails if it doesn't come.
#[derive(Drop)]
struct Gate {
    own: Arc<AtomicU64>,
    other: Arc<AtomicU64>,
    reads: u64,
}

impl Gate {
    fn is_met(&self) -> bool {
        for _ in 0..MOST_LOOKS {
            if self.other.load(Ordering::SeqCst) >= self.reads {
                return true;
            }
            thread::yield_now();
        }
        false
    }
}

impl Read for Gate {
    fn read(&mut self, _buf: &mut [u8]) -> io::Result<usize> {
        self.reads = self.reads.saturating_add(1);
        self.own.store(self.reads, Ordering::SeqCst);
        if !self.is_met() {
            return Err(Error::from(ErrorKind::Other));
        }
        if self.reads < 3 {
            return Err(Error::from(ErrorKind::WouldBlock));
        }
        Ok(0)
    }
}

impl Write for Gate {
    fn write(&mut self, buf: &[u8]) -> io::Result<usize> {
        Ok(buf.len())
    }

    fn flush(&mut self) -> io::Result<()> {
        Ok(())
    }
}

// It waits in its reads alone.
impl Waits for Gate {}

fn gated(own: &Arc<AtomicU64>, other: &Arc<AtomicU64>) -> Result<TcpLink<Gate>, NoMemory> {
    Ok(TcpLink::new(Some(Gate {
        own: own.clone()?,
        other: other.clone()?,
        reads: 0,
    })))
}

// How many ports ended, and how many reads of each were made.
fn run_gated<R: Threads + Wait + Sync>(
    rt: &R,
    alloc: Global,
    known: &Dialect,
) -> Result<[u64; 3], NoMemory> {
    let first = Arc::new(alloc, AtomicU64::new(0))?;
    let second = Arc::new(alloc, AtomicU64::new(0))?;
    let mut links: Vec<Box<dyn Link>> = Vec::new(alloc);
    links.push(Box::new(alloc, gated(&first, &second)?)?)?;
    links.push(Box::new(alloc, gated(&second, &first)?)?)?;
    let ended = match route_over(rt, alloc, known, &mut links) {
        Some(outcome) => outcome.ended,
        None => 0,
    };
    let reads = first.load(Ordering::SeqCst);
    Ok([ended, reads, second.load(Ordering::SeqCst)])
}

// The reads of both ports overlap, three times; the third ends each.
#[test]
fn reads_of_two_ports_overlap(rt: HostRuntime) -> Result<(), Fail> {
    let known = Dialect::profile(rt.alloc())?;
    assert_eq!(rt; run_gated(&rt, rt.alloc(), &known)?, [2, 3, 3]);
    Ok(())
}
