// What threads tell each other; no contract speaks of it.
use mav_links::{Bell, Link};
use std::sync::atomic::{AtomicBool, AtomicU64, Ordering};
use std::sync::{Arc, Wait};
use std::time::Duration;

// How long a thread that only writes waits between two looks, in microseconds.
const PAUSE_MICROS: u64 = 1000;

// How many looks it waits for threads that haven't begun: where none can be made, they begin after it.
const PATIENCE: u32 = 1000;

/// How many threads have begun, how many of them still read, whether one had a fault, how often something came in,
/// and what ends the rest of each port.
#[derive(Drop)]
pub(crate) struct Signals {
    threads: u64,
    begun: AtomicU64,
    reading: AtomicU64,
    stopped: AtomicBool,
    news: AtomicU64,
    bells: [Option<Arc<Bell>>; 8],
}

// The bell of the port at a place, if there is one.
fn bell_at<L: Link>(ports: &[L], at: usize) -> Option<Arc<Bell>> {
    match ports.get(at) {
        Some(port) => port.bell(),
        None => None,
    }
}

impl Signals {
    /// Of a thread for each port, of which there are at most eight.
    pub(crate) fn new<L: Link>(ports: &[L]) -> Signals {
        Signals {
            threads: ports.len() as u64,
            begun: AtomicU64::new(0),
            reading: AtomicU64::new(0),
            stopped: AtomicBool::new(false),
            news: AtomicU64::new(0),
            bells: [
                bell_at(ports, 0),
                bell_at(ports, 1),
                bell_at(ports, 2),
                bell_at(ports, 3),
                bell_at(ports, 4),
                bell_at(ports, 5),
                bell_at(ports, 6),
                bell_at(ports, 7),
            ],
        }
    }

    /// Something came in at a port: ends the rest of each other one, for which it may wait.
    pub(crate) fn ring_others(&self, port: u8) {
        self.news.fetch_add(1, Ordering::SeqCst);
        for (at, bell) in self.bells.iter().enumerate() {
            match bell {
                Some(bell) if at != usize::from(port.saturating_sub(1)) => bell.ring(),
                _ => {}
            }
        }
    }

    /// How often something came in at any port.
    pub(crate) fn news(&self) -> u64 {
        self.news.load(Ordering::SeqCst)
    }

    pub(crate) fn stop(&self) {
        self.stopped.store(true, Ordering::SeqCst);
    }

    pub(crate) fn is_stopped(&self) -> bool {
        self.stopped.load(Ordering::SeqCst)
    }

    pub(crate) fn begin_reading(&self) {
        self.reading.fetch_add(1, Ordering::SeqCst);
        self.begun.fetch_add(1, Ordering::SeqCst);
    }

    /// The last thread to end wakes those that pause.
    pub(crate) fn end_reading(&self) {
        if self.reading.fetch_sub(1, Ordering::SeqCst) == 1 {
            self.reading.wake_all();
        }
    }

    /// Whether no thread reads any more, after so many looks.
    pub(crate) fn is_over(&self, looks: u32) -> bool {
        let all_begun = self.begun.load(Ordering::SeqCst) >= self.threads;
        (all_begun || looks >= PATIENCE) && self.reading.load(Ordering::SeqCst) == 0
    }

    /// Waits a millisecond, or until no thread reads any more.
    pub(crate) fn pause<R: Wait>(&self, rt: &R) {
        let reading = self.reading.load(Ordering::SeqCst);
        self.reading.park_timeout(
            rt,
            (reading % (1 << 32)) as u32,
            Duration::from_micros(PAUSE_MICROS),
        );
    }
}
