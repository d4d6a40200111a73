// Ports that fail at each of their calls in turn, while the others go on.
ghost use Rattle.std.specs.Prelude.{◌≡◌};

use dialect::Dialect;
use link_table::Ways;
use mav_links::MemLink;
use mav_router::{How, NoMemory, RouteEnd, RoutePlan, route_links};
use mav_sign::Key;
use std::alloc::Global;
use std::test::Fail;

/// HEARTBEAT frames without a signature block, of systems 1, 2 and 3.
pub(crate) static FRAMES: [[u8; 21]; 3] = [
    [
        253, 9, 0, 0, 0, 1, 1, 0, 0, 0, 0, 0, 0, 0, 2, 3, 0, 4, 3, 74, 215,
    ],
    [
        253, 9, 0, 0, 0, 2, 1, 0, 0, 0, 0, 0, 0, 0, 2, 3, 0, 4, 3, 52, 15,
    ],
    [
        253, 9, 0, 0, 0, 3, 1, 0, 0, 0, 0, 0, 0, 0, 2, 3, 0, 4, 3, 30, 71,
    ],
];

// One of a port's calls that fails, if it comes so far: its first, second or later read, or write.
#[derive(Clone, Copy)]
enum Failing {
    Never,
    Read(u64),
    Write(u64),
}

// The call of this port that fails, if the port at that index has one.
fn at_port(port: usize, index: usize, failing: Failing) -> Failing {
    if port == index {
        failing
    } else {
        Failing::Never
    }
}

// A port that gives its frame three times, 16 bytes at a time.
fn link_of(alloc: Global, frame: &[u8; 21], failing: Failing) -> Result<MemLink, NoMemory> {
    let mut bytes = Vec::new(alloc);
    for _ in 0..3 {
        bytes.extend_from_slice(frame)?;
    }
    let mut reads = Vec::new(alloc);
    let mut writes = Vec::new(alloc);
    match failing {
        Failing::Never => {}
        Failing::Read(call) => reads.push(call)?,
        Failing::Write(call) => writes.push(call)?,
    }
    MemLink::new(alloc, bytes, 16, reads, Vec::new(alloc), 1_000, writes)
}

// The plan: all three ports are open to frames without a signature block.
fn plan() -> RoutePlan
    ensures { result.turns ≡ 100 }
{
    RoutePlan {
        one: true,
        turns: 100,
        plain: Ways::none().with(1).with(2).with(3),
    }
}

// What the runs come to in which a call of the port at this index fails: 1,000 for each port that failed and 1 for
// each entry of a journal.
#[derive(Clone, Copy)]
struct Tally {
    sum: u64,
}

impl Tally {
    fn add(&mut self, end: &RouteEnd) {
        for port in &end.ports {
            if let How::Failed = port.how {
                self.sum = self.sum.saturating_add(1_000);
            }
        }
        self.sum = self.sum.saturating_add(end.journal.len() as u64);
    }

    fn run(
        &mut self,
        alloc: Global,
        known: &Dialect,
        index: usize,
        failing: Failing,
    ) -> Result<(), NoMemory> {
        let mut links = [
            link_of(alloc, &FRAMES[0], at_port(0, index, failing))?,
            link_of(alloc, &FRAMES[1], at_port(1, index, failing))?,
            link_of(alloc, &FRAMES[2], at_port(2, index, failing))?,
        ];
        let key = Key::new([0; 32]);
        if let Ok(end) = route_links(alloc, &key, known, links.as_mut_slice(), plan()) {
            self.add(&end);
        }
        Ok(())
    }
}

fn sum_of(alloc: Global) -> Result<u64, NoMemory> {
    let known = Dialect::profile(alloc)?;
    let mut tally = Tally { sum: 0 };
    for index in 0..3 {
        for call in 0..12 {
            tally.run(alloc, &known, index, Failing::Read(call))?;
            tally.run(alloc, &known, index, Failing::Write(call))?;
        }
    }
    Ok(tally.sum)
}

// A port is read five times and written to twelve times: in three rounds, with a frame from each other port that is
// written by itself, 16 bytes at a time. One whose read fails gave 0, 0, 1, 2 or 3 of its frames before, and each
// other port its three: 36 entries in those five runs. One whose write fails isn't read again, and gave 1, 2 or 3 of
// them, four times each: 96. In each of the other seven runs there are 9.
#[test]
fn a_port_may_fail_at_any_call(rt: HostRuntime) -> Result<(), Fail> {
    assert_eq!(rt; sum_of(rt.alloc())?, 3 * (17_000 + 36 + 96 + 7 * 9));
    Ok(())
}
