// Two threads at one lock, in lockstep.
ghost use Rattle.std.specs.Prelude.{◌≡◌, length, All};
ghost use Rattle.turnstile.specs.Participants.{CanEnter};
ghost use mathlib.Core.List.{IsPrefix};

use std::alloc::Global;
use std::sync::Wait;
use std::sync::atomic::{AtomicBool, Ordering};
use std::test::Fail;
use std::thread;
use std::thread::Threads;
use turnstile::{Journaled, NoMemory, Turn, TurnSeat};

#[derive(Drop)]
struct Notes {
    notes: Vec<u64>,
}

impl Journaled for Notes {
    type Entry = u64;

    ghost journal = { λ n. n.notes.items };

    fn entries(&self) -> u64 {
        self.notes.len() as u64
    }
}

impl Notes {
    // Notes it, if there is memory.
    fn note(&mut self, note: u64)
        ensures { IsPrefix self.old.notes.items self.new.notes.items }
    {
        if let Err(_) = self.notes.push(note) {}
    }
}

// What the threads tell each other.
#[derive(Drop)]
struct Signals {
    first_is_inside: AtomicBool,
    second_comes: AtomicBool,
    second_is_inside: AtomicBool,
    both_were_inside: AtomicBool,
}

fn wait_for<R: Wait>(rt: &R, signal: &AtomicBool) {
    for _ in rt.forever() {
        if signal.load(Ordering::SeqCst) {
            return;
        }
        thread::yield_now();
    }
    unreachable!()
}

// Keeps its turn until the other thread has come for its own, and a while longer.
fn go_first<R: Wait>(rt: &R, turn: &Turn<Notes>, signals: &Signals, seat: &mut TurnSeat<Notes>)
    requires { CanEnter turn.now seat.old }
    ensures { CanEnter turn.now seat.new }
{
    let mut held = turn.enter(rt, seat);
    signals.first_is_inside.store(true, Ordering::SeqCst);
    wait_for(rt, &signals.second_comes);
    for _ in 0..20_000u32 {
        thread::yield_now();
    }
    if signals.second_is_inside.load(Ordering::SeqCst) {
        signals.both_were_inside.store(true, Ordering::SeqCst);
    }
    held.value().note(1);
    turn.leave(seat, held);
}

fn go_second<R: Wait>(rt: &R, turn: &Turn<Notes>, signals: &Signals, seat: &mut TurnSeat<Notes>)
    requires { CanEnter turn.now seat.old }
    ensures { CanEnter turn.now seat.new }
{
    wait_for(rt, &signals.first_is_inside);
    signals.second_comes.store(true, Ordering::SeqCst);
    let mut held = turn.enter(rt, seat);
    signals.second_is_inside.store(true, Ordering::SeqCst);
    held.value().note(2);
    turn.leave(seat, held);
}

fn go_both<R: Threads + Wait + Sync>(
    rt: &R,
    turn: &Turn<Notes>,
    signals: &Signals,
    seats: &mut [TurnSeat<Notes>],
)
    requires { All (CanEnter turn.now) seats.old }
    ensures { All (CanEnter turn.now) seats.new × (length seats.new ≡ length seats.old) }
{
    thread::for_each_mut(
        rt,
        seats,
        2,
        &|index: usize, seat: &mut TurnSeat<Notes>|
            requires { CanEnter turn.now seat.now }
            ensures { CanEnter turn.entry.now seat.exit.now }
        {
            if index == 0 {
                go_first(rt, turn, signals, seat)
            } else {
                go_second(rt, turn, signals, seat)
            }
        },
    );
}

// What was noted, and whether both threads had the turn at once.
fn noted<R: Threads + Wait + Sync>(rt: &R, alloc: Global) -> Result<(Vec<u64>, bool), NoMemory> {
    let signals = Signals {
        first_is_inside: AtomicBool::new(false),
        second_comes: AtomicBool::new(false),
        second_is_inside: AtomicBool::new(false),
        both_were_inside: AtomicBool::new(false),
    };
    let notes = Vec::new(alloc);
    let (turn, mut seats) = Turn::new(alloc, Notes { notes }, 2)?;
    go_both(rt, &turn, &signals, seats.as_mut_slice());
    let Notes { notes } = turn.close(seats);
    Ok((notes, signals.both_were_inside.load(Ordering::SeqCst)))
}

#[test]
fn the_second_turn_waits_for_the_first(rt: HostRuntime) -> Result<(), Fail> {
    let (notes, both_were_inside) = noted(&rt, rt.alloc())?;
    assert!(rt; !both_were_inside);
    assert_eq!(rt; notes.as_slice(), [1, 2].as_slice());
    Ok(())
}
