// Jobs, each in a thread of its own.
ghost use Rattle.std.specs.Prelude.{◌≡◌, ℕ, length, slice_get, Some, All};

use std::sync::Wait;
use std::thread;
use std::thread::Threads;

// So many threads at most.
const MOST_THREADS: usize = 8;

/// What a thread does with a value that it has for itself.
pub(crate) trait Job: Send {
    ghost ready: { Self → Type 0 };

    ghost ran: { Self → Self → Type 0 };

    fn run<R: Wait>(&mut self, rt: &R)
        requires { ready self.old }
        ensures { ran self.old self.new };
}

// Runs each job in a thread of its own, and returns when all have ended.
fn run_jobs<R: Threads + Wait + Sync, J: Job>(rt: &R, jobs: &mut [J])
    requires ready { All J.ready jobs.old }
    ensures length { length jobs.new ≡ length jobs.old }
    ensures each { (k : ℕ) (b c : _) → slice_get jobs.old k ≡ Some b → slice_get jobs.new k ≡ Some c → J.ran b c }
{
    thread::for_each_mut(
        rt,
        jobs,
        MOST_THREADS,
        &move |index: usize, job: &mut J|
            requires { J.ready job.now }
            ensures { J.ran job.entry.now job.exit.now }
        {
            let _ = index;
            job.run(rt)
        },
    );
}

/// Runs the jobs of a list, each in a thread of its own, and returns when all have ended.
pub(crate) fn run_all<R: Threads + Wait + Sync, J: Job>(rt: &R, jobs: &mut Vec<J>)
    requires ready { All J.ready jobs.old.items }
    ensures length { length jobs.new.items ≡ length jobs.old.items }
    ensures each { (k : ℕ) (b c : _) → slice_get jobs.old.items k ≡ Some b → slice_get jobs.new.items k ≡ Some c
        → J.ran b c }
{
    run_jobs(rt, jobs.as_mut_slice());
}
