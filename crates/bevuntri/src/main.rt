//! The program: opens what the words name, and passes it to `run`.
#![tactic(auto)]

ghost use Rattle.std.specs.Prelude.{◌≡◌, map, string_bytes, length, IfOk, option_map};
ghost use Rattle.station_cli.specs.Wants.{AreThere, Wants};
ghost use Rattle.real_files.specs.Named.{names_stdin, reads_stdin};

use mav_links::Link;
use mav_ports::{StdClock, StdSink, StdSource};
use real_files::{Reader, open_input, words_of};
use real_ports::{beat_of, open_link, open_store};
use station_cli::{Inputs, Store, Wanted, WantedFault, run, wanted};
use std::alloc::AllocError;
use std::io;
use std::process::ExitCode;
use std::sync::Wait;
use std::thread::Threads;

const NO_MEMORY: u8 = 7;

// The inputs that the words name.
fn inputs_of(rt: &HostRuntime, wanted: &Wanted) -> Result<Inputs<StdSource<Reader>>, AllocError>
    ensures main { IfOk result (λ i. reads_stdin i.main.reader ≡ names_stdin
        (option_map string_bytes wanted.now.main)) }
    ensures defs { IfOk result (λ i. reads_stdin i.defs.reader ≡ names_stdin
        (option_map string_bytes wanted.now.defs)) }
    ensures key { IfOk result (λ i. reads_stdin i.key.reader ≡ names_stdin (option_map string_bytes wanted.now.key)) }
{
    Ok(Inputs {
        main: open_input(rt, &wanted.main)?,
        defs: open_input(rt, &wanted.defs)?,
        key: open_input(rt, &wanted.key)?,
    })
}

fn no_inputs() -> Inputs<StdSource<Reader>> {
    Inputs {
        main: StdSource::new(None),
        defs: StdSource::new(None),
        key: StdSource::new(None),
    }
}

// Opens the ports that the words name, and runs them. The second handle starts threads and waits.
fn run_wanted<R: Threads + Wait + Sync>(
    rt: &HostRuntime,
    threads: &R,
    words: &[String],
    wanted: &Wanted,
) -> Result<u8, AllocError>
    requires { Wants (map string_bytes words.now) wanted.now }
{
    let mut inputs = inputs_of(rt, wanted)?;
    run_ports(rt, threads, words, wanted, &mut inputs)
}

fn run_ports<R: Threads + Wait + Sync>(
    rt: &HostRuntime,
    threads: &R,
    words: &[String],
    wanted: &Wanted,
    inputs: &mut Inputs<StdSource<Reader>>,
) -> Result<u8, AllocError>
    requires { Wants (map string_bytes words.now) wanted.now }
{
    let beat = beat_of(words);
    let mut ports: Vec<Box<dyn Link>> = Vec::new(rt.alloc());
    for port in &wanted.ports {
        let link = open_link(rt, port, beat)?;
        ports.push(Box::new(rt.alloc(), link)?)?;
    }
    run_stores(rt, threads, words, wanted, inputs, &mut ports)
}

// The store that the words name, if they name one.
fn run_stores<R: Threads + Wait + Sync>(
    rt: &HostRuntime,
    threads: &R,
    words: &[String],
    wanted: &Wanted,
    inputs: &mut Inputs<StdSource<Reader>>,
    ports: &mut Vec<Box<dyn Link>>,
) -> Result<u8, AllocError>
    requires wants { Wants (map string_bytes words.now) wanted.now }
    requires links { length ports.old.items ≡ length wanted.now.ports.items }
{
    let mut stores: Vec<Store> = Vec::new(rt.alloc());
    match &wanted.store {
        Some(name) => {
            let store = open_store(rt, name.as_str())?;
            stores.push(Box::new(rt.alloc(), store)?)?;
            Ok(run_over(rt, threads, words, inputs, ports, &mut stores))
        }
        None => Ok(run_over(rt, threads, words, inputs, ports, &mut stores)),
    }
}

// Runs the words over standard output and the system's clock.
fn run_over<R: Threads + Wait + Sync>(
    rt: &HostRuntime,
    threads: &R,
    words: &[String],
    inputs: &mut Inputs<StdSource<Reader>>,
    ports: &mut Vec<Box<dyn Link>>,
    stores: &mut Vec<Store>,
) -> u8
    requires { AreThere (map string_bytes words.now) (length ports.old.items) (length stores.old.items) }
{
    let mut out = StdSink::new(io::writer(rt));
    let mut clock = StdClock::new(rt);
    run(
        threads,
        rt.alloc(),
        words,
        inputs,
        &mut out,
        &mut clock,
        ports,
        stores,
    )
}

fn status<R: Threads + Wait + Sync>(rt: &HostRuntime, threads: &R) -> Result<u8, AllocError> {
    let words = words_of(rt)?;
    match wanted(rt.alloc(), &words) {
        Ok(wanted) => run_wanted(rt, threads, &words, &wanted),
        // With nothing made: no words of a command are refused.
        Err(WantedFault::Usage) => {
            Ok(run_over(
                rt,
                threads,
                &words,
                &mut no_inputs(),
                &mut Vec::new(rt.alloc()),
                &mut Vec::new(rt.alloc()),
            ))
        }
        Err(WantedFault::NoMemory) => Err(AllocError),
    }
}

fn main(rt: HostRuntime) -> ExitCode {
    ExitCode::from(status(&rt, &rt).unwrap_or(NO_MEMORY))
}
