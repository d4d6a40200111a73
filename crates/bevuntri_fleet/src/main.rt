//! The program's command `fleet` alone, which takes fewer crates to prove: opens what its words name, and passes it to
//! `run`.
#![tactic(auto)]

use command_line::{Command, Line, OptionName, WantedFault, read};
use fleet_line::run;
use mav_ports::{StdSink, StdSource};
use real_files::{Reader, open_input, words_of};
use std::alloc::AllocError;
use std::io;
use std::process::ExitCode;

const NO_MEMORY: u8 = 7;

// What `fleet` reads.
#[derive(Drop)]
struct Inputs {
    key: StdSource<Reader>,
    main: StdSource<Reader>,
}

fn no_inputs() -> Inputs {
    Inputs {
        key: StdSource::new(None),
        main: StdSource::new(None),
    }
}

fn inputs_of(rt: &HostRuntime, line: &Line) -> Result<Inputs, AllocError> {
    Ok(Inputs {
        key: open_input(rt, &line.value(rt.alloc(), OptionName::Key)?)?,
        main: open_input(rt, &line.main(rt.alloc())?)?,
    })
}

// The inputs that the words name, of which there are none but in a line of `fleet`.
fn open(rt: &HostRuntime, words: &[String]) -> Result<Inputs, AllocError> {
    match read(rt.alloc(), words) {
        Ok(line) => match line.command {
            Command::Fleet => inputs_of(rt, &line),
            _ => Ok(no_inputs()),
        },
        Err(WantedFault::Usage) => Ok(no_inputs()),
        Err(WantedFault::NoMemory) => Err(AllocError),
    }
}

fn status(rt: &HostRuntime) -> Result<u8, AllocError> {
    let words = words_of(rt)?;
    let mut inputs = open(rt, &words)?;
    let mut out = StdSink::new(io::writer(rt));
    Ok(run(
        rt.alloc(),
        &words,
        &mut inputs.key,
        &mut inputs.main,
        &mut out,
    ))
}

fn main(rt: HostRuntime) -> ExitCode {
    ExitCode::from(status(&rt).unwrap_or(NO_MEMORY))
}
