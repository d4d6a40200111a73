// The inputs that words name.
ghost use Rattle.std.specs.Prelude.{◌≡◌, None, IsNone, IfOk, option_map, string_bytes};
ghost use Rattle.real_files.specs.Named.{is_stdin, names_stdin, reads_stdin};

use crate::NoMemory;
use mav_ports::{Source, StdSource};
use std::alloc::AllocError;
use std::fs::File;
use std::io::{ErrorKind, Read, Stdin};
use std::{fs, io};

/// What an input is read from.
pub enum Reader {
    File(File),
    Stdin(Stdin),
}

// By hand, so that whoever drops an input proves one call for it.
impl Drop for Reader {
    fn drop(self) {
        match self {
            Reader::File(_file) => {}
            Reader::Stdin(_stdin) => {}
        }
    }
}

impl Read for Reader {
    fn read(&mut self, buf: &mut [u8]) -> io::Result<usize> {
        match self {
            Reader::File(file) => file.read(buf),
            Reader::Stdin(stdin) => stdin.read(buf),
        }
    }
}

// The file of that name, or standard input for `-`; none if it can't be opened.
fn reader_of(rt: &HostRuntime, name: &str) -> Result<Option<Reader>, NoMemory>
    ensures stdin { IfOk result (λ reader. reads_stdin reader ≡ is_stdin name.now) }
{
    if name == "-" {
        return Ok(Some(Reader::Stdin(rt.stdin())));
    }
    match fs::open(rt, name) {
        Ok(file) => Ok(Some(Reader::File(file))),
        Err(error) if error.kind() == ErrorKind::OutOfMemory => Err(AllocError),
        Err(_) => Ok(None),
    }
}

/// The input of that name: a file, or standard input for `-`. One that isn't named or can't be opened fails at each
/// read.
pub fn open_input(rt: &HostRuntime, name: &Option<String>) -> Result<StdSource<Reader>, NoMemory>
    ensures unnamed { name.now ≡ None → IfOk result (λ input. IsNone input.reader) }
    ensures stdin { IfOk result (λ input. reads_stdin input.reader ≡ names_stdin (option_map string_bytes name.now)) }
    ensures faults { IfOk result (λ input. ⟦<StdSource<Reader> as Source>⟧.faults input ≡ 0) }
    ensures begun { IfOk result (λ input. ¬ ⟦<StdSource<Reader> as Source>⟧.has_ended input) }
{
    let reader = match name {
        Some(name) => reader_of(rt, name.as_str())?,
        None => None,
    };
    Ok(StdSource::new(reader))
}
