// The words of a program.
use crate::NoMemory;
use std::alloc::AllocError;
use std::env;
use std::io::ErrorKind;

/// The words after the program's name; none if one of them isn't UTF-8, which no command takes.
pub fn words_of(rt: &HostRuntime) -> Result<Vec<String>, NoMemory> {
    let mut words = Vec::new(rt.alloc());
    match env::args(rt) {
        Ok(args) => {
            for word in args.skip(1) {
                words.push(word)?;
            }
        }
        Err(error) if error.kind() == ErrorKind::OutOfMemory => return Err(AllocError),
        Err(_) => (),
    }
    Ok(words)
}
