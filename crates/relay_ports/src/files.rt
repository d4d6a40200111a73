// Devices and files that don't wait.

use crate::Files;
use std::fs::{File, OpenOptions};
use std::io::{Error, ErrorKind};
use std::os::fd::AsFd;
use std::os::unix::fs::{FileTypeExt, MetadataExt};
use std::{fs, io, net};

fn invalid() -> Error {
    Error::from(ErrorKind::InvalidInput)
}

// From now on no read or write of the file waits. The mode is that of the open file, which each descriptor of it
// shares; a socket's call sets it for any of them.
fn never_waits(file: &File) -> io::Result<()> {
    let shared = file.as_fd().try_clone_to_owned()?;
    net::TcpStream::from(shared).set_nonblocking(true)
}

// An opening of a pipe would wait for its other end.
fn no_pipe(rt: &HostRuntime, name: &str) -> io::Result<()> {
    match fs::metadata(rt, name) {
        Ok(found) if found.file_type().is_fifo() => Err(invalid()),
        _ => Ok(()),
    }
}

/// A character device, which is read and written.
pub(crate) fn open_device(rt: &HostRuntime, name: &str) -> io::Result<File> {
    if !fs::metadata(rt, name)?.file_type().is_char_device() {
        return Err(invalid());
    }
    let device = OpenOptions::new().read(true).write(true).open(rt, name)?;
    never_waits(&device)?;
    Ok(device)
}

// The file that is written, made empty if it isn't the one that is read.
fn open_output(rt: &HostRuntime, name: &str, input: &File) -> io::Result<File> {
    no_pipe(rt, name)?;
    let output = OpenOptions::new().write(true).create(true).open(rt, name)?;
    let read = input.metadata()?;
    let written = output.metadata()?;
    if !written.is_file() {
        return Ok(output);
    }
    if read.dev() == written.dev() && read.ino() == written.ino() {
        return Err(invalid());
    }
    output.set_len(0)?;
    Ok(output)
}

/// The file that is read, and then the one that is written.
pub(crate) fn open_files(rt: &HostRuntime, files: &Files) -> io::Result<(File, File)> {
    no_pipe(rt, files.input.as_str())?;
    let input = fs::open(rt, files.input.as_str())?;
    let output = open_output(rt, files.output.as_str(), &input)?;
    never_waits(&input)?;
    never_waits(&output)?;
    Ok((input, output))
}
