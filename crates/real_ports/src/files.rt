// Ports over two files.
ghost use Rattle.std.specs.Prelude.{◌≡◌, true};
ghost use Rattle.real_ports.specs.Opened.{just_opened, is_open, is_of_files};

use crate::RealLink;
use command_line::{Files, FilesKind};
use log_rows::Replay;
use mav_links::{FileLink, Link};
use mav_profile::profile_extras;
use std::fs::{File, OpenOptions};
use std::io::{Error, ErrorKind};
use std::os::unix::fs::MetadataExt;
use std::{fs, io};

// The file that is written, made empty if it isn't the one that is read.
fn open_output(rt: &HostRuntime, name: &str, input: &File) -> io::Result<File> {
    let output = OpenOptions::new().write(true).create(true).open(rt, name)?;
    let read = input.metadata()?;
    let written = output.metadata()?;
    if !written.is_file() {
        return Ok(output);
    }
    if read.dev() == written.dev() && read.ino() == written.ino() {
        return Err(Error::from(ErrorKind::InvalidInput));
    }
    output.set_len(0)?;
    Ok(output)
}

// The file that is read, and then the one that is written.
fn open_both(rt: &HostRuntime, files: &Files) -> io::Result<(File, File)> {
    let input = fs::open(rt, files.input.as_str())?;
    let output = open_output(rt, files.output.as_str(), &input)?;
    Ok((input, output))
}

fn two_files(rt: &HostRuntime, files: &Files) -> FileLink<File, File>
    ensures { ⟦<FileLink<File, File> as Link>⟧.state result ≡ just_opened }
{
    match open_both(rt, files) {
        Ok((input, output)) => FileLink::new(Some(input), Some(output)),
        Err(_) => FileLink::new(None, None),
    }
}

/// Over two files, or playing the log in the first with the messages of the profile.
pub(crate) fn files_link(rt: &HostRuntime, files: &Files) -> RealLink
    ensures opened { ⟦<RealLink as Link>⟧.state result ≡ just_opened }
    ensures open { is_open result ≡ true }
    ensures kind { is_of_files files.now.kind result ≡ true }
{
    let link = two_files(rt, files);
    match files.kind {
        FilesKind::File => RealLink::Files(link),
        FilesKind::Replay => RealLink::Log(Replay::new(link, profile_extras())),
    }
}
