// A disk in a file of the system.
ghost use Rattle.std.specs.Prelude.{◌≡◌, []};
ghost use Rattle.slot_store.specs.Disks.{CountsDiskFault};

use crate::{Disk, DiskFault};
use std::fs::{File, Metadata, OpenOptions};
use std::io::{Error, ErrorKind};
use std::os::unix::fs::FileExt;
use std::{fs, io};

// Two slots.
const DISK_BYTES: u64 = 131_092;

/// A disk over a file of 131,092 bytes. It promises nothing of what the file holds, and counts each error of the
/// system as a fault. Once a sync has failed each call fails, since the system may have dropped what wasn't written.
#[derive(Drop)]
pub struct FileDisk {
    file: File,
    has_lost: bool,
    faults: u64,
}

impl FileDisk {
    pub(crate) fn new(file: File) -> FileDisk
        ensures { result.faults ≡ 0 }
    {
        FileDisk {
            file,
            has_lost: false,
            faults: 0,
        }
    }

    // The result of a call of the system, unless a sync failed before it.
    fn count(&mut self, call: io::Result<()>) -> Result<(), DiskFault>
        ensures { CountsDiskFault result self.old.faults self.new.faults }
    {
        if call.is_ok() && !self.has_lost {
            return Ok(());
        }
        self.faults = self.faults.saturating_add(1);
        Err(DiskFault)
    }
}

impl Disk for FileDisk {
    ghost is_observable = { ⊥ };

    ghost extent = { λ d. 131092 };

    ghost seen = { λ d. [] };

    ghost may_leave = { λ d c. ⊥ };

    ghost moment = { λ d. 0 };

    ghost left_since = { λ d t c. ⊥ };

    ghost faults = { λ d. d.faults };

    ghost seen_may_be_left = { λ d observable. observable };

    ghost has_its_size = { λ d observable. absurd observable };

    ghost counts_now = { λ d t c le now. now };

    ghost only_now = { λ d c left. left };

    fn size(&self) -> u64 {
        DISK_BYTES
    }

    fn read(&mut self, at: u64, out: &mut [u8]) -> Result<(), DiskFault> {
        let call = self.file.read_exact_at(out, at);
        self.count(call)
    }

    fn write(&mut self, at: u64, bytes: &[u8]) -> Result<(), DiskFault> {
        let call = self.file.write_all_at(bytes, at);
        self.count(call)
    }

    fn sync(&mut self) -> Result<(), DiskFault> {
        let call = self.file.sync_all();
        self.has_lost = self.has_lost || call.is_err();
        self.count(call)
    }
}

// Gives the file that was made beside it its name, unless another program has made one of that name meanwhile.
fn name(rt: &HostRuntime, beside: &str, path: &str) -> io::Result<()> {
    match fs::hard_link(rt, beside, path) {
        Ok(()) => fs::remove_file(rt, beside),
        Err(error) if error.kind() == ErrorKind::AlreadyExists => fs::remove_file(rt, beside),
        // The file system may have no such links.
        Err(_) => fs::rename(rt, beside, path),
    }
}

// Makes the file of zeros under another name first, so that a crash leaves all of it or none. That is made anew, and
// never through a symbolic link.
fn make(rt: &HostRuntime, path: &str) -> io::Result<()> {
    let beside = format!(in rt.alloc(); "{path}.new")?;
    let _ = fs::remove_file(rt, beside.as_str());
    let file = File::create_new(rt, beside.as_str())?;
    file.set_len(DISK_BYTES)?;
    file.sync_all()?;
    name(rt, beside.as_str(), path)
}

// Makes the file's name durable.
fn sync_folder(rt: &HostRuntime, path: &str) -> io::Result<()> {
    let mut folder = fs::canonicalize(rt, path)?;
    folder.pop();
    File::open(rt, folder.as_str())?.sync_all()
}

// Takes the file for this program alone, until its end; a fault if another one has it.
fn lock(file: &File) -> io::Result<()> {
    match file.try_lock() {
        Ok(()) => Ok(()),
        Err(_) => Err(Error::from(ErrorKind::WouldBlock)),
    }
}

fn check_form(found: &Metadata) -> io::Result<()> {
    if found.is_file() && found.len() == DISK_BYTES {
        Ok(())
    } else {
        Err(Error::from(ErrorKind::InvalidData))
    }
}

// The file of that name, which is made if it doesn't exist; a fault if it has another size, or another program has it.
pub(crate) fn open_or_make(rt: &HostRuntime, path: &str) -> io::Result<File> {
    let found = match fs::metadata(rt, path) {
        Err(error) if error.kind() == ErrorKind::NotFound => {
            make(rt, path)?;
            fs::metadata(rt, path)?
        }
        found => found?,
    };
    check_form(&found)?;
    let file = OpenOptions::new().read(true).write(true).open(rt, path)?;
    lock(&file)?;
    check_form(&file.metadata()?)?;
    sync_folder(rt, path)?;
    Ok(file)
}
