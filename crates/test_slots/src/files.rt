// A store in a file.
use plan_store::{KeepFault, Keeper};
use slot_store::FileStore;
use std::env::Env;
use std::fs::File;
use std::io::Write;
use std::test::Fail;
use std::{env, fs, io, process};

// A file's name that no other run has.
fn path_of_test<R: Env + AllocGlobal>(rt: &R, process: u32) -> io::Result<String> {
    let folder = env::temp_dir(rt)?;
    Ok(format!(in rt.alloc(); "{}/slot_store_{process}", folder.as_str())?)
}

fn loads(rt: &HostRuntime, path: &str, bytes: &[u8]) -> bool {
    let Ok(mut store) = FileStore::open(rt, path) else {
        return false;
    };
    match store.load() {
        Ok(loaded) => loaded.as_slice() == bytes,
        Err(_) => false,
    }
}

fn saves(rt: &HostRuntime, path: &str, bytes: &[u8]) -> bool {
    let Ok(mut store) = FileStore::open(rt, path) else {
        return false;
    };
    bytes.len() <= 65_536 && store.save(bytes).is_ok()
}

fn fails(rt: &HostRuntime, path: &str) -> bool {
    let Ok(mut store) = FileStore::open(rt, path) else {
        return false;
    };
    matches!(&store.load(), Err(KeepFault::Store))
        && matches!(&store.save(b""), Err(KeepFault::Store))
}

// Makes a file of so many bytes, the first of which are these.
fn make(rt: &HostRuntime, path: &str, len: u64, first: &[u8]) -> io::Result<()> {
    let mut file = File::create(rt, path)?;
    file.write_all(first)?;
    file.set_len(len)
}

// The first step that isn't as it should be.
fn first_wrong(rt: &HostRuntime, path: &str) -> u8 {
    if !loads(rt, path, b"") {
        return 1;
    }
    if !saves(rt, path, b"one") || !saves(rt, path, b"two") || !loads(rt, path, b"two") {
        return 2;
    }
    // Another size, and a generation of 3.
    if make(rt, path, 131_091, b"").is_err() || !fails(rt, path) {
        return 3;
    }
    if make(rt, path, 131_092, b"\xA5\x03").is_err() || !fails(rt, path) {
        return 4;
    }
    0
}

#[test]
fn a_file_keeps_what_was_saved(rt: HostRuntime) -> Result<(), Fail> {
    let path = path_of_test(&rt, process::id(rt.process()))?;
    assert_eq!(rt; first_wrong(&rt, path.as_str()), 0);
    assert!(rt; fs::remove_file(&rt, path.as_str()).is_ok());
    Ok(())
}
