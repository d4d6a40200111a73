// That what a line of a scenario leads to is written before more is read.

use crate::faults::status_of;
use mav_ports::{StdSink, StdSource};
use station_cli::Inputs;
use std::alloc::Global;
use std::io::{self, Error, ErrorKind, Read, Write};
use std::sync::atomic::{AtomicBool, Ordering};
use std::test::Fail;

const ONE_ITEM: &[u8] =
    b"drone 1\nstation 255 190\nitem 6 16 473977420 85455940\nbegin 255.190 1.1 mission\nflow 20\n";

// Gives a scenario at its first call, and a comment at its second, at which it fails unless the output was written to
// before.
#[derive(Drop)]
struct Following<'a> {
    calls: u8,
    is_written: &'a AtomicBool,
}

impl<'a> Read for Following<'a> {
    fn read(&mut self, buf: &mut [u8]) -> io::Result<usize> {
        self.calls = self.calls.saturating_add(1);
        let bytes = match self.calls {
            1 => ONE_ITEM,
            2 if !self.is_written.load(Ordering::SeqCst) => {
                return Err(Error::from(ErrorKind::Other));
            }
            2 => b"# the end\n".as_slice(),
            _ => b"".as_slice(),
        };
        let count = buf.len().min(bytes.len());
        buf[..count].copy_from_slice(&bytes[..count]);
        Ok(count)
    }
}

// Tells that it was written to.
#[derive(Drop)]
struct Telling<'a> {
    is_written: &'a AtomicBool,
}

impl<'a> Write for Telling<'a> {
    fn write(&mut self, buf: &[u8]) -> io::Result<usize> {
        self.is_written.store(true, Ordering::SeqCst);
        Ok(buf.len())
    }

    fn flush(&mut self) -> io::Result<()> {
        Ok(())
    }
}

fn scenario_before(is_written: &AtomicBool) -> StdSource<Following<'_>> {
    StdSource::new(Some(Following {
        calls: 0,
        is_written,
    }))
}

fn status_of_following(alloc: Global) -> u8 {
    let is_written = AtomicBool::new(false);
    let mut inputs = Inputs {
        main: scenario_before(&is_written),
        defs: scenario_before(&is_written),
        key: scenario_before(&is_written),
    };
    let mut out = StdSink::new(Telling {
        is_written: &is_written,
    });
    status_of(alloc, "fleet f", &mut inputs, &mut out)
}

#[test]
fn a_report_is_written_before_more_is_read(rt: HostRuntime) {
    assert_eq!(rt; status_of_following(rt.alloc()), 0);
}
