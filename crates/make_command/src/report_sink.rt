// A sink that keeps what it is sent.
ghost use Rattle.std.specs.Prelude.{◌≡◌, ◌<◌, Some, []};

use mav_ports::{Put, Sink};
use std::alloc::Global;

/// A sink over memory, which fails only if memory runs out.
#[derive(Drop)]
pub(crate) struct ReportSink {
    sent: Vec<u8>,
    faults: u64,
}

impl ReportSink {
    pub(crate) fn new(alloc: Global) -> ReportSink
        ensures sent { ⟦<ReportSink as Sink>⟧.sent result ≡ Some [] }
        ensures faults { ⟦<ReportSink as Sink>⟧.faults result ≡ 0 }
    {
        ReportSink {
            sent: Vec::new(alloc),
            faults: 0,
        }
    }

    /// What it was sent.
    pub(crate) fn sent(&self) -> &[u8]
        ensures { ⟦<ReportSink as Sink>⟧.sent self.now ≡ Some result.now }
    {
        &self.sent
    }
}

impl Sink for ReportSink {
    ghost sent = { λ s. Some s.sent.items };

    ghost faults = { λ s. s.faults };

    fn write(&mut self, bytes: &[u8]) -> Put {
        match self.sent.extend_from_slice(bytes) {
            Ok(()) => Put::Took(bytes.len()),
            Err(_) => {
                self.faults = self.faults.saturating_add(1);
                Put::Failed
            }
        }
    }
}
