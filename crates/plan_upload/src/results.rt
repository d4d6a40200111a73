// The last upload result of each stream of which a drone keeps one.
ghost use Rattle.std.specs.Prelude.{◌≡◌, [], IsTrue, IfOk, position};
ghost use Rattle.plan_upload.specs.Addresses.{same_stream};
ghost use Rattle.plan_upload.specs.Drone.{result_of, with_result};
ghost use Rattle.plan_upload.specs.Room.{has_place};

use crate::NoMemory;
use mav_names::{Stream, is_same_stream};
use std::alloc::Global;
use std::marker::Model;

// The most streams with a result.
const MAX_RESULTS: usize = 256;

/// Whether the last upload of a stream was installed.
#[derive(Clone, Copy)]
pub struct StreamResult {
    pub stream: Stream,
    pub installed: bool,
}

/// The results in the order in which their streams came. A stream's result is found by one pass over at
/// most 256 small entries.
#[derive(Drop)]
pub struct Results {
    entries: Vec<StreamResult>,
}

impl Model for Results {
    ghost use Rattle.std.specs.Prelude.{◌≤◌, List, vec_capacity};
    ghost use Rattle.plan_upload.specs.Drone.{UploadResult};

    ghost Value = { List UploadResult };

    ghost use Rattle.plan_upload.specs.Results.{results_view};

    ghost view = { λ r. results_view r.entries.items };

    ghost invariant = { λ r. 256 ≤ vec_capacity r.entries };
}

fn place(entries: &[StreamResult], stream: Stream) -> Option<usize>
    ensures { result ≡ position (λ r. same_stream r.stream stream) entries.now }
{
    entries
        .iter()
        .position(|r| is_same_stream(r.stream, stream))
}

impl Results {
    pub fn new(alloc: Global) -> Result<Results, NoMemory>
        ensures { IfOk result (λ r. r ≡ []) }
    {
        Ok(Results {
            entries: Vec::with_capacity(alloc, MAX_RESULTS)?,
        })
    }

    pub fn of(&self, stream: Stream) -> Option<bool>
        ensures { result ≡ result_of self.now stream }
    {
        let at = place(&self.entries, stream)?;
        Some(self.entries[at].installed)
    }

    pub fn has_place(&self, stream: Stream) -> bool
        ensures { result ≡ has_place self.now stream }
    {
        self.of(stream).is_some() || self.entries.len() < MAX_RESULTS
    }

    pub fn set(&mut self, stream: Stream, installed: bool)
        requires { IsTrue (has_place self.old stream) }
        ensures { self.new ≡ with_result self.old stream installed }
    {
        match place(&self.entries, stream) {
            Some(at) => self.entries[at].installed = installed,
            None => self
                .entries
                .push_reserved(StreamResult { stream, installed }),
        }
    }
}
