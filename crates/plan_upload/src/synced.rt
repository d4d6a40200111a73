// The drones with which a station is synchronised.
ghost use Rattle.std.specs.Prelude.{◌≡◌, [], IfOk};
ghost use Rattle.std.specs.List.{list_any};
ghost use Rattle.plan_upload.specs.Addresses.{same_stream};
ghost use Rattle.plan_upload.specs.Station.{is_synced, synced_too};

use crate::NoMemory;
use mav_names::{Stream, is_same_stream};
use std::alloc::Global;
use std::marker::Model;

// The most drones with which a station is synchronised.
const MAX_SYNCED: usize = 256;

/// The drones, the most recent one first. A drone is found by one pass over at most 256
/// small entries.
#[derive(Drop)]
pub struct SyncedDrones {
    drones: Vec<Stream>,
}

impl Model for SyncedDrones {
    ghost use Rattle.std.specs.Prelude.{◌≤◌, List, vec_capacity};
    ghost use Rattle.mav_names.specs.declared.names.Stream.{Stream};

    ghost Value = { List Stream };

    ghost view = { λ s. s.drones.items };

    ghost invariant = { λ s. 256 ≤ vec_capacity s.drones };
}

fn contains(drones: &[Stream], drone: Stream) -> bool
    ensures { result ≡ list_any (λ d. same_stream d drone) drones.now }
{
    drones.iter().any(|d| is_same_stream(*d, drone))
}

impl SyncedDrones {
    pub fn new(alloc: Global) -> Result<SyncedDrones, NoMemory>
        ensures { IfOk result (λ s. s ≡ []) }
    {
        Ok(SyncedDrones {
            drones: Vec::with_capacity(alloc, MAX_SYNCED)?,
        })
    }

    pub fn has(&self, drone: Stream) -> bool
        ensures { result ≡ is_synced self.now drone }
    {
        contains(&self.drones, drone)
    }

    /// Adds a drone, and drops the one that was kept longest if there are 256.
    pub fn add(&mut self, drone: Stream)
        ensures { self.new ≡ synced_too self.old drone }
    {
        if self.has(drone) {
            return;
        }
        self.drones.truncate(MAX_SYNCED - 1);
        let added = self.drones.insert(0, drone);
        added.unwrap();
    }
}
