// A store in memory that fails at the calls that its maker lists.
ghost use Rattle.std.specs.Prelude.{◌≡◌, ◌≤◌, ◌⊎◌, ◌↔◌, Some, IsTrue, [], length, IfOk, OnOk, OnErr};
ghost use Rattle.mav_ports.specs.Calls.{call_after};
ghost use Rattle.mav_ports.specs.Counts.{next_count};
ghost use Rattle.plan_store.specs.Keeps.{CountsStoreFault, IsNotStoreFault};
ghost use Rattle.plan_store.specs.MemStores.{store_from_start, fails_next, is_odd_call, after_load, save_answer};
ghost use Rattle.plan_store.specs.MemStores.{after_save};

use crate::{KeepFault, Keeper, MAX_SAVED_BYTES};
use std::alloc::{AllocError, Global};
use std::marker::Model;

/// A store in memory.
pub struct MemKeeper {
    alloc: Global,
    contents: Vec<u8>,
    fails: Vec<u64>,
    call: Option<u64>,
    faults: u64,
}

// By hand, so that whoever drops a store proves one call.
impl Drop for MemKeeper {
    fn drop(self) {
        let MemKeeper {
            alloc: _,
            contents: _contents,
            fails: _fails,
            call: _,
            faults: _,
        } = self;
    }
}

impl Model for MemKeeper {
    ghost use Rattle.plan_store.specs.MemStores.{MemStore};

    ghost Value = { MemStore };

    ghost view = { λ s. record {
      contents = s.contents.items;
      fails = s.fails.items;
      call = s.call;
      faults = s.faults;
    } };
}

impl MemKeeper {
    /// Calls are numbered from 0, loads and saves alike, also those for which memory is missing:
    /// it fails at those in `fails`.
    pub fn new(alloc: Global, contents: Vec<u8>, fails: Vec<u64>) -> MemKeeper
        ensures start { result ≡ store_from_start contents.items fails.items }
        ensures contents { ⟦<MemKeeper as Keeper>⟧.contents result ≡ Some contents.items }
        ensures faults { ⟦<MemKeeper as Keeper>⟧.faults result ≡ 0 }
        ensures infallible { fails.items ≡ [] → ⟦<MemKeeper as Keeper>⟧.is_infallible result }
    {
        MemKeeper {
            alloc,
            contents,
            fails,
            call: Some(0),
            faults: 0,
        }
    }

    // Whether the next call is listed to fail.
    fn fails_next(&self) -> bool
        ensures { result ≡ fails_next self.now }
    {
        match self.call {
            Some(call) => self.fails.contains(&call),
            None => false,
        }
    }

    // Whether the number of the next call is odd.
    fn is_odd_call(&self) -> bool
        ensures { result ≡ is_odd_call self.now.call }
    {
        match self.call {
            Some(call) => call % 2 == 1,
            None => false,
        }
    }

    // Goes on to the next call's number.
    fn count_call(&mut self)
        ensures { self.new ≡ record self.old { call = call_after self.old.call } }
    {
        self.call = self.call.and_then(|call| call.checked_add(1));
    }

    // A call failed.
    fn count_fault(&mut self) -> KeepFault
        ensures fault { result ≡ KeepFault.Store }
        ensures after { self.new ≡ record self.old { faults = next_count self.old.faults } }
    {
        self.faults = self.faults.saturating_add(1);
        KeepFault::Store
    }

    fn replace(&mut self, bytes: &[u8]) -> Result<(), AllocError>
        ensures ok { OnOk result (self.new ≡ record self.old { contents = bytes.now }) }
        ensures err { OnErr result (self.new ≡ self.old) }
    {
        self.contents = Vec::from_slice(self.alloc, bytes)?;
        Ok(())
    }
}

impl Keeper for MemKeeper {
    ghost contents = { λ s. Some s.contents };

    ghost faults = { λ s. s.faults };

    ghost is_infallible = { λ s. s.fails ≡ [] };

    fn load(&mut self) -> Result<Vec<u8>, KeepFault>
        // What every store promises.
        ensures bytes { IfOk result (λ loaded. loaded.items ≡ self.old.contents) }
        ensures stays { self.new.contents ≡ self.old.contents }
        ensures faults { CountsStoreFault result self.old.faults self.new.faults }
        ensures infallible { self.old.fails ≡ [] → (self.new.fails ≡ []) × IsNotStoreFault result }

        // When it fails, and the state afterwards.
        ensures fails { result ≡ Err KeepFault.Store ↔ IsTrue (fails_next self.old) }
        ensures after { self.new ≡ after_load self.old }
    {
        let fails = self.fails_next();
        self.count_call();
        if fails {
            return Err(self.count_fault());
        }
        Ok(Vec::from_slice(self.alloc, &self.contents)?)
    }

    fn save(&mut self, bytes: &[u8]) -> Result<(), KeepFault>
        requires { length bytes.now ≤ MAX_SAVED_BYTES }
        // What every store promises.
        ensures saved { OnOk result (self.new.contents ≡ bytes.now) }
        ensures either { OnErr result ((self.new.contents ≡ self.old.contents) ⊎ (self.new.contents ≡ bytes.now)) }
        ensures faults { CountsStoreFault result self.old.faults self.new.faults }
        ensures infallible { self.old.fails ≡ [] → (self.new.fails ≡ []) × IsNotStoreFault result }

        // The whole result, and the state afterwards.
        ensures answer { (result ≡ Err KeepFault.NoMemory) ⊎ (result ≡ save_answer self.old) }
        ensures after { self.new ≡ after_save self.old bytes.now result }
    {
        let fails = self.fails_next();
        let is_odd = self.is_odd_call();
        self.count_call();
        if !fails || is_odd {
            self.replace(bytes)?;
        }
        if fails {
            Err(self.count_fault())
        } else {
            Ok(())
        }
    }
}
