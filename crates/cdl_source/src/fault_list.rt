// Which calls of an object in memory fail.
ghost use Rattle.std.specs.Prelude.{◌≡◌, ◌||◌, [], OnOk, OnErr, ◌≤◌};
ghost use Rattle.std.specs.Bool.{OnTrue, OnFalse};
ghost use Rattle.cdl_source.specs.Causes.{Rose};
ghost use Rattle.cdl_source.specs.Faults.{calls_after, calls_with, fails_next};

use crate::OutOfMemory;
use std::alloc::Global;
use std::marker::Model;

/// The number of calls so far, the numbers of those that are to fail, and the count of faults.
#[derive(Debug, Drop)]
pub struct FaultList {
    calls: u64,
    failing: Vec<u64>,
    faults: u64,
}

impl Model for FaultList {
    ghost use Rattle.cdl_source.specs.Faults.{CallFaults};

    ghost Value = { CallFaults };

    ghost view = { λ p. record { calls = p.calls; failing = p.failing.items; faults = p.faults } };
}

impl FaultList {
    /// No call was made, and none fails. It takes no memory.
    pub fn new(alloc: Global) -> FaultList
        ensures { result ≡ record { calls = 0; failing = []; faults = 0 } }
    {
        FaultList {
            calls: 0,
            failing: Vec::new(alloc),
            faults: 0,
        }
    }

    /// The call of this number fails, counted from 1.
    pub fn fail(&mut self, call: u64) -> Result<(), OutOfMemory>
        ensures ok { OnOk result (self.new ≡ calls_with self.old call) }
        ensures err { OnErr result (self.new ≡ self.old) }
    {
        self.failing.push(call)?;
        Ok(())
    }

    /// The number of calls so far, counted up to 2^64 - 1.
    pub fn calls(&self) -> u64
        ensures { result ≡ self.now.calls }
    {
        self.calls
    }

    /// Counts one more call. True: it fails, and its fault is counted.
    pub fn count(&mut self, fails_anyway: bool) -> bool
        ensures fails { result ≡ (fails_next self.old || fails_anyway) }
        ensures after { self.new ≡ calls_after self.old result }
        ensures later { self.old.faults ≤ self.new.faults }
        ensures rose { OnTrue result (Rose self.old.faults self.new.faults) }
        ensures kept { OnFalse result (self.new.faults ≡ self.old.faults) }
    {
        self.calls = self.calls.saturating_add(1);
        let fails = self.failing.contains(&self.calls) || fails_anyway;
        if fails {
            self.faults = self.faults.saturating_add(1);
        }
        fails
    }
}
