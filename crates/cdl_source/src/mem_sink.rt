// A sink in memory, for tests.
ghost use Rattle.std.specs.Prelude.{◌≡◌, ◌≤◌, ◌<◌, ◌&&◌, ◌==◌, [], Some, length, not, OnOk, OnErr, IfOk, is_err};
ghost use Rattle.cdl_source.specs.Causes.{HasCause};
ghost use Rattle.cdl_source.specs.Outside.{Writes};

use crate::fault_list::FaultList;
use crate::{Failed, OutOfMemory, Sink};
use std::alloc::Global;
use std::marker::Model;

/// A sink in memory that takes at most so many bytes in one write, and so many in all. The writes whose numbers are
/// given to `fail` fail.
#[derive(Debug, Drop)]
pub struct MemSink {
    bytes: Vec<u8>,
    most: usize,
    room: usize,
    failing: FaultList,
}

impl Model for MemSink {
    ghost use Rattle.std.specs.Prelude.{◌≤◌, vec_len};
    ghost use Rattle.std.specs.Vec.{vec_capacity};
    ghost use Rattle.cdl_source.specs.Memory.{Tray};

    ghost Value = { Tray };

    ghost view = { λ s. record { bytes = s.bytes.items; most = s.most; room = s.room; calls = s.failing } };

    ghost invariant = { λ s. (1 ≤ s.most) × (vec_len s.bytes ≤ s.room) × (s.room ≤ vec_capacity s.bytes) };
}

impl MemSink {
    ghost use Rattle.cdl_source.specs.Faults.{calls_with};

    /// Takes the memory for all its room at once.
    pub fn new(alloc: Global, most: usize, room: usize) -> Result<MemSink, OutOfMemory>
        requires { 1 ≤ most }
        ensures { IfOk result (λ s. s ≡ record { bytes = []; most = most; room = room; calls = record { calls = 0; failing = []; faults = 0 } }) }
    {
        let bytes = Vec::with_capacity(alloc, room)?;
        Ok(MemSink {
            bytes,
            most,
            room,
            failing: FaultList::new(alloc),
        })
    }

    /// The write of this number fails, counted from 1.
    pub fn fail(&mut self, call: u64) -> Result<(), OutOfMemory>
        ensures ok { OnOk result (self.new ≡ record self.old { calls = calls_with self.old.calls call }) }
        ensures err { OnErr result (self.new ≡ self.old) }
    {
        self.failing.fail(call)
    }

    /// How many writes there were, counted up to 2^64 - 1.
    pub fn calls(&self) -> u64
        ensures { result ≡ self.now.calls.calls }
    {
        self.failing.calls()
    }

    /// The bytes that it has taken, in the order in which they came, lent.
    pub fn bytes(&self) -> &[u8]
        ensures { result.now ≡ self.now.bytes }
    {
        self.bytes.as_slice()
    }
}

impl Sink for MemSink {
    ghost use Rattle.cdl_source.specs.Memory.{write_fails, write_count, tray_written};

    ghost written = { λ s. Some s.bytes };

    ghost faults = { λ s. s.calls.faults };

    fn write(&mut self, piece: &[u8]) -> Result<usize, Failed>
        ensures fails { is_err result ≡ write_fails self.old (length piece.now) }
        ensures count { IfOk result (λ n. n ≡ write_count self.old (length piece.now)) }
        ensures after { self.new ≡ tray_written self.old piece.now }
        ensures bytes { Writes (Some self.old.bytes) (Some self.new.bytes) result piece.now }
        ensures cause { HasCause self.old.calls.faults self.new.calls.faults result }
    {
        let left = self.room - self.bytes.len();
        if self.failing.count(!piece.is_empty() && left == 0) {
            return Err(Failed);
        }
        let count = piece.len().min(self.most).min(left);
        match self.bytes.extend_from_slice(&piece[..count]) {
            Ok(()) => Ok(count),
            Err(_) => unreachable!(),
        }
    }
}
