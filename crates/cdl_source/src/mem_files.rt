// Files in memory, for tests.
ghost use Rattle.std.specs.Prelude.{◌≡◌, ◌+◌, ◌-◌, ◌^◌, ◌<◌, ◌≤◌, [], None, Some, length, OnOk, OnErr, IfOk, IsErr, is_err};
ghost use Rattle.std.specs.Io.{ReadsAtMost};
ghost use Rattle.std.specs.Io.KnownBytes.{ReadConsumes};
ghost use Rattle.cdl_source.specs.Causes.{HasCause};
ghost use Rattle.cdl_source.specs.Outside.{BeginsAt, IsAbsent};

use crate::fault_list::FaultList;
use crate::mem_reads::{copy_front, find, left_of};
use crate::{Failed, Files, OutOfMemory, Text};
use std::alloc::Global;
use std::marker::Model;

/// A name and its bytes.
#[derive(Debug, Drop)]
pub(crate) struct Named {
    pub(crate) name: Text,
    pub(crate) bytes: Text,
}

/// Files in memory. A read gives at most as many bytes as `piece` says. The calls whose numbers are given to `fail` fail.
#[derive(Debug, Drop)]
pub struct MemFiles {
    alloc: Global,
    files: Vec<Named>,
    current: Option<usize>,
    at: usize,
    begun: u64,
    most: usize,
    failing: FaultList,
}

impl Model for MemFiles {
    ghost use Rattle.std.specs.Prelude.{◌≤◌};
    ghost use Rattle.cdl_source.specs.Memory.{Store};
    ghost use Rattle.cdl_source.specs.inner.Codes.{store_code};
    ghost use Rattle.cdl_source.specs.inner.Stored.{listed, rest_of};

    ghost Value = { Store };

    ghost coded = { store_code };

    ghost view = { λ m. record { files = listed m.files.items; rest = rest_of m.files.items m.current m.at; begun = m.begun; most = m.most; calls = m.failing } };

    ghost invariant = { λ m. 1 ≤ m.most };
}

impl MemFiles {
    ghost use Rattle.std.specs.FinMap.{empty};
    ghost use Rattle.cdl_source.specs.Memory.{store_with};
    ghost use Rattle.cdl_source.specs.Faults.{calls_with};

    /// No files. It takes no memory.
    pub fn new(alloc: Global) -> MemFiles
        ensures { result ≡ record { files = empty; rest = []; begun = 0; most = usize.MAX; calls = record { calls = 0; failing = []; faults = 0 } } }
    {
        MemFiles {
            alloc,
            files: Vec::new(alloc),
            current: None,
            at: 0,
            begun: 0,
            most: usize::MAX,
            failing: FaultList::new(alloc),
        }
    }

    /// Puts a file, in place of what stood under its name. Nothing is left of the file that was begun last.
    pub fn put(&mut self, name: &str, bytes: &[u8]) -> Result<(), OutOfMemory>
        ensures ok { OnOk result (self.new ≡ store_with self.old name.now bytes.now) }
        ensures err { OnErr result (self.new ≡ self.old) }
    {
        let named = name_bytes(self.alloc, name, bytes)?;
        self.files.insert(0, named)?;
        self.current = None;
        Ok(())
    }

    /// From now on a read gives at most so many bytes.
    pub fn piece(&mut self, most: usize)
        requires { 1 ≤ most }
        ensures { self.new ≡ record self.old { most = most } }
    {
        self.most = most;
    }

    /// How many calls of `begin` and `read` there were, counted up to 2^64 - 1.
    pub fn calls(&self) -> u64
        ensures { result ≡ self.now.calls.calls }
    {
        self.failing.calls()
    }

    /// The call of this number fails: `begin` and `read` are counted together, from 1.
    pub fn fail(&mut self, call: u64) -> Result<(), OutOfMemory>
        ensures ok { OnOk result (self.new ≡ record self.old { calls = calls_with self.old.calls call }) }
        ensures err { OnErr result (self.new ≡ self.old) }
    {
        self.failing.fail(call)
    }
}

fn name_bytes(alloc: Global, name: &str, bytes: &[u8]) -> Result<Named, OutOfMemory>
    ensures { IfOk result (λ named. (named.name ≡ name.now) × (named.bytes ≡ bytes.now)) }
{
    let mut kept_name = Text::new(alloc);
    kept_name.push(name.as_bytes())?;
    let mut kept_bytes = Text::new(alloc);
    kept_bytes.push(bytes)?;
    Ok(Named {
        name: kept_name,
        bytes: kept_bytes,
    })
}

impl Files for MemFiles {
    ghost use Rattle.cdl_source.specs.Memory.{contents_of, begin_fails, store_begun, read_count, store_read};
    ghost use Rattle.cdl_source.specs.Faults.{fails_next};

    ghost contents = { λ m. Some (contents_of m.files) };

    ghost rest = { λ m. Some m.rest };

    ghost begun = { λ m. m.begun };

    ghost due = { λ _. None };

    ghost faults = { λ m. m.calls.faults };

    fn begin(&mut self, name: &str) -> Result<(), Failed>
        requires { self.old.begun < 2 ^ 64 - 1 }
        ensures fails { is_err result ≡ begin_fails self.old name.now }
        ensures after { self.new ≡ store_begun self.old name.now }
        ensures absent { IsAbsent (Some (contents_of self.old.files)) name.now → IsErr result }
        ensures rest { OnOk result (BeginsAt (contents_of self.old.files name.now) (Some self.new.rest)) }
        ensures cause { HasCause self.old.calls.faults self.new.calls.faults result }
    {
        let found = find(&self.files, name);
        self.begun += 1;
        self.at = 0;
        if self.failing.count(found.is_none()) {
            self.current = None;
            return Err(Failed);
        }
        self.current = found;
        Ok(())
    }

    fn read(&mut self, into: &mut [u8]) -> Result<usize, Failed>
        ensures fails { is_err result ≡ fails_next self.old.calls }
        ensures count { IfOk result (λ n. n ≡ read_count self.old (length into.old)) }
        ensures after { self.new ≡ store_read self.old (length into.old) }
        ensures bound { ReadsAtMost result into.new }
        ensures bytes { ReadConsumes (Some self.old.rest) (Some self.new.rest) result into.new }
        ensures cause { HasCause self.old.calls.faults self.new.calls.faults result }
    {
        if self.failing.count(false) {
            return Err(Failed);
        }
        let left = left_of(&self.files, self.current, self.at);
        let count = copy_front(left, into, self.most);
        self.at += count;
        Ok(count)
    }
}
