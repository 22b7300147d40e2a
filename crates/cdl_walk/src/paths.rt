// Paths of instances and of items, and rules that are broken there.
ghost use Rattle.std.specs.Prelude.{◌≡◌, IfOk};
ghost use Rattle.cdl_walk.specs.Faults as spec;
ghost use Rattle.cdl_walk.specs.declared.walked.WalkFault.TheVariants.{OutOfMemory as no_memory};

use crate::walked::WalkFault;
use cdl_array::EvalFault;
use cdl_paths::{Path, Step};
use cdl_source::{List, OutOfMemory, Text};
use std::alloc::Global;

impl From<OutOfMemory> for WalkFault {
    ghost use Rattle.std.specs.Prelude.{◌≡◌};
    ghost use Rattle.cdl_walk.specs.declared.walked.WalkFault.TheVariants.{OutOfMemory as no_memory};

    ghost from_gives = { λ _ e. e ≡ no_memory };

    fn from(_: OutOfMemory) -> Self {
        WalkFault::OutOfMemory
    }
}

// Equal indices.
fn copy_indices(alloc: Global, indices: &[u32]) -> Result<List<u32>, OutOfMemory>
    ensures { IfOk result (λ copy. copy ≡ indices.now) }
{
    let mut copy = List::new(alloc);
    for index in indices {
        copy.push(*index)?;
    }
    Ok(copy)
}

// An equal step.
fn copy_step(alloc: Global, step: &Step) -> Result<Step, OutOfMemory>
    ensures { IfOk result (λ copy. copy ≡ step.now) }
{
    Ok(Step {
        name: step.name.copy(alloc)?,
        indices: copy_indices(alloc, step.indices.items())?,
    })
}

// Equal steps.
fn copy_steps(alloc: Global, steps: &[Step]) -> Result<List<Step>, OutOfMemory>
    ensures { IfOk result (λ copy. copy ≡ steps.now) }
{
    let mut copy = List::new(alloc);
    for step in steps {
        copy.push(copy_step(alloc, step)?)?;
    }
    Ok(copy)
}

/// An equal path.
pub fn copy_path(alloc: Global, path: &Path) -> Result<Path, OutOfMemory>
    ensures { IfOk result (λ copy. copy.steps ≡ path.now.steps) }
{
    Ok(Path {
        steps: copy_steps(alloc, path.steps.items())?,
    })
}

// The path of what has this name in the instance at a path.
fn path_in(alloc: Global, path: &Path, name: &[u8]) -> Result<Path, OutOfMemory>
    ensures { IfOk result (λ longer. longer.steps ≡ spec.named path.now.steps name.now) }
{
    let mut longer = copy_path(alloc, path)?;
    longer.steps.push(Step {
        name: Text::from_bytes(alloc, name)?,
        indices: List::new(alloc),
    })?;
    Ok(longer)
}

/// The rule is broken at this path.
pub fn broken_at(alloc: Global, path: &Path, rule: u32) -> WalkFault
    ensures { spec.Breaks result path.now.steps rule }
{
    match copy_path(alloc, path) {
        Ok(path) => WalkFault::Rule { rule, path },
        Err(_) => WalkFault::OutOfMemory,
    }
}

/// The rule is broken at what has this name in the instance at this path.
pub fn broken_in(alloc: Global, path: &Path, name: &[u8], rule: u32) -> WalkFault
    ensures { spec.Breaks result (spec.named path.now.steps name.now) rule }
{
    match path_in(alloc, path, name) {
        Ok(path) => WalkFault::Rule { rule, path },
        Err(_) => WalkFault::OutOfMemory,
    }
}

/// The same, where an evaluation may have ended for want of memory.
pub fn fault_in(alloc: Global, path: &Path, name: &[u8], fault: EvalFault) -> WalkFault
    ensures { spec.BreaksAs result (spec.named path.now.steps name.now) fault }
{
    match fault {
        EvalFault::Rule(rule) => broken_in(alloc, path, name, rule),
        EvalFault::OutOfMemory => WalkFault::OutOfMemory,
    }
}
