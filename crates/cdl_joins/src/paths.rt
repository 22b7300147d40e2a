// Paths of instances.
ghost use Rattle.std.specs.Prelude.{◌≡◌, IfOk};
ghost use Rattle.cdl_joins.specs.Sides as spec;

use cdl_paths::{Path, Step};
use cdl_source::{List, OutOfMemory, Text};
use std::alloc::Global;

// Equal indices.
fn copy_indices(alloc: Global, indices: &[u32]) -> Result<List<u32>, OutOfMemory>
    ensures { IfOk result (λ copy. copy ≡ indices.now) }
{
    let mut copy = List::new(alloc);
    for index in indices {
        copy.push(*index)?;
    }
    Ok(copy)
}

// An equal step.
fn copy_step(alloc: Global, step: &Step) -> Result<Step, OutOfMemory>
    ensures { IfOk result (λ copy. copy ≡ step.now) }
{
    Ok(Step {
        name: step.name.copy(alloc)?,
        indices: copy_indices(alloc, step.indices.items())?,
    })
}

// Equal steps.
fn copy_steps(alloc: Global, steps: &[Step]) -> Result<List<Step>, OutOfMemory>
    ensures { IfOk result (λ copy. copy ≡ steps.now) }
{
    let mut copy = List::new(alloc);
    for step in steps {
        copy.push(copy_step(alloc, step)?)?;
    }
    Ok(copy)
}

/// The path of these steps.
pub fn path_of(alloc: Global, steps: &[Step]) -> Result<Path, OutOfMemory>
    ensures { IfOk result (λ path. path ≡ spec.path_of steps.now) }
{
    Ok(Path {
        steps: copy_steps(alloc, steps)?,
    })
}

/// The path of an element of a component, from that of the instance around it.
pub fn element_path(
    alloc: Global,
    steps: &[Step],
    name: &[u8],
    indices: List<u32>,
) -> Result<Path, OutOfMemory>
    ensures { IfOk result (λ path. path ≡ spec.element_path steps.now name.now indices) }
{
    let mut path = path_of(alloc, steps)?;
    path.steps.push(Step {
        name: Text::from_bytes(alloc, name)?,
        indices,
    })?;
    Ok(path)
}
