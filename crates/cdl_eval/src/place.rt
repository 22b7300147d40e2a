// Places, where names have values.
ghost use Rattle.std.specs.Prelude.{◌≡◌, ◌+◌, IfOk, IsTrue, take, drop};
ghost use Rattle.cdl_eval.specs.Families as spec;

use cdl_classes::ClassId;
use cdl_paths::Step;
use cdl_source::{List, OutOfMemory};
use std::alloc::Global;

/// A place: steps from a first class, and how many links are left there.
#[derive(Clone, Copy)]
pub struct Place<'p> {
    pub links: u32,
    pub start: ClassId,
    pub steps: &'p [Step],
}

/// So many of the steps, or all where there are fewer.
#[tactic(auto, using(std::proofs::lemmas::List::take_all))]
pub fn front(steps: &[Step], count: usize) -> &[Step]
    ensures { result.now ≡ take count steps.now }
{
    if count < steps.len() {
        &steps[..count]
    } else {
        steps
    }
}

/// The steps behind so many.
#[tactic(auto, using(std::proofs::lemmas::List::drop_all))]
pub fn behind(steps: &[Step], count: usize) -> &[Step]
    ensures { result.now ≡ drop count steps.now }
{
    if count < steps.len() {
        &steps[count..]
    } else {
        &[]
    }
}

/// The steps behind so many and one more.
#[tactic(auto, using(crate::proofs::Rows::drop_one))]
pub fn behind_next(steps: &[Step], count: usize) -> &[Step]
    ensures { result.now ≡ drop (count + 1) steps.now }
{
    behind(behind(steps, count), 1)
}

// Equal indices.
fn copy_indices(alloc: Global, indices: &[u32]) -> Result<List<u32>, OutOfMemory>
    ensures { IfOk result (λ copy. copy ≡ indices.now) }
{
    let mut copy = List::new(alloc);
    for index in indices {
        copy.push(*index)?;
    }
    Ok(copy)
}

// An equal step.
fn copy_step(alloc: Global, step: &Step) -> Result<Step, OutOfMemory>
    ensures { IfOk result (λ copy. copy ≡ step.now) }
{
    Ok(Step {
        name: step.name.copy(alloc)?,
        indices: copy_indices(alloc, step.indices.items())?,
    })
}

/// Equal steps.
pub fn copy_steps(alloc: Global, steps: &[Step]) -> Result<List<Step>, OutOfMemory>
    ensures { IfOk result (λ copy. copy ≡ steps.now) }
{
    let mut copy = List::new(alloc);
    for step in steps {
        copy.push(copy_step(alloc, step)?)?;
    }
    Ok(copy)
}

// The step without its indices.
fn cleared(alloc: Global, step: &Step) -> Result<Step, OutOfMemory>
    ensures { IfOk result (λ cleared. cleared ≡ spec.cleared step.now) }
{
    Ok(Step {
        name: step.name.copy(alloc)?,
        indices: List::new(alloc),
    })
}

/// The steps, of which those behind so many have lost their indices.
pub fn family(alloc: Global, steps: &[Step], count: usize) -> Result<List<Step>, OutOfMemory>
    ensures { IfOk result (λ all. all ≡ spec.family count steps.now) }
{
    let mut all = copy_steps(alloc, front(steps, count))?;
    let rest = behind(steps, count);
    for i in 0..rest.len() {
        all.push(cleared(alloc, &rest[i])?)?;
    }
    Ok(all)
}

/// Whether one of these steps has indices.
pub fn are_indexed(steps: &[Step]) -> bool {
    for step in steps {
        if !step.indices.items().is_empty() {
            return true;
        }
    }
    false
}

// Whether two steps are the same.
#[tactic(auto, using(crate::proofs::Keeping::step_is))]
fn same_step(left: &Step, right: &Step) -> bool
    ensures { IsTrue result → left.now ≡ right.now }
{
    left.name.bytes() == right.name.bytes() && left.indices.items() == right.indices.items()
}

/// Whether all steps are the same.
#[tactic(auto, using(crate::proofs::Keeping::steps_are))]
pub fn same_steps(left: &[Step], right: &[Step]) -> bool
    ensures { IsTrue result → left.now ≡ right.now }
{
    let [first, left @ ..] = left else {
        return right.is_empty();
    };
    let [other, right @ ..] = right else {
        return false;
    };
    same_step(first, other) && same_steps(left, right)
}
