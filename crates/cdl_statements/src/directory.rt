// The numbers of elements, by their names.
ghost use Rattle.std.specs.Prelude.{◌≡◌, ◌++◌, ◌∷◌, [], Some, IfOk, OnOk, length, map, slice_get};
ghost use Rattle.cdl_scopes.specs.Entries.{entry};
ghost use Rattle.cdl_walk.specs.Instances.{path_at as path_of};
ghost use Rattle.cdl_statements.specs.Complete.{Stands};
ghost use Rattle.cdl_statements.specs.Directory as spec;
ghost use Rattle.cdl_joins.specs.Sides.{element};
ghost use Rattle.cdl_statements.specs.inner.Keys as keys;
ghost use Rattle.cdl_statements.specs.inner.Keys.{IsIndex};

use cdl_paths::Step;
use cdl_source::OutOfMemory;
use cdl_walk::{Element, Instance};
use std::alloc::Global;
use std::collections::BTreeMap;
use std::marker::Model;

// Adds a length.
fn push_length(key: &mut Vec<u32>, length_of: usize) -> Result<(), OutOfMemory>
    ensures { OnOk result (key.new.items ≡ key.old.items ++ length_of ∷ []) }
{
    let Ok(number) = u32::try_from(length_of) else {
        return Err(OutOfMemory);
    };
    key.push(number)?;
    Ok(())
}

// Adds the bytes of a name.
fn push_name(key: &mut Vec<u32>, name: &[u8]) -> Result<(), OutOfMemory>
    ensures { OnOk result (key.new.items ≡ key.old.items ++ name.now) }
{
    for byte in name {
        key.push(*byte as u32)?;
    }
    Ok(())
}

// Adds a name and indices.
fn push_step(key: &mut Vec<u32>, name: &[u8], indices: &[u32]) -> Result<(), OutOfMemory>
    ensures { OnOk result (key.new.items ≡ key.old.items ++ keys.step_key name.now indices.now) }
{
    push_length(key, name.len())?;
    push_name(key, name)?;
    push_length(key, indices.len())?;
    key.extend_from_slice(indices)?;
    Ok(())
}

// The key of a path.
fn path_key(alloc: Global, path: &[Step]) -> Result<Vec<u32>, OutOfMemory>
    ensures { IfOk result (λ key. key.items ≡ keys.path_key path.now) }
{
    let mut key = Vec::new(alloc);
    for step in path {
        push_step(&mut key, step.name.bytes(), step.indices.items())?;
    }
    Ok(key)
}

// The number of an instance at a path.
fn owner_at(
    alloc: Global,
    paths: &BTreeMap<Vec<u32>, u32>,
    path: &[Step],
) -> Result<Option<u32>, OutOfMemory>
    ensures { IfOk result (λ n. n ≡ entry paths.now (keys.path_key path.now)) }
{
    let key = path_key(alloc, path)?;
    Ok(paths.get(key.as_slice()).copied())
}

// The key of an element.
fn element_key(
    alloc: Global,
    paths: &BTreeMap<Vec<u32>, u32>,
    path: &[Step],
    name: &[u8],
    indices: &[u32],
) -> Result<Vec<u32>, OutOfMemory>
    ensures { IfOk result (λ key. key.items ≡ keys.element_key paths.now path.now name.now indices.now) }
{
    let mut key = Vec::new(alloc);
    match owner_at(alloc, paths, path)? {
        Some(owner) => {
            key.push(1)?;
            key.push(owner)?;
        }
        None => key.push(0)?,
    }
    push_step(&mut key, name, indices)?;
    Ok(key)
}

// The numbers of the paths of instances.
fn path_numbers(
    alloc: Global,
    instances: &[Instance],
) -> Result<BTreeMap<Vec<u32>, u32>, OutOfMemory>
    ensures { IfOk result (IsIndex (map keys.instance_key instances.now) (length instances.now)) }
{
    let mut numbers = BTreeMap::new(alloc);
    for i in 0..instances.len() {
        let Ok(number) = u32::try_from(i) else {
            return Err(OutOfMemory);
        };
        let key = path_key(alloc, instances[i].path.steps.items())?;
        numbers.insert(key, number)?;
    }
    Ok(numbers)
}

// The path of the instance of that number.
fn path_at(instances: &[Instance], number: u32) -> &[Step]
    ensures { result.now ≡ path_of instances.now number }
{
    match instances.get(number as usize) {
        Some(instance) => instance.path.steps.items(),
        None => &[],
    }
}

// The numbers of elements.
fn element_numbers(
    alloc: Global,
    instances: &[Instance],
    paths: &BTreeMap<Vec<u32>, u32>,
    elements: &[Element],
) -> Result<BTreeMap<Vec<u32>, u32>, OutOfMemory>
    ensures { IfOk result (IsIndex (map (keys.key_of_element paths.now instances.now) elements.now) (length elements.now)) }
{
    let mut numbers = BTreeMap::new(alloc);
    for i in 0..elements.len() {
        let Ok(number) = u32::try_from(i) else {
            return Err(OutOfMemory);
        };
        let element = &elements[i];
        let path = path_at(instances, element.instance);
        let name = element.point.name.bytes();
        let key = element_key(alloc, paths, path, name, element.point.indices.items())?;
        numbers.insert(key, number)?;
    }
    Ok(numbers)
}

/// The instances and elements of a model. Contracts see the paths of the ones and the names of the others.
#[derive(Drop)]
pub struct Directory<'m> {
    instances: &'m [Instance],
    elements: &'m [Element],
    // the number of an instance, by the key of its path
    paths: BTreeMap<Vec<u32>, u32>,
    // the number of an element, by the number of an instance at its path, its name and its indices
    numbers: BTreeMap<Vec<u32>, u32>,
}

impl<'m> Model for Directory<'m> {
    ghost use Rattle.cdl_statements.specs.Directory.{Directory as DirectoryOf, directory as directory_of};
    ghost use Rattle.cdl_statements.specs.inner.Keys.{AreIndices as AreIndicesOf};

    ghost Value = { DirectoryOf };

    ghost view = { λ d. directory_of d.instances.now d.elements.now };

    ghost invariant = { λ d. AreIndicesOf d.instances.now d.elements.now d.paths d.numbers };
}

impl<'m> Directory<'m> {
    /// Those of these lists. `OutOfMemory` comes too where they have 2^32 items or more.
    pub fn of(
        alloc: Global,
        instances: &'m [Instance],
        elements: &'m [Element],
    ) -> Result<Directory<'m>, OutOfMemory>
        ensures { IfOk result (λ d. d ≡ spec.directory instances.now elements.now) }
    {
        let paths = path_numbers(alloc, instances)?;
        let numbers = element_numbers(alloc, instances, &paths, elements)?;
        Ok(Directory {
            instances,
            elements,
            paths,
            numbers,
        })
    }

    /// The number of the element of this name.
    pub fn number(
        &self,
        alloc: Global,
        path: &[Step],
        name: &[u8],
        indices: &[u32],
    ) -> Result<u32, OutOfMemory>
        requires { Stands self.now.names (element path.now name.now indices.now) }
        ensures { IfOk result (λ n. slice_get self.now.names n ≡ Some (element path.now name.now indices.now)) }
    {
        let key = element_key(alloc, &self.paths, path, name, indices)?;
        match self.numbers.get(key.as_slice()) {
            Some(number) => Ok(*number),
            None => unreachable!(),
        }
    }
}
