// Array literals.
ghost use Rattle.std.specs.Prelude.{◌≡◌, ◌≤◌, ◌∷◌, length, IfOk};
ghost use Rattle.cdl_array.specs.Outcomes.{Answers};
ghost use Rattle.cdl_array.specs.Literals as spec;

use crate::fault::EvalFault;
use crate::sizes::count_of;
use crate::types::{common_type, push_as};
use cdl_source::rules::{SIZE_OUT_OF_RANGE, WRONG_SHAPE};
use cdl_source::{LARGEST_SIZE, List, OutOfMemory};
use cdl_values::{Array, Value, ValueType};
use std::alloc::Global;

fn have_shape(shape: &[u32], arrays: &[Array]) -> bool
    ensures { result ≡ spec.have_shape shape.now arrays.now }
{
    arrays.iter().all(|array| array.shape.items() == shape)
}

// The items of all arrays, as values of this type.
fn all_items(
    alloc: Global,
    value_type: ValueType,
    arrays: &[Array],
) -> Result<List<Value>, OutOfMemory>
    ensures { IfOk result (λ items. items ≡ spec.items_as value_type arrays.now) }
{
    let mut items = List::new(alloc);
    for array in arrays {
        push_as(alloc, &mut items, value_type, array.items.items())?;
    }
    Ok(items)
}

// The shape of so many arrays of this shape.
fn outer_shape(alloc: Global, count: u32, shape: &[u32]) -> Result<List<u32>, OutOfMemory>
    ensures { IfOk result (λ outer. outer ≡ count ∷ shape.now) }
{
    let mut outer = List::new(alloc);
    outer.push(count)?;
    for size in shape {
        outer.push(*size)?;
    }
    Ok(outer)
}

// The arrays of this shape, one after the other, as values of this type.
fn rows(
    alloc: Global,
    value_type: ValueType,
    shape: &[u32],
    arrays: &[Array],
) -> Result<Array, EvalFault>
    requires few { length arrays.now ≤ LARGEST_SIZE }
    requires flat { length shape.now ≤ 1 }
    ensures { Answers (spec.counted value_type shape.now arrays.now) result }
{
    let outer = outer_shape(alloc, arrays.len() as u32, shape)?;
    match count_of(outer.items()) {
        Ok(_) => {}
        Err(fault) => return Err(fault),
    }
    let items = all_items(alloc, value_type, arrays)?;
    Ok(Array {
        value_type,
        shape: outer,
        items,
    })
}

/// The array literal of these items. First the shapes (C25): scalars, or arrays of one dimension and one size, and at least one.
/// Then the types (C26): one type, where Integer and Real together are Real. Then the sizes (C28): at most 4096 items here, and
/// 65,536 of the array.
pub fn literal(alloc: Global, arrays: &[Array]) -> Result<Array, EvalFault>
    ensures { Answers (spec.literal arrays.now) result }
{
    let Some(first) = arrays.first() else {
        return Err(EvalFault::Rule(WRONG_SHAPE));
    };
    literal_like(alloc, first.value_type, first.shape.items(), arrays)
}

// The same, where the first item has this type and this shape.
fn literal_like(
    alloc: Global,
    first: ValueType,
    shape: &[u32],
    arrays: &[Array],
) -> Result<Array, EvalFault>
    ensures { Answers (spec.literal_like first shape.now arrays.now) result }
{
    if shape.len() > 1 || !have_shape(shape, arrays) {
        return Err(EvalFault::Rule(WRONG_SHAPE));
    }
    let value_type = match common_type(first, arrays) {
        Ok(value_type) => value_type,
        Err(rule) => return Err(EvalFault::Rule(rule)),
    };
    if arrays.len() > LARGEST_SIZE as usize {
        return Err(EvalFault::Rule(SIZE_OUT_OF_RANGE));
    }
    rows(alloc, value_type, shape, arrays)
}
