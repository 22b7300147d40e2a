// How values are handed out over arrays of components.
ghost use Rattle.std.specs.Prelude.{◌≡◌, ◌≤◌, ◌++◌, [], cond, IfOk, OnOk, length, replicate as replicated, Ok};
ghost use Rattle.std.specs.List.{list_all};
ghost use Rattle.cdl_array.specs.Outcomes.{Answers};
ghost use Rattle.cdl_array.specs.Scalars.{scalar_of as scalar_in};
ghost use Rattle.cdl_paths.specs.HandOut as spec;

use crate::path::Step;
use cdl_array::{EvalFault, converted, count_of, part, scalar_of};
use cdl_source::rules::{UNIT_TOO_LONG, WRONG_SHAPE};
use cdl_source::{LONGEST_UNIT, List, OutOfMemory};
use cdl_values::{Array, Value, ValueType};
use std::alloc::Global;

// Adds the indices of a step that is not left out.
fn push_left(indices: &mut List<u32>, out: bool, step: &Step) -> Result<(), OutOfMemory>
    ensures { OnOk result (indices.new ≡ indices.old ++ cond out [] step.now.indices) }
{
    if out {
        return Ok(());
    }
    push_all(indices, step.indices.items())
}

// Adds indices at the end.
fn push_all(list: &mut List<u32>, indices: &[u32]) -> Result<(), OutOfMemory>
    ensures { OnOk result (list.new ≡ list.old ++ indices.now) }
{
    for index in indices {
        list.push(*index)?;
    }
    Ok(())
}

/// The indices of the steps that are not left out, one after the other.
pub fn indices_left(alloc: Global, outs: &[bool], steps: &[Step]) -> Result<List<u32>, OutOfMemory>
    ensures { IfOk result (λ indices. indices ≡ spec.indices_left outs.now steps.now) }
{
    let mut indices = List::new(alloc);
    for (i, step) in steps.iter().enumerate() {
        match outs.get(i) {
            Some(out) => push_left(&mut indices, *out, step)?,
            None => return Ok(indices),
        }
    }
    Ok(indices)
}

// Whether a wanted size is this one, or any.
fn is_wanted(wanted: Option<u32>, size: u32) -> bool
    ensures { result ≡ spec.is_wanted wanted size }
{
    match wanted {
        None => true,
        Some(wanted) => wanted == size,
    }
}

// Whether a shape has the wanted sizes.
fn fits(wanted: &[Option<u32>], shape: &[u32]) -> bool
    ensures { result ≡ spec.fits wanted.now shape.now }
{
    let [first, wanted @ ..] = wanted else {
        return shape.is_empty();
    };
    let [size, shape @ ..] = shape else {
        return false;
    };
    is_wanted(*first, *size) && fits(wanted, shape)
}

/// The part of an array at these indices, as one of the declared type. C25: the array has other sizes than these, of which some may
/// be any; then C26: it has another type, and is not one of Integers where Reals are declared.
pub fn hand_out(
    alloc: Global,
    value_type: ValueType,
    wanted: &[Option<u32>],
    indices: &[u32],
    array: &Array,
) -> Result<Array, EvalFault>
    ensures { Answers (spec.handed value_type wanted.now indices.now array.now) result }
{
    if !fits(wanted, array.shape.items()) {
        return Err(EvalFault::Rule(WRONG_SHAPE));
    }
    match part(alloc, array, indices) {
        Ok(part) => converted(alloc, value_type, &part),
        Err(fault) => Err(fault),
    }
}

// What is handed out of a unit: a scalar serves every element.
fn unit_part(
    alloc: Global,
    wanted: &[Option<u32>],
    indices: &[u32],
    array: &Array,
) -> Result<Array, EvalFault>
    ensures { Answers (spec.unit_part wanted.now indices.now array.now (scalar_in array.now)) result }
{
    if scalar_of(array).is_some() {
        return Ok(array.copy(alloc)?);
    }
    if !fits(wanted, array.shape.items()) {
        return Err(EvalFault::Rule(WRONG_SHAPE));
    }
    part(alloc, array, indices)
}

// So many equal values.
fn replicate(alloc: Global, value: &Value, count: usize) -> Result<List<Value>, OutOfMemory>
    ensures { IfOk result (λ items. items ≡ replicated count value.now) }
{
    let mut items = List::new(alloc);
    for i in 0..count {
        items.push(value.copy(alloc)?)?;
    }
    Ok(items)
}

// An array of this shape, at all of whose places a scalar stands.
fn spread(alloc: Global, shape: List<u32>, array: Array) -> Result<Array, EvalFault>
    requires { length shape ≤ 2 }
    ensures { Answers (spec.spread shape array (scalar_in array)) result }
{
    let value_type = array.value_type;
    let Some(value) = scalar_of(&array) else {
        let items = array.items;
        return Ok(Array {
            value_type,
            shape,
            items,
        });
    };
    let count = match count_of(shape.items()) {
        Ok(count) => count,
        Err(fault) => return Err(fault),
    };
    let items = replicate(alloc, value, count)?;
    Ok(Array {
        value_type,
        shape,
        items,
    })
}

// Whether the text of a unit is not too long.
#[tactic(auto, unfolding(crate::specs::HandOut::is_short))]
fn is_short(unit: &Value) -> bool
    ensures { result ≡ spec.is_short unit.now }
{
    match unit {
        Value::Str(text) => text.bytes().len() <= LONGEST_UNIT,
        _ => true,
    }
}

fn are_short(units: &[Value]) -> bool
    ensures { result ≡ list_all spec.is_short units.now }
{
    units.iter().all(|unit| is_short(unit))
}

// An array of texts that are not too long.
fn all_short(array: Array) -> Result<Array, EvalFault>
    ensures { Answers (spec.all_short array) result }
{
    if are_short(array.items.items()) {
        Ok(array)
    } else {
        Err(EvalFault::Rule(UNIT_TOO_LONG))
    }
}

/// The units of the elements of a connector of this shape, of at most two sizes: a scalar serves every element; of an array the part at
/// these indices. C25: the array has other sizes than the wanted ones; then C26: it is not one of Strings; then C38: a text has more
/// than 64 bytes.
pub fn units(
    alloc: Global,
    wanted: &[Option<u32>],
    indices: &[u32],
    shape: List<u32>,
    array: &Array,
) -> Result<Array, EvalFault>
    requires { length shape ≤ 2 }
    ensures { Answers (spec.units wanted.now indices.now shape array.now) result }
{
    let part = match unit_part(alloc, wanted, indices, array) {
        Ok(part) => part,
        Err(fault) => return Err(fault),
    };
    let texts = match converted(alloc, ValueType::Str, &part) {
        Ok(texts) => texts,
        Err(fault) => return Err(fault),
    };
    match spread(alloc, shape, texts) {
        Ok(units) => all_short(units),
        Err(fault) => Err(fault),
    }
}
