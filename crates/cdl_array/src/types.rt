// Types of arrays, and conversions.
ghost use Rattle.std.specs.Prelude.{◌≡◌, ◌++◌, OnOk, IfOk};
ghost use Rattle.cdl_array.specs.Outcomes.{Answers};
ghost use Rattle.cdl_array.specs.Types as spec;

use crate::fault::EvalFault;
use crate::numbers::real_of;
use cdl_source::rules::WRONG_TYPE;
use cdl_source::{List, OutOfMemory};
use cdl_values::{Array, Value, ValueType};
use std::alloc::Global;

#[tactic(auto, unfolding(crate::specs::Types::same_type))]
fn same_type(left: ValueType, right: ValueType) -> bool
    ensures { result ≡ spec.same_type left right }
{
    match (left, right) {
        (ValueType::Boolean, ValueType::Boolean) => true,
        (ValueType::Integer, ValueType::Integer) => true,
        (ValueType::Real, ValueType::Real) => true,
        (ValueType::Str, ValueType::Str) => true,
        (ValueType::Enumeration(c), ValueType::Enumeration(d)) => c == d,
        _ => false,
    }
}

// Whether the type is one of numbers.
#[tactic(auto, unfolding(crate::specs::Types::is_number))]
pub(crate) fn is_number(value_type: ValueType) -> bool
    ensures { result ≡ spec.is_number value_type }
{
    match value_type {
        ValueType::Integer => true,
        ValueType::Real => true,
        _ => false,
    }
}

fn have_type(value_type: ValueType, arrays: &[Array]) -> bool
    ensures { result ≡ spec.have_type value_type arrays.now }
{
    arrays
        .iter()
        .all(|array| same_type(value_type, array.value_type))
}

fn are_numbers(arrays: &[Array]) -> bool
    ensures { result ≡ spec.are_numbers arrays.now }
{
    arrays.iter().all(|array| is_number(array.value_type))
}

// The type of the arrays together, of which the first has this type.
#[tactic(auto, unfolding(crate::specs::Types::common_type))]
pub(crate) fn common_type(first: ValueType, arrays: &[Array]) -> Result<ValueType, u32>
    ensures { result ≡ spec.common_type first arrays.now }
{
    if have_type(first, arrays) {
        return Ok(first);
    }
    if !are_numbers(arrays) {
        return Err(WRONG_TYPE);
    }
    Ok(ValueType::Real)
}

// A value as one of this type, in memory of its own.
#[tactic(auto, unfolding(crate::specs::Types::value_as))]
fn value_as(alloc: Global, value_type: ValueType, value: &Value) -> Result<Value, OutOfMemory>
    ensures { IfOk result (λ v. v ≡ spec.value_as value_type value.now) }
{
    match (value_type, value) {
        (ValueType::Real, Value::Integer(z)) => Ok(Value::Real(real_of(*z))),
        _ => value.copy(alloc),
    }
}

// Adds the values as values of this type.
pub(crate) fn push_as(
    alloc: Global,
    items: &mut List<Value>,
    value_type: ValueType,
    values: &[Value],
) -> Result<(), OutOfMemory>
    ensures { OnOk result (items.new ≡ items.old ++ spec.values_as value_type values.now) }
{
    for value in values {
        items.push(value_as(alloc, value_type, value)?)?;
    }
    Ok(())
}

// An equal shape.
pub(crate) fn copy_shape(alloc: Global, sizes: &[u32]) -> Result<List<u32>, OutOfMemory>
    ensures { IfOk result (λ shape. shape ≡ sizes.now) }
{
    let mut shape = List::new(alloc);
    for size in sizes {
        shape.push(*size)?;
    }
    Ok(shape)
}

/// The array where this type is declared: an equal one, or Integers as Reals. C26: another type.
#[tactic(auto, unfolding(crate::specs::Types::is_integer, crate::specs::Types::is_real))]
pub fn converted(alloc: Global, value_type: ValueType, array: &Array) -> Result<Array, EvalFault>
    ensures { Answers (spec.converted value_type array.now) result }
{
    if same_type(array.value_type, value_type) {
        return Ok(array.copy(alloc)?);
    }
    match (array.value_type, value_type) {
        (ValueType::Integer, ValueType::Real) => {
            let shape = copy_shape(alloc, array.shape.items())?;
            let mut items = List::new(alloc);
            push_as(alloc, &mut items, value_type, array.items.items())?;
            Ok(Array {
                value_type,
                shape,
                items,
            })
        }
        _ => Err(EvalFault::Rule(WRONG_TYPE)),
    }
}
