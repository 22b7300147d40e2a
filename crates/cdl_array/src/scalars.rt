// Scalars: arrays without sizes, of one item.
ghost use Rattle.std.specs.Prelude.{◌≡◌, Ok};
ghost use Rattle.std.specs.Option.{option_copied};
ghost use Rattle.cdl_array.specs.Outcomes.{Answers, then_to};
ghost use Rattle.cdl_array.specs.Scalars as spec;

use crate::fault::EvalFault;
use cdl_source::List;
use cdl_values::{Array, Value, ValueType};
use std::alloc::Global;

/// The value of a scalar. None: the array has sizes.
#[tactic(auto, unfolding(crate::specs::Scalars::scalar_of))]
pub fn scalar_of(array: &Array) -> Option<&Value>
    ensures { option_copied result ≡ spec.scalar_of array.now }
{
    if array.shape.items().is_empty() {
        array.items.items().first()
    } else {
        None
    }
}

// The type of a value.
fn type_of(value: &Value) -> ValueType
    ensures { result ≡ spec.type_of value.now }
{
    match value {
        Value::Boolean(_) => ValueType::Boolean,
        Value::Integer(_) => ValueType::Integer,
        Value::Real(_) => ValueType::Real,
        Value::Str(_) => ValueType::Str,
        Value::Enumeration { class, .. } => ValueType::Enumeration(*class),
    }
}

/// The scalar of this value.
pub fn scalar(alloc: Global, value: Value) -> Result<Array, EvalFault>
    ensures { Answers (Ok (spec.scalar value)) result }
{
    let value_type = type_of(&value);
    let mut items = List::new(alloc);
    items.push(value)?;
    Ok(Array {
        value_type,
        shape: List::new(alloc),
        items,
    })
}

// The scalar of a value that may be none, or its rule.
pub(crate) fn scalar_if(alloc: Global, value: Result<Value, u32>) -> Result<Array, EvalFault>
    ensures { Answers (then_to value (λ v. Ok (spec.scalar v))) result }
{
    match value {
        Ok(value) => scalar(alloc, value),
        Err(rule) => Err(EvalFault::Rule(rule)),
    }
}
