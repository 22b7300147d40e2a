// Sizes and shapes.
ghost use Rattle.std.specs.Prelude.{◌≡◌, ◌≤◌, length};
ghost use Rattle.cdl_values.specs.Values.{items_of};
ghost use Rattle.cdl_array.specs.Outcomes.{Answers};
ghost use Rattle.cdl_array.specs.Sizes as spec;

use crate::fault::EvalFault;
use crate::scalars::scalar_of;
use cdl_source::rules::{SIZE_OUT_OF_RANGE, WRONG_SHAPE, WRONG_TYPE};
use cdl_source::{LARGEST_SIZE, MOST_ITEMS};
use cdl_values::{Array, Value};

// The size that a value is.
#[tactic(auto, unfolding(crate::specs::Sizes::size_value))]
fn size_value(value: &Value) -> Result<u32, u32>
    ensures { result ≡ spec.size_value value.now }
{
    match value {
        Value::Integer(z) => {
            if 0 <= *z && *z <= LARGEST_SIZE as i32 {
                Ok(z.unsigned_abs())
            } else {
                Err(SIZE_OUT_OF_RANGE)
            }
        }
        _ => Err(WRONG_TYPE),
    }
}

/// The size that an array is: a scalar (C25), an Integer (C26), from 0 to 4096 (C28).
pub fn size_of(array: &Array) -> Result<u32, EvalFault>
    ensures { Answers (spec.size_of array.now) result }
{
    let Some(value) = scalar_of(array) else {
        return Err(EvalFault::Rule(WRONG_SHAPE));
    };
    match size_value(value) {
        Ok(size) => Ok(size),
        Err(rule) => Err(EvalFault::Rule(rule)),
    }
}

// The number of items of a shape.
pub(crate) fn items_of(shape: &[u32]) -> usize
    requires { length shape.now ≤ 2 }
    ensures { result ≡ items_of shape.now }
{
    match shape {
        [] => 1,
        [size] => *size as usize,
        [rows, columns] => *rows as usize * *columns as usize,
        _ => unreachable!(),
    }
}

/// The number of items of an array of this shape, of at most two sizes. C28: they are more than 65,536.
pub fn count_of(shape: &[u32]) -> Result<usize, EvalFault>
    requires { length shape.now ≤ 2 }
    ensures { Answers (spec.count_of shape.now) result }
{
    let count = items_of(shape);
    if count <= MOST_ITEMS as usize {
        Ok(count)
    } else {
        Err(EvalFault::Rule(SIZE_OUT_OF_RANGE))
    }
}
