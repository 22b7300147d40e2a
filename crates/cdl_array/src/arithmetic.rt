// Arithmetic on numbers: whole numbers in full and only then their range, Reals as decimals.
ghost use Rattle.std.specs.Prelude.{◌≡◌};
ghost use Rattle.cdl_array.specs.Numbers as spec;

use crate::numbers::{Numbers, real_of};
use cdl_decimal::Real;
use cdl_source::LARGEST_INTEGER;
use cdl_source::rules::NO_VALUE;
use cdl_values::Value;

// The Integer, if it is in range.
pub(crate) fn integer_value(whole: i128) -> Result<Value, u32>
    ensures { result ≡ spec.integer_value whole }
{
    if -(LARGEST_INTEGER as i128) <= whole && whole <= LARGEST_INTEGER as i128 {
        Ok(Value::Integer(whole as i32))
    } else {
        Err(NO_VALUE)
    }
}

// The Real, if there is one.
pub(crate) fn real_value(real: Option<Real>) -> Result<Value, u32>
    ensures { result ≡ spec.real_value real }
{
    match real {
        Some(real) => Ok(Value::Real(real)),
        None => Err(NO_VALUE),
    }
}

#[tactic(auto, unfolding(crate::specs::Numbers::sum_of))]
pub(crate) fn sum_of(numbers: Numbers) -> Result<Value, u32>
    ensures { result ≡ spec.sum_of numbers }
{
    match numbers {
        Numbers::Integers(a, b) => integer_value(a as i128 + b as i128),
        Numbers::Reals(a, b) => real_value(a.add(b)),
    }
}

#[tactic(auto, unfolding(crate::specs::Numbers::difference_of))]
pub(crate) fn difference_of(numbers: Numbers) -> Result<Value, u32>
    ensures { result ≡ spec.difference_of numbers }
{
    match numbers {
        Numbers::Integers(a, b) => integer_value(a as i128 - b as i128),
        Numbers::Reals(a, b) => real_value(a.sub(b)),
    }
}

#[tactic(auto, unfolding(crate::specs::Numbers::product_of))]
pub(crate) fn product_of(numbers: Numbers) -> Result<Value, u32>
    ensures { result ≡ spec.product_of numbers }
{
    match numbers {
        Numbers::Integers(a, b) => integer_value(a as i128 * b as i128),
        Numbers::Reals(a, b) => real_value(a.mul(b)),
    }
}

#[tactic(auto, unfolding(crate::specs::Numbers::quotient_of))]
pub(crate) fn quotient_of(numbers: Numbers) -> Result<Value, u32>
    ensures { result ≡ spec.quotient_of numbers }
{
    match numbers {
        Numbers::Integers(a, b) => real_value(real_of(a).div(real_of(b))),
        Numbers::Reals(a, b) => real_value(a.div(b)),
    }
}
