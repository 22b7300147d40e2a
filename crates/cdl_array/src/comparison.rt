// Comparisons of numbers, and of values.
ghost use Rattle.std.specs.Prelude.{◌≡◌};
ghost use Rattle.cdl_array.specs.Numbers as spec;
ghost use Rattle.cdl_array.specs.Operators as operators;

use crate::numbers::{Numbers, numbers_of};
use cdl_source::rules::WRONG_TYPE;
use cdl_values::Value;

pub(crate) fn is_less(numbers: Numbers) -> bool
    ensures { result ≡ spec.is_less numbers }
{
    match numbers {
        Numbers::Integers(a, b) => a < b,
        Numbers::Reals(a, b) => a.count() < b.count(),
    }
}

pub(crate) fn is_less_or_equal(numbers: Numbers) -> bool
    ensures { result ≡ spec.is_less_or_equal numbers }
{
    match numbers {
        Numbers::Integers(a, b) => a <= b,
        Numbers::Reals(a, b) => a.count() <= b.count(),
    }
}

pub(crate) fn is_greater(numbers: Numbers) -> bool
    ensures { result ≡ spec.is_greater numbers }
{
    match numbers {
        Numbers::Integers(a, b) => a > b,
        Numbers::Reals(a, b) => a.count() > b.count(),
    }
}

pub(crate) fn is_greater_or_equal(numbers: Numbers) -> bool
    ensures { result ≡ spec.is_greater_or_equal numbers }
{
    match numbers {
        Numbers::Integers(a, b) => a >= b,
        Numbers::Reals(a, b) => a.count() >= b.count(),
    }
}

pub(crate) fn is_equal(numbers: Numbers) -> bool
    ensures { result ≡ spec.is_equal numbers }
{
    match numbers {
        Numbers::Integers(a, b) => a == b,
        Numbers::Reals(a, b) => a.count() == b.count(),
    }
}

// Whether the two values are the same, where their types are compared.
#[tactic(auto, unfolding(crate::specs::Operators::are_equal, crate::specs::Numbers::numbers_of))]
pub(crate) fn are_equal(left: &Value, right: &Value) -> Result<bool, u32>
    ensures { result ≡ operators.are_equal left.now right.now }
{
    match (left, right) {
        (Value::Boolean(a), Value::Boolean(b)) => Ok(*a == *b),
        (Value::Str(s), Value::Str(t)) => Ok(s.bytes() == t.bytes()),
        (
            Value::Enumeration { class, ordinal },
            Value::Enumeration {
                class: right_class,
                ordinal: right_ordinal,
            },
        ) => {
            if *class == *right_class {
                Ok(*ordinal == *right_ordinal)
            } else {
                Err(WRONG_TYPE)
            }
        }
        _ => Ok(is_equal(numbers_of(left, right)?)),
    }
}
