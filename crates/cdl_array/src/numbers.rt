use cdl_source::rules::WRONG_TYPE;
// Pairs of numbers of one type.
ghost use Rattle.std.specs.Prelude.{◌≡◌};
ghost use Rattle.cdl_array.specs.Numbers.{millionths, numbers_of};

use cdl_decimal::Real;
use cdl_values::Value;

/// Two numbers of one type.
#[derive(Clone, Copy)]
pub enum Numbers {
    Integers(i32, i32),
    Reals(Real, Real),
}

// The whole number as a Real.
pub(crate) fn real_of(whole: i32) -> Real
    ensures { result ≡ millionths whole }
{
    match Real::from_count(whole as i64 * 1_000_000) {
        Some(real) => real,
        None => unreachable!(),
    }
}

// The two values as numbers of one type, an Integer beside a Real as a Real.
#[tactic(auto, unfolding(crate::specs::Numbers::numbers_of))]
pub(crate) fn numbers_of(left: &Value, right: &Value) -> Result<Numbers, u32>
    ensures { result ≡ numbers_of left.now right.now }
{
    match left {
        Value::Integer(a) => match right {
            Value::Integer(b) => Ok(Numbers::Integers(*a, *b)),
            Value::Real(b) => Ok(Numbers::Reals(real_of(*a), *b)),
            _ => Err(WRONG_TYPE),
        },
        Value::Real(a) => match right {
            Value::Integer(b) => Ok(Numbers::Reals(*a, real_of(*b))),
            Value::Real(b) => Ok(Numbers::Reals(*a, *b)),
            _ => Err(WRONG_TYPE),
        },
        _ => Err(WRONG_TYPE),
    }
}
