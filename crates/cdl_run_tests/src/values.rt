// Parameters of a block, from numbers.
ghost use Rattle.std.specs.Prelude.{◌≡◌, ℤ, IfOk, IfSome, false};
ghost use Rattle.cdl_kinds.specs.Conditions.{Fits, FitsRow, Keeps};
ghost use Rattle.cdl_kinds.specs.Parameters.{parameter_row};
ghost use Rattle.cdl_values.specs.Values.{IsOf};

use cdl_decimal::Real;
use cdl_kinds::{Kind, Parameter, Params, check, parameters};
use cdl_source::List;
use cdl_values::{Array, Value, ValueType};
use std::alloc::Global;
use std::test::Fail;

// The value of that type.
fn value_of(value_type: ValueType, n: i64) -> Option<Value>
    ensures { IfSome result (λ x. IsOf value_type x) }
{
    match value_type {
        ValueType::Boolean => Some(Value::Boolean(n == 1)),
        ValueType::Integer => {
            if -2_147_483_647 <= n && n <= 2_147_483_647 {
                Some(Value::Integer(n as i32))
            } else {
                None
            }
        }
        ValueType::Real => match Real::from_count(n) {
            Some(x) => Some(Value::Real(x)),
            None => None,
        },
        _ => None,
    }
}

// A scalar for the parameter.
#[tactic(auto, using(crate::proofs::Fitting::scalar_fits))]
fn scalar(alloc: Global, row: &Parameter, n: i64) -> Result<Array, Fail>
    ensures { IfOk result (λ a. (nin : ℤ) → row.now.per_nin ≡ false → FitsRow nin (parameter_row row.now) a) }
{
    let value = value_of(row.value_type, n).ok_or("no value")?;
    let mut items = List::new(alloc);
    items.push(value)?;
    Ok(Array {
        value_type: row.value_type,
        shape: List::new(alloc),
        items,
    })
}

// Scalars for the parameters of a kind that has no other ones.
fn scalars(alloc: Global, kind: Kind, numbers: &[i64]) -> Result<List<Array>, Fail>
    ensures { IfOk result (λ v. Fits kind v) }
{
    let rows = parameters(kind);
    let mut values = List::new(alloc);
    for i in 0..rows.len() {
        if rows[i].per_nin {
            return Err("an array".into());
        }
        let n = *numbers.get(i).ok_or("no number")?;
        values.push(scalar(alloc, &rows[i], n)?)?;
    }
    Ok(values)
}

// The parameters of a kind, from numbers. A Real stands as a count of millionths.
pub fn params_of(alloc: Global, kind: Kind, numbers: &[i64]) -> Result<Params, Fail>
    ensures { IfOk result (λ p. Keeps kind p) }
{
    match check(kind, scalars(alloc, kind, numbers)?) {
        Ok(params) => Ok(params),
        Err(_fault) => Err("a condition is broken".into()),
    }
}

// The numbers of a text, with this sign between them.
pub fn numbers(alloc: Global, text: &str, sign: char) -> Result<Vec<i64>, Fail> {
    let mut numbers = Vec::new(alloc);
    for word in text.split(sign) {
        if !word.is_empty() {
            numbers.push(word.parse()?)?;
        }
    }
    Ok(numbers)
}
