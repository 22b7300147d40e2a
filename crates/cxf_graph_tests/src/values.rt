// Values of parameters, from numbers.
ghost use Rattle.std.specs.Prelude.{◌≡◌, ◌≤◌, ℤ, All, IfOk, IfSome, length, false, true, unsigned_abs};
ghost use Rattle.cdl_kinds.specs.Conditions.{Fits, FitsRow, is_count};
ghost use Rattle.cdl_kinds.specs.Parameters.{parameter_row};
ghost use Rattle.cdl_values.specs.Values.{IsOf};

use cdl_decimal::Real;
use cdl_kinds::{Kind, Parameter, parameters};
use cdl_source::List;
use cdl_values::{Array, Value, ValueType};
use std::alloc::Global;
use std::test::Fail;

// The value of that type.
fn value_of(value_type: ValueType, n: i64) -> Option<Value>
    ensures { IfSome result (λ x. IsOf value_type x) }
{
    match value_type {
        ValueType::Boolean => Some(Value::Boolean(n == 1)),
        ValueType::Integer => {
            if -2_147_483_647 <= n && n <= 2_147_483_647 {
                Some(Value::Integer(n as i32))
            } else {
                None
            }
        }
        ValueType::Real => match Real::from_count(n) {
            Some(x) => Some(Value::Real(x)),
            None => None,
        },
        _ => None,
    }
}

// A scalar for the parameter.
#[tactic(auto, using(crate::proofs::Fitting::scalar_fits))]
fn scalar(alloc: Global, row: &Parameter, n: i64) -> Result<Array, Fail>
    ensures { IfOk result (λ a. (nin : ℤ) → row.now.per_nin ≡ false → FitsRow nin (parameter_row row.now) a) }
{
    let value = value_of(row.value_type, n).ok_or("no value")?;
    let mut items = List::new(alloc);
    items.push(value)?;
    Ok(Array {
        value_type: row.value_type,
        shape: List::new(alloc),
        items,
    })
}

// Scalars for the parameters of a kind that has no other ones.
fn scalars(alloc: Global, kind: Kind, numbers: &[i64]) -> Result<List<Array>, Fail>
    ensures { IfOk result (λ v. Fits kind v) }
{
    let rows = parameters(kind);
    let mut values = List::new(alloc);
    for i in 0..rows.len() {
        if rows[i].per_nin {
            return Err("an array".into());
        }
        let n = *numbers.get(i).ok_or("no number")?;
        values.push(scalar(alloc, &rows[i], n)?)?;
    }
    Ok(values)
}

// How many factors a sum of so many inputs has, or one where there can't be so many.
fn factor_count(nin: i32) -> usize
    ensures count { is_count nin ≡ true → result ≡ unsigned_abs nin }
    ensures few { result ≤ 256 }
{
    if 1 <= nin && nin <= 256 {
        nin as usize
    } else {
        1
    }
}

// So many values: these, and the last of them again where they are fewer.
fn factors(
    alloc: Global,
    value_type: ValueType,
    count: usize,
    numbers: &[i64],
) -> Result<List<Value>, Fail>
    ensures { IfOk result (λ v. (All (IsOf value_type) v) × (length v ≡ count)) }
{
    let mut values = List::new(alloc);
    for i in 0..count {
        let n = *numbers.get(i).or(numbers.last()).ok_or("no factor")?;
        let value = value_of(value_type, n).ok_or("no value")?;
        values.push(value)?;
    }
    Ok(values)
}

// The parameters of a sum: how many inputs, and the factors.
fn sum_values(
    alloc: Global,
    value_type: ValueType,
    nin: i32,
    numbers: &[i64],
) -> Result<List<Array>, Fail>
    requires { unsigned_abs nin ≤ 2147483647 }
    ensures integers { IfOk result (λ v. value_type ≡ ValueType.Integer → Fits Kind.IntegersMultiSum v) }
    ensures reals { IfOk result (λ v. value_type ≡ ValueType.Real → Fits Kind.RealsMultiSum v) }
{
    let count = factor_count(nin);
    let mut counts = List::new(alloc);
    counts.push(Value::Integer(nin))?;
    let mut shape = List::new(alloc);
    shape.push(count as u32)?;
    let mut values = List::new(alloc);
    values.push(Array {
        value_type: ValueType::Integer,
        shape: List::new(alloc),
        items: counts,
    })?;
    let items = factors(alloc, value_type, count, numbers)?;
    values.push(Array {
        value_type,
        shape,
        items,
    })?;
    Ok(values)
}

// The Integer of this number.
fn integer(n: i64) -> Result<i32, Fail>
    ensures { IfOk result (λ z. unsigned_abs z ≤ 2147483647) }
{
    if -2_147_483_647 <= n && n <= 2_147_483_647 {
        Ok(n as i32)
    } else {
        Err("no Integer".into())
    }
}

// The values of the parameters of a kind. A sum has its nin and the factors, of which the last may stand for more.
pub fn values(alloc: Global, kind: Kind, numbers: &[i64]) -> Result<List<Array>, Fail>
    ensures { IfOk result (λ v. Fits kind v) }
{
    match numbers {
        [nin, factors @ ..] if kind == Kind::IntegersMultiSum => {
            let nin = integer(*nin)?;
            sum_values(alloc, ValueType::Integer, nin, factors)
        }
        [nin, factors @ ..] if kind == Kind::RealsMultiSum => {
            let nin = integer(*nin)?;
            sum_values(alloc, ValueType::Real, nin, factors)
        }
        _ => scalars(alloc, kind, numbers),
    }
}

// The numbers of a text; none of `none`.
pub fn numbers(alloc: Global, text: &str) -> Result<Vec<i64>, Fail> {
    let mut numbers = Vec::new(alloc);
    if text != "none" {
        for word in text.split_whitespace() {
            numbers.push(word.parse()?)?;
        }
    }
    Ok(numbers)
}
