// The functions.
ghost use Rattle.std.specs.Prelude.{◌≡◌, ℤ, ◌*◌, ◌≤◌, ◌<◌, ◌^◌, length, unsigned_abs, replicate, IfOk, MatchResult, Ok, Err};
ghost use Rattle.cdl_decimal.specs.Near.{InRange, in_range};
ghost use Rattle.cdl_decimal.specs.Counts.{total};
ghost use Rattle.cdl_values.specs.Extremes.{least, greatest};
ghost use Rattle.cdl_values.specs.Extremes as counts;
ghost use Rattle.cdl_array.specs.Outcomes.{Answers};
ghost use Rattle.cdl_array.specs.Numbers as pairs;
ghost use Rattle.cdl_array.specs.Functions as spec;

use crate::arithmetic::{integer_value, real_value};
use crate::fault::EvalFault;
use crate::numbers::{Numbers, numbers_of};
use crate::scalars::{scalar, scalar_if, scalar_of};
use crate::sizes::{count_of, size_of};
use crate::types::{copy_shape, is_number};
use cdl_decimal::Real;
use cdl_source::rules::{NO_VALUE, UNKNOWN_NAME, WRONG_SHAPE, WRONG_TYPE};
use cdl_source::{LARGEST_REAL, List, OutOfMemory};
use cdl_values::{Array, Value, ValueType};
use std::alloc::Global;

/// The functions.
#[derive(Clone, Copy, Debug, PartialEq, Eq)]
pub enum Function {
    /// `abs(x)`, the magnitude.
    Abs,
    /// `min(a, b)` of two scalars, `min(v)` of a row.
    Min,
    /// `max(a, b)` of two scalars, `max(v)` of a row.
    Max,
    /// `sum(v)` of a row.
    Sum,
    /// `size(x, i)`, the size of the i-th dimension.
    Size,
    /// `fill(x, n)` and `fill(x, n, m)`, an array of equal items.
    Fill,
    /// `integer(x)`, the floor.
    Floor,
}

impl Function {
    /// The function of this name. None, which is C27: there is none.
    #[tactic(auto, unfolding(crate::specs::Functions::function_named))]
    pub fn named(name: &[u8]) -> Option<Function>
        ensures { result ≡ spec.function_named name.now }
    {
        if name == b"abs".as_slice() {
            return Some(Function::Abs);
        }
        if name == b"min".as_slice() {
            return Some(Function::Min);
        }
        if name == b"max".as_slice() {
            return Some(Function::Max);
        }
        if name == b"sum".as_slice() {
            return Some(Function::Sum);
        }
        if name == b"size".as_slice() {
            return Some(Function::Size);
        }
        if name == b"fill".as_slice() {
            return Some(Function::Fill);
        }
        if name == b"integer".as_slice() {
            return Some(Function::Floor);
        }
        None
    }

    /// Whether it takes so many arguments. If not, that is C27, before any of them is evaluated.
    #[tactic(auto, unfolding(crate::specs::Functions::takes))]
    pub fn takes(self, count: usize) -> bool
        ensures { result ≡ spec.takes self count }
    {
        match self {
            Function::Abs => count == 1,
            Function::Min => count == 1 || count == 2,
            Function::Max => count == 1 || count == 2,
            Function::Sum => count == 1,
            Function::Size => count == 2,
            Function::Fill => count == 2 || count == 3,
            Function::Floor => count == 1,
        }
    }
}

// The Real of this count, if it is in range.
fn real_of_count(count: i128) -> Option<Real>
    ensures { result ≡ in_range count }
{
    if -(LARGEST_REAL as i128) <= count && count <= LARGEST_REAL as i128 {
        Real::from_count(count as i64)
    } else {
        None
    }
}

#[tactic(auto, unfolding(crate::specs::Functions::magnitude))]
fn magnitude(value: &Value) -> Result<Value, u32>
    ensures { result ≡ spec.magnitude value.now }
{
    match value {
        Value::Integer(z) => integer_value(z.unsigned_abs() as i128),
        Value::Real(x) => real_value(real_of_count(x.count().unsigned_abs() as i128)),
        _ => Err(WRONG_TYPE),
    }
}

#[tactic(auto, unfolding(crate::specs::Functions::floor))]
fn floor(value: &Value) -> Result<Value, u32>
    ensures { result ≡ spec.floor value.now }
{
    match value {
        Value::Integer(z) => Ok(Value::Integer(*z)),
        Value::Real(x) => match x.floor_integer() {
            Some(whole) => Ok(Value::Integer(whole)),
            None => Err(NO_VALUE),
        },
        _ => Err(WRONG_TYPE),
    }
}

fn lesser_of(numbers: Numbers) -> Value
    ensures { result ≡ pairs.lesser_of numbers }
{
    match numbers {
        Numbers::Integers(a, b) => {
            if b < a {
                Value::Integer(b)
            } else {
                Value::Integer(a)
            }
        }
        Numbers::Reals(a, b) => {
            if b.count() < a.count() {
                Value::Real(b)
            } else {
                Value::Real(a)
            }
        }
    }
}

fn greater_of(numbers: Numbers) -> Value
    ensures { result ≡ pairs.greater_of numbers }
{
    match numbers {
        Numbers::Integers(a, b) => {
            if a < b {
                Value::Integer(b)
            } else {
                Value::Integer(a)
            }
        }
        Numbers::Reals(a, b) => {
            if a.count() < b.count() {
                Value::Real(b)
            } else {
                Value::Real(a)
            }
        }
    }
}

// The whole number that an item of this type is, or its millionths.
fn count_in(value_type: ValueType, item: &Value) -> i64
    ensures value { result ≡ spec.count_in value_type item.now }
    ensures range { InRange result }
{
    match (value_type, item) {
        (ValueType::Integer, Value::Integer(z)) => *z as i64,
        (ValueType::Integer, _) => 0,
        (_, Value::Real(x)) => x.count(),
        _ => 0,
    }
}

#[tactic(auto, unfolding(crate::specs::Functions::number_of))]
fn number_of(value_type: ValueType, count: i128) -> Result<Value, u32>
    ensures { result ≡ spec.number_of value_type count }
{
    match value_type {
        ValueType::Integer => integer_value(count),
        ValueType::Real => real_value(real_of_count(count)),
        _ => Err(WRONG_TYPE),
    }
}

// The sum of the counts, in full.
fn total_of(value_type: ValueType, items: &[Value]) -> i128
    ensures { result ≡ total (spec.counts_in value_type items.now) }
{
    let mut sum: i128 = 0;
    for i in 0..items.len() {
        sum += count_in(value_type, &items[i]) as i128;
    }
    sum
}

fn lesser(a: i64, b: i64) -> i64
    ensures { result ≡ counts.lesser_of a b }
{
    if a <= b { a } else { b }
}

fn greater(a: i64, b: i64) -> i64
    ensures { result ≡ counts.greater_of a b }
{
    if a <= b { b } else { a }
}

// The least of the counts, of which there is at least one.
fn least_of(value_type: ValueType, items: &[Value]) -> i64
    requires { 0 < length items.now }
    ensures { result ≡ least (spec.counts_in value_type items.now) }
{
    let mut best = count_in(value_type, &items[0]);
    for i in 1..items.len() {
        best = lesser(best, count_in(value_type, &items[i]));
    }
    best
}

// The greatest of the counts, of which there is at least one.
fn greatest_of(value_type: ValueType, items: &[Value]) -> i64
    requires { 0 < length items.now }
    ensures { result ≡ greatest (spec.counts_in value_type items.now) }
{
    let mut best = count_in(value_type, &items[0]);
    for i in 1..items.len() {
        best = greater(best, count_in(value_type, &items[i]));
    }
    best
}

// A row of numbers: its shape, and then its type.
#[tactic(auto, unfolding(crate::specs::Functions::row_of))]
fn row_of(array: &Array) -> Result<&[Value], u32>
    ensures { MatchResult result (λ items. spec.row_of array.now ≡ Ok items.now) (λ rule. spec.row_of array.now ≡ Err rule) }
{
    if array.shape.items().len() != 1 {
        return Err(WRONG_SHAPE);
    }
    if !is_number(array.value_type) {
        return Err(WRONG_TYPE);
    }
    Ok(array.items.items())
}

// The least item of a row, and the greatest.
fn least_value(array: &Array) -> Result<Value, u32>
    ensures { result ≡ spec.row_value (spec.of_some least) array.now }
{
    let items = row_of(array)?;
    if items.is_empty() {
        return Err(NO_VALUE);
    }
    number_of(array.value_type, least_of(array.value_type, items) as i128)
}

fn greatest_value(array: &Array) -> Result<Value, u32>
    ensures { result ≡ spec.row_value (spec.of_some greatest) array.now }
{
    let items = row_of(array)?;
    if items.is_empty() {
        return Err(NO_VALUE);
    }
    number_of(
        array.value_type,
        greatest_of(array.value_type, items) as i128,
    )
}

// The sum of a row, whose parts may be out of range.
fn sum_value(array: &Array) -> Result<Value, u32>
    ensures { result ≡ spec.row_value spec.of_all array.now }
{
    let items = row_of(array)?;
    number_of(array.value_type, total_of(array.value_type, items))
}

fn two_of(alloc: Global, left: &Array, right: &Array, greatest: bool) -> Result<Array, EvalFault>
    ensures { Answers (spec.of_two (spec.chosen greatest) left.now right.now) result }
{
    let Some(left) = scalar_of(left) else {
        return Err(EvalFault::Rule(WRONG_SHAPE));
    };
    let Some(right) = scalar_of(right) else {
        return Err(EvalFault::Rule(WRONG_SHAPE));
    };
    let numbers = match numbers_of(left, right) {
        Ok(numbers) => numbers,
        Err(rule) => return Err(EvalFault::Rule(rule)),
    };
    if greatest {
        scalar(alloc, greater_of(numbers))
    } else {
        scalar(alloc, lesser_of(numbers))
    }
}

#[tactic(auto, unfolding(crate::specs::Functions::dimension_value))]
fn dimension_value(shape: &[u32], value: &Value) -> Result<Value, u32>
    ensures { result ≡ spec.dimension_value shape.now value.now }
{
    match value {
        Value::Integer(z) => {
            if *z < 1 {
                return Err(WRONG_SHAPE);
            }
            match shape.get(z.unsigned_abs() as usize - 1) {
                Some(size) => integer_value(*size as i128),
                None => Err(WRONG_SHAPE),
            }
        }
        _ => Err(WRONG_TYPE),
    }
}

// So many equal values.
fn replicate(alloc: Global, value: &Value, count: usize) -> Result<List<Value>, OutOfMemory>
    ensures { IfOk result (λ items. items ≡ replicate count value.now) }
{
    let mut items = List::new(alloc);
    for i in 0..count {
        items.push(value.copy(alloc)?)?;
    }
    Ok(items)
}

// An array of this shape, whose items are equal, of the type of the array of the value.
fn filled_shape(
    alloc: Global,
    value_type: ValueType,
    value: &Value,
    shape: &[u32],
) -> Result<Array, EvalFault>
    requires { length shape.now ≤ 2 }
    ensures { Answers (spec.filled_shape value_type value.now shape.now) result }
{
    let count = match count_of(shape) {
        Ok(count) => count,
        Err(fault) => return Err(fault),
    };
    let shape = copy_shape(alloc, shape)?;
    let items = replicate(alloc, value, count)?;
    Ok(Array {
        value_type,
        shape,
        items,
    })
}

fn filled_row(alloc: Global, array: &Array, size: &Array) -> Result<Array, EvalFault>
    ensures { Answers (spec.filled_row array.now size.now) result }
{
    let Some(value) = scalar_of(array) else {
        return Err(EvalFault::Rule(WRONG_SHAPE));
    };
    let size = match size_of(size) {
        Ok(size) => size,
        Err(fault) => return Err(fault),
    };
    filled_shape(alloc, array.value_type, value, &[size])
}

fn filled_rows(
    alloc: Global,
    array: &Array,
    rows: &Array,
    columns: &Array,
) -> Result<Array, EvalFault>
    ensures { Answers (spec.filled_rows array.now rows.now columns.now) result }
{
    let Some(value) = scalar_of(array) else {
        return Err(EvalFault::Rule(WRONG_SHAPE));
    };
    let rows = match size_of(rows) {
        Ok(rows) => rows,
        Err(fault) => return Err(fault),
    };
    let columns = match size_of(columns) {
        Ok(columns) => columns,
        Err(fault) => return Err(fault),
    };
    filled_shape(alloc, array.value_type, value, &[rows, columns])
}

// A function of one scalar.
fn magnitude_of(alloc: Global, array: &Array) -> Result<Array, EvalFault>
    ensures { Answers (spec.of_scalar spec.magnitude array.now) result }
{
    match scalar_of(array) {
        Some(value) => scalar_if(alloc, magnitude(value)),
        None => Err(EvalFault::Rule(WRONG_SHAPE)),
    }
}

fn floor_of(alloc: Global, array: &Array) -> Result<Array, EvalFault>
    ensures { Answers (spec.of_scalar spec.floor array.now) result }
{
    match scalar_of(array) {
        Some(value) => scalar_if(alloc, floor(value)),
        None => Err(EvalFault::Rule(WRONG_SHAPE)),
    }
}

fn dimension_of(alloc: Global, array: &Array, index: &Array) -> Result<Array, EvalFault>
    ensures { Answers (spec.of_scalar (spec.dimension_value array.now.shape) index.now) result }
{
    match scalar_of(index) {
        Some(value) => scalar_if(alloc, dimension_value(array.shape.items(), value)),
        None => Err(EvalFault::Rule(WRONG_SHAPE)),
    }
}

/// What a function gives for these arguments. C27: it takes no such number of them, which `Function::takes` tells before they
/// are evaluated. Then the shapes (C25) and the types (C26), for `fill` size by size with C28, and then the value (C30).
pub fn call(alloc: Global, function: Function, args: &[Array]) -> Result<Array, EvalFault>
    ensures { Answers (spec.call function args.now) result }
{
    match (function, args) {
        (Function::Abs, [array]) => magnitude_of(alloc, array),
        (Function::Min, [array]) => scalar_if(alloc, least_value(array)),
        (Function::Min, [left, right]) => two_of(alloc, left, right, false),
        (Function::Max, [array]) => scalar_if(alloc, greatest_value(array)),
        (Function::Max, [left, right]) => two_of(alloc, left, right, true),
        (Function::Sum, [array]) => scalar_if(alloc, sum_value(array)),
        (Function::Size, [array, index]) => dimension_of(alloc, array, index),
        (Function::Fill, [array, size]) => filled_row(alloc, array, size),
        (Function::Fill, [array, rows, columns]) => filled_rows(alloc, array, rows, columns),
        (Function::Floor, [array]) => floor_of(alloc, array),
        _ => Err(EvalFault::Rule(UNKNOWN_NAME)),
    }
}
