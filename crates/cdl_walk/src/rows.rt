// Whether values have the types and shapes of the parameters of a kind.
ghost use Rattle.std.specs.Prelude.{◌≡◌, map};
ghost use Rattle.std.specs.List.{list_all};
ghost use Rattle.cdl_array.specs.Types.{same_type as same_type_of};
ghost use Rattle.cdl_kinds.specs.Conditions.{is_count as is_count_of};
ghost use Rattle.cdl_kinds.specs.Parameters.{parameter_row};
ghost use Rattle.cdl_values.specs.Values.{integer_at};
ghost use Rattle.cdl_walk.specs.Rows as spec;

use crate::elements::count_of;
use cdl_kinds::{Kind, Parameter, parameters};
use cdl_source::{LARGEST_INTEGER, LARGEST_REAL};
use cdl_values::{Array, Value, ValueType};

#[tactic(auto, unfolding(cdl_array::specs::Types::same_type))]
fn same_type(left: ValueType, right: ValueType) -> bool
    ensures { result ≡ same_type_of left right }
{
    match (left, right) {
        (ValueType::Boolean, ValueType::Boolean) => true,
        (ValueType::Integer, ValueType::Integer) => true,
        (ValueType::Real, ValueType::Real) => true,
        (ValueType::Str, ValueType::Str) => true,
        (ValueType::Enumeration(c), ValueType::Enumeration(d)) => c == d,
        _ => false,
    }
}

// From 1 to 256.
fn is_count(z: i32) -> bool
    ensures { result ≡ is_count_of z }
{
    1 <= z && z <= 256
}

// Whether there is one size, which is this.
fn is_size(shape: &[u32], n: u32) -> bool
    ensures { result ≡ spec.is_size shape.now n }
{
    match shape {
        [size] => *size == n,
        _ => false,
    }
}

// Whether it is the shape of one value, or of one for each of n inputs, where n is a count.
fn has_shape(nin: i32, per_nin: bool, shape: &[u32]) -> bool
    ensures { result ≡ spec.has_shape nin per_nin shape.now }
{
    if !per_nin {
        return shape.is_empty();
    }
    !is_count(nin) || is_size(shape, nin.unsigned_abs())
}

// Whether it is a value of that type.
fn is_of(value_type: ValueType, value: &Value) -> bool
    ensures { result ≡ spec.is_of value_type value.now }
{
    match (value_type, value) {
        (ValueType::Boolean, Value::Boolean(_)) => true,
        (ValueType::Integer, Value::Integer(z)) => z.unsigned_abs() <= LARGEST_INTEGER,
        (ValueType::Real, Value::Real(x)) => x.count().unsigned_abs() <= LARGEST_REAL,
        (ValueType::Str, Value::Str(_)) => true,
        (ValueType::Enumeration(c), Value::Enumeration { class, .. }) => c == *class,
        _ => false,
    }
}

// Whether each is a value of that type.
fn are_of(value_type: ValueType, values: &[Value]) -> bool
    ensures { result ≡ list_all (spec.is_of value_type) values.now }
{
    values.iter().all(|value| is_of(value_type, value))
}

// Whether it has at most two sizes, as many items as they say, and each of its type.
fn is_array(value: &Array) -> bool
    ensures { result ≡ spec.is_array value.now }
{
    let sizes = value.shape.items();
    sizes.len() <= 2
        && (value.items.items().len() == count_of(sizes)
            && are_of(value.value_type, value.items.items()))
}

// Whether a value has the type and the shape of its row.
fn fits_row(nin: i32, row: &Parameter, value: &Array) -> bool
    ensures { result ≡ spec.fits_row nin (parameter_row row.now) value.now }
{
    same_type(value.value_type, row.value_type)
        && (has_shape(nin, row.per_nin, value.shape.items()) && is_array(value))
}

// Whether there is a value for each of these rows, of its type and shape.
fn fit_rows(nin: i32, rows: &[Parameter], values: &[Array]) -> bool
    ensures { result ≡ spec.fit_rows nin (map parameter_row rows.now) values.now }
{
    let [row, rows @ ..] = rows else {
        return values.is_empty();
    };
    let [value, values @ ..] = values else {
        return false;
    };
    fits_row(nin, row, value) && fit_rows(nin, rows, values)
}

// The Integer that is the first value; 0 where it is none.
fn first_integer(values: &[Array]) -> i32
    ensures { result ≡ integer_at values.now 0 }
{
    let [array, ..] = values else {
        return 0;
    };
    match array.items.items() {
        [Value::Integer(z), ..] => *z,
        _ => 0,
    }
}

/// Whether there is a value for each parameter of the kind, in the order of the table, of its type and shape.
pub fn fit(kind: Kind, values: &[Array]) -> bool
    ensures { result ≡ spec.fit kind values.now }
{
    fit_rows(first_integer(values), parameters(kind), values)
}
