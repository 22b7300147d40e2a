// The values of parameters, as a document gives them.
ghost use Rattle.std.specs.Prelude.{◌≡◌, ◌++◌, IfOk, OnOk, map, slice_get};
ghost use Rattle.std.specs.Option.{option_copied};
ghost use Rattle.cdl_kinds.specs.Parameters.{parameter_row, parameters};
ghost use Rattle.cdl_values.specs.Values.{first};
ghost use Rattle.cxf_graph.specs.declared.graph.GivenItem.TheVariants.{Bad};
ghost use Rattle.cxf_graph.specs.Written.{given_all, given_in, given_item, given_value};

use crate::graph::{Given, GivenItem, GivenValue};
use cdl_decimal::text;
use cdl_kinds::{Kind, Parameter, parameters};
use cdl_source::{List, OutOfMemory, Text};
use cdl_values::{Array, Value};
use std::alloc::Global;

// One item of a value.
fn given_item(alloc: Global, value: &Value) -> Result<GivenItem, OutOfMemory>
    ensures { IfOk result (λ g. g ≡ given_item value.now) }
{
    match value {
        Value::Boolean(b) => Ok(GivenItem::Boolean(*b)),
        Value::Integer(z) => Ok(GivenItem::Integer(i64::from(*z))),
        Value::Real(x) => Ok(GivenItem::Str(text(alloc, *x)?)),
        Value::Str(text) => Ok(GivenItem::Str(text.copy(alloc)?)),
        Value::Enumeration { .. } => Ok(GivenItem::Bad),
    }
}

// The items of an array.
fn given_items(alloc: Global, items: &[Value]) -> Result<List<GivenItem>, OutOfMemory>
    ensures { IfOk result (λ gs. gs ≡ map given_item items.now) }
{
    let mut given = List::new(alloc);
    for item in items {
        given.push(given_item(alloc, item)?)?;
    }
    Ok(given)
}

// The item of a scalar.
fn only_item(alloc: Global, items: &[Value]) -> Result<GivenItem, OutOfMemory>
    ensures { IfOk result (λ g. g ≡ first given_item Bad items.now) }
{
    match items {
        [item, ..] => given_item(alloc, item),
        [] => Ok(GivenItem::Bad),
    }
}

// The value of a parameter.
fn given_value(alloc: Global, array: &Array) -> Result<GivenValue, OutOfMemory>
    ensures { IfOk result (λ g. g ≡ given_value array.now) }
{
    let items = array.items.items();
    if array.shape.items().is_empty() {
        Ok(GivenValue::Item(only_item(alloc, items)?))
    } else {
        Ok(GivenValue::List(given_items(alloc, items)?))
    }
}

// Adds a parameter and its value, where it has one.
fn push_given(
    alloc: Global,
    parameter: &Parameter,
    value: Option<&Array>,
    given: &mut List<Given>,
) -> Result<(), OutOfMemory>
    ensures { OnOk result (given.new ≡ given.old ++ given_in (parameter_row parameter.now) (option_copied value.entry)) }
{
    let Some(array) = value else {
        return Ok(());
    };
    let name = Text::from_bytes(alloc, parameter.name.as_bytes())?;
    let value = given_value(alloc, array)?;
    given.push(Given { name, value })
}

// The array of that number.
fn array_at(values: &[Array], i: usize) -> Option<&Array>
    ensures { option_copied result ≡ slice_get values.now i }
{
    values.get(i)
}

// All parameters of a kind, in the table's order, with these values.
pub(crate) fn given_all(
    alloc: Global,
    kind: Kind,
    values: &[Array],
) -> Result<List<Given>, OutOfMemory>
    ensures { IfOk result (λ gs. gs ≡ given_all values.now 0 (parameters kind)) }
{
    let mut given = List::new(alloc);
    for (i, parameter) in parameters(kind).iter().enumerate() {
        push_given(alloc, parameter, array_at(values, i), &mut given)?;
    }
    Ok(given)
}
