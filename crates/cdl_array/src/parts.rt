// Items and parts of arrays.
ghost use Rattle.std.specs.Prelude.{◌≡◌, ◌≤◌, ◌+◌, ◌*◌, ◌-◌, ◌^◌, min, length, take, drop, is_some, IfOk};
ghost use Rattle.std.specs.Option.{option_copied};
ghost use Rattle.cdl_values.specs.Values.{items_of};
ghost use Rattle.cdl_array.specs.Outcomes.{Answers};
ghost use Rattle.cdl_array.specs.Parts as spec;

use crate::fault::EvalFault;
use crate::scalars::scalar_of;
use crate::types::copy_shape;
use cdl_source::rules::{NO_VALUE, WRONG_SHAPE, WRONG_TYPE};
use cdl_source::{List, OutOfMemory};
use cdl_values::{Array, Value};
use std::alloc::Global;

fn is_within(size: u32, index: u32) -> bool
    ensures { result ≡ spec.is_within size index }
{
    1 <= index && index <= size
}

// Where the item of these indices stands, row by row. None: they are not indices of the shape.
#[tactic(auto, unfolding(crate::specs::Parts::place))]
fn place(shape: &[u32], indices: &[u32]) -> Option<usize>
    ensures { result ≡ spec.place shape.now indices.now }
{
    match (shape, indices) {
        ([], []) => Some(0),
        ([size], [index]) => {
            if is_within(*size, *index) {
                Some(*index as usize - 1)
            } else {
                None
            }
        }
        ([rows, columns], [row, column]) => {
            if is_within(*rows, *row) && is_within(*columns, *column) {
                Some((*row as usize - 1) * *columns as usize + (*column as usize - 1))
            } else {
                None
            }
        }
        _ => None,
    }
}

// The value as an index, which none below 1 is. None: it is no Integer.
#[tactic(auto, unfolding(crate::specs::Parts::index_value))]
fn index_value(value: &Value) -> Option<u32>
    ensures { result ≡ spec.index_value value.now }
{
    match value {
        Value::Integer(z) => {
            if *z < 0 {
                Some(0)
            } else {
                Some(z.unsigned_abs())
            }
        }
        _ => None,
    }
}

// The subscript that an array is. None: it is no Integer.
fn subscript_of(array: &Array) -> Option<u32>
    ensures { result ≡ spec.subscript_of array.now }
{
    match scalar_of(array) {
        Some(value) => index_value(value),
        None => None,
    }
}

fn index_of(array: &Array) -> u32
    ensures { result ≡ spec.index_of array.now }
{
    match subscript_of(array) {
        Some(index) => index,
        None => 0,
    }
}

fn is_scalar(array: &Array) -> bool
    ensures { result ≡ spec.is_scalar array.now }
{
    scalar_of(array).is_some()
}

fn is_subscript(array: &Array) -> bool
    ensures { result ≡ spec.is_subscript array.now }
{
    subscript_of(array).is_some()
}

fn are_scalars(subs: &[Array]) -> bool
    ensures { result ≡ spec.are_scalars subs.now }
{
    subs.iter().all(|sub| is_scalar(sub))
}

fn are_subscripts(subs: &[Array]) -> bool
    ensures { result ≡ spec.are_subscripts subs.now }
{
    subs.iter().all(|sub| is_subscript(sub))
}

// Where the item of these subscripts stands.
fn place_of(shape: &[u32], subs: &[Array]) -> Option<usize>
    ensures { result ≡ spec.place_of shape.now subs.now }
{
    if subs.len() > 2 {
        return None;
    }
    match subs {
        [] => place(shape, &[]),
        [index] => place(shape, &[index_of(index)]),
        [row, column] => place(shape, &[index_of(row), index_of(column)]),
        _ => unreachable!(),
    }
}

// The item at that place, as a scalar.
fn item(alloc: Global, array: &Array, at: Option<usize>) -> Result<Array, EvalFault>
    ensures { Answers (spec.item array.now at) result }
{
    let Some(at) = at else {
        return Err(EvalFault::Rule(NO_VALUE));
    };
    let Some(value) = array.items.items().get(at) else {
        return Err(EvalFault::Rule(NO_VALUE));
    };
    let mut items = List::new(alloc);
    items.push(value.copy(alloc)?)?;
    Ok(Array {
        value_type: array.value_type,
        shape: List::new(alloc),
        items,
    })
}

/// The item of an array at these subscripts, as a scalar. They are as many as the array has dimensions, each a scalar (C25);
/// then each is an Integer (C26); then each is from 1 to the size of its dimension (C30).
pub fn subscript(alloc: Global, array: &Array, subs: &[Array]) -> Result<Array, EvalFault>
    ensures { Answers (spec.subscript array.now subs.now) result }
{
    let shape = array.shape.items();
    if subs.len() != shape.len() || !are_scalars(subs) {
        return Err(EvalFault::Rule(WRONG_SHAPE));
    }
    if !are_subscripts(subs) {
        return Err(EvalFault::Rule(WRONG_TYPE));
    }
    item(alloc, array, place_of(shape, subs))
}

// Equal values.
fn copy_values(alloc: Global, values: &[Value]) -> Result<List<Value>, OutOfMemory>
    ensures { IfOk result (λ copy. copy ≡ values.now) }
{
    let mut copy = List::new(alloc);
    for value in values {
        copy.push(value.copy(alloc)?)?;
    }
    Ok(copy)
}

// The number of items of a shape, or the largest number where they are more.
#[tactic(auto, using(crate::proofs::Places::cut_product))]
fn most_items(shape: &[u32]) -> usize
    ensures { result ≡ min (items_of shape.now) (2 ^ 64 - 1) }
{
    match shape {
        [] => 1,
        [size, rest @ ..] => most_items(rest).saturating_mul(*size as usize),
    }
}

// The values behind so many.
#[tactic(auto, using(std::proofs::lemmas::List::drop_all))]
fn beyond(values: &[Value], count: usize) -> &[Value]
    ensures { result.now ≡ drop count values.now }
{
    if count < values.len() {
        &values[count..]
    } else {
        &[]
    }
}

// As many values, or all where there are fewer.
#[tactic(auto, using(std::proofs::lemmas::List::take_all))]
fn at_most(values: &[Value], count: usize) -> &[Value]
    ensures { result.now ≡ take count values.now }
{
    if count < values.len() {
        &values[..count]
    } else {
        values
    }
}

// Of values in stretches of as many as a shape has places, the one at that place: what there is of it.
#[tactic(auto, using(crate::proofs::Places::stretch_is))]
fn stretch<'v>(values: &'v [Value], at: usize, shape: &[u32]) -> &'v [Value]
    ensures { result.now ≡ spec.stretch values.now at (items_of shape.now) }
{
    let count = most_items(shape);
    at_most(beyond(values, count.saturating_mul(at)), count)
}

/// The part of an array that its first indices choose: what stands there in the other dimensions. All of the array for none.
/// C25: they are not indices, from 1, of its first dimensions.
pub fn part(alloc: Global, array: &Array, indices: &[u32]) -> Result<Array, EvalFault>
    ensures { Answers (spec.part array.now indices.now) result }
{
    let shape = array.shape.items();
    if indices.len() > shape.len() {
        return Err(EvalFault::Rule(WRONG_SHAPE));
    }
    let (chosen, rest) = shape.split_at(indices.len());
    let Some(at) = place(chosen, indices) else {
        return Err(EvalFault::Rule(WRONG_SHAPE));
    };
    let values = stretch(array.items.items(), at, rest);
    let shape = copy_shape(alloc, rest)?;
    let items = copy_values(alloc, values)?;
    Ok(Array {
        value_type: array.value_type,
        shape,
        items,
    })
}
