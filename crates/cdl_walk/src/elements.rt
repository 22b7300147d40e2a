// The elements of a connector or of the ports of one name.
ghost use Rattle.std.specs.Prelude.{◌≡◌, ◌<◌, ◌≤◌, ◌+◌, ◌*◌, ◌/◌, ◌%◌, ◌++◌, ◌∷◌, [], map, length, IfOk, OnOk};
ghost use Rattle.cdl_values.specs.Values.{items_of};
ghost use Rattle.cdl_walk.specs.Elements as spec;

use crate::walked::{Element, Point};
use cdl_source::{List, OutOfMemory, Text};
use cdl_values::{Value, ValueType};
use std::alloc::Global;

/// A connector, or the ports of one name: its sizes, at most two, and the values that are its units, none where it has no units.
#[derive(Clone, Copy)]
pub struct Connector<'c> {
    pub name: &'c [u8],
    pub value_type: ValueType,
    pub input: bool,
    pub sizes: &'c [u32],
    pub units: &'c [Value],
}

// The bytes of a String.
fn text_of(value: &Value) -> &[u8]
    ensures { result.now ≡ spec.text_of value.now }
{
    match value {
        Value::Str(text) => text.bytes(),
        _ => &[],
    }
}

// The unit of the element of that number.
fn unit_at(alloc: Global, units: &[Value], k: usize) -> Result<Text, OutOfMemory>
    ensures { IfOk result (λ text. text ≡ spec.unit_at units.now k) }
{
    match units.get(k) {
        Some(value) => Text::from_bytes(alloc, text_of(value)),
        None => Ok(Text::new(alloc)),
    }
}

/// How many elements there are with these sizes.
pub fn count_of(sizes: &[u32]) -> usize
    requires { length sizes.now ≤ 2 }
    ensures { result ≡ items_of sizes.now }
{
    match sizes {
        [] => 1,
        [size] => *size as usize,
        [rows, columns] => *rows as usize * *columns as usize,
        _ => unreachable!(),
    }
}

// The index in a row.
fn row_index(alloc: Global, size: u32, k: usize) -> Result<List<u32>, OutOfMemory>
    requires { k < size }
    ensures { IfOk result (λ indices. indices ≡ (k + 1) ∷ []) }
{
    let mut indices = List::new(alloc);
    indices.push(k as u32 + 1)?;
    Ok(indices)
}

// The indices in rows of so many columns.
#[tactic(auto, using(crate::proofs::Indices::row_below, crate::proofs::Indices::some_column))]
fn grid_indices(alloc: Global, rows: u32, columns: u32, k: usize) -> Result<List<u32>, OutOfMemory>
    requires { k < rows * columns }
    ensures { IfOk result (λ indices. indices ≡ (k / columns + 1) ∷ (k % columns + 1) ∷ []) }
{
    let width = columns as usize;
    let row = k / width;
    let column = k % width;
    let mut indices = List::new(alloc);
    indices.push(row as u32 + 1)?;
    indices.push(column as u32 + 1)?;
    Ok(indices)
}

/// The indices of the element of that number, row by row.
#[tactic(auto, using(crate::proofs::Indices::one_size, crate::proofs::Indices::two_sizes, crate::proofs::Indices::no_indices, crate::proofs::Indices::one_index, crate::proofs::Indices::two_indices))]
pub fn indices_at(alloc: Global, sizes: &[u32], k: usize) -> Result<List<u32>, OutOfMemory>
    requires few { length sizes.now ≤ 2 }
    requires within { k < items_of sizes.now }
    ensures { IfOk result (λ indices. indices ≡ spec.indices_at sizes.now k) }
{
    match sizes {
        [] => Ok(List::new(alloc)),
        [size] => row_index(alloc, *size, k),
        [rows, columns] => grid_indices(alloc, *rows, *columns, k),
        _ => unreachable!(),
    }
}

// The element of that number.
fn point_at(alloc: Global, connector: Connector<'_>, k: usize) -> Result<Point, OutOfMemory>
    requires few { length connector.sizes.now ≤ 2 }
    requires within { k < items_of connector.sizes.now }
    ensures { IfOk result (λ point. point ≡ spec.point_at connector.entry.name.now connector.entry.value_type connector.entry.input connector.entry.sizes.now connector.entry.units.now k) }
{
    Ok(Point {
        name: Text::from_bytes(alloc, connector.name)?,
        indices: indices_at(alloc, connector.sizes, k)?,
        value_type: connector.value_type,
        input: connector.input,
        unit: unit_at(alloc, connector.units, k)?,
    })
}

/// All elements, row by row.
#[tactic(auto, using(crate::proofs::Indices::one_more))]
pub fn points(alloc: Global, connector: Connector<'_>) -> Result<List<Point>, OutOfMemory>
    requires { length connector.sizes.now ≤ 2 }
    ensures { IfOk result (λ all. all ≡ spec.points connector.entry.name.now connector.entry.value_type connector.entry.input connector.entry.sizes.now connector.entry.units.now) }
{
    let mut all = List::new(alloc);
    for k in 0..count_of(connector.sizes) {
        all.push(point_at(alloc, connector, k)?)?;
    }
    Ok(all)
}

/// Adds the elements of an instance.
pub fn own(
    elements: &mut List<Element>,
    instance: u32,
    points: List<Point>,
) -> Result<(), OutOfMemory>
    ensures { OnOk result (elements.new ≡ elements.old ++ map (spec.owned instance) points) }
{
    for point in points.into_vec() {
        elements.push(Element { instance, point })?;
    }
    Ok(())
}

/// Adds elements behind others.
pub fn join(points: &mut List<Point>, more: List<Point>) -> Result<(), OutOfMemory>
    ensures { OnOk result (points.new ≡ points.old ++ more) }
{
    for point in more.into_vec() {
        points.push(point)?;
    }
    Ok(())
}
