// Rules on the classes of items, C12 and C13.
ghost use Rattle.std.specs.Prelude.{◌≡◌, ◌<◌, IfOk, length, None};
ghost use Rattle.std.specs.List.{list_all};
ghost use Rattle.cdl_scopes.specs.Classes.{declared};
ghost use Rattle.cdl_classes.specs.Places.{least};
ghost use Rattle.cdl_classes.specs.Rules as spec;
ghost use Rattle.cdl_classes.specs.inner.Kept.{AreItemClasses, classes_of, test_of};

use crate::declarations::Declarations;
use crate::found::{ClassId, Found};
use crate::places::sooner;
use cdl_scopes::{ClassSort, sort_of};
use cdl_source::{OutOfMemory, Place};
use cdl_tree::{Dim, Item, Prefix};
use std::alloc::Global;

// The first byte of an item's class name.
fn class_place(file: u32, item: &Item) -> Place
    ensures { result ≡ spec.class_place file item.now }
{
    let byte = match item.class.parts.items() {
        [first, ..] => first.span.start,
        [] => 0,
    };
    Place { file, byte }
}

// Whether the declared class is of this sort.
fn is_of(table: &Declarations, class: ClassId, sort: ClassSort) -> bool
    requires { class.index < length (declared table.now) }
    ensures { result ≡ spec.class_sort (spec.is_sort sort) (declared table.now) class.index }
{
    sort_of(table.tree(class)) == sort
}

fn is_value_type(table: &Declarations, found: Option<Found>) -> bool
    requires { spec.IsKnown (declared table.now) found }
    ensures { result ≡ spec.is_value_type (declared table.now) found }
{
    match found {
        Some(Found::Class(class)) => is_of(table, class, ClassSort::Enumeration),
        Some(Found::Scalar(_)) => true,
        _ => false,
    }
}

fn is_component_type(table: &Declarations, found: Option<Found>) -> bool
    requires { spec.IsKnown (declared table.now) found }
    ensures { result ≡ spec.is_component_type (declared table.now) found }
{
    match found {
        Some(Found::Class(class)) => is_of(table, class, ClassSort::Block),
        Some(Found::Kind(_)) | Some(Found::Connector { .. }) => true,
        _ => false,
    }
}

// Whether every dimension is a size.
fn all_sized(dims: &[Dim]) -> bool
    ensures { result ≡ list_all spec.is_sized dims.now }
{
    for dim in dims {
        match dim {
            Dim::Any => return false,
            Dim::Size(_) => {}
        }
    }
    true
}

// Whether the item's class is of its sort, and its form is supported.
fn is_supported(table: &Declarations, item: &Item, found: Option<Found>) -> bool
    requires { spec.IsKnown (declared table.now) found }
    ensures { result ≡ spec.is_supported (declared table.now) item.now.prefix item.now found }
{
    match item.prefix {
        Prefix::Plain => is_component_type(table, found)
            && item.value.is_none()
            && all_sized(item.dims.items()),
        Prefix::Parameter => is_value_type(table, found) && item.condition.is_none(),
        Prefix::Constant => is_value_type(table, found) && item.condition.is_none(),
    }
}

/// What is asked of each item: that its class is found, or that it is supported.
#[derive(Clone, Copy)]
pub enum Asked {
    Found,
    Supported,
}

// Whether what is asked does not hold of an item of this class, whose class name means this.
fn is_broken(
    table: &Declarations,
    asked: Asked,
    class: ClassId,
    item: &Item,
    found: Option<Found>,
) -> bool
    requires { found ≡ spec.class_of (declared table.now) class.index item.now }
    ensures { result ≡ test_of asked (declared table.now) class.index item.now }
{
    match asked {
        Asked::Found => found.is_none(),
        Asked::Supported => !(is_supported(table, item, found) && item.dims.items().len() <= 2),
    }
}

// The first place so far, and this one where what is asked does not hold.
fn with_item(
    table: &Declarations,
    asked: Asked,
    class: ClassId,
    file: u32,
    item: &Item,
    found: Option<Found>,
    first: Option<Place>,
) -> Option<Place>
    requires { found ≡ spec.class_of (declared table.now) class.index item.now }
    ensures { result ≡ least first (spec.if_broken (test_of asked (declared table.now) class.index item.now) (spec.class_place file item.now)) }
{
    if is_broken(table, asked, class, item, found) {
        sooner(first, class_place(file, item))
    } else {
        first
    }
}

// The same over the items of a class.
fn with_items(
    table: &Declarations,
    asked: Asked,
    class: ClassId,
    file: u32,
    items: &[Item],
    row: &[Option<Found>],
    first: Option<Place>,
) -> Option<Place>
    requires { row.now ≡ classes_of (declared table.now) class.index items.now }
    ensures { result ≡ least first (spec.places_in (test_of asked (declared table.now)) class.index file items.now) }
{
    let mut first = first;
    for (i, item) in items.iter().enumerate() {
        first = with_item(table, asked, class, file, item, row[i], first);
    }
    first
}

// The first place at which what is asked does not hold.
pub fn first_item(table: &Declarations, asked: Asked, rows: &[Vec<Option<Found>>]) -> Option<Place>
    requires { AreItemClasses (declared table.now) rows.now }
    ensures { result ≡ least None (spec.places_from (test_of asked (declared table.now)) 0 (declared table.now)) }
{
    let mut first = None;
    for index in 0..table.len() as u32 {
        let class = ClassId { index };
        first = with_items(
            table,
            asked,
            class,
            table.file(class),
            table.tree(class).items(),
            rows[index as usize].as_slice(),
            first,
        );
    }
    first
}

// What the class names of the items of a class mean.
fn item_classes_of(
    alloc: Global,
    table: &Declarations,
    class: ClassId,
    items: &[Item],
) -> Result<Vec<Option<Found>>, OutOfMemory>
    requires { class.index < length (declared table.now) }
    ensures { IfOk result (λ row. row.items ≡ classes_of (declared table.now) class.index items.now) }
{
    let mut row = Vec::new(alloc);
    for item in items {
        row.push(table.resolve(class, &item.class))?;
    }
    Ok(row)
}

// What the class names of the items mean, class by class.
pub fn item_classes(
    alloc: Global,
    table: &Declarations,
) -> Result<Vec<Vec<Option<Found>>>, OutOfMemory>
    ensures { IfOk result (λ rows. AreItemClasses (declared table.now) rows.items) }
{
    let mut rows = Vec::new(alloc);
    for index in 0..table.len() as u32 {
        let class = ClassId { index };
        let items = table.tree(class).items();
        rows.push(item_classes_of(alloc, table, class, items)?)?;
    }
    Ok(rows)
}
