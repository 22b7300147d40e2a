// What the items of a block are worth to the walk.
ghost use Rattle.std.specs.Prelude.{◌≡◌, ◌≤◌, length, IfOk};
ghost use Rattle.cdl_array.specs.Outcomes.{Answers};
ghost use Rattle.cdl_walk.specs.Places.{here};
ghost use Rattle.cdl_walk.specs.Stations as spec;

use crate::elements::{Connector, points};
use crate::place::Place;
use crate::walked::Point;
use cdl_array::EvalFault;
use cdl_classes::ClassId;
use cdl_items::{
    Own, Part, Target, broken_arguments, modifies_final, unit_is_final, value_is_final,
};
use cdl_params::Elaborator;
use cdl_source::List;
use cdl_source::rules::{CONTAINS_ITSELF, FINAL_MODIFIED};
use cdl_tree::Item;
use cdl_values::{Array, Value, ValueType};
use std::alloc::Global;

/// The value of a parameter or constant, or the rule that its arguments, C24 or its value break first.
pub fn value_of(e: &mut Elaborator<'_>, place: &Place<'_>, item: &Item) -> Result<Array, EvalFault>
    ensures kept { e.new ≡ e.old }
    ensures answers { Answers (spec.value_station e.old (here place.now) item.now) result }
{
    if let Some(rule) = broken_arguments(e.table(), Target::Attributes, item.args.items()) {
        return Err(EvalFault::Rule(rule));
    }
    let own = Own::Value(item.name.text.bytes());
    if modifies_final(place.components.as_slice(), own, value_is_final(item)) {
        return Err(EvalFault::Rule(FINAL_MODIFIED));
    }
    e.value(place.path.steps.items(), item.name.text.bytes())
}

/// The values that are the units of a connector or of the ports of a name; none where its type isn't Real.
pub fn units_of(
    alloc: Global,
    e: &mut Elaborator<'_>,
    place: &Place<'_>,
    name: &[u8],
    value_type: ValueType,
    own_final: bool,
) -> Result<List<Value>, EvalFault>
    ensures kept { e.new ≡ e.old }
    ensures answers { Answers (spec.units e.old (here place.now) name.now value_type own_final) result }
{
    match value_type {
        ValueType::Real => {}
        _ => return Ok(List::new(alloc)),
    }
    if modifies_final(place.components.as_slice(), Own::Unit(name), own_final) {
        return Err(EvalFault::Rule(FINAL_MODIFIED));
    }
    match e.unit(place.path.steps.items(), name) {
        Ok(array) => Ok(array.items),
        Err(fault) => Err(fault),
    }
}

/// The elements of a connector, none where it isn't there, or the rule that its condition, its sizes, its arguments, C24 or its unit
/// break first.
pub fn connector_of(
    alloc: Global,
    e: &mut Elaborator<'_>,
    place: &Place<'_>,
    item: &Item,
    value_type: ValueType,
    input: bool,
) -> Result<List<Point>, EvalFault>
    ensures kept { e.new ≡ e.old }
    ensures answers { Answers (spec.connector_station e.old (here place.now) item.now value_type input) result }
{
    let there = match e.present(place.path.steps.items(), item) {
        Ok(there) => there,
        Err(fault) => return Err(fault),
    };
    let sizes = match e.dims(place.path.steps.items(), item) {
        Ok(sizes) => sizes,
        Err(fault) => return Err(fault),
    };
    if let Some(rule) = broken_arguments(e.table(), Target::Attributes, item.args.items()) {
        return Err(EvalFault::Rule(rule));
    }
    if !there {
        return Ok(List::new(alloc));
    }
    let name = item.name.text.bytes();
    let units = match units_of(alloc, e, place, name, value_type, unit_is_final(item)) {
        Ok(units) => units,
        Err(fault) => return Err(fault),
    };
    let connector = Connector {
        name,
        value_type,
        input,
        sizes: sizes.items(),
        units: units.items(),
    };
    match points(alloc, connector) {
        Ok(points) => Ok(points),
        Err(_) => Err(EvalFault::OutOfMemory),
    }
}

// Whether the declared block is among these.
fn is_among(class: ClassId, classes: &[ClassId]) -> bool
    ensures { result ≡ spec.is_among class classes.now }
{
    for other in classes {
        if other.index == class.index {
            return true;
        }
    }
    false
}

// Whether it is one of these declared blocks.
fn is_one_of(part: Part, classes: &[ClassId]) -> bool
    ensures { result ≡ spec.is_one_of part classes.now }
{
    match part {
        Part::Block(class) => is_among(class, classes),
        Part::Kind(_) => false,
    }
}

// No element.
fn no_sizes(alloc: Global) -> Result<List<u32>, EvalFault>
    ensures answers { Answers spec.no_element result }
    ensures few { IfOk result (λ sizes. length sizes ≤ 2) }
{
    let mut sizes = List::new(alloc);
    sizes.push(0)?;
    Ok(sizes)
}

/// The sizes of a component, one of 0 where it isn't there, or the rule that its condition, its sizes, C21 or its arguments break first.
pub fn component_of(
    alloc: Global,
    e: &mut Elaborator<'_>,
    place: &Place<'_>,
    item: &Item,
    part: Part,
) -> Result<List<u32>, EvalFault>
    ensures kept { e.new ≡ e.old }
    ensures answers { Answers (spec.component_station e.old (here place.now) item.now part) result }
    ensures few { IfOk result (λ sizes. length sizes ≤ 2) }
{
    let there = match e.present(place.path.steps.items(), item) {
        Ok(there) => there,
        Err(fault) => return Err(fault),
    };
    if !there {
        return no_sizes(alloc);
    }
    let sizes = match e.dims(place.path.steps.items(), item) {
        Ok(sizes) => sizes,
        Err(fault) => return Err(fault),
    };
    if is_one_of(part, place.classes.as_slice()) {
        return Err(EvalFault::Rule(CONTAINS_ITSELF));
    }
    if let Some(rule) = broken_arguments(e.table(), Target::Part(part), item.args.items()) {
        return Err(EvalFault::Rule(rule));
    }
    Ok(sizes)
}
