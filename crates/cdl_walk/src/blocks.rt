// Instances of kinds: their parameters, their conditions and the units of their ports.
ghost use Rattle.std.specs.Prelude.{◌≡◌, ◌≤◌, Ok, map, length};
ghost use Rattle.cdl_kinds.specs.Groups.{group_row};
ghost use Rattle.cdl_kinds.specs.Parameters.{parameter_row};
ghost use Rattle.cdl_walk.specs.Elements.{points as points_of, port_sizes};
ghost use Rattle.cdl_walk.specs.Faults.{Tells};
ghost use Rattle.cdl_walk.specs.Places.{here};
ghost use Rattle.cdl_walk.specs.Stations as spec;

use crate::elements::{Connector, join, points};
use crate::paths::{broken_at, broken_in, fault_in};
use crate::place::Place;
use crate::rows::fit;
use crate::stations::units_of;
use crate::walked::{KindInstance, Point, WalkFault};
use cdl_items::{Own, modifies_final};
use cdl_kinds::{Group, Kind, Parameter, Params, check, input_groups, output_groups, parameters};
use cdl_params::Elaborator;
use cdl_source::List;
use cdl_source::rules::{FINAL_MODIFIED, PARAMETER_OUT_OF_CONDITION};
use cdl_values::{Array, Value};
use std::alloc::Global;

// The value of a parameter at its own place, or C24, or the rule that its value breaks.
fn parameter_of(
    alloc: Global,
    e: &mut Elaborator<'_>,
    place: &Place<'_>,
    name: &[u8],
) -> Result<Array, WalkFault>
    ensures kept { e.new ≡ e.old }
    ensures tells { Tells (spec.parameter_station e.old (here place.now) name.now) result }
{
    if modifies_final(place.components.as_slice(), Own::Value(name), false) {
        return Err(broken_in(alloc, &place.path, name, FINAL_MODIFIED));
    }
    match e.value(place.path.steps.items(), name) {
        Ok(value) => Ok(value),
        Err(fault) => Err(fault_in(alloc, &place.path, name, fault)),
    }
}

// The values of these parameters.
fn parameters_of(
    alloc: Global,
    e: &mut Elaborator<'_>,
    place: &Place<'_>,
    rows: &[Parameter],
) -> Result<List<Array>, WalkFault>
    ensures kept { e.new ≡ e.old }
    ensures tells { Tells (spec.parameter_stations e.old (here place.now) (map parameter_row rows.now)) result }
{
    let mut values = List::new(alloc);
    for i in 0..rows.len() {
        let row = rows[i];
        match parameter_of(alloc, e, place, row.name.as_bytes()) {
            Ok(value) => values.push(value)?,
            Err(fault) => return Err(fault),
        }
    }
    Ok(values)
}

// The values as parameters of the kind, or C32.
#[tactic(auto, using(crate::proofs::Fitting::fit_is))]
fn checked(
    alloc: Global,
    place: &Place<'_>,
    kind: Kind,
    values: List<Array>,
) -> Result<Params, WalkFault>
    ensures { Tells (spec.conditions_station (here place.now) kind values) result }
{
    if !fit(kind, values.items()) {
        return Err(broken_at(alloc, &place.path, PARAMETER_OUT_OF_CONDITION));
    }
    match check(kind, values) {
        Ok(params) => Ok(params),
        Err(_) => Err(broken_at(alloc, &place.path, PARAMETER_OUT_OF_CONDITION)),
    }
}

// The units of the ports of a name, at their place.
fn port_units_of(
    alloc: Global,
    e: &mut Elaborator<'_>,
    place: &Place<'_>,
    group: &Group,
) -> Result<List<Value>, WalkFault>
    ensures kept { e.new ≡ e.old }
    ensures tells { Tells (spec.port_station e.old (here place.now) (group_row group.now)) result }
{
    let name = group.name.as_bytes();
    match units_of(alloc, e, place, name, group.value_type, false) {
        Ok(units) => Ok(units),
        Err(fault) => Err(fault_in(alloc, &place.path, name, fault)),
    }
}

// The ports of a name with these sizes.
fn sized_points(
    alloc: Global,
    group: &Group,
    sizes: &[u32],
    input: bool,
    units: &[Value],
) -> Result<List<Point>, WalkFault>
    requires { length sizes.now ≤ 2 }
    ensures { Tells (Ok (points_of group.now.name.now group.now.value_type input sizes.now units.now)) result }
{
    let connector = Connector {
        name: group.name.as_bytes(),
        value_type: group.value_type,
        input,
        sizes,
        units,
    };
    match points(alloc, connector) {
        Ok(points) => Ok(points),
        Err(_) => Err(WalkFault::OutOfMemory),
    }
}

// The ports of a name, where an array has n.
fn port_points(
    alloc: Global,
    group: &Group,
    n: u32,
    input: bool,
    units: &[Value],
) -> Result<List<Point>, WalkFault>
    ensures { Tells (Ok (points_of group.now.name.now group.now.value_type input (port_sizes n (group_row group.now)) units.now)) result }
{
    if group.many {
        sized_points(alloc, group, &[n], input, units)
    } else {
        sized_points(alloc, group, &[], input, units)
    }
}

// The ports of these names.
fn ports_of(
    alloc: Global,
    e: &mut Elaborator<'_>,
    place: &Place<'_>,
    n: u32,
    input: bool,
    groups: &[Group],
) -> Result<List<Point>, WalkFault>
    ensures kept { e.new ≡ e.old }
    ensures tells { Tells (spec.port_stations e.old (here place.now) n input (map group_row groups.now)) result }
{
    let mut all = List::new(alloc);
    for i in 0..groups.len() {
        let group = groups[i];
        let units = match port_units_of(alloc, e, place, &group) {
            Ok(units) => units,
            Err(fault) => return Err(fault),
        };
        match port_points(alloc, &group, n, input, units.items()) {
            Ok(more) => join(&mut all, more)?,
            Err(fault) => return Err(fault),
        }
    }
    Ok(all)
}

// All ports of a kind, first the inputs.
fn all_ports(
    alloc: Global,
    e: &mut Elaborator<'_>,
    place: &Place<'_>,
    kind: Kind,
    params: &Params,
) -> Result<List<Point>, WalkFault>
    ensures kept { e.new ≡ e.old }
    ensures tells { Tells (spec.ports e.old (here place.now) kind params.now) result }
{
    let n = params.size() as u32;
    let mut ports = match ports_of(alloc, e, place, n, true, input_groups(kind)) {
        Ok(ports) => ports,
        Err(fault) => return Err(fault),
    };
    match ports_of(alloc, e, place, n, false, output_groups(kind)) {
        Ok(outputs) => match join(&mut ports, outputs) {
            Ok(()) => Ok(ports),
            Err(_) => Err(WalkFault::OutOfMemory),
        },
        Err(fault) => Err(fault),
    }
}

/// What the instance of a kind here is, or the rule that is broken first: by its parameters in the order of the table, C24 and then the
/// value, at their own places; C32, at its place; by the units of its Real ports, C24 and then the unit, at their places.
pub fn kind_of(
    alloc: Global,
    e: &mut Elaborator<'_>,
    place: &Place<'_>,
    kind: Kind,
) -> Result<KindInstance, WalkFault>
    ensures kept { e.new ≡ e.old }
    ensures tells { Tells (spec.block_station e.old (here place.now) kind) result }
{
    let values = match parameters_of(alloc, e, place, parameters(kind)) {
        Ok(values) => values,
        Err(fault) => return Err(fault),
    };
    let params = match checked(alloc, place, kind, values) {
        Ok(params) => params,
        Err(fault) => return Err(fault),
    };
    match all_ports(alloc, e, place, kind, &params) {
        Ok(points) => Ok(KindInstance { params, points }),
        Err(fault) => Err(fault),
    }
}
