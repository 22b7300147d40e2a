// The texts of the place at which a net breaks a rule.
ghost use Rattle.std.specs.Prelude.{◌≡◌, ◌<◌, IfOk, OnOk, length};
ghost use Rattle.cdl_connect.specs.Faults.{IsFault, IsFirstElement, IsFirstWire, IsUnbroken};
ghost use Rattle.cdl_connect.specs.Paths.{extended, is_root_path};
ghost use Rattle.cdl_connect.specs.WellFormed.{IsIndexed, path_of};
ghost use Rattle.cdl_schedule.specs.Plans.{IsOrderFault};
ghost use Rattle.cdl_check.specs.Broken.{Refuses, element_path};

use crate::{CheckFault, NetSpot};
use cdl_connect::{Net, NetFault};
use cdl_schedule::OrderFault;
use cdl_source::rules::{
    LOOP_WITHOUT_DELAY, MORE_THAN_ONE_SOURCE, NO_SOURCE, TWO_SOURCES_OR_SINKS, TYPES_DIFFER,
    UNITS_DIFFER,
};
use cdl_source::{OutOfMemory, Text};
use std::alloc::Global;

fn is_root_path(path: &[u8]) -> bool
    ensures { result ≡ is_root_path path.now }
{
    match path {
        [byte] => *byte == b'#',
        _ => false,
    }
}

// Adds a step to a path.
fn extend(path: &mut Text, step: &[u8]) -> Result<(), OutOfMemory>
    ensures { OnOk result (path.new ≡ extended path.old step.now) }
{
    if is_root_path(path.bytes()) {
        path.push(step)
    } else {
        path.push(b".")?;
        path.push(step)
    }
}

// The text of an instance's path.
fn instance_path(alloc: Global, net: &Net, instance: u32) -> Result<Text, OutOfMemory>
    requires { instance < length net.now.instances }
    ensures { IfOk result (λ text. text ≡ path_of net.now instance) }
{
    net.instances.items()[instance as usize].path.copy(alloc)
}

// The text of an element's path.
fn element_path(alloc: Global, net: &Net, x: u32) -> Result<Text, OutOfMemory>
    requires indexed { IsIndexed net.now }
    requires inside { x < length net.now.elements }
    ensures { IfOk result (λ text. text ≡ element_path net.now x) }
{
    let element = &net.elements.items()[x as usize];
    let mut path = instance_path(alloc, net, element.instance)?;
    extend(&mut path, element.name.bytes())?;
    Ok(path)
}

// A rule that is broken at a wire.
fn at_wire(alloc: Global, net: &Net, rule: u32, wire: u32) -> Result<CheckFault, OutOfMemory>
    requires indexed { IsIndexed net.now }
    requires first { IsFirstWire net.now wire rule }
    ensures { IfOk result (Refuses net.now) }
{
    let found = net.wires.items()[wire as usize];
    let left = element_path(alloc, net, found.left)?;
    let right = element_path(alloc, net, found.right)?;
    Ok(CheckFault::Rule {
        rule,
        spot: NetSpot::Wire { left, right },
    })
}

// A rule that is broken at an element.
fn at_element(alloc: Global, net: &Net, rule: u32, x: u32) -> Result<CheckFault, OutOfMemory>
    requires indexed { IsIndexed net.now }
    requires first { IsFirstElement net.now x rule }
    ensures { IfOk result (Refuses net.now) }
{
    let path = element_path(alloc, net, x)?;
    Ok(CheckFault::Rule {
        rule,
        spot: NetSpot::Path(path),
    })
}

// A fault of wires or elements, with the texts of its place.
pub(crate) fn wiring_fault(
    alloc: Global,
    net: &Net,
    fault: NetFault,
) -> Result<CheckFault, OutOfMemory>
    requires indexed { IsIndexed net.now }
    requires fault { IsFault net.now fault }
    ensures { IfOk result (Refuses net.now) }
{
    match fault {
        NetFault::SameSide { wire } => at_wire(alloc, net, TWO_SOURCES_OR_SINKS, wire),
        NetFault::TypesDiffer { wire } => at_wire(alloc, net, TYPES_DIFFER, wire),
        NetFault::UnitsDiffer { wire } => at_wire(alloc, net, UNITS_DIFFER, wire),
        NetFault::ManySources { element } => at_element(alloc, net, MORE_THAN_ONE_SOURCE, element),
        NetFault::NoSource { element } => at_element(alloc, net, NO_SOURCE, element),
        NetFault::OutOfMemory => Err(OutOfMemory),
    }
}

// A loop, with the path of its instance.
pub(crate) fn loop_fault(
    alloc: Global,
    net: &Net,
    fault: OrderFault,
) -> Result<CheckFault, OutOfMemory>
    requires unbroken { IsUnbroken net.now }
    requires fault { IsOrderFault net.now fault }
    ensures { IfOk result (Refuses net.now) }
{
    match fault {
        OrderFault::Loop { instance } => {
            let path = instance_path(alloc, net, instance)?;
            Ok(CheckFault::Rule {
                rule: LOOP_WITHOUT_DELAY,
                spot: NetSpot::Path(path),
            })
        }
        OrderFault::OutOfMemory => Err(OutOfMemory),
    }
}
