// The net of what the walk found, and of wires.
ghost use Rattle.std.specs.Prelude.{◌≡◌, ◌+◌, ◌-◌, ◌≤◌, map, length, IfOk};
ghost use Rattle.std.specs.List.Sorted.{IsNonDecreasingBy};
ghost use Rattle.cdl_model.specs.NetOf as net;
ghost use Rattle.cdl_expand.specs.inner.Numbered.{IsBoundary, IsNumbered, at_numbers, numbered, with_window};

use cdl_connect::{Body, Net, NetElement, NetInstance, RawWire};
use cdl_paths::Step;
use cdl_source::{List, MOST_ELEMENTS, OutOfMemory};
use cdl_walk::{Content, Element, Instance, Point, Walked, path_text, step_text};
use std::alloc::Global;

fn body_of(content: Content) -> Body
    ensures { result ≡ net.body_of content }
{
    match content {
        Content::Block(_) => Body::Composite,
        Content::Elementary { kind, params } => Body::Elementary { kind, params },
    }
}

// The place behind the elements of the instance of this number, which begin at the first place.
fn end_of(elements: &[Element], first: usize, number: usize) -> usize
    requires sorted { IsNonDecreasingBy (λ e. e.instance) elements.now }
    requires first { IsBoundary elements.now number first }
    ensures end { IsBoundary elements.now (number + 1) result }
    ensures behind { first ≤ result }
{
    let mut end = first;
    while end < elements.len() && elements[end].instance as usize == number {
        end += 1;
    }
    end
}

// An instance, whose elements stand from the first place up to the end.
fn net_instance(
    alloc: Global,
    instance: Instance,
    first: usize,
    end: usize,
) -> Result<NetInstance, OutOfMemory>
    requires window { first ≤ end }
    requires few { end ≤ MOST_ELEMENTS }
    ensures { IfOk result (λ i. i ≡ with_window instance first (end - first)) }
{
    Ok(NetInstance {
        path: path_text(alloc, instance.path.steps.items())?,
        parent: instance.parent,
        body: body_of(instance.content),
        first: first as u32,
        count: (end - first) as u32,
    })
}

// All instances, where the elements stand by instance.
fn net_instances(
    alloc: Global,
    instances: List<Instance>,
    elements: &[Element],
) -> Result<List<NetInstance>, OutOfMemory>
    requires sorted { IsNonDecreasingBy (λ e. e.instance) elements.now }
    requires few { length elements.now ≤ MOST_ELEMENTS }
    ensures { IfOk result (λ all. all ≡ at_numbers elements.now 0 instances) }
{
    let mut all = List::new(alloc);
    let mut first = 0;
    for instance in instances.into_vec() {
        let end = end_of(elements, first, all.items().len());
        all.push(net_instance(alloc, instance, first, end)?)?;
        first = end;
    }
    Ok(all)
}

fn net_element(alloc: Global, element: Element) -> Result<NetElement, OutOfMemory>
    ensures { IfOk result (λ e. e ≡ numbered element) }
{
    let Element { instance, point } = element;
    let Point {
        name,
        indices,
        value_type,
        input,
        unit,
    } = point;
    Ok(NetElement {
        instance,
        name: step_text(alloc, &Step { name, indices })?,
        value_type,
        unit,
        input,
    })
}

fn net_elements(alloc: Global, elements: List<Element>) -> Result<List<NetElement>, OutOfMemory>
    ensures { IfOk result (λ all. all ≡ map numbered elements) }
{
    let mut all = List::new(alloc);
    for element in elements.into_vec() {
        all.push(net_element(alloc, element)?)?;
    }
    Ok(all)
}

/// The net of what the walk found, with these wires between numbers. The elements have to stand by instance.
pub fn numbered_net(alloc: Global, walked: Walked, wires: List<RawWire>) -> Result<Net, OutOfMemory>
    requires sorted { IsNonDecreasingBy (λ e. e.instance) walked.elements }
    requires few { length walked.elements ≤ MOST_ELEMENTS }
    ensures { IfOk result (IsNumbered walked wires) }
{
    let elements = walked.elements;
    let instances = net_instances(alloc, walked.instances, elements.items())?;
    let elements = net_elements(alloc, elements)?;
    Ok(Net {
        instances,
        elements,
        wires,
    })
}
