// The steps of a tick, in an order of the vertices.
ghost use Rattle.std.specs.Prelude.{◌≡◌, ◌+◌, ◌<◌, ℕ, length, IfOk, OnOk};
ghost use Rattle.cdl_search.specs.Order.{IsOrder};
ghost use Rattle.cdl_network.specs.Dependence.{is_root_input};
ghost use Rattle.cdl_connect.specs.Faults.{IsChecked};
ghost use Rattle.cdl_connect.specs.Nets.{network_of};
ghost use Rattle.cdl_schedule.specs.inner.Passed.{Passed, input_steps, inputs_below, step_of, with_step};
ghost use Rattle.cdl_schedule.specs.inner.Rows.{AreSources, Precedes, vertex_count};

use crate::rows::{cause, is_elementary};
use cdl_connect::Net;
use std::alloc::{AllocError, Global};

/// One step of a tick. Numbers are those of the net.
#[derive(Clone, Copy, Debug, PartialEq, Eq, Drop)]
pub enum Step {
    /// An input of the root takes its word from that place of the row.
    Input { place: u32, to: u32 },
    /// A sink takes the word of its source.
    Copy { from: u32, to: u32 },
    /// An elementary instance gives all its outputs.
    Emit { instance: u32 },
}

fn is_root_input(net: &Net, x: usize) -> bool
    requires checked { IsChecked net.now }
    requires inside { x < length net.now.elements }
    ensures { result ≡ is_root_input (network_of net.now) x }
{
    let element = &net.elements.items()[x];
    element.input
        && net.instances.items()[element.instance as usize]
            .parent
            .is_none()
}

fn add_input(steps: &mut Vec<Step>, net: &Net, x: usize) -> Result<(), AllocError>
    requires checked { IsChecked net.now }
    requires inside { x < length net.now.elements }
    requires inputs { steps.old.items ≡ input_steps 0 (inputs_below net.now x) }
    ensures { OnOk result (steps.new.items ≡ input_steps 0 (inputs_below net.now (x + 1))) }
{
    if is_root_input(net, x) {
        let place = steps.len() as u32;
        steps.push(Step::Input {
            place,
            to: x as u32,
        })?;
    }
    Ok(())
}

// A step for each input of the root.
fn inputs_in(alloc: Global, net: &Net) -> Result<Vec<Step>, AllocError>
    requires { IsChecked net.now }
    ensures { IfOk result (λ v. v.items ≡ input_steps 0 (inputs_below net.now (length net.now.elements))) }
{
    let mut steps = Vec::new(alloc);
    for x in 0..net.elements.items().len() {
        add_input(&mut steps, net, x)?;
    }
    Ok(steps)
}

// The step that gives an element the word of its source, where it has one.
fn copy_step(net: &Net, sources: &[usize], x: usize) -> Option<Step>
    requires checked { IsChecked net.now }
    requires inside { x < length net.now.elements }
    requires sources { AreSources net.now (length net.now.wires) sources.now }
    ensures { result ≡ step_of net.now sources.now x }
{
    match cause(net, sources, x) {
        Some(from) if from < net.elements.items().len() => Some(Step::Copy {
            from: from as u32,
            to: x as u32,
        }),
        _ => None,
    }
}

// The step of a vertex, where it has one.
fn step_of(net: &Net, sources: &[usize], v: usize) -> Option<Step>
    requires checked { IsChecked net.now }
    requires inside { v < vertex_count net.now }
    requires sources { AreSources net.now (length net.now.wires) sources.now }
    ensures { result ≡ step_of net.now sources.now v }
{
    let count = net.elements.items().len();
    if v < count {
        return copy_step(net, sources, v);
    }
    let i = v - count;
    if is_elementary(&net.instances.items()[i].body) {
        Some(Step::Emit { instance: i as u32 })
    } else {
        None
    }
}

fn add_step(steps: &mut Vec<Step>, net: &Net, sources: &[usize], v: usize) -> Result<(), AllocError>
    requires checked { IsChecked net.now }
    requires inside { v < vertex_count net.now }
    requires sources { AreSources net.now (length net.now.wires) sources.now }
    ensures { OnOk result (steps.new.items ≡ with_step steps.old.items (step_of net.now sources.now v)) }
{
    if let Some(step) = step_of(net, sources, v) {
        steps.push(step)?;
    }
    Ok(())
}

// The inputs of the root, and then the steps of the vertices in their order.
pub(crate) fn steps_in(
    alloc: Global,
    net: &Net,
    sources: &[usize],
    order: &[usize],
) -> Result<Vec<Step>, AllocError>
    requires checked { IsChecked net.now }
    requires sources { AreSources net.now (length net.now.wires) sources.now }
    requires order { IsOrder (Precedes net.now) (vertex_count net.now) order.now }
    ensures { IfOk result (λ v. Passed net.now order.now (length order.now) v.items) }
{
    let mut steps = inputs_in(alloc, net)?;
    for t in 0..order.len() {
        add_step(&mut steps, net, sources, order[t])?;
    }
    Ok(steps)
}
