// The inputs and outputs of a net's root, and its blocks.
ghost use Rattle.std.specs.Prelude.{◌≡◌, ◌<◌, ◌++◌, ◌∷◌, [], IfOk, IsTrue, OnOk, cond, length, map, not, true};
ghost use Rattle.cdl_network.specs.Dependence.{is_root_input, root_inputs};
ghost use Rattle.cdl_network.specs.Lists.{has_some};
ghost use Rattle.cdl_connect.specs.Faults.{IsChecked};
ghost use Rattle.cdl_connect.specs.Nets.{is_block, network_of};
ghost use Rattle.cdl_pass.specs.Tick.{RowOf};
ghost use Rattle.cdl_run.specs.Words.{elementary_below, is_root_output, root_outputs};
ghost use Rattle.cdl_values.specs.History.{IsValue};

use cdl_connect::{Body, Net};
use cdl_source::OutOfMemory;
use cdl_values::ValueType;
use std::alloc::Global;

fn is_at_root(net: &Net, x: usize) -> bool
    requires checked { IsChecked net.now }
    requires inside { x < length net.now.elements }
    ensures { result ≡ not (has_some ((network_of net.now).parent ((network_of net.now).owner x))) }
{
    let owner = net.elements.items()[x].instance as usize;
    net.instances.items()[owner].parent.is_none()
}

fn add_row(rows: &mut Vec<ValueType>, net: &Net, x: usize) -> Result<(), OutOfMemory>
    requires checked { IsChecked net.now }
    requires inside { x < length net.now.elements }
    ensures { OnOk result (rows.new.items ≡ cond (is_root_input (network_of net.now) x) (rows.old.items ++ (network_of net.now).value_type x ∷ []) rows.old.items) }
{
    let element = &net.elements.items()[x];
    if element.input && is_at_root(net, x) {
        rows.push(element.value_type)?;
    }
    Ok(())
}

/// The type of each input of the root.
pub fn rows_in(alloc: Global, net: &Net) -> Result<Vec<ValueType>, OutOfMemory>
    requires { IsChecked net.now }
    ensures { IfOk result (λ v. v.items ≡ map (network_of net.now).value_type (root_inputs (network_of net.now))) }
{
    let mut rows = Vec::new(alloc);
    for x in 0..net.elements.items().len() {
        add_row(&mut rows, net, x)?;
    }
    Ok(rows)
}

fn add_output(outputs: &mut Vec<u32>, net: &Net, x: usize) -> Result<(), OutOfMemory>
    requires checked { IsChecked net.now }
    requires inside { x < length net.now.elements }
    ensures { OnOk result (outputs.new.items ≡ cond (is_root_output net.now x) (outputs.old.items ++ x ∷ []) outputs.old.items) }
{
    if !net.elements.items()[x].input && is_at_root(net, x) {
        outputs.push(x as u32)?;
    }
    Ok(())
}

/// The outputs of the root.
pub fn outputs_in(alloc: Global, net: &Net) -> Result<Vec<u32>, OutOfMemory>
    requires { IsChecked net.now }
    ensures { IfOk result (λ v. v.items ≡ root_outputs net.now) }
{
    let mut outputs = Vec::new(alloc);
    for x in 0..net.elements.items().len() {
        add_output(&mut outputs, net, x)?;
    }
    Ok(outputs)
}

fn is_block(body: &Body) -> bool
    ensures { result ≡ is_block body.now }
{
    matches!(body, Body::Elementary { .. })
}

fn add_block(blocks: &mut Vec<u32>, net: &Net, i: usize) -> Result<(), OutOfMemory>
    requires checked { IsChecked net.now }
    requires inside { i < length net.now.instances }
    ensures { OnOk result (blocks.new.items ≡ cond ((network_of net.now).elementary i) (blocks.old.items ++ i ∷ []) blocks.old.items) }
{
    if is_block(&net.instances.items()[i].body) {
        blocks.push(i as u32)?;
    }
    Ok(())
}

/// The elementary instances.
pub fn blocks_in(alloc: Global, net: &Net) -> Result<Vec<u32>, OutOfMemory>
    requires { IsChecked net.now }
    ensures { IfOk result (λ v. v.items ≡ elementary_below net.now (length net.now.instances)) }
{
    let mut blocks = Vec::new(alloc);
    for i in 0..net.instances.items().len() {
        add_block(&mut blocks, net, i)?;
    }
    Ok(blocks)
}

fn is_value(value_type: ValueType, w: i64) -> bool
    ensures { IsTrue result → IsValue value_type w }
{
    match value_type {
        ValueType::Boolean => w == 0 || w == 1,
        ValueType::Integer => w.unsigned_abs() <= 2_147_483_647,
        ValueType::Real => w.unsigned_abs() <= 10_000_000_000_000_000,
        _ => false,
    }
}

/// Whether there is a word of its type for each input of the root. It is never true where one lacks.
pub fn is_row(rows: &[ValueType], row: &[i64]) -> bool
    ensures { result ≡ true → RowOf rows.now row.now }
{
    if row.len() != rows.len() {
        return false;
    }
    for i in 0..rows.len() {
        if !is_value(rows[i], row[i]) {
            return false;
        }
    }
    true
}
