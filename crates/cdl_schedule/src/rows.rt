// What determines what in a net, in rows: those of the elements, and behind them those of the instances.
ghost use Rattle.std.specs.Prelude.{◌≡◌, ◌+◌, ◌-◌, ◌<◌, ◌≤◌, ◌&&◌, ℕ, length, IfOk, OnOk, get_or};
ghost use Rattle.cdl_kinds.specs.Table.{row};
ghost use Rattle.cdl_connect.specs.Faults.{IsChecked};
ghost use Rattle.cdl_connect.specs.Nets.{is_block, network_of};
ghost use Rattle.cdl_schedule.specs.inner.Rows.{Precedes, AreRows, AreSources, vertex_count, cause_of, is_direct_body, added};

use cdl_connect::{Body, Net, sink_end, source_end};
use cdl_kinds::Kind;
use std::alloc::{AllocError, Global};

// The row of the vertex v stands in `edges` from `first[v]` to `first[v + 1]`.
#[derive(Debug, Drop)]
pub struct Rows {
    pub first: Vec<usize>,
    pub edges: Vec<usize>,
}

fn zeros(alloc: Global, n: usize) -> Result<Vec<usize>, AllocError>
    ensures size { IfOk result (λ v. length v.items ≡ n) }
    ensures zero { IfOk result (λ v. (x : ℕ) → get_or v.items x 0 ≡ 0) }
{
    let mut v = Vec::with_capacity(alloc, n)?;
    for _ in 0..n {
        v.push(0)?;
    }
    Ok(v)
}

// The source of each sink.
pub(crate) fn sources(alloc: Global, net: &Net) -> Result<Vec<usize>, AllocError>
    requires { IsChecked net.now }
    ensures { IfOk result (λ v. AreSources net.now (length net.now.wires) v.items) }
{
    let mut sources = zeros(alloc, net.elements.items().len())?;
    let wires = net.wires.items();
    for k in 0..wires.len() {
        let w = &wires[k];
        let sink = sink_end(net, w) as usize;
        let source = source_end(net, w) as usize;
        sources[sink] = source;
    }
    Ok(sources)
}

/// Whether the outputs of a block of the kind rest on its inputs at the same tick. So do those of all kinds but the two delays.
pub fn is_direct_kind(kind: Kind) -> bool
    ensures { result ≡ (row kind).direct }
{
    !matches!(kind, Kind::LogicalPre | Kind::DiscreteUnitDelay)
}

fn is_direct(body: &Body) -> bool
    ensures { result ≡ is_direct_body body.now }
{
    match body {
        Body::Composite => false,
        Body::Elementary { kind, .. } => is_direct_kind(*kind),
    }
}

pub(crate) fn is_elementary(body: &Body) -> bool
    ensures { result ≡ is_block body.now }
{
    match body {
        Body::Composite => false,
        Body::Elementary { .. } => true,
    }
}

// The vertex from which an element has its value.
pub(crate) fn cause(net: &Net, sources: &[usize], x: usize) -> Option<usize>
    requires checked { IsChecked net.now }
    requires inside { x < length net.now.elements }
    requires size { length sources.now ≡ length net.now.elements }
    ensures { result ≡ cause_of net.now sources.now x }
{
    let element = &net.elements.items()[x];
    let owner = element.instance as usize;
    let instance = &net.instances.items()[owner];
    if element.input {
        if instance.parent.is_some() {
            Some(sources[x])
        } else {
            None
        }
    } else if is_elementary(&instance.body) {
        Some(net.elements.items().len() + owner)
    } else {
        Some(sources[x])
    }
}

// Ends the last row.
fn end_row(rows: &mut Rows, _net: &Net, v: usize) -> Result<(), AllocError>
    requires checked { IsChecked _net.now }
    requires rows { AreRows (Precedes _net.now) (vertex_count _net.now) v (vertex_count _net.now) rows.old.first.items rows.old.edges.items }
    ensures { OnOk result (AreRows (Precedes _net.now) (vertex_count _net.now) (v + 1) 0 rows.new.first.items rows.new.edges.items) }
{
    rows.first.push(rows.edges.len())?;
    Ok(())
}

// Adds the row of an element.
fn add_element(rows: &mut Rows, net: &Net, sources: &[usize], x: usize) -> Result<(), AllocError>
    requires checked { IsChecked net.now }
    requires inside { x < length net.now.elements }
    requires sources { AreSources net.now (length net.now.wires) sources.now }
    requires rows { AreRows (Precedes net.now) (vertex_count net.now) x 0 rows.old.first.items rows.old.edges.items }
    ensures { OnOk result (AreRows (Precedes net.now) (vertex_count net.now) (x + 1) 0 rows.new.first.items rows.new.edges.items) }
{
    match cause(net, sources, x) {
        Some(u) => {
            rows.edges.push(u)?;
            end_row(rows, net, x)
        }
        None => end_row(rows, net, x),
    }
}

fn add_if(edges: &mut Vec<usize>, x: usize, wanted: bool) -> Result<(), AllocError>
    ensures { OnOk result (edges.new.items ≡ added wanted edges.old.items x) }
{
    if wanted {
        edges.push(x)?;
    }
    Ok(())
}

fn is_taken(net: &Net, direct: bool, x: usize) -> bool
    requires { x < length net.now.elements }
    ensures { result ≡ (direct && (network_of net.now).input x) }
{
    direct && net.elements.items()[x].input
}

// Adds the row of an instance.
fn add_instance(rows: &mut Rows, net: &Net, i: usize) -> Result<(), AllocError>
    requires checked { IsChecked net.now }
    requires inside { i < length net.now.instances }
    requires rows { AreRows (Precedes net.now) (vertex_count net.now) (length net.now.elements + i) 0 rows.old.first.items rows.old.edges.items }
    ensures { OnOk result (AreRows (Precedes net.now) (vertex_count net.now) (length net.now.elements + (i + 1)) 0 rows.new.first.items rows.new.edges.items) }
{
    let instance = &net.instances.items()[i];
    let direct = is_direct(&instance.body);
    let start = instance.first as usize;
    let end = start + instance.count as usize;
    for x in start..end {
        add_if(&mut rows.edges, x, is_taken(net, direct, x))?;
    }
    end_row(rows, net, net.elements.items().len() + i)
}

// The rows of a net.
pub(crate) fn rows_of(alloc: Global, net: &Net, sources: &[usize]) -> Result<Rows, AllocError>
    requires checked { IsChecked net.now }
    requires sources { AreSources net.now (length net.now.wires) sources.now }
    ensures { IfOk result (λ r. AreRows (Precedes net.now) (vertex_count net.now) (vertex_count net.now) 0 r.first.items r.edges.items) }
{
    let mut rows = Rows {
        first: zeros(alloc, 1)?,
        edges: Vec::new(alloc),
    };
    for x in 0..net.elements.items().len() {
        add_element(&mut rows, net, sources, x)?;
    }
    for i in 0..net.instances.items().len() {
        add_instance(&mut rows, net, i)?;
    }
    Ok(rows)
}
