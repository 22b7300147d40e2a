// The graph of a net.
ghost use Rattle.std.specs.Prelude.{◌≡◌, ◌<◌, ◌+◌, ◌≤◌, ◌++◌, All, IfOk, OnOk, length, map};
ghost use Rattle.cdl_connect.specs.WellFormed.{AreNumbers, IsIndexed, IsWellFormed};
ghost use Rattle.cxf_graph.specs.Document.{IsWritable};
ghost use Rattle.cxf_graph.specs.Written.{HasEnds, body_with, connection, connector_node, graph_of, nodes_with, own, own_id};

use crate::given::given_all;
use crate::graph::{Graph, GraphNode, NodeBody, Pair};
use crate::groups::{all_parts, all_wires};
use crate::ids::{element_id, extended};
use cdl_connect::{Body, CheckedNet, Net, NetElement, NetInstance, RawWire, sink_end, source_end};
use cdl_kinds::kind_name;
use cdl_source::{List, OutOfMemory, Text};
use std::alloc::Global;

// The connector elements of an instance.
fn own<'a>(net: &'a Net, instance: &NetInstance) -> &'a [NetElement]
    requires { instance.now.first + instance.now.count ≤ length net.now.elements }
    ensures { result.now ≡ own net.now instance.now }
{
    let first = instance.first as usize;
    &net.elements.items()[first..][..instance.count as usize]
}

// The `@id`s of an instance's connector elements.
fn connectors(
    alloc: Global,
    instance: &NetInstance,
    elements: &[NetElement],
) -> Result<List<Text>, OutOfMemory>
    ensures { IfOk result (λ ids. ids ≡ map (own_id instance.now) elements.now) }
{
    let mut ids = List::new(alloc);
    for element in elements {
        ids.push(extended(alloc, instance.path.bytes(), element.name.bytes())?)?;
    }
    Ok(ids)
}

// The paths of these instances.
fn paths(alloc: Global, instances: &[&NetInstance]) -> Result<List<Text>, OutOfMemory>
    ensures { IfOk result (λ ids. ids ≡ map (λ t. t.path) (map (λ t. t.now) instances.now)) }
{
    let mut ids = List::new(alloc);
    for instance in instances {
        ids.push(instance.path.copy(alloc)?)?;
    }
    Ok(ids)
}

// A wire as a connection, its source first.
fn connection(alloc: Global, net: &Net, wire: &RawWire) -> Result<Pair, OutOfMemory>
    requires numbers { AreNumbers net.now }
    requires ends { (wire.now.left < length net.now.elements) × (wire.now.right < length net.now.elements) }
    ensures { IfOk result (λ pair. pair ≡ connection net.now wire.now) }
{
    let left = element_id(alloc, net, source_end(net, wire))?;
    let right = element_id(alloc, net, sink_end(net, wire))?;
    Ok(Pair { left, right })
}

// Wires as connections.
fn connections(alloc: Global, net: &Net, wires: &[&RawWire]) -> Result<List<Pair>, OutOfMemory>
    requires numbers { AreNumbers net.now }
    requires ends { All (HasEnds net.now) (map (λ w. w.now) wires.now) }
    ensures { IfOk result (λ pairs. pairs ≡ map (connection net.now) (map (λ w. w.now) wires.now)) }
{
    let mut pairs = List::new(alloc);
    for wire in wires {
        pairs.push(connection(alloc, net, wire)?)?;
    }
    Ok(pairs)
}

// What the node of an instance is, from its connector elements, its parts and the wires that stand in it.
fn body(
    alloc: Global,
    net: &Net,
    instance: &NetInstance,
    elements: &[NetElement],
    parts: &[&NetInstance],
    wires: &[&RawWire],
) -> Result<NodeBody, OutOfMemory>
    requires numbers { AreNumbers net.now }
    requires ends { All (HasEnds net.now) (map (λ w. w.now) wires.now) }
    ensures { IfOk result (λ b. b ≡ body_with net.now instance.now elements.now (map (λ t. t.now) parts.now) (map (λ w. w.now) wires.now) instance.now.body) }
{
    let connectors = connectors(alloc, instance, elements)?;
    match &instance.body {
        Body::Composite => Ok(NodeBody::Composite {
            connectors,
            instances: paths(alloc, parts)?,
            connections: connections(alloc, net, wires)?,
        }),
        Body::Elementary { kind, params } => Ok(NodeBody::Elementary {
            kind: Text::from_bytes(alloc, kind_name(*kind).as_bytes())?,
            given: given_all(alloc, *kind, params.values())?,
            connectors,
        }),
    }
}

// The node of a connector element.
fn connector_node(
    alloc: Global,
    instance: &NetInstance,
    element: &NetElement,
) -> Result<GraphNode, OutOfMemory>
    ensures { IfOk result (λ node. node ≡ connector_node instance.now element.now) }
{
    Ok(GraphNode {
        id: extended(alloc, instance.path.bytes(), element.name.bytes())?,
        body: NodeBody::Connector {
            kind: element.value_type,
            input: element.input,
            unit: element.unit.copy(alloc)?,
        },
    })
}

// Adds the nodes of connector elements.
fn push_connectors(
    alloc: Global,
    instance: &NetInstance,
    elements: &[NetElement],
    nodes: &mut List<GraphNode>,
) -> Result<(), OutOfMemory>
    ensures { OnOk result (nodes.new ≡ nodes.old ++ map (connector_node instance.now) elements.now) }
{
    for element in elements {
        nodes.push(connector_node(alloc, instance, element)?)?;
    }
    Ok(())
}

// Adds the node of an instance and those of its connector elements.
fn push_instance(
    alloc: Global,
    net: &Net,
    instance: &NetInstance,
    parts: &[&NetInstance],
    wires: &[&RawWire],
    nodes: &mut List<GraphNode>,
) -> Result<(), OutOfMemory>
    requires numbers { AreNumbers net.now }
    requires within { instance.now.first + instance.now.count ≤ length net.now.elements }
    requires ends { All (HasEnds net.now) (map (λ w. w.now) wires.now) }
    ensures { OnOk result (nodes.new ≡ nodes.old ++ nodes_with net.now instance.now (map (λ t. t.now) parts.now) (map (λ w. w.now) wires.now)) }
{
    let elements = own(net, instance);
    let node = GraphNode {
        id: instance.path.copy(alloc)?,
        body: body(alloc, net, instance, elements, parts, wires)?,
    };
    nodes.push(node)?;
    push_connectors(alloc, instance, elements, nodes)
}

// The graph of a net whose numbers are good.
fn graph(alloc: Global, net: &Net) -> Result<Graph, OutOfMemory>
    requires { IsIndexed net.now }
    ensures { IfOk result (λ g. g ≡ graph_of net.now) }
{
    let parts = all_parts(alloc, net)?;
    let wires = all_wires(alloc, net)?;
    let instances = net.instances.items();
    let mut nodes = List::new(alloc);
    for i in 0..instances.len() {
        push_instance(
            alloc,
            net,
            &instances[i],
            parts[i].items(),
            wires[i].items(),
            &mut nodes,
        )?;
    }
    Ok(Graph { nodes })
}

/// The graph of a net: for each instance, in the net's order, its node and then those of its connector elements. A composite
/// lists its connectors, its parts and the wires that stand in it, each from its source to its sink; an elementary block has
/// all its parameters with their values, Reals as their canonical texts. The graph of a well-formed net can be written by
/// `to_json` and `text`. The error is want of memory alone.
pub fn write(alloc: Global, net: &CheckedNet) -> Result<Graph, OutOfMemory>
    ensures graph { IfOk result (λ graph. graph ≡ graph_of net.now) }
    ensures writable { IfOk result (λ graph. IsWellFormed net.now → IsWritable graph) }
{
    graph(alloc, net.net())
}
