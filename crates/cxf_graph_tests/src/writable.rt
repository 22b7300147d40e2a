// Whether a graph can be written, found by looking at each text of it.
ghost use Rattle.std.specs.Prelude.{◌≡◌, true, All, IsUtf8};
ghost use Rattle.cdl_connect.specs.WellFormed.{is_plain};
ghost use Rattle.cxf_graph.specs.declared.graph.NodeBody.TheVariants.{Composite, Connector, Elementary};
ghost use Rattle.cxf_graph.specs.Document.{IsBody, IsGiven, IsItem, IsNode, IsPair, IsValue, IsWritable};

use cdl_source::Text;
use cdl_values::ValueType;
use cxf_graph::{Given, GivenItem, GivenValue, Graph, GraphNode, NodeBody, Pair};
use std::str::from_utf8;

fn is_text(bytes: &[u8]) -> bool
    ensures { result ≡ true → IsUtf8 bytes.now }
{
    from_utf8(bytes).is_ok()
}

fn are_texts(texts: &[Text]) -> bool
    ensures { result ≡ true → All IsUtf8 texts.now }
{
    for text in texts {
        if !is_text(text.bytes()) {
            return false;
        }
    }
    true
}

fn is_item(item: &GivenItem) -> bool
    ensures { result ≡ true → IsItem item.now }
{
    match item {
        GivenItem::Boolean(_) => true,
        GivenItem::Integer(_) => true,
        GivenItem::Str(text) => is_text(text.bytes()),
        GivenItem::Bad => false,
    }
}

fn are_items(items: &[GivenItem]) -> bool
    ensures { result ≡ true → All IsItem items.now }
{
    for item in items {
        if !is_item(item) {
            return false;
        }
    }
    true
}

fn is_value(value: &GivenValue) -> bool
    ensures { result ≡ true → IsValue value.now }
{
    match value {
        GivenValue::Item(item) => is_item(item),
        GivenValue::List(items) => are_items(items.items()),
    }
}

fn is_given(given: &Given) -> bool
    ensures { result ≡ true → IsGiven given.now }
{
    if !is_text(given.name.bytes()) {
        return false;
    }
    is_value(&given.value)
}

fn are_given(given: &[Given]) -> bool
    ensures { result ≡ true → All IsGiven given.now }
{
    for parameter in given {
        if !is_given(parameter) {
            return false;
        }
    }
    true
}

fn is_pair(pair: &Pair) -> bool
    ensures { result ≡ true → IsPair pair.now }
{
    if !is_text(pair.left.bytes()) {
        return false;
    }
    is_text(pair.right.bytes())
}

fn are_pairs(pairs: &[Pair]) -> bool
    ensures { result ≡ true → All IsPair pairs.now }
{
    for pair in pairs {
        if !is_pair(pair) {
            return false;
        }
    }
    true
}

fn is_plain(kind: ValueType) -> bool
    ensures { result ≡ is_plain kind }
{
    match kind {
        ValueType::Boolean => true,
        ValueType::Integer => true,
        ValueType::Real => true,
        _ => false,
    }
}

fn is_composite(connectors: &[Text], instances: &[Text], connections: &[Pair]) -> bool
    ensures { result ≡ true → IsBody (Composite connectors.now instances.now connections.now) }
{
    if !are_texts(connectors) {
        return false;
    }
    if !are_texts(instances) {
        return false;
    }
    are_pairs(connections)
}

fn is_elementary(kind: &[u8], given: &[Given], connectors: &[Text]) -> bool
    ensures { result ≡ true → IsBody (Elementary kind.now given.now connectors.now) }
{
    if !is_text(kind) {
        return false;
    }
    if !are_given(given) {
        return false;
    }
    are_texts(connectors)
}

fn is_connector(kind: ValueType, input: bool, unit: &[u8]) -> bool
    ensures { result ≡ true → IsBody (Connector kind input unit.now) }
{
    let _ = input;
    if !is_plain(kind) {
        return false;
    }
    is_text(unit)
}

fn is_body(body: &NodeBody) -> bool
    ensures { result ≡ true → IsBody body.now }
{
    match body {
        NodeBody::Composite {
            connectors,
            instances,
            connections,
        } => is_composite(connectors.items(), instances.items(), connections.items()),
        NodeBody::Elementary {
            kind,
            given,
            connectors,
        } => is_elementary(kind.bytes(), given.items(), connectors.items()),
        NodeBody::Connector { kind, input, unit } => is_connector(*kind, *input, unit.bytes()),
        NodeBody::Other => false,
    }
}

fn is_node(node: &GraphNode) -> bool
    ensures { result ≡ true → IsNode node.now }
{
    if !is_text(node.id.bytes()) {
        return false;
    }
    is_body(&node.body)
}

fn are_nodes(nodes: &[GraphNode]) -> bool
    ensures { result ≡ true → All IsNode nodes.now }
{
    for node in nodes {
        if !is_node(node) {
            return false;
        }
    }
    true
}

/// Whether the graph can be written. It is never true of one that can't be.
pub fn is_writable(graph: &Graph) -> bool
    ensures { result ≡ true → IsWritable graph.now }
{
    are_nodes(graph.nodes.items())
}
