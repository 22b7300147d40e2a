// The JSON value of a graph, and its text.
ghost use Rattle.std.specs.Prelude.{◌≡◌, All, IfOk, IsUtf8, OnOk, codes, map, string_bytes};
ghost use Rattle.cdl_connect.specs.WellFormed.{is_plain};
ghost use Rattle.serde_json.specs.Data.{no_members, object, put as put_data, string};
ghost use Rattle.serde_json.specs.View.{members_view, view};
ghost use Rattle.serde_json.specs.Written.{compact_text};
ghost use Rattle.cxf_graph.specs.Document.{IsBody, IsGiven, IsItem, IsNode, IsPair, IsValue, IsWritable, body_members, connector_type, document, given_members, input_type, item_data, node_data, output_type, pair_data, pairs_data, unit_member, value_data};
ghost use Rattle.cxf_graph.specs.declared.graph.NodeBody.TheVariants.{Composite, Connector, Elementary};

use crate::graph::{Given, GivenItem, GivenValue, Graph, GraphNode, NodeBody, Pair};
use crate::members::{put, put_named, reference, references, string_of, string_value};
use cdl_source::{OutOfMemory, Text};
use cdl_values::ValueType;
use serde_json::{Map, Value};
use std::alloc::{AllocError, Global};

fn item_value(alloc: Global, item: &GivenItem) -> Result<Value, AllocError>
    requires { IsItem item.now }
    ensures { IfOk result (λ v. view v ≡ item_data item.now) }
{
    match item {
        GivenItem::Boolean(b) => Ok(Value::Bool(*b)),
        GivenItem::Integer(z) => Ok(Value::from(*z)),
        GivenItem::Str(text) => string_value(alloc, text.bytes()),
        GivenItem::Bad => unreachable!(),
    }
}

fn item_values(alloc: Global, items: &[GivenItem]) -> Result<Vec<Value>, AllocError>
    requires { All IsItem items.now }
    ensures { IfOk result (λ v. map view v.items ≡ map item_data items.now) }
{
    let mut values = Vec::new(alloc);
    for item in items {
        values.push(item_value(alloc, item)?)?;
    }
    Ok(values)
}

fn given_value(alloc: Global, value: &GivenValue) -> Result<Value, AllocError>
    requires { IsValue value.now }
    ensures { IfOk result (λ v. view v ≡ value_data value.now) }
{
    match value {
        GivenValue::Item(item) => item_value(alloc, item),
        GivenValue::List(items) => Ok(Value::Array(item_values(alloc, items.items())?)),
    }
}

// Puts a parameter among the members.
fn put_given(
    alloc: Global,
    members: &mut Map<String, Value>,
    given: &Given,
) -> Result<(), AllocError>
    requires { IsGiven given.now }
    ensures { OnOk result (members_view members.new.entries ≡ put_data given.now.name (value_data given.now.value) (members_view members.old.entries)) }
{
    let name = string_of(alloc, given.name.bytes())?;
    put(members, name, given_value(alloc, &given.value)?)
}

fn parameters_value(alloc: Global, given: &[Given]) -> Result<Value, AllocError>
    requires { All IsGiven given.now }
    ensures { IfOk result (λ v. view v ≡ object (given_members no_members given.now)) }
{
    let mut members = Map::new(alloc);
    for parameter in given {
        put_given(alloc, &mut members, parameter)?;
    }
    Ok(Value::Object(members))
}

fn pair_value(alloc: Global, pair: &Pair) -> Result<Value, AllocError>
    requires { IsPair pair.now }
    ensures { IfOk result (λ v. view v ≡ pair_data pair.now) }
{
    let mut ends = Vec::new(alloc);
    ends.push(reference(alloc, &pair.left)?)?;
    ends.push(reference(alloc, &pair.right)?)?;
    Ok(Value::Array(ends))
}

fn pair_values(alloc: Global, pairs: &[Pair]) -> Result<Vec<Value>, AllocError>
    requires { All IsPair pairs.now }
    ensures { IfOk result (λ v. map view v.items ≡ map pair_data pairs.now) }
{
    let mut values = Vec::new(alloc);
    for pair in pairs {
        values.push(pair_value(alloc, pair)?)?;
    }
    Ok(values)
}

fn pairs_value(alloc: Global, pairs: &[Pair]) -> Result<Value, AllocError>
    requires { All IsPair pairs.now }
    ensures { IfOk result (λ v. view v ≡ pairs_data pairs.now) }
{
    Ok(Value::Array(pair_values(alloc, pairs)?))
}

fn input_type(kind: ValueType) -> &'static str
    ensures { result.now ≡ input_type kind }
{
    match kind {
        ValueType::Boolean => "cdl:BooleanInput",
        ValueType::Integer => "cdl:IntegerInput",
        _ => "cdl:RealInput",
    }
}

fn output_type(kind: ValueType) -> &'static str
    ensures { result.now ≡ output_type kind }
{
    match kind {
        ValueType::Boolean => "cdl:BooleanOutput",
        ValueType::Integer => "cdl:IntegerOutput",
        _ => "cdl:RealOutput",
    }
}

// The `@type` of a connector.
fn connector_type(kind: ValueType, input: bool) -> &'static str
    ensures { result.now ≡ connector_type kind input }
{
    if input {
        input_type(kind)
    } else {
        output_type(kind)
    }
}

// Puts the `@type` of a node among its members.
fn put_type(
    alloc: Global,
    members: &mut Map<String, Value>,
    node_type: &str,
) -> Result<(), AllocError>
    ensures { OnOk result (members_view members.new.entries ≡ put_data (codes "@type") (string node_type.now) (members_view members.old.entries)) }
{
    let value = Value::String(String::from_str(alloc, node_type)?);
    put_named(alloc, members, "@type", value)
}

// The member of a unit, where there is one.
fn unit_members(alloc: Global, unit: &[u8]) -> Result<Map<String, Value>, AllocError>
    requires { IsUtf8 unit.now }
    ensures { IfOk result (λ m. members_view m.entries ≡ unit_member unit.now) }
{
    let mut members = Map::new(alloc);
    if unit.is_empty() {
        return Ok(members);
    }
    let value = string_value(alloc, unit)?;
    put_named(alloc, &mut members, "cdl:unit", value)?;
    Ok(members)
}

fn connector_members(
    alloc: Global,
    kind: ValueType,
    input: bool,
    unit: &Text,
) -> Result<Map<String, Value>, AllocError>
    requires { IsUtf8 unit.now }
    ensures { IfOk result (λ m. members_view m.entries ≡ body_members (Connector kind input unit.now)) }
{
    let mut members = unit_members(alloc, unit.bytes())?;
    put_type(alloc, &mut members, connector_type(kind, input))?;
    Ok(members)
}

fn composite_members(
    alloc: Global,
    connectors: &[Text],
    instances: &[Text],
    connections: &[Pair],
) -> Result<Map<String, Value>, AllocError>
    requires connectors { All IsUtf8 connectors.now }
    requires instances { All IsUtf8 instances.now }
    requires connections { All IsPair connections.now }
    ensures { IfOk result (λ m. members_view m.entries ≡ body_members (Composite connectors.now instances.now connections.now)) }
{
    let mut members = Map::new(alloc);
    let value = references(alloc, instances)?;
    put_named(alloc, &mut members, "cdl:instances", value)?;
    let value = references(alloc, connectors)?;
    put_named(alloc, &mut members, "cdl:connectors", value)?;
    let value = pairs_value(alloc, connections)?;
    put_named(alloc, &mut members, "cdl:connections", value)?;
    put_type(alloc, &mut members, "cdl:Composite")?;
    Ok(members)
}

fn elementary_members(
    alloc: Global,
    kind: &Text,
    given: &[Given],
    connectors: &[Text],
) -> Result<Map<String, Value>, AllocError>
    requires kind { IsUtf8 kind.now }
    requires given { All IsGiven given.now }
    requires connectors { All IsUtf8 connectors.now }
    ensures { IfOk result (λ m. members_view m.entries ≡ body_members (Elementary kind.now given.now connectors.now)) }
{
    let mut members = Map::new(alloc);
    let value = parameters_value(alloc, given)?;
    put_named(alloc, &mut members, "cdl:parameters", value)?;
    let value = string_value(alloc, kind.bytes())?;
    put_named(alloc, &mut members, "cdl:kind", value)?;
    let value = references(alloc, connectors)?;
    put_named(alloc, &mut members, "cdl:connectors", value)?;
    put_type(alloc, &mut members, "cdl:Elementary")?;
    Ok(members)
}

// The members of a node behind its `@id`.
fn body_members(alloc: Global, body: &NodeBody) -> Result<Map<String, Value>, AllocError>
    requires { IsBody body.now }
    ensures { IfOk result (λ m. members_view m.entries ≡ body_members body.now) }
{
    match body {
        NodeBody::Composite {
            connectors,
            instances,
            connections,
        } => composite_members(
            alloc,
            connectors.items(),
            instances.items(),
            connections.items(),
        ),
        NodeBody::Elementary {
            kind,
            given,
            connectors,
        } => elementary_members(alloc, kind, given.items(), connectors.items()),
        NodeBody::Connector { kind, input, unit } => connector_members(alloc, *kind, *input, unit),
        NodeBody::Other => unreachable!(),
    }
}

fn node_value(alloc: Global, node: &GraphNode) -> Result<Value, AllocError>
    requires { IsNode node.now }
    ensures { IfOk result (λ v. view v ≡ node_data node.now) }
{
    let mut members = body_members(alloc, &node.body)?;
    let id = string_value(alloc, node.id.bytes())?;
    put_named(alloc, &mut members, "@id", id)?;
    Ok(Value::Object(members))
}

fn node_values(alloc: Global, nodes: &[GraphNode]) -> Result<Vec<Value>, AllocError>
    requires { All IsNode nodes.now }
    ensures { IfOk result (λ v. map view v.items ≡ map node_data nodes.now) }
{
    let mut values = Vec::new(alloc);
    for node in nodes {
        values.push(node_value(alloc, node)?)?;
    }
    Ok(values)
}

fn document(alloc: Global, graph: &Graph) -> Result<Value, AllocError>
    requires { IsWritable graph.now }
    ensures { IfOk result (λ v. view v ≡ document graph.now) }
{
    let version = Value::String(String::from_str(alloc, "urn:cdl-cxf-profile:2")?);
    let mut context = Map::new(alloc);
    put_named(alloc, &mut context, "cdl", version)?;
    let nodes = Value::Array(node_values(alloc, graph.nodes.items())?);
    let mut members = Map::new(alloc);
    put_named(alloc, &mut members, "@graph", nodes)?;
    put_named(alloc, &mut members, "@context", Value::Object(context))?;
    Ok(Value::Object(members))
}

/// The JSON value of a graph, in version 2 of the profile. It needs texts that are UTF-8, items that are values, and nodes of
/// the profile. Of two parameters of one name the last stays. The error is want of memory alone.
pub fn to_json(alloc: Global, graph: &Graph) -> Result<Value, OutOfMemory>
    requires { IsWritable graph.now }
    ensures { IfOk result (λ value. view value ≡ document graph.now) }
{
    Ok(document(alloc, graph)?)
}

// The text of the document as a string.
fn document_text(alloc: Global, graph: &Graph) -> Result<String, AllocError>
    requires { IsWritable graph.now }
    ensures { IfOk result (λ s. string_bytes s ≡ compact_text (document graph.now)) }
{
    let value = document(alloc, graph)?;
    value.to_string(alloc)
}

/// The text of that value: members in byte order of their names, and no blanks. The error is want of memory alone.
pub fn text(alloc: Global, graph: &Graph) -> Result<Text, OutOfMemory>
    requires { IsWritable graph.now }
    ensures { IfOk result (λ text. text ≡ compact_text (document graph.now)) }
{
    Ok(Text::from_vec(document_text(alloc, graph)?.into_bytes()))
}
