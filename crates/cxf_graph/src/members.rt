// Members and items of JSON values.
ghost use Rattle.std.specs.Prelude.{◌≡◌, All, IfOk, OnOk, IsUtf8, map, string_bytes};
ghost use Rattle.serde_json.specs.Data.{put, string};
ghost use Rattle.serde_json.specs.View.{members_view, view};
ghost use Rattle.cxf_graph.specs.Document.{reference, references};

use cdl_source::Text;
use serde_json::{Map, Value};
use std::alloc::{AllocError, Global};
use std::str::from_utf8;

// The text as a string.
pub(crate) fn string_of(alloc: Global, text: &[u8]) -> Result<String, AllocError>
    requires { IsUtf8 text.now }
    ensures { IfOk result (λ s. string_bytes s ≡ text.now) }
{
    match from_utf8(text) {
        Ok(text) => String::from_str(alloc, text),
        Err(_) => unreachable!(),
    }
}

// The text as a value.
pub(crate) fn string_value(alloc: Global, text: &[u8]) -> Result<Value, AllocError>
    requires { IsUtf8 text.now }
    ensures { IfOk result (λ v. view v ≡ string text.now) }
{
    Ok(Value::String(string_of(alloc, text)?))
}

// Puts a member among the others.
pub(crate) fn put(
    members: &mut Map<String, Value>,
    name: String,
    value: Value,
) -> Result<(), AllocError>
    ensures { OnOk result (members_view members.new.entries ≡ put (string_bytes name) (view value) (members_view members.old.entries)) }
{
    drop(members.insert(name, value)?);
    Ok(())
}

// Puts a member of that name among the others.
pub(crate) fn put_named(
    alloc: Global,
    members: &mut Map<String, Value>,
    name: &str,
    value: Value,
) -> Result<(), AllocError>
    ensures { OnOk result (members_view members.new.entries ≡ put name.now (view value) (members_view members.old.entries)) }
{
    put(members, String::from_str(alloc, name)?, value)
}

// A reference to the node of this `@id`.
pub(crate) fn reference(alloc: Global, id: &Text) -> Result<Value, AllocError>
    requires { IsUtf8 id.now }
    ensures { IfOk result (λ v. view v ≡ reference id.now) }
{
    let id = string_value(alloc, id.bytes())?;
    let mut members = Map::new(alloc);
    put_named(alloc, &mut members, "@id", id)?;
    Ok(Value::Object(members))
}

// A reference to each of these `@id`s.
fn reference_values(alloc: Global, ids: &[Text]) -> Result<Vec<Value>, AllocError>
    requires { All IsUtf8 ids.now }
    ensures { IfOk result (λ v. map view v.items ≡ map reference ids.now) }
{
    let mut values = Vec::new(alloc);
    for id in ids {
        values.push(reference(alloc, id)?)?;
    }
    Ok(values)
}

// References to the nodes of these `@id`s.
pub(crate) fn references(alloc: Global, ids: &[Text]) -> Result<Value, AllocError>
    requires { All IsUtf8 ids.now }
    ensures { IfOk result (λ v. view v ≡ references ids.now) }
{
    Ok(Value::Array(reference_values(alloc, ids)?))
}
