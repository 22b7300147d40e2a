// The `@id`s of connector elements.
ghost use Rattle.std.specs.Prelude.{◌≡◌, ◌<◌, ◌++◌, IfOk, length};
ghost use Rattle.cdl_connect.specs.Nets.{element};
ghost use Rattle.cdl_connect.specs.Paths.{extended, is_root_path};
ghost use Rattle.cdl_connect.specs.WellFormed.{AreNumbers};
ghost use Rattle.cxf_graph.specs.Written.{element_id};

use cdl_connect::Net;
use cdl_source::{OutOfMemory, Text};
use std::alloc::Global;

// Whether the path is that of the root.
fn is_root(path: &[u8]) -> bool
    ensures { result ≡ is_root_path path.now }
{
    matches!(path, [b'#'])
}

// One text behind the other.
fn joined(alloc: Global, left: &[u8], right: &[u8]) -> Result<Text, OutOfMemory>
    ensures { IfOk result (λ text. text ≡ left.now ++ right.now) }
{
    let mut text = Text::from_bytes(alloc, left)?;
    text.push(right)?;
    Ok(text)
}

// The path, extended by a step.
pub(crate) fn extended(alloc: Global, path: &[u8], step: &[u8]) -> Result<Text, OutOfMemory>
    ensures { IfOk result (λ id. id ≡ extended path.now step.now) }
{
    if is_root(path) {
        return joined(alloc, path, step);
    }
    let start = joined(alloc, b".", step)?;
    joined(alloc, path, start.bytes())
}

// The `@id` of the element of that number.
pub(crate) fn element_id(alloc: Global, net: &Net, x: u32) -> Result<Text, OutOfMemory>
    requires numbers { AreNumbers net.now }
    requires there { x < length net.now.elements }
    ensures { IfOk result (λ id. id ≡ element_id net.now x) }
{
    let element = &net.elements.items()[x as usize];
    let owner = &net.instances.items()[element.instance as usize];
    extended(alloc, owner.path.bytes(), element.name.bytes())
}
