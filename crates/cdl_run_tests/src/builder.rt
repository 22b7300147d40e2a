// A net of a short text.
ghost use Rattle.std.specs.Prelude.{IfOk, OnOk};
ghost use Rattle.cdl_kinds.specs.Conditions.{Keeps};
ghost use Rattle.cdl_run_tests.specs.Kept.{AreKept};

use crate::values::{numbers, params_of};
use cdl_connect::{Body, Net, NetElement, NetInstance, RawWire};
use cdl_kinds::{Kind, Params, find, port, port_count};
use cdl_source::{List, Text};
use cdl_values::ValueType;
use std::alloc::Global;
use std::test::Fail;

fn place(count: usize) -> u32 {
    u32::try_from(count).unwrap_or(u32::MAX)
}

fn text_of(alloc: Global, text: &str) -> Result<Text, Fail> {
    Ok(Text::from_bytes(alloc, text.as_bytes())?)
}

// `iB` is a Boolean input, `oR` a Real output, `oI` an Integer output.
fn element(alloc: Global, instance: u32, word: &str) -> Result<NetElement, Fail> {
    let value_type = match word {
        "iB" | "oB" => ValueType::Boolean,
        "iI" | "oI" => ValueType::Integer,
        "iR" | "oR" => ValueType::Real,
        _ => return Err("no element".into()),
    };
    Ok(NetElement {
        instance,
        name: text_of(alloc, "x")?,
        value_type,
        unit: Text::new(alloc),
        input: word.starts_with('i'),
    })
}

// `0:1-4` is a wire of instance 0 between the elements 1 and 4.
fn wire(scope: &str, ends: &str) -> Result<RawWire, Fail> {
    let (left, right) = ends.split_once('-').ok_or("no ends")?;
    Ok(RawWire {
        scope: scope.parse()?,
        left: left.parse()?,
        right: right.parse()?,
    })
}

// Adds the elements of a block.
fn add_ports(
    alloc: Global,
    elements: &mut List<NetElement>,
    instance: u32,
    kind: Kind,
    params: &Params,
) -> Result<(), Fail>
    requires { Keeps kind params.now }
{
    for i in 0..port_count(kind, params) {
        let port = port(kind, params, i);
        elements.push(NetElement {
            instance,
            name: text_of(alloc, port.name)?,
            value_type: port.value_type,
            unit: Text::new(alloc),
            input: port.input,
        })?;
    }
    Ok(())
}

// Adds a composite with so many elements: the root, or a part of it.
fn add_composite(alloc: Global, net: &mut Net, word: &str, count: &str) -> Result<(), Fail>
    ensures { AreKept net.old.instances → OnOk result (AreKept net.new.instances) }
{
    let parent = if net.instances.items().is_empty() {
        None
    } else {
        Some(0)
    };
    let first = place(net.elements.items().len());
    net.instances.push(NetInstance {
        path: text_of(alloc, word)?,
        parent,
        body: Body::Composite,
        first,
        count: count.parse()?,
    })?;
    Ok(())
}

// Adds a block, a part of this composite, with its elements: its kind, and its parameters behind a `/` each.
fn add_block(alloc: Global, net: &mut Net, part: u32, word: &str) -> Result<(), Fail>
    ensures { AreKept net.old.instances → OnOk result (AreKept net.new.instances) }
{
    let (name, given) = word.split_once('/').unwrap_or((word, ""));
    let kind = find(name).ok_or("no kind")?;
    let given = numbers(alloc, given, '/')?;
    let params = params_of(alloc, kind, given.as_slice())?;
    let count = port_count(kind, &params);
    let number = place(net.instances.items().len());
    let first = place(net.elements.items().len());
    add_ports(alloc, &mut net.elements, number, kind, &params)?;
    net.instances.push(NetInstance {
        path: text_of(alloc, word)?,
        parent: Some(part),
        body: Body::Elementary { kind, params },
        first,
        count: place(count),
    })?;
    Ok(())
}

// Adds what a word of the text stands for. The number is that of the last composite.
fn add(alloc: Global, net: &mut Net, part: u32, word: &str) -> Result<u32, Fail>
    ensures { AreKept net.old.instances → OnOk result (AreKept net.new.instances) }
{
    let number = place(net.instances.items().len());
    if let Some(count) = word.strip_prefix('c') {
        add_composite(alloc, net, word, count)?;
        return Ok(number);
    }
    if let Some((scope, ends)) = word.split_once(':') {
        net.wires.push(wire(scope, ends)?)?;
    } else if word.len() == 2 {
        let element = element(alloc, number.saturating_sub(1), word)?;
        net.elements.push(element)?;
    } else {
        add_block(alloc, net, part, word)?;
    }
    Ok(part)
}

/// The net of a text, word by word. `c2` is a composite with two elements, the root or a part of it; `iB` a Boolean input and `oR`
/// a Real output of it; `Logical.Pre/1` a block with its parameters, which has its ports as elements and is a part of the last
/// composite; `0:1-4` is a wire of instance 0 between the elements 1 and 4.
#[tactic(auto, using(crate::proofs::Keeping::kept_none))]
pub fn net_of(alloc: Global, words: &str) -> Result<Net, Fail>
    ensures { IfOk result (λ n. AreKept n.instances) }
{
    let mut net = Net {
        instances: List::new(alloc),
        elements: List::new(alloc),
        wires: List::new(alloc),
    };
    let mut part = 0;
    for word in words.split_whitespace() {
        part = add(alloc, &mut net, part, word)?;
    }
    Ok(net)
}
