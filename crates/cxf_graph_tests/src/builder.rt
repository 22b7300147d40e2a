// A net of lines of words.
use crate::values::{numbers, values};
use cdl_connect::{Body, Net, NetElement, NetInstance, RawWire};
use cdl_kinds::{check, find};
use cdl_source::{List, Text};
use cdl_values::ValueType;
use std::alloc::Global;
use std::test::Fail;

fn word_text(alloc: Global, word: &str) -> Result<Text, Fail> {
    Ok(Text::from_bytes(alloc, word.as_bytes())?)
}

fn place(count: usize) -> u32 {
    u32::try_from(count).unwrap_or(u32::MAX)
}

// A composite without a kind, else a block of it with these numbers as its values.
fn body(alloc: Global, kind: &str, given: &str) -> Result<Body, Fail> {
    if kind == "-" {
        return Ok(Body::Composite);
    }
    let kind = find(kind).ok_or("no kind")?;
    let given = numbers(alloc, given)?;
    match check(kind, values(alloc, kind, given.as_slice())?) {
        Ok(params) => Ok(Body::Elementary { kind, params }),
        Err(_fault) => Err("a condition is broken".into()),
    }
}

fn instance(alloc: Global, net: &Net, line: &str) -> Result<NetInstance, Fail> {
    let (head, given) = line.split_once(" | ").ok_or("no values")?;
    let mut words = head.split_whitespace();
    let path = words.next().ok_or("no path")?;
    let parent = words.next().ok_or("no parent")?;
    let count = words.next().ok_or("no count")?;
    let kind = words.next().ok_or("no kind")?;
    Ok(NetInstance {
        path: word_text(alloc, path)?,
        parent: parent.parse().ok(),
        body: body(alloc, kind, given)?,
        first: place(net.elements.items().len()),
        count: count.parse()?,
    })
}

fn element(alloc: Global, net: &Net, line: &str) -> Result<NetElement, Fail> {
    let mut words = line.split_whitespace();
    let name = words.next().ok_or("no name")?;
    let sort = words.next().ok_or("no type")?;
    let unit = words.next().unwrap_or("");
    Ok(NetElement {
        instance: place(net.instances.items().len()).saturating_sub(1),
        name: word_text(alloc, name)?,
        value_type: match sort {
            "BI" | "BO" => ValueType::Boolean,
            "II" | "IO" => ValueType::Integer,
            _ => ValueType::Real,
        },
        unit: word_text(alloc, unit)?,
        input: matches!(sort, "BI" | "II" | "RI"),
    })
}

fn wire(line: &str) -> Result<RawWire, Fail> {
    let mut words = line.split_whitespace();
    Ok(RawWire {
        scope: words.next().ok_or("no scope")?.parse()?,
        left: words.next().ok_or("no left end")?.parse()?,
        right: words.next().ok_or("no right end")?.parse()?,
    })
}

/// The net of these lines. `i PATH PARENT COUNT KIND | NUMBERS` is an instance with so many elements, a composite where the
/// kind is `-`; a Real stands as a count of millionths. `e NAME TYPE UNIT` is an element of the last instance, and
/// `w SCOPE LEFT RIGHT` a wire.
pub fn net_of(alloc: Global, lines: &str) -> Result<Net, Fail> {
    let mut net = Net {
        instances: List::new(alloc),
        elements: List::new(alloc),
        wires: List::new(alloc),
    };
    for line in lines.lines() {
        let (sort, rest) = line.split_once(' ').ok_or("no words")?;
        match sort {
            "i" => {
                let instance = instance(alloc, &net, rest)?;
                net.instances.push(instance)?;
            }
            "e" => {
                let element = element(alloc, &net, rest)?;
                net.elements.push(element)?;
            }
            _ => net.wires.push(wire(rest)?)?,
        }
    }
    Ok(net)
}
