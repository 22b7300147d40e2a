// A net of a short text.
ghost use Rattle.cdl_kinds.specs.Conditions.{Fits};

use crate::delays::{pre, unit_delay};
use cdl_connect::{Body, Net, NetElement, NetInstance, RawWire};
use cdl_kinds::{Kind, check};
use cdl_source::{List, OutOfMemory, Text};
use cdl_values::{Array, ValueType};
use std::alloc::Global;

// A number: 0 to 9, and then a for 10.
fn number(sign: u8) -> u32 {
    match sign {
        b'0'..=b'9' => u32::from(sign - b'0'),
        b'a'..=b'z' => u32::from(sign - b'a') + 10,
        _ => 99,
    }
}

fn place(count: usize) -> u32 {
    u32::try_from(count).unwrap_or(u32::MAX)
}

fn text(alloc: Global, bytes: &[u8]) -> Result<Text, OutOfMemory> {
    let mut text = Text::new(alloc);
    text.push(bytes)?;
    Ok(text)
}

fn block(kind: Kind, values: List<Array>) -> Body
    requires { Fits kind values }
{
    match check(kind, values) {
        Ok(params) => Body::Elementary { kind, params },
        Err(_) => Body::Composite,
    }
}

// The block of a sign: `c` is a composite, `n` a Not, `a` an And, `p` a Pre, `u` a UnitDelay.
fn body(alloc: Global, sign: u8) -> Result<Body, OutOfMemory> {
    Ok(match sign {
        b'n' => block(Kind::LogicalNot, List::new(alloc)),
        b'a' => block(Kind::LogicalAnd, List::new(alloc)),
        b'p' => block(Kind::LogicalPre, pre(alloc)?),
        b'u' => block(Kind::DiscreteUnitDelay, unit_delay(alloc)?),
        _ => Body::Composite,
    })
}

fn value_type(sign: u8) -> ValueType {
    match sign {
        b'B' => ValueType::Boolean,
        b'I' => ValueType::Integer,
        _ => ValueType::Real,
    }
}

// One word of the text: an instance with its parent and how many elements follow, an element of the last instance with its type
// and its unit, or a wire with its scope and its ends.
fn add(alloc: Global, net: &mut Net, word: &[u8]) -> Result<(), OutOfMemory> {
    match word {
        [b'w', scope, left, right] => net.wires.push(RawWire {
            scope: number(*scope),
            left: number(*left),
            right: number(*right),
        }),
        [direction, sort, unit @ ..] if *direction == b'i' || *direction == b'o' => {
            net.elements.push(NetElement {
                instance: place(net.instances.items().len()).saturating_sub(1),
                name: text(alloc, b"x")?,
                value_type: value_type(*sort),
                unit: text(alloc, unit)?,
                input: *direction == b'i',
            })
        }
        [block, parent, count] => net.instances.push(NetInstance {
            path: text(alloc, b"#")?,
            parent: if *parent == b'-' {
                None
            } else {
                Some(number(*parent))
            },
            body: body(alloc, *block)?,
            first: place(net.elements.items().len()),
            count: number(*count),
        }),
        _ => Ok(()),
    }
}

/// The net of a text, word by word. `c-2` is a composite without a parent and with two elements, `n02` a Not that is a part of
/// instance 0; `iRK` is a Real input with the unit K, `oB` a Boolean output; `w014` is a wire of instance 0 from element 1 to
/// element 4. Numbers above 9 are letters.
pub fn net_of(alloc: Global, words: &str) -> Result<Net, OutOfMemory> {
    let mut net = Net {
        instances: List::new(alloc),
        elements: List::new(alloc),
        wires: List::new(alloc),
    };
    for word in words.split_whitespace() {
        add(alloc, &mut net, word.as_bytes())?;
    }
    Ok(net)
}
