// Arrays as texts: a letter for the type, the sizes in brackets, a colon and the items. A star behind an item stands for as many
// of it as the sizes say.
use cdl_decimal::Real;
use cdl_source::{List, Text};
use cdl_values::{Array, Value, ValueType};
use std::alloc::{AllocError, Global};
use std::test::Fail;

fn type_of(letter: &str) -> Option<ValueType> {
    match letter {
        "B" => Some(ValueType::Boolean),
        "I" => Some(ValueType::Integer),
        "R" => Some(ValueType::Real),
        "S" => Some(ValueType::Str),
        "C" => Some(ValueType::Enumeration(1)),
        "D" => Some(ValueType::Enumeration(2)),
        _ => None,
    }
}

fn letter_of(value_type: ValueType) -> &'static str {
    match value_type {
        ValueType::Boolean => "B",
        ValueType::Integer => "I",
        ValueType::Real => "R",
        ValueType::Str => "S",
        ValueType::Enumeration(1) => "C",
        ValueType::Enumeration(_) => "D",
    }
}

// A Real is written as its count of millionths.
fn value(alloc: Global, value_type: ValueType, text: &str) -> Result<Value, Fail> {
    match value_type {
        ValueType::Boolean => Ok(Value::Boolean(text == "1")),
        ValueType::Integer => Ok(Value::Integer(text.parse()?)),
        ValueType::Real => {
            let count: i64 = text.parse()?;
            Ok(Value::Real(Real::from_count(count).ok_or("no Real")?))
        }
        ValueType::Str => {
            let mut bytes = Text::new(alloc);
            bytes.push(text.as_bytes())?;
            Ok(Value::Str(bytes))
        }
        ValueType::Enumeration(class) => {
            let ordinal: u32 = text.parse()?;
            Ok(Value::Enumeration { class, ordinal })
        }
    }
}

fn shape(alloc: Global, sizes: &str) -> Result<List<u32>, Fail> {
    let mut shape = List::new(alloc);
    for size in sizes.trim_end_matches(']').split(',') {
        if !size.is_empty() {
            let size: u32 = size.parse()?;
            shape.push(size)?;
        }
    }
    Ok(shape)
}

fn count(shape: &[u32]) -> usize {
    let mut count: usize = 1;
    for size in shape {
        count = count.saturating_mul(*size as usize);
    }
    count
}

// The array of a text.
pub fn array(alloc: Global, text: &str) -> Result<Array, Fail> {
    let (head, listed) = text.split_once(':').ok_or("no items")?;
    let (letter, sizes) = head.split_once('[').unwrap_or((head, ""));
    let value_type = type_of(letter).ok_or("no type")?;
    let shape = shape(alloc, sizes)?;
    let mut items = List::new(alloc);
    match listed.strip_suffix('*') {
        Some(item) => {
            for _ in 0..count(shape.items()) {
                items.push(value(alloc, value_type, item)?)?;
            }
        }
        None => {
            for item in listed.split(',') {
                if !item.is_empty() {
                    items.push(value(alloc, value_type, item)?)?;
                }
            }
        }
    }
    Ok(Array {
        value_type,
        shape,
        items,
    })
}

fn show_value(alloc: Global, value: &Value) -> Result<String, AllocError> {
    match value {
        Value::Boolean(b) => String::from_str(alloc, if *b { "1" } else { "0" }),
        Value::Integer(z) => format!(in alloc; "{z}"),
        Value::Real(x) => {
            let count = x.count();
            format!(in alloc; "{count}")
        }
        Value::Str(text) => {
            let mut shown = String::new(alloc);
            for byte in text.bytes() {
                shown.push(*byte as char)?;
            }
            Ok(shown)
        }
        Value::Enumeration { ordinal, .. } => format!(in alloc; "{ordinal}"),
    }
}

// The text of an array; of more than eight items the first stands for all.
pub fn show(alloc: Global, array: &Array) -> Result<String, AllocError> {
    let mut text = String::from_str(alloc, letter_of(array.value_type))?;
    for (i, size) in array.shape.items().iter().enumerate() {
        text.push_str(if i == 0 { "[" } else { "," })?;
        let size = format!(in alloc; "{size}")?;
        text.push_str(size.as_str())?;
    }
    if !array.shape.items().is_empty() {
        text.push_str("]")?;
    }
    text.push_str(":")?;
    let items = array.items.items();
    let many = items.len() > 8;
    for (i, item) in items.iter().enumerate() {
        if i > 0 && many {
            text.push_str("*")?;
            return Ok(text);
        }
        text.push_str(if i == 0 { "" } else { "," })?;
        let shown = show_value(alloc, item)?;
        text.push_str(shown.as_str())?;
    }
    Ok(text)
}
